//! Finds how an edit with a range changes one block in place.
ghost use Rattle.std.specs.Prelude.{◌≡◌, ◌<◌, ◌≤◌, [], length, IfSome};
ghost use Rattle.std.specs.Bool.{OnTrue};
ghost use Rattle.moc_blocks.specs.RangeList.{pixel_count, IsNormal};
ghost use Rattle.moc_blocks.specs.Private.Blocks.{next_of, width_of, IsStored};
ghost use Rattle.moc_blocks.specs.Private.Edits.{FitsSplice, IsBlockSplice, IsSplice, KeepsFillRule};
ghost use Rattle.moc_blocks.specs.Private.Edits.{new_ranges, old_ranges, spliced_length};
ghost use Rattle.moc_blocks.specs.declared.edits.rebuild.EditKind.TheVariants.{Insert, Remove};

use crate::block::{Block, MAX_BLOCK_RANGES, width_of_ranges};
use crate::cursor::{Cursor, start_of_next};
use crate::edits::place::find_run;
use crate::edits::reach::{MergedRange, merge_touching, start_of};
use crate::edits::rebuild::{EditKind, ranges_in_next};
use crate::lengths::ranges_in_last;
use crate::node::Node;
use crate::runs::count_ended_near;

/// How an edit changes the ranges of a block: at a position, up to two ranges are replaced by up to two others.
#[derive(Clone, Copy)]
pub enum Splice {
    /// A range is inserted before the one at the position.
    Insert {
        place: usize,
        range: (u64, u64),
    },
    /// The range at the position is replaced.
    Replace {
        place: usize,
        range: (u64, u64),
    },
    /// The range at the position is removed.
    Remove {
        place: usize,
    },
    /// The range at the position is replaced by two.
    Split {
        place: usize,
        first: (u64, u64),
        second: (u64, u64),
    },
    /// The range at the position and the next one are replaced by one.
    Join {
        place: usize,
        range: (u64, u64),
    },
}

impl Splice {
    /// Returns the number of ranges of a block after the splice, given their number before it.
    fn length_after(self, length: usize) -> usize
        requires inside { FitsSplice self length }
        requires fits { length ≤ MAX_BLOCK_RANGES }
        ensures { result ≡ spliced_length self length }
    {
        match self {
            Splice::Insert { .. } | Splice::Split { .. } => length + 1,
            Splice::Replace { .. } => length,
            Splice::Remove { .. } | Splice::Join { .. } => length - 1,
        }
    }

    /// Returns the number of pixels of the ranges that are replaced.
    pub(crate) fn old_width(self, ranges: &[(u64, u64)]) -> u64
        requires inside { FitsSplice self (length ranges.now) }
        requires normal { IsNormal ranges.now }
        ensures { result ≡ width_of (old_ranges self ranges.now) }
    {
        match self {
            Splice::Insert { .. } => 0,
            Splice::Replace { place, .. }
            | Splice::Remove { place }
            | Splice::Split { place, .. } => { width_of_ranges(&ranges[place..place + 1]) }
            Splice::Join { place, .. } => width_of_ranges(&ranges[place..place + 2]),
        }
    }

    /// Returns the number of pixels of the new ranges.
    pub(crate) fn new_width(self) -> u64
        requires { IsNormal (new_ranges self) }
        ensures { result ≡ width_of (new_ranges self) }
    {
        match self {
            Splice::Remove { .. } => 0,
            Splice::Insert { range, .. }
            | Splice::Replace { range, .. }
            | Splice::Join { range, .. } => range.1 - range.0,
            Splice::Split { first, second, .. } => first.1 - first.0 + (second.1 - second.0),
        }
    }
}

/// A change of a block in place: the position of its node, its position in this node, and the change of its ranges.
#[derive(Clone, Copy)]
pub struct BlockSplice {
    pub node: usize,
    pub block: usize,
    pub splice: Splice,
}

/// Returns whether no range begins before the limit.
fn begins_at_or_after(ranges: &[(u64, u64)], limit: u64) -> bool
    requires { limit ≤ pixel_count }
    ensures { OnTrue result (limit ≤ next_of ranges.now) }
{
    match ranges {
        [range, ..] => limit <= range.0,
        [] => true,
    }
}

/// Returns how the insertion of a range changes ranges, or `None` if it touches more than two of them. The range is
/// expected near the position `about`.
fn insertion(ranges: &[(u64, u64)], about: usize, from: u64, to: u64) -> Option<Splice>
    requires normal { IsNormal ranges.now }
    requires filled { from < to }
    requires within { to ≤ pixel_count }
    ensures { IfSome result (IsSplice Insert from to ranges.now) }
{
    let place = count_ended_near(ranges, from.saturating_sub(1), about);
    let start = start_of(from, &ranges[place..]);
    let MergedRange { end, rest } = merge_touching(start, to, &ranges[place..]);
    let range = (start, end);
    match ranges.len() - place - rest.len() {
        0 => Some(Splice::Insert { place, range }),
        1 => Some(Splice::Replace { place, range }),
        2 => Some(Splice::Join { place, range }),
        _ => None,
    }
}

/// Returns how the removal of a range changes ranges. Returns `None` if it changes more than one of them, or if all of
/// them end at or before `from`. A range that is not met is replaced by itself. The range is expected near the position
/// `about`.
fn removal(ranges: &[(u64, u64)], about: usize, from: u64, to: u64) -> Option<Splice>
    requires normal { IsNormal ranges.now }
    requires filled { from < to }
    requires within { to ≤ pixel_count }
    ensures { IfSome result (IsSplice Remove from to ranges.now) }
{
    let place = count_ended_near(ranges, from, about);
    let [range, rest @ ..] = &ranges[place..] else {
        return None;
    };
    if !begins_at_or_after(rest, to) {
        return None;
    }
    let before = (range.0, from);
    let after = (range.0.max(to), range.1);
    Some(match (range.0 < from, to < range.1) {
        (true, true) => Splice::Split {
            place,
            first: before,
            second: after,
        },
        (true, false) => Splice::Replace {
            place,
            range: before,
        },
        (false, true) => Splice::Replace {
            place,
            range: after,
        },
        (false, false) => Splice::Remove { place },
    })
}

/// Returns how an edit with a range changes a block, or `None` if it does not change it in place.
#[inline]
fn splice_of(block: &Block, edit: EditKind, from: u64, to: u64) -> Option<Splice>
    requires normal { IsNormal block.now }
    requires filled { from < to }
    requires within { to ≤ pixel_count }
    ensures { IfSome result (IsSplice edit from to block.now) }
{
    let about = block.estimated_place(from);
    match edit {
        EditKind::Insert => insertion(block.ranges(), about, from, to),
        EditKind::Remove => removal(block.ranges(), about, from, to),
    }
}

/// Returns whether a block of a length obeys the fill rule between blocks of two other lengths. A missing block has the
/// length 0.
fn keeps_fill_rule(before: usize, length: usize, after: usize) -> bool
    ensures { OnTrue result (KeepsFillRule before length after) }
{
    0 < length
        && length <= MAX_BLOCK_RANGES
        && (before == 0 || before > MAX_BLOCK_RANGES - length)
        && (after == 0 || after > MAX_BLOCK_RANGES - length)
}

/// Returns how an edit with a range changes one block in place. Returns `None` if the range touches a later block, if
/// an insertion touches more than two ranges, if a removal changes more than one, or if the fill rule would be broken.
///
/// # Complexity
///
/// Logarithmic in the number of ranges.
pub fn find_splice(nodes: &[Node], edit: EditKind, from: u64, to: u64) -> Option<BlockSplice>
    requires stored { IsStored [] nodes.now }
    requires filled { from < to }
    requires within { to ≤ pixel_count }
    ensures { IfSome result (λ s. IsBlockSplice edit from to nodes.now s.node s.block s.splice) }
{
    let place = find_run(nodes, from)?;
    let own = find_run(place.run.blocks(), from)?;
    let cursor = Cursor {
        blocks: own.after,
        nodes: place.after,
    };
    if start_of_next(cursor) <= to {
        return None;
    }
    let splice = splice_of(own.run, edit, from, to)?;
    let length = splice.length_after(own.run.ranges().len());
    let before = ranges_in_last(place.before, own.before);
    let after = ranges_in_next(own.after, place.after);
    if !keeps_fill_rule(before, length, after) {
        return None;
    }
    Some(BlockSplice {
        node: place.before.len(),
        block: own.before.len(),
        splice,
    })
}
