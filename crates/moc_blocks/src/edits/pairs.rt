//! Edits two adjacent blocks of a node at once if an edit of one block would break the fill rule, or reaches the next.
ghost use Rattle.std.specs.Prelude.{◌<◌, ◌≤◌, ◌++◌, IfOk, IfSome};
ghost use Rattle.moc_blocks.specs.RangeList.{pixel_count, IsNormal};
ghost use Rattle.moc_blocks.specs.Blocks.{concat, AreBlocks};
ghost use Rattle.moc_blocks.specs.Private.Built.{EndsBelow};
ghost use Rattle.moc_blocks.specs.Private.Edits.{IsNodeBlocks, IsPair};

use crate::block::{Block, MAX_BLOCK_RANGES};
use crate::cursor::{Cursor, start_of_next};
use crate::edits::place::{SplitAtRun, find_run};
use crate::edits::rebuild::{EditKind, edit_ranges, ranges_in_next, with_pieces_between};
use crate::edits::splitting::split_list;
use crate::lengths::{ranges_in_first, ranges_in_last};
use crate::node::Node;
use std::alloc::{AllocError, Global};

/// Two adjacent blocks of a node, and the blocks before and after them.
#[derive(Clone, Copy)]
struct Pair<'a> {
    before: &'a [Block],
    first: &'a Block,
    second: &'a Block,
    after: &'a [Block],
}

/// Returns whether a block is better joined with the next block than with the previous one, from their lengths. A
/// missing block has the length 0. The longer neighbour is better, unless two blocks cannot hold the ranges of both and
/// one more range.
fn is_next_better(length: usize, previous: usize, next: usize) -> bool {
    let fits = next.max(previous) < (2 * MAX_BLOCK_RANGES).saturating_sub(length);
    if fits || next == 0 || previous == 0 {
        next >= previous
    } else {
        next < previous
    }
}

/// Returns the block at a place together with a neighbour: with the next block if the edit reaches it, and otherwise
/// with the better one (`is_next_better`). Returns `None` if the node has no such neighbour.
fn pair_at<'a>(place: SplitAtRun<'a, Block>, reaches_next: bool) -> Option<Pair<'a>>
    ensures { IfSome result (λ p. IsPair place.entry.before.now place.entry.run.now place.entry.after.now
        p.before.now p.first.now p.second.now p.after.now) }
{
    let previous = ranges_in_last(&[], place.before);
    let next = ranges_in_first(place.after);
    if reaches_next || is_next_better(place.run.ranges().len(), previous, next) {
        let [second, after @ ..] = place.after else {
            return None;
        };
        return Some(Pair {
            before: place.before,
            first: place.run,
            second,
            after,
        });
    }
    let [before @ .., first] = place.before else {
        return None;
    };
    Some(Pair {
        before,
        first,
        second: place.run,
        after: place.after,
    })
}

/// Edits the block of a range together with a neighbour in its node, and returns the new blocks of the node. The ranges
/// of the two blocks become one block if they fit, and otherwise two blocks of about the same length. Returns `None` if
/// the range reaches a third block or another node, if the node has no such neighbour, if both blocks would be empty,
/// or if the fill rule would be broken.
pub(crate) fn edit_pair(
    alloc: Global,
    around: &SplitAtRun<'_, Node>,
    edit: EditKind,
    from: u64,
    to: u64,
) -> Result<Option<Vec<Block>>, AllocError>
    requires sized { AreBlocks (concat around.now.before.now
        ++ (around.now.run.now ++ concat around.now.after.now)) }
    requires normal { IsNormal (concat (concat around.now.before.now
        ++ (around.now.run.now ++ concat around.now.after.now))) }
    requires filled { from < to }
    requires within { to ≤ pixel_count }
    requires below { EndsBelow from (concat (concat around.now.before.now)) }
    ensures { IfOk result (λ g. IfSome g (λ blocks. IsNodeBlocks edit from to (concat around.now.before.now)
        (concat around.now.after.now) around.now.run.now blocks.items)) }
{
    let Some(place) = find_run(around.run.blocks(), from) else {
        return Ok(None);
    };
    let next = start_of_next(Cursor {
        blocks: place.after,
        nodes: around.after,
    });
    let Some(pair) = pair_at(place, next <= to) else {
        return Ok(None);
    };
    let cursor = Cursor {
        blocks: pair.after,
        nodes: around.after,
    };
    if start_of_next(cursor) <= to {
        return Ok(None);
    }
    let mut both = Vec::with_capacity(alloc, 2 * MAX_BLOCK_RANGES)?;
    both.extend_from_slice(pair.first.ranges())?;
    both.extend_from_slice(pair.second.ranges())?;
    let ranges = edit_ranges(alloc, &both, edit, from, to)?;
    let front = ranges_in_last(around.before, pair.before);
    let back = ranges_in_next(pair.after, around.after);
    let Some(cut) = split_list(alloc, ranges, MAX_BLOCK_RANGES, front, back)? else {
        return Ok(None);
    };
    let blocks = with_pieces_between(alloc, pair.before, cut, pair.after)?;
    Ok(Some(blocks))
}
