//! Inserts a range into a list of ranges; ranges that it touches are merged into it.
ghost use Rattle.std.specs.Prelude.{◌≡◌, ◌+◌, ◌<◌, ◌≤◌, [], min, IfOk};
ghost use Rattle.moc_blocks.specs.RangeList.{pixel_count, IsNormal};
ghost use Rattle.moc_blocks.specs.Private.Blocks.{next_of};
ghost use Rattle.moc_blocks.specs.Private.Edits.{AreEditedRanges, IsMergedRange};
ghost use Rattle.moc_blocks.specs.declared.edits.rebuild.EditKind.TheVariants.{Insert};

use crate::runs::count_ended;
use std::alloc::{AllocError, Global};

/// The end of a merged range, and the ranges after it.
#[derive(Clone, Copy)]
pub(crate) struct MergedRange<'a> {
    pub end: u64,
    pub rest: &'a [(u64, u64)],
}

/// Merges a range with the ranges of a list that it touches. Requires that none of them begins before it.
pub(crate) fn merge_touching(start: u64, to: u64, ranges: &[(u64, u64)]) -> MergedRange<'_>
    requires normal { IsNormal ranges.now }
    requires filled { start < to }
    requires within { to ≤ pixel_count }
    requires later { start ≤ next_of ranges.now }
    ensures { IsMergedRange start to ranges.entry.now result.end result.rest.now }
{
    let mut end = to;
    let mut rest = ranges;
    while let [range, after @ ..] = rest {
        if end < range.0 {
            break;
        }
        end = end.max(range.1);
        rest = after;
    }
    MergedRange { end, rest }
}

/// Returns the smaller of `from` and the start of the first range. If the first range touches a range that starts at
/// `from`, this is the start of the two merged.
pub(crate) fn start_of(from: u64, ranges: &[(u64, u64)]) -> u64
    ensures { result ≡ min from (next_of ranges.now) }
{
    match ranges {
        [range, ..] => from.min(range.0),
        [] => from,
    }
}

/// Returns the ranges with one range inserted. The new list has no spare capacity.
pub(crate) fn with_range(
    alloc: Global,
    ranges: &[(u64, u64)],
    from: u64,
    to: u64,
) -> Result<Vec<(u64, u64)>, AllocError>
    requires normal { IsNormal ranges.now }
    requires filled { from < to }
    requires within { to ≤ pixel_count }
    ensures { IfOk result (λ v. AreEditedRanges Insert from to ranges.now v.items) }
{
    let ended = count_ended(ranges, from.saturating_sub(1));
    let first = &ranges[..ended];
    let start = start_of(from, &ranges[ended..]);
    let MergedRange { end, rest } = merge_touching(start, to, &ranges[ended..]);
    let mut new = Vec::with_capacity(alloc, first.len() + 1 + rest.len())?;
    new.extend_from_slice(first)?;
    new.push((start, end))?;
    new.extend_from_slice(rest)?;
    Ok(new)
}
