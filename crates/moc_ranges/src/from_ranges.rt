//! Sets from pairs in any order, and from ranges widened to cells.
ghost use Rattle.std.specs.Prelude.{◌≡◌, ℕ, ◌*◌, ◌<◌, ◌≤◌, length, map, if◌then◌else◌, IfOk, IfErr, OnOk, OnErr};
ghost use Rattle.std.specs.Prelude.{None, Some};
ghost use Rattle.moc_ranges.specs.Errors.{first_error};
ghost use Rattle.moc_ranges.specs.Private.Sorted.{IsSortedFrom};
ghost use Rattle.moc_blocks.specs.Lemmas.Members.{in_ranges};
ghost use Rattle.moc_blocks.specs.RangeList.{IsNormal, set_of, numbers, pixel_count};
ghost use Rattle.moc_blocks.specs.Private.Blocks.{last_of};
ghost use Rattle.std.specs.FinSet as set;
ghost use Rattle.moc_ranges.specs.Private.Widen.{IsCellSize, widen};

use crate::errors::RangesError;
use crate::pixels::PIXEL_COUNT;
use moc_lists::{ListBuilder, RangeList, Ranges, end_below, extend_or_push};
use std::alloc::{AllocError, Global};

/// Returns the error of the first invalid pair, if there is one.
pub fn check_pairs(pairs: &[(u64, u64)]) -> Result<(), RangesError>
    ensures ok { OnOk result (first_error pairs.now ≡ None) }
    ensures err { IfErr result (λ e. first_error pairs.now ≡ Some e) }
{
    for (at, pair) in pairs.iter().enumerate() {
        if pair.1 < pair.0 {
            return Err(RangesError::Backwards { at });
        }
        if PIXEL_COUNT < pair.1 {
            return Err(RangesError::PixelTooLarge { at });
        }
    }
    Ok(())
}

/// Returns the pairs that are not empty, sorted by their starts. Sorts only if they are not sorted already.
pub fn sort_nonempty(alloc: Global, pairs: &[(u64, u64)]) -> Result<Vec<(u64, u64)>, AllocError>
    requires { first_error pairs.now ≡ None }
    ensures order { IfOk result (λ v. IsSortedFrom 0 v.items) }
    ensures set { IfOk result (λ v. (q : ℕ) → in_ranges v.items q ≡ in_ranges pairs.now q) }
{
    let mut filled = Vec::with_capacity(alloc, pairs.len())?;
    let mut ascending = true;
    let mut last = 0;
    for pair in pairs {
        if pair.0 < pair.1 {
            ascending = ascending && last <= pair.0;
            last = pair.0;
            filled.push(*pair)?;
        }
    }
    if !ascending {
        filled.sort_unstable_by_key(|pair| pair.0);
    }
    Ok(filled)
}

/// Returns the list of the pixels in the pairs. Requires that they are sorted by their starts.
pub fn build(alloc: Global, pairs: &[(u64, u64)]) -> Result<RangeList, AllocError>
    requires { IsSortedFrom 0 pairs.now }
    ensures { IfOk result (λ l. set_of l ≡ set_of pairs.now) }
{
    let mut built = ListBuilder::new(alloc, pairs.len())?;
    let [first, others @ ..] = pairs else {
        return built.finish(alloc);
    };
    let mut last = *first;
    for pair in others {
        last = extend_or_push(alloc, last, *pair, &mut built)?;
    }
    built.push(alloc, last.0, last.1)?;
    built.finish(alloc)
}

/// Adds a range to others if it does not begin before the last of them, and returns whether it was added.
#[inline]
pub fn append(ranges: &mut Vec<(u64, u64)>, from: u64, to: u64) -> Result<bool, AllocError>
    requires normal { IsNormal ranges.old.items }
    requires ascending { from < to }
    requires within { to ≤ pixel_count }
    ensures normal { IsNormal ranges.new.items }
    ensures set { IfOk result (λ added.
        set_of ranges.new.items
        ≡ (if added then set.union (set_of ranges.old.items) (numbers from to) else set_of ranges.old.items)) }
    ensures unchanged { OnErr result (ranges.new.items ≡ ranges.old.items) }
{
    if end_below(ranges, from) {
        ranges.push((from, to))?;
        return Ok(true);
    }
    Ok(extend_last(ranges, from, to))
}

/// Extends the last range by one that begins inside it or at its end, and returns whether it was extended. Does nothing
/// if the range begins before the last.
#[inline]
fn extend_last(ranges: &mut Vec<(u64, u64)>, from: u64, to: u64) -> bool
    requires normal { IsNormal ranges.old.items }
    requires some { 0 < length ranges.old.items }
    requires reached { from ≤ last_of ranges.old.items }
    requires ascending { from < to }
    requires within { to ≤ pixel_count }
    ensures normal { IsNormal ranges.new.items }
    ensures set { set_of ranges.new.items
        ≡ (if result then set.union (set_of ranges.old.items) (numbers from to) else set_of ranges.old.items) }
{
    let last = ranges.len() - 1;
    let (begin, end) = ranges[last];
    if from < begin {
        return false;
    }
    ranges[last] = (begin, end.max(to));
    true
}

/// Returns a range extended to whole cells of the given size: from the start of the first cell that it meets to the end
/// of the last.
#[inline]
fn widen_range(size: u64, from: u64, to: u64) -> (u64, u64)
    requires size { IsCellSize size }
    requires ascending { from < to }
    requires within { to ≤ pixel_count }
    ensures { result ≡ widen size (from, to) }
{
    let mask = !(size - 1);
    (from & mask, ((to - 1) & mask) + size)
}

/// Returns the list of the pixels in the ranges, each extended to whole cells of the given size.
pub fn build_widened(
    alloc: Global,
    size: u64,
    mut ranges: Ranges<'_>,
) -> Result<RangeList, AllocError>
    requires size { IsCellSize size }
    requires ranges { IsNormal ranges }
    ensures { IfOk result (λ l. set_of l ≡ set_of (map (widen size) ranges.entry)) }
{
    let mut built = ListBuilder::new(alloc, ranges.capacity())?;
    let Some((from, to)) = ranges.next() else {
        return built.finish(alloc);
    };
    let mut last = widen_range(size, from, to);
    for (from, to) in ranges {
        let next = widen_range(size, from, to);
        last = extend_or_push(alloc, last, next, &mut built)?;
    }
    built.push(alloc, last.0, last.1)?;
    built.finish(alloc)
}
