//! Intersection of lists in blocks.
ghost use Rattle.std.specs.FinSet as set;
ghost use Rattle.std.specs.Bool.{OnTrue, OnFalse};
ghost use Rattle.std.specs.Prelude.{◌≡◌, ◌+◌, ◌<◌, ◌≤◌, ◌⊎◌, List, ℕ, [], length, min, max, IfOk, OnOk};
ghost use Rattle.moc_blocks.specs.RangeList.{pixel_count, IsNormal, set_of};
ghost use Rattle.moc_blocks.specs.Private.Blocks.{next_of};
ghost use Rattle.moc_operations.specs.Private.Walks.{from_current};
ghost use Rattle.moc_blocks.specs.Private.Built.{ranges_of, EndsBelow};
ghost use Rattle.moc_operations.specs.Private.Taking.{AddsPart, MovesCommon};
ghost use Rattle.moc_operations.specs.Private.Meeting.{CanIntersect, Intersects};

use crate::lookahead::{FAR, NEAR, are_even};
use crate::range_intersection::{MAX_OUTPUT, intersect_ranges};
use crate::sharing::{next_after_shared, push_part, push_whole, skip_below};
use crate::slice::intersection_slices;
use moc_lists::{ListBuilder, RangeList, Ranges};
use std::alloc::{AllocError, Global};

/// Appends what two ranges have in common to the result, unless it is empty.
#[inline]
fn push_common(
    alloc: Global,
    x: (u64, u64),
    y: (u64, u64),
    built: &mut ListBuilder,
) -> Result<(), AllocError>
    requires built { IsNormal (ranges_of built.old) }
    requires within { x.1 ≤ pixel_count }
    requires after { EndsBelow (max x.0 y.0) (ranges_of built.old) }
    ensures { OnOk result (AddsPart (max x.0 y.0) (min x.1 y.1) (ranges_of built.old) (ranges_of built.new)) }
{
    push_part(alloc, x.0.max(y.0), x.1.min(y.1), built)
}

/// Returns the next range after one that ended at `end`, when the other list is at the range `other`. First skips the
/// ranges that end before `other`, or appends the nodes and blocks that are inside it.
#[inline(always)]
fn next_overlapping(
    alloc: Global,
    xs: &mut Ranges<'_>,
    end: u64,
    other: (u64, u64),
    built: &mut ListBuilder,
) -> Result<Option<(u64, u64)>, AllocError>
    requires normal { IsNormal xs.old }
    requires tail { end ≤ next_of xs.old }
    requires ascending { other.0 < other.1 }
    requires within { other.1 ≤ pixel_count }
    requires built { IsNormal (ranges_of built.old) }
    requires after { EndsBelow (max (next_of xs.old) other.0) (ranges_of built.old) }
    ensures { IfOk result (λ next.
        MovesCommon xs.old (from_current next xs.new) other (ranges_of built.old) (ranges_of built.new)) }
{
    if end <= other.0 {
        return Ok(xs.next_ending_after(other.0, NEAR));
    }
    next_after_shared(alloc, xs, other.1 + 1, built)
}

/// Returns the pixels that both lists have, range by range.
fn intersection_lists(
    alloc: Global,
    mut xs: Ranges<'_>,
    mut ys: Ranges<'_>,
) -> Result<RangeList, AllocError>
    requires xs { IsNormal xs }
    requires ys { IsNormal ys }
    ensures { IfOk result (λ l. set_of l ≡ set.intersection (set_of xs.entry) (set_of ys.entry)) }
{
    let mut built = ListBuilder::new(alloc, xs.capacity() + ys.capacity())?;
    let mut first = xs.next();
    let mut second = ys.next();
    while let Some(x) = first {
        let Some(y) = second else {
            return built.finish(alloc);
        };
        push_common(alloc, x, y, &mut built)?;
        if x.1 <= y.1 {
            first = next_overlapping(alloc, &mut xs, x.1, y, &mut built)?;
        } else {
            second = next_overlapping(alloc, &mut ys, y.1, x, &mut built)?;
        }
    }
    built.finish(alloc)
}

/// Skips the ranges of the current block of one list that end before the other's next range, if they are many. Returns
/// whether ranges were skipped.
fn skip_leading(xs: &mut Ranges<'_>, ys: &mut Ranges<'_>) -> bool
    requires first_normal { IsNormal xs.old }
    requires second_normal { IsNormal ys.old }
    ensures met { (kept : List (ℕ × ℕ)) → CanIntersect xs.old ys.old kept
        → Intersects xs.old xs.new ys.old ys.new kept kept }
    ensures second_normal { IsNormal ys.new }
    ensures some { OnTrue result (length xs.new + length ys.new < length xs.old + length ys.old) }
    ensures fewer { length xs.new + length ys.new ≤ length xs.old + length ys.old }
{
    skip_below(xs, ys.next_from(), FAR) || skip_below(ys, xs.next_from(), FAR)
}

/// Appends what the current or next blocks of two lists have in common, until one of them has no more ranges. Returns
/// whether both lists had a block.
fn intersect_block(
    alloc: Global,
    xs: &mut Ranges<'_>,
    ys: &mut Ranges<'_>,
    buffer: &mut [(u64, u64); MAX_OUTPUT],
    built: &mut ListBuilder,
) -> Result<bool, AllocError>
    requires can { CanIntersect xs.old ys.old (ranges_of built.old) }
    requires second_normal { IsNormal ys.old }
    ensures met { OnOk result (Intersects xs.old xs.new ys.old ys.new (ranges_of built.old) (ranges_of built.new)) }
    ensures second_normal { OnOk result (IsNormal ys.new) }
    ensures some { IfOk result (λ met. OnTrue met (length xs.new + length ys.new < length xs.old + length ys.old)) }
    ensures none { IfOk result (λ met. OnFalse met ((xs.new ≡ []) ⊎ (ys.new ≡ []))) }
{
    let Some(first) = xs.next_block() else {
        return Ok(false);
    };
    let Some(second) = ys.next_block() else {
        return Ok(false);
    };
    let met = intersect_ranges(first.ranges, &second.ranges, buffer);
    built.push_all(alloc, &buffer[..met.written])?;
    xs.resume(&first.ranges[met.first..], first.tail);
    ys.resume(&second.ranges[met.second..], second.tail);
    Ok(true)
}

/// Advances in two lists: skips the ranges at the front of one that end before the other's next range, or appends what
/// two blocks have in common. Returns whether it advanced; if it did not, one of the lists has no more ranges.
fn intersect_next(
    alloc: Global,
    xs: &mut Ranges<'_>,
    ys: &mut Ranges<'_>,
    buffer: &mut [(u64, u64); MAX_OUTPUT],
    built: &mut ListBuilder,
) -> Result<bool, AllocError>
    requires can { CanIntersect xs.old ys.old (ranges_of built.old) }
    requires second_normal { IsNormal ys.old }
    ensures met { OnOk result (Intersects xs.old xs.new ys.old ys.new (ranges_of built.old) (ranges_of built.new)) }
    ensures second_normal { OnOk result (IsNormal ys.new) }
    ensures some { IfOk result (λ met. OnTrue met (length xs.new + length ys.new < length xs.old + length ys.old)) }
    ensures none { IfOk result (λ met. OnFalse met ((xs.new ≡ []) ⊎ (ys.new ≡ []))) }
{
    if skip_leading(xs, ys) {
        return Ok(true);
    }
    intersect_block(alloc, xs, ys, buffer, built)
}

/// If the first iterator is not inside a block and the second is, advances the first: skips what ends before the second
/// list's next range, or appends the nodes and blocks that are inside this range.
fn push_whole_common(
    alloc: Global,
    xs: &mut Ranges<'_>,
    ys: &Ranges<'_>,
    built: &mut ListBuilder,
) -> Result<(), AllocError>
    requires can { CanIntersect xs.old ys.now (ranges_of built.old) }
    requires second_normal { IsNormal ys.now }
    ensures met { OnOk result (Intersects xs.old xs.new ys.now ys.now (ranges_of built.old) (ranges_of built.new)) }
    ensures fewer { OnOk result (length xs.new ≤ length xs.old) }
{
    let Some(other) = ys.current_range() else {
        return Ok(());
    };
    push_whole(alloc, xs, other, other.1 + 1, built)
}

/// Returns the pixels that both lists have, block by block.
fn intersection_blocks(
    alloc: Global,
    mut xs: Ranges<'_>,
    mut ys: Ranges<'_>,
) -> Result<RangeList, AllocError>
    requires xs { IsNormal xs }
    requires ys { IsNormal ys }
    ensures { IfOk result (λ l. set_of l ≡ set.intersection (set_of xs.entry) (set_of ys.entry)) }
{
    let mut built = ListBuilder::new(alloc, xs.capacity() + ys.capacity())?;
    let mut buffer = [(0, 0); MAX_OUTPUT];
    loop {
        let met = intersect_next(alloc, &mut xs, &mut ys, &mut buffer, &mut built)?;
        if !met {
            return built.finish(alloc);
        }
        push_whole_common(alloc, &mut xs, &ys, &mut built)?;
        xs.enter_block();
        push_whole_common(alloc, &mut ys, &xs, &mut built)?;
    }
}

/// Returns the intersection of two lists: the pixels that both have.
///
/// # Errors
///
/// Fails if an allocation fails.
pub fn intersection(alloc: Global, xs: Ranges<'_>, ys: Ranges<'_>) -> Result<RangeList, AllocError>
    requires xs { IsNormal xs }
    requires ys { IsNormal ys }
    ensures { IfOk result (λ l. set_of l ≡ set.intersection (set_of xs.entry) (set_of ys.entry)) }
{
    if let Some(slice) = xs.slice()
        && let Some(others) = ys.slice()
    {
        return intersection_slices(alloc, slice, others);
    }
    if are_even(&xs, &ys) {
        return intersection_blocks(alloc, xs, ys);
    }
    intersection_lists(alloc, xs, ys)
}
