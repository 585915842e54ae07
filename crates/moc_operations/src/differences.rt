//! Difference of lists in blocks.
ghost use Rattle.std.specs.FinSet as set;
ghost use Rattle.std.specs.Bool.{OnTrue, OnFalse};
ghost use Rattle.std.specs.Prelude.{◌≡◌, ◌+◌, ◌<◌, ◌≤◌, ◌||◌, ◌&&◌, ◌⊎◌, max, [], length, ℕ, IfOk, OnOk};
ghost use Rattle.moc_blocks.specs.RangeList.{IsNormal, set_of};
ghost use Rattle.moc_blocks.specs.Lemmas.Members.{in_ranges};
ghost use Rattle.moc_blocks.specs.Private.Built.{ranges_of};
ghost use Rattle.moc_operations.specs.Private.Meeting.{gaps_of, CanIntersect, SkipsBelow, Intersects};

use crate::gaps::Gaps;
use crate::lookahead::{FAR, NEAR, are_even};
use crate::range_intersection::{MAX_OUTPUT, intersect_ranges};
use crate::sharing::{next_after_copied, push_part, push_whole, skip_below, start_of};
use crate::slice::difference_slices;
use moc_lists::{ListBuilder, RangeList, Ranges};
use std::alloc::{AllocError, Global};

/// Returns the pixels of the first list that are not in the second, range by range.
fn difference_lists(
    alloc: Global,
    mut xs: Ranges<'_>,
    mut ys: Ranges<'_>,
) -> Result<RangeList, AllocError>
    requires xs { IsNormal xs }
    requires ys { IsNormal ys }
    ensures { IfOk result (λ l. set_of l ≡ set.difference (set_of xs.entry) (set_of ys.entry)) }
{
    let mut built = ListBuilder::new(alloc, xs.capacity() + ys.capacity())?;
    let mut second = ys.next();
    let mut first = next_after_copied(alloc, &mut xs, start_of(second), &mut built)?;
    while let Some(x) = first {
        let Some(y) = second else {
            push_part(alloc, x.0, x.1, &mut built)?;
            first = next_after_copied(alloc, &mut xs, u64::MAX, &mut built)?;
            continue;
        };
        if y.1 <= x.0 {
            second = ys.next_ending_after(x.0, NEAR);
            continue;
        }
        push_part(alloc, x.0, x.1.min(y.0), &mut built)?;
        if y.1 < x.1 {
            first = Some((y.1, x.1));
            second = ys.next();
        } else if x.1 <= y.0 {
            first = next_after_copied(alloc, &mut xs, y.0, &mut built)?;
        } else {
            first = xs.advance(y, NEAR).next;
        }
    }
    built.finish(alloc)
}

/// Skips the ranges of a list that end at or before the limit: in the current block if they are many, and all of them
/// between blocks.
fn skip_through(ys: &mut Ranges<'_>, limit: u64)
    requires { IsNormal ys.old }
    ensures { SkipsBelow (limit + 1) ys.old ys.new }
{
    let _ = skip_below(ys, limit, FAR);
    if ys.is_in_block() {
        return;
    }
    ys.skip_to(limit);
}

/// Skips what the difference does not need. In the second list, skips the ranges that end before the first list's next
/// range. In the first list, if its iterator is not inside a block, skips what ends before the second list's next gap,
/// or appends the nodes and blocks that are inside this gap.
fn align_lists(
    alloc: Global,
    xs: &mut Ranges<'_>,
    ys: &mut Ranges<'_>,
    low: u64,
    built: &mut ListBuilder,
) -> Result<(), AllocError>
    requires can { CanIntersect xs.old (gaps_of low ys.old) (ranges_of built.old) }
    requires second_normal { IsNormal ys.old }
    ensures met { OnOk result (Intersects xs.old xs.new (gaps_of low ys.old) (gaps_of low ys.new)
        (ranges_of built.old) (ranges_of built.new)) }
    ensures second_normal { OnOk result (IsNormal ys.new) }
    ensures fewer { OnOk result (length xs.new + length ys.new ≤ length xs.old + length ys.old) }
{
    skip_through(ys, xs.next_from());
    let next = ys.next_from();
    push_whole(alloc, xs, (low, next), next, built)
}

/// Appends what the current or next block of a list has in the gaps of the other list's block, until one of them has no
/// more; `low` is the end of the last range of the other list that was passed. Returns whether both lists had a block.
#[tactic(auto, using(crate::proofs::GapsOf::length_gaps))]
fn subtract_block(
    alloc: Global,
    xs: &mut Ranges<'_>,
    ys: &mut Ranges<'_>,
    low: &mut u64,
    buffer: &mut [(u64, u64); MAX_OUTPUT],
    built: &mut ListBuilder,
) -> Result<bool, AllocError>
    requires can { CanIntersect xs.old (gaps_of low.old ys.old) (ranges_of built.old) }
    requires second_normal { IsNormal ys.old }
    ensures met { OnOk result (Intersects xs.old xs.new (gaps_of low.old ys.old) (gaps_of low.new ys.new)
        (ranges_of built.old) (ranges_of built.new)) }
    ensures second_normal { OnOk result (IsNormal ys.new) }
    ensures some { IfOk result (λ met. OnTrue met (length xs.new + length ys.new < length xs.old + length ys.old)) }
    ensures none { IfOk result (λ met. OnFalse met ((xs.new ≡ []) ⊎ (ys.new ≡ []))) }
{
    let Some(first) = xs.next_block() else {
        return Ok(false);
    };
    let Some(second) = ys.next_block() else {
        return Ok(false);
    };
    let gaps = Gaps {
        low: *low,
        ranges: second.ranges,
    };
    let met = intersect_ranges(first.ranges, &gaps, buffer);
    built.push_all(alloc, &buffer[..met.written])?;
    *low = gaps.low_at(met.second);
    xs.resume(&first.ranges[met.first..], first.tail);
    ys.resume(&second.ranges[met.second..], second.tail);
    Ok(true)
}

/// Appends the pixels of a list from `low` on, when the other list has no more ranges.
fn finish_difference(
    alloc: Global,
    mut xs: Ranges<'_>,
    low: u64,
    mut built: ListBuilder,
) -> Result<RangeList, AllocError>
    requires { CanIntersect xs (gaps_of low []) (ranges_of built) }
    ensures { IfOk result (λ l. (q : ℕ) →
        in_ranges l q ≡ (in_ranges (ranges_of built) q || (in_ranges xs.entry q && in_ranges (gaps_of low []) q))) }
{
    loop {
        push_whole(alloc, &mut xs, (low, u64::MAX), u64::MAX, &mut built)?;
        let Some(x) = xs.next() else {
            return built.finish(alloc);
        };
        push_part(alloc, x.0.max(low), x.1, &mut built)?;
    }
}

/// Returns the pixels of the first list that are not in the second, block by block.
fn difference_blocks(
    alloc: Global,
    mut xs: Ranges<'_>,
    mut ys: Ranges<'_>,
) -> Result<RangeList, AllocError>
    requires xs { IsNormal xs }
    requires ys { IsNormal ys }
    ensures { IfOk result (λ l. set_of l ≡ set.difference (set_of xs.entry) (set_of ys.entry)) }
{
    let mut built = ListBuilder::new(alloc, xs.capacity() + ys.capacity())?;
    let mut buffer = [(0, 0); MAX_OUTPUT];
    let mut low = 0;
    loop {
        align_lists(alloc, &mut xs, &mut ys, low, &mut built)?;
        let met = subtract_block(alloc, &mut xs, &mut ys, &mut low, &mut buffer, &mut built)?;
        if !met {
            return finish_difference(alloc, xs, low, built);
        }
    }
}

/// Returns the difference of two lists: the pixels of the first that are not in the second.
///
/// # Errors
///
/// Fails if an allocation fails.
pub fn difference(alloc: Global, xs: Ranges<'_>, ys: Ranges<'_>) -> Result<RangeList, AllocError>
    requires xs { IsNormal xs }
    requires ys { IsNormal ys }
    ensures { IfOk result (λ l. set_of l ≡ set.difference (set_of xs.entry) (set_of ys.entry)) }
{
    if let Some(slice) = xs.slice()
        && let Some(others) = ys.slice()
    {
        return difference_slices(alloc, slice, others);
    }
    if are_even(&xs, &ys) {
        return difference_blocks(alloc, xs, ys);
    }
    difference_lists(alloc, xs, ys)
}
