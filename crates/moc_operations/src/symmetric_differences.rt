//! Symmetric difference of lists in blocks.
ghost use Rattle.std.specs.Bool.{OnTrue, OnFalse};
ghost use Rattle.std.specs.Prelude.{◌≡◌, ◌+◌, ◌<◌, ◌≤◌, ◌++◌, ◌∷◌, ◌⊎◌, [], List, ℕ, length, min, take, drop};
ghost use Rattle.std.specs.Prelude.{IfOk, OnOk};
ghost use Rattle.moc_blocks.specs.RangeList.{pixel_count, IsNormal, set_of};
ghost use Rattle.moc_operations.specs.Operations.{symmetric};
ghost use Rattle.moc_blocks.specs.Lemmas.Members.{in_ranges};
ghost use Rattle.moc_blocks.specs.Private.Built.{ranges_of, EndsBelow};
ghost use Rattle.moc_operations.specs.Private.Walks.{from_current};
ghost use Rattle.moc_operations.specs.Private.Differing.{exactly_one, IsSymmetricStep, IsRemovedFromBoth};
ghost use Rattle.moc_operations.specs.Private.SymmetricBounds.{restored_range, HasBounds, KeepsBounds, IsBoundsStep};

use crate::lookahead::are_even;
use crate::sharing::{next_after_shared, push_part, push_shared_below, start_of};
use crate::symmetric_bounds::{MAX_BOUNDS, push_pairs, symmetric_bounds};
use moc_lists::{BlockAndTail, ListBuilder, MAX_BLOCK_RANGES, RangeList, Ranges};
use std::alloc::{AllocError, Global};

/// Removes `x`, which ends before `y`, from both ranges, and appends what exactly one of them has of it to the result.
/// Returns the rest of `y`, or both merged if they touch.
#[inline]
fn part(
    alloc: Global,
    x: (u64, u64),
    y: (u64, u64),
    built: &mut ListBuilder,
) -> Result<(u64, u64), AllocError>
    requires normal { IsNormal (ranges_of built.old) }
    requires filled { x.0 < x.1 }
    requires other { y.0 < y.1 }
    requires ends { x.1 < y.1 }
    requires within { y.1 ≤ pixel_count }
    requires after { EndsBelow (min x.0 y.0) (ranges_of built.old) }
    ensures { IfOk result (λ z. IsRemovedFromBoth x y z (ranges_of built.old) (ranges_of built.new)) }
{
    if x.1 < y.0 {
        built.push(alloc, x.0, x.1)?;
        return Ok(y);
    }
    if x.1 == y.0 {
        return Ok((x.0, y.1));
    }
    push_part(alloc, x.0.min(y.0), x.0.max(y.0), built)?;
    Ok((x.1, y.1))
}

/// The next range of a list after one was passed, if there is one, and the rest of the other list's range.
#[derive(Clone, Copy)]
struct NextAndRest {
    next: Option<(u64, u64)>,
    left: (u64, u64),
}

/// Passes a range of a list that ends before a range of another list.
#[inline]
fn remove_first(
    alloc: Global,
    x: (u64, u64),
    y: (u64, u64),
    xs: &mut Ranges<'_>,
    built: &mut ListBuilder,
) -> Result<NextAndRest, AllocError>
    requires built { IsNormal (ranges_of built.old) }
    requires normal { IsNormal (x ∷ xs.old) }
    requires other { y.0 < y.1 }
    requires ends { x.1 < y.1 }
    requires within { y.1 ≤ pixel_count }
    requires after { EndsBelow (min x.0 y.0) (ranges_of built.old) }
    ensures on { IfOk result (λ p. (ys whole_xs whole_ys : List (ℕ × ℕ)) →
        IsSymmetricStep (ranges_of built.old) (x ∷ xs.old) (y ∷ ys) whole_xs whole_ys →
        IsSymmetricStep (ranges_of built.new) (from_current p.next xs.new) (p.left ∷ ys) whole_xs whole_ys) }
    ensures fewer { IfOk result (λ p. length (from_current p.next xs.new) ≤ length xs.old) }
{
    let left = part(alloc, x, y, built)?;
    let next = next_after_shared(alloc, xs, left.0, built)?;
    Ok(NextAndRest { next, left })
}

/// Returns the list of the result, a range after it, if there is one, and the rest of its list.
fn finish_symmetric(
    alloc: Global,
    first: Option<(u64, u64)>,
    mut xs: Ranges<'_>,
    mut built: ListBuilder,
) -> Result<RangeList, AllocError>
    requires { IsNormal (ranges_of built ++ from_current first xs) }
    ensures { IfOk result (λ l. l ≡ ranges_of built ++ from_current first xs.entry) }
{
    let mut next = first;
    while let Some(x) = next {
        built.push(alloc, x.0, x.1)?;
        next = next_after_shared(alloc, &mut xs, u64::MAX, &mut built)?;
    }
    built.finish(alloc)
}

/// Returns the pixels that exactly one of two lists has, range by range.
fn symmetric_lists(
    alloc: Global,
    mut xs: Ranges<'_>,
    mut ys: Ranges<'_>,
) -> Result<RangeList, AllocError>
    requires xs { IsNormal xs }
    requires ys { IsNormal ys }
    ensures { IfOk result (λ l. set_of l ≡ symmetric (set_of xs.entry) (set_of ys.entry)) }
{
    let mut built = ListBuilder::new(alloc, xs.capacity() + ys.capacity())?;
    let mut first = next_after_shared(alloc, &mut xs, ys.next_from(), &mut built)?;
    let mut second = next_after_shared(alloc, &mut ys, start_of(first), &mut built)?;
    while let Some(x) = first {
        let Some(y) = second else {
            return finish_symmetric(alloc, first, xs, built);
        };
        if x.1 < y.1 {
            let passed = remove_first(alloc, x, y, &mut xs, &mut built)?;
            first = passed.next;
            second = Some(passed.left);
        } else if y.1 < x.1 {
            let passed = remove_first(alloc, y, x, &mut ys, &mut built)?;
            first = Some(passed.left);
            second = passed.next;
        } else {
            push_part(alloc, x.0.min(y.0), x.0.max(y.0), &mut built)?;
            first = next_after_shared(alloc, &mut xs, ys.next_from(), &mut built)?;
            second = next_after_shared(alloc, &mut ys, start_of(first), &mut built)?;
        }
    }
    finish_symmetric(alloc, second, ys, built)
}

/// The number of bounds of the next range of each list that were passed, and the open bound if one was passed.
#[derive(Clone, Copy)]
struct OpenBound {
    first: usize,
    second: usize,
    bound: Option<u64>,
}

/// Returns the first ranges, at most as many as fit into a block.
#[inline]
fn first_ranges(ranges: &[(u64, u64)]) -> &[(u64, u64)]
    ensures part { result.now ≡ take (length result.now) ranges.entry.now }
    ensures fits { length result.now ≤ MAX_BLOCK_RANGES }
    ensures some { 0 < length ranges.entry.now → 0 < length result.now }
    ensures within { length result.now ≤ length ranges.entry.now }
{
    &ranges[..ranges.len().min(MAX_BLOCK_RANGES)]
}

/// Continues after the first `passed` ranges of the current or next block of a list. If there are none, the list is
/// unchanged, so that the block can be appended whole.
fn resume_after<'a>(xs: &mut Ranges<'a>, block: BlockAndTail<'a>, passed: usize)
    requires within { passed ≤ length block.ranges.now }
    requires parts { block.ranges.now ++ block.tail ≡ xs.old }
    requires normal { IsNormal xs.old }
    ensures { xs.new ≡ drop passed block.entry.ranges.now ++ block.entry.tail }
{
    if passed > 0 {
        xs.resume(&block.ranges[passed..], block.tail);
    }
}

/// Appends the symmetric difference of the current or next blocks of two lists, until one of them has no more bounds.
/// Returns whether both lists had a block.
fn symmetric_block(
    alloc: Global,
    xs: &mut Ranges<'_>,
    ys: &mut Ranges<'_>,
    opened: &mut OpenBound,
    buffer: &mut [u64; MAX_BOUNDS],
    built: &mut ListBuilder,
) -> Result<bool, AllocError>
    requires started { HasBounds (ranges_of built.old) opened.old xs.old ys.old }
    ensures on { OnOk result
        (KeepsBounds (ranges_of built.old) (ranges_of built.new) opened.old opened.new xs.old xs.new ys.old ys.new) }
    ensures some { IfOk result (λ met. OnTrue met (length xs.new + length ys.new < length xs.old + length ys.old)) }
    ensures none { IfOk result (λ met. OnFalse met ((xs.new ≡ []) ⊎ (ys.new ≡ []))) }
{
    let Some(first) = xs.next_block() else {
        return Ok(false);
    };
    let Some(second) = ys.next_block() else {
        return Ok(false);
    };
    let crossed = symmetric_bounds(
        first_ranges(first.ranges),
        first_ranges(second.ranges),
        (opened.first, opened.second),
        opened.bound,
        buffer,
    );
    opened.bound = push_pairs(alloc, &buffer[..crossed.written], built)?;
    opened.first = crossed.first % 2;
    opened.second = crossed.second % 2;
    resume_after(xs, first, crossed.first / 2);
    resume_after(ys, second, crossed.second / 2);
    Ok(true)
}

/// Appends the nodes and blocks of each list that end before the other's next range, in turn, until neither list has
/// one. Appends none if a bound is open.
fn push_shared_apart(
    alloc: Global,
    xs: &mut Ranges<'_>,
    ys: &mut Ranges<'_>,
    opened: &OpenBound,
    built: &mut ListBuilder,
) -> Result<(), AllocError>
    requires started { HasBounds (ranges_of built.old) opened.now xs.old ys.old }
    ensures on { OnOk result
        (KeepsBounds (ranges_of built.old) (ranges_of built.new) opened.now opened.now xs.old xs.new ys.old ys.new) }
    ensures fewer { OnOk result (length xs.new + length ys.new ≤ length xs.old + length ys.old) }
{
    let None = opened.bound else {
        return Ok(());
    };
    loop {
        push_shared_below(alloc, xs, ys.next_from(), built)?;
        let carried = built.push_shared_next(alloc, ys, xs.next_from())?;
        if !carried {
            return Ok(());
        }
    }
}

/// Returns the next range of a list, which begins at the open bound if its first bound was passed.
#[inline]
fn restore_range(range: Option<(u64, u64)>, passed: usize, bound: Option<u64>) -> Option<(u64, u64)>
    ensures { result ≡ restored_range range passed bound }
{
    match (range, bound) {
        (Some(range), Some(bound)) if passed == 1 => Some((bound, range.1)),
        _ => range,
    }
}

/// Returns the list of the result and the rest of the list that has more ranges.
fn finish_symmetric_blocks(
    alloc: Global,
    mut xs: Ranges<'_>,
    mut ys: Ranges<'_>,
    opened: OpenBound,
    built: ListBuilder,
) -> Result<RangeList, AllocError>
    requires started { HasBounds (ranges_of built) opened xs ys }
    requires ended { (xs ≡ []) ⊎ (ys ≡ []) }
    ensures { IfOk result (λ l. (whole_xs whole_ys : List (ℕ × ℕ)) → IsBoundsStep (ranges_of built)
        opened.bound opened.first opened.second xs.entry ys.entry whole_xs whole_ys →
        (q : ℕ) → in_ranges l q ≡ exactly_one (in_ranges whole_xs q) (in_ranges whole_ys q)) }
{
    let first = restore_range(xs.next(), opened.first, opened.bound);
    let second = restore_range(ys.next(), opened.second, opened.bound);
    match first {
        None => finish_symmetric(alloc, second, ys, built),
        Some(_) => finish_symmetric(alloc, first, xs, built),
    }
}

/// Returns the pixels that exactly one of two lists has, block by block.
fn symmetric_blocks(
    alloc: Global,
    mut xs: Ranges<'_>,
    mut ys: Ranges<'_>,
) -> Result<RangeList, AllocError>
    requires xs { IsNormal xs }
    requires ys { IsNormal ys }
    ensures { IfOk result (λ l. set_of l ≡ symmetric (set_of xs.entry) (set_of ys.entry)) }
{
    let mut built = ListBuilder::new(alloc, xs.capacity() + ys.capacity())?;
    let mut buffer = [0; MAX_BOUNDS];
    let mut opened = OpenBound {
        first: 0,
        second: 0,
        bound: None,
    };
    loop {
        push_shared_apart(alloc, &mut xs, &mut ys, &opened, &mut built)?;
        let met = symmetric_block(
            alloc,
            &mut xs,
            &mut ys,
            &mut opened,
            &mut buffer,
            &mut built,
        )?;
        if !met {
            return finish_symmetric_blocks(alloc, xs, ys, opened, built);
        }
    }
}

/// Returns the symmetric difference of two lists: the pixels that exactly one of them has.
///
/// # Errors
///
/// Fails if an allocation fails.
pub fn symmetric(alloc: Global, xs: Ranges<'_>, ys: Ranges<'_>) -> Result<RangeList, AllocError>
    requires xs { IsNormal xs }
    requires ys { IsNormal ys }
    ensures { IfOk result (λ l. set_of l ≡ symmetric (set_of xs.entry) (set_of ys.entry)) }
{
    if are_even(&xs, &ys) {
        return symmetric_blocks(alloc, xs, ys);
    }
    symmetric_lists(alloc, xs, ys)
}
