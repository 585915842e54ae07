//! Union of lists in blocks. Blocks that do not overlap the other list are shared.
ghost use Rattle.std.specs.FinSet as set;
ghost use Rattle.std.specs.Prelude.{◌≡◌, ◌+◌, ◌<◌, ◌≤◌, ◌||◌, ◌++◌, ◌∷◌, [], List, ℕ, IfOk, IfSome, OnOk};
ghost use Rattle.moc_blocks.specs.RangeList.{IsNormal, set_of};
ghost use Rattle.moc_blocks.specs.Private.Blocks.{next_of};
ghost use Rattle.moc_blocks.specs.Private.Built.{ranges_of, CanMerge};
ghost use Rattle.moc_operations.specs.Private.Taking.{CanMove, MovesNext, TakesFirst, IsMerging, MovesBoth};

use crate::lookahead::are_uneven;
use crate::slice::union_slices;
use moc_lists::{BlockAndTail, ListBuilder, RangeList, Ranges, extend_or_push};
use std::alloc::{AllocError, Global};

/// Moves the next range of a list to the result; it begins at or before the limit.
#[inline]
fn push_next(
    alloc: Global,
    xs: &mut Ranges<'_>,
    limit: u64,
    built: &mut ListBuilder,
) -> Result<(), AllocError>
    requires { CanMove xs.old limit built.old }
    ensures { OnOk result (MovesNext xs.old xs.new limit built.old built.new) }
{
    if let Some(range) = xs.next() {
        built.push_or_merge(alloc, range.0, range.1)?;
    }
    Ok(())
}

/// Moves the next ranges of the current block that end below the limit, or only the next range, to the result.
fn move_ranges(
    alloc: Global,
    xs: &mut Ranges<'_>,
    limit: u64,
    built: &mut ListBuilder,
) -> Result<(), AllocError>
    requires { CanMove xs.old limit built.old }
    ensures { OnOk result (MovesNext xs.old xs.new limit built.old built.new) }
{
    if built.ends_before(xs.next_from()) {
        if let Some(ranges) = xs.take_ranges_below(limit) {
            return built.push_all(alloc, ranges);
        }
    }
    push_next(alloc, xs, limit, built)
}

/// Moves the next node or block of a list, if it ends below the limit, or only the next range, to the result.
fn move_blocks(
    alloc: Global,
    xs: &mut Ranges<'_>,
    limit: u64,
    built: &mut ListBuilder,
) -> Result<(), AllocError>
    requires { CanMove xs.old limit built.old }
    ensures { OnOk result (MovesNext xs.old xs.new limit built.old built.new) }
{
    if built.ends_before(xs.next_from()) {
        let carried = built.push_shared_next(alloc, xs, limit)?;
        if carried {
            return Ok(());
        }
    }
    push_next(alloc, xs, limit, built)
}

/// Moves the next ranges, block or node of a list, if they end below the limit, or only the next range, to the result.
#[inline]
fn move_next(
    alloc: Global,
    xs: &mut Ranges<'_>,
    limit: u64,
    built: &mut ListBuilder,
) -> Result<(), AllocError>
    requires { CanMove xs.old limit built.old }
    ensures { OnOk result (MovesNext xs.old xs.new limit built.old built.new) }
{
    if xs.is_in_block() {
        return move_ranges(alloc, xs, limit, built);
    }
    move_blocks(alloc, xs, limit, built)
}

/// A range, and the remaining ranges of two blocks after it.
#[derive(Clone, Copy)]
struct FirstRange<'a, 'b> {
    range: (u64, u64),
    xs: &'a [(u64, u64)],
    ys: &'b [(u64, u64)],
}

/// Returns the range of two blocks that begins first, or `None` if one of them has no more ranges.
#[inline]
fn take_first<'a, 'b>(xs: &'a [(u64, u64)], ys: &'b [(u64, u64)]) -> Option<FirstRange<'a, 'b>>
    ensures { IfSome result (λ t. (tail_xs tail_ys : List (ℕ × ℕ)) → IsNormal (xs.entry.now ++ tail_xs) →
        IsNormal (ys.entry.now ++ tail_ys) → TakesFirst (xs.entry.now ++ tail_xs) (ys.entry.now ++ tail_ys)
        t.range (t.xs.now ++ tail_xs) (t.ys.now ++ tail_ys)) }
{
    let [x, more_xs @ ..] = xs else {
        return None;
    };
    let [y, more_ys @ ..] = ys else {
        return None;
    };
    let x = *x;
    let y = *y;
    if x.0 <= y.0 {
        Some(FirstRange {
            range: x,
            xs: more_xs,
            ys,
        })
    } else {
        Some(FirstRange {
            range: y,
            xs,
            ys: more_ys,
        })
    }
}

/// The remaining ranges of two blocks, and the open range.
#[derive(Clone, Copy)]
struct Remaining<'a, 'b> {
    last: (u64, u64),
    xs: &'a [(u64, u64)],
    ys: &'b [(u64, u64)],
}

/// Merges the ranges of two blocks until one has no more.
#[inline]
fn merge_ranges<'a, 'b>(
    alloc: Global,
    last: (u64, u64),
    first: &BlockAndTail<'a>,
    second: &BlockAndTail<'b>,
    built: &mut ListBuilder,
) -> Result<Remaining<'a, 'b>, AllocError>
    requires opened { IsNormal (ranges_of built.old ++ last ∷ []) }
    requires first_normal { IsNormal (first.now.ranges.now ++ first.now.tail) }
    requires second_normal { IsNormal (second.now.ranges.now ++ second.now.tail) }
    requires first_later { last.0 ≤ next_of (first.now.ranges.now ++ first.now.tail) }
    requires second_later { last.0 ≤ next_of (second.now.ranges.now ++ second.now.tail) }
    ensures { IfOk result (λ l. IsMerging (ranges_of built.new) l.last
        (l.xs.now ++ first.now.tail) (l.ys.now ++ second.now.tail)
        (ranges_of built.old ++ last ∷ [])
        (first.now.ranges.now ++ first.now.tail) (second.now.ranges.now ++ second.now.tail)) }
{
    let mut last = last;
    let mut xs = first.ranges;
    let mut ys = second.ranges;
    while let Some(turn) = take_first(xs, ys) {
        last = extend_or_push(alloc, last, turn.range, built)?;
        xs = turn.xs;
        ys = turn.ys;
    }
    Ok(Remaining { last, xs, ys })
}

/// Merges the ranges of two lists, until one block has no more. Does nothing if `turns` is not set, if a list is
/// between blocks, or if the builder has no range that can be extended.
fn merge_blocks(
    alloc: Global,
    xs: &mut Ranges<'_>,
    ys: &mut Ranges<'_>,
    turns: bool,
    built: &mut ListBuilder,
) -> Result<(), AllocError>
    requires first_normal { IsNormal xs.old }
    requires second_normal { IsNormal ys.old }
    requires built { IsNormal (ranges_of built.old) }
    requires can_first { CanMerge built.old (next_of xs.old) }
    requires can_second { CanMerge built.old (next_of ys.old) }
    ensures { OnOk result (MovesBoth xs.old xs.new ys.old ys.new built.old built.new) }
{
    if !turns || !xs.is_in_block() || !ys.is_in_block() {
        return Ok(());
    }
    let Some(last) = built.pop() else {
        return Ok(());
    };
    let first = xs.split_block();
    let second = ys.split_block();
    let left = merge_ranges(alloc, last, &first, &second, built)?;
    xs.resume(left.xs, first.tail);
    ys.resume(left.ys, second.tail);
    built.push(alloc, left.last.0, left.last.1)?;
    Ok(())
}

/// Returns the union of two lists. If `turns` is set, two blocks are merged range by range.
fn union_lists(
    alloc: Global,
    mut xs: Ranges<'_>,
    mut ys: Ranges<'_>,
    turns: bool,
) -> Result<RangeList, AllocError>
    requires xs { IsNormal xs }
    requires ys { IsNormal ys }
    ensures { IfOk result (λ l. set_of l ≡ set.union (set_of xs.entry) (set_of ys.entry)) }
{
    let mut built = ListBuilder::new(alloc, xs.capacity() + ys.capacity())?;
    loop {
        merge_blocks(alloc, &mut xs, &mut ys, turns, &mut built)?;
        let x = xs.next_from();
        let y = ys.next_from();
        if x <= y {
            if x == u64::MAX {
                return built.finish(alloc);
            }
            move_next(alloc, &mut xs, y, &mut built)?;
        } else {
            move_next(alloc, &mut ys, x, &mut built)?;
        }
    }
}

/// Returns the union of two lists: the pixels that are in either of them.
///
/// # Errors
///
/// Fails if an allocation fails.
pub fn union(alloc: Global, xs: Ranges<'_>, ys: Ranges<'_>) -> Result<RangeList, AllocError>
    requires xs { IsNormal xs }
    requires ys { IsNormal ys }
    ensures { IfOk result (λ l. set_of l ≡ set.union (set_of xs.entry) (set_of ys.entry)) }
{
    if let Some(slice) = xs.slice()
        && let Some(others) = ys.slice()
    {
        return union_slices(alloc, slice, others);
    }
    let turns = !are_uneven(&xs, &ys);
    union_lists(alloc, xs, ys, turns)
}
