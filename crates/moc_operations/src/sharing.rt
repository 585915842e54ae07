//! Appends to a result: whole nodes and blocks of a list, which are shared, and parts of ranges.
ghost use Rattle.std.specs.Bool.{OnTrue};
ghost use Rattle.std.specs.Prelude.{◌≡◌, ◌+◌, ◌<◌, ◌≤◌, List, ℕ, length, max, IfOk, OnOk};
ghost use Rattle.moc_blocks.specs.RangeList.{pixel_count, IsNormal};
ghost use Rattle.moc_blocks.specs.Private.Blocks.{next_of};
ghost use Rattle.moc_blocks.specs.Private.Built.{ranges_of, CanAppend, MovesPrefix, EndsBelow};
ghost use Rattle.moc_operations.specs.Private.Taking.{AddsPart, MovesCommon};
ghost use Rattle.moc_operations.specs.Private.Meeting.{SkipsBelow};
ghost use Rattle.moc_operations.specs.Private.Walks.{from_current};

use crate::lookahead::NEAR;
use moc_lists::{ListBuilder, Ranges};
use std::alloc::{AllocError, Global};

/// Appends the next nodes and blocks that end below the limit, if the iterator is not inside a block.
#[inline(never)]
fn push_shared_all(
    alloc: Global,
    xs: &mut Ranges<'_>,
    limit: u64,
    built: &mut ListBuilder,
) -> Result<(), AllocError>
    requires { CanAppend xs.old (ranges_of built.old) }
    ensures { OnOk result (MovesPrefix xs.old xs.new limit (ranges_of built.old) (ranges_of built.new)) }
{
    loop {
        let carried = built.push_shared_next(alloc, xs, limit)?;
        if !carried {
            return Ok(());
        }
    }
}

/// Does the same as `push_shared_all`, and is inlined.
#[inline(always)]
pub fn push_shared_below(
    alloc: Global,
    xs: &mut Ranges<'_>,
    limit: u64,
    built: &mut ListBuilder,
) -> Result<(), AllocError>
    requires { CanAppend xs.old (ranges_of built.old) }
    ensures { OnOk result (MovesPrefix xs.old xs.new limit (ranges_of built.old) (ranges_of built.new)) }
{
    if xs.is_in_block() {
        return Ok(());
    }
    push_shared_all(alloc, xs, limit, built)
}

/// Appends the next nodes and blocks that end below the limit, if the iterator is not inside a block, and then returns
/// the next range.
#[inline(always)]
pub fn next_after_shared(
    alloc: Global,
    xs: &mut Ranges<'_>,
    limit: u64,
    built: &mut ListBuilder,
) -> Result<Option<(u64, u64)>, AllocError>
    requires { CanAppend xs.old (ranges_of built.old) }
    ensures { IfOk result (λ next.
        MovesPrefix xs.old (from_current next xs.new) limit (ranges_of built.old) (ranges_of built.new)) }
{
    push_shared_below(alloc, xs, limit, built)?;
    Ok(xs.next())
}

/// Appends the next ranges of the current block that end below the limit, if they are many.
#[inline(always)]
fn push_ranges_below(
    alloc: Global,
    xs: &mut Ranges<'_>,
    limit: u64,
    built: &mut ListBuilder,
) -> Result<(), AllocError>
    requires { CanAppend xs.old (ranges_of built.old) }
    ensures { OnOk result (MovesPrefix xs.old xs.new limit (ranges_of built.old) (ranges_of built.new)) }
{
    if xs.is_near(limit, NEAR) {
        return Ok(());
    }
    match xs.take_ranges_below(limit) {
        Some(ranges) => built.push_all(alloc, ranges),
        None => Ok(()),
    }
}

/// Does the same as `next_after_shared`, but first appends the next ranges of the current block that end below the
/// limit, if they are many.
#[inline(always)]
pub fn next_after_copied(
    alloc: Global,
    xs: &mut Ranges<'_>,
    limit: u64,
    built: &mut ListBuilder,
) -> Result<Option<(u64, u64)>, AllocError>
    requires { CanAppend xs.old (ranges_of built.old) }
    ensures { IfOk result (λ next.
        MovesPrefix xs.old (from_current next xs.new) limit (ranges_of built.old) (ranges_of built.new)) }
{
    push_ranges_below(alloc, xs, limit, built)?;
    next_after_shared(alloc, xs, limit, built)
}

/// Appends a range to the result, unless it is empty.
#[inline]
pub fn push_part(
    alloc: Global,
    from: u64,
    to: u64,
    built: &mut ListBuilder,
) -> Result<(), AllocError>
    requires built { IsNormal (ranges_of built.old) }
    requires within { to ≤ pixel_count }
    requires after { EndsBelow from (ranges_of built.old) }
    ensures { OnOk result (AddsPart from to (ranges_of built.old) (ranges_of built.new)) }
{
    if to <= from {
        return Ok(());
    }
    built.push(alloc, from, to)
}

/// Returns the start of a range, or the largest number for `None`.
#[inline]
pub fn start_of(range: Option<(u64, u64)>) -> u64
    ensures { (rest : List (ℕ × ℕ)) → result ≡ next_of (from_current range rest) }
{
    match range {
        Some((from, _)) => from,
        None => u64::MAX,
    }
}

/// Skips the next ranges of the current block that end below a limit, if the range `lookahead` positions ahead ends at
/// or before it. Returns whether ranges were skipped.
pub fn skip_below(xs: &mut Ranges<'_>, limit: u64, lookahead: usize) -> bool
    requires { IsNormal xs.old }
    ensures out { SkipsBelow limit xs.old xs.new }
    ensures some { OnTrue result (length xs.new < length xs.old) }
{
    !xs.is_near(limit, lookahead) && xs.take_ranges_below(limit).is_some()
}

/// If the iterator is not inside a block, skips what ends before the range begins, or appends the nodes and blocks that
/// are inside the range and end below the limit.
pub fn push_whole(
    alloc: Global,
    xs: &mut Ranges<'_>,
    range: (u64, u64),
    limit: u64,
    built: &mut ListBuilder,
) -> Result<(), AllocError>
    requires normal { IsNormal xs.old }
    requires ascending { range.0 ≤ range.1 }
    requires within { limit ≤ range.1 + 1 }
    requires built { IsNormal (ranges_of built.old) }
    requires after { EndsBelow (max (next_of xs.old) range.0) (ranges_of built.old) }
    ensures { OnOk result (MovesCommon xs.old xs.new range (ranges_of built.old) (ranges_of built.new)) }
{
    if xs.is_in_block() {
        return Ok(());
    }
    if xs.next_from() < range.0 {
        xs.skip_to(range.0);
        return Ok(());
    }
    push_shared_all(alloc, xs, limit, built)
}
