//! The symmetric difference of two blocks: the bounds of both in ascending order, where equal bounds cancel. No branch
//! depends on the positions of ranges, because it could not be predicted.
ghost use Rattle.std.specs.Prelude.{◌≡◌, ◌+◌, ◌*◌, ◌<◌, ◌≤◌, ◌++◌, ◌⊎◌, List, ℕ, take, drop, get_or, length, IfOk};
ghost use Rattle.moc_blocks.specs.Private.Built.{ranges_of};
ghost use Rattle.moc_operations.specs.Private.SymmetricBounds.{bounds_of, open_of, AreBounds, AreAscendingBounds};

use moc_lists::{ListBuilder, MAX_BLOCK_RANGES};
use std::alloc::{AllocError, Global};

/// The maximum number of bounds of one call: those of two blocks.
pub const MAX_BOUNDS: usize = 512;

/// Returns the bound at a position, where the starts and ends of ranges alternate.
#[inline(always)]
fn bound_at(ranges: &[(u64, u64)], place: usize) -> u64
    requires { place < 2 * length ranges.now }
    ensures { result ≡ get_or (bounds_of ranges.now) place 0 }
{
    let range = ranges[place / 2];
    if place % 2 == 0 { range.0 } else { range.1 }
}

/// The number of bounds of each side that were passed, and the number of bounds in the output.
#[derive(Clone, Copy)]
pub struct SymmetricCounts {
    pub first: usize,
    pub second: usize,
    pub written: usize,
}

/// Computes the bounds of the symmetric difference of two blocks until one of them has no more bounds. `passed` bounds
/// were passed before; `opened` is the open bound if exactly one list is inside a range.
#[inline(always)]
pub fn symmetric_bounds(
    xs: &[(u64, u64)],
    ys: &[(u64, u64)],
    passed: (usize, usize),
    opened: Option<u64>,
    out: &mut [u64; MAX_BOUNDS],
) -> SymmetricCounts
    requires first_some { 0 < length xs.now }
    requires second_some { 0 < length ys.now }
    requires first_fits { length xs.now ≤ MAX_BLOCK_RANGES }
    requires second_fits { length ys.now ≤ MAX_BLOCK_RANGES }
    requires one { length (open_of opened) ≡ passed.0 + passed.1 }
    requires most { passed.0 + passed.1 ≤ 1 }
    ensures ended { (result.first ≡ 2 * length xs.now) ⊎ (result.second ≡ 2 * length ys.now) }
    ensures first { result.first ≤ 2 * length xs.now }
    ensures second { result.second ≤ 2 * length ys.now }
    ensures some { passed.0 + passed.1 < result.first + result.second }
    ensures written { result.written ≤ length out.new }
    ensures even { (n : ℕ) × (result.first + result.second ≡ result.written + 2 * n) }
    ensures crossed { (kept tail_xs tail_ys : List ℕ) (whole_xs whole_ys : List (ℕ × ℕ)) →
        AreBounds (kept ++ open_of opened) (drop passed.0 (bounds_of xs.now) ++ tail_xs)
        (drop passed.1 (bounds_of ys.now) ++ tail_ys) whole_xs whole_ys →
        AreBounds (kept ++ take result.written out.new) (drop result.first (bounds_of xs.now) ++ tail_xs)
        (drop result.second (bounds_of ys.now) ++ tail_ys) whole_xs whole_ys }
{
    let mut written = passed.0 + passed.1;
    if let Some(bound) = opened {
        out[0] = bound;
    }
    let (mut first, mut second) = passed;
    while first < 2 * xs.len() && second < 2 * ys.len() {
        let x = bound_at(xs, first);
        let y = bound_at(ys, second);
        out[written] = x.min(y);
        written += usize::from(x != y);
        first += usize::from(x <= y);
        second += usize::from(y <= x);
    }
    SymmetricCounts {
        first,
        second,
        written,
    }
}

/// Appends the ranges of the bounds to the result, and returns the last bound if it is not paired.
pub fn push_pairs(
    alloc: Global,
    bounds: &[u64],
    built: &mut ListBuilder,
) -> Result<Option<u64>, AllocError>
    requires { AreAscendingBounds 0 (bounds_of (ranges_of built.old) ++ bounds.now) }
    ensures { IfOk result (λ opened.
        bounds_of (ranges_of built.new) ++ open_of opened ≡ bounds_of (ranges_of built.old) ++ bounds.entry.now) }
{
    let mut rest = bounds;
    while let [from, to, more @ ..] = rest {
        built.push(alloc, *from, *to)?;
        rest = more;
    }
    Ok(rest.first().copied())
}
