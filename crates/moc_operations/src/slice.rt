//! Operations on two sets without blocks: one loop over two slices.
ghost use Rattle.std.specs.FinSet as set;
ghost use Rattle.std.specs.Prelude.{◌≡◌, ◌<◌, ◌≤◌, ◌||◌, ◌++◌, ◌∷◌, ℕ, min, IfOk, OnOk};
ghost use Rattle.moc_blocks.specs.RangeList.{pixel_count, IsNormal, set_of};
ghost use Rattle.moc_blocks.specs.Lemmas.Members.{in_range, in_ranges};
ghost use Rattle.moc_blocks.specs.Private.Built.{EndsBelow};
ghost use Rattle.moc_operations.specs.Private.Slices.{IsAppendedOrMerged};

use moc_lists::{RangeList, list_from_ranges};
use std::alloc::{AllocError, Global};

/// Appends a range to the result, unless it is empty.
#[inline]
pub fn push_if_nonempty(kept: &mut Vec<(u64, u64)>, from: u64, to: u64) -> Result<(), AllocError>
    requires normal { IsNormal kept.old.items }
    requires within { to ≤ pixel_count }
    requires after { EndsBelow from kept.old.items }
    ensures normal { OnOk result (IsNormal kept.new.items) }
    ensures below { OnOk result ((f : ℕ) → from ≤ f → to < f → EndsBelow f kept.new.items) }
    ensures same { OnOk result ((q : ℕ) →
        in_ranges kept.new.items q ≡ (in_ranges kept.old.items q || in_range (from, to) q)) }
{
    if to <= from {
        return Ok(());
    }
    kept.push((from, to))?;
    Ok(())
}

/// Merges a range that ends no later than another into the other if they touch, and otherwise appends it to the result.
/// Returns the other range.
#[inline]
fn append_or_merge(
    kept: &mut Vec<(u64, u64)>,
    x: (u64, u64),
    y: (u64, u64),
) -> Result<(u64, u64), AllocError>
    requires normal { IsNormal kept.old.items }
    requires filled { x.0 < x.1 }
    requires other { y.0 < y.1 }
    requires ends { x.1 ≤ y.1 }
    requires within { y.1 ≤ pixel_count }
    requires after { EndsBelow (min x.0 y.0) kept.old.items }
    ensures { IfOk result (λ z. IsAppendedOrMerged x y z kept.old.items kept.new.items) }
{
    if x.1 < y.0 {
        kept.push(x)?;
        return Ok(y);
    }
    Ok((x.0.min(y.0), y.1))
}

/// Returns the list of the result, a range after it, and the remaining ranges after this range.
pub fn finish(
    alloc: Global,
    mut kept: Vec<(u64, u64)>,
    range: (u64, u64),
    rest: &[(u64, u64)],
) -> Result<RangeList, AllocError>
    requires { IsNormal (kept.items ++ range ∷ rest.now) }
    ensures { IfOk result (λ l. l ≡ kept.items ++ range ∷ rest.now) }
{
    kept.push(range)?;
    kept.extend_from_slice(rest)?;
    list_from_ranges(alloc, kept)
}

/// Returns the list of a copy of the given ranges.
pub fn copy_list(alloc: Global, ranges: &[(u64, u64)]) -> Result<RangeList, AllocError>
    requires { IsNormal ranges.now }
    ensures { IfOk result (λ l. l ≡ ranges.now) }
{
    let copy = ranges.to_vec(alloc)?;
    list_from_ranges(alloc, copy)
}

/// Returns the union of two slices of ranges.
pub fn union_slices(
    alloc: Global,
    xs: &[(u64, u64)],
    ys: &[(u64, u64)],
) -> Result<RangeList, AllocError>
    requires xs { IsNormal xs.now }
    requires ys { IsNormal ys.now }
    ensures { IfOk result (λ l. set_of l ≡ set.union (set_of xs.now) (set_of ys.now)) }
{
    let [x, more_xs @ ..] = xs else {
        return copy_list(alloc, ys);
    };
    let [y, more_ys @ ..] = ys else {
        return copy_list(alloc, xs);
    };
    let mut kept = Vec::with_capacity(alloc, xs.len() + ys.len())?;
    let mut x = *x;
    let mut y = *y;
    let mut rest_xs = more_xs;
    let mut rest_ys = more_ys;
    loop {
        if x.1 <= y.1 {
            y = append_or_merge(&mut kept, x, y)?;
            let [next, more @ ..] = rest_xs else {
                return finish(alloc, kept, y, rest_ys);
            };
            x = *next;
            rest_xs = more;
        } else {
            x = append_or_merge(&mut kept, y, x)?;
            let [next, more @ ..] = rest_ys else {
                return finish(alloc, kept, x, rest_xs);
            };
            y = *next;
            rest_ys = more;
        }
    }
}

/// Returns the intersection of two slices of ranges.
pub fn intersection_slices(
    alloc: Global,
    xs: &[(u64, u64)],
    ys: &[(u64, u64)],
) -> Result<RangeList, AllocError>
    requires xs { IsNormal xs.now }
    requires ys { IsNormal ys.now }
    ensures { IfOk result (λ l. set_of l ≡ set.intersection (set_of xs.now) (set_of ys.now)) }
{
    let mut kept = Vec::with_capacity(alloc, xs.len() + ys.len())?;
    let mut rest_xs = xs;
    let mut rest_ys = ys;
    loop {
        let [x, more_xs @ ..] = rest_xs else {
            return list_from_ranges(alloc, kept);
        };
        let [y, more_ys @ ..] = rest_ys else {
            return list_from_ranges(alloc, kept);
        };
        push_if_nonempty(&mut kept, x.0.max(y.0), x.1.min(y.1))?;
        if x.1 <= y.1 {
            rest_xs = more_xs;
        } else {
            rest_ys = more_ys;
        }
    }
}

/// Returns the difference of two slices of ranges.
pub fn difference_slices(
    alloc: Global,
    xs: &[(u64, u64)],
    ys: &[(u64, u64)],
) -> Result<RangeList, AllocError>
    requires xs { IsNormal xs.now }
    requires ys { IsNormal ys.now }
    ensures { IfOk result (λ l. set_of l ≡ set.difference (set_of xs.now) (set_of ys.now)) }
{
    let mut kept = Vec::with_capacity(alloc, xs.len() + ys.len())?;
    let [x, more_xs @ ..] = xs else {
        return list_from_ranges(alloc, kept);
    };
    let mut x = *x;
    let mut rest_xs = more_xs;
    let mut rest_ys = ys;
    loop {
        let [y, more_ys @ ..] = rest_ys else {
            return finish(alloc, kept, x, rest_xs);
        };
        push_if_nonempty(&mut kept, x.0, x.1.min(y.0))?;
        if y.1 < x.1 {
            x.0 = x.0.max(y.1);
            rest_ys = more_ys;
            continue;
        }
        let [next, more @ ..] = rest_xs else {
            return list_from_ranges(alloc, kept);
        };
        x = *next;
        rest_xs = more;
    }
}
