//! Comparisons of two lists of ranges, which do not allocate.
ghost use Rattle.std.specs.Prelude.{◌≡◌, ◌-◌, ◌<◌, ◌↔◌, IsTrue, nat_lt, min, max};
ghost use Rattle.moc_blocks.specs.RangeList.{IsNormal};
ghost use Rattle.moc_operations.specs.Private.Walks.{common_of, contains_all};

use crate::lookahead::NEAR;
use moc_lists::Ranges;

/// Returns the number of pixels that two ranges have in common.
#[inline]
fn overlap(x: (u64, u64), y: (u64, u64)) -> u64
    ensures { result ≡ min x.1 y.1 - max x.0 y.0 }
{
    x.1.min(y.1).saturating_sub(x.0.max(y.0))
}

/// Returns the number of pixels that two lists have in common.
pub fn count_common(mut xs: Ranges<'_>, mut ys: Ranges<'_>) -> u64
    requires xs { IsNormal xs }
    requires ys { IsNormal ys }
    ensures { result ≡ common_of xs.entry ys.entry }
{
    let mut total = 0;
    let mut first = xs.next();
    let mut second = ys.next();
    while let Some(x) = first {
        let Some(y) = second else {
            return total;
        };
        total += overlap(x, y);
        if x.1 <= y.1 {
            let ahead = xs.advance(y, NEAR);
            total += ahead.common;
            first = ahead.next;
        } else {
            let ahead = ys.advance(x, NEAR);
            total += ahead.common;
            second = ahead.next;
        }
    }
    total
}

/// Returns whether two lists have a pixel in common.
pub fn meets(mut xs: Ranges<'_>, mut ys: Ranges<'_>) -> bool
    requires xs { IsNormal xs }
    requires ys { IsNormal ys }
    ensures { result ≡ nat_lt 0 (common_of xs.entry ys.entry) }
{
    let mut first = xs.next();
    let mut second = ys.next();
    while let Some(x) = first {
        let Some(y) = second else {
            return false;
        };
        if x.1 <= y.0 {
            first = xs.next_ending_after(y.0, NEAR);
        } else if y.1 <= x.0 {
            second = ys.next_ending_after(x.0, NEAR);
        } else {
            return true;
        }
    }
    false
}

/// Returns whether the first list contains every pixel of the second.
pub fn covers(mut xs: Ranges<'_>, mut ys: Ranges<'_>) -> bool
    requires xs { IsNormal xs }
    requires ys { IsNormal ys }
    ensures { result ≡ contains_all xs.entry ys.entry }
{
    let mut first = xs.next();
    let mut second = ys.next();
    while let Some(y) = second {
        let Some(x) = first else {
            return false;
        };
        if y.0 < x.0 {
            return false;
        }
        if x.1 < y.1 {
            first = xs.next_ending_after(y.0, NEAR);
        } else {
            second = ys.next_ending_after(x.1, NEAR);
        }
    }
    true
}

/// Returns whether two lists have the same ranges.
pub fn are_same(mut xs: Ranges<'_>, mut ys: Ranges<'_>) -> bool
    ensures { IsTrue result ↔ (xs.entry ≡ ys.entry) }
{
    while let Some(x) = xs.next() {
        let Some(y) = ys.next() else {
            return false;
        };
        if x.0 != y.0 || x.1 != y.1 {
            return false;
        }
    }
    ys.next().is_none()
}
