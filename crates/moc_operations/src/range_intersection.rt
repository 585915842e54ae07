//! The intersection of the ranges of a block with other ranges. No branch depends on the positions of ranges, because
//! it could not be predicted.
ghost use Rattle.std.specs.Prelude.{◌≡◌, ◌+◌, ◌<◌, ◌≤◌, ◌++◌, List, ℕ, take, drop, get_or, length, nat_lt};
ghost use Rattle.moc_operations.specs.Private.Meeting.{list_if, CanIntersect, Intersects};

/// The maximum number of ranges in the output of one call: those of two blocks.
pub const MAX_OUTPUT: usize = 256;

/// A list of ranges that is read by position.
pub trait RangesByPosition {
    ghost ranges: { Self → List (ℕ × ℕ) };

    /// Returns the number of ranges.
    fn count(&self) -> usize
        ensures { result ≡ length (ranges self.now) };

    /// Returns the range at a position.
    fn at(&self, place: usize) -> (u64, u64)
        requires { place < length (ranges self.now) }
        ensures { result ≡ get_or (ranges self.now) place (0, 0) };
}

impl RangesByPosition for &[(u64, u64)] {
    ghost ranges = { λ ranges. ranges.now };

    #[inline(always)]
    fn count(&self) -> usize {
        self.len()
    }

    #[inline(always)]
    fn at(&self, place: usize) -> (u64, u64) {
        self[place]
    }
}

/// Writes a range after the first `written` ranges of the output, and returns the number of ranges there. An empty
/// range is not counted.
#[inline(always)]
pub fn write_if_nonempty(out: &mut [(u64, u64)], written: usize, from: u64, to: u64) -> usize
    requires { written < length out.old }
    ensures capacity { length out.new ≡ length out.old }
    ensures more { result ≤ written + 1 }
    ensures appended { take result out.new ≡ take written out.old ++ list_if (nat_lt from to) (from, to) }
{
    out[written] = (from, to);
    written + usize::from(from < to)
}

/// The number of ranges of each side that were passed, and the number of ranges in the output.
#[derive(Clone, Copy)]
pub struct IntersectionCounts {
    pub first: usize,
    pub second: usize,
    pub written: usize,
}

/// Computes the intersection of ranges with others until one side has no more or the output is full. The range that
/// ends first is passed.
#[inline(always)]
pub fn intersect_ranges<T: RangesByPosition>(
    xs: &[(u64, u64)],
    others: &T,
    out: &mut [(u64, u64)],
) -> IntersectionCounts
    ensures capacity { length out.new ≡ length out.old }
    ensures first { result.first ≤ length xs.now }
    ensures second { result.second ≤ length (T.ranges others.now) }
    ensures written { result.written ≤ length out.new }
    ensures some { 0 < length xs.now → 0 < length (T.ranges others.now) → 0 < length out.old →
        0 < result.first + result.second }
    ensures met { (before tail_xs tail_ys : List (ℕ × ℕ)) →
        CanIntersect (xs.now ++ tail_xs) (T.ranges others.now ++ tail_ys) before →
        Intersects (xs.now ++ tail_xs) (drop result.first xs.now ++ tail_xs)
        (T.ranges others.now ++ tail_ys) (drop result.second (T.ranges others.now) ++ tail_ys)
        before (before ++ take result.written out.new) }
{
    let mut first = 0;
    let mut second = 0;
    let mut written = 0;
    let count = others.count();
    while first < xs.len() && second < count && written < out.len() {
        let x = xs[first];
        let y = others.at(second);
        written = write_if_nonempty(out, written, x.0.max(y.0), x.1.min(y.1));
        let step = usize::from(x.1 <= y.1);
        first += step;
        second += 1 - step;
    }
    IntersectionCounts {
        first,
        second,
        written,
    }
}
