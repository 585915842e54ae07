//! The gaps between the ranges of a block.
ghost use Rattle.std.specs.Prelude.{◌≡◌, ◌≤◌, length, take};
ghost use Rattle.moc_operations.specs.Private.Meeting.{gaps_before, end_of};

use crate::range_intersection::RangesByPosition;

/// The gaps before the ranges of a block, if what precedes them ends at `low`.
#[derive(Clone, Copy)]
pub struct Gaps<'a> {
    pub low: u64,
    pub ranges: &'a [(u64, u64)],
}

impl Gaps<'_> {
    /// Returns the end of what precedes a position. Read at each position instead of kept from one to the next, because
    /// that would need a branch.
    #[inline(always)]
    pub fn low_at(&self, place: usize) -> u64
        requires { place ≤ length self.now.ranges.now }
        ensures { result ≡ end_of self.now.low (take place self.now.ranges.now) }
    {
        match place.checked_sub(1) {
            Some(before) => self.ranges[before].1,
            None => self.low,
        }
    }
}

#[tactic(auto, using(crate::proofs::GapsOf::length_gaps))]
impl RangesByPosition for Gaps<'_> {
    ghost ranges = { λ gaps. gaps_before gaps.low gaps.ranges.now };

    #[inline(always)]
    fn count(&self) -> usize {
        self.ranges.len()
    }

    #[inline(always)]
    fn at(&self, place: usize) -> (u64, u64) {
        (self.low_at(place), self.ranges[place].0)
    }
}
