//! Coverages: sets of pixels, their construction and queries.
ghost use Rattle.std.specs.Prelude.{◌≡◌, ℕ, true, not, IfSome, MatchOption, ◌<◌, ◌≤◌, ◌↔◌, IsTrue, List, length};
ghost use Rattle.std.specs.Prelude.{IfOk, IfErr, OnOk, None, unwrap_or};
ghost use Rattle.moc_ranges.specs.Errors.{first_error};
ghost use Rattle.std.specs.Cmp.{partial_equiv_from_equiv};
ghost use Rattle.std.specs.FinSet as set;
ghost use Rattle.moc_blocks.specs.RangeList.{IsNormal, AreRangesOf, set_of, pixel_count, numbers};
ghost use Rattle.moc_ranges.specs.Operations.{meets, IsWithin, pixels};
ghost use Rattle.moc_blocks.specs.Blocks.{concat, AreBlocks, IsSearchOf};
ghost use Rattle.moc_ranges.specs.Private.Walks.{IsNextRange, IsEmptyFrom};

mod base_pixels;
mod cells;
mod inserting;
mod removing;
mod sets;

use crate::errors::{Memory, RangesError};
use crate::from_ranges::{build, check_pairs, sort_nonempty};
use crate::pixels::PIXEL_COUNT;
use moc_lists::{Chunks, MAX_STEPS, RangeList, Ranges, Steps};
use moc_operations::count_common;
use std::alloc::{AllocError, Global};
use std::fmt;
use std::marker::Model;

/// A coverage of MOC 2.0: a set of order-29 pixels in the nested numbering.
///
/// The set is stored as its normal list: ranges (from, to) in ascending order, none touching the next. Up to 128 ranges
/// can be stored in one list. All others are stored in blocks of 1 to 128 ranges, where two adjacent blocks together
/// have more than 128. Blocks are stored in nodes of 1 to 16 blocks, where two adjacent nodes together have more than
/// 16. Copies and results share the blocks that they have in common. Below, n and m are the numbers of ranges of the
/// operands.
#[derive(Drop)]
pub struct Coverage {
    list: RangeList,
}

impl Model for Coverage {
    ghost use Rattle.std.specs.Ordering.{nat_cmp};
    ghost use Rattle.std.specs.FinSet as set;
    ghost use Rattle.std.specs.Coded.{coded_ℕ};
    ghost use Rattle.moc_blocks.specs.RangeList.{set_of};

    ghost Value = { set.FinSet nat_cmp };

    ghost coded = { set.code coded_ℕ };

    ghost view = { λ c. set_of c.list };
}

impl Coverage {
    /// Returns the empty set. Does not allocate.
    pub fn empty(alloc: Global) -> Self
        ensures { result ≡ set.empty }
    {
        Self {
            list: RangeList::empty(alloc),
        }
    }

    /// Returns whether the set contains the pixel. It contains no number after the last pixel. O(log n).
    pub fn contains(&self, pixel: u64) -> bool
        ensures { result ≡ set.contains self.now pixel }
    {
        match self.first_ending_after(pixel) {
            Some((from, _)) => from <= pixel,
            None => false,
        }
    }

    /// Returns whether the set contains the pixel, and the first pixel after it for which the answer differs; if there
    /// is none, a number above all pixels. So ascending pixels need one search for each range or gap that they are in.
    /// O(log n), does not allocate.
    pub fn contains_until(&self, pixel: u64) -> (bool, u64)
        ensures found { result.0 ≡ set.contains self.now pixel }
        ensures after { pixel ≤ result.1 }
        ensures same { (q : ℕ) → pixel ≤ q → q < result.1 → set.contains self.now q ≡ result.0 }
        ensures changes { result.1 < pixel_count → set.contains self.now result.1 ≡ not result.0 }
    {
        match self.first_ending_after(pixel) {
            Some((from, to)) if from <= pixel => (true, to),
            Some((from, _)) => (false, from),
            None => (false, u64::MAX),
        }
    }

    /// Returns the result of `contains`, and adds the number of comparisons of the pixel with the bounds of a range or
    /// a chunk to `steps`. There are at most 8 more comparisons than the number of chunks has binary digits, for some
    /// partition of the set into chunks. Comparisons of positions of chunks are not counted. O((log n)²), does not
    /// allocate. Requires that `steps` is less than `MAX_STEPS`, which is 2^63.
    pub fn contains_counting(&self, pixel: u64, steps: &mut Steps) -> bool
        requires { steps.old < MAX_STEPS }
        ensures found { result ≡ set.contains self.now pixel }
        ensures cost { IsSearchOf self.now steps.old steps.new }
    {
        self.list.contains_counting(pixel, steps)
    }

    /// Returns an iterator over the ranges of the set in chunks of 1 to 128, as they are stored. Two adjacent chunks
    /// together have more than 128 ranges. The concatenated chunks are the list of `ranges`. Does not allocate. O(1)
    /// for the first, O(n) for all.
    pub fn chunks(&self) -> Chunks<'_>
        ensures normal { IsNormal (concat result) }
        ensures set { set_of (concat result) ≡ self.now }
        ensures sized { AreBlocks result }
    {
        self.list.chunks()
    }

    /// Returns whether the set has no pixel. O(1).
    pub fn is_empty(&self) -> bool
        ensures empty { IsTrue result ↔ (self.now ≡ set.empty) }
        ensures within { IsWithin self.now pixels }
    {
        self.ranges().next().is_none()
    }

    /// Returns an iterator over the ranges of the set: its normal list, in ascending order, none empty and none
    /// touching the next. Does not allocate. O(1) for the first, O(n) for all.
    pub fn ranges(&self) -> Ranges<'_>
        ensures normal { IsNormal result }
        ensures set { set_of result ≡ self.now }
        ensures within { IsWithin self.now pixels }
    {
        self.list.ranges()
    }

    /// Returns the number of order-29 pixels in the set. O(1), but the widths of up to 128 ranges are added up. Does
    /// not allocate.
    pub fn count(&self) -> u64
        ensures size { result ≡ set.len self.now }
        ensures bounded { result ≤ pixel_count }
        ensures within { IsWithin self.now pixels }
    {
        self.list.total_width()
    }

    /// Returns the set of the pixels in the given half-open ranges (from, to), which may come in any order, overlap or
    /// be empty.
    ///
    /// # Errors
    ///
    /// At the first invalid pair, fails with `Backwards` if `to < from`, and with `PixelTooLarge` if `to` is above the
    /// number of pixels. Fails with `Memory` if no pair is invalid and an allocation fails.
    ///
    /// # Complexity
    ///
    /// O(n) if the pairs are sorted by their starts, and otherwise O(n log n).
    pub fn from_ranges(alloc: Global, pairs: &[(u64, u64)]) -> Result<Coverage, RangesError>
        ensures union { IfOk result (λ c. c ≡ set_of pairs.now) }
        ensures accepted { OnOk result (first_error pairs.now ≡ None) }
        ensures failure { IfErr result (λ e. e ≡ unwrap_or (first_error pairs.now) RangesError.Memory) }
    {
        check_pairs(pairs)?;
        Ok(Coverage::from_valid(alloc, pairs)?)
    }

    /// Returns the set of the pixels in the given pairs. Requires that no pair is invalid.
    pub(crate) fn from_valid(alloc: Global, pairs: &[(u64, u64)]) -> Result<Coverage, AllocError>
        requires { first_error pairs.now ≡ None }
        ensures { IfOk result (λ c. c ≡ set_of pairs.now) }
    {
        let pairs = sort_nonempty(alloc, pairs)?;
        Ok(Coverage {
            list: build(alloc, &pairs)?,
        })
    }

    /// Returns the set of a list of ranges.
    #[inline]
    pub(crate) fn of(list: RangeList) -> Coverage
        ensures { result ≡ set_of list }
    {
        Coverage { list }
    }

    /// Returns the number of ranges of the normal list of the set. O(1), does not allocate.
    pub fn range_count(&self) -> usize
        ensures { (ranges : List (ℕ × ℕ)) × AreRangesOf self.now ranges × (result ≡ length ranges) }
    {
        self.list.count()
    }

    /// Returns the first pixel of the set at or after `from`, if any. O(log n), does not allocate.
    pub fn next_pixel(&self, from: u64) -> Option<u64>
        ensures found { IfSome result (λ p. (from ≤ p) × (p < pixel_count) × (set.contains self.now p ≡ true)) }
        ensures first { (q : ℕ) → from ≤ q → set.contains self.now q ≡ true → MatchOption result ⊥ (λ p. p ≤ q) }
    {
        let (start, _) = self.first_ending_after(from)?;
        Some(start.max(from))
    }

    /// Returns the first range of the set that ends after the limit, if any.
    #[inline]
    fn first_ending_after(&self, limit: u64) -> Option<(u64, u64)>
        ensures { MatchOption result (IsEmptyFrom limit self.now) (IsNextRange limit self.now) }
    {
        self.list.first_ending_after(limit)
    }

    /// Returns whether the set has a pixel in a half-open range.
    fn meets_range(&self, from: u64, to: u64) -> bool
        requires ascending { from < to }
        requires within { to ≤ pixel_count }
        ensures { result ≡ meets self.now (numbers from to) }
    {
        match self.first_ending_after(from) {
            Some((start, _)) => start < to,
            None => false,
        }
    }

    /// Returns whether the set contains every pixel of a half-open range.
    fn covers_range(&self, from: u64, to: u64) -> bool
        requires ascending { from < to }
        requires within { to ≤ pixel_count }
        ensures { result ≡ set.is_subset (numbers from to) self.now }
    {
        match self.first_ending_after(from) {
            Some((start, end)) => start <= from && to <= end,
            None => false,
        }
    }

    /// Returns the number of pixels of the set in a half-open range.
    fn count_range(&self, from: u64, to: u64) -> u64
        requires ascending { from < to }
        requires within { to ≤ pixel_count }
        ensures { result ≡ set.len (set.intersection self.now (numbers from to)) }
    {
        let Some((start, end)) = self.first_ending_after(from) else {
            return 0;
        };
        if to <= end {
            return to.saturating_sub(start.max(from));
        }
        let range = [(from, to)];
        count_common(self.list.ranges(), Ranges::of(&range))
    }

    /// Returns the set of all pixels of the sky. O(1).
    ///
    /// # Errors
    ///
    /// Fails with `Memory` if an allocation fails.
    pub fn full(alloc: Global) -> Result<Coverage, Memory>
        ensures { IfOk result (λ c. c ≡ pixels) }
    {
        let list = RangeList::from_range(alloc, 0, PIXEL_COUNT)?;
        Ok(Coverage { list })
    }

    /// Returns a copy of the set, which shares its blocks. Copies up to 128 ranges, or otherwise only the list of
    /// nodes.
    ///
    /// # Errors
    ///
    /// Fails with `Memory` if an allocation fails.
    pub fn try_copy(&self, alloc: Global) -> Result<Coverage, Memory>
        ensures same { IfOk result (λ c. c ≡ self.now) }
        ensures within { IsWithin self.now pixels }
    {
        let list = self.list.share(alloc)?;
        Ok(Coverage { list })
    }
}

impl PartialEq for Coverage {
    ghost use Rattle.moc_ranges.specs.Operations.{is_same};
    ghost use Rattle.moc_ranges.specs.Lemmas.Members.{is_same-equivalence};

    ghost eq = { is_same };

    ghost laws = { partial_equiv_from_equiv is_same-equivalence };

    fn eq(&self, other: &Coverage) -> bool {
        self.same(other)
    }
}

impl Eq for Coverage {
    ghost use Rattle.moc_ranges.specs.Lemmas.Members.{is_same-equivalence};

    ghost laws = { is_same-equivalence };
}

/// Writes the ranges, such as `{0..4, 6..8}`.
impl fmt::Debug for Coverage {
    fn fmt<W: fmt::Write>(&self, f: &mut fmt::Formatter<W>) -> fmt::Result {
        write!(f, "{:?}", self.ranges())
    }
}

impl<'a> IntoIterator for &'a Coverage {
    type Item = (u64, u64);

    type IntoIter = Ranges<'a>;

    ghost into_iter_gives = { λ s r. IsNormal r × (set_of r ≡ s.now) };

    fn into_iter(self) -> Ranges<'a> {
        self.ranges()
    }
}
