//! Coverages by base pixel.
ghost use Rattle.std.specs.Prelude.{◌≡◌, ℕ, true, ◌<◌, ◌≤◌, nat_lt, IfOk, IfSome, MatchOption};
ghost use Rattle.std.specs.FinSet as set;
ghost use Rattle.moc_ranges.specs.Operations.{part_of, IsWithin, pixels};
ghost use Rattle.moc_sphere.specs.CellNumber.{base_pixel_count};

use crate::coverage::Coverage;
use crate::errors::Memory;
use moc_lists::Ranges;
use moc_operations::intersection;
use std::alloc::Global;

/// The number of pixels in a base pixel: 4^29.
const BASE_PIXEL_SIZE: u64 = 288230376151711744;

impl Coverage {
    /// Returns the pixels of the set in one base pixel, 0 to 11: those p with `p / 4^29` equal to it. Above 11, returns
    /// the empty set.
    ///
    /// # Errors
    ///
    /// Fails with `Memory` if an allocation fails.
    ///
    /// # Complexity
    ///
    /// O(log n), and a copy of the ranges of the result. Whole blocks and nodes are shared.
    pub fn part(&self, alloc: Global, base_pixel: u8) -> Result<Coverage, Memory>
        ensures part { IfOk result (λ c. c ≡ part_of self.now base_pixel) }
        ensures within { IsWithin self.now pixels }
    {
        if self.is_empty() || base_pixel > 11 {
            return Ok(Coverage::empty(alloc));
        }
        let from = u64::from(base_pixel) * BASE_PIXEL_SIZE;
        let whole = [(from, from + BASE_PIXEL_SIZE)];
        let list = intersection(alloc, self.ranges(), Ranges::of(&whole))?;
        Ok(Coverage { list })
    }

    /// Returns whether the set has a pixel in this base pixel; `false` above 11. O(log n), does not allocate.
    pub fn meets_base_pixel(&self, base_pixel: u8) -> bool
        ensures { result ≡ nat_lt 0 (set.len (part_of self.now base_pixel)) }
    {
        if self.is_empty() || base_pixel > 11 {
            return false;
        }
        let from = u64::from(base_pixel) * BASE_PIXEL_SIZE;
        self.meets_range(from, from + BASE_PIXEL_SIZE)
    }

    /// Returns whether the set contains every pixel of this base pixel; `true` above 11, because it has no pixels.
    /// O(log n), does not allocate.
    pub fn covers_base_pixel(&self, base_pixel: u8) -> bool
        ensures { result ≡ set.is_subset (part_of pixels base_pixel) self.now }
    {
        if base_pixel > 11 {
            return true;
        }
        let from = u64::from(base_pixel) * BASE_PIXEL_SIZE;
        self.covers_range(from, from + BASE_PIXEL_SIZE)
    }

    /// Returns the first base pixel at or after `from` in which the set has a pixel, if any. O(log n), does not
    /// allocate.
    pub fn next_base_pixel(&self, from: u8) -> Option<u8>
        ensures found { IfSome result (λ b.
            (from ≤ b) × (b < base_pixel_count) × (nat_lt 0 (set.len (part_of self.now b)) ≡ true)) }
        ensures first { (b : ℕ) → from ≤ b → nat_lt 0 (set.len (part_of self.now b)) ≡ true
            → MatchOption result ⊥ (λ c. c ≤ b) }
    {
        let pixel = self.next_pixel(u64::from(from.min(12)) * BASE_PIXEL_SIZE)?;
        Some((pixel / BASE_PIXEL_SIZE) as u8)
    }
}
