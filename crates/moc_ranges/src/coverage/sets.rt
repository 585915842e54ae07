//! Set operations on coverages, and comparisons of two coverages.
ghost use Rattle.std.specs.Prelude.{◌≡◌, ◌<◌, ◌↔◌, IsTrue, ◌==◌, IfOk};
ghost use Rattle.std.specs.FinSet as set;
ghost use Rattle.moc_ranges.specs.Operations.{symmetric, complement, meets, IsWithin, pixels};

use crate::coverage::Coverage;
use crate::errors::Memory;
use crate::pixels::PIXEL_COUNT;
use moc_lists::Ranges;
use moc_operations::{
    are_same, count_common, covers, difference, intersection, meets, symmetric, union,
};
use std::alloc::Global;

impl Coverage {
    /// Returns the union: the pixels that are in either set.
    ///
    /// # Errors
    ///
    /// Fails with `Memory` if an allocation fails.
    ///
    /// # Complexity
    ///
    /// One pass, O(n + m). Blocks and nodes of one set that end before the next range of the other are usually shared,
    /// not copied: a set of m ranges and one of n take O(m + n / 128).
    pub fn union(&self, alloc: Global, other: &Coverage) -> Result<Coverage, Memory>
        ensures set { IfOk result (λ c. c ≡ set.union self.now other.now) }
    {
        let list = union(alloc, self.ranges(), other.ranges())?;
        Ok(Coverage { list })
    }

    /// Returns the intersection: the pixels that are in both sets.
    ///
    /// # Errors
    ///
    /// Fails with `Memory` if an allocation fails.
    ///
    /// # Complexity
    ///
    /// One pass, O(n + m). Blocks and nodes that the other set does not reach are skipped by searching, and those that
    /// one range of it covers are usually shared: a set of m ranges and one of n take O(m log n), and one step for each
    /// shared node.
    pub fn intersection(&self, alloc: Global, other: &Coverage) -> Result<Coverage, Memory>
        ensures set { IfOk result (λ c. c ≡ set.intersection self.now other.now) }
    {
        let list = intersection(alloc, self.ranges(), other.ranges())?;
        Ok(Coverage { list })
    }

    /// Returns the difference: the pixels of this set that are not in the other.
    ///
    /// # Errors
    ///
    /// Fails with `Memory` if an allocation fails.
    ///
    /// # Complexity
    ///
    /// One pass, O(n + m). Blocks and nodes of this set that the other does not reach are usually shared, and those of
    /// the other that this set does not reach are skipped.
    pub fn difference(&self, alloc: Global, other: &Coverage) -> Result<Coverage, Memory>
        ensures set { IfOk result (λ c. c ≡ set.difference self.now other.now) }
    {
        let list = difference(alloc, self.ranges(), other.ranges())?;
        Ok(Coverage { list })
    }

    /// Returns the symmetric difference: the pixels that are in exactly one of the two sets.
    ///
    /// # Errors
    ///
    /// Fails with `Memory` if an allocation fails.
    ///
    /// # Complexity
    ///
    /// One pass, O(n + m). Blocks and nodes of one set that end before the next range of the other are usually shared,
    /// if the pass is at their start.
    pub fn symmetric(&self, alloc: Global, other: &Coverage) -> Result<Coverage, Memory>
        ensures set { IfOk result (λ c. c ≡ symmetric self.now other.now) }
    {
        let list = symmetric(alloc, self.ranges(), other.ranges())?;
        Ok(Coverage { list })
    }

    /// Returns the complement: the pixels of the sky that are not in the set. One pass, O(n).
    ///
    /// # Errors
    ///
    /// Fails with `Memory` if an allocation fails.
    pub fn complement(&self, alloc: Global) -> Result<Coverage, Memory>
        ensures set { IfOk result (λ c. c ≡ complement self.now) }
        ensures within { IsWithin self.now pixels }
    {
        let sky = [(0, PIXEL_COUNT)];
        let list = difference(alloc, Ranges::of(&sky), self.ranges())?;
        Ok(Coverage { list })
    }

    /// Returns the number of order-29 pixels that two sets have in common. Does not allocate.
    ///
    /// # Complexity
    ///
    /// One pass over both sets that skips blocks and nodes that the next range of the other does not reach or covers: a
    /// set of m ranges and one of n take O(m log n) and one step for each node that one range covers, and never more
    /// than O(n + m). If the other set is one range that ends no later than the first range of this set that ends after
    /// its start, it takes one binary search.
    pub fn count_common(&self, other: &Coverage) -> u64
        ensures size { result ≡ set.len (set.intersection self.now other.now) }
    {
        match other.ranges().slice() {
            Some([range]) => self.count_range(range.0, range.1),
            _ => count_common(self.ranges(), other.ranges()),
        }
    }

    /// Returns whether two sets have a pixel in common. Does not allocate.
    ///
    /// # Complexity
    ///
    /// One pass over both sets up to the first common pixel, which skips what ends before the next range of the other:
    /// O(m log n) and O(n + m).
    pub fn meets(&self, other: &Coverage) -> bool
        ensures some { result ≡ meets self.now other.now }
    {
        meets(self.ranges(), other.ranges())
    }

    /// Returns whether this set contains every pixel of the other. Does not allocate.
    ///
    /// # Complexity
    ///
    /// One pass over both sets up to the first pixel that this set does not contain. It skips what ends before the next
    /// range of the other, or is inside one range of this set: O(m log n) and O(n + m).
    pub fn covers(&self, other: &Coverage) -> bool
        ensures all { result ≡ set.is_subset other.now self.now }
    {
        covers(self.ranges(), other.ranges())
    }

    /// Returns whether two sets have the same pixels. O(n), and less if their sizes differ; does not allocate.
    pub fn same(&self, other: &Coverage) -> bool
        ensures { IsTrue result ↔ (self.now ≡ other.now) }
    {
        self.has_same_size(other) && are_same(self.ranges(), other.ranges())
    }

    /// Returns whether two sets have the same number of ranges, or the same number of pixels if one of them has blocks.
    /// O(1).
    fn has_same_size(&self, other: &Coverage) -> bool
        ensures { self.now ≡ other.now → IsTrue result }
    {
        match (self.ranges().slice(), other.ranges().slice()) {
            (Some(slice), Some(others)) => slice.len() == others.len(),
            _ => self.count() == other.count(),
        }
    }
}
