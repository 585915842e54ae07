//! Removal from coverages in place.
ghost use Rattle.std.specs.Prelude.{◌≡◌, ◌≤◌, IfOk, OnErr, OnOk};
ghost use Rattle.std.specs.FinSet as set;
ghost use Rattle.moc_blocks.specs.RangeList.{numbers, pixel_count};

use crate::coverage::Coverage;
use crate::errors::Memory;
use moc_lists::Ranges;
use moc_operations::difference;
use std::alloc::Global;

impl Coverage {
    /// Removes the pixels of a half-open range, and returns the number of removed pixels. Removes nothing if `to` is
    /// not above `from`. Requires that `to` is at most `PIXEL_COUNT`.
    ///
    /// # Errors
    ///
    /// Fails with `Memory` if an allocation fails; the set is unchanged.
    ///
    /// # Complexity
    ///
    /// Usually O(log n), also if blocks are shared. One range of a block is changed in place if no other set shares the
    /// block, the range touches no other block, and the fill rule still holds. Otherwise the block is rebuilt. A
    /// neighbour in its node is rebuilt too if the range reaches it, if the block would be empty, or if two adjacent
    /// blocks would fit into one. The pointers to the other blocks of the node are copied if another set shares the
    /// node, if the block is split, or if two blocks are rebuilt. One step for each later node is added if the number
    /// of blocks changes. The cost is the cost of a difference if the range touches three blocks or blocks of two
    /// nodes, or if two blocks cannot hold the rest by the fill rule. Allocates nothing if the set has no pixel in the
    /// range.
    pub fn remove_range(&mut self, alloc: Global, from: u64, to: u64) -> Result<u64, Memory>
        requires within { to ≤ pixel_count }
        ensures set { OnOk result (self.new ≡ set.difference self.old (numbers from to)) }
        ensures removed { IfOk result (λ n. n ≡ set.len (set.intersection self.old (numbers from to))) }
        ensures unchanged { OnErr result (self.new ≡ self.old) }
    {
        if to <= from {
            return Ok(0);
        }
        if !self.meets_range(from, to) {
            return Ok(0);
        }
        if let Some(removed) = self.list.remove(alloc, from, to)? {
            return Ok(removed);
        }
        let range = [(from, to)];
        let list = difference(alloc, self.list.ranges(), Ranges::of(&range))?;
        let removed = self.list.total_width() - list.total_width();
        self.list = list;
        Ok(removed)
    }

    /// Removes the pixels of another set, and returns the number of removed pixels. Has the cost of `remove_range` if
    /// the other set is one range, and otherwise the cost of `difference`.
    ///
    /// # Errors
    ///
    /// Fails with `Memory` if an allocation fails; the set is unchanged.
    pub fn remove_all(&mut self, alloc: Global, other: &Coverage) -> Result<u64, Memory>
        ensures set { OnOk result (self.new ≡ set.difference self.old other.now) }
        ensures removed { IfOk result (λ n. n ≡ set.len (set.intersection self.old other.now)) }
        ensures unchanged { OnErr result (self.new ≡ self.old) }
    {
        if let Some([range]) = other.ranges().slice() {
            return self.remove_range(alloc, range.0, range.1);
        }
        let removed = self.count_common(other);
        if removed > 0 {
            *self = self.difference(alloc, other)?;
        }
        Ok(removed)
    }
}
