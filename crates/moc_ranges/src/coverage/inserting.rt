//! Insertion into coverages in place.
ghost use Rattle.std.specs.Prelude.{◌≡◌, ◌≤◌, IfOk, OnErr, OnOk};
ghost use Rattle.std.specs.FinSet as set;
ghost use Rattle.moc_blocks.specs.RangeList.{numbers, pixel_count};

use crate::coverage::Coverage;
use crate::errors::Memory;
use moc_lists::Ranges;
use moc_operations::union;
use std::alloc::Global;

impl Coverage {
    /// Inserts the pixels of a half-open range, and returns the number of new pixels. Inserts nothing if `to` is not
    /// above `from`. Requires that `to` is at most `PIXEL_COUNT`.
    ///
    /// # Errors
    ///
    /// Fails with `Memory` if an allocation fails; the set is unchanged.
    ///
    /// # Complexity
    ///
    /// Usually O(log n), also if blocks are shared. Up to two ranges of a block are changed in place if no other set
    /// shares the block, the range touches no other block, and the fill rule still holds. Otherwise the block is
    /// rebuilt. The pointers to the other blocks of its node are copied if another set shares the node, if the block is
    /// split, or if two blocks are rebuilt. One step for each later node is added if the number of blocks changes. The
    /// cost is the cost of a union if the range touches three blocks or blocks of two nodes, or if two blocks cannot
    /// hold the ranges by the fill rule. Allocates nothing if the set has all pixels of the range.
    pub fn insert_range(&mut self, alloc: Global, from: u64, to: u64) -> Result<u64, Memory>
        requires within { to ≤ pixel_count }
        ensures set { OnOk result (self.new ≡ set.union self.old (numbers from to)) }
        ensures added { IfOk result (λ n. n ≡ set.len (set.difference (numbers from to) self.old)) }
        ensures unchanged { OnErr result (self.new ≡ self.old) }
    {
        if to <= from {
            return Ok(0);
        }
        if self.covers_range(from, to) {
            return Ok(0);
        }
        if let Some(added) = self.list.insert(alloc, from, to)? {
            return Ok(added);
        }
        let range = [(from, to)];
        let list = union(alloc, self.list.ranges(), Ranges::of(&range))?;
        let added = list.total_width() - self.list.total_width();
        self.list = list;
        Ok(added)
    }

    /// Inserts the pixels of another set, and returns the number of new pixels. Has the cost of `insert_range` if the
    /// other set is one range, and otherwise the cost of `union`.
    ///
    /// # Errors
    ///
    /// Fails with `Memory` if an allocation fails; the set is unchanged.
    pub fn insert_all(&mut self, alloc: Global, other: &Coverage) -> Result<u64, Memory>
        ensures set { OnOk result (self.new ≡ set.union self.old other.now) }
        ensures added { IfOk result (λ n. n ≡ set.len (set.difference other.now self.old)) }
        ensures unchanged { OnErr result (self.new ≡ self.old) }
    {
        if let Some([range]) = other.ranges().slice() {
            return self.insert_range(alloc, range.0, range.1);
        }
        let added = other.count() - self.count_common(other);
        if added > 0 {
            *self = self.union(alloc, other)?;
        }
        Ok(added)
    }
}
