//! Coverages by cell.
ghost use Rattle.std.specs.Prelude.{◌≡◌, ℕ, ◌<◌, ◌≤◌, ◌==◌, IfOk, OnOk, OnErr, length, sum};
ghost use Rattle.std.specs.List.{filter};
ghost use Rattle.std.specs.FinSet as set;
ghost use Rattle.moc_blocks.specs.RangeList.{IsNormal};
ghost use Rattle.moc_ranges.specs.Operations.{meets, IsWithin, pixels};
ghost use Rattle.moc_ranges.specs.CellCounts.{counts_by_order, uniq_end};
ghost use Rattle.moc_ranges.specs.Cells.{HaveOrders, cells_in, cells_of, degrade, span};
ghost use Rattle.moc_sphere.specs.CellNumber.{order_count};

use crate::cell_counts::{ORDER_COUNT, add_cells};
use crate::cell_ranges::CellRanges;
use crate::cells::{deepest_order, orders_with_cells, push_runs};
use crate::coverage::Coverage;
use crate::errors::Memory;
use crate::from_ranges::build_widened;
use moc_lists::RangeList;
use moc_sphere::{Cell, Order};
use std::alloc::Global;

impl Coverage {
    /// Returns the set of the order-29 pixels in a cell. O(1).
    ///
    /// # Errors
    ///
    /// Fails with `Memory` if an allocation fails.
    pub fn from_cell(alloc: Global, cell: Cell) -> Result<Coverage, Memory>
        ensures { IfOk result (λ c. c ≡ span cell.order cell.index) }
    {
        let (from, to) = cell.span();
        let list = RangeList::from_range(alloc, from, to)?;
        Ok(Coverage { list })
    }

    /// Returns whether the set has a pixel in this cell. O(log n), does not allocate.
    pub fn meets_cell(&self, cell: Cell) -> bool
        ensures { result ≡ meets self.now (span cell.order cell.index) }
    {
        let (from, to) = cell.span();
        self.meets_range(from, to)
    }

    /// Returns whether the set contains every pixel of this cell. O(log n), does not allocate.
    pub fn contains_cell(&self, cell: Cell) -> bool
        ensures { result ≡ set.is_subset (span cell.order cell.index) self.now }
    {
        let (from, to) = cell.span();
        self.covers_range(from, to)
    }

    /// Returns the number of pixels of the set in this cell. Does not allocate.
    ///
    /// # Complexity
    ///
    /// O(log n), and one step for each further range, block or node that the cell meets.
    pub fn count_cell(&self, cell: Cell) -> u64
        ensures { result ≡ set.len (set.intersection self.now (span cell.order cell.index)) }
    {
        let (from, to) = cell.span();
        self.count_range(from, to)
    }

    /// Inserts the pixels of this cell, and returns the number of new pixels. Has the cost of `insert_range`.
    ///
    /// # Errors
    ///
    /// Fails with `Memory` if an allocation fails; the set is unchanged.
    pub fn insert_cell(&mut self, alloc: Global, cell: Cell) -> Result<u64, Memory>
        ensures set { OnOk result (self.new ≡ set.union self.old (span cell.order cell.index)) }
        ensures added { IfOk result (λ n. n ≡ set.len (set.difference (span cell.order cell.index) self.old)) }
        ensures unchanged { OnErr result (self.new ≡ self.old) }
    {
        let (from, to) = cell.span();
        self.insert_range(alloc, from, to)
    }

    /// Removes the pixels of this cell, and returns the number of removed pixels. Has the cost of `remove_range`.
    ///
    /// # Errors
    ///
    /// Fails with `Memory` if an allocation fails; the set is unchanged.
    pub fn remove_cell(&mut self, alloc: Global, cell: Cell) -> Result<u64, Memory>
        ensures set { OnOk result (self.new ≡ set.difference self.old (span cell.order cell.index)) }
        ensures removed { IfOk result (λ n. n ≡ set.len (set.intersection self.old (span cell.order cell.index))) }
        ensures unchanged { OnErr result (self.new ≡ self.old) }
    {
        let (from, to) = cell.span();
        self.remove_range(alloc, from, to)
    }

    /// Returns the set degraded to an order: all pixels of each cell of this order in which the set has a pixel.
    ///
    /// # Errors
    ///
    /// Fails with `Memory` if an allocation fails.
    ///
    /// # Complexity
    ///
    /// One pass, O(n).
    ///
    /// # Source
    ///
    /// MOC 2.0, degradation.
    pub fn degrade(&self, alloc: Global, order: Order) -> Result<Coverage, Memory>
        ensures { IfOk result (λ c. c ≡ degrade self.now order) }
    {
        let list = build_widened(alloc, order.cell_size(), self.ranges())?;
        Ok(Coverage { list })
    }

    /// Returns the least order at which the set is a union of cells: the MOC order that the set needs (MOC 2.0).
    /// Returns 0 for the empty set. One pass, O(n); does not allocate.
    pub fn deepest_order(&self) -> Order
        ensures whole { degrade self.now result ≡ self.now }
        ensures least { (k : ℕ) → degrade self.now k ≡ self.now → result ≤ k }
    {
        deepest_order(self.ranges())
    }

    /// Returns the cells of the set in ascending NUNIQ: those whose pixels are all in the set, and that are of order 0
    /// or whose parent has a pixel that is not in the set.
    ///
    /// # Errors
    ///
    /// Fails with `Memory` if an allocation fails.
    ///
    /// # Complexity
    ///
    /// One pass over the ranges for each order that can have cells.
    ///
    /// # Source
    ///
    /// MOC 2.0, the normal form.
    pub fn cells(&self, alloc: Global) -> Result<Vec<Cell>, Memory>
        ensures cells { IfOk result (λ v. v.items ≡ cells_of self.now) }
        ensures within { IsWithin self.now pixels }
    {
        let (first, end) = orders_with_cells(self.ranges());
        let mut cells = Vec::with_capacity(alloc, self.range_count())?;
        for level in first..end {
            let order = Order::of(level);
            push_runs(&mut cells, order, self.cell_ranges(order))?;
        }
        Ok(cells)
    }

    /// Returns the possible orders of the cells of the set: the first, and the one after the last. No cell has another
    /// order. One pass, O(n); does not allocate.
    pub fn cell_orders(&self) -> (u8, u8)
        ensures each { HaveOrders result.0 result.1 (cells_of self.now) }
        ensures in_range { result.1 ≤ order_count }
        ensures within { IsWithin self.now pixels }
    {
        orders_with_cells(self.ranges())
    }

    /// Returns the number of cells of the set of each order, from order 0 to order 29. One pass over the ranges, with
    /// at most one step for each order of a range: O(n). Does not allocate.
    ///
    /// # Source
    ///
    /// MOC 2.0, the normal form.
    pub fn cell_count_by_order(&self) -> [u64; 30]
        ensures counts { result ≡ counts_by_order (cells_of self.now) }
        ensures total { sum result ≡ length (cells_of self.now) }
        ensures bounded { sum result < uniq_end }
    {
        let mut counts = [0; ORDER_COUNT];
        for (from, to) in self.ranges() {
            add_cells(&mut counts, from, to);
        }
        counts
    }

    /// Returns an iterator over the cells of the set that are of this order, as half-open ranges (first, end) of their
    /// indices: the longest runs, in ascending order. One pass over the ranges of the set while it advances, O(n); does
    /// not allocate.
    pub fn cell_ranges(&self, order: Order) -> CellRanges<'_>
        ensures cells { cells_in order result ≡ filter (λ c. c.order == order) (cells_of self.now) }
        ensures normal { IsNormal result }
    {
        CellRanges::new(order, self.ranges())
    }
}
