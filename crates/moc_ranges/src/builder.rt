//! Builds coverages from cells.
ghost use Rattle.std.specs.Prelude.{◌≡◌, ◌<◌, ◌≤◌, ◌*◌, ◌+◌, IfOk, OnOk, OnErr};
ghost use Rattle.std.specs.FinSet as set;
ghost use Rattle.moc_sphere.specs.CellNumber.{cell_count};
ghost use Rattle.moc_ranges.specs.Cells.{span, spans, pixels_of};
ghost use Rattle.moc_blocks.specs.RangeList.{numbers, pixel_count};

use crate::coverage::Coverage;
use crate::errors::Memory;
use crate::from_ranges::{append, build};
use moc_lists::list_from_ranges;
use moc_sphere::{Cell, Order};
use std::alloc::{AllocError, Global};
use std::fmt;
use std::marker::Model;

/// The minimum number of ranges that wait before they are merged.
const MIN_WAITING: usize = 512;

/// A builder that collects cells, in any order, into a coverage.
///
/// Cells that come in order are merged at once. The others wait, and are merged when there are as many of them as
/// ranges so far, but at least 512.
///
/// # Complexity
///
/// O(n log n) for n cells, or O(n) if they come in order.
///
/// # Memory
///
/// Follows the number of ranges of the set, not the number of cells.
#[derive(Drop)]
pub struct CoverageBuilder {
    joined: Coverage,
    /// Ranges in ascending order that do not touch.
    ascending: Vec<(u64, u64)>,
    waiting: Vec<(u64, u64)>,
}

impl Model for CoverageBuilder {
    ghost use Rattle.std.specs.Ordering.{nat_cmp};
    ghost use Rattle.std.specs.FinSet as set;
    ghost use Rattle.std.specs.Coded.{coded_ℕ};
    ghost use Rattle.moc_ranges.specs.Private.Collected.{IsCollected, pixels_of_builder};

    ghost Value = { set.FinSet nat_cmp };

    ghost coded = { set.code coded_ℕ };

    ghost view = { λ b. pixels_of_builder b.joined b.ascending.items b.waiting.items };

    ghost invariant = { λ b. IsCollected b.ascending.items b.waiting.items };
}

impl CoverageBuilder {
    /// Returns a builder of the empty coverage. Does not allocate.
    pub fn new(alloc: Global) -> Self
        ensures { result ≡ set.empty }
    {
        Self {
            joined: Coverage::empty(alloc),
            ascending: Vec::new(alloc),
            waiting: Vec::new(alloc),
        }
    }

    /// Adds the cells of an order from the first to the last, both included. Adds none if the last is before the first.
    /// Has the cost of one call of `add_cell`.
    ///
    /// Requires that `last` is less than `order.cell_count()`.
    ///
    /// # Errors
    ///
    /// Fails with `Memory` if an allocation fails; the builder is unchanged.
    pub fn add_cells(&mut self, order: Order, first: u64, last: u64) -> Result<(), Memory>
        requires { last < cell_count order }
        ensures added { OnOk result (self.new ≡ set.union self.old (spans order first last)) }
        ensures unchanged { OnErr result (self.new ≡ self.old) }
    {
        if first > last {
            return Ok(());
        }
        let size = order.cell_size();
        self.add_range(first * size, (last + 1) * size)
    }

    /// Adds one cell.
    ///
    /// # Errors
    ///
    /// Fails with `Memory` if an allocation fails; the builder is unchanged.
    ///
    /// # Complexity
    ///
    /// Amortized O(1) if the cell does not begin before the last one that came in order, and otherwise amortized
    /// O(log n).
    pub fn add_cell(&mut self, cell: Cell) -> Result<(), Memory>
        ensures added { OnOk result (self.new ≡ set.union self.old (span cell.order cell.index)) }
        ensures unchanged { OnErr result (self.new ≡ self.old) }
    {
        let (from, to) = cell.span();
        self.add_range(from, to)
    }

    /// Returns the coverage of all cells that were added.
    ///
    /// # Errors
    ///
    /// Fails with `Memory` if an allocation fails.
    ///
    /// # Complexity
    ///
    /// O(n log n) in the cells that wait, and O(n) in the ranges of the others.
    pub fn build(self) -> Result<Coverage, Memory>
        ensures { IfOk result (λ c. c ≡ self) }
    {
        let alloc = *self.waiting.allocator();
        if self.waiting.is_empty() && self.joined.is_empty() {
            return Ok(Coverage::of(list_from_ranges(alloc, self.ascending)?));
        }
        self.merge_all(alloc)
    }

    /// Adds the pixels of a half-open range.
    #[inline]
    fn add_range(&mut self, from: u64, to: u64) -> Result<(), Memory>
        requires ascending { from < to }
        requires within { to ≤ pixel_count }
        ensures added { OnOk result (self.new ≡ set.union self.old (numbers from to)) }
        ensures unchanged { OnErr result (self.new ≡ self.old) }
    {
        if append(&mut self.ascending, from, to)? {
            return Ok(());
        }
        self.add_waiting(from, to)
    }

    /// Adds pixels that begin before the last range; merges the waiting ranges first if there are as many of them as
    /// may wait.
    fn add_waiting(&mut self, from: u64, to: u64) -> Result<(), Memory>
        requires ascending { from < to }
        requires within { to ≤ pixel_count }
        ensures added { OnOk result (self.new ≡ set.union self.old (numbers from to)) }
        ensures unchanged { OnErr result (self.new ≡ self.old) }
    {
        if self.waiting.len() >= self.limit() {
            self.merge_waiting()?;
        }
        self.waiting.push((from, to))?;
        Ok(())
    }

    /// Merges the waiting ranges into the set.
    fn merge_waiting(&mut self) -> Result<(), Memory>
        ensures { self.new ≡ self.old }
    {
        let alloc = *self.waiting.allocator();
        self.joined = self.merge_all(alloc)?;
        self.ascending.clear();
        self.waiting.clear();
        Ok(())
    }

    /// Returns the number of ranges that may wait.
    fn limit(&self) -> usize {
        self.ascending
            .len()
            .max(self.joined.range_count())
            .max(MIN_WAITING)
    }

    /// Returns the coverage of the merged set and of all other ranges.
    fn merge_all(&self, alloc: Global) -> Result<Coverage, Memory>
        ensures { IfOk result (λ c. c ≡ self.now) }
    {
        let sorted = Coverage::of(build(alloc, &self.ascending)?);
        let unsorted = Coverage::from_valid(alloc, &self.waiting)?;
        self.joined.union(alloc, &sorted)?.union(alloc, &unsorted)
    }
}

/// Adds cells in any order, as `add_cell` does. If an allocation fails, the cells before are added.
impl Extend<Cell> for CoverageBuilder {
    ghost use Rattle.std.specs.Prelude.{◌≡◌};
    ghost use Rattle.std.specs.FinSet as set;
    ghost use Rattle.moc_ranges.specs.Cells.{pixels_of};

    ghost extend_gives = { λ old cells new. new ≡ set.union old (pixels_of cells) };

    fn extend<I: IntoIterator<Item = Cell>>(&mut self, cells: I) -> Result<(), AllocError> {
        for cell in cells {
            self.add_cell(cell)?;
        }
        Ok(())
    }
}

/// Writes the number of merged ranges, of those that came in order, and of those that wait.
impl fmt::Debug for CoverageBuilder {
    fn fmt<W: fmt::Write>(&self, f: &mut fmt::Formatter<W>) -> fmt::Result {
        let joined = self.joined.range_count();
        let ascending = self.ascending.len();
        let waiting = self.waiting.len();
        write!(
            f,
            "CoverageBuilder {{ joined: {joined}, ascending: {ascending}, waiting: {waiting} }}"
        )
    }
}

impl Coverage {
    /// Returns the coverage of the given cells, which may come in any order and overlap.
    ///
    /// # Errors
    ///
    /// Fails with `Memory` if an allocation fails.
    ///
    /// # Complexity
    ///
    /// O(n) if the cells are sorted by their pixels, and otherwise O(n log n).
    pub fn from_cells(alloc: Global, cells: &[Cell]) -> Result<Coverage, Memory>
        ensures { IfOk result (λ c. c ≡ pixels_of cells.now) }
    {
        let mut builder = CoverageBuilder::new(alloc);
        builder.extend(cells.iter().copied())?;
        builder.build()
    }
}
