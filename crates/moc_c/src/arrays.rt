//! Sets made from arrays, and arrays filled from sets.
ghost use Rattle.std.specs.Prelude.{◌≡◌, ◌⊎◌, ◌∷◌, [], IfOk, MatchResult, Err, Ok, map};
ghost use Rattle.moc_sphere.specs.CellNumber.{uniq_of};
ghost use Rattle.moc_ranges.specs.Cells.{span};
ghost use Rattle.moc_c.specs.Answers.{Makes, set_at};
ghost use Rattle.moc_c.specs.Buffers.{set_of_cells_or_error, Fills, FillsCellCounts, FillsCells};
ghost use Rattle.moc_c.specs.Buffers.{FillsRanges, MakesSetOfUniqs, pairs_from, ranges_from};
ghost use Rattle.moc_c.specs.Buffers.{set_of_ranges_or_error, AreContainedFlags, AreUniqsOf};
ghost use Rattle.moc_c.specs.declared.error.CallError.TheVariants.{Memory as NoMemory};

use crate::call_result::CallResult;
use crate::error::CallError;
use crate::lookup::{KnownSpan, look};
use crate::range::Range;
use crate::store::Store;
use crate::table::CoverageTable;
use moc_ranges::{Coverage, CoverageBuilder, Memory, Ranges, RangesError};
use moc_sphere::{Cell, Order};
use std::alloc::{AllocError, Global};

/// Returns the ranges as pairs.
fn pairs_of(alloc: Global, ranges: &[Range]) -> Result<Vec<(u64, u64)>, AllocError>
    ensures { IfOk result (λ v. v.items ≡ pairs_from ranges.now) }
{
    let mut pairs = Vec::with_capacity(alloc, ranges.len())?;
    for range in ranges {
        pairs.push((range.from, range.to))?;
    }
    Ok(pairs)
}

/// Returns the union of the ranges.
fn set_of_ranges(alloc: Global, ranges: &[Range]) -> Result<Coverage, CallError>
    ensures { MatchResult result (λ a. set_of_ranges_or_error ranges.now ≡ Ok a)
        (λ e. (e ≡ NoMemory) ⊎ (set_of_ranges_or_error ranges.now ≡ Err e)) }
{
    let pairs = pairs_of(alloc, ranges)?;
    match Coverage::from_ranges(alloc, &pairs) {
        Ok(set) => Ok(set),
        Err(RangesError::Memory) => Err(CallError::Memory),
        Err(error) => Err(CallError::Ranges(error)),
    }
}

/// Returns the cell of an order with this index, which is the only one of an array.
pub(crate) fn only_cell(order: Order, index: u64) -> Result<Cell, CallError>
    ensures { MatchResult result (λ cell. set_of_cells_or_error order (index ∷ []) ≡ Ok (span cell.order cell.index))
        (λ e. set_of_cells_or_error order (index ∷ []) ≡ Err e) }
{
    match Cell::new(order, index) {
        Ok(cell) => Ok(cell),
        Err(_) => Err(CallError::NoSuchCell { at: 0 }),
    }
}

/// Returns the set of a cell.
fn set_of_cell(alloc: Global, order: Order, index: u64) -> Result<Coverage, CallError>
    ensures { MatchResult result (λ a. set_of_cells_or_error order (index ∷ []) ≡ Ok a)
        (λ e. (e ≡ NoMemory) ⊎ (set_of_cells_or_error order (index ∷ []) ≡ Err e)) }
{
    let cell = only_cell(order, index)?;
    Ok(Coverage::from_cell(alloc, cell)?)
}

/// Returns the set of the cells of one order with these indices.
pub(crate) fn set_of_cells(
    alloc: Global,
    order: Order,
    cells: &[u64],
) -> Result<Coverage, CallError>
    ensures { MatchResult result (λ a. set_of_cells_or_error order cells.now ≡ Ok a)
        (λ e. (e ≡ NoMemory) ⊎ (set_of_cells_or_error order cells.now ≡ Err e)) }
{
    if let [index] = cells {
        return set_of_cell(alloc, order, *index);
    }
    let mut builder = CoverageBuilder::new(alloc);
    for (at, index) in cells.iter().enumerate() {
        let Ok(cell) = Cell::new(order, *index) else {
            return Err(CallError::NoSuchCell { at });
        };
        builder.add_cell(cell)?;
    }
    Ok(builder.build()?)
}

/// Returns the set of the cells with these NUNIQ numbers.
fn set_of_uniqs(alloc: Global, uniqs: &[u64]) -> Result<Coverage, CallError>
    ensures { MatchResult result (λ a. AreUniqsOf uniqs.now (Ok a)) (λ e.
        (e ≡ NoMemory) ⊎ AreUniqsOf uniqs.now (Err e)) }
{
    let mut builder = CoverageBuilder::new(alloc);
    for (at, uniq) in uniqs.iter().enumerate() {
        let Ok(cell) = Cell::from_uniq(*uniq) else {
            return Err(CallError::NotUniq { at });
        };
        builder.add_cell(cell)?;
    }
    Ok(builder.build()?)
}

impl CoverageTable {
    /// Stores the set of the cells of one order with these indices.
    fn store_cells(&mut self, alloc: Global, order: u8, cells: &[u64]) -> CallResult
        ensures { Makes self.old self.new (set_of_cells_or_error order cells.now) result }
    {
        match Order::new(order) {
            Some(order) => self.insert_or_fail(set_of_cells(alloc, order, cells)),
            None => CallResult::of(CallError::NoSuchOrder { order }),
        }
    }
}

/// Stores the union of the ranges under a new id. The ranges may be in any order, may overlap, and may be empty.
///
/// # Errors
/// Fails for the first invalid range, or if an allocation fails.
///
/// # Complexity
/// O(n) if the ranges are ascending, otherwise O(n log n).
#[unsafe(no_mangle)]
pub extern "C" fn moc_from_ranges(alloc: Global, store: &mut Store, ranges: &[Range]) -> CallResult
    ensures { Makes store.old.contents store.new.contents (set_of_ranges_or_error ranges.now) result }
{
    store.table().insert_or_fail(set_of_ranges(alloc, ranges))
}

/// Stores the set of the cells of an order with these nested indices, in any order, under a new id.
///
/// # Errors
/// Fails for an order above 29, for the first index that is not a cell of the order, or if an allocation fails.
///
/// # Complexity
/// O(n) if the indices are ascending, otherwise O(n log n).
#[unsafe(no_mangle)]
pub extern "C" fn moc_from_cells(
    alloc: Global,
    store: &mut Store,
    order: u8,
    cells: &[u64],
) -> CallResult
    ensures { Makes store.old.contents store.new.contents (set_of_cells_or_error order cells.now) result }
{
    store.table().store_cells(alloc, order, cells)
}

/// Stores the set of the cells with these NUNIQ numbers, in any order, under a new id. O(n log n).
///
/// # Errors
/// Fails for the first number that is not a NUNIQ number, or if an allocation fails.
#[unsafe(no_mangle)]
pub extern "C" fn moc_from_uniqs(alloc: Global, store: &mut Store, uniqs: &[u64]) -> CallResult
    ensures { MakesSetOfUniqs store.old.contents store.new.contents uniqs.now result }
{
    store.table().insert_or_fail(set_of_uniqs(alloc, uniqs))
}

/// Copies the ranges of a set to the front of a buffer.
fn fill_ranges(ranges: Ranges<'_>, out: &mut [Range]) -> CallResult
    ensures { Fills (ranges_from ranges.entry) out.old out.new result }
{
    let count = ranges.size_hint().0;
    if out.len() < count {
        return CallResult::of(CallError::BufferTooShort { needed: count });
    }
    let mut at = 0;
    for (from, to) in ranges {
        out[at] = Range { from, to };
        at += 1;
    }
    CallResult::number(count as u64)
}

/// Copies the ranges of a set to the front of a buffer, and returns their number. The ranges are ascending, not empty,
/// and no two of them touch.
///
/// # Errors
/// Fails if the id has no set, or if the buffer is too short; the buffer is unchanged then.
///
/// # Complexity
/// O(n). Does not allocate.
#[unsafe(no_mangle)]
pub extern "C" fn moc_ranges(store: &mut Store, a: u64, out: &mut [Range]) -> CallResult
    ensures ranges { FillsRanges (set_at store.old.contents a) out.old out.new result }
    ensures same { store.new.contents ≡ store.old.contents }
{
    match store.table().set(a) {
        Ok(set) => fill_ranges(set.ranges(), out),
        Err(error) => CallResult::of(error),
    }
}

/// Copies the NUNIQ numbers of cells to the front of a buffer.
fn fill_uniqs(cells: &[Cell], out: &mut [u64]) -> CallResult
    ensures { Fills (map uniq_of cells.now) out.old out.new result }
{
    let count = cells.len();
    if out.len() < count {
        return CallResult::of(CallError::BufferTooShort { needed: count });
    }
    for (at, cell) in cells.iter().enumerate() {
        out[at] = cell.uniq();
    }
    CallResult::number(count as u64)
}

/// Copies the NUNIQ numbers of a set's cells to the front of a buffer.
fn fill_cells(alloc: Global, set: &Coverage, out: &mut [u64]) -> CallResult
    ensures { FillsCells (Ok set.now) out.old out.new result }
{
    match set.cells(alloc) {
        Ok(cells) => fill_uniqs(&cells, out),
        Err(Memory) => CallResult::of(CallError::Memory),
    }
}

/// Copies the NUNIQ numbers of a set's cells, ascending, to the front of a buffer, and returns their number.
///
/// # Errors
/// Fails if the id has no set, if an allocation fails, or if the buffer is too short; the buffer is unchanged then.
///
/// # Complexity
/// One pass over the ranges for each order that can have cells. Allocates a list of the cells.
#[unsafe(no_mangle)]
pub extern "C" fn moc_cells(alloc: Global, store: &mut Store, a: u64, out: &mut [u64]) -> CallResult
    ensures cells { FillsCells (set_at store.old.contents a) out.old out.new result }
    ensures same { store.new.contents ≡ store.old.contents }
{
    match store.table().set(a) {
        Ok(set) => fill_cells(alloc, set, out),
        Err(error) => CallResult::of(error),
    }
}

/// Copies numbers to the front of a buffer, and returns how many. Fails if the buffer is too short.
fn fill_numbers(numbers: &[u64], out: &mut [u64]) -> CallResult
    ensures { Fills numbers.now out.old out.new result }
{
    let count = numbers.len();
    if out.len() < count {
        return CallResult::of(CallError::BufferTooShort { needed: count });
    }
    out[..count].copy_from_slice(numbers);
    CallResult::number(count as u64)
}

/// Copies the numbers of a set's cells of each order, from order 0 to order 29, to the front of a buffer, and returns
/// how many numbers there are: 30.
///
/// # Errors
/// Fails if the id has no set, or if the buffer is too short; the buffer is unchanged then.
///
/// # Complexity
/// One pass over the ranges, O(n). Does not allocate.
#[unsafe(no_mangle)]
pub extern "C" fn moc_cell_count_by_order(store: &mut Store, a: u64, out: &mut [u64]) -> CallResult
    ensures counts { FillsCellCounts (set_at store.old.contents a) out.old out.new result }
    ensures same { store.new.contents ≡ store.old.contents }
{
    match store.table().set(a) {
        Ok(set) => fill_numbers(&set.cell_count_by_order(), out),
        Err(error) => CallResult::of(error),
    }
}

/// Tests whether a set contains each pixel of an array. A pixel in the same range or gap as the one before is not
/// searched.
fn fill_contained(set: &Coverage, pixels: &[u64], out: &mut [u8]) -> CallResult
    ensures { AreContainedFlags (Ok set.now) pixels.now out.old out.new result }
{
    if pixels.len() != out.len() {
        return CallResult::of(CallError::LengthsDiffer);
    }
    let (mut rest, mut passed) = (set.ranges(), 0);
    let mut known = KnownSpan {
        from: 0,
        start: 0,
        end: 0,
    };
    for (at, pixel) in pixels.iter().enumerate() {
        let mut has = known.start <= *pixel;
        if *pixel < known.from || known.end <= *pixel {
            (has, known) = look(set, &mut rest, &mut passed, *pixel);
        }
        out[at] = u8::from(has);
    }
    CallResult::success()
}

/// Tests which order-29 pixels of an array the set contains, and writes 1 or 0 for each to another array.
///
/// # Errors
/// Fails if the id has no set, or if the arrays differ in length.
///
/// # Complexity
/// O(1) for a pixel after the one before it in the same range or gap, or at most eight ranges further; O(log n) for
/// every other pixel. Does not allocate.
#[unsafe(no_mangle)]
pub extern "C" fn moc_contains_all(
    store: &mut Store,
    a: u64,
    pixels: &[u64],
    out: &mut [u8],
) -> CallResult
    ensures value { AreContainedFlags (set_at store.old.contents a) pixels.now out.old out.new result }
    ensures same { store.new.contents ≡ store.old.contents }
{
    match store.table().set(a) {
        Ok(set) => fill_contained(set, pixels, out),
        Err(error) => CallResult::of(error),
    }
}
