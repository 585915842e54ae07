//! Writing the ASCII format.
ghost use Rattle.std.specs.Prelude.{◌≡◌, ◌++◌, ◌∷◌, ◌<◌, ◌≤◌, decimal, IfErr, IfOk, IsTrue, OnOk, ◌↔◌, ◌⊎◌};
ghost use Rattle.std.specs.Prelude.{List, None, Option, ℕ};
ghost use Rattle.std.specs.Option.{ForSome};
ghost use Rattle.std.specs.String.{string_bytes};
ghost use Rattle.std.specs.List.{join_with_byte};
ghost use Rattle.moc_ranges.specs.Cells.{HaveOrders, cells_of};
ghost use Rattle.moc_lists.specs.RangeList.{IsNormal, NumberSet};
ghost use Rattle.moc_text.specs.Ascii.{Represents};
ghost use Rattle.moc_text.specs.AsciiText.{ascii_text, deepest_cell, deepest_written, IsTooCoarse, run_text};
ghost use Rattle.moc_text.specs.AsciiText.{runs_of, stated_if_deeper, words_of};
ghost use Rattle.moc_text.specs.Private.AsciiWriting.{leading_space, remaining_text, run_part, runs_in, stated_part};
ghost use Rattle.moc_text.specs.declared.ascii.writing.Run.{Run as CellRun};

use crate::text_writer::{GrowingText, TextWriter};
use crate::write_error::WriteError;
use itoa::Buffer;
use moc_ranges::{CellRanges, Coverage, Memory as OutOfMemory};
use moc_sphere::Order;
use std::alloc::{AllocError, Global};

/// The initial capacity of a text in bytes for each range of the set: an estimate of the length of its cells.
const RANGE_CAPACITY: usize = 20;

/// A run of consecutive cells of one order, from the first to the last, inclusive.
#[derive(Clone, Copy)]
struct Run {
    order: u8,
    first: u64,
    last: u64,
}

/// Writes an order, after a space if the text is not empty.
fn push_order<T: GrowingText>(
    text: &mut TextWriter<T>,
    before: Option<u8>,
    order: u8,
) -> Result<(), AllocError>
    ensures { OnOk result (text.new ≡ text.old ++ leading_space before ++ decimal order) }
{
    if before.is_some() {
        return text.push_number(b' ', u64::from(order));
    }
    text.push_str(Buffer::new().format(order))
}

/// Writes the cells of a run after an ASCII byte.
#[inline]
fn push_cells<T: GrowingText>(
    text: &mut TextWriter<T>,
    before: u8,
    run: Run,
) -> Result<(), AllocError>
    requires { before < 128 }
    ensures { OnOk result (text.new ≡ text.old ++ before ∷ run_text run) }
{
    text.push_number(before, run.first)?;
    if run.first == run.last {
        return Ok(());
    }
    text.push_number(b'-', run.last)
}

/// Writes a run, with its order unless this order was written last.
#[inline]
fn push_run<T: GrowingText>(
    text: &mut TextWriter<T>,
    before: Option<u8>,
    run: Run,
) -> Result<(), AllocError>
    ensures { OnOk result (text.new ≡ text.old ++ run_part before run) }
{
    if let Some(last) = before
        && last == run.order
    {
        return push_cells(text, b' ', run);
    }
    push_order(text, before, run.order)?;
    push_cells(text, b'/', run)
}

/// Returns the stated order if it is deeper than the order that was written last, or if no order was written.
pub fn if_deeper(before: Option<u8>, stated: Option<u8>) -> Option<u8>
    ensures { result ≡ stated_if_deeper before stated }
{
    match (before, stated) {
        (Some(last), Some(stated)) if stated <= last => None,
        _ => stated,
    }
}

/// Writes the stated order if it is deeper than the order that was written last, or if no order was written.
fn push_stated<T: GrowingText>(
    text: &mut TextWriter<T>,
    before: Option<u8>,
    stated: Option<u8>,
) -> Result<(), AllocError>
    ensures { OnOk result (text.new ≡ text.old ++ stated_part before stated) }
{
    let Some(order) = if_deeper(before, stated) else {
        return Ok(());
    };
    push_order(text, before, order)?;
    text.push_str("/")
}

/// Returns an order as a number.
pub fn depth_of(order: Option<Order>) -> Option<u8>
    ensures same { result ≡ order }
    ensures small { ForSome result (λ k. k ≤ 29) }
{
    Some(order?.get())
}

/// Returns the order of the deepest cells of the set. The cells must have orders in the given range.
pub fn deepest_of(set: &Coverage, orders: (u8, u8)) -> Option<u8>
    requires each { HaveOrders orders.0 orders.1 (cells_of set.now) }
    requires in_range { orders.1 ≤ 30 }
    ensures { result ≡ deepest_cell (cells_of set.now) }
{
    let mut level = orders.1;
    while level > orders.0 {
        level -= 1;
        if set.cell_ranges(Order::of(level)).next().is_some() {
            return Some(level);
        }
    }
    None
}

/// Returns whether the deepest order of cells is deeper than the stated order.
pub fn is_too_coarse(deepest: Option<u8>, stated: Option<u8>) -> bool
    ensures { (set : NumberSet) → deepest ≡ deepest_cell (cells_of set) → (IsTrue result ↔ IsTooCoarse set stated) }
{
    match (deepest, stated) {
        (Some(deepest), Some(stated)) => deepest > stated,
        _ => false,
    }
}

/// Writes the runs of one order, and returns the order that was written last.
fn push_runs<T: GrowingText>(
    text: &mut TextWriter<T>,
    before: Option<u8>,
    order: u8,
    ranges: CellRanges<'_>,
) -> Result<Option<u8>, AllocError>
    requires { IsNormal ranges }
    ensures { IfOk result (λ last. (stated : Option ℕ) (rest : List CellRun) →
        text.new ++ remaining_text stated last rest
        ≡ text.old ++ remaining_text stated before (runs_in order ranges.entry ++ rest)) }
{
    let mut before = before;
    for (first, end) in ranges {
        let last = end - 1;
        push_run(text, before, Run { order, first, last })?;
        before = Some(order);
    }
    Ok(before)
}

/// Writes the cells of the set as runs, order by order, and the stated order. The cells must have orders in the given
/// range.
fn push_all<T: GrowingText>(
    text: &mut TextWriter<T>,
    set: &Coverage,
    orders: (u8, u8),
    stated: Option<u8>,
) -> Result<(), AllocError>
    requires each { HaveOrders orders.0 orders.1 (cells_of set.now) }
    requires in_range { orders.1 ≤ 30 }
    ensures { OnOk result (text.new
        ≡ text.old ++ join_with_byte 32 (words_of stated None (runs_of (cells_of set.now)))) }
{
    let mut before = None;
    for level in orders.0..orders.1 {
        before = push_runs(text, before, level, set.cell_ranges(Order::of(level)))?;
    }
    push_stated(text, before, stated)
}

/// Writes a set in the ASCII format. Cells are sorted by order and then by index, and consecutive cells are written as
/// ranges. The stated order is appended if it is deeper than the orders of all cells.
///
/// # Errors
/// Fails with `TooCoarse` if the set has a cell that is deeper than the stated order, and with `Memory` if an
/// allocation fails.
///
/// # Complexity
/// One pass over the ranges of the set for each order that its cells can have and for up to two coarser orders; linear
/// in the length of the text. No list of cells is allocated.
///
/// # Source
/// MOC 2.0, ASCII serialization.
#[tactic(auto, unfolding(crate::specs::AsciiText::ascii_text))]
pub fn write_ascii(
    alloc: Global,
    set: &Coverage,
    stated: Option<Order>,
) -> Result<String, WriteError>
    ensures text { IfOk result (λ t. string_bytes t ≡ ascii_text set.now stated) }
    ensures fits { OnOk result (¬ IsTooCoarse set.now stated) }
    ensures error { IfErr result (λ e. (e ≡ WriteError.Memory)
        ⊎ ((e ≡ WriteError.TooCoarse) × IsTooCoarse set.now stated)) }

    // The written text represents the set with the stated order, or otherwise with the deepest order of its cells.
    ensures reads_back { IfOk result (λ t. Represents (string_bytes t) set.now (deepest_written set.now stated)) }
{
    let stated = depth_of(stated);
    let orders = set.cell_orders();
    if is_too_coarse(deepest_of(set, orders), stated) {
        return Err(WriteError::TooCoarse);
    }
    let mut text = TextWriter::after(String::with_capacity(alloc, capacity_for(set))?);
    push_all(&mut text, set, orders, stated)?;
    Ok(text.finish()?)
}

/// Returns an initial capacity in bytes for the text of a set.
pub fn capacity_for(set: &Coverage) -> usize {
    set.range_count().saturating_mul(RANGE_CAPACITY)
}

/// Appends a set to a text, in the ASCII format as [`write_ascii`] writes it without a stated order.
///
/// # Errors
/// Fails with `Memory` if an allocation fails. The text is then unspecified, and may be empty.
///
/// # Complexity
/// As `write_ascii`.
///
/// # Source
/// MOC 2.0, ASCII serialization.
#[tactic(auto, unfolding(crate::specs::AsciiText::ascii_text))]
pub fn push_ascii(alloc: Global, set: &Coverage, text: &mut Vec<u8>) -> Result<(), OutOfMemory>
    ensures { OnOk result (text.new.items ≡ text.old.items ++ ascii_text set.now None) }
{
    text.reserve(capacity_for(set))?;
    let mut writer = TextWriter::after(std::mem::replace(text, Vec::new(alloc)));
    push_all(&mut writer, set, set.cell_orders(), None)?;
    *text = writer.finish()?;
    Ok(())
}
