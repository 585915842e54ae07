//! Writing the JSON format.
ghost use Rattle.std.specs.Prelude.{◌≡◌, ◌++◌, ◌<◌, ◌≤◌, [], ◌∷◌, decimal, false, IfErr, IfOk, List, OnOk, ℕ, ◌⊎◌};
ghost use Rattle.std.specs.String.{string_bytes};
ghost use Rattle.json.specs.Print.{quoted};
ghost use Rattle.serde_json.specs.Data.{Members, object};
ghost use Rattle.serde_json.specs.Written.{comma_if, compact_text, members_text};
ghost use Rattle.moc_sphere.specs.CellNumber.{CellNumber};
ghost use Rattle.moc_ranges.specs.Cells.{HaveOrders, cells_in, cells_of, cells_of_range};
ghost use Rattle.moc_text.specs.AsciiText.{deepest_written, IsTooCoarse};
ghost use Rattle.moc_text.specs.JsonFormat.{RepresentsJson};
ghost use Rattle.moc_text.specs.JsonText.{data_at, json_text};
ghost use Rattle.moc_text.specs.Private.JsonWriting.{array_rest, prepend_member, members_in_order, orders_by_name};

use crate::ascii::{capacity_for, deepest_of, depth_of, if_deeper, is_too_coarse};
use crate::text_writer::TextWriter;
use crate::write_error::WriteError;
use moc_ranges::{CellRanges, Coverage};
use moc_sphere::Order;
use std::alloc::{AllocError, Global};

/// The parameters of the output: the set, the range of orders of its cells, and a further order that is written without
/// cells.
#[derive(Clone, Copy)]
struct Output<'a> {
    set: &'a Coverage,
    orders: (u8, u8),
    empty_order: Option<u8>,
}

/// The orders, sorted by their names in byte order.
const ORDERS_BY_NAME: &[u8] = &[
    0, 1, 10, 11, 12, 13, 14, 15, 16, 17, 18, 19, 2, 20, 21, 22, 23, 24, 25, 26, 27, 28, 29, 3, 4,
    5, 6, 7, 8, 9,
];

/// Writes the indices of cells in the half-open range from `first` to `end`, each after a comma.
#[inline(always)]
fn write_run(text: &mut TextWriter<String>, first: u64, end: u64) -> Result<(), AllocError>
    ensures { OnOk result ((k : ℕ) (rest : List CellNumber) →
        text.new ++ array_rest rest ≡ text.old ++ array_rest (cells_of_range k (first, end) ++ rest)) }
{
    for index in first..end {
        text.push_number(b',', index)?;
    }
    Ok(())
}

/// Writes the indices of cells in ranges, each after a comma, and closes the array.
fn write_runs(text: &mut TextWriter<String>, ranges: CellRanges<'_>) -> Result<(), AllocError>
    ensures { OnOk result ((k : ℕ) → text.new ≡ text.old ++ array_rest (cells_in k ranges.entry)) }
{
    for (first, end) in ranges {
        write_run(text, first, end)?;
    }
    text.push_str("]")
}

/// Writes a comma if a member precedes.
fn push_comma(text: &mut TextWriter<String>, has_previous: bool) -> Result<(), AllocError>
    ensures { OnOk result (text.new ≡ text.old ++ comma_if has_previous) }
{
    if has_previous {
        text.push_str(",")?;
    }
    Ok(())
}

/// Writes the name of an order and a colon, after a comma if a member precedes.
fn write_name(
    text: &mut TextWriter<String>,
    depth: u8,
    has_previous: bool,
) -> Result<(), AllocError>
    ensures { OnOk result (text.new ≡ text.old ++ comma_if has_previous ++ quoted (decimal depth) ++ 58 ∷ []) }
{
    push_comma(text, has_previous)?;
    text.push_number(b'"', u64::from(depth))?;
    text.push_str("\":")
}

/// Writes an order with an empty array if it is the order without cells. Returns whether a member has been written so
/// far.
fn write_bare(
    text: &mut TextWriter<String>,
    depth: u8,
    empty_order: Option<u8>,
    has_previous: bool,
) -> Result<bool, AllocError>
    ensures { IfOk result (λ after. (members : Members) → text.new ++ members_text after members
        ≡ text.old ++ members_text has_previous (prepend_member depth empty_order [] members)) }
{
    if empty_order != Some(depth) {
        return Ok(has_previous);
    }
    write_name(text, depth, has_previous)?;
    text.push_str("[]")?;
    Ok(true)
}

/// Writes an order and its array if it has cells or is the order without cells. Returns whether a member has been
/// written so far.
fn write_order(
    text: &mut TextWriter<String>,
    depth: u8,
    output: Output<'_>,
    has_previous: bool,
) -> Result<bool, AllocError>
    requires each { HaveOrders output.orders.0 output.orders.1 (cells_of output.set.now) }
    requires in_range { output.orders.1 ≤ 30 }
    ensures { IfOk result (λ after. (members : Members) →
        text.new ++ members_text after members ≡ text.old ++ members_text has_previous
        (prepend_member depth output.entry.empty_order (data_at depth (cells_of output.entry.set.now)) members)) }
{
    if depth < output.orders.0 || output.orders.1 <= depth {
        return write_bare(text, depth, output.empty_order, has_previous);
    }
    let mut ranges = output.set.cell_ranges(Order::of(depth));
    let Some((first, end)) = ranges.next() else {
        return write_bare(text, depth, output.empty_order, has_previous);
    };
    write_name(text, depth, has_previous)?;
    text.push_number(b'[', first)?;
    write_run(text, first + 1, end)?;
    write_runs(text, ranges)?;
    Ok(true)
}

/// Writes all orders, and closes the object.
fn write_orders(text: &mut TextWriter<String>, output: Output<'_>) -> Result<(), AllocError>
    requires each { HaveOrders output.orders.0 output.orders.1 (cells_of output.set.now) }
    requires in_range { output.orders.1 ≤ 30 }
    ensures { OnOk result (text.new ≡ text.old
        ++ members_text false
        (members_in_order (cells_of output.entry.set.now) output.entry.empty_order orders_by_name)) }
{
    let mut has_previous = false;
    for depth in ORDERS_BY_NAME {
        has_previous = write_order(text, *depth, output, has_previous)?;
    }
    text.push_str("}")
}

/// Returns the text of the object.
fn object_text(alloc: Global, output: Output<'_>) -> Result<String, AllocError>
    requires each { HaveOrders output.orders.0 output.orders.1 (cells_of output.set.now) }
    requires in_range { output.orders.1 ≤ 30 }
    ensures { IfOk result (λ t. string_bytes t
        ≡ compact_text (object
        (members_in_order (cells_of output.entry.set.now) output.entry.empty_order orders_by_name))) }
{
    let capacity = capacity_for(output.set);
    let mut text = TextWriter::after(String::with_capacity(alloc, capacity)?);
    text.push_str("{")?;
    write_orders(&mut text, output)?;
    text.finish()
}

/// Writes a set in the JSON format, without spaces as `serde_json` prints it. Each order with cells is a name, whose
/// value is the array of its cells in ascending order. A stated order that is deeper than all cells has an empty array.
/// Names are sorted in byte order.
///
/// # Errors
/// Fails with `TooCoarse` if the set has a cell that is deeper than the stated order, and with `Memory` if an
/// allocation fails.
///
/// # Complexity
/// One pass over the ranges of the set for each order that its cells can have and for up to two coarser orders; linear
/// in the length of the text. No list of cells is allocated.
///
/// # Source
/// MOC 2.0, JSON serialization.
pub fn write_json(
    alloc: Global,
    set: &Coverage,
    stated: Option<Order>,
) -> Result<String, WriteError>
    ensures text { IfOk result (λ t. string_bytes t ≡ json_text set.now stated) }
    ensures fits { OnOk result (¬ IsTooCoarse set.now stated) }
    ensures error { IfErr result (λ e. (e ≡ WriteError.Memory)
        ⊎ ((e ≡ WriteError.TooCoarse) × IsTooCoarse set.now stated)) }

    // The written text represents the set with the stated order, or otherwise with the deepest order of its cells.
    ensures reads_back { IfOk result (λ t. RepresentsJson (string_bytes t) set.now (deepest_written set.now stated)) }
{
    let stated = depth_of(stated);
    let orders = set.cell_orders();
    let deepest = deepest_of(set, orders);
    if is_too_coarse(deepest, stated) {
        return Err(WriteError::TooCoarse);
    }
    let empty_order = if_deeper(deepest, stated);
    Ok(object_text(
        alloc,
        Output {
            set,
            orders,
            empty_order,
        },
    )?)
}
