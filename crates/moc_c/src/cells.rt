//! Cell numbers of whole arrays. No call allocates.
ghost use Rattle.std.specs.Prelude.{◌≡◌, ◌≤◌, ◌∷◌, [], length};
ghost use Rattle.std.specs.Option.{option_or};
ghost use Rattle.moc_sphere.specs.Faces.{face_of, x_of, y_of};
ghost use Rattle.moc_c.specs.CallResults.{IsSuccess};
ghost use Rattle.moc_c.specs.Buffers.{AreCellsOf, AreNeighbours, AreRelated, AreTouching, success_unless, IsConverted};
ghost use Rattle.moc_c.specs.Buffers.{IsPadded, lengths_error, numbers_error, IsNeighbourRow, uniqs_error};
ghost use Rattle.moc_c.specs.Private.Rows.{AreRowsOf, IsRowOf};
ghost use Rattle.moc_c.specs.declared.conversion.Conversion.TheVariants.{NestToRing, NestToUniq, RingToNest};

use crate::call_result::CallResult;
use crate::conversion::Conversion;
use crate::error::CallError;
use moc_sphere::{Cell, Order};
use std::alloc::Global;

/// Writes the converted number of each cell of an order.
#[inline]
fn convert(conversion: Conversion, order: u8, numbers: &[u64], out: &mut [u64]) -> CallResult
    ensures call_result { result ≡ success_unless (numbers_error order numbers.now (length out.old ∷ [])) }
    ensures value { IsSuccess result → AreRelated (IsConverted conversion order) numbers.now out.new }
{
    let Some(order) = Order::new(order) else {
        return CallResult::of(CallError::NoSuchOrder { order });
    };
    if numbers.len() != out.len() {
        return CallResult::of(CallError::LengthsDiffer);
    }
    for (at, number) in numbers.iter().enumerate() {
        let Some(converted) = conversion.of(order, *number) else {
            return CallResult::of(CallError::NoSuchCell { at });
        };
        out[at] = converted;
    }
    CallResult::success()
}

/// Writes the ring index of each cell of an order that is given by its nested index. O(1) for each.
///
/// # Errors
/// Fails for an order above 29, if the arrays differ in length, or for the first index that is not a cell of the order.
#[unsafe(no_mangle)]
pub extern "C" fn moc_nest_to_ring(order: u8, cells: &[u64], out: &mut [u64]) -> CallResult
    ensures call_result { result ≡ success_unless (numbers_error order cells.now (length out.old ∷ [])) }
    ensures value { IsSuccess result → AreRelated (IsConverted NestToRing order) cells.now out.new }
{
    convert(Conversion::NestToRing, order, cells, out)
}

/// Writes the nested index of each cell that is given by its ring index. As `moc_nest_to_ring`.
#[unsafe(no_mangle)]
pub extern "C" fn moc_ring_to_nest(order: u8, rings: &[u64], out: &mut [u64]) -> CallResult
    ensures call_result { result ≡ success_unless (numbers_error order rings.now (length out.old ∷ [])) }
    ensures value { IsSuccess result → AreRelated (IsConverted RingToNest order) rings.now out.new }
{
    convert(Conversion::RingToNest, order, rings, out)
}

/// Writes the NUNIQ number of each cell that is given by its nested index. As `moc_nest_to_ring`.
#[unsafe(no_mangle)]
pub extern "C" fn moc_nest_to_uniq(order: u8, cells: &[u64], out: &mut [u64]) -> CallResult
    ensures call_result { result ≡ success_unless (numbers_error order cells.now (length out.old ∷ [])) }
    ensures value { IsSuccess result → AreRelated (IsConverted NestToUniq order) cells.now out.new }
{
    convert(Conversion::NestToUniq, order, cells, out)
}

/// Writes the order and the nested index of each cell that is given by its NUNIQ number. O(1) for each.
///
/// # Errors
/// Fails if the arrays differ in length, or for the first number that is not a NUNIQ number.
#[unsafe(no_mangle)]
pub extern "C" fn moc_uniq_to_nest(
    uniqs: &[u64],
    orders: &mut [u8],
    cells: &mut [u64],
) -> CallResult
    ensures call_result { result ≡ success_unless
        (option_or (lengths_error (length uniqs.now) (length orders.old ∷ length cells.old ∷ []))
        (uniqs_error uniqs.now)) }
    ensures value { IsSuccess result → AreCellsOf uniqs.now orders.new cells.new }
{
    if uniqs.len() != orders.len() || uniqs.len() != cells.len() {
        return CallResult::of(CallError::LengthsDiffer);
    }
    for (at, uniq) in uniqs.iter().enumerate() {
        let Ok(cell) = Cell::from_uniq(*uniq) else {
            return CallResult::of(CallError::NotUniq { at });
        };
        orders[at] = cell.order().get();
        cells[at] = cell.index();
    }
    CallResult::success()
}

/// Writes the base pixel of each cell of an order, 0 to 11, and the cell's position in it: x to the north-east, y to
/// the north-west. As `moc_nest_to_ring`.
#[unsafe(no_mangle)]
pub extern "C" fn moc_nest_to_face_xy(
    order: u8,
    cells: &[u64],
    faces: &mut [u8],
    xs: &mut [u32],
    ys: &mut [u32],
) -> CallResult
    ensures call_result { result ≡ success_unless
        (numbers_error order cells.now (length faces.old ∷ length xs.old ∷ length ys.old ∷ [])) }
    ensures faces { IsSuccess result → AreRelated (λ c y. y ≡ face_of order c) cells.now faces.new }
    ensures xs { IsSuccess result → AreRelated (λ c y. y ≡ x_of order c) cells.now xs.new }
    ensures ys { IsSuccess result → AreRelated (λ c y. y ≡ y_of order c) cells.now ys.new }
{
    let Some(order) = Order::new(order) else {
        return CallResult::of(CallError::NoSuchOrder { order });
    };
    if cells.len() != faces.len() || cells.len() != xs.len() || cells.len() != ys.len() {
        return CallResult::of(CallError::LengthsDiffer);
    }
    for (at, index) in cells.iter().enumerate() {
        let Ok(cell) = Cell::new(order, *index) else {
            return CallResult::of(CallError::NoSuchCell { at });
        };
        let (face, x, y) = cell.face_xy();
        faces[at] = face;
        xs[at] = x;
        ys[at] = y;
    }
    CallResult::success()
}

/// Returns a row of eight that starts with the numbers and is filled with `u64::MAX`.
fn padded_row(near: &[u64]) -> [u64; 8]
    requires { length near.now ≤ 8 }
    ensures { IsPadded near.now result }
{
    let mut row = [u64::MAX; 8];
    for (at, number) in near.iter().enumerate() {
        row[at] = *number;
    }
    row
}

/// Returns the neighbours of a cell in healpy's order of directions, with `u64::MAX` if there is none.
fn nearby_row(cell: Cell) -> [u64; 8]
    ensures { IsNeighbourRow cell.order cell.index result }
{
    let mut row = [u64::MAX; 8];
    for (at, near) in cell.neighbours().iter().enumerate() {
        if let Some(near) = near {
            row[at] = near.index();
        }
    }
    row
}

/// The kind of nearby cells that a row lists.
#[derive(Clone, Copy)]
enum NearbyKind {
    /// The cells that touch the cell.
    Touching(Global),
    /// The cell's neighbours by direction.
    Neighbours,
}

/// Returns the row of a cell.
fn row(near: NearbyKind, cell: Cell) -> [u64; 8]
    ensures { IsRowOf near cell.order cell.index result }
{
    match near {
        NearbyKind::Touching(alloc) => padded_row(cell.touching(alloc).as_slice()),
        NearbyKind::Neighbours => nearby_row(cell),
    }
}

/// Writes the row of each cell of an order.
fn nearby_rows(near: NearbyKind, order: u8, cells: &[u64], out: &mut [[u64; 8]]) -> CallResult
    ensures call_result { result ≡ success_unless (numbers_error order cells.now (length out.old ∷ [])) }
    ensures value { IsSuccess result → AreRowsOf near order cells.now out.new }
{
    let Some(order) = Order::new(order) else {
        return CallResult::of(CallError::NoSuchOrder { order });
    };
    if cells.len() != out.len() {
        return CallResult::of(CallError::LengthsDiffer);
    }
    for (at, index) in cells.iter().enumerate() {
        let Ok(cell) = Cell::new(order, *index) else {
            return CallResult::of(CallError::NoSuchCell { at });
        };
        out[at] = row(near, cell);
    }
    CallResult::success()
}

/// Writes the cells that touch each cell of an order: a row of eight for each cell, ascending, filled with `u64::MAX`.
/// As `moc_nest_to_ring`.
#[unsafe(no_mangle)]
pub extern "C" fn moc_touching(
    alloc: Global,
    order: u8,
    cells: &[u64],
    out: &mut [[u64; 8]],
) -> CallResult
    ensures call_result { result ≡ success_unless (numbers_error order cells.now (length out.old ∷ [])) }
    ensures value { IsSuccess result → AreTouching order cells.now out.new }
{
    nearby_rows(NearbyKind::Touching(alloc), order, cells, out)
}

/// Writes the neighbours of each cell of an order, a row of eight for each cell: south-west, west, north-west, north,
/// north-east, east, south-east, south; `u64::MAX` if there is none. As `moc_nest_to_ring`.
#[unsafe(no_mangle)]
pub extern "C" fn moc_neighbours(order: u8, cells: &[u64], out: &mut [[u64; 8]]) -> CallResult
    ensures call_result { result ≡ success_unless (numbers_error order cells.now (length out.old ∷ [])) }
    ensures value { IsSuccess result → AreNeighbours order cells.now out.new }
{
    nearby_rows(NearbyKind::Neighbours, order, cells, out)
}
