//! Cells from runs of indices, and the possible orders of the cells of ranges.
ghost use Rattle.std.specs.Prelude.{◌≡◌, ◌++◌, ◌<◌, ◌≤◌, ℕ, OnOk};
ghost use Rattle.std.specs.List.{AllByRecursion};
ghost use Rattle.moc_sphere.specs.CellNumber.{cell_count, IsCell};
ghost use Rattle.moc_ranges.specs.Cells.{cells_in, cells_of_range, degrade};
ghost use Rattle.moc_ranges.specs.Private.CellRuns.{HasOrders};
ghost use Rattle.moc_blocks.specs.RangeList.{IsNormal, set_of};

use crate::cell_ranges::CellRanges;
use moc_lists::Ranges;
use moc_sphere::{Cell, Order};
use std::alloc::AllocError;

/// Returns the possible orders of the cells of ranges: the first, and the one after the last.
///
/// A cell is not wider than the widest range, and the size of its parent does not divide all bounds.
pub fn orders_with_cells(ranges: Ranges<'_>) -> (u8, u8)
    requires { IsNormal ranges }
    ensures { HasOrders (set_of ranges.entry) result.0 result.1 }
{
    let mut ends: u64 = 0;
    let mut widest: u64 = 0;
    for (from, to) in ranges {
        ends |= from | to;
        widest = widest.max(to - from);
    }
    if widest == 0 {
        return (0, 0);
    }
    let above = (widest.ilog2() / 2).min(29);
    let below = (ends.trailing_zeros() / 2).min(29);
    (29 - above as u8, 30 - below as u8)
}

/// Returns the least order at which the set of ranges is a union of cells: the size of these cells divides all bounds.
pub fn deepest_order(ranges: Ranges<'_>) -> Order
    requires { IsNormal ranges }
    ensures whole { degrade (set_of ranges.entry) result ≡ set_of ranges.entry }
    ensures least { (k : ℕ) → degrade (set_of ranges.entry) k ≡ set_of ranges.entry → result ≤ k }
{
    let mut bounds: u64 = 0;
    for (from, to) in ranges {
        bounds |= from | to;
    }
    let below = (bounds.trailing_zeros() / 2).min(29);
    Order::of(29 - below as u8)
}

/// Appends the cells of an order with indices from `first` up to, but not including, `end`.
#[inline]
fn push_run(cells: &mut Vec<Cell>, order: Order, first: u64, end: u64) -> Result<(), AllocError>
    requires { first < end → end ≤ cell_count order }
    ensures { OnOk result (cells.new.items ≡ cells.old.items ++ cells_of_range order (first, end)) }
{
    for index in first..end {
        cells.push(Cell::of(order, index))?;
    }
    Ok(())
}

/// Appends the cells of runs of an order.
pub fn push_runs(
    cells: &mut Vec<Cell>,
    order: Order,
    runs: CellRanges<'_>,
) -> Result<(), AllocError>
    requires { AllByRecursion IsCell (cells_in order runs) }
    ensures { OnOk result (cells.new.items ≡ cells.old.items ++ cells_in order runs.entry) }
{
    for (first, end) in runs {
        push_run(cells, order, first, end)?;
    }
    Ok(())
}
