//! The surroundings of a cell: its pixels and those of the cells that touch it.
ghost use Rattle.std.specs.Prelude.{◌≡◌, IfOk};
ghost use Rattle.moc_parts.specs.Commands.{surroundings};

use moc_ranges::{Coverage, CoverageBuilder, Memory};
use moc_sphere::Cell;
use std::alloc::Global;

/// Returns the pixels of a cell and of the cells that touch it.
pub(crate) fn surroundings_of(alloc: Global, cell: Cell) -> Result<Coverage, Memory>
    ensures { IfOk result (λ c. c ≡ surroundings cell) }
{
    let order = cell.order();
    let mut around = CoverageBuilder::new(alloc);
    around.add_cells(order, cell.index(), cell.index())?;
    for index in cell.touching(alloc).as_slice() {
        around.add_cells(order, *index, *index)?;
    }
    around.build()
}
