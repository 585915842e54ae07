//! A cell, and the part of it that a coverage has.
ghost use Rattle.std.specs.Prelude.{◌≡◌, IfErr, IfOk};
ghost use Rattle.std.specs.String.{string_bytes};
ghost use Rattle.moc_conversion.specs.Conversion.{FailsText, MakesFromText};
ghost use Rattle.moc_web.specs.Jobs.{Measures, cell_with_numbers, share_of_cell};

use crate::choices::order_of;
use moc_conversion::{InputError, parse_text};
use moc_forms::{FormatChoice, write_fraction};
use moc_sphere::{Cell, Order};
use std::alloc::Global;
use std::fmt;

/// A whole cell in parts of 10^12.
const WHOLE: u128 = 1_000_000_000_000;

/// Returns the cell with an order and an index, or `None` if it does not exist.
pub(crate) fn cell_of(order: u32, index: u64) -> Option<Cell>
    ensures { result ≡ cell_with_numbers order index }
{
    Cell::new(order_of(order)?, index).ok()
}

/// Returns the ring number of a cell, the number of its pixels in the coverage of a text, and their share of the cell.
pub(crate) fn measure(
    alloc: Global,
    choice: FormatChoice,
    cell: Cell,
    text: &[u8],
) -> Result<String, InputError>
    ensures error { IfErr result (FailsText choice text.now) }
    ensures measures { IfOk result (λ t. MakesFromText (Measures cell) choice text.now (string_bytes t)) }
{
    let parsed = parse_text(alloc, choice, text, None)?;
    let part = CellPart {
        cell,
        pixels: parsed.set.count_cell(cell),
    };
    Ok(format!(in alloc; "{part}")?)
}

/// A cell, and the number of its pixels in a coverage. `Display` writes the ring number of the cell, this number, and
/// their share of the cell with twelve digits after the point, one a line.
#[derive(Clone, Copy)]
struct CellPart {
    cell: Cell,
    pixels: u64,
}

impl fmt::Display for CellPart {
    ghost use Rattle.std.specs.Prelude.{Some};
    ghost use Rattle.moc_web.specs.Jobs.{cell_lines};

    ghost output = { λ part. Some (cell_lines part.cell part.pixels) };

    fn fmt<W: fmt::Write>(&self, f: &mut fmt::Formatter<W>) -> fmt::Result {
        writeln!(f, "ring {}", self.cell.ring())?;
        writeln!(f, "pixels {}", self.pixels)?;
        write_fraction(f, "share ", share_of(self.cell.order(), self.pixels))
    }
}

/// Returns the share of a cell of an order that a number of its pixels is, in parts of 10^12, rounded down.
fn share_of(order: Order, pixels: u64) -> u128
    ensures { result ≡ share_of_cell order pixels }
{
    u128::from(pixels) * WHOLE / u128::from(order.cell_size())
}
