//! The output of number conversions.
ghost use Rattle.std.specs.Prelude.{◌≡◌, ◌++◌, [], codes, false, IfErr, IfOk, IsErrOf, IsTrue, OnOk};
ghost use Rattle.std.specs.String.{string_bytes};
ghost use Rattle.moc_sphere.specs.Touching.{touching_cells};
ghost use Rattle.moc_cli.specs.Actions.{AreNone, PrintsText};
ghost use Rattle.moc_cli.specs.Numbers.{IsNumberError, IsNumberLine, IsConversionError, number_list};
ghost use Rattle.moc_cli.specs.Private.Ending.{status_of_result};
ghost use Rattle.moc_cli.specs.Private.NumberCells.{IsCellOf};

use crate::action::NumberConversion;
use crate::printing::write_text;
use crate::status::{ProgramError, Status};
use moc_conversion::Notes;
use moc_devices::Sink;
use moc_sphere::{Cell, CellError};
use std::alloc::{AllocError, Global};
use std::fmt::Write;

/// Converts a number and writes the line of the result. There are no notes.
#[tactic(auto, using(crate::proofs::Writing::sent_writes))]
pub(crate) fn write_number<W: Sink>(
    alloc: Global,
    number: NumberConversion,
    output: &mut W,
) -> Result<Notes, ProgramError>
    requires { W.mark output.old ≡ false }
    ensures ends { PrintsText (IsNumberLine number) AreNone (IsConversionError number)
        (W.writing output.old) (W.writing output.new) result }
    ensures flushed { OnOk result (IsTrue (W.flushed output.new)) }
    ensures write { IsErrOf result ProgramError.Write → IsTrue (W.mark output.new) }
    ensures output { IsTrue (W.mark output.new) → status_of_result result ≡ Status.Failed }
{
    let line = number_line(alloc, number)?;
    write_text(line.as_str(), Notes::none(), output)
}

/// Returns the line of a converted number.
fn number_line(alloc: Global, number: NumberConversion) -> Result<String, ProgramError>
    ensures line { IfOk result (λ text. IsNumberLine number (string_bytes text)) }
    ensures error { IfErr result (IsConversionError number) }
{
    let cell = cell_of(number)?;
    let text = match number {
        NumberConversion::Ring(..) => format!(in alloc; "{}\n", cell.ring()),
        NumberConversion::Nest(..) => format!(in alloc; "{}\n", cell.index()),
        NumberConversion::Uniq(..) => format!(in alloc; "{}\n", cell.uniq()),
        NumberConversion::Near(..) => near_line(alloc, cell),
        NumberConversion::Cell(_) => format!(in alloc; "{cell}\n"),
    };
    Ok(text?)
}

/// Returns the cell of a number.
fn cell_of(number: NumberConversion) -> Result<Cell, CellError>
    ensures cell { IfOk result (λ cell. IsCellOf number cell) }
    ensures error { IfErr result (λ error. IsNumberError number error) }
{
    match number {
        NumberConversion::Ring(order, index)
        | NumberConversion::Uniq(order, index)
        | NumberConversion::Near(order, index) => Cell::new(order, index),
        NumberConversion::Nest(order, ring) => Cell::from_ring(order, ring),
        NumberConversion::Cell(uniq) => Cell::from_uniq(uniq),
    }
}

/// Returns the line of the cells that touch a cell.
fn near_line(alloc: Global, cell: Cell) -> Result<String, AllocError>
    ensures { IfOk result (λ text.
        string_bytes text ≡ number_list (touching_cells cell.order cell.index) ++ codes "\n") }
{
    let mut line = String::new(alloc);
    push_numbers(cell.touching(alloc).as_slice(), &mut line)?;
    line.push('\n')?;
    Ok(line)
}

/// Writes numbers to an empty line, separated by blanks.
#[tactic(auto, using(crate::proofs::NumberLines::spaced_more, crate::proofs::NumberLines::spaced_all))]
fn push_numbers(numbers: &[u64], line: &mut String) -> Result<(), AllocError>
    requires { string_bytes line.old ≡ [] }
    ensures { OnOk result (string_bytes line.new ≡ number_list numbers.now) }
{
    let Some((first, others)) = numbers.split_first() else {
        return Ok(());
    };
    write!(line, "{first}")?;
    for number in others {
        write!(line, " {number}")?;
    }
    Ok(())
}
