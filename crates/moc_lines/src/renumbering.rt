//! Conversion of cell numbers between numberings, from a reader to a writer.
ghost use Rattle.std.specs.Prelude.{◌≡◌, ◌++◌, ◌∷◌, ◌-◌, ◌^◌, [], false, OnOk, decimal, min};
ghost use Rattle.std.specs.Result.{result_map_both};
ghost use Rattle.moc_lines.specs.Runs.{script_text, line_limit, AnswersAll, EndsFlushed, Flushes, Runs, ReportsFailure};
ghost use Rattle.moc_lines.specs.Runs.{AreLinesAnswered, HasNotEnded};
ghost use Rattle.moc_lines.specs.Language.{◌>>=◌ as and_then};
ghost use Rattle.moc_lines.specs.Numberings.{number_of_line, converted_number, renumber_rules};

use crate::error::push_error;
use crate::numbering::{NumberError, Numbering};
use crate::responder::Responder;
use crate::run_error::RunError;
use crate::runner::answer_all_lines;
use crate::words::{SAFE_DIGITS, is_blank_text, parse_decimal, parse_short_decimal, split_word};
use itoa::write_digits;
use moc_devices::{GuardedSource, Sink};
use moc_ranges::Memory;
use moc_sphere::Order;
use std::alloc::Global;

/// The maximal number of bytes of a number with its line feed.
const MAX_NUMBER_LINE: usize = 21;

/// A conversion between two numberings of the cells of an order.
#[derive(Clone, Copy, Debug, PartialEq, Eq)]
pub struct Renumbering {
    /// The numbering of the numbers that are read.
    pub from: Numbering,
    /// The numbering of the numbers that are written.
    pub to: Numbering,
    /// The order of the cells.
    pub order: Order,
}

impl Renumbering {
    /// Converts a number. Returns the number, in the target numbering, of the cell that has this number in the source
    /// numbering. O(1); allocates nothing.
    ///
    /// # Errors
    /// Fails with `CellTooLarge`, `RingTooLarge`, `NotUniq` or `OtherOrder` if the order has no such cell.
    pub fn apply(self, number: u64) -> Result<u64, NumberError>
        ensures { result ≡ converted_number self number }
    {
        let cell = self.from.cell(self.order, number)?;
        Ok(self.to.number(cell))
    }

    /// Converts the number on a line.
    fn apply_to_line(self, line: &[u8]) -> Result<u64, NumberError>
        ensures { result ≡ and_then (number_of_line line.now) (λ n. converted_number self n) }
    {
        // Every order is at most 29, and so all its numbers have at most 62 bits.
        self.order.get();
        self.apply(read_number(line)?)
    }
}

impl Responder for Renumbering {
    ghost rules = { renumber_rules };

    fn answer_line(
        &mut self,
        _alloc: Global,
        line: &[u8],
        text: &mut Vec<u8>,
    ) -> Result<(), Memory> {
        if is_blank_text(line) {
            return Ok(());
        }
        match self.apply_to_line(line) {
            Ok(number) => push_number(number, text),
            Err(error) => push_error(error.name(), text),
        }
    }

    fn close(&self, _alloc: Global, _text: &mut Vec<u8>) -> Result<(), Memory> {
        Ok(())
    }
}

/// Parses the number on a line, which must have exactly one field. Returns `u64::MAX` for larger numbers.
fn read_number(line: &[u8]) -> Result<u64, NumberError>
    ensures { result ≡ result_map_both (λ n. min n (2 ^ 64 - 1)) (λ error. error) (number_of_line line.now) }
{
    if line.len() <= SAFE_DIGITS {
        if let Some(number) = parse_short_decimal(line) {
            return Ok(number);
        }
    }
    let (field, following) = split_word(line);
    if !is_blank_text(following) {
        return Err(NumberError::WrongCount);
    }
    parse_decimal(field).ok_or(NumberError::BadNumber)
}

/// Appends a number as a line.
fn push_number(number: u64, text: &mut Vec<u8>) -> Result<(), Memory>
    ensures { OnOk result (text.new.items ≡ text.old.items ++ (decimal number ++ 10 ∷ [])) }
{
    let mut line = [b'\n'; MAX_NUMBER_LINE];
    let start = write_digits(number, &mut line, MAX_NUMBER_LINE - 1);
    text.extend_from_slice(&line[start..])?;
    Ok(())
}

/// Converts the cell numbers of an order to another numbering, one number a line.
///
/// Lines are those of [`run`](crate::run). A line is one field, a decimal number, and its answer is the number of the
/// same cell in the other numbering. Any other line that is not blank has the answer `fault NAME`.
///
/// | Name | Line |
/// |---|---|
/// | `WrongCount` | it has more than one field |
/// | `BadNumber` | its field is not a number |
/// | `CellTooLarge` | it is not the nested number of a cell of the order |
/// | `RingTooLarge` | it is not the ring number of a cell of the order |
/// | `NotUniq` | it is not a NUNIQ number |
/// | `OtherOrder` | it is the NUNIQ number of a cell of another order |
///
/// # Errors
/// If the call fails with `LineTooLong` or `Memory`, the output is exactly the answers to the lines before the line
/// that the error names. If it fails with `Read`, the output is the answers to the whole lines that were read; with
/// `Write`, as much of the answers as the writer accepted. After the whole text the writer is flushed, once.
///
/// # Complexity
/// Each line takes time linear in its length.
pub fn renumber<R: GuardedSource<W>, W: Sink>(
    alloc: Global,
    reader: &mut R,
    writer: &mut W,
    renumbering: Renumbering,
) -> Result<(), RunError>
    requires reader { R.mark reader.old ≡ false }
    requires writer { W.mark writer.old ≡ false }

    // Before each read, no device has failed, no read of this call has found the end, and the sink has accepted the
    // answers to all whole lines that were delivered: the reader needs to permit reads in such states only. Every
    // `Source` does.
    requires permission { (r : _) (w : _) → R.mark r ≡ false → W.mark w ≡ false
        → HasNotEnded (R.reading reader.old) (R.reading r)
        → AreLinesAnswered renumber_rules renumbering
        (R.reading reader.old) (R.reading r) (W.writing writer.old) (W.writing w)
        → R.may_read r w }

    // The sink accepts the defined answers to what the source delivers. This needs no assumption about the devices:
    // standard input and output are included.
    ensures renumbers { Runs line_limit renumber_rules renumbering
        (R.reading reader.old) (R.reading reader.new) (W.writing writer.old) (W.writing writer.new) result }

    // If the call succeeds, the source has ended, and the sink accepted the text of the whole input.
    ensures answers { OnOk result (AnswersAll (script_text renumber_rules line_limit renumbering)
        (R.reading reader.old) (R.reading reader.new) (W.writing writer.old) (W.writing writer.new)) }

    // The call succeeds only at the end of the input, and then flushes once after all output.
    ensures end { EndsFlushed result (R.reading reader.new) (W.flushed writer.old) (W.flushed writer.new) }
    ensures flushes { Flushes result (W.flushes writer.old) (W.flushes writer.new) }

    // An error names a device only if it has failed. If a device has failed, the call fails with `Read` or `Write`.
    ensures devices { ReportsFailure result (R.mark reader.new) (W.mark writer.new) }
{
    let mut responder = renumbering;
    answer_all_lines(alloc, &mut responder, reader, writer)
}
