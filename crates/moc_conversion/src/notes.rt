//! Notes on valid inputs that may be mistakes.
ghost use Rattle.std.specs.Prelude.{◌≡◌, []};
ghost use Rattle.std.specs.Char.{is_ascii_digit};
ghost use Rattle.std.specs.List.{list_any};
ghost use Rattle.std.specs.Option.{option_map_or};
ghost use Rattle.moc_conversion.specs.Errors.{WritesText};
ghost use Rattle.moc_conversion.specs.Notes.{check_notes, end_note as end_note_of, input_note_line, no_notes};
ghost use Rattle.moc_conversion.specs.Notes.{notes_text, without_cells_line};

use crate::reporting::write_number;
use moc_devices::{DeviceFault, Sink, write_all};
use moc_forms::{Format, FormatChoice};

/// What may be a mistake about an input as a whole.
#[derive(Clone, Copy, Debug, PartialEq, Eq)]
pub enum InputNote {
    /// A checked input is empty.
    Empty,
    /// The last line of a checked input has no line feed, so the input may be incomplete.
    NoLineFeed,
    /// An input of texts to combine has only one.
    OneText,
}

/// The notes on a valid input: what may be a mistake.
#[derive(Clone, Copy, Debug, PartialEq, Eq)]
pub struct Notes {
    /// The note on the input as a whole.
    pub input: Option<InputNote>,
    /// The number, from 1, of the first of the combined texts that has no digit, so that it states no order and no
    /// cell.
    pub text_without_cells: Option<u64>,
}

impl Notes {
    /// Returns no notes.
    pub fn none() -> Notes
        ensures { result ≡ no_notes }
    {
        Notes {
            input: None,
            text_without_cells: None,
        }
    }

    /// Returns the notes on a valid text that is checked.
    pub(crate) fn on_checked(choice: FormatChoice, text: &[u8]) -> Notes
        ensures { result ≡ check_notes choice text.now }
    {
        Notes {
            input: end_note(choice.format(text), text),
            text_without_cells: None,
        }
    }

    /// Writes a line for each note. Linear in the length of the output; allocates nothing.
    ///
    /// # Errors
    /// Fails with `DeviceFault` if the writer fails. What was written before stays written.
    pub fn report<E: Sink>(&self, errors: &mut E) -> Result<(), DeviceFault>
        ensures { WritesText E.writing E.mark (notes_text self.now) errors.old errors.new result }
    {
        write_all(self.input_line().as_bytes(), errors)?;
        match self.text_without_cells {
            Some(number) => write_without_cells(number, errors),
            None => Ok(()),
        }
    }

    /// Returns the line of the note on the input as a whole, or an empty text if there is none.
    fn input_line(&self) -> &'static str
        ensures { result.now ≡ option_map_or input_note_line self.now.input [] }
    {
        match self.input {
            Some(InputNote::Empty) => "note: the input is empty\n",
            Some(InputNote::NoLineFeed) => {
                "note: the last line has no line feed; the text may be incomplete\n"
            }
            Some(InputNote::OneText) => "note: only one text; a semicolon separates texts\n",
            None => "",
        }
    }
}

/// Returns the note on the end of a valid text.
fn end_note(format: Format, text: &[u8]) -> Option<InputNote>
    ensures { result ≡ end_note_of format text.now }
{
    match (format, text.last()) {
        (Format::Json, _) | (_, Some(b'\n')) => None,
        (_, None) => Some(InputNote::Empty),
        (_, Some(_)) => Some(InputNote::NoLineFeed),
    }
}

/// Writes the line of a text without cells.
fn write_without_cells<E: Sink>(number: u64, errors: &mut E) -> Result<(), DeviceFault>
    ensures { WritesText E.writing E.mark (without_cells_line number) errors.old errors.new result }
{
    write_number("note: text ", number, errors)?;
    write_all(b" has no cells\n", errors)
}

/// Returns whether a text has a digit.
pub(crate) fn has_digit(text: &[u8]) -> bool
    ensures { result ≡ list_any is_ascii_digit text.now }
{
    for byte in text {
        if byte.is_ascii_digit() {
            return true;
        }
    }
    false
}
