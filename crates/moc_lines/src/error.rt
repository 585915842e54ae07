//! Errors of a line.
ghost use Rattle.std.specs.Prelude.{◌≡◌, ◌++◌, OnOk};
ghost use Rattle.moc_text.specs.Names.{fault_report};
ghost use Rattle.moc_lines.specs.Language.{name_of_line_error};
ghost use Rattle.moc_lines.specs.Private.TextErrors.{error_of_text};

use moc_ranges::Memory as OutOfMemory;
use moc_text::TextError;
use thiserror::Error;

/// Why a line of a script or of a schedule was not parsed. If the line is invalid, the answer to the line states the
/// name of the error.
#[derive(Clone, Copy, Debug, PartialEq, Eq, Error)]
pub enum LineError {
    /// The first word is not a command.
    #[error("unknown command")]
    UnknownWord,
    /// A piece of the line is blank.
    #[error("empty command")]
    EmptyCommand,
    /// The line has more than 16 pieces.
    #[error("more than 16 commands")]
    TooManyCommands,
    /// The command has more or fewer fields than it takes.
    #[error("wrong number of fields")]
    WrongCount,
    /// A field that should be a number is empty or has a byte that is not a digit.
    #[error("invalid number")]
    BadNumber,
    /// An order is above 29.
    #[error("order above 29")]
    OrderTooLarge,
    /// The index is not that of a cell of the order.
    #[error("cell number out of range for the order")]
    CellTooLarge,
    /// The coverage of an operand is invalid. The offset of the error counts from the first byte after the preceding
    /// word.
    #[error(transparent)]
    Coverage(TextError),
    /// The number of a client has more than 32 bits. Only a line of a schedule fails with this error.
    #[error("client number above 4294967295")]
    ClientTooLarge,
    /// A part is above 11. Only a line of a schedule fails with this error.
    #[error("part number above 11")]
    PartTooLarge,
    /// An allocation failed. The line may be valid.
    #[error("out of memory")]
    Memory,
}

impl LineError {
    /// Returns the error of a line, given the error of the coverage of an operand.
    pub(crate) fn of_text(error: TextError) -> LineError
        ensures { result ≡ error_of_text error }
    {
        match error {
            TextError::Memory => LineError::Memory,
            error => LineError::Coverage(error),
        }
    }

    /// Returns the name of the error, as the answer to an invalid line states it. Allocates nothing.
    pub fn name(self) -> &'static str
        ensures { result.now ≡ name_of_line_error self }
    {
        match self {
            LineError::UnknownWord => "UnknownWord",
            LineError::EmptyCommand => "EmptyCommand",
            LineError::TooManyCommands => "TooManyCommands",
            LineError::WrongCount => "WrongCount",
            LineError::BadNumber => "BadNumber",
            LineError::OrderTooLarge => "OrderTooLarge",
            LineError::CellTooLarge => "CellTooLarge",
            LineError::Coverage(error) => error.name(),
            LineError::ClientTooLarge => "ClientTooLarge",
            LineError::PartTooLarge => "PartTooLarge",
            LineError::Memory => "Memory",
        }
    }
}

/// Appends the answer to an invalid line: `fault NAME` and a line feed. Linear in the length of the name.
///
/// # Errors
/// Fails with `Memory` if an allocation fails. The text may then end with a part of the answer.
pub fn push_error(name: &str, text: &mut Vec<u8>) -> Result<(), OutOfMemory>
    ensures { OnOk result (text.new.items ≡ text.old.items ++ fault_report name.now) }
{
    text.extend_from_slice(b"fault ")?;
    text.extend_from_slice(name.as_bytes())?;
    text.extend_from_slice(b"\n")?;
    Ok(())
}
