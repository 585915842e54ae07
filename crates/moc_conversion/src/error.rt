//! Errors of an input.
ghost use Rattle.std.specs.Prelude.{◌≡◌, ◌⊎◌, IsTrue};
ghost use Rattle.moc_forms.specs.Formats.{is_memory};
ghost use Rattle.moc_conversion.specs.Errors.{WritesText, input_error_text, name_of_input};
ghost use Rattle.moc_conversion.specs.Errors.{position_text};
ghost use Rattle.moc_conversion.specs.declared.error.InputError.TheVariants as error;

use crate::reporting::{report_error, write_diagnostic, write_position};
use moc_devices::{DeviceFault, Sink};
use moc_forms::{Diagnostic, FormatError};
use moc_ranges::Memory as OutOfMemory;
use std::alloc::AllocError;
use thiserror::Error;

/// Why an input cannot be processed.
#[derive(Debug, Drop, Error)]
pub enum InputError {
    /// A text is invalid.
    #[error("{diagnostic}")]
    Text {
        /// The number of the text, from 1, if the call counts texts.
        number: Option<u64>,
        /// The error of the text, with its position.
        diagnostic: Diagnostic,
    },
    /// A text to convert is invalid. The error is reported by its name alone.
    #[error("{0}")]
    ConvertedText(FormatError),
    /// A text has more than 1 GiB, or a text to convert more than 16 MiB.
    #[error("a text is too long")]
    TooLong {
        /// The number of the text, from 1, if the call counts texts.
        number: Option<u64>,
    },
    /// Reading failed.
    #[error("the reader failed")]
    Read,
    /// An allocation failed.
    #[error("out of memory")]
    Memory,
}

impl InputError {
    /// Returns the error of a text to convert.
    pub(crate) fn of_conversion(error: FormatError) -> InputError
        ensures memory { IsTrue (is_memory error) → result ≡ InputError.Memory }
        ensures alone { (result ≡ InputError.Memory) ⊎ (result ≡ InputError.ConvertedText error) }
    {
        if error.is_memory() {
            return InputError::Memory;
        }
        InputError::ConvertedText(error)
    }

    /// Returns the name of the error, as it is printed.
    pub fn name(&self) -> &'static str
        ensures { result.now ≡ name_of_input self.now }
    {
        match self {
            InputError::Text { diagnostic, .. } => diagnostic.error.name(),
            InputError::ConvertedText(error) => error.name(),
            InputError::TooLong { .. } => "TooLong",
            InputError::Read => "Read",
            InputError::Memory => "Memory",
        }
    }

    /// Writes the error, then its position, then what the text must have there, then what the text looks like. Linear
    /// in the length of the output; allocates nothing.
    ///
    /// # Errors
    /// Fails with `DeviceFault` if the writer fails. What was written before stays written.
    pub fn report<E: Sink>(&self, errors: &mut E) -> Result<(), DeviceFault>
        ensures { WritesText E.writing E.mark (input_error_text self.now) errors.old errors.new result }
    {
        report_error(self.name(), errors)?;
        self.report_position(errors)
    }

    /// Writes the lines after the name of the error.
    fn report_position<E: Sink>(&self, errors: &mut E) -> Result<(), DeviceFault>
        ensures { WritesText E.writing E.mark (position_text self.now) errors.old errors.new result }
    {
        match self {
            InputError::Text { number, diagnostic } => write_diagnostic(
                *number, diagnostic, errors,
            ),
            InputError::TooLong { number } => write_position(*number, None, None, errors),
            InputError::ConvertedText(_) | InputError::Read | InputError::Memory => Ok(()),
        }
    }
}

impl From<AllocError> for InputError {
    ghost from_gives = { λ _ e. e ≡ error.Memory };

    fn from(_error: AllocError) -> InputError {
        InputError::Memory
    }
}

impl From<OutOfMemory> for InputError {
    ghost from_gives = { λ _ e. e ≡ error.Memory };

    fn from(_error: OutOfMemory) -> InputError {
        InputError::Memory
    }
}
