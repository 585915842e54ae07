//! The exit statuses and errors of the program.
ghost use Rattle.std.specs.Prelude.{◌≡◌, ◌||◌, [], false, is_err, IfErr, IfOk, OnOk};
ghost use Rattle.moc_devices.specs.Devices.{Accepts, Sends};
ghost use Rattle.moc_conversion.specs.Notes.{notes_text};
ghost use Rattle.moc_cli.specs.Endings.{WritesUnlessFailed};
ghost use Rattle.moc_cli.specs.Statuses.{code_of, error_text, name_of_cell, status_of};
ghost use Rattle.moc_cli.specs.Private.Ending.{status_of_result};
ghost use Rattle.moc_cli.specs.declared.status.ProgramError.TheVariants as program;

use moc_conversion::{InputError, Notes, report_error};
use moc_devices::{DeviceFault, Sink};
use moc_lines::RunError;
use moc_sphere::CellError;
use std::alloc::AllocError;

/// The exit status of the program.
#[derive(Clone, Copy)]
pub enum Status {
    /// Success, also after help.
    Success = 0,
    /// A value, a text or a line is invalid.
    Invalid = 1,
    /// The command line is invalid.
    BadCommandLine = 2,
    /// A device or an allocation failed, or a thread could not be started.
    Failed = 3,
}

impl Status {
    /// Returns the number of the exit status.
    pub fn code(self) -> u8
        ensures { result ≡ code_of self }
    {
        self as u8
    }
}

/// Why the program failed, except for an invalid command line.
#[derive(Drop)]
pub enum ProgramError {
    /// The coverages of the input cannot be processed.
    Input(InputError),
    /// A number is not that of a cell.
    Number(CellError),
    /// A script, a schedule, a crew or a list of numbers ended early.
    Lines(RunError),
    /// Writing the output failed.
    Write,
    /// An allocation failed.
    Memory,
}

impl ProgramError {
    /// Returns the exit status of the error.
    pub fn status(&self) -> Status
        ensures { result ≡ status_of self.now }
    {
        match self {
            ProgramError::Input(
                InputError::Text { .. } | InputError::ConvertedText(_) | InputError::TooLong { .. },
            ) => Status::Invalid,
            ProgramError::Input(InputError::Read | InputError::Memory) => Status::Failed,
            ProgramError::Number(_) | ProgramError::Lines(RunError::LineTooLong { .. }) =>
                Status::Invalid,
            ProgramError::Lines(_) | ProgramError::Write | ProgramError::Memory => Status::Failed,
        }
    }

    /// Writes the text of the error to the error output.
    ///
    /// # Errors
    ///
    /// Fails with `DeviceFault` at the first write that fails; the output has then accepted a prefix of the text.
    pub fn report<E: Sink>(&self, errors: &mut E) -> Result<(), DeviceFault>
        ensures written { OnOk result (Accepts (E.writing errors.old) (E.writing errors.new) (error_text self.now)) }
        ensures sends { Sends (error_text self.now) (E.writing errors.old) [] (E.writing errors.new) result }
        ensures marks { E.mark errors.old ≡ false → E.mark errors.new ≡ is_err result }
    {
        match self {
            ProgramError::Input(cause) => cause.report(errors),
            ProgramError::Number(cause) => report_error(cell_name(*cause), errors),
            ProgramError::Lines(cause) => report_error(cause.name(), errors),
            ProgramError::Write => report_error("Write", errors),
            ProgramError::Memory => report_error("Memory", errors),
        }
    }
}

/// Reports the error or the notes of the result, and returns the exit status.
pub(crate) fn report_result<E: Sink>(end: Result<Notes, ProgramError>, errors: &mut E) -> Status
    ensures status { result ≡ status_of_result end }
    ensures reported { IfErr end (λ error. WritesUnlessFailed (E.mark errors.old || E.mark errors.new)
        (error_text error) (E.writing errors.old) (E.writing errors.new)) }
    ensures noted { IfOk end (λ notes. WritesUnlessFailed (E.mark errors.old || E.mark errors.new)
        (notes_text notes) (E.writing errors.old) (E.writing errors.new)) }
{
    let error = match end {
        Ok(notes) => {
            let _ = notes.report(errors);
            return Status::Success;
        }
        Err(error) => error,
    };
    let _ = error.report(errors);
    error.status()
}

/// Returns the name of the error of a number that no cell has.
fn cell_name(error: CellError) -> &'static str
    ensures { result.now ≡ name_of_cell error }
{
    match error {
        CellError::CellTooLarge => "CellTooLarge",
        CellError::NotUniq => "NotUniq",
        CellError::OutOfFace => "OutOfFace",
        CellError::RingTooLarge => "RingTooLarge",
    }
}

impl From<InputError> for ProgramError {
    ghost from_gives = { λ cause error. error ≡ program.Input cause };

    fn from(cause: InputError) -> ProgramError {
        ProgramError::Input(cause)
    }
}

impl From<CellError> for ProgramError {
    ghost from_gives = { λ cause error. error ≡ program.Number cause };

    fn from(cause: CellError) -> ProgramError {
        ProgramError::Number(cause)
    }
}

impl From<RunError> for ProgramError {
    ghost from_gives = { λ cause error. error ≡ program.Lines cause };

    fn from(cause: RunError) -> ProgramError {
        ProgramError::Lines(cause)
    }
}

/// Converts the error of a write or a flush. A failed read is never converted: it has an error of its own, such as
/// `InputError::Read`.
impl From<DeviceFault> for ProgramError {
    ghost from_gives = { λ _ error. error ≡ program.Write };

    fn from(_cause: DeviceFault) -> ProgramError {
        ProgramError::Write
    }
}

impl From<AllocError> for ProgramError {
    ghost from_gives = { λ _ error. error ≡ program.Memory };

    fn from(_cause: AllocError) -> ProgramError {
        ProgramError::Memory
    }
}
