//! The error of a run.
ghost use Rattle.std.specs.Prelude.{◌≡◌};
ghost use Rattle.moc_lines.specs.Runs.{name_of_run_error};

use thiserror::Error;

/// Why a run ended early.
#[derive(Clone, Copy, Debug, PartialEq, Eq, Error)]
pub enum RunError {
    /// Reading failed.
    #[error("the input could not be read")]
    Read,
    /// Writing failed, or the writer accepted no bytes.
    #[error("the output could not be written")]
    Write,
    /// A line is longer than the limit. Lines count from 1.
    #[error("line {line} is too long")]
    LineTooLong {
        /// The number of the line.
        line: u64,
    },
    /// An allocation failed while this line was read or processed. The number is 0 if it failed before the first line,
    /// and one more than the number of lines if it failed after all lines were processed.
    #[error("out of memory at line {line}")]
    Memory {
        /// The number of the line, from 1; or 0.
        line: u64,
    },
    /// A thread could not be started. Only a crew, which runs a script on several threads, fails with this error.
    #[error("a thread could not be started")]
    Spawn,
}

impl RunError {
    /// Returns the name of the error, as it is printed.
    pub fn name(self) -> &'static str
        ensures { result.now ≡ name_of_run_error self }
    {
        match self {
            RunError::Read => "Read",
            RunError::Write => "Write",
            RunError::LineTooLong { .. } => "LineTooLong",
            RunError::Memory { .. } => "Memory",
            RunError::Spawn => "Spawn",
        }
    }
}
