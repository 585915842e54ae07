//! The reasons why a set cannot be written.

ghost use Rattle.std.specs.Prelude.{◌≡◌};
ghost use Rattle.moc_text.specs.Names.{name_of_write_error};
ghost use Rattle.moc_text.specs.declared.write_error.WriteError.TheVariants.{Memory};

use std::alloc::AllocError;
use thiserror::Error;

/// The reason why a set was not written as a text.
#[derive(Debug, Clone, Copy, PartialEq, Eq, Error)]
pub enum WriteError {
    /// A cell of the set is deeper than the stated order.
    #[error("a cell is deeper than the stated order")]
    TooCoarse,
    /// An allocation failed.
    #[error("out of memory")]
    Memory,
}

impl WriteError {
    /// Returns the printed name of the error.
    pub fn name(self) -> &'static str
        ensures { result.now ≡ name_of_write_error self }
    {
        match self {
            WriteError::TooCoarse => "TooCoarse",
            WriteError::Memory => "Memory",
        }
    }
}

impl From<AllocError> for WriteError {
    ghost from_gives = { λ _ e. e ≡ Memory };

    fn from(_error: AllocError) -> WriteError {
        WriteError::Memory
    }
}
