//! The errors of calls.
use moc_forms::FormatError;
use moc_lines::{LineError, LinePlace};
use moc_ranges::{Memory as OutOfMemory, RangesError};
use moc_shared::{Busy, TryError};
use moc_text::WriteError;
use std::alloc::AllocError;

/// Why a call failed.
#[derive(Clone, Copy)]
pub enum CallError {
    /// An allocation failed.
    Memory,
    /// The buffer is too short for this number of elements.
    BufferTooShort { needed: usize },
    /// No set has this id.
    NoSuchSet { id: u64 },
    /// The order is above 29.
    NoSuchOrder { order: u8 },
    /// Two arrays that belong together differ in length.
    LengthsDiffer,
    /// The number at this position is the first that is not a cell of the order.
    NoSuchCell { at: usize },
    /// The number at this position is the first that is not a NUNIQ number.
    NotUniq { at: usize },
    /// A text cannot be parsed.
    Format(FormatError),
    /// A cell is deeper than the stated order.
    TooCoarse,
    /// A range is invalid.
    Ranges(RangesError),
    /// A line of commands is invalid at a place.
    Line { error: LineError, place: LinePlace },
    /// The handle has no client.
    NoMap,
    /// The handle has a client already.
    HandleInUse,
    /// The number of clients is not 1 to 64.
    BadCount { clients: u8 },
    /// No further client is left to give away.
    NoClient,
    /// Another client holds a part.
    Busy(Busy),
}

impl From<OutOfMemory> for CallError {
    ghost use Rattle.std.specs.Prelude.{◌≡◌};
    ghost use Rattle.moc_c.specs.declared.error.CallError.TheVariants as error;

    ghost from_gives = { λ _ e. e ≡ error.Memory };

    fn from(_memory: OutOfMemory) -> CallError {
        CallError::Memory
    }
}

impl From<WriteError> for CallError {
    ghost use Rattle.std.specs.Prelude.{◌≡◌};
    ghost use Rattle.moc_c.specs.Texts.{fault_of_writing};

    ghost from_gives = { λ error e. e ≡ fault_of_writing error };

    fn from(error: WriteError) -> CallError {
        match error {
            WriteError::TooCoarse => CallError::TooCoarse,
            WriteError::Memory => CallError::Memory,
        }
    }
}

impl From<AllocError> for CallError {
    ghost use Rattle.std.specs.Prelude.{◌≡◌};
    ghost use Rattle.moc_c.specs.declared.error.CallError.TheVariants as error;

    ghost from_gives = { λ _ e. e ≡ error.Memory };

    fn from(_error: AllocError) -> CallError {
        CallError::Memory
    }
}

impl From<TryError> for CallError {
    ghost use Rattle.std.specs.Prelude.{◌≡◌};
    ghost use Rattle.moc_c.specs.Private.Making.{try_error};

    ghost from_gives = { λ error e. e ≡ try_error error };

    fn from(error: TryError) -> CallError {
        match error {
            TryError::Busy(busy) => CallError::Busy(busy),
            TryError::Memory => CallError::Memory,
        }
    }
}
