//! The errors of parsing the ASCII format.

ghost use Rattle.std.specs.Prelude.{◌≡◌};
ghost use Rattle.moc_text.specs.Names.{name_of_text};
ghost use Rattle.moc_text.specs.Places.{error_byte};
ghost use Rattle.moc_text.specs.declared.ascii.error.TextError.TheVariants.{Memory};

use moc_ranges::Memory as OutOfMemory;
use std::alloc::AllocError;
use thiserror::Error;

/// The reason why a text is not valid in the ASCII format. Positions are byte offsets, counted from 0.
#[derive(Debug, Clone, Copy, PartialEq, Eq, Error)]
pub enum TextError {
    /// A byte that cannot follow the preceding bytes of its word.
    #[error("unexpected byte at offset {at}")]
    BadByte {
        /// The offset of the byte.
        at: usize,
    },
    /// An item before any order.
    #[error("item without an order at offset {at}")]
    NoOrder {
        /// The offset of the first byte of its word.
        at: usize,
    },
    /// An order above 29.
    #[error("order above 29 at offset {at}")]
    OrderTooLarge {
        /// The offset of its first digit.
        at: usize,
    },
    /// A number that is not the index of a cell of the current order.
    #[error("index too large for its order at offset {at}")]
    CellTooLarge {
        /// The offset of its first digit.
        at: usize,
    },
    /// A range whose last cell is before its first cell.
    #[error("descending range at offset {at}")]
    Backwards {
        /// The offset of the first digit of its first cell.
        at: usize,
    },
    /// A word that is incomplete.
    #[error("incomplete word at offset {at}")]
    Unfinished {
        /// The offset after its last byte.
        at: usize,
    },
    /// An allocation failed.
    #[error("out of memory")]
    Memory,
}

impl TextError {
    /// Returns the printed name of the error.
    pub fn name(self) -> &'static str
        ensures { result.now ≡ name_of_text self }
    {
        match self {
            TextError::BadByte { .. } => "BadByte",
            TextError::NoOrder { .. } => "NoOrder",
            TextError::OrderTooLarge { .. } => "OrderTooLarge",
            TextError::CellTooLarge { .. } => "CellTooLarge",
            TextError::Backwards { .. } => "Backwards",
            TextError::Unfinished { .. } => "Unfinished",
            TextError::Memory => "Memory",
        }
    }

    /// Returns the byte offset of the error, counted from 0, or `None` for `Memory`.
    pub fn place(self) -> Option<usize>
        ensures { result ≡ error_byte self }
    {
        match self {
            TextError::BadByte { at }
            | TextError::NoOrder { at }
            | TextError::OrderTooLarge { at }
            | TextError::CellTooLarge { at }
            | TextError::Backwards { at }
            | TextError::Unfinished { at } => Some(at),
            TextError::Memory => None,
        }
    }
}

impl From<AllocError> for TextError {
    ghost from_gives = { λ _ e. e ≡ Memory };

    fn from(_error: AllocError) -> TextError {
        TextError::Memory
    }
}

impl From<OutOfMemory> for TextError {
    ghost from_gives = { λ _ e. e ≡ Memory };

    fn from(_error: OutOfMemory) -> TextError {
        TextError::Memory
    }
}
