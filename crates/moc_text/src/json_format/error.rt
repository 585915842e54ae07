//! The errors of parsing the JSON format.

ghost use Rattle.std.specs.Prelude.{◌≡◌, option_map};
ghost use Rattle.moc_text.specs.Names.{name_of_json};
ghost use Rattle.moc_text.specs.Places.{json_error_at};
ghost use Rattle.moc_text.specs.declared.json_format.error.JsonError.TheVariants.{Memory};

use moc_ranges::Memory as OutOfMemory;
use thiserror::Error;

/// The reason why a text is not valid in the JSON format. Names are counted from 0 in byte order, and the items of an
/// array from 0.
#[derive(Debug, Clone, Copy, PartialEq, Eq, Error)]
pub enum JsonError {
    /// The text is not valid JSON, according to `serde_json`.
    #[error("invalid JSON")]
    NotJson,
    /// The value is not an object.
    #[error("not a JSON object")]
    NotObject,
    /// A name is not a number from 0 to 29.
    #[error("name {name} is not an order")]
    BadOrder {
        /// The number of the name.
        name: usize,
    },
    /// The value of a name is not an array.
    #[error("the value of name {name} is not an array")]
    NotArray {
        /// The number of the name.
        name: usize,
    },
    /// An item is not an unsigned integer of 64 bits.
    #[error("item {place} of name {name} is not an unsigned integer")]
    NotWhole {
        /// The number of the name.
        name: usize,
        /// The number of the item.
        place: usize,
    },
    /// An item is not the index of a cell of the order.
    #[error("item {place} of name {name} is too large for its order")]
    CellTooLarge {
        /// The number of the name.
        name: usize,
        /// The number of the item.
        place: usize,
    },
    /// An allocation failed.
    #[error("out of memory")]
    Memory,
}

/// The position of an error in a JSON text: a name of the object, counted from 0 in byte order, and an item of its
/// array, counted from 0.
#[derive(Debug, Clone, Copy, PartialEq, Eq)]
pub struct JsonPlace {
    /// The number of the name.
    pub name: usize,
    /// The number of the item in the array of the name. `None` if the error is the name itself, or a value that is not
    /// an array.
    pub item: Option<usize>,
}

impl JsonError {
    /// Returns the printed name of the error.
    pub fn name(self) -> &'static str
        ensures { result.now ≡ name_of_json self }
    {
        match self {
            JsonError::NotJson => "NotJson",
            JsonError::NotObject => "NotObject",
            JsonError::BadOrder { .. } => "BadOrder",
            JsonError::NotArray { .. } => "NotArray",
            JsonError::NotWhole { .. } => "NotWhole",
            JsonError::CellTooLarge { .. } => "CellTooLarge",
            JsonError::Memory => "Memory",
        }
    }

    /// Returns the position of the error, or `None` for `NotJson`, `NotObject` and `Memory`, which have no position.
    pub fn place(self) -> Option<JsonPlace>
        ensures { option_map (λ place. (place.name, place.item)) result ≡ json_error_at self }
    {
        match self {
            JsonError::BadOrder { name } | JsonError::NotArray { name } => {
                Some(JsonPlace { name, item: None })
            }
            JsonError::NotWhole { name, place } | JsonError::CellTooLarge { name, place } => {
                Some(JsonPlace {
                    name,
                    item: Some(place),
                })
            }
            JsonError::NotJson | JsonError::NotObject | JsonError::Memory => None,
        }
    }
}

impl From<OutOfMemory> for JsonError {
    ghost from_gives = { λ _ e. e ≡ Memory };

    fn from(_error: OutOfMemory) -> JsonError {
        JsonError::Memory
    }
}
