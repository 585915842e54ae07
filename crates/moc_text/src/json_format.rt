//! The JSON format: an object whose names are orders, and whose values are arrays of cells.

mod error;
mod reading;
mod writing;

pub use error::{JsonError, JsonPlace};
pub use reading::{JsonContent, json_content_at, json_syntax_error, read_json};
pub use writing::write_json;
