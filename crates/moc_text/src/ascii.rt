//! The ASCII format: orders, each followed by its cells and ranges of cells.

mod error;
mod number;
mod parser;
mod reading;
mod scan;
mod single;
mod writing;

pub use error::TextError;
pub use parser::AsciiParser;
pub use reading::{read_ascii, readings_are_unique};
pub use scan::{digits, is_separator};
pub use single::only_cell;
pub use writing::{
    capacity_for, deepest_of, depth_of, if_deeper, is_too_coarse, push_ascii, write_ascii,
};
