//! Operations on the coverages of an input or a text: check, describe, draw, change, convert and combine.
#![tactic(auto)]

mod combination;
mod conversion;
mod drawing;
mod error;
mod notes;
mod parsing;
mod reading;
mod reporting;

pub use combination::{combine_input, combine_texts};
pub use conversion::{
    change_input, change_text, check_input, convert_input, convert_text, describe_input,
};
pub use drawing::{draw_input, draw_texts};
pub use error::InputError;
pub use notes::{InputNote, Notes};
pub use parsing::parse_text;
pub use reporting::report_error;
