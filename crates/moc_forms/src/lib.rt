//! Coverages in any of their text formats: parsing, diagnostics of the first error, combinations of several texts,
//! changes, statistics and pictures.
#![tactic(auto)]

mod changing;
mod combining;
mod diagnostic;
mod drawing;
mod expectation;
mod finding;
mod format;
mod legend;
mod marks;
mod place;
mod quoting;
mod statistics;
mod texts;

pub use changing::Change;
pub use combining::{Operation, ParsedCoverage};
pub use diagnostic::Diagnostic;
pub use drawing::{draw, draw_two};
pub use expectation::expected_line;
pub use finding::{Content, FormatChoice, hint, hint_line, is_blank};
pub use format::{Format, FormatError};
pub use legend::PictureNames;
pub use place::Place;
pub use quoting::quote;
pub use statistics::{Statistics, describe, write_fraction};
