//! The line languages of scripts and numbers: parsing of lines, texts of replies, and the loop that processes the
//! lines of a reader.
#![tactic(auto)]

mod answer;
mod batch;
mod bytes;
mod command;
mod error;
mod executor;
mod fields;
mod language;
mod line_reader;
mod numbering;
mod places;
mod reading;
mod renumbering;
mod reply_text;
mod responder;
mod run_error;
mod runner;
mod script;
mod theorems;
mod words;

pub use answer::answer_commands;
pub use error::{LineError, push_error};
pub use executor::Executor;
pub use fields::{only_field, two_fields};
pub use language::{answer_text, read_batch, read_cell_command};
pub use line_reader::LINE_LIMIT;
pub use numbering::{NumberError, Numbering};
pub use places::{LinePlace, place_of_error};
pub use reading::{line_after_last, read_all, split_line};
pub use renumbering::{Renumbering, renumber};
pub use reply_text::{push_count, push_cover, push_reply_line};
pub use responder::Responder;
pub use run_error::RunError;
pub use runner::answer_all_lines;
pub use script::run;
pub use theorems::reported_input_is_answered;
pub use words::{is_blank_text, is_word, parse_decimal, split_word};
