//! Results of calls.
ghost use Rattle.std.specs.Prelude.{◌≡◌};
ghost use Rattle.moc_c.specs.CallResults.{success, result_of_format, result_of_json, result_of_line, call_result};
ghost use Rattle.moc_c.specs.CallResults.{code_of_coverage, result_of_ranges};
ghost use Rattle.moc_c.specs.CallResults.{result_of, result_of_text, number_result, numbers_result, result_of_uniq};

use crate::codes;
use crate::error::CallError;
use moc_forms::FormatError;
use moc_lines::{LineError, LinePlace};
use moc_ranges::RangesError;
use moc_shared::Busy;
use moc_text::{JsonError, TextError, UniqError};

/// The result of a call: a code, and two numbers, which are values or positions.
#[repr(C)]
#[derive(Clone, Copy)]
pub struct CallResult {
    pub code: u32,
    pub first: u64,
    pub second: u64,
}

impl CallResult {
    /// Returns a result with a code and two numbers.
    fn new(code: u32, first: u64, second: u64) -> CallResult
        ensures { result ≡ call_result code first second }
    {
        CallResult {
            code,
            first,
            second,
        }
    }

    /// Returns a result with a code and the position of an error.
    fn at(code: u32, place: usize) -> CallResult
        ensures { result ≡ call_result code place 0 }
    {
        CallResult::new(code, place as u64, 0)
    }

    /// Returns a success without a value.
    pub(crate) fn success() -> CallResult
        ensures { result ≡ success }
    {
        CallResult::new(codes::OK, 0, 0)
    }

    /// Returns a success with a number.
    pub(crate) fn number(number: u64) -> CallResult
        ensures { result ≡ number_result number }
    {
        CallResult::new(codes::OK, number, 0)
    }

    /// Returns a success with two numbers.
    pub(crate) fn numbers(first: u64, second: u64) -> CallResult
        ensures { result ≡ numbers_result first second }
    {
        CallResult::new(codes::OK, first, second)
    }

    /// Returns the code of an error with its position.
    pub(crate) fn of(error: CallError) -> CallResult
        ensures { result ≡ result_of error }
    {
        match error {
            CallError::Memory => CallResult::new(codes::MEMORY, 0, 0),
            CallError::BufferTooShort { needed } => CallResult::at(codes::BUFFER_TOO_SHORT, needed),
            CallError::NoSuchSet { id } => CallResult::new(codes::NO_SUCH_SET, id, 0),
            CallError::NoSuchOrder { order } => {
                CallResult::new(codes::NO_SUCH_ORDER, u64::from(order), 0)
            }
            CallError::LengthsDiffer => CallResult::new(codes::LENGTHS_DIFFER, 0, 0),
            CallError::NoSuchCell { at } => CallResult::at(codes::NO_SUCH_CELL, at),
            CallError::NotUniq { at } => CallResult::at(codes::NOT_UNIQ, at),
            CallError::Format(error) => CallResult::of_format(error),
            CallError::TooCoarse => CallResult::new(codes::TOO_COARSE, 0, 0),
            CallError::Ranges(error) => CallResult::of_ranges(error),
            CallError::Line { error, place } => CallResult::of_line(error, place),
            CallError::NoMap => CallResult::new(codes::NO_MAP, 0, 0),
            CallError::HandleInUse => CallResult::new(codes::CLIENT_IN_USE, 0, 0),
            CallError::BadCount { clients } => CallResult::new(
                codes::BAD_COUNT,
                u64::from(clients),
                0,
            ),
            CallError::NoClient => CallResult::new(codes::NO_CLIENT, 0, 0),
            CallError::Busy(Busy { part, holder }) => {
                CallResult::new(codes::BUSY, u64::from(part.get()), u64::from(holder))
            }
        }
    }

    /// Returns the result for an error of a text in any format.
    fn of_format(error: FormatError) -> CallResult
        ensures { result ≡ result_of_format error }
    {
        match error {
            FormatError::Ascii(error) => CallResult::of_text(error),
            FormatError::Json(error) => CallResult::of_json(error),
            FormatError::Uniq(error) => CallResult::of_uniq(error),
        }
    }

    /// Returns the result for an error of an ASCII text, with the position of its byte.
    fn of_text(error: TextError) -> CallResult
        ensures { result ≡ result_of_text error }
    {
        match error {
            TextError::Memory => CallResult::new(codes::MEMORY, 0, 0),
            TextError::BadByte { at } => CallResult::at(codes::ASCII_BAD_BYTE, at),
            TextError::NoOrder { at } => CallResult::at(codes::ASCII_NO_ORDER, at),
            TextError::OrderTooLarge { at } => CallResult::at(codes::ASCII_ORDER_TOO_LARGE, at),
            TextError::CellTooLarge { at } => CallResult::at(codes::ASCII_CELL_TOO_LARGE, at),
            TextError::Backwards { at } => CallResult::at(codes::ASCII_BACKWARDS, at),
            TextError::Unfinished { at } => CallResult::at(codes::ASCII_UNFINISHED, at),
        }
    }

    /// Returns the result for an error of a JSON text, with the numbers of the name and the item.
    fn of_json(error: JsonError) -> CallResult
        ensures { result ≡ result_of_json error }
    {
        match error {
            JsonError::Memory => CallResult::new(codes::MEMORY, 0, 0),
            JsonError::NotJson => CallResult::new(codes::JSON_NOT_JSON, 0, 0),
            JsonError::NotObject => CallResult::new(codes::JSON_NOT_OBJECT, 0, 0),
            JsonError::BadOrder { name } => CallResult::at(codes::JSON_BAD_ORDER, name),
            JsonError::NotArray { name } => CallResult::at(codes::JSON_NOT_ARRAY, name),
            JsonError::NotWhole { name, place } => {
                CallResult::new(codes::JSON_NOT_WHOLE, name as u64, place as u64)
            }
            JsonError::CellTooLarge { name, place } => {
                CallResult::new(codes::JSON_CELL_TOO_LARGE, name as u64, place as u64)
            }
        }
    }

    /// Returns the result for an error of a NUNIQ list, with the number of its line.
    fn of_uniq(error: UniqError) -> CallResult
        ensures { result ≡ result_of_uniq error }
    {
        match error {
            UniqError::Memory => CallResult::new(codes::MEMORY, 0, 0),
            UniqError::BadByte { line } => CallResult::at(codes::UNIQ_BAD_BYTE, line),
            UniqError::NotUniq { line } => CallResult::at(codes::UNIQ_NOT_UNIQ, line),
        }
    }

    /// Returns the result for an invalid range, with its position.
    fn of_ranges(error: RangesError) -> CallResult
        ensures { result ≡ result_of_ranges error }
    {
        match error {
            RangesError::Memory => CallResult::new(codes::MEMORY, 0, 0),
            RangesError::Backwards { at } => CallResult::at(codes::RANGE_BACKWARDS, at),
            RangesError::PixelTooLarge { at } => CallResult::at(codes::RANGE_PIXEL_TOO_LARGE, at),
        }
    }

    /// Returns the result for an error of a line of commands, with its place.
    fn of_line(error: LineError, place: LinePlace) -> CallResult
        ensures { result ≡ result_of_line error place }
    {
        let code = match error {
            LineError::UnknownWord => codes::LINE_UNKNOWN_WORD,
            LineError::EmptyCommand => codes::LINE_EMPTY_COMMAND,
            LineError::TooManyCommands => codes::LINE_TOO_MANY_COMMANDS,
            LineError::WrongCount => codes::LINE_WRONG_COUNT,
            LineError::BadNumber => codes::LINE_BAD_NUMBER,
            LineError::OrderTooLarge => codes::LINE_ORDER_TOO_LARGE,
            LineError::CellTooLarge => codes::LINE_CELL_TOO_LARGE,
            LineError::Coverage(error) => coverage_code(error),
            LineError::ClientTooLarge => codes::LINE_CLIENT_TOO_LARGE,
            LineError::PartTooLarge => codes::LINE_PART_TOO_LARGE,
            LineError::Memory => codes::MEMORY,
        };
        CallResult::new(code, place.command as u64, place.byte as u64)
    }
}

/// Returns the code of an invalid coverage in a line of commands.
fn coverage_code(error: TextError) -> u32
    ensures { result ≡ code_of_coverage error }
{
    match error {
        TextError::OrderTooLarge { .. } => codes::LINE_ORDER_TOO_LARGE,
        TextError::CellTooLarge { .. } => codes::LINE_CELL_TOO_LARGE,
        TextError::BadByte { .. } => codes::LINE_BAD_BYTE,
        TextError::NoOrder { .. } => codes::LINE_NO_ORDER,
        TextError::Backwards { .. } => codes::LINE_BACKWARDS,
        TextError::Unfinished { .. } => codes::LINE_UNFINISHED,
        TextError::Memory => codes::MEMORY,
    }
}
