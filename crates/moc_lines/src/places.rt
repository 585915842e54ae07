//! Finds the place of the error in an invalid line.
ghost use Rattle.std.specs.Prelude.{◌≡◌, ◌≤◌, length, IfOk};
ghost use Rattle.moc_lines.specs.Places.{coverage_text, error_place, offset_in_piece};
ghost use Rattle.moc_lines.specs.Private.Placing.{is_error_of_piece};

use crate::batch::{first_semicolon, read_piece};
use crate::error::LineError;
use crate::words::{blanks_in_front, split_word};
use moc_parts::MAX_COMMANDS;
use moc_ranges::Memory;
use std::alloc::Global;

/// The place of an error in a line.
#[derive(Clone, Copy, Debug, PartialEq, Eq)]
pub struct LinePlace {
    /// The number of the invalid command, from 0.
    pub command: usize,
    /// The offset in the line, from 0: of the error in a coverage, or otherwise of the first byte of the command.
    pub byte: usize,
}

/// Returns whether an error of a line is that of the piece with this number. `TooManyCommands` is that of the 17th
/// piece, any other error that of each invalid piece. Fails with `Memory` if an allocation fails.
fn is_error_of_piece(
    alloc: Global,
    error: LineError,
    number: usize,
    piece: &[u8],
) -> Result<bool, Memory>
    ensures { IfOk result (λ is. is ≡ is_error_of_piece error number piece.now) }
{
    if error == LineError::TooManyCommands {
        return Ok(number == MAX_COMMANDS);
    }
    match read_piece(alloc, piece) {
        Ok(_) => Ok(false),
        Err(LineError::Memory) => Err(Memory),
        Err(_) => Ok(true),
    }
}

/// Returns the text after the word of a command, and after an order that begins with `@`.
fn coverage_text(piece: &[u8]) -> &[u8]
    ensures text { result.now ≡ coverage_text piece.now }
    ensures within { length result.now ≤ length piece.now }
{
    let (_, text) = split_word(piece);
    let (word, following) = split_word(text);
    if word.starts_with(b"@") {
        following
    } else {
        text
    }
}

/// Returns the offset of an error in the piece that it is about.
fn offset_in_piece(error: LineError, piece: &[u8]) -> usize
    ensures offset { result ≡ offset_in_piece error piece.now }
    ensures within { result ≤ length piece.now }
{
    let LineError::Coverage(error) = error else {
        return blanks_in_front(piece);
    };
    let text = coverage_text(piece);
    let offset = error.place().unwrap_or(0).min(text.len());
    piece.len() - text.len() + offset
}

/// Returns the place of an error that `read_batch` returned for this line. If no piece has the error, the place is
/// after the last command.
///
/// # Errors
/// Fails with `Memory` if an allocation fails.
///
/// # Complexity
/// The cost of parsing the line again.
pub fn place_of_error(alloc: Global, line: &[u8], error: LineError) -> Result<LinePlace, Memory>
    ensures { IfOk result (λ place. place ≡ error_place error line.now) }
{
    let mut place = LinePlace {
        command: 0,
        byte: 0,
    };
    let mut rest = line;
    loop {
        let (piece, following) = rest.split_at(first_semicolon(rest));
        if is_error_of_piece(alloc, error, place.command, piece)? {
            place.byte += offset_in_piece(error, piece);
            return Ok(place);
        }
        place.command += 1;
        place.byte += piece.len() + 1;
        let [_semicolon, next @ ..] = following else {
            return Ok(place);
        };
        rest = next;
    }
}
