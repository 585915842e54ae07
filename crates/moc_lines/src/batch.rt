//! The batch of commands of a line.
ghost use Rattle.std.specs.Prelude.{◌≡◌, ◌≤◌, ◌∷◌, [], length, nat_lt, if◌then◌else◌, IfSome, Ok, OnOk};
ghost use Rattle.std.specs.List.{count_by, position_or_len};
ghost use Rattle.moc_lines.specs.Language.{command_of, piece_command, batch_of, commands_of, ParsesAs};
ghost use Rattle.moc_parts.specs.CellCommands.{command_on_cell};
ghost use Rattle.moc_text.specs.Lines.{is_semicolon, pieces_of};

use crate::bytes::first_or_len;
use crate::command::{cell_command, read_command};
use crate::error::LineError;
use crate::words::is_blank_text;
use moc_parts::{Batch, CellCommand, Command, MAX_COMMANDS};
use std::alloc::Global;

/// Returns the position of the first semicolon of a line, or the length of the line if it contains no semicolon.
pub(crate) fn first_semicolon(line: &[u8]) -> usize
    ensures at { result ≡ position_or_len is_semicolon line.now }
    ensures within { result ≤ length line.now }
{
    first_or_len(b';', line)
}

/// Returns the number of semicolons of a line.
fn semicolons_in(line: &[u8]) -> usize
    ensures { result ≡ count_by is_semicolon line.now }
{
    line.iter().filter(|b| **b == b';').count()
}

/// Parses a piece of a line.
pub(crate) fn read_piece(alloc: Global, piece: &[u8]) -> Result<Command, LineError>
    ensures { ParsesAs (λ command. command) result (piece_command command_of piece.now) }
{
    if is_blank_text(piece) {
        return Err(LineError::EmptyCommand);
    }
    read_command(alloc, piece)
}

/// Parses a line without semicolons: one command.
pub(crate) fn read_only_piece(alloc: Global, line: &[u8]) -> Result<Command, LineError>
    requires { length line.now ≤ position_or_len is_semicolon line.now }
    ensures { ParsesAs (λ command. command ∷ []) result (batch_of command_of line.now) }
{
    read_piece(alloc, line)
}

/// Returns the command of a line without semicolons if it is one on a single cell, such as `add 3/7`. Returns `None`
/// for any other line.
pub(crate) fn only_cell_command(line: &[u8]) -> Option<CellCommand>
    requires { length line.now ≤ position_or_len is_semicolon line.now }
    ensures { IfSome result (λ c. batch_of command_of line.now ≡ Ok (command_on_cell c ∷ [])) }
{
    if is_blank_text(line) {
        return None;
    }
    cell_command(line)
}

/// Parses the pieces of a line. The first piece ends at `first`. Fails if there are more than 16; the error is then
/// unspecified.
fn read_pieces(alloc: Global, line: &[u8], first: usize) -> Result<Vec<Command>, LineError>
    requires { first ≡ position_or_len is_semicolon line.now }
    ensures bounded { OnOk result (length (pieces_of line.now) ≤ MAX_COMMANDS) }
    ensures reads { length (pieces_of line.now) ≤ MAX_COMMANDS
        → ParsesAs (λ v. v.items) result (commands_of command_of (pieces_of line.now)) }
{
    let mut commands = Vec::new(alloc);
    let mut rest = line;
    let mut at = first;
    for _piece in 0..MAX_COMMANDS {
        let (piece, following) = rest.split_at(at);
        let command = read_piece(alloc, piece)?;
        if commands.push(command).is_err() {
            return Err(LineError::Memory);
        }
        if at == rest.len() {
            return Ok(commands);
        }
        rest = following.split_at(1).1;
        at = first_semicolon(rest);
    }
    Err(LineError::TooManyCommands)
}

/// Returns the error of a line with an invalid piece: `TooManyCommands` takes precedence.
fn error_of_line(line: &[u8], error: LineError) -> LineError
    ensures { result ≡ (if nat_lt 16 (length (pieces_of line.now)) then LineError.TooManyCommands else error) }
{
    if semicolons_in(line) >= MAX_COMMANDS {
        LineError::TooManyCommands
    } else {
        error
    }
}

/// Parses a line that is not blank. Its first semicolon is at `first`, or `first` is the length of the line.
pub(crate) fn read_batch_at(alloc: Global, line: &[u8], first: usize) -> Result<Batch, LineError>
    requires { first ≡ position_or_len is_semicolon line.now }
    ensures { ParsesAs (λ batch. batch) result (batch_of command_of line.now) }
{
    match read_pieces(alloc, line, first) {
        Ok(commands) => Ok(Batch::of(commands)),
        Err(LineError::Memory) => Err(LineError::Memory),
        Err(error) => Err(error_of_line(line, error)),
    }
}
