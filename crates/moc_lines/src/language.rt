//! The command language, for callers that apply commands and batches themselves.
ghost use Rattle.std.specs.Prelude.{◌≡◌, ◌++◌, ◌∷◌, [], IfOk, IfSome, Ok};
ghost use Rattle.moc_parts.specs.CellCommands.{command_on_cell};
ghost use Rattle.moc_lines.specs.Language.{batch_of, command_of, ParsesAs, replies_text};

use crate::batch::{first_semicolon, only_cell_command, read_batch_at};
use crate::error::LineError;
use crate::reply_text::push_reply_line;
use moc_parts::{Batch, CellCommand, Replies};
use moc_ranges::Memory;
use std::alloc::Global;

/// Parses a line as a batch: 1 to 16 commands, separated by `;`, as in a script. A blank line is an empty command.
///
/// # Errors
/// Fails with the first error of the line, or with `Memory`.
///
/// # Complexity
/// Linear in the length of the line, and the cost of the sets of its operands.
pub fn read_batch(alloc: Global, line: &[u8]) -> Result<Batch, LineError>
    ensures { ParsesAs (λ batch. batch) result (batch_of command_of line.now) }
{
    read_batch_at(alloc, line, first_semicolon(line))
}

/// Returns the command of a line if the line is a single command on one cell, such as `add 3/7`. It needs no set of the
/// cell. Returns `None` for any other line.
///
/// # Complexity
/// Linear in the length of the line; allocates nothing.
pub fn read_cell_command(line: &[u8]) -> Option<CellCommand>
    ensures { IfSome result (λ c. batch_of command_of line.now ≡ Ok (command_on_cell c ∷ [])) }
{
    if first_semicolon(line) < line.len() {
        return None;
    }
    only_cell_command(line)
}

/// A capacity for the answer to a command whose reply has no cover.
const SHORT_ANSWER: usize = 32;

/// Returns the answer to a batch: the texts of its replies, separated by ` ; `, and a line feed. Linear in the length
/// of the text.
///
/// # Errors
/// Fails with `Memory` if an allocation fails.
pub fn answer_text(alloc: Global, replies: &Replies) -> Result<Vec<u8>, Memory>
    ensures { IfOk result (λ text. text.items ≡ replies_text replies.now ++ 10 ∷ []) }
{
    let mut text = Vec::with_capacity(alloc, SHORT_ANSWER)?;
    push_reply_line(alloc, replies.as_slice(), &mut text)?;
    Ok(text)
}
