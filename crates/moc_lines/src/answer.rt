//! The answers to lines of commands.
ghost use Rattle.std.specs.Prelude.{◌≡◌, ◌≢◌, ◌++◌, ⊤, OnOk, false};
ghost use Rattle.std.specs.List.{position_or_len};
ghost use Rattle.moc_text.specs.Lines.{is_semicolon};
ghost use Rattle.moc_text.specs.Names.{fault_report};
ghost use Rattle.moc_parts.specs.Batches.{replies_on, set_after_all};
ghost use Rattle.moc_lines.specs.Language.{AnswersLine, batch_of, command_of, is_blank_text};
ghost use Rattle.moc_lines.specs.Language.{name_of_line_error};
ghost use Rattle.moc_lines.specs.Runs.{script_rules};

use crate::batch::{first_semicolon, only_cell_command, read_batch_at, read_only_piece};
use crate::error::{LineError, push_error};
use crate::executor::Executor;
use crate::reply_text::push_reply_line;
use crate::responder::Responder;
use crate::words::is_blank_text;
use moc_parts::{Batch, CellCommand, Command, Map, Replies, Reply};
use moc_ranges::Memory;
use std::alloc::Global;
use std::slice;

/// Processes a line that is not blank: executes its commands, and appends the replies, or the error of the line.
///
/// # Errors
/// Fails with `Memory` if an allocation fails. The text is then unspecified.
///
/// # Complexity
/// Linear in the lengths of the line and the answer, and the cost of the commands.
pub fn answer_commands<E: Executor>(
    executor: &mut E,
    alloc: Global,
    line: &[u8],
    text: &mut Vec<u8>,
) -> Result<(), Memory>
    requires ready { E.ready executor.old }
    ensures ready { E.ready executor.new }
    ensures answer { OnOk result (AnswersLine E.executes executor.old executor.new (batch_of command_of line.now)
        text.old.items text.new.items) }
{
    let first = first_semicolon(line);
    if first < line.len() {
        return answer_batch(executor, alloc, line, first, text);
    }
    if let Some(command) = only_cell_command(line) {
        let reply = executor.execute_on_cell(alloc, &command)?;
        return push_reply_line(alloc, slice::from_ref(&reply), text);
    }
    match read_only_piece(alloc, line) {
        Ok(command) => {
            let reply = executor.execute(alloc, command)?;
            push_reply_line(alloc, slice::from_ref(&reply), text)
        }
        Err(error) => answer_error(error, text),
    }
}

/// Appends the answer to an invalid line. Fails if an allocation fails, or failed while the line was parsed.
fn answer_error(error: LineError, text: &mut Vec<u8>) -> Result<(), Memory>
    ensures invalid { OnOk result (error ≢ LineError.Memory) }
    ensures text { OnOk result (text.new.items ≡ text.old.items ++ fault_report (name_of_line_error error)) }
{
    match error {
        LineError::Memory => Err(Memory),
        error => push_error(error.name(), text),
    }
}

/// Executes a line of several commands, as [`answer_commands`] does. Its first semicolon is at `first`. The function is
/// separate, because each call initializes the stack of a whole function: a line of one command needs less of it.
#[inline(never)]
fn answer_batch<E: Executor>(
    executor: &mut E,
    alloc: Global,
    line: &[u8],
    first: usize,
    text: &mut Vec<u8>,
) -> Result<(), Memory>
    requires first { first ≡ position_or_len is_semicolon line.now }
    requires ready { E.ready executor.old }
    ensures ready { E.ready executor.new }
    ensures answer { OnOk result (AnswersLine E.executes executor.old executor.new (batch_of command_of line.now)
        text.old.items text.new.items) }
{
    match read_batch_at(alloc, line, first) {
        Ok(batch) => {
            let replies = executor.execute_batch(alloc, &batch)?;
            push_reply_line(alloc, replies.as_slice(), text)
        }
        Err(error) => answer_error(error, text),
    }
}

impl Executor for Map {
    ghost ready = { λ _. ⊤ };

    ghost executes = { λ old commands replies new.
        (replies ≡ replies_on old commands) × (new ≡ set_after_all old commands) };

    fn execute(&mut self, alloc: Global, command: Command) -> Result<Reply, Memory> {
        self.answer(alloc, &command)
    }

    fn execute_on_cell(&mut self, alloc: Global, command: &CellCommand) -> Result<Reply, Memory> {
        self.answer_cell(alloc, command)
    }

    fn execute_batch(&mut self, alloc: Global, batch: &Batch) -> Result<Replies, Memory> {
        self.apply(alloc, batch)
    }
}

impl Responder for Map {
    ghost rules = { script_rules };

    fn answer_line(
        &mut self,
        alloc: Global,
        line: &[u8],
        text: &mut Vec<u8>,
    ) -> Result<(), Memory> {
        if is_blank_text(line) {
            return Ok(());
        }
        answer_commands(self, alloc, line, text)
    }

    fn close(&self, _alloc: Global, _text: &mut Vec<u8>) -> Result<(), Memory> {
        Ok(())
    }
}
