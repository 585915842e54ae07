//! Writes the answers of the lanes in the order of the lines.
ghost use Rattle.std.specs.Prelude.{◌≡◌, ◌<◌, ◌≤◌, ◌+◌, ◌++◌, ◌↔◌, [], false, is_err, length, IfOk, IsErrOf};
ghost use Rattle.std.specs.Prelude.{IsTrue, vec_len, vec_capacity};
ghost use Rattle.moc_devices.specs.Devices.{FlushesNothing, OnlyWrites, Sends};
ghost use Rattle.moc_script.specs.Private.Joining.{EndsMerging, MergesTo, SendsTurns};

use crate::crews::texts::{Texts, Walk};
use moc_devices::{BUFFER_SIZE, DeviceFault, Sink, write_all, write_pending};
use moc_lines::{RunError, line_after_last};
use moc_ranges::Memory;
use std::alloc::Global;

/// The answers of the lanes that are still to come, and those that are merged and not written yet.
#[derive(Drop)]
struct AnswerMerger<'a> {
    walks: Vec<Walk<'a>>,
    pending: Vec<u8>,
}

impl<'a> AnswerMerger<'a> {
    /// Returns a writer of all answers of each lane. Allocates all memory that writing them needs.
    fn new(alloc: Global, answers: &'a [Texts]) -> Result<AnswerMerger<'a>, Memory>
        ensures walks { IfOk result (λ j. j.walks.items ≡ answers.now) }
        ensures none { IfOk result (λ j. j.pending.items ≡ []) }
    {
        let mut walks = Vec::with_capacity(alloc, answers.len())?;
        for texts in answers {
            walks.push_reserved(texts.walk());
        }
        Ok(AnswerMerger {
            walks,
            pending: Vec::with_capacity(alloc, BUFFER_SIZE)?,
        })
    }

    /// Writes one answer of each lane in turn, until no answer of the next lane is left, and then the text after them.
    fn write<W: Sink>(mut self, following: &[u8], writer: &mut W) -> Result<(), DeviceFault>
        requires some { 0 < length self.walks.items }
        requires none { self.pending.items ≡ [] }
        ensures sends { MergesTo self.entry.walks.items following.now (W.writing writer.old) (W.writing writer.new)
            result }
        ensures writes { OnlyWrites W.mark W.flushed W.flushes writer.old writer.new (is_err result) }
    {
        self.write_turns(writer)?;
        send(following, &mut self.pending, writer)?;
        write_all(&self.pending, writer)
    }

    /// Writes one answer of each lane in turn, until no answer of the next lane is left. A rest may stay pending.
    fn write_turns<W: Sink>(&mut self, writer: &mut W) -> Result<(), DeviceFault>
        requires some { 0 < length self.old.walks.items }
        requires none { self.old.pending.items ≡ [] }
        ensures sends { SendsTurns self.old.walks.items (W.writing writer.old)
            self.new.pending.items (W.writing writer.new) result }
        ensures writes { OnlyWrites W.mark W.flushed W.flushes writer.old writer.new (is_err result) }
    {
        let mut turn = 0;
        while let Some(answer) = self.walks[turn].next_text() {
            send(answer, &mut self.pending, writer)?;
            turn += 1;
            if turn == self.walks.len() {
                turn = 0;
            }
        }
        Ok(())
    }
}

/// Appends a text to the pending bytes. If it does not fit, writes the pending bytes first; writes a text that is
/// longer than the buffer directly.
fn send<W: Sink>(text: &[u8], pending: &mut Vec<u8>, writer: &mut W) -> Result<(), DeviceFault>
    ensures sends { Sends (pending.old.items ++ text.now) (W.writing writer.old)
        pending.new.items (W.writing writer.new) result }
    ensures writes { OnlyWrites W.mark W.flushed W.flushes writer.old writer.new (is_err result) }
{
    if text.len() <= pending.capacity() - pending.len() {
        append_pending(text, pending);
        return Ok(());
    }
    write_pending(pending, writer)?;
    if text.len() > pending.capacity() {
        return write_all(text, writer);
    }
    append_pending(text, pending);
    Ok(())
}

/// Appends a text to the pending bytes. Requires that it fits.
fn append_pending(text: &[u8], pending: &mut Vec<u8>)
    requires { vec_len pending.old + length text.now ≤ vec_capacity pending.old }
    ensures { pending.new.items ≡ pending.old.items ++ text.now }
{
    // An append within the capacity allocates nothing.
    let Ok(()) = pending.extend_from_slice(text) else {
        unreachable!()
    };
}

/// Writes the answers in the order of the lines, one of each lane in turn, and the text after them. The answers of a
/// single lane are already in this order. All allocations happen before the first byte is written; if one fails, it
/// failed after the last line of the input.
pub(crate) fn write_merged<W: Sink>(
    alloc: Global,
    input: &[u8],
    answers: &[Texts],
    following: &[u8],
    writer: &mut W,
) -> Result<(), RunError>
    requires some { 0 < length answers.now }
    requires writer { W.mark writer.old ≡ false }
    ensures merges { EndsMerging input.now answers.now following.now
        (W.writing writer.old) (W.writing writer.new) result }
    ensures write { IsErrOf result RunError.Write ↔ IsTrue (W.mark writer.new) }
    ensures unflushed { FlushesNothing W.flushed W.flushes writer.old writer.new }
{
    if answers.len() == 1 {
        return match write_both(answers[0].as_bytes(), following, writer) {
            Ok(()) => Ok(()),
            Err(DeviceFault) => Err(RunError::Write),
        };
    }
    let Ok(merger) = AnswerMerger::new(alloc, answers) else {
        return Err(RunError::Memory {
            line: line_after_last(input),
        });
    };
    match merger.write(following, writer) {
        Ok(()) => Ok(()),
        Err(DeviceFault) => Err(RunError::Write),
    }
}

/// Writes two texts, one after the other.
fn write_both<W: Sink>(text: &[u8], following: &[u8], writer: &mut W) -> Result<(), DeviceFault>
    ensures sends { Sends (text.now ++ following.now) (W.writing writer.old) [] (W.writing writer.new) result }
    ensures writes { OnlyWrites W.mark W.flushed W.flushes writer.old writer.new (is_err result) }
{
    write_all(text, writer)?;
    write_all(following, writer)
}
