//! The loop that reads lines and writes their answers.
ghost use Rattle.std.specs.Prelude.{◌≡◌, ◌≢◌, ◌++◌, [], IfOk, IfErr, if◌then◌else◌, IsTrue, ◌↔◌, false};
ghost use Rattle.std.specs.Prelude.{OnOk, OnErr, IsErrOf, Ok, Err, is_err};
ghost use Rattle.moc_devices.specs.Devices.{AcceptsNone, CallsMore, FlushesNothing, OnlyWrites, Sends};
ghost use Rattle.moc_lines.specs.Private.LineReading.{IsOfLine, PermitsReadsWithinLine, ReadsLine, has_line};
ghost use Rattle.moc_lines.specs.Runs.{script_text, line_limit, AnswersAll, EndsFlushed, Flushes, Runs, ReportsFailure};
ghost use Rattle.moc_lines.specs.Runs.{AreLinesAnswered, HasNotEnded};
ghost use Rattle.moc_lines.specs.Private.Ended.{Ended};

use crate::line_reader::{LINE_LIMIT, LineKind, LineReader};
use crate::responder::Responder;
use crate::run_error::RunError;
use moc_devices::{BUFFER_SIZE, DeviceFault, GuardedSource, Sink, write_pending};
use std::alloc::{AllocError, Global};

/// The state of a run: the lines to be read, and the answers that are not written yet.
#[derive(Drop)]
struct Runner {
    alloc: Global,
    lines: LineReader,
    answer: Vec<u8>,
    pending: Vec<u8>,
}

impl Runner {
    /// Returns the state before the first read.
    fn new(alloc: Global) -> Result<Runner, AllocError>
        ensures unread { IfOk result (λ r. r.lines.unread ≡ []) }
        ensures pending { IfOk result (λ r. r.pending.items ≡ []) }
    {
        Ok(Runner {
            alloc,
            lines: LineReader::new(alloc)?,
            answer: Vec::new(alloc),
            pending: Vec::new(alloc),
        })
    }

    /// Processes each line that is read, and writes the answers.
    fn run<A: Responder, R: GuardedSource<W>, W: Sink>(
        &mut self,
        responder: &mut A,
        reader: &mut R,
        writer: &mut W,
    ) -> Result<(), RunError>
        requires unread { self.old.lines.unread ≡ [] }
        requires pending { self.old.pending.items ≡ [] }
        requires reader { R.mark reader.old ≡ false }
        requires writer { W.mark writer.old ≡ false }
        requires permission { (r : _) (w : _) → R.mark r ≡ false → W.mark w ≡ false
            → HasNotEnded (R.reading reader.old) (R.reading r)
            → AreLinesAnswered A.rules responder.old
            (R.reading reader.old) (R.reading r) (W.writing writer.old) (W.writing w)
            → R.may_read r w }
        ensures runs { Runs LINE_LIMIT A.rules responder.old
            (R.reading reader.old) (R.reading reader.new) (W.writing writer.old) (W.writing writer.new) result }
        ensures end { EndsFlushed result (R.reading reader.new) (W.flushed writer.old) (W.flushed writer.new) }
        ensures flushes { Flushes result (W.flushes writer.old) (W.flushes writer.new) }
        ensures devices { ReportsFailure result (R.mark reader.new) (W.mark writer.new) }
    {
        let outcome = self.answer_lines(responder, reader, writer);
        if is_write(&outcome) {
            return outcome;
        }
        if write_pending(&mut self.pending, writer).is_err() {
            return Err(RunError::Write);
        }
        if flush_if(outcome.is_ok(), writer).is_err() {
            return Err(RunError::Write);
        }
        outcome
    }

    /// Processes each line, and writes the pending answers before each read that may wait.
    fn answer_lines<A: Responder, R: GuardedSource<W>, W: Sink>(
        &mut self,
        responder: &mut A,
        reader: &mut R,
        writer: &mut W,
    ) -> Result<(), RunError>
        requires unread { self.old.lines.unread ≡ [] }
        requires pending { self.old.pending.items ≡ [] }
        requires reader { R.mark reader.old ≡ false }
        requires writer { W.mark writer.old ≡ false }
        requires permission { (r : _) (w : _) → R.mark r ≡ false → W.mark w ≡ false
            → HasNotEnded (R.reading reader.old) (R.reading r)
            → AreLinesAnswered A.rules responder.old
            (R.reading reader.old) (R.reading r) (W.writing writer.old) (W.writing w)
            → R.may_read r w }
        ensures ended { Ended LINE_LIMIT A.rules responder.old
            (R.reading reader.old) (R.reading reader.new)
            (W.writing writer.old) (W.writing writer.new) self.new.pending.items result }
        ensures read { IsErrOf result RunError.Read ↔ IsTrue (R.mark reader.new) }
        ensures write { IsErrOf result RunError.Write ↔ IsTrue (W.mark writer.new) }
        ensures unflushed { FlushesNothing W.flushed W.flushes writer.old writer.new }
    {
        for line in 1..u64::MAX {
            if self.send_if_due(writer).is_err() {
                return Err(RunError::Write);
            }
            match self.next_line(line, reader, writer)? {
                LineKind::Line => self.answer_line(line, responder)?,
                LineKind::LastLine => {
                    self.answer_line(line, responder)?;
                    return self.close(line + 1, responder);
                }
                LineKind::EndOfInput => return self.close(line, responder),
            }
        }
        Err(RunError::Memory { line: u64::MAX })
    }

    /// Reads the next line, which has this number. Reads only in states in which `permission` grants it.
    fn next_line<R: GuardedSource<W>, W>(
        &mut self,
        number: u64,
        reader: &mut R,
        writer: &W,
    ) -> Result<LineKind, RunError>
        requires permission { PermitsReadsWithinLine R.reading R.mark (λ r. R.may_read r writer.now)
            self.old.lines.unread reader.old }
        requires reader { R.mark reader.old ≡ false }
        ensures takes { ReadsLine LINE_LIMIT self.old.lines (R.reading reader.old)
            self.new.lines (R.reading reader.new) result }
        ensures pending { self.new.pending.items ≡ self.old.pending.items }
        ensures number { IfErr result (λ e. IsOfLine number e) }
        ensures more { result ≡ Ok LineKind.Line → HasNotEnded (R.reading reader.old) (R.reading reader.new) }
        ensures read { result ≡ Err RunError.Read ↔ IsTrue (R.mark reader.new) }
    {
        self.lines.next_line(number, reader, writer)
    }

    /// Processes the last line that was read, which has this number. Appends the whole answer to the pending answers,
    /// or nothing.
    fn answer_line<A: Responder>(&mut self, number: u64, responder: &mut A) -> Result<(), RunError>
        ensures text { OnOk result (self.new.pending.items ≡
            self.old.pending.items ++ A.rules.answer responder.old self.old.lines.line) }
        ensures after { OnOk result (responder.new ≡ A.rules.after responder.old self.old.lines.line) }
        ensures memory { IfErr result (λ error. error ≡ RunError.Memory number) }
        ensures err { OnErr result (self.new.pending.items ≡ self.old.pending.items) }
        ensures lines { self.new.lines ≡ self.old.lines }
    {
        self.answer.clear();
        let line = self.lines.line();
        let answered = responder.answer_line(self.alloc, line, &mut self.answer);
        if answered.is_err() || self.append_answer().is_err() {
            return Err(RunError::Memory { line: number });
        }
        Ok(())
    }

    /// Appends the closing text to the pending answers, whole or not at all. `after_last` is the number of the line
    /// after the last.
    fn close<A: Responder>(&mut self, after_last: u64, responder: &A) -> Result<(), RunError>
        ensures text { OnOk result (self.new.pending.items ≡
            self.old.pending.items ++ A.rules.closing responder.now) }
        ensures memory { IfErr result (λ error. error ≡ RunError.Memory after_last) }
        ensures some { OnErr result (A.rules.closing responder.now ≢ []) }
        ensures err { OnErr result (self.new.pending.items ≡ self.old.pending.items) }
        ensures lines { self.new.lines ≡ self.old.lines }
    {
        self.answer.clear();
        let closed = responder.close(self.alloc, &mut self.answer);
        if closed.is_err() || self.append_answer().is_err() {
            return Err(RunError::Memory { line: after_last });
        }
        Ok(())
    }

    /// Appends the answer to the pending answers. If nothing is pending, exchanges the two buffers and copies nothing.
    fn append_answer(&mut self) -> Result<(), AllocError>
        ensures text { OnOk result (self.new.pending.items ≡ self.old.pending.items ++ self.old.answer.items) }
        ensures some { OnErr result (self.old.answer.items ≢ []) }
        ensures err { OnErr result (self.new.pending.items ≡ self.old.pending.items) }
        ensures lines { self.new.lines ≡ self.old.lines }
    {
        if self.pending.is_empty() {
            std::mem::swap(&mut self.pending, &mut self.answer);
            return Ok(());
        }
        self.pending.extend_from_slice(&self.answer)
    }

    /// Writes the pending answers if the buffer has no whole line, so that the next line may have to be read, or if at
    /// least `BUFFER_SIZE` bytes are pending.
    fn send_if_due<W: Sink>(&mut self, writer: &mut W) -> Result<(), DeviceFault>
        ensures sends { Sends self.old.pending.items (W.writing writer.old)
            self.new.pending.items (W.writing writer.new) result }
        ensures written { OnOk result (has_line self.new.lines.unread ≡ false → self.new.pending.items ≡ []) }
        ensures lines { self.new.lines ≡ self.old.lines }
        ensures writes { OnlyWrites W.mark W.flushed W.flushes writer.old writer.new (is_err result) }
    {
        if self.lines.has_line() && self.pending.len() < BUFFER_SIZE {
            return Ok(());
        }
        write_pending(&mut self.pending, writer)
    }
}

/// Processes the lines of a reader, in order, by a responder. Writes the answers to the lines, and the closing text
/// after the last line.
///
/// A line ends at a line feed; bytes after the last line feed are a last line. Answers are written before each read
/// that may wait. After the whole text the writer is flushed, once.
///
/// # Errors
/// If the call fails with `LineTooLong` or `Memory`, the output is exactly the answers to the lines before the line
/// that the error names. If it fails with `Read`, the output is the answers to the whole lines that were read; with
/// `Write`, as much of the answers as the writer accepted. The closing text is made before any of it is written: if an
/// allocation fails for it, `Memory` names the line after the last. `Memory` with line 0 means that nothing was read.
///
/// # Complexity
/// Each line is searched for its end once, and copied.
///
/// # Memory
/// Linear in the longest line and the longest answer.
pub fn answer_all_lines<A: Responder, R: GuardedSource<W>, W: Sink>(
    alloc: Global,
    responder: &mut A,
    reader: &mut R,
    writer: &mut W,
) -> Result<(), RunError>
    requires reader { R.mark reader.old ≡ false }
    requires writer { W.mark writer.old ≡ false }

    // Before each read, no device has failed, no read of this call has found the end, and the sink has accepted the
    // answers to all whole lines that were delivered: the reader needs to permit reads in such states only.
    requires permission { (r : _) (w : _) → R.mark r ≡ false → W.mark w ≡ false
        → HasNotEnded (R.reading reader.old) (R.reading r)
        → AreLinesAnswered A.rules responder.old
        (R.reading reader.old) (R.reading r) (W.writing writer.old) (W.writing w)
        → R.may_read r w }

    // The sink accepts the defined answers to what the source delivers. This needs no assumption about the devices:
    // standard input and output are included.
    ensures runs { Runs line_limit A.rules responder.old
        (R.reading reader.old) (R.reading reader.new) (W.writing writer.old) (W.writing writer.new) result }

    // If the call succeeds, the source has ended, and the sink accepted the text of the whole input.
    ensures answers { OnOk result (AnswersAll (script_text A.rules line_limit responder.old)
        (R.reading reader.old) (R.reading reader.new) (W.writing writer.old) (W.writing writer.new)) }

    // The call succeeds only at the end of the input, and then flushes once after all output.
    ensures end { EndsFlushed result (R.reading reader.new) (W.flushed writer.old) (W.flushed writer.new) }
    ensures flushes { Flushes result (W.flushes writer.old) (W.flushes writer.new) }

    // An error names a device only if it has failed. If a device has failed, the call fails with `Read` or `Write`.
    ensures devices { ReportsFailure result (R.mark reader.new) (W.mark writer.new) }
{
    let Ok(mut runner) = Runner::new(alloc) else {
        return Err(RunError::Memory { line: 0 });
    };
    runner.run(responder, reader, writer)
}

/// Returns whether the writer failed.
fn is_write(outcome: &Result<(), RunError>) -> bool
    ensures { IsTrue result ↔ (outcome.now ≡ Err RunError.Write) }
{
    matches!(outcome, Err(RunError::Write))
}

/// Flushes the writer if `is_due`.
fn flush_if<W: Sink>(is_due: bool, writer: &mut W) -> Result<(), DeviceFault>
    requires writer { W.mark writer.old ≡ false }
    ensures bytes { AcceptsNone (W.writing writer.old) (W.writing writer.new) }
    ensures marks { OnErr result (IsTrue (W.mark writer.new)) }
    ensures unmarked { OnOk result (W.mark writer.new ≡ false) }
    ensures flushed { OnOk result (IsTrue is_due → IsTrue (W.flushed writer.new)) }
    ensures unflushed { OnErr result (IsTrue (W.flushed writer.new) → IsTrue (W.flushed writer.old)) }
    ensures not_due { is_due ≡ false → IsTrue (W.flushed writer.new) → IsTrue (W.flushed writer.old) }
    ensures flushes { CallsMore (W.flushes writer.old) (W.flushes writer.new) (if is_due then 1 else 0) }
{
    if is_due { writer.flush() } else { Ok(()) }
}
