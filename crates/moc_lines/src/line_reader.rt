//! The lines of a reader, one at a time.
ghost use Rattle.std.specs.Prelude.{◌≡◌, ◌+◌, ◌<◌, ◌≤◌, ◌≢◌, ◌||◌, ◌++◌, [], false, true, IfOk, OnOk, OnErr};
ghost use Rattle.std.specs.Prelude.{IfErr, is_err, length, nat_lt, IsTrue, Err, Ok};
ghost use Rattle.std.specs.List.{position_or_len, before_first, after_first};
ghost use Rattle.moc_devices.specs.Devices.{IsEnded};
ghost use Rattle.moc_text.specs.Lines.{is_line_feed};

use crate::bytes::first_or_len;
use crate::run_error::RunError;
use moc_devices::{BUFFER_SIZE, DeviceFault, GuardedSource};
use std::alloc::{AllocError, Global};
use std::marker::Model;

/// The maximal number of bytes of a line, without its line feed.
pub const LINE_LIMIT: usize = 1_048_576;

/// What a read of a line found.
#[derive(Clone, Copy)]
pub(crate) enum LineKind {
    /// A line that a line feed ends.
    Line,
    /// A line that the end of the input ends.
    LastLine,
    /// The end of the input, without a line before it.
    EndOfInput,
}

/// The bytes that were read and do not belong to a line yet, and the last line that was read.
#[derive(Drop)]
pub(crate) struct LineReader {
    chunk: Vec<u8>,
    start: usize,
    end: usize,
    /// The number of unread bytes before their first line feed: all of them if there is none.
    feed_offset: usize,
    line: Vec<u8>,
}

impl Model for LineReader {
    ghost use Rattle.std.specs.Prelude.{◌≡◌, ◌-◌, ◌≤◌, ◌<◌, take, drop, vec_len};
    ghost use Rattle.std.specs.List.{position_or_len};
    ghost use Rattle.moc_text.specs.Lines.{is_line_feed};
    ghost use Rattle.moc_lines.specs.Private.ReaderState.{ReaderState};

    ghost Value = { ReaderState };

    ghost view = { λ r. record { unread = take (r.end - r.start) (drop r.start r.chunk.items); line = r.line.items } };

    ghost invariant = { λ r. (r.start ≤ r.end) × (r.end ≤ vec_len r.chunk) × (0 < vec_len r.chunk)
        × (r.feed_offset ≡ position_or_len is_line_feed (take (r.end - r.start) (drop r.start r.chunk.items))) };
}

impl LineReader {
    ghost use Rattle.moc_lines.specs.Private.LineReading.{ReadsMore, FailsPart, IsOfLine, ReadsLine};
    ghost use Rattle.moc_lines.specs.Private.LineReading.{PermitsReadsWithinLine, has_line};
    ghost use Rattle.moc_lines.specs.Runs.{HasNotEnded};

    pub(crate) fn new(alloc: Global) -> Result<LineReader, AllocError>
        ensures { IfOk result (λ r. r.unread ≡ []) }
    {
        Ok(LineReader {
            chunk: vec![in alloc; 0u8; BUFFER_SIZE]?,
            start: 0,
            end: 0,
            feed_offset: 0,
            line: Vec::new(alloc),
        })
    }

    /// Returns the last line that was read.
    pub(crate) fn line(&self) -> &[u8]
        ensures { result.now ≡ self.now.line }
    {
        &self.line
    }

    /// Returns whether the buffer has a whole line.
    pub(crate) fn has_line(&self) -> bool
        ensures { result ≡ has_line self.now.unread }
    {
        self.feed_offset < self.end - self.start
    }

    /// Moves the bytes before the first line feed from the buffer to the end of the current line, which has this
    /// number, and drops the line feed. Returns whether there was one.
    fn take_part(&mut self, number: u64) -> Result<bool, RunError>
        requires { length self.old.line ≤ LINE_LIMIT }
        ensures found { IfOk result (λ found.
            found ≡ nat_lt (position_or_len is_line_feed self.old.unread) (length self.old.unread)) }
        ensures line { OnOk result (self.new.line ≡ self.old.line ++ before_first is_line_feed self.old.unread) }
        ensures unread { OnOk result (self.new.unread ≡ after_first is_line_feed self.old.unread) }
        ensures within { OnOk result (length self.new.line ≤ LINE_LIMIT) }
        ensures fails { IfErr result (λ e. FailsPart number LINE_LIMIT self.old e) }
        ensures read { result ≢ Err RunError.Read }
    {
        let unread = &self.chunk[self.start..self.end];
        let len = self.feed_offset;
        if len > LINE_LIMIT - self.line.len() {
            return Err(RunError::LineTooLong { line: number });
        }
        if self.line.extend_from_slice(&unread[..len]).is_err() {
            return Err(RunError::Memory { line: number });
        }
        if len < unread.len() {
            self.start += len + 1;
            self.feed_offset = first_or_len(b'\n', &self.chunk[self.start..self.end]);
            Ok(true)
        } else {
            self.start = self.end;
            self.feed_offset = 0;
            Ok(false)
        }
    }

    /// Reads into the buffer if it is empty. Returns whether the buffer has bytes afterwards; it is empty only at the
    /// end of the input.
    fn fill_chunk<R: GuardedSource<W>, W>(
        &mut self,
        reader: &mut R,
        writer: &W,
    ) -> Result<bool, DeviceFault>
        requires permission { self.old.unread ≡ [] → R.may_read reader.old writer.now }
        ensures reads_more { ReadsMore self.old (R.reading reader.old) self.new (R.reading reader.new) }
        ensures some { IfOk result (λ some. some ≡ nat_lt 0 (length self.new.unread)) }
        ensures end { IfOk result (λ some. some ≡ false → IsEnded (R.reading reader.new)) }
        ensures more { IfOk result (λ some. some ≡ true → HasNotEnded (R.reading reader.old) (R.reading reader.new)) }
        ensures err { OnErr result (self.new.unread ≡ []) }
        ensures marks { R.mark reader.new ≡ (R.mark reader.old || is_err result) }
    {
        if self.start == self.end {
            self.start = 0;
            self.end = 0;
            self.end = reader.read_after(writer, &mut self.chunk)?;
            self.feed_offset = first_or_len(b'\n', &self.chunk[..self.end]);
        }
        Ok(self.start < self.end)
    }

    /// Reads the next line, which has this number.
    pub(crate) fn next_line<R: GuardedSource<W>, W>(
        &mut self,
        number: u64,
        reader: &mut R,
        writer: &W,
    ) -> Result<LineKind, RunError>
        requires permission { PermitsReadsWithinLine R.reading R.mark (λ r. R.may_read r writer.now)
            self.old.unread reader.old }
        ensures takes { ReadsLine LINE_LIMIT self.old (R.reading reader.old) self.new (R.reading reader.new) result }
        ensures number { IfErr result (λ e. IsOfLine number e) }
        ensures more { result ≡ Ok LineKind.Line → HasNotEnded (R.reading reader.old) (R.reading reader.new) }
        ensures read { result ≡ Err RunError.Read → IsTrue (R.mark reader.new) }
        ensures unmarked { result ≢ Err RunError.Read → R.mark reader.new ≡ R.mark reader.old }
    {
        self.line.clear();
        loop {
            match self.fill_chunk(reader, writer) {
                Ok(true) => {}
                Ok(false) if self.line.is_empty() => return Ok(LineKind::EndOfInput),
                Ok(false) => return Ok(LineKind::LastLine),
                Err(DeviceFault) => return Err(RunError::Read),
            }
            if self.take_part(number)? {
                return Ok(LineKind::Line);
            }
        }
    }
}
