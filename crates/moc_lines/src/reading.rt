//! Scripts that are read whole.
ghost use Rattle.std.specs.Prelude.{◌≡◌, ◌≢◌, ◌<◌, ◌≤◌, ◌+◌, ◌++◌, ◌∷◌, ◌↔◌, [], false, length, IfOk, IfErr, OnOk};
ghost use Rattle.std.specs.Prelude.{IsErrOf, Err, IsTrue, List, ℕ};
ghost use Rattle.std.specs.List.{count_by};
ghost use Rattle.moc_devices.specs.Devices.{Delivers};
ghost use Rattle.moc_text.specs.Lines.{is_line_feed, lines_of};
ghost use Rattle.moc_lines.specs.Runs.{FailsOn, ReadsAll};
ghost use Rattle.moc_lines.specs.Private.Input.{IsScriptState};

use crate::bytes::first_or_len;
use crate::line_reader::LINE_LIMIT;
use crate::run_error::RunError;
use memchr::memrchr;
use moc_devices::{BUFFER_SIZE, DeviceFault, Source};
use std::alloc::Global;

/// The bytes of a script so far.
#[derive(Drop)]
struct Script {
    bytes: Vec<u8>,
    /// The start of the last line, which no line feed has ended yet.
    start: usize,
}

impl Script {
    /// Returns an empty script.
    fn new(alloc: Global) -> Script
        ensures { (result.bytes.items ≡ []) × (result.start ≡ 0) }
    {
        Script {
            bytes: Vec::new(alloc),
            start: 0,
        }
    }

    /// Returns the number of the unfinished line.
    fn unfinished_line(&self) -> u64
        ensures { result ≡ count_by is_line_feed self.now.bytes.items + 1 }
    {
        line_feeds(&self.bytes) + 1
    }

    /// Appends bytes. Fails with `LineTooLong` if the unfinished line becomes longer than the limit.
    fn add(&mut self, chunk: &[u8]) -> Result<(), RunError>
        requires held { IsScriptState self.old.bytes.items self.old.start }
        requires some { 0 < length chunk.now }
        requires short { length chunk.now ≤ BUFFER_SIZE }
        ensures held { OnOk result (IsScriptState self.new.bytes.items self.new.start) }
        ensures bytes { OnOk result (self.new.bytes.items ≡ self.old.bytes.items ++ chunk.now) }
        ensures fails { IfErr result (λ e. FailsOn (self.old.bytes.items ++ chunk.now) e) }
        ensures read { result ≢ Err RunError.Read }
    {
        let before = self.bytes.len();
        if first_or_len(b'\n', chunk) > LINE_LIMIT - (before - self.start) {
            return Err(RunError::LineTooLong {
                line: self.unfinished_line(),
            });
        }
        let Ok(()) = self.bytes.extend_from_slice(chunk) else {
            return Err(RunError::Memory {
                line: self.unfinished_line(),
            });
        };
        if let Some(at) = memrchr(b'\n', chunk) {
            self.start = before + at + 1;
        }
        Ok(())
    }
}

/// Returns the number of line feeds.
fn line_feeds(bytes: &[u8]) -> u64
    ensures count { result ≡ count_by is_line_feed bytes.now }
    ensures bounded { result ≤ length bytes.now }
{
    bytes.iter().filter(|b| **b == b'\n').count() as u64
}

/// Returns the number of the line after the last, counted from 1. Linear in the number of bytes; allocates nothing.
pub fn line_after_last(input: &[u8]) -> u64
    ensures { result ≡ length (lines_of input.now) + 1 }
{
    let whole = line_feeds(input);
    match input.last() {
        None => 1,
        Some(b'\n') => whole + 1,
        Some(_) => whole + 2,
    }
}

/// Reads all lines, unchanged, into one buffer.
///
/// Requires that no call of the reader has failed before.
///
/// # Errors
/// Fails with `Read` if reading fails, with `LineTooLong` if a line has more bytes than
/// [`LINE_LIMIT`](crate::LINE_LIMIT), and with `Memory` if an allocation fails.
///
/// # Complexity
/// Time and memory are linear in the number of bytes. Of each chunk only the first and the last line feed are searched.
pub fn read_all<R: Source>(alloc: Global, reader: &mut R) -> Result<Vec<u8>, RunError>
    requires reader { R.mark reader.old ≡ false }
    ensures all { IfOk result (λ input. ReadsAll (R.reading reader.old) (R.reading reader.new) input.items) }
    ensures fails { IfErr result (λ e.
        (given : List ℕ) × Delivers (R.reading reader.old) (R.reading reader.new) given × FailsOn given e) }
    ensures read { IsErrOf result RunError.Read ↔ IsTrue (R.mark reader.new) }
{
    let Ok(mut chunk) = vec![in alloc; 0u8; BUFFER_SIZE] else {
        return Err(RunError::Memory { line: 0 });
    };
    let mut script = Script::new(alloc);
    loop {
        match reader.read(&mut chunk) {
            Ok(0) => return Ok(script.bytes),
            Ok(count) => script.add(&chunk[..count])?,
            Err(DeviceFault) => return Err(RunError::Read),
        }
    }
}

/// Splits a text that is not empty after its first line: returns the line without its line feed, and the rest. Linear
/// in the length of the line; allocates nothing.
pub fn split_line(text: &[u8]) -> (&[u8], &[u8])
    requires { 0 < length text.now }
    ensures lines { lines_of text.now ≡ result.0.now ∷ lines_of result.1.now }
    ensures less { length result.1.now < length text.now }
{
    let (line, following) = text.split_at(first_or_len(b'\n', text));
    match following.split_first() {
        Some((_, rest)) => (line, rest),
        None => (line, following),
    }
}
