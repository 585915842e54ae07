//! Readers of bytes.
ghost use Rattle.std.specs.Prelude.{◌≡◌, ◌≤◌, ◌||◌, Bool, [], false, IfOk, is_err, length};
ghost use Rattle.moc_devices.specs.Devices.{SourceState, Reads, found_end};

use crate::device::DeviceFault;
use crate::log::Log;
use std::io::Read;

/// A reader of bytes that remembers whether one of its calls has failed.
pub trait Source {
    /// The bytes that its reads have delivered, whether the last read found the end, and, if the source reports them,
    /// the bytes that are still to come.
    ghost reading: { Self → SourceState };

    /// Whether one of the source's calls has failed.
    ghost mark: { Self → Bool };

    /// Reads some bytes into the front of the buffer and returns their number, which is 0 only at the end of the input
    /// or if the buffer is empty.
    ///
    /// # Errors
    ///
    /// Fails with `DeviceFault` if the reader fails; then no byte is delivered.
    fn read(&mut self, buffer: &mut [u8]) -> Result<usize, DeviceFault>
        ensures count { IfOk result (λ n. n ≤ length buffer.new) }
        ensures bytes { Reads (reading self.old) (reading self.new) result buffer.new }
        ensures ended { (reading self.new).ended ≡ found_end result buffer.new }
        ensures marks { mark self.new ≡ (mark self.old || is_err result) };

    /// Returns whether one of the source's calls has failed.
    fn is_marked(&self) -> bool
        ensures { result ≡ mark self.now };
}

/// A [`Source`] over a reader of std, such as standard input.
#[derive(Drop)]
pub struct OverReader<R> {
    reader: R,
    is_marked: bool,
    /// Whether the last read found the end.
    is_ended: bool,
    /// The bytes that the reader delivered.
    log: Log,
}

impl<R: Read> OverReader<R> {
    /// Returns a source over a reader: no call has failed, and nothing is delivered yet.
    pub fn new(reader: R) -> OverReader<R>
        ensures unmarked { ⟦<OverReader<R> as Source>⟧.mark result ≡ false }
        ensures nothing { (⟦<OverReader<R> as Source>⟧.reading result).delivered ≡ [] }
        ensures unended { (⟦<OverReader<R> as Source>⟧.reading result).ended ≡ false }
        ensures left { (⟦<OverReader<R> as Source>⟧.reading result).left ≡ R.remaining reader }
    {
        OverReader {
            reader,
            is_marked: false,
            is_ended: false,
            log: Log::new(),
        }
    }
}

impl<R: Read> Source for OverReader<R> {
    ghost reading = { λ s. record { delivered = s.log.bytes; ended = s.is_ended; left = R.remaining s.reader } };

    ghost mark = { λ s. s.is_marked };

    fn read(&mut self, buffer: &mut [u8]) -> Result<usize, DeviceFault> {
        match self.reader.read(buffer) {
            Ok(count) => {
                self.is_ended = count == 0 && !buffer.is_empty();
                self.log.note(&buffer[..count]);
                Ok(count)
            }
            Err(_) => {
                self.is_ended = false;
                self.is_marked = true;
                Err(DeviceFault)
            }
        }
    }

    fn is_marked(&self) -> bool {
        self.is_marked
    }
}
