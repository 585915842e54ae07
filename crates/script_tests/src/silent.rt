//! Devices of std that report none of their bytes, as standard input and output do.
ghost use Rattle.std.specs.Prelude.{◌≡◌, false, OnOk};
ghost use Rattle.moc_lines.specs.Runs.{AnswersAll, answers_of};

use moc_devices::{OverReader, OverWriter, Sink, Source};
use moc_lines::{RunError, run};
use std::alloc::Global;
use std::io::{self, ErrorKind, Read, Write};

/// The largest number of bytes that one call delivers or accepts.
const MAX_READ: usize = 3;

const MAX_WRITTEN: usize = 5;

/// A reader of some bytes.
#[derive(Drop)]
pub struct SilentReader<'a> {
    pub rest: &'a [u8],
}

impl Read for SilentReader<'_> {
    fn read(&mut self, buffer: &mut [u8]) -> io::Result<usize> {
        let count = self.rest.len().min(buffer.len()).min(MAX_READ);
        let (front, rest) = self.rest.split_at(count);
        buffer[..count].copy_from_slice(front);
        self.rest = rest;
        Ok(count)
    }
}

/// A writer that keeps what it accepts.
#[derive(Drop)]
pub struct SilentWriter {
    pub bytes: Vec<u8>,
}

impl Write for SilentWriter {
    fn write(&mut self, bytes: &[u8]) -> io::Result<usize> {
        let count = bytes.len().min(MAX_WRITTEN);
        match self.bytes.extend_from_slice(&bytes[..count]) {
            Ok(()) => Ok(count),
            Err(_) => Err(ErrorKind::OutOfMemory.into()),
        }
    }

    fn flush(&mut self) -> io::Result<()> {
        Ok(())
    }
}

/// Runs a script between a reader and a writer of std, whether they report their bytes or not.
pub fn run_over_std<R: Read, W: Write>(
    alloc: Global,
    source: &mut OverReader<R>,
    sink: &mut OverWriter<W>,
) -> Result<(), RunError>
    requires source { ⟦<OverReader<R> as Source>⟧.mark source.old ≡ false }
    requires sink { ⟦<OverWriter<W> as Sink>⟧.mark sink.old ≡ false }
    ensures { OnOk result (AnswersAll answers_of
        (⟦<OverReader<R> as Source>⟧.reading source.old) (⟦<OverReader<R> as Source>⟧.reading source.new)
        (⟦<OverWriter<W> as Sink>⟧.writing sink.old) (⟦<OverWriter<W> as Sink>⟧.writing sink.new)) }
{
    run(alloc, source, sink)
}
