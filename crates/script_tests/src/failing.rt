//! Devices that move one byte a call, and fail.
ghost use Rattle.std.specs.Prelude.{◌≡◌, [], false, Some};

use moc_devices::{DeviceFault, Log, Sink, Source};
use std::alloc::Global;
use std::io::{self, ErrorKind, Read, Write};

/// The number of calls before a device fails, and the number of failures.
#[derive(Clone, Copy, Debug, PartialEq, Eq)]
pub struct Failures {
    pub calls: u64,
    pub times: u64,
}

impl Failures {
    /// Counts a call, and returns whether it fails.
    fn next(&mut self) -> bool {
        if self.calls > 0 {
            self.calls -= 1;
            return false;
        }
        let fails = self.times > 0;
        self.times = self.times.saturating_sub(1);
        fails
    }
}

/// The way in which a writer fails.
#[derive(Clone, Copy, Debug, PartialEq, Eq)]
pub enum Failure {
    /// A write returns an error.
    Error,
    /// A write accepts no byte.
    TakesNone,
    /// A flush returns an error.
    Flush,
}

/// The failures of the reader and the writer.
#[derive(Clone, Copy, Debug, PartialEq, Eq)]
pub struct Devices {
    pub reader: Failures,
    pub writer: Failures,
    pub failure: Failure,
}

/// More failures than a call can meet.
pub const PLENTY: u64 = 1 << 40;

/// Returns devices that do not fail.
pub const WORKING: Devices = Devices {
    reader: Failures { calls: 0, times: 0 },
    writer: Failures { calls: 0, times: 0 },
    failure: Failure::Error,
};

/// Returns devices whose reader fails after this number of calls, this number of times.
pub fn failing_reader(calls: u64, times: u64) -> Devices {
    Devices {
        reader: Failures { calls, times },
        ..WORKING
    }
}

/// Returns devices whose writer fails in this way after this number of calls, this number of times.
pub fn failing_writer(failure: Failure, calls: u64, times: u64) -> Devices {
    Devices {
        writer: Failures { calls, times },
        failure,
        ..WORKING
    }
}

/// A reader that delivers one byte a call, and fails as stated.
#[derive(Drop)]
pub struct FailingSource<'a> {
    bytes: &'a [u8],
    failures: Failures,
    is_marked: bool,
    is_ended: bool,
    log: Log,
}

impl<'a> FailingSource<'a> {
    /// Returns a reader of these bytes.
    pub fn new(bytes: &'a [u8], devices: Devices) -> FailingSource<'a>
        ensures { result.is_marked ≡ false }
    {
        FailingSource {
            bytes,
            failures: devices.reader,
            is_marked: false,
            is_ended: false,
            log: Log::new(),
        }
    }
}

impl Source for FailingSource<'_> {
    ghost reading = { λ s. record { delivered = s.log.bytes; ended = s.is_ended; left = Some s.bytes.now } };

    ghost mark = { λ s. s.is_marked };

    fn read(&mut self, buffer: &mut [u8]) -> Result<usize, DeviceFault> {
        self.is_ended = false;
        if self.failures.next() {
            self.is_marked = true;
            return Err(DeviceFault);
        }
        if buffer.is_empty() {
            return Ok(0);
        }
        match self.bytes.split_first() {
            None => {
                self.is_ended = true;
                Ok(0)
            }
            Some((first, others)) => {
                buffer[0] = *first;
                self.bytes = others;
                self.log.note(&buffer[..1]);
                Ok(1)
            }
        }
    }

    fn is_marked(&self) -> bool {
        self.is_marked
    }
}

/// A writer that accepts one byte a call, and fails as stated.
#[derive(Drop)]
pub struct FailingSink {
    pub taken: Vec<u8>,
    pub flushes: Option<u64>,
    failures: Failures,
    failure: Failure,
    is_marked: bool,
    is_flushed: bool,
}

impl FailingSink {
    /// Returns a writer that has accepted nothing.
    pub fn new(alloc: Global, devices: Devices) -> FailingSink
        ensures unmarked { result.is_marked ≡ false }
        ensures empty { result.taken.items ≡ [] }
    {
        FailingSink {
            taken: Vec::new(alloc),
            flushes: Some(0),
            failures: devices.writer,
            failure: devices.failure,
            is_marked: false,
            is_flushed: false,
        }
    }
}

impl Sink for FailingSink {
    ghost writing = { λ s. record { accepted = s.taken.items; written = Some s.taken.items } };

    ghost mark = { λ s. s.is_marked };

    ghost flushed = { λ s. s.is_flushed };

    ghost flushes = { λ s. s.flushes };

    fn write(&mut self, bytes: &[u8]) -> Result<usize, DeviceFault> {
        let Some(first) = bytes.first() else {
            return Ok(0);
        };
        if self.failure != Failure::Flush && self.failures.next() {
            self.is_marked = true;
            return match self.failure {
                Failure::TakesNone => Ok(0),
                _ => Err(DeviceFault),
            };
        }
        if self.taken.push(*first).is_err() {
            self.is_marked = true;
            return Err(DeviceFault);
        }
        self.is_flushed = false;
        Ok(1)
    }

    fn flush(&mut self) -> Result<(), DeviceFault> {
        self.flushes = self.flushes.and_then(|flushes| flushes.checked_add(1));
        if self.failure == Failure::Flush && self.failures.next() {
            self.is_marked = true;
            return Err(DeviceFault);
        }
        self.is_flushed = true;
        Ok(())
    }

    fn is_marked(&self) -> bool {
        self.is_marked
    }
}

/// A reader and writer of std that fails at its first call, works afterwards, and counts its calls.
#[derive(Drop)]
pub struct FailsOnce {
    pub has_failed: bool,
    pub calls: u64,
    pub flushes: u64,
}

impl FailsOnce {
    /// Counts a call, and fails at the first.
    fn call(&mut self) -> io::Result<()> {
        if self.has_failed {
            return Ok(());
        }
        self.has_failed = true;
        Err(ErrorKind::Other.into())
    }
}

impl Read for FailsOnce {
    fn read(&mut self, _buffer: &mut [u8]) -> io::Result<usize> {
        self.calls = self.calls.saturating_add(1);
        self.call()?;
        Ok(0)
    }
}

impl Write for FailsOnce {
    fn write(&mut self, bytes: &[u8]) -> io::Result<usize> {
        self.calls = self.calls.saturating_add(1);
        self.call()?;
        Ok(bytes.len())
    }

    fn flush(&mut self) -> io::Result<()> {
        self.flushes = self.flushes.saturating_add(1);
        self.call()
    }
}
