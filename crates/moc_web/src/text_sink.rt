//! A sink that keeps the bytes that it accepts.
ghost use Rattle.std.specs.Prelude.{◌≡◌, [], None, Some, false};

use moc_devices::{DeviceFault, Sink};
use std::alloc::Global;

/// A [`Sink`] that keeps the bytes that it accepts in memory. A call fails if an allocation fails.
#[derive(Drop)]
pub(crate) struct TextSink {
    pub(crate) text: Vec<u8>,
    is_marked: bool,
    is_flushed: bool,
}

impl TextSink {
    /// Returns a sink that has accepted nothing.
    pub(crate) fn new(alloc: Global) -> TextSink
        ensures empty { result.text.items ≡ [] }
        ensures unmarked { ⟦<TextSink as Sink>⟧.mark result ≡ false }
    {
        TextSink {
            text: Vec::new(alloc),
            is_marked: false,
            is_flushed: false,
        }
    }
}

impl Sink for TextSink {
    ghost writing = { λ s. record { accepted = s.text.items; written = Some s.text.items } };

    ghost mark = { λ s. s.is_marked };

    ghost flushed = { λ s. s.is_flushed };

    ghost flushes = { λ _. None };

    fn write(&mut self, bytes: &[u8]) -> Result<usize, DeviceFault> {
        if self.text.extend_from_slice(bytes).is_err() {
            self.is_marked = true;
            return Err(DeviceFault);
        }
        if !bytes.is_empty() {
            self.is_flushed = false;
        }
        Ok(bytes.len())
    }

    fn flush(&mut self) -> Result<(), DeviceFault> {
        self.is_flushed = true;
        Ok(())
    }

    fn is_marked(&self) -> bool {
        self.is_marked
    }
}
