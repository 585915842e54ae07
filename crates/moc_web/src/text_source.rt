//! A source of the bytes of a text in memory.
ghost use Rattle.std.specs.Prelude.{◌≡◌, [], Some, false};

use moc_devices::{DeviceFault, Log, Source};

/// A [`Source`] of the bytes of a text. No call of it fails.
#[derive(Drop)]
pub(crate) struct TextSource<'a> {
    /// The bytes that are still to come.
    rest: &'a [u8],
    /// Whether the last read found the end.
    is_ended: bool,
    /// The bytes that were delivered.
    log: Log,
}

impl<'a> TextSource<'a> {
    /// Returns a source that has delivered nothing.
    pub(crate) fn new(text: &'a [u8]) -> TextSource<'a>
        ensures unmarked { ⟦<TextSource<'a> as Source>⟧.mark result ≡ false }
        ensures left { (⟦<TextSource<'a> as Source>⟧.reading result).left ≡ Some text.now }
    {
        TextSource {
            rest: text,
            is_ended: false,
            log: Log::new(),
        }
    }
}

impl<'a> Source for TextSource<'a> {
    ghost reading = { λ s. record { delivered = s.log.bytes; ended = s.is_ended; left = Some s.rest.now } };

    ghost mark = { λ _. false };

    fn read(&mut self, buffer: &mut [u8]) -> Result<usize, DeviceFault> {
        let count = buffer.len().min(self.rest.len());
        let (piece, rest) = self.rest.split_at(count);
        buffer[..count].copy_from_slice(piece);
        self.log.note(piece);
        self.is_ended = count == 0 && !buffer.is_empty();
        self.rest = rest;
        Ok(count)
    }

    fn is_marked(&self) -> bool {
        false
    }
}
