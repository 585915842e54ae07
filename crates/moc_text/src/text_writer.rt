//! A buffered writer for texts.
ghost use Rattle.std.specs.Prelude.{◌≡◌, ◌+◌, ◌<◌, ◌≤◌, ◌++◌, [], ◌∷◌, List, decimal, IfOk, length, OnErr, OnOk};
ghost use Rattle.std.specs.Prelude.{take, ℕ};
ghost use Rattle.std.specs.Str.{IsAscii};
ghost use Rattle.std.specs.String.{string_bytes};

use itoa::write_digits;
use std::alloc::AllocError;
use std::marker::Model;
use std::str::from_utf8_unchecked;

/// The capacity of the buffer in bytes.
const BUFFER_SIZE: usize = 1024;

/// The maximum length of a number and the byte before it.
const MAX_NUMBER_LENGTH: usize = 21;

/// A text that grows at its end: a string, or a list of bytes.
pub trait GrowingText: Drop {
    /// The bytes of the text.
    ghost bytes: { Self → List ℕ };

    /// Appends ASCII bytes. Fails if an allocation fails; the text is then unchanged.
    fn push_ascii(&mut self, part: &[u8]) -> Result<(), AllocError>
        requires { IsAscii part.now }
        ensures pushed { OnOk result (bytes self.new ≡ bytes self.old ++ part.now) }
        ensures unchanged { OnErr result (bytes self.new ≡ bytes self.old) };
}

impl GrowingText for String {
    ghost bytes = { λ text. string_bytes text };

    fn push_ascii(&mut self, part: &[u8]) -> Result<(), AllocError> {
        self.push_str(unsafe { from_utf8_unchecked(part) })
    }
}

impl GrowingText for Vec<u8> {
    ghost bytes = { λ text. text.items };

    fn push_ascii(&mut self, part: &[u8]) -> Result<(), AllocError> {
        self.extend_from_slice(part)
    }
}

/// A text under construction. Numbers are collected in a buffer and appended to the text when the buffer is full.
#[derive(Drop)]
pub struct TextWriter<T: GrowingText> {
    text: T,
    pending: [u8; BUFFER_SIZE],
    /// The number of bytes in the buffer.
    len: usize,
}

impl<T: GrowingText> Model for TextWriter<T> {
    ghost use Rattle.std.specs.Prelude.{List, ℕ, ◌≡◌, ◌++◌, ◌≤◌, length, take};
    ghost use Rattle.std.specs.Str.{IsAscii};

    ghost Value = { List ℕ };

    ghost view = { λ w. T.bytes w.text ++ take w.len w.pending };

    ghost invariant = { λ w. (length w.pending ≡ 1024) × (w.len ≤ 1024) × IsAscii (take w.len w.pending) };
}

/// Returns the number of decimal digits of a number.
#[inline(always)]
fn digit_count(number: u64) -> usize
    ensures { result ≡ length (decimal number) }
{
    match number.checked_ilog10() {
        Some(log) => log as usize + 1,
        None => 1,
    }
}

/// Writes a byte and a number at an index of a buffer, and returns the index after them.
#[inline(always)]
fn write_number(buffer: &mut [u8; BUFFER_SIZE], at: usize, before: u8, number: u64) -> usize
    requires { at + 21 ≤ 1024 }
    ensures written { take result buffer.new ≡ take at buffer.old ++ before ∷ decimal number }
    ensures within { result ≤ 1024 }
{
    buffer[at] = before;
    let end = at + 1 + digit_count(number);
    write_digits(number, buffer, end);
    end
}

/// Flushes the buffer to the text if it has no capacity left for a number, and returns the number of bytes that remain
/// in the buffer.
#[inline(always)]
fn flush_if_full<T: GrowingText>(
    text: &mut T,
    pending: &[u8; BUFFER_SIZE],
    len: usize,
) -> Result<usize, AllocError>
    requires within { len ≤ 1024 }
    requires ascii { IsAscii (take len pending.now) }
    ensures same { IfOk result (λ left. T.bytes text.new ++ take left pending.now
        ≡ T.bytes text.old ++ take len pending.now) }
    ensures ascii { IfOk result (λ left. IsAscii (take left pending.now)) }
    ensures capacity { IfOk result (λ left. left + 21 ≤ 1024) }
{
    if len + MAX_NUMBER_LENGTH <= BUFFER_SIZE {
        return Ok(len);
    }
    text.push_ascii(&pending[..len])?;
    Ok(0)
}

impl<T: GrowingText> TextWriter<T> {
    /// Creates a writer that continues a text.
    pub fn after(text: T) -> TextWriter<T>
        ensures { result ≡ T.bytes text }
    {
        TextWriter {
            text,
            pending: [0; BUFFER_SIZE],
            len: 0,
        }
    }

    /// Appends an ASCII string. Fails if an allocation fails.
    pub fn push_str(&mut self, part: &str) -> Result<(), AllocError>
        requires { IsAscii part.now }
        ensures { OnOk result (self.new ≡ self.old ++ part.now) }
    {
        self.text.push_ascii(&self.pending[..self.len])?;
        self.len = 0;
        self.text.push_ascii(part.as_bytes())
    }

    /// Appends a byte and a decimal number. Fails if an allocation fails.
    #[inline(always)]
    pub fn push_number(&mut self, before: u8, number: u64) -> Result<(), AllocError>
        requires { before < 128 }
        ensures { OnOk result (self.new ≡ self.old ++ before ∷ decimal number) }
    {
        let len = flush_if_full(&mut self.text, &self.pending, self.len)?;
        self.len = write_number(&mut self.pending, len, before, number);
        Ok(())
    }

    /// Returns the text. Fails if an allocation fails.
    pub fn finish(self) -> Result<T, AllocError>
        ensures { IfOk result (λ t. T.bytes t ≡ self) }
    {
        let TextWriter {
            mut text,
            pending,
            len,
        } = self;
        text.push_ascii(&pending[..len])?;
        Ok(text)
    }
}
