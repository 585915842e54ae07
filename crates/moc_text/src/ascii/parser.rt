//! Parsing the ASCII format in segments.
ghost use Rattle.std.specs.Prelude.{◌≡◌, ◌++◌, ℕ, List, [], IfErr, IfSome, MatchResult, Err, ◌⊎◌};
ghost use Rattle.moc_text.specs.Ascii.{Represents, IsFirstError};
ghost use Rattle.moc_text.specs.Reading.{IsReadingOf};
ghost use Rattle.moc_text.specs.Parsers.{HasParsed, HasFailed};
ghost use Rattle.moc_text.specs.Private.AsciiSegments.{EndsBetweenWords};

use crate::ascii::error::TextError;
use crate::ascii::reading::Reading;
use crate::ascii::scan::{is_separator, place};
use moc_ranges::Coverage;
use moc_sphere::Order;
use std::alloc::Global;

/// Splits bytes after their first separator.
fn split_after_first_separator(bytes: &[u8]) -> Option<(&[u8], &[u8])>
    ensures { IfSome result (λ r. (bytes.now ≡ r.0.now ++ r.1.now)
        × ((before : List ℕ) → EndsBetweenWords (before ++ r.0.now))) }
{
    for (index, byte) in bytes.iter().enumerate() {
        if is_separator(*byte) {
            return Some(bytes.split_at(index + 1));
        }
    }
    None
}

/// Splits bytes after their last separator, or before the first byte if there is none.
fn split_after_last_separator(bytes: &[u8]) -> (&[u8], &[u8])
    ensures parts { bytes.now ≡ result.0.now ++ result.1.now }
    ensures ends { EndsBetweenWords result.0.now }
{
    let mut end = bytes.len();
    while end > 0 && !is_separator(bytes[end - 1]) {
        end -= 1;
    }
    bytes.split_at(end)
}

/// A parser of the ASCII format that takes a text in segments. A segment may end anywhere, also within a word.
///
/// # Memory
/// Proportional to the set and to the longest word, not to the text.
#[derive(Drop)]
pub struct AsciiParser {
    reading: Reading,
    /// The bytes after the last separator: a word that may be incomplete.
    pending: Vec<u8>,
    /// The number of bytes of all segments so far.
    len: usize,
    error: Option<TextError>,
}

impl AsciiParser {
    /// Returns a parser of the empty text. Does not allocate.
    pub fn new(alloc: Global) -> AsciiParser
        ensures { HasParsed [] result }
    {
        AsciiParser {
            reading: Reading::new(alloc),
            pending: Vec::new(alloc),
            len: 0,
            error: None,
        }
    }

    /// Parses the next segment of the text, which can have any length and end anywhere.
    ///
    /// # Errors
    /// Fails with the errors of [`read_ascii`](crate::read_ascii) as soon as an invalid word is complete. Positions are
    /// offsets in the whole text. Fails with `Memory` if an allocation fails, and if the text has more than
    /// `usize::MAX` bytes. After an error, each later call fails with the same error.
    ///
    /// # Complexity
    /// Linear in the bytes of all segments together. A segment without a separator is only stored. The cells are added
    /// as by `read_ascii`.
    ///
    /// # Memory
    /// Proportional to the cells that are new in the set and to the longest word.
    ///
    /// # Source
    /// MOC 2.0, ASCII serialization.
    pub fn push(&mut self, bytes: &[u8]) -> Result<(), TextError>
        // On success, the segment is appended to the parsed text. An error is the first one of the text, whatever bytes
        // follow.
        ensures parsed { (text : List ℕ) → HasParsed text self.old → MatchResult result
            (λ _. HasParsed (text ++ bytes.now) self.new)
            (λ e. (e ≡ TextError.Memory) ⊎ ((rest : List ℕ) → IsFirstError (text ++ bytes.now ++ rest) e)) }

        // After an error, each later call returns this error.
        ensures failed { IfErr result (λ e. HasFailed e self.new) }
        ensures again { (e : TextError) → HasFailed e self.old → result ≡ Err e }
    {
        if let Some(error) = self.error {
            return Err(error);
        }
        let result = self.push_segment(bytes);
        self.error = result.err();
        result
    }

    /// Parses the last word, and returns the set and the MOC order of the text.
    ///
    /// # Errors
    /// Fails with the errors of [`read_ascii`](crate::read_ascii) if the last word is invalid, and with `Memory` if an
    /// allocation fails. If a `push` failed, fails with the error of the `push`.
    ///
    /// # Complexity
    /// Linear in the last word and in the ranges of the set. Cells that are not sorted are merged as by `read_ascii`.
    ///
    /// # Source
    /// MOC 2.0, ASCII serialization.
    pub fn finish(self) -> Result<(Coverage, Option<Order>), TextError>
        ensures parsed { (text : List ℕ) → HasParsed text self → MatchResult result
            (λ r. Represents text r.0 r.1)
            (λ e. (e ≡ TextError.Memory) ⊎ IsFirstError text e) }
        ensures reported { (text : List ℕ) → HasParsed text self → IsReadingOf text result }
        ensures again { (e : TextError) → HasFailed e self → result ≡ Err e }
    {
        if let Some(error) = self.error {
            return Err(error);
        }
        let mut reading = self.reading;
        reading.read_words(place(self.len, &self.pending), &self.pending)?;
        let set = reading.cells.build()?;
        Ok((set, reading.moc_order))
    }

    /// Parses the next segment, if no error occurred before.
    fn push_segment(&mut self, bytes: &[u8]) -> Result<(), TextError>
        ensures { (text : List ℕ) → HasParsed text self.old → MatchResult result
            (λ _. HasParsed (text ++ bytes.now) self.new)
            (λ e. (e ≡ TextError.Memory) ⊎ ((rest : List ℕ) → IsFirstError (text ++ bytes.now ++ rest) e)) }
    {
        let Some(len) = self.len.checked_add(bytes.len()) else {
            return Err(TextError::Memory);
        };
        let Some((front, back)) = split_after_first_separator(bytes) else {
            self.pending.extend_from_slice(bytes)?;
            self.len = len;
            return Ok(());
        };
        let offset = place(self.len, &self.pending);
        self.pending.extend_from_slice(front)?;
        self.reading.read_words(offset, &self.pending)?;
        self.pending.clear();
        let (complete, unfinished) = split_after_last_separator(back);
        self.reading.read_words(place(len, back), complete)?;
        self.pending.extend_from_slice(unfinished)?;
        self.len = len;
        Ok(())
    }
}
