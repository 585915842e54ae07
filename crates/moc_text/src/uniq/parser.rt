//! Parsing NUNIQ lists in segments.
ghost use Rattle.std.specs.Prelude.{◌≡◌, ◌++◌, ℕ, List, [], IfErr, IfSome, MatchResult, Some, Err, ◌⊎◌};
ghost use Rattle.moc_text.specs.Errors.{Fails};
ghost use Rattle.moc_text.specs.UniqList.{RepresentsUniq, uniq_error};
ghost use Rattle.moc_text.specs.Parsers.{HasParsedUniq, HasFailedUniq};
ghost use Rattle.moc_text.specs.Private.UniqSegments.{EndsBetweenLines};

use super::{UniqError, read_lines};
use moc_ranges::{Coverage, CoverageBuilder};
use std::alloc::Global;

/// Splits bytes after their first line feed.
fn split_after_first_line(bytes: &[u8]) -> Option<(&[u8], &[u8])>
    ensures { IfSome result (λ r. (bytes.now ≡ r.0.now ++ r.1.now)
        × ((before : List ℕ) → EndsBetweenLines (before ++ r.0.now))) }
{
    for (index, byte) in bytes.iter().enumerate() {
        if *byte == b'\n' {
            return Some(bytes.split_at(index + 1));
        }
    }
    None
}

/// Splits bytes after their last line feed, or before the first byte if there is none.
fn split_after_last_line(bytes: &[u8]) -> (&[u8], &[u8])
    ensures parts { bytes.now ≡ result.0.now ++ result.1.now }
    ensures ends { EndsBetweenLines result.0.now }
{
    let mut end = bytes.len();
    while end > 0 && bytes[end - 1] != b'\n' {
        end -= 1;
    }
    bytes.split_at(end)
}

/// A parser of NUNIQ lists that takes a text in segments. A segment may end anywhere, also within a number.
///
/// # Memory
/// Proportional to the set and to the longest line, not to the text.
#[derive(Drop)]
pub struct UniqParser {
    cells: CoverageBuilder,
    /// The number of the line of the pending bytes.
    line: usize,
    /// The bytes after the last line feed: a line that may be incomplete.
    pending: Vec<u8>,
    error: Option<UniqError>,
}

impl UniqParser {
    /// Returns a parser of the empty text. Does not allocate.
    pub fn new(alloc: Global) -> UniqParser
        ensures { HasParsedUniq [] result }
    {
        UniqParser {
            cells: CoverageBuilder::new(alloc),
            line: 1,
            pending: Vec::new(alloc),
            error: None,
        }
    }

    /// Parses the next segment of the text, which can have any length and end anywhere.
    ///
    /// # Errors
    /// Fails with the errors of [`read_uniq`](crate::read_uniq) as soon as an invalid line is complete. Lines are
    /// counted from 1 in the whole text. Fails with `Memory` if an allocation fails, and if the number of a line may
    /// exceed `usize::MAX`. After an error, each later call fails with the same error.
    ///
    /// # Complexity
    /// Linear in the bytes of all segments together. A segment without a line feed is only stored. The cells are added
    /// as by `read_uniq`.
    ///
    /// # Memory
    /// Proportional to the cells that are new in the set and to the longest line.
    ///
    /// # Source
    /// NUNIQ numbers are defined in MOC 2.0.
    pub fn push(&mut self, bytes: &[u8]) -> Result<(), UniqError>
        // On success, the segment is appended to the parsed text. An error is the first one of the text, whatever bytes
        // follow.
        ensures parsed { (text : List ℕ) → HasParsedUniq text self.old → MatchResult result
            (λ _. HasParsedUniq (text ++ bytes.now) self.new)
            (λ e. (e ≡ UniqError.Memory) ⊎ ((rest : List ℕ) → uniq_error (text ++ bytes.now ++ rest) ≡ Some e)) }

        // After an error, each later call returns this error.
        ensures failed { IfErr result (λ e. HasFailedUniq e self.new) }
        ensures again { (e : UniqError) → HasFailedUniq e self.old → result ≡ Err e }
    {
        if let Some(error) = self.error {
            return Err(error);
        }
        let result = self.push_segment(bytes);
        self.error = result.err();
        result
    }

    /// Parses the last line, and returns the set of the text.
    ///
    /// # Errors
    /// Fails with the errors of [`read_uniq`](crate::read_uniq) if the last line is invalid, and with `Memory` if an
    /// allocation fails. If a `push` failed, fails with the error of the `push`.
    ///
    /// # Complexity
    /// Linear in the last line and in the ranges of the set. Cells that are not sorted are merged as by `read_uniq`.
    ///
    /// # Source
    /// NUNIQ numbers are defined in MOC 2.0.
    pub fn finish(self) -> Result<Coverage, UniqError>
        ensures parsed { (text : List ℕ) → HasParsedUniq text self → MatchResult result
            (λ c. RepresentsUniq text c)
            (λ e. Fails UniqError.Memory (uniq_error text) e) }
        ensures again { (e : UniqError) → HasFailedUniq e self → result ≡ Err e }
    {
        if let Some(error) = self.error {
            return Err(error);
        }
        let mut cells = self.cells;
        read_lines(&mut cells, self.line, &self.pending)?;
        Ok(cells.build()?)
    }

    /// Parses the next segment, if no error occurred before.
    fn push_segment(&mut self, bytes: &[u8]) -> Result<(), UniqError>
        ensures { (text : List ℕ) → HasParsedUniq text self.old → MatchResult result
            (λ _. HasParsedUniq (text ++ bytes.now) self.new)
            (λ e. (e ≡ UniqError.Memory) ⊎ ((rest : List ℕ) → uniq_error (text ++ bytes.now ++ rest) ≡ Some e)) }
    {
        let Some((front, back)) = split_after_first_line(bytes) else {
            self.pending.extend_from_slice(bytes)?;
            return Ok(());
        };
        self.pending.extend_from_slice(front)?;
        let line = read_lines(&mut self.cells, self.line, &self.pending)?;
        self.pending.clear();
        let (complete, unfinished) = split_after_last_line(back);
        self.line = read_lines(&mut self.cells, line, complete)?;
        self.pending.extend_from_slice(unfinished)?;
        Ok(())
    }
}
