//! Lists of NUNIQ numbers: one cell on each line.
ghost use Rattle.std.specs.Prelude.{◌≡◌, ◌++◌, ◌<◌, ◌∷◌, [], decimal, IfErr, IfOk, length, MatchResult, OnOk};
ghost use Rattle.std.specs.List.{flat_map};
ghost use Rattle.std.specs.Option.{option_copied};
ghost use Rattle.std.specs.String.{string_bytes};
ghost use Rattle.moc_sphere.specs.CellNumber.{uniq_of};
ghost use Rattle.moc_lists.specs.RangeList.{NumberSet};
ghost use Rattle.moc_text.specs.Lines.{lines_of};
ghost use Rattle.moc_text.specs.Names.{name_of_uniq};
ghost use Rattle.moc_text.specs.Places.{error_line};
ghost use Rattle.moc_text.specs.Private.UniqReading.{after_line_feed, AreLinesRead, IsLineRead};
ghost use Rattle.moc_text.specs.Errors.{Fails};
ghost use Rattle.moc_ranges.specs.Errors.{first_error_of};
ghost use Rattle.moc_text.specs.UniqList.{RepresentsUniq, uniq_error, uniq_line_error, uniq_text};

mod parser;

use crate::ascii::digits;
use itoa::Buffer;
use moc_ranges::{Coverage, CoverageBuilder, Memory as OutOfMemory};
use moc_sphere::Cell;
pub use parser::UniqParser;
use std::alloc::{AllocError, Global};
use thiserror::Error;

/// The reason why a text is not a valid NUNIQ list. Lines are counted from 1.
#[derive(Debug, Clone, Copy, PartialEq, Eq, Error)]
pub enum UniqError {
    /// A line has a byte that is not a digit.
    #[error("unexpected byte in line {line}")]
    BadByte {
        /// The number of the line.
        line: usize,
    },
    /// The number on a line is below 4, or 2^62 or above.
    #[error("invalid NUNIQ number in line {line}")]
    NotUniq {
        /// The number of the line.
        line: usize,
    },
    /// An allocation failed.
    #[error("out of memory")]
    Memory,
}

impl UniqError {
    /// Returns the printed name of the error.
    pub fn name(self) -> &'static str
        ensures { result.now ≡ name_of_uniq self }
    {
        match self {
            UniqError::BadByte { .. } => "BadByte",
            UniqError::NotUniq { .. } => "NotUniq",
            UniqError::Memory => "Memory",
        }
    }

    /// Returns the number of the invalid line, counted from 1, or `None` for `Memory`.
    pub fn line(self) -> Option<usize>
        ensures { result ≡ error_line self }
    {
        match self {
            UniqError::BadByte { line } | UniqError::NotUniq { line } => Some(line),
            UniqError::Memory => None,
        }
    }
}

impl From<AllocError> for UniqError {
    ghost use Rattle.std.specs.Prelude.{◌≡◌};
    ghost use Rattle.moc_text.specs.declared.uniq.UniqError.TheVariants.{Memory};

    ghost from_gives = { λ _ e. e ≡ Memory };

    fn from(_error: AllocError) -> UniqError {
        UniqError::Memory
    }
}

impl From<OutOfMemory> for UniqError {
    ghost use Rattle.std.specs.Prelude.{◌≡◌};
    ghost use Rattle.moc_text.specs.declared.uniq.UniqError.TheVariants.{Memory};

    ghost from_gives = { λ _ e. e ≡ Memory };

    fn from(_error: OutOfMemory) -> UniqError {
        UniqError::Memory
    }
}

/// Returns the bytes after the end of the line, if the line ends here.
fn after_line(bytes: &[u8]) -> Option<&[u8]>
    ensures { option_copied result ≡ after_line_feed bytes.now }
{
    match bytes {
        [] => Some(bytes),
        [b'\n', rest @ ..] => Some(rest),
        _ => None,
    }
}

/// Reads the first line, adds its cell unless the line is empty, and returns the bytes after the line.
fn read_line<'a>(
    cells: &mut CoverageBuilder,
    line: usize,
    bytes: &'a [u8],
) -> Result<&'a [u8], UniqError>
    requires { 0 < length bytes.now }
    ensures { MatchResult result
        (λ rest. IsLineRead line bytes.now cells.old rest.now cells.new)
        (λ e. Fails UniqError.Memory (first_error_of uniq_line_error line (lines_of bytes.now)) e) }
{
    let (value, after) = digits(bytes);
    let Some(rest) = after_line(after) else {
        return Err(UniqError::BadByte { line });
    };
    if after.len() == bytes.len() {
        return Ok(rest);
    }
    let Ok(cell) = Cell::from_uniq(value) else {
        return Err(UniqError::NotUniq { line });
    };
    cells.add_cell(cell)?;
    Ok(rest)
}

/// Parses lines, of which the first has the number `first`, and adds their cells. Returns the number of the next line.
/// Fails with `Memory` if a number of a line may exceed `usize::MAX`.
pub fn read_lines(
    cells: &mut CoverageBuilder,
    first: usize,
    bytes: &[u8],
) -> Result<usize, UniqError>
    ensures { MatchResult result
        (λ line. AreLinesRead first bytes.now cells.old line [] cells.new)
        (λ e. Fails UniqError.Memory (first_error_of uniq_line_error first (lines_of bytes.now)) e) }
{
    if first.checked_add(bytes.len()).is_none() {
        return Err(UniqError::Memory);
    }
    let mut line = first;
    let mut rest = bytes;
    while !rest.is_empty() {
        rest = read_line(cells, line, rest)?;
        line += 1;
    }
    Ok(line)
}

/// Parses a NUNIQ list: a text with the NUNIQ number of a cell on each line. Numbers may be in any order. A line ends
/// with LF, and empty lines are skipped.
///
/// # Errors
/// Reports the first invalid line. Fails with `BadByte` if the line has a byte that is not a digit, with `NotUniq` if
/// its number is below 4, or 2^62 or above, and with `Memory` if an allocation fails.
///
/// # Complexity
/// One pass over the text. The cells are added to a `CoverageBuilder`, in O(n log n), or in O(n) if they are sorted.
///
/// # Memory
/// Proportional to the set, not to the text.
///
/// # Source
/// NUNIQ numbers are defined in MOC 2.0.
pub fn read_uniq(alloc: Global, text: &[u8]) -> Result<Coverage, UniqError>
    // On success, the set is the one that the text represents.
    ensures set { IfOk result (λ c. RepresentsUniq text.now c) }

    // On failure, the error is the first one in the text, unless an allocation failed.
    ensures error { IfErr result (λ e. Fails UniqError.Memory (uniq_error text.now) e) }

    // Therefore a text that represents a set is parsed as this set.
    ensures reading { (a : NumberSet) → RepresentsUniq text.now a
        → MatchResult result (λ c. c ≡ a) (λ e. e ≡ UniqError.Memory) }
{
    let mut cells = CoverageBuilder::new(alloc);
    read_lines(&mut cells, 1, text)?;
    Ok(cells.build()?)
}

/// Appends the lines of cells.
fn push_numbers(text: &mut String, cells: &[Cell]) -> Result<(), AllocError>
    ensures { OnOk result (string_bytes text.new
        ≡ string_bytes text.old ++ flat_map (λ c. decimal (uniq_of c) ++ 10 ∷ []) cells.now) }
{
    for cell in cells {
        text.push_str(Buffer::new().format(cell.uniq()))?;
        text.push('\n')?;
    }
    Ok(())
}

/// Returns an upper bound for the length of the lines of ascending numbers.
fn capacity_for(cells: &[Cell]) -> usize {
    let Some(last) = cells.last() else {
        return 0;
    };
    let digits = last.uniq().ilog10() as usize + 1;
    cells.len().saturating_mul(digits + 1)
}

/// Writes the NUNIQ list of a set: the NUNIQ numbers of its cells in ascending order, each in decimal and followed by
/// LF.
///
/// # Errors
/// Fails with `Memory` if an allocation fails.
///
/// # Complexity
/// Linear in the number of cells; allocates a list of the cells.
#[tactic(auto, unfolding(crate::specs::UniqList::uniq_text))]
pub fn write_uniq(alloc: Global, set: &Coverage) -> Result<String, OutOfMemory>
    ensures text { IfOk result (λ t. string_bytes t ≡ uniq_text set.now) }

    // The written list represents the set, so that parsing it returns the set.
    ensures reads_back { IfOk result (λ t. RepresentsUniq (string_bytes t) set.now) }
{
    let cells = set.cells(alloc)?;
    let mut text = String::with_capacity(alloc, capacity_for(&cells))?;
    push_numbers(&mut text, &cells)?;
    Ok(text)
}
