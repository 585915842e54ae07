//! Combination of coverages whose texts are separated by semicolons, computed while their bytes arrive.
ghost use Rattle.std.specs.Prelude.{◌≡◌, ◌≢◌, ◌↔◌, ◌⊎◌, ◌==◌, [], false, IfErr, IfOk, IsErrOf, IsTrue, OnOk, Some};
ghost use Rattle.std.specs.String.{string_bytes};
ghost use Rattle.moc_forms.specs.Finding.{format_for};
ghost use Rattle.moc_conversion.specs.Combining.{CombinesAll, CombinesTextsOf, FailsCombining};
ghost use Rattle.moc_conversion.specs.Combining.{IsInputCombination, IsNotCombined};
ghost use Rattle.moc_conversion.specs.Conversion.{ReportsError};
ghost use Rattle.moc_conversion.specs.Notes.{AreNotesOn, combine_notes};
ghost use Rattle.moc_conversion.specs.Private.Pieces.{HasNoSemicolon, semicolon};
ghost use Rattle.moc_conversion.specs.Private.Running.{AreRejected, BeginsCombination, EndsCombination};
ghost use Rattle.moc_conversion.specs.Private.Running.{FailsCombination, FailsWithin, IsOpen, Processes};
ghost use Rattle.moc_conversion.specs.Private.Running.{CombinesNext, finished_without_cells, notes_after, notes_of};

use crate::error::InputError;
use crate::notes::{InputNote, Notes, has_digit};
use crate::parsing::{parse_text, text_of};
use crate::reading::{INPUT_LIMIT, buffer, read_chunk, split_at_semicolon};
use moc_devices::Source;
use moc_forms::{FormatChoice, Operation, ParsedCoverage, is_blank};
use std::alloc::Global;

/// The state of a combination: the unfinished text, and the combination of the texts before it.
#[derive(Drop)]
struct Combination {
    operation: Operation,
    choice: FormatChoice,
    /// The number of the unfinished text, from 1.
    number: u64,
    /// The unfinished text.
    text: Vec<u8>,
    /// The number of the first text before it that has no cells.
    text_without_cells: Option<u64>,
    /// The combination of the texts before it; `None` if there are none.
    before: Option<ParsedCoverage>,
}

impl Combination {
    /// Returns a combination without any bytes.
    fn new(alloc: Global, operation: Operation, choice: FormatChoice) -> Combination
        ensures begins { BeginsCombination operation choice result }
    {
        Combination {
            operation,
            choice,
            number: 1,
            text: Vec::new(alloc),
            text_without_cells: None,
            before: None,
        }
    }

    /// Returns the error that the unfinished text is too long.
    fn too_long(&self) -> InputError
        ensures { result ≡ InputError.TooLong (Some self.now.number) }
    {
        InputError::TooLong {
            number: Some(self.number),
        }
    }

    /// Appends bytes without a semicolon to the unfinished text. Fails with `TooLong` if it becomes too long.
    fn extend(&mut self, bytes: &[u8]) -> Result<(), InputError>
        requires open { IsOpen self.old }
        requires no_semicolon { HasNoSemicolon bytes.now }
        ensures device { IfErr result (λ e. e ≢ InputError.Read) }
        ensures error { IfErr result (AreRejected self.old bytes.now) }
        ensures open { OnOk result (IsOpen self.new) }
        ensures processes { OnOk result (Processes self.old bytes.now self.new) }
    {
        if bytes.len() > INPUT_LIMIT - self.text.len() {
            return Err(self.too_long());
        }
        Ok(self.text.extend_from_slice(bytes)?)
    }

    /// Returns the number of the first text that has no cells, with the unfinished text.
    fn first_without_cells(&self) -> Option<u64>
        ensures { result ≡ finished_without_cells self.now }
    {
        self.text_without_cells.or(if has_digit(&self.text) {
            None
        } else {
            Some(self.number)
        })
    }

    /// Parses the unfinished text and combines it with what was read before.
    fn combine(
        &self,
        alloc: Global,
        before: Option<ParsedCoverage>,
    ) -> Result<ParsedCoverage, InputError>
        ensures device { IfErr result (λ e. e ≢ InputError.Read) }
        ensures represents { IfOk result (λ after. CombinesNext self.now before after) }
        ensures reported { IfErr result (λ e.
            (e ≡ InputError.Memory)
            ⊎ ReportsError (format_for self.now.choice self.now.text.items) self.now.text.items
            (Some self.now.number) e) }
    {
        let parsed = parse_text(alloc, self.choice, &self.text, Some(self.number))?;
        Ok(self.operation.combine(alloc, before, parsed)?)
    }

    /// Finishes the text and starts the next.
    fn finish_text(&mut self, alloc: Global) -> Result<(), InputError>
        requires { IsOpen self.old }
        ensures device { IfErr result (λ e. e ≢ InputError.Read) }
        ensures error { IfErr result (λ e. AreRejected self.old semicolon e ⊎ FailsWithin self.old semicolon e) }
        ensures open { OnOk result (IsOpen self.new) }
        ensures processes { OnOk result (Processes self.old semicolon self.new) }
    {
        let before = self.before.take();
        let parsed = self.combine(alloc, before)?;
        let Some(number) = self.number.checked_add(1) else {
            return Err(self.too_long());
        };
        self.before = Some(parsed);
        self.text_without_cells = self.first_without_cells();
        self.number = number;
        self.text.clear();
        Ok(())
    }

    /// Processes the next bytes. Each semicolon finishes a text.
    fn push_bytes(&mut self, alloc: Global, bytes: &[u8]) -> Result<(), InputError>
        requires { IsOpen self.old }
        ensures device { IfErr result (λ e. e ≢ InputError.Read) }
        ensures error { IfErr result (λ e. AreRejected self.old bytes.now e ⊎ FailsWithin self.old bytes.now e) }
        ensures open { OnOk result (IsOpen self.new) }
        ensures processes { OnOk result (Processes self.old bytes.now self.new) }
    {
        let mut rest = bytes;
        while let Some((part, following)) = split_at_semicolon(rest) {
            self.extend(part)?;
            self.finish_text(alloc)?;
            rest = following;
        }
        self.extend(rest)
    }

    /// Returns the combination of all texts after the last byte. If only blanks follow the last semicolon, they do not
    /// count as a text. The combination loses what was read before.
    fn finish(&mut self, alloc: Global) -> Result<ParsedCoverage, InputError>
        requires { IsOpen self.old }
        ensures device { IfErr result (λ e. e ≢ InputError.Read) }
        ensures error { IfErr result (λ e. (e ≡ InputError.Memory) ⊎ FailsCombination self.old [] e) }
        ensures represents { IfOk result (λ after. EndsCombination self.old [] (Some after)) }
    {
        let Some(before) = self.before.take() else {
            return self.combine(alloc, None);
        };
        if is_blank(&self.text) {
            return Ok(before);
        }
        self.combine(alloc, Some(before))
    }

    /// Returns the notes on all texts after the last byte. If only blanks follow the last semicolon, they do not count
    /// as a text.
    fn notes(&self) -> Notes
        requires { IsOpen self.now }
        ensures { result ≡ notes_after self.now [] }
    {
        if self.before.is_none() {
            return self.notes_with_text();
        }
        if is_blank(&self.text) {
            return notes_of_texts(self.number == 2, self.text_without_cells);
        }
        self.notes_with_text()
    }

    /// Returns the notes on all texts, with the unfinished text.
    fn notes_with_text(&self) -> Notes
        ensures { result ≡ notes_of (self.now.number == 1) (finished_without_cells self.now) }
    {
        notes_of_texts(self.number == 1, self.first_without_cells())
    }

    /// Returns the combination of all texts after the last byte, and the notes on them. The combination loses what was
    /// read before.
    fn finish_with_notes(&mut self, alloc: Global) -> Result<(ParsedCoverage, Notes), InputError>
        requires { IsOpen self.old }
        ensures device { IfErr result (λ e. e ≢ InputError.Read) }
        ensures error { IfErr result (λ e. (e ≡ InputError.Memory) ⊎ FailsCombination self.old [] e) }
        ensures represents { IfOk result (λ r. EndsCombination self.old [] (Some r.0)) }
        ensures notes { IfOk result (λ r. r.1 ≡ notes_after self.old []) }
    {
        let notes = self.notes();
        Ok((self.finish(alloc)?, notes))
    }
}

/// Returns the notes on texts that are combined: whether there is only one, and the first without cells.
fn notes_of_texts(is_one: bool, text_without_cells: Option<u64>) -> Notes
    ensures { result ≡ notes_of is_one text_without_cells }
{
    Notes {
        input: is_one.then_some(InputNote::OneText),
        text_without_cells,
    }
}

/// Returns the combination of the texts of the input, the deepest of their MOC orders, the format of the first, and the
/// notes on the texts.
fn read_texts<R: Source>(
    alloc: Global,
    operation: Operation,
    choice: FormatChoice,
    input: &mut R,
) -> Result<(ParsedCoverage, Notes), InputError>
    requires { R.mark input.old ≡ false }
    ensures read { IsErrOf result InputError.Read ↔ IsTrue (R.mark input.new) }
    ensures error { IfErr result (IsNotCombined choice (R.reading input.old) (R.reading input.new)) }
    ensures represents { IfOk result (λ r.
        IsInputCombination operation choice (R.reading input.old) (R.reading input.new) r.0) }
    ensures notes { IfOk result (λ r. AreNotesOn combine_notes (R.reading input.old) (R.reading input.new) r.1) }
{
    let mut buffer = buffer(alloc)?;
    let mut texts = Combination::new(alloc, operation, choice);
    let mut piece = Vec::new(alloc);
    for _piece in 0..u64::MAX {
        piece.clear();
        if !read_chunk(input, &mut buffer, &mut piece)? {
            return texts.finish_with_notes(alloc);
        }
        texts.push_bytes(alloc, &piece)?;
    }
    Err(InputError::TooLong { number: None })
}

/// Combines the texts of the input by an operation. Returns the text of the result in the format of the first text,
/// with the deepest of the MOC orders that the texts state, and the notes on the texts. An error has the number of the
/// first invalid text, from 1, and the position in it.
///
/// Requires that no call of the input has failed before. Reads the input to its end, or to its first error.
///
/// # Errors
/// Fails with `Read` if reading fails, with `TooLong` if a text has more than 1 GiB, with the first error of
/// a text, or with `Memory`.
///
/// # Complexity
/// Time of the readers of the texts, and for each text one operation on the set so far.
///
/// # Memory
/// Proportional to the longest text, the sets so far and the result.
pub fn combine_input<R: Source>(
    alloc: Global,
    operation: Operation,
    choice: FormatChoice,
    input: &mut R,
) -> Result<(String, Notes), InputError>
    requires { R.mark input.old ≡ false }
    ensures read { IsErrOf result InputError.Read ↔ IsTrue (R.mark input.new) }
    ensures error { IfErr result (IsNotCombined choice (R.reading input.old) (R.reading input.new)) }
    ensures combines { IfOk result (λ r.
        CombinesAll operation choice (R.reading input.old) (R.reading input.new) (string_bytes r.0)) }
    ensures notes { IfOk result (λ r. AreNotesOn combine_notes (R.reading input.old) (R.reading input.new) r.1) }
{
    let (parsed, notes) = read_texts(alloc, operation, choice, input)?;
    let text = text_of(alloc, parsed.format, &parsed.set, parsed.moc_order)?;
    Ok((text, notes))
}

/// Combines the texts that the semicolons of a text separate, as [`combine_input`] does.
///
/// # Errors
/// Fails with `TooLong` if one of them has more than 1 GiB, with the first error of a text, or with `Memory`.
///
/// # Complexity
/// As `combine_input`.
///
/// # Memory
/// As `combine_input`.
pub fn combine_texts(
    alloc: Global,
    operation: Operation,
    choice: FormatChoice,
    text: &[u8],
) -> Result<String, InputError>
    ensures error { IfErr result (FailsCombining choice text.now) }
    ensures combines { IfOk result (λ t. CombinesTextsOf operation choice text.now (string_bytes t)) }
{
    let mut texts = Combination::new(alloc, operation, choice);
    texts.push_bytes(alloc, text)?;
    let parsed = texts.finish(alloc)?;
    Ok(text_of(alloc, parsed.format, &parsed.set, parsed.moc_order)?)
}
