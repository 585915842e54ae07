//! Conversion, description, change and check of the coverage of an input or a text.
ghost use Rattle.std.specs.Prelude.{◌≡◌, ◌≢◌, ◌↔◌, false, IfErr, IfOk, IsErrOf, IsTrue, OnOk};
ghost use Rattle.std.specs.String.{string_bytes};
ghost use Rattle.moc_conversion.specs.Conversion.{ChangesAll, ConvertsAll, DescribesAll, FailsText, IsChange};
ghost use Rattle.moc_conversion.specs.Conversion.{IsConversion, IsNotConverted, FailsParsing, IsValidInput};
ghost use Rattle.moc_conversion.specs.Conversion.{MakesFromText};
ghost use Rattle.moc_conversion.specs.Notes.{AreNotesOn, check_notes};

use crate::error::InputError;
use crate::notes::Notes;
use crate::parsing::{parse_input, parse_text, text_of};
use crate::reading::{CONVERSION_LIMIT, INPUT_LIMIT, read_whole};
use moc_devices::Source;
use moc_forms::{Change, Format, FormatChoice, describe};
use std::alloc::Global;

/// Converts the coverage of the input from one format to another. States the MOC order that the text states. An error
/// is reported without a position.
///
/// Requires that no call of the input has failed before. Reads the input to its end.
///
/// # Errors
/// Fails with `Read` if reading fails, with `TooLong` above 16 MiB, with the first error of the text, or with
/// `Memory`.
///
/// # Complexity
/// Time of the reader of one format and the writer of the other: O(n log n) for n cells, or O(n) if the cells are
/// sorted.
///
/// # Memory
/// Linear in the length of the input and the output.
pub fn convert_input<R: Source>(
    alloc: Global,
    from: Format,
    to: Format,
    input: &mut R,
) -> Result<String, InputError>
    requires { R.mark input.old ≡ false }
    ensures read { IsErrOf result InputError.Read ↔ IsTrue (R.mark input.new) }
    ensures error { IfErr result (IsNotConverted from (R.reading input.old) (R.reading input.new)) }
    ensures converts { IfOk result (λ t.
        ConvertsAll from to (R.reading input.old) (R.reading input.new) (string_bytes t)) }
{
    let text = read_whole(alloc, CONVERSION_LIMIT, input)?;
    match from.read(alloc, &text) {
        Ok((set, moc_order)) => Ok(text_of(alloc, to, &set, moc_order)?),
        Err(error) => Err(InputError::of_conversion(error)),
    }
}

/// Converts the coverage of a text to another format. States the MOC order that the text states.
///
/// # Errors
/// Fails with the first error of the text and its position, or with `Memory`.
///
/// # Complexity
/// As `convert_input`.
///
/// # Memory
/// Linear in the length of the text and the output.
pub fn convert_text(
    alloc: Global,
    choice: FormatChoice,
    to: Format,
    text: &[u8],
) -> Result<String, InputError>
    ensures error { IfErr result (FailsText choice text.now) }
    ensures converts { IfOk result (λ t. MakesFromText (IsConversion to) choice text.now (string_bytes t)) }
{
    let parsed = parse_text(alloc, choice, text, None)?;
    Ok(text_of(alloc, to, &parsed.set, parsed.moc_order)?)
}

/// Returns the statistics of the coverage of the input.
///
/// Requires that no call of the input has failed before. Reads the input to its end.
///
/// # Errors
/// Fails with `Read` if reading fails, with `TooLong` above 1 GiB, with the first error of the text, or with
/// `Memory`.
///
/// # Complexity
/// Time of the format's reader and `describe`.
///
/// # Memory
/// Linear in the length of the input and the output.
pub fn describe_input<R: Source>(
    alloc: Global,
    choice: FormatChoice,
    input: &mut R,
) -> Result<String, InputError>
    requires { R.mark input.old ≡ false }
    ensures read { IsErrOf result InputError.Read ↔ IsTrue (R.mark input.new) }
    ensures error { IfErr result (FailsParsing choice (R.reading input.old) (R.reading input.new)) }
    ensures describes { IfOk result (λ t.
        DescribesAll choice (R.reading input.old) (R.reading input.new) (string_bytes t)) }
{
    let parsed = parse_input(alloc, choice, input)?;
    Ok(describe(alloc, &parsed.set, parsed.moc_order)?)
}

/// Changes the coverage of the input. Returns the text of the result in the format in which the input was read, with
/// the MOC order that `Change::order_to_state` returns.
///
/// Requires that no call of the input has failed before. Reads the input to its end.
///
/// # Errors
/// Fails with `Read` if reading fails, with `TooLong` above 1 GiB, with the first error of the text, or with
/// `Memory`.
///
/// # Complexity
/// Time of the format's reader and writer, and one pass over the ranges.
///
/// # Memory
/// Linear in the length of the input and the output.
pub fn change_input<R: Source>(
    alloc: Global,
    change: Change,
    choice: FormatChoice,
    input: &mut R,
) -> Result<String, InputError>
    requires { R.mark input.old ≡ false }
    ensures read { IsErrOf result InputError.Read ↔ IsTrue (R.mark input.new) }
    ensures error { IfErr result (FailsParsing choice (R.reading input.old) (R.reading input.new)) }
    ensures changes { IfOk result (λ t.
        ChangesAll change choice (R.reading input.old) (R.reading input.new) (string_bytes t)) }
{
    let text = read_whole(alloc, INPUT_LIMIT, input)?;
    change_text(alloc, change, choice, &text)
}

/// Changes the coverage of a text. Returns the text of the result in the format in which the text was read, with the
/// MOC order that `Change::order_to_state` returns.
///
/// # Errors
/// Fails with the first error of the text and its position, or with `Memory`.
///
/// # Complexity
/// As `change_input`.
///
/// # Memory
/// Linear in the length of the text and the output.
pub fn change_text(
    alloc: Global,
    change: Change,
    choice: FormatChoice,
    text: &[u8],
) -> Result<String, InputError>
    ensures device { IfErr result (λ e. e ≢ InputError.Read) }
    ensures error { IfErr result (FailsText choice text.now) }
    ensures changes { IfOk result (λ t. MakesFromText (IsChange change) choice text.now (string_bytes t)) }
{
    let parsed = parse_text(alloc, choice, text, None)?;
    let after = change.apply(alloc, &parsed.set)?;
    Ok(text_of(
        alloc,
        parsed.format,
        &after,
        change.order_to_state(parsed.moc_order),
    )?)
}

/// Checks whether the input is a valid coverage. Returns the notes on its end.
///
/// Requires that no call of the input has failed before. Reads the input to its end.
///
/// # Errors
/// Fails with `Read` if reading fails, with `TooLong` above 1 GiB, with the first error of the text and its
/// position, or with `Memory`.
///
/// # Complexity
/// Time of `check`.
///
/// # Memory
/// Linear in the length of the input.
pub fn check_input<R: Source>(
    alloc: Global,
    choice: FormatChoice,
    input: &mut R,
) -> Result<Notes, InputError>
    requires { R.mark input.old ≡ false }
    ensures read { IsErrOf result InputError.Read ↔ IsTrue (R.mark input.new) }
    ensures error { IfErr result (FailsParsing choice (R.reading input.old) (R.reading input.new)) }
    ensures represents { OnOk result (IsValidInput choice (R.reading input.old) (R.reading input.new)) }
    ensures notes { IfOk result (AreNotesOn (check_notes choice) (R.reading input.old) (R.reading input.new)) }
{
    let text = read_whole(alloc, INPUT_LIMIT, input)?;
    parse_text(alloc, choice, &text, None)?;
    Ok(Notes::on_checked(choice, &text))
}
