//! Parses texts and inputs, and writes sets.
ghost use Rattle.std.specs.Prelude.{◌≡◌, ◌≢◌, ◌↔◌, ◌⊎◌, false, IfErr, IfOk, IsErrOf, IsTrue};
ghost use Rattle.std.specs.String.{string_bytes};
ghost use Rattle.moc_text.specs.AsciiText.{IsTooCoarse};
ghost use Rattle.moc_forms.specs.Combining.{TextRepresents};
ghost use Rattle.moc_forms.specs.Finding.{format_for};
ghost use Rattle.moc_forms.specs.Formats.{format_text};
ghost use Rattle.moc_conversion.specs.Conversion.{FailsParsing, InputRepresents, ReportsError, input_limit};

use crate::error::InputError;
use crate::reading::{INPUT_LIMIT, read_whole};
use moc_devices::Source;
use moc_forms::{Diagnostic, Format, FormatChoice, ParsedCoverage};
use moc_ranges::{Coverage, Memory};
use moc_sphere::Order;
use moc_text::WriteError;
use std::alloc::Global;

/// Parses a text in the chosen format. If the caller counts texts, `number` is the number of this text, and an error
/// states it.
///
/// # Errors
/// Fails with the first error of the text and its position, or with `Memory`.
///
/// # Complexity
/// Time of the format's reader, and of `Diagnostic::new` for an error.
///
/// # Memory
/// Linear in the length of the text.
pub fn parse_text(
    alloc: Global,
    choice: FormatChoice,
    text: &[u8],
    number: Option<u64>,
) -> Result<ParsedCoverage, InputError>
    ensures device { IfErr result (λ e. e ≢ InputError.Read) }
    ensures represents { IfOk result (λ r. TextRepresents choice text.now r) }
    ensures reported { IfErr result (λ e.
        (e ≡ InputError.Memory) ⊎ ReportsError (format_for choice text.now) text.now number e) }
{
    let format = choice.format(text);
    match format.read(alloc, text) {
        Ok((set, moc_order)) => Ok(ParsedCoverage {
            set,
            moc_order,
            format,
        }),
        Err(error) => {
            let diagnostic = Diagnostic::new(alloc, format, text, error)?;
            Err(InputError::Text { number, diagnostic })
        }
    }
}

/// Returns the text of a set in a format. Requires that no cell is deeper than the stated order.
pub(crate) fn text_of(
    alloc: Global,
    format: Format,
    set: &Coverage,
    stated: Option<Order>,
) -> Result<String, Memory>
    requires fits { ¬ IsTooCoarse set.now stated }
    ensures text { IfOk result (λ t. string_bytes t ≡ format_text format set.now stated) }
{
    match format.write(alloc, set, stated) {
        Ok(text) => Ok(text),
        Err(WriteError::Memory) => Err(Memory),
        Err(WriteError::TooCoarse) => unreachable!(),
    }
}

/// Parses the input in the chosen format. Fails with a diagnostic of the first error and its position.
pub(crate) fn parse_input<R: Source>(
    alloc: Global,
    choice: FormatChoice,
    input: &mut R,
) -> Result<ParsedCoverage, InputError>
    requires { R.mark input.old ≡ false }
    ensures read { IsErrOf result InputError.Read ↔ IsTrue (R.mark input.new) }
    ensures error { IfErr result (FailsParsing choice (R.reading input.old) (R.reading input.new)) }
    ensures represents { IfOk result (InputRepresents input_limit choice (R.reading input.old) (R.reading input.new)) }
{
    let text = read_whole(alloc, INPUT_LIMIT, input)?;
    parse_text(alloc, choice, &text, None)
}
