//! Pictures of the one or two coverages of an input.
ghost use Rattle.std.specs.Prelude.{◌≡◌, ◌≢◌, ◌↔◌, ◌⊎◌, false, IfErr, IfOk, IsErrOf, IsTrue, option_map};
ghost use Rattle.std.specs.String.{string_bytes};
ghost use Rattle.std.specs.List.{before_first};
ghost use Rattle.moc_text.specs.Lines.{is_semicolon};
ghost use Rattle.moc_conversion.specs.Conversion.{DrawsAll, IsNotDrawn};
ghost use Rattle.moc_conversion.specs.Conversion.{IsPictureOf, ReportsFirstOfTexts, second_text};

use crate::error::InputError;
use crate::parsing::parse_text;
use crate::reading::{INPUT_LIMIT, read_whole, split_at_semicolon};
use moc_devices::Source;
use moc_forms::{FormatChoice, PictureNames, draw, draw_two, is_blank};
use std::alloc::Global;

/// Returns the picture of the coverage of the input, or of the two coverages that its first semicolon separates, with
/// names of the coverages. One coverage has the first name, and the second name is not used.
///
/// Requires that no call of the input has failed before. Reads the input to its end.
///
/// # Errors
/// Fails with `Read` if reading fails, with `TooLong` above 1 GiB, with the first error of a text, or with
/// `Memory`.
///
/// # Complexity
/// Time of the format's reader, and of `draw` or `draw_two`.
///
/// # Memory
/// Linear in the length of the input and the output.
pub fn draw_input<R: Source>(
    alloc: Global,
    choice: FormatChoice,
    names: PictureNames<'_>,
    input: &mut R,
) -> Result<String, InputError>
    requires { R.mark input.old ≡ false }
    ensures read { IsErrOf result InputError.Read ↔ IsTrue (R.mark input.new) }
    ensures error { IfErr result (IsNotDrawn choice (R.reading input.old) (R.reading input.new)) }
    ensures draws { IfOk result (λ t.
        DrawsAll choice names.entry (R.reading input.old) (R.reading input.new) (string_bytes t)) }
{
    let text = read_whole(alloc, INPUT_LIMIT, input)?;
    draw_texts(alloc, choice, names, &text)
}

/// Returns the picture of the coverage of a text, or of the two coverages that its first semicolon separates. The names
/// are those of [`draw_input`].
///
/// # Errors
/// Fails with the first error of the first invalid text, or with `Memory`.
///
/// # Complexity
/// As `draw_input`.
///
/// # Memory
/// Linear in the length of the text and the output.
pub fn draw_texts(
    alloc: Global,
    choice: FormatChoice,
    names: PictureNames<'_>,
    text: &[u8],
) -> Result<String, InputError>
    ensures device { IfErr result (λ e. e ≢ InputError.Read) }
    ensures error { IfErr result (λ e. (e ≡ InputError.Memory)
        ⊎ ReportsFirstOfTexts choice (before_first is_semicolon text.now) (second_text text.now) e) }
    ensures picture { IfOk result (λ t.
        IsPictureOf choice names.entry (before_first is_semicolon text.now) (second_text text.now) (string_bytes t)) }
{
    let (first, second) = picture_texts(text);
    let Some(second) = second else {
        let parsed = parse_text(alloc, choice, first, None)?;
        return Ok(draw(alloc, &parsed.set, names.first)?);
    };
    let one = parse_text(alloc, choice, first, Some(1))?;
    let other = parse_text(alloc, choice, second, Some(2))?;
    Ok(draw_two(alloc, &one.set, &other.set, names)?)
}

/// Returns the text, or the two texts that its first semicolon separates. Blanks after the semicolon do not count as a
/// text.
fn picture_texts(text: &[u8]) -> (&[u8], Option<&[u8]>)
    ensures first { before_first is_semicolon text.now ≡ result.0.now }
    ensures second { second_text text.now ≡ option_map (λ second. second.now) result.1 }
{
    let Some((first, following)) = split_at_semicolon(text) else {
        return (text, None);
    };
    if is_blank(following) {
        return (first, None);
    }
    (first, Some(following))
}
