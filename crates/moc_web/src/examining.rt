//! The statistics and the picture of one text.
ghost use Rattle.std.specs.Prelude.{IfErr, IfOk};
ghost use Rattle.std.specs.String.{string_bytes};
ghost use Rattle.moc_conversion.specs.Conversion.{FailsText, MakesFromText};
ghost use Rattle.moc_web.specs.Jobs.{Examines};

use moc_conversion::{InputError, parse_text};
use moc_forms::{FormatChoice, describe, draw};
use std::alloc::Global;

/// Returns the statistics of the coverage of a text, and then its picture. Parses the text once.
pub(crate) fn examine(
    alloc: Global,
    choice: FormatChoice,
    text: &[u8],
) -> Result<String, InputError>
    ensures error { IfErr result (FailsText choice text.now) }
    ensures examines { IfOk result (λ t. MakesFromText Examines choice text.now (string_bytes t)) }
{
    let parsed = parse_text(alloc, choice, text, None)?;
    let mut output = describe(alloc, &parsed.set, parsed.moc_order)?;
    let picture = draw(alloc, &parsed.set, None)?;
    output.push_str(picture.as_str())?;
    Ok(output)
}
