//! The fields of a command or a step.
ghost use Rattle.std.specs.Prelude.{◌≡◌};
ghost use Rattle.std.specs.Result.{result_map_both};
ghost use Rattle.moc_lines.specs.Language.{only_field, two_fields};

use crate::error::LineError;
use crate::words::{is_blank_text, split_word};

/// Returns the field of a text with exactly one field; fails with `WrongCount` for any other text. Linear in the length
/// of the text; allocates nothing.
pub fn only_field(text: &[u8]) -> Result<&[u8], LineError>
    ensures { only_field text.now ≡ result_map_both (λ field. field.now) (λ error. error) result }
{
    if is_blank_text(text) {
        return Err(LineError::WrongCount);
    }
    let (field, following) = split_word(text);
    if is_blank_text(following) {
        Ok(field)
    } else {
        Err(LineError::WrongCount)
    }
}

/// Returns the fields of a text with exactly two fields; fails with `WrongCount` for any other text. Linear in the
/// length of the text; allocates nothing.
pub fn two_fields(text: &[u8]) -> Result<(&[u8], &[u8]), LineError>
    ensures { two_fields text.now ≡ result_map_both (λ fields. (fields.0.now, fields.1.now)) (λ error. error) result }
{
    let (first, rest) = split_word(text);
    if is_blank_text(rest) {
        return Err(LineError::WrongCount);
    }
    let (second, following) = split_word(rest);
    if is_blank_text(following) {
        Ok((first, second))
    } else {
        Err(LineError::WrongCount)
    }
}
