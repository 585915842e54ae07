//! What a text must have in place of an error.
ghost use Rattle.std.specs.Prelude.{◌≡◌, ◌≤◌, length};
ghost use Rattle.std.specs.List.{after_last, before_last};
ghost use Rattle.moc_sphere.specs.Names.{is_slash};
ghost use Rattle.moc_forms.specs.Expectations.{expected_in_place_of, order_at_error as order_at_error_of};
ghost use Rattle.moc_forms.specs.Expectations.{order_at_number, order_in_force as order_in_force_of};
ghost use Rattle.moc_forms.specs.Quotes.{is_not_digit};

use crate::format::FormatError;
use crate::place::Place;
use moc_sphere::Order;
use moc_text::{JsonError, TextError, UniqError, parse_order};

/// Returns the line that states what a text must have in place of an error. Returns an empty text for `CellTooLarge`,
/// because the line depends on the order of the cells, and for `Memory`.
pub fn expected_line(error: FormatError) -> &'static str
    ensures { result.now ≡ expected_in_place_of error }
{
    match error {
        FormatError::Ascii(TextError::BadByte { .. } | TextError::Unfinished { .. }) => {
            "words look like 3/, 10, 12-14 or 3/10\n"
        }
        FormatError::Ascii(TextError::NoOrder { .. }) => "an order comes first, as in 3/\n",
        FormatError::Ascii(TextError::OrderTooLarge { .. }) => "orders go up to 29\n",
        FormatError::Ascii(TextError::Backwards { .. }) => {
            "a range goes from its first cell to its last\n"
        }
        FormatError::Json(JsonError::NotJson | JsonError::NotObject) => {
            "a text is one object, as in {\"3\":[10,12]}\n"
        }
        FormatError::Json(JsonError::BadOrder { .. }) => "names are orders from 0 to 29\n",
        FormatError::Json(JsonError::NotArray { .. }) => {
            "the value of an order is an array, as in {\"3\":[10,12]}\n"
        }
        FormatError::Json(JsonError::NotWhole { .. }) => {
            "cells are whole numbers of at most 64 bits\n"
        }
        FormatError::Uniq(UniqError::BadByte { .. }) => "each line is one number, of digits only\n",
        FormatError::Uniq(UniqError::NotUniq { .. }) => {
            "NUNIQ numbers go from 4 to 4611686018427387903\n"
        }
        FormatError::Ascii(TextError::CellTooLarge { .. } | TextError::Memory)
        | FormatError::Json(JsonError::CellTooLarge { .. } | JsonError::Memory)
        | FormatError::Uniq(UniqError::Memory) => "",
    }
}

/// Returns the order of the cells at an error `CellTooLarge`, given the position of the error. Returns `None` for
/// another error.
pub(crate) fn order_at_error(text: &[u8], error: FormatError, place: Option<Place>) -> Option<Order>
    ensures { result ≡ order_at_error_of text.now error place }
{
    match error {
        FormatError::Ascii(TextError::CellTooLarge { at }) => order_in_force(text, at),
        FormatError::Json(JsonError::CellTooLarge { .. }) => order_of_number(place),
        _ => None,
    }
}

/// Returns the order of a number in an array, if this is the position.
fn order_of_number(place: Option<Place>) -> Option<Order>
    ensures { result ≡ order_at_number place }
{
    match place? {
        Place::Number { order, .. } => Some(order),
        _ => None,
    }
}

/// Returns the order in force at a byte of an ASCII text.
fn order_in_force(text: &[u8], at: usize) -> Option<Order>
    ensures { result ≡ order_in_force_of text.now at }
{
    let before_slash = before_last_slash(&text[..at.min(text.len())]);
    parse_order(last_digits(before_slash))
}

/// Returns the digits at the end.
fn last_digits(bytes: &[u8]) -> &[u8]
    ensures { result.now ≡ after_last is_not_digit bytes.now }
{
    &bytes[bytes.len() - last_digit_count(bytes)..]
}

/// Returns the bytes before the last slash, or nothing if there is no slash.
fn before_last_slash(bytes: &[u8]) -> &[u8]
    ensures { result.now ≡ before_last is_slash bytes.now }
{
    let following = after_last_slash_len(bytes);
    &bytes[..(bytes.len() - following).saturating_sub(1)]
}

/// Returns the number of bytes after the last slash.
#[tactic(auto, using(crate::proofs::Ends::ended_here, crate::proofs::Ends::ended_before))]
fn after_last_slash_len(bytes: &[u8]) -> usize
    ensures count { result ≡ length (after_last is_slash bytes.now) }
    ensures within { result ≤ length bytes.now }
{
    let mut count = 0;
    for byte in bytes {
        if *byte == b'/' {
            count = 0;
        } else {
            count += 1;
        }
    }
    count
}

/// Returns the number of digits at the end.
#[tactic(auto, using(crate::proofs::Ends::ended_here, crate::proofs::Ends::ended_before))]
fn last_digit_count(bytes: &[u8]) -> usize
    ensures count { result ≡ length (after_last is_not_digit bytes.now) }
    ensures within { result ≤ length bytes.now }
{
    let mut count = 0;
    for byte in bytes {
        if byte.is_ascii_digit() {
            count += 1;
        } else {
            count = 0;
        }
    }
    count
}
