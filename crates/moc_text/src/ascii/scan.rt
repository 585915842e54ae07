//! The scanner for words. Each function takes the length of the whole text and the remaining bytes; their length
//! determines the current offset.

ghost use Rattle.std.specs.Prelude.{◌≡◌, ◌-◌, length};
ghost use Rattle.std.specs.Option.{option_copied};
ghost use Rattle.moc_text.specs.Ascii.{is_separator as is_separator_byte};
ghost use Rattle.moc_text.specs.Private.Scan.{IsScanned, is_end as is_end_of, after_byte, leading_digits, after_digits};
ghost use Rattle.moc_text.specs.Private.Scan.{saturated_value, unexpected_byte as unexpected_at};
ghost use Rattle.moc_text.specs.Private.Scan.{scan_number, scan_item};
ghost use Rattle.moc_text.specs.Private.Scan.{scan_marked, scan_word};

use crate::ascii::error::TextError;
use crate::ascii::number::{Item, Numeral, WordNumbers};

/// Returns whether a byte separates words in the ASCII format (MOC 2.0): space, comma, tab, CR or LF.
pub fn is_separator(byte: u8) -> bool
    ensures { result ≡ is_separator_byte byte }
{
    matches!(byte, b' ' | b',' | b'\t' | b'\r' | b'\n')
}

/// Returns whether a word ends before these bytes.
pub fn is_end(bytes: &[u8]) -> bool
    ensures { result ≡ is_end_of bytes.now }
{
    match bytes {
        [] => true,
        [byte, ..] => is_separator(*byte),
    }
}

/// Returns the bytes after the given byte, if they begin with it.
pub fn after(byte: u8, bytes: &[u8]) -> Option<&[u8]>
    ensures { option_copied result ≡ after_byte byte bytes.now }
{
    match bytes {
        [first, rest @ ..] if *first == byte => Some(rest),
        _ => None,
    }
}

/// Returns the offset of the first of the remaining bytes.
pub fn place(len: usize, bytes: &[u8]) -> usize
    ensures { result ≡ len - length bytes.now }
{
    len.saturating_sub(bytes.len())
}

/// Returns the error of a word that cannot be continued with these bytes.
#[tactic(auto, unfolding(crate::specs::Private::Scan::unexpected_byte))]
fn unexpected_byte(len: usize, bytes: &[u8]) -> TextError
    ensures { result ≡ unexpected_at len bytes.now }
{
    let at = place(len, bytes);
    if is_end(bytes) {
        TextError::Unfinished { at }
    } else {
        TextError::BadByte { at }
    }
}

/// Returns the value of the leading digits, or `u64::MAX` if the value is larger, and the bytes after the digits.
pub fn digits(bytes: &[u8]) -> (u64, &[u8])
    ensures value { result.0 ≡ saturated_value 0 (leading_digits bytes.now) }
    ensures rest { result.1.now ≡ after_digits bytes.now }
{
    let mut value = 0u64;
    let mut rest = bytes;
    while let [digit @ b'0'..=b'9', after @ ..] = rest {
        value = value
            .saturating_mul(10)
            .saturating_add(u64::from(*digit - b'0'));
        rest = after;
    }
    (value, rest)
}

/// Scans a number, and returns the bytes after it.
#[tactic(auto, unfolding(crate::specs::Private::Scan::scan_number))]
pub fn number(len: usize, bytes: &[u8]) -> Result<(Numeral, &[u8]), TextError>
    ensures { IsScanned (λ x. (x.0, x.1.now)) result (scan_number len bytes.now) }
{
    match bytes {
        [b'0'..=b'9', ..] => {
            let at = place(len, bytes);
            let (value, rest) = digits(bytes);
            Ok((Numeral { at, value }, rest))
        }
        _ => Err(unexpected_byte(len, bytes)),
    }
}

/// Scans an item whose first number was already scanned, and returns the bytes after it.
#[tactic(auto, unfolding(crate::specs::Private::Scan::scan_item, crate::specs::Private::Scan::finish_item))]
fn item(len: usize, first: Numeral, bytes: &[u8]) -> Result<(Item, &[u8]), TextError>
    ensures { IsScanned (λ x. (x.0, x.1.now)) result (scan_item len first bytes.now) }
{
    let (last, rest) = match after(b'-', bytes) {
        Some(rest) => {
            let (last, rest) = number(len, rest)?;
            (Some(last), rest)
        }
        None => (None, bytes),
    };
    if !is_end(rest) {
        return Err(unexpected_byte(len, rest));
    }
    Ok((Item { first, last }, rest))
}

/// Scans the rest of a word whose mark was already scanned, and returns the bytes after it.
#[tactic(auto, unfolding(crate::specs::Private::Scan::scan_marked))]
fn scan_after_mark(
    len: usize,
    mark: Numeral,
    bytes: &[u8],
) -> Result<(WordNumbers, &[u8]), TextError>
    ensures { IsScanned (λ x. (x.0, x.1.now)) result (scan_marked len mark bytes.now) }
{
    let mark = Some(mark);
    if is_end(bytes) {
        return Ok((WordNumbers { mark, item: None }, bytes));
    }
    let (first, rest) = number(len, bytes)?;
    let (item, rest) = item(len, first, rest)?;
    Ok((
        WordNumbers {
            mark,
            item: Some(item),
        },
        rest,
    ))
}

/// Scans a word, and returns the bytes after it.
#[tactic(auto, unfolding(crate::specs::Private::Scan::scan_word))]
pub fn word(len: usize, bytes: &[u8]) -> Result<(WordNumbers, &[u8]), TextError>
    ensures { IsScanned (λ x. (x.0, x.1.now)) result (scan_word len bytes.now) }
{
    if let Some(rest) = after(b's', bytes) {
        let (mark, rest) = number(len, rest)?;
        return match after(b'/', rest) {
            Some(rest) => scan_after_mark(len, mark, rest),
            None => Err(unexpected_byte(len, rest)),
        };
    }
    let (first, rest) = number(len, bytes)?;
    if let Some(rest) = after(b'/', rest) {
        return scan_after_mark(len, first, rest);
    }
    let (item, rest) = item(len, first, rest)?;
    Ok((
        WordNumbers {
            mark: None,
            item: Some(item),
        },
        rest,
    ))
}
