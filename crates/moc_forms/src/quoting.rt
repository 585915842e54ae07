//! Quotes of the faulty part of a text.
ghost use Rattle.std.specs.Prelude.{◌≡◌, ◌++◌, ◌<◌, ◌≤◌, ℕ, List, Option, [], drop, length, option_map, slice_index_or};
ghost use Rattle.std.specs.Prelude.{◌∷◌, take, IfOk, OnOk};
ghost use Rattle.std.specs.List.{after_last, before_first, position_or_len};
ghost use Rattle.std.specs.String.{string_bytes};
ghost use Rattle.moc_text.specs.Ascii.{is_separator as is_separator_byte};
ghost use Rattle.moc_text.specs.Lines.{is_line_feed, lines_of};
ghost use Rattle.moc_forms.specs.Quotes.{IsJsonPart, IsQuote, byte_quoted, bytes_quoted, hex_digit, is_not_digit};
ghost use Rattle.moc_forms.specs.Quotes.{is_plain as is_plain_byte, line_numbered, max_quote_bytes, omission};
ghost use Rattle.moc_forms.specs.Quotes.{quote_start as quote_start_of, quote_text, quoted_at, word_around};

use crate::format::FormatError;
use moc_ranges::Memory;
use moc_text::{JsonError, is_separator, json_content_at};
use std::alloc::{AllocError, Global};

/// The maximal number of bytes of a text that a quote shows.
const MAX_QUOTE_BYTES: usize = 40;

/// Returns a quote of the faulty part of a text: the word of an ASCII text, the line of a NUNIQ list, the name of a
/// JSON object or the item of its array as `serde_json` writes it. A quote shows at most 40 bytes of the part, between
/// backquotes, and among them the byte at the error. A byte that is not printable ASCII, a backslash or a backquote is
/// written as `\x` and two hexadecimal digits in lower case. `..` stands for bytes that are left out before or after.
/// Returns `None` if the error has no position.
///
/// # Errors
/// Fails with `Memory` if an allocation fails.
///
/// # Complexity
/// Linear in the length of the text. A JSON text is parsed again.
pub fn quote(alloc: Global, text: &[u8], error: FormatError) -> Result<Option<String>, Memory>
    ensures { IfOk result (λ quote. IsQuote text.now error (option_map string_bytes quote)) }
{
    if let Some(error) = error.json() {
        return match json_piece(alloc, text, error)? {
            Some(piece) => Ok(Some(quote_of(alloc, piece.as_bytes(), 0)?)),
            None => Ok(None),
        };
    }
    if let Some(at) = error.byte() {
        let word = word_around_place(text, at);
        return Ok(Some(quote_of(alloc, word, offset_in_word(text, at))?));
    }
    let Some(number) = error.line() else {
        return Ok(None);
    };
    let line = line_at(text, number);
    Ok(Some(quote_of(alloc, line, leading_digit_count(line))?))
}

/// Returns the quote of a part of a text around a position.
fn quote_of(alloc: Global, piece: &[u8], at: usize) -> Result<String, AllocError>
    ensures { IfOk result (λ quote. string_bytes quote ≡ quote_text piece.now at) }
{
    let mut text = String::new(alloc);
    let (before, following) = piece.split_at(quote_start(piece, at));
    push_omission(&mut text, before.len())?;
    push_quoted(&mut text, following)?;
    push_omission(&mut text, following.len().saturating_sub(MAX_QUOTE_BYTES))?;
    Ok(text)
}

/// Returns the number of bytes that a quote leaves out before the first one that it shows.
fn quote_start(piece: &[u8], at: usize) -> usize
    ensures value { result ≡ quote_start_of piece.now at }
    ensures within { result ≤ length piece.now }
{
    at.saturating_sub(MAX_QUOTE_BYTES / 2)
        .min(piece.len().saturating_sub(MAX_QUOTE_BYTES))
}

/// Appends two points if bytes are left out.
fn push_omission(text: &mut String, count: usize) -> Result<(), AllocError>
    ensures { OnOk result (string_bytes text.new ≡ string_bytes text.old ++ omission count) }
{
    if count == 0 {
        return Ok(());
    }
    text.push_str("..")
}

/// Appends the first bytes in quoted form, between backquotes.
fn push_quoted(text: &mut String, bytes: &[u8]) -> Result<(), AllocError>
    ensures { OnOk result (string_bytes text.new
        ≡ string_bytes text.old ++ (96 ∷ bytes_quoted (take max_quote_bytes bytes.now) ++ 96 ∷ [])) }
{
    text.push('`')?;
    push_bytes(text, &bytes[..bytes.len().min(MAX_QUOTE_BYTES)])?;
    text.push('`')
}

/// Appends bytes in quoted form.
#[tactic(auto, unfolding(crate::specs::Quotes::bytes_quoted))]
fn push_bytes(text: &mut String, bytes: &[u8]) -> Result<(), AllocError>
    ensures { OnOk result (string_bytes text.new ≡ string_bytes text.old ++ bytes_quoted bytes.now) }
{
    for byte in bytes {
        push_byte(text, *byte)?;
    }
    Ok(())
}

/// Appends a byte in quoted form.
fn push_byte(text: &mut String, byte: u8) -> Result<(), AllocError>
    ensures { OnOk result (string_bytes text.new ≡ string_bytes text.old ++ byte_quoted byte) }
{
    if is_plain(byte) {
        return text.push(char::from(byte));
    }
    text.push_str("\\x")?;
    text.push(char::from(hex(byte / 16)))?;
    text.push(char::from(hex(byte % 16)))
}

/// Returns whether a byte is quoted unchanged.
fn is_plain(byte: u8) -> bool
    ensures { result ≡ is_plain_byte byte }
{
    (b' '..=b'~').contains(&byte) && byte != b'\\' && byte != b'`'
}

/// Returns the hexadecimal digit of a number.
fn hex(number: u8) -> u8
    requires { number < 16 }
    ensures value { result ≡ hex_digit number }
    ensures ascii { result < 128 }
{
    if number < 10 {
        b'0' + number
    } else {
        b'a' - 10 + number
    }
}

/// Returns the word around a position.
fn word_around_place(text: &[u8], at: usize) -> &[u8]
    ensures { result.now ≡ word_around text.now at }
{
    let (before, following) = text.split_at(at.min(text.len()));
    &text[before.len() - last_word_len(before)..before.len() + first_word_len(following)]
}

/// Returns the number of bytes between the start of the word around a position and this position.
fn offset_in_word(text: &[u8], at: usize) -> usize
    ensures { result ≡ length (after_last is_separator_byte (take at text.now)) }
{
    last_word_len(&text[..at.min(text.len())])
}

/// Returns the number of bytes after the last separator.
#[tactic(auto, using(crate::proofs::Ends::ended_here, crate::proofs::Ends::ended_before))]
fn last_word_len(bytes: &[u8]) -> usize
    ensures count { result ≡ length (after_last is_separator_byte bytes.now) }
    ensures within { result ≤ length bytes.now }
{
    let mut count = 0;
    for byte in bytes {
        if is_separator(*byte) {
            count = 0;
        } else {
            count += 1;
        }
    }
    count
}

/// Returns the number of bytes before the first separator.
fn first_word_len(bytes: &[u8]) -> usize
    ensures count { result ≡ position_or_len is_separator_byte bytes.now }
    ensures within { result ≤ length bytes.now }
{
    let mut count = 0;
    for byte in bytes {
        if is_separator(*byte) {
            break;
        }
        count += 1;
    }
    count
}

/// Returns the number of digits at the start of a line.
fn leading_digit_count(line: &[u8]) -> usize
    ensures { result ≡ position_or_len is_not_digit line.now }
{
    let mut count = 0;
    for byte in line {
        if !byte.is_ascii_digit() {
            break;
        }
        count += 1;
    }
    count
}

/// Returns the line with a number, counted from 1.
fn line_at(text: &[u8], line: usize) -> &[u8]
    ensures { result.now ≡ line_numbered text.now line }
{
    line_before_feed(after_line_feeds(text, line.saturating_sub(1)))
}

/// Returns the bytes after the given number of line feeds.
fn after_line_feeds(text: &[u8], feeds: usize) -> &[u8]
    ensures { before_first is_line_feed result.now ≡ slice_index_or (lines_of text.now) feeds [] }
{
    let mut left = feeds;
    let mut rest = text;
    while left > 0
        && let [byte, following @ ..] = rest
    {
        if *byte == b'\n' {
            left -= 1;
        }
        rest = following;
    }
    rest
}

/// Returns the bytes before the first line feed.
fn line_before_feed(bytes: &[u8]) -> &[u8]
    ensures { result.now ≡ before_first is_line_feed bytes.now }
{
    let mut len = 0;
    for byte in bytes {
        if *byte == b'\n' {
            break;
        }
        len += 1;
    }
    &bytes[..len]
}

/// Returns the name or the item at the error of a JSON text.
fn json_piece(alloc: Global, text: &[u8], error: JsonError) -> Result<Option<String>, Memory>
    ensures { IfOk result (λ piece. IsJsonPart text.now error (option_map string_bytes piece)) }
{
    let Some(place) = error.place() else {
        return Ok(None);
    };
    match json_content_at(alloc, text, place) {
        Ok(content) => Ok(content.text),
        Err(_) => Err(Memory),
    }
}
