//! The words and numbers of a line.
ghost use Rattle.std.specs.Prelude.{◌≡◌, ◌-◌, ◌^◌, ◌<◌, ◌≤◌, length, min};
ghost use Rattle.std.specs.List.{prefix_len, position_or_len};
ghost use Rattle.std.specs.Option.{option_map};
ghost use Rattle.std.specs.Str.{bytes_eq};
ghost use Rattle.moc_lines.specs.Language.{is_line_blank, is_blank_text, without_blanks, word_of, after_word};
ghost use Rattle.moc_lines.specs.Language.{decimal_value};

/// Returns whether a byte is a blank: a space, a tab or a CR.
fn is_line_blank(byte: u8) -> bool
    ensures { result ≡ is_line_blank byte }
{
    matches!(byte, b' ' | b'\t' | b'\r')
}

/// Returns whether a text is empty or consists of blanks: spaces, tabs and CRs. Linear in the number of leading blanks;
/// allocates nothing.
pub fn is_blank_text(text: &[u8]) -> bool
    ensures { result ≡ is_blank_text text.now }
{
    text.iter().all(|byte| is_line_blank(*byte))
}

/// Returns the number of leading blanks of a text.
pub(crate) fn blanks_in_front(text: &[u8]) -> usize
    ensures count { result ≡ prefix_len is_line_blank text.now }
    ensures within { result ≤ length text.now }
{
    let mut count = 0;
    for byte in text {
        if !is_line_blank(*byte) {
            break;
        }
        count += 1;
    }
    count
}

/// Returns the number of bytes before the first blank of a text.
fn bytes_before_blank(text: &[u8]) -> usize
    ensures count { result ≡ position_or_len is_line_blank text.now }
    ensures within { result ≤ length text.now }
{
    let mut count = 0;
    for byte in text {
        if is_line_blank(*byte) {
            break;
        }
        count += 1;
    }
    count
}

/// Returns a text without its leading blanks.
pub(crate) fn without_blanks(text: &[u8]) -> &[u8]
    ensures { result.now ≡ without_blanks text.now }
{
    text.split_at(blanks_in_front(text)).1
}

/// Skips leading blanks and splits a text after its first word: returns the word and the rest. Linear in the length of
/// both; allocates nothing.
pub fn split_word(text: &[u8]) -> (&[u8], &[u8])
    ensures word { result.0.now ≡ word_of text.now }
    ensures following { result.1.now ≡ after_word text.now }
{
    let front = without_blanks(text);
    front.split_at(bytes_before_blank(front))
}

/// Returns whether a word is the given one, such as the name of a command or a step. Linear in the length of the word;
/// allocates nothing.
pub fn is_word(word: &[u8], this: &str) -> bool
    ensures { result ≡ bytes_eq word.now this.now }
{
    word == this.as_bytes()
}

/// The maximal number of digits with which every number fits into 64 bits.
pub(crate) const SAFE_DIGITS: usize = 19;

/// Parses a decimal number; returns `u64::MAX` for larger numbers, and `None` if the field is not a number. Linear in
/// the length of the field; allocates nothing.
pub fn parse_decimal(field: &[u8]) -> Option<u64>
    ensures { result ≡ option_map (λ n. min n (2 ^ 64 - 1)) (decimal_value field.now) }
{
    if field.len() <= SAFE_DIGITS {
        parse_short_decimal(field)
    } else {
        parse_long_decimal(field)
    }
}

/// Parses a number of at most `SAFE_DIGITS` digits, which fits into 64 bits.
pub(crate) fn parse_short_decimal(field: &[u8]) -> Option<u64>
    requires short { length field.now ≤ SAFE_DIGITS }
    ensures number { result ≡ decimal_value field.now }
    ensures held { result ≡ option_map (λ n. min n (2 ^ 64 - 1)) (decimal_value field.now) }
{
    if field.is_empty() {
        return None;
    }
    let mut value: u64 = 0;
    for byte in field {
        if !byte.is_ascii_digit() {
            return None;
        }
        value = value * 10 + u64::from(*byte - b'0');
    }
    Some(value)
}

/// Parses a longer number; returns `u64::MAX` if it does not fit into 64 bits.
fn parse_long_decimal(field: &[u8]) -> Option<u64>
    requires long { SAFE_DIGITS < length field.now }
    ensures { result ≡ option_map (λ n. min n (2 ^ 64 - 1)) (decimal_value field.now) }
{
    let mut value: u64 = 0;
    for byte in field {
        if !byte.is_ascii_digit() {
            return None;
        }
        value = value
            .saturating_mul(10)
            .saturating_add(u64::from(*byte - b'0'));
    }
    Some(value)
}
