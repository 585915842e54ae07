//! Detection of the format of a text by its first byte that is not a blank, and of what an invalid text looks like.
ghost use Rattle.std.specs.Prelude.{◌≡◌, ◌||◌};
ghost use Rattle.std.specs.Char.{is_ascii_digit};
ghost use Rattle.std.specs.List.{list_all, list_any};
ghost use Rattle.moc_text.specs.Lines.{is_line_feed};
ghost use Rattle.moc_forms.specs.Combining.{are_blanks};
ghost use Rattle.moc_forms.specs.Finding.{content_by_first_bytes, first_nonblank_byte as first_nonblank_byte_of};
ghost use Rattle.moc_forms.specs.Finding.{format_for, hint_of, hint_text, is_blank_byte as is_blank_byte_of};
ghost use Rattle.moc_forms.specs.Finding.{likely_format as likely_format_of, looks_like, looks_like_ascii};
ghost use Rattle.moc_forms.specs.Finding.{looks_like_uniq};

use crate::format::Format;
use moc_sphere::InvalidName;
use std::fmt;
use std::str::FromStr;

/// The format to read a text in: a given one, or the detected one.
#[derive(Clone, Copy, Debug, PartialEq, Eq, Hash)]
pub enum FormatChoice {
    /// The given format.
    Named(Format),
    /// JSON if the first byte that is not a blank is `{`, else ASCII.
    Auto,
}

/// Parses a choice on the command line: `auto` or the name of a format. Fails for any other word.
impl FromStr for FormatChoice {
    type Err = InvalidName;

    ghost use Rattle.std.specs.Prelude.{codes};
    ghost use Rattle.moc_sphere.specs.Names.{ParsesName};
    ghost use Rattle.moc_forms.specs.Finding.{choice_name};

    ghost from_str_gives = { ParsesName choice_name (codes "`auto`, `ascii`, `json` or `uniq`") };

    fn from_str(word: &str) -> Result<FormatChoice, InvalidName> {
        if word == "auto" {
            return Ok(FormatChoice::Auto);
        }
        match Format::from_str(word) {
            Ok(format) => Ok(FormatChoice::Named(format)),
            Err(_) => Err(InvalidName {
                expected: "`auto`, `ascii`, `json` or `uniq`",
            }),
        }
    }
}

/// Writes the word of the command line, which `from_str` parses.
impl fmt::Display for FormatChoice {
    ghost use Rattle.std.specs.Prelude.{Some};
    ghost use Rattle.moc_forms.specs.Finding.{choice_name};

    ghost output = { λ choice. Some (choice_name choice) };

    fn fmt<W: fmt::Write>(&self, f: &mut fmt::Formatter<W>) -> fmt::Result {
        match self {
            FormatChoice::Named(format) => write!(f, "{format}"),
            FormatChoice::Auto => write!(f, "auto"),
        }
    }
}

impl FormatChoice {
    /// Returns the format to read a text in. Linear in the number of leading blanks; allocates nothing.
    pub fn format(self, text: &[u8]) -> Format
        ensures { result ≡ format_for self text.now }
    {
        match self {
            FormatChoice::Named(format) => format,
            FormatChoice::Auto => match first_nonblank_byte(text) {
                Some(b'{') => Format::Json,
                _ => Format::Ascii,
            },
        }
    }
}

/// Returns the first byte that is not a blank (space, tab, CR or LF).
fn first_nonblank_byte(text: &[u8]) -> Option<u8>
    ensures { result ≡ first_nonblank_byte_of text.now }
{
    for byte in text {
        if !is_blank_byte(*byte) {
            return Some(*byte);
        }
    }
    None
}

/// Returns whether a text is empty or consists of blanks: spaces, tabs, CR and LF. After a semicolon such a text does
/// not count as a text.
///
/// Linear in the number of leading blanks; allocates nothing.
pub fn is_blank(text: &[u8]) -> bool
    ensures { result ≡ are_blanks text.now }
{
    first_nonblank_byte(text).is_none()
}

/// Returns whether a byte is a space, a tab, CR or LF.
fn is_blank_byte(byte: u8) -> bool
    ensures { result ≡ is_blank_byte_of byte }
{
    matches!(byte, b' ' | b'\t' | b'\r' | b'\n')
}

/// What a text looks like.
#[derive(Clone, Copy, Debug, PartialEq, Eq)]
pub enum Content {
    /// A coverage in a format.
    Coverage(Format),
    /// UTF-8 after a byte order mark, which no format permits.
    MarkedUtf8,
    /// UTF-16 after a byte order mark.
    Utf16,
    /// A file that `gzip` compressed.
    Gzip,
    /// A FITS file.
    Fits,
    /// HTML or XML.
    Markup,
}

/// Returns what a text looks like if this is not the given format. UTF-8 and UTF-16 with a byte order mark, gzip, FITS,
/// and HTML or XML have their first bytes. A text looks like JSON if its first byte that is not a blank is `{`. It
/// looks like ASCII if this byte is a digit, `s` or a comma, and the text has a digit and a slash. It looks like a
/// NUNIQ list if it has digits and line feeds only, and at least one digit.
///
/// Linear in the length of the text; allocates nothing.
pub fn hint(format: Format, text: &[u8]) -> Option<Content>
    ensures { result ≡ hint_of format text.now }
{
    match detect_content(text)? {
        Content::Coverage(detected) if detected == format => None,
        content => Some(content),
    }
}

/// Returns what a text looks like.
fn detect_content(text: &[u8]) -> Option<Content>
    ensures { result ≡ looks_like text.now }
{
    if let Some(content) = known_content(text) {
        return Some(content);
    }
    Some(Content::Coverage(likely_format(text)?))
}

/// Returns the content whose first bytes a text begins with.
fn known_content(text: &[u8]) -> Option<Content>
    ensures { result ≡ content_by_first_bytes text.now }
{
    if text.starts_with(b"\xEF\xBB\xBF") {
        Some(Content::MarkedUtf8)
    } else if text.starts_with(b"\xFF\xFE") || text.starts_with(b"\xFE\xFF") {
        Some(Content::Utf16)
    } else if text.starts_with(b"\x1F\x8B") {
        Some(Content::Gzip)
    } else if text.starts_with(b"SIMPLE") {
        Some(Content::Fits)
    } else if text.starts_with(b"<") {
        Some(Content::Markup)
    } else {
        None
    }
}

/// Returns the format that a text looks like.
fn likely_format(text: &[u8]) -> Option<Format>
    ensures { result ≡ likely_format_of text.now }
{
    match first_nonblank_byte(text) {
        Some(b'{') => Some(Format::Json),
        _ if is_like_ascii(text) => Some(Format::Ascii),
        _ if is_like_uniq(text) => Some(Format::Uniq),
        _ => None,
    }
}

/// Returns whether a text looks like ASCII.
fn is_like_ascii(text: &[u8]) -> bool
    ensures { result ≡ looks_like_ascii text.now }
{
    match first_nonblank_byte(text) {
        Some(b'0'..=b'9' | b's' | b',') => has_digit(text) && text.contains(&b'/'),
        _ => false,
    }
}

/// Returns whether a text looks like a NUNIQ list.
fn is_like_uniq(text: &[u8]) -> bool
    ensures { result ≡ looks_like_uniq text.now }
{
    has_digit(text) && is_digits_and_line_feeds(text)
}

/// Returns whether a text has a digit.
fn has_digit(text: &[u8]) -> bool
    ensures { result ≡ list_any is_ascii_digit text.now }
{
    for byte in text {
        if byte.is_ascii_digit() {
            return true;
        }
    }
    false
}

/// Returns whether each byte of a text is a digit or a line feed.
fn is_digits_and_line_feeds(text: &[u8]) -> bool
    ensures { result ≡ list_all (λ b. is_ascii_digit b || is_line_feed b) text.now }
{
    for byte in text {
        if !byte.is_ascii_digit() && *byte != b'\n' {
            return false;
        }
    }
    true
}

/// Returns the line that states what a text looks like.
pub fn hint_line(content: Content) -> &'static str
    ensures { result.now ≡ hint_text content }
{
    match content {
        Content::Coverage(format) => format.hint_line(),
        Content::MarkedUtf8 => "this looks like UTF-8 with a byte order mark\n",
        Content::Utf16 => "this looks like UTF-16\n",
        Content::Gzip => "this looks like gzip\n",
        Content::Fits => "this looks like FITS; python -m ploverchaise convert reads it\n",
        Content::Markup => "this looks like HTML or XML\n",
    }
}
