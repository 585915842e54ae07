//! The text formats of a coverage as one type.
ghost use Rattle.std.specs.Prelude.{◌≡◌, IfErr, IfOk};
ghost use Rattle.std.specs.String.{string_bytes};
ghost use Rattle.moc_forms.specs.Formats.{FormatFails, FormatRepresents, IsWriteError, byte_of_error, format_hint};
ghost use Rattle.moc_forms.specs.Formats.{format_text, is_memory, json_error, line_of_error, name_of_format_error};

use moc_ranges::Coverage;
use moc_sphere::{InvalidName, Order};
use moc_text::{
    JsonError, TextError, UniqError, WriteError, read_ascii, read_json, read_uniq, write_ascii,
    write_json, write_uniq,
};
use std::alloc::Global;
use std::fmt;
use std::str::FromStr;
use thiserror::Error;

/// A text format.
#[derive(Clone, Copy, Debug, PartialEq, Eq, Hash)]
pub enum Format {
    /// The ASCII format of MOC 2.0.
    Ascii,
    /// The JSON format of MOC 2.0.
    Json,
    /// A list of NUNIQ numbers, one a line.
    Uniq,
}

/// Why a text could not be parsed: the error of the parser of its format.
#[derive(Debug, Clone, Copy, PartialEq, Eq, Error)]
pub enum FormatError {
    /// An error of a text in the ASCII format.
    #[error("{0}")]
    Ascii(TextError),
    /// An error of a text in the JSON format.
    #[error("{0}")]
    Json(JsonError),
    /// An error of a NUNIQ list.
    #[error("{0}")]
    Uniq(UniqError),
}

impl FormatError {
    /// Returns the name of the error, as it is printed.
    pub fn name(self) -> &'static str
        ensures { result.now ≡ name_of_format_error self }
    {
        match self {
            FormatError::Ascii(error) => error.name(),
            FormatError::Json(error) => error.name(),
            FormatError::Uniq(error) => error.name(),
        }
    }

    /// Returns the offset of the byte at the error. Returns `None` if the errors of the format are not at bytes, or if
    /// the error has no position.
    pub(crate) fn byte(self) -> Option<usize>
        ensures { result ≡ byte_of_error self }
    {
        match self {
            FormatError::Ascii(error) => error.place(),
            _ => None,
        }
    }

    /// Returns the line of the error, counted from 1. Returns `None` if the errors of the format are not at lines, or
    /// if the error has no position.
    pub(crate) fn line(self) -> Option<usize>
        ensures { result ≡ line_of_error self }
    {
        match self {
            FormatError::Uniq(error) => error.line(),
            _ => None,
        }
    }

    /// Returns the error of a JSON text, or `None` if the text has another format.
    pub(crate) fn json(self) -> Option<JsonError>
        ensures { result ≡ json_error self }
    {
        match self {
            FormatError::Json(error) => Some(error),
            _ => None,
        }
    }

    /// Returns whether the error is an allocation failure.
    pub fn is_memory(self) -> bool
        ensures { result ≡ is_memory self }
    {
        matches!(
            self,
            FormatError::Ascii(TextError::Memory)
                | FormatError::Json(JsonError::Memory)
                | FormatError::Uniq(UniqError::Memory)
        )
    }
}

/// Parses the name of a format on the command line: `ascii`, `json` or `uniq`. Fails for any other word.
impl FromStr for Format {
    type Err = InvalidName;

    ghost use Rattle.std.specs.Prelude.{codes};
    ghost use Rattle.moc_sphere.specs.Names.{ParsesName};
    ghost use Rattle.moc_forms.specs.Formats.{format_name};

    ghost from_str_gives = { ParsesName format_name (codes "`ascii`, `json` or `uniq`") };

    fn from_str(word: &str) -> Result<Format, InvalidName> {
        match word {
            "ascii" => Ok(Format::Ascii),
            "json" => Ok(Format::Json),
            "uniq" => Ok(Format::Uniq),
            _ => Err(InvalidName {
                expected: "`ascii`, `json` or `uniq`",
            }),
        }
    }
}

/// Writes the word of the command line, which `from_str` parses.
impl fmt::Display for Format {
    ghost use Rattle.std.specs.Prelude.{Some};
    ghost use Rattle.moc_forms.specs.Formats.{format_name};

    ghost output = { λ format. Some (format_name format) };

    fn fmt<W: fmt::Write>(&self, f: &mut fmt::Formatter<W>) -> fmt::Result {
        match self {
            Format::Ascii => write!(f, "ascii"),
            Format::Json => write!(f, "json"),
            Format::Uniq => write!(f, "uniq"),
        }
    }
}

impl Format {
    /// Returns the line that states that a text looks like this format.
    pub(crate) fn hint_line(self) -> &'static str
        ensures { result.now ≡ format_hint self }
    {
        match self {
            Format::Ascii => "this looks like ASCII\n",
            Format::Json => "this looks like JSON\n",
            Format::Uniq => "this looks like a NUNIQ list\n",
        }
    }

    /// Parses a text: returns the set and the MOC order that the text states. A NUNIQ list states none.
    ///
    /// # Errors
    /// Fails with the error of the format's parser: the first error of the text, or `Memory`.
    ///
    /// # Complexity
    /// Time and memory are those of `read_ascii`, `read_json` or `read_uniq`.
    pub fn read(self, alloc: Global, text: &[u8]) -> Result<(Coverage, Option<Order>), FormatError>
        ensures represents { IfOk result (λ r. FormatRepresents self text.now r.0 r.1) }
        ensures error { IfErr result (λ e. FormatFails self text.now e) }
    {
        match self {
            Format::Ascii => read_ascii(alloc, text).map_err(FormatError::Ascii),
            Format::Json => read_json(alloc, text).map_err(FormatError::Json),
            Format::Uniq => {
                let set = read_uniq(alloc, text).map_err(FormatError::Uniq)?;
                Ok((set, None))
            }
        }
    }

    /// Returns the text of a set with a stated MOC order, ended by a line feed.
    ///
    /// # Errors
    /// Fails with `TooCoarse` if a cell is deeper than the stated order, or with `Memory`. A NUNIQ list states no order
    /// and never fails with `TooCoarse`.
    ///
    /// # Complexity
    /// Time and memory are those of `write_ascii`, `write_json` or `write_uniq`.
    pub fn write(
        self,
        alloc: Global,
        set: &Coverage,
        stated: Option<Order>,
    ) -> Result<String, WriteError>
        ensures text { IfOk result (λ t. string_bytes t ≡ format_text self set.now stated) }
        ensures error { IfErr result (λ e. IsWriteError self set.now stated e) }
    {
        let mut text = match self {
            Format::Ascii => write_ascii(alloc, set, stated)?,
            Format::Json => write_json(alloc, set, stated)?,
            // Each line of a NUNIQ list already ends with a line feed.
            Format::Uniq => return write_uniq(alloc, set).map_err(|_| WriteError::Memory),
        };
        text.push('\n')?;
        Ok(text)
    }
}
