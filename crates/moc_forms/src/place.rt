//! Positions of errors in texts.
ghost use Rattle.std.specs.Prelude.{◌≡◌};
ghost use Rattle.moc_forms.specs.Places.{byte_place, place_text};

use moc_sphere::Order;
use std::fmt;

/// The position of an error in a text. Lines, and the column of `JsonSyntax`, count from 1; everything else counts
/// from 0.
#[derive(Clone, Copy, Debug, PartialEq, Eq)]
pub enum Place {
    /// A byte of an ASCII text.
    Byte {
        /// The offset in the text.
        at: usize,
        /// The number of the line.
        line: usize,
        /// The number of bytes before it in the line.
        column: usize,
    },
    /// A line of a NUNIQ list.
    Line(usize),
    /// The position at which `serde_json` stops reading.
    JsonSyntax {
        /// The number of the line.
        line: usize,
        /// The column in the line, as `serde_json` counts it.
        column: usize,
    },
    /// A name of a JSON object that is not an order, by its index in byte order.
    Name(usize),
    /// An order of a JSON object.
    Order(Order),
    /// A number in the array of an order of a JSON object.
    Number {
        /// The order.
        order: Order,
        /// The index of the number in the array.
        number: usize,
    },
}

impl Place {
    /// Returns the position of a byte, or of the end if the text is shorter. Linear in the number of bytes before it.
    #[tactic(auto, using(crate::proofs::Ends::ended_here, crate::proofs::Ends::ended_before))]
    pub fn of_byte(text: &[u8], at: usize) -> Place
        ensures { result ≡ byte_place text.now at }
    {
        let mut line = 1;
        let mut column = 0;
        for byte in &text[..at.min(text.len())] {
            if *byte == b'\n' {
                line += 1;
                column = 0;
            } else {
                column += 1;
            }
        }
        Place::Byte { at, line, column }
    }
}

/// Writes the position as `moc check` prints it.
impl fmt::Display for Place {
    ghost use Rattle.std.specs.Prelude.{Some};

    ghost output = { λ place. Some (place_text place) };

    fn fmt<W: fmt::Write>(&self, f: &mut fmt::Formatter<W>) -> fmt::Result {
        match *self {
            Place::Byte { at, line, column } => {
                write!(f, "byte {at}, line {line}, byte {column} of it")
            }
            Place::Line(line) => write!(f, "line {line}"),
            Place::JsonSyntax { line, column } => write!(f, "line {line}, column {column}"),
            Place::Name(name) => write!(f, "name {name}"),
            Place::Order(order) => write!(f, "order {order}"),
            Place::Number { order, number } => write!(f, "order {order}, number {number}"),
        }
    }
}
