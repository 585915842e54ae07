//! The numberings of the cells of an order.
ghost use Rattle.std.specs.Prelude.{◌≡◌};
ghost use Rattle.moc_lines.specs.Numberings.{name_of_number_error, cell_number_in};
ghost use Rattle.moc_lines.specs.Private.Finding.{FindsCell};

use moc_sphere::{Cell, InvalidName, Order};
use std::fmt;
use std::str::FromStr;
use thiserror::Error;

/// A numbering of the cells of an order.
#[derive(Clone, Copy, Debug, PartialEq, Eq, Hash)]
pub enum Numbering {
    /// HEALPix's nested numbering scheme: from 0, base pixel by base pixel, and in each quarter by quarter.
    Nest,
    /// HEALPix's ring numbering scheme: from 0, row by row from the north pole, and eastward in a row.
    Ring,
    /// NUNIQ numbers (MOC 2.0): the nested numbers and 4^(order + 1).
    Uniq,
}

/// Parses the name of a numbering on the command line: `nest`, `ring` or `uniq`. Fails for any other word.
impl FromStr for Numbering {
    type Err = InvalidName;

    ghost use Rattle.std.specs.Prelude.{codes};
    ghost use Rattle.moc_sphere.specs.Names.{ParsesName};
    ghost use Rattle.moc_lines.specs.Numberings.{numbering_name};

    ghost from_str_gives = { ParsesName numbering_name (codes "`nest`, `ring` or `uniq`") };

    fn from_str(word: &str) -> Result<Numbering, InvalidName> {
        match word {
            "nest" => Ok(Numbering::Nest),
            "ring" => Ok(Numbering::Ring),
            "uniq" => Ok(Numbering::Uniq),
            _ => Err(InvalidName {
                expected: "`nest`, `ring` or `uniq`",
            }),
        }
    }
}

/// Writes the word of the command line, which `from_str` parses.
impl fmt::Display for Numbering {
    ghost use Rattle.std.specs.Prelude.{Some};
    ghost use Rattle.moc_lines.specs.Numberings.{numbering_name};

    ghost output = { λ numbering. Some (numbering_name numbering) };

    fn fmt<W: fmt::Write>(&self, f: &mut fmt::Formatter<W>) -> fmt::Result {
        match self {
            Numbering::Nest => write!(f, "nest"),
            Numbering::Ring => write!(f, "ring"),
            Numbering::Uniq => write!(f, "uniq"),
        }
    }
}

/// Why a line of numbers is invalid. The answer to the line states the name.
#[derive(Clone, Copy, Debug, PartialEq, Eq, Error)]
pub enum NumberError {
    /// The line has more than one field.
    #[error("more than one field on the line")]
    WrongCount,
    /// The field has a byte that is not a digit.
    #[error("invalid number")]
    BadNumber,
    /// The number is not the nested number of a cell of the order.
    #[error("nested number out of range for the order")]
    CellTooLarge,
    /// The number is not the ring number of a cell of the order.
    #[error("ring number out of range for the order")]
    RingTooLarge,
    /// The number is not the NUNIQ number of a cell.
    #[error("invalid NUNIQ number")]
    NotUniq,
    /// The number is the NUNIQ number of a cell of another order.
    #[error("NUNIQ number of another order")]
    OtherOrder,
}

impl NumberError {
    /// Returns the name of the error, as the answer to the line states it. Allocates nothing.
    pub fn name(self) -> &'static str
        ensures { result.now ≡ name_of_number_error self }
    {
        match self {
            NumberError::WrongCount => "WrongCount",
            NumberError::BadNumber => "BadNumber",
            NumberError::CellTooLarge => "CellTooLarge",
            NumberError::RingTooLarge => "RingTooLarge",
            NumberError::NotUniq => "NotUniq",
            NumberError::OtherOrder => "OtherOrder",
        }
    }
}

impl Numbering {
    /// Returns the number of a cell in this numbering.
    pub(crate) fn number(self, cell: Cell) -> u64
        ensures { result ≡ cell_number_in self cell.order cell.index }
    {
        match self {
            Numbering::Nest => cell.index(),
            Numbering::Ring => cell.ring(),
            Numbering::Uniq => cell.uniq(),
        }
    }

    /// Returns the cell of the order with this number, or the error.
    pub(crate) fn cell(self, order: Order, number: u64) -> Result<Cell, NumberError>
        ensures { FindsCell self order number result }
    {
        match self {
            Numbering::Nest => Cell::new(order, number).or(Err(NumberError::CellTooLarge)),
            Numbering::Ring => Cell::from_ring(order, number).or(Err(NumberError::RingTooLarge)),
            Numbering::Uniq => cell_of_uniq(order, number),
        }
    }
}

/// Returns the cell of the order with this NUNIQ number, or the error.
fn cell_of_uniq(order: Order, uniq: u64) -> Result<Cell, NumberError>
    ensures { FindsCell Numbering.Uniq order uniq result }
{
    let depth = order.get();
    let Ok(cell) = Cell::from_uniq(uniq) else {
        return Err(NumberError::NotUniq);
    };
    if cell.order().get() == depth {
        Ok(cell)
    } else {
        Err(NumberError::OtherOrder)
    }
}
