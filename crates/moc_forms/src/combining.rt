//! Set operations on texts.
ghost use Rattle.std.specs.Prelude.{◌≡◌, IfOk, Some};
ghost use Rattle.moc_forms.specs.Combining.{combine_next, set_of_two};

use crate::format::Format;
use moc_ranges::{Coverage, Memory};
use moc_sphere::{InvalidName, Order};
use moc_text::deeper;
use std::alloc::Global;
use std::fmt;
use std::str::FromStr;

/// An operation on two sets of pixels.
#[derive(Clone, Copy, Debug, PartialEq, Eq, Hash)]
pub enum Operation {
    /// The pixels that are in at least one of the sets.
    Union,
    /// The pixels that are in both sets.
    Intersection,
    /// The pixels that are in the first set and not in the second.
    Difference,
    /// The pixels that are in exactly one of the sets: the symmetric difference.
    Symmetric,
}

/// Parses the name of an operation on the command line: `union`, `intersection`, `difference` or `symmetric`. Fails
/// for any other word.
impl FromStr for Operation {
    type Err = InvalidName;

    ghost use Rattle.std.specs.Prelude.{codes};
    ghost use Rattle.moc_sphere.specs.Names.{ParsesName};
    ghost use Rattle.moc_forms.specs.Combining.{operation_name};

    ghost from_str_gives = { ParsesName operation_name (codes "`union`, `intersection`, `difference` or `symmetric`") };

    fn from_str(word: &str) -> Result<Operation, InvalidName> {
        match word {
            "union" => Ok(Operation::Union),
            "intersection" => Ok(Operation::Intersection),
            "difference" => Ok(Operation::Difference),
            "symmetric" => Ok(Operation::Symmetric),
            _ => Err(InvalidName {
                expected: "`union`, `intersection`, `difference` or `symmetric`",
            }),
        }
    }
}

/// Writes the word of the command line, which `from_str` parses.
impl fmt::Display for Operation {
    ghost use Rattle.std.specs.Prelude.{Some};
    ghost use Rattle.moc_forms.specs.Combining.{operation_name};

    ghost output = { λ operation. Some (operation_name operation) };

    fn fmt<W: fmt::Write>(&self, f: &mut fmt::Formatter<W>) -> fmt::Result {
        match self {
            Operation::Union => write!(f, "union"),
            Operation::Intersection => write!(f, "intersection"),
            Operation::Difference => write!(f, "difference"),
            Operation::Symmetric => write!(f, "symmetric"),
        }
    }
}

/// A parsed text: its set, its MOC order and its format.
#[derive(Drop)]
pub struct ParsedCoverage {
    /// The set.
    pub set: Coverage,
    /// The MOC order that the text states; `None` if it states none.
    pub moc_order: Option<Order>,
    /// The format of the text.
    pub format: Format,
}

impl Operation {
    /// Returns the result of the operation on two sets.
    ///
    /// # Errors
    /// Fails with `Memory` if an allocation fails.
    ///
    /// # Complexity
    /// O(n + m) for n and m ranges, as the method of `Coverage`.
    pub fn apply(
        self,
        alloc: Global,
        first: &Coverage,
        second: &Coverage,
    ) -> Result<Coverage, Memory>
        ensures set { IfOk result (λ c. c ≡ set_of_two self first.now second.now) }
    {
        match self {
            Operation::Union => first.union(alloc, second),
            Operation::Intersection => first.intersection(alloc, second),
            Operation::Difference => first.difference(alloc, second),
            Operation::Symmetric => first.symmetric(alloc, second),
        }
    }

    /// Combines what was read before with one more text: the operation on the sets, the deeper of the two MOC orders,
    /// and the format of the first text. If there is no text before, returns `parsed`.
    ///
    /// # Errors
    /// Fails with `Memory` if an allocation fails.
    ///
    /// # Complexity
    /// As `apply`.
    pub fn combine(
        self,
        alloc: Global,
        before: Option<ParsedCoverage>,
        parsed: ParsedCoverage,
    ) -> Result<ParsedCoverage, Memory>
        ensures combine_next { IfOk result (λ after. after ≡ combine_next self before parsed) }
    {
        let Some(before) = before else {
            return Ok(parsed);
        };
        let set = self.apply(alloc, &before.set, &parsed.set)?;
        Ok(ParsedCoverage {
            set,
            moc_order: deeper(before.moc_order, parsed.moc_order),
            format: before.format,
        })
    }
}
