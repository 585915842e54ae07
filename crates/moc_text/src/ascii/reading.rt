//! Parsing the ASCII format.
ghost use Rattle.std.specs.Prelude.{◌≡◌, ℕ, ◌+◌, ◌<◌, ◌^◌, List, [], length};
ghost use Rattle.std.specs.Prelude.{IfOk, IfErr, MatchResult, None, Option, Some, ◌⊎◌};
ghost use Rattle.std.specs.FinSet as set;
ghost use Rattle.moc_lists.specs.RangeList.{NumberSet};
ghost use Rattle.moc_text.specs.Ascii.{mark_error, item_error, item_pixels, current_order, deeper as deeper_of};
ghost use Rattle.moc_text.specs.Ascii.{Represents, IsFirstError};
ghost use Rattle.moc_text.specs.Errors.{Fails};
ghost use Rattle.moc_text.specs.Private.AsciiReading.{Progress};
ghost use Rattle.moc_text.specs.Reading.{IsReadingOf, ReadingsAreUnique};

use crate::ascii::error::TextError;
use crate::ascii::number::{Item, Numeral};
use crate::ascii::scan::{is_separator, place, word};
use crate::ascii::single::only_cell;
use crate::depth::deeper;
use moc_ranges::{Coverage, CoverageBuilder};
use moc_sphere::Order;
use std::alloc::Global;

/// The state of the parser: the cells, the current order, and the MOC order of the words so far.
#[derive(Drop)]
pub struct Reading {
    pub cells: CoverageBuilder,
    pub order: Option<Order>,
    pub moc_order: Option<Order>,
}

impl Reading {
    /// Returns the state before the first word. Does not allocate.
    pub fn new(alloc: Global) -> Self
        ensures { (text : List ℕ) → Progress text text result.cells result.order result.moc_order }
    {
        Self {
            cells: CoverageBuilder::new(alloc),
            order: None,
            moc_order: None,
        }
    }

    /// Sets the current order to that of the mark, if there is one.
    fn set_order(&mut self, mark: Option<Numeral>) -> Result<(), TextError>
        ensures { MatchResult result
            (λ _. (mark_error mark ≡ None)
            × (self.new.order ≡ current_order self.old.order mark)
            × (self.new.moc_order ≡ deeper_of self.old.moc_order (current_order None mark))
            × (self.new.cells ≡ self.old.cells))
            (λ e. mark_error mark ≡ Some e) }
    {
        let Some(mark) = mark else {
            return Ok(());
        };
        let Ok(order) = Order::try_from(mark.value) else {
            return Err(TextError::OrderTooLarge { at: mark.at });
        };
        self.order = Some(order);
        self.moc_order = deeper(self.moc_order, self.order);
        Ok(())
    }

    /// Adds the cells of the item, if there is one. The word begins at offset `at`.
    fn add(&mut self, at: usize, item: Option<Item>) -> Result<(), TextError>
        ensures { MatchResult result
            (λ _. (item_error self.old.order at item ≡ None)
            × (self.new.order ≡ self.old.order)
            × (self.new.moc_order ≡ self.old.moc_order)
            × (self.new.cells ≡ set.union self.old.cells (item_pixels self.old.order item)))
            (λ e. Fails TextError.Memory (item_error self.old.order at item) e) }
    {
        let Some(item) = item else {
            return Ok(());
        };
        let Some(order) = self.order else {
            return Err(TextError::NoOrder { at });
        };
        let first = item.first;
        let last = item.last.unwrap_or(first);
        let count = order.cell_count();
        if first.value >= count {
            return Err(TextError::CellTooLarge { at: first.at });
        }
        if last.value >= count {
            return Err(TextError::CellTooLarge { at: last.at });
        }
        if last.value < first.value {
            return Err(TextError::Backwards { at: first.at });
        }
        self.cells.add_cells(order, first.value, last.value)?;
        Ok(())
    }

    /// Parses the words of bytes that end a text and begin at `offset`. The words before them must be parsed.
    pub fn read_words(&mut self, offset: usize, bytes: &[u8]) -> Result<(), TextError>
        ensures { (text : List ℕ) → length text ≡ offset + length bytes.now → length text < 2 ^ 64
            → Progress text bytes.now self.old.cells self.old.order self.old.moc_order
            → MatchResult result
            (λ _. Progress text [] self.new.cells self.new.order self.new.moc_order)
            (λ e. (e ≡ TextError.Memory) ⊎ IsFirstError text e) }
    {
        let len = offset.saturating_add(bytes.len());
        let mut rest = bytes;
        while let [byte, after @ ..] = rest {
            if is_separator(*byte) {
                rest = after;
                continue;
            }
            let at = place(len, rest);
            let (numbers, after) = word(len, rest)?;
            self.set_order(numbers.mark)?;
            self.add(at, numbers.item)?;
            rest = after;
        }
        Ok(())
    }
}

/// Parses a text of any number of words, as [`read_ascii`] does. The function is separate, because each call
/// initializes the stack of a whole function: a text of one word needs less of it.
#[inline(never)]
fn read_any(alloc: Global, text: &[u8]) -> Result<(Coverage, Option<Order>), TextError>
    ensures set { IfOk result (λ r. Represents text.now r.0 r.1) }
    ensures error { IfErr result (λ e. (e ≡ TextError.Memory) ⊎ IsFirstError text.now e) }
    ensures reading { (a : NumberSet) (k : Option ℕ) → Represents text.now a k
        → MatchResult result (λ r. (r.0 ≡ a) × (r.1 ≡ k)) (λ e. e ≡ TextError.Memory) }
    ensures reported { IsReadingOf text.now result }
{
    let mut reading = Reading::new(alloc);
    reading.read_words(0, text)?;
    let set = reading.cells.build()?;
    Ok((set, reading.moc_order))
}

/// Parses the ASCII format, and returns the set and the MOC order of the text.
///
/// # Errors
/// Reports the first invalid word, with a byte offset counted from 0. Fails with `BadByte` if the word has an invalid
/// byte, and with `Unfinished` if it is incomplete. Fails with `OrderTooLarge` if an order is above 29, and with
/// `NoOrder` if an item precedes every order. Fails with `CellTooLarge` if a number is not a cell of the current order,
/// and with `Backwards` if a range ends before it begins. Fails with `Memory` if an allocation fails.
///
/// # Complexity
/// One pass over the text; its first word is parsed twice if other words follow. Several cells are added to a
/// `CoverageBuilder`, in O(n log n), or in O(n) if they are sorted.
///
/// # Memory
/// Proportional to the set, not to the text.
///
/// # Source
/// MOC 2.0, ASCII serialization.
pub fn read_ascii(alloc: Global, text: &[u8]) -> Result<(Coverage, Option<Order>), TextError>
    // On success, the result is the set and the order that the text represents.
    ensures set { IfOk result (λ r. Represents text.now r.0 r.1) }

    // On failure, the error is the first one in the text, unless an allocation failed.
    ensures error { IfErr result (λ e. (e ≡ TextError.Memory) ⊎ IsFirstError text.now e) }

    // Therefore a text that represents a set is parsed as this set.
    ensures reading { (a : NumberSet) (k : Option ℕ) → Represents text.now a k
        → MatchResult result (λ r. (r.0 ≡ a) × (r.1 ≡ k)) (λ e. e ≡ TextError.Memory) }

    // The result as a function of the text, unless an allocation failed.
    ensures reported { IsReadingOf text.now result }
{
    if let Some(cell) = only_cell(text) {
        let set = Coverage::from_cell(alloc, cell)?;
        return Ok((set, Some(cell.order())));
    }
    read_any(alloc, text)
}

/// Theorem: every text has exactly one reading, namely the set and the MOC order that it represents, or its first
/// error.
pub fn readings_are_unique()
    ensures { ReadingsAreUnique }
{}
