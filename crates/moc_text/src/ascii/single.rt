//! Texts of a single cell, such as `3/7`: they are parsed without a builder.
ghost use Rattle.std.specs.Prelude.{◌≡◌, ◌⊎◌, [], ℕ, IfSome, List, None, Ok, Option, Some, false, get_or};
ghost use Rattle.moc_lists.specs.RangeList.{NumberSet};
ghost use Rattle.moc_ranges.specs.Cells.{span};
ghost use Rattle.moc_text.specs.Ascii.{Represents, is_separator as is_separator_byte};
ghost use Rattle.moc_text.specs.Private.AsciiReading.{Progress};
ghost use Rattle.moc_text.specs.Private.Scan.{scan_word};
ghost use Rattle.moc_text.specs.Reading.{reading_of};

use crate::ascii::number::Numeral;
use crate::ascii::scan::{after, is_end, is_separator, number};
use moc_sphere::{Cell, Order};

/// Returns the bytes from the first one that is not a separator.
fn skip_separators(bytes: &[u8]) -> &[u8]
    ensures progress { (text : List ℕ) (a : NumberSet) (order moc_order : Option ℕ) →
        Progress text bytes.now a order moc_order → Progress text result.now a order moc_order }
    ensures first { (result.now ≡ []) ⊎ (is_separator_byte (get_or result.now 0 0) ≡ false) }
{
    let mut rest = bytes;
    while let [byte, after @ ..] = rest {
        if !is_separator(*byte) {
            break;
        }
        rest = after;
    }
    rest
}

/// Scans a word of an order and one cell. Returns the order, the cell and the bytes after the word; returns `None` for
/// any other word.
fn order_and_cell(len: usize, bytes: &[u8]) -> Option<(Numeral, Numeral, &[u8])>
    ensures { IfSome result (λ x. scan_word len bytes.now
        ≡ Ok (record { mark = Some x.0; item = Some (record { first = x.1; last = None }) }, x.2.now)) }
{
    if after(b's', bytes).is_some() {
        return None;
    }
    let Ok((order, rest)) = number(len, bytes) else {
        return None;
    };
    let rest = after(b'/', rest)?;
    if is_end(rest) {
        return None;
    }
    let Ok((cell, rest)) = number(len, rest) else {
        return None;
    };
    if after(b'-', rest).is_some() || !is_end(rest) {
        return None;
    }
    Some((order, cell, rest))
}

/// Returns the cell of an ASCII text of one word that has an order and one cell, such as `3/7`. Returns `None` for any
/// other text, also if it is valid.
///
/// # Complexity
/// Linear in the length of the text; allocates nothing.
///
/// # Source
/// MOC 2.0, ASCII serialization.
pub fn only_cell(text: &[u8]) -> Option<Cell>
    ensures represents { IfSome result (λ cell. Represents text.now (span cell.order cell.index) (Some cell.order)) }

    // `read_ascii` returns the set of this cell.
    ensures reading { IfSome result (λ cell.
        reading_of text.now ≡ Ok (span cell.order cell.index, Some cell.order)) }
{
    let front = skip_separators(text);
    if front.is_empty() {
        return None;
    }
    let (order, cell, rest) = order_and_cell(text.len(), front)?;
    if !skip_separators(rest).is_empty() {
        return None;
    }
    let Ok(order) = Order::try_from(order.value) else {
        return None;
    };
    let Ok(cell) = Cell::new(order, cell.value) else {
        return None;
    };
    Some(cell)
}
