//! Parsing and writing of texts. A store keeps the last text that it wrote.
ghost use Rattle.std.specs.Prelude.{◌≡◌};
ghost use Rattle.moc_forms.specs.declared.format.Format.TheVariants.{Ascii, Json, Uniq};
ghost use Rattle.moc_c.specs.Buffers.{Fills};
ghost use Rattle.moc_c.specs.Private.Making.{bytes_of_text};
ghost use Rattle.moc_c.specs.Texts.{DescribesText, DrawsText, KeepsNewText};
ghost use Rattle.moc_c.specs.Texts.{KeepsText, order_with_number, order_number, Reads};
ghost use Rattle.moc_c.specs.Texts.{WritesText};

use crate::call_result::CallResult;
use crate::error::CallError;
use crate::store::Store;
use crate::table::{CoverageTable, order_of};
use moc_forms::{Format, describe, draw};
use moc_ranges::Memory;
use moc_sphere::Order;
use std::alloc::Global;

/// The number that stands for "no order".
const NO_ORDER: u8 = 255;

/// Returns the number of an order, or the number for "no order".
fn number_of(order: Option<Order>) -> u64
    ensures { result ≡ order_number order }
{
    match order {
        Some(order) => u64::from(order.get()),
        None => u64::from(NO_ORDER),
    }
}

/// Returns the order with this number, or `None` for the number that stands for "no order". Fails for any other number.
fn order_or_none(number: u8) -> Result<Option<Order>, CallError>
    ensures { result ≡ order_with_number number }
{
    if number == NO_ORDER {
        return Ok(None);
    }
    Ok(Some(order_of(number)?))
}

/// Copies a text to the front of a buffer, and returns its length. Fails if the buffer is too short.
pub(crate) fn fill_text(text: &[u8], out: &mut [u8]) -> CallResult
    ensures { Fills text.now out.old out.new result }
{
    let length = text.len();
    if out.len() < length {
        return CallResult::of(CallError::BufferTooShort { needed: length });
    }
    out[..length].copy_from_slice(text);
    CallResult::number(length as u64)
}

impl CoverageTable {
    /// Parses a text, and stores its set.
    fn read(&mut self, alloc: Global, format: Format, text: &[u8]) -> CallResult
        ensures { Reads format text.now self.old self.new result }
    {
        match format.read(alloc, text) {
            Ok((set, deepest)) => match self.put(set) {
                Ok(id) => CallResult::numbers(id, number_of(deepest)),
                Err(Memory) => CallResult::of(CallError::Memory),
            },
            Err(error) => CallResult::of(CallError::Format(error)),
        }
    }

    /// Returns the text of a set in a format.
    fn text_of_set(
        &self,
        alloc: Global,
        format: Format,
        id: u64,
        stated: u8,
    ) -> Result<String, CallError>
        ensures { WritesText format self.now id stated (bytes_of_text result) }
    {
        let set = self.set(id)?;
        let stated = order_or_none(stated)?;
        Ok(format.write(alloc, set, stated)?)
    }

    /// Returns the statistics of a set as text.
    fn statistics_of_set(&self, alloc: Global, id: u64, deepest: u8) -> Result<String, CallError>
        ensures { DescribesText self.now id deepest (bytes_of_text result) }
    {
        let set = self.set(id)?;
        let deepest = order_or_none(deepest)?;
        Ok(describe(alloc, set, deepest)?)
    }

    /// Returns the picture of a set.
    fn picture_of_set(&self, alloc: Global, id: u64) -> Result<String, CallError>
        ensures { DrawsText self.now id (bytes_of_text result) }
    {
        let set = self.set(id)?;
        Ok(draw(alloc, set, None)?)
    }

    /// Keeps a new text, and returns its length.
    fn keep_new_text(&mut self, made: Result<String, CallError>) -> CallResult
        ensures { KeepsText self.old self.new (bytes_of_text made) result }
    {
        match made {
            Ok(text) => {
                let length = text.len() as u64;
                self.keep_text(text);
                CallResult::number(length)
            }
            Err(error) => CallResult::of(error),
        }
    }
}

/// Parses an ASCII text, stores its set under a new id, and returns the id and the MOC order of the text, or 255 if the
/// text names no order.
///
/// # Errors
/// Fails with the first error of the text, or if an allocation fails.
///
/// # Complexity
/// As `read_ascii`.
#[unsafe(no_mangle)]
pub extern "C" fn moc_read_ascii(alloc: Global, store: &mut Store, text: &[u8]) -> CallResult
    ensures { Reads Ascii text.now store.old.contents store.new.contents result }
{
    store.table().read(alloc, Format::Ascii, text)
}

/// Parses a JSON text. As `moc_read_ascii`.
#[unsafe(no_mangle)]
pub extern "C" fn moc_read_json(alloc: Global, store: &mut Store, text: &[u8]) -> CallResult
    ensures { Reads Json text.now store.old.contents store.new.contents result }
{
    store.table().read(alloc, Format::Json, text)
}

/// Parses a NUNIQ list. As `moc_read_ascii`; a list names no order.
#[unsafe(no_mangle)]
pub extern "C" fn moc_read_uniq(alloc: Global, store: &mut Store, text: &[u8]) -> CallResult
    ensures { Reads Uniq text.now store.old.contents store.new.contents result }
{
    store.table().read(alloc, Format::Uniq, text)
}

/// Writes the ASCII text of a set, ended by a line feed, and returns its length. The order 255 states no order. The
/// store keeps the text until the next one is written; `moc_text` copies it.
///
/// # Errors
/// Fails if the id has no set, for an order above 29 other than 255, if a cell is deeper than the order, or if an
/// allocation fails.
///
/// # Complexity
/// As `write_ascii`.
#[unsafe(no_mangle)]
pub extern "C" fn moc_write_ascii(
    alloc: Global,
    store: &mut Store,
    a: u64,
    stated: u8,
) -> CallResult
    ensures { KeepsNewText store.old.contents store.new.contents (WritesText Ascii store.old.contents a stated) result }
{
    let table = store.table();
    let made = table.text_of_set(alloc, Format::Ascii, a, stated);
    table.keep_new_text(made)
}

/// Writes the JSON text of a set. As `moc_write_ascii`.
#[unsafe(no_mangle)]
pub extern "C" fn moc_write_json(alloc: Global, store: &mut Store, a: u64, stated: u8) -> CallResult
    ensures { KeepsNewText store.old.contents store.new.contents (WritesText Json store.old.contents a stated) result }
{
    let table = store.table();
    let made = table.text_of_set(alloc, Format::Json, a, stated);
    table.keep_new_text(made)
}

/// Writes the NUNIQ list of a set, one number a line. As `moc_write_ascii`; a list states no order.
#[unsafe(no_mangle)]
pub extern "C" fn moc_write_uniq(alloc: Global, store: &mut Store, a: u64) -> CallResult
    ensures { KeepsNewText store.old.contents store.new.contents (WritesText Uniq store.old.contents a 255) result }
{
    let table = store.table();
    let made = table.text_of_set(alloc, Format::Uniq, a, NO_ORDER);
    table.keep_new_text(made)
}

/// Writes the statistics of a set, with the MOC order of its text or 255, and returns their length. `moc_text` copies
/// the text.
///
/// # Errors
/// Fails if the id has no set, for an order above 29 other than 255, or if an allocation fails.
///
/// # Memory
/// Allocates only the text.
#[unsafe(no_mangle)]
pub extern "C" fn moc_describe(alloc: Global, store: &mut Store, a: u64, deepest: u8) -> CallResult
    ensures { KeepsNewText store.old.contents store.new.contents (DescribesText store.old.contents a deepest) result }
{
    let table = store.table();
    let made = table.statistics_of_set(alloc, a, deepest);
    table.keep_new_text(made)
}

/// Writes a picture of the set as SVG, and returns its length. `moc_text` copies the text. Allocates a list of the
/// set's cells. Fails if the id has no set, or if an allocation fails.
#[unsafe(no_mangle)]
pub extern "C" fn moc_draw(alloc: Global, store: &mut Store, a: u64) -> CallResult
    ensures { KeepsNewText store.old.contents store.new.contents (DrawsText store.old.contents a) result }
{
    let table = store.table();
    let made = table.picture_of_set(alloc, a);
    table.keep_new_text(made)
}

/// Copies the last text to the front of a buffer, and returns its length. Fails if the buffer is too short.
#[unsafe(no_mangle)]
pub extern "C" fn moc_text(store: &mut Store, out: &mut [u8]) -> CallResult
    ensures text { Fills store.old.contents.text out.old out.new result }
    ensures same { store.new.contents ≡ store.old.contents }
{
    fill_text(store.table().text(), out)
}
