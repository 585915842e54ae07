//! Parsing the JSON format.
ghost use Rattle.std.specs.Prelude.{◌≡◌, ℕ, IfErr, IfOk, IfSome, MatchResult, None, Option, Some, ◌⊎◌};
ghost use Rattle.std.specs.Prelude.{option_map};
ghost use Rattle.std.specs.String.{string_bytes};
ghost use Rattle.std.specs.FinSet as set;
ghost use Rattle.serde_json.specs.Find.{as_array};
ghost use Rattle.serde_json.specs.View.{view, items_view, members_view};
ghost use Rattle.moc_lists.specs.RangeList.{NumberSet};
ghost use Rattle.moc_text.specs.Errors.{Fails};
ghost use Rattle.moc_text.specs.JsonFormat.{order_of_name, whole_number, cell_pixels, element_error, items_pixels};
ghost use Rattle.moc_text.specs.JsonFormat.{elements_error, array_pixels, name_error, members_pixels, members_error};
ghost use Rattle.moc_text.specs.JsonFormat.{deepest_name, member_at as member_numbered, HasText, IsJson, IsJsonError};
ghost use Rattle.moc_text.specs.JsonFormat.{IsNotJson, IsTextAt, NameIsOrder, RepresentsJson, object_member};

use crate::depth::{deeper, parse_order};
use crate::json_format::error::{JsonError, JsonPlace};
use moc_ranges::{Coverage, CoverageBuilder, Memory};
use moc_sphere::Order;
use serde_json::{Map, Value};
use std::alloc::Global;

/// Adds the cell that an item denotes.
fn read_cell(
    cells: &mut CoverageBuilder,
    order: Order,
    name: usize,
    place: usize,
    value: &Value,
) -> Result<(), JsonError>
    ensures { MatchResult result
        (λ _. (element_error order name place (whole_number (view value.now)) ≡ None)
        × (cells.new ≡ set.union cells.old (cell_pixels order (whole_number (view value.now)))))
        (λ e. Fails JsonError.Memory (element_error order name place (whole_number (view value.now))) e) }
{
    let Some(index) = value.as_u64() else {
        return Err(JsonError::NotWhole { name, place });
    };
    if index >= order.cell_count() {
        return Err(JsonError::CellTooLarge { name, place });
    }
    cells.add_cells(order, index, index)?;
    Ok(())
}

/// Adds the cells of an array.
fn read_cells(
    cells: &mut CoverageBuilder,
    order: Order,
    name: usize,
    values: &[Value],
) -> Result<(), JsonError>
    ensures { MatchResult result
        (λ _. (elements_error order name 0 (items_view values.now) ≡ None)
        × (cells.new ≡ set.union cells.old (items_pixels order (items_view values.now))))
        (λ e. Fails JsonError.Memory (elements_error order name 0 (items_view values.now)) e) }
{
    for (place, value) in values.iter().enumerate() {
        read_cell(cells, order, name, place, value)?;
    }
    Ok(())
}

/// Adds the cells of a member of the object, and returns its order.
fn read_member(
    cells: &mut CoverageBuilder,
    name: usize,
    text: &str,
    value: &Value,
) -> Result<Order, JsonError>
    ensures { MatchResult result
        (λ k. (order_of_name text.now ≡ Some k)
        × (name_error name (order_of_name text.now) (as_array (view value.now)) ≡ None)
        × (cells.new ≡ set.union cells.old (array_pixels (order_of_name text.now) (as_array (view value.now)))))
        (λ e. Fails JsonError.Memory (name_error name (order_of_name text.now) (as_array (view value.now))) e) }
{
    let Some(order) = parse_order(text.as_bytes()) else {
        return Err(JsonError::BadOrder { name });
    };
    let Some(values) = value.as_array() else {
        return Err(JsonError::NotArray { name });
    };
    read_cells(cells, order, name, values)?;
    Ok(order)
}

/// Adds the cells of all members, and returns the deepest order.
fn read_members(
    cells: &mut CoverageBuilder,
    members: &Map<String, Value>,
) -> Result<Option<Order>, JsonError>
    ensures { MatchResult result
        (λ moc_order. (members_error 0 (members_view members.now.entries) ≡ None)
        × (cells.new ≡ set.union cells.old (members_pixels (members_view members.now.entries)))
        × (moc_order ≡ deepest_name (members_view members.now.entries)))
        (λ e. Fails JsonError.Memory (members_error 0 (members_view members.now.entries)) e) }
{
    let mut moc_order = None;
    let mut name = 0;
    for (text, value) in members.iter() {
        let order = read_member(cells, name, text.as_str(), value)?;
        moc_order = deeper(moc_order, Some(order));
        name += 1;
    }
    Ok(moc_order)
}

/// Parses JSON (RFC 8259) with `serde_json`.
fn parse(alloc: Global, text: &[u8]) -> Result<Value, JsonError>
    ensures { MatchResult result (λ v. IsJson text.now (view v))
        (λ e. (e ≡ JsonError.Memory) ⊎ ((e ≡ JsonError.NotJson) × IsNotJson text.now)) }
{
    match Value::from_slice(alloc, text) {
        Ok(value) => Ok(value),
        Err(error) if error.is_memory() => Err(JsonError::Memory),
        Err(_) => Err(JsonError::NotJson),
    }
}

/// Parses the JSON format, and returns the set and the MOC order, which is the deepest order among the names. In
/// errors, names are counted from 0 in byte order, as `serde_json` sorts them, and the items of an array are counted
/// from 0.
///
/// # Errors
/// Fails with `NotJson` if the text is not valid JSON according to `serde_json`, and with `NotObject` if the value is
/// not an object. Otherwise reports the first invalid name. Fails with `BadOrder` if the name is not a number from 0 to
/// 29, with `NotArray` if its value is not an array, and with `NotWhole` or `CellTooLarge` for the first invalid item.
/// Fails with `Memory` if an allocation fails.
///
/// # Complexity
/// One pass over the text by `serde_json`, which sorts the names, and one pass over its value. The cells are added to a
/// `CoverageBuilder`, in O(n log n), or in O(n) if they are sorted.
///
/// # Memory
/// Proportional to the text: the JSON value is kept until the set is built.
///
/// # Source
/// MOC 2.0, JSON serialization.
pub fn read_json(alloc: Global, text: &[u8]) -> Result<(Coverage, Option<Order>), JsonError>
    // On success, the result is the set and the order that the text represents.
    ensures set { IfOk result (λ r. RepresentsJson text.now r.0 r.1) }

    // On failure, the error is the first one in the text, unless an allocation failed.
    ensures error { IfErr result (λ e. (e ≡ JsonError.Memory) ⊎ IsJsonError text.now e) }

    // Therefore a text that represents a set is parsed as this set.
    ensures reading { (a : NumberSet) (k : Option ℕ) → RepresentsJson text.now a k
        → MatchResult result (λ r. (r.0 ≡ a) × (r.1 ≡ k)) (λ e. e ≡ JsonError.Memory) }
{
    let value = parse(alloc, text)?;
    let Some(members) = value.as_object() else {
        return Err(JsonError::NotObject);
    };
    let mut cells = CoverageBuilder::new(alloc);
    let moc_order = read_members(&mut cells, members)?;
    let set = cells.build()?;
    Ok((set, moc_order))
}

/// Returns the name with this number and its value, if the name exists.
fn member_at(members: &Map<String, Value>, number: usize) -> Option<(&String, &Value)>
    ensures { option_map (λ m. (string_bytes m.0.now, view m.1.now)) result
        ≡ member_numbered number (members_view members.now.entries) }
{
    let mut before = number;
    for (name, value) in members.iter() {
        if before == 0 {
            return Some((name, value));
        }
        before -= 1;
    }
    None
}

/// The content at a position in a JSON text, for error messages.
#[derive(Debug, Drop)]
pub struct JsonContent {
    /// The order that the name denotes. `None` if the name does not exist or does not denote an order.
    pub order: Option<Order>,
    /// The name, or the item as `serde_json` prints it without spaces. `None` if the name or item does not exist.
    pub text: Option<String>,
}

/// Returns the name with this number and its value. Returns `None` if the value is not an object or the name does not
/// exist.
fn member_of(value: &Value, number: usize) -> Option<(&String, &Value)>
    ensures { option_map (λ m. (string_bytes m.0.now, view m.1.now)) result ≡ object_member number (view value.now) }
{
    member_at(value.as_object()?, number)
}

/// Returns the content at the position of an error (`JsonError::place`). If the text is not an object, no content
/// exists at any position.
///
/// # Errors
/// Fails with `NotJson` and `Memory` like `read_json`.
///
/// # Complexity
/// One pass over the text by `serde_json`.
pub fn json_content_at(
    alloc: Global,
    text: &[u8],
    place: JsonPlace,
) -> Result<JsonContent, JsonError>
    ensures order { IfOk result (λ site. NameIsOrder text.now place.name site.order) }
    ensures text { IfOk result (λ site. HasText text.now place.name place.item (option_map string_bytes site.text)) }
    ensures error { IfErr result (λ e. (e ≡ JsonError.Memory) ⊎ ((e ≡ JsonError.NotJson) × IsNotJson text.now)) }
{
    let value = parse(alloc, text)?;
    match member_of(&value, place.name) {
        Some((name, value)) => Ok(content_at(alloc, name, value, place.item)?),
        None => Ok(JsonContent {
            order: None,
            text: None,
        }),
    }
}

/// Returns the content at a name with this value, or at an item of the value.
fn content_at(
    alloc: Global,
    name: &String,
    value: &Value,
    item: Option<usize>,
) -> Result<JsonContent, Memory>
    ensures order { IfOk result (λ site. site.order ≡ order_of_name (string_bytes name.now)) }
    ensures text { IfOk result (λ site. IsTextAt item (Some (string_bytes name.now, view value.now))
        (option_map string_bytes site.text)) }
{
    let text = match item {
        None => Some(String::from_str(alloc, name.as_str())?),
        Some(place) => match value.get(place) {
            Some(item) => Some(item.to_string(alloc)?),
            None => None,
        },
    };
    Ok(JsonContent {
        order: parse_order(name.as_bytes()),
        text,
    })
}

/// Returns the line, counted from 1, and the column at which `serde_json` stops because of a syntax error. An error
/// message for `NotJson`, which has no position, can show them. Returns `None` if the text is valid JSON, if an
/// allocation fails, or if `serde_json` reports no position.
///
/// # Complexity
/// One pass over the text by `serde_json`.
pub fn json_syntax_error(alloc: Global, text: &[u8]) -> Option<(usize, usize)>
    ensures { IfSome result (λ _. IsNotJson text.now) }
{
    match Value::from_slice(alloc, text) {
        Err(error) if !error.is_memory() && error.line() > 0 => Some((
            error.line(),
            error.column(),
        )),
        _ => None,
    }
}
