//! The numbers of formats, operations and changes.
ghost use Rattle.std.specs.Prelude.{◌≡◌};
ghost use Rattle.moc_web.specs.Numbers.{change_with_number, choice_with_number, format_with_number};
ghost use Rattle.moc_web.specs.Numbers.{operation_with_number, order_with_number};

use moc_forms::{Change, Format, FormatChoice, Operation};
use moc_sphere::Order;

/// The number of the complement, in place of an order to degrade to.
const COMPLEMENT: u32 = 255;

/// The largest order.
const MAX_ORDER: u32 = 29;

/// Returns the format with a number, or `None`.
pub(crate) fn format_of(number: u32) -> Option<Format>
    ensures { result ≡ format_with_number number }
{
    match number {
        0 => Some(Format::Ascii),
        1 => Some(Format::Json),
        2 => Some(Format::Uniq),
        _ => None,
    }
}

/// Returns the format to read in with a number, or `None`.
pub(crate) fn choice_of(number: u32) -> Option<FormatChoice>
    ensures { result ≡ choice_with_number number }
{
    if number == 3 {
        return Some(FormatChoice::Auto);
    }
    Some(FormatChoice::Named(format_of(number)?))
}

/// Returns the operation with a number, or `None`.
pub(crate) fn operation_of(number: u32) -> Option<Operation>
    ensures { result ≡ operation_with_number number }
{
    match number {
        0 => Some(Operation::Union),
        1 => Some(Operation::Intersection),
        2 => Some(Operation::Difference),
        3 => Some(Operation::Symmetric),
        _ => None,
    }
}

/// Returns the order with a number, or `None`.
pub(crate) fn order_of(number: u32) -> Option<Order>
    ensures { result ≡ order_with_number number }
{
    if number > MAX_ORDER {
        return None;
    }
    Order::new(number as u8)
}

/// Returns the change with a number, or `None`: the complement, or to degrade to the order with this number.
pub(crate) fn change_of(number: u32) -> Option<Change>
    ensures { result ≡ change_with_number number }
{
    if number == COMPLEMENT {
        return Some(Change::Complement);
    }
    Some(Change::Degrade(order_of(number)?))
}
