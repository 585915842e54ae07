//! The orders that a text names.
ghost use Rattle.std.specs.Prelude.{◌≡◌};
ghost use Rattle.moc_text.specs.Ascii.{deeper as deeper_of};
ghost use Rattle.moc_text.specs.JsonFormat.{order_of_name};
ghost use Rattle.moc_text.specs.Private.JsonReading.{capped_order};

use moc_sphere::Order;

/// Returns the deeper of two optional orders, for example the deepest order that two texts name together.
pub fn deeper(first: Option<Order>, second: Option<Order>) -> Option<Order>
    ensures { result ≡ deeper_of first second }
{
    match (first, second) {
        (Some(first), Some(second)) => Some(first.max(second)),
        (Some(first), None) => Some(first),
        (None, _) => second,
    }
}

/// Parses the digits of an order. Returns `None` if there are no digits, if there is another byte, or if the number is
/// above 29. Zeros may come first.
///
/// Linear in the number of digits; allocates nothing.
pub fn parse_order(digits: &[u8]) -> Option<Order>
    ensures { result ≡ order_of_name digits.now }
{
    if digits.is_empty() {
        return None;
    }
    order_of_digits(digits)
}

/// Returns the order that digits denote, or `None`. No digits are order 0.
fn order_of_digits(digits: &[u8]) -> Option<Order>
    ensures { result ≡ capped_order 0 digits.now }
{
    let mut depth = 0u8;
    for digit in digits {
        if !digit.is_ascii_digit() {
            return None;
        }
        depth = depth
            .saturating_mul(10)
            .saturating_add(*digit - b'0')
            .min(30);
    }
    Order::new(depth)
}
