//! Reports of errors.
ghost use Rattle.std.specs.Prelude.{◌++◌, codes, decimal, option_map};
ghost use Rattle.moc_text.specs.Names.{fault_report};
ghost use Rattle.moc_forms.specs.Expectations.{cells_line, expected_text};
ghost use Rattle.moc_forms.specs.Places.{place_text, position_line, quote_after};
ghost use Rattle.moc_conversion.specs.Errors.{WritesText, diagnostic_text};

use itoa::Buffer;
use moc_devices::{DeviceFault, Sink, write_all};
use moc_forms::{Diagnostic, FormatError, Place, expected_line, hint_line};
use moc_sphere::Order;

/// Reports an error by its name: writes `fault NAME` and a line feed. Linear in the length of the name; allocates
/// nothing.
///
/// # Errors
/// Fails with `DeviceFault` if the writer fails. What was written before stays written.
pub fn report_error<E: Sink>(name: &str, errors: &mut E) -> Result<(), DeviceFault>
    ensures { WritesText E.writing E.mark (fault_report name.now) errors.old errors.new result }
{
    write_all(b"fault ", errors)?;
    write_all(name.as_bytes(), errors)?;
    write_all(b"\n", errors)
}

/// Writes the lines of a diagnostic, if there are any: those of its position, of what the text must have there, and of
/// its hint.
pub(crate) fn write_diagnostic<E: Sink>(
    number: Option<u64>,
    diagnostic: &Diagnostic,
    errors: &mut E,
) -> Result<(), DeviceFault>
    ensures { WritesText E.writing E.mark (diagnostic_text number diagnostic.now) errors.old errors.new result }
{
    write_position(
        number,
        diagnostic.place,
        diagnostic.quote.as_deref(),
        errors,
    )?;
    write_expected(diagnostic.error, diagnostic.order, errors)?;
    match diagnostic.hint {
        Some(content) => write_all(hint_line(content).as_bytes(), errors),
        None => Ok(()),
    }
}

/// Writes the line that states what a text must have in place of an error, if there is one, given the order of the
/// cells there.
fn write_expected<E: Sink>(
    error: FormatError,
    order: Option<Order>,
    errors: &mut E,
) -> Result<(), DeviceFault>
    ensures { WritesText E.writing E.mark (expected_text error order) errors.old errors.new result }
{
    match order {
        None => write_all(expected_line(error).as_bytes(), errors),
        Some(order) => write_cells_line(order, errors),
    }
}

/// Writes the line for the cells of an order.
fn write_cells_line<E: Sink>(order: Order, errors: &mut E) -> Result<(), DeviceFault>
    ensures { WritesText E.writing E.mark (cells_line order) errors.old errors.new result }
{
    write_number("cells of order ", u64::from(order.get()), errors)?;
    write_number(" go up to ", order.cell_count().saturating_sub(1), errors)?;
    write_all(b"\n", errors)
}

/// Writes the line of a position: the number of the text if texts are counted, the position and the quote. Writes
/// nothing without a number and a position.
pub(crate) fn write_position<E: Sink>(
    number: Option<u64>,
    place: Option<Place>,
    quote: Option<&str>,
    errors: &mut E,
) -> Result<(), DeviceFault>
    ensures { WritesText E.writing E.mark (position_line number place (option_map (λ q. q.now) quote.entry))
        errors.old errors.new result }
{
    match (number, place) {
        (None, None) => Ok(()),
        (None, Some(place)) => write_place_line(place, quote, errors),
        (Some(number), None) => {
            write_number("text ", number, errors)?;
            write_all(b"\n", errors)
        }
        (Some(number), Some(place)) => {
            write_number("text ", number, errors)?;
            write_all(b", ", errors)?;
            write_place_line(place, quote, errors)
        }
    }
}

/// Writes a position, the quote after it if there is one, and a line feed.
fn write_place_line<E: Sink>(
    place: Place,
    quote: Option<&str>,
    errors: &mut E,
) -> Result<(), DeviceFault>
    ensures { WritesText E.writing E.mark
        (place_text place ++ quote_after (option_map (λ q. q.now) quote.entry) ++ codes "\n")
        errors.old errors.new result }
{
    write_quoted_place(place, quote, errors)?;
    write_all(b"\n", errors)
}

/// Writes a position, and the quote after it if there is one.
fn write_quoted_place<E: Sink>(
    place: Place,
    quote: Option<&str>,
    errors: &mut E,
) -> Result<(), DeviceFault>
    ensures { WritesText E.writing E.mark (place_text place ++ quote_after (option_map (λ q. q.now) quote.entry))
        errors.old errors.new result }
{
    write_place(place, errors)?;
    match quote {
        Some(quote) => {
            write_all(b": ", errors)?;
            write_all(quote.as_bytes(), errors)
        }
        None => Ok(()),
    }
}

/// Writes a position.
fn write_place<E: Sink>(place: Place, errors: &mut E) -> Result<(), DeviceFault>
    ensures { WritesText E.writing E.mark (place_text place) errors.old errors.new result }
{
    match place {
        Place::Byte { at, line, column } => {
            write_number("byte ", at as u64, errors)?;
            write_number(", line ", line as u64, errors)?;
            write_number(", byte ", column as u64, errors)?;
            write_all(b" of it", errors)
        }
        Place::Line(line) => write_number("line ", line as u64, errors),
        Place::JsonSyntax { line, column } => {
            write_number("line ", line as u64, errors)?;
            write_number(", column ", column as u64, errors)
        }
        Place::Name(name) => write_number("name ", name as u64, errors),
        Place::Order(order) => write_number("order ", u64::from(order.get()), errors),
        Place::Number { order, number } => {
            write_number("order ", u64::from(order.get()), errors)?;
            write_number(", number ", number as u64, errors)
        }
    }
}

/// Writes a label and a number.
pub(crate) fn write_number<E: Sink>(
    label: &str,
    number: u64,
    errors: &mut E,
) -> Result<(), DeviceFault>
    ensures { WritesText E.writing E.mark (label.now ++ decimal number) errors.old errors.new result }
{
    write_all(label.as_bytes(), errors)?;
    write_all(Buffer::new().format(number).as_bytes(), errors)
}
