//! Statistics of a coverage.
ghost use Rattle.std.specs.Prelude.{◌≡◌, ◌++◌, ◌∷◌, ◌<◌, ◌≤◌, ◌^◌, [], IfOk, slice_index, sum};
ghost use Rattle.std.specs.Fmt.{WritesOnOk};
ghost use Rattle.std.specs.String.{string_bytes};
ghost use Rattle.moc_ranges.specs.CellCounts.{uniq_end};
ghost use Rattle.moc_lists.specs.RangeList.{pixel_count};
ghost use Rattle.moc_forms.specs.Describing.{AreStatistics, Describes, area_line, decimal_fraction, moc_order_line};
ghost use Rattle.moc_forms.specs.Describing.{order_line, order_lines_below, part_of, part_text, share_line, share_of};
ghost use Rattle.moc_forms.specs.Describing.{sky_area};

use moc_ranges::{Coverage, Memory, PIXEL_COUNT};
use moc_sphere::Order;
use std::alloc::Global;
use std::fmt;

/// The whole sky in parts of 10^12.
const SKY: u64 = 1_000_000_000_000;

/// The whole sky in parts of 10^24.
const FINE_SKY: u128 = 1_000_000_000_000_000_000_000_000;

/// The number of units of 10^-12 in one.
const UNITS: u128 = 1_000_000_000_000;

/// The area of the sky, 129600/π square degrees, in units of 10^-12 square degrees.
const SKY_AREA: u64 = 41_252_961_249_419_271;

/// The area of the sky in units of 10^-24 square degrees.
const FINE_SKY_AREA: u128 = 41_252_961_249_419_271_031_294_671_466;

/// The statistics of a coverage. `Display` writes them one a line. The first lines are the MOC order that its text
/// states, or `none`, the number of pixels of order 29, their share of the sky, and their area in square degrees. Share
/// and area are truncated to twelve digits after the point; if the result is zero and there is a pixel, to 24 digits.
/// Then come the number of ranges, the number of cells, and the number of cells of each order that has any.
#[derive(Clone, Copy, Debug, PartialEq, Eq)]
pub struct Statistics {
    moc_order: Option<Order>,
    pixels: u64,
    ranges: u64,
    cells: u64,
    orders: [u64; 30],
}

impl Statistics {
    /// Returns the statistics of a set, given the MOC order that its text states. One pass over the ranges, with at
    /// most one step for each order of a range: O(n). Does not allocate.
    pub fn of(set: &Coverage, moc_order: Option<Order>) -> Statistics
        ensures { AreStatistics set.now moc_order result }
    {
        let orders = set.cell_count_by_order();
        Statistics {
            moc_order,
            pixels: set.count(),
            ranges: set.range_count() as u64,
            cells: total(&orders),
            orders,
        }
    }

    /// Returns the MOC order that the text of the set states.
    pub fn moc_order(&self) -> Option<Order>
        ensures { result ≡ self.now.moc_order }
    {
        self.moc_order
    }

    /// Returns the number of pixels of order 29.
    pub fn count(&self) -> u64
        ensures { result ≡ self.now.pixels }
    {
        self.pixels
    }

    /// Returns the number of ranges of pixels of order 29.
    pub fn range_count(&self) -> u64
        ensures { result ≡ self.now.ranges }
    {
        self.ranges
    }

    /// Returns the number of cells: those that are not part of a larger cell of the set.
    pub fn cell_count(&self) -> u64
        ensures { result ≡ self.now.cells }
    {
        self.cells
    }

    /// Returns the number of these cells that have the given order.
    pub fn cells_of(&self, order: Order) -> u64
        ensures { result ≡ slice_index self.now.orders order }
    {
        self.orders[usize::from(order.get())]
    }

    /// Returns the share of the sky in parts of 10^12, rounded down: 88541666666 for 0.088541666666. O(1); allocates
    /// nothing.
    pub fn share(&self) -> u64
        ensures { result ≡ share_of self.now.pixels }
    {
        part(self.pixels, SKY)
    }

    /// Returns the area in units of 10^-12 square degrees, rounded down: 41252961249419271 for the whole sky. O(1);
    /// allocates nothing.
    pub fn area(&self) -> u64
        ensures { result ≡ part_of sky_area self.now.pixels }
    {
        part(self.pixels, SKY_AREA)
    }
}

/// Returns the part of a quantity of the whole sky that belongs to a number of pixels.
fn part(pixels: u64, whole: u64) -> u64
    requires { whole < pixel_count }
    ensures { result ≡ part_of whole pixels }
{
    let parts = u128::from(pixels) * u128::from(whole) / u128::from(PIXEL_COUNT);
    parts as u64
}

impl fmt::Display for Statistics {
    ghost use Rattle.std.specs.Prelude.{Some};
    ghost use Rattle.moc_forms.specs.Describing.{statistics_text};

    ghost output = { λ statistics. Some (statistics_text statistics) };

    fn fmt<W: fmt::Write>(&self, f: &mut fmt::Formatter<W>) -> fmt::Result {
        write_moc_order(f, self.moc_order)?;
        writeln!(f, "pixels {}", self.pixels)?;
        write_sky(f, self.pixels)?;
        writeln!(f, "ranges {}", self.ranges)?;
        writeln!(f, "cells {}", self.cells)?;
        write_orders(f, &self.orders)
    }
}

/// Writes the line of the MOC order.
fn write_moc_order<W: fmt::Write>(
    f: &mut fmt::Formatter<W>,
    moc_order: Option<Order>,
) -> fmt::Result
    ensures { WritesOnOk W.write_str_gives f.old result (moc_order_line moc_order) f.new }
{
    match moc_order {
        Some(order) => writeln!(f, "deepest {order}"),
        None => writeln!(f, "deepest none"),
    }
}

/// Writes the lines of the share of the sky and of the area of a number of pixels.
fn write_sky<W: fmt::Write>(f: &mut fmt::Formatter<W>, pixels: u64) -> fmt::Result
    ensures { WritesOnOk W.write_str_gives f.old result (share_line pixels ++ area_line pixels) f.new }
{
    write_part(f, "share ", pixels, SKY, FINE_SKY)?;
    write_part(f, "area ", pixels, SKY_AREA, FINE_SKY_AREA)
}

/// Writes a line with a word and the part of a quantity of the whole sky that belongs to a number of pixels. The whole
/// sky has the given numbers of units of 10^-12 and of 10^-24.
fn write_part<W: fmt::Write>(
    f: &mut fmt::Formatter<W>,
    word: &str,
    pixels: u64,
    whole: u64,
    fine: u128,
) -> fmt::Result
    requires parts { 10 ^ 12 ≤ whole }
    requires low { whole < pixel_count }
    requires fine_parts { fine < 2 ^ 96 }
    ensures { WritesOnOk W.write_str_gives f.old result (word.now ++ part_text whole fine pixels ++ 10 ∷ []) f.new }
{
    let parts = part(pixels, whole);
    if parts == 0 && pixels > 0 {
        let fine_parts = u128::from(pixels) * fine / u128::from(PIXEL_COUNT);
        return write_fine(f, word, fine_parts);
    }
    write_fraction(f, word, u128::from(parts))
}

/// Writes a line with a word and a number of units of 10^-12, as a decimal fraction with twelve digits after the point.
/// The word is followed by nothing, so it ends with a space.
pub fn write_fraction<W: fmt::Write>(
    f: &mut fmt::Formatter<W>,
    word: &str,
    units: u128,
) -> fmt::Result
    ensures { WritesOnOk W.write_str_gives f.old result (word.now ++ decimal_fraction 12 units ++ 10 ∷ []) f.new }
{
    writeln!(f, "{word}{}.{:012}", units / UNITS, units % UNITS)
}

/// Writes a line with a word and a number of units of 10^-24.
fn write_fine<W: fmt::Write>(f: &mut fmt::Formatter<W>, word: &str, parts: u128) -> fmt::Result
    ensures { WritesOnOk W.write_str_gives f.old result (word.now ++ decimal_fraction 24 parts ++ 10 ∷ []) f.new }
{
    writeln!(f, "{word}{}.{:024}", parts / FINE_SKY, parts % FINE_SKY)
}

/// Writes a line for each order that has cells.
#[tactic(auto, unfolding(crate::specs::Describing::order_lines_below))]
fn write_orders<W: fmt::Write>(f: &mut fmt::Formatter<W>, orders: &[u64; 30]) -> fmt::Result
    ensures { WritesOnOk W.write_str_gives f.old result (order_lines_below orders.now 30) f.new }
{
    for order in 0..30 {
        write_order(f, order, orders[order])?;
    }
    Ok(())
}

/// Writes the line of an order with its number of cells, if the number is not zero.
fn write_order<W: fmt::Write>(f: &mut fmt::Formatter<W>, order: usize, count: u64) -> fmt::Result
    ensures { WritesOnOk W.write_str_gives f.old result (order_line order count) f.new }
{
    if count > 0 {
        writeln!(f, "order {order} {count}")?;
    }
    Ok(())
}

/// Returns the sum of the counts.
fn total(counts: &[u64]) -> u64
    requires { sum counts.now < uniq_end }
    ensures { result ≡ sum counts.now }
{
    counts.iter().sum()
}

/// Returns the text of the statistics of a set, given the MOC order that its text states.
///
/// # Errors
/// Fails with `Memory` if an allocation fails.
///
/// # Complexity
/// As `Statistics::of`.
///
/// # Memory
/// Allocates only the text.
pub fn describe(alloc: Global, set: &Coverage, moc_order: Option<Order>) -> Result<String, Memory>
    ensures { IfOk result (λ t. Describes set.now moc_order (string_bytes t)) }
{
    let statistics = Statistics::of(set, moc_order);
    Ok(format!(in alloc; "{statistics}")?)
}
