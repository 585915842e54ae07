//! The cells of one order of a set, as runs of consecutive indices.
ghost use Rattle.std.specs.Iterator.{YieldsFirst, UpTo, at_most, item_count};
ghost use Rattle.std.specs.Iterator.SizeHint.{IsWithinCount};

use moc_lists::Ranges;
use moc_operations::write_if_nonempty;
use moc_sphere::Order;
use std::fmt;
use std::marker::Model;

/// The maximum number of runs in the buffer.
const MAX_BUFFERED: usize = 32;

/// An iterator over the cells of one order of a set, as half-open ranges (first, end) of their indices. The ranges are
/// in ascending order, none is empty, and none touches the next.
#[derive(Drop)]
pub struct CellRanges<'a> {
    order: Order,
    ranges: Ranges<'a>,
    /// A buffer of `count` runs, which are computed in bulk. No branch depends on the contents of a range, because it
    /// could not be predicted.
    buffer: [(u64, u64); MAX_BUFFERED],
    count: usize,
    returned: usize,
}

impl<'a> Model for CellRanges<'a> {
    ghost use Rattle.std.specs.Prelude.{List, ℕ, ◌≡◌, ◌++◌, ◌≤◌, length};
    ghost use Rattle.moc_blocks.specs.RangeList.{IsNormal};
    ghost use Rattle.moc_ranges.specs.Private.CellRuns.{remaining_ranges, pieces_along};

    ghost Value = { List (ℕ × ℕ) };

    ghost view = { λ c. remaining_ranges c.buffer c.returned c.count ++ pieces_along c.order c.ranges };

    ghost invariant = { λ c. IsNormal c.ranges × (length c.buffer ≡ 32) × (c.count ≤ 32) × (c.returned ≤ c.count) };
}

ghost use Rattle.std.specs.Prelude.{◌≡◌, ◌++◌, ◌<◌, ◌≤◌, [], length, take, IfSome};
ghost use Rattle.moc_blocks.specs.RangeList.{IsNormal, pixel_count};
ghost use Rattle.moc_ranges.specs.Private.CellRuns.{pieces_along, pieces_of, inner_cells_of};

/// Returns the cells of an order that are inside a range, as a half-open range of indices.
#[inline(always)]
fn inner_cells(order: Order, from: u64, to: u64) -> (u64, u64)
    requires ascending { from < to }
    requires within { to ≤ pixel_count }
    ensures { result ≡ inner_cells_of order (from, to) }
{
    let shift = 2 * (29 - order.get());
    let size = order.cell_size();
    ((from + (size - 1)) >> shift, to >> shift)
}

/// Returns the cells of an order that are inside a range, without those of parents that are inside it: the cells before
/// these parents, and those after them. If no parent is inside the range, returns all cells and an empty run.
#[inline(always)]
fn pieces(order: Order, from: u64, to: u64) -> ((u64, u64), (u64, u64))
    requires ascending { from < to }
    requires within { to ≤ pixel_count }
    ensures { result ≡ pieces_of order (from, to) }
{
    let (first, last) = inner_cells(order, from, to);
    let low = (first + 3) / 4 * 4;
    let high = last / 4 * 4;
    if order.get() > 0 && low < high {
        ((first, low), (high, last))
    } else {
        ((first, last), (last, last))
    }
}

/// Fills the buffer while it has room for the runs of one more range, and returns the number of runs in it.
fn fill_buffer(order: Order, ranges: &mut Ranges<'_>, buffer: &mut [(u64, u64)]) -> usize
    requires normal { IsNormal ranges.old }
    requires capacity { 2 ≤ length buffer.old }
    ensures normal { IsNormal ranges.new }
    ensures value { take result buffer.new ++ pieces_along order ranges.new ≡ pieces_along order ranges.old }
    ensures capacity { length buffer.new ≡ length buffer.old }
    ensures within { result ≤ length buffer.old }
    ensures none { result ≡ 0 → ranges.new ≡ [] }
{
    let mut count = 0;
    while count < buffer.len() - 1 {
        let Some((from, to)) = ranges.next() else {
            return count;
        };
        let (first, second) = pieces(order, from, to);
        count = write_if_nonempty(buffer, count, first.0, first.1);
        count = write_if_nonempty(buffer, count, second.0, second.1);
    }
    count
}

impl<'a> CellRanges<'a> {
    /// Returns an iterator over the cells of the order in the ranges.
    #[inline]
    pub(crate) fn new(order: Order, ranges: Ranges<'a>) -> Self
        requires { IsNormal ranges }
        ensures { result ≡ pieces_along order ranges.entry }
    {
        CellRanges {
            order,
            ranges,
            buffer: [(0, 0); MAX_BUFFERED],
            count: 0,
            returned: 0,
        }
    }
}

/// Writes the order.
impl fmt::Debug for CellRanges<'_> {
    fn fmt<W: fmt::Write>(&self, f: &mut fmt::Formatter<W>) -> fmt::Result {
        write!(f, "CellRanges {{ order: {}, .. }}", self.order)
    }
}

impl<'a> Iterator for CellRanges<'a> {
    type Item = (u64, u64);

    ghost next_gives = { YieldsFirst (λ s. s) };

    ghost remaining = { item_count (λ s. s) };

    #[inline]
    fn next(&mut self) -> Option<(u64, u64)> {
        if self.returned < self.count {
            let run = self.buffer[self.returned];
            self.returned += 1;
            return Some(run);
        }
        let count = fill_buffer(self.order, &mut self.ranges, &mut self.buffer);
        if count == 0 {
            return None;
        }
        self.count = count;
        self.returned = 1;
        Some(self.buffer[0])
    }

    /// Returns at least the number of runs in the buffer, and at most two more for each remaining range.
    fn size_hint(&self) -> (usize, Option<usize>)
        ensures lower { IsWithinCount result.0 (at_most (length self.now)) }
        ensures upper { IfSome result.1 (UpTo (at_most (length self.now))) }
    {
        let ahead = self.count - self.returned;
        let ranges = self.ranges.size_hint().0;
        (ahead, Some(ahead + 2 * ranges))
    }
}
