//! The number of cells of each order of a range.
ghost use Rattle.std.specs.Prelude.{◌≡◌, ◌+◌, ◌<◌, ◌≤◌, ℕ, length, slice_index};
ghost use Rattle.moc_blocks.specs.RangeList.{pixel_count};
ghost use Rattle.moc_ranges.specs.Private.CellCounts.{AreAddedFrom, range_cell_count};
ghost use Rattle.moc_sphere.specs.CellNumber.{max_order};

/// The number of orders.
pub const ORDER_COUNT: usize = 30;

/// Adds the number of cells of each order of a range: of those inside the range whose parent is not inside it.
///
/// The cells of an order inside a range are one run. The parents whose four children are all in the run are the run of
/// the order above. The cells before and after these parents are cells of the range. There are none at orders whose
/// parents have sizes that divide both ends of the range.
pub fn add_cells(counts: &mut [u64; ORDER_COUNT], from: u64, to: u64)
    requires ascending { from < to }
    requires within { to ≤ pixel_count }
    requires capacity { (k : ℕ) → k ≤ max_order → slice_index counts.old k + range_cell_count from to k ≤ pixel_count }
    ensures { AreAddedFrom 0 from to counts.old counts.new }
{
    let skipped = ((from | to).trailing_zeros() / 2).min(29);
    let mut first = from >> (2 * skipped);
    let mut end = to >> (2 * skipped);
    for order in (1..ORDER_COUNT - skipped as usize).rev() {
        let first_parent = (first + 3) / 4;
        let end_parent = end / 4;
        if end_parent <= first_parent {
            counts[order] += end - first;
            return;
        }
        let before = 4 * first_parent - first;
        let after = end - 4 * end_parent;
        counts[order] += before + after;
        first = first_parent;
        end = end_parent;
    }
    counts[0] += end - first;
}
