//! Small and large coverages; each call that allocates is run once.
ghost use Rattle.std.specs.Prelude.{◌≤◌};

use crate::shown::{is_debugged, is_shown};
use moc_ranges::{Coverage, CoverageBuilder, Memory, PIXEL_COUNT, RangesError, Steps};
use moc_sphere::{Cell, Order};
use std::alloc::Global;
use std::process::Abort;

/// Returns the union of these pairs.
fn set_of(rt: &impl Abort, alloc: Global, pairs: &[(u64, u64)]) -> Coverage {
    Coverage::from_ranges(alloc, pairs).expect(rt, "pairs")
}

/// Returns a copy of a set.
fn copy_of(rt: &impl Abort, alloc: Global, set: &Coverage) -> Coverage {
    set.try_copy(alloc).expect(rt, "memory")
}

/// Returns the error for invalid pairs.
fn error_of_pairs(alloc: Global, pairs: &[(u64, u64)]) -> Option<RangesError> {
    Coverage::from_ranges(alloc, pairs).err()
}

/// Checks the ranges of a set.
fn assert_ranges(rt: &impl Abort, set: &Coverage, ranges: &[(u64, u64)]) {
    let mut seen = set.ranges();
    for range in ranges {
        assert_eq!(rt; seen.next(), Some(*range));
    }
    assert_eq!(rt; seen.next(), None);
}

/// Checks the number of cells of a set, and the first ones.
fn has_cells(
    rt: &impl Abort,
    alloc: Global,
    set: &Coverage,
    count: usize,
    beginning: &[(u8, u64)],
) {
    let cells = set.cells(alloc).expect(rt, "memory");
    assert_eq!(rt; cells.len(), count);
    for (cell, (order, index)) in cells.iter().zip(beginning) {
        assert_eq!(rt; (cell.order().get(), cell.index()), (*order, *index));
    }
}

#[test]
fn pairs(rt: HostRuntime) {
    let set = set_of(&rt, rt.alloc(), &[(4, 8), (8, 9), (0, 4)]);
    assert_ranges(&rt, &set, &[(0, 9)]);
    assert_eq!(rt; set.count(), 9);
    assert!(rt; set.contains(8) && !set.contains(9));
}

#[test]
fn sets_are_debugged_by_their_ranges(rt: HostRuntime) {
    let alloc = rt.alloc();
    is_debugged(&rt, alloc, &Coverage::empty(alloc), "{}");
    let set = set_of(&rt, alloc, &[(0, 4), (6, 8)]);
    is_debugged(&rt, alloc, &set, "{0..4, 6..8}");
    is_debugged(&rt, alloc, &set.chunks(), "[2]");
    let mut ranges = set.ranges();
    assert_eq!(rt; ranges.next(), Some((0, 4)));
    is_debugged(&rt, alloc, &ranges, "{6..8}");
}

#[test]
fn a_pair_of_no_pixels(rt: HostRuntime) {
    let none = set_of(&rt, rt.alloc(), &[(7, 7)]);
    assert!(rt; none.is_empty());
    assert!(rt; none.same(&Coverage::empty(rt.alloc())));
    has_cells(&rt, rt.alloc(), &none, 0, &[]);
}

#[test]
fn invalid_pairs(rt: HostRuntime) {
    let backwards = error_of_pairs(rt.alloc(), &[(5, 4)]);
    assert_eq!(rt; backwards, Some(RangesError::Backwards { at: 0 }));
    let large = error_of_pairs(rt.alloc(), &[(0, 1), (0, 3458764513820540929)]);
    assert_eq!(rt; large, Some(RangesError::PixelTooLarge { at: 1 }));
}

#[test]
fn lists_of_cells(rt: HostRuntime) {
    let set = set_of(&rt, rt.alloc(), &[(3, 9)]);
    has_cells(&rt, rt.alloc(), &set, 3, &[(28, 1), (29, 3), (29, 8)]);
}

/// Returns the whole sky without its first pixel.
fn all_but_one_pixel(rt: &impl Abort, alloc: Global) -> Coverage {
    let one = set_of(rt, alloc, &[(0, 1)]);
    one.complement(alloc).expect(rt, "memory")
}

#[test]
fn cells_of_all_but_one_pixel(rt: HostRuntime) {
    let rest = all_but_one_pixel(&rt, rt.alloc());
    has_cells(&rt, rt.alloc(), &rest, 98, &[(0, 1)]);
}

#[test]
fn the_last_cell_of_all_but_one_pixel(rt: HostRuntime) {
    let rest = all_but_one_pixel(&rt, rt.alloc());
    let cells = rest.cells(rt.alloc()).expect(&rt, "memory");
    let last = cells.last().expect(&rt, "a cell");
    assert_eq!(rt; (last.order().get(), last.index()), (29, 3));
}

#[test]
fn two_sets(rt: HostRuntime) {
    let a = set_of(&rt, rt.alloc(), &[(0, 8)]);
    let b = set_of(&rt, rt.alloc(), &[(4, 12)]);
    let either = a.union(rt.alloc(), &b).expect(&rt, "memory");
    assert_ranges(&rt, &either, &[(0, 12)]);
    let both = a.intersection(rt.alloc(), &b).expect(&rt, "memory");
    assert_ranges(&rt, &both, &[(4, 8)]);
    assert!(rt; either.covers(&a) && !a.covers(&either));
}

#[test]
fn differences_of_two_sets(rt: HostRuntime) {
    let a = set_of(&rt, rt.alloc(), &[(0, 8)]);
    let b = set_of(&rt, rt.alloc(), &[(4, 12)]);
    let first = a.difference(rt.alloc(), &b).expect(&rt, "memory");
    assert_ranges(&rt, &first, &[(0, 4)]);
    let one = a.symmetric(rt.alloc(), &b).expect(&rt, "memory");
    assert_ranges(&rt, &one, &[(0, 4), (8, 12)]);
}

#[test]
fn common_pixels_of_two_sets(rt: HostRuntime) {
    let a = set_of(&rt, rt.alloc(), &[(0, 8)]);
    let b = set_of(&rt, rt.alloc(), &[(4, 12)]);
    assert_eq!(rt; a.count_common(&b), 4);
    assert!(rt; a.meets(&b));
}

/// Checks which base pixels a set meets, and which it covers.
fn is_in_base_pixels(rt: &impl Abort, set: &Coverage, rows: &[(u8, bool, bool)]) {
    for (pixel, meets, covers) in rows {
        assert_eq!(rt; set.meets_base_pixel(*pixel), *meets);
        assert_eq!(rt; set.covers_base_pixel(*pixel), *covers);
    }
}

#[test]
fn a_part_of_the_sky(rt: HostRuntime) {
    let third = Coverage::full(rt.alloc())
        .expect(&rt, "memory")
        .part(rt.alloc(), 3)
        .expect(&rt, "memory");
    assert_ranges(&rt, &third, &[(864691128455135232, 1152921504606846976)]);
    is_in_base_pixels(&rt, &third, &[(3, true, true), (2, false, false)]);
}

#[test]
fn no_part_of_the_sky(rt: HostRuntime) {
    let sky = Coverage::full(rt.alloc()).expect(&rt, "memory");
    assert_ranges(&rt, &sky.part(rt.alloc(), 12).expect(&rt, "memory"), &[]);
    is_in_base_pixels(&rt, &sky, &[(12, false, true), (11, true, true)]);
}

#[test]
fn base_pixels_one_by_one(rt: HostRuntime) {
    let pairs = [
        (288230376151711743, 288230376151711745),
        (864691128455135232, 864691128455135233),
    ];
    let set = set_of(&rt, rt.alloc(), &pairs);
    for (from, found) in [
        (0u8, Some(0u8)),
        (1, Some(1)),
        (2, Some(3)),
        (4, None),
        (12, None),
    ] {
        assert_eq!(rt; set.next_base_pixel(from), found);
    }
}

#[test]
fn a_set_of_a_coarser_order(rt: HostRuntime) {
    let wide = set_of(&rt, rt.alloc(), &[(3, 4)])
        .degrade(rt.alloc(), Order::of(28))
        .expect(&rt, "memory");
    assert_ranges(&rt, &wide, &[(0, 4)]);
}

#[test]
fn the_set_of_a_cell(rt: HostRuntime) {
    let last = Cell::new(Order::of(1), 47).expect(&rt, "a cell");
    let one = Coverage::from_cell(rt.alloc(), last).expect(&rt, "memory");
    assert_ranges(&rt, &one, &[(3386706919782612992, 3458764513820540928)]);
    assert!(rt; copy_of(&rt, rt.alloc(), &one).same(&one));
}

#[test]
fn cells_and_sets(rt: HostRuntime) {
    let set = set_of(&rt, rt.alloc(), &[(3, 8)]);
    for (index, meets, contains) in [(0, true, false), (1, true, true), (2, false, false)] {
        let cell = Cell::of(Order::of(28), index);
        assert_eq!(rt;
            (set.meets_cell(cell), set.contains_cell(cell)),
            (meets, contains)
        );
    }
}

#[test]
fn sets_are_compared(rt: HostRuntime) {
    let set = set_of(&rt, rt.alloc(), &[(3, 8), (12, 13)]);
    assert!(rt; set == copy_of(&rt, rt.alloc(), &set));
    assert!(rt; set != Coverage::empty(rt.alloc()));
}

#[test]
fn ranges_one_by_one(rt: HostRuntime) {
    let set = set_of(&rt, rt.alloc(), &[(3, 8), (12, 13)]);
    assert_eq!(rt; set.ranges().size_hint(), (2, Some(2)));
    let mut pixels = 0u64;
    for (from, to) in &set {
        pixels = pixels.saturating_add(to.saturating_sub(from));
    }
    assert_eq!(rt; pixels, 6);
}

#[test]
fn pixels_and_where_that_changes(rt: HostRuntime) {
    let set = set_of(&rt, rt.alloc(), &[(3, 8), (9, 3458764513820540928)]);
    for (pixel, wanted) in [
        (0, (false, 3)),
        (2, (false, 3)),
        (3, (true, 8)),
        (7, (true, 8)),
        (8, (false, 9)),
        (9, (true, 3458764513820540928)),
        (3458764513820540928, (false, u64::MAX)),
    ] {
        assert_eq!(rt; set.contains_until(pixel), wanted);
    }
    let none = Coverage::empty(rt.alloc());
    assert_eq!(rt; none.contains_until(0), (false, u64::MAX));
}

#[test]
fn cells_of_a_builder(rt: HostRuntime) {
    let deepest = Order::of(29);
    let mut builder = CoverageBuilder::new(rt.alloc());
    builder.add_cells(deepest, 8, 9).expect(&rt, "memory");
    builder.add_cells(deepest, 12, 11).expect(&rt, "memory");
    builder
        .add_cell(Cell::of(Order::of(28), 0))
        .expect(&rt, "memory");
    builder.add_cells(deepest, 9, 10).expect(&rt, "memory");
    let set = builder.build().expect(&rt, "memory");
    assert_ranges(&rt, &set, &[(0, 4), (8, 11)]);
}

#[test]
fn lists_of_cells_of_a_builder(rt: HostRuntime) {
    let two = [Cell::of(Order::of(29), 3), Cell::of(Order::of(28), 5)];
    let cells = set_of(&rt, rt.alloc(), &[(0, 4), (8, 11)])
        .cells(rt.alloc())
        .expect(&rt, "memory");
    let mut builder = CoverageBuilder::new(rt.alloc());
    builder.extend(two.iter().copied()).expect(&rt, "memory");
    builder.extend(cells).expect(&rt, "memory");
    let set = builder.build().expect(&rt, "memory");
    assert_ranges(&rt, &set, &[(0, 4), (8, 11), (20, 24)]);
}

#[test]
fn the_set_of_some_cells(rt: HostRuntime) {
    let deepest = Order::of(29);
    let cells = [
        Cell::of(deepest, 9),
        Cell::of(Order::of(28), 0),
        Cell::of(deepest, 8),
        Cell::of(deepest, 3),
        Cell::of(deepest, 9),
    ];
    let set = Coverage::from_cells(rt.alloc(), &cells).expect(&rt, "memory");
    assert_ranges(&rt, &set, &[(0, 4), (8, 10)]);
    let none = Coverage::from_cells(rt.alloc(), &[]).expect(&rt, "memory");
    assert_ranges(&rt, &none, &[]);
}

// Each first cell comes after the third, and is buffered. A buffer of 512 cells is merged with the others: 39 times.
#[test]
fn buffered_cells_are_merged(rt: HostRuntime) {
    let mut builder = CoverageBuilder::new(rt.alloc());
    for _ in 0..20000 {
        builder.add_cells(Order::MAX, 2, 2).expect(&rt, "memory");
        builder.add_cells(Order::MAX, 0, 0).expect(&rt, "memory");
    }
    let text = "CoverageBuilder { joined: 2, ascending: 1, waiting: 32 }";
    is_debugged(&rt, rt.alloc(), &builder, text);
}

/// Checks the runs of a set's cells of one order.
fn has_runs(rt: &impl Abort, set: &Coverage, order: u8, runs: &[(u64, u64)])
    requires { order ≤ 29 }
{
    let mut seen = set.cell_ranges(Order::of(order));
    for run in runs {
        assert_eq!(rt; seen.next(), Some(*run));
    }
    assert_eq!(rt; seen.next(), None);
}

#[test]
fn runs_of_cells(rt: HostRuntime) {
    let set = set_of(&rt, rt.alloc(), &[(3, 9), (16, 64)]);
    assert_eq!(rt; set.cell_orders(), (27, 30));
    has_runs(&rt, &set, 26, &[]);
    has_runs(&rt, &set, 27, &[(1, 4)]);
    has_runs(&rt, &set, 28, &[(1, 2)]);
    has_runs(&rt, &set, 29, &[(3, 4), (8, 9)]);
}

// The first call of `next` makes the runs of all ranges if there are few.
#[test]
fn hints_of_runs_of_cells(rt: HostRuntime) {
    let set = set_of(&rt, rt.alloc(), &[(3, 9), (16, 64)]);
    let mut seen = set.cell_ranges(Order::of(29));
    assert_eq!(rt; seen.size_hint(), (0, Some(4)));
    assert_eq!(rt; seen.next(), Some((3, 4)));
    assert_eq!(rt; seen.size_hint(), (1, Some(1)));
    assert_eq!(rt; seen.next(), Some((8, 9)));
    assert_eq!(rt; seen.size_hint(), (0, Some(0)));
}

// A cell of order k has 4^(29 - k) pixels. The range from 3 to 9 has the pixel 3, the cell 28/1 and the pixel 8. The
// range from 16 to 64 has the cells 27/1 to 27/3.
#[test]
fn numbers_of_cells_by_order(rt: HostRuntime) {
    let set = set_of(&rt, rt.alloc(), &[(3, 9), (16, 64)]);
    let mut counts = [0; 30];
    assert_eq!(rt; Coverage::empty(rt.alloc()).cell_count_by_order(), counts);
    counts[27] = 3;
    counts[28] = 1;
    counts[29] = 2;
    assert_eq!(rt; set.cell_count_by_order(), counts);
}

#[test]
fn number_of_cells_of_the_sky(rt: HostRuntime) {
    let sky = Coverage::full(rt.alloc()).expect(&rt, "memory");
    let mut counts = [0; 30];
    counts[0] = 12;
    assert_eq!(rt; sky.cell_count_by_order(), counts);
}

// Three cells of each order remain: the siblings of the cells that have the first pixel.
#[test]
fn number_of_cells_of_a_base_pixel_without_its_first_pixel(rt: HostRuntime) {
    let set = set_of(&rt, rt.alloc(), &[(1, PIXEL_COUNT / 12)]);
    let mut counts = [3; 30];
    counts[0] = 0;
    assert_eq!(rt; set.cell_count_by_order(), counts);
}

#[test]
fn runs_of_cells_of_the_sky(rt: HostRuntime) {
    let sky = Coverage::full(rt.alloc()).expect(&rt, "memory");
    assert_eq!(rt; sky.cell_ranges(Order::of(0)).next(), Some((0, 12)));
}

/// Checks the number of ranges of a set, and its deepest order.
fn has_order(rt: &impl Abort, set: &Coverage, ranges: usize, order: u8) {
    assert_eq!(rt; set.range_count(), ranges);
    assert_eq!(rt; set.deepest_order().get(), order);
}

// The order is 29 minus half the number of common trailing zero bits of all bounds. Cell 3/10 is the pixels from
// 10 * 4^26 up to 11 * 4^26.
#[test]
fn ranges_and_deepest_orders(rt: HostRuntime) {
    let cases: [(&[(u64, u64)], usize, u8); 7] = [
        (&[], 0, 0),
        (&[(0, 3458764513820540928)], 1, 0),
        (&[(0, 288230376151711744)], 1, 0),
        (&[(45035996273704960, 49539595901075456)], 1, 3),
        (&[(0, 4), (8, 12)], 2, 28),
        (&[(3, 4), (64, 128)], 2, 29),
        (&[(16, 3458764513820540928)], 1, 27),
    ];
    for (pairs, count, order) in cases {
        let set = set_of(&rt, rt.alloc(), pairs);
        has_order(&rt, &set, count, order);
    }
    let many = dots(&rt, rt.alloc(), 12800);
    has_order(&rt, &many, 12800, 29);
}

/// Every third of 6,000 pixels, added in a shuffled order: 7 and 6,000 are coprime, so that i * 7 takes every value
/// below 6,000 once.
fn thirds(rt: &impl Abort, alloc: Global) -> Coverage {
    let mut builder = CoverageBuilder::new(alloc);
    for i in 0..6000u64 {
        let pixel = i * 7 % 6000;
        if pixel % 3 == 0 {
            let added = builder.add_cells(Order::MAX, pixel, pixel);
            added.expect(rt, "memory");
        }
    }
    builder.build().expect(rt, "memory")
}

/// The same set, from pairs in the same order.
fn thirds_of_pairs(rt: &impl Abort, alloc: Global) -> Coverage {
    let mut pairs = Vec::new(alloc);
    for i in 0..6000u64 {
        let pixel = i * 7 % 6000;
        if pixel % 3 == 0 {
            pairs.push((pixel, pixel + 1)).expect(rt, "memory");
        }
    }
    set_of(rt, alloc, &pairs)
}

#[test]
fn many_cells_in_mixed_order(rt: HostRuntime) {
    let set = thirds(&rt, rt.alloc());
    assert_eq!(rt; set.count(), 2000);
    let mut next = 0u64;
    for (from, to) in set.ranges() {
        assert_eq!(rt; (from, to), (next, next.saturating_add(1)));
        next = next.saturating_add(3);
    }
    assert_eq!(rt; next, 6000);
    assert!(rt; thirds_of_pairs(&rt, rt.alloc()).same(&set));
}

#[test]
fn texts_of_errors(rt: HostRuntime) {
    let alloc = rt.alloc();
    is_shown(&rt, alloc, &Memory, "out of memory");
    is_shown(&rt, alloc, &RangesError::Memory, "out of memory");
    let backwards = RangesError::Backwards { at: 2 };
    is_shown(&rt, alloc, &backwards, "the pair 2 ends before it begins");
    let large = RangesError::PixelTooLarge { at: 0 };
    is_shown(&rt, alloc, &large, "the pair 0 passes the last pixel");
}

/// Every second one of the first pixels: the ranges (2j, 2j + 1) for each j below a number.
fn dots(rt: &impl Abort, alloc: Global, count: u16) -> Coverage {
    let mut pairs = Vec::new(alloc);
    for j in 0..count {
        let from = 2 * u64::from(j);
        pairs.push((from, from + 1)).expect(rt, "memory");
    }
    set_of(rt, alloc, &pairs)
}

/// Checks the lengths of a set's chunks.
fn has_chunks(rt: &impl Abort, set: &Coverage, lengths: &[usize]) {
    let mut chunks = set.chunks();
    for length in lengths {
        assert_eq!(rt; chunks.next().expect(rt, "a chunk").len(), *length);
    }
    assert!(rt; chunks.next().is_none());
}

fn number_of_chunks(set: &Coverage) -> usize {
    let mut count = 0usize;
    for _ in set.chunks() {
        count = count.saturating_add(1);
    }
    count
}

#[test]
fn numbers_of_chunks(rt: HostRuntime) {
    for (count, chunks) in [
        (0u16, 0usize),
        (1, 1),
        (128, 1),
        (129, 2),
        (12800, 100),
        (16384, 128),
    ] {
        let set = dots(&rt, rt.alloc(), count);
        assert_eq!(rt; number_of_chunks(&set), chunks);
    }
}

#[test]
fn merged_chunks(rt: HostRuntime) {
    let sky = set_of(&rt, rt.alloc(), &[(0, 25600)]);
    let whole = dots(&rt, rt.alloc(), 12800)
        .union(rt.alloc(), &sky)
        .expect(&rt, "memory");
    assert_ranges(&rt, &whole, &[(0, 25600)]);
    has_chunks(&rt, &whole, &[1]);
    assert_eq!(rt; whole.ranges().size_hint(), (1, Some(1)));
}

#[test]
fn lengths_of_chunks(rt: HostRuntime) {
    let set = dots(&rt, rt.alloc(), 256);
    has_chunks(&rt, &set, &[128, 128]);
    let first = set_of(&rt, rt.alloc(), &[(0, 1)]);
    let rest = set.difference(rt.alloc(), &first).expect(&rt, "memory");
    has_chunks(&rt, &rest, &[127, 128]);
}

/// Checks the result of a look-up, and that it takes at most this number of steps.
fn is_found_within(rt: &impl Abort, set: &Coverage, pixel: u64, most: u64) {
    let mut steps = Steps::new();
    let found = set.contains_counting(pixel, &mut steps);
    assert_eq!(rt; found, set.contains(pixel));
    assert!(rt; steps.get() <= most);
}

#[test]
fn steps_of_look_ups(rt: HostRuntime) {
    for (count, most) in [(0u16, 0u64), (1, 9), (128, 9), (129, 10), (12800, 15)] {
        let set = dots(&rt, rt.alloc(), count);
        for pixel in [0u64, 1, 2, 254, 256, 12800, 12801, 25598, 25599, 25600] {
            is_found_within(&rt, &set, pixel, most);
        }
    }
}

/// Returns the number of steps of a look-up.
fn steps_of(set: &Coverage, pixel: u64) -> u64 {
    let mut steps = Steps::new();
    set.contains_counting(pixel, &mut steps);
    steps.get()
}

// Each look-up halves the blocks, and then the ranges of the block: of 100 blocks it compares 50, 25, 12, 6, 3, 1 and
// 0, and of 128 ranges 64, 32, 16, 8, 4, 2, 1 and 0. A set of at most 128 ranges has no blocks.
#[test]
fn exact_steps_of_look_ups(rt: HostRuntime) {
    for (count, pixel, steps) in [
        (0u16, 0u64, 0u64),
        (1, 0, 1),
        (1, 1, 1),
        (128, 0, 8),
        (128, 128, 1),
        (12800, 0, 15),
        (12800, 12800, 9),
        (12800, 12801, 9),
        (12800, 25600, 6),
    ] {
        let set = dots(&rt, rt.alloc(), count);
        assert_eq!(rt; steps_of(&set, pixel), steps);
    }
}

#[test]
fn looking_at_many_blocks(rt: HostRuntime) {
    let set = dots(&rt, rt.alloc(), 12800);
    assert!(rt; !set.is_empty());
    assert!(rt; set.same(&copy_of(&rt, rt.alloc(), &set)));
    assert_eq!(rt; set.next_pixel(12801), Some(12802));
    assert_eq!(rt; set.next_pixel(25599), None);
}

/// Checks the number of common pixels of two sets, with either set first.
fn have_in_common(rt: &impl Abort, a: &Coverage, b: &Coverage, pixels: u64) {
    assert_eq!(rt; (a.count_common(b), b.count_common(a)), (pixels, pixels));
    assert_eq!(rt; (a.meets(b), b.meets(a)), (pixels > 0, pixels > 0));
}

#[test]
fn many_blocks_and_few(rt: HostRuntime) {
    let set = dots(&rt, rt.alloc(), 12800);
    let row = set_of(&rt, rt.alloc(), &[(4001, 9001), (25599, 25600)]);
    have_in_common(&rt, &set, &row, 2500);
    assert!(rt; !set.covers(&row) && !row.covers(&set));
    let gaps = set_of(&rt, rt.alloc(), &[(1, 2), (12801, 12802), (25599, 25700)]);
    have_in_common(&rt, &set, &gaps, 0);
}

#[test]
fn many_blocks_cover_few(rt: HostRuntime) {
    let set = dots(&rt, rt.alloc(), 12800);
    let few = set_of(&rt, rt.alloc(), &[(0, 1), (12800, 12801), (25598, 25599)]);
    assert!(rt; set.covers(&few) && !few.covers(&set) && !few.same(&set));
}

/// Inserts a range, and checks how many of its pixels are new.
fn insert(rt: &impl Abort, alloc: Global, set: &mut Coverage, from: u64, to: u64, new: u64)
    requires { to ≤ 12006 }
{
    assert_eq!(rt;
        set.insert_range(alloc, from, to),
        Ok(new),
        "{from} to {to}"
    );
}

/// Inserts ranges of two pixels each, in a shuffled order: those with an index from one up to, not including, another.
fn insert_turns(rt: &impl Abort, alloc: Global, set: &mut Coverage, first: u64, end: u64)
    requires { end ≤ 3001 }
{
    for turn in first..end {
        let from = turn * 1009 % 3001 * 4;
        insert(rt, alloc, set, from, from + 2, 2);
    }
}

/// Returns the set of those with an index below a limit.
fn insert_ranges(rt: &impl Abort, alloc: Global, turns: u64) -> Coverage
    requires { turns ≤ 3001 }
{
    let mut set = Coverage::empty(alloc);
    insert_turns(rt, alloc, &mut set, 0, turns);
    set
}

#[test]
fn ranges_inserted_one_by_one(rt: HostRuntime) {
    let set = insert_ranges(&rt, rt.alloc(), 3001);
    assert_eq!(rt; (set.range_count(), set.count()), (3001, 6002));
    assert!(rt; set.contains(12001) && !set.contains(12002));
}

// Pixels that are in the set already are not new; pixels that join two ranges, or many blocks, are counted once.
#[test]
fn ranges_inserted_again(rt: HostRuntime) {
    let alloc = rt.alloc();
    let mut set = insert_ranges(&rt, alloc, 3001);
    insert(&rt, alloc, &mut set, 400, 402, 0);
    insert(&rt, alloc, &mut set, 7, 7, 0);
    insert(&rt, alloc, &mut set, 401, 405, 2);
    assert_eq!(rt; set.range_count(), 3000);
    insert(&rt, alloc, &mut set, 0, 12002, 5998);
    assert_eq!(rt; set.range_count(), 1);
}

#[test]
fn a_copy_stays_while_ranges_are_inserted(rt: HostRuntime) {
    let alloc = rt.alloc();
    let mut set = insert_ranges(&rt, alloc, 1500);
    let copy = copy_of(&rt, alloc, &set);
    insert_turns(&rt, alloc, &mut set, 1500, 3001);
    assert_eq!(rt; copy.count(), 3000);
    assert!(rt; set.covers(&copy) && !copy.covers(&set));
}

/// Inserts a whole set, and checks how many of its pixels are new.
fn insert_all(rt: &impl Abort, alloc: Global, set: &mut Coverage, other: &Coverage, new: u64) {
    assert_eq!(rt; set.insert_all(alloc, other), Ok(new));
}

#[test]
fn all_of_a_set_is_inserted(rt: HostRuntime) {
    let alloc = rt.alloc();
    let half = insert_ranges(&rt, alloc, 1500);
    let mut whole = copy_of(&rt, alloc, &half);
    insert_turns(&rt, alloc, &mut whole, 1500, 3001);
    let mut both = copy_of(&rt, alloc, &half);
    insert_all(&rt, alloc, &mut both, &whole, 3002);
    assert!(rt; both.same(&whole));
    insert_all(&rt, alloc, &mut both, &half, 0);
}

/// Removes a range, and checks how many of its pixels were in the set.
fn remove(rt: &impl Abort, alloc: Global, set: &mut Coverage, from: u64, to: u64, old: u64)
    requires { to ≤ 12006 }
{
    assert_eq!(rt;
        set.remove_range(alloc, from, to),
        Ok(old),
        "{from} to {to}"
    );
}

/// Removes ranges that `insert_turns` inserts: those with an index from one up to, not including, another.
fn remove_turns(rt: &impl Abort, alloc: Global, set: &mut Coverage, first: u64, end: u64)
    requires { end ≤ 3001 }
{
    for turn in first..end {
        let from = turn * 1009 % 3001 * 4;
        remove(rt, alloc, set, from, from + 2, 2);
    }
}

#[test]
fn ranges_removed_one_by_one(rt: HostRuntime) {
    let alloc = rt.alloc();
    let mut set = insert_ranges(&rt, alloc, 3001);
    remove_turns(&rt, alloc, &mut set, 1000, 3001);
    assert_eq!(rt; (set.range_count(), set.count()), (1000, 2000));
    assert!(rt; set.same(&insert_ranges(&rt, alloc, 1000)));
    remove_turns(&rt, alloc, &mut set, 0, 1000);
    assert!(rt; set.is_empty());
}

// A range inside one range cuts it into two; so does a range inside each of many. A pixel that is not in the set is not
// counted.
#[test]
fn ranges_cut_into_two(rt: HostRuntime) {
    let alloc = rt.alloc();
    let mut set = set_of(&rt, alloc, &[(0, 12004)]);
    for turn in 0..3001 {
        let from = turn * 1009 % 3001 * 4 + 2;
        remove(&rt, alloc, &mut set, from, from + 2, 2);
    }
    assert!(rt; set.same(&insert_ranges(&rt, alloc, 3001)));
    remove(&rt, alloc, &mut set, 0, 1, 1);
    remove(&rt, alloc, &mut set, 401, 406, 3);
    remove(&rt, alloc, &mut set, 402, 404, 0);
    remove(&rt, alloc, &mut set, 9, 9, 0);
    assert_eq!(rt; (set.range_count(), set.count()), (3000, 5998));
    let near = set_of(&rt, alloc, &[(0, 8), (396, 410)]);
    let near = set.intersection(alloc, &near).expect(&rt, "memory");
    assert_ranges(
        &rt,
        &near,
        &[(1, 2), (4, 6), (396, 398), (400, 401), (408, 410)],
    );
    remove(&rt, alloc, &mut set, 1, 12001, 5997);
    assert_ranges(&rt, &set, &[(12001, 12002)]);
}

#[test]
fn a_copy_stays_while_ranges_are_removed(rt: HostRuntime) {
    let alloc = rt.alloc();
    let mut set = insert_ranges(&rt, alloc, 3001);
    let copy = copy_of(&rt, alloc, &set);
    remove_turns(&rt, alloc, &mut set, 1500, 3001);
    assert_eq!(rt; copy.count(), 6002);
    assert!(rt; copy.covers(&set) && !set.covers(&copy));
    assert!(rt; set.same(&insert_ranges(&rt, alloc, 1500)));
}

/// Removes a whole set, and checks how many of its pixels were in the other.
fn remove_all(rt: &impl Abort, alloc: Global, set: &mut Coverage, other: &Coverage, old: u64) {
    assert_eq!(rt; set.remove_all(alloc, other), Ok(old));
}

#[test]
fn all_of_a_set_is_removed(rt: HostRuntime) {
    let alloc = rt.alloc();
    let half = insert_ranges(&rt, alloc, 1500);
    let mut set = insert_ranges(&rt, alloc, 3001);
    remove_all(&rt, alloc, &mut set, &half, 3000);
    assert!(rt; !set.meets(&half));
    remove_all(&rt, alloc, &mut set, &half, 0);
    remove_all(
        &rt,
        alloc,
        &mut set,
        &set_of(&rt, alloc, &[(0, 12006)]),
        3002,
    );
    assert!(rt; set.is_empty());
}

/// Returns a cell.
fn cell_of(rt: &impl Abort, order: u8, index: u64) -> Cell {
    let order = Order::new(order).expect(rt, "an order");
    Cell::new(order, index).expect(rt, "a cell")
}

/// Checks the number of pixels of a set in each of these cells: order, index, pixels.
fn have_pixels(rt: &impl Abort, set: &Coverage, rows: &[(u8, u64, u64)]) {
    for (order, index, pixels) in rows {
        let cell = cell_of(rt, *order, *index);
        assert_eq!(rt; set.count_cell(cell), *pixels, "{order}/{index}");
    }
}

// The cell k/i has the pixels from i * 4^(29 - k) up to, not including, (i + 1) * 4^(29 - k).
#[test]
fn pixels_in_a_cell(rt: HostRuntime) {
    let alloc = rt.alloc();
    let set = set_of(&rt, alloc, &[(3, 9), (16, 64)]);
    let inside = [(29, 3, 1), (29, 8, 1), (28, 1, 4), (27, 3, 16)];
    have_pixels(&rt, &set, &inside);
    let across = [(28, 0, 1), (28, 2, 1), (27, 0, 6), (26, 0, 54), (0, 0, 54)];
    have_pixels(&rt, &set, &across);
    let outside = [(29, 2, 0), (29, 9, 0), (28, 3, 0), (27, 4, 0), (0, 11, 0)];
    have_pixels(&rt, &set, &outside);
    have_pixels(&rt, &Coverage::empty(alloc), &[(0, 0, 0)]);
    let sky = Coverage::full(alloc).expect(&rt, "memory");
    have_pixels(&rt, &sky, &[(0, 11, PIXEL_COUNT / 12), (29, 7, 1)]);
}

// The set has every second pixel below 25,600. A cell of order 22 has 4^7 = 16,384 pixels.
#[test]
fn pixels_of_many_ranges_in_a_cell(rt: HostRuntime) {
    let set = dots(&rt, rt.alloc(), 12800);
    let inside = [(29, 1, 0), (29, 2, 1), (28, 6399, 2), (24, 24, 512)];
    have_pixels(&rt, &set, &inside);
    let most = [(22, 0, 8192), (22, 1, 4608), (21, 0, 12800), (0, 0, 12800)];
    have_pixels(&rt, &set, &most);
    have_pixels(&rt, &set, &[(28, 6400, 0), (22, 2, 0), (0, 1, 0)]);
}

/// Inserts the pixels of a cell, and checks how many are new.
fn insert_cell(
    rt: &impl Abort,
    alloc: Global,
    set: &mut Coverage,
    order: u8,
    index: u64,
    new: u64,
) {
    let cell = cell_of(rt, order, index);
    assert_eq!(rt; set.insert_cell(alloc, cell), Ok(new), "{order}/{index}");
}

/// Removes the pixels of a cell, and checks how many were in the set.
fn remove_cell(
    rt: &impl Abort,
    alloc: Global,
    set: &mut Coverage,
    order: u8,
    index: u64,
    old: u64,
) {
    let cell = cell_of(rt, order, index);
    assert_eq!(rt; set.remove_cell(alloc, cell), Ok(old), "{order}/{index}");
}

#[test]
fn cells_inserted_one_by_one(rt: HostRuntime) {
    let alloc = rt.alloc();
    let mut set = set_of(&rt, alloc, &[(3, 9)]);
    insert_cell(&rt, alloc, &mut set, 28, 0, 3);
    insert_cell(&rt, alloc, &mut set, 28, 0, 0);
    assert_ranges(&rt, &set, &[(0, 9)]);
    insert_cell(&rt, alloc, &mut set, 28, 3, 4);
    assert_ranges(&rt, &set, &[(0, 9), (12, 16)]);
    insert_cell(&rt, alloc, &mut set, 27, 0, 3);
    assert_ranges(&rt, &set, &[(0, 16)]);
    insert_cell(&rt, alloc, &mut set, 29, PIXEL_COUNT - 1, 1);
    assert_ranges(&rt, &set, &[(0, 16), (PIXEL_COUNT - 1, PIXEL_COUNT)]);
}

#[test]
fn cells_removed_one_by_one(rt: HostRuntime) {
    let alloc = rt.alloc();
    let mut set = set_of(&rt, alloc, &[(0, 16)]);
    remove_cell(&rt, alloc, &mut set, 29, 5, 1);
    assert_ranges(&rt, &set, &[(0, 5), (6, 16)]);
    remove_cell(&rt, alloc, &mut set, 28, 1, 3);
    remove_cell(&rt, alloc, &mut set, 28, 1, 0);
    remove_cell(&rt, alloc, &mut set, 0, 11, 0);
    assert_ranges(&rt, &set, &[(0, 4), (8, 16)]);
    remove_cell(&rt, alloc, &mut set, 26, 0, 12);
    assert_ranges(&rt, &set, &[]);
}

// The first 16,384 pixels and the range from 16,384 on form one range.
#[test]
fn a_cell_of_many_ranges(rt: HostRuntime) {
    let alloc = rt.alloc();
    let mut set = dots(&rt, alloc, 12800);
    let copy = copy_of(&rt, alloc, &set);
    insert_cell(&rt, alloc, &mut set, 22, 0, 8192);
    assert_eq!(rt; (set.range_count(), set.count()), (4608, 20992));
    remove_cell(&rt, alloc, &mut set, 22, 0, 16384);
    assert_eq!(rt; (set.range_count(), set.count()), (4608, 4608));
    assert!(rt; copy.same(&dots(&rt, alloc, 12800)));
}

/// Returns the ranges (8j, 8j + 3) for each j below a number.
fn triples(rt: &impl Abort, alloc: Global, count: u64) -> Coverage
    requires { count ≤ 4000 }
{
    let mut pairs = Vec::new(alloc);
    for j in 0..count {
        pairs.push((8 * j, 8 * j + 3)).expect(rt, "memory");
    }
    set_of(rt, alloc, &pairs)
}

// The removal leaves two blocks that would fit into one. A difference would make two full blocks.
#[test]
fn two_blocks_are_rebuilt_together(rt: HostRuntime) {
    let alloc = rt.alloc();
    let mut set = triples(&rt, alloc, 256);
    has_chunks(&rt, &set, &[128, 128]);
    let at = 8 * 64;
    assert_eq!(rt; set.insert_range(alloc, at + 4, at + 6), Ok(2));
    has_chunks(&rt, &set, &[65, 64, 128]);
    assert_eq!(rt; set.remove_range(alloc, at + 4, at + 6), Ok(2));
    has_chunks(&rt, &set, &[65, 95, 96]);
}

// Two blocks cannot hold the ranges of the longer neighbour too. A union would make the blocks full again.
#[test]
fn a_full_block_is_rebuilt_with_a_short_one(rt: HostRuntime) {
    let alloc = rt.alloc();
    let mut set = triples(&rt, alloc, 680);
    has_chunks(&rt, &set, &[128, 128, 128, 128, 128, 40]);
    let at = 8 * 576;
    assert_eq!(rt; set.insert_range(alloc, at + 4, at + 6), Ok(2));
    has_chunks(&rt, &set, &[128, 128, 128, 128, 84, 85]);
}

/// Checks the ranges of a set: those of `triples`, but other ranges in place of those with an index from `first` up to,
/// not including, `rest`.
fn are_triples_except(
    rt: &impl Abort,
    set: &Coverage,
    count: u64,
    first: u64,
    rest: u64,
    others: &[(u64, u64)],
)
    requires { (count ≤ 4000) × (first ≤ 4000) }
{
    let mut seen = set.ranges();
    for j in 0..first {
        assert_eq!(rt; seen.next(), Some((8 * j, 8 * j + 3)));
    }
    for other in others {
        assert_eq!(rt; seen.next(), Some(*other));
    }
    for j in rest..count {
        assert_eq!(rt; seen.next(), Some((8 * j, 8 * j + 3)));
    }
    assert_eq!(rt; seen.next(), None);
}

/// Inserts a range after the range with this index, and removes it.
fn insert_between(rt: &impl Abort, alloc: Global, set: &mut Coverage, count: u64, index: u64)
    requires { (count ≤ 4000) × (index ≤ 3999) }
{
    let at = 8 * index;
    let others = [(at, at + 3), (at + 4, at + 6)];
    assert_eq!(rt; set.insert_range(alloc, at + 4, at + 6), Ok(2));
    are_triples_except(rt, set, count, index, index + 1, &others);
    assert_eq!(rt; set.remove_range(alloc, at + 4, at + 6), Ok(2));
    are_triples_except(rt, set, count, 0, 0, &[]);
}

/// Removes the middle pixel of the range with this index, and inserts it.
fn cut_into_two(rt: &impl Abort, alloc: Global, set: &mut Coverage, count: u64, index: u64)
    requires { (count ≤ 4000) × (index ≤ 3999) }
{
    let at = 8 * index;
    let others = [(at, at + 1), (at + 2, at + 3)];
    assert_eq!(rt; set.remove_range(alloc, at + 1, at + 2), Ok(1));
    are_triples_except(rt, set, count, index, index + 1, &others);
    assert_eq!(rt; set.insert_range(alloc, at + 1, at + 2), Ok(1));
    are_triples_except(rt, set, count, 0, 0, &[]);
}

/// Removes the whole range with this index, and inserts it.
fn remove_one(rt: &impl Abort, alloc: Global, set: &mut Coverage, count: u64, index: u64)
    requires { (count ≤ 4000) × (index ≤ 3999) }
{
    let at = 8 * index;
    assert_eq!(rt; set.remove_range(alloc, at, at + 3), Ok(3));
    are_triples_except(rt, set, count, index, index + 1, &[]);
    assert_eq!(rt; set.insert_range(alloc, at, at + 3), Ok(3));
    are_triples_except(rt, set, count, 0, 0, &[]);
}

/// Inserts a range that joins the range with this index and the next one, and removes it.
fn join_with_next(rt: &impl Abort, alloc: Global, set: &mut Coverage, count: u64, index: u64)
    requires { (count ≤ 4000) × (index ≤ 3998) }
{
    let at = 8 * index;
    let joined = [(at, at + 11)];
    assert_eq!(rt; set.insert_range(alloc, at + 2, at + 9), Ok(5));
    are_triples_except(rt, set, count, index, index + 2, &joined);
    assert_eq!(rt; set.remove_range(alloc, at + 3, at + 8), Ok(5));
    are_triples_except(rt, set, count, 0, 0, &[]);
}

/// Removes a range that reaches into the range with this index and into the next one, and inserts the removed pixels.
fn remove_across(rt: &impl Abort, alloc: Global, set: &mut Coverage, count: u64, index: u64)
    requires { (count ≤ 4000) × (index ≤ 3998) }
{
    let at = 8 * index;
    let others = [(at, at + 1), (at + 10, at + 11)];
    assert_eq!(rt; set.remove_range(alloc, at + 1, at + 10), Ok(4));
    are_triples_except(rt, set, count, index, index + 2, &others);
    assert_eq!(rt; set.insert_range(alloc, at + 1, at + 3), Ok(2));
    assert_eq!(rt; set.insert_range(alloc, at + 8, at + 10), Ok(2));
    are_triples_except(rt, set, count, 0, 0, &[]);
}

/// Removes the first and the last pixel of the range with this index, and inserts them.
fn shorten(rt: &impl Abort, alloc: Global, set: &mut Coverage, count: u64, index: u64)
    requires { (count ≤ 4000) × (index ≤ 3999) }
{
    let at = 8 * index;
    assert_eq!(rt; set.remove_range(alloc, at, at + 1), Ok(1));
    are_triples_except(rt, set, count, index, index + 1, &[(at + 1, at + 3)]);
    assert_eq!(rt; set.remove_range(alloc, at + 2, at + 3), Ok(1));
    are_triples_except(rt, set, count, index, index + 1, &[(at + 1, at + 2)]);
    assert_eq!(rt; set.insert_range(alloc, at, at + 1), Ok(1));
    assert_eq!(rt; set.insert_range(alloc, at + 2, at + 3), Ok(1));
    are_triples_except(rt, set, count, 0, 0, &[]);
    assert_eq!(rt; set.count(), 3 * count);
}

/// Makes each of these edits at the range with this index, and undoes it.
fn edit_at(rt: &impl Abort, alloc: Global, set: &mut Coverage, count: u64, index: u64)
    requires { (count ≤ 4000) × (index ≤ 3998) }
{
    insert_between(rt, alloc, set, count, index);
    cut_into_two(rt, alloc, set, count, index);
    shorten(rt, alloc, set, count, index);
    remove_one(rt, alloc, set, count, index);
    join_with_next(rt, alloc, set, count, index);
    remove_across(rt, alloc, set, count, index);
}

// All blocks of a new set have 128 ranges, except the last ones. Each edit begins with a new copy of the set.
#[test]
fn edits_of_full_blocks(rt: HostRuntime) {
    let alloc = rt.alloc();
    let full = triples(&rt, alloc, 256);
    has_chunks(&rt, &full, &[128, 128]);
    for index in 0..255 {
        let mut set = copy_of(&rt, alloc, &full);
        edit_at(&rt, alloc, &mut set, 256, index);
        are_triples_except(&rt, &full, 256, 0, 0, &[]);
    }
}

/// Edits one set of this number of ranges, in a shuffled order. No one else shares its blocks.
fn edit_often(rt: &impl Abort, alloc: Global, count: u64)
    requires { count ≤ 4000 }
{
    let mut set = triples(rt, alloc, count);
    for turn in 0..255 {
        edit_at(rt, alloc, &mut set, count, turn * 37 % 255);
    }
}

// The edits divide and merge blocks.
#[test]
fn edits_of_one_set(rt: HostRuntime) {
    let alloc = rt.alloc();
    edit_often(&rt, alloc, 256);
    edit_often(&rt, alloc, 257);
    edit_often(&rt, alloc, 384);
    edit_often(&rt, alloc, 513);
}

// Each 128th range of a new set is the last one of a block.
#[test]
fn edits_at_the_ends_of_blocks(rt: HostRuntime) {
    let alloc = rt.alloc();
    let full = triples(&rt, alloc, 4000);
    for block in 0..31 {
        let mut set = copy_of(&rt, alloc, &full);
        edit_at(&rt, alloc, &mut set, 4000, 128 * block + 127);
        edit_at(&rt, alloc, &mut set, 4000, 128 * block + 64);
    }
    are_triples_except(&rt, &full, 4000, 0, 0, &[]);
}
