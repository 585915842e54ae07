//! Cell numbers: cases worked by hand, and every cell of the small orders.
use crate::shown::is_shown;
use moc_sphere::{Cell, CellError, Direction, InvalidName, Order};
use std::alloc::Global;
use std::fmt::Debug;
use std::process::Abort;
use std::str::FromStr;

/// The error for a number or a text that is not an order.
const NOT_ORDER: InvalidName = InvalidName {
    expected: "a number from 0 to 29",
};

/// The error for a number that is not an nside.
const NOT_NSIDE: InvalidName = InvalidName {
    expected: "a power of two from 1 to 2^29",
};

/// The error for a text that is not a cell.
const NOT_CELL: InvalidName = InvalidName {
    expected: "an order, a slash and the index of a cell of this order, such as 3/10",
};

/// Returns the order with this number.
fn order_of(rt: &impl Abort, order: u8) -> Order {
    Order::new(order).expect(rt, "an order")
}

/// Returns the cell of an order with this index.
fn at(rt: &impl Abort, order: u8, index: u64) -> Cell {
    Cell::new(order_of(rt, order), index).expect(rt, "a cell")
}

/// Checks the result of a conversion of a cell.
fn is<T: PartialEq + Debug>(rt: &impl Abort, cell: Cell, seen: &T, wanted: &T) {
    assert_eq!(rt; *seen, *wanted, "of cell {cell}");
}

/// Checks the result of parsing a name.
fn names<T: PartialEq + Debug>(rt: &impl Abort, name: &str, seen: &T, wanted: &T) {
    assert_eq!(rt; *seen, *wanted, "of {name:?}");
}

#[test]
fn uniq_rows(rt: HostRuntime) {
    for (order, index, uniq) in [
        (0, 11, 15),
        (3, 10, 266),
        (29, 3458764513820540927, 4611686018427387903),
    ] {
        let cell = at(&rt, order, index);
        is(&rt, cell, &cell.uniq(), &uniq);
        is(&rt, cell, &Cell::from_uniq(uniq), &Ok(cell));
    }
    for uniq in [3, 4611686018427387904] {
        assert!(rt; Cell::from_uniq(uniq) == Err(CellError::NotUniq));
    }
}

#[test]
fn the_first_cell_is_the_default(rt: HostRuntime) {
    is(&rt, at(&rt, 0, 0), &Cell::default(), &at(&rt, 0, 0));
}

#[test]
fn ring_rows(rt: HostRuntime) {
    for (order, index, ring) in [
        (1, 0, 13),
        (1, 1, 5),
        (1, 2, 4),
        (1, 3, 0),
        (1, 16, 28),
        (1, 18, 27),
        (2, 64, 136),
        (29, 0, 1729382253957480448),
        (29, 288230376151711743, 0),
        (29, 3458764513820540927, 1729382259863060480),
        (29, 3170534137668829184, 3458764513820540927),
    ] {
        let cell = at(&rt, order, index);
        is(&rt, cell, &cell.ring(), &ring);
        is(&rt, cell, &Cell::from_ring(cell.order(), ring), &Ok(cell));
    }
    for index in 0..12 {
        let cell = at(&rt, 0, index);
        is(&rt, cell, &cell.ring(), &index);
    }
}

#[test]
fn plane_rows(rt: HostRuntime) {
    for (order, index, row, column) in [
        (0, 0, 1, 1),
        (0, 4, 2, 0),
        (0, 11, 3, 7),
        (1, 18, 4, 15),
        (29, 0, 1073741823, 536870912),
        (29, 3458764513820540927, 1073741825, 3758096384),
    ] {
        let cell = at(&rt, order, index);
        is(&rt, cell, &cell.row_column(), &(row, column));
    }
}

/// Checks the indices of the cells that touch a cell, in their order.
fn touches(rt: &impl Abort, alloc: Global, cell: Cell, indices: &[u64]) {
    let touching = cell.touching_cells(alloc);
    is(rt, cell, &touching.len(), &indices.len());
    for (found, index) in touching.as_slice().iter().zip(indices) {
        is(
            rt,
            cell,
            &(found.order(), found.index()),
            &(cell.order(), *index),
        );
    }
}

#[test]
fn touching_rows(rt: HostRuntime) {
    for (order, index, touching) in [
        (0, 0, [1, 2, 3, 4, 5, 8].as_slice()),
        (0, 4, [0, 3, 5, 7, 8, 11].as_slice()),
        (1, 0, [1, 2, 3, 17, 19, 22, 23, 35].as_slice()),
        (1, 1, [0, 2, 3, 6, 7, 22, 23].as_slice()),
    ] {
        touches(&rt, rt.alloc(), at(&rt, order, index), touching);
    }
}

// The number for a missing cell.
const NONE: u64 = u64::MAX;

/// Returns the index of a cell, or `NONE`.
fn number(cell: Option<Cell>) -> u64 {
    match cell {
        Some(cell) => cell.index(),
        None => NONE,
    }
}

/// Checks the neighbours of a cell, in healpy's order.
fn has_neighbours(rt: &impl Abort, cell: Cell, wanted: &[u64; 8]) {
    is(rt, cell, &cell.neighbours().map(number), wanted);
    for (direction, wanted) in Direction::ALL.iter().zip(wanted) {
        is(rt, cell, &number(cell.neighbour(*direction)), wanted);
    }
}

// The values of get_all_neighbours of healpy 1.16, which returns -1 if there is none.
#[test]
fn neighbours_by_direction(rt: HostRuntime) {
    for (order, index, wanted) in [
        (0, 0, [4, NONE, 3, 2, 1, NONE, 5, 8]),
        (0, 4, [11, 7, 3, NONE, 0, 5, 8, NONE]),
        (0, 5, [8, 4, 0, NONE, 1, 6, 9, NONE]),
        (0, 8, [11, NONE, 4, 0, 5, NONE, 9, 10]),
        (0, 11, [10, NONE, 7, 3, 4, NONE, 8, 9]),
        (1, 0, [17, 19, 2, 3, 1, 23, 22, 35]),
        (1, 1, [0, 2, 3, 7, 6, NONE, 23, 22]),
        (1, 32, [44, 45, 34, 35, 33, 38, 36, 40]),
        (1, 37, [36, 38, 39, 26, 24, NONE, 42, 40]),
        (1, 42, [37, NONE, 24, 25, 43, 41, 40, 36]),
        (1, 47, [46, 28, 29, 12, 18, 16, 45, 44]),
        (2, 3, [2, 8, 9, 12, 6, 4, 1, 0]),
    ] {
        has_neighbours(&rt, at(&rt, order, index), &wanted);
    }
}

// By healpy, as above: the southern cell of base pixel 8, the northern one of 11, and the western ones of 4 and 11.
#[test]
fn neighbours_of_pixels(rt: HostRuntime) {
    for (index, wanted) in [
        (
            2305843009213693952,
            [
                3170534137668829184,
                3170534137668829185,
                2305843009213693954,
                2305843009213693955,
                2305843009213693953,
                2594073385365405698,
                2594073385365405696,
                2882303761517117440,
            ],
        ),
        (
            3458764513820540927,
            [
                3458764513820540926,
                2113689425112552788,
                2113689425112552789,
                864691128455135232,
                1345075088707988138,
                1345075088707988136,
                3458764513820540925,
                3458764513820540924,
            ],
        ),
        (
            1345075088707988138,
            [
                3458764513820540927,
                2113689425112552789,
                864691128455135232,
                864691128455135233,
                1345075088707988139,
                1345075088707988137,
                1345075088707988136,
                3458764513820540925,
            ],
        ),
        (
            3362687721769970346,
            [
                2978380553567688021,
                NONE,
                2017612633061982208,
                2017612633061982209,
                3362687721769970347,
                3362687721769970345,
                3362687721769970344,
                2978380553567688020,
            ],
        ),
    ] {
        has_neighbours(&rt, at(&rt, 29, index), &wanted);
    }
}

// By healpy: 33 is the eastern cell of base pixel 8.
#[test]
fn neighbours_by_the_names_of_directions(rt: HostRuntime) {
    let cell = at(&rt, 1, 33);
    for (direction, wanted) in [
        (Direction::SouthWest, 32),
        (Direction::West, 34),
        (Direction::NorthWest, 35),
        (Direction::North, 22),
        (Direction::NorthEast, 20),
        (Direction::East, NONE),
        (Direction::SouthEast, 38),
        (Direction::South, 36),
    ] {
        assert_eq!(rt; number(cell.neighbour(direction)), wanted, "{direction:?}");
    }
}

#[test]
fn invalid_cells(rt: HostRuntime) {
    assert!(rt; Order::new(30).is_none());
    let order = order_of(&rt, 1);
    for (seen, error) in [
        (Cell::new(order, 48), CellError::CellTooLarge),
        (Cell::from_ring(order, 48), CellError::RingTooLarge),
        (Cell::from_face_xy(order, 12, 0, 0), CellError::OutOfFace),
        (Cell::from_face_xy(order, 0, 2, 0), CellError::OutOfFace),
        (Cell::from_face_xy(order, 0, 0, 2), CellError::OutOfFace),
    ] {
        assert!(rt; seen == Err(error), "{error}");
    }
}

#[test]
fn spans_and_parents(rt: HostRuntime) {
    let last = at(&rt, 1, 47);
    assert_eq!(rt; last.span(), (3386706919782612992, 3458764513820540928));
    assert!(rt; last.parent() == Some(at(&rt, 0, 11)));
    assert!(rt; at(&rt, 0, 11).parent().is_none());
}

// 29/3458764513820540927 is the last cell of its order, as are all its ancestors. 1/18 is 18 = 4 * 4 + 2.
#[test]
fn ancestors_of_cells(rt: HostRuntime) {
    for (order, index, level, ancestor) in [
        (1, 18, 0, 4),
        (1, 18, 1, 18),
        (3, 700, 1, 43),
        (29, 3458764513820540927, 29, 3458764513820540927),
        (29, 3458764513820540927, 3, 767),
        (29, 3458764513820540927, 0, 11),
    ] {
        let cell = at(&rt, order, index);
        let found = cell.ancestor(order_of(&rt, level));
        is(&rt, cell, &found, &Some(at(&rt, level, ancestor)));
    }
    assert!(rt; at(&rt, 1, 18).ancestor(order_of(&rt, 2)).is_none());
}

/// Checks the nside of an order, and that either number gives the order.
fn has_nside(rt: &impl Abort, order: Order, nside: u64) {
    assert_eq!(rt; order.nside(), nside);
    assert!(rt; Order::from_nside(nside) == Ok(order));
    assert!(rt; Order::try_from(u64::from(order.get())) == Ok(order));
}

#[test]
fn orders_and_their_nsides(rt: HostRuntime) {
    for (order, nside) in [(0u8, 1u64), (3, 8), (29, 536870912)] {
        has_nside(&rt, order_of(&rt, order), nside);
    }
}

#[test]
fn cells_and_pixels_of_orders(rt: HostRuntime) {
    for (order, cells, pixels) in [
        (0u8, 12u64, 288230376151711744u64),
        (3, 768, 4503599627370496),
        (29, 3458764513820540928, 1),
    ] {
        let order = order_of(&rt, order);
        assert_eq!(rt; (order.cell_count(), order.cell_size()), (cells, pixels));
    }
}

#[test]
fn numbers_that_are_of_no_order(rt: HostRuntime) {
    for nside in [0u64, 3, 12, 536870911, 1073741824, 18446744073709551615] {
        assert!(rt; Order::from_nside(nside) == Err(NOT_NSIDE));
    }
    for order in [30u64, 256] {
        assert!(rt; Order::try_from(order) == Err(NOT_ORDER));
    }
}

#[test]
fn orders_by_name(rt: HostRuntime) {
    for (name, order) in [("0", 0u8), ("7", 7), ("29", 29), ("007", 7), ("+7", 7)] {
        names(&rt, name, &Order::from_str(name), &Ok(Order::of(order)));
    }
    for name in ["", "30", "256", "-1", "1 ", "1/2"] {
        names(&rt, name, &Order::from_str(name), &Err(NOT_ORDER));
    }
}

#[test]
fn cells_by_name(rt: HostRuntime) {
    for (name, order, index) in [
        ("0/0", 0u8, 0u64),
        ("3/10", 3, 10),
        ("1/47", 1, 47),
        ("29/3458764513820540927", 29, 3458764513820540927),
    ] {
        names(&rt, name, &Cell::from_str(name), &Ok(at(&rt, order, index)));
    }
    for name in [
        "",
        "3",
        "/",
        "3/",
        "/10",
        "3/10/",
        "30/0",
        "1/48",
        "0/18446744073709551616",
    ] {
        names(&rt, name, &Cell::from_str(name), &Err(NOT_CELL));
    }
}

#[test]
fn base_pixels(rt: HostRuntime) {
    for (order, index, base_pixel) in [
        (0u8, 11u64, 11u8),
        (1, 18, 4),
        (29, 288230376151711743, 0),
        (29, 288230376151711744, 1),
    ] {
        let cell = at(&rt, order, index);
        is(&rt, cell, &cell.base_pixel(), &base_pixel);
    }
}

#[test]
fn children(rt: HostRuntime) {
    let cell = at(&rt, 3, 10);
    let children = cell.children().expect(&rt, "children");
    let mut index = 40u64;
    for child in children {
        is(
            &rt,
            cell,
            &(child.order().get(), child.index()),
            &(4, index),
        );
        is(&rt, child, &child.parent(), &Some(cell));
        index = index.saturating_add(1);
    }
    assert_eq!(rt; index, 44);
    assert!(rt; Cell::of(Order::MAX, 0).children().is_none());
}

#[test]
fn cells_are_ordered_and_shown(rt: HostRuntime) {
    assert!(rt; at(&rt, 0, 11) < at(&rt, 1, 0) && at(&rt, 1, 0) < at(&rt, 1, 1));
    is_shown(&rt, rt.alloc(), &at(&rt, 29, 17), "29/17");
    assert_eq!(rt; Order::MAX.get(), 29);
}

#[test]
fn errors_are_shown(rt: HostRuntime) {
    for (error, text) in [
        (
            CellError::CellTooLarge,
            "the index is not less than the number of cells of the order",
        ),
        (
            CellError::NotUniq,
            "not the NUNIQ number of a cell up to order 29",
        ),
        (
            CellError::OutOfFace,
            "the base pixel is above 11, or a coordinate is not less than nside",
        ),
        (
            CellError::RingTooLarge,
            "the ring number is not less than the number of cells of the order",
        ),
    ] {
        is_shown(&rt, rt.alloc(), &error, text);
    }
    is_shown(
        &rt,
        rt.alloc(),
        &NOT_ORDER,
        "expected a number from 0 to 29",
    );
}

#[test]
fn all_cells_of_small_orders(rt: HostRuntime) {
    for level in 0..5 {
        let order = order_of(&rt, level);
        for index in 0..order.cell_count() {
            let cell = Cell::new(order, index).expect(&rt, "a cell");
            let (face, x, y) = cell.face_xy();
            assert!(rt; Cell::from_face_xy(order, face, x, y) == Ok(cell));
            assert!(rt; Cell::from_ring(order, cell.ring()) == Ok(cell));
        }
    }
}
