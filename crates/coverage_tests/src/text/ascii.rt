use super::{Q0, Q1, Q2, assert_set, every_second, repeated};
use moc_sphere::Order;
use moc_text::{
    TextError, WriteError, is_separator, only_cell, push_ascii, read_ascii, write_ascii,
};
use std::alloc::Global;
use std::process::Abort;

/// Checks that the text is parsed as these ranges of pixels and this MOC order.
fn is_read(
    rt: &impl Abort,
    alloc: Global,
    text: &[u8],
    ranges: &[(u64, u64)],
    deepest: Option<u8>,
) {
    let parsed_set = read_ascii(alloc, text).expect(rt, "a set");
    assert_set(rt, alloc, &parsed_set, ranges, deepest);
}

/// Returns the error of a text, if it has one.
fn error_of(alloc: Global, text: &[u8]) -> Option<TextError> {
    match read_ascii(alloc, text) {
        Ok(_) => None,
        Err(error_of) => Some(error_of),
    }
}

/// Checks the error of a text, and its position.
fn fails_at(rt: &impl Abort, alloc: Global, text: &str, wanted: TextError, place: usize) {
    let seen = error_of(alloc, text.as_bytes());
    assert_eq!(rt;
        (seen, wanted.place()),
        (Some(wanted), Some(place)),
        "{text}"
    );
}

/// Checks the text of a set that is parsed from a text.
fn is_rewritten(rt: &impl Abort, alloc: Global, text: &str, stated: Option<u8>, wanted: &str) {
    let (set, _) = read_ascii(alloc, text.as_bytes()).expect(rt, "a set");
    let written = write_ascii(alloc, &set, stated.and_then(Order::new)).expect(rt, "a text");
    assert_eq!(rt; written.as_str(), wanted);
}

#[test]
fn separators(rt: HostRuntime) {
    for byte in [b' ', b',', b'\t', b'\r', b'\n'] {
        assert!(rt; is_separator(byte));
    }
    for byte in [b'/', b'-', b';', b'\x0b', b'0'] {
        assert!(rt; !is_separator(byte));
    }
}

#[test]
fn only_cells(rt: HostRuntime) {
    for (text, order, index) in [
        ("0/11", 0, 11),
        (" ,3/7\r\n", 3, 7),
        ("29/3458764513820540927", 29, 3_458_764_513_820_540_927),
        ("0003/007", 3, 7),
    ] {
        let cell = only_cell(text.as_bytes()).expect(&rt, "a cell");
        assert_eq!(rt;
            (cell.order().get(), cell.index()),
            (order, index),
            "{text}"
        );
    }
    for text in [
        "", "3/", "7", "3/7 8", "3/7-8", "s3/7", "0/12", "30/0", "3/7;",
    ] {
        assert!(rt; only_cell(text.as_bytes()).is_none(), "{text}");
    }
}

#[test]
fn texts_that_are_read(rt: HostRuntime) {
    let alloc = rt.alloc();
    let rows: [(&str, &[(u64, u64)], Option<u8>); 7] = [
        ("", &[], None),
        (" \r\n\t,", &[], None),
        ("1/", &[], Some(1)),
        ("1/1-2 4 2", &[(Q1, 3 * Q1), (4 * Q1, 5 * Q1)], Some(1)),
        ("2/0-3,1/1 1/2,3", &[(0, Q0)], Some(2)),
        (
            "1/4 2/12-14 8/",
            &[(4 * Q1, 5 * Q1), (12 * Q2, 15 * Q2)],
            Some(8),
        ),
        (
            "s29/3458764513820540927",
            &[(3458764513820540927, 3458764513820540928)],
            Some(29),
        ),
    ];
    for (text, ranges, deepest) in rows {
        is_read(&rt, alloc, text.as_bytes(), ranges, deepest);
    }
}

#[test]
fn a_long_number(rt: HostRuntime) {
    let alloc = rt.alloc();
    let zeros = repeated(&rt, alloc, b"0/", b'0', b"5");
    is_read(&rt, alloc, &zeros, &[(5 * Q0, 6 * Q0)], Some(0));
}

#[test]
fn numbers_that_are_too_long(rt: HostRuntime) {
    for (front, back, wanted) in [
        ("0/", "", TextError::CellTooLarge { at: 2 }),
        ("s", "/0", TextError::OrderTooLarge { at: 1 }),
    ] {
        let text = repeated(&rt, rt.alloc(), front.as_bytes(), b'9', back.as_bytes());
        let seen = error_of(rt.alloc(), &text);
        assert_eq!(rt; seen, Some(wanted));
    }
}

#[test]
fn errors_of_bytes(rt: HostRuntime) {
    for (text, at) in [
        ("5/7x", 3),
        ("5-3/", 3),
        ("1/1 5 /3", 6),
        ("1/s", 2),
        ("/", 0),
        ("1//", 2),
        ("1/2/", 3),
        ("5/-", 2),
    ] {
        fails_at(&rt, rt.alloc(), text, TextError::BadByte { at }, at);
    }
    for (text, at) in [("5/7-", 4), ("s", 1), ("1/1-", 4), ("1/1-2 4 2/12-", 13)] {
        fails_at(&rt, rt.alloc(), text, TextError::Unfinished { at }, at);
    }
}

#[test]
fn errors_of_numbers(rt: HostRuntime) {
    for (text, at) in [("5/7-3", 2), ("1/1-2 4 2/12-1", 10)] {
        fails_at(&rt, rt.alloc(), text, TextError::Backwards { at }, at);
    }
    for (text, at) in [
        ("1/5-999", 4),
        ("1/50-999", 2),
        ("s29/3458764513820540928", 4),
    ] {
        fails_at(&rt, rt.alloc(), text, TextError::CellTooLarge { at }, at);
    }
}

#[test]
fn errors_of_orders(rt: HostRuntime) {
    for text in ["7 5/1", "1"] {
        fails_at(&rt, rt.alloc(), text, TextError::NoOrder { at: 0 }, 0);
    }
    for (text, at) in [("30/0", 0), ("s30/0", 1)] {
        fails_at(&rt, rt.alloc(), text, TextError::OrderTooLarge { at }, at);
    }
}

#[test]
fn errors_without_a_position(rt: HostRuntime) {
    assert_eq!(rt; TextError::Memory.place(), None);
}

#[test]
fn written_texts(rt: HostRuntime) {
    let alloc = rt.alloc();
    let lines = "1/1 2 4\n2/12-14 21 23 25 \n8/";
    let cells = "2/0-3,1/1 1/2,3";
    for (text, stated, wanted) in [
        (lines, Some(8), "1/1-2 4 2/12-14 21 23 25 8/"),
        (
            "1/1-2 4 2/12-14 21 23 25 8/",
            Some(8),
            "1/1-2 4 2/12-14 21 23 25 8/",
        ),
        ("", None, ""),
        ("", Some(8), "8/"),
        (cells, None, "0/0"),
        (cells, Some(0), "0/0"),
        (cells, Some(2), "0/0 2/"),
        ("29/4-7,8,0-3", None, "28/0-1 29/8"),
    ] {
        is_rewritten(&rt, alloc, text, stated, wanted);
    }
}

#[test]
fn a_deepest_order_that_is_too_coarse(rt: HostRuntime) {
    let alloc = rt.alloc();
    let (set, _) = read_ascii(alloc, b"1/1 2 4\n2/12-14 21 23 25 \n8/").expect(&rt, "a set");
    let coarse = write_ascii(alloc, &set, Order::new(1));
    assert!(rt; matches!(coarse, Err(WriteError::TooCoarse)));
}

// The set is written after the text that is already there, also without capacity for it.
#[test]
fn a_set_is_appended_to_a_text(rt: HostRuntime) {
    let alloc = rt.alloc();
    let (set, _) = read_ascii(alloc, b"1/1 2 4\n2/12-14 21 23 25 \n8/").expect(&rt, "a set");
    let mut text = b"cover ".to_vec(alloc).expect(&rt, "memory");
    push_ascii(alloc, &set, &mut text).expect(&rt, "memory");
    assert_eq!(rt;
        text.as_slice(),
        b"cover 1/1-2 4 2/12-14 21 23 25".as_slice()
    );
    let cells = every_second(&rt, alloc, "29/", 0, " ", "");
    let (set, _) = read_ascii(alloc, cells.as_bytes()).expect(&rt, "a set");
    let mut text = Vec::new(alloc);
    push_ascii(alloc, &set, &mut text).expect(&rt, "memory");
    assert_eq!(rt; text.as_slice(), cells.as_bytes());
}

// A text of one cell is parsed without a builder. These texts differ from one by a byte or a word.
#[test]
fn texts_of_one_cell(rt: HostRuntime) {
    let alloc = rt.alloc();
    for text in [
        "1/2",
        "s1/2",
        " ,1/2\r\n",
        "1/2 1/",
        "1/ 2",
        "1/2,2",
        "1/2-2",
        "01/002",
    ] {
        is_read(&rt, alloc, text.as_bytes(), &[(2 * Q1, 3 * Q1)], Some(1));
    }
    fails_at(&rt, alloc, "1/2;", TextError::BadByte { at: 3 }, 3);
    fails_at(&rt, alloc, "1/48", TextError::CellTooLarge { at: 2 }, 2);
    fails_at(&rt, alloc, "30/2", TextError::OrderTooLarge { at: 0 }, 0);
    fails_at(&rt, alloc, "1/2-", TextError::Unfinished { at: 4 }, 4);
    fails_at(&rt, alloc, "1/2 x", TextError::BadByte { at: 4 }, 4);
}

// No two of these cells touch, so each is an item, and the set has as many pixels.
#[test]
fn many_items(rt: HostRuntime) {
    let alloc = rt.alloc();
    let text = every_second(&rt, alloc, "29/", 0, " ", "");
    let (set, _) = read_ascii(alloc, text.as_bytes()).expect(&rt, "a set");
    assert_eq!(rt; set.count(), 1500);
    assert!(rt; set.contains(0) && set.contains(2998));
    assert!(rt; !set.contains(1) && !set.contains(2999));
    assert_eq!(rt;
        write_ascii(alloc, &set, None)
            .expect(&rt, "a text")
            .as_str(),
        text.as_str()
    );
}

// The second half comes before the first, and both are read twice.
#[test]
fn many_items_in_any_sequence(rt: HostRuntime) {
    let alloc = rt.alloc();
    let mut text = every_second(&rt, alloc, "29/", 3000, ",", " ");
    text.push_str(every_second(&rt, alloc, "", 0, ",", "\n").as_str())
        .expect(&rt, "memory");
    text.push_str(every_second(&rt, alloc, "", 3000, ",", "").as_str())
        .expect(&rt, "memory");
    let (set, _) = read_ascii(alloc, text.as_bytes()).expect(&rt, "a set");
    assert_eq!(rt; set.count(), 3000);
    assert!(rt; set.contains(0) && set.contains(3000) && set.contains(5998));
    assert!(rt; !set.contains(2999) && !set.contains(5999));
}
