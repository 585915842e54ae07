//! The calls of `moc_lines` for other line languages: words and fields, commands, replies, and inputs that are read
//! whole.
use crate::between::has_text;
use moc_devices::{OverReader, OverWriter};
use moc_lines::{
    LINE_LIMIT, LineError, LinePlace, RunError, answer_all_lines, answer_text, is_blank_text,
    is_word, line_after_last, only_field, parse_decimal, place_of_error, push_count, push_cover,
    push_error, push_reply_line, read_all, read_batch, read_cell_command, split_line, split_word,
    two_fields,
};
use moc_parts::{CellAction, Map, Reply};
use moc_ranges::Coverage;
use moc_sphere::{Cell, Order};
use std::alloc::Global;
use std::process::Abort;

#[test]
fn words(rt: HostRuntime) {
    for (text, word, following) in [
        (" \tadd 0/0", "add", " 0/0"),
        ("take", "take", ""),
        ("\r \t", "", ""),
        ("", "", ""),
    ] {
        let (seen, rest) = split_word(text.as_bytes());
        has_text(&rt, seen, word);
        has_text(&rt, rest, following);
    }
    for (text, word, is) in [("add", "add", true), ("adds", "add", false)] {
        assert_eq!(rt; is_word(text.as_bytes(), word), is, "{text}");
    }
    for (text, is) in [(" \t\r", true), ("", true), (" x", false), ("\n", false)] {
        assert_eq!(rt; is_blank_text(text.as_bytes()), is, "{text:?}");
    }
}

#[test]
fn numbers_of_fields(rt: HostRuntime) {
    for (field, number) in [
        ("0018", Some(18)),
        ("18446744073709551615", Some(u64::MAX)),
        ("99999999999999999999999", Some(u64::MAX)),
        ("0000000000000000000000007", Some(7)),
        ("", None),
        ("+1", None),
        ("1x", None),
        ("1234567890123456789012345x", None),
    ] {
        assert_eq!(rt; parse_decimal(field.as_bytes()), number, "{field}");
    }
}

#[test]
fn fields(rt: HostRuntime) {
    has_text(&rt, only_field(b" 7\t").expect(&rt, "one field"), "7");
    let (first, second) = two_fields(b"7 18 ").expect(&rt, "two fields");
    has_text(&rt, first, "7");
    has_text(&rt, second, "18");
    for text in ["", " ", "7 8"] {
        assert!(rt;
            only_field(text.as_bytes()) == Err(LineError::WrongCount),
            "{text:?}"
        );
    }
    for text in ["", "7", "7 8 9"] {
        assert!(rt;
            two_fields(text.as_bytes()) == Err(LineError::WrongCount),
            "{text:?}"
        );
    }
}

/// Returns the reply to a line of a map of base pixels 0 and 1.
fn answer(rt: &impl Abort, alloc: Global, line: &str) -> Vec<u8> {
    let start = read_set(rt, alloc, 2);
    let mut map = Map::new(alloc, start).expect(rt, "memory");
    let batch = read_batch(alloc, line.as_bytes()).expect(rt, "a line of commands");
    let replies = map.apply(alloc, &batch).expect(rt, "memory");
    answer_text(alloc, &replies).expect(rt, "memory")
}

/// Returns the set of the first base pixels, up to this number.
fn read_set(rt: &impl Abort, alloc: Global, base_pixels: u64) -> Coverage {
    let mut cells = Vec::new(alloc);
    for index in 0..base_pixels {
        let cell = Cell::new(Order::default(), index).expect(rt, "a base pixel");
        cells.push(cell).expect(rt, "memory");
    }
    Coverage::from_cells(alloc, &cells).expect(rt, "memory")
}

#[test]
fn batches(rt: HostRuntime) {
    for (line, expected_text) in [
        (
            "add 0/2 ; count 0/0-3",
            "changed 288230376151711744 ; total 864691128455135232\n",
        ),
        ("claim 0/1-2", "taken 288230376151711744\n"),
        ("claim 0/5", "claimed\n"),
        ("near 0 4", "near yes\n"),
        ("near 0 10", "near no\n"),
        ("read 0/1-7", "cover 0/1\n"),
    ] {
        has_text(&rt, &answer(&rt, rt.alloc(), line), expected_text);
    }
    for (line, error) in [
        ("", LineError::EmptyCommand),
        ("add 0/0;", LineError::EmptyCommand),
        ("hop", LineError::UnknownWord),
        ("degrade 30", LineError::OrderTooLarge),
        ("near 0 12", LineError::CellTooLarge),
    ] {
        let read = read_batch(rt.alloc(), line.as_bytes());
        assert!(rt; matches!(read, Err(seen) if seen == error), "{line}");
    }
}

#[test]
fn commands_on_one_cell(rt: HostRuntime) {
    for (line, action, order, index) in [
        ("add 3/7", CellAction::Add, 3, 7),
        (" remove\t29/0 \r", CellAction::Remove, 29, 0),
        ("claim 0/11,", CellAction::Claim, 0, 11),
        ("count 1/47", CellAction::Count, 1, 47),
    ] {
        let command = read_cell_command(line.as_bytes()).expect(&rt, "a command on a cell");
        assert!(rt; command.action == action, "{line}");
        let cell = command.cell;
        assert_eq!(rt;
            (cell.order().get(), cell.index()),
            (order, index),
            "{line}"
        );
    }
    for line in [
        "",
        "add",
        "add 3/7 8",
        "add 3/7 ; add 3/8",
        "add 3/7;",
        "add @2 3/7",
        "add 0/12",
        "keep 3/7",
        "read 3/7",
        "adds 3/7",
        "near 3 7",
    ] {
        assert!(rt; read_cell_command(line.as_bytes()).is_none(), "{line}");
    }
}

#[test]
fn places_of_errors(rt: HostRuntime) {
    for (line, command, byte) in [
        ("", 0, 0),
        ("hop", 0, 0),
        (" invert 3", 0, 1),
        ("invert ; ; invert", 1, 9),
        ("invert;degrade 30", 1, 7),
        ("count 0/0;near 0 12;hop", 1, 10),
        ("add 0/x", 0, 6),
        ("invert ; add 5/7-3", 1, 15),
        ("read @2 1/4 5/7-", 0, 16),
        ("read @30 1/4", 0, 0),
        (";;;;;;;;;;;;;;;; hop", 16, 17),
    ] {
        let error = read_batch(rt.alloc(), line.as_bytes())
            .err()
            .expect(&rt, "an error");
        let place = place_of_error(rt.alloc(), line.as_bytes(), error).expect(&rt, "memory");
        assert_eq!(rt; place, LinePlace { command, byte }, "{line}");
    }
}

#[test]
fn texts_of_answers(rt: HostRuntime) {
    let alloc = rt.alloc();
    let mut text = Vec::new(alloc);
    let replies = [Reply::Changed(7), Reply::Near(true)];
    push_reply_line(alloc, &replies, &mut text).expect(&rt, "memory");
    push_count(b"midway ", 2, &mut text).expect(&rt, "memory");
    push_error(LineError::WrongCount.name(), &mut text).expect(&rt, "memory");
    push_cover(alloc, &read_set(&rt, alloc, 0), &mut text).expect(&rt, "memory");
    push_cover(alloc, &read_set(&rt, alloc, 3), &mut text).expect(&rt, "memory");
    has_text(
        &rt,
        &text,
        "changed 7 ; near yes\nmidway 2fault WrongCount\ncovercover 0/0-2",
    );
}

#[test]
fn whole_inputs(rt: HostRuntime) {
    let text = b"add 0/0\n\nread 0/0";
    let all = read_all(rt.alloc(), &mut OverReader::new(text.as_slice())).expect(&rt, "lines");
    has_text(&rt, &all, "add 0/0\n\nread 0/0");
    assert_eq!(rt; line_after_last(&all), 4);
    for (text, line, following) in [("a\nb\n", "a", "b\n"), ("\n", "", ""), ("a", "a", "")] {
        let (seen, rest) = split_line(text.as_bytes());
        has_text(&rt, seen, line);
        has_text(&rt, rest, following);
    }
    for (text, number) in [("", 1), ("a", 2), ("a\n", 2), ("a\nb", 3)] {
        assert_eq!(rt; line_after_last(text.as_bytes()), number, "{text:?}");
    }
}

#[test]
fn a_line_too_long_is_numbered(rt: HostRuntime) {
    let mut text = vec![in rt.alloc(); b'x'; LINE_LIMIT].expect(&rt, "memory");
    text.insert(0, b'\n').expect(&rt, "memory");
    let all = read_all(rt.alloc(), &mut OverReader::new(text.as_slice()));
    assert!(rt; all.is_ok());
    text.push(b'x').expect(&rt, "memory");
    let all = read_all(rt.alloc(), &mut OverReader::new(text.as_slice()));
    assert!(rt; matches!(all, Err(RunError::LineTooLong { line: 2 })));
}

#[test]
fn a_map_answers_lines(rt: HostRuntime) {
    let alloc = rt.alloc();
    let mut map = Map::new(alloc, read_set(&rt, alloc, 1)).expect(&rt, "memory");
    let mut written = Vec::new(alloc);
    let script = b"read 0/0-1\n\nhop\ninvert";
    answer_all_lines(
        alloc,
        &mut map,
        &mut OverReader::new(script.as_slice()),
        &mut OverWriter::new(&mut written),
    )
    .expect(&rt, "no fault");
    has_text(
        &rt,
        &written,
        "cover 0/0\nfault UnknownWord\nchanged 3458764513820540928\n",
    );
}
