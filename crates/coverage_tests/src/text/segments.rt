ghost use Rattle.std.specs.Prelude.{◌<◌};

use super::every_second;
use moc_ranges::Coverage;
use moc_sphere::Order;
use moc_text::{AsciiParser, TextError, UniqError, UniqParser, read_ascii, read_uniq};
use std::alloc::Global;
use std::process::Abort;

/// What parsing an ASCII text returns.
type AsciiResult = Result<(Coverage, Option<Order>), TextError>;

/// Parses a text in segments of a length.
fn ascii_in_segments(alloc: Global, text: &[u8], len: usize) -> AsciiResult
    requires { 0 < len }
{
    let mut parser = AsciiParser::new(alloc);
    for segment in text.chunks(len) {
        parser.push(segment)?;
    }
    parser.finish()
}

/// Parses a text in two segments.
fn ascii_in_two(alloc: Global, front: &[u8], back: &[u8]) -> AsciiResult {
    let mut parser = AsciiParser::new(alloc);
    parser.push(front)?;
    parser.push(back)?;
    parser.finish()
}

/// Checks that two results are equal, as sets and orders or as errors.
fn are_equal(rt: &impl Abort, text: &str, one: &AsciiResult, other: &AsciiResult) {
    match (one, other) {
        (Ok((set, order)), Ok((other_set, other_order))) => {
            assert!(rt; set.same(other_set), "{text}");
            assert_eq!(rt; order, other_order, "{text}");
        }
        (Err(error), Err(other_error)) => assert_eq!(rt; error, other_error, "{text}"),
        _ => assert!(rt; false, "{text}"),
    }
}

/// Checks that every cut of a text, and segments of each length, are parsed as the whole text.
fn is_read_in_segments(rt: &impl Abort, alloc: Global, text: &str) {
    let bytes = text.as_bytes();
    let whole = read_ascii(alloc, bytes);
    for len in 0..bytes.len() + 1 {
        let (front, back) = bytes.split_at(len);
        are_equal(rt, text, &ascii_in_two(alloc, front, back), &whole);
        are_equal(rt, text, &ascii_in_segments(alloc, bytes, len + 1), &whole);
    }
}

#[test]
fn ascii_texts_in_segments(rt: HostRuntime) {
    for text in [
        "",
        " ",
        "1/",
        "1/1-2 4 2/12-14 8/",
        "\r\n1/1-2,4\t2/12-14 21 \n 8/ ",
        "s29/3458764513820540927 0/0",
        "2/0-3,1/1 1/2,3",
        "01/002 000000000000000000000000001/3",
    ] {
        is_read_in_segments(&rt, rt.alloc(), text);
    }
}

// Every error, in the first word, in a later one, and in the last one, which no separator follows.
#[test]
fn ascii_errors_in_segments(rt: HostRuntime) {
    for text in [
        "x",
        "1/x 2/",
        "1/1 5 /3 2",
        "1/1-2 4 2/12-",
        "1/1-2 4 2/12- 3",
        "5/7-3",
        "1/1 5/7-3 4",
        "1/50-999 3",
        "1/5-999",
        "7 5/1",
        " 30/0 1/1",
        "0/0 s30/0",
        "1/2;1/3 x",
        "1/48,x",
    ] {
        is_read_in_segments(&rt, rt.alloc(), text);
    }
}

// After an error, each call fails with this error, also if the next segment is valid.
#[test]
fn an_ascii_error_lasts(rt: HostRuntime) {
    let mut parser = AsciiParser::new(rt.alloc());
    assert_eq!(rt; parser.push(b"1/1 2/"), Ok(()));
    assert_eq!(rt; parser.push(b"x 3/4 "), Err(TextError::BadByte { at: 6 }));
    assert_eq!(rt; parser.push(b" 1/1 "), Err(TextError::BadByte { at: 6 }));
    let end = parser.finish();
    assert!(rt; matches!(end, Err(TextError::BadByte { at: 6 })));
}

// No error is reported before the word is complete.
#[test]
fn an_ascii_error_at_the_end(rt: HostRuntime) {
    let mut parser = AsciiParser::new(rt.alloc());
    assert_eq!(rt; parser.push(b"1/1 x"), Ok(()));
    let end = parser.finish();
    assert!(rt; matches!(end, Err(TextError::BadByte { at: 4 })));
}

// No two of these cells touch, and the second half of the text precedes the first half.
#[test]
fn a_long_ascii_text_in_segments(rt: HostRuntime) {
    let alloc = rt.alloc();
    let mut text = every_second(&rt, alloc, "29/", 3000, " ", ",");
    text.push_str(every_second(&rt, alloc, "", 0, "\n", "").as_str())
        .expect(&rt, "memory");
    for len in [1, 2, 7, 4096] {
        let (set, order) = ascii_in_segments(alloc, text.as_bytes(), len).expect(&rt, "a set");
        assert_eq!(rt; (set.count(), order), (3000, Order::new(29)));
        assert!(rt; set.contains(0) && set.contains(3000) && set.contains(5998));
        assert!(rt; !set.contains(2999) && !set.contains(5999));
    }
}

/// Parses a NUNIQ list in segments of a length.
fn uniq_in_segments(alloc: Global, text: &[u8], len: usize) -> Result<Coverage, UniqError>
    requires { 0 < len }
{
    let mut parser = UniqParser::new(alloc);
    for segment in text.chunks(len) {
        parser.push(segment)?;
    }
    parser.finish()
}

/// Parses a NUNIQ list in two segments.
fn uniq_in_two(alloc: Global, front: &[u8], back: &[u8]) -> Result<Coverage, UniqError> {
    let mut parser = UniqParser::new(alloc);
    parser.push(front)?;
    parser.push(back)?;
    parser.finish()
}

/// Checks that two results are equal, as sets or as errors.
fn are_equal_sets(
    rt: &impl Abort,
    text: &str,
    one: &Result<Coverage, UniqError>,
    other: &Result<Coverage, UniqError>,
) {
    match (one, other) {
        (Ok(set), Ok(other_set)) => assert!(rt; set.same(other_set), "{text}"),
        (Err(error), Err(other_error)) => assert_eq!(rt; error, other_error, "{text}"),
        _ => assert!(rt; false, "{text}"),
    }
}

/// Checks that every cut of a list, and segments of each length, are parsed as the whole list.
fn is_list_read_in_segments(rt: &impl Abort, alloc: Global, text: &str) {
    let bytes = text.as_bytes();
    let whole = read_uniq(alloc, bytes);
    for len in 0..bytes.len() + 1 {
        let (front, back) = bytes.split_at(len);
        are_equal_sets(rt, text, &uniq_in_two(alloc, front, back), &whole);
        are_equal_sets(rt, text, &uniq_in_segments(alloc, bytes, len + 1), &whole);
    }
}

#[test]
fn lists_in_segments(rt: HostRuntime) {
    for text in [
        "",
        "\n",
        "16\n17\n\n18\n19",
        "16\n17\n\n18\n19\n\n",
        "4611686018427387903\n0000000000000000000000000004\n4",
    ] {
        is_list_read_in_segments(&rt, rt.alloc(), text);
    }
}

// Both errors, on the first line, on a later one, and on the last one, which no line feed follows.
#[test]
fn errors_of_lists_in_segments(rt: HostRuntime) {
    for text in [
        "x",
        "x\n4\n3",
        "16\r\n",
        "4\nx",
        "\n3\nx",
        "4\n\n5 \n6",
        "4611686018427387904",
        "16\n17\n4611686018427387904\n18\n",
    ] {
        is_list_read_in_segments(&rt, rt.alloc(), text);
    }
}

// After an error, each call fails with this error, also if the next segment is valid.
#[test]
fn an_error_of_a_list_lasts(rt: HostRuntime) {
    let mut parser = UniqParser::new(rt.alloc());
    assert_eq!(rt; parser.push(b"4\n3"), Ok(()));
    assert_eq!(rt; parser.push(b"\n16\n"), Err(UniqError::NotUniq { line: 2 }));
    assert_eq!(rt; parser.push(b"17\n"), Err(UniqError::NotUniq { line: 2 }));
    let end = parser.finish();
    assert!(rt; matches!(end, Err(UniqError::NotUniq { line: 2 })));
}

// 4^30 is the NUNIQ number of the first cell of order 29.
#[test]
fn a_long_list_in_segments(rt: HostRuntime) {
    let alloc = rt.alloc();
    let text = every_second(&rt, alloc, "", 1152921504606846976, "\n", "");
    for len in [1, 2, 7, 4096] {
        let set = uniq_in_segments(alloc, text.as_bytes(), len).expect(&rt, "a set");
        assert_eq!(rt; set.count(), 1500);
        assert!(rt; set.contains(0) && set.contains(2998) && !set.contains(1));
    }
}
