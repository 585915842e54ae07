//! Diagnostics and statistics of texts. Expected lines are worked out by hand from the texts.
use crate::shown::is_shown;
use moc_forms::{
    Change, Content, Diagnostic, Format, FormatChoice, FormatError, Operation, ParsedCoverage,
    PictureNames, Place, Statistics, describe, draw, draw_two, expected_line, hint, hint_line,
    is_blank, quote,
};
use moc_sphere::{InvalidName, Order};
use moc_text::{JsonError, TextError, UniqError, WriteError};
use std::alloc::Global;
use std::fmt::Write;
use std::process::Abort;
use std::str::FromStr;

/// The error for a word that is not the name of a format.
const NOT_FORMAT: InvalidName = InvalidName {
    expected: "`ascii`, `json` or `uniq`",
};

/// The error for a word that is not the choice of a format.
const NOT_CHOICE: InvalidName = InvalidName {
    expected: "`auto`, `ascii`, `json` or `uniq`",
};

/// The error for a word that is not the name of an operation.
const NOT_OPERATION: InvalidName = InvalidName {
    expected: "`union`, `intersection`, `difference` or `symmetric`",
};

/// Checks what a text has led to.
fn assert_text(rt: &impl Abort, text: &str, seen: &str, expected_text: &str) {
    assert_eq!(rt; seen, expected_text, "{text:?}");
}

/// Returns the diagnostic of a text, or `None` if the text is valid.
fn diagnose(rt: &impl Abort, alloc: Global, format: Format, text: &[u8]) -> Option<Diagnostic> {
    let error = format.read(alloc, text).err()?;
    Some(Diagnostic::new(alloc, format, text, error).expect(rt, "memory"))
}

/// Checks the position of a text's error; empty if the text is valid.
fn has_position(rt: &impl Abort, alloc: Global, format: Format, text: &str, position: &str) {
    let mut line = String::new(alloc);
    if let Some(diagnostic) = diagnose(rt, alloc, format, text.as_bytes()) {
        let place = diagnostic.place;
        if let Some(place) = place {
            write!(line, "{place}").expect(rt, "memory");
        }
    }
    assert_text(rt, text, line.as_str(), position);
}

/// Returns the statistics of a text.
fn statistics(rt: &impl Abort, alloc: Global, format: Format, text: &str) -> String {
    let (set, deepest) = format.read(alloc, text.as_bytes()).expect(rt, "a text");
    describe(alloc, &set, deepest).expect(rt, "memory")
}

#[test]
fn places_in_ascii(rt: HostRuntime) {
    for (text, place) in [
        ("1/0-3", ""),
        ("", ""),
        ("x", "byte 0, line 1, byte 0 of it"),
        ("1/0-3\n2/7-5", "byte 8, line 2, byte 2 of it"),
        ("1/0\n\n\n5", ""),
        ("1/0\n\n\n99", "byte 6, line 4, byte 0 of it"),
        ("1/0 30/", "byte 4, line 1, byte 4 of it"),
        ("1/0\n5-", "byte 6, line 2, byte 2 of it"),
    ] {
        has_position(&rt, rt.alloc(), Format::Ascii, text, place);
    }
}

/// The end of a text is a position, too.
#[test]
fn places_of_bytes(rt: HostRuntime) {
    let text = b"1/0\n5-".as_slice();
    for (at, expected_text) in [
        (3, "byte 3, line 1, byte 3 of it"),
        (4, "byte 4, line 2, byte 0 of it"),
        (6, "byte 6, line 2, byte 2 of it"),
    ] {
        is_shown(&rt, rt.alloc(), &Place::of_byte(text, at), expected_text);
    }
}

/// Line and column are those of the byte at which `serde_json` stops; an empty text has no column.
#[test]
fn places_in_json(rt: HostRuntime) {
    for (text, place) in [
        ("{\"1\":[0]}", ""),
        ("{\"9\":[0,1,true],\"1\":[]}", "order 9, number 2"),
        ("{\"1\":[],\"10\":[5],\"2\":[0,192]}", "order 2, number 1"),
        ("{\"1\":[],\"007\":1}", "order 7"),
        ("{\"0\":[],\"x\":[]}", "name 1"),
        ("[]", ""),
        ("{\"1\":[0,]}", "line 1, column 9"),
        ("{\n\"1\":[0", "line 2, column 6"),
        ("", "line 1, column 0"),
    ] {
        has_position(&rt, rt.alloc(), Format::Json, text, place);
    }
}

#[test]
fn places_in_lists(rt: HostRuntime) {
    for (text, place) in [("4\n\n5", ""), ("4\n\n3\n", "line 3"), ("4\nx", "line 2")] {
        has_position(&rt, rt.alloc(), Format::Uniq, text, place);
    }
}

#[test]
fn parsed_text(rt: HostRuntime) {
    let parsed = Format::Ascii.read(rt.alloc(), b"0/0 2/".as_slice());
    let (set, moc_order) = parsed.expect(&rt, "a text");
    assert_eq!(&rt; set.count(), 1 << 58);
    assert_eq!(&rt; moc_order, Order::new(2));
}

#[test]
fn whole_diagnostic(rt: HostRuntime) {
    let alloc = rt.alloc();
    let diagnostic = diagnose(&rt, alloc, Format::Json, b"\n7/0".as_slice()).expect(
        &rt, "an error",
    );
    is_shown(&rt, alloc, &diagnostic, "invalid JSON");
    assert_eq!(&rt; diagnostic.error, FormatError::Json(JsonError::NotJson));
    assert_eq!(&rt;
        diagnostic.place,
        Some(Place::JsonSyntax { line: 2, column: 1 })
    );
    assert!(&rt; diagnostic.quote.is_none());
    assert!(&rt; diagnostic.order.is_none());
    assert_eq!(&rt; diagnostic.hint, Some(Content::Coverage(Format::Ascii)));
}

#[test]
fn out_of_memory_has_no_diagnostic(rt: HostRuntime) {
    for (format, error) in [
        (Format::Ascii, FormatError::Ascii(TextError::Memory)),
        (Format::Json, FormatError::Json(JsonError::Memory)),
        (Format::Uniq, FormatError::Uniq(UniqError::Memory)),
    ] {
        assert!(&rt; error.is_memory());
        assert!(&rt; Diagnostic::new(rt.alloc(), format, b"".as_slice(), error).is_err());
    }
}

#[test]
fn blank_texts(rt: HostRuntime) {
    assert!(&rt; is_blank(b" \t\r\n".as_slice()));
    assert!(&rt; !is_blank(b" ,".as_slice()));
}

/// Checks the quote of a text; empty if the text is valid, or if there is no position.
fn is_quoted(rt: &impl Abort, alloc: Global, format: Format, text: &[u8], expected_text: &str) {
    let mut seen = None;
    if let Some(diagnostic) = diagnose(rt, alloc, format, text) {
        seen = quote(alloc, text, diagnostic.error).expect(rt, "memory");
        assert_eq!(rt; seen.as_deref(), diagnostic.quote.as_deref());
    }
    assert_eq!(rt; seen.as_deref().unwrap_or(""), expected_text);
}

#[test]
fn quotes(rt: HostRuntime) {
    for (format, text, expected_text) in [
        (Format::Ascii, b"1/0-3".as_slice(), ""),
        (Format::Ascii, b"1/0,2/7-5\n3".as_slice(), "`2/7-5`"),
        (Format::Ascii, b"1/0 5-\t".as_slice(), "`5-`"),
        (
            Format::Ascii,
            b"\x1b\\`~\x7f".as_slice(),
            "`\\x1b\\x5c\\x60~\\x7f`",
        ),
        // At most 40 bytes are shown, and among them the byte of the error.
        (
            Format::Ascii,
            b"x0123456789012345678901234567890123456789".as_slice(),
            "`x012345678901234567890123456789012345678`..",
        ),
        (
            Format::Ascii,
            b"0/0 1/01234567890123456789012345678901234567x".as_slice(),
            "..`/01234567890123456789012345678901234567x`",
        ),
        (
            Format::Ascii,
            b"1/01234567890123456789x012345678901234567890123456789".as_slice(),
            "..`01234567890123456789x0123456789012345678`..",
        ),
        (
            Format::Uniq,
            b"4\n012345678901234567890123456789x0123456789".as_slice(),
            "..`12345678901234567890123456789x0123456789`",
        ),
        (Format::Uniq, b"4\n5 \n6".as_slice(), "`5 `"),
        (Format::Json, b"{\"1\":[],\"x\":[]}".as_slice(), "`x`"),
        (Format::Json, b"{\"007\":1}".as_slice(), "`007`"),
        (Format::Json, b"{\"1\":[0,[true]]}".as_slice(), "`[true]`"),
        (Format::Json, b"{\"1\":[0,48]}".as_slice(), "`48`"),
        (Format::Json, b"[".as_slice(), ""),
    ] {
        is_quoted(&rt, rt.alloc(), format, text, expected_text);
    }
}

#[test]
fn formats_that_are_detected(rt: HostRuntime) {
    for (word, text, format) in [
        ("auto", " \t\r\n{", Format::Json),
        ("auto", ",{", Format::Ascii),
        ("auto", "", Format::Ascii),
        ("auto", "4\n", Format::Ascii),
        ("json", "0/3", Format::Json),
        ("uniq", "{", Format::Uniq),
        ("ascii", "{", Format::Ascii),
    ] {
        let choice = FormatChoice::from_str(word).expect(&rt, "a choice");
        assert_eq!(&rt; choice.format(text.as_bytes()), format, "{text:?}");
        is_shown(&rt, rt.alloc(), &choice, word);
    }
    assert!(&rt; FormatChoice::from_str("fits") == Err(NOT_CHOICE));
}

#[test]
fn hints(rt: HostRuntime) {
    for (format, text, expected_text) in [
        (Format::Ascii, " {", "this looks like JSON\n"),
        (Format::Json, "s3/", "this looks like ASCII\n"),
        (Format::Json, "\n4\n5", "this looks like a NUNIQ list\n"),
        (Format::Json, "[1]", ""),
        (Format::Json, "s", ""),
        (Format::Json, "s/", ""),
        (Format::Json, "x3/1", ""),
        (Format::Ascii, "0/x", ""),
        (Format::Ascii, "9:1,5", ""),
        (Format::Json, ",4\n5", ""),
        (Format::Ascii, "12 13", ""),
        (Format::Ascii, "4\r\n5\r\n", ""),
        (Format::Ascii, "\n\n", ""),
        (Format::Json, " \t\r\n", ""),
        (Format::Uniq, "", ""),
    ] {
        assert_hint(&rt, format, text.as_bytes(), expected_text);
    }
}

/// Contents that are known by their first bytes: the byte order marks are those of the Unicode standard.
#[test]
fn hints_of_other_contents(rt: HostRuntime) {
    for (text, expected_text) in [
        (
            b"\xEF\xBB\xBF1/0".as_slice(),
            "this looks like UTF-8 with a byte order mark\n",
        ),
        (b"\xFF\xFE1\0/\0".as_slice(), "this looks like UTF-16\n"),
        (b"\xFE\xFF\x001\0/".as_slice(), "this looks like UTF-16\n"),
        (b"\x1F\x8B\x08".as_slice(), "this looks like gzip\n"),
        (
            b"SIMPLE  =                    T".as_slice(),
            "this looks like FITS; python -m ploverchaise convert reads it\n",
        ),
        (b"<svg/>1".as_slice(), "this looks like HTML or XML\n"),
        (b"\xEF\xBB".as_slice(), ""),
        (b"\x1F".as_slice(), ""),
        (b"SIMPL".as_slice(), ""),
    ] {
        for format in [Format::Ascii, Format::Json, Format::Uniq] {
            assert_hint(&rt, format, text, expected_text);
        }
    }
}

/// Checks the line of the hint at what a text looks like.
fn assert_hint(rt: &impl Abort, format: Format, text: &[u8], expected_text: &str) {
    let seen = match hint(format, text) {
        Some(content) => hint_line(content),
        None => "",
    };
    assert_eq!(rt; seen, expected_text);
}

/// Order 9 has 12·4^9 = 3145728 cells.
#[test]
fn orders_at_errors(rt: HostRuntime) {
    for (format, text, order) in [
        (
            Format::Ascii,
            b"3/1 s09/1,5-3145728".as_slice(),
            Order::new(9),
        ),
        (
            Format::Ascii,
            b"9/3145727 10/ 9/\n3145728".as_slice(),
            Order::new(9),
        ),
        (Format::Ascii, b"29/ 5-1".as_slice(), None),
        (Format::Ascii, b"30/1".as_slice(), None),
        (
            Format::Json,
            b"{\"09\":[0,3145728]}".as_slice(),
            Order::new(9),
        ),
        (Format::Json, b"{\"9\":[true]}".as_slice(), None),
        (Format::Uniq, b"3".as_slice(), None),
    ] {
        let diagnostic = diagnose(&rt, rt.alloc(), format, text).expect(&rt, "an error");
        assert_eq!(&rt; diagnostic.order, order);
    }
}

#[test]
fn lines_of_what_is_expected(rt: HostRuntime) {
    let words = "words look like 3/, 10, 12-14 or 3/10\n";
    let object = "a text is one object, as in {\"3\":[10,12]}\n";
    for (error, line) in [
        (FormatError::Ascii(TextError::BadByte { at: 0 }), words),
        (FormatError::Ascii(TextError::Unfinished { at: 0 }), words),
        (
            FormatError::Ascii(TextError::NoOrder { at: 0 }),
            "an order comes first, as in 3/\n",
        ),
        (
            FormatError::Ascii(TextError::OrderTooLarge { at: 0 }),
            "orders go up to 29\n",
        ),
        (
            FormatError::Ascii(TextError::Backwards { at: 0 }),
            "a range goes from its first cell to its last\n",
        ),
        (FormatError::Ascii(TextError::CellTooLarge { at: 0 }), ""),
        (FormatError::Json(JsonError::NotJson), object),
        (FormatError::Json(JsonError::NotObject), object),
        (
            FormatError::Json(JsonError::BadOrder { name: 0 }),
            "names are orders from 0 to 29\n",
        ),
        (
            FormatError::Json(JsonError::NotArray { name: 0 }),
            "the value of an order is an array, as in {\"3\":[10,12]}\n",
        ),
        (
            FormatError::Json(JsonError::NotWhole { name: 0, place: 0 }),
            "cells are whole numbers of at most 64 bits\n",
        ),
        (
            FormatError::Uniq(UniqError::BadByte { line: 1 }),
            "each line is one number, of digits only\n",
        ),
        (
            FormatError::Uniq(UniqError::NotUniq { line: 1 }),
            "NUNIQ numbers go from 4 to 4611686018427387903\n",
        ),
        (FormatError::Uniq(UniqError::Memory), ""),
    ] {
        assert_eq!(&rt; expected_line(error), line, "{error}");
    }
}

#[test]
fn errors(rt: HostRuntime) {
    let alloc = rt.alloc();
    for (format, text, error) in [
        (
            Format::Ascii,
            "5",
            FormatError::Ascii(TextError::NoOrder { at: 0 }),
        ),
        (Format::Json, "[]", FormatError::Json(JsonError::NotObject)),
        (
            Format::Uniq,
            "3",
            FormatError::Uniq(UniqError::NotUniq { line: 1 }),
        ),
    ] {
        let seen = format
            .read(alloc, text.as_bytes())
            .err()
            .expect(&rt, "an error");
        assert_eq!(&rt; seen, error);
    }
}

/// Parses a text, and writes it in the same format with MOC order 2.
fn parse_and_write(rt: &impl Abort, alloc: Global, format: Format, text: &str) -> String {
    let (set, _) = format.read(alloc, text.as_bytes()).expect(rt, "a text");
    format
        .write(alloc, &set, Order::new(2))
        .expect(rt, "memory")
}

#[test]
fn forms(rt: HostRuntime) {
    let alloc = rt.alloc();
    for (word, text) in [
        ("ascii", "1/0 2/\n"),
        ("json", "{\"1\":[0],\"2\":[]}\n"),
        ("uniq", "16\n"),
    ] {
        let format = Format::from_str(word).expect(&rt, "a form");
        let written = parse_and_write(&rt, alloc, format, text);
        assert_text(&rt, word, written.as_str(), text);
        is_shown(&rt, alloc, &format, word);
    }
    assert!(&rt; Format::from_str("fits") == Err(NOT_FORMAT));
}

#[test]
fn figures_of_sets(rt: HostRuntime) {
    let alloc = rt.alloc();
    for (format, text, lines) in [
        (
            Format::Ascii,
            "",
            "deepest none\npixels 0\nshare 0.000000000000\narea 0.000000000000\nranges 0\ncells 0\n",
        ),
        (
            Format::Ascii,
            "0/0-11",
            "deepest 0\npixels 3458764513820540928\nshare 1.000000000000\narea 41252.961249419271\n\
             ranges 1\ncells 12\norder 0 12\n",
        ),
        (
            Format::Ascii,
            "1/0-3 2/20 29/",
            "deepest 29\npixels 306244774661193728\nshare 0.088541666666\narea 3652.605943958997\n\
             ranges 2\ncells 2\norder 0 1\norder 2 1\n",
        ),
        (
            Format::Ascii,
            "29/7",
            "deepest 29\npixels 1\nshare 0.000000000000000000289120\narea 0.000000000000011927080055\n\
             ranges 1\ncells 1\norder 29 1\n",
        ),
        // The largest sets with 24 digits of the area and of the share, and one pixel more.
        (
            Format::Ascii,
            "29/0-82",
            "deepest 29\npixels 83\nshare 0.000000000000000023997008\narea 0.000000000000989947644605\n\
             ranges 1\ncells 5\norder 26 1\norder 27 1\norder 29 3\n",
        ),
        (
            Format::Ascii,
            "29/0-83",
            "deepest 29\npixels 84\nshare 0.000000000000000024286128\narea 0.000000000001\n\
             ranges 1\ncells 3\norder 26 1\norder 27 1\norder 28 1\n",
        ),
        (
            Format::Uniq,
            "4\n",
            "deepest none\npixels 288230376151711744\nshare 0.083333333333\narea 3437.746770784939\n\
             ranges 1\ncells 1\norder 0 1\n",
        ),
    ] {
        let seen = statistics(&rt, alloc, format, text);
        assert_text(&rt, text, seen.as_str(), lines);
    }
}

/// Returns the statistics of an ASCII text as numbers.
fn numbers(rt: &impl Abort, alloc: Global, text: &[u8]) -> Statistics {
    let (set, deepest) = Format::Ascii.read(alloc, text).expect(rt, "a text");
    Statistics::of(&set, deepest)
}

#[test]
fn figures_one_by_one(rt: HostRuntime) {
    let statistics = numbers(&rt, rt.alloc(), b"1/0-3 2/20 29/".as_slice());
    assert_eq!(&rt; statistics.moc_order(), Order::new(29));
    assert_eq!(&rt; statistics.count(), 306244774661193728);
    assert_eq!(&rt; statistics.share(), 88541666666);
    assert_eq!(&rt; statistics.area(), 3652605943958997);
    assert_eq!(&rt; (statistics.range_count(), statistics.cell_count()), (2, 2));
    for (order, cells) in [(0, 1), (1, 0), (2, 1), (29, 0)] {
        assert_eq!(&rt;
            statistics.cells_of(Order::of(order)),
            cells,
            "order {order}"
        );
    }
}

/// Returns the set of an ASCII text as if it had another format.
fn set_of_text(rt: &impl Abort, alloc: Global, text: &str, format: Format) -> ParsedCoverage {
    let (set, moc_order) = Format::Ascii
        .read(alloc, text.as_bytes())
        .expect(rt, "a text");
    ParsedCoverage {
        set,
        moc_order,
        format,
    }
}

/// Returns the text of an operation on two texts.
fn combine_texts(
    rt: &impl Abort,
    alloc: Global,
    operation: Operation,
    first: &str,
    second: &str,
) -> String {
    let first = set_of_text(rt, alloc, first, Format::Ascii);
    let before = operation.combine(alloc, None, first).expect(rt, "memory");
    let second = set_of_text(rt, alloc, second, Format::Json);
    let both = operation
        .combine(alloc, Some(before), second)
        .expect(rt, "memory");
    both.format
        .write(alloc, &both.set, both.moc_order)
        .expect(rt, "memory")
}

/// Returns the text of a change of a text with MOC order 3.
fn change_text(rt: &impl Abort, alloc: Global, change: &Change, text: &[u8]) -> String {
    let (set, _) = Format::Ascii.read(alloc, text).expect(rt, "a text");
    let new = change.apply(alloc, &set).expect(rt, "memory");
    let stated = change.order_to_state(Order::new(3));
    Format::Ascii
        .write(alloc, &new, stated)
        .expect(rt, "memory")
}

#[test]
fn changes(rt: HostRuntime) {
    for (change, text) in [
        (Change::Degrade(Order::of(0)), "0/0-11\n"),
        (Change::Complement, "1/47 3/\n"),
    ] {
        let seen = change_text(&rt, rt.alloc(), &change, b"0/0-10 1/44-46 3/".as_slice());
        assert_eq!(&rt; seen.as_str(), text);
    }
}

#[test]
fn operations(rt: HostRuntime) {
    for (name, text) in [
        ("union", "0/0-1 2/32\n"),
        ("intersection", "1/3-4 2/20\n"),
        ("difference", "1/0-2 2/21-23\n"),
        ("symmetric", "1/0-2 6-7 2/21-23 32\n"),
    ] {
        let operation = Operation::from_str(name).expect(&rt, "an operation");
        let seen = combine_texts(&rt, rt.alloc(), operation, "0/0 1/4-5", "1/3-4 6-7 2/20 32");
        assert_text(&rt, name, seen.as_str(), text);
        is_shown(&rt, rt.alloc(), &operation, name);
    }
    assert!(&rt; Operation::from_str("minus") == Err(NOT_OPERATION));
}

#[test]
fn moc_orders_of_both(rt: HostRuntime) {
    for (first, second, text) in [
        ("", "", "\n"),
        ("5/", "", "5/\n"),
        ("", "5/", "5/\n"),
        ("7/", "5/", "7/\n"),
    ] {
        let seen = combine_texts(&rt, rt.alloc(), Operation::Union, first, second);
        assert_eq!(&rt; seen.as_str(), text, "{first} and {second}");
    }
}

/// The sky of every picture: base pixel 4 is at both edges, and its number at both. East is to the left, so base pixel
/// 0 is at the right.
const SKY: &str = "<path fill=\"#eee\" stroke=\"#bbb\" clip-path=\"url(#plane)\" \
d=\"M128 0l128 128-128 128-128-128zM384 0l128 128-128 128-128-128z\
M640 0l128 128-128 128-128-128zM896 0l128 128-128 128-128-128z\
M0 128l128 128-128 128-128-128zM1024 128l128 128-128 128-128-128zM256 128l128 128-128 128-128-128z\
M512 128l128 128-128 128-128-128zM768 128l128 128-128 128-128-128z\
M128 256l128 128-128 128-128-128zM384 256l128 128-128 128-128-128z\
M640 256l128 128-128 128-128-128zM896 256l128 128-128 128-128-128z\"/>
<g font-family=\"sans-serif\" font-size=\"20\" text-anchor=\"middle\" fill=\"#bbb\">
<text x=\"896\" y=\"135\">0</text>
<text x=\"640\" y=\"135\">1</text>
<text x=\"384\" y=\"135\">2</text>
<text x=\"128\" y=\"135\">3</text>
<text x=\"16\" y=\"263\">4</text>
<text x=\"1008\" y=\"263\">4</text>
<text x=\"768\" y=\"263\">5</text>
<text x=\"512\" y=\"263\">6</text>
<text x=\"256\" y=\"263\">7</text>
<text x=\"896\" y=\"391\">8</text>
<text x=\"640\" y=\"391\">9</text>
<text x=\"384\" y=\"391\">10</text>
<text x=\"128\" y=\"391\">11</text>
</g>
<g transform=\"translate(1024 0) scale(-1 1)\" clip-path=\"url(#plane)\" shape-rendering=\"crispEdges\">
";

/// The text after the cells of one set: the directions, and the meaning of the shades.
const LEGEND: &str = "</g>
<g font-family=\"sans-serif\" font-size=\"20\" fill=\"#444\">
<text x=\"-34\" y=\"263\">E</text>
<text x=\"1036\" y=\"263\">W</text>
<text x=\"0\" y=\"566\">up to</text>
<text x=\"60\" y=\"566\">1/4</text>
<text x=\"100\" y=\"566\">1/2</text>
<text x=\"140\" y=\"566\">3/4</text>
<text x=\"180\" y=\"566\">1</text>
<text x=\"216\" y=\"566\">of a cell of order 7</text>
<path fill=\"#8cc0dc\" d=\"M60 580h24v16h-24z\"/>
<path fill=\"#5ea6cf\" d=\"M100 580h24v16h-24z\"/>
<path fill=\"#2e8bc0\" d=\"M140 580h24v16h-24z\"/>
<path fill=\"#0072b2\" d=\"M180 580h24v16h-24z\"/>
<text x=\"216\" y=\"595\">";

/// The colours of the tones, in the order of the picture.
const TONES: [&str; 12] = [
    "#8cc0dc", "#5ea6cf", "#2e8bc0", "#0072b2", "#f4d48c", "#efc35e", "#ebb02e", "#e69f00",
    "#8c8c8c", "#5e5e5e", "#2e2e2e", "#000000",
];

/// Returns the picture of a height whose tones each have these diamonds, up to its legend.
fn picture(rt: &impl Abort, alloc: Global, height: u64, tones: &[&str]) -> String {
    let mut text = format!(in alloc;
        "<svg xmlns=\"http://www.w3.org/2000/svg\" viewBox=\"-40 -40 1104 {height}\">\n\
         <title>Sky coverage</title>\n\
         <clipPath id=\"plane\"><path d=\"M0 0h1024v512H0z\"/></clipPath>\n\
         <rect x=\"-40\" y=\"-40\" width=\"1104\" height=\"{height}\" fill=\"#fff\"/>\n{SKY}"
    )
    .expect(rt, "memory");
    for (diamonds, colour) in tones.iter().zip(TONES) {
        write!(
            text,
            "<path fill=\"{colour}\" stroke=\"{colour}\" vector-effect=\"non-scaling-stroke\" d=\"{diamonds}\"/>\n"
        )
        .expect(rt, "memory");
    }
    text
}

/// Returns the picture whose four shades, from the lightest, have these diamonds, with a name in its legend.
fn picture_with_shades(rt: &impl Abort, alloc: Global, shades: [&str; 4], name: &str) -> String {
    let mut text = picture(rt, alloc, 656, &shades);
    write!(text, "{LEGEND}{name}</text>\n</g>\n</svg>\n").expect(rt, "memory");
    text
}

/// Returns the picture of the set of a text.
fn picture_of_text(rt: &impl Abort, alloc: Global, text: &str) -> String {
    let (set, _) = Format::Ascii
        .read(alloc, text.as_bytes())
        .expect(rt, "a text");
    draw(alloc, &set, None).expect(rt, "memory")
}

/// Checks the shades of the picture of a text.
fn is_drawn(rt: &impl Abort, alloc: Global, text: &str, shades: [&str; 4]) {
    let seen = picture_of_text(rt, alloc, text);
    let wanted = picture_with_shades(rt, alloc, shades, "covered");
    assert_text(rt, text, seen.as_str(), wanted.as_str());
}

/// The diamonds are worked out by hand from the rows and columns of the cells.
#[test]
fn pictures_of_cells(rt: HostRuntime) {
    for (text, diamonds) in [
        ("", ""),
        ("0/5", "M256 128l128 128-128 128-128-128z"),
        // A cell of order 1 at the seam is drawn at both edges.
        (
            "1/16",
            "M0 256l64 64-64 64-64-64zM1024 256l64 64-64 64-64-64z",
        ),
        // Cells of order 7 or less come before partly filled cells.
        (
            "0/11 7/5 8/12-14 9/60",
            "M896 256l128 128-128 128-128-128zM131 251l1 1-1 1-1-1zM128 252l1 1-1 1-1-1z",
        ),
    ] {
        is_drawn(&rt, rt.alloc(), text, ["", "", "", diamonds]);
    }
}

#[test]
fn pictures_of_pixels(rt: HostRuntime) {
    for (text, diamonds) in [
        // A pixel is drawn as its cell of order 7.
        ("29/0", "M128 254l1 1-1 1-1-1z"),
        // So is a pixel at the seam, in base pixel 4.
        (
            "29/1152921504606846976",
            "M0 382l1 1-1 1-1-1zM1024 382l1 1-1 1-1-1z",
        ),
    ] {
        is_drawn(&rt, rt.alloc(), text, [diamonds, "", "", ""]);
    }
}

/// One, two and three quarters of a cell; then one more pixel each, up to the next cell.
#[test]
fn pictures_of_shares(rt: HostRuntime) {
    let (first, second, third) = (
        "M128 254l1 1-1 1-1-1z",
        "M129 253l1 1-1 1-1-1z",
        "M127 253l1 1-1 1-1-1z",
    );
    let quarters = "8/0 4-5 8-10";
    is_drawn(&rt, rt.alloc(), quarters, [first, second, third, ""]);
    let more = "8/0 4-5 8-10 29/4398046511104 26388279066624 48378511622144";
    is_drawn(&rt, rt.alloc(), more, ["", first, second, third]);
}

/// A name is escaped, and bytes that are not printable ASCII are drawn as question marks.
#[test]
fn picture_with_a_name(rt: HostRuntime) {
    let alloc = rt.alloc();
    let (set, _) = Format::Ascii
        .read(alloc, b"0/5".as_slice())
        .expect(&rt, "a text");
    let seen = draw(alloc, &set, Some("A&B <\"1\">~\u{e9}\u{7}")).expect(&rt, "memory");
    let shades = ["", "", "", "M256 128l128 128-128 128-128-128z"];
    let wanted = picture_with_shades(&rt, alloc, shades, "A&amp;B &lt;&quot;1&quot;&gt;~???");
    assert_eq!(&rt; seen.as_str(), wanted.as_str());
}

/// The text after the cells of two sets, up to the name of the first.
const LEGEND_OF_TWO: &str = "</g>
<g font-family=\"sans-serif\" font-size=\"20\" fill=\"#444\">
<text x=\"-34\" y=\"263\">E</text>
<text x=\"1036\" y=\"263\">W</text>
<text x=\"0\" y=\"566\">up to</text>
<text x=\"60\" y=\"566\">1/4</text>
<text x=\"100\" y=\"566\">1/2</text>
<text x=\"140\" y=\"566\">3/4</text>
<text x=\"180\" y=\"566\">1</text>
<text x=\"216\" y=\"566\">of a cell of order 7; its colour is that of most of its covered pixels</text>
<path fill=\"#8cc0dc\" d=\"M60 580h24v16h-24z\"/>
<path fill=\"#5ea6cf\" d=\"M100 580h24v16h-24z\"/>
<path fill=\"#2e8bc0\" d=\"M140 580h24v16h-24z\"/>
<path fill=\"#0072b2\" d=\"M180 580h24v16h-24z\"/>
<text x=\"216\" y=\"595\">";

/// The text from the name of the first set up to that of the second.
const LEGEND_OF_SECOND: &str = "</text>
<path fill=\"#f4d48c\" d=\"M60 608h24v16h-24z\"/>
<path fill=\"#efc35e\" d=\"M100 608h24v16h-24z\"/>
<path fill=\"#ebb02e\" d=\"M140 608h24v16h-24z\"/>
<path fill=\"#e69f00\" d=\"M180 608h24v16h-24z\"/>
<text x=\"216\" y=\"623\">";

/// The text after the name of the second set.
const LEGEND_OF_BOTH: &str = "</text>
<path fill=\"#8c8c8c\" d=\"M60 636h24v16h-24z\"/>
<path fill=\"#5e5e5e\" d=\"M100 636h24v16h-24z\"/>
<path fill=\"#2e2e2e\" d=\"M140 636h24v16h-24z\"/>
<path fill=\"#000000\" d=\"M180 636h24v16h-24z\"/>
<text x=\"216\" y=\"651\">both</text>
</g>
</svg>
";

/// Returns the picture of two sets whose twelve tones have these diamonds, with two names in its legend.
fn picture_with_tones(
    rt: &impl Abort,
    alloc: Global,
    tones: [&str; 12],
    names: [&str; 2],
) -> String {
    let mut text = picture(rt, alloc, 712, &tones);
    let [first, second] = names;
    write!(
        text,
        "{LEGEND_OF_TWO}{first}{LEGEND_OF_SECOND}{second}{LEGEND_OF_BOTH}"
    )
    .expect(rt, "memory");
    text
}

/// Returns the picture of the sets of two texts, with names.
fn picture_of_two_texts(
    rt: &impl Abort,
    alloc: Global,
    first: &[u8],
    second: &[u8],
    names: PictureNames<'_>,
) -> String {
    let (first, _) = Format::Ascii.read(alloc, first).expect(rt, "a text");
    let (second, _) = Format::Ascii.read(alloc, second).expect(rt, "a text");
    draw_two(alloc, &first, &second, names).expect(rt, "memory")
}

/// Cells of only the first set, of only the second, and of both; the diamonds are worked out by hand.
#[test]
fn pictures_of_two(rt: HostRuntime) {
    let alloc = rt.alloc();
    let tones = [
        "M128 254l1 1-1 1-1-1z",
        "",
        "",
        "",
        "",
        "",
        "",
        "M0 256l64 64-64 64-64-64zM1024 256l64 64-64 64-64-64z",
        "",
        "",
        "",
        "M256 128l128 128-128 128-128-128z",
    ];
    let wanted = picture_with_tones(&rt, alloc, tones, ["first only", "second only"]);
    let names = PictureNames {
        first: None,
        second: None,
    };
    let first = b"0/5 29/0".as_slice();
    let seen = picture_of_two_texts(&rt, alloc, first, b"1/16 20-23".as_slice(), names);
    assert_eq!(&rt; seen.as_str(), wanted.as_str());
}

/// Quarters of the cells 0 to 6 of order 7: the colour is that of most quarters, and the shade that of all of them. Of
/// two colours with as many quarters, black comes before orange (cell 1), and orange before blue (cell 2).
#[test]
fn pictures_of_mixed_cells(rt: HostRuntime) {
    let alloc = rt.alloc();
    let tones = [
        "",
        "",
        "M130 252l1 1-1 1-1-1z",
        "M128 252l1 1-1 1-1-1zM131 251l1 1-1 1-1-1z",
        "",
        "M127 253l1 1-1 1-1-1z",
        "M128 254l1 1-1 1-1-1z",
        "",
        "M129 251l1 1-1 1-1-1z",
        "",
        "M129 253l1 1-1 1-1-1z",
        "",
    ];
    let wanted = picture_with_tones(&rt, alloc, tones, ["A", "second only"]);
    let names = PictureNames {
        first: Some("A"),
        second: None,
    };
    let first = b"7/5 8/0 4-5 8 12-14 16-17 24".as_slice();
    let second = b"8/1-2 5-6 9 15 18 20 24".as_slice();
    let seen = picture_of_two_texts(&rt, alloc, first, second, names);
    assert_eq!(&rt; seen.as_str(), wanted.as_str());
}

// The text of a format's error is that of the parser's error.
#[test]
fn texts_of_ascii_errors(rt: HostRuntime) {
    for (error, text) in [
        (TextError::BadByte { at: 7 }, "unexpected byte at offset 7"),
        (
            TextError::NoOrder { at: 7 },
            "item without an order at offset 7",
        ),
        (
            TextError::OrderTooLarge { at: 7 },
            "order above 29 at offset 7",
        ),
        (
            TextError::CellTooLarge { at: 7 },
            "index too large for its order at offset 7",
        ),
        (
            TextError::Backwards { at: 7 },
            "descending range at offset 7",
        ),
        (
            TextError::Unfinished { at: 7 },
            "incomplete word at offset 7",
        ),
        (TextError::Memory, "out of memory"),
    ] {
        is_shown(&rt, rt.alloc(), &FormatError::Ascii(error), text);
    }
}

#[test]
fn texts_of_json_errors(rt: HostRuntime) {
    for (error, text) in [
        (JsonError::NotJson, "invalid JSON"),
        (JsonError::NotObject, "not a JSON object"),
        (JsonError::BadOrder { name: 1 }, "name 1 is not an order"),
        (
            JsonError::NotArray { name: 1 },
            "the value of name 1 is not an array",
        ),
        (
            JsonError::NotWhole { name: 1, place: 2 },
            "item 2 of name 1 is not an unsigned integer",
        ),
        (
            JsonError::CellTooLarge { name: 1, place: 2 },
            "item 2 of name 1 is too large for its order",
        ),
        (JsonError::Memory, "out of memory"),
    ] {
        is_shown(&rt, rt.alloc(), &FormatError::Json(error), text);
    }
}

#[test]
fn texts_of_other_errors(rt: HostRuntime) {
    for (error, text) in [
        (UniqError::BadByte { line: 3 }, "unexpected byte in line 3"),
        (
            UniqError::NotUniq { line: 3 },
            "invalid NUNIQ number in line 3",
        ),
        (UniqError::Memory, "out of memory"),
    ] {
        is_shown(&rt, rt.alloc(), &FormatError::Uniq(error), text);
    }
    for (error, text) in [
        (
            WriteError::TooCoarse,
            "a cell is deeper than the stated order",
        ),
        (WriteError::Memory, "out of memory"),
    ] {
        is_shown(&rt, rt.alloc(), &error, text);
    }
}
