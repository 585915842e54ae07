use super::{Q1, Q2, assert_set, every_second, repeated};
use moc_sphere::Order;
use moc_text::{
    JsonError, JsonPlace, WriteError, json_content_at, json_syntax_error, read_json, write_json,
};
use std::alloc::Global;
use std::process::Abort;

/// Checks that the text is parsed as these ranges of pixels and this MOC order.
fn is_read(
    rt: &impl Abort,
    alloc: Global,
    text: &[u8],
    ranges: &[(u64, u64)],
    deepest: Option<u8>,
) {
    let parsed_set = read_json(alloc, text).expect(rt, "a set");
    assert_set(rt, alloc, &parsed_set, ranges, deepest);
}

/// Returns the error of a text, if it has one.
fn error_of(alloc: Global, text: &[u8]) -> Option<JsonError> {
    match read_json(alloc, text) {
        Ok(_) => None,
        Err(error_of) => Some(error_of),
    }
}

/// Checks the error of a text, and its position.
fn fails_at(
    rt: &impl Abort,
    alloc: Global,
    text: &str,
    wanted: JsonError,
    place: Option<JsonPlace>,
) {
    let seen = error_of(alloc, text.as_bytes());
    assert_eq!(rt; (seen, wanted.place()), (Some(wanted), place), "{text}");
}

/// The position of a name.
fn name(name: usize) -> Option<JsonPlace> {
    Some(JsonPlace { name, item: None })
}

/// The position of an item of the first name.
fn item(item: usize) -> Option<JsonPlace> {
    Some(JsonPlace {
        name: 0,
        item: Some(item),
    })
}

/// Checks the text of a set that is parsed from a text, with the MOC order of the text.
fn is_rewritten(rt: &impl Abort, alloc: Global, text: &str, wanted: &str) {
    let (set, deepest) = read_json(alloc, text.as_bytes()).expect(rt, "a set");
    let written = write_json(alloc, &set, deepest).expect(rt, "a text");
    assert_eq!(rt; written.as_str(), wanted);
}

/// Checks what is at a position of a text whose names are 1, 10 and 2 in byte order.
fn has_site(
    rt: &impl Abort,
    alloc: Global,
    place: Option<JsonPlace>,
    order: Option<u8>,
    text: Option<&str>,
) {
    let place = place.expect(rt, "a place");
    let json = b"{\"1\":[],\"10\":[5],\"2\":[0,192]}".as_slice();
    let site = json_content_at(alloc, json, place).expect(rt, "JSON");
    assert_eq!(rt; site.order, order.and_then(Order::new));
    assert_eq!(rt; site.text.as_deref(), text);
}

#[test]
fn positions_of_errors(rt: HostRuntime) {
    let alloc = rt.alloc();
    has_site(&rt, alloc, name(1), Some(10), Some("10"));
    has_site(&rt, alloc, name(3), None, None);
    let item = Some(JsonPlace {
        name: 2,
        item: Some(1),
    });
    has_site(&rt, alloc, item, Some(2), Some("192"));
}

/// The position of a syntax error is the position at which `serde_json` stops.
#[test]
fn texts_that_are_not_json(rt: HostRuntime) {
    for (text, at) in [
        ("{\"1\":[0,]}", Some((1, 9))),
        ("{\n\"1\":[0", Some((2, 6))),
        ("{\"1\":[99]}", None),
    ] {
        assert_eq!(rt; json_syntax_error(rt.alloc(), text.as_bytes()), at);
    }
}

#[test]
fn objects(rt: HostRuntime) {
    let alloc = rt.alloc();
    let text = b"{\"10\":[],\"2\":[5],\"1\":[1]}";
    is_read(
        &rt,
        alloc,
        text,
        &[(Q1, 2 * Q1), (5 * Q2, 6 * Q2)],
        Some(10),
    );
    is_read(&rt, alloc, b"{\"01\":[0]}", &[(0, Q1)], Some(1));
    is_read(&rt, alloc, b"{}", &[], None);
}

// Names are in byte order, so "10" is name 0, and "2" is name 1.
#[test]
fn errors_of_names(rt: HostRuntime) {
    let alloc = rt.alloc();
    for (text, at) in [
        ("{\"1\":[],\"30\":[0]}", 1),
        ("{\"\":[]}", 0),
        ("{\"+1\":[]}", 0),
    ] {
        fails_at(&rt, alloc, text, JsonError::BadOrder { name: at }, name(at));
    }
    for (text, at) in [("{\"1\":5}", 0), ("{\"2\":5,\"10\":[]}", 1)] {
        fails_at(&rt, alloc, text, JsonError::NotArray { name: at }, name(at));
    }
    fails_at(&rt, alloc, "[1]", JsonError::NotObject, None);
}

#[test]
fn errors_of_numbers(rt: HostRuntime) {
    let alloc = rt.alloc();
    for (text, place) in [("{\"2\":[-1]}", 0), ("{\"2\":[0,1.5]}", 1)] {
        let error = JsonError::NotWhole { name: 0, place };
        fails_at(&rt, alloc, text, error, item(place));
    }
    for (text, place) in [("{\"1\":[0,48]}", 1), ("{\"1\":[48,-1]}", 0)] {
        let error = JsonError::CellTooLarge { name: 0, place };
        fails_at(&rt, alloc, text, error, item(place));
    }
}

#[test]
fn errors_without_a_position(rt: HostRuntime) {
    for error in [JsonError::NotJson, JsonError::NotObject, JsonError::Memory] {
        assert_eq!(rt; error.place(), None);
    }
}

#[test]
fn not_json(rt: HostRuntime) {
    let alloc = rt.alloc();
    assert_eq!(rt; error_of(alloc, b"{\"1\":[0"), Some(JsonError::NotJson));
    assert_eq!(rt;
        error_of(alloc, b"{\"1\":[0]}\xff"),
        Some(JsonError::NotJson)
    );
    let brackets = repeated(&rt, alloc, b"", b'[', b"");
    assert_eq!(rt; error_of(alloc, &brackets), Some(JsonError::NotJson));
}

#[test]
fn written_texts(rt: HostRuntime) {
    let alloc = rt.alloc();
    for (text, wanted) in [
        ("{\"10\":[],\"2\":[5],\"1\":[1]}", "{\"1\":[1],\"10\":[]}"),
        ("{}", "{}"),
        ("{\"8\":[]}", "{\"8\":[]}"),
        ("{\"1\":[0]}", "{\"1\":[0]}"),
        // Of two equal names `serde_json` keeps the last one's value.
        ("{\"0\":[0],\"0\":[1]}", "{\"0\":[1]}"),
        (
            "{\"8\":[],\"2\":[12,13,14,21,23,25],\"1\":[1,2,4]}",
            "{\"1\":[1,2,4],\"2\":[12,13,14,21,23,25],\"8\":[]}",
        ),
    ] {
        is_rewritten(&rt, alloc, text, wanted);
    }
}

#[test]
fn a_deepest_order_that_is_too_coarse(rt: HostRuntime) {
    let alloc = rt.alloc();
    let (set, _) = read_json(alloc, b"{\"2\":[12]}").expect(&rt, "a set");
    assert!(rt;
        matches!(
            write_json(alloc, &set, Order::new(1)),
            Err(WriteError::TooCoarse)
        )
    );
}

#[test]
fn many_items(rt: HostRuntime) {
    let alloc = rt.alloc();
    let text = every_second(&rt, alloc, "{\"29\":[", 0, ",", "]}");
    let (set, _) = read_json(alloc, text.as_bytes()).expect(&rt, "a set");
    assert_eq!(rt; set.count(), 1500);
    assert!(rt; set.contains(0) && set.contains(2998) && !set.contains(1));
    assert_eq!(rt;
        write_json(alloc, &set, None).expect(&rt, "a text").as_str(),
        text.as_str()
    );
}
