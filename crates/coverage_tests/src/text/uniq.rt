use super::{Q0, every_second};
use moc_ranges::Coverage;
use moc_text::{UniqError, read_ascii, read_uniq, write_uniq};
use std::alloc::Global;

/// Returns the error of a text, if it has one.
fn error_of(alloc: Global, text: &[u8]) -> Option<UniqError> {
    match read_uniq(alloc, text) {
        Ok(_) => None,
        Err(error_of) => Some(error_of),
    }
}

#[test]
fn lists(rt: HostRuntime) {
    let alloc = rt.alloc();
    let base = Coverage::from_ranges(alloc, &[(0, Q0)]).expect(&rt, "memory");
    assert!(rt;
        read_uniq(alloc, b"16\n17\n\n18\n19")
            .expect(&rt, "a set")
            .same(&base)
    );
    assert!(rt; read_uniq(alloc, b"").expect(&rt, "a set").is_empty());
    let last = Coverage::from_ranges(alloc, &[(3458764513820540927, 3458764513820540928)]).expect(
        &rt, "memory",
    );
    assert!(rt;
        read_uniq(alloc, b"4611686018427387903\n")
            .expect(&rt, "a set")
            .same(&last)
    );
}

#[test]
fn errors_of_lines(rt: HostRuntime) {
    let alloc = rt.alloc();
    for (text, wanted) in [
        ("4\nx", UniqError::BadByte { line: 2 }),
        ("16\r\n", UniqError::BadByte { line: 1 }),
        ("\n3\nx", UniqError::NotUniq { line: 2 }),
        ("4611686018427387904", UniqError::NotUniq { line: 1 }),
    ] {
        assert_eq!(rt; error_of(alloc, text.as_bytes()), Some(wanted));
    }
    assert_eq!(rt; UniqError::BadByte { line: 2 }.line(), Some(2));
    assert_eq!(rt; UniqError::NotUniq { line: 1 }.line(), Some(1));
    assert_eq!(rt; UniqError::Memory.line(), None);
}

#[test]
fn written_lists(rt: HostRuntime) {
    let alloc = rt.alloc();
    let (set, _) = read_ascii(alloc, b"1/1-2 4 2/12-14 21 23 25 8/").expect(&rt, "a set");
    assert_eq!(rt;
        write_uniq(alloc, &set).expect(&rt, "a text").as_str(),
        "17\n18\n20\n76\n77\n78\n85\n87\n89\n"
    );
    assert_eq!(rt;
        write_uniq(alloc, &Coverage::empty(alloc))
            .expect(&rt, "a text")
            .as_str(),
        ""
    );
}

// 4^30 is the NUNIQ number of the first cell of order 29.
#[test]
fn many_lines(rt: HostRuntime) {
    let alloc = rt.alloc();
    let text = every_second(&rt, alloc, "", 1152921504606846976, "\n", "\n");
    let set = read_uniq(alloc, text.as_bytes()).expect(&rt, "a set");
    assert_eq!(rt; set.count(), 1500);
    assert!(rt; set.contains(0) && set.contains(2998) && !set.contains(1));
    assert_eq!(rt;
        write_uniq(alloc, &set).expect(&rt, "a text").as_str(),
        text.as_str()
    );
}
