//! Subcommands that draw pictures.
use crate::tests::program_end::{expect, run_program};
use moc_devices::OverReader;
use std::alloc::Global;
use std::marker::Sync;
use std::process::Abort;
use std::sync::Wait;
use std::thread::Threads;

/// Returns the picture of a text in a format.
fn picture<T: Abort + Threads + Wait + Sync>(
    rt: &T,
    alloc: Global,
    format: &str,
    input: &str,
) -> Vec<u8> {
    picture_with(rt, alloc, &["draw", format], input)
}

/// Returns the picture of a text with these arguments.
fn picture_with<T: Abort + Threads + Wait + Sync>(
    rt: &T,
    alloc: Global,
    arguments: &[&str],
    input: &str,
) -> Vec<u8> {
    let program_end = run_program(rt, alloc, arguments, &mut OverReader::new(input.as_bytes()));
    assert_eq!(rt; program_end.status, 0, "{arguments:?}");
    assert!(rt; program_end.error_output.is_empty(), "{arguments:?}");
    program_end.written
}

#[test]
fn pictures(rt: HostRuntime) {
    let ascii = picture(&rt, rt.alloc(), "ascii", "0/0 1/4-5");
    let json = picture(&rt, rt.alloc(), "json", "{\"0\":[0],\"1\":[4,5]}");
    let uniq = picture(&rt, rt.alloc(), "uniq", "4\n20\n21\n");
    let other = picture(&rt, rt.alloc(), "ascii", "0/1");
    assert!(rt; ascii.as_slice().ends_with(b"</svg>\n".as_slice()));
    assert_eq!(rt; json.as_slice(), ascii.as_slice());
    assert_eq!(rt; uniq.as_slice(), ascii.as_slice());
    assert!(rt; other.as_slice() != ascii.as_slice());
    let arguments = ["draw", "ascii"].as_slice();
    expect(
        &rt,
        rt.alloc(),
        arguments,
        "0/12",
        1,
        "",
        "fault CellTooLarge\nbyte 2, line 1, byte 2 of it: `0/12`\ncells of order 0 go up to 11\n",
    );
}

/// Two texts give the picture of two; blanks after a semicolon are not a text.
#[test]
fn pictures_of_two(rt: HostRuntime) {
    let one = picture(&rt, rt.alloc(), "ascii", "0/0");
    let blank = picture(&rt, rt.alloc(), "ascii", "0/0; \n");
    let two = picture(&rt, rt.alloc(), "auto", "0/0;{\"0\":[1]}");
    let same = picture(&rt, rt.alloc(), "ascii", "0/0;0/1");
    assert_eq!(rt; blank.as_slice(), one.as_slice());
    assert_eq!(rt; two.as_slice(), same.as_slice());
    assert!(rt; two.as_slice() != one.as_slice());
    let arguments = ["draw", "ascii"];
    let report = "fault BadByte\ntext 2, byte 3, line 1, byte 3 of it: `0/1;0/2`\n\
        words look like 3/, 10, 12-14 or 3/10\n";
    expect(&rt, rt.alloc(), &arguments, "0/0;0/1;0/2", 1, "", report);
}

/// A name replaces the default text of the legend, and an invalid name is an invalid command line.
#[test]
fn pictures_with_names(rt: HostRuntime) {
    let texts = "0/0;0/1";
    let none = picture(&rt, rt.alloc(), "ascii", texts);
    let same = picture_with(
        &rt,
        rt.alloc(),
        &["draw", "ascii", "first only", "second only"],
        texts,
    );
    let named = picture_with(
        &rt,
        rt.alloc(),
        &["draw", "ascii", "A", "second only"],
        texts,
    );
    assert_eq!(rt; same.as_slice(), none.as_slice());
    assert_eq!(rt; named.len() + 9, none.len());
    let report = "error: a name is not 1 to 40 bytes of printable ASCII\n\n\
                  Usage: moc draw <FORM> [FIRST] [SECOND]\n\nFor more information, try '--help'.\n";
    expect(
        &rt,
        rt.alloc(),
        &["draw", "ascii", "A", ""],
        texts,
        2,
        "",
        report,
    );
    let control = "error: a word of the command line has a control character\n";
    expect(
        &rt,
        rt.alloc(),
        &["draw", "ascii", "\t", "B"],
        texts,
        2,
        "",
        control,
    );
}
