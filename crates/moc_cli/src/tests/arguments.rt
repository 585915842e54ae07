//! Command lines that ask for help, and invalid ones.
use crate::dispatch::report_argument_error;
use crate::tests::program_end::{expect, run_program};
use moc_devices::{OverReader, OverWriter};
use std::alloc::Global;
use std::io::{self, ErrorKind};
use std::marker::Sync;
use std::process::Abort;
use std::sync::Wait;
use std::thread::Threads;

/// Checks the status and the text of an invalid command line.
fn expect_invalid(rt: &impl Abort, alloc: Global, kind: ErrorKind, status: u8, text: &str) {
    let mut report = Vec::new(alloc);
    let actual = report_argument_error(&io::Error::from(kind), &mut OverWriter::new(&mut report));
    assert_eq!(rt; actual, status);
    assert_eq!(rt; report.as_slice(), text.as_bytes());
}

#[test]
fn arguments_that_are_not_utf8(rt: HostRuntime) {
    let text = "error: a word of the command line is not UTF-8\n";
    expect_invalid(&rt, rt.alloc(), ErrorKind::InvalidData, 2, text);
    expect_invalid(&rt, rt.alloc(), ErrorKind::OutOfMemory, 3, "fault Memory\n");
}

#[test]
fn invalid_arguments(rt: HostRuntime) {
    let tip = "error: unrecognized subcommand 'union'\n\n  tip: use 'combine union'\n\n\
               Usage: moc <COMMAND>\n\nFor more information, try '--help'.\n";
    expect(&rt, rt.alloc(), &["union", "ascii"], "", 2, "", tip);
    expect(&rt, rt.alloc(), &["help", "union"], "", 2, "", tip);
    let control = "error: a word of the command line has a control character\n";
    expect(&rt, rt.alloc(), &["\x1b[1mring"], "", 2, "", control);
}

/// Checks the status of a command line without an input, and that it writes, or is invalid and reports why.
fn expect_status<T: Abort + Threads + Wait + Sync>(
    rt: &T,
    alloc: Global,
    arguments: &[&str],
    status: u8,
) {
    let program_end = run_program(rt, alloc, arguments, &mut OverReader::new(b"".as_slice()));
    assert_eq!(rt; program_end.status, status, "{arguments:?}");
    assert_eq!(rt;
        program_end.written.is_empty(),
        status == 2,
        "{arguments:?}"
    );
    assert_eq!(rt;
        program_end.error_output.is_empty(),
        status == 0,
        "{arguments:?}"
    );
}

#[test]
fn help(rt: HostRuntime) {
    for arguments in [
        ["--help"].as_slice(),
        ["help"].as_slice(),
        ["ring", "--help"].as_slice(),
        ["--version"].as_slice(),
        ["faults"].as_slice(),
        ["help", "faults"].as_slice(),
        ["crew", "--help"].as_slice(),
        ["combine", "--help"].as_slice(),
        ["renumber", "--help"].as_slice(),
    ] {
        expect_status(&rt, rt.alloc(), arguments, 0);
    }
}

#[test]
fn invalid_command_lines(rt: HostRuntime) {
    expect_status(&rt, rt.alloc(), &[], 2);
    for arguments in [
        ["ring", "30", "0"].as_slice(),
        ["fly"].as_slice(),
        ["crew"].as_slice(),
        ["crew", "0"].as_slice(),
        ["crew", "65"].as_slice(),
        ["check"].as_slice(),
        ["describe", "fits"].as_slice(),
        ["combine", "union"].as_slice(),
        ["combine", "minus", "ascii"].as_slice(),
        ["draw"].as_slice(),
        ["degrade", "ascii"].as_slice(),
        ["complement", "fits"].as_slice(),
        ["renumber", "nest", "cell", "1"].as_slice(),
    ] {
        expect_status(&rt, rt.alloc(), arguments, 2);
    }
}
