//! Command lines with an input that fails.
use crate::tests::program_end::run_program;
use moc_devices::{DeviceFault, Source};
use std::alloc::Global;
use std::marker::Sync;
use std::process::Abort;
use std::sync::Wait;
use std::thread::Threads;

/// A reader that fails, and counts its calls.
#[derive(Drop)]
struct FailingReader {
    is_marked: bool,
    calls: u32,
}

impl Source for FailingReader {
    ghost use Rattle.std.specs.Prelude.{None, [], false};

    ghost reading = { λ _. record { delivered = []; ended = false; left = None } };

    ghost mark = { λ s. s.is_marked };

    fn read(&mut self, _buffer: &mut [u8]) -> Result<usize, DeviceFault> {
        self.is_marked = true;
        self.calls = self.calls.saturating_add(1);
        Err(DeviceFault)
    }

    fn is_marked(&self) -> bool {
        self.is_marked
    }
}

/// Checks that a command line reports an input that fails, and reads it once.
fn expect_read_error<T: Abort + Threads + Wait + Sync>(rt: &T, alloc: Global, arguments: &[&str]) {
    let mut input = FailingReader {
        is_marked: false,
        calls: 0,
    };
    let program_end = run_program(rt, alloc, arguments, &mut input);
    assert_eq!(rt; program_end.status, 3, "{arguments:?}");
    assert_eq!(rt; input.calls, 1, "{arguments:?}");
    assert!(rt; program_end.written.is_empty(), "{arguments:?}");
    assert_eq!(rt;
        program_end.error_output.as_slice(),
        b"fault Read\n".as_slice(),
        "{arguments:?}"
    );
}

#[test]
fn failing_input(rt: HostRuntime) {
    let alloc = rt.alloc();
    expect_read_error(&rt, alloc, &["run"]);
    expect_read_error(&rt, alloc, &["play"]);
    expect_read_error(&rt, alloc, &["crew", "2"]);
    expect_read_error(&rt, alloc, &["convert", "ascii", "json"]);
    expect_read_error(&rt, alloc, &["check", "ascii"]);
    expect_read_error(&rt, alloc, &["describe", "uniq"]);
    expect_read_error(&rt, alloc, &["combine", "union", "uniq"]);
    expect_read_error(&rt, alloc, &["draw", "json"]);
    expect_read_error(&rt, alloc, &["degrade", "1", "ascii"]);
    expect_read_error(&rt, alloc, &["complement", "uniq"]);
    expect_read_error(&rt, alloc, &["renumber", "nest", "uniq", "3"]);
}
