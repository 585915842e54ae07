//! The end of the program, over memory.
ghost use Rattle.std.specs.Prelude.{◌≡◌, false};

use crate::dispatch::program;
use moc_devices::{OverReader, OverWriter, Source};
use std::alloc::Global;
use std::marker::Sync;
use std::process::Abort;
use std::sync::Wait;
use std::thread::Threads;

/// The program's status, its output, and its error output.
#[derive(Drop)]
pub struct ProgramEnd {
    pub status: u8,
    pub written: Vec<u8>,
    pub error_output: Vec<u8>,
}

/// Runs the program with these arguments on an input.
pub fn run_program<T: Threads + Wait + Sync, R: Source>(
    rt: &T,
    alloc: Global,
    arguments: &[&str],
    input: &mut R,
) -> ProgramEnd
    requires { R.mark input.old ≡ false }
{
    let mut written = Vec::new(alloc);
    let mut error_output = Vec::new(alloc);
    let status = program(
        rt,
        alloc,
        arguments,
        input,
        &mut OverWriter::new(&mut written),
        &mut OverWriter::new(&mut error_output),
    );
    ProgramEnd {
        status,
        written,
        error_output,
    }
}

/// Checks the status, the output and the error output for these arguments and this input.
pub fn expect<T: Abort + Threads + Wait + Sync>(
    rt: &T,
    alloc: Global,
    arguments: &[&str],
    input: &str,
    status: u8,
    output: &str,
    reports: &str,
) {
    let program_end = run_program(rt, alloc, arguments, &mut OverReader::new(input.as_bytes()));
    assert_eq!(rt; program_end.status, status, "{arguments:?}");
    assert_eq!(rt;
        program_end.written.as_slice(),
        output.as_bytes(),
        "{arguments:?}"
    );
    assert_eq!(rt;
        program_end.error_output.as_slice(),
        reports.as_bytes(),
        "{arguments:?}"
    );
}
