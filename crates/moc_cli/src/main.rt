//! The program `moc`: sky coverages (IVOA MOC 2.0) on the command line.
#![tactic(auto)]

mod action;
mod dispatch;
mod execution;
mod explaining;
mod number_lines;
mod printing;
mod status;
#[cfg(test)]
mod tests;

pub use dispatch::{program, report_argument_error};
use moc_devices::{OverReader, OverWriter};
use std::io;
use std::process::ExitCode;

fn main(rt: HostRuntime) -> ExitCode {
    let mut input = OverReader::new(rt.stdin());
    let mut output = OverWriter::new(rt.stdout());
    let mut errors = OverWriter::new(rt.stderr());
    let status = match arguments(&rt) {
        Ok(arguments) => program(
            &rt,
            rt.alloc(),
            arguments.as_slice(),
            &mut input,
            &mut output,
            &mut errors,
        ),
        Err(error) => report_argument_error(&error, &mut errors),
    };
    ExitCode::from(status)
}

/// Returns the arguments of the command line, without the name of the program.
fn arguments(rt: &HostRuntime) -> io::Result<Vec<String>> {
    let arguments = std::env::args(rt)?.skip(1).collect(rt.alloc())?;
    Ok(arguments)
}
