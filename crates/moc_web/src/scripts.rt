//! Scripts of commands on one coverage.
ghost use Rattle.std.specs.Prelude.{◌≡◌, IfErr, IfOk};
ghost use Rattle.moc_lines.specs.Runs.{answers_of};
ghost use Rattle.moc_text.specs.Names.{fault_report};
ghost use Rattle.moc_web.specs.Jobs.{FailsRunning, RunsScript, name_of_script_error};

use crate::job_result::{JobResult, fill_done, fill_report};
use crate::text_sink::TextSink;
use crate::text_source::TextSource;
use moc_conversion::report_error;
use moc_devices::DeviceFault;
use moc_lines::{RunError, run};
use std::alloc::Global;

/// Writes the replies to a script on a coverage that is empty at first, as `moc_lines::run` does.
///
/// # Errors
/// Status 1 with the report of the error if a line has more than 1 MiB, or if an allocation fails.
#[unsafe(no_mangle)]
pub extern "C" fn web_run(alloc: Global, script: &[u8], buffer: &mut [u8]) -> JobResult
    ensures { RunsScript script.now buffer.old buffer.new result }
{
    match replies(alloc, script) {
        Ok(text) => fill_done(&text, buffer),
        Err(error) => fill_report(report_of_run(alloc, error), buffer),
    }
}

/// Returns the replies to a script.
fn replies(alloc: Global, script: &[u8]) -> Result<Vec<u8>, RunError>
    ensures replies { IfOk result (λ text. text.items ≡ answers_of script.now) }
    ensures error { IfErr result (FailsRunning script.now) }
{
    let mut sink = TextSink::new(alloc);
    run(alloc, &mut TextSource::new(script), &mut sink)?;
    let TextSink { text, .. } = sink;
    Ok(text)
}

/// Returns the name of the error of a run into memory, where a write fails only if an allocation fails.
fn error_name(error: RunError) -> &'static str
    ensures { result.now ≡ name_of_script_error error }
{
    match error {
        RunError::Write => "Memory",
        error => error.name(),
    }
}

/// Returns the report of the error of a run. Fails if an allocation fails.
fn report_of_run(alloc: Global, error: RunError) -> Result<Vec<u8>, DeviceFault>
    ensures { IfOk result (λ text. text.items ≡ fault_report (name_of_script_error error)) }
{
    let mut sink = TextSink::new(alloc);
    report_error(error_name(error), &mut sink)?;
    let TextSink { text, .. } = sink;
    Ok(text)
}
