//! The result of a job.
ghost use Rattle.std.specs.Prelude.{◌≡◌, IfOk};
ghost use Rattle.moc_conversion.specs.Errors.{input_error_text};
ghost use Rattle.moc_web.specs.Results.{Fills, Finishes, IsReported, bad_number, done, job_result};

use crate::text_sink::TextSink;
use moc_conversion::InputError;
use moc_devices::DeviceFault;
use std::alloc::Global;

/// The output is in the buffer.
const DONE: u32 = 0;

/// The text is invalid, or memory ran out. The report of the error is in the buffer.
const INVALID: u32 = 1;

/// The buffer is too short. The length is the one that the output needs.
const BUFFER_TOO_SHORT: u32 = 2;

/// A number is invalid.
const BAD_NUMBER: u32 = 3;

/// No memory is left for the report of an error.
const OUT_OF_MEMORY: u32 = 4;

/// The result of a job: a status, and the length of the output.
#[repr(C)]
#[derive(Clone, Copy)]
pub struct JobResult {
    pub status: u32,
    pub length: u64,
}

impl JobResult {
    /// Returns a result with a status and a length.
    fn new(status: u32, length: usize) -> JobResult
        ensures { result ≡ job_result status length }
    {
        JobResult {
            status,
            length: length as u64,
        }
    }

    /// Returns the result for an invalid number.
    pub(crate) fn bad_number() -> JobResult
        ensures { result ≡ job_result bad_number 0 }
    {
        JobResult::new(BAD_NUMBER, 0)
    }
}

/// Copies an output to the front of a buffer, and returns a result with this status. If the buffer is too short, leaves
/// it unchanged.
fn fill(status: u32, output: &[u8], buffer: &mut [u8]) -> JobResult
    ensures { Fills status output.now buffer.old buffer.new result }
{
    let length = output.len();
    if buffer.len() < length {
        return JobResult::new(BUFFER_TOO_SHORT, length);
    }
    buffer[..length].copy_from_slice(output);
    JobResult::new(status, length)
}

/// Fills a buffer with an output, or with the report of an error.
pub(crate) fn finish(
    alloc: Global,
    output: Result<String, InputError>,
    buffer: &mut [u8],
) -> JobResult
    ensures { Finishes output buffer.old buffer.new result }
{
    match output {
        Ok(text) => fill_done(text.as_bytes(), buffer),
        Err(error) => fill_report(report_of(alloc, &error), buffer),
    }
}

/// Fills a buffer with the output of a job that succeeded.
pub(crate) fn fill_done(output: &[u8], buffer: &mut [u8]) -> JobResult
    ensures { Fills done output.now buffer.old buffer.new result }
{
    fill(DONE, output, buffer)
}

/// Fills a buffer with the report of an error; `Err` if an allocation failed.
pub(crate) fn fill_report(report: Result<Vec<u8>, DeviceFault>, buffer: &mut [u8]) -> JobResult
    ensures { IsReported report buffer.old buffer.new result }
{
    match report {
        Ok(text) => fill(INVALID, &text, buffer),
        Err(DeviceFault) => JobResult::new(OUT_OF_MEMORY, 0),
    }
}

/// Returns the report of an error. Fails if an allocation fails.
fn report_of(alloc: Global, error: &InputError) -> Result<Vec<u8>, DeviceFault>
    ensures { IfOk result (λ text. text.items ≡ input_error_text error.now) }
{
    let mut sink = TextSink::new(alloc);
    error.report(&mut sink)?;
    let TextSink { text, .. } = sink;
    Ok(text)
}
