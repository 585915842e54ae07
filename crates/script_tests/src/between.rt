//! Scripts, schedules and numbers over devices that move one byte a call.
use crate::failing::{Devices, FailingSink, FailingSource, WORKING};
use moc_lines::{Renumbering, RunError, renumber, run};
use moc_script::play;
use std::alloc::Global;
use std::process::Abort;

/// The language of a text.
#[derive(Clone, Copy, Debug, PartialEq, Eq)]
pub enum Language {
    Script,
    Schedule,
    Numbers(Renumbering),
}

/// The end of a call over such devices: its result, the output, and the number of flushes.
#[derive(Drop)]
pub struct CallEnd {
    pub devices: Devices,
    pub result: Result<(), RunError>,
    pub text: Vec<u8>,
    pub flushes: Option<u64>,
}

/// Executes a text over such devices.
pub fn between(alloc: Global, language: Language, text: &[u8], devices: Devices) -> CallEnd {
    let mut source = FailingSource::new(text, devices);
    let mut sink = FailingSink::new(alloc, devices);
    let result = match language {
        Language::Script => run(alloc, &mut source, &mut sink),
        Language::Schedule => play(alloc, &mut source, &mut sink),
        Language::Numbers(renumbering) => renumber(alloc, &mut source, &mut sink, renumbering),
    };
    CallEnd {
        devices,
        result,
        text: sink.taken,
        flushes: sink.flushes,
    }
}

/// Checks the result of a call, the output, and the number of flushes.
pub fn expect_end(
    rt: &impl Abort,
    call_end: &CallEnd,
    result_of_call: Result<(), RunError>,
    text: &[u8],
    flushes: u64,
) {
    let devices = call_end.devices;
    assert_eq!(rt; call_end.result, result_of_call, "{devices:?}");
    assert_eq!(rt; call_end.text.as_slice(), text, "{devices:?}");
    assert_eq!(rt; call_end.flushes, Some(flushes), "{devices:?}");
}

/// Checks the replies to a text.
pub fn expect_answers(
    rt: &impl Abort,
    alloc: Global,
    language: Language,
    text: &[u8],
    answers: &[u8],
) {
    let call_end = between(alloc, language, text, WORKING);
    expect_end(rt, &call_end, Ok(()), answers, 1);
}

/// Checks the bytes of a read or a write.
pub fn has_text(rt: &impl Abort, seen: &[u8], text: &str) {
    assert_eq!(rt; seen, text.as_bytes(), "{text:?}");
}

/// Tests whether a text is at the front of a buffer, and the rest is zero.
pub fn holds(room: &[u8], text: &[u8]) -> bool {
    let (front, rest) = room.split_at(text.len().min(room.len()));
    front == text && rest.iter().all(|byte| *byte == 0)
}
