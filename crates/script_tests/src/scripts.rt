//! Replies to scripts.
use crate::between::{CallEnd, Language, between, expect_answers, expect_end, holds};
use crate::failing::{Devices, FailsOnce, Failure, PLENTY, failing_reader, failing_writer};
use crate::silent::{SilentReader, SilentWriter, run_over_std};
use moc_devices::{DeviceFault, OverReader, OverWriter, Sink, Source, write_all};
use moc_lines::{LINE_LIMIT, LineError, RunError, run};
use std::alloc::{AllocError, Global};
use std::fmt::Display;
use std::process::Abort;

const SCRIPT: &[u8] = b"add 0/0\nadd 0/0 ; count 0/0-1\n \t\r\n\nhop\nadd 5/7-3\nread 0/0-1 5";

const ANSWERS: &[u8] = b"changed 288230376151711744\nchanged 0 ; total 288230376151711744\n\
      fault UnknownWord\nfault Backwards\ncover 0/0\n";

const CHANGES: &[u8] = b"add 0/0\nadd 0/0\nclaim 1/0 0/5\nread 0/5\ninvert\nread 0/0-11\n";

const CHANGED: &[u8] = b"changed 288230376151711744\nchanged 0\ntaken 72057594037927936\ncover\n\
      changed 3458764513820540928\ncover 0/1-11\n";

// Runs a script over such devices.
fn run_between(alloc: Global, script: &[u8], devices: Devices) -> CallEnd {
    between(alloc, Language::Script, script, devices)
}

// Checks the replies to a script.
fn expect(rt: &impl Abort, alloc: Global, script: &[u8], answers: &[u8]) {
    expect_answers(rt, alloc, Language::Script, script, answers);
}

#[test]
fn first_example(rt: HostRuntime) {
    let script = b"\
add 0/0 2
count 0/2 3
add 0/1
read 0/0 1 2 3
add 1/0
add 0/12
add 0/0-1
remove 0/0
";
    let answers = b"\
changed 576460752303423488
total 288230376151711744
changed 288230376151711744
cover 0/0-2
changed 0
fault CellTooLarge
changed 0
changed 288230376151711744
";
    expect(&rt, rt.alloc(), script, answers);
}

#[test]
fn claim_and_invert(rt: HostRuntime) {
    expect(&rt, rt.alloc(), CHANGES, CHANGED);
}

#[test]
fn remove_and_keep(rt: HostRuntime) {
    let script = b"\
add 0/0-1
keep 1/0 0/1
remove 1/4-7
keep 0/0
read 0/0-11
keep
remove 0/0
";
    let answers = b"\
changed 576460752303423488
changed 216172782113783808
changed 288230376151711744
changed 0
cover 1/0
changed 72057594037927936
changed 0
";
    expect(&rt, rt.alloc(), script, answers);
}

#[test]
fn near(rt: HostRuntime) {
    let script = b"\
add 1/35
near 1 0
near 1 1
";
    let answers = b"\
changed 72057594037927936
near yes
near no
";
    expect(&rt, rt.alloc(), script, answers);
}

#[test]
fn errors_of_lines(rt: HostRuntime) {
    let script = b"\
add 5/7-3
hop 1
degrade 30
near 1
near 1 1x
near 0 12
invert now
add
read
";
    let answers = b"\
fault Backwards
fault UnknownWord
fault OrderTooLarge
fault WrongCount
fault BadNumber
fault CellTooLarge
fault WrongCount
changed 0
cover
";
    expect(&rt, rt.alloc(), script, answers);
}

#[test]
fn fields(rt: HostRuntime) {
    let script = b"\
near 30 0
near 0 0 0
near
near 0 99999999999999999999999999999999
degrade
degrade 1 1
degrade 256
degrade 1x
Invert
read @x30
";
    let answers = b"\
fault OrderTooLarge
fault WrongCount
fault WrongCount
fault CellTooLarge
fault WrongCount
fault WrongCount
fault OrderTooLarge
fault BadNumber
fault UnknownWord
fault BadNumber
";
    expect(&rt, rt.alloc(), script, answers);
}

#[test]
fn operands_with_an_order(rt: HostRuntime) {
    let script = b"\
add @0 29/0
count @1 29/5 1/7
read @29 1/3
claim @0 1/47
add @8
add @30 1/0
add @ 1/0
add ,@8 1/0
near @1 1 0
degrade @8
read 0/0-11
";
    let answers = b"\
changed 288230376151711744
total 72057594037927936
cover 1/3
claimed
changed 0
fault OrderTooLarge
fault BadNumber
fault BadByte
fault WrongCount
fault BadNumber
cover 0/0 11
";
    expect(&rt, rt.alloc(), script, answers);
}

#[test]
fn batches(rt: HostRuntime) {
    let script = b"\
add 0/0 ; count 0/0-1 ; remove 0/0
claim 1/0;claim 1/0
add 0/5 ;
add 0/5 ; hop
;
invert;invert;invert;invert;invert;invert;invert;invert;invert;invert;invert;invert;invert;invert;invert;invert;invert
hop;;;;;;;;;;;;;;;;
hop;;;;;;;;;;;;;;;
read 0/0-11
";
    let answers = b"\
changed 288230376151711744 ; total 288230376151711744 ; changed 288230376151711744
claimed ; taken 72057594037927936
fault EmptyCommand
fault UnknownWord
fault EmptyCommand
fault TooManyCommands
fault TooManyCommands
fault UnknownWord
cover 1/0
";
    expect(&rt, rt.alloc(), script, answers);
}

#[test]
fn sixteen_commands(rt: HostRuntime) {
    let script = b"read;read;read;read;read;read;read;read;read;read;read;read;read;read;read;read";
    let answers = b"cover ; cover ; cover ; cover ; cover ; cover ; cover ; cover ; \
          cover ; cover ; cover ; cover ; cover ; cover ; cover ; cover\n";
    expect(&rt, rt.alloc(), script, answers);
}

#[test]
fn no_input_and_no_last_line_feed(rt: HostRuntime) {
    let answers = b"changed 1\nchanged 288230376151711743\n";
    expect(&rt, rt.alloc(), b"", b"");
    expect(&rt, rt.alloc(), b"add 29/0\ndegrade 0\n", answers);
    expect(&rt, rt.alloc(), b"add 29/0\ndegrade 0", answers);
}

// Runs a script over readers and writers of std.
fn run_over(alloc: Global, script: &[u8]) -> (Result<(), RunError>, Vec<u8>) {
    let mut taken = Vec::new(alloc);
    let mut source = OverReader::new(script);
    let mut sink = OverWriter::new(&mut taken);
    let result = run(alloc, &mut source, &mut sink);
    drop(sink);
    (result, taken)
}

// Returns `add` and spaces, with this number of bytes.
fn add_and_spaces(alloc: Global, len: usize) -> Result<Vec<u8>, AllocError> {
    let mut line = Vec::from_slice(alloc, b"add")?;
    line.resize(len, b' ')?;
    Ok(line)
}

// Checks the reply to a line of this number of bytes, `add` and spaces.
fn expect_long(
    rt: &impl Abort,
    alloc: Global,
    len: usize,
    expected_result: Result<(), RunError>,
    answers: &[u8],
) {
    let line = add_and_spaces(alloc, len).expect(rt, "memory");
    let (ended, text) = run_over(alloc, &line);
    assert_eq!(rt; ended, expected_result);
    assert_eq!(rt; text.as_slice(), answers);
}

#[test]
fn longest_line(rt: HostRuntime) {
    let too_long = Err(RunError::LineTooLong { line: 1 });
    expect_long(&rt, rt.alloc(), LINE_LIMIT, Ok(()), b"changed 0\n");
    expect_long(&rt, rt.alloc(), LINE_LIMIT.saturating_add(1), too_long, b"");
}

// The replies to the whole lines in a prefix of the script: the lines of SCRIPT have 27, 37, 0, 0, 18, 16 and 10 bytes
// of replies.
fn answers_to_front(bytes: usize) -> &'static [u8] {
    let mut answered = 0usize;
    for (end, len) in [
        (8usize, 27usize),
        (30, 37),
        (34, 0),
        (35, 0),
        (39, 18),
        (49, 16),
    ] {
        if bytes >= end {
            answered = answered.saturating_add(len);
        }
    }
    ANSWERS.split_at(answered.min(ANSWERS.len())).0
}

// A reader that fails for good, and a reader that fails once and then works, end the call alike.
#[test]
fn failing_reads(rt: HostRuntime) {
    for reads in 0..SCRIPT.len() + 1 {
        for failures in [1, PLENTY] {
            let ended = run_between(rt.alloc(), SCRIPT, failing_reader(reads as u64, failures));
            expect_end(&rt, &ended, Err(RunError::Read), answers_to_front(reads), 0);
        }
    }
    expect(&rt, rt.alloc(), SCRIPT, ANSWERS);
}

// The replies to the whole lines in a prefix of CHANGES: each line has one.
fn answers_to_changes(bytes: usize) -> &'static [u8] {
    let mut line = 1u64;
    for byte in CHANGES.split_at(bytes.min(CHANGES.len())).0 {
        if *byte == b'\n' {
            line = line.saturating_add(1);
        }
    }
    lines_before(CHANGED, line)
}

#[test]
fn failing_reads_of_changes(rt: HostRuntime) {
    for reads in 0..CHANGES.len() + 1 {
        let ended = run_between(rt.alloc(), CHANGES, failing_reader(reads as u64, PLENTY));
        expect_end(
            &rt,
            &ended,
            Err(RunError::Read),
            answers_to_changes(reads),
            0,
        );
    }
}

// Checks that a writer that fails in this way, after each number of writes, ends the call with the bytes before.
fn expect_written(
    rt: &impl Abort,
    alloc: Global,
    script: &[u8],
    answers: &[u8],
    failure: Failure,
    failures: u64,
) {
    for writes in 0..answers.len() {
        let devices = failing_writer(failure, writes as u64, failures);
        let ended = run_between(alloc, script, devices);
        let before = answers.split_at(writes.min(answers.len())).0;
        expect_end(rt, &ended, Err(RunError::Write), before, 0);
    }
}

// A writer that returns an error or accepts no byte, for good or once, ends the call with the bytes before.
#[test]
fn failing_writes(rt: HostRuntime) {
    for (script, answers) in [(SCRIPT, ANSWERS), (CHANGES, CHANGED)] {
        for failure in [Failure::Error, Failure::TakesNone] {
            expect_written(&rt, rt.alloc(), script, answers, failure, 1);
            expect_written(&rt, rt.alloc(), script, answers, failure, PLENTY);
        }
    }
}

#[test]
fn failing_flush(rt: HostRuntime) {
    for (script, answers) in [(SCRIPT, ANSWERS), (CHANGES, CHANGED)] {
        for failures in [1, PLENTY] {
            let devices = failing_writer(Failure::Flush, 0, failures);
            let ended = run_between(rt.alloc(), script, devices);
            expect_end(&rt, &ended, Err(RunError::Write), answers, 1);
        }
    }
}

// Standard input and output report none of their bytes, and neither do these devices.
#[test]
fn devices_that_report_nothing(rt: HostRuntime) {
    let mut writer = SilentWriter {
        bytes: Vec::new(rt.alloc()),
    };
    let mut source = OverReader::new(SilentReader { rest: SCRIPT });
    let mut sink = OverWriter::new(&mut writer);
    let result = run_over_std(rt.alloc(), &mut source, &mut sink);
    drop(sink);
    assert_eq!(rt; result, Ok(()));
    assert_eq!(rt; writer.bytes.as_slice(), ANSWERS);
}

// A device of std that has not been called yet, and fails only at its first call.
fn fails_once() -> FailsOnce {
    FailsOnce {
        has_failed: false,
        calls: 0,
        flushes: 0,
    }
}

// Checks the result of a call.
fn expect_call(
    rt: &impl Abort,
    answer: Result<usize, DeviceFault>,
    expected: Result<usize, DeviceFault>,
) {
    assert_eq!(rt; answer, expected);
}

#[test]
fn reads_of_std(rt: HostRuntime) {
    let mut device = fails_once();
    let mut source = OverReader::new(&mut device);
    let mut room = [0u8; 4];
    expect_call(&rt, source.read(&mut room), Err(DeviceFault));
    assert!(rt; source.is_marked());
    expect_call(&rt, source.read(&mut room), Ok(0));
    assert!(rt; source.is_marked());
    drop(source);
    assert!(rt; device.calls == 2);
}

#[test]
fn writes_of_std(rt: HostRuntime) {
    let mut device = fails_once();
    let mut sink = OverWriter::new(&mut device);
    expect_call(&rt, sink.write(b"ab"), Err(DeviceFault));
    assert!(rt; sink.is_marked());
    expect_call(&rt, sink.write(b"ab"), Ok(2));
    assert!(rt; sink.flush().is_ok());
    assert!(rt; sink.is_marked());
    drop(sink);
    assert!(rt; device.calls == 2 && device.flushes == 1);
}

// All lines are there after one read, so that one write has all replies.
#[test]
fn writes_of_a_short_script(rt: HostRuntime) {
    let mut device = FailsOnce {
        has_failed: true,
        ..fails_once()
    };
    let mut source = OverReader::new(CHANGES);
    let mut sink = OverWriter::new(&mut device);
    let result = run(rt.alloc(), &mut source, &mut sink);
    drop(sink);
    assert_eq!(rt; result, Ok(()));
    assert_eq!(rt; (device.calls, device.flushes), (1, 1));
}

#[test]
fn flushes_of_std(rt: HostRuntime) {
    let mut device = fails_once();
    let mut sink = OverWriter::new(&mut device);
    assert!(rt; sink.flush().is_err());
    assert!(rt; sink.is_marked());
    drop(sink);
    assert!(rt; device.flushes == 1);
}

#[test]
fn a_reader_of_std_that_fails_once(rt: HostRuntime) {
    let mut device = fails_once();
    let mut taken = Vec::new(rt.alloc());
    let mut source = OverReader::new(&mut device);
    let mut sink = OverWriter::new(&mut taken);
    let result = run(rt.alloc(), &mut source, &mut sink);
    drop(sink);
    drop(source);
    assert_eq!(rt; result, Err(RunError::Read));
    assert!(rt; device.calls == 1);
    assert!(rt; taken.is_empty());
}

#[test]
fn a_writer_of_std_that_fails_once(rt: HostRuntime) {
    let mut device = fails_once();
    let mut source = OverReader::new(SCRIPT);
    let mut sink = OverWriter::new(&mut device);
    let result = run(rt.alloc(), &mut source, &mut sink);
    drop(sink);
    assert_eq!(rt; result, Err(RunError::Write));
    assert!(rt; device.calls == 1 && device.flushes == 0);
}

#[test]
fn all_bytes_over_std_that_fails_once(rt: HostRuntime) {
    let mut device = fails_once();
    let mut sink = OverWriter::new(&mut device);
    assert!(rt; write_all(b"", &mut sink).is_ok());
    assert!(rt; write_all(b"ab", &mut sink).is_err());
    drop(sink);
    assert!(rt; device.calls == 1);
}

#[test]
fn thousands_of_lines_and_nines(rt: HostRuntime) {
    let mut script = Vec::new(rt.alloc());
    let mut answers = Vec::new(rt.alloc());
    for _ in 0..5000 {
        script.extend_from_slice(b"add\n").expect(&rt, "memory");
        answers
            .extend_from_slice(b"changed 0\n")
            .expect(&rt, "memory");
    }
    script.extend_from_slice(b"near 0 ").expect(&rt, "memory");
    let all = script.len().saturating_add(1000);
    script.resize(all, b'9').expect(&rt, "memory");
    answers
        .extend_from_slice(b"fault CellTooLarge\n")
        .expect(&rt, "memory");
    expect(&rt, rt.alloc(), &script, &answers);
}

// A script of blank lines and a last line, more than a million.
pub fn million_lines(rt: &impl Abort, alloc: Global) -> Vec<u8> {
    let mut script = vec![in alloc; b'\n'; 1_100_000].expect(rt, "memory");
    script.extend_from_slice(b"read 0/0").expect(rt, "memory");
    script
}

#[test]
fn more_than_a_million_lines(rt: HostRuntime) {
    let script = million_lines(&rt, rt.alloc());
    let (ended, text) = run_over(rt.alloc(), &script);
    assert_eq!(rt; ended, Ok(()));
    assert_eq!(rt; text.as_slice(), b"cover\n".as_slice());
}

// Checks the text of an error.
fn expect_text<E: Display>(rt: &impl Abort, alloc: Global, error: &E, expected: &str) {
    let text = format!(in alloc; "{error}").expect(rt, "memory");
    assert_eq!(rt; text.as_str(), expected);
}

#[test]
fn texts_of_errors(rt: HostRuntime) {
    let alloc = rt.alloc();
    expect_text(&rt, alloc, &RunError::Read, "the input could not be read");
    expect_text(
        &rt,
        alloc,
        &RunError::Write,
        "the output could not be written",
    );
    expect_text(
        &rt,
        alloc,
        &RunError::LineTooLong { line: 3 },
        "line 3 is too long",
    );
    expect_text(
        &rt,
        alloc,
        &RunError::Memory { line: 0 },
        "out of memory at line 0",
    );
    expect_text(
        &rt,
        alloc,
        &RunError::Spawn,
        "a thread could not be started",
    );
    expect_text(&rt, alloc, &DeviceFault, "a device failed");
    let error = LineError::TooManyCommands;
    expect_text(&rt, alloc, &error, "more than 16 commands");
    expect_text(&rt, alloc, &LineError::Memory, "out of memory");
}

#[test]
fn texts_of_schedule_errors(rt: HostRuntime) {
    let alloc = rt.alloc();
    let error = LineError::ClientTooLarge;
    expect_text(&rt, alloc, &error, "client number above 4294967295");
    let error = LineError::PartTooLarge;
    expect_text(&rt, alloc, &error, "part number above 11");
}

// Returns the lines of a text before the line with this number, counted from 1.
fn lines_before(text: &[u8], number: u64) -> &[u8] {
    let mut line = 1u64;
    for (at, byte) in text.iter().enumerate() {
        if line >= number {
            return text.split_at(at).0;
        }
        if *byte == b'\n' {
            line = line.saturating_add(1);
        }
    }
    text
}

// With enough memory every line has its answer. If one allocation fails (`rt try --test --fail-alloc N`, for each N),
// exactly the lines before it have their answers.
#[test]
fn failing_allocations(rt: HostRuntime) {
    let mut room = [0u8; 128];
    let mut source = OverReader::new(SCRIPT);
    let mut sink = OverWriter::new(room.as_mut_slice());
    let result = run(rt.alloc(), &mut source, &mut sink);
    drop(sink);
    if let Err(RunError::Memory { line }) = result {
        let before = lines_before(SCRIPT, line);
        let answers = answers_to_front(before.len());
        assert!(rt; holds(room.as_slice(), answers), "at line {line}");
    } else {
        assert_eq!(rt; result, Ok(()));
        assert!(rt; holds(room.as_slice(), ANSWERS));
    }
}
