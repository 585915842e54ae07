//! Replies to schedules.
use crate::between::{CallEnd, Language, between, expect_answers, expect_end, holds};
use crate::failing::{Devices, Failure, PLENTY, failing_reader, failing_writer};
use moc_devices::{OverReader, OverWriter};
use moc_lines::RunError;
use moc_script::play;
use std::alloc::{AllocError, Global};
use std::process::Abort;

// Two clients on the same two parts. The first edits and gives one of its parts before the other takes it.
const SCHEDULE: &[u8] = b"\
begin 1 add 0/0-1
begin 2 count 0/0-1
take 1
take 1
edit 1 0
give 1 0
take 2
take 2
edit 1 1
give 1 1
take 2
end 1
edit 2 0
edit 2 1
give 2 0
give 2 1
end 2
";

const ANSWERS: &[u8] = b"\
ok
ok
ok
ok
ok
ok
ok
refused PartHeld
ok
ok
ok
changed 576460752303423488
ok
ok
ok
ok
total 576460752303423488
order 1 2
cover 0/0-1
";

// Checks the replies to a schedule.
fn expect(rt: &impl Abort, alloc: Global, schedule: &[u8], answers: &[u8]) {
    expect_answers(rt, alloc, Language::Schedule, schedule, answers);
}

// Plays the schedule over such devices.
fn play_between(alloc: Global, devices: Devices) -> CallEnd {
    between(alloc, Language::Schedule, SCHEDULE, devices)
}

#[test]
fn two_clients(rt: HostRuntime) {
    expect(&rt, rt.alloc(), SCHEDULE, ANSWERS);
}

#[test]
fn schedule_that_ends_midway(rt: HostRuntime) {
    let schedule = b"\
begin 1 add 0/0-1
begin 2 count 0/0-1
take 1
take 1
edit 1 0
give 1 0
take 2
take 2";
    let answers = b"ok\nok\nok\nok\nok\nok\nok\nrefused PartHeld\norder 1\nmidway 2\n";
    expect(&rt, rt.alloc(), schedule, answers);
}

#[test]
fn errors_of_one_client(rt: HostRuntime) {
    let schedule = b"\
take 7
begin 7 invert
edit 7 0
give 7 0
end 7
take 7
end 7
give 7 0
quit 7
take 7
give 7 0
end 7
";
    let answers = b"\
refused Idle
ok
refused NotAllTaken
refused NotHeld
refused NothingDone
ok
refused StillHolding
refused NotEdited
ok
refused Quitting
ok
ok
order
cover
";
    expect(&rt, rt.alloc(), schedule, answers);
}

#[test]
fn errors_of_two_clients(rt: HostRuntime) {
    let schedule = b"\
begin 1 add
take 1
begin 2 read 0/0
begin 2 invert
take 2
quit 1
give 1 0
end 1
take 2
take 2
edit 2 0
edit 2 0
quit 2
give 2 0
end 2
";
    let answers = b"\
ok
ok
ok
refused NotIdle
refused PartHeld
ok
ok
ok
ok
refused AllTaken
ok
refused AlreadyEdited
refused BegunEditing
ok
cover
order 3
cover
";
    expect(&rt, rt.alloc(), schedule, answers);
}

// The second client to begin edits first, so it comes first in the order; blank lines are counted and have no reply.
#[test]
fn order_by_first_edits(rt: HostRuntime) {
    let schedule = b"\
begin 1 count 0/0
begin 2 add 0/0
take 2
edit 2 0
give 2 0
take 1
edit 1 0
give 1 0
end 1
end 2
";
    let answers = b"\
ok
ok
ok
ok
ok
ok
ok
ok
total 288230376151711744
changed 288230376151711744
order 2 1
cover 0/0
";
    expect(&rt, rt.alloc(), schedule, answers);
    let blanks = b"\n \t\r\nbegin 1 add\n\ntake 1\nedit 1 0";
    expect(&rt, rt.alloc(), blanks, b"ok\nok\nok\norder 3\nmidway 1\n");
}

#[test]
fn batches(rt: HostRuntime) {
    let schedule = b"begin 1 add 0/0 ; remove 0/0\ntake 1\nedit 1 0\ngive 1 0\nend 1\n";
    let answers = b"\
ok
ok
ok
ok
changed 288230376151711744 ; changed 288230376151711744
order 1
cover
";
    expect(&rt, rt.alloc(), schedule, answers);
}

// A client that has taken all parts of a footprint holds exactly these.
#[test]
fn footprints(rt: HostRuntime) {
    for (command, held) in [
        ("add", [0usize].as_slice()),
        ("count 0/3 1/23", [3, 5].as_slice()),
        ("near 0 4", [0, 3, 4, 5, 7, 8, 11].as_slice()),
        ("near 1 0", [0, 4, 5, 8].as_slice()),
        ("near 1 3", [0, 1, 2, 3].as_slice()),
        (
            "keep 0/3",
            [0, 1, 2, 3, 4, 5, 6, 7, 8, 9, 10, 11].as_slice(),
        ),
        ("add 0/3 ; add", [0, 3].as_slice()),
    ] {
        let (schedule, answers) = takes_and_tries(rt.alloc(), command, held).expect(&rt, "memory");
        expect(&rt, rt.alloc(), schedule.as_bytes(), answers.as_bytes());
    }
}

// Returns a schedule in which a client takes as many parts as it should hold, may take no more, and tries to give each
// part; and its replies.
fn takes_and_tries(
    alloc: Global,
    command: &str,
    held: &[usize],
) -> Result<(String, String), AllocError> {
    let mut schedule = format!(in alloc; "begin 5 {command}\n")?;
    let mut answers = String::from_str(alloc, "ok\n")?;
    for _ in held {
        schedule.push_str("take 5\n")?;
        answers.push_str("ok\n")?;
    }
    schedule.push_str("take 5\n")?;
    answers.push_str("refused AllTaken\n")?;
    for part in 0..12usize {
        schedule.push_str(format!(in alloc; "give 5 {part}\n")?.as_str())?;
        answers.push_str(if held.contains(&part) {
            "refused NotEdited\n"
        } else {
            "refused NotHeld\n"
        })?;
    }
    answers.push_str("order\nmidway 1\n")?;
    Ok((schedule, answers))
}

#[test]
fn invalid_lines(rt: HostRuntime) {
    let schedule = b"\
hop
take 1 2
begin 1
take x
take 4294967296
edit 1 12
begin 1 hop
begin 1 add 0/12
take 4294967295
";
    let answers = b"\
fault UnknownWord
fault WrongCount
fault WrongCount
fault BadNumber
fault ClientTooLarge
fault PartTooLarge
fault UnknownWord
fault CellTooLarge
refused Idle
order
cover
";
    expect(&rt, rt.alloc(), schedule, answers);
}

// Which error of a line comes first, and what separates fields.
#[test]
fn first_error_of_a_line(rt: HostRuntime) {
    let schedule = b"\
begin
begin 1;add 0/0
begin x hop
begin 4294967296 hop
begin 1 ;
begin 1 add ; hop
take
edit 4294967296 12x
edit 4294967296 12
edit 00000000000000000000000000000001 000
give 1
quit 1 ; quit 1
end 1 1
Take 1
";
    let answers = b"\
fault WrongCount
fault BadNumber
fault BadNumber
fault ClientTooLarge
fault EmptyCommand
fault UnknownWord
fault WrongCount
fault BadNumber
fault ClientTooLarge
refused Idle
fault WrongCount
fault WrongCount
fault WrongCount
fault UnknownWord
order
cover
";
    expect(&rt, rt.alloc(), schedule, answers);
}

#[test]
fn empty_schedule(rt: HostRuntime) {
    expect(&rt, rt.alloc(), b"", b"order\ncover\n");
    expect(&rt, rt.alloc(), b"\n", b"order\ncover\n");
}

// Returns the front of the replies to this number of lines. Each line of the schedule has one.
fn first_lines(text: &[u8], count: usize) -> &[u8] {
    let mut lines = 0usize;
    for (at, byte) in text.iter().enumerate() {
        if lines >= count {
            return text.split_at(at).0;
        }
        if *byte == b'\n' {
            lines = lines.saturating_add(1);
        }
    }
    text
}

// Returns the number of whole lines of a text.
fn whole_lines(text: &[u8]) -> usize {
    text.iter().filter(|byte| **byte == b'\n').count()
}

#[test]
fn failing_reads(rt: HostRuntime) {
    for reads in 0..SCHEDULE.len() + 1 {
        let ended = play_between(rt.alloc(), failing_reader(reads as u64, PLENTY));
        let given = SCHEDULE.split_at(reads.min(SCHEDULE.len())).0;
        let expected = first_lines(ANSWERS, whole_lines(given));
        expect_end(&rt, &ended, Err(RunError::Read), expected, 0);
    }
}

#[test]
fn failing_writes(rt: HostRuntime) {
    for writes in 0..ANSWERS.len() {
        let expected = ANSWERS.split_at(writes).0;
        for failure in [Failure::Error, Failure::TakesNone] {
            let ended = play_between(rt.alloc(), failing_writer(failure, writes as u64, PLENTY));
            expect_end(&rt, &ended, Err(RunError::Write), expected, 0);
        }
    }
    let ended = play_between(rt.alloc(), failing_writer(Failure::Flush, 0, PLENTY));
    expect_end(&rt, &ended, Err(RunError::Write), ANSWERS, 1);
}

// With enough memory every line has its answer. If one allocation fails, exactly the lines before the reported one
// have their answers, and the last two lines do not.
#[test]
fn failing_allocations(rt: HostRuntime) {
    let mut room = [0u8; 256];
    let mut source = OverReader::new(SCHEDULE);
    let mut sink = OverWriter::new(room.as_mut_slice());
    let result = play(rt.alloc(), &mut source, &mut sink);
    drop(sink);
    if let Err(RunError::Memory { line }) = result {
        assert!(rt; line <= 18, "at line {line}");
        let before = usize::try_from(line.saturating_sub(1)).unwrap_or(0);
        let answers = first_lines(ANSWERS, before);
        assert!(rt; holds(room.as_slice(), answers), "at line {line}");
    } else {
        assert_eq!(rt; result, Ok(()));
        assert!(rt; holds(room.as_slice(), ANSWERS));
    }
}
