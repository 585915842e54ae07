//! Replies to crews: real threads, delayed by their gate.
use crate::between::{CallEnd, expect_end};
use crate::failing::{
    Devices, FailingSink, FailingSource, Failure, WORKING, failing_reader, failing_writer,
};
use crate::scripts::million_lines;
use moc_devices::{OverReader, OverWriter};
use moc_lines::{LINE_LIMIT, RunError};
use moc_script::{Gate, Lanes, OpenGate, crew};
use std::alloc::Global;
use std::marker::Sync;
use std::process::Abort;
use std::sync::Wait;
use std::sync::atomic::{AtomicU64, Ordering};
use std::thread;
use std::thread::Threads;

const MOST_TURNS: u64 = 100_000_000;

const SCRIPT: &[u8] = b"add 0/0\nadd 0/1\ncount 0/0\ncount 0/1\n";

const ANSWERS: &[u8] = b"changed 288230376151711744\nchanged 288230376151711744\n\
      total 288230376151711744\ntotal 288230376151711744\ncover 0/0-1\n";

const CLAIMS: &[u8] = b"claim 0/4\nhop\n\nclaim 1/17";

// Returns this number of lanes.
fn lanes(rt: &impl Abort, count: u8) -> Lanes {
    match Lanes::new(count) {
        Some(lanes) => lanes,
        None => panic!(rt; "{count} lanes"),
    }
}

// Runs a crew over such devices.
fn crew_between<T: Abort + Threads + Wait + Sync, G: Gate + Sync>(
    rt: &T,
    alloc: Global,
    script: &[u8],
    count: u8,
    gate: &G,
    devices: Devices,
) -> CallEnd {
    let lanes = lanes(rt, count);
    let mut source = FailingSource::new(script, devices);
    let mut sink = FailingSink::new(alloc, devices);
    let result = crew(rt, alloc, &mut source, &mut sink, lanes, gate);
    CallEnd {
        devices,
        result,
        text: sink.taken,
        flushes: sink.flushes,
    }
}

// Checks the output of a crew.
fn expect<T: Abort + Threads + Wait + Sync, G: Gate + Sync>(
    rt: &T,
    alloc: Global,
    script: &[u8],
    count: u8,
    gate: &G,
    text: &[u8],
) {
    let ended = crew_between(rt, alloc, script, count, gate, WORKING);
    expect_end(rt, &ended, Ok(()), text, 1);
}

#[test]
fn one_lane_or_two(rt: HostRuntime) {
    expect(&rt, rt.alloc(), SCRIPT, 1, &OpenGate, ANSWERS);
    expect(&rt, rt.alloc(), SCRIPT, 2, &OpenGate, ANSWERS);
    expect(&rt, rt.alloc(), b" \n\n\t", 2, &OpenGate, b"cover\n");
    expect(&rt, rt.alloc(), b"", 64, &OpenGate, b"cover\n");
}

#[test]
fn more_than_a_million_lines_of_a_crew(rt: HostRuntime) {
    let script = million_lines(&rt, rt.alloc());
    let mut taken = Vec::new(rt.alloc());
    let mut source = OverReader::new(script.as_slice());
    let mut sink = OverWriter::new(&mut taken);
    let lanes = lanes(&rt, 1);
    let ended = crew(&rt, rt.alloc(), &mut source, &mut sink, lanes, &OpenGate);
    assert_eq!(rt; ended, Ok(()));
    drop(sink);
    assert_eq!(rt; taken.as_slice(), b"cover\ncover\n".as_slice());
}

#[test]
fn claims_in_three_lanes(rt: HostRuntime) {
    let ended = crew_between(&rt, rt.alloc(), CLAIMS, 3, &OpenGate, WORKING);
    assert_eq!(rt; ended.result, Ok(()));
    let first = b"claimed\nfault UnknownWord\ntaken 72057594037927936\ncover 0/4\n";
    let second = b"taken 72057594037927936\nfault UnknownWord\nclaimed\ncover 1/17\n";
    assert!(rt;
        ended.text.as_slice() == first.as_slice() || ended.text.as_slice() == second.as_slice()
    );
}

#[test]
fn numbers_of_lanes(rt: HostRuntime) {
    assert!(rt; Lanes::new(0).is_none());
    assert!(rt; Lanes::new(65).is_none());
    for count in [1u8, 64] {
        assert_eq!(rt; lanes(&rt, count).get(), count);
    }
}

// Delays the first pass of each lane until both lanes have begun theirs.
#[derive(Drop)]
struct Both {
    first: AtomicU64,
    second: AtomicU64,
    gave_up: AtomicU64,
}

impl Gate for Both {
    fn pass(&self, lane: u8, _line: u64) {
        let (mine, other) = if lane == 0 {
            (&self.first, &self.second)
        } else {
            (&self.second, &self.first)
        };
        mine.store(1, Ordering::SeqCst);
        for _ in 0..MOST_TURNS {
            if other.load(Ordering::SeqCst) == 1 {
                return;
            }
            thread::yield_now();
        }
        self.gave_up.store(1, Ordering::SeqCst);
    }

    fn done(&self, _lane: u8, _line: u64) {}
}

// Both lanes are in their first pass at one time, which one thread cannot do.
#[test]
fn two_lanes_at_once(rt: HostRuntime) {
    let gate = Both {
        first: AtomicU64::new(0),
        second: AtomicU64::new(0),
        gave_up: AtomicU64::new(0),
    };
    let text = b"changed 288230376151711744\nchanged 288230376151711744\ncover 0/0-1\n";
    expect(&rt, rt.alloc(), b"add 0/0\nadd 0/1\n", 2, &gate, text);
    assert!(rt; gate.gave_up.load(Ordering::SeqCst) == 0);
}

// Delays the first pass of lane 0 until lane 1 has executed a line.
#[derive(Drop)]
struct SecondFirst {
    is_done: AtomicU64,
    gave_up: AtomicU64,
}

impl Gate for SecondFirst {
    fn pass(&self, lane: u8, _line: u64) {
        if lane != 0 {
            return;
        }
        for _ in 0..MOST_TURNS {
            if self.is_done.load(Ordering::SeqCst) == 1 {
                return;
            }
            thread::yield_now();
        }
        self.gave_up.store(1, Ordering::SeqCst);
    }

    fn done(&self, lane: u8, _line: u64) {
        if lane == 1 {
            self.is_done.store(1, Ordering::SeqCst);
        }
    }
}

// Lane 1 ends before lane 0 begins: the claim of the second line comes first.
#[test]
fn second_lane_first(rt: HostRuntime) {
    let gate = SecondFirst {
        is_done: AtomicU64::new(0),
        gave_up: AtomicU64::new(0),
    };
    let text = b"taken 72057594037927936\nclaimed\ncover 1/17\n";
    expect(&rt, rt.alloc(), b"claim 0/4\nclaim 1/17", 2, &gate, text);
    assert!(rt; gate.gave_up.load(Ordering::SeqCst) == 0);
}

// Sums its arguments: 100 times the lane and the line.
#[derive(Drop)]
struct LinesSeen {
    passed: AtomicU64,
    done: AtomicU64,
}

impl Gate for LinesSeen {
    fn pass(&self, lane: u8, line: u64) {
        let _ = self
            .passed
            .fetch_add(u64::from(lane) * 100 + line % 100, Ordering::SeqCst);
    }

    fn done(&self, lane: u8, line: u64) {
        let _ = self
            .done
            .fetch_add(u64::from(lane) * 100 + line % 100, Ordering::SeqCst);
    }
}

// The gate sees the lines 1, 2 and 4, also the invalid one, in the lanes 0, 1 and 2.
#[test]
fn gate_sees_each_line(rt: HostRuntime) {
    let gate = LinesSeen {
        passed: AtomicU64::new(0),
        done: AtomicU64::new(0),
    };
    let ended = crew_between(&rt, rt.alloc(), CLAIMS, 3, &gate, WORKING);
    assert_eq!(rt; ended.result, Ok(()));
    assert_eq!(rt; gate.passed.load(Ordering::SeqCst), 307);
    assert_eq!(rt; gate.done.load(Ordering::SeqCst), 307);
}

#[test]
fn readers_that_fail(rt: HostRuntime) {
    for reads in 0..SCRIPT.len() as u64 {
        let devices = failing_reader(reads, 1);
        let ended = crew_between(&rt, rt.alloc(), SCRIPT, 2, &OpenGate, devices);
        expect_end(&rt, &ended, Err(RunError::Read), b"", 0);
    }
}

#[test]
fn writers_that_fail(rt: HostRuntime) {
    for writes in 0..ANSWERS.len() {
        let devices = failing_writer(Failure::Error, writes as u64, 1);
        let ended = crew_between(&rt, rt.alloc(), SCRIPT, 2, &OpenGate, devices);
        expect_end(&rt, &ended, Err(RunError::Write), &ANSWERS[..writes], 0);
    }
}

// The whole output is accepted, and its flush fails.
#[test]
fn a_flush_that_fails(rt: HostRuntime) {
    let devices = failing_writer(Failure::Flush, 0, 1);
    let ended = crew_between(&rt, rt.alloc(), SCRIPT, 2, &OpenGate, devices);
    expect_end(&rt, &ended, Err(RunError::Write), ANSWERS, 1);
}

// A line over the limit is found before any lane begins.
#[test]
fn too_long_a_line(rt: HostRuntime) {
    let mut script = Vec::from_slice(rt.alloc(), b"add 0/0\n").expect(&rt, "memory");
    script.resize(LINE_LIMIT + 9, b' ').expect(&rt, "memory");
    let gate = LinesSeen {
        passed: AtomicU64::new(0),
        done: AtomicU64::new(0),
    };
    let mut taken = Vec::new(rt.alloc());
    let result = crew(
        &rt,
        rt.alloc(),
        &mut OverReader::new(script.as_slice()),
        &mut OverWriter::new(&mut taken),
        lanes(&rt, 2),
        &gate,
    );
    assert_eq!(rt; result, Err(RunError::LineTooLong { line: 2 }));
    assert!(rt; taken.is_empty());
    assert_eq!(rt; gate.passed.load(Ordering::SeqCst), 0);
}
