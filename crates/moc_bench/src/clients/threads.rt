//! The work of clients, each on its own thread.
ghost use Rattle.moc_shared.specs.Clients.{IsClientOf, IsHoldingOf};

use crate::clients::figure::Figure;
use anyhow::Result;
use moc_parts::{Batch, Command, Operand, Replies, Reply};
use moc_ranges::Coverage;
use moc_shared::{Client, Holding, SharedMap, Snapshot, SnapshotError};
use moc_text::write_ascii;
use std::alloc::Global;
use std::sync::Wait;
use std::sync::atomic::{AtomicU64, Ordering};
use std::thread;
use std::time::{Clock, Instant};

/// The number of pixels of a base pixel: 4^29.
const BASE: u64 = 288_230_376_151_711_744;

/// The number of pixels of a cell of order 13: 4^16.
const CELL: u64 = 4_294_967_296;

/// The number of cells of order 13: 12·4^13.
pub const CELLS: u64 = 805_306_368;

/// The number of cells of order 13 in a base pixel.
const BASE_CELLS: u64 = 67_108_864;

/// The number of checks whether the other threads have started.
const TURNS: u64 = 1_000_000;

/// The job of the threads.
#[derive(Clone, Copy)]
pub enum Job {
    /// Each adds a cell in its own base pixel, and removes it.
    OwnParts,
    /// Each adds its own cell in base pixel 0, and removes it.
    OnePart,
    /// Client 0 adds and removes, and the others read base pixel 0 by snapshots until it ends.
    Readers,
    /// Client 0 adds and removes, and the others write the ASCII text of such snapshots until it ends.
    Printers,
    /// Client 0 adds and removes, and the others take base pixel 0 and give it back until it ends.
    Takers,
}

impl Job {
    /// Whether all clients but client 0 read what it changes.
    pub fn has_readers(self) -> bool {
        matches!(self, Job::Readers | Job::Printers | Job::Takers)
    }
}

/// The state that threads share.
#[derive(Drop)]
pub struct Plan {
    pub job: Job,
    pub rounds: u64,
    pub threads: u64,
    pub started: AtomicU64,
    pub ended: AtomicU64,
}

impl Plan {
    /// Returns the state for this number of threads and rounds of a job.
    pub fn new(job: Job, threads: u8, rounds: u64) -> Plan {
        Plan {
            job,
            rounds,
            threads: u64::from(threads),
            started: AtomicU64::new(0),
            ended: AtomicU64::new(0),
        }
    }
}

/// Returns a cell of order 13.
pub fn cell(alloc: Global, index: u64) -> Result<Operand> {
    let from = (index % CELLS) * CELL;
    let set = Coverage::from_ranges(alloc, &[(from, from + CELL)])?;
    Ok(Operand { set, coarse: None })
}

/// Tests whether the only reply is that exactly one cell changed.
pub fn changed_a_cell(replies: &Replies) -> bool {
    matches!(replies.as_slice().first(), Some(Reply::Changed(CELL)))
}

/// Waits until all threads have started. Yields between checks, and gives up after a limit.
fn have_started(plan: &Plan) -> bool {
    plan.started.fetch_add(1, Ordering::SeqCst);
    for _ in 0..TURNS {
        if plan.started.load(Ordering::SeqCst) >= plan.threads {
            return true;
        }
        thread::yield_now();
    }
    false
}

/// The work of a thread after all threads have started. No call counts if an allocation or the clock fails.
pub fn work<R: Wait + Clock>(
    rt: &R,
    alloc: Global,
    map: &SharedMap,
    plan: &Plan,
    client: Client,
) -> Figure
    requires { IsClientOf map.now client }
{
    let is_reader = plan.job.has_readers() && client.number() > 0;
    let all = have_started(plan);
    let done = if !all {
        None
    } else if is_reader {
        read(alloc, map, plan, client)
    } else {
        change(rt, alloc, map, plan, client)
    };
    plan.ended.fetch_add(1, Ordering::SeqCst);
    done.unwrap_or(Figure::nothing())
}

/// Adds a cell and removes it, in all rounds.
fn change<R: Wait + Clock>(
    rt: &R,
    alloc: Global,
    map: &SharedMap,
    plan: &Plan,
    client: Client,
) -> Option<Figure>
    requires { IsClientOf map.now client }
{
    let mut client = client;
    let number = u64::from(client.number());
    let index = match plan.job {
        Job::OwnParts => number * BASE_CELLS,
        Job::OnePart | Job::Readers | Job::Printers | Job::Takers => number,
    };
    let add = Batch::one(alloc, Command::Add(cell(alloc, index).ok()?)).ok()?;
    let remove = Batch::one(alloc, Command::Remove(cell(alloc, index).ok()?)).ok()?;
    let start = Instant::now(rt).ok()?;
    let good = come_and_go(rt, map, &mut client, &add, &remove, plan.rounds);
    Figure::since(rt, &start, good).ok()
}

/// Adds a set and removes it in turn, waiting for the part; returns the number of calls that changed exactly one cell.
fn come_and_go<R: Wait>(
    rt: &R,
    map: &SharedMap,
    client: &mut Client,
    add: &Batch,
    remove: &Batch,
    rounds: u64,
) -> u64
    requires { IsClientOf map.now client.old }
    ensures { IsClientOf map.now client.new }
{
    let mut good = 0u64;
    for _ in 0..rounds {
        let added = changes_a_cell(rt, map, client, add);
        let removed = changes_a_cell(rt, map, client, remove);
        good = good.saturating_add(u64::from(added) + u64::from(removed));
    }
    good
}

/// Tests whether the batch changes exactly one cell, when its part is free.
fn changes_a_cell<R: Wait>(rt: &R, map: &SharedMap, client: &mut Client, batch: &Batch) -> bool
    requires { IsClientOf map.now client.old }
    ensures { IsClientOf map.now client.new }
{
    match map.apply(rt, client, batch) {
        Ok(replies) => changed_a_cell(&replies),
        Err(_) => false,
    }
}

/// Reads base pixel 0, or only takes it, until another thread has ended; returns the number of reads, or of takes.
fn read(alloc: Global, map: &SharedMap, plan: &Plan, client: Client) -> Option<Figure>
    requires { IsClientOf map.now client }
{
    let mut client = client;
    let set = Coverage::from_ranges(alloc, &[(0, BASE)]).ok()?;
    let read = Batch::one(alloc, Command::Read(Operand { set, coarse: None })).ok()?;
    let mut reads = 0u64;
    for _ in 0..u64::MAX {
        if plan.ended.load(Ordering::SeqCst) > 0 {
            break;
        }
        let batch = read.try_copy(alloc).ok()?;
        let (back, good) = match plan.job {
            Job::Takers => touch(map, client, batch),
            Job::Printers => print_once(alloc, map, client, batch),
            _ => read_once(alloc, map, client, batch),
        };
        client = back;
        reads = reads.saturating_add(u64::from(good));
        if !good {
            thread::yield_now();
        }
    }
    Some(Figure::of_reads(reads))
}

/// Tests whether a query has a reply, and returns its client.
fn read_once(alloc: Global, map: &SharedMap, client: Client, batch: Batch) -> (Client, bool)
    requires { IsClientOf map.now client }
    ensures { IsClientOf map.now result.0 }
{
    let (client, snapshot) = query_look(map, client, batch);
    let is_answered = match snapshot {
        Some(snapshot) => snapshot.answer(alloc).is_ok(),
        None => false,
    };
    (client, is_answered)
}

/// Tests whether a query has a reply and its text is written, and returns its client.
fn print_once(alloc: Global, map: &SharedMap, client: Client, batch: Batch) -> (Client, bool)
    requires { IsClientOf map.now client }
    ensures { IsClientOf map.now result.0 }
{
    let (client, snapshot) = query_look(map, client, batch);
    let is_printed = match snapshot {
        Some(snapshot) => is_text_made(alloc, &snapshot),
        None => false,
    };
    (client, is_printed)
}

/// Tests whether the ASCII text of a snapshot is written.
fn is_text_made(alloc: Global, snapshot: &Snapshot) -> bool {
    let Ok(replies) = snapshot.answer(alloc) else {
        return false;
    };
    match replies.as_slice().first() {
        Some(Reply::Cover(set)) => write_ascii(alloc, set, None).is_ok(),
        _ => false,
    }
}

/// Takes the parts of a batch and gives them back; returns whether it did, and the client.
fn touch(map: &SharedMap, client: Client, batch: Batch) -> (Client, bool)
    requires { IsClientOf map.now client }
    ensures { IsClientOf map.now result.0 }
{
    match map.hold(client, batch) {
        Ok(holding) => (map.let_go(holding), true),
        Err((client, _, _)) => (client, false),
    }
}

/// Returns the reply to a query, with its client; `None` if a part is held.
fn query_look(map: &SharedMap, client: Client, batch: Batch) -> (Client, Option<Snapshot>)
    requires { IsClientOf map.now client }
    ensures { IsClientOf map.now result.0 }
{
    match map.hold(client, batch) {
        Ok(holding) => query_reply(map, holding),
        Err((client, _, _)) => (client, None),
    }
}

/// Returns the reply to the query of a holding, with its client.
fn query_reply(map: &SharedMap, holding: Holding) -> (Client, Option<Snapshot>)
    requires { IsHoldingOf map.now holding }
    ensures { IsClientOf map.now result.0 }
{
    match map.snapshot(holding) {
        Ok((client, snapshot)) => (client, Some(snapshot)),
        Err(SnapshotError::NotQuery(holding)) => (map.let_go(holding), None),
        Err(SnapshotError::Memory(client)) => (client, None),
    }
}
