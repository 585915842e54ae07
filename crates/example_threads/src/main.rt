//! Two threads on one map: each call of `moc_shared`, with its contract. One line of proof by hand is needed: the
//! invariant of a loop of calls.
//!
//! The output does not depend on the schedule: each thread changes its own parts, and different pixels of a common
//! part.
#![tactic(auto)]

ghost use Rattle.std.specs.Prelude.{All, IfOk, IfSome};
ghost use Rattle.moc_shared.specs.Clients.{IsClientOf, IsHoldingOf};

use anyhow::{Result, bail};
use moc_parts::{Batch, Command, Operand, Replies, Reply};
use moc_ranges::Coverage;
use moc_shared::{Busy, Client, CloseError, Holding, SharedMap, Snapshot, SnapshotError, TryError};
use std::alloc::Global;
use std::marker::Sync;
use std::sync::Wait;
use std::thread::{self, Threads};

/// The number of pixels of a cell of order 5: 4^24.
const CELL: u64 = 281_474_976_710_656;

/// The number of cells of order 5 in a base pixel.
const CELLS: u64 = 1024;

/// Returns the first cell of order 5 in a base pixel.
fn cell(alloc: Global, base_pixel: u8) -> Result<Operand> {
    let from = u64::from(base_pixel % 12) * CELLS * CELL;
    let set = Coverage::from_ranges(alloc, &[(from, from + CELL)])?;
    Ok(Operand { set, coarse: None })
}

/// Returns the number of pixels in the first reply.
fn pixels(replies: &Replies) -> Option<u64> {
    match replies.first()? {
        Reply::Cover(set) => Some(set.count()),
        reply => reply.pixels(),
    }
}

/// Removes and returns the last client.
fn next(map: &SharedMap, clients: &mut Vec<Client>) -> Option<Client>
    requires { All (IsClientOf map.now) clients.old.items }
    ensures left { All (IsClientOf map.now) clients.new.items }
    ensures next { IfSome result (IsClientOf map.now) }
{
    let _map = map;
    match clients.pop() {
        Some(client) => Some(client),
        None => None,
    }
}

/// The work of a thread: a cell of its own part, and then, with waiting, one pixel of a common part.
fn work<R: Wait>(rt: &R, alloc: Global, map: &SharedMap, client: &mut Client) -> Result<u64>
    requires { IsClientOf map.now client.old }
    ensures { IsClientOf map.now client.new }
{
    let number = client.number();
    let own = Batch::one(alloc, Command::Add(cell(alloc, number)?))?;
    let pixel = 11 * CELLS * CELL + u64::from(number);
    let set = Coverage::from_ranges(alloc, &[(pixel, pixel + 1)])?;
    let common = Batch::one(alloc, Command::Add(Operand { set, coarse: None }))?;
    let first = map.try_apply(client, &own)?;
    let second = map.apply(rt, client, &common)?;
    let third = map.answer(rt, client, Command::Count(cell(alloc, number)?))?;
    match (pixels(&first), pixels(&second), third) {
        (Some(first), Some(second), Reply::Total(CELL)) => Ok(first.saturating_add(second)),
        _ => bail!("no count"),
    }
}

/// Returns the batch that counts a cell.
fn count(alloc: Global, base_pixel: u8) -> Result<Batch> {
    Ok(Batch::one(alloc, Command::Count(cell(alloc, base_pixel)?))?)
}

/// Executes one batch after another, and returns the sum of the replies. `proofs/do_all` has the invariant that keeps
/// the client one of the map's.
fn do_all(map: &SharedMap, client: &mut Client, batches: &[Batch]) -> Result<u64>
    requires { IsClientOf map.now client.old }
    ensures { IsClientOf map.now client.new }
{
    let mut total = 0u64;
    for batch in batches {
        let replies = map.try_apply(client, batch)?;
        total = total.saturating_add(pixels(&replies).unwrap_or(0));
    }
    Ok(total)
}

/// A thread: returns its client with its count, if every call succeeded.
fn run<R: Wait>(rt: &R, alloc: Global, map: &SharedMap, client: Client) -> (Client, Option<u64>)
    requires { IsClientOf map.now client }
    ensures { IsClientOf map.now result.0 }
{
    let mut client = client;
    let done = work(rt, alloc, map, &mut client).ok();
    (client, done)
}

/// Returns the error of a batch that finds a part held.
fn busy_error(map: &SharedMap, client: &mut Client, batch: &Batch) -> Option<Busy>
    requires { IsClientOf map.now client.old }
    ensures { IsClientOf map.now client.new }
{
    match map.try_apply(client, batch).err()? {
        TryError::Busy(busy) => Some(busy),
        TryError::Memory => None,
    }
}

/// Returns the reply to a query, with its client. A holding of an update is let go.
fn query_reply(map: &SharedMap, holding: Holding) -> (Client, Option<Snapshot>)
    requires { IsHoldingOf map.now holding }
    ensures { IsClientOf map.now result.0 }
{
    match map.snapshot(holding) {
        Ok((client, snapshot)) => (client, Some(snapshot)),
        Err(SnapshotError::NotQuery(holding)) => (map.let_go(holding), None),
        Err(SnapshotError::Memory(client)) => (client, None),
    }
}

/// Runs both clients at once, each on its own thread, and returns them.
fn run_both<R: Threads + Wait + Sync>(
    rt: &R,
    alloc: Global,
    map: &SharedMap,
    a: Client,
    b: Client,
) -> ((Client, Option<u64>), (Client, Option<u64>))
    requires { IsClientOf map.now a × IsClientOf map.now b }
    ensures { IsClientOf map.now result.0.0 × IsClientOf map.now result.1.0 }
{
    thread::join(
        rt,
        move || -> (Client, Option<u64>)
            requires { IsClientOf map.now a }
            ensures { IsClientOf map.entry.now result.0 }
        { run(rt, alloc, map, a) },
        move || -> (Client, Option<u64>)
            requires { IsClientOf map.now b }
            ensures { IsClientOf map.entry.now result.0 }
        { run(rt, alloc, map, b) },
    )
}

/// A client holds a batch and executes it, and another meets it: returns the holder's number and the replies.
fn meet_busy(
    map: &SharedMap,
    a: Client,
    b: &mut Client,
    batch: Batch,
    other: &Batch,
) -> (Client, Option<Busy>, Option<u64>)
    requires { IsClientOf map.now a × IsClientOf map.now b.old }
    ensures { IsClientOf map.now result.0 × IsClientOf map.now b.new }
{
    match map.hold(a, batch) {
        Ok(holding) => {
            let busy = busy_error(map, b, other);
            let (a, done) = map.finish(holding);
            match done {
                Ok(replies) => (a, busy, pixels(&replies)),
                Err(_) => (a, busy, None),
            }
        }
        Err((a, _, busy)) => (a, Some(busy), None),
    }
}

/// A client holds a batch, and takes a snapshot of its parts.
fn hold_and_see(map: &SharedMap, a: Client, batch: Batch) -> (Client, Option<Snapshot>)
    requires { IsClientOf map.now a }
    ensures { IsClientOf map.now result.0 }
{
    match map.hold(a, batch) {
        Ok(holding) => query_reply(map, holding),
        Err((a, _, _)) => (a, None),
    }
}

/// A client abandons its batch; then another closes the map.
fn close_midway(map: SharedMap, a: Client, b: Client, batch: Batch) -> Option<CloseError>
    requires { IsClientOf map a × IsClientOf map b }
{
    match map.hold(a, batch) {
        Ok(holding) => holding.abandon(),
        Err(_) => return None,
    }
    map.close(b).err()
}

/// Returns a map that starts with the first cell of base pixel 7, and its two clients.
fn open(alloc: Global) -> Result<(SharedMap, Client, Client)>
    ensures { IfOk result (λ r. IsClientOf r.0 r.1 × IsClientOf r.0 r.2) }
{
    let (map, mut clients) = SharedMap::new(alloc, cell(alloc, 7)?.set, 2)?;
    match (next(&map, &mut clients), next(&map, &mut clients)) {
        (Some(b), Some(a)) => Ok((map, a, b)),
        _ => bail!("two clients"),
    }
}

/// The clients meet; then one holds a part, and the other finds it held.
fn meet_and_hold(
    rt: &HostRuntime,
    map: &SharedMap,
    mut a: Client,
    mut b: Client,
) -> Result<(Client, Client)>
    requires { IsClientOf map.now a × IsClientOf map.now b }
    ensures { IfOk result (λ r. IsClientOf map.now r.0 × IsClientOf map.now r.1) }
{
    map.meet(&mut a, &mut b);
    let add = Batch::one(rt.alloc(), Command::Add(cell(rt.alloc(), 3)?))?;
    let count = Batch::one(rt.alloc(), Command::Count(cell(rt.alloc(), 3)?))?;
    let (a, busy, done) = meet_busy(map, a, &mut b, add, &count);
    if let Some(busy) = busy {
        println!(rt;
            "part {} was held by client {}",
            busy.part.get(),
            busy.holder
        )?;
    }
    println!(rt; "client 0 changed {done:?}")?;
    Ok((a, b))
}

/// A client looks at a part, the other changes it, and the first returns what it saw.
fn look_and_change(
    rt: &HostRuntime,
    map: &SharedMap,
    mut a: Client,
    mut b: Client,
) -> Result<(Client, Client)>
    requires { IsClientOf map.now a × IsClientOf map.now b }
    ensures { IfOk result (λ r. IsClientOf map.now r.0 × IsClientOf map.now r.1) }
{
    let read = Batch::one(rt.alloc(), Command::Read(cell(rt.alloc(), 3)?))?;
    let snapshot = map.look(&mut a, &read)?;
    remove(rt, map, &mut b)?;
    let query_reply = snapshot.answer(rt.alloc())?;
    println!(rt; "client 0 saw {:?}", pixels(&query_reply))?;
    Ok((a, b))
}

/// A client removes a cell.
fn remove(rt: &HostRuntime, map: &SharedMap, client: &mut Client) -> Result<()>
    requires { IsClientOf map.now client.old }
    ensures { IsClientOf map.now client.new }
{
    let remove = Batch::one(rt.alloc(), Command::Remove(cell(rt.alloc(), 3)?))?;
    let removed = map.try_apply(client, &remove)?;
    println!(rt; "client 1 removed {:?}", pixels(&removed))?;
    Ok(())
}

/// One client takes in the other, and closes the map.
fn close(rt: &HostRuntime, map: SharedMap, a: Client, b: Client) -> Result<()>
    requires { IsClientOf map a × IsClientOf map b }
{
    let remove = Batch::one(rt.alloc(), Command::Remove(cell(rt.alloc(), 3)?))?;
    let (mut a, none) = hold_and_see(&map, a, remove);
    println!(rt; "an update gives a snapshot: {}", none.is_some())?;
    let counts = [
        count(rt.alloc(), 0)?,
        count(rt.alloc(), 1)?,
        count(rt.alloc(), 7)?,
    ];
    println!(rt;
        "client 0 counted {} in three parts",
        do_all(&map, &mut a, &counts)?
    )?;
    map.take_in(&mut a, b);
    println!(rt; "{} pixels at the end", map.close(a)?.count())?;
    Ok(())
}

/// Closing a map fails if a client has abandoned a batch.
fn hold_for_good(rt: &HostRuntime) -> Result<()> {
    let (map, a, b) = open(rt.alloc())?;
    let batch = Batch::one(rt.alloc(), Command::Invert)?;
    if let Some(error) = close_midway(map, a, b, batch) {
        println!(rt; "not closed: {error}")?;
    }
    Ok(())
}

fn main(rt: HostRuntime) -> Result<()> {
    let alloc = rt.alloc();
    let (map, a, b) = open(alloc)?;
    let ((a, first), (b, second)) = run_both(&rt, alloc, &map, a, b);
    println!(rt; "the threads changed {first:?} and {second:?}")?;
    let (a, b) = meet_and_hold(&rt, &map, a, b)?;
    let (a, b) = look_and_change(&rt, &map, a, b)?;
    close(&rt, map, a, b)?;
    hold_for_good(&rt)
}
