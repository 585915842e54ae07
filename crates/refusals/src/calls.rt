//! Calls of a shared map, each on its own map that starts with base pixel 0, and their results: `done`, `refused` if
//! the call was out of memory and changed nothing, or otherwise `spoiled`.
//!
//! After each call except `close` the state is checked: the client counts and reads all twelve parts, the other client
//! fills them, the two meet, one takes in the other, and the map is closed.

ghost use Rattle.std.specs.Prelude.{All, IfOk, IfSome};
ghost use Rattle.moc_shared.specs.Clients.{IsClientOf, IsHoldingOf};

use anyhow::{Result, bail};
use moc_parts::{Batch, Command, Operand, Replies, Reply};
use moc_ranges::{Coverage, Memory, PIXEL_COUNT};
use moc_shared::{
    Client, CloseError, Holding, NewError, SharedMap, Snapshot, SnapshotError, TryError,
};
use std::alloc::Global;
use std::fmt;
use std::io::Print;
use std::sync::Wait;

/// The number of pixels of a base pixel: 4^29.
const BASE: u64 = 288_230_376_151_711_744;

/// A call that executes a batch.
#[derive(Clone, Copy)]
enum Call {
    TryApply,
    Apply,
    Finish,
}

impl fmt::Display for Call {
    fn fmt<W: fmt::Write>(&self, f: &mut fmt::Formatter<W>) -> fmt::Result {
        f.write_str(match self {
            Call::TryApply => "try_apply",
            Call::Apply => "apply",
            Call::Finish => "finish",
        })
    }
}

/// The result of a call.
#[derive(Clone, Copy, PartialEq, Eq)]
enum CallResult {
    Done,
    Refused,
    Spoiled,
}

impl fmt::Display for CallResult {
    fn fmt<W: fmt::Write>(&self, f: &mut fmt::Formatter<W>) -> fmt::Result {
        f.write_str(match self {
            CallResult::Done => "done",
            CallResult::Refused => "refused",
            CallResult::Spoiled => "spoiled",
        })
    }
}

/// Returns a set of pixels as an operand.
fn operand(alloc: Global, from: u64, to: u64) -> Result<Operand> {
    let set = Coverage::from_ranges(alloc, &[(from, to)])?;
    Ok(Operand { set, coarse: None })
}

/// Removes and returns the last client.
pub fn next(map: &SharedMap, clients: &mut Vec<Client>) -> Option<Client>
    requires { All (IsClientOf map.now) clients.old.items }
    ensures left { All (IsClientOf map.now) clients.new.items }
    ensures next { IfSome result (IsClientOf map.now) }
{
    let _map = map;
    match clients.pop() {
        Some(client) => Some(client),
        None => None,
    }
}

/// Returns a map that starts with base pixel 0, and its two clients.
fn open(alloc: Global) -> Result<(SharedMap, Client, Client)>
    ensures { IfOk result (λ r. IsClientOf r.0 r.1 × IsClientOf r.0 r.2) }
{
    let start = Coverage::from_ranges(alloc, &[(0, BASE)])?;
    let (map, mut clients) = SharedMap::new(alloc, start, 2)?;
    match (next(&map, &mut clients), next(&map, &mut clients)) {
        (Some(b), Some(a)) => Ok((map, a, b)),
        _ => bail!("two clients"),
    }
}

/// Returns the reply to a batch that a client executes with this call.
fn ask<R: Wait>(
    rt: &R,
    map: &SharedMap,
    call: Call,
    client: Client,
    batch: Batch,
) -> (Client, Result<Replies, TryError>)
    requires { IsClientOf map.now client }
    ensures { IsClientOf map.now result.0 }
{
    let mut client = client;
    match call {
        Call::TryApply => {
            let answer = map.try_apply(&mut client, &batch);
            (client, answer)
        }
        Call::Apply => match map.apply(rt, &mut client, &batch) {
            Ok(replies) => (client, Ok(replies)),
            Err(Memory) => (client, Err(TryError::Memory)),
        },
        Call::Finish => match map.hold(client, batch) {
            Ok(holding) => finish(map, holding),
            Err((client, _, busy)) => (client, Err(TryError::Busy(busy))),
        },
    }
}

/// Returns the reply to the client of a holding.
fn finish(map: &SharedMap, holding: Holding) -> (Client, Result<Replies, TryError>)
    requires { IsHoldingOf map.now holding }
    ensures { IsClientOf map.now result.0 }
{
    match map.finish(holding) {
        (client, Ok(replies)) => (client, Ok(replies)),
        (client, Err(Memory)) => (client, Err(TryError::Memory)),
    }
}

/// Returns the reply to a query, with its client.
fn look(map: &SharedMap, client: Client, batch: Batch) -> (Client, Option<Snapshot>)
    requires { IsClientOf map.now client }
    ensures { IsClientOf map.now result.0 }
{
    match map.hold(client, batch) {
        Ok(holding) => query_reply(map, holding),
        Err((client, _, _)) => (client, None),
    }
}

/// Returns the reply to the query of a holding, with its client.
fn query_reply(map: &SharedMap, holding: Holding) -> (Client, Option<Snapshot>)
    requires { IsHoldingOf map.now holding }
    ensures { IsClientOf map.now result.0 }
{
    match map.snapshot(holding) {
        Ok((client, snapshot)) => (client, Some(snapshot)),
        Err(SnapshotError::NotQuery(holding)) => (map.let_go(holding), None),
        Err(SnapshotError::Memory(client)) => (client, None),
    }
}

/// Tests whether the only reply is this set.
fn is_cover(replies: &Replies, set: &Coverage) -> bool {
    matches!(replies.first(), Some(Reply::Cover(cover)) if cover.same(set))
}

/// Returns the number of changed or counted pixels in the only reply.
fn pixels(replies: &Replies) -> Option<u64> {
    match replies.first()? {
        Reply::Changed(pixels) | Reply::Total(pixels) => Some(*pixels),
        _ => None,
    }
}

/// Returns the number of pixels that a client counts in the whole sky.
fn count(alloc: Global, map: &SharedMap, client: &mut Client) -> Result<Option<u64>>
    requires { IsClientOf map.now client.old }
    ensures { IsClientOf map.now client.new }
{
    let count = Batch::one(alloc, Command::Count(operand(alloc, 0, PIXEL_COUNT)?))?;
    Ok(pixels(&map.try_apply(client, &count)?))
}

/// Returns the number of pixels that change when a client fills the whole sky.
fn fill(alloc: Global, map: &SharedMap, client: &mut Client) -> Result<Option<u64>>
    requires { IsClientOf map.now client.old }
    ensures { IsClientOf map.now client.new }
{
    let fill = Batch::one(alloc, Command::Add(operand(alloc, 0, PIXEL_COUNT)?))?;
    Ok(pixels(&map.try_apply(client, &fill)?))
}

/// Tests whether a client reads exactly this set in the whole sky.
fn reads(alloc: Global, map: &SharedMap, client: Client, set: &Coverage) -> Result<(Client, bool)>
    requires { IsClientOf map.now client }
    ensures { IfOk result (λ r. IsClientOf map.now r.0) }
{
    let read = Batch::one(alloc, Command::Read(operand(alloc, 0, PIXEL_COUNT)?))?;
    let (client, snapshot) = look(map, client, read);
    let reply_of_look = match snapshot {
        Some(snapshot) => is_cover(&snapshot.answer(alloc)?, set),
        None => false,
    };
    Ok((client, reply_of_look))
}

/// Tests whether the map has exactly this set, no part of it is held, and each call of its two clients works.
fn is_intact(alloc: Global, map: SharedMap, a: Client, b: Client, set: &Coverage) -> Result<bool>
    requires { IsClientOf map a × IsClientOf map b }
{
    let (mut a, mut b) = (a, b);
    let counted = count(alloc, &map, &mut a)? == Some(set.count());
    let (mut a, reply_of_look) = reads(alloc, &map, a, set)?;
    let filled = fill(alloc, &map, &mut b)? == Some(PIXEL_COUNT - set.count());
    map.meet(&mut a, &mut b);
    map.take_in(&mut a, b);
    Ok(counted && reply_of_look && filled && map.close(a)?.count() == PIXEL_COUNT)
}

/// Returns the result if the state is right. After a failed allocation no other allocation fails.
fn checked_result(outcome: CallResult, is_intact: Result<bool>) -> Result<CallResult> {
    match is_intact {
        Ok(is_intact) => Ok(if is_intact {
            outcome
        } else {
            CallResult::Spoiled
        }),
        Err(error) => match outcome {
            CallResult::Done => Err(error),
            CallResult::Refused | CallResult::Spoiled => Ok(CallResult::Spoiled),
        },
    }
}

/// Reports the result of an inversion by this call.
fn invert<R: Wait>(rt: &R, alloc: Global, call: Call) -> Result<CallResult> {
    let (map, a, b) = open(alloc)?;
    let (a, answer) = ask(rt, &map, call, a, Batch::one(alloc, Command::Invert)?);
    let outcome = match &answer {
        Ok(replies) if pixels(replies) == Some(PIXEL_COUNT) => CallResult::Done,
        Err(TryError::Memory) => CallResult::Refused,
        _ => CallResult::Spoiled,
    };
    let left = match outcome {
        CallResult::Done => (BASE, PIXEL_COUNT),
        CallResult::Refused | CallResult::Spoiled => (0, BASE),
    };
    let set = Coverage::from_ranges(alloc, &[left])?;
    checked_result(outcome, is_intact(alloc, map, a, b, &set))
}

/// Reports the result of a read of base pixel 0 by this call.
fn read<R: Wait>(rt: &R, alloc: Global, call: Call) -> Result<CallResult> {
    let set = Coverage::from_ranges(alloc, &[(0, BASE)])?;
    let (map, a, b) = open(alloc)?;
    let read = Batch::one(alloc, Command::Read(operand(alloc, 0, BASE)?))?;
    let (a, answer) = ask(rt, &map, call, a, read);
    let outcome = match &answer {
        Ok(replies) if is_cover(replies, &set) => CallResult::Done,
        Err(TryError::Memory) => CallResult::Refused,
        _ => CallResult::Spoiled,
    };
    checked_result(outcome, is_intact(alloc, map, a, b, &set))
}

/// Returns the reply to a query, if there is one, with the client.
fn look_first(map: &SharedMap, client: Client, query: Option<Batch>) -> (Client, Option<Snapshot>)
    requires { IsClientOf map.now client }
    ensures { IsClientOf map.now result.0 }
{
    match query {
        Some(query) => look(map, client, query),
        None => (client, None),
    }
}

/// Reports the result of an add by `answer`, to a list that a snapshot of this query shares, or to a list of the map
/// only.
fn add<R: Wait>(rt: &R, alloc: Global, query: Option<Batch>) -> Result<CallResult> {
    let (map, a, b) = open(alloc)?;
    let (mut a, snapshot) = look_first(&map, a, query);
    let more = Command::Add(operand(alloc, BASE + 2, BASE + 4)?);
    let outcome = match map.answer(rt, &mut a, more) {
        Ok(Reply::Changed(2)) => CallResult::Done,
        Err(Memory) => CallResult::Refused,
        Ok(_) => CallResult::Spoiled,
    };
    drop(snapshot);
    let left: &[(u64, u64)] = match outcome {
        CallResult::Done => &[(0, BASE), (BASE + 2, BASE + 4)],
        CallResult::Refused | CallResult::Spoiled => &[(0, BASE)],
    };
    let set = Coverage::from_ranges(alloc, left)?;
    checked_result(outcome, is_intact(alloc, map, a, b, &set))
}

/// Reports the result of a snapshot's reply.
fn reply_of_look(answer: &Result<Replies, Memory>, set: &Coverage) -> CallResult {
    match answer {
        Ok(replies) if is_cover(replies, set) => CallResult::Done,
        Err(Memory) => CallResult::Refused,
        _ => CallResult::Spoiled,
    }
}

/// Reports the result of two replies of one snapshot. At most one of them fails.
fn answer_twice(alloc: Global) -> Result<CallResult> {
    let set = Coverage::from_ranges(alloc, &[(0, BASE)])?;
    let (map, a, b) = open(alloc)?;
    let read = Batch::one(alloc, Command::Read(operand(alloc, 0, BASE)?))?;
    let (a, snapshot) = look(&map, a, read);
    let Some(snapshot) = snapshot else {
        return Ok(CallResult::Spoiled);
    };
    let first = reply_of_look(&snapshot.answer(alloc), &set);
    let second = reply_of_look(&snapshot.answer(alloc), &set);
    let outcome = match first {
        CallResult::Done => second,
        CallResult::Refused if second == CallResult::Done => CallResult::Refused,
        CallResult::Refused | CallResult::Spoiled => CallResult::Spoiled,
    };
    checked_result(outcome, is_intact(alloc, map, a, b, &set))
}

/// Reports the result of the creation of a map.
fn make(alloc: Global) -> Result<CallResult> {
    let set = Coverage::from_ranges(alloc, &[(0, BASE)])?;
    let start = Coverage::from_ranges(alloc, &[(0, BASE)])?;
    match SharedMap::new(alloc, start, 2) {
        Ok((map, mut clients)) => match (next(&map, &mut clients), next(&map, &mut clients)) {
            (Some(b), Some(a)) => checked_result(
                CallResult::Done,
                is_intact(alloc, map, a, b, &set),
            ),
            _ => Ok(CallResult::Spoiled),
        },
        Err(NewError::Memory) => Ok(CallResult::Refused),
        Err(NewError::BadCount) => Ok(CallResult::Spoiled),
    }
}

/// Reports the result of the end of a map.
fn close(alloc: Global) -> Result<CallResult> {
    let set = Coverage::from_ranges(alloc, &[(0, BASE)])?;
    let (map, mut a, b) = open(alloc)?;
    map.take_in(&mut a, b);
    Ok(match map.close(a) {
        Ok(closed) if closed.same(&set) => CallResult::Done,
        Err(CloseError::Memory) => CallResult::Refused,
        _ => CallResult::Spoiled,
    })
}

/// Reports the result of each call.
pub fn report<R: Print + Wait>(rt: &R, alloc: Global) -> Result<()> {
    println!(rt; "new: {}", make(alloc)?)?;
    for call in [Call::TryApply, Call::Apply, Call::Finish] {
        println!(rt; "{call} of an update: {}", invert(rt, alloc, call)?)?;
        println!(rt; "{call} of a query: {}", read(rt, alloc, call)?)?;
    }
    println!(rt; "answer of an add: {}", add(rt, alloc, None)?)?;
    let query = Batch::one(alloc, Command::Read(operand(alloc, BASE, 2 * BASE)?))?;
    println!(rt;
        "answer of an add to a shared list: {}",
        add(rt, alloc, Some(query))?
    )?;
    println!(rt; "answer: {}", answer_twice(alloc)?)?;
    println!(rt; "close: {}", close(alloc)?)?;
    Ok(())
}
