//! Sixteen clients of one map on eight threads, two on each, with batches across several parts that all of them take.
//! No client may see a part of what another batch changes:
//!
//! - two threads add a cell to each of ten parts, and remove them, each ten by one batch;
//! - two threads count these cells: the count is ten or zero;
//! - two threads move a token from part to part, each time by one batch, which removes it, adds it elsewhere, and
//!   counts it at its old place;
//! - two threads count the places of a token in all twelve parts: the count is one.
//!
//! The two clients of a thread take turns and meet every few turns. At the end one takes in the other, while the other
//! threads go on. A batch is executed at once, or with waiting, or from a holding, which may be let go first; a query
//! also by a look or a snapshot. If a part is held, a thread retries a few times and then waits, so that each thread
//! executes all its turns.
ghost use Rattle.std.specs.Prelude.{◌<◌, All, IfOk, IfErr, IfSome};
ghost use Rattle.moc_shared.specs.Clients.{IsClientOf, IsHoldingOf};

use crate::rounds::await_start;
use crate::shared::{BASE, CELL, gather, one, set};
use moc_parts::{Batch, Command, Operand, Replies};
use moc_ranges::Coverage;
use moc_shared::{Client, Holding, SharedMap, SnapshotError, TryError};
use std::alloc::Global;
use std::process::Abort;
use std::sync::Wait;
use std::sync::atomic::AtomicU64;
use std::thread;

/// The number of threads.
const THREADS: u8 = 8;

/// The number of turns of each thread. With run-time checks on a busy machine, all of them take twenty seconds. The
/// toolchain ends a test after sixty.
const TURNS: u64 = 4_000;

/// The number of cells of order 5 in a base pixel.
const CELLS: u64 = 1024;

/// The number of turns after which the two clients of a thread meet.
const MEETING: u64 = 16;

/// The number of tries before a call waits.
const TRIES: u64 = 50;

/// The number of parts of a wide batch.
const WIDE: u64 = 10;

/// The work that a thread repeats.
#[derive(Clone, Copy)]
enum Task {
    /// Adds and removes cells in ten parts.
    Toggle,
    /// Counts these cells.
    Count,
    /// Moves a token.
    Move,
    /// Counts the places of a token.
    Seek,
}

/// The way in which a client executes a batch.
#[derive(Clone, Copy)]
enum Way {
    Try,
    Wait,
    Hold,
    LetGo,
    Look,
    Snapshot,
}

/// The clients of a thread: the one whose turn it is, and the other.
type Pair = (Client, Client);

/// Returns the work of the thread with this number.
fn task_of(number: u8) -> Task {
    match number / 2 {
        0 => Task::Toggle,
        1 => Task::Count,
        2 => Task::Move,
        _ => Task::Seek,
    }
}

/// Returns the way in which a client executes its batch in this turn. Only queries use looks and snapshots.
fn way_of(turn: u64, is_update: bool) -> Way {
    match turn % 11 {
        0 | 3 | 6 => Way::Try,
        1 | 7 => Way::Wait,
        2 | 8 => Way::Hold,
        4 => Way::LetGo,
        _ if is_update => Way::Try,
        5 | 9 => Way::Look,
        _ => Way::Snapshot,
    }
}

/// The cell of order 5 at this place, in each part from one up to, not including, another.
fn cells(rt: &impl Abort, alloc: Global, from: u64, to: u64, place: u64) -> Operand {
    let mut all = Coverage::empty(alloc);
    for part in from..to {
        let begin = (part % 12) * BASE + (place % CELLS) * CELL;
        let cell = set(rt, alloc, &[(begin, begin + CELL)]);
        all = all.union(alloc, &cell).expect(rt, "a union");
    }
    Operand::from(all)
}

/// Returns the cell at this place in each part of a wide batch.
fn wide(rt: &impl Abort, alloc: Global, place: u64) -> Operand {
    cells(rt, alloc, 1, 1 + WIDE, place)
}

/// Returns the batch that moves a token from one part to another, and counts it at its old place.
fn move_token(rt: &impl Abort, alloc: Global, from: u64, to: u64, place: u64) -> Batch
    requires { (from < 12) × (to < 12) }
{
    let remove = Command::Remove(cells(rt, alloc, from, from + 1, place));
    let add = Command::Add(cells(rt, alloc, to, to + 1, place));
    let count = Command::Count(cells(rt, alloc, from, from + 1, place));
    let commands = vec![in alloc; remove, add, count].expect(rt, "memory");
    Batch::new(commands).expect(rt, "a batch")
}

/// Returns the batches that move a token through all parts in turn.
fn moves(rt: &impl Abort, alloc: Global, place: u64) -> Vec<Batch> {
    let mut batches = Vec::new(alloc);
    for turn in 0..12u64 {
        let (from, to) = (5 * turn % 12, 5 * (turn + 1) % 12);
        let batch = move_token(rt, alloc, from, to, place);
        batches.push(batch).expect(rt, "memory");
    }
    batches
}

/// The place of the token that this thread moves or counts.
fn token_place(number: u8) -> u64 {
    100 + u64::from(number % 2)
}

/// Returns the batches that a thread executes in turn.
fn batches_of(rt: &impl Abort, alloc: Global, number: u8) -> Vec<Batch> {
    let place = u64::from(number % 2);
    match task_of(number) {
        Task::Toggle => {
            let add = one(rt, alloc, Command::Add(wide(rt, alloc, place)));
            let remove = one(rt, alloc, Command::Remove(wide(rt, alloc, place)));
            vec![in alloc; add, remove].expect(rt, "memory")
        }
        Task::Count => {
            let count = one(rt, alloc, Command::Count(wide(rt, alloc, place)));
            vec![in alloc; count].expect(rt, "memory")
        }
        Task::Move => moves(rt, alloc, token_place(number)),
        Task::Seek => {
            let all = cells(rt, alloc, 0, 12, token_place(number));
            let count = one(rt, alloc, Command::Count(all));
            vec![in alloc; count].expect(rt, "memory")
        }
    }
}

/// Returns the number of pixels in the reply to a command of the batch.
fn pixels(replies: &Replies, command: usize) -> Option<u64> {
    replies.as_slice().get(command)?.pixels()
}

/// Tests whether a batch of the thread may have this reply.
fn is_right(task: Task, replies: &Replies) -> bool {
    let first = pixels(replies, 0);
    match task {
        Task::Toggle => first == Some(WIDE * CELL),
        Task::Count => first == Some(0) || first == Some(WIDE * CELL),
        Task::Move => {
            first == Some(CELL) && pixels(replies, 1) == Some(CELL) && pixels(replies, 2) == Some(0)
        }
        Task::Seek => first == Some(CELL),
    }
}

/// Executes the batch, and waits if a part is held.
fn wait<R: Wait>(
    rt: &R,
    map: &SharedMap,
    client: Client,
    batch: &Batch,
) -> (Client, Option<Replies>)
    requires { IsClientOf map.now client }
    ensures { IsClientOf map.now result.0 }
{
    let mut client = client;
    let replies = map.apply(rt, &mut client, batch).ok();
    (client, replies)
}

/// Executes the batch at once, with a few tries; returns `None` if a part was held each time, or if an allocation
/// failed.
fn try_some(map: &SharedMap, client: &mut Client, batch: &Batch) -> Option<Replies>
    requires { IsClientOf map.now client.old }
    ensures { IsClientOf map.now client.new }
{
    for _ in 0..TRIES {
        match map.try_apply(client, batch) {
            Ok(replies) => return Some(replies),
            Err(TryError::Memory) => return None,
            Err(TryError::Busy(_)) => thread::yield_now(),
        }
    }
    None
}

/// Takes the parts of the batch, with a few tries.
fn hold_some(
    alloc: Global,
    map: &SharedMap,
    client: Client,
    batch: &Batch,
) -> Result<Holding, Client>
    requires { IsClientOf map.now client }
    ensures held { IfOk result (λ h. IsHoldingOf map.now h) }
    ensures back { IfErr result (λ c. IsClientOf map.now c) }
{
    let mut client = client;
    for _ in 0..TRIES {
        let Ok(copy) = batch.try_copy(alloc) else {
            return Err(client);
        };
        match map.hold(client, copy) {
            Ok(holding) => return Ok(holding),
            Err((back, _, _)) => client = back,
        }
        thread::yield_now();
    }
    Err(client)
}

/// Returns the reply to a query after its parts were given back.
fn query_holding(alloc: Global, map: &SharedMap, holding: Holding) -> (Client, Option<Replies>)
    requires { IsHoldingOf map.now holding }
    ensures { IsClientOf map.now result.0 }
{
    match map.snapshot(holding) {
        Ok((client, snapshot)) => (client, snapshot.answer(alloc).ok()),
        Err(SnapshotError::NotQuery(holding)) => (map.let_go(holding), None),
        Err(SnapshotError::Memory(client)) => (client, None),
    }
}

/// Executes the batch from a holding.
fn execute_holding(
    alloc: Global,
    map: &SharedMap,
    holding: Holding,
    way: Way,
) -> (Client, Option<Replies>)
    requires { IsHoldingOf map.now holding }
    ensures { IsClientOf map.now result.0 }
{
    match way {
        Way::Snapshot => query_holding(alloc, map, holding),
        Way::LetGo => (map.let_go(holding), None),
        _ => {
            let (client, replies) = map.finish(holding);
            (client, replies.ok())
        }
    }
}

/// Executes the batch in this way, if no part is held in one of the tries.
fn do_at_once(
    alloc: Global,
    map: &SharedMap,
    client: Client,
    batch: &Batch,
    way: Way,
) -> (Client, Option<Replies>)
    requires { IsClientOf map.now client }
    ensures { IsClientOf map.now result.0 }
{
    let mut client = client;
    match way {
        Way::Wait => (client, None),
        Way::Try => {
            let replies = try_some(map, &mut client, batch);
            (client, replies)
        }
        Way::Look => {
            let seen = map.look(&mut client, batch).ok();
            (
                client,
                seen.and_then(|snapshot| snapshot.answer(alloc).ok()),
            )
        }
        _ => match hold_some(alloc, map, client, batch) {
            Ok(holding) => execute_holding(alloc, map, holding, way),
            Err(client) => (client, None),
        },
    }
}

/// One turn: the first client of the pair executes the batch, and the other is next.
fn take_turn<R: Wait>(
    rt: &R,
    alloc: Global,
    map: &SharedMap,
    pair: Pair,
    batch: &Batch,
    turn: u64,
) -> (Pair, Option<Replies>)
    requires { IsClientOf map.now pair.0 × IsClientOf map.now pair.1 }
    ensures { IsClientOf map.now result.0.0 × IsClientOf map.now result.0.1 }
{
    let (client, mut other) = pair;
    let (client, replies) = do_at_once(alloc, map, client, batch, way_of(turn, batch.is_update()));
    let (mut client, replies) = match replies {
        Some(replies) => (client, Some(replies)),
        None => wait(rt, map, client, batch),
    };
    if turn % MEETING == 0 {
        map.meet(&mut client, &mut other);
    }
    ((other, client), replies)
}

/// All turns of a thread: returns the number of right replies.
fn take_turns<R: Wait>(
    rt: &R,
    alloc: Global,
    map: &SharedMap,
    pair: Pair,
    batches: &[Batch],
    task: Task,
) -> (Pair, u64)
    requires { IsClientOf map.now pair.0 × IsClientOf map.now pair.1 }
    ensures { IsClientOf map.now result.0.0 × IsClientOf map.now result.0.1 }
{
    let mut pair = pair;
    let mut good = 0u64;
    for turn in 0..TURNS {
        let Some(batch) = batches.get(turn as usize % batches.len().max(1)) else {
            return (pair, good);
        };
        let (back, replies) = take_turn(rt, alloc, map, pair, batch, turn);
        pair = back;
        if replies.is_some_and(|replies| is_right(task, &replies)) {
            good = good.saturating_add(1);
        }
    }
    (pair, good)
}

/// The work of a thread after all threads have started. Returns one client, which has taken in the other.
fn work<R: Abort + Wait>(
    rt: &R,
    alloc: Global,
    map: &SharedMap,
    started: &AtomicU64,
    pair: Pair,
) -> (Client, u64)
    requires { IsClientOf map.now pair.0 × IsClientOf map.now pair.1 }
    ensures { IsClientOf map.now result.0 }
{
    let number = pair.0.number() / 2;
    let batches = batches_of(rt, alloc, number);
    await_start(rt, started, THREADS);
    let (pair, good) = take_turns(rt, alloc, map, pair, &batches, task_of(number));
    let (mut first, second) = pair;
    map.take_in(&mut first, second);
    (first, good)
}

/// Returns the clients in pairs.
fn pairs_of(alloc: Global, map: &SharedMap, clients: Vec<Client>) -> Option<Vec<Pair>>
    requires { All (IsClientOf map.now) clients.items }
    ensures { IfSome result (λ pairs. All (λ p. IsClientOf map.now p.0 × IsClientOf map.now p.1) pairs.items) }
{
    let _map = map;
    let mut pairs: Vec<Pair> = Vec::new(alloc);
    let mut first: Option<Client> = None;
    for client in clients {
        first = match first {
            None => Some(client),
            Some(first) => {
                pairs.push((first, client)).ok()?;
                None
            }
        };
    }
    Some(pairs)
}

/// Returns the set of the two tokens at the start.
fn tokens(rt: &impl Abort, alloc: Global) -> Coverage {
    let first = cells(rt, alloc, 0, 1, token_place(0));
    let second = cells(rt, alloc, 0, 1, token_place(1));
    first.set.union(alloc, &second.set).expect(rt, "a union")
}

#[test]
fn eight_threads_on_common_parts_are_answered_as_by_one_set(rt: HostRuntime) {
    let alloc = rt.alloc();
    let start = tokens(&rt, alloc);
    let (map, clients) = SharedMap::new(alloc, start, 2 * THREADS).expect(&rt, "a map");
    let pairs = pairs_of(alloc, &map, clients).expect(&rt, "pairs");
    let started = AtomicU64::new(0);
    let (host, shared, count) = (&rt, &map, &started);
    let ended = thread::map_vec(
        host,
        pairs,
        &|pair: Pair| -> (Client, u64)
            requires { IsClientOf shared.now pair.0 × IsClientOf shared.now pair.1 }
            ensures { IsClientOf shared.entry.now result.0 }
        { work(host, alloc, shared, count, pair) },
    )
    .expect(&rt, "threads");
    let (first, right) = gather(&map, ended).expect(&rt, "a client");
    assert_eq!(rt; right, TURNS * u64::from(THREADS));
    assert_eq!(rt; map.close(first).expect(&rt, "the set").count(), 2 * CELL);
}
