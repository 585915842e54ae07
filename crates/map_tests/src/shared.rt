//! Replies to the clients of one map.
ghost use Rattle.std.specs.Prelude.{◌<◌, ◌≤◌, All, IfSome};
ghost use Rattle.moc_shared.specs.Clients.{IsClientOf, IsHoldingOf};

use crate::shown::is_shown;
use moc_parts::{Batch, CellAction, CellCommand, Command, Operand, Part, Replies, Reply};
use moc_ranges::Coverage;
use moc_shared::{
    Busy, Client, CloseError, Holding, LookError, NewError, SharedMap, Snapshot, SnapshotError,
    TryError,
};
use moc_sphere::{Cell, Order};
use std::alloc::Global;
use std::marker::Sync;
use std::process::Abort;
use std::sync::Wait;
use std::sync::atomic::{AtomicBool, Ordering};
use std::thread::{self, Threads};

/// The number of pixels of a base pixel: 4^29.
pub const BASE: u64 = 288230376151711744;

/// The number of pixels of a cell of order 5: 4^24.
pub const CELL: u64 = 281474976710656;

/// Returns the union of these ranges.
pub fn set(rt: &impl Abort, alloc: Global, pairs: &[(u64, u64)]) -> Coverage {
    Coverage::from_ranges(alloc, pairs).expect(rt, "ranges")
}

/// Returns the operand of the base pixels from `from` up to, not including, `to`.
fn base(rt: &impl Abort, alloc: Global, from: u64, to: u64) -> Operand
    requires { (from ≤ 12) × (to ≤ 12) }
{
    Operand::from(set(rt, alloc, &[(from * BASE, to * BASE)]))
}

/// Returns the batch of one command.
pub fn one(rt: &impl Abort, alloc: Global, command: Command) -> Batch {
    Batch::one(alloc, command).expect(rt, "a batch")
}

/// Removes and returns the last client.
fn next(rt: &impl Abort, map: &SharedMap, clients: &mut Vec<Client>) -> Client
    requires { All (IsClientOf map.now) clients.old.items }
    ensures left { All (IsClientOf map.now) clients.new.items }
    ensures next { IsClientOf map.now result }
{
    let _map = map;
    clients.pop().expect(rt, "a client")
}

/// Returns a map with two clients.
fn two(rt: &impl Abort, alloc: Global, start: Coverage) -> (SharedMap, Client, Client)
    ensures { IsClientOf result.0 result.1 × IsClientOf result.0 result.2 }
{
    let (map, mut clients) = SharedMap::new(alloc, start, 2).expect(rt, "a map");
    let b = next(rt, &map, &mut clients);
    let a = next(rt, &map, &mut clients);
    (map, a, b)
}

/// Checks the number of pixels that a batch of one command changes.
fn changes(
    rt: &impl Abort,
    alloc: Global,
    map: &SharedMap,
    client: &mut Client,
    command: Command,
    pixels: u64,
)
    requires { IsClientOf map.now client.old }
    ensures { IsClientOf map.now client.new }
{
    let batch = one(rt, alloc, command);
    assert_eq!(rt; changed_pixels(map.try_apply(client, &batch)), Some(pixels));
}

/// Checks the number of pixels that a batch of one `count` returns.
fn counts(
    rt: &impl Abort,
    alloc: Global,
    map: &SharedMap,
    client: &mut Client,
    counted: Operand,
    pixels: u64,
)
    requires { IsClientOf map.now client.old }
    ensures { IsClientOf map.now client.new }
{
    let batch = one(rt, alloc, Command::Count(counted));
    assert_eq!(rt; total(map.try_apply(client, &batch)), Some(pixels));
}

/// Closes a map through its last client, and checks its set.
fn ends_as(rt: &impl Abort, alloc: Global, map: SharedMap, client: Client, pairs: &[(u64, u64)])
    requires { IsClientOf map client }
{
    let end = map.close(client).expect(rt, "the set");
    assert!(rt; end.same(&set(rt, alloc, pairs)));
}

/// Returns the number of changed pixels.
pub fn changed_pixels(done: Result<Replies, TryError>) -> Option<u64> {
    match done.ok()?.first() {
        Some(Reply::Changed(pixels)) => Some(*pixels),
        _ => None,
    }
}

/// Returns the number of counted pixels.
fn total(done: Result<Replies, TryError>) -> Option<u64> {
    match done.ok()?.first() {
        Some(Reply::Total(pixels)) => Some(*pixels),
        _ => None,
    }
}

/// Checks which part a batch of one `count` finds held, and by which client.
fn finds_held(
    rt: &impl Abort,
    alloc: Global,
    map: &SharedMap,
    client: &mut Client,
    counted: Operand,
    found: (u8, u8),
)
    requires { IsClientOf map.now client.old }
    ensures { IsClientOf map.now client.new }
{
    let batch = one(rt, alloc, Command::Count(counted));
    let Err(TryError::Busy(busy)) = map.try_apply(client, &batch) else {
        panic!(rt; "no part is held")
    };
    assert_eq!(rt; (busy.part.get(), busy.holder), found);
}

/// Returns the holding of a client whose batch of one command takes all its parts.
fn hold(
    rt: &impl Abort,
    alloc: Global,
    map: &SharedMap,
    client: Client,
    command: Command,
) -> Holding
    requires { IsClientOf map.now client }
    ensures { IsHoldingOf map.now result }
{
    match map.hold(client, one(rt, alloc, command)) {
        Ok(holding) => holding,
        Err(_) => panic!(rt; "a part is held"),
    }
}

/// Runs the calls of other clients while one client holds a batch, which then changes this number of pixels.
fn finish_after(rt: &impl Abort, map: &SharedMap, holding: Holding, pixels: u64) -> Client
    requires { IsHoldingOf map.now holding }
    ensures { IsClientOf map.now result }
{
    let (client, done) = map.finish(holding);
    let replies = done.expect(rt, "replies");
    assert_eq!(rt; changed_pixels(Ok(replies)), Some(pixels));
    client
}

#[test]
fn a_held_part_is_busy_and_the_others_are_not(rt: HostRuntime) {
    let alloc = rt.alloc();
    let (map, mut clients) = SharedMap::new(alloc, Coverage::empty(alloc), 3).expect(&rt, "a map");
    let mut c2 = next(&rt, &map, &mut clients);
    let mut c1 = next(&rt, &map, &mut clients);
    let c0 = next(&rt, &map, &mut clients);
    let three = Command::Add(base(&rt, alloc, 3, 4));
    let holding = hold(&rt, alloc, &map, c0, three);
    let five = Command::Add(base(&rt, alloc, 5, 6));
    changes(&rt, alloc, &map, &mut c1, five, BASE);
    finds_held(&rt, alloc, &map, &mut c1, base(&rt, alloc, 2, 4), (3, 0));
    let two = Command::Add(base(&rt, alloc, 2, 3));
    changes(&rt, alloc, &map, &mut c2, two, BASE);
    let c0 = finish_after(&rt, &map, holding, BASE);
    let pairs = [(2 * BASE, 4 * BASE), (5 * BASE, 6 * BASE)];
    let all = Operand::from(set(&rt, alloc, &pairs));
    counts(&rt, alloc, &map, &mut c1, all, 3 * BASE);
    ends_as(&rt, alloc, map, c0, &pairs);
}

/// Returns the number of pixels of base pixel 4 that are taken when a batch claims it; `None` if the claim succeeds.
fn taken_pixels(rt: &impl Abort, alloc: Global, map: &SharedMap, client: &mut Client) -> Option<u64>
    requires { IsClientOf map.now client.old }
    ensures { IsClientOf map.now client.new }
{
    let claim = one(rt, alloc, Command::Claim(base(rt, alloc, 4, 5)));
    let answer = map.try_apply(client, &claim).expect(rt, "an answer");
    match answer.first() {
        Some(Reply::Claimed) => None,
        Some(Reply::Taken(pixels)) => Some(*pixels),
        _ => panic!(rt; "another reply"),
    }
}

#[test]
fn two_clients_meet_and_one_takes_in_the_other(rt: HostRuntime) {
    let alloc = rt.alloc();
    let (map, mut a, mut b) = two(&rt, alloc, Coverage::empty(alloc));
    assert_eq!(rt; taken_pixels(&rt, alloc, &map, &mut a), None);
    assert_eq!(rt; taken_pixels(&rt, alloc, &map, &mut b), Some(BASE));
    map.meet(&mut a, &mut b);
    let nothing = Command::Add(base(&rt, alloc, 0, 0));
    changes(&rt, alloc, &map, &mut b, nothing, 0);
    map.take_in(&mut a, b);
    ends_as(&rt, alloc, map, a, &[(4 * BASE, 5 * BASE)]);
}

/// Returns the part at which closing a map fails while a client holds a batch. The holding is abandoned afterwards.
fn close_while_held(map: SharedMap, a: Client, b: Client, batch: Batch) -> Option<u8>
    requires { IsClientOf map a × IsClientOf map b }
{
    let holding = map.hold(a, batch).ok()?;
    let closed = map.close(b);
    holding.abandon();
    match closed.err()? {
        CloseError::Midway { part } => Some(part.get()),
        CloseError::Memory => None,
    }
}

#[test]
fn a_part_that_stays_held_is_midway(rt: HostRuntime) {
    let alloc = rt.alloc();
    let (map, a, mut b) = two(&rt, alloc, set(&rt, alloc, &[(7 * BASE, 8 * BASE)]));
    counts(&rt, alloc, &map, &mut b, base(&rt, alloc, 6, 8), BASE);
    let add = one(&rt, alloc, Command::Add(base(&rt, alloc, 3, 4)));
    assert_eq!(rt; close_while_held(map, a, b, add), Some(3));
}

#[test]
fn the_first_part_that_stays_held_is_midway(rt: HostRuntime) {
    let alloc = rt.alloc();
    let (map, a, b) = two(&rt, alloc, Coverage::empty(alloc));
    let parts = set(&rt, alloc, &[(5 * BASE, 6 * BASE), (9 * BASE, 10 * BASE)]);
    let add = one(&rt, alloc, Command::Add(Operand::from(parts)));
    assert_eq!(rt; close_while_held(map, a, b, add), Some(5));
}

/// Returns the error of a look.
fn look_error(looked: Result<Snapshot, LookError>) -> Option<LookError> {
    looked.err()
}

/// Returns a snapshot of a set.
fn snapshot_of(
    rt: &impl Abort,
    alloc: Global,
    map: &SharedMap,
    client: &mut Client,
    read: Operand,
) -> Snapshot
    requires { IsClientOf map.now client.old }
    ensures { IsClientOf map.now client.new }
{
    let read = one(rt, alloc, Command::Read(read));
    map.look(client, &read).expect(rt, "a snapshot")
}

#[test]
fn a_snapshot_answers_what_was_there(rt: HostRuntime) {
    let alloc = rt.alloc();
    let (map, mut a, mut b) = two(&rt, alloc, Coverage::empty(alloc));
    let add = Command::Add(base(&rt, alloc, 3, 4));
    changes(&rt, alloc, &map, &mut b, add, BASE);
    let both = set(&rt, alloc, &[(3 * BASE, 4 * BASE), (5 * BASE, 6 * BASE)]);
    let snapshot = snapshot_of(&rt, alloc, &map, &mut a, Operand::from(both));
    let remove = Command::Remove(base(&rt, alloc, 3, 4));
    changes(&rt, alloc, &map, &mut b, remove, BASE);
    for _ in 0..2 {
        answers(&rt, alloc, &snapshot, &[(3 * BASE, 4 * BASE)]);
    }
    counts(&rt, alloc, &map, &mut a, base(&rt, alloc, 3, 4), 0);
    ends_as(&rt, alloc, map, a, &[]);
}

#[test]
fn a_held_query_ends_as_a_snapshot(rt: HostRuntime) {
    let alloc = rt.alloc();
    let (map, a, mut b) = two(&rt, alloc, set(&rt, alloc, &[(3 * BASE, 4 * BASE)]));
    let read = Command::Read(base(&rt, alloc, 2, 5));
    let holding = hold(&rt, alloc, &map, a, read);
    finds_held(&rt, alloc, &map, &mut b, base(&rt, alloc, 4, 5), (4, 0));
    let (a, snapshot) = match map.snapshot(holding) {
        Ok(ended) => ended,
        Err(SnapshotError::NotQuery(holding)) => {
            holding.abandon();
            panic!(&rt; "not a query")
        }
        Err(SnapshotError::Memory(_)) => panic!(&rt; "no memory"),
    };
    let remove = Command::Remove(base(&rt, alloc, 3, 4));
    changes(&rt, alloc, &map, &mut b, remove, BASE);
    answers(&rt, alloc, &snapshot, &[(3 * BASE, 4 * BASE)]);
    ends_as(&rt, alloc, map, a, &[]);
}

#[test]
fn a_held_update_has_no_snapshot(rt: HostRuntime) {
    let alloc = rt.alloc();
    let (map, a, _) = two(&rt, alloc, Coverage::empty(alloc));
    let holding = hold(&rt, alloc, &map, a, Command::Add(base(&rt, alloc, 3, 4)));
    let holding = match map.snapshot(holding) {
        Err(SnapshotError::NotQuery(holding)) => holding,
        Ok(_) | Err(SnapshotError::Memory(_)) => panic!(&rt; "no error of an update"),
    };
    let a = finish_after(&rt, &map, holding, BASE);
    ends_as(&rt, alloc, map, a, &[(3 * BASE, 4 * BASE)]);
}

#[test]
fn a_look_is_of_queries(rt: HostRuntime) {
    let alloc = rt.alloc();
    let (map, mut a, _) = two(&rt, alloc, Coverage::empty(alloc));
    let five = one(&rt, alloc, Command::Add(base(&rt, alloc, 5, 6)));
    assert_eq!(rt;
        look_error(map.look(&mut a, &five)),
        Some(LookError::NotQuery)
    );
    ends_as(&rt, alloc, map, a, &[]);
}

/// Checks that a snapshot replies with these ranges.
fn answers(rt: &impl Abort, alloc: Global, snapshot: &Snapshot, pairs: &[(u64, u64)]) {
    let replies = snapshot.answer(alloc).expect(rt, "an answer");
    let Some(Reply::Cover(cover)) = replies.first() else {
        panic!(rt; "a cover")
    };
    assert!(rt; cover.same(&set(rt, alloc, pairs)));
}

/// Checks the number of pixels that a single command changes.
fn changes_alone<R: Abort + Wait>(
    rt: &R,
    map: &SharedMap,
    client: &mut Client,
    command: Command,
    pixels: u64,
)
    requires { IsClientOf map.now client.old }
    ensures { IsClientOf map.now client.new }
{
    let Ok(Reply::Changed(changed)) = map.answer(rt, client, command) else {
        panic!(rt; "another answer")
    };
    assert_eq!(rt; changed, pixels);
}

/// Checks the number of pixels that a single command counts.
fn counts_alone<R: Abort + Wait>(
    rt: &R,
    map: &SharedMap,
    client: &mut Client,
    counted: Operand,
    pixels: u64,
)
    requires { IsClientOf map.now client.old }
    ensures { IsClientOf map.now client.new }
{
    let Ok(Reply::Total(total)) = map.answer(rt, client, Command::Count(counted)) else {
        panic!(rt; "another answer")
    };
    assert_eq!(rt; total, pixels);
}

/// The first cells of order 5 of base pixel 3, at most two.
fn cells_of_3(rt: &impl Abort, alloc: Global, count: u64) -> Operand
    requires { count ≤ 2 }
{
    Operand::from(set(rt, alloc, &[(3 * BASE, 3 * BASE + count * CELL)]))
}

#[test]
fn single_commands(rt: HostRuntime) {
    let alloc = rt.alloc();
    let (map, mut a, mut b) = two(&rt, alloc, Coverage::empty(alloc));
    let three = Command::Add(base(&rt, alloc, 3, 4));
    changes_alone(&rt, &map, &mut a, three, BASE);
    let snapshot = snapshot_of(&rt, alloc, &map, &mut b, base(&rt, alloc, 3, 6));
    // More than what is there already, in two parts, and in a new one.
    let more = Command::Add(base(&rt, alloc, 3, 5));
    changes_alone(&rt, &map, &mut b, more, BASE);
    let six = Operand::from(set(&rt, alloc, &[(6 * BASE, 6 * BASE + CELL)]));
    changes_alone(&rt, &map, &mut a, Command::Add(six), CELL);
    let taken_pixels = Command::Remove(cells_of_3(&rt, alloc, 1));
    changes_alone(&rt, &map, &mut a, taken_pixels, CELL);
    let again = Command::Add(cells_of_3(&rt, alloc, 2));
    changes_alone(&rt, &map, &mut b, again, CELL);
    // Of one range in one part, and across parts.
    counts_alone(&rt, &map, &mut a, base(&rt, alloc, 6, 7), CELL);
    counts_alone(&rt, &map, &mut b, base(&rt, alloc, 0, 12), 2 * BASE + CELL);
    answers(&rt, alloc, &snapshot, &[(3 * BASE, 4 * BASE)]);
    map.take_in(&mut a, b);
    ends_as(
        &rt,
        alloc,
        map,
        a,
        &[(3 * BASE, 5 * BASE), (6 * BASE, 6 * BASE + CELL)],
    );
}

/// Checks the reply to a command that is tried once.
fn tries(rt: &impl Abort, map: &SharedMap, client: &mut Client, command: &Command, reply: &Reply)
    requires { IsClientOf map.now client.old }
    ensures { IsClientOf map.now client.new }
{
    let tried = map.try_answer(client, command).expect(rt, "a reply");
    assert!(rt; tried == *reply);
}

#[test]
fn single_commands_that_do_not_wait(rt: HostRuntime) {
    let alloc = rt.alloc();
    let (map, mut a, _) = two(&rt, alloc, Coverage::empty(alloc));
    let claim = Command::Claim(base(&rt, alloc, 3, 4));
    tries(&rt, &map, &mut a, &claim, &Reply::Claimed);
    tries(&rt, &map, &mut a, &claim, &Reply::Taken(BASE));
    let remove = Command::Remove(cells_of_3(&rt, alloc, 1));
    tries(&rt, &map, &mut a, &remove, &Reply::Changed(CELL));
    let add = Command::Add(cells_of_3(&rt, alloc, 2));
    tries(&rt, &map, &mut a, &add, &Reply::Changed(CELL));
    let count = Command::Count(base(&rt, alloc, 3, 4));
    tries(&rt, &map, &mut a, &count, &Reply::Total(BASE));
    // A command that needs a batch.
    let count = Command::Count(base(&rt, alloc, 2, 12));
    tries(&rt, &map, &mut a, &count, &Reply::Total(BASE));
    tries(
        &rt,
        &map,
        &mut a,
        &Command::Invert,
        &Reply::Changed(12 * BASE),
    );
    ends_as(&rt, alloc, map, a, &[(0, 3 * BASE), (4 * BASE, 12 * BASE)]);
}

#[test]
fn a_tried_command_finds_a_held_part(rt: HostRuntime) {
    let alloc = rt.alloc();
    let (map, a, mut b) = two(&rt, alloc, Coverage::empty(alloc));
    let number = a.number();
    let holding = hold(&rt, alloc, &map, a, Command::Add(base(&rt, alloc, 3, 5)));
    let busy = Some(TryError::Busy(Busy {
        part: Part::of(4),
        holder: number,
    }));
    let count = Command::Count(base(&rt, alloc, 4, 5));
    assert_eq!(rt; map.try_answer(&mut b, &count).err(), busy);
    let keep = Command::Keep(base(&rt, alloc, 4, 5));
    let first = map.try_answer(&mut b, &keep).err();
    assert_eq!(rt;
        first,
        Some(TryError::Busy(Busy {
            part: Part::of(3),
            holder: number
        }))
    );
    let a = finish_after(&rt, &map, holding, 2 * BASE);
    tries(&rt, &map, &mut b, &count, &Reply::Total(BASE));
    ends_as(&rt, alloc, map, a, &[(3 * BASE, 5 * BASE)]);
}

#[test]
fn one_command_changes_no_snapshot(rt: HostRuntime) {
    let alloc = rt.alloc();
    let most = [(3 * BASE, 4 * BASE - CELL)];
    let (map, mut a, _) = two(&rt, alloc, set(&rt, alloc, &most));
    let snapshot = snapshot_of(&rt, alloc, &map, &mut a, base(&rt, alloc, 3, 4));
    let rest = Operand::from(set(&rt, alloc, &[(4 * BASE - 2 * CELL, 4 * BASE)]));
    changes_alone(&rt, &map, &mut a, Command::Add(rest), CELL);
    answers(&rt, alloc, &snapshot, &most);
    counts_alone(&rt, &map, &mut a, base(&rt, alloc, 3, 4), BASE);
}

/// Returns a command on a cell.
fn on_cell(rt: &impl Abort, action: CellAction, order: u8, index: u64) -> CellCommand {
    let order = Order::new(order).expect(rt, "an order");
    let cell = Cell::new(order, index).expect(rt, "a cell");
    CellCommand { action, cell }
}

/// Returns the command on the set of a cell.
fn on_set_of_cell(rt: &impl Abort, alloc: Global, command: &CellCommand) -> Command {
    let pixels = Coverage::from_cell(alloc, command.cell).expect(rt, "memory");
    let operand = Operand::from(pixels);
    match command.action {
        CellAction::Add => Command::Add(operand),
        CellAction::Remove => Command::Remove(operand),
        CellAction::Claim => Command::Claim(operand),
        CellAction::Count => Command::Count(operand),
    }
}

/// Checks the reply to a command on a cell that is tried once.
fn tries_cell(
    rt: &impl Abort,
    map: &SharedMap,
    client: &mut Client,
    command: &CellCommand,
    reply: &Reply,
)
    requires { IsClientOf map.now client.old }
    ensures { IsClientOf map.now client.new }
{
    let tried = map.try_answer_cell(client, command).expect(rt, "a reply");
    assert!(rt; tried == *reply);
}

/// Checks the reply to a command on a cell by a call that may wait.
fn answers_cell<R: Abort + Wait>(
    rt: &R,
    map: &SharedMap,
    client: &mut Client,
    command: CellCommand,
    reply: Reply,
)
    requires { IsClientOf map.now client.old }
    ensures { IsClientOf map.now client.new }
{
    let answer = map.answer_cell(rt, client, &command).expect(rt, "memory");
    assert!(rt; answer == reply);
}

#[test]
fn commands_on_one_cell_that_may_wait(rt: HostRuntime) {
    let alloc = rt.alloc();
    let (map, mut a, _) = two(&rt, alloc, Coverage::empty(alloc));
    let add = on_cell(&rt, CellAction::Add, 5, 3072);
    answers_cell(&rt, &map, &mut a, add, Reply::Changed(CELL));
    let claim = on_cell(&rt, CellAction::Claim, 5, 3072);
    answers_cell(&rt, &map, &mut a, claim, Reply::Taken(CELL));
    let claim = on_cell(&rt, CellAction::Claim, 5, 3073);
    answers_cell(&rt, &map, &mut a, claim, Reply::Claimed);
    let remove = on_cell(&rt, CellAction::Remove, 5, 3072);
    answers_cell(&rt, &map, &mut a, remove, Reply::Changed(CELL));
    let count = on_cell(&rt, CellAction::Count, 4, 768);
    answers_cell(&rt, &map, &mut a, count, Reply::Total(CELL));
}

/// Checks that a map replies to a command on a cell as another map with the same set replies to the command on the set
/// of the cell.
fn both_reply(
    rt: &impl Abort,
    alloc: Global,
    map: &SharedMap,
    client: &mut Client,
    other: &SharedMap,
    other_client: &mut Client,
    command: CellCommand,
    reply: Reply,
)
    requires { IsClientOf map.now client.old × IsClientOf other.now other_client.old }
    ensures { IsClientOf map.now client.new × IsClientOf other.now other_client.new }
{
    tries_cell(rt, map, client, &command, &reply);
    let on_set = on_set_of_cell(rt, alloc, &command);
    tries(rt, other, other_client, &on_set, &reply);
}

// Base pixel 3 begins with the cells 5/3072 to 5/3075, which are the cell 4/768.
#[test]
fn commands_on_one_cell(rt: HostRuntime) {
    let alloc = rt.alloc();
    let (map, mut a, _) = two(&rt, alloc, Coverage::empty(alloc));
    let (other, mut b, _) = two(&rt, alloc, Coverage::empty(alloc));
    let command = on_cell(&rt, CellAction::Add, 5, 3072);
    both_reply(
        &rt,
        alloc,
        &map,
        &mut a,
        &other,
        &mut b,
        command,
        Reply::Changed(CELL),
    );
    let command = on_cell(&rt, CellAction::Add, 5, 3072);
    both_reply(
        &rt,
        alloc,
        &map,
        &mut a,
        &other,
        &mut b,
        command,
        Reply::Changed(0),
    );
    let command = on_cell(&rt, CellAction::Count, 0, 3);
    both_reply(
        &rt,
        alloc,
        &map,
        &mut a,
        &other,
        &mut b,
        command,
        Reply::Total(CELL),
    );
    let command = on_cell(&rt, CellAction::Claim, 5, 3072);
    both_reply(
        &rt,
        alloc,
        &map,
        &mut a,
        &other,
        &mut b,
        command,
        Reply::Taken(CELL),
    );
    let command = on_cell(&rt, CellAction::Claim, 5, 3073);
    both_reply(
        &rt,
        alloc,
        &map,
        &mut a,
        &other,
        &mut b,
        command,
        Reply::Claimed,
    );
    let command = on_cell(&rt, CellAction::Count, 4, 768);
    both_reply(
        &rt,
        alloc,
        &map,
        &mut a,
        &other,
        &mut b,
        command,
        Reply::Total(2 * CELL),
    );
    let command = on_cell(&rt, CellAction::Claim, 0, 3);
    both_reply(
        &rt,
        alloc,
        &map,
        &mut a,
        &other,
        &mut b,
        command,
        Reply::Taken(2 * CELL),
    );
    let command = on_cell(&rt, CellAction::Add, 4, 768);
    both_reply(
        &rt,
        alloc,
        &map,
        &mut a,
        &other,
        &mut b,
        command,
        Reply::Changed(2 * CELL),
    );
    let command = on_cell(&rt, CellAction::Remove, 5, 3074);
    both_reply(
        &rt,
        alloc,
        &map,
        &mut a,
        &other,
        &mut b,
        command,
        Reply::Changed(CELL),
    );
    let command = on_cell(&rt, CellAction::Remove, 5, 3074);
    both_reply(
        &rt,
        alloc,
        &map,
        &mut a,
        &other,
        &mut b,
        command,
        Reply::Changed(0),
    );
    let command = on_cell(&rt, CellAction::Remove, 0, 11);
    both_reply(
        &rt,
        alloc,
        &map,
        &mut a,
        &other,
        &mut b,
        command,
        Reply::Changed(0),
    );
    let command = on_cell(&rt, CellAction::Count, 29, 12 * BASE - 1);
    both_reply(
        &rt,
        alloc,
        &map,
        &mut a,
        &other,
        &mut b,
        command,
        Reply::Total(0),
    );
    let command = on_cell(&rt, CellAction::Add, 29, 12 * BASE - 1);
    both_reply(
        &rt,
        alloc,
        &map,
        &mut a,
        &other,
        &mut b,
        command,
        Reply::Changed(1),
    );
    let command = on_cell(&rt, CellAction::Count, 29, 12 * BASE - 1);
    both_reply(
        &rt,
        alloc,
        &map,
        &mut a,
        &other,
        &mut b,
        command,
        Reply::Total(1),
    );
    let pairs = [
        (3 * BASE, 3 * BASE + 2 * CELL),
        (3 * BASE + 3 * CELL, 3 * BASE + 4 * CELL),
        (12 * BASE - 1, 12 * BASE),
    ];
    ends_as(&rt, alloc, map, a, &pairs);
    ends_as(&rt, alloc, other, b, &pairs);
}

/// Returns the error of a command that finds a part held.
fn busy_at(part: u8, holder: u8) -> Option<TryError>
    requires { part < 12 }
{
    Some(TryError::Busy(Busy {
        part: Part::of(part),
        holder,
    }))
}

#[test]
fn a_command_on_a_cell_finds_a_held_part(rt: HostRuntime) {
    let alloc = rt.alloc();
    let (map, a, mut b) = two(&rt, alloc, Coverage::empty(alloc));
    let number = a.number();
    let holding = hold(&rt, alloc, &map, a, Command::Add(base(&rt, alloc, 3, 5)));
    let count = on_cell(&rt, CellAction::Count, 1, 19);
    assert_eq!(rt;
        map.try_answer_cell(&mut b, &count).err(),
        busy_at(4, number)
    );
    let add = on_cell(&rt, CellAction::Add, 29, 3 * BASE);
    assert_eq!(rt; map.try_answer_cell(&mut b, &add).err(), busy_at(3, number));
    let free = on_cell(&rt, CellAction::Add, 29, 5 * BASE);
    tries_cell(&rt, &map, &mut b, &free, &Reply::Changed(1));
    let a = finish_after(&rt, &map, holding, 2 * BASE);
    tries_cell(&rt, &map, &mut b, &count, &Reply::Total(BASE / 4));
    tries_cell(&rt, &map, &mut b, &add, &Reply::Changed(0));
    let pairs = [(3 * BASE, 5 * BASE), (5 * BASE, 5 * BASE + 1)];
    ends_as(&rt, alloc, map, a, &pairs);
}

// A snapshot shares the list of base pixel 3, which has all cells of order 5 except the last one, 5/4095.
#[test]
fn commands_on_a_cell_change_no_snapshot(rt: HostRuntime) {
    let alloc = rt.alloc();
    let most = [(3 * BASE, 4 * BASE - CELL)];
    let (map, mut a, _) = two(&rt, alloc, set(&rt, alloc, &most));
    let snapshot = snapshot_of(&rt, alloc, &map, &mut a, base(&rt, alloc, 3, 4));
    let add = on_cell(&rt, CellAction::Add, 5, 3072);
    tries_cell(&rt, &map, &mut a, &add, &Reply::Changed(0));
    let claim = on_cell(&rt, CellAction::Claim, 0, 3);
    tries_cell(&rt, &map, &mut a, &claim, &Reply::Taken(BASE - CELL));
    let count = on_cell(&rt, CellAction::Count, 0, 3);
    tries_cell(&rt, &map, &mut a, &count, &Reply::Total(BASE - CELL));
    answers(&rt, alloc, &snapshot, &most);
    let add = on_cell(&rt, CellAction::Add, 0, 3);
    tries_cell(&rt, &map, &mut a, &add, &Reply::Changed(CELL));
    tries_cell(&rt, &map, &mut a, &count, &Reply::Total(BASE));
    answers(&rt, alloc, &snapshot, &most);
    ends_as(&rt, alloc, map, a, &[(3 * BASE, 4 * BASE)]);
}

#[test]
fn a_removal_or_claim_of_a_cell_changes_no_snapshot(rt: HostRuntime) {
    let alloc = rt.alloc();
    let most = [(3 * BASE, 4 * BASE - CELL)];
    let (map, mut a, _) = two(&rt, alloc, set(&rt, alloc, &most));
    let snapshot = snapshot_of(&rt, alloc, &map, &mut a, base(&rt, alloc, 3, 4));
    let claim = on_cell(&rt, CellAction::Claim, 5, 4095);
    tries_cell(&rt, &map, &mut a, &claim, &Reply::Claimed);
    answers(&rt, alloc, &snapshot, &most);
    let whole = snapshot_of(&rt, alloc, &map, &mut a, base(&rt, alloc, 3, 4));
    let remove = on_cell(&rt, CellAction::Remove, 5, 3072);
    tries_cell(&rt, &map, &mut a, &remove, &Reply::Changed(CELL));
    answers(&rt, alloc, &whole, &[(3 * BASE, 4 * BASE)]);
    answers(&rt, alloc, &snapshot, &most);
    ends_as(&rt, alloc, map, a, &[(3 * BASE + CELL, 4 * BASE)]);
}

/// Returns the number of clients of a map that is created with this number.
fn client_count(alloc: Global, clients: u8) -> Option<usize> {
    match SharedMap::new(alloc, Coverage::empty(alloc), clients) {
        Ok((_, all)) => Some(all.len()),
        Err(_) => None,
    }
}

#[test]
fn a_map_has_1_to_64_clients(rt: HostRuntime) {
    let alloc = rt.alloc();
    assert_eq!(rt; client_count(alloc, 0), None);
    assert_eq!(rt; client_count(alloc, 1), Some(1));
    assert_eq!(rt; client_count(alloc, 64), Some(64));
    assert_eq!(rt; client_count(alloc, 65), None);
    assert_eq!(rt; client_count(alloc, 255), None);
}

/// Returns the batch that adds one cell of order 5.
fn add_cell(alloc: Global, index: u64) -> Option<Batch> {
    let from = (index % 12288) * CELL;
    let set = Coverage::from_ranges(alloc, &[(from, from + CELL)]).ok()?;
    Batch::one(alloc, Command::Add(Operand { set, coarse: None })).ok()
}

/// Executes a batch, and retries while one of its parts is held, at most a hundred million times; returns the number of
/// changed pixels.
fn apply_with_retries(map: &SharedMap, client: &mut Client, batch: &Batch) -> Option<u64>
    requires { IsClientOf map.now client.old }
    ensures { IsClientOf map.now client.new }
{
    for _ in 0u64..100_000_000 {
        let done = changed_pixels(map.try_apply(client, batch));
        if done.is_some() {
            return done;
        }
        thread::yield_now();
    }
    None
}

/// Adds a hundred cells, and returns how many of them changed the map by exactly one cell.
fn add_cells(alloc: Global, map: &SharedMap, client: Client) -> (Client, u64)
    requires { IsClientOf map.now client }
    ensures { IsClientOf map.now result.0 }
{
    let mut client = client;
    let mut good = 0u64;
    let number = u64::from(client.number());
    for j in 0u64..100 {
        if let Some(add) = add_cell(alloc, (100 * number + j) * 15) {
            if apply_with_retries(map, &mut client, &add) == Some(CELL) {
                good = good.saturating_add(1);
            }
        }
    }
    (client, good)
}

/// Returns the first client, which has taken in the others, and how many calls succeeded.
pub fn gather(map: &SharedMap, ended: Vec<(Client, u64)>) -> Option<(Client, u64)>
    requires { All (λ e. IsClientOf map.now e.0) ended.items }
    ensures { IfSome result (λ r. IsClientOf map.now r.0) }
{
    let mut all: Option<(Client, u64)> = None;
    for (client, good) in ended {
        all = match all {
            None => Some((client, good)),
            Some((first, sum)) => {
                let mut first = first;
                map.take_in(&mut first, client);
                Some((first, sum.saturating_add(good)))
            }
        };
    }
    all
}

#[test]
fn eight_clients_add_in_threads(rt: HostRuntime) {
    let alloc = rt.alloc();
    let (map, clients) = SharedMap::new(alloc, Coverage::empty(alloc), 8).expect(&rt, "a map");
    let shared = &map;
    let ended = thread::map_vec(
        &rt,
        clients,
        &|client: Client| -> (Client, u64)
            requires { IsClientOf shared.now client }
            ensures { IsClientOf shared.entry.now result.0 }
        { add_cells(alloc, shared, client) },
    )
    .expect(&rt, "threads");
    let (first, good) = gather(&map, ended).expect(&rt, "a client");
    assert_eq!(rt; good, 800);
    assert_eq!(rt;
        map.close(first).expect(&rt, "the set").count(),
        225179981368524800
    );
}

/// Adds and removes a set a thousand times, and waits for its parts.
fn come_and_go<R: Wait>(
    rt: &R,
    map: &SharedMap,
    client: Client,
    add: &Batch,
    remove: &Batch,
) -> (Client, bool)
    requires { IsClientOf map.now client }
    ensures { IsClientOf map.now result.0 }
{
    let mut client = client;
    for _ in 0u64..1000 {
        if map.apply(rt, &mut client, add).is_err() || map.apply(rt, &mut client, remove).is_err() {
            return (client, false);
        }
    }
    (client, true)
}

/// Counts a thousand times, and waits for the parts: the result is 0, or a whole base pixel.
fn count_often<R: Wait>(rt: &R, map: &SharedMap, client: Client, count: &Batch) -> (Client, bool)
    requires { IsClientOf map.now client }
    ensures { IsClientOf map.now result.0 }
{
    let mut client = client;
    for _ in 0u64..1000 {
        match map.apply(rt, &mut client, count) {
            Ok(replies) => {
                if !matches!(replies.first(), Some(Reply::Total(0 | BASE))) {
                    return (client, false);
                }
            }
            Err(_) => return (client, false),
        }
    }
    (client, true)
}

#[test]
fn clients_wait_for_a_part(rt: HostRuntime) {
    let alloc = rt.alloc();
    let (map, a, b) = two(&rt, alloc, Coverage::empty(alloc));
    let add = one(&rt, alloc, Command::Add(base(&rt, alloc, 3, 4)));
    let remove = one(&rt, alloc, Command::Remove(base(&rt, alloc, 3, 4)));
    let count = one(&rt, alloc, Command::Count(base(&rt, alloc, 2, 5)));
    let host = &rt;
    let shared = &map;
    let (add, remove, count) = (&add, &remove, &count);
    let ((a, x), (_, y)) = thread::join(
        host,
        move || -> (Client, bool)
            requires { IsClientOf shared.now a }
            ensures { IsClientOf shared.entry.now result.0 }
        { come_and_go(host, shared, a, add, remove) },
        move || -> (Client, bool)
            requires { IsClientOf shared.now b }
            ensures { IsClientOf shared.entry.now result.0 }
        { count_often(host, shared, b, count) },
    );
    assert!(rt; x && y);
    assert!(rt; map.close(a).expect(&rt, "the set").is_empty());
}

/// Lets other threads run for longer than a waiting client yields before it sleeps.
fn let_others_run() {
    for _ in 0u32..20_000 {
        thread::yield_now();
    }
}

/// Takes the parts of a batch, and later gives them back: unchanged, or by executing the batch. Sets `held` once the
/// parts are taken. Returns whether all calls succeeded.
fn hold_for_a_while(
    map: &SharedMap,
    client: Client,
    batch: Batch,
    held: &AtomicBool,
    executed: bool,
) -> (Client, bool)
    requires { IsClientOf map.now client }
    ensures { IsClientOf map.now result.0 }
{
    let result = map.hold(client, batch);
    held.store(true, Ordering::SeqCst);
    match result {
        Ok(holding) => {
            let_others_run();
            if executed {
                let (client, done) = map.finish(holding);
                (client, done.is_ok())
            } else {
                (map.let_go(holding), true)
            }
        }
        Err((client, _, _)) => (client, false),
    }
}

/// Executes a batch once another client holds its parts, and waits for them. Returns the number of changed pixels.
fn apply_while_held<R: Wait>(
    rt: &R,
    map: &SharedMap,
    client: Client,
    batch: &Batch,
    held: &AtomicBool,
) -> (Client, Option<u64>)
    requires { IsClientOf map.now client }
    ensures { IsClientOf map.now result.0 }
{
    for _ in 0u64..100_000_000 {
        if held.load(Ordering::SeqCst) {
            break;
        }
        thread::yield_now();
    }
    let mut client = client;
    let pixels = match map.apply(rt, &mut client, batch) {
        Ok(replies) => replies.first().and_then(|reply| reply.pixels()),
        Err(_) => None,
    };
    (client, pixels)
}

/// Returns the number of pixels that a client adds to parts 2 and 3 after it slept, and whether the calls of the other
/// client, which held part 3 meanwhile, succeeded.
fn added_after_sleep(
    rt: &(impl Abort + Threads + Wait + Sync),
    alloc: Global,
    executed: bool,
) -> (Option<u64>, bool) {
    let (map, a, b) = two(rt, alloc, Coverage::empty(alloc));
    let add = one(rt, alloc, Command::Add(base(rt, alloc, 2, 4)));
    let three = one(rt, alloc, Command::Add(base(rt, alloc, 3, 4)));
    let held = AtomicBool::new(false);
    let shared = &map;
    let (add, flag) = (&add, &held);
    let ((_, succeeded), (_, pixels)) = thread::join(
        rt,
        move || -> (Client, bool)
            requires { IsClientOf shared.now a }
            ensures { IsClientOf shared.entry.now result.0 }
        { hold_for_a_while(shared, a, three, flag, executed) },
        move || -> (Client, Option<u64>)
            requires { IsClientOf shared.now b }
            ensures { IsClientOf shared.entry.now result.0 }
        { apply_while_held(rt, shared, b, add, flag) },
    );
    (pixels, succeeded)
}

#[test]
fn a_client_sleeps_while_a_part_is_held(rt: HostRuntime) {
    let alloc = rt.alloc();
    assert!(rt; added_after_sleep(&rt, alloc, false) == (Some(2 * BASE), true));
    assert!(rt; added_after_sleep(&rt, alloc, true) == (Some(BASE), true));
}

#[test]
fn texts_of_errors(rt: HostRuntime) {
    let alloc = rt.alloc();
    is_shown(&rt, alloc, &NewError::BadCount, "a map has 1 to 64 clients");
    is_shown(&rt, alloc, &NewError::Memory, "out of memory");
    let part = Part::of(3);
    let busy = Busy { part, holder: 7 };
    is_shown(&rt, alloc, &busy, "client 7 holds the part");
    let busy = TryError::Busy(busy);
    is_shown(&rt, alloc, &busy, "another client holds a part");
    is_shown(&rt, alloc, &TryError::Memory, "out of memory");
    is_shown(&rt, alloc, &CloseError::Midway { part }, "a part is held");
    is_shown(&rt, alloc, &CloseError::Memory, "out of memory");
}
