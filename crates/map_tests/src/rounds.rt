//! Clients of one map on threads, for many rounds: twelve clients, each with its own thread and part, whose calls never
//! fail, because no other client holds the part; and sixteen clients on common parts (`common`).
ghost use Rattle.moc_shared.specs.Clients.{IsClientOf};

mod common;

use crate::shared::{BASE, CELL, changed_pixels, gather, one, set};
use moc_parts::{Batch, Command, Operand};
use moc_ranges::Coverage;
use moc_shared::{Client, SharedMap};
use std::alloc::Global;
use std::process::Abort;
use std::sync::atomic::{AtomicU64, Ordering};
use std::thread;

/// The number of clients, one for each part.
const CLIENTS: u8 = 12;

/// The number of rounds of each client, which adds a cell and removes it.
const ROUNDS: u64 = 10_000;

/// The number of checks whether the other threads have started.
const LOOKS: u64 = 100_000_000;

/// Returns the first cell of order 5 in a base pixel.
fn first_cell(rt: &impl Abort, alloc: Global, base_pixel: u8) -> Operand {
    let from = u64::from(base_pixel % CLIENTS) * BASE;
    Operand::from(set(rt, alloc, &[(from, from + CELL)]))
}

/// Waits until all threads have started. Yields between checks, and gives up after a limit.
fn await_start(rt: &impl Abort, started: &AtomicU64, threads: u8) {
    started.fetch_add(1, Ordering::SeqCst);
    for _ in 0..LOOKS {
        if started.load(Ordering::SeqCst) >= u64::from(threads) {
            return;
        }
        thread::yield_now();
    }
    panic!(rt; "a thread has not started")
}

/// Tests whether the batch was executed at once, and changed exactly one cell.
fn changes_a_cell(map: &SharedMap, client: &mut Client, batch: &Batch) -> bool
    requires { IsClientOf map.now client.old }
    ensures { IsClientOf map.now client.new }
{
    changed_pixels(map.try_apply(client, batch)) == Some(CELL)
}

/// Executes the rounds, and returns the number of calls that changed exactly one cell.
fn make_rounds(map: &SharedMap, client: &mut Client, add: &Batch, remove: &Batch) -> u64
    requires { IsClientOf map.now client.old }
    ensures { IsClientOf map.now client.new }
{
    let mut good = 0u64;
    for _ in 0..ROUNDS {
        let added = changes_a_cell(map, client, add);
        let removed = changes_a_cell(map, client, remove);
        good = good.saturating_add(u64::from(added) + u64::from(removed));
    }
    good
}

/// The work of a thread after all threads have started: returns the number of calls that changed exactly one cell.
fn work(
    rt: &impl Abort,
    alloc: Global,
    map: &SharedMap,
    started: &AtomicU64,
    client: Client,
) -> (Client, u64)
    requires { IsClientOf map.now client }
    ensures { IsClientOf map.now result.0 }
{
    let mut client = client;
    let part = client.number();
    let add = one(rt, alloc, Command::Add(first_cell(rt, alloc, part)));
    let remove = one(rt, alloc, Command::Remove(first_cell(rt, alloc, part)));
    await_start(rt, started, CLIENTS);
    let good = make_rounds(map, &mut client, &add, &remove);
    (client, good)
}

#[test]
fn twelve_clients_on_own_parts_never_fail(rt: HostRuntime) {
    let alloc = rt.alloc();
    let (map, clients) = SharedMap::new(alloc, Coverage::empty(alloc), CLIENTS).expect(
        &rt, "a map",
    );
    let started = AtomicU64::new(0);
    let (host, shared, count) = (&rt, &map, &started);
    let ended = thread::map_vec(
        host,
        clients,
        &|client: Client| -> (Client, u64)
            requires { IsClientOf shared.now client }
            ensures { IsClientOf shared.entry.now result.0 }
        { work(host, alloc, shared, count, client) },
    )
    .expect(&rt, "threads");
    let (first, good) = gather(&map, ended).expect(&rt, "a client");
    assert_eq!(rt; good, 2 * ROUNDS * u64::from(CLIENTS));
    assert_eq!(rt; map.close(first).expect(&rt, "the set").count(), 0);
}
