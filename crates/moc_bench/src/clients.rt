//! Times of works on a shared map, with a number of calls for each thread. The line of a work has its name, the number
//! of calls that changed exactly one cell, the least and the median time, and the number of reads during the median
//! run. Without a number it makes a few calls and prints no times. `bench/README.md` has the measurements.
ghost use Rattle.std.specs.Prelude.{All, IfSome};
ghost use Rattle.moc_shared.specs.Clients.{IsClientOf};

mod figure;
mod threads;

use crate::clients::figure::Figure;
use crate::clients::threads::{CELLS, Job, Plan, cell, changed_a_cell, work};
use anyhow::{Result, bail};
use moc_parts::{Batch, Command, Map};
use moc_ranges::Coverage;
use moc_shared::{Client, SharedMap};
use std::alloc::Global;
use std::marker::Sync;
use std::sync::Wait;
use std::thread::{self, Threads};
use std::time::{Clock, Instant};

/// The number of times that each work is timed.
const REPEATS: u32 = 25;

/// The number of calls if nothing is timed.
const FEW: u64 = 24;

/// The number of separate cells in base pixel 0 if it is read.
const READ_CELLS: u64 = 1000;

/// The work that is timed.
#[derive(Clone, Copy)]
enum Work {
    /// Adds of one cell each to a `Map`.
    Map,
    /// The same adds by the only client of a shared map, with `try_apply`.
    OneClient,
    /// A number of clients of one map, each on its own thread.
    Together(Job, u8),
    /// A number of threads that share nothing: each has its own map with one client.
    Apart(u8),
}

/// Batches that add one cell each, spread over the sky.
fn adds(alloc: Global, calls: u64) -> Result<Vec<Batch>> {
    let apart = CELLS / calls.max(1);
    let mut batches = Vec::new(alloc);
    for index in 0..calls {
        let operand = cell(alloc, index.saturating_mul(apart))?;
        batches.push(Batch::one(alloc, Command::Add(operand))?)?;
    }
    Ok(batches)
}

/// Whether clients read what another one changes.
fn has_readers(work: Work) -> bool {
    match work {
        Work::Together(job, _) => job.has_readers(),
        _ => false,
    }
}

/// The set that a map starts with: separate cells if it is read.
fn start(alloc: Global, work: Work) -> Result<Coverage> {
    let mut set = Coverage::empty(alloc);
    if has_readers(work) {
        for index in 0..READ_CELLS {
            set = set.union(alloc, &cell(alloc, 2 * index + 100)?.set)?;
        }
    }
    Ok(set)
}

/// The adds to a `Map`.
fn on_a_map<R: Clock>(rt: &R, alloc: Global, calls: u64) -> Result<Figure> {
    let mut map = Map::new(alloc, Coverage::empty(alloc))?;
    let batches = adds(alloc, calls)?;
    let start = Instant::now(rt)?;
    let mut good = 0u64;
    for batch in &batches {
        good = good.saturating_add(u64::from(changed_a_cell(&map.apply(alloc, batch)?)));
    }
    Figure::since(rt, &start, good)
}

/// Removes and returns the last client.
fn next(map: &SharedMap, clients: &mut Vec<Client>) -> Option<Client>
    requires { All (IsClientOf map.now) clients.old.items }
    ensures { IfSome result (IsClientOf map.now) }
{
    let _map = map;
    match clients.pop() {
        Some(client) => Some(client),
        None => None,
    }
}

/// The adds by one client of a shared map.
fn by_one_client<R: Clock>(rt: &R, alloc: Global, calls: u64) -> Result<Figure> {
    let (map, mut clients) = SharedMap::new(alloc, Coverage::empty(alloc), 1)?;
    let Some(mut client) = next(&map, &mut clients) else {
        bail!("a client")
    };
    let batches = adds(alloc, calls)?;
    let start = Instant::now(rt)?;
    let mut good = 0u64;
    for batch in &batches {
        let replies = map.try_apply(&mut client, batch)?;
        good = good.saturating_add(u64::from(changed_a_cell(&replies)));
    }
    Figure::since(rt, &start, good)
}

/// The work of clients of one map, each on its own thread.
fn by_threads<R: Threads + Wait + Clock + Sync>(
    rt: &R,
    alloc: Global,
    start: Coverage,
    job: Job,
    threads: u8,
    rounds: u64,
) -> Result<Figure> {
    let (map, clients) = SharedMap::new(alloc, start, threads)?;
    let plan = Plan::new(job, threads, rounds);
    let (map, plan) = (&map, &plan);
    let ended = thread::map_vec(
        rt,
        clients,
        &|client: Client| -> Figure
            requires { IsClientOf map.now client }
        { work(rt, alloc, map, plan, client) },
    )?;
    Ok(Figure::of_all(ended))
}

/// The work of a thread on its own map. No call counts if an allocation fails.
fn work_alone<R: Wait + Clock>(rt: &R, alloc: Global, plan: &Plan) -> Figure {
    let Ok((map, mut clients)) = SharedMap::new(alloc, Coverage::empty(alloc), 1) else {
        return Figure::nothing();
    };
    match next(&map, &mut clients) {
        Some(client) => work(rt, alloc, &map, plan, client),
        None => Figure::nothing(),
    }
}

/// The work of threads that share nothing.
fn by_threads_apart<R: Threads + Wait + Clock + Sync>(
    rt: &R,
    alloc: Global,
    threads: u8,
    rounds: u64,
) -> Result<Figure> {
    let mut numbers = Vec::new(alloc);
    for number in 0..threads {
        numbers.push(number)?;
    }
    let plan = Plan::new(Job::OwnParts, threads, rounds);
    let plan = &plan;
    let ended = thread::map_vec(
        rt,
        numbers,
        &|_: u8| -> Figure { work_alone(rt, alloc, plan) },
    )?;
    Ok(Figure::of_all(ended))
}

/// Runs the work once, and returns its result.
fn once<R: Threads + Wait + Clock + Sync>(
    rt: &R,
    alloc: Global,
    work: Work,
    calls: u64,
) -> Result<Figure> {
    match work {
        Work::Map => on_a_map(rt, alloc, calls),
        Work::OneClient => by_one_client(rt, alloc, calls),
        Work::Together(job, threads) => {
            by_threads(rt, alloc, start(alloc, work)?, job, threads, calls / 2)
        }
        Work::Apart(threads) => by_threads_apart(rt, alloc, threads, calls / 2),
    }
}

/// The works by name.
const WORKS: [(&str, Work); 17] = [
    ("a map", Work::Map),
    ("one client", Work::OneClient),
    ("1 thread", Work::Together(Job::OwnParts, 1)),
    (
        "2 threads on parts of their own",
        Work::Together(Job::OwnParts, 2),
    ),
    (
        "3 threads on parts of their own",
        Work::Together(Job::OwnParts, 3),
    ),
    (
        "4 threads on parts of their own",
        Work::Together(Job::OwnParts, 4),
    ),
    ("2 threads on maps of their own", Work::Apart(2)),
    ("3 threads on maps of their own", Work::Apart(3)),
    ("4 threads on maps of their own", Work::Apart(4)),
    ("12 threads on one part", Work::Together(Job::OnePart, 12)),
    ("a writer", Work::Together(Job::Readers, 1)),
    ("a writer beside 1 reader", Work::Together(Job::Readers, 2)),
    ("a writer beside 3 readers", Work::Together(Job::Readers, 4)),
    (
        "a writer beside 1 reader that makes texts",
        Work::Together(Job::Printers, 2),
    ),
    (
        "a writer beside 3 readers that make texts",
        Work::Together(Job::Printers, 4),
    ),
    (
        "a writer beside 1 that takes its part",
        Work::Together(Job::Takers, 2),
    ),
    (
        "a writer beside 3 that take its part",
        Work::Together(Job::Takers, 4),
    ),
];

/// Times each work in turn, so that the load of the machine falls on all alike, and returns the results.
fn in_turns<R: Threads + Wait + Clock + Sync>(
    rt: &R,
    alloc: Global,
    calls: u64,
    repeats: u32,
) -> Result<Vec<Vec<Figure>>> {
    let mut rows = Vec::new(alloc);
    for _ in WORKS {
        rows.push(Vec::new(alloc))?;
    }
    for _ in 0..repeats {
        for (row, (_, work)) in rows.iter_mut().zip(WORKS) {
            row.push(once(rt, alloc, work, calls)?)?;
        }
    }
    Ok(rows)
}

/// Prints the line of a work.
fn print_row(rt: &impl Print, name: &str, row: &mut Vec<Figure>) -> Result<()> {
    row.sort_unstable();
    let least = row.first().copied().unwrap_or(Figure::nothing());
    let median = row.get(row.len() / 2).copied().unwrap_or(least);
    if row.len() > 1 {
        println!(rt;
            "{name}: {} good, least {} us, median {} us beside {} readings",
            median.good, least.micros, median.micros, median.reads
        )?;
    } else {
        println!(rt; "{name}: {} good", median.good)?;
    }
    Ok(())
}

/// Runs each work and prints its line: with this number of calls for each thread, timed, or once with a few calls.
pub fn run<R: Threads + Wait + Clock + Print + Sync>(
    rt: &R,
    alloc: Global,
    calls: Option<u64>,
) -> Result<()> {
    let (calls, repeats) = match calls {
        Some(calls) => (calls, REPEATS),
        None => (FEW, 1),
    };
    let mut rows = in_turns(rt, alloc, calls, repeats)?;
    for (row, (name, _)) in rows.iter_mut().zip(WORKS) {
        print_row(rt, name, row)?;
    }
    Ok(())
}
