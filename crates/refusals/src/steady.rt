//! Calls of the step machine and of a shared map that do not allocate, each as often as there are rounds.
//!
//! Clients and batches are created first, as many for any number of rounds, so that no allocation depends on that
//! number.

ghost use Rattle.std.specs.Prelude.{All, IfOk};
ghost use Rattle.moc_shared.specs.Clients.{IsClientOf};

use crate::calls::next;
use anyhow::{Result, bail};
use moc_parts::{Batch, Command};
use moc_ranges::Coverage;
use moc_shared::{Client, SharedMap};
use moc_steps::{Step, World, next_step};
use std::alloc::Global;
use std::io::Print;

/// The number of clients of the map: one more than the largest number of rounds.
const CLIENTS: u8 = 31;

/// A world in which a client has taken all parts of an inversion but the last.
fn taking(alloc: Global) -> Result<World> {
    let mut world = World::new(alloc, Coverage::empty(alloc))?;
    let batch = Batch::one(alloc, Command::Invert)?;
    world.step(Step::Begin { client: 1, batch })?;
    for _ in 0..11 {
        world.step(Step::Take { client: 1 })?;
    }
    Ok(world)
}

/// Asks whether steps are permitted, and which is next; returns whether every reply is right.
fn ask(world: &World) -> bool {
    let take = world.permits(&Step::Take { client: 1 });
    let end = world.permits(&Step::End { client: 1 });
    let idle = world.permits(&Step::Quit { client: 2 });
    take.is_ok() && end.is_err() && idle.is_err() && next_step(world).is_some()
}

/// Takes the parts of a batch, and lets them go.
fn hold(map: &SharedMap, client: Client, batch: Batch) -> Result<Client>
    requires { IsClientOf map.now client }
    ensures { IfOk result (λ c. IsClientOf map.now c) }
{
    match map.hold(client, batch) {
        Ok(holding) => Ok(map.let_go(holding)),
        Err(_) => bail!("a part is held"),
    }
}

/// One round of a client: it holds a batch, meets the first client, and is taken in by it.
fn go_round(map: &SharedMap, first: &mut Client, client: Client, batch: Batch) -> Result<()>
    requires { IsClientOf map.now first.old × IsClientOf map.now client }
    ensures { IsClientOf map.now first.new }
{
    let mut client = hold(map, client, batch)?;
    map.meet(first, &mut client);
    map.take_in(first, client);
    Ok(())
}

/// The batches of all rounds.
fn batches(alloc: Global) -> Result<Vec<Batch>> {
    let mut batches = Vec::new(alloc);
    for _ in 0..CLIENTS {
        batches.push(Batch::one(alloc, Command::Invert)?)?;
    }
    Ok(batches)
}

/// Executes the rounds of the last clients, as many as requested; the first client takes them in.
fn go_rounds(
    map: &SharedMap,
    first: &mut Client,
    clients: &mut Vec<Client>,
    batches: &mut Vec<Batch>,
    rounds: usize,
) -> Result<()>
    requires first { IsClientOf map.now first.old }
    requires all { All (IsClientOf map.now) clients.old.items }
{
    for _ in 0..rounds {
        match (next(map, clients), batches.pop()) {
            (Some(client), Some(batch)) => go_round(map, first, client, batch)?,
            _ => bail!("too many rounds"),
        }
    }
    Ok(())
}

/// Executes this number of rounds, at most 30.
pub fn report(rt: &impl Print, alloc: Global, rounds: usize) -> Result<()> {
    let world = taking(alloc)?;
    for _ in 0..rounds {
        if !ask(&world) {
            bail!("another answer")
        }
    }
    let mut batches = batches(alloc)?;
    let (map, mut clients) = SharedMap::new(alloc, Coverage::empty(alloc), CLIENTS)?;
    let Some(mut first) = next(&map, &mut clients) else {
        bail!("no client")
    };
    go_rounds(&map, &mut first, &mut clients, &mut batches, rounds)?;
    println!(rt; "steady")?;
    Ok(())
}
