//! Schedules: lists of steps, and how they are completed.
ghost use Rattle.std.specs.Prelude.{◌≡◌, ◌↔◌, IfOk, IfErr, IfSome, OnOk, OnErr, None, ℕ, true};
ghost use Rattle.std.specs.FinMap as map;
ghost use Rattle.moc_ranges.specs.Operations.{IsWithin, pixels};
ghost use Rattle.moc_parts.specs.Batches.{batches};
ghost use Rattle.moc_steps.specs.Theorems.{reached_world, AreValidSteps, HasOneOrder};
ghost use Rattle.moc_steps.specs.Machine.{refusal, start_world};
ghost use Rattle.moc_steps.specs.Orders.{is_progress};
ghost use Rattle.moc_steps.specs.Played.{step_of, steps_of, IsRefusedAt, LeadsTo};

use crate::error::{ReplayError, StepError};
use crate::step::Step;
use crate::world::World;
use moc_ranges::{Coverage, Memory};
use std::alloc::Global;

/// Executes steps in order from a start set, up to the first refused step.
///
/// # Errors
/// Fails with the index of the refused step and the reason. Fails with `Memory` if an allocation fails: at index 0
/// while the world is created, or at a permitted Begin, Take or Edit.
///
/// # Complexity
/// Linear in the number of steps, in addition to the work of each step.
pub fn replay(alloc: Global, start: &Coverage, steps: &[Step]) -> Result<World, ReplayError>
    ensures leads { IfOk result (λ w. w ≡ reached_world batches start.now (steps_of steps.now)) }
    ensures permitted { OnOk result (AreValidSteps batches start.now (steps_of steps.now)) }

    // The order of the world explains the steps. If no client is midway, the parts are the set that the order leads to.
    ensures explained { OnOk result (HasOneOrder batches start.now (steps_of steps.now)) }
    ensures failure { IfErr result (λ e. IsRefusedAt start.now steps.now e.at e.why) }
{
    let mut world = match start_of(alloc, start) {
        Ok(world) => world,
        Err(_) => {
            return Err(ReplayError {
                at: 0,
                why: StepError::Memory,
            });
        }
    };
    for (at, step) in steps.iter().enumerate() {
        step.prove_local();
        match world.play(step) {
            Ok(()) => {}
            Err(why) => return Err(ReplayError { at, why }),
        }
    }
    Ok(world)
}

/// Creates a world from a copy of a set.
fn start_of(alloc: Global, start: &Coverage) -> Result<World, Memory>
    ensures world { IfOk result (λ w. w ≡ start_world batches start.now) }
    ensures within { IsWithin start.now pixels }
{
    World::new(alloc, start.try_copy(alloc)?)
}

/// Returns a permitted step of a client that is midway, or `None` if and only if no client is midway. The step is never
/// a Begin or a Quit. Allocates nothing.
///
/// If a part is held, the step is one of the client that holds the highest held part. Otherwise it is one of the first
/// client that is midway.
///
/// # Complexity
/// Examines at most twelve parts, and takes O(log n) for n clients that are midway.
pub fn next_step(world: &World) -> Option<Step>
    ensures some { IfSome result (λ s.
        (refusal batches world.now.locks (step_of s) ≡ None) × (is_progress (step_of s) ≡ true)) }
    ensures none { (result ≡ None) ↔ (map.len world.now.locks.clients ≡ 0) }
{
    world.next()
}

/// Executes the steps that `next_step` returns until no client is midway, and returns their number.
///
/// For each client that was midway, there are at most three steps for each part of its footprint and one further step.
///
/// # Errors
/// Fails with `Memory` if an allocation fails; the world then has the state after the last executed step.
///
/// # Complexity
/// Linear in the number of steps, in addition to the work of each step.
pub fn drain(world: &mut World) -> Result<u64, Memory>
    ensures drained { IfOk result (λ n. LeadsTo world.old n world.new) }
    ensures ended { OnOk result (map.len world.new.locks.clients ≡ 0) }
    ensures stopped { OnErr result ((n : ℕ) × LeadsTo world.old n world.new) }
{
    world.prove_reachable();
    let mut steps = 0;
    while let Some(step) = next_step(world) {
        if world.step(step).is_err() {
            return Err(Memory);
        }
        steps += 1;
    }
    Ok(steps)
}
