//! Schedules that were worked out by hand.
ghost use Rattle.std.specs.Prelude.{◌<◌, ◌≤◌, IfOk};
ghost use Rattle.map_tests.specs.Worlds.{IsMadeInOrder};

use crate::shown::{is_debugged, is_shown};
use moc_parts::{Batch, Command, Operand, Part, Replies};
use moc_ranges::Coverage;
use moc_steps::{
    CoverError, Entry, ReplayError, Step, StepError, World, drain, next_step, replay,
    steps_have_one_order,
};
use std::alloc::Global;
use std::process::Abort;

/// The number of pixels of a base pixel: 4^29.
const BASE: u64 = 288230376151711744;

/// Returns the operand of the base pixels from `from` up to, not including, `to`.
fn base_pixels(rt: &impl Abort, alloc: Global, from: u64, to: u64) -> Operand
    requires from { from ≤ 12 }
    requires to { to ≤ 12 }
{
    let set = Coverage::from_ranges(alloc, &[(from * BASE, to * BASE)]);
    Operand::from(set.expect(rt, "ranges"))
}

/// Returns the step in which a client begins a batch of one command.
fn begin(rt: &impl Abort, alloc: Global, client: u32, command: Command) -> Step {
    let batch = Batch::one(alloc, command).expect(rt, "a batch");
    Step::Begin { client, batch }
}

/// Returns a world that starts empty.
fn empty_world(rt: &impl Abort, alloc: Global) -> World {
    World::new(alloc, Coverage::empty(alloc)).expect(rt, "a world")
}

fn take(client: u32) -> Step {
    Step::Take { client }
}

fn edit(client: u32, b: u8) -> Step
    requires { b < 12 }
{
    Step::Edit {
        client,
        part: Part::of(b),
    }
}

fn give(client: u32, b: u8) -> Step
    requires { b < 12 }
{
    Step::Give {
        client,
        part: Part::of(b),
    }
}

/// Executes a permitted step without a reply.
fn go(rt: &impl Abort, world: &mut World, step: Step) {
    assert!(rt; world.permits(&step).is_ok());
    let reply = world.step(step).expect(rt, "permitted");
    assert!(rt; reply.is_none());
}

/// Ends a client's operation, and returns the number of changed or counted pixels.
fn end(rt: &impl Abort, world: &mut World, client: u32) -> Option<u64> {
    let replies = world.step(Step::End { client }).expect(rt, "permitted");
    pixels(replies.as_ref())
}

/// Checks the error of a step.
fn fails_with(rt: &impl Abort, world: &mut World, step: Step, why: StepError) {
    let permission_error = world.permits(&step).err();
    assert_eq!(rt; world.step(step).err(), permission_error);
    assert_eq!(rt; permission_error, Some(why));
}

/// Returns the number of pixels in the first reply.
fn pixels(replies: Option<&Replies>) -> Option<u64> {
    replies?.first()?.pixels()
}

/// Tests whether the operations have this order.
fn stand(world: &World, begins: &[u64]) -> bool {
    let order = world.order();
    order.len() == begins.len()
        && order
            .iter()
            .zip(begins)
            .all(|(entry, begin)| entry.begin == *begin)
}

/// Returns the number of pixels that the last operation of the order changed or counted.
fn last_pixels(world: &World) -> Option<u64> {
    pixels(world.order().last()?.reply.as_ref())
}

/// Returns the set of a world without an active client.
fn set_of(rt: &impl Abort, world: &World) -> Coverage {
    world.coverage().expect(rt, "nobody is midway")
}

/// Returns the number of active clients, which leave a world without a set.
fn active_count(world: &World) -> Option<usize> {
    match world.coverage().err()? {
        CoverError::Midway { n } => Some(n),
        CoverError::Memory => None,
    }
}

/// Returns the world after some steps.
fn world_after(rt: &impl Abort, alloc: Global, start: &Coverage, steps: &[Step]) -> World {
    replay(alloc, start, steps).expect(rt, "permitted")
}

/// Returns the world after the eighth line of the first worked schedule: a count waits for an add that has given one
/// part back.
fn world_before_overtaking(rt: &impl Abort, alloc: Global) -> World {
    let mut world = empty_world(rt, alloc);
    go(
        rt,
        &mut world,
        begin(rt, alloc, 1, Command::Add(base_pixels(rt, alloc, 0, 2))),
    );
    go(
        rt,
        &mut world,
        begin(rt, alloc, 2, Command::Count(base_pixels(rt, alloc, 0, 2))),
    );
    go(rt, &mut world, take(1));
    go(rt, &mut world, take(1));
    go(rt, &mut world, edit(1, 0));
    go(rt, &mut world, give(1, 0));
    go(rt, &mut world, take(2));
    let part = Part::of(1);
    fails_with(rt, &mut world, take(2), StepError::PartHeld { part, by: 1 });
    world
}

#[test]
fn a_count_waits_for_an_add(rt: HostRuntime) {
    let mut world = world_before_overtaking(&rt, rt.alloc());
    assert_eq!(rt; world.part(Part::of(0)).count(), BASE);
    assert!(rt; world.part(Part::of(1)).is_empty());
    assert_eq!(rt; active_count(&world), Some(2));
    go(&rt, &mut world, edit(1, 1));
    go(&rt, &mut world, give(1, 1));
    go(&rt, &mut world, take(2));
    assert_eq!(rt; end(&rt, &mut world, 1), Some(2 * BASE));
    go(&rt, &mut world, edit(2, 0));
    go(&rt, &mut world, edit(2, 1));
    go(&rt, &mut world, give(2, 0));
    go(&rt, &mut world, give(2, 1));
    assert_eq!(rt; end(&rt, &mut world, 2), Some(2 * BASE));
    assert!(rt; stand(&world, &[0, 1]));
    assert_eq!(rt; set_of(&rt, &world).count(), 2 * BASE);
    assert_eq!(rt; world.midway(), 0);
}

#[test]
fn a_world_is_debugged_by_its_operations(rt: HostRuntime) {
    let mut world = world_before_overtaking(&rt, rt.alloc());
    assert_eq!(rt; drain(&mut world).expect(&rt, "drained"), 9);
    go(&rt, &mut world, begin(&rt, rt.alloc(), 1, Command::Invert));
    let text = "World { begun: 3, midway: 1 }";
    is_debugged(&rt, rt.alloc(), &world, text);
}

/// The set of a world: the result of its operations, executed one by one in its order.
fn set_in_order(world: &World) -> Result<Coverage, CoverError>
    ensures { IfOk result (λ a. IsMadeInOrder world.now a) }
{
    world.prove_reachable();
    steps_have_one_order();
    world.coverage()
}

#[test]
fn a_world_is_drained(rt: HostRuntime) {
    let mut world = world_before_overtaking(&rt, rt.alloc());
    assert!(rt; next_step(&world).is_some());
    assert_eq!(rt; drain(&mut world).expect(&rt, "drained"), 9);
    assert_eq!(rt; world.midway(), 0);
    assert!(rt; next_step(&world).is_none());
    assert!(rt; stand(&world, &[0, 1]));
    assert_eq!(rt; last_pixels(&world), Some(2 * BASE));
    assert_eq!(rt;
        set_in_order(&world).expect(&rt, "nobody is midway").count(),
        2 * BASE
    );
    assert_eq!(rt; drain(&mut world).expect(&rt, "drained"), 0);
}

#[test]
fn errors_of_steps(rt: HostRuntime) {
    let alloc = rt.alloc();
    let mut world = empty_world(&rt, alloc);
    fails_with(&rt, &mut world, take(7), StepError::Idle);
    go(&rt, &mut world, begin(&rt, alloc, 7, Command::Invert));
    let again = begin(&rt, alloc, 7, Command::Invert);
    fails_with(&rt, &mut world, again, StepError::NotIdle);
    fails_with(&rt, &mut world, edit(7, 0), StepError::NotAllTaken);
    fails_with(&rt, &mut world, give(7, 0), StepError::NotHeld);
    fails_with(
        &rt,
        &mut world,
        Step::End { client: 7 },
        StepError::NothingDone,
    );
    go(&rt, &mut world, take(7));
    fails_with(
        &rt,
        &mut world,
        Step::End { client: 7 },
        StepError::StillHolding,
    );
    fails_with(&rt, &mut world, give(7, 0), StepError::NotEdited);
    go(&rt, &mut world, Step::Quit { client: 7 });
    fails_with(&rt, &mut world, take(7), StepError::Quitting);
    go(&rt, &mut world, give(7, 0));
    go(&rt, &mut world, Step::End { client: 7 });
    assert!(rt; world.order().is_empty());
    assert!(rt; set_of(&rt, &world).is_empty());
}

#[test]
fn a_client_that_has_edited(rt: HostRuntime) {
    let alloc = rt.alloc();
    let mut world = empty_world(&rt, alloc);
    let read = Command::Read(base_pixels(&rt, alloc, 0, 1));
    go(&rt, &mut world, begin(&rt, alloc, 2, read));
    go(&rt, &mut world, take(2));
    fails_with(&rt, &mut world, take(2), StepError::AllTaken);
    go(&rt, &mut world, edit(2, 0));
    fails_with(&rt, &mut world, edit(2, 0), StepError::AlreadyEdited);
    fails_with(
        &rt,
        &mut world,
        Step::Quit { client: 2 },
        StepError::BegunEditing,
    );
}

/// A count that begins before an add and edits after it.
fn an_add_goes_first(rt: &impl Abort, alloc: Global) -> Vec<Step> {
    let count = Command::Count(base_pixels(rt, alloc, 0, 1));
    let add = Command::Add(base_pixels(rt, alloc, 0, 1));
    let steps = vec![in alloc;
        begin(rt, alloc, 1, count),
        begin(rt, alloc, 2, add),
        take(2),
        edit(2, 0),
        give(2, 0),
        take(1),
        edit(1, 0),
        give(1, 0),
        Step::End { client: 1 },
        Step::End { client: 2 },
    ];
    steps.expect(rt, "steps")
}

#[test]
fn the_order_is_by_first_edit(rt: HostRuntime) {
    let alloc = rt.alloc();
    let steps = an_add_goes_first(&rt, alloc);
    let world = world_after(&rt, alloc, &Coverage::empty(alloc), &steps);
    assert!(rt; stand(&world, &[1, 0]));
    assert_eq!(rt; last_pixels(&world), Some(BASE));
}

/// An add that takes once too often.
fn a_take_too_many(rt: &impl Abort, alloc: Global) -> Vec<Step> {
    let add = Command::Add(base_pixels(rt, alloc, 0, 1));
    let steps = vec![in alloc;
        begin(rt, alloc, 1, add),
        take(1),
        edit(1, 0),
        give(1, 0),
        take(1),
    ];
    steps.expect(rt, "steps")
}

/// A take before any client has begun.
fn a_take_too_early(rt: &impl Abort, alloc: Global) -> Vec<Step> {
    vec![in alloc; take(1)].expect(rt, "a step")
}

/// Returns the index and the error of the first step that fails.
fn first_failing_step(alloc: Global, steps: &[Step]) -> Option<(usize, StepError)> {
    let refusal = replay(alloc, &Coverage::empty(alloc), steps).err()?;
    Some((refusal.at, refusal.why))
}

#[test]
fn lists_that_fail(rt: HostRuntime) {
    let alloc = rt.alloc();
    let early = a_take_too_early(&rt, alloc);
    assert!(rt; first_failing_step(alloc, &early) == Some((0, StepError::Idle)));
    let many = a_take_too_many(&rt, alloc);
    assert!(rt; first_failing_step(alloc, &many) == Some((4, StepError::AllTaken)));
}

#[test]
fn the_steps_before_a_failing_one(rt: HostRuntime) {
    let alloc = rt.alloc();
    let many = a_take_too_many(&rt, alloc);
    assert_eq!(rt; many.len(), 5);
    let world = world_after(&rt, alloc, &Coverage::empty(alloc), &many[..3]);
    assert_eq!(rt; active_count(&world), Some(1));
}

#[test]
fn nothing_is_done_by_no_steps(rt: HostRuntime) {
    let alloc = rt.alloc();
    let start = Coverage::full(alloc).expect(&rt, "memory");
    let world = world_after(&rt, alloc, &start, &[]);
    assert!(rt; world.order().is_empty());
    assert!(rt; set_of(&rt, &world).same(&start));
}

#[test]
fn texts_of_errors(rt: HostRuntime) {
    let part = Part::of(3);
    for (error, text) in [
        (StepError::NotIdle, "the client is not idle"),
        (StepError::Idle, "the client is idle"),
        (
            StepError::PartHeld { part, by: 7 },
            "the part is held by client 7",
        ),
        (StepError::AllTaken, "all parts are taken"),
        (StepError::NotAllTaken, "not all parts are taken"),
        (StepError::NotHeld, "the part is not held"),
        (StepError::AlreadyEdited, "the part is edited"),
        (StepError::NotEdited, "the part is not edited"),
        (StepError::BegunEditing, "the client has begun to edit"),
        (StepError::StillHolding, "the client holds a part"),
        (StepError::NothingDone, "the client has taken nothing"),
        (StepError::Quitting, "the client quits"),
        (StepError::Memory, "out of memory"),
        (StepError::TooMany, "too many operations"),
    ] {
        is_shown(&rt, rt.alloc(), &error, text);
    }
}

#[test]
fn texts_of_step_errors(rt: HostRuntime) {
    let alloc = rt.alloc();
    is_shown(
        &rt,
        alloc,
        &CoverError::Midway { n: 2 },
        "2 clients are midway",
    );
    is_shown(&rt, alloc, &CoverError::Memory, "out of memory");
    let why = StepError::AllTaken;
    let refusal = ReplayError { at: 4, why };
    is_shown(
        &rt,
        alloc,
        &refusal,
        "step 4 is refused: all parts are taken",
    );
}
