//! Executing one command on the single part in its footprint, without a batch.
ghost use Rattle.std.specs.Prelude.{◌≡◌, [], ◌∷◌, IfOk, IfSome, OnOk, OnErr};
ghost use Rattle.std.specs.Arc.{arc_value};
ghost use Rattle.moc_parts.specs.Commands.{reply_on, set_after, IsPlain, NeedsOnly};
ghost use Rattle.moc_shared.specs.Private.Seats.{IsOfTable};
ghost use Rattle.moc_shared.specs.Private.Held.{HoldsOnly};
ghost use Rattle.moc_shared.specs.Private.StepEffects.{with_holds};
ghost use Rattle.moc_shared.specs.Private.Slots.{BatchTakesEffect};

use crate::table::locks::{LockTable, Pointer, SeatToken};
use crate::table::slots::share;
use crate::table::steps::{end_single, give_part};
use moc_parts::{Command, Part, PartCommand, Reply, batches_are_local};
use moc_ranges::Memory;
use std::alloc::Global;
use std::marker::Brand;
use std::sync::Arc;

/// Returns the single part of a command that is executed on this part alone, without a batch. `Read` and counts of
/// several ranges are executed as a batch, because their replies are computed after the part is given back.
pub(crate) fn single_part(command: &Command) -> Option<Part>
    ensures { IfSome result (λ b. NeedsOnly command.now b) }
{
    match command {
        Command::Read(_) => None,
        Command::Count(x) if x.set.range_count() > 1 => None,
        _ => command.single_part(),
    }
}

/// Executes a command on the set of a pointer. The list is changed in place if the pointer is its only owner.
fn execute_on<C: PartCommand>(
    alloc: Global,
    command: &C,
    pointer: &mut Pointer,
) -> Result<Reply, Memory>
    requires { IsPlain (C.command command.now) }
    ensures set { OnOk result (arc_value pointer.new ≡ set_after (arc_value pointer.old) (C.command command.now)) }
    ensures reply { IfOk result (λ r. r ≡ reply_on (arc_value pointer.old) (C.command command.now)) }
    ensures unchanged { OnErr result (arc_value pointer.new ≡ arc_value pointer.old) }
{
    if !command.is_update() {
        return command.query_on(alloc, pointer);
    }
    match Arc::get_mut(pointer) {
        Some(list) => command.execute_on(alloc, list),
        None => execute_on_copy(alloc, command, pointer),
    }
}

/// Executes a command on a copy of the list, and replaces the pointer, unless the list is unchanged. Makes no copy if
/// the list already has all pixels of an `Add`. The function is separate, because each call initializes the stack of a
/// whole function.
#[inline(never)]
fn execute_on_copy<C: PartCommand>(
    alloc: Global,
    command: &C,
    pointer: &mut Pointer,
) -> Result<Reply, Memory>
    requires { IsPlain (C.command command.now) }
    ensures set { OnOk result (arc_value pointer.new ≡ set_after (arc_value pointer.old) (C.command command.now)) }
    ensures reply { IfOk result (λ r. r ≡ reply_on (arc_value pointer.old) (C.command command.now)) }
    ensures unchanged { OnErr result (arc_value pointer.new ≡ arc_value pointer.old) }
{
    if command.adds_nothing(pointer) {
        return Ok(Reply::Changed(0));
    }
    let mut list = pointer.try_copy(alloc)?;
    let reply = command.execute_on(alloc, &mut list)?;
    if !reply.is_no_change() {
        *pointer = share(alloc, list)?;
    }
    Ok(reply)
}

/// Executes a command on its held part, and gives the part back. Either the command takes effect, or the map is
/// unchanged.
pub(crate) fn execute_single<C: PartCommand>(
    table: &LockTable,
    alloc: Global,
    seat: &mut SeatToken,
    part: Part,
    pointer: Pointer,
    command: &C,
) -> Result<Reply, Memory>
    requires place { IsOfTable seat.old.table_id table.now.table_id }
    requires held { HoldsOnly part (arc_value pointer) seat.old.me }
    requires single { NeedsOnly (C.command command.now) part }
    ensures same { (seat.new.table_id ≡ seat.old.table_id) × (seat.new.id ≡ seat.old.id) }
    ensures idle { seat.new.me.1 ≡ [] }
    ensures ok { IfOk result (λ r.
        BatchTakesEffect (C.command command.now ∷ []) (r ∷ []) [] seat.old.me.0 seat.new.me.0) }
    ensures err { OnErr result (seat.new.me.0 ≡ with_holds seat.old.me.0 []) }
{
    let mut pointer = pointer;
    match execute_on(alloc, command, &mut pointer) {
        Ok(reply) => {
            // The call makes the theorem of locality available to the proof: the reply is the same on all sets with
            // this part.
            batches_are_local();
            end_single::<Brand, C>(table, seat, part, pointer, command, &reply);
            Ok(reply)
        }
        Err(memory) => {
            give_part(table, seat, part, pointer);
            Err(memory)
        }
    }
}
