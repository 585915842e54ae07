//! Executing batches on held parts.
ghost use Rattle.std.specs.Prelude.{◌≡◌, ℕ, false, None, [], OnOk, OnErr};
ghost use Rattle.std.specs.List.{list_any};
ghost use Rattle.moc_parts.specs.Commands.{is_update};
ghost use Rattle.moc_shared.specs.Private.Held.{IsExecuted, HoldsFootprint};
ghost use Rattle.moc_shared.specs.Private.Seats.{slot_at, AreWithinOwnParts, IsOfTable};
ghost use Rattle.moc_shared.specs.Private.StepEffects.{with_holds};
ghost use Rattle.moc_shared.specs.Private.Slots.{replies_to, BatchTakesEffect, BatchFailsOutOfMemory};

use crate::calls::footprint::{end_all, give_all};
use crate::calls::lists::{answer, edit};
use crate::table::locks::{LockTable, SeatToken};
use crate::table::slots::{Slots, copy_all, no_slots};
use moc_parts::{Batch, Replies, batches_are_local, queries_leave_the_set};
use moc_ranges::Memory;
use std::alloc::Global;

/// Executes an update on held parts and gives them back. Either the update takes effect, or the map is unchanged.
fn update(
    table: &LockTable,
    alloc: Global,
    seat: &mut SeatToken,
    batch: &Batch,
    slots: &mut Slots,
) -> Result<Replies, Memory>
    requires place { IsOfTable seat.old.table_id table.now.table_id }
    requires held { HoldsFootprint batch.now slots.old seat.old.me }
    ensures same { (seat.new.table_id ≡ seat.old.table_id) × (seat.new.id ≡ seat.old.id) }
    ensures executed { IsExecuted batch.now (λ v w. w ≡ with_holds v []) seat.old.me seat.new.me result }
{
    let mut edited = no_slots();
    match edit(alloc, batch, slots, &mut edited) {
        Ok(replies) => {
            // The two calls only make their contracts available to the proof: a batch has a command, and its footprint
            // is not empty.
            batch.commands();
            batches_are_local();
            end_all(table, seat, batch, slots, &mut edited);
            Ok(replies)
        }
        Err(memory) => {
            give_all(table, seat, slots);
            Err(memory)
        }
    }
}

/// Copies the slots of a query and gives the held parts back unchanged. Either the query takes effect, with the replies
/// that the copies give, or a pointer could not be copied and the query has no effect. Requires empty slots for the
/// copies.
pub(crate) fn observe(
    table: &LockTable,
    seat: &mut SeatToken,
    batch: &Batch,
    slots: &mut Slots,
    copies: &mut Slots,
) -> Result<(), Memory>
    requires place { IsOfTable seat.old.table_id table.now.table_id }
    requires held { HoldsFootprint batch.now slots.old seat.old.me }
    requires query { list_any is_update batch.now ≡ false }
    requires empty_slots { (b : ℕ) → slot_at copies.old b ≡ None }
    ensures same { (seat.new.table_id ≡ seat.old.table_id) × (seat.new.id ≡ seat.old.id) }
    ensures idle { seat.new.me.1 ≡ [] }
    ensures ok { OnOk result
        (BatchTakesEffect batch.now (replies_to copies.new batch.now) [] seat.old.me.0 seat.new.me.0) }
    ensures own { OnOk result (AreWithinOwnParts copies.new) }
    ensures err { OnErr result (seat.new.me.0 ≡ with_holds seat.old.me.0 []) }
{
    match copy_all(slots, copies) {
        Ok(()) => {
            // The three calls only make their contracts available to the proof: the commands are valid, and a query has
            // the same replies on all sets with these parts, and leaves the set unchanged.
            batch.commands();
            batches_are_local();
            queries_leave_the_set();
            end_all(table, seat, batch, copies, slots);
            Ok(())
        }
        Err(memory) => {
            give_all(table, seat, slots);
            Err(memory)
        }
    }
}

/// Executes a query on held parts, gives them back, and returns the replies.
fn query(
    table: &LockTable,
    alloc: Global,
    seat: &mut SeatToken,
    batch: &Batch,
    slots: &mut Slots,
) -> Result<Replies, Memory>
    requires place { IsOfTable seat.old.table_id table.now.table_id }
    requires held { HoldsFootprint batch.now slots.old seat.old.me }
    requires query { list_any is_update batch.now ≡ false }
    ensures same { (seat.new.table_id ≡ seat.old.table_id) × (seat.new.id ≡ seat.old.id) }
    ensures executed { IsExecuted batch.now (BatchFailsOutOfMemory batch.now) seat.old.me seat.new.me result }
{
    let mut copies = no_slots();
    observe(table, seat, batch, slots, &mut copies)?;
    answer(alloc, batch, &copies)
}

/// Executes a batch on held parts, and gives them back.
pub(crate) fn execute_held(
    table: &LockTable,
    alloc: Global,
    seat: &mut SeatToken,
    batch: &Batch,
    slots: &mut Slots,
) -> Result<Replies, Memory>
    requires place { IsOfTable seat.old.table_id table.now.table_id }
    requires held { HoldsFootprint batch.now slots.old seat.old.me }
    ensures same { (seat.new.table_id ≡ seat.old.table_id) × (seat.new.id ≡ seat.old.id) }
    ensures executed { IsExecuted batch.now (BatchFailsOutOfMemory batch.now) seat.old.me seat.new.me result }
{
    if batch.is_update() {
        update(table, alloc, seat, batch, slots)
    } else {
        query(table, alloc, seat, batch, slots)
    }
}
