//! Taking all parts of a footprint in ascending order, and giving them back in descending order.
ghost use Rattle.std.specs.Prelude.{◌≡◌, ℕ, suc, ◌<◌, ◌≤◌, [], None, IfOk, IfErr, is_some, true};
ghost use Rattle.moc_shared.specs.Private.Held.{HoldsAll};
ghost use Rattle.moc_shared.specs.Private.Invariant.{IsSingleClient};
ghost use Rattle.moc_shared.specs.Private.Seats.{IsCarried, notes_below, slot_at};
ghost use Rattle.moc_shared.specs.Private.Seats.{AreWithinOwnParts, IsFootprint, IsOfTable};
ghost use Rattle.moc_shared.specs.Private.StepEffects.{with_parts, with_holds};
ghost use Rattle.moc_shared.specs.Private.Slots.{replies_to, Edits, BatchTakesEffect, MissesTaking};

use crate::errors::Busy;
use crate::table::locks::{LockTable, SeatToken};
use crate::table::slots::{Slots, end_of, highest, no_slots, put_at, take_at};
use crate::table::steps::{end_call, give_part, take_slot};
use moc_parts::{Batch, Part};
use std::alloc::Global;
use std::marker::Brand;

/// Gives back all held parts with these pointers. Requires that no pointer is at index `end` or above.
fn give_below(table: &LockTable, seat: &mut SeatToken, end: u8, slots: &mut Slots)
    requires place { IsOfTable seat.old.table_id table.now.table_id }
    requires held { HoldsAll slots.old seat.old.me }
    requires end { (end ≤ 12) × ((k : ℕ) → end ≤ k → slot_at slots.old k ≡ None) }
    ensures same { (seat.new.table_id ≡ seat.old.table_id) × (seat.new.id ≡ seat.old.id) }
    ensures given_back { seat.new.me ≡ (with_holds seat.old.me.0 [], []) }
{
    for number in (0..end).rev() {
        let part = Part::of(number);
        if let Some(pointer) = take_at(slots, part) {
            give_part(table, seat, part, pointer);
        }
    }
}

/// Gives back all held parts with these pointers.
pub(crate) fn give_all(table: &LockTable, seat: &mut SeatToken, slots: &mut Slots)
    requires place { IsOfTable seat.old.table_id table.now.table_id }
    requires held { HoldsAll slots.old seat.old.me }
    ensures same { (seat.new.table_id ≡ seat.old.table_id) × (seat.new.id ≡ seat.old.id) }
    ensures given_back { seat.new.me ≡ (with_holds seat.old.me.0 [], []) }
{
    give_below(table, seat, end_of(slots), slots);
}

/// Takes the parts in the footprint of a batch in ascending order. If another client holds a part, gives back all parts
/// taken so far and fails with `Busy`.
pub(crate) fn take_all(
    table: &LockTable,
    alloc: Global,
    seat: &mut SeatToken,
    mark: u64,
    batch: &Batch,
) -> Result<Slots, Busy>
    requires place { IsOfTable seat.old.table_id table.now.table_id }
    requires client { IsSingleClient seat.old.me.0 × (mark ≡ suc seat.old.me.0.mine.number) }
    requires bounded { seat.old.me.0.clients ≤ 64 }
    requires idle { (seat.old.me.0.holds ≡ []) × (seat.old.me.1 ≡ []) }
    ensures same { (seat.new.table_id ≡ seat.old.table_id) × (seat.new.id ≡ seat.old.id) }
    ensures ok { IfOk result
        (λ slots. (seat.new.me.0 ≡ with_parts seat.old.me.0 (notes_below slots 12)) × IsCarried seat.new.me
        × IsFootprint batch.now slots × AreWithinOwnParts slots) }
    ensures err { IfErr result
        (λ busy. (seat.new.me.1 ≡ []) × MissesTaking batch.now busy.part busy.holder seat.old.me.0 seat.new.me.0) }
{
    let mut slots = no_slots();
    for part in batch.footprint(alloc) {
        match take_slot(table, seat, part, mark) {
            Ok(pointer) => put_at(&mut slots, part, pointer),
            Err(holder) => {
                give_all(table, seat, &mut slots);
                return Err(Busy { part, holder });
            }
        }
    }
    Ok(slots)
}

/// Completes a batch: gives back all parts with their new contents. The replies are those to the contents that were
/// taken.
pub(crate) fn end_all(
    table: &LockTable,
    seat: &mut SeatToken,
    batch: &Batch,
    slots: &Slots,
    edited: &mut Slots,
)
    requires place { IsOfTable seat.old.table_id table.now.table_id }
    requires held { HoldsAll slots.now seat.old.me }
    requires some { (b : ℕ) × (b < 12) × (is_some (slot_at slots.now b) ≡ true) }
    requires edited { Edits batch.now slots.now edited.old }
    ensures same { (seat.new.table_id ≡ seat.old.table_id) × (seat.new.id ≡ seat.old.id) }
    ensures ended { (seat.new.me.1 ≡ [])
        × BatchTakesEffect batch.now (replies_to slots.now batch.now) [] seat.old.me.0 seat.new.me.0 }
{
    // A footprint is not empty; therefore a highest part with a pointer exists.
    let Some(part) = highest(edited) else {
        unreachable!()
    };
    let Some(pointer) = take_at(edited, part) else {
        unreachable!()
    };
    end_call::<Brand>(table, seat, part, pointer, batch, slots, edited);
    give_below(table, seat, part.get(), edited);
}
