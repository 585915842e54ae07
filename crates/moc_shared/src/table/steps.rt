//! The atomic steps on the lock word and the slot of a part. `atomic_table` makes every access to a word sequentially
//! consistent (`SeqCst`). A slot is accessed only by the client that holds the part.
ghost use Rattle.std.specs.Prelude.{◌≡◌, suc, ◌<◌, ◌≤◌, List, [], ◌∷◌, Contains, IfOk, IfErr, Option, Some};
ghost use Rattle.moc_lists.specs.RangeList.{NumberSet};
ghost use Rattle.moc_shared.specs.History.{call_by, StandsFor};
ghost use Rattle.moc_shared.specs.Seats.{table_index, note};
ghost use Rattle.moc_shared.specs.Private.Invariant.{parts_of_notes, IsSingleClient};
ghost use Rattle.moc_shared.specs.Private.Seats.{IsCarried, content, shared, IsInSky, IsWithinPart, IsOfTable};
ghost use Rattle.moc_shared.specs.Private.Seats.{PartNote, notes_below};
ghost use Rattle.moc_shared.specs.Private.Seats as seats;
ghost use Rattle.moc_shared.specs.Private.OperationEffects.{HasEffect};
ghost use Rattle.moc_shared.specs.Private.StepEffects.{TakesOrMisses, with_part, with_miss, with_holds, rest_of_list};
ghost use Rattle.moc_shared.specs.Private.Slots.{BatchTakesEffect, replies_to};
ghost use Rattle.moc_shared.specs.Batches.{batch_answer};

use crate::table::layout::index;
use crate::table::locks::{End, EndingCall, Give, LockTable, Pointer, SeatToken, Take};
use crate::table::slots::Slots;
use moc_parts::{Batch, Part, PartCommand, Reply};

/// Tries to set the client's mark in the lock word of a part. Returns 0 if the part was free and is now held, and the
/// mark of its holder otherwise.
fn take_part(table: &LockTable, seat: &mut SeatToken, part: Part, mark: u64) -> u64
    requires place { IsOfTable seat.old.table_id table.now.table_id }
    requires client { IsSingleClient seat.old.me.0 × (mark ≡ suc seat.old.me.0.mine.number) }
    requires other { (y : Option NumberSet) → ¬ Contains seat.old.me.0.holds (note part y) }
    ensures same { (seat.new.table_id ≡ seat.old.table_id) × (seat.new.id ≡ seat.old.id) }
    ensures taken_or_missed { TakesOrMisses content seats.part part seat.old.me result seat.new.me }
    ensures in_range { part < 12 }
{
    table.compare_exchange::<Take>(seat, index(part), 0, mark)
}

/// Takes a part with its content, or fails with the number of its holder.
pub(crate) fn take_slot(
    table: &LockTable,
    seat: &mut SeatToken,
    part: Part,
    mark: u64,
) -> Result<Pointer, u8>
    requires place { IsOfTable seat.old.table_id table.now.table_id }
    requires client { IsSingleClient seat.old.me.0 × (mark ≡ suc seat.old.me.0.mine.number) }
    requires bounded { seat.old.me.0.clients ≤ 64 }
    requires carried { IsCarried seat.old.me }
    requires other { (y : Option NumberSet) → ¬ Contains seat.old.me.0.holds (note part y) }
    ensures same { (seat.new.table_id ≡ seat.old.table_id) × (seat.new.id ≡ seat.old.id) }
    ensures carried { IsCarried seat.new.me }
    ensures ok { IfOk result
        (λ p. (seat.new.me.0 ≡ with_part seat.old.me.0 part (shared p)) × IsWithinPart part (Some p)) }
    ensures err { IfErr result
        (λ h. (seat.new.me.0 ≡ with_miss seat.old.me.0 h part) × (h < seat.old.me.0.clients)
        × ¬ StandsFor seat.old.me.0.mine h) }
    ensures in_range { part < 12 }
{
    let old_word = take_part(table, seat, part, mark);
    if old_word == 0 {
        // The slot of a free part has a pointer.
        let Some(pointer) = table.exchange(seat, index(part), None) else {
            unreachable!()
        };
        Ok(pointer)
    } else {
        Err((old_word - 1) as u8)
    }
}

/// Puts a pointer into the part that was taken last, and gives the part back.
pub(crate) fn give_part(table: &LockTable, seat: &mut SeatToken, part: Part, new: Pointer)
    requires place { IsOfTable seat.old.table_id table.now.table_id }
    requires client { IsSingleClient seat.old.me.0 }
    requires carried { IsCarried seat.old.me }
    requires held { (notes : List PartNote) × (seat.old.me.0.holds ≡ note part (shared new) ∷ notes)
        × ((y : Option NumberSet) → ¬ Contains notes (note part y)) }
    ensures same { (seat.new.table_id ≡ seat.old.table_id) × (seat.new.id ≡ seat.old.id) }
    ensures carried { IsCarried seat.new.me }
    ensures given_back { seat.new.me.0 ≡ with_holds seat.old.me.0 (rest_of_list seat.old.me.0.holds) }
{
    let index = index(part);
    drop(table.exchange(seat, index, Some(new)));
    table.store::<Give>(seat, index, 0);
}

/// Puts a pointer into the part that was taken last, and gives the part back. With this step, the call takes effect.
///
/// The replies are those to the contents that were taken. The pointers in `rest` are given back next. The batch,
/// `slots` and `rest` are parameters only because the contract refers to them.
pub(crate) fn end_call<C: EndingCall>(
    table: &LockTable,
    seat: &mut SeatToken,
    part: Part,
    new: Pointer,
    batch: &Batch,
    slots: &Slots,
    rest: &Slots,
)
    requires place { IsOfTable seat.old.table_id table.now.table_id }
    requires client { IsSingleClient seat.old.me.0 }
    requires carried { IsCarried seat.old.me }
    requires call { (C.call ≡ call_by seat.old.me.0.mine.number batch.now (replies_to slots.now batch.now))
        × (C.notes ≡ notes_below rest.now 12) }
    requires held { (parts_of_notes seat.old.me.0.holds ≡ part ∷ parts_of_notes (notes_below rest.now 12))
        × ¬ Contains (parts_of_notes (notes_below rest.now 12)) part }
    requires answered { HasEffect seats.part batch_answer IsInSky batch.now (replies_to slots.now batch.now)
        seat.old.me.0.holds (note part (shared new) ∷ notes_below rest.now 12) }
    ensures same { (seat.new.table_id ≡ seat.old.table_id) × (seat.new.id ≡ seat.old.id) }
    ensures carried { IsCarried seat.new.me }
    ensures ended { BatchTakesEffect batch.now (replies_to slots.now batch.now) (notes_below rest.now 12)
        seat.old.me.0 seat.new.me.0 }
{
    let index = index(part);
    drop(table.exchange(seat, index, Some(new)));
    table.store::<End<C>>(seat, index, 0);
}

/// Puts a pointer into the only held part, and gives the part back. With this step, the call of one command takes
/// effect.
///
/// The command and its reply are parameters only because the contract refers to them.
pub(crate) fn end_single<C: EndingCall, P: PartCommand>(
    table: &LockTable,
    seat: &mut SeatToken,
    part: Part,
    new: Pointer,
    command: &P,
    reply: &Reply,
)
    requires place { IsOfTable seat.old.table_id table.now.table_id }
    requires client { IsSingleClient seat.old.me.0 }
    requires carried { IsCarried seat.old.me }
    requires call { (C.call ≡ call_by seat.old.me.0.mine.number (P.command command.now ∷ []) (reply.now ∷ []))
        × (C.notes ≡ []) }
    requires held { parts_of_notes seat.old.me.0.holds ≡ part ∷ [] }
    requires answered { HasEffect seats.part batch_answer IsInSky (P.command command.now ∷ []) (reply.now ∷ [])
        seat.old.me.0.holds (note part (shared new) ∷ []) }
    ensures same { (seat.new.table_id ≡ seat.old.table_id) × (seat.new.id ≡ seat.old.id) }
    ensures idle { seat.new.me.1 ≡ [] }
    ensures ended { BatchTakesEffect (P.command command.now ∷ []) (reply.now ∷ []) [] seat.old.me.0 seat.new.me.0 }
{
    let index = index(part);
    drop(table.exchange(seat, index, Some(new)));
    table.store::<End<C>>(seat, index, 0);
}
