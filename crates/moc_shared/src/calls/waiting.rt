//! Taking parts that other clients may hold, by waiting for them.
ghost use Rattle.std.specs.Prelude.{◌≡◌, ℕ, suc, ◌≤◌, List, [], Contains, Option, Some};
ghost use Rattle.moc_lists.specs.RangeList.{NumberSet};
ghost use Rattle.moc_shared.specs.Seats.{note, table_index};
ghost use Rattle.moc_shared.specs.Private.Invariant.{IsSingleClient};
ghost use Rattle.moc_shared.specs.Private.Seats.{IsCarried, shared, notes_below};
ghost use Rattle.moc_shared.specs.Private.Seats.{AreWithinOwnParts, IsFootprint, IsWithinPart, IsOfTable};
ghost use Rattle.moc_shared.specs.Private.StepEffects.{with_part, with_parts, with_misses};
ghost use Rattle.moc_shared.specs.Private.Slots.{in_footprint, is_only_part, AreWaits};

use crate::table::layout::index;
use crate::table::locks::{LockTable, Pointer, SeatToken};
use crate::table::slots::{Slots, no_slots, put_at};
use crate::table::steps::take_slot;
use moc_parts::{Batch, Part};
use std::alloc::Global;
use std::sync::Wait;
use std::thread;
use std::time::Duration;

/// The number of tries after which a waiting client sleeps between two tries.
const YIELDS: u32 = 100;

/// The time of the first sleep, in microseconds.
const FIRST_SLEEP: u64 = 50;

/// The number of times that the time of a sleep is doubled: up to 1.6 milliseconds.
const DOUBLINGS: u32 = 5;

/// Lets other threads run before the next try to take a part: yields at first, and after many tries sleeps, each time
/// for twice as long. The sleep ends at once if this client no longer holds the part when the sleep begins. No other
/// thread wakes this one.
fn pause<R: Wait>(rt: &R, table: &LockTable, part: Part, holder: u8, tries: u32)
    requires { table.now.table_id.words ≡ table_index 12 }
{
    if tries < YIELDS {
        thread::yield_now();
        return;
    }
    let time = FIRST_SLEEP << (tries - YIELDS).min(DOUBLINGS);
    let mark = u32::from(holder) + 1;
    table.park_timeout(rt, index(part), mark, Duration::from_micros(time));
}

/// Takes a part. While another client holds it, pauses and tries again; the number of tries is unbounded.
pub(crate) fn wait_for_slot<R: Wait>(
    rt: &R,
    table: &LockTable,
    seat: &mut SeatToken,
    part: Part,
    mark: u64,
) -> Pointer
    requires place { IsOfTable seat.old.table_id table.now.table_id }
    requires client { IsSingleClient seat.old.me.0 × (mark ≡ suc seat.old.me.0.mine.number) }
    requires bounded { seat.old.me.0.clients ≤ 64 }
    requires carried { IsCarried seat.old.me }
    requires other { (y : Option NumberSet) → ¬ Contains seat.old.me.0.holds (note part y) }
    ensures same { (seat.new.table_id ≡ seat.old.table_id) × (seat.new.id ≡ seat.old.id) }
    ensures carried { IsCarried seat.new.me }
    ensures own { IsWithinPart part (Some result) }
    ensures taken_or_missed { (waits : List (ℕ × ℕ))
        × (seat.new.me.0 ≡ with_part (with_misses seat.old.me.0 waits) part (shared result))
        × AreWaits (is_only_part part) seat.old.me.0 waits }
{
    let mut tries = 0;
    for _ in rt.forever() {
        match take_slot(table, seat, part, mark) {
            Ok(pointer) => return pointer,
            Err(holder) => pause(rt, table, part, holder, tries),
        }
        tries = tries.saturating_add(1);
    }
    // The loop never ends.
    unreachable!()
}

/// Takes the parts in the footprint of a batch in ascending order; waits for each part that is held.
pub(crate) fn wait_for_all<R: Wait>(
    rt: &R,
    table: &LockTable,
    alloc: Global,
    seat: &mut SeatToken,
    mark: u64,
    batch: &Batch,
) -> Slots
    requires place { IsOfTable seat.old.table_id table.now.table_id }
    requires client { IsSingleClient seat.old.me.0 × (mark ≡ suc seat.old.me.0.mine.number) }
    requires bounded { seat.old.me.0.clients ≤ 64 }
    requires idle { (seat.old.me.0.holds ≡ []) × (seat.old.me.1 ≡ []) }
    ensures same { (seat.new.table_id ≡ seat.old.table_id) × (seat.new.id ≡ seat.old.id) }
    ensures carried { IsCarried seat.new.me }
    ensures slots { IsFootprint batch.now result × AreWithinOwnParts result }
    ensures taken_or_missed { (waits : List (ℕ × ℕ))
        × (seat.new.me.0 ≡ with_parts (with_misses seat.old.me.0 waits) (notes_below result 12))
        × AreWaits (in_footprint batch.now) seat.old.me.0 waits }
{
    let mut slots = no_slots();
    for part in batch.footprint(alloc) {
        put_at(&mut slots, part, wait_for_slot(rt, table, seat, part, mark));
    }
    slots
}
