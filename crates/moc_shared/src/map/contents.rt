//! The contents of a table that is no longer shared between threads.
ghost use Rattle.std.specs.Prelude.{◌≡◌, ◌≢◌, ℕ, ◌<◌, false, slice_index, slice_index_or, length, IfOk, IfSome, IfNone};
ghost use Rattle.std.specs.Slots.{slots_items, slots_filled, slots_len, IsFull};
ghost use mathlib.Core.Option.{some};
ghost use lib.ListN.{get_elem?};
ghost use Rattle.moc_parts.specs.Parts.{union_of};
ghost use Rattle.moc_shared.specs.Seats.{table_index};
ghost use Rattle.moc_shared.specs.Private.Seats.{slot_at};
ghost use Rattle.moc_shared.specs.Private.Slots.{lists_of};

use crate::table::layout::{TABLE_SIZE, index, part_at};
use crate::table::locks::Pointer;
use crate::table::slots::{Slots, lists, no_slots, set_at};
use atomic_table::Closed;
use moc_parts::{Part, merge_parts};
use moc_ranges::{Coverage, Memory};
use std::alloc::Global;

/// Returns the first held part.
pub(crate) fn first_held(closed: &Closed<Option<Pointer>, Global>) -> Option<Part>
    requires { (slots_len closed.now.words ≡ table_index 12) × IsFull closed.now.words }
    ensures some { IfSome result (λ b. (b < 12) × (slice_index (slots_items closed.now.words) (table_index b) ≢ 0)
        × ((k : ℕ) → k < b → slice_index (slots_items closed.now.words) (table_index k) ≡ 0)) }
    ensures none { IfNone result ((b : ℕ) → b < 12 → slice_index (slots_items closed.now.words) (table_index b) ≡ 0) }
{
    for part in Part::ALL {
        if closed.word(index(part)) != 0 {
            return Some(part);
        }
    }
    None
}

/// Takes the pointers of all parts out of the table. Every slot is empty afterwards.
pub(crate) fn read_all(closed: &mut Closed<Option<Pointer>, Global>) -> Slots
    requires { (slots_len closed.old.slots ≡ table_index 12) × IsFull closed.old.slots }
    ensures items { (b : ℕ) → b < 12
        → get_elem? (slots_items closed.old.slots) (table_index b) ≡ some (slot_at result b) }
    ensures long { length result ≡ 12 }
    ensures empty { (slots_len closed.new.slots ≡ table_index 12)
        × ((k : ℕ) → k < table_index 12 → slice_index_or (slots_filled closed.new.slots) k false ≡ false) }
{
    let mut slots = no_slots();
    for k in 0..TABLE_SIZE {
        let slot = closed.take(k);
        match part_at(k) {
            Some(part) => set_at(&mut slots, part, slot),
            None => drop(slot),
        }
    }
    slots
}

/// Returns the union of the lists of all slots. Fails with `Memory` if an allocation fails.
pub(crate) fn union_all(alloc: Global, slots: &Slots) -> Result<Coverage, Memory>
    ensures { IfOk result (λ c. c ≡ union_of (lists_of slots.now)) }
{
    merge_parts(alloc, &lists(slots))
}
