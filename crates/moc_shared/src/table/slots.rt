//! The pointers of held parts, in twelve slots.
ghost use Rattle.std.specs.Prelude.{◌≡◌, ℕ, ◌<◌, ◌≤◌, IfOk, OnOk, IfSome, IfNone, IsSome, Some, None};
ghost use Rattle.std.specs.Prelude.{length, map, slice_set};
ghost use Rattle.std.specs.Arc.{arc_value};
ghost use Rattle.std.specs.Option.{option_copied};
ghost use Rattle.moc_shared.specs.Private.Seats.{slot_at, content, AreWithinOwnParts};
ghost use Rattle.moc_shared.specs.Private.Slots.{AreCopies, NoneAfter};

use crate::table::locks::Pointer;
use moc_parts::Part;
use moc_ranges::{Coverage, Memory};
use std::alloc::Global;
use std::sync::Arc;

/// A pointer for each held part.
pub(crate) type Slots = [Option<Pointer>; 12];

/// Returns slots without any pointer.
#[tactic(auto, using(crate::proofs::SlotSets::own_none))]
pub(crate) fn no_slots() -> Slots
    ensures none { (b : ℕ) → slot_at result b ≡ None }
    ensures own { AreWithinOwnParts result }
{
    [
        None, None, None, None, None, None, None, None, None, None, None, None,
    ]
}

/// Returns the pointer of a part.
pub(crate) fn pointer_at(slots: &Slots, part: Part) -> Option<&Pointer>
    ensures { option_copied result ≡ slot_at slots.now part }
{
    slots[part.index()].as_ref()
}

/// Removes and returns the pointer of a part.
pub(crate) fn take_at(slots: &mut Slots, part: Part) -> Option<Pointer>
    ensures { (result ≡ slot_at slots.old part) × (slots.new ≡ slice_set slots.old part None) }
{
    std::mem::replace(&mut slots[part.index()], None)
}

/// Sets the pointer of a part.
pub(crate) fn put_at(slots: &mut Slots, part: Part, pointer: Pointer)
    ensures { slots.new ≡ slice_set slots.old part (Some pointer) }
{
    slots[part.index()] = Some(pointer);
}

/// Returns the last part with a pointer.
pub(crate) fn highest(slots: &Slots) -> Option<Part>
    ensures some { IfSome result (λ b. (b < 12) × IsSome (slot_at slots.now b) × NoneAfter slots.now b) }
    ensures none { IfNone result ((k : ℕ) → slot_at slots.now k ≡ None) }
    ensures long { length slots.now ≡ 12 }
{
    for number in (0..12).rev() {
        if slots[usize::from(number)].is_some() {
            return Some(Part::of(number));
        }
    }
    None
}

/// Returns one more than the number of the last part with a pointer, or 0 if there is no pointer.
pub(crate) fn end_of(slots: &Slots) -> u8
    ensures { (result ≤ 12) × ((k : ℕ) → result ≤ k → slot_at slots.now k ≡ None) }
{
    match highest(slots) {
        Some(part) => part.get() + 1,
        None => 0,
    }
}

/// Creates a shared pointer to a list. Fails with `Memory` if an allocation fails; the list is then dropped.
pub(crate) fn share(alloc: Global, list: Coverage) -> Result<Pointer, Memory>
    ensures { IfOk result (λ p. arc_value p ≡ list) }
{
    Ok(Arc::new(alloc, list)?)
}

/// Sets or removes the pointer of a part.
pub(crate) fn set_at(slots: &mut Slots, part: Part, slot: Option<Pointer>)
    ensures { slots.new ≡ slice_set slots.old part slot }
{
    slots[part.index()] = slot;
}

/// Clones each pointer into empty slots. Fails with `Memory` if a reference count is at its maximum.
pub(crate) fn copy_all(slots: &Slots, copies: &mut Slots) -> Result<(), Memory>
    requires empty_slots { (b : ℕ) → slot_at copies.old b ≡ None }
    ensures copied { OnOk result (AreCopies slots.now copies.new) }
    ensures long { length copies.new ≡ 12 }
{
    for (b, slot) in slots.iter().enumerate() {
        if let Some(pointer) = slot {
            copies[b] = Some(Arc::try_clone(pointer)?);
        }
    }
    Ok(())
}

/// Returns the list of a slot.
fn list(slot: &Option<Pointer>) -> Option<&Coverage>
    ensures { option_copied result ≡ content slot.now }
{
    match slot {
        Some(pointer) => Some(pointer),
        None => None,
    }
}

/// Returns the lists of all slots.
pub(crate) fn lists(slots: &Slots) -> [Option<&Coverage>; 12]
    ensures { map option_copied result ≡ map content slots.now }
{
    let mut lists = [None; 12];
    for (b, slot) in slots.iter().enumerate() {
        lists[b] = list(slot);
    }
    lists
}
