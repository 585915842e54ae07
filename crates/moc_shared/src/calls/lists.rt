//! Executing batches on the lists of parts.
ghost use Rattle.std.specs.Prelude.{◌≡◌, ℕ, ◌<◌, IfOk, OnOk, None, get_or, false};
ghost use Rattle.std.specs.Arc.{arc_value};
ghost use Rattle.std.specs.List.{list_any};
ghost use Rattle.moc_parts.specs.Commands.{is_update};
ghost use Rattle.moc_shared.specs.Private.Seats.{slot_at, content, AreWithinOwnParts, IsFootprint};
ghost use Rattle.moc_shared.specs.Private.Slots.{changed_content, replies_to, Edits};

use crate::table::locks::Pointer;
use crate::table::slots::{Slots, lists, pointer_at, put_at, share};
use moc_parts::{Batch, Part, Prepared, Replies, prepare_changes, reply_of};
use moc_ranges::{Coverage, Memory};
use std::alloc::Global;
use std::sync::Arc;

/// Returns a pointer to the list. If the list has the same pixels as the old one, clones the old pointer and drops the
/// list.
fn share_changed(alloc: Global, current: &Pointer, list: Coverage) -> Result<Pointer, Memory>
    ensures { IfOk result (λ p. arc_value p ≡ list) }
{
    if current.same(&list) {
        Ok(Arc::try_clone(current)?)
    } else {
        share(alloc, list)
    }
}

/// Sets the new pointers of all parts: a pointer to the new list, or a clone of the old pointer if the list is
/// unchanged.
fn share_all(
    alloc: Global,
    slots: &Slots,
    changes: &mut Prepared,
    edited: &mut Slots,
) -> Result<(), Memory>
    requires { (b : ℕ) → slot_at edited.old b ≡ None }
    ensures replies { changes.new.replies ≡ changes.old.replies }
    ensures lists { OnOk result ((b : ℕ) → b < 12 → content (slot_at edited.new b)
        ≡ changed_content (get_or changes.old.lists b None) (content (slot_at slots.now b))) }
{
    for part in Part::ALL {
        let Some(pointer) = pointer_at(slots, part) else {
            continue
        };
        let new = match changes.take(part) {
            Some(list) => share_changed(alloc, pointer, list)?,
            None => Arc::try_clone(pointer)?,
        };
        put_at(edited, part, new);
    }
    Ok(())
}

/// Computes the new contents of the parts and the replies of a batch, before any part is given back.
pub(crate) fn edit(
    alloc: Global,
    batch: &Batch,
    slots: &Slots,
    edited: &mut Slots,
) -> Result<Replies, Memory>
    requires empty_slots { (b : ℕ) → slot_at edited.old b ≡ None }
    requires footprint { IsFootprint batch.now slots.now }
    requires own { AreWithinOwnParts slots.now }
    ensures replies { IfOk result (λ r. r ≡ replies_to slots.now batch.now) }
    ensures edited { OnOk result (Edits batch.now slots.now edited.new) }
{
    let mut changes = prepare_changes(alloc, batch, &lists(slots))?;
    share_all(alloc, slots, &mut changes, edited)?;
    Ok(changes.into_reply())
}

/// Returns the replies of a query, computed from the contents of the parts. Fails with `Memory` if an allocation fails.
pub(crate) fn answer(alloc: Global, batch: &Batch, slots: &Slots) -> Result<Replies, Memory>
    requires query { list_any is_update batch.now ≡ false }
    requires own { AreWithinOwnParts slots.now }
    ensures { IfOk result (λ r. r ≡ replies_to slots.now batch.now) }
{
    reply_of(alloc, batch, &lists(slots))
}
