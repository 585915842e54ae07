//! The result of an operation, computed at its first Edit.
ghost use Rattle.std.specs.Prelude.{◌≡◌, ◌<◌, ℕ, IfOk, None, Some, is_some, get_or, map};
ghost use Rattle.std.specs.Option.{option_copied};
ghost use Rattle.moc_parts.specs.Batches.{footprint_of_all};
ghost use Rattle.moc_parts.specs.Parts.{AreWithinParts};
ghost use Rattle.moc_steps.specs.Private.ClientState.{contents_of, IsResultFrom};

use crate::share::SharedList;
use moc_parts::{Batch, Part, Prepared, Replies, prepare};
use moc_ranges::{Coverage, Memory};
use std::alloc::Global;
use std::marker::Model;

/// The new lists of the parts in a footprint, the replies, and the index of the entry in the order.
#[derive(Drop)]
pub(crate) struct PreparedUpdate {
    entry_index: usize,
    lists: [Option<SharedList>; 12],
    replies: Replies,
    copy: Replies,
}

impl Model for PreparedUpdate {
    ghost use Rattle.std.specs.Prelude.{◌≡◌};
    ghost use Rattle.moc_steps.specs.Private.ClientState.{UpdateResult};
    ghost use Rattle.moc_steps.specs.Private.Codes.{update_result_code};

    ghost Value = { UpdateResult };

    ghost coded = { update_result_code };

    ghost view = { λ m. record { entry_index = m.entry_index; lists = m.lists; replies = m.replies } };

    ghost invariant = { λ m. m.copy ≡ m.replies };
}

impl PreparedUpdate {
    /// Computes the result of a batch from the lists that the client has taken. Fails with `Memory` if an allocation
    /// fails.
    pub(crate) fn new(
        alloc: Global,
        batch: &Batch,
        taken_lists: &[Option<SharedList>; 12],
        entry_index: usize,
    ) -> Result<PreparedUpdate, Memory>
        requires own { AreWithinParts (contents_of taken_lists.now) }
        requires footprint { (b : ℕ) → b < 12
            → is_some (get_or taken_lists.now b None) ≡ footprint_of_all batch.now b }
        ensures entry_index { IfOk result (λ m. m.entry_index ≡ entry_index) }
        ensures value { IfOk result (λ m. IsResultFrom batch.now (contents_of taken_lists.now) m) }
    {
        let mut prepared = prepare(alloc, batch, &lists_of(taken_lists))?;
        let copy = prepared.reply().try_copy(alloc)?;
        let lists = share_lists(alloc, &mut prepared)?;
        Ok(PreparedUpdate {
            entry_index,
            lists,
            replies: prepared.into_reply(),
            copy,
        })
    }

    /// Returns the index of the entry in the order.
    pub(crate) fn entry_index(&self) -> usize
        ensures { result ≡ self.now.entry_index }
    {
        self.entry_index
    }

    /// Returns the new list of a part, if the part is in the footprint.
    pub(crate) fn list(&self, part: Part) -> Option<&SharedList>
        ensures { option_copied result ≡ get_or self.now.lists part None }
    {
        self.lists[part.index()].as_ref()
    }

    /// Returns the replies and a copy of them.
    pub(crate) fn into_replies(self) -> (Replies, Replies)
        ensures { result ≡ (self.replies, self.replies) }
    {
        (self.replies, self.copy)
    }
}

/// Borrows the shared lists.
fn lists_of(taken_lists: &[Option<SharedList>; 12]) -> [Option<&Coverage>; 12]
    ensures { map option_copied result ≡ taken_lists.now }
{
    let mut lists = [None; 12];
    for (b, share) in taken_lists.iter().enumerate() {
        if let Some(share) = share {
            lists[b] = Some(share.list());
        }
    }
    lists
}

/// Takes the new lists and makes each of them shareable.
fn share_lists(alloc: Global, prepared: &mut Prepared) -> Result<[Option<SharedList>; 12], Memory>
    ensures lists { IfOk result (λ lists. (b : ℕ) → b < 12 → get_or lists b None ≡ get_or prepared.old.lists b None) }
    ensures replies { prepared.new.replies ≡ prepared.old.replies }
{
    let mut lists = no_lists();
    for part in Part::ALL {
        if let Some(list) = prepared.take(part) {
            lists[part.index()] = Some(SharedList::new(alloc, list)?);
        }
    }
    Ok(lists)
}

/// Returns an array without any list.
pub(crate) fn no_lists() -> [Option<SharedList>; 12]
    ensures { (b : ℕ) → get_or result b None ≡ None }
{
    [
        None, None, None, None, None, None, None, None, None, None, None, None,
    ]
}
