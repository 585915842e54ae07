//! The effect of a batch on the parts in its footprint, computed from their current content.
ghost use Rattle.std.specs.Prelude.{◌≡◌, ◌<◌, IfOk, None, false, get_or, set as set_at};
ghost use Rattle.std.specs.List.{list_any};
ghost use Rattle.moc_parts.specs.Commands.{is_update};
ghost use Rattle.moc_parts.specs.Parts.{union_of, AreWithinParts};
ghost use Rattle.moc_parts.specs.Prepared.{given_sets, is_given, AreChanges, AreRepliesTo, IsPrepared};

use crate::batch::Batch;
use crate::draft::Draft;
use crate::lists::Lists;
use crate::part::Part;
use crate::reply::Replies;
use moc_ranges::{Coverage, Memory};
use std::alloc::Global;
use std::marker::Model;

/// The new lists of the given parts, and the replies to the commands of a batch.
#[derive(Debug, Drop)]
pub struct Prepared {
    lists: Lists,
    replies: Replies,
}

impl Model for Prepared {
    ghost use Rattle.std.specs.Coded.{codes, coded_ℕ};
    ghost use Rattle.std.specs.FinSet as set;
    ghost use Rattle.std.specs.Ordering.{nat_cmp};
    ghost use Rattle.moc_ranges.specs.contracts.coverage.Coverage as coverage;
    ghost use Rattle.moc_parts.specs.Prepared.{Preparation};

    ghost Value = { Preparation };

    ghost coded = { Prim.hlevel (codes, coverage.the_row.coded, set.code {R = nat_cmp} coded_ℕ) };

    ghost view = { λ p. record { lists = p.lists; replies = p.replies } };
}

impl Prepared {
    /// Returns the replies in the order of the commands. Allocates nothing.
    pub fn reply(&self) -> &Replies
        ensures { result.now ≡ self.now.replies }
    {
        &self.replies
    }

    /// Removes and returns the new list of a part. Returns `None` if there is no new list or if it was already taken.
    /// O(1); allocates nothing.
    pub fn take(&mut self, part: Part) -> Option<Coverage>
        ensures taken { result ≡ get_or self.old.lists part None }
        ensures left { self.new.lists ≡ set_at self.old.lists part None }
        ensures replies { self.new.replies ≡ self.old.replies }
    {
        self.lists.take(part)
    }

    /// Returns the replies and drops the lists that were not taken. Linear in the size of the dropped lists; allocates
    /// nothing.
    pub fn into_reply(self) -> Replies
        ensures { result ≡ self.replies }
    {
        self.replies
    }
}

/// Computes the new lists of the parts in the footprint of a batch, and its replies.
///
/// The array must have the current list of every part in the footprint, each within its own base pixel. A part without
/// a list counts as empty. Lists outside the footprint do not influence the replies and are copied unchanged.
///
/// # Errors
/// Fails with `Memory` if an allocation fails.
///
/// # Complexity
/// One pass over a list for each command that changes it; unchanged lists are copied.
pub fn prepare(
    alloc: Global,
    batch: &Batch,
    before: &[Option<&Coverage>; 12],
) -> Result<Prepared, Memory>
    requires { AreWithinParts (given_sets before.now) }

    // The result holds for every set that agrees with the given lists in the footprint: both the replies and the new
    // content of the footprint.
    ensures { IfOk result (λ p. IsPrepared batch.now (is_given before.now) (union_of (given_sets before.now)) p) }
{
    let no_pixels = Coverage::empty(alloc);
    let (draft, replies) = Draft::run(alloc, before, &no_pixels, batch.commands())?;
    let lists = draft.into_lists(alloc, before)?;
    Ok(Prepared { lists, replies })
}

/// Computes the new lists and the replies like `prepare`, but without a list for a part that no command changes. No
/// list is copied.
///
/// # Errors
/// Fails with `Memory` if an allocation fails.
///
/// # Complexity
/// The same number of passes as `prepare`.
pub fn prepare_changes(
    alloc: Global,
    batch: &Batch,
    before: &[Option<&Coverage>; 12],
) -> Result<Prepared, Memory>
    requires { AreWithinParts (given_sets before.now) }
    ensures { IfOk result (λ p. AreChanges batch.now (union_of (given_sets before.now)) p) }
{
    let no_pixels = Coverage::empty(alloc);
    let (draft, replies) = Draft::run(alloc, before, &no_pixels, batch.commands())?;
    let lists = draft.into_new_lists();
    Ok(Prepared { lists, replies })
}

/// Computes the replies to a batch without updates from the current lists of the parts in its footprint. The replies
/// are those of `prepare`, but no list is copied.
///
/// # Errors
/// Fails with `Memory` if an allocation fails.
///
/// # Complexity
/// Linear in the size of the lists that the queries read.
pub fn reply_of(
    alloc: Global,
    batch: &Batch,
    before: &[Option<&Coverage>; 12],
) -> Result<Replies, Memory>
    requires query { list_any is_update batch.now ≡ false }
    requires parts { AreWithinParts (given_sets before.now) }
    ensures { IfOk result (λ r. AreRepliesTo batch.now (union_of (given_sets before.now)) r) }
{
    let no_pixels = Coverage::empty(alloc);
    let (_, replies) = Draft::run(alloc, before, &no_pixels, batch.commands())?;
    Ok(replies)
}
