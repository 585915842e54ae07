//! Clients that are midway: their operations have begun and have not ended.
ghost use Rattle.std.specs.Prelude.{◌≡◌, ◌<◌, ◌+◌, true, suc, IfOk, IfSome, IsSome, None, Some, take, slice_get};
ghost use Rattle.std.specs.Prelude.{nat_eq, nat_lt, option_map};
ghost use Rattle.std.specs.List.{list_any};
ghost use Rattle.std.specs.Option.{option_copied};
ghost use Rattle.std.specs.FinSet as set;
ghost use Rattle.moc_ranges.specs.Operations.{part_of};
ghost use Rattle.moc_parts.specs.Batches.{batches, footprint_of_all, set_after_all};
ghost use Rattle.moc_steps.specs.Machine as machine;
ghost use Rattle.moc_steps.specs.Machine.{new_running, holds, holds_some, edit_refusal, give_refusal, quit_refusal};
ghost use Rattle.moc_steps.specs.Machine.{end_refusal};
ghost use Rattle.moc_steps.specs.Private.ClientState.{UpdateResult, IsUpdateResult};

use crate::error::StepError;
use crate::prepared_update::{PreparedUpdate, no_lists};
use crate::share::SharedList;
use moc_parts::{Batch, Part, PartSet};
use moc_ranges::Memory;
use std::alloc::Global;
use std::marker::Model;

/// The state of a client that is midway: its operation, and the progress of the operation.
#[derive(Drop)]
pub(crate) struct ActiveOperation {
    number: u64,
    batch: Batch,
    /// The parts of its footprint in ascending order.
    parts: Vec<Part>,
    /// The number of parts that it has taken.
    taken: usize,
    edited: PartSet,
    given: PartSet,
    quits: bool,
    /// The lists of the parts that it has taken, as they were when it took them.
    taken_lists: [Option<SharedList>; 12],
    /// The result of its operation, computed at its first Edit.
    prepared_update: Option<PreparedUpdate>,
}

impl Model for ActiveOperation {
    ghost use Rattle.std.specs.Prelude.{option_map};
    ghost use Rattle.moc_parts.specs.Parts.{union_of};
    ghost use Rattle.moc_steps.specs.Private.ClientState.{ClientState, ClientInvariant, contents_of};
    ghost use Rattle.moc_steps.specs.Private.Codes.{client_state_code};

    ghost Value = { ClientState };

    ghost coded = { client_state_code };

    ghost view = { λ m. record {
      running = record {
        number = m.number;
        operation = m.batch;
        taken = m.taken;
        edited = m.edited;
        given = m.given;
        quits = m.quits;
      };
      taken_content = union_of (contents_of m.taken_lists);
      entry_index = option_map (λ x. x.entry_index) m.prepared_update;
    } };

    ghost invariant = { λ m. ClientInvariant m.batch m.taken m.edited m.parts.items m.taken_lists m.prepared_update };
}

impl ActiveOperation {
    /// Creates the state of a client that begins an operation. Fails with `Memory` if an allocation fails.
    pub(crate) fn new(alloc: Global, number: u64, batch: Batch) -> Result<ActiveOperation, Memory>
        ensures { IfOk result (λ m.
            m ≡ record { running = new_running batches number batch; taken_content = set.empty; entry_index = None }) }
    {
        let parts = parts_of(alloc, &batch)?;
        Ok(ActiveOperation {
            number,
            batch,
            parts,
            taken: 0,
            edited: PartSet::none(),
            given: PartSet::none(),
            quits: false,
            taken_lists: no_lists(),
            prepared_update: None,
        })
    }

    /// Returns the number of its operation: the number of operations that began before.
    pub(crate) fn number(&self) -> u64
        ensures { result ≡ self.now.running.number }
    {
        self.number
    }

    /// Returns whether the client has quit.
    pub(crate) fn quits(&self) -> bool
        ensures { result ≡ self.now.running.quits }
    {
        self.quits
    }

    /// Returns the next part to take, if there is one.
    pub(crate) fn next_part(&self) -> Option<Part>
        ensures { result ≡ machine.next_part batches self.now.running }
    {
        part_at(&self.parts, self.taken)
    }

    /// Returns whether the client holds a part.
    pub(crate) fn holds(&self, part: Part) -> bool
        ensures { result ≡ holds batches self.now.running part }
    {
        is_among(&self.parts, self.taken, part) && !self.given.contains(part)
    }

    /// Returns whether the client holds at least one part.
    fn holds_some(&self) -> bool
        ensures { result ≡ holds_some batches self.now.running }
    {
        for part in Part::ALL {
            if self.holds(part) {
                return true;
            }
        }
        false
    }

    /// Returns whether the client has edited a part.
    pub(crate) fn has_edited(&self, part: Part) -> bool
        ensures { result ≡ set.contains self.now.running.edited part }
    {
        self.edited.contains(part)
    }

    /// Returns whether the operation is committed: the client has edited at least one part.
    pub(crate) fn is_committed(&self) -> bool
        ensures { result ≡ machine.is_nonempty self.now.running.edited }
    {
        !self.edited.is_empty()
    }

    /// Returns whether the client has taken at least one part.
    pub(crate) fn has_taken_some(&self) -> bool
        ensures { result ≡ nat_lt 0 self.now.running.taken }
    {
        self.taken > 0
    }

    /// Returns the reason why an Edit of a part is refused, or `None` if it is permitted.
    pub(crate) fn edit_refusal(&self, part: Part) -> Option<StepError>
        ensures { result ≡ edit_refusal batches self.now.running part }
    {
        if self.quits {
            Some(StepError::Quitting)
        } else if self.next_part().is_some() {
            Some(StepError::NotAllTaken)
        } else if !self.holds(part) {
            Some(StepError::NotHeld)
        } else if self.has_edited(part) {
            Some(StepError::AlreadyEdited)
        } else {
            None
        }
    }

    /// Returns the reason why a Give of a part is refused, or `None` if it is permitted.
    pub(crate) fn give_refusal(&self, part: Part) -> Option<StepError>
        ensures { result ≡ give_refusal batches self.now.running part }
    {
        if !self.holds(part) {
            Some(StepError::NotHeld)
        } else if !self.has_edited(part) && !self.quits {
            Some(StepError::NotEdited)
        } else {
            None
        }
    }

    /// Returns the reason why a Quit is refused, or `None` if it is permitted.
    pub(crate) fn quit_refusal(&self) -> Option<StepError>
        ensures { result ≡ quit_refusal batches self.now.running }
    {
        if self.quits {
            Some(StepError::Quitting)
        } else if self.is_committed() {
            Some(StepError::BegunEditing)
        } else {
            None
        }
    }

    /// Returns the reason why an End is refused, or `None` if it is permitted.
    pub(crate) fn end_refusal(&self) -> Option<StepError>
        ensures { result ≡ end_refusal batches self.now.running }
    {
        if self.holds_some() {
            Some(StepError::StillHolding)
        } else if !self.quits && self.taken == 0 {
            Some(StepError::NothingDone)
        } else {
            None
        }
    }

    /// Computes the result of the operation, with the given index for its entry. Fails with `Memory` if an allocation
    /// fails.
    pub(crate) fn prepare_update(
        &self,
        alloc: Global,
        entry_index: usize,
    ) -> Result<PreparedUpdate, Memory>
        requires all { machine.next_part batches self.now.running ≡ None }
        ensures entry_index { IfOk result (λ m. m.entry_index ≡ entry_index) }
        ensures value { IfOk result (λ m. IsUpdateResult self.now m) }
    {
        PreparedUpdate::new(alloc, &self.batch, &self.taken_lists, entry_index)
    }

    /// Returns the index of its entry in the order, if the operation is committed.
    pub(crate) fn entry_index(&self) -> Option<usize>
        ensures { result ≡ self.now.entry_index }
    {
        Some(self.prepared_update.as_ref()?.entry_index())
    }

    /// Returns the new list of a part in the footprint, if the operation is committed.
    pub(crate) fn new_list(&self, part: Part) -> Option<&SharedList>
        requires value { IsSome self.now.entry_index }
        requires part { footprint_of_all self.now.running.operation part ≡ true }
        ensures { option_copied result
            ≡ Some (part_of (set_after_all self.now.taken_content self.now.running.operation) part) }
    {
        self.prepared_update.as_ref()?.list(part)
    }

    /// Records that the client has taken its next part, with the list of the part.
    pub(crate) fn take(&mut self, part: Part, list: SharedList)
        requires next { machine.next_part batches self.old.running ≡ Some part }
        requires own { part_of list part ≡ list }
        requires fresh { part_of self.old.taken_content part ≡ set.empty }
        requires first { self.old.entry_index ≡ None }
        ensures { self.new ≡ record self.old {
          running = record self.old.running { taken = suc self.old.running.taken };
          taken_content = set.union self.old.taken_content list;
        } }
    {
        self.taken_lists[part.index()] = Some(list);
        self.taken += 1;
    }

    /// Records the first Edit, with the result of the operation.
    pub(crate) fn commit(&mut self, prepared_update: PreparedUpdate, part: Part)
        requires { IsUpdateResult self.old prepared_update }
        ensures { self.new ≡ record {
          running = record self.old.running { edited = set.insert self.old.running.edited part };
          taken_content = self.old.taken_content;
          entry_index = Some prepared_update.entry_index;
        } }
    {
        self.prepared_update = Some(prepared_update);
        self.edited.insert(part);
    }

    /// Records a later Edit.
    pub(crate) fn edit(&mut self, part: Part)
        requires { IsSome self.old.entry_index }
        ensures { self.new ≡ record self.old {
          running = record self.old.running { edited = set.insert self.old.running.edited part };
        } }
    {
        self.edited.insert(part);
    }

    /// Records that the client has given a part back.
    pub(crate) fn give(&mut self, part: Part)
        ensures { self.new ≡ record self.old {
          running = record self.old.running { given = set.insert self.old.running.given part };
        } }
    {
        self.given.insert(part);
    }

    /// Records that the client has quit.
    pub(crate) fn quit(&mut self)
        ensures { self.new ≡ record self.old { running = record self.old.running { quits = true } } }
    {
        self.quits = true;
    }

    /// Returns the result of the operation, if it is committed.
    pub(crate) fn into_prepared_update(self) -> Option<PreparedUpdate>
        ensures entry_index { option_map (λ (m : UpdateResult). m.entry_index) result ≡ self.entry_index }
        ensures value { IfSome result (λ m. IsUpdateResult self m) }
    {
        let ActiveOperation {
            prepared_update,
            ..
        } = self;
        prepared_update
    }
}

/// Returns the parts in the footprint of a batch, in ascending order.
fn parts_of(alloc: Global, batch: &Batch) -> Result<Vec<Part>, Memory>
    ensures { IfOk result (λ v. v.items ≡ machine.footprint_parts batches batch.now) }
{
    let mut parts = Vec::new(alloc);
    for part in batch.footprint(alloc) {
        parts.push(part)?;
    }
    Ok(parts)
}

/// Returns the part at an index.
fn part_at(parts: &[Part], at: usize) -> Option<Part>
    ensures { result ≡ slice_get parts.now at }
{
    parts.get(at).copied()
}

/// Returns whether a part is among the first `n` parts.
fn is_among(parts: &[Part], n: usize, part: Part) -> bool
    ensures { result ≡ list_any (λ x. nat_eq x part) (take n parts.now) }
{
    parts.iter().take(n).any(|p| *p == part)
}
