//! The state of the step machine: twelve lists, and clients that take parts, edit them, and give them back.
ghost use Rattle.std.specs.Prelude.{◌≡◌, ◌<◌, ◌^◌, true, IfOk, IfErr, IfSome, IsSome, OnOk, OnErr, None, Some};
ghost use Rattle.std.specs.Prelude.{length, option_map};
ghost use Rattle.std.specs.Option.{option_copied};
ghost use Rattle.std.specs.FinMap as map;
ghost use Rattle.moc_parts.specs.Batches.{batches};
ghost use Rattle.moc_steps.specs.Machine as machine;
ghost use Rattle.moc_steps.specs.Machine.{refusal, begin_refusal, is_nonempty};
ghost use Rattle.moc_steps.specs.Machine.{take_refusal, part_at, reply_to, client_at};
ghost use Rattle.moc_steps.specs.Machine.{start_world, whole, world_after};
ghost use Rattle.moc_steps.specs.Theorems.{IsReachable, RepliesByEntry};
ghost use Rattle.moc_steps.specs.Orders.{is_progress, steps_left};
ghost use Rattle.moc_parts.specs.Prepared.{given_sets};
ghost use Rattle.moc_steps.specs.Played.{entries_of, step_of, IsCoverError, IsRefused};
ghost use Rattle.moc_steps.specs.Private.Worlds.{NoPartHeld, IsHighestHolder};
ghost use Rattle.moc_steps.specs.Private.ClientState.{ClientState};
ghost use Rattle.moc_steps.specs.declared.error.StepError.TheVariants as error;

use crate::error::{CoverError, StepError};
use crate::midway::ActiveOperation;
use crate::share::SharedList;
use crate::step::{Entry, Step};
use crate::table::{Effect, Table};
use moc_parts::{Batch, Part, Replies, batches_are_local, merge_parts, split_by_base_pixel};
use moc_ranges::{Coverage, Memory};
use std::alloc::Global;
use std::fmt;
use std::marker::Model;

/// The state of the step machine: a map in twelve parts, the clients that are midway, and the order of the operations
/// that have changed the map.
#[derive(Drop)]
pub struct World {
    alloc: Global,
    begun: u64,
    clients: Table,
    parts: Vec<SharedList>,
    /// The client that holds each part, if any.
    holders: [Option<u32>; 12],
    order: Vec<Entry>,
}

impl Model for World {
    ghost use Rattle.moc_steps.specs.Private.Codes.{world_code};
    ghost use Rattle.moc_steps.specs.Played.{BatchWorld as Played};
    ghost use Rattle.moc_steps.specs.Private.Worlds.{world_of, IsWorld};

    ghost Value = { Played };

    ghost coded = { world_code };

    ghost view = { λ w. world_of w.begun w.clients w.parts.items w.order.items };

    ghost invariant = { λ w. IsWorld w.begun w.clients w.parts.items w.holders w.order.items };
}

impl World {
    /// Creates a world with this set, in which every client is idle. O(n) for n ranges.
    ///
    /// # Errors
    /// Fails with `Memory` if an allocation fails.
    pub fn new(alloc: Global, start: Coverage) -> Result<World, Memory>
        ensures { IfOk result (λ w. w ≡ start_world batches start) }
    {
        let mut parts = Vec::new(alloc);
        for list in split_by_base_pixel(alloc, &start)? {
            parts.push(SharedList::new(alloc, list)?)?;
        }
        Ok(World {
            alloc,
            begun: 0,
            clients: Table::new(alloc),
            parts,
            holders: [None; 12],
            order: Vec::new(alloc),
        })
    }

    /// Returns the pixels of one part. O(1); allocates nothing.
    pub fn part(&self, part: Part) -> &Coverage
        ensures { result.now ≡ part_at batches self.now part }
    {
        self.parts[part.index()].list()
    }

    /// Returns the number of clients that are midway: their operations have begun and have not ended. O(1); allocates
    /// nothing.
    pub fn midway(&self) -> usize
        ensures { result ≡ map.len self.now.locks.clients }
    {
        self.clients.len()
    }

    /// Returns the committed operations in the order of their first Edits. O(1); allocates nothing.
    pub fn order(&self) -> &[Entry]
        ensures { entries_of result.now ≡ self.now.order }
    {
        &self.order
    }

    /// Returns the union of the twelve parts if no client is midway. Computes one union for each part.
    ///
    /// # Errors
    /// Fails with the number of midway clients if and only if there are any, and with `Memory` if an allocation fails.
    pub fn coverage(&self) -> Result<Coverage, CoverError>
        ensures covered { IfOk result (λ a. a ≡ whole batches self.now) }
        ensures idle { OnOk result (map.len self.now.locks.clients ≡ 0) }
        ensures failure { IfErr result (λ e. IsCoverError e (map.len self.now.locks.clients)) }
    {
        let n = self.midway();
        if n > 0 {
            return Err(CoverError::Midway { n });
        }
        match merge_parts(self.alloc, &lists(&self.parts)) {
            Ok(set) => Ok(set),
            Err(Memory) => Err(CoverError::Memory),
        }
    }

    /// Returns the reason why a Begin is refused, or `None` if it is permitted.
    fn begin_refusal(&self, client: Option<&ActiveOperation>) -> Option<StepError>
        ensures { result ≡ begin_refusal batches self.now.locks
            (option_map (λ (s : ClientState). s.running) (option_copied client.entry)) }
    {
        if client.is_some() {
            Some(StepError::NotIdle)
        } else if self.begun == u64::MAX {
            Some(StepError::TooMany)
        } else {
            None
        }
    }

    /// Returns the part that a midway client takes next, or the reason why the Take is refused.
    fn part_to_take(&self, client: &ActiveOperation) -> Result<Part, StepError>
        ensures next { IfOk result (λ b. machine.next_part batches client.now.running ≡ Some b) }
        ensures permitted { OnOk result (take_refusal batches self.now.locks client.now.running ≡ None) }
        ensures failure { IfErr result (λ why. take_refusal batches self.now.locks client.now.running ≡ Some why) }
    {
        if client.quits() {
            return Err(StepError::Quitting);
        }
        let Some(part) = client.next_part() else {
            return Err(StepError::AllTaken);
        };
        match self.holders[part.index()] {
            Some(by) => Err(StepError::PartHeld { part, by }),
            None => Ok(part),
        }
    }

    /// Returns the reason why a step is refused, or `None` if it is permitted.
    fn refusal(&self, step: &Step) -> Option<StepError>
        ensures { result ≡ refusal batches self.now.locks (step_of step.now) }
    {
        match (step, self.clients.get(step.client())) {
            (Step::Begin { .. }, client) => self.begin_refusal(client),
            (_, None) => Some(StepError::Idle),
            (Step::Take { .. }, Some(client)) => self.part_to_take(client).err(),
            (Step::Edit { part, .. }, Some(client)) => client.edit_refusal(*part),
            (Step::Give { part, .. }, Some(client)) => client.give_refusal(*part),
            (Step::Quit { .. }, Some(client)) => client.quit_refusal(),
            (Step::End { .. }, Some(client)) => client.end_refusal(),
        }
    }

    /// Checks whether a step is permitted. O(log n) for n clients that are midway; allocates nothing.
    ///
    /// # Errors
    /// Fails with the reason why the step is refused; never fails with `Memory`.
    pub fn permits(&self, step: &Step) -> Result<(), StepError>
        ensures permitted { OnOk result (refusal batches self.now.locks (step_of step.now) ≡ None) }
        ensures failure { IfErr result (λ why. refusal batches self.now.locks (step_of step.now) ≡ Some why) }
    {
        match self.refusal(step) {
            Some(why) => Err(why),
            None => Ok(()),
        }
    }

    /// Executes a step if it is permitted. An End returns the replies of its operation, unless the client has quit. All
    /// other steps return `None`.
    ///
    /// # Errors
    /// Fails with the reason why the step is refused; the world is then unchanged, and the step is dropped. Fails with
    /// `Memory` if an allocation fails in a permitted Begin, Take or Edit.
    ///
    /// # Complexity
    /// O(log n) for n clients that are midway, in addition to the work of the batch at its first Edit.
    pub fn step(&mut self, step: Step) -> Result<Option<Replies>, StepError>
        ensures permitted { OnOk result (refusal batches self.old.locks (step_of step) ≡ None) }
        ensures after { OnOk result (self.new ≡ world_after batches self.old (step_of step)) }
        ensures reply { IfOk result (λ r. r ≡ reply_to batches self.old (step_of step)) }

        // The replies of an End are those in the entry of its operation.
        ensures entry { OnOk result (RepliesByEntry batches self.old (step_of step)) }
        ensures failure { IfErr result (λ why.
            IsRefused (refusal batches self.old.locks (step_of step)) (step_of step) why) }
        ensures unchanged { OnErr result (self.new ≡ self.old) }
    {
        self.permits(&step)?;
        match step {
            Step::Begin { client, batch } => self.begin(client, batch)?,
            Step::Take { client } => self.take(client)?,
            Step::Edit { client, part } => self.edit(client, part)?,
            Step::Give { client, part } => self.give(client, part),
            Step::Quit { client } => self.quit(client),
            Step::End { client } => return Ok(self.end(client)),
        }
        Ok(None)
    }

    /// Executes a permitted Begin.
    fn begin(&mut self, client: u32, batch: Batch) -> Result<(), Memory>
        requires { refusal batches self.old.locks (machine.Step.Begin client batch) ≡ None }
        ensures after { OnOk result (self.new ≡ world_after batches self.old (machine.Step.Begin client batch)) }
        ensures unchanged { OnErr result (self.new ≡ self.old) }
    {
        // The two calls only make their contracts available to the proof: a Begin requires a local operation.
        batches_are_local();
        batch.commands();
        let midway = ActiveOperation::new(self.alloc, self.begun, batch)?;
        self.clients.insert(client, midway)?;
        self.begun += 1;
        Ok(())
    }

    /// Executes a permitted Take. The list is not copied.
    fn take(&mut self, client: u32) -> Result<(), StepError>
        requires { refusal batches self.old.locks (machine.Step.Take client) ≡ None }
        ensures after { OnOk result (self.new ≡ world_after batches self.old (machine.Step.Take client)) }
        ensures failure { IfErr result (λ why. why ≡ error.Memory) }
        ensures unchanged { OnErr result (self.new ≡ self.old) }
    {
        // Neither of the next two calls fails, because the step is permitted.
        let midway = self.clients.get(client).ok_or(StepError::Idle)?;
        let part = self.part_to_take(midway)?;
        let list = self.parts[part.index()].share()?;
        self.clients.change(client, Effect::Take(part, list));
        self.holders[part.index()] = Some(client);
        Ok(())
    }

    /// Executes a permitted Edit. The first Edit of an operation computes all its lists and commits it.
    fn edit(&mut self, client: u32, part: Part) -> Result<(), Memory>
        requires { refusal batches self.old.locks (machine.Step.Edit client part) ≡ None }
        ensures after { OnOk result (self.new ≡ world_after batches self.old (machine.Step.Edit client part)) }
        ensures unchanged { OnErr result (self.new ≡ self.old) }
    {
        // The client of a permitted step is midway.
        let Some(midway) = self.clients.get(client) else {
            unreachable!()
        };
        if midway.entry_index().is_some() {
            return self.edit_committed(client, part);
        }
        let begin = midway.number();
        let prepared_update = midway.prepare_update(self.alloc, self.order.len())?;
        // A held part is in the footprint and therefore has a list.
        let Some(list) = prepared_update.list(part) else {
            unreachable!()
        };
        let list = list.share()?;
        let reply = None;
        self.order.push(Entry {
            begin,
            client,
            reply,
        })?;
        self.clients
            .change(client, Effect::Commit(prepared_update, part));
        self.parts[part.index()] = list;
        Ok(())
    }

    /// Executes a permitted Edit of a committed operation.
    fn edit_committed(&mut self, client: u32, part: Part) -> Result<(), Memory>
        requires permitted { refusal batches self.old.locks (machine.Step.Edit client part) ≡ None }
        requires committed { IfSome (client_at batches self.old client) (λ r. is_nonempty r.edited ≡ true) }
        ensures after { OnOk result (self.new ≡ world_after batches self.old (machine.Step.Edit client part)) }
        ensures unchanged { OnErr result (self.new ≡ self.old) }
    {
        // The client of a permitted step is midway.
        let Some(midway) = self.clients.get(client) else {
            unreachable!()
        };
        // A held part is in the footprint and therefore has a list.
        let Some(list) = midway.new_list(part) else {
            unreachable!()
        };
        let list = list.share()?;
        self.clients.change(client, Effect::Edit(part));
        self.parts[part.index()] = list;
        Ok(())
    }

    /// Executes a permitted Give.
    fn give(&mut self, client: u32, part: Part)
        requires { refusal batches self.old.locks (machine.Step.Give client part) ≡ None }
        ensures { self.new ≡ world_after batches self.old (machine.Step.Give client part) }
    {
        self.clients.change(client, Effect::Give(part));
        self.holders[part.index()] = None;
    }

    /// Executes a permitted Quit.
    fn quit(&mut self, client: u32)
        requires { refusal batches self.old.locks (machine.Step.Quit client) ≡ None }
        ensures { self.new ≡ world_after batches self.old (machine.Step.Quit client) }
    {
        self.clients.change(client, Effect::Quit);
    }

    /// Executes a permitted End.
    fn end(&mut self, client: u32) -> Option<Replies>
        requires { refusal batches self.old.locks (machine.Step.End client) ≡ None }
        ensures after { self.new ≡ world_after batches self.old (machine.Step.End client) }
        ensures reply { result ≡ reply_to batches self.old (machine.Step.End client) }
        ensures entry { RepliesByEntry batches self.old (machine.Step.End client) }
    {
        let midway = self.clients.remove(client)?;
        let prepared_update = midway.into_prepared_update()?;
        let entry_index = prepared_update.entry_index();
        let (replies, copy) = prepared_update.into_replies();
        self.order[entry_index].reply = Some(copy);
        Some(replies)
    }

    /// Executes a copy of a step, which is made only if the step is permitted. Otherwise does the same as `step`, but
    /// drops the replies.
    pub(crate) fn play(&mut self, step: &Step) -> Result<(), StepError>
        ensures permitted { OnOk result (refusal batches self.old.locks (step_of step.now) ≡ None) }
        ensures after { OnOk result (self.new ≡ world_after batches self.old (step_of step.now)) }
        ensures failure { IfErr result (λ why.
            IsRefused (refusal batches self.old.locks (step_of step.now)) (step_of step.now) why) }
        ensures unchanged { OnErr result (self.new ≡ self.old) }
    {
        self.permits(step)?;
        let copy = step.try_copy(self.alloc)?;
        self.step(copy)?;
        Ok(())
    }

    /// Establishes that permitted steps of batches lead from a set of pixels to this world, and that fewer than 2^64
    /// steps lead to its end. The theorems about the step machine then apply to any world. Has no effect at run time;
    /// allocates nothing.
    pub fn prove_reachable(&self)
        ensures reached { IsReachable batches self.now }
        ensures short { steps_left batches self.now.locks.clients < 2 ^ 64 }
    {
        // Reading a field makes the invariant of the world available to the proof.
        let _begun = self.begun;
    }

    /// Returns a permitted step of a midway client, neither a Quit nor a Begin, if a client is midway.
    pub(crate) fn next(&self) -> Option<Step>
        ensures some { IfSome result (λ s.
            (refusal batches self.now.locks (step_of s) ≡ None) × (is_progress (step_of s) ≡ true)) }
        ensures none { result ≡ None → map.len self.now.locks.clients ≡ 0 }
    {
        for part in Part::ALL.iter().rev() {
            if let Some(client) = self.holders[part.index()] {
                return self.step_of_holder(client, *part);
            }
        }
        self.step_of_first()
    }

    /// Returns the next step of the client that holds the highest held part.
    fn step_of_holder(&self, client: u32, part: Part) -> Option<Step>
        requires { IsHighestHolder self.now client part }
        ensures step { IfSome result (λ s.
            (refusal batches self.now.locks (step_of s) ≡ None) × (is_progress (step_of s) ≡ true)) }
        ensures is { IsSome result }
    {
        let midway = self.clients.get(client)?;
        if !midway.quits() && midway.next_part().is_some() {
            return Some(Step::Take { client });
        }
        if !midway.quits() && !midway.has_edited(part) {
            return Some(Step::Edit { client, part });
        }
        Some(Step::Give { client, part })
    }

    /// Returns the next step of the first midway client if no part is held.
    fn step_of_first(&self) -> Option<Step>
        requires { NoPartHeld self.now }
        ensures some { IfSome result (λ s.
            (refusal batches self.now.locks (step_of s) ≡ None) × (is_progress (step_of s) ≡ true)) }
        ensures none { result ≡ None → map.len self.now.locks.clients ≡ 0 }
    {
        let client = self.clients.first()?;
        let midway = self.clients.get(client)?;
        if midway.quits() || midway.has_taken_some() {
            return Some(Step::End { client });
        }
        Some(Step::Take { client })
    }
}

/// Shows the number of operations that have begun and the number of clients that are midway.
impl fmt::Debug for World {
    fn fmt<W: fmt::Write>(&self, f: &mut fmt::Formatter<W>) -> fmt::Result {
        let begun = self.begun;
        let midway = self.midway();
        write!(f, "World {{ begun: {begun}, midway: {midway} }}")
    }
}

/// Returns the lists of all parts.
fn lists(parts: &[SharedList]) -> [Option<&Coverage>; 12]
    requires { length parts.now ≡ 12 }
    ensures { given_sets result ≡ parts.now }
{
    let mut lists = [None; 12];
    for (b, part) in parts.iter().enumerate() {
        lists[b] = Some(part.list());
    }
    lists
}
