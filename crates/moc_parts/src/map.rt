//! A set of pixels in twelve parts, changed and queried by commands.
ghost use Rattle.std.specs.Prelude.{◌≡◌, ◌<◌, IfOk, OnOk, OnErr, length};
ghost use Rattle.moc_ranges.specs.Operations.{part_of, IsWithin, pixels};
ghost use Rattle.moc_parts.specs.Batches.{replies_on, set_after_all};
ghost use Rattle.moc_parts.specs.CellCommands.{command_on_cell};
ghost use Rattle.moc_parts.specs.Commands.{reply_on, set_after, NeedsOnly};
ghost use Rattle.moc_parts.specs.Private.Drafts.{current_lists};
ghost use Rattle.moc_parts.specs.Prepared.{given_sets};
ghost use Rattle.moc_parts.specs.Parts.{part_count};

use crate::batch::Batch;
use crate::command::Command;
use crate::draft::Draft;
use crate::lists::Lists;
use crate::part::Part;
use crate::part_command::{CellCommand, PartCommand};
use crate::reply::{Replies, Reply};
use crate::whole::{merge_parts, split_by_base_pixel};
use moc_ranges::{Coverage, Memory};
use std::alloc::Global;
use std::marker::Model;

/// A set of pixels, stored as the lists of ranges of its twelve parts.
#[derive(Debug, Drop)]
pub struct Map {
    parts: Vec<Coverage>,
}

impl Model for Map {
    ghost use Rattle.std.specs.Ordering.{nat_cmp};
    ghost use Rattle.moc_parts.specs.Private.Drafts.{AreParts};
    ghost use Rattle.std.specs.FinSet as set;
    ghost use Rattle.std.specs.Coded.{coded_ℕ};
    ghost use Rattle.moc_parts.specs.Parts.{union_of};

    ghost Value = { set.FinSet nat_cmp };

    ghost coded = { set.code coded_ℕ };

    ghost view = { λ m. union_of m.parts.items };

    ghost invariant = { λ m. AreParts m.parts.items };
}

impl Map {
    /// Creates the map of a set. O(n) for n ranges.
    ///
    /// # Errors
    /// Fails with `Memory` if an allocation fails.
    pub fn new(alloc: Global, start: Coverage) -> Result<Map, Memory>
        ensures { IfOk result (λ m. m ≡ start) }
    {
        let parts = split_by_base_pixel(alloc, &start)?;
        Ok(Map { parts })
    }

    /// Returns the pixels of one part. O(1); allocates nothing.
    pub fn part(&self, part: Part) -> &Coverage
        ensures part { result.now ≡ part_of self.now part }

        // A caller that assembles the map from its parts requires this fact.
        ensures within { IsWithin self.now pixels }
    {
        &self.parts[part.index()]
    }

    /// Returns the whole set. Computes one union for each part.
    ///
    /// # Errors
    /// Fails with `Memory` if an allocation fails.
    pub fn coverage(&self, alloc: Global) -> Result<Coverage, Memory>
        ensures { IfOk result (λ c. c ≡ self.now) }
    {
        let whole = merge_parts(alloc, &lists(&self.parts))?;
        Ok(whole)
    }

    /// Executes the commands of a batch in order, and returns the reply to each.
    ///
    /// # Errors
    /// Fails with `Memory` if an allocation fails; the map is then unchanged.
    ///
    /// # Complexity
    /// A batch of one command costs as much as `answer`. In longer batches, a command that changes a part computes the
    /// new list of the part in one pass; unchanged lists are not copied.
    pub fn apply(&mut self, alloc: Global, batch: &Batch) -> Result<Replies, Memory>
        ensures set { OnOk result (self.new ≡ set_after_all self.old batch.now) }
        ensures replies { IfOk result (λ r. r ≡ replies_on self.old batch.now) }
        ensures unchanged { OnErr result (self.new ≡ self.old) }
    {
        if let [command] = batch.commands() {
            // Every allocation that can fail precedes the first change of the set.
            let mut replies = Replies::one(alloc, Reply::Claimed)?;
            replies.set_only(self.answer(alloc, command)?);
            return Ok(replies);
        }
        let lists = lists(&self.parts);
        let no_pixels = Coverage::empty(alloc);
        let (draft, replies) = Draft::run(alloc, &lists, &no_pixels, batch.commands())?;
        let new_lists = draft.into_new_lists();
        replace_lists(&mut self.parts, new_lists);
        Ok(replies)
    }

    /// Executes one command and returns its reply. The result is that of `apply` on the batch of this command, without
    /// allocating a batch.
    ///
    /// # Errors
    /// Fails with `Memory` if an allocation fails; the map is then unchanged.
    ///
    /// # Complexity
    /// An `Add`, `Remove`, `Claim`, `Count` or `Read`, whose operand is within one part and has no order, only accesses
    /// the list of that part, as `Command::execute_on` does. Any other command that changes a part computes the new
    /// list of the part in one pass; unchanged lists are not copied.
    pub fn answer(&mut self, alloc: Global, command: &Command) -> Result<Reply, Memory>
        ensures set { OnOk result (self.new ≡ set_after self.old command.now) }
        ensures reply { IfOk result (λ r. r ≡ reply_on self.old command.now) }
        ensures unchanged { OnErr result (self.new ≡ self.old) }
    {
        match command.single_part() {
            Some(part) => self.answer_in_part(alloc, command, part),
            None => self.answer_in_draft(alloc, command),
        }
    }

    /// Executes a command on one cell, and returns its reply. The result is that of `answer` on the `Command` on the
    /// set of the cell, without allocating this set.
    ///
    /// # Errors
    /// Fails with `Memory` if an allocation fails; the map is then unchanged.
    ///
    /// # Complexity
    /// As `Coverage::insert_cell`, `remove_cell` or `count_cell` on the list of the part that has the cell. A claim
    /// counts and then inserts. A count allocates nothing.
    pub fn answer_cell(&mut self, alloc: Global, command: &CellCommand) -> Result<Reply, Memory>
        ensures set { OnOk result (self.new ≡ set_after self.old (command_on_cell command.now)) }
        ensures reply { IfOk result (λ r. r ≡ reply_on self.old (command_on_cell command.now)) }
        ensures unchanged { OnErr result (self.new ≡ self.old) }
    {
        self.answer_in_part(alloc, command, command.part())
    }

    /// Executes a command on the list of its single part.
    fn answer_in_part<C: PartCommand>(
        &mut self,
        alloc: Global,
        command: &C,
        part: Part,
    ) -> Result<Reply, Memory>
        requires { NeedsOnly (C.command command.now) part }
        ensures set { OnOk result (self.new ≡ set_after self.old (C.command command.now)) }
        ensures reply { IfOk result (λ r. r ≡ reply_on self.old (C.command command.now)) }
        ensures unchanged { OnErr result (self.new ≡ self.old) }
    {
        command.execute_on(alloc, &mut self.parts[part.index()])
    }

    /// Executes a command on a draft of all parts.
    fn answer_in_draft(&mut self, alloc: Global, command: &Command) -> Result<Reply, Memory>
        ensures set { OnOk result (self.new ≡ set_after self.old command.now) }
        ensures reply { IfOk result (λ r. r ≡ reply_on self.old command.now) }
        ensures unchanged { OnErr result (self.new ≡ self.old) }
    {
        // The operand is within the sky, and an order or a cell is valid.
        command.prove_in_sky();
        let lists = lists(&self.parts);
        let no_pixels = Coverage::empty(alloc);
        let mut draft = Draft::from_lists(alloc, &lists, &no_pixels);
        let reply = draft.answer(alloc, command)?;
        let new_lists = draft.into_new_lists();
        replace_lists(&mut self.parts, new_lists);
        Ok(reply)
    }
}

/// Returns the lists of all parts.
fn lists(parts: &[Coverage]) -> [Option<&Coverage>; 12]
    requires { length parts.now ≡ part_count }
    ensures { given_sets result ≡ parts.now }
{
    let mut lists = [None; 12];
    for (b, part) in parts.iter().enumerate() {
        lists[b] = Some(part);
    }
    lists
}

/// Replaces the lists of those parts that have a new list.
fn replace_lists(parts: &mut [Coverage], mut new_lists: Lists)
    requires twelve { length parts.old ≡ part_count }
    requires places { length new_lists ≡ part_count }
    ensures { parts.new ≡ current_lists parts.old new_lists }
{
    for part in Part::ALL {
        if let Some(list) = new_lists.take(part) {
            parts[part.index()] = list;
        }
    }
}
