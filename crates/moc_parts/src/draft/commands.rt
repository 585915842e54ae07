//! The effect of each command on a draft.
ghost use Rattle.std.specs.Prelude.{◌≡◌, ◌≤◌, IfOk, OnOk, if◌then◌else◌};
ghost use Rattle.std.specs.FinSet as set;
ghost use Rattle.moc_ranges.specs.Cells.{degrade};
ghost use Rattle.moc_ranges.specs.Operations.{complement, meets};
ghost use Rattle.moc_lists.specs.RangeList.{pixel_count};
ghost use Rattle.moc_parts.specs.Batches.{replies_on, set_after_all, AreCommands};
ghost use Rattle.moc_parts.specs.Commands.{operand_set, reply_on, set_after, surroundings, IsCommand, IsOperand};
ghost use Rattle.moc_parts.specs.Parts.{union_of};
ghost use Rattle.moc_parts.specs.Prepared.{given_sets};
ghost use Rattle.moc_parts.specs.Private.Drafts.{AreParts};
ghost use Rattle.moc_parts.specs.declared.reply.Reply.TheVariants as reply;
ghost use Rattle.moc_sphere.specs.CellNumber.{max_order};

use crate::change::Change;
use crate::command::{Command, Operand};
use crate::draft::Draft;
use crate::reply::{Replies, Reply};
use crate::surroundings::surroundings_of;
use moc_ranges::{Coverage, Memory, PIXEL_COUNT};
use moc_sphere::{Cell, Order};
use std::alloc::Global;

impl<'a> Draft<'a> {
    /// Adds the set of an operand.
    fn add(&mut self, alloc: Global, operand: &Operand) -> Result<Reply, Memory>
        requires { IsOperand operand.now }
        ensures set { OnOk result (self.new.set ≡ set.union self.old.set (operand_set operand.now)) }
        ensures reply { IfOk result (λ r.
            r ≡ reply.Changed (set.len (set.difference (operand_set operand.now) self.old.set))) }
        ensures before { self.new.before ≡ self.old.before }
    {
        let effective_set = operand.effective_set(alloc)?;
        let added = self.change(alloc, &Change::Union(effective_set.set()))?;
        Ok(Reply::Changed(added))
    }

    /// Removes the set of an operand.
    fn remove(&mut self, alloc: Global, operand: &Operand) -> Result<Reply, Memory>
        requires { IsOperand operand.now }
        ensures set { OnOk result (self.new.set ≡ set.difference self.old.set (operand_set operand.now)) }
        ensures reply { IfOk result (λ r.
            r ≡ reply.Changed (set.len (set.intersection self.old.set (operand_set operand.now)))) }
        ensures before { self.new.before ≡ self.old.before }
    {
        let effective_set = operand.effective_set(alloc)?;
        let removed = self.change(alloc, &Change::Subtract(effective_set.set()))?;
        Ok(Reply::Changed(removed))
    }

    /// Keeps the pixels that are in the set of an operand.
    fn keep(&mut self, alloc: Global, operand: &Operand) -> Result<Reply, Memory>
        requires { IsOperand operand.now }
        ensures set { OnOk result (self.new.set ≡ set.intersection self.old.set (operand_set operand.now)) }
        ensures reply { IfOk result (λ r.
            r ≡ reply.Changed (set.len (set.difference self.old.set (operand_set operand.now)))) }
        ensures before { self.new.before ≡ self.old.before }
    {
        let effective_set = operand.effective_set(alloc)?;
        let removed = self.change(alloc, &Change::Intersect(effective_set.set()))?;
        Ok(Reply::Changed(removed))
    }

    /// Adds the set of an operand if none of its pixels is in the draft.
    fn claim(&mut self, alloc: Global, operand: &Operand) -> Result<Reply, Memory>
        requires { IsOperand operand.now }
        ensures set { OnOk result (self.new.set
            ≡ (if meets self.old.set (operand_set operand.now)
            then self.old.set
            else set.union self.old.set (operand_set operand.now))) }
        ensures reply { IfOk result (λ r. r ≡ (if meets self.old.set (operand_set operand.now)
            then reply.Taken (set.len (set.intersection self.old.set (operand_set operand.now)))
            else reply.Claimed)) }
        ensures before { self.new.before ≡ self.old.before }
    {
        let effective_set = operand.effective_set(alloc)?;
        let other = effective_set.set();
        let common = self.count_common(other);
        if common > 0 {
            return Ok(Reply::Taken(common));
        }
        self.change(alloc, &Change::Union(other))?;
        Ok(Reply::Claimed)
    }

    /// Replaces the set by its complement in the sky.
    fn invert(&mut self, alloc: Global) -> Result<Reply, Memory>
        ensures set { OnOk result (self.new.set ≡ complement self.old.set) }
        ensures reply { IfOk result (λ r. r ≡ reply.Changed pixel_count) }
        ensures before { self.new.before ≡ self.old.before }
    {
        self.change(alloc, &Change::Invert)?;
        Ok(Reply::Changed(PIXEL_COUNT))
    }

    /// Degrades the set to an order.
    fn degrade(&mut self, alloc: Global, order: Order) -> Result<Reply, Memory>
        requires { order ≤ max_order }
        ensures set { OnOk result (self.new.set ≡ degrade self.old.set order) }
        ensures reply { IfOk result (λ r.
            r ≡ reply.Changed (set.len (set.difference (degrade self.old.set order) self.old.set))) }
        ensures before { self.new.before ≡ self.old.before }
    {
        let added = self.change(alloc, &Change::Degrade(order))?;
        Ok(Reply::Changed(added))
    }

    /// Counts the pixels in the intersection with the set of an operand.
    fn total(&self, alloc: Global, operand: &Operand) -> Result<Reply, Memory>
        ensures { IfOk result (λ r.
            r ≡ reply.Total (set.len (set.intersection self.now.set (operand_set operand.now)))) }
    {
        let effective_set = operand.effective_set(alloc)?;
        Ok(Reply::Total(self.count_common(effective_set.set())))
    }

    /// Returns the intersection with the set of an operand.
    fn read(&self, alloc: Global, operand: &Operand) -> Result<Reply, Memory>
        ensures { IfOk result (λ r. r ≡ reply.Cover (set.intersection self.now.set (operand_set operand.now))) }
    {
        let effective_set = operand.effective_set(alloc)?;
        Ok(Reply::Cover(self.common(alloc, effective_set.set())?))
    }

    /// Returns whether the set has a pixel in a cell or in a cell that touches it.
    fn near(&self, alloc: Global, cell: Cell) -> Result<Reply, Memory>
        ensures { IfOk result (λ r. r ≡ reply.Near (meets self.now.set (surroundings cell))) }
    {
        let around = surroundings_of(alloc, cell)?;
        Ok(Reply::Near(self.meets(&around)))
    }

    /// Executes one command.
    pub(crate) fn answer(&mut self, alloc: Global, command: &Command) -> Result<Reply, Memory>
        requires { IsCommand command.now }
        ensures set { OnOk result (self.new.set ≡ set_after self.old.set command.now) }
        ensures reply { IfOk result (λ r. r ≡ reply_on self.old.set command.now) }
        ensures before { self.new.before ≡ self.old.before }
    {
        match command {
            Command::Add(x) => self.add(alloc, x),
            Command::Remove(x) => self.remove(alloc, x),
            Command::Keep(x) => self.keep(alloc, x),
            Command::Claim(x) => self.claim(alloc, x),
            Command::Invert => self.invert(alloc),
            Command::Degrade(order) => self.degrade(alloc, *order),
            Command::Count(x) => self.total(alloc, x),
            Command::Read(x) => self.read(alloc, x),
            Command::Near(cell) => self.near(alloc, *cell),
        }
    }

    /// Executes commands in order.
    fn answer_all(&mut self, alloc: Global, commands: &[Command]) -> Result<Replies, Memory>
        requires { AreCommands commands.now }
        ensures set { OnOk result (self.new.set ≡ set_after_all self.old.set commands.now) }
        ensures replies { IfOk result (λ r. r ≡ replies_on self.old.set commands.now) }
        ensures before { self.new.before ≡ self.old.before }
    {
        let mut replies = Replies::new(alloc);
        for command in commands {
            replies.push(self.answer(alloc, command)?)?;
        }
        Ok(replies)
    }

    /// Executes commands in order on a draft of the given lists. Returns the draft and the replies.
    pub(crate) fn run(
        alloc: Global,
        lists: &'a [Option<&'a Coverage>; 12],
        no_pixels: &'a Coverage,
        commands: &[Command],
    ) -> Result<(Draft<'a>, Replies), Memory>
        requires parts { AreParts (given_sets lists.now) }
        requires no_pixels { no_pixels.now ≡ set.empty }
        requires valid { AreCommands commands.now }
        ensures draft { IfOk result (λ r. r.0 ≡ record {
          before = given_sets lists.now;
          set = set_after_all (union_of (given_sets lists.now)) commands.now;
        }) }
        ensures replies { IfOk result (λ r. r.1 ≡ replies_on (union_of (given_sets lists.now)) commands.now) }
    {
        let mut draft = Draft::from_lists(alloc, lists, no_pixels);
        let replies = draft.answer_all(alloc, commands)?;
        Ok((draft, replies))
    }
}
