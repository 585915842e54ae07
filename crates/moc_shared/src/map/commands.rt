//! Executing single commands on a map.
ghost use Rattle.std.specs.Prelude.{◌≡◌, [], ◌∷◌, IfOk, IfErr, OnErr};
ghost use Rattle.moc_parts.specs.CellCommands.{command_on_cell};
ghost use Rattle.moc_parts.specs.Commands.{NeedsOnly};
ghost use Rattle.moc_shared.specs.Clients.{number_of, record_of, call_of};
ghost use Rattle.moc_shared.specs.Clients.{IsClientOf, TakesEffect, AfterTryApply};
ghost use Rattle.moc_shared.specs.Clients.{TakesEffectAfterWaiting, FailsOutOfMemoryWaiting};
ghost use Rattle.moc_shared.specs.Private.CommandResults.{IsCommandResult, IsTryResult};

use crate::calls::single::{execute_single, single_part};
use crate::calls::waiting::wait_for_slot;
use crate::client::Client;
use crate::errors::{Busy, TryError};
use crate::map::SharedMap;
use crate::table::steps::take_slot;
use moc_parts::{Batch, CellCommand, Command, Part, PartCommand, Replies, Reply};
use moc_ranges::Memory;
use std::sync::Wait;

impl SharedMap {
    /// Executes one command like `apply` with a batch of this command, and returns its reply. Waits for parts that are
    /// held; the waiting time is unbounded.
    ///
    /// An `Add`, `Remove` or `Claim` whose operand is within one part and has no order, and a `Count` of one range
    /// there, need no batch and only take this part. The list of the part is changed in place if no one else shares it,
    /// and copied otherwise; a copy shares its blocks.
    ///
    /// # Errors
    /// Fails with `Memory` if an allocation fails. The map is then unchanged, and the client holds no part; a query may
    /// have taken effect without returning its reply. The command is dropped in any case.
    ///
    /// # Complexity
    /// As `Map::answer` of `moc_parts`, and one compare-exchange for each part of the footprint.
    pub fn answer<R: Wait>(
        &self,
        rt: &R,
        client: &mut Client,
        command: Command,
    ) -> Result<Reply, Memory>
        requires map { IsClientOf self.now client.old }
        ensures map { IsClientOf self.now client.new }
        ensures number { number_of client.new ≡ number_of client.old }
        ensures ok { IfOk result (λ r. TakesEffectAfterWaiting self.now (call_of client.old (command ∷ []) (r ∷ []))
            (record_of client.old) (record_of client.new)) }
        ensures err { OnErr result
            (FailsOutOfMemoryWaiting self.now (command ∷ []) (record_of client.old) (record_of client.new)) }
    {
        match single_part(&command) {
            Some(part) => self.execute_in_part(rt, client, &command, part),
            None => self.execute_as_batch(rt, client, command),
        }
    }

    /// Executes one command like `try_apply` with a batch of this command, and returns its reply. Does not wait.
    ///
    /// The commands that `answer` executes on one part without a batch are executed so here too. The command is only
    /// borrowed, so that the caller can try again.
    ///
    /// # Errors
    /// Fails with `Busy` if another client holds a part of the footprint, and with `Memory` if an allocation fails. The
    /// map is then unchanged, and the client holds no part. After `Memory`, a query may have taken effect without
    /// returning its reply.
    ///
    /// # Complexity
    /// As `Map::answer` of `moc_parts`, and one compare-exchange for each part of the footprint. A command that needs a
    /// batch is copied, as by `Command::try_copy`. A `Count` of one range within one part allocates nothing.
    pub fn try_answer(&self, client: &mut Client, command: &Command) -> Result<Reply, TryError>
        requires map { IsClientOf self.now client.old }
        ensures map { IsClientOf self.now client.new }
        ensures number { number_of client.new ≡ number_of client.old }
        ensures ok { IfOk result (λ r. TakesEffect self.now (call_of client.old (command.now ∷ []) (r ∷ []))
            (record_of client.old) (record_of client.new)) }
        ensures err { IfErr result
            (λ e. AfterTryApply self.now (command.now ∷ []) e (record_of client.old) (record_of client.new)) }
    {
        match single_part(command) {
            Some(part) => self.try_in_part(client, command, part),
            None => self.try_as_batch(client, command),
        }
    }

    /// Executes a command on one cell like `answer` with the `Command` on the set of the cell. Waits for its part if it
    /// is held; the waiting time is unbounded. Does not allocate the set of the cell.
    ///
    /// # Errors
    /// Fails with `Memory` if an allocation fails. The map is then unchanged, and the client holds no part.
    ///
    /// # Complexity
    /// As `try_answer_cell`.
    pub fn answer_cell<R: Wait>(
        &self,
        rt: &R,
        client: &mut Client,
        command: &CellCommand,
    ) -> Result<Reply, Memory>
        requires map { IsClientOf self.now client.old }
        ensures map { IsClientOf self.now client.new }
        ensures number { number_of client.new ≡ number_of client.old }
        ensures ok { IfOk result (λ r. TakesEffectAfterWaiting self.now
            (call_of client.old (command_on_cell command.now ∷ []) (r ∷ []))
            (record_of client.old) (record_of client.new)) }
        ensures err { OnErr result (FailsOutOfMemoryWaiting self.now (command_on_cell command.now ∷ [])
            (record_of client.old) (record_of client.new)) }
    {
        self.execute_in_part(rt, client, command, command.part())
    }

    /// Executes a command on one cell like `try_answer` with the `Command` on the set of the cell. Does not wait, and
    /// does not allocate this set.
    ///
    /// # Errors
    /// Fails with `Busy` if another client holds the part of the cell, and with `Memory` if an allocation fails. The
    /// map is then unchanged, and the client holds no part.
    ///
    /// # Complexity
    /// One compare-exchange, and the cost of `Coverage::insert_cell`, `remove_cell` or `count_cell`. A claim has the
    /// cost of a count and of an addition. If someone else shares the list of the part, a change first copies a pointer
    /// and a number for each of its nodes. A count allocates nothing.
    pub fn try_answer_cell(
        &self,
        client: &mut Client,
        command: &CellCommand,
    ) -> Result<Reply, TryError>
        requires map { IsClientOf self.now client.old }
        ensures map { IsClientOf self.now client.new }
        ensures number { number_of client.new ≡ number_of client.old }
        ensures ok { IfOk result (λ r. TakesEffect self.now
            (call_of client.old (command_on_cell command.now ∷ []) (r ∷ []))
            (record_of client.old) (record_of client.new)) }
        ensures err { IfErr result (λ e. AfterTryApply self.now (command_on_cell command.now ∷ []) e
            (record_of client.old) (record_of client.new)) }
    {
        self.try_in_part(client, command, command.part())
    }

    /// Executes a command on its single part, or fails if another client holds it.
    fn try_in_part<C: PartCommand>(
        &self,
        client: &mut Client,
        command: &C,
        part: Part,
    ) -> Result<Reply, TryError>
        requires map { IsClientOf self.now client.old }
        requires single { NeedsOnly (C.command command.now) part }
        ensures { IsTryResult self.now (C.command command.now) client.old client.new result }
    {
        let mark = client.mark();
        let table = &self.table.shared;
        match take_slot(table, &mut client.seat, part, mark) {
            Ok(pointer) => {
                match execute_single(table, self.alloc, &mut client.seat, part, pointer, command) {
                    Ok(reply) => Ok(reply),
                    Err(Memory) => Err(TryError::Memory),
                }
            }
            Err(holder) => Err(TryError::Busy(Busy { part, holder })),
        }
    }

    /// Executes a batch of one command on its single part, or fails if another client holds it.
    pub(crate) fn try_apply_in_part(
        &self,
        client: &mut Client,
        command: &Command,
        part: Part,
    ) -> Result<Replies, TryError>
        requires map { IsClientOf self.now client.old }
        requires single { NeedsOnly command.now part }
        ensures map { IsClientOf self.now client.new }
        ensures number { number_of client.new ≡ number_of client.old }
        ensures ok { IfOk result (λ r. TakesEffect self.now (call_of client.old (command.now ∷ []) r)
            (record_of client.old) (record_of client.new)) }
        ensures err { IfErr result
            (λ e. AfterTryApply self.now (command.now ∷ []) e (record_of client.old) (record_of client.new)) }
    {
        // Every allocation that can fail precedes the first change of the map.
        let mut replies = Replies::one(self.alloc, Reply::Claimed)?;
        replies.set_only(self.try_in_part(client, command, part)?);
        Ok(replies)
    }

    /// Executes a command as a batch, or fails if another client holds a part of its footprint.
    fn try_as_batch(&self, client: &mut Client, command: &Command) -> Result<Reply, TryError>
        requires { IsClientOf self.now client.old }
        ensures { IsTryResult self.now command.now client.old client.new result }
    {
        let batch = Batch::one(self.alloc, command.try_copy(self.alloc)?)?;
        let replies = self.try_apply(client, &batch)?;
        Ok(replies.into_only())
    }

    /// Executes a command on its single part.
    fn execute_in_part<R: Wait, C: PartCommand>(
        &self,
        rt: &R,
        client: &mut Client,
        command: &C,
        part: Part,
    ) -> Result<Reply, Memory>
        requires map { IsClientOf self.now client.old }
        requires single { NeedsOnly (C.command command.now) part }
        ensures { IsCommandResult self.now (C.command command.now) client.old client.new result }
    {
        let mark = client.mark();
        let table = &self.table.shared;
        let pointer = wait_for_slot(rt, table, &mut client.seat, part, mark);
        execute_single(table, self.alloc, &mut client.seat, part, pointer, command)
    }

    /// Executes a batch of one command on its single part.
    pub(crate) fn apply_in_part<R: Wait>(
        &self,
        rt: &R,
        client: &mut Client,
        command: &Command,
        part: Part,
    ) -> Result<Replies, Memory>
        requires map { IsClientOf self.now client.old }
        requires single { NeedsOnly command.now part }
        ensures map { IsClientOf self.now client.new }
        ensures number { number_of client.new ≡ number_of client.old }
        ensures ok { IfOk result (λ r. TakesEffectAfterWaiting self.now (call_of client.old (command.now ∷ []) r)
            (record_of client.old) (record_of client.new)) }
        ensures err { OnErr result
            (FailsOutOfMemoryWaiting self.now (command.now ∷ []) (record_of client.old) (record_of client.new)) }
    {
        // Every allocation that can fail precedes the first change of the map.
        let mut replies = Replies::one(self.alloc, Reply::Claimed)?;
        replies.set_only(self.execute_in_part(rt, client, command, part)?);
        Ok(replies)
    }

    /// Executes a command as a batch.
    fn execute_as_batch<R: Wait>(
        &self,
        rt: &R,
        client: &mut Client,
        command: Command,
    ) -> Result<Reply, Memory>
        requires { IsClientOf self.now client.old }
        ensures { IsCommandResult self.now command client.old client.new result }
    {
        let batch = Batch::one(self.alloc, command)?;
        let replies = self.apply(rt, client, &batch)?;
        Ok(replies.into_only())
    }
}
