//! Executing batches on a map, either at once or in two steps with held parts.
ghost use Rattle.std.specs.Prelude.{◌≡◌, false, IfOk, IfErr, OnOk, OnErr, MatchResult};
ghost use Rattle.std.specs.List.{list_any};
ghost use Rattle.moc_parts.specs.Commands.{is_update};
ghost use Rattle.moc_shared.specs.Clients.{number_of, record_of, holder_of, held_batch, call_of};
ghost use Rattle.moc_shared.specs.Clients.{IsClientOf, IsHoldingOf, TakesEffect};
ghost use Rattle.moc_shared.specs.Clients.{MissesPart, HasNoEffect, FailsOutOfMemoryHolding};
ghost use Rattle.moc_shared.specs.Clients.{TakesEffectAfterWaiting, FailsOutOfMemoryWaiting};
ghost use Rattle.moc_shared.specs.Clients.{AfterTryApply, AfterLook, AfterSnapshot};

use crate::calls::execution::{execute_held, observe};
use crate::calls::footprint::{give_all, take_all};
use crate::calls::single::single_part;
use crate::calls::waiting::wait_for_all;
use crate::client::{Client, Holding};
use crate::errors::{Busy, LookError, SnapshotError, TryError};
use crate::map::SharedMap;
use crate::snapshot::Snapshot;
use crate::table::slots::no_slots;
use moc_parts::{Batch, Replies};
use moc_ranges::Memory;
use std::sync::Wait;

impl SharedMap {
    /// Executes a batch without waiting. Takes the parts of its footprint in ascending order, executes the batch, and
    /// gives the parts back.
    ///
    /// # Errors
    /// Fails with `Busy` if another client holds a part of the footprint, and with `Memory` if an allocation fails. The
    /// map is then unchanged, and the client holds no part. After `Memory`, a query may have taken effect without
    /// returning its replies.
    ///
    /// # Complexity
    /// As `Map::apply`, and one compare-exchange for each part of the footprint. One command in one part is executed as
    /// by `try_answer`, after one allocation for its reply.
    pub fn try_apply(&self, client: &mut Client, batch: &Batch) -> Result<Replies, TryError>
        requires map { IsClientOf self.now client.old }
        ensures map { IsClientOf self.now client.new }
        ensures number { number_of client.new ≡ number_of client.old }
        ensures ok { IfOk result
            (λ r. TakesEffect self.now (call_of client.old batch.now r) (record_of client.old) (record_of client.new)) }
        ensures err { IfErr result
            (λ e. AfterTryApply self.now batch.now e (record_of client.old) (record_of client.new)) }
    {
        if let [command] = batch.commands() {
            if let Some(part) = single_part(command) {
                return self.try_apply_in_part(client, command, part);
            }
        }
        let mark = client.mark();
        let table = &self.table.shared;
        match take_all(table, self.alloc, &mut client.seat, mark, batch) {
            Ok(mut slots) => match execute_held(
                table,
                self.alloc,
                &mut client.seat,
                batch,
                &mut slots,
            ) {
                Ok(replies) => Ok(replies),
                Err(Memory) => Err(TryError::Memory),
            },
            Err(busy) => Err(TryError::Busy(busy)),
        }
    }

    /// Executes a batch like `try_apply`, but waits for each part that is held. A part that was taken is never given
    /// back in order to wait for another. The waiting time is unbounded.
    ///
    /// # Errors
    /// Fails with `Memory` if an allocation fails. The map is then unchanged, and the client holds no part; a query may
    /// have taken effect without returning its replies.
    ///
    /// # Complexity
    /// As `try_apply`, in addition to the waiting time: one compare-exchange for each try.
    pub fn apply<R: Wait>(
        &self,
        rt: &R,
        client: &mut Client,
        batch: &Batch,
    ) -> Result<Replies, Memory>
        requires map { IsClientOf self.now client.old }
        ensures map { IsClientOf self.now client.new }
        ensures number { number_of client.new ≡ number_of client.old }
        ensures ok { IfOk result
            (λ r. TakesEffectAfterWaiting self.now (call_of client.old batch.now r)
            (record_of client.old) (record_of client.new)) }
        ensures err { OnErr result
            (FailsOutOfMemoryWaiting self.now batch.now (record_of client.old) (record_of client.new)) }
    {
        if let [command] = batch.commands() {
            if let Some(part) = single_part(command) {
                return self.apply_in_part(rt, client, command, part);
            }
        }
        let mark = client.mark();
        let table = &self.table.shared;
        let mut slots = wait_for_all(rt, table, self.alloc, &mut client.seat, mark, batch);
        execute_held(table, self.alloc, &mut client.seat, batch, &mut slots)
    }

    /// Executes a query like `try_apply`, but returns a snapshot from which its replies can be computed later. Does not
    /// wait.
    ///
    /// # Errors
    /// Fails with `NotQuery` if the batch has an update, with `Busy` if another client holds a part of the footprint,
    /// and with `Memory` if an allocation fails. The query then has no effect.
    ///
    /// # Complexity
    /// One copy of the batch, and one compare-exchange for each part of the footprint.
    pub fn look(&self, client: &mut Client, batch: &Batch) -> Result<Snapshot, LookError>
        requires map { IsClientOf self.now client.old }
        ensures map { IsClientOf self.now client.new }
        ensures number { number_of client.new ≡ number_of client.old }
        ensures query { OnOk result (list_any is_update batch.now ≡ false) }
        ensures ok { IfOk result
            (λ seen. TakesEffect self.now (call_of client.old batch.now seen)
            (record_of client.old) (record_of client.new)) }
        ensures err { IfErr result
            (λ e. AfterLook self.now batch.now e (record_of client.old) (record_of client.new)) }
    {
        if batch.is_update() {
            return Err(LookError::NotQuery);
        }
        let Ok(batch) = batch.try_copy(self.alloc) else {
            return Err(LookError::Memory);
        };
        let mark = client.mark();
        let table = &self.table.shared;
        let mut slots = match take_all(table, self.alloc, &mut client.seat, mark, &batch) {
            Ok(slots) => slots,
            Err(busy) => return Err(LookError::Busy(busy)),
        };
        let mut copies = no_slots();
        match observe(table, &mut client.seat, &batch, &mut slots, &mut copies) {
            Ok(()) => Ok(Snapshot {
                batch,
                slots: copies,
            }),
            Err(_) => Err(LookError::Memory),
        }
    }

    /// Takes all parts in the footprint of a batch without waiting, so that `finish`, `let_go` or `snapshot` can be
    /// called later. Linear in the number of parts; allocates nothing.
    ///
    /// # Errors
    /// Fails with the client, the batch and `Busy` if another client holds a part of the footprint. The client then
    /// holds no part.
    pub fn hold(&self, client: Client, batch: Batch) -> Result<Holding, (Client, Batch, Busy)>
        requires map { IsClientOf self.now client }
        ensures held { IfOk result (λ h. IsHoldingOf self.now h) }
        ensures same { IfOk result (λ h. (held_batch h ≡ batch) × (number_of (holder_of h) ≡ number_of client)) }
        ensures ok { IfOk result (λ h. HasNoEffect batch (record_of client) (record_of (holder_of h))) }
        ensures map { IfErr result (λ e. IsClientOf self.now e.0) }
        ensures back { IfErr result (λ e. (e.1 ≡ batch) × (number_of e.0 ≡ number_of client)) }
        ensures busy { IfErr result (λ e. MissesPart self.now batch e.2 (record_of client) (record_of e.0)) }
    {
        let mut client = client;
        let mark = client.mark();
        match take_all(
            &self.table.shared,
            self.alloc,
            &mut client.seat,
            mark,
            &batch,
        ) {
            Ok(slots) => Ok(Holding {
                client,
                batch,
                slots,
            }),
            Err(busy) => Err((client, batch, busy)),
        }
    }

    /// Executes the batch of a holding, and gives all parts back.
    ///
    /// # Errors
    /// Fails with `Memory` if an allocation fails. The parts are then given back unchanged; a query may have taken
    /// effect without returning its replies.
    ///
    /// # Complexity
    /// Linear in the number of parts, in addition to the work of the batch.
    pub fn finish(&self, holding: Holding) -> (Client, Result<Replies, Memory>)
        requires map { IsHoldingOf self.now holding }
        ensures map { IsClientOf self.now result.0 }
        ensures number { number_of result.0 ≡ number_of (holder_of holding) }
        ensures done { MatchResult result.1
            (λ r. TakesEffect self.now (call_of (holder_of holding) (held_batch holding) r)
            (record_of (holder_of holding)) (record_of result.0))
            (λ _. FailsOutOfMemoryHolding self.now (held_batch holding)
            (record_of (holder_of holding)) (record_of result.0)) }
        ensures marks { (record_of result.0).marks ≡ (record_of (holder_of holding)).marks }
    {
        let Holding {
            mut client,
            batch,
            mut slots,
        } = holding;
        let done = execute_held(
            &self.table.shared,
            self.alloc,
            &mut client.seat,
            &batch,
            &mut slots,
        );
        (client, done)
    }

    /// Releases a holding: gives all parts back unchanged, without executing the batch. Linear in the number of parts;
    /// allocates nothing.
    pub fn let_go(&self, holding: Holding) -> Client
        requires map { IsHoldingOf self.now holding }
        ensures map { IsClientOf self.now result }
        ensures number { number_of result ≡ number_of (holder_of holding) }
        ensures same { record_of result ≡ record_of (holder_of holding) }
    {
        let Holding {
            mut client,
            batch: _,
            mut slots,
        } = holding;
        give_all(&self.table.shared, &mut client.seat, &mut slots);
        client
    }

    /// Executes the query of a holding: gives all parts back, and returns a snapshot from which the replies can be
    /// computed later. Linear in the number of parts.
    ///
    /// # Errors
    /// Fails with `NotQuery` and the unchanged holding if the batch has an update. Fails with `Memory` and the client
    /// if a pointer cannot be copied; all parts are then given back.
    pub fn snapshot(&self, holding: Holding) -> Result<(Client, Snapshot), SnapshotError>
        requires map { IsHoldingOf self.now holding }
        ensures map { IfOk result (λ r. IsClientOf self.now r.0) }
        ensures number { IfOk result (λ r. number_of r.0 ≡ number_of (holder_of holding)) }
        ensures query { IfOk result (λ _. list_any is_update (held_batch holding) ≡ false) }
        ensures ok { IfOk result
            (λ r. TakesEffect self.now (call_of (holder_of holding) (held_batch holding) r.1)
            (record_of (holder_of holding)) (record_of r.0)) }
        ensures marks { IfOk result (λ r. (record_of r.0).marks ≡ (record_of (holder_of holding)).marks) }
        ensures err { IfErr result (λ e. AfterSnapshot self.now holding e) }
    {
        if holding.batch.is_update() {
            return Err(SnapshotError::NotQuery(holding));
        }
        let Holding {
            mut client,
            batch,
            mut slots,
        } = holding;
        let mut copies = no_slots();
        match observe(
            &self.table.shared,
            &mut client.seat,
            &batch,
            &mut slots,
            &mut copies,
        ) {
            Ok(()) => Ok((
                client,
                Snapshot {
                    batch,
                    slots: copies,
                },
            )),
            Err(_) => Err(SnapshotError::Memory(client)),
        }
    }
}
