//! A client of a map, with its pointer to the shared map.
ghost use Rattle.std.specs.Prelude.{◌≡◌, ◌++◌, ◌∷◌, [], ◌<◌, ◌≤◌, All, IfOk, length};
ghost use Rattle.moc_lists.specs.RangeList.{NumberSet};
ghost use Rattle.moc_parts.specs.CellCommands.{command_on_cell};
ghost use Rattle.moc_parts.specs.declared.reply.Reply.TheVariants.{Cover};
ghost use Rattle.moc_c.specs.Membership.{IsNewMember};
ghost use Rattle.moc_c.specs.Sharing.{Gives, whole_sky};
ghost use Rattle.moc_c.specs.Private.Making.{ReadsWholeSky, replies_of, Tries};
ghost use Rattle.moc_shared.specs.Clients.{IsClientOf, number_of};

use crate::error::CallError;
use moc_parts::{Batch, CellCommand, Command, Operand, Replies, Reply};
use moc_ranges::{Coverage, Memory};
use moc_shared::{Client, NewError, SharedMap, TryError};
use std::alloc::Global;
use std::marker::Model;
use std::sync::Arc;

/// A client of a map, and the clients that it can still give away.
#[derive(Drop)]
pub struct Member {
    map: Arc<SharedMap, Global>,
    client: Client,
    unassigned: Vec<Client>,
}

impl Model for Member {
    ghost use Rattle.std.specs.Arc.{arc_value};
    ghost use Rattle.moc_c.specs.Private.Storing.{AreMembers, membership_code};
    ghost use Rattle.moc_c.specs.Membership.{Membership};

    ghost Value = { Membership };

    ghost coded = { membership_code };

    ghost view = { λ m. record { map = arc_value m.map; client = m.client; unassigned = m.unassigned.items } };

    ghost invariant = { λ m. AreMembers (arc_value m.map) m.client m.unassigned.items };
}

impl Member {
    /// Returns the last client of a new map, with all other clients. O(n) for n ranges. Fails if an allocation fails.
    pub(crate) fn begin(alloc: Global, start: Coverage, clients: u8) -> Result<Member, Memory>
        requires some { 0 < clients }
        requires bounded { clients ≤ 64 }
        ensures { IfOk result (λ m. IsNewMember start clients m) }
    {
        match SharedMap::new(alloc, start, clients) {
            Ok((map, all)) => Member::last(alloc, map, all),
            Err(NewError::BadCount) => unreachable!(),
            Err(NewError::Memory) => Err(Memory),
        }
    }

    /// Returns the last client of a map, with all other clients.
    fn last(alloc: Global, map: SharedMap, clients: Vec<Client>) -> Result<Member, Memory>
        requires some { 0 < length clients.items }
        requires of_map { All (λ c. IsClientOf map c) clients.items }
        ensures { IfOk result (λ m. (m.map ≡ map) × (m.unassigned ++ m.client ∷ [] ≡ clients.items)) }
    {
        let mut unassigned = clients;
        let Some(client) = unassigned.pop() else {
            unreachable!();
        };
        let Ok(map) = Arc::new(alloc, map) else {
            return Err(Memory);
        };
        Ok(Member {
            map,
            client,
            unassigned,
        })
    }

    /// Returns the client's number. Does not allocate.
    pub(crate) fn number(&self) -> u8
        ensures { result ≡ number_of self.now.client }
    {
        self.client.number()
    }

    /// Returns one of the clients that can be given away, as a member of the same map. O(1). Fails if none is left, or
    /// if an allocation fails.
    pub(crate) fn give(&mut self, alloc: Global) -> Result<Member, CallError>
        ensures { Gives self.old self.new result }
    {
        let Ok(map) = Arc::try_clone(&self.map) else {
            return Err(CallError::Memory);
        };
        match self.unassigned.pop() {
            Some(client) => Ok(Member {
                map,
                client,
                unassigned: Vec::new(alloc),
            }),
            None => Err(CallError::NoClient),
        }
    }

    /// Executes a batch, or fails if another client holds a part that it needs. As `SharedMap::try_apply`.
    pub(crate) fn apply(&mut self, batch: &Batch) -> Result<Replies, TryError>
        ensures { Tries self.old self.new batch.now result }
    {
        self.map.try_apply(&mut self.client, batch)
    }

    /// Executes one command, or fails if another client holds a part that it needs. As `SharedMap::try_answer`.
    pub(crate) fn answer(&mut self, command: &Command) -> Result<Reply, TryError>
        ensures { Tries self.old self.new (command.now ∷ []) (replies_of result) }
    {
        self.map.try_answer(&mut self.client, command)
    }

    /// Executes a command on one cell, or fails if another client holds its part. As `SharedMap::try_answer_cell`.
    pub(crate) fn answer_cell(&mut self, command: &CellCommand) -> Result<Reply, TryError>
        ensures { Tries self.old self.new (command_on_cell command.now ∷ []) (replies_of result) }
    {
        self.map.try_answer_cell(&mut self.client, command)
    }

    /// Executes a command on one cell as [`Member::answer_cell`] does, and returns its reply as a list.
    pub(crate) fn apply_cell(
        &mut self,
        alloc: Global,
        command: &CellCommand,
    ) -> Result<Replies, TryError>
        ensures { Tries self.old self.new (command_on_cell command.now ∷ []) result }
    {
        // The use of a field makes the invariant of the type available to the proof.
        let _ = &self.map;
        // Every allocation that can fail precedes the first change of the map.
        let mut replies = Replies::one(alloc, Reply::Claimed)?;
        replies.set_only(self.answer_cell(command)?);
        Ok(replies)
    }

    /// Returns a copy of the map's set by a query of the whole sky. Allocates its ranges. Fails if another client
    /// holds a part, or if an allocation fails.
    pub(crate) fn read(&mut self, alloc: Global) -> Result<Coverage, TryError>
        ensures { ReadsWholeSky self.old self.new result }
    {
        let batch = whole_sky(alloc)?;
        let replies = self.apply(&batch)?;
        Ok(cover_of(alloc, &replies)?)
    }
}

/// Returns a copy of the set that is the only reply.
fn cover_of(alloc: Global, replies: &Replies) -> Result<Coverage, Memory>
    requires { (a : NumberSet) × (replies.now ≡ Cover a ∷ []) }
    ensures { IfOk result (λ a. replies.now ≡ Cover a ∷ []) }
{
    match replies.first() {
        Some(Reply::Cover(set)) => set.try_copy(alloc),
        _ => unreachable!(),
    }
}

/// Returns the batch that reads all pixels.
fn whole_sky(alloc: Global) -> Result<Batch, Memory>
    ensures { IfOk result (λ batch. batch ≡ whole_sky) }
{
    let sky = Coverage::full(alloc)?;
    Batch::one(alloc, Command::Read(Operand::from(sky)))
}
