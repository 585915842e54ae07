//! Meetings of clients, which order their calls, and the end of a map.
ghost use Rattle.std.specs.Prelude.{◌≡◌};
ghost use Rattle.moc_shared.specs.Clients.{number_of, record_of, IsClientOf, SeeSameHistory, TakesIn, AfterClose};

use crate::client::Client;
use crate::errors::CloseError;
use crate::map::SharedMap;
use crate::map::contents::{first_held, read_all, union_all};
use crate::table::seats::{join, merge_records, read_history, split};
use moc_ranges::{Coverage, Memory};

impl SharedMap {
    /// Lets two clients synchronize. Afterwards both have seen the same history, so that all earlier calls of either
    /// come before all later calls of both. Takes a constant number of steps; allocates nothing.
    pub fn meet(&self, a: &mut Client, b: &mut Client)
        requires first { IsClientOf self.now a.old }
        requires second { IsClientOf self.now b.old }
        ensures first { IsClientOf self.now a.new × (number_of a.new ≡ number_of a.old) }
        ensures second { IsClientOf self.now b.new × (number_of b.new ≡ number_of b.old) }
        ensures met { SeeSameHistory self.now (record_of a.old) (record_of a.new) (record_of b.old) (record_of b.new) }
    {
        let table = &self.table.shared;
        let idle = split(table, &mut b.seat);
        let seat = std::mem::replace(&mut a.seat, idle);
        join(table, &mut b.seat, seat);
        read_history(table, &mut b.seat);
        a.seat = split(table, &mut b.seat);
    }

    /// Merges the second client into the first. Afterwards the first has the record of both, so that all earlier calls
    /// of either come before its later calls. Takes a constant number of steps; allocates nothing.
    pub fn take_in(&self, a: &mut Client, b: Client)
        requires first { IsClientOf self.now a.old }
        requires second { IsClientOf self.now b }
        ensures first { IsClientOf self.now a.new × (number_of a.new ≡ number_of a.old) }
        ensures taken { TakesIn self.now (record_of a.old) (record_of b) (record_of a.new) }
    {
        let Client { number: _, seat } = b;
        join(&self.table.shared, &mut a.seat, seat);
        merge_records(&self.table.shared, &mut a.seat);
    }

    /// Closes the map and returns its set after a history that is consistent with the client's record. Computes one
    /// union for each part.
    ///
    /// # Errors
    /// Fails with `Midway` and the first held part if a part is still held, and with `Memory` if an allocation fails.
    /// The map is dropped in any case.
    pub fn close(self, client: Client) -> Result<Coverage, CloseError>
        requires { IsClientOf self client }
        ensures { AfterClose self (record_of client) result }
    {
        let SharedMap { table, alloc } = self;
        let Client { number: _, seat } = client;
        let mut closed = table.close_with(seat);
        let held = first_held(&closed);
        let slots = read_all(&mut closed);
        closed.free();
        match held {
            Some(part) => Err(CloseError::Midway { part }),
            None => match union_all(alloc, &slots) {
                Ok(set) => Ok(set),
                Err(Memory) => Err(CloseError::Memory),
            },
        }
    }
}
