//! Creating a map and its clients.
ghost use Rattle.std.specs.Prelude.{◌≡◌, ◌⊎◌, ◌<◌, ◌↔◌, [], All, IfOk, IsErrOf};
ghost use Rattle.moc_shared.specs.Clients.{start_of, clients_of, IsClientOf, AreNewClients};
ghost use Rattle.moc_shared.specs.Private.InitialViews.{first_view};
ghost use Rattle.moc_shared.specs.Seats.{table_index};
ghost use Rattle.moc_shared.specs.Private.InitialSlots.{ArePartsOf};

use crate::client::Client;
use crate::errors::NewError;
use crate::map::SharedMap;
use crate::table::layout::{TABLE_SIZE, part_at};
use crate::table::locks::{MapParameters, Pointer, SeatToken};
use crate::table::seats::split;
use crate::table::slots::share;
use atomic_table::Table;
use moc_ranges::{Coverage, Memory};
use std::alloc::Global;

/// The maximum number of clients of a map.
pub const MAX_CLIENTS: u8 = 64;

/// Creates the slots of a map: those of parts have the parts of the set, and all others are empty.
fn create_slots(alloc: Global, start: &Coverage) -> Result<Vec<Option<Pointer>>, Memory>
    ensures { IfOk result (λ v. ArePartsOf start.now v.items (table_index 12)) }
{
    let mut slots = Vec::new(alloc);
    for k in 0..TABLE_SIZE {
        let slot = match part_at(k) {
            Some(part) => Some(share(alloc, start.part(alloc, part.get())?)?),
            None => None,
        };
        slots.push(slot)?;
    }
    Ok(slots)
}

/// Splits the first seat into a seat for each client.
fn split_seats(map: &SharedMap, first: SeatToken, clients: u8) -> Result<Vec<Client>, Memory>
    requires place { first.table_id ≡ map.now.table.shared.table_id }
    requires first { (first.me.0 ≡ first_view (start_of map.now) clients) × (first.me.1 ≡ []) }
    requires count { clients ≡ clients_of map.now }
    ensures new { IfOk result (λ v. AreNewClients map.now v.items clients) }
    ensures of_map { IfOk result (λ v. All (λ c. IsClientOf map.now c) v.items) }
{
    let SharedMap { table, alloc } = map;
    let mut all = Vec::new(*alloc);
    let mut seat = first;
    for number in 0..clients {
        let rest = split(&table.shared, &mut seat);
        all.push(Client { number, seat })?;
        seat = rest;
    }
    Ok(all)
}

impl SharedMap {
    /// Creates a map with a set, and its clients, numbered from 0. O(n) for n ranges.
    ///
    /// # Errors
    /// Fails with `BadCount` if the number of clients is 0 or above 64, and with `Memory` if an allocation fails.
    pub fn new(
        alloc: Global,
        start: Coverage,
        clients: u8,
    ) -> Result<(SharedMap, Vec<Client>), NewError>
        ensures begins { IfOk result (λ r. (start_of r.0 ≡ start) × (clients_of r.0 ≡ clients)) }
        ensures clients { IfOk result (λ r. AreNewClients r.0 r.1.items clients) }
        ensures of_map { IfOk result (λ r. All (λ c. IsClientOf r.0 c) r.1.items) }
        ensures bad_count { IsErrOf result NewError.BadCount ↔ ((clients ≡ 0) ⊎ (64 < clients)) }
    {
        if clients == 0 || clients > MAX_CLIENTS {
            return Err(NewError::BadCount);
        }
        // The contract of `is_empty` states that a coverage is within the sky.
        start.is_empty();
        let slots = create_slots(alloc, &start)?;
        let parameters = MapParameters {
            start,
            clients: u64::from(clients),
        };
        let made = Table::new(alloc, &[0; TABLE_SIZE], slots, &parameters);
        match made {
            Ok((table, seat)) => {
                let map = SharedMap { table, alloc };
                let all = split_seats(&map, seat, clients)?;
                Ok((map, all))
            }
            Err(_) => Err(NewError::Memory),
        }
    }
}
