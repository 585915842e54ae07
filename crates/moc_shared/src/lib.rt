//! A map of twelve parts that many clients change and query at the same time.
#![tactic(auto)]

mod calls;
mod client;
mod errors;
mod map;
mod record;
mod snapshot;
mod table;
mod theorems;

pub use client::{Client, Holding};
pub use errors::{Busy, CloseError, LookError, NewError, SnapshotError, TryError};
pub use map::SharedMap;
pub use map::making::MAX_CLIENTS;
pub use record::{Call, Calls, Record};
pub use snapshot::Snapshot;
pub use theorems::{abandoned_parts_stay_held, clients_stand_for_themselves};
