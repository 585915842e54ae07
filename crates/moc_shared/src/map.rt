//! The shared map: a table with a lock word and a slot for each part.
ghost use Rattle.std.specs.Prelude.{◌≡◌, ◌≤◌};
ghost use Rattle.moc_shared.specs.Seats.{table_index};

pub mod batches;
pub mod commands;
pub mod contents;
pub mod making;
pub mod meeting;

use crate::table::locks::{ClientView, LockRule, MapParameters, Pointer};
use atomic_table::Table;
use std::alloc::Global;

/// A map of twelve parts that up to 64 clients change and query at the same time.
#[derive(Drop)]
pub struct SharedMap {
    pub(crate) table: Table<Option<Pointer>, ClientView, MapParameters, LockRule, Global>,
    pub(crate) alloc: Global,
    ghost word_count: { table.shared.table_id.words ≡ table_index 12 },
    ghost slot_count: { table.shared.table_id.slots ≡ table_index 12 },
    ghost within_max: { table.shared.key.clients ≤ 64 },
}
