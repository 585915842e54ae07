//! A coverage in twelve parts, one for each base pixel, and the commands that change and query it.
#![tactic(auto)]

mod batch;
mod change;
mod command;
mod draft;
mod effective_set;
mod footprint;
mod lists;
mod map;
mod part;
mod part_command;
mod prepared;
mod reply;
mod single;
mod surroundings;
mod theorems;
mod whole;

pub use batch::{Batch, BatchError, MAX_COMMANDS};
pub use command::{Command, Operand};
pub use map::Map;
pub use part::{Part, PartSet};
pub use part_command::{CellAction, CellCommand, PartCommand};
pub use prepared::{Prepared, prepare, prepare_changes, reply_of};
pub use reply::{Replies, Reply};
pub use theorems::{
    batches_are_local, commands_are_local, degraded_operands_meet_the_same_parts,
    queries_leave_the_set, sets_are_united_by_parts, sets_have_twelve_parts,
};
pub use whole::{merge_parts, split_by_base_pixel};
