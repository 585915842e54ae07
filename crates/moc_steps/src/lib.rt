//! The step machine: a model of a coverage map that many clients share, one step at a time, and theorems about it.
#![tactic(auto)]

mod error;
mod midway;
mod prepared_update;
mod schedule;
mod share;
mod step;
mod table;
mod theorems;
mod world;

pub use error::{CoverError, ReplayError, StepError};
pub use schedule::{drain, next_step, replay};
pub use step::{Entry, Step};
pub use theorems::{
    replies_are_the_entries, steps_have_one_order, worlds_are_never_stuck, worlds_end_soon,
};
pub use world::World;
