//! Normal lists of ranges in blocks: the storage of a coverage, and how it is read, searched and built.
#![tactic(auto)]

mod block_builder;
mod builder;
mod chunks;
mod list;
mod nodes;
mod ranges;
mod steps;

pub use builder::{ListBuilder, end_below, extend_or_push, list_from_ranges};
pub use chunks::Chunks;
pub use list::RangeList;
pub use moc_blocks::MAX_BLOCK_RANGES;
pub use ranges::{Advance, BlockAndTail, Ranges, Tail};
pub use steps::{MAX_STEPS, Steps};
