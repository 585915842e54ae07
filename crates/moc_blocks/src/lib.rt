//! Blocks of ranges, and nodes of blocks: the storage of a normal list of ranges. The crate builds, searches, traverses
//! and updates them. Only `moc_lists` uses it.
#![tactic(auto)]

mod block;
mod cursor;
mod edits;
mod lengths;
mod node;
mod runs;
mod search;

pub use block::{Block, MAX_BLOCK_RANGES, width_of_ranges};
pub use cursor::{
    BlockCursor, Cursor, NextBlock, NextNode, NextRange, block_below, enter_next_block, next_block,
    next_range, node_below, start_of_next,
};
pub use edits::rebuild::{BlockEdit, Edit, EditKind, NodeEdit, edit_nodes};
pub use edits::splice::{BlockSplice, Splice, find_splice};
pub use edits::{insert_small, remove_small};
pub use lengths::{blocks_in_last, ranges_in_first, ranges_in_last};
pub use node::{
    MAX_NODE_BLOCKS, Node, blocks_in_nodes, count_in_blocks, count_in_nodes, share_blocks,
    share_nodes,
};
pub use runs::{SkippedRanges, SplitRanges, skip_ranges, split_below};
pub use search::{node_range_ending_after, range_ending_after};
