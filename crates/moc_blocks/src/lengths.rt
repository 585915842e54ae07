//! The lengths of the first and the last blocks and nodes.
ghost use Rattle.std.specs.Prelude.{◌≡◌, ◌≤◌, ◌++◌};
ghost use Rattle.moc_blocks.specs.Blocks.{concat};
ghost use Rattle.moc_blocks.specs.Private.Built.{first_length, last_length};

use crate::block::{Block, MAX_BLOCK_RANGES};
use crate::node::{MAX_NODE_BLOCKS, Node};

/// Returns the number of ranges of the first block, or 0 if the list is empty.
pub fn ranges_in_first(blocks: &[Block]) -> usize
    ensures value { result ≡ first_length blocks.now }
    ensures fits { result ≤ MAX_BLOCK_RANGES }
{
    match blocks {
        [block, ..] => block.ranges().len(),
        [] => 0,
    }
}

/// Returns the number of ranges of the last of these blocks, or 0 if the list is empty.
fn ranges_in_block(blocks: &[Block]) -> usize
    ensures { result ≡ last_length blocks.now }
{
    match blocks {
        [.., block] => block.ranges().len(),
        [] => 0,
    }
}

/// Returns the number of ranges of the last block of these nodes, or 0 if the list is empty.
fn ranges_in_last_block(nodes: &[Node]) -> usize
    ensures { result ≡ last_length (concat nodes.now) }
{
    match nodes {
        [.., node] => ranges_in_block(node.blocks()),
        [] => 0,
    }
}

/// Returns the number of ranges of the last block of these nodes and blocks, or 0 if the list is empty.
pub fn ranges_in_last(nodes: &[Node], blocks: &[Block]) -> usize
    ensures { result ≡ last_length (concat nodes.now ++ blocks.now) }
{
    match blocks {
        [] => ranges_in_last_block(nodes),
        [..] => ranges_in_block(blocks),
    }
}

/// Returns the number of blocks of the last node, or 0 if the list is empty.
pub fn blocks_in_last(nodes: &[Node]) -> usize
    ensures value { result ≡ last_length nodes.now }
    ensures fits { result ≤ MAX_NODE_BLOCKS }
{
    match nodes {
        [.., node] => node.blocks().len(),
        [] => 0,
    }
}
