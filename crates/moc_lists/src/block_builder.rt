//! Builds nodes by appending blocks.
ghost use Rattle.std.specs.Prelude.{◌≡◌, ◌+◌, ◌<◌, ◌≤◌, ◌++◌, ◌∷◌, [], List, ℕ, length, OnOk, OnErr};
ghost use Rattle.std.specs.Bool.{OnTrue, OnFalse};
ghost use Rattle.moc_blocks.specs.RangeList.{IsNormal};
ghost use Rattle.moc_blocks.specs.Blocks.{concat, AreBlocks};
ghost use Rattle.moc_blocks.specs.Private.Built.{first_length, last_length};
ghost use Rattle.moc_lists.specs.Private.BlockBuilder.{blocks_of, AreNodesFilled};

use moc_blocks::{
    Block, MAX_BLOCK_RANGES, MAX_NODE_BLOCKS, Node, blocks_in_last, ranges_in_first,
    ranges_in_last, share_blocks,
};
use std::alloc::{AllocError, Global};

/// A builder that collects blocks in ascending order into nodes: finished nodes, then blocks that are not in a node
/// yet. If an allocation fails, the builder can lose blocks, and has to be cleared.
#[derive(Drop)]
pub(crate) struct BlockBuilder {
    pub nodes: Vec<Node>,
    pub blocks: Vec<Block>,
}

impl BlockBuilder {
    /// Returns whether the last block has room for `count` more ranges, so that a block of this length is merged with
    /// it.
    fn fits_last_block(&self, count: usize) -> bool
        requires { count ≤ MAX_BLOCK_RANGES }
        ensures fits { OnTrue result (last_length (blocks_of self.now) + count ≤ MAX_BLOCK_RANGES) }
        ensures some { OnTrue result (0 < last_length (blocks_of self.now)) }
        ensures apart { OnFalse result (0 < last_length (blocks_of self.now) → MAX_BLOCK_RANGES < last_length (blocks_of
            self.now) + count) }
    {
        let last = ranges_in_last(&self.nodes, &self.blocks);
        last > 0 && last <= MAX_BLOCK_RANGES - count
    }

    /// Makes a node of the blocks that are in none, if there are as many as a node may have.
    fn seal_node_if_full(&mut self, alloc: Global) -> Result<(), AllocError>
        requires sized { AreBlocks (blocks_of self.old) }
        requires wide { AreNodesFilled self.old }
        requires normal { IsNormal (concat (blocks_of self.old)) }
        ensures blocks { OnOk result (blocks_of self.new ≡ blocks_of self.old) }
        ensures wide { OnOk result (AreNodesFilled self.new) }
        ensures capacity { OnOk result (length self.new.blocks.items < MAX_NODE_BLOCKS) }
    {
        if self.blocks.len() < MAX_NODE_BLOCKS {
            return Ok(());
        }
        self.seal_node(alloc)
    }

    /// Takes the blocks of the last node back if there are no blocks after it.
    fn reopen(&mut self, alloc: Global) -> Result<(), AllocError>
        requires wide { AreNodesFilled self.old }
        ensures blocks { OnOk result (blocks_of self.new ≡ blocks_of self.old) }
        ensures wide { OnOk result (AreNodesFilled self.new) }
        ensures some { OnOk result (0 < last_length (blocks_of self.old) → 0 < length self.new.blocks.items) }
    {
        if self.blocks.len() > 0 {
            return Ok(());
        }
        if let Some(node) = self.nodes.pop() {
            self.blocks = share_blocks(alloc, node.blocks())?;
        }
        Ok(())
    }

    /// Appends a block, or merges it with the last one if they fit into one block.
    pub(crate) fn push_block(&mut self, alloc: Global, block: Block) -> Result<(), AllocError>
        requires sized { AreBlocks (blocks_of self.old) }
        requires wide { AreNodesFilled self.old }
        requires some { 0 < length block }
        requires fits { length block ≤ MAX_BLOCK_RANGES }
        requires normal { IsNormal (concat (blocks_of self.old) ++ block) }
        ensures sized { OnOk result (AreBlocks (blocks_of self.new)) }
        ensures wide { OnOk result (AreNodesFilled self.new) }
        ensures concat { OnOk result (concat (blocks_of self.new) ≡ concat (blocks_of self.old) ++ block) }
    {
        if self.fits_last_block(block.ranges().len()) {
            self.reopen(alloc)?;
            return merge_with_last(alloc, &mut self.blocks, block);
        }
        self.seal_node_if_full(alloc)?;
        self.blocks.push(block)?;
        Ok(())
    }

    /// Takes the blocks of the last node back, before those that are in none, if all of them fit into one node.
    fn reopen_if_fits(&mut self, alloc: Global) -> Result<(), AllocError>
        requires wide { AreNodesFilled self.old }
        ensures blocks { OnOk result (blocks_of self.new ≡ blocks_of self.old) }
        ensures wide { OnOk result (AreNodesFilled self.new) }
        ensures apart { OnOk result (0 < last_length self.new.nodes.items
            → MAX_NODE_BLOCKS < last_length self.new.nodes.items +
            length self.new.blocks.items) }
        ensures more { OnOk result (length self.old.blocks.items ≤ length self.new.blocks.items) }
    {
        if MAX_NODE_BLOCKS - self.blocks.len() < blocks_in_last(&self.nodes) {
            return Ok(());
        }
        if let Some(node) = self.nodes.pop() {
            let mut both = share_blocks(alloc, node.blocks())?;
            both.append(&mut self.blocks)?;
            self.blocks = both;
        }
        Ok(())
    }

    /// Makes a node of the blocks that are in none.
    pub(crate) fn seal_node(&mut self, alloc: Global) -> Result<(), AllocError>
        requires sized { AreBlocks (blocks_of self.old) }
        requires wide { AreNodesFilled self.old }
        requires normal { IsNormal (concat (blocks_of self.old)) }
        ensures blocks { OnOk result (blocks_of self.new ≡ blocks_of self.old) }
        ensures wide { OnOk result (AreNodesFilled self.new) }
        ensures none { OnOk result (self.new.blocks.items ≡ []) }
    {
        if self.blocks.is_empty() {
            return Ok(());
        }
        self.reopen_if_fits(alloc)?;
        let none = Vec::new(alloc);
        let blocks = std::mem::replace(&mut self.blocks, none);
        let node = Node::new(alloc, blocks)?;
        self.nodes.push(node)?;
        Ok(())
    }

    /// Returns whether a node can be appended whole: its first block is not merged with the last one, and its blocks do
    /// not fit into one node with those that are in none, if there are any.
    fn can_push_whole(&self, node: &Node) -> bool
        ensures { OnTrue result (0 < last_length (blocks_of self.now)
            → MAX_BLOCK_RANGES < last_length (blocks_of self.now) +
            first_length node.now) }
    {
        if self.fits_last_block(ranges_in_first(node.blocks())) {
            return false;
        }
        let capacity = MAX_NODE_BLOCKS.saturating_sub(node.blocks().len());
        self.blocks.is_empty() || capacity < self.blocks.len()
    }

    /// Returns whether the blocks of a node fit into one node with those of the last.
    fn fits_last_node(&self, node: &Node) -> bool
        ensures { OnFalse result (0 < last_length self.now.nodes.items
            → MAX_NODE_BLOCKS < last_length self.now.nodes.items +
            length node.now) }
    {
        let last = blocks_in_last(&self.nodes);
        last > 0 && last <= MAX_NODE_BLOCKS - node.blocks().len()
    }

    /// Appends a node, or only its blocks if they fit into one node with those of the last.
    fn push_node(&mut self, alloc: Global, node: &Node) -> Result<(), AllocError>
        requires wide { AreNodesFilled self.old }
        requires none { self.old.blocks.items ≡ [] }
        ensures blocks { OnOk result (blocks_of self.new ≡ concat self.old.nodes.items ++ node.now) }
        ensures sized { OnOk result (AreBlocks node.now) }
        ensures wide { OnOk result (AreNodesFilled self.new) }
    {
        if self.fits_last_node(node) {
            self.blocks = share_blocks(alloc, node.blocks())?;
            return Ok(());
        }
        let shared = node.share()?;
        self.nodes.push(shared)?;
        Ok(())
    }

    /// Appends blocks one by one.
    fn push_shared_each(&mut self, alloc: Global, blocks: &[Block]) -> Result<(), AllocError>
        requires sized { AreBlocks (blocks_of self.old) }
        requires wide { AreNodesFilled self.old }
        requires normal { IsNormal (concat (blocks_of self.old) ++ concat blocks.now) }
        ensures sized { OnOk result (AreBlocks (blocks_of self.new)) }
        ensures wide { OnOk result (AreNodesFilled self.new) }
        ensures concat { OnOk result (concat (blocks_of self.new) ≡ concat (blocks_of self.old) ++ concat
            blocks.now) }
    {
        for block in blocks {
            let shared = block.share()?;
            self.push_block(alloc, shared)?;
        }
        Ok(())
    }

    /// Appends the blocks of a node. They are shared.
    pub(crate) fn push_shared_node(&mut self, alloc: Global, node: &Node) -> Result<(), AllocError>
        requires sized { AreBlocks (blocks_of self.old) }
        requires wide { AreNodesFilled self.old }
        requires normal { IsNormal (concat (blocks_of self.old) ++ concat node.now) }
        ensures sized { OnOk result (AreBlocks (blocks_of self.new)) }
        ensures wide { OnOk result (AreNodesFilled self.new) }
        ensures concat { OnOk result (concat (blocks_of self.new) ≡ concat (blocks_of self.old) ++ concat
            node.now) }
    {
        if !self.can_push_whole(node) {
            return self.push_shared_each(alloc, node.blocks());
        }
        self.seal_node(alloc)?;
        self.push_node(alloc, node)
    }

    /// Drops all blocks.
    #[inline(never)]
    pub(crate) fn clear(&mut self)
        ensures nodes { self.new.nodes.items ≡ [] }
        ensures blocks { self.new.blocks.items ≡ [] }
    {
        self.nodes.clear();
        self.blocks.clear();
    }
}

/// Merges a block with the last one.
fn merge_with_last(alloc: Global, blocks: &mut Vec<Block>, block: Block) -> Result<(), AllocError>
    requires normal { IsNormal (concat blocks.old.items ++ block) }
    requires capacity { last_length blocks.old.items + length block ≤ MAX_BLOCK_RANGES }
    requires some { 0 < length blocks.old.items }
    ensures joined { OnOk result ((init : List (List (ℕ × ℕ))) × (last : List (ℕ × ℕ)) × (blocks.old.items ≡ init ++
        last ∷ []) × (blocks.new.items ≡ init ++ (last ++ block) ∷ [])) }
{
    if let Some(last) = blocks.pop() {
        let both = last.followed_by(alloc, &block)?;
        blocks.push(both)?;
    }
    Ok(())
}
