//! Nodes: shared lists of blocks, with their bounds and counts.

ghost use Rattle.std.specs.Prelude.{◌≡◌, ◌+◌, ◌*◌, ◌<◌, ◌≤◌, ℕ, length, get_or, slice_set, [], false, true, IfOk};
ghost use Rattle.std.specs.Prelude.{OnErr};
ghost use Rattle.std.specs.Bool.{OnTrue, OnFalse};
ghost use Rattle.moc_blocks.specs.RangeList.{IsNormal};
ghost use Rattle.moc_blocks.specs.Private.Blocks.{first_of, last_of, width_of};
ghost use Rattle.moc_blocks.specs.Blocks.{concat, AreBlocks};
ghost use Rattle.moc_blocks.specs.Private.Edits.{after_splice, CanSplice};

use crate::block::Block;
use crate::edits::splice::Splice;
use std::alloc::{AllocError, Global};
use std::marker::Model;
use std::sync::Arc;

/// The maximum number of blocks of a node.
pub const MAX_NODE_BLOCKS: usize = 16;

/// A node: 1 to 16 blocks in ascending order, in a list that several nodes can share.
#[derive(Drop)]
pub struct Node {
    from: u64,
    to: u64,
    size: u64,
    count: usize,
    blocks: Arc<Vec<Block>, Global>,
}

impl Model for Node {
    ghost use Rattle.std.specs.Prelude.{List, ℕ};
    ghost use Rattle.std.specs.Arc.{arc_value};
    ghost use Rattle.moc_blocks.specs.Private.Blocks.{IsNode};

    ghost Value = { List (List (ℕ × ℕ)) };

    ghost view = { λ n. (arc_value n.blocks).items };

    ghost invariant = { λ n. IsNode n.from n.to n.size n.count (arc_value n.blocks).items };
}

/// Returns the number of pixels in the blocks.
fn width_of_blocks(blocks: &[Block]) -> u64
    requires { IsNormal (concat blocks.now) }
    ensures { result ≡ width_of (concat blocks.now) }
{
    let mut total = 0;
    for block in blocks {
        total += block.size();
    }
    total
}

/// Returns the number of ranges in the blocks.
pub fn count_in_blocks(blocks: &[Block]) -> usize
    requires { IsNormal (concat blocks.now) }
    ensures { result ≡ length (concat blocks.now) }
{
    let mut total = 0;
    for block in blocks {
        total += block.ranges().len();
    }
    total
}

/// Returns the number of ranges in the nodes.
pub fn count_in_nodes(nodes: &[Node]) -> usize
    requires { IsNormal (concat (concat nodes.now)) }
    ensures { result ≡ length (concat (concat nodes.now)) }
{
    let mut total = 0;
    for node in nodes {
        total += node.count();
    }
    total
}

/// Returns the number of blocks in the nodes.
pub fn blocks_in_nodes(nodes: &[Node]) -> usize
    ensures value { result ≡ length (concat nodes.now) }
    ensures bound { result ≤ MAX_NODE_BLOCKS * length nodes.now }
{
    let mut total = 0;
    for node in nodes {
        total += node.blocks().len();
    }
    total
}

impl Node {
    /// Returns the node of the given blocks.
    ///
    /// # Errors
    ///
    /// Fails if an allocation fails.
    ///
    /// # Complexity
    ///
    /// Linear in the number of blocks.
    pub fn new(alloc: Global, blocks: Vec<Block>) -> Result<Node, AllocError>
        requires normal { IsNormal (concat blocks.items) }
        requires some { 0 < length blocks.items }
        requires fits { length blocks.items ≤ MAX_NODE_BLOCKS }
        requires sized { AreBlocks blocks.items }
        ensures { IfOk result (λ n. n ≡ blocks.items) }
    {
        let from = blocks[0].from();
        let to = blocks[blocks.len() - 1].to();
        let size = width_of_blocks(&blocks);
        let count = count_in_blocks(&blocks);
        let blocks = Arc::new(alloc, blocks)?;
        Ok(Node {
            from,
            to,
            size,
            count,
            blocks,
        })
    }

    /// Returns the start of the first range.
    #[inline]
    pub fn from(&self) -> u64
        ensures value { result ≡ first_of (concat self.now) }
        ensures some { 0 < length (concat self.now) }
    {
        self.from
    }

    /// Returns the end of the last range.
    #[inline]
    pub fn to(&self) -> u64
        ensures value { result ≡ last_of (concat self.now) }
        ensures some { 0 < length (concat self.now) }
    {
        self.to
    }

    /// Returns the number of pixels in the ranges.
    #[inline]
    pub fn size(&self) -> u64
        ensures value { result ≡ width_of (concat self.now) }
        ensures some { 0 < length (concat self.now) }
    {
        self.size
    }

    /// Returns the number of ranges.
    #[inline]
    pub fn count(&self) -> usize
        ensures value { result ≡ length (concat self.now) }
        ensures some { 0 < length (concat self.now) }
    {
        self.count
    }

    /// Returns the blocks.
    #[inline]
    pub fn blocks(&self) -> &[Block]
        ensures value { result.now ≡ self.now }
        ensures sized { AreBlocks self.now }
        ensures fits { length self.now ≤ MAX_NODE_BLOCKS }
        ensures some { 0 < length (concat self.now) }
    {
        &self.blocks
    }

    /// Returns whether another node shares the list of blocks.
    #[inline]
    pub(crate) fn is_shared(&self) -> bool {
        Arc::strong_count(&self.blocks) > 1
    }

    /// Replaces a block if this node is the only owner of its list of blocks, and returns whether it was replaced. The
    /// list is not copied.
    pub fn replace_block(&mut self, place: usize, block: Block) -> bool
        requires place { place < length self.old }
        requires normal { IsNormal (concat (slice_set self.old place block)) }
        requires sized { AreBlocks (slice_set self.old place block) }
        ensures put { result ≡ true → self.new ≡ slice_set self.old place block }
        ensures unchanged { result ≡ false → self.new ≡ self.old }
    {
        let Some(blocks) = Arc::get_mut(&mut self.blocks) else {
            return false;
        };
        self.size = self.size - blocks[place].size() + block.size();
        self.count = self.count - blocks[place].ranges().len() + block.ranges().len();
        blocks[place] = block;
        self.from = blocks[0].from();
        self.to = blocks[blocks.len() - 1].to();
        true
    }

    /// Changes ranges of a block in place if this node is the only owner of its list of blocks, and the block of its
    /// list of ranges. Returns whether they were changed.
    ///
    /// # Errors
    ///
    /// Fails if an allocation fails; the node is unchanged.
    pub fn splice(&mut self, block: usize, splice: Splice) -> Result<bool, AllocError>
        requires { CanSplice self.old block splice }
        ensures put { IfOk result (λ done. OnTrue done
            (self.new ≡ slice_set self.old block (after_splice splice (get_or self.old block [])))) }
        ensures same { IfOk result (λ done. OnFalse done (self.new ≡ self.old)) }
        ensures unchanged { OnErr result (self.new ≡ self.old) }
    {
        let Some(blocks) = Arc::get_mut(&mut self.blocks) else {
            return Ok(false);
        };
        let other_pixels = self.size - blocks[block].size();
        let other_ranges = self.count - blocks[block].ranges().len();
        if !blocks[block].splice(splice)? {
            return Ok(false);
        }
        self.size = other_pixels + blocks[block].size();
        self.count = other_ranges + blocks[block].ranges().len();
        self.from = blocks[0].from();
        self.to = blocks[blocks.len() - 1].to();
        Ok(true)
    }

    /// Returns a node that shares the blocks of this node. O(1); allocates nothing.
    ///
    /// # Errors
    ///
    /// Fails if the reference count of the blocks is at its maximum.
    #[inline]
    pub fn share(&self) -> Result<Node, AllocError>
        ensures same { IfOk result (λ n. n ≡ self.now) }
        ensures sized { AreBlocks self.now }
        ensures fits { length self.now ≤ MAX_NODE_BLOCKS }
        ensures some { 0 < length (concat self.now) }
    {
        let blocks = Arc::try_clone(&self.blocks)?;
        Ok(Node {
            from: self.from,
            to: self.to,
            size: self.size,
            count: self.count,
            blocks,
        })
    }
}

/// Returns blocks that share the ranges of the given blocks. Linear in the number of blocks.
///
/// # Errors
///
/// Fails if an allocation fails, or if a reference count is at its maximum.
pub fn share_blocks(alloc: Global, blocks: &[Block]) -> Result<Vec<Block>, AllocError>
    ensures { IfOk result (λ v. v.items ≡ blocks.now) }
{
    let mut shared = Vec::with_capacity(alloc, blocks.len())?;
    for block in blocks {
        shared.push(block.share()?)?;
    }
    Ok(shared)
}

/// Returns nodes that share the blocks of the given nodes. Linear in the number of nodes.
///
/// # Errors
///
/// Fails if an allocation fails, or if a reference count is at its maximum.
pub fn share_nodes(alloc: Global, nodes: &[Node]) -> Result<Vec<Node>, AllocError>
    ensures { IfOk result (λ v. v.items ≡ nodes.now) }
{
    let mut shared = Vec::with_capacity(alloc, nodes.len())?;
    for node in nodes {
        shared.push(node.share()?)?;
    }
    Ok(shared)
}
