//! The normal list of ranges of a set, stored in blocks.
ghost use Rattle.std.specs.Prelude.{◌≡◌, ◌<◌, ◌≤◌, [], ◌∷◌, length, IfOk, MatchOption};
ghost use Rattle.moc_blocks.specs.RangeList.{pixel_count, IsNormal, set_of};
ghost use Rattle.moc_blocks.specs.Lemmas.Members.{in_ranges};
ghost use Rattle.moc_blocks.specs.Blocks.{concat, AreBlocks, IsSearchOf};
ghost use Rattle.moc_blocks.specs.Private.Blocks.{IsStored, rest_of, width_of};
ghost use Rattle.moc_blocks.specs.Private.Walks.{EndsBy, IsFirstAfter};
ghost use Rattle.moc_blocks.specs.Private.Edits.{Inserts, Removes};

use crate::chunks::Chunks;
use crate::nodes::Nodes;
use crate::ranges::Ranges;
use crate::steps::{MAX_STEPS, Steps, find_block, find_range};
use moc_blocks::{
    Node, insert_small, node_range_ending_after, range_ending_after, remove_small, width_of_ranges,
};
use std::alloc::{AllocError, Global};
use std::marker::Model;

/// The normal list of a set: ranges (from, to) in ascending order, none empty and none touching the next.
///
/// Up to 128 ranges can be stored in one list. All others are stored in blocks of 1 to 128 ranges, where two adjacent
/// blocks together have more than 128. Blocks are stored in nodes of 1 to 16 blocks, where two adjacent nodes together
/// have more than 16. Copies share all blocks; a result shares most of the blocks that it has in common with its
/// operands. Below, n is the number of ranges.
#[derive(Drop)]
pub struct RangeList {
    /// The ranges of a list that has no nodes.
    small: Vec<(u64, u64)>,
    nodes: Nodes,
}

impl Model for RangeList {
    ghost use Rattle.std.specs.Prelude.{List, ℕ, []};
    ghost use Rattle.moc_blocks.specs.Private.Blocks.{IsStored, rest_of};

    ghost Value = { List (ℕ × ℕ) };

    ghost view = { λ l. rest_of l.small.items [] l.nodes };

    ghost invariant = { λ l. IsStored l.small.items l.nodes };
}

impl RangeList {
    /// Returns an empty list. Does not allocate.
    #[inline]
    pub fn empty(alloc: Global) -> Self
        ensures { result ≡ [] }
    {
        Self {
            small: Vec::new(alloc),
            nodes: Nodes::none(alloc),
        }
    }

    /// Returns the list of one range.
    ///
    /// # Errors
    ///
    /// Fails if an allocation fails.
    pub fn from_range(alloc: Global, from: u64, to: u64) -> Result<Self, AllocError>
        requires ascending { from < to }
        requires within { to ≤ pixel_count }
        ensures { IfOk result (λ l. l ≡ (from, to) ∷ []) }
    {
        let small = [(from, to)].to_vec(alloc)?;
        Ok(Self {
            small,
            nodes: Nodes::none(alloc),
        })
    }

    /// Returns the list of at most 128 ranges. Does not allocate.
    #[inline]
    pub(crate) fn from_small(alloc: Global, small: Vec<(u64, u64)>) -> Self
        requires { IsStored small.items [] }
        ensures { result ≡ rest_of small.items [] [] }
    {
        Self {
            small,
            nodes: Nodes::none(alloc),
        }
    }

    /// Returns the list of the given nodes. Allocates one number for each node.
    #[inline]
    pub(crate) fn from_nodes(alloc: Global, nodes: Vec<Node>) -> Result<Self, AllocError>
        requires { IsStored [] nodes.items }
        ensures { IfOk result (λ l. l ≡ rest_of [] [] nodes.items) }
    {
        let nodes = Nodes::new(alloc, nodes)?;
        Ok(Self {
            small: Vec::new(alloc),
            nodes,
        })
    }

    /// Returns an iterator over the ranges. Does not allocate.
    #[inline]
    pub fn ranges(&self) -> Ranges<'_>
        ensures list { result ≡ self.now }
        ensures normal { IsNormal self.now }
    {
        Ranges::new(&self.small, self.nodes.all())
    }

    /// Returns an iterator over the ranges in chunks of 1 to 128. Two adjacent chunks together have more than 128
    /// ranges.
    #[inline]
    pub fn chunks(&self) -> Chunks<'_>
        ensures list { concat result ≡ self.now }
        ensures normal { IsNormal self.now }
        ensures sized { AreBlocks result }
    {
        Chunks::new(&self.small, self.nodes.all())
    }

    /// Returns the number of pixels in the ranges. O(1), but O(n) for up to 128 ranges.
    #[inline]
    pub fn total_width(&self) -> u64
        ensures value { result ≡ width_of self.now }
        ensures normal { IsNormal self.now }
    {
        width_of_ranges(&self.small) + self.nodes.size()
    }

    /// Returns the number of ranges. O(1).
    #[inline]
    pub fn count(&self) -> usize
        ensures value { result ≡ length self.now }
        ensures normal { IsNormal self.now }
    {
        self.small.len() + self.nodes.count()
    }

    /// Returns the first range that ends after the limit, if any. O(log n).
    #[inline]
    pub fn first_ending_after(&self, limit: u64) -> Option<(u64, u64)>
        ensures found { MatchOption result (EndsBy limit self.now) (λ range. IsFirstAfter limit (range ∷ []) self.now) }
        ensures normal { IsNormal self.now }
    {
        match self.nodes.all() {
            [] => range_ending_after(&self.small, limit),
            nodes => node_range_ending_after(nodes, limit),
        }
    }

    /// Returns whether a range contains the pixel, and adds the number of comparisons of the pixel with the bounds of a
    /// range or a chunk to `steps`. Comparisons of positions, by which a chunk is found, are not counted. O((log n)²).
    #[inline]
    pub fn contains_counting(&self, pixel: u64, steps: &mut Steps) -> bool
        requires { steps.old < MAX_STEPS }
        ensures found { result ≡ in_ranges self.now pixel }
        ensures cost { IsSearchOf (set_of self.now) steps.old steps.new }
    {
        match &self.small[..] {
            [] => find_block(&self.nodes, pixel, steps),
            small => find_range(small, pixel, steps),
        }
    }

    /// Returns a list that shares all blocks with this list. Copies up to 128 ranges, or otherwise only the list of
    /// nodes.
    ///
    /// # Errors
    ///
    /// Fails if an allocation fails.
    #[inline]
    pub fn share(&self, alloc: Global) -> Result<Self, AllocError>
        ensures same { IfOk result (λ l. l ≡ self.now) }
        ensures normal { IsNormal self.now }
    {
        let small = self.small.to_vec(alloc)?;
        let nodes = self.nodes.share(alloc)?;
        Ok(Self { small, nodes })
    }

    /// Inserts a range if this changes only one block, or two adjacent blocks of a node, and returns the number of new
    /// pixels. Up to two ranges are changed in place if no other list shares their block or its node, the range touches
    /// no other block, and the fill rule still holds. Otherwise the block is rebuilt. It is replaced in its node if no
    /// other list shares the blocks of the node and it stays one block; otherwise it is put into a new node that shares
    /// the other blocks. Two blocks are rebuilt if the fill rule requires it. Returns `None` if the range touches more
    /// blocks, if the fill rule would still be broken, or if a list without blocks would have more than 128 ranges; the
    /// list is then unchanged.
    ///
    /// # Errors
    ///
    /// Fails if an allocation fails; the list is unchanged.
    ///
    /// # Complexity
    ///
    /// O(log n), and one step for each later node if the number of blocks changes.
    pub fn insert(&mut self, alloc: Global, from: u64, to: u64) -> Result<Option<u64>, AllocError>
        requires filled { from < to }
        requires within { to ≤ pixel_count }
        ensures inserted { Inserts from to self.old self.new result }
        ensures normal_before { IsNormal self.old }
        ensures normal { IsNormal self.new }
    {
        if self.nodes.all().is_empty() {
            return insert_small(alloc, &mut self.small, from, to);
        }
        self.nodes.insert(alloc, from, to)
    }

    /// Removes the pixels of a range if this changes only one block, or two adjacent blocks of a node, and returns the
    /// number of removed pixels. One range is changed in place under the conditions of `insert`. Otherwise blocks are
    /// rebuilt as by `insert`; two blocks are rebuilt also if one would be empty. Returns `None` if the range touches
    /// more blocks, if the fill rule would still be broken, or if a list without blocks would have more than 128
    /// ranges; the list is then unchanged.
    ///
    /// # Errors
    ///
    /// Fails if an allocation fails; the list is unchanged.
    ///
    /// # Complexity
    ///
    /// O(log n), and one step for each later node if the number of blocks changes.
    pub fn remove(&mut self, alloc: Global, from: u64, to: u64) -> Result<Option<u64>, AllocError>
        requires filled { from < to }
        requires within { to ≤ pixel_count }
        ensures removed { Removes from to self.old self.new result }
        ensures normal_before { IsNormal self.old }
        ensures normal { IsNormal self.new }
    {
        if self.nodes.all().is_empty() {
            return remove_small(alloc, &mut self.small, from, to);
        }
        self.nodes.remove(alloc, from, to)
    }
}
