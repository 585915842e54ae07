//! The nodes of a list, with an index that finds a block by its position.
ghost use Rattle.std.specs.Prelude.{◌≡◌, ◌+◌, ◌<◌, ◌≤◌, ◌++◌, [], ◌∷◌, ℕ, length, get_or, take, drop};
ghost use Rattle.std.specs.Prelude.{vec_len, vec_capacity, IfOk, MatchOption, OnErr, OnOk};
ghost use Rattle.std.specs.Bool.{OnFalse, OnTrue};
ghost use Rattle.moc_blocks.specs.RangeList.{pixel_count};
ghost use Rattle.moc_blocks.specs.Blocks.{concat};
ghost use Rattle.moc_blocks.specs.Private.Blocks.{largest_u64, shift_starts, width_of, AreStored, IsCountStarted};
ghost use Rattle.moc_blocks.specs.Private.Blocks.{IsStored};
ghost use Rattle.moc_blocks.specs.Private.Edits.{with_replaced_item, one_or_two, Inserts, IsEdited, Removes};
ghost use Rattle.moc_blocks.specs.declared.edits.rebuild.EditKind.{EditKind};

use moc_blocks::{
    Block, BlockEdit, BlockSplice, Edit, EditKind, Node, NodeEdit, edit_nodes, find_splice,
    share_nodes,
};
use std::alloc::{AllocError, Global};
use std::marker::Model;

/// Nodes in ascending order, the number of blocks before each of them, and the number of pixels and of ranges of all.
#[derive(Drop)]
pub(crate) struct Nodes {
    nodes: Vec<Node>,
    starts: Vec<usize>,
    size: u64,
    count: usize,
}

impl Model for Nodes {
    ghost use Rattle.std.specs.Prelude.{◌≡◌, List, ℕ};
    ghost use Rattle.moc_blocks.specs.Private.Blocks.{AreNodes};

    ghost Value = { List (List (List (ℕ × ℕ))) };

    ghost view = { λ n. n.nodes.items };

    ghost invariant = { λ n. AreNodes n.starts.items n.size n.count n.nodes.items };
}

/// Replaces a node by two.
fn replace_with_two(
    nodes: &mut Vec<Node>,
    place: usize,
    first: Node,
    second: Node,
) -> Result<(), AllocError>
    requires { place < length nodes.old.items }
    ensures new { OnOk result (nodes.new.items
        ≡ with_replaced_item nodes.old.items place (first ∷ (second ∷ []))) }
    ensures unchanged { OnErr result (nodes.new.items ≡ nodes.old.items) }
{
    nodes.insert(place + 1, second)?;
    nodes[place] = first;
    Ok(())
}

/// Replaces a node by one.
fn replace_with_one(nodes: &mut Vec<Node>, place: usize, first: Node)
    requires { place < length nodes.old.items }
    ensures { nodes.new.items ≡ with_replaced_item nodes.old.items place (first ∷ []) }
{
    nodes[place] = first;
}

/// Adjusts each start after a node before it was replaced: `less` blocks removed, and `more` added.
fn shift_each(starts: &mut [usize], less: usize, more: usize)
    requires { (k : ℕ) → k < length starts.old
        → (less ≤ get_or starts.old k 0) × (get_or starts.old k 0 + more ≤ largest_u64) }
    ensures { starts.new ≡ shift_starts less more starts.old }
{
    if less == more {
        return;
    }
    for start in starts.iter_mut() {
        *start = *start - less + more;
    }
}

/// Adjusts the starts after a position.
fn shift_after(starts: &mut Vec<usize>, place: usize, less: usize, more: usize)
    requires there { place < length starts.old.items }
    requires fits { (k : ℕ) → k < length (drop (place + 1) starts.old.items)
        → (less ≤ get_or (drop (place + 1) starts.old.items) k 0)
        × (get_or (drop (place + 1) starts.old.items) k 0 + more ≤ largest_u64) }
    ensures shift_starts { starts.new.items
        ≡ take (place + 1) starts.old.items ++ shift_starts less more (drop (place + 1) starts.old.items) }
    ensures len { vec_len starts.new ≡ vec_len starts.old }
    ensures capacity { vec_capacity starts.new ≡ vec_capacity starts.old }
{
    shift_each(&mut starts[place + 1..], less, more);
}

impl Nodes {
    /// Returns an empty list of nodes. Does not allocate.
    #[inline]
    pub(crate) fn none(alloc: Global) -> Self
        ensures { result ≡ [] }
    {
        Self {
            nodes: Vec::new(alloc),
            starts: Vec::new(alloc),
            size: 0,
            count: 0,
        }
    }

    /// Returns the list of the given nodes.
    pub(crate) fn new(alloc: Global, nodes: Vec<Node>) -> Result<Self, AllocError>
        requires { AreStored (concat nodes.items) }
        ensures { IfOk result (λ n. n ≡ nodes.items) }
    {
        let mut starts = Vec::with_capacity(alloc, nodes.len())?;
        let mut blocks = 0;
        let mut size = 0;
        let mut count = 0;
        for node in &nodes {
            starts.push(blocks)?;
            blocks += node.blocks().len();
            size += node.size();
            count += node.count();
        }
        Ok(Self {
            nodes,
            starts,
            size,
            count,
        })
    }

    /// Returns the nodes.
    #[inline]
    pub(crate) fn all(&self) -> &[Node]
        ensures { result.now ≡ self.now }
    {
        &self.nodes
    }

    /// Returns a list that shares all nodes.
    #[inline]
    pub(crate) fn share(&self, alloc: Global) -> Result<Self, AllocError>
        ensures { IfOk result (λ n. n ≡ self.now) }
    {
        let nodes = share_nodes(alloc, &self.nodes)?;
        let starts = self.starts.to_vec(alloc)?;
        Ok(Self {
            nodes,
            starts,
            size: self.size,
            count: self.count,
        })
    }

    /// Returns the number of pixels in the nodes. O(1).
    #[inline]
    pub(crate) fn size(&self) -> u64
        ensures { result ≡ width_of (concat (concat self.now)) }
    {
        self.size
    }

    /// Returns the number of ranges in the nodes. O(1).
    #[inline]
    pub(crate) fn count(&self) -> usize
        ensures { result ≡ length (concat (concat self.now)) }
    {
        self.count
    }

    /// Returns the number of blocks in the nodes. O(1).
    pub(crate) fn count_blocks(&self) -> usize
        requires { AreStored (concat self.now) }
        ensures { result ≡ length (concat self.now) }
    {
        let count = self.nodes.len();
        if count == 0 {
            return 0;
        }
        self.starts[count - 1] + self.nodes[count - 1].blocks().len()
    }

    /// Returns the number of nodes that begin at or before a position among all blocks. O(log n).
    fn count_started(&self, place: usize) -> usize
        ensures { IsCountStarted self.now place result }
    {
        self.starts.partition_point(|start| *start <= place)
    }

    /// Returns the block at a position among all blocks, if any. It is in the last node that begins at or before the
    /// position. O(log n).
    pub(crate) fn block_at(&self, place: usize) -> Option<&Block>
        ensures { MatchOption result (length (concat self.entry.now) ≤ place) (λ b.
            (place < length (concat self.entry.now)) × (b.now ≡ get_or (concat self.entry.now) place b.now)) }
    {
        let begun = self.count_started(place);
        if begun == 0 {
            return None;
        }
        let left = place - self.starts[begun - 1];
        let blocks = self.nodes[begun - 1].blocks();
        if left < blocks.len() {
            return Some(&blocks[left]);
        }
        None
    }

    /// Changes one block in place to insert or remove a range, and returns whether it did. Returns `false` if the range
    /// touches another block or more ranges than a splice can change, if the block or its node is shared, or if the
    /// fill rule would be broken; the nodes are then unchanged.
    fn edit_in_place(&mut self, edit: EditKind, from: u64, to: u64) -> Result<bool, AllocError>
        requires stored { IsStored [] self.old }
        requires filled { from < to }
        requires within { to ≤ pixel_count }
        ensures stored { IsStored [] self.new }
        ensures edited { IfOk result (λ done. OnTrue done
            (IsEdited edit from to (concat (concat self.old)) (concat (concat self.new)))) }
        ensures same { IfOk result (λ done. OnFalse done (self.new ≡ self.old)) }
        ensures unchanged { OnErr result (self.new ≡ self.old) }
    {
        let Some(change) = find_splice(&self.nodes, edit, from, to) else {
            return Ok(false);
        };
        let BlockSplice {
            node,
            block,
            splice,
        } = change;
        let other_ranges = self.count - self.nodes[node].count();
        let other_pixels = self.size - self.nodes[node].size();
        if !self.nodes[node].splice(block, splice)? {
            return Ok(false);
        }
        self.count = other_ranges + self.nodes[node].count();
        self.size = other_pixels + self.nodes[node].size();
        Ok(true)
    }

    /// Replaces a node by one. Does not allocate.
    fn replace_node(&mut self, place: usize, node: Node)
        requires place { place < length self.old }
        requires before { IsStored [] self.old }
        requires stored { IsStored [] (with_replaced_item self.old place (node ∷ [])) }
        ensures { self.new ≡ with_replaced_item self.old place (node ∷ []) }
    {
        let other_ranges = self.count - self.nodes[place].count();
        let other_pixels = self.size - self.nodes[place].size();
        let blocks = self.nodes[place].blocks().len();
        shift_after(&mut self.starts, place, blocks, node.blocks().len());
        self.count = other_ranges + node.count();
        self.size = other_pixels + node.size();
        replace_with_one(&mut self.nodes, place, node);
    }

    /// Replaces a node by two. Reserves the capacity for one more node and its start before anything changes.
    fn replace_with_two(
        &mut self,
        place: usize,
        first: Node,
        second: Node,
    ) -> Result<(), AllocError>
        requires place { place < length self.old }
        requires before { IsStored [] self.old }
        requires stored { IsStored [] (with_replaced_item self.old place (first ∷ (second ∷ []))) }
        ensures new { OnOk result (self.new ≡ with_replaced_item self.old place (first ∷ (second ∷ []))) }
        ensures unchanged { OnErr result (self.new ≡ self.old) }
    {
        let other_ranges = self.count - self.nodes[place].count();
        let other_pixels = self.size - self.nodes[place].size();
        let blocks = self.nodes[place].blocks().len();
        let start = self.starts[place] + first.blocks().len();
        let new_blocks = first.blocks().len() + second.blocks().len();
        let ranges = first.count() + second.count();
        let pixels = first.size() + second.size();
        self.starts.reserve(1)?;
        replace_with_two(&mut self.nodes, place, first, second)?;
        shift_after(&mut self.starts, place, blocks, new_blocks);
        // The capacity is reserved.
        let Ok(()) = self.starts.insert(place + 1, start) else {
            unreachable!()
        };
        self.count = other_ranges + ranges;
        self.size = other_pixels + pixels;
        Ok(())
    }

    /// Replaces a node by one or two.
    fn put(&mut self, edit: NodeEdit) -> Result<(), AllocError>
        requires place { edit.place < length self.old }
        requires before { IsStored [] self.old }
        requires stored { IsStored [] (with_replaced_item self.old edit.place (one_or_two edit.first edit.second)) }
        ensures new { OnOk result (self.new
            ≡ with_replaced_item self.old edit.place (one_or_two edit.first edit.second)) }
        ensures unchanged { OnErr result (self.new ≡ self.old) }
    {
        let NodeEdit {
            place,
            first,
            second,
        } = edit;
        if let Some(second) = second {
            return self.replace_with_two(place, first, second);
        }
        self.replace_node(place, first);
        Ok(())
    }

    /// Inserts or removes a range by rebuilding one block, or two adjacent blocks of a node, and returns whether it
    /// succeeded. One rebuilt block is replaced in its node if the node is not shared and the block is not split.
    /// Otherwise the node is rebuilt. If the result is `false`, the nodes are unchanged.
    fn rebuild(
        &mut self,
        alloc: Global,
        edit: EditKind,
        from: u64,
        to: u64,
    ) -> Result<bool, AllocError>
        requires stored { IsStored [] self.old }
        requires filled { from < to }
        requires within { to ≤ pixel_count }
        ensures stored { IsStored [] self.new }
        ensures edited { IfOk result (λ done. OnTrue done
            (IsEdited edit from to (concat (concat self.old)) (concat (concat self.new)))) }
        ensures same { IfOk result (λ done. OnFalse done (self.new ≡ self.old)) }
        ensures unchanged { OnErr result (self.new ≡ self.old) }
    {
        let Some(change) = edit_nodes(alloc, &self.nodes, edit, from, to)? else {
            return Ok(false);
        };
        let BlockEdit {
            node,
            block,
            ranges,
        } = match change {
            Edit::Block(edit) => edit,
            Edit::Node(edit) => {
                self.put(edit)?;
                return Ok(true);
            }
        };
        let new = Block::new(alloc, ranges)?;
        let other_ranges = self.count - self.nodes[node].count();
        let other_pixels = self.size - self.nodes[node].size();
        if !self.nodes[node].replace_block(block, new) {
            return Ok(false);
        }
        self.count = other_ranges + self.nodes[node].count();
        self.size = other_pixels + self.nodes[node].size();
        Ok(true)
    }

    /// Inserts or removes a range if this changes only one block, or two adjacent blocks of a node, and returns whether
    /// it succeeded. The block is changed in place if possible (`edit_in_place`). Otherwise blocks are rebuilt
    /// (`rebuild`). Returns `false` if the range touches more blocks, or if the fill rule would be broken; the nodes
    /// are then unchanged.
    fn edit(
        &mut self,
        alloc: Global,
        edit: EditKind,
        from: u64,
        to: u64,
    ) -> Result<bool, AllocError>
        requires stored { IsStored [] self.old }
        requires filled { from < to }
        requires within { to ≤ pixel_count }
        ensures stored { IsStored [] self.new }
        ensures edited { IfOk result (λ done. OnTrue done
            (IsEdited edit from to (concat (concat self.old)) (concat (concat self.new)))) }
        ensures same { IfOk result (λ done. OnFalse done (self.new ≡ self.old)) }
        ensures unchanged { OnErr result (self.new ≡ self.old) }
    {
        if self.edit_in_place(edit, from, to)? {
            return Ok(true);
        }
        self.rebuild(alloc, edit, from, to)
    }

    /// Inserts a range if this changes only one block, or two adjacent blocks of a node, and returns the number of new
    /// pixels. Otherwise, or if the fill rule would be broken, returns `None`; the nodes are then unchanged.
    pub(crate) fn insert(
        &mut self,
        alloc: Global,
        from: u64,
        to: u64,
    ) -> Result<Option<u64>, AllocError>
        requires stored { IsStored [] self.old }
        requires filled { from < to }
        requires within { to ≤ pixel_count }
        ensures stored { IsStored [] self.new }
        ensures inserted { Inserts from to (concat (concat self.old)) (concat (concat self.new)) result }
    {
        let before = self.size;
        if !self.edit(alloc, EditKind::Insert, from, to)? {
            return Ok(None);
        }
        Ok(Some(self.size - before))
    }

    /// Removes the pixels of a range if this changes only one block, or two adjacent blocks of a node, and returns the
    /// number of removed pixels. Otherwise, or if the fill rule would be broken, returns `None`; the nodes are then
    /// unchanged.
    pub(crate) fn remove(
        &mut self,
        alloc: Global,
        from: u64,
        to: u64,
    ) -> Result<Option<u64>, AllocError>
        requires stored { IsStored [] self.old }
        requires filled { from < to }
        requires within { to ≤ pixel_count }
        ensures stored { IsStored [] self.new }
        ensures removed { Removes from to (concat (concat self.old)) (concat (concat self.new)) result }
    {
        let before = self.size;
        if !self.edit(alloc, EditKind::Remove, from, to)? {
            return Ok(None);
        }
        Ok(Some(before - self.size))
    }
}
