//! Rebuilds the block that an edit with a range changes, and its node if needed.
ghost use Rattle.std.specs.Prelude.{◌≡◌, ◌+◌, ◌<◌, ◌≤◌, ◌++◌, ◌∷◌, [], length, IfOk, IfSome, MatchOption, OnOk};
ghost use Rattle.moc_blocks.specs.RangeList.{pixel_count, IsNormal};
ghost use Rattle.moc_blocks.specs.Blocks.{concat, AreBlocks};
ghost use Rattle.moc_blocks.specs.Private.Blocks.{IsStored};
ghost use Rattle.moc_blocks.specs.Private.Built.{first_length, EndsBelow};
ghost use Rattle.moc_blocks.specs.Private.Edits.{pieces, AreEditedRanges, IsEditedBlock, IsEdit, ReplacesNode};
ghost use Rattle.moc_blocks.specs.declared.edits.rebuild.EditKind.{EditKind};

use crate::block::{Block, MAX_BLOCK_RANGES};
use crate::cursor::{Cursor, start_of_next};
use crate::edits::cutting::without_range;
use crate::edits::pairs::edit_pair;
use crate::edits::place::{SplitAtRun, find_run};
use crate::edits::reach::with_range;
use crate::edits::splitting::{SplitList, split_list};
use crate::lengths::{blocks_in_last, ranges_in_first, ranges_in_last};
use crate::node::{MAX_NODE_BLOCKS, Node};
use std::alloc::{AllocError, Global};

/// What is done with a range: its pixels are inserted into a list, or removed from it.
#[derive(Clone, Copy)]
pub enum EditKind {
    /// The pixels of the range are inserted.
    Insert,
    /// The pixels of the range are removed.
    Remove,
}

/// Returns the number of ranges of the next block, or 0 if the list is empty.
pub(crate) fn ranges_in_next(blocks: &[Block], nodes: &[Node]) -> usize
    ensures { result ≡ first_length (blocks.now ++ concat nodes.now) }
{
    if blocks.is_empty() {
        if let [node, ..] = nodes {
            return ranges_in_first(node.blocks());
        }
    }
    ranges_in_first(blocks)
}

/// Returns the number of blocks of the first node, or 0 if the list is empty.
fn blocks_in_first(nodes: &[Node]) -> usize
    ensures { result ≡ first_length nodes.now }
{
    match nodes {
        [node, ..] => node.blocks().len(),
        [] => 0,
    }
}

/// Appends the blocks of a list of ranges that was split.
fn push_pieces(
    alloc: Global,
    blocks: &mut Vec<Block>,
    cut: SplitList<(u64, u64)>,
) -> Result<(), AllocError>
    requires filled { AreBlocks (pieces cut.first.items cut.second.items) }
    requires normal { IsNormal (cut.first.items ++ cut.second.items) }
    ensures { OnOk result (blocks.new.items ≡ blocks.old.items ++ pieces cut.first.items cut.second.items) }
{
    let SplitList { first, second } = cut;
    blocks.push(Block::new(alloc, first)?)?;
    if !second.is_empty() {
        blocks.push(Block::new(alloc, second)?)?;
    }
    Ok(())
}

/// Appends blocks that share their ranges with the given blocks.
fn push_shared(blocks: &mut Vec<Block>, more: &[Block]) -> Result<(), AllocError>
    ensures { OnOk result (blocks.new.items ≡ blocks.old.items ++ more.now) }
{
    for block in more {
        blocks.push(block.share()?)?;
    }
    Ok(())
}

/// Returns blocks that share their ranges with the given blocks, and between them those of a list that was split.
pub(crate) fn with_pieces_between(
    alloc: Global,
    before: &[Block],
    cut: SplitList<(u64, u64)>,
    after: &[Block],
) -> Result<Vec<Block>, AllocError>
    requires filled { AreBlocks (pieces cut.first.items cut.second.items) }
    requires normal { IsNormal (cut.first.items ++ cut.second.items) }
    ensures { IfOk result (λ v. v.items ≡ before.now ++ (pieces cut.first.items cut.second.items ++ after.now)) }
{
    let mut blocks = Vec::with_capacity(alloc, MAX_NODE_BLOCKS + 1)?;
    push_shared(&mut blocks, before)?;
    push_pieces(alloc, &mut blocks, cut)?;
    push_shared(&mut blocks, after)?;
    Ok(blocks)
}

/// Returns ranges after an edit.
pub(crate) fn edit_ranges(
    alloc: Global,
    ranges: &[(u64, u64)],
    edit: EditKind,
    from: u64,
    to: u64,
) -> Result<Vec<(u64, u64)>, AllocError>
    requires normal { IsNormal ranges.now }
    requires filled { from < to }
    requires within { to ≤ pixel_count }
    ensures { IfOk result (λ v. AreEditedRanges edit from to ranges.now v.items) }
{
    match edit {
        EditKind::Insert => with_range(alloc, ranges, from, to),
        EditKind::Remove => without_range(alloc, ranges, from, to),
    }
}

/// A block of a node after an edit: the blocks around it, and its ranges as they were split.
#[derive(Drop)]
struct EditedBlock<'a> {
    place: SplitAtRun<'a, Block>,
    cut: SplitList<(u64, u64)>,
}

/// Edits the block of a range in a node between other nodes. Returns `None` if the range touches another block, if the
/// block would be empty, or if the fill rule would be broken.
fn edit_block<'a>(
    alloc: Global,
    around: &SplitAtRun<'a, Node>,
    edit: EditKind,
    from: u64,
    to: u64,
) -> Result<Option<EditedBlock<'a>>, AllocError>
    requires sized { AreBlocks (concat around.now.before.now
        ++ (around.now.run.now ++ concat around.now.after.now)) }
    requires normal { IsNormal (concat (concat around.now.before.now
        ++ (around.now.run.now ++ concat around.now.after.now))) }
    requires filled { from < to }
    requires within { to ≤ pixel_count }
    requires below { EndsBelow from (concat (concat around.now.before.now)) }
    ensures { IfOk result (λ g. IfSome g (λ g. IsEditedBlock edit from to (concat around.now.before.now)
        (concat around.now.after.now) around.now.run.now g.place.before.now g.place.run.now g.place.after.now
        g.cut.first.items g.cut.second.items)) }
{
    let Some(place) = find_run(around.run.blocks(), from) else {
        return Ok(None);
    };
    let cursor = Cursor {
        blocks: place.after,
        nodes: around.after,
    };
    if start_of_next(cursor) <= to {
        return Ok(None);
    }
    let ranges = edit_ranges(alloc, place.run.ranges(), edit, from, to)?;
    let front = ranges_in_last(around.before, place.before);
    let back = ranges_in_next(place.after, around.after);
    let Some(cut) = split_list(alloc, ranges, MAX_BLOCK_RANGES, front, back)? else {
        return Ok(None);
    };
    Ok(Some(EditedBlock { place, cut }))
}

/// A node that is replaced by one or two nodes because of an edit: its position, and the new nodes.
#[derive(Drop)]
pub struct NodeEdit {
    pub place: usize,
    pub first: Node,
    pub second: Option<Node>,
}

/// Returns the node of the given blocks, or `None` for an empty list.
fn node_of(alloc: Global, blocks: Vec<Block>) -> Result<Option<Node>, AllocError>
    requires normal { IsNormal (concat blocks.items) }
    requires sized { AreBlocks blocks.items }
    requires fits { length blocks.items ≤ MAX_NODE_BLOCKS }
    ensures { IfOk result (λ n. MatchOption n (blocks.items ≡ [])
        (λ n. (n ≡ blocks.items) × (0 < length blocks.items))) }
{
    if blocks.is_empty() {
        return Ok(None);
    }
    let node = Node::new(alloc, blocks)?;
    Ok(Some(node))
}

/// A block that is replaced because of an edit and stays one block: the position of its node, its position in this
/// node, and its new ranges.
#[derive(Drop)]
pub struct BlockEdit {
    pub node: usize,
    pub block: usize,
    pub ranges: Vec<(u64, u64)>,
}

/// What an edit replaces: a block of a node that is not shared, or a node.
#[derive(Drop)]
pub enum Edit {
    /// A block of a node that is not shared.
    Block(BlockEdit),
    /// A node.
    Node(NodeEdit),
}

/// Returns the edit that replaces a node by one or two nodes of the given blocks. Returns `None` if there are no
/// blocks, or if the fill rule would be broken.
fn replace_node(
    alloc: Global,
    place: &SplitAtRun<'_, Node>,
    blocks: Vec<Block>,
) -> Result<Option<Edit>, AllocError>
    requires normal { IsNormal (concat blocks.items) }
    requires sized { AreBlocks blocks.items }
    ensures { IfOk result (λ r. IfSome r (ReplacesNode place.now.before.now place.now.after.now blocks.items)) }
{
    let front = blocks_in_last(place.before);
    let back = blocks_in_first(place.after);
    let Some(SplitList { first, second }) = split_list(alloc, blocks, MAX_NODE_BLOCKS, front, back)?
    else {
        return Ok(None);
    };
    let first = Node::new(alloc, first)?;
    let second = node_of(alloc, second)?;
    Ok(Some(Edit::Node(NodeEdit {
        place: place.before.len(),
        first,
        second,
    })))
}

/// Edits the block of a range together with a neighbour in its node, and rebuilds the node.
fn edit_two_blocks(
    alloc: Global,
    place: &SplitAtRun<'_, Node>,
    edit: EditKind,
    from: u64,
    to: u64,
) -> Result<Option<Edit>, AllocError>
    requires stored { IsStored [] (place.now.before.now ++ place.now.run.now ∷ place.now.after.now) }
    requires filled { from < to }
    requires within { to ≤ pixel_count }
    requires below { EndsBelow from (concat (concat place.now.before.now)) }
    ensures { IfOk result (λ r. IfSome r
        (IsEdit edit from to (place.now.before.now ++ place.now.run.now ∷ place.now.after.now))) }
{
    let Some(blocks) = edit_pair(alloc, place, edit, from, to)? else {
        return Ok(None);
    };
    replace_node(alloc, place, blocks)
}

/// Inserts or removes a range, and rebuilds the block that it belongs to. The node of this block is rebuilt as well if
/// it is shared, or if the block is split. If the range reaches the next block, if the block would be empty, or if the
/// fill rule would be broken, the block and a neighbour in its node are rebuilt together, and so is the node. Returns
/// `None` if the range reaches a third block or another node, or if the fill rule would still be broken.
///
/// # Errors
///
/// Fails if an allocation fails.
pub fn edit_nodes(
    alloc: Global,
    nodes: &[Node],
    edit: EditKind,
    from: u64,
    to: u64,
) -> Result<Option<Edit>, AllocError>
    requires stored { IsStored [] nodes.now }
    requires filled { from < to }
    requires within { to ≤ pixel_count }
    ensures { IfOk result (λ r. IfSome r (IsEdit edit from to nodes.entry.now)) }
{
    let Some(place) = find_run(nodes, from) else {
        return Ok(None);
    };
    let Some(EditedBlock { place: own, cut }) = edit_block(alloc, &place, edit, from, to)? else {
        return edit_two_blocks(alloc, &place, edit, from, to);
    };
    if cut.second.is_empty() && !place.run.is_shared() {
        return Ok(Some(Edit::Block(BlockEdit {
            node: place.before.len(),
            block: own.before.len(),
            ranges: cut.first,
        })));
    }
    let blocks = with_pieces_between(alloc, own.before, cut, own.after)?;
    replace_node(alloc, &place, blocks)
}
