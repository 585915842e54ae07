//! Cursors over the rest of a list of ranges: blocks, and the nodes after them.
ghost use Rattle.std.specs.Prelude.{◌≡◌, ◌<◌, ◌≤◌, ◌++◌, [], ◌∷◌, length, MatchOption, IfSome};
ghost use Rattle.moc_blocks.specs.Blocks.{concat};
ghost use Rattle.moc_blocks.specs.Private.Blocks.{last_of, next_of, rest_of};

use crate::block::{Block, MAX_BLOCK_RANGES};
use crate::node::Node;

/// A cursor between blocks: the remaining blocks of a node, and the nodes after them.
#[derive(Clone, Copy)]
pub struct Cursor<'a> {
    pub blocks: &'a [Block],
    pub nodes: &'a [Node],
}

impl Cursor<'_> {
    /// Returns whether the list is at its end.
    #[inline]
    pub fn is_empty(&self) -> bool {
        self.blocks.is_empty() && self.nodes.is_empty()
    }
}

/// A cursor inside a block: the remaining ranges of the block, and the cursor after it.
#[derive(Clone, Copy)]
pub struct BlockCursor<'a> {
    pub ranges: &'a [(u64, u64)],
    pub cursor: Cursor<'a>,
}

/// The first range of a list, the remaining ranges of its block, and the cursor after this block.
#[derive(Clone, Copy)]
pub struct NextRange<'a> {
    pub range: (u64, u64),
    pub ranges: &'a [(u64, u64)],
    pub cursor: Cursor<'a>,
}

/// Enters the next node if there are no blocks before it.
pub(crate) fn enter_node(cursor: Cursor<'_>) -> Cursor<'_>
    ensures same { rest_of [] result.blocks.now result.nodes.now ≡ rest_of [] cursor.entry.blocks.now
        cursor.entry.nodes.now }
    ensures begun { length result.blocks.now < 1 → rest_of [] cursor.entry.blocks.now cursor.entry.nodes.now ≡ [] }
    ensures blocks { result.blocks.now ++ concat result.nodes.now ≡ cursor.entry.blocks.now
        ++ concat cursor.entry.nodes.now }
    ensures none { length result.blocks.now < 1 → cursor.entry.blocks.now ++ concat cursor.entry.nodes.now ≡ [] }
{
    let [] = cursor.blocks else {
        return cursor;
    };
    let [node, nodes @ ..] = cursor.nodes else {
        return cursor;
    };
    Cursor {
        blocks: node.blocks(),
        nodes,
    }
}

/// A block, and the cursor after it.
#[derive(Clone, Copy)]
pub struct NextBlock<'a> {
    pub block: &'a Block,
    pub cursor: Cursor<'a>,
}

/// Returns the next block, or `None` at the end.
#[inline]
pub fn next_block(cursor: Cursor<'_>) -> Option<NextBlock<'_>>
    ensures blocks { MatchOption result (cursor.entry.blocks.now ++ concat cursor.entry.nodes.now ≡ []) (λ w.
        cursor.entry.blocks.now ++ concat cursor.entry.nodes.now
        ≡ w.block.now ∷ (w.cursor.blocks.now ++ concat w.cursor.nodes.now)) }
    ensures ranges { MatchOption result (rest_of [] cursor.entry.blocks.now cursor.entry.nodes.now ≡ []) (λ w.
        rest_of [] cursor.entry.blocks.now cursor.entry.nodes.now
        ≡ w.block.now ++ rest_of [] w.cursor.blocks.now w.cursor.nodes.now) }
{
    let cursor = enter_node(cursor);
    let [block, blocks @ ..] = cursor.blocks else {
        return None;
    };
    Some(NextBlock {
        block,
        cursor: Cursor {
            blocks,
            nodes: cursor.nodes,
        },
    })
}

/// Returns the start of the next range, or the largest number at the end.
pub fn start_of_next(cursor: Cursor<'_>) -> u64
    ensures { result ≡ next_of (rest_of [] cursor.entry.blocks.now cursor.entry.nodes.now) }
{
    let cursor = enter_node(cursor);
    match cursor.blocks {
        [block, ..] => block.from(),
        [] => u64::MAX,
    }
}

/// Returns the next range, or `None` at the end.
pub fn next_range(cursor: Cursor<'_>) -> Option<NextRange<'_>>
    ensures { MatchOption result (rest_of [] cursor.entry.blocks.now cursor.entry.nodes.now ≡ []) (λ f. rest_of []
        cursor.entry.blocks.now cursor.entry.nodes.now ≡ f.range ∷ rest_of f.ranges.now f.cursor.blocks.now
        f.cursor.nodes.now) }
{
    let next = next_block(cursor)?;
    let [range, ranges @ ..] = next.block.ranges() else {
        return None;
    };
    Some(NextRange {
        range: *range,
        ranges,
        cursor: next.cursor,
    })
}

/// Enters the next block, or returns `None` at the end.
pub fn enter_next_block(cursor: Cursor<'_>) -> Option<BlockCursor<'_>>
    ensures { MatchOption result (rest_of [] cursor.entry.blocks.now cursor.entry.nodes.now ≡ []) (λ b.
        (rest_of b.ranges.now b.cursor.blocks.now b.cursor.nodes.now
        ≡ rest_of [] cursor.entry.blocks.now cursor.entry.nodes.now) × (0 < length b.ranges.now)) }
{
    let next = next_block(cursor)?;
    Some(BlockCursor {
        ranges: next.block.ranges(),
        cursor: next.cursor,
    })
}

/// A node, and the nodes after it.
#[derive(Clone, Copy)]
pub struct NextNode<'a> {
    pub node: &'a Node,
    pub nodes: &'a [Node],
}

/// Returns the next node if the cursor is between nodes and this node ends below the limit.
pub fn node_below<'a>(ranges: &[(u64, u64)], cursor: Cursor<'a>, limit: u64) -> Option<NextNode<'a>>
    ensures parts { IfSome result (λ w.
        rest_of ranges.entry.now cursor.entry.blocks.now cursor.entry.nodes.now
        ≡ concat w.node.now ++ rest_of [] [] w.nodes.now) }
    ensures below { IfSome result (λ w. last_of (concat w.node.now) < limit) }
    ensures some { IfSome result (λ w. 0 < length (concat w.node.now)) }
{
    let [] = ranges else {
        return None;
    };
    let [] = cursor.blocks else {
        return None;
    };
    let [node, nodes @ ..] = cursor.nodes else {
        return None;
    };
    if node.to() < limit {
        Some(NextNode { node, nodes })
    } else {
        None
    }
}

/// Returns the next block if the cursor is between blocks and this block ends below the limit.
pub fn block_below<'a>(
    ranges: &[(u64, u64)],
    cursor: Cursor<'a>,
    limit: u64,
) -> Option<NextBlock<'a>>
    ensures parts { IfSome result (λ w.
        rest_of ranges.entry.now cursor.entry.blocks.now cursor.entry.nodes.now
        ≡ w.block.now ++ rest_of [] w.cursor.blocks.now w.cursor.nodes.now) }
    ensures below { IfSome result (λ w. last_of w.block.now < limit) }
    ensures some { IfSome result (λ w. 0 < length w.block.now) }
    ensures fits { IfSome result (λ w. length w.block.now ≤ MAX_BLOCK_RANGES) }
{
    let [] = ranges else {
        return None;
    };
    let next = next_block(cursor)?;
    if next.block.to() < limit {
        Some(next)
    } else {
        None
    }
}
