//! The blocks of a list, as slices of ranges.
use moc_blocks::{Cursor, Node, blocks_in_nodes, next_block};
use std::fmt;
use std::marker::Model;

/// An iterator over the chunks of a set, in ascending order: slices of its ranges (from, to). Each has 1 to 128 ranges,
/// and two adjacent chunks together have more than 128.
#[derive(Drop)]
pub struct Chunks<'a> {
    /// The ranges of a set that has no nodes.
    small: &'a [(u64, u64)],
    cursor: Cursor<'a>,
}

impl<'a> Model for Chunks<'a> {
    ghost use Rattle.std.specs.Prelude.{List, ℕ};
    ghost use Rattle.moc_blocks.specs.Private.Blocks.{chunks_of};

    ghost Value = { List (List (ℕ × ℕ)) };

    ghost view = { λ c. chunks_of c.small.now c.cursor.blocks.now c.cursor.nodes.now };
}

ghost use Rattle.std.specs.Prelude.{◌≡◌, [], ◌∷◌, length, MatchOption, IfSome, Some};
ghost use Rattle.std.specs.Iterator.{UpTo, at_most, item_count};
ghost use Rattle.std.specs.Iterator.SizeHint.{IsWithinCount};
ghost use Rattle.moc_blocks.specs.Private.Blocks.{chunks_of};

impl<'a> Chunks<'a> {
    /// Returns an iterator over the given ranges as one chunk, if there are any, and over the blocks of the nodes.
    pub(crate) fn new(small: &'a [(u64, u64)], nodes: &'a [Node]) -> Self
        ensures { result ≡ chunks_of small.now [] nodes.now }
    {
        let cursor = Cursor { blocks: &[], nodes };
        Self { small, cursor }
    }
}

/// Writes the number of ranges of each remaining chunk, such as `[128, 97]`.
impl fmt::Debug for Chunks<'_> {
    fn fmt<W: fmt::Write>(&self, f: &mut fmt::Formatter<W>) -> fmt::Result {
        let chunks = Chunks {
            small: self.small,
            cursor: self.cursor,
        };
        let mut first = true;
        write!(f, "[")?;
        for chunk in chunks {
            if !first {
                write!(f, ", ")?;
            }
            write!(f, "{}", chunk.len())?;
            first = false;
        }
        write!(f, "]")
    }
}

impl<'a> Iterator for Chunks<'a> {
    type Item = &'a [(u64, u64)];

    ghost next_gives = { λ s r t. MatchOption r ((s ≡ []) × (t ≡ [])) (λ x. s ≡ x.now ∷ t) };

    ghost remaining = { item_count (λ s. s) };

    fn next(&mut self) -> Option<&'a [(u64, u64)]> {
        let small = self.small;
        if !small.is_empty() {
            self.small = &[];
            return Some(small);
        }
        let next = next_block(self.cursor)?;
        self.cursor = next.cursor;
        Some(next.block.ranges())
    }

    /// Returns the exact number of remaining chunks. Linear in the number of remaining nodes.
    fn size_hint(&self) -> (usize, Option<usize>)
        ensures lower { IsWithinCount result.0 (at_most (length self.now)) }
        ensures upper { IfSome result.1 (UpTo (at_most (length self.now))) }
        ensures exact { result ≡ (length self.now, Some (length self.now)) }
    {
        let alone = if self.small.is_empty() { 0 } else { 1 };
        let count = alone + self.cursor.blocks.len() + blocks_in_nodes(self.cursor.nodes);
        (count, Some(count))
    }
}
