//! Iterators over the ranges of a list.
ghost use Rattle.std.specs.Iterator.{YieldsFirst, UpTo, at_most, item_count};
ghost use Rattle.std.specs.Iterator.SizeHint.{IsWithinCount};

use moc_blocks::{
    Block, BlockCursor, Cursor, MAX_BLOCK_RANGES, Node, block_below, count_in_blocks,
    count_in_nodes, enter_next_block, next_range, node_below, skip_ranges, split_below,
    start_of_next,
};
use std::fmt;
use std::marker::Model;

/// An iterator over the ranges (from, to) of a list in ascending order; `to` is not included. The ranges of a coverage
/// are ranges of order-29 pixels in the nested numbering.
#[derive(Drop)]
pub struct Ranges<'a> {
    /// The remaining ranges of the current block.
    ranges: &'a [(u64, u64)],
    cursor: Cursor<'a>,
}

impl<'a> Model for Ranges<'a> {
    ghost use Rattle.std.specs.Prelude.{List, ℕ};
    ghost use Rattle.moc_blocks.specs.Private.Blocks.{rest_of};
    ghost use Rattle.moc_blocks.specs.RangeList.{IsNormal};

    ghost Value = { List (ℕ × ℕ) };

    ghost view = { λ r. rest_of r.ranges.now r.cursor.blocks.now r.cursor.nodes.now };

    ghost invariant = { λ r. IsNormal (rest_of r.ranges.now r.cursor.blocks.now r.cursor.nodes.now) };
}

ghost use Rattle.std.specs.Prelude.{ℕ, ◌≡◌, ◌<◌, ◌≤◌, ◌++◌, ◌∷◌, [], List, length, MatchOption, IfSome, Some, min};
ghost use Rattle.moc_blocks.specs.RangeList.{IsNormal};
ghost use Rattle.moc_blocks.specs.Blocks.{concat};
ghost use Rattle.moc_blocks.specs.Private.Blocks.{last_of, next_of, rest_of};
ghost use Rattle.moc_blocks.specs.Private.Walks.{Advances, Skips};

/// The rest of a list after the current block.
#[derive(Drop)]
pub struct Tail<'a> {
    cursor: Cursor<'a>,
}

impl<'a> Model for Tail<'a> {
    ghost use Rattle.std.specs.Prelude.{List, ℕ, []};
    ghost use Rattle.moc_blocks.specs.Private.Blocks.{rest_of};

    ghost Value = { List (ℕ × ℕ) };

    ghost view = { λ b. rest_of [] b.cursor.blocks.now b.cursor.nodes.now };
}

/// The remaining ranges of the current block, and the rest of the list after it.
#[derive(Drop)]
pub struct BlockAndTail<'a> {
    pub ranges: &'a [(u64, u64)],
    pub tail: Tail<'a>,
}

/// The number of common pixels of the ranges that were skipped, and the next range.
#[derive(Clone, Copy)]
pub struct Advance {
    pub common: u64,
    pub next: Option<(u64, u64)>,
}

impl<'a> Ranges<'a> {
    /// Returns an iterator over the given ranges and those of all blocks of the nodes.
    #[inline]
    pub(crate) fn new(ranges: &'a [(u64, u64)], nodes: &'a [Node]) -> Self
        requires { IsNormal (rest_of ranges.now [] nodes.now) }
        ensures list { result ≡ rest_of ranges.now [] nodes.now }
        ensures normal { IsNormal result }
    {
        let cursor = Cursor { blocks: &[], nodes };
        Self { ranges, cursor }
    }

    /// Returns an iterator over the given ranges.
    #[inline]
    pub fn of(ranges: &'a [(u64, u64)]) -> Self
        requires { IsNormal ranges.now }
        ensures list { result ≡ ranges.now }
        ensures normal { IsNormal result }
    {
        Self::new(ranges, &[])
    }

    /// Returns a capacity for the remaining ranges: their number if all are in the current block, but at most the
    /// number that fits into a block; otherwise that number.
    #[inline]
    pub fn capacity(&self) -> usize
        ensures fits { result ≤ MAX_BLOCK_RANGES }
        ensures enough { min (length self.now) MAX_BLOCK_RANGES ≤ result }
    {
        if self.cursor.blocks.is_empty() && self.cursor.nodes.is_empty() {
            self.ranges.len().min(MAX_BLOCK_RANGES)
        } else {
            MAX_BLOCK_RANGES
        }
    }

    /// Returns the remaining ranges as a slice, or `None` if there are blocks after the current one.
    #[inline]
    pub fn slice(&self) -> Option<&'a [(u64, u64)]>
        ensures { IfSome result (λ slice. (slice.now ≡ self.now) × IsNormal slice.now) }
    {
        if self.cursor.blocks.is_empty() && self.cursor.nodes.is_empty() {
            Some(self.ranges)
        } else {
            None
        }
    }

    /// Returns the start of the next range, or the largest number at the end.
    #[inline]
    pub fn next_from(&self) -> u64
        ensures { result ≡ next_of self.now }
    {
        match self.ranges {
            [range, ..] => range.0,
            [] => start_of_next(self.cursor),
        }
    }

    /// Returns whether the iterator is inside a block.
    #[inline]
    pub fn is_in_block(&self) -> bool {
        !self.ranges.is_empty()
    }

    /// Returns the remaining ranges of the current block, and the cursor after it.
    #[inline]
    fn current(&self) -> BlockCursor<'a>
        ensures { rest_of result.ranges.now result.cursor.blocks.now result.cursor.nodes.now ≡ self.now }
    {
        BlockCursor {
            ranges: self.ranges,
            cursor: self.cursor,
        }
    }

    /// Returns the remaining ranges of the current block as a slice, and the rest of the list after it.
    #[inline]
    pub fn split_block(&self) -> BlockAndTail<'a>
        ensures { result.ranges.now ++ result.tail ≡ self.now }
    {
        BlockAndTail {
            ranges: self.ranges,
            tail: Tail {
                cursor: self.cursor,
            },
        }
    }

    /// Returns the remaining ranges of the current block, or else the next block, and the rest of the list after it.
    /// Returns `None` at the end.
    #[inline]
    pub fn next_block(&self) -> Option<BlockAndTail<'a>>
        ensures { MatchOption result (self.now ≡ []) (λ s.
            (s.ranges.now ++ s.tail ≡ self.now) × (0 < length s.ranges.now)) }
    {
        let [] = self.ranges else {
            return Some(BlockAndTail {
                ranges: self.ranges,
                tail: Tail {
                    cursor: self.cursor,
                },
            });
        };
        let current = enter_next_block(self.cursor)?;
        Some(BlockAndTail {
            ranges: current.ranges,
            tail: Tail {
                cursor: current.cursor,
            },
        })
    }

    /// Enters the next block if the iterator is between blocks.
    #[inline]
    pub fn enter_block(&mut self)
        requires { IsNormal self.old }
        ensures { self.new ≡ self.old }
    {
        if let Some(next) = self.next_block() {
            self.resume(next.ranges, next.tail);
        }
    }

    /// Returns the next range if the iterator is inside a block.
    #[inline]
    pub fn current_range(&self) -> Option<(u64, u64)>
        ensures { IfSome result (λ range. (rest : List (ℕ × ℕ)) × (self.now ≡ range ∷ rest)) }
    {
        match self.ranges {
            [range, ..] => Some(*range),
            [] => None,
        }
    }

    /// Continues with the given ranges, and then with the given rest of a list.
    #[inline]
    pub fn resume(&mut self, ranges: &'a [(u64, u64)], tail: Tail<'a>)
        requires { IsNormal (ranges.now ++ tail) }
        ensures { self.new ≡ ranges.entry.now ++ tail.entry }
    {
        self.ranges = ranges;
        self.cursor = tail.cursor;
    }

    /// Takes the next node whole if the iterator is between nodes and this node ends below the limit.
    pub(crate) fn take_node_below(&mut self, limit: u64) -> Option<&'a Node>
        ensures parts { MatchOption result (self.new ≡ self.old) (λ n. self.old ≡ concat n.now ++ self.new) }
        ensures below { IfSome result (λ n. last_of (concat n.now) < limit) }
        ensures some { IfSome result (λ n. 0 < length (concat n.now)) }
    {
        let whole = node_below(self.ranges, self.cursor, limit)?;
        self.cursor = Cursor {
            blocks: &[],
            nodes: whole.nodes,
        };
        self.ranges = &[];
        Some(whole.node)
    }

    /// Takes the next block whole if the iterator is between blocks and this block ends below the limit.
    pub(crate) fn take_block_below(&mut self, limit: u64) -> Option<&'a Block>
        ensures parts { MatchOption result (self.new ≡ self.old) (λ b. self.old ≡ b.now ++ self.new) }
        ensures below { IfSome result (λ b. last_of b.now < limit) }
        ensures some { IfSome result (λ b. 0 < length b.now) }
        ensures fits { IfSome result (λ b. length b.now ≤ MAX_BLOCK_RANGES) }
    {
        let whole = block_below(self.ranges, self.cursor, limit)?;
        self.cursor = whole.cursor;
        self.ranges = &[];
        Some(whole.block)
    }

    /// Takes the ranges of the current block that end below the limit, or returns `None` if there are none.
    #[inline]
    pub fn take_ranges_below(&mut self, limit: u64) -> Option<&'a [(u64, u64)]>
        ensures parts { MatchOption result (self.new ≡ self.old) (λ r. self.old ≡ r.now ++ self.new) }
        ensures below { IfSome result (λ r. last_of r.now < limit) }
        ensures some { IfSome result (λ r. 0 < length r.now) }
    {
        let leading = split_below(self.ranges, limit)?;
        self.ranges = leading.rest;
        Some(leading.first)
    }

    /// Skips the ranges that end at or before the start of the range, and then those that are inside the range. Returns
    /// the number of pixels that they have in common with the range.
    ///
    /// # Complexity
    ///
    /// O(log n), and linear in the number of nodes, blocks and ranges inside the range.
    #[inline(never)]
    pub fn skip_counting(&mut self, range: (u64, u64)) -> u64
        requires { range.0 ≤ range.1 }
        ensures { Skips range self.old self.new result }
    {
        let passed = skip_ranges(self.current(), range);
        self.ranges = passed.current.ranges;
        self.cursor = passed.current.cursor;
        passed.common
    }

    /// Skips the ranges that end at or before the limit. O(log n).
    #[inline]
    pub fn skip_to(&mut self, limit: u64)
        ensures { ((n : ℕ) × Skips (limit, limit) self.old self.new n) }
    {
        self.skip_counting((limit, limit));
    }

    /// Returns whether the range `lookahead` positions ahead in the current block ends after the limit. Also returns
    /// `true` if the current block has ranges, but none that far ahead. In both cases, advancing one by one costs less
    /// than a search. Returns `false` between blocks.
    #[inline(always)]
    pub fn is_near(&self, limit: u64, lookahead: usize) -> bool {
        match self.ranges.get(lookahead) {
            Some(range) => limit < range.1,
            None => self.is_in_block(),
        }
    }

    /// Advances to the next range. If `is_near` is false for the start of the given range, first skips the ranges that
    /// `skip_counting` skips.
    #[inline(always)]
    pub fn advance(&mut self, range: (u64, u64), lookahead: usize) -> Advance
        requires { range.0 ≤ range.1 }
        ensures { Advances range self.old self.new result.next result.common }
    {
        let mut common = 0;
        if !self.is_near(range.0, lookahead) {
            common = self.skip_counting(range);
        }
        Advance {
            common,
            next: self.next(),
        }
    }

    /// Does the same as `advance` for an empty range at the limit. The returned range can end at or before the limit,
    /// because not always all ranges that end there are skipped.
    #[inline(always)]
    pub fn next_ending_after(&mut self, limit: u64, lookahead: usize) -> Option<(u64, u64)>
        ensures { ((n : ℕ) × Advances (limit, limit) self.old self.new result n) }
    {
        self.advance((limit, limit), lookahead).next
    }
}

/// Writes the remaining ranges, such as `{0..4, 6..8}`.
impl fmt::Debug for Ranges<'_> {
    fn fmt<W: fmt::Write>(&self, f: &mut fmt::Formatter<W>) -> fmt::Result {
        let ranges = Ranges {
            ranges: self.ranges,
            cursor: self.cursor,
        };
        let mut first = true;
        write!(f, "{{")?;
        for (from, to) in ranges {
            if !first {
                write!(f, ", ")?;
            }
            write!(f, "{from}..{to}")?;
            first = false;
        }
        write!(f, "}}")
    }
}

impl<'a> Iterator for Ranges<'a> {
    type Item = (u64, u64);

    ghost next_gives = { YieldsFirst (λ s. s) };

    ghost remaining = { item_count (λ s. s) };

    #[inline]
    fn next(&mut self) -> Option<(u64, u64)> {
        match self.ranges {
            [range, ranges @ ..] => {
                self.ranges = ranges;
                Some(*range)
            }
            [] => {
                let front = next_range(self.cursor)?;
                self.ranges = front.ranges;
                self.cursor = front.cursor;
                Some(front.range)
            }
        }
    }

    fn size_hint(&self) -> (usize, Option<usize>)
        ensures lower { IsWithinCount result.0 (at_most (length self.now)) }
        ensures upper { IfSome result.1 (UpTo (at_most (length self.now))) }
        ensures exact { result ≡ (length self.now, Some (length self.now)) }
    {
        let cursor = count_in_blocks(self.cursor.blocks) + count_in_nodes(self.cursor.nodes);
        let count = self.ranges.len() + cursor;
        (count, Some(count))
    }
}
