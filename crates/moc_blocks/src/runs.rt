//! Skips the ranges of a list that end early or are inside a given range.
ghost use Rattle.std.specs.Prelude.{◌≡◌, ◌+◌, ◌<◌, ◌≤◌, List, ℕ, [], ◌∷◌, ◌++◌, length, take, IfSome, MatchOption};
ghost use Rattle.moc_blocks.specs.RangeList.{IsNormal};
ghost use Rattle.moc_blocks.specs.Blocks.{concat};
ghost use Rattle.moc_blocks.specs.Private.Blocks.{first_of, last_of, width_of, rest_of};
ghost use Rattle.moc_blocks.specs.Private.Walks.{all_ranges, EndsBy, Skips, EndsAfterAt, IsSkipping, IsFirstAfter};

use crate::block::Block;
use crate::cursor::{BlockCursor, Cursor, enter_node};
use crate::node::Node;

/// The search near a guess covers this many runs to each side.
const NEAR: usize = 8;

/// A search compares up to this number of runs one by one.
const FEW: usize = 16;

/// One or more ranges in ascending order: a range, a block, or a node.
pub(crate) trait Run {
    ghost ranges: { Self → List (ℕ × ℕ) };

    /// Returns the start of the first range.
    fn start(&self) -> u64
        ensures value { result ≡ first_of (ranges self.now) }
        ensures some { 0 < length (ranges self.now) };

    /// Returns the end of the last range.
    fn end(&self) -> u64
        ensures value { result ≡ last_of (ranges self.now) }
        ensures some { 0 < length (ranges self.now) };

    /// Returns the number of pixels.
    fn width(&self) -> u64
        requires { IsNormal (ranges self.now) }
        ensures value { result ≡ width_of (ranges self.now) }
        ensures some { 0 < length (ranges self.now) };
}

impl Run for (u64, u64) {
    ghost use Rattle.std.specs.Prelude.{[], ◌∷◌};

    ghost ranges = { λ range. range ∷ [] };

    #[inline]
    fn start(&self) -> u64 {
        self.0
    }

    #[inline]
    fn end(&self) -> u64 {
        self.1
    }

    #[inline]
    fn width(&self) -> u64 {
        self.1 - self.0
    }
}

impl Run for Block {
    ghost ranges = { λ block. block };

    #[inline]
    fn start(&self) -> u64 {
        Block::from(self)
    }

    #[inline]
    fn end(&self) -> u64 {
        Block::to(self)
    }

    #[inline]
    fn width(&self) -> u64 {
        Block::size(self)
    }
}

impl Run for Node {
    ghost use Rattle.moc_blocks.specs.Blocks.{concat};

    ghost ranges = { λ node. concat node };

    #[inline]
    fn start(&self) -> u64 {
        Node::from(self)
    }

    #[inline]
    fn end(&self) -> u64 {
        Node::to(self)
    }

    #[inline]
    fn width(&self) -> u64 {
        Node::size(self)
    }
}

/// Returns the step if the end is at most the limit, and otherwise 0. Avoids a branch, because a processor cannot
/// predict it.
#[inline]
fn step_past(step: usize, end: u64, limit: u64) -> usize
    ensures ended { end ≤ limit → result ≡ step }
    ensures later { limit < end → result ≡ 0 }
{
    let difference = u128::from(end).wrapping_sub(u128::from(limit) + 1);
    let mask = (difference >> 64) as usize;
    step & mask
}

/// Returns the same number as `count_ended_from`. Compares each of the `size` runs, because then no load waits for the
/// comparison before it, as in a binary search.
#[inline]
fn count_each<T: Run>(runs: &[T], limit: u64, low: usize, size: usize) -> usize
    requires normal { IsNormal (all_ranges T.ranges runs.now) }
    requires there { IsSkipping T.ranges runs.now limit low size }
    ensures bound { result ≤ length runs.now }
    ensures ended { EndsBy limit (all_ranges T.ranges (take result runs.now)) }
    ensures past { EndsAfterAt T.ranges runs.now limit result }
{
    let mut place = low;
    for run in &runs[low..low + size] {
        place += usize::from(run.end() <= limit);
    }
    place
}

/// Returns the number of runs that end at or before the limit. Requires that all runs before `low` do, and that none
/// from `low + size` on does. O(log size).
#[inline]
fn count_ended_from<T: Run>(runs: &[T], limit: u64, low: usize, size: usize) -> usize
    requires normal { IsNormal (all_ranges T.ranges runs.now) }
    requires there { IsSkipping T.ranges runs.now limit low size }
    ensures bound { result ≤ length runs.now }
    ensures ended { EndsBy limit (all_ranges T.ranges (take result runs.now)) }
    ensures past { EndsAfterAt T.ranges runs.now limit result }
{
    let mut low = low;
    let mut size = size;
    while size > FEW {
        let half = size / 2;
        low += step_past(half, runs[low + half].end(), limit);
        size -= half;
    }
    count_each(runs, limit, low, size)
}

/// Returns the number of runs that end at or before the limit. O(log n).
#[inline]
pub(crate) fn count_ended<T: Run>(runs: &[T], limit: u64) -> usize
    requires { IsNormal (all_ranges T.ranges runs.now) }
    ensures bound { result ≤ length runs.now }
    ensures ended { EndsBy limit (all_ranges T.ranges (take result runs.now)) }
    ensures past { EndsAfterAt T.ranges runs.now limit result }
{
    count_ended_from(runs, limit, 0, runs.len())
}

/// Returns the same number as `count_ended`, from a guess: searches the runs near the guess first, and others only if
/// the guess is far off. O(log n).
#[inline]
pub(crate) fn count_ended_near<T: Run>(runs: &[T], limit: u64, about: usize) -> usize
    requires { IsNormal (all_ranges T.ranges runs.now) }
    ensures bound { result ≤ length runs.now }
    ensures ended { EndsBy limit (all_ranges T.ranges (take result runs.now)) }
    ensures past { EndsAfterAt T.ranges runs.now limit result }
{
    let len = runs.len();
    let low = about.saturating_sub(NEAR).min(len);
    let high = about.saturating_add(NEAR).min(len);
    if low > 0 && limit < runs[low - 1].end() {
        return count_ended_from(runs, limit, 0, low);
    }
    if high < len && runs[high].end() <= limit {
        return count_ended_from(runs, limit, high, len - high);
    }
    count_ended_from(runs, limit, low, high - low)
}

/// Returns the first run that ends after the limit, if any. O(log n).
#[inline]
pub(crate) fn first_ending_after<T: Run>(runs: &[T], limit: u64) -> Option<&T>
    requires { IsNormal (all_ranges T.ranges runs.now) }
    ensures { MatchOption result
        (EndsBy limit (all_ranges T.ranges runs.entry.now))
        (λ run. IsFirstAfter limit (T.ranges run.now) (all_ranges T.ranges runs.entry.now)) }
{
    runs.get(count_ended(runs, limit))
}

/// Returns the same run as `first_ending_after`, from a guess of its position. Reads less memory if the guess is good.
#[inline]
pub(crate) fn first_ending_near<T: Run>(runs: &[T], limit: u64, about: usize) -> Option<&T>
    requires { IsNormal (all_ranges T.ranges runs.now) }
    ensures { MatchOption result
        (EndsBy limit (all_ranges T.ranges runs.entry.now))
        (λ run. IsFirstAfter limit (T.ranges run.now) (all_ranges T.ranges runs.entry.now)) }
{
    runs.get(count_ended_near(runs, limit, about))
}

/// Ranges at the front of a list, and the ranges after them.
#[derive(Clone, Copy)]
pub struct SplitRanges<'a> {
    pub first: &'a [(u64, u64)],
    pub rest: &'a [(u64, u64)],
}

/// Splits off the ranges that end below the limit, or returns `None` if there are none. O(log n).
#[inline]
pub fn split_below(ranges: &[(u64, u64)], limit: u64) -> Option<SplitRanges<'_>>
    requires { IsNormal ranges.now }
    ensures parts { IfSome result (λ l. ranges.entry.now ≡ l.first.now ++ l.rest.now) }
    ensures below { IfSome result (λ l. last_of l.first.now < limit) }
    ensures some { IfSome result (λ l. 0 < length l.first.now) }
{
    let [range, ..] = ranges else {
        return None;
    };
    if limit <= range.1 {
        return None;
    }
    let count = count_ended(ranges, limit - 1);
    Some(SplitRanges {
        first: &ranges[..count],
        rest: &ranges[count..],
    })
}

/// The number of common pixels of the runs that were skipped, and the runs after them.
#[derive(Clone, Copy)]
struct SkippedRuns<'a, T> {
    common: u64,
    rest: &'a [T],
}

/// Skips the runs that end at or before the start of the range, and then those that are inside the range. Counts the
/// pixels that they have in common with the range.
#[inline]
fn skip_runs<T: Run>(runs: &[T], range: (u64, u64)) -> SkippedRuns<'_, T>
    requires normal { IsNormal (all_ranges T.ranges runs.now) }
    requires ascending { range.0 ≤ range.1 }
    ensures { Skips range (all_ranges T.ranges runs.entry.now) (all_ranges T.ranges result.rest.now) result.common }
{
    let mut place = count_ended(runs, range.0);
    let mut common = 0;
    while place < runs.len() {
        let run = &runs[place];
        if run.start() < range.0 || run.end() > range.1 {
            break;
        }
        common += run.width();
        place += 1;
    }
    SkippedRuns {
        common,
        rest: &runs[place..],
    }
}

/// The number of common pixels of the runs that were skipped, and the cursor after them.
#[derive(Clone, Copy)]
struct SkippedBlocks<'a> {
    common: u64,
    cursor: Cursor<'a>,
}

/// Does the same as `skip_runs`, over blocks and the nodes after them.
fn skip_blocks(cursor: Cursor<'_>, range: (u64, u64)) -> SkippedBlocks<'_>
    requires normal { IsNormal (rest_of [] cursor.blocks.now cursor.nodes.now) }
    requires ascending { range.0 ≤ range.1 }
    ensures { Skips range
        (rest_of [] cursor.entry.blocks.now cursor.entry.nodes.now)
        (rest_of [] result.cursor.blocks.now result.cursor.nodes.now)
        result.common }
{
    let current = skip_runs(cursor.blocks, range);
    let [] = current.rest else {
        return SkippedBlocks {
            common: current.common,
            cursor: Cursor {
                blocks: current.rest,
                nodes: cursor.nodes,
            },
        };
    };
    let nodes = skip_runs(cursor.nodes, range);
    let next = enter_node(Cursor {
        blocks: &[],
        nodes: nodes.rest,
    });
    let blocks = skip_runs(next.blocks, range);
    SkippedBlocks {
        common: current.common + nodes.common + blocks.common,
        cursor: Cursor {
            blocks: blocks.rest,
            nodes: next.nodes,
        },
    }
}

/// The number of common pixels of the ranges that were skipped, and the position after them.
#[derive(Clone, Copy)]
pub struct SkippedRanges<'a> {
    pub common: u64,
    pub current: BlockCursor<'a>,
}

/// Does the same as `skip_runs`, over blocks and nodes, and then over the ranges of the next block.
fn skip_after_block(cursor: Cursor<'_>, range: (u64, u64)) -> SkippedRanges<'_>
    requires normal { IsNormal (rest_of [] cursor.blocks.now cursor.nodes.now) }
    requires ascending { range.0 ≤ range.1 }
    ensures { Skips range
        (rest_of [] cursor.entry.blocks.now cursor.entry.nodes.now)
        (rest_of result.current.ranges.now result.current.cursor.blocks.now result.current.cursor.nodes.now)
        result.common }
{
    let SkippedBlocks { common, cursor } = skip_blocks(cursor, range);
    let [block, blocks @ ..] = cursor.blocks else {
        return SkippedRanges {
            common,
            current: BlockCursor {
                ranges: &[],
                cursor,
            },
        };
    };
    let there = skip_runs(block.ranges(), range);
    SkippedRanges {
        common: common + there.common,
        current: BlockCursor {
            ranges: there.rest,
            cursor: Cursor {
                blocks,
                nodes: cursor.nodes,
            },
        },
    }
}

/// Does the same as `skip_runs`, over the remaining ranges of a block and the blocks and nodes after it.
#[inline]
pub fn skip_ranges(current: BlockCursor<'_>, range: (u64, u64)) -> SkippedRanges<'_>
    requires normal { IsNormal (rest_of current.ranges.now current.cursor.blocks.now current.cursor.nodes.now) }
    requires ascending { range.0 ≤ range.1 }
    ensures { Skips range
        (rest_of current.entry.ranges.now current.entry.cursor.blocks.now current.entry.cursor.nodes.now)
        (rest_of result.current.ranges.now result.current.cursor.blocks.now result.current.cursor.nodes.now)
        result.common }
{
    let here = skip_runs(current.ranges, range);
    let passed = SkippedRanges {
        common: here.common,
        current: BlockCursor {
            ranges: here.rest,
            cursor: current.cursor,
        },
    };
    let [] = here.rest else {
        return passed;
    };
    if current.cursor.is_empty() {
        return passed;
    }
    let after = skip_after_block(current.cursor, range);
    SkippedRanges {
        common: here.common + after.common,
        current: after.current,
    }
}
