//! Finds the first range that ends after a number.
ghost use Rattle.std.specs.Prelude.{MatchOption, [], ◌∷◌};
ghost use Rattle.moc_blocks.specs.RangeList.{IsNormal};
ghost use Rattle.moc_blocks.specs.Blocks.{concat};
ghost use Rattle.moc_blocks.specs.Private.Walks.{EndsBy, IsFirstAfter};

use crate::node::Node;
use crate::runs::{first_ending_after, first_ending_near};

/// Returns the first range that ends after the limit, if any. O(log n).
#[inline]
pub fn range_ending_after(ranges: &[(u64, u64)], limit: u64) -> Option<(u64, u64)>
    requires { IsNormal ranges.now }
    ensures { MatchOption result
        (EndsBy limit ranges.entry.now)
        (λ range. IsFirstAfter limit (range ∷ []) ranges.entry.now) }
{
    first_ending_after(ranges, limit).copied()
}

/// Returns the same range as `range_ending_after`, from a guess of its position.
#[inline]
fn range_ending_near(ranges: &[(u64, u64)], limit: u64, about: usize) -> Option<(u64, u64)>
    requires { IsNormal ranges.now }
    ensures { MatchOption result
        (EndsBy limit ranges.entry.now)
        (λ range. IsFirstAfter limit (range ∷ []) ranges.entry.now) }
{
    first_ending_near(ranges, limit, about).copied()
}

/// Returns the first range of the nodes that ends after the limit, if any. It is in the first block that ends after the
/// limit, of the first node that does. O(log n).
pub fn node_range_ending_after(nodes: &[Node], limit: u64) -> Option<(u64, u64)>
    requires { IsNormal (concat (concat nodes.now)) }
    ensures { MatchOption result
        (EndsBy limit (concat (concat nodes.entry.now)))
        (λ range. IsFirstAfter limit (range ∷ []) (concat (concat nodes.entry.now))) }
{
    let node = first_ending_after(nodes, limit)?;
    let block = first_ending_after(node.blocks(), limit)?;
    range_ending_near(block.ranges(), limit, block.estimated_place(limit))
}
