//! Searches for a pixel, with a count of the comparisons.
use moc_blocks::MAX_BLOCK_RANGES;
use std::marker::Model;

/// A search requires that fewer comparisons than this were counted before.
pub const MAX_STEPS: u64 = 9_223_372_036_854_775_808;

/// A counter of the comparisons of a pixel with the bounds of a range or a block.
#[derive(Debug, Drop)]
pub struct Steps {
    count: u64,
}

impl Model for Steps {
    ghost use Rattle.std.specs.Prelude.{ℕ};

    ghost Value = { ℕ };

    ghost view = { λ s. s.count };
}

ghost use Rattle.std.specs.Prelude.{◌≡◌, ◌+◌, ◌*◌, ◌<◌, ◌≤◌, ◌^◌, ℕ, length};
ghost use Rattle.moc_blocks.specs.RangeList.{IsNormal};
ghost use Rattle.moc_blocks.specs.Lemmas.Members.{in_ranges};
ghost use Rattle.moc_blocks.specs.Blocks.{concat};
ghost use Rattle.moc_blocks.specs.Private.Blocks.{AreStored};

use crate::nodes::Nodes;

impl Steps {
    /// Returns a counter at zero.
    pub fn new() -> Self
        ensures { result ≡ 0 }
    {
        Self { count: 0 }
    }

    /// Returns the number of comparisons.
    pub fn get(&self) -> u64
        ensures { result ≡ self.now }
    {
        self.count
    }

    /// Counts one more comparison.
    #[inline]
    fn step(&mut self)
        requires { self.old < MAX_STEPS + 2 * MAX_BLOCK_RANGES }
        ensures { self.new ≡ self.old + 1 }
    {
        self.count += 1;
    }
}

/// Returns whether a range contains the pixel.
pub(crate) fn find_range(ranges: &[(u64, u64)], pixel: u64, steps: &mut Steps) -> bool
    requires normal { IsNormal ranges.now }
    requires fits { length ranges.now ≤ MAX_BLOCK_RANGES }
    requires capacity { steps.old < MAX_STEPS + MAX_BLOCK_RANGES }
    ensures found { result ≡ in_ranges ranges.now pixel }
    ensures increases { steps.old ≤ steps.new }
    ensures cost { (d : ℕ) → length ranges.now < 2 ^ d → steps.new ≤ steps.old + d }
{
    let mut low = 0;
    let mut high = ranges.len();
    while low < high {
        let middle = low + (high - low) / 2;
        let range = ranges[middle];
        steps.step();
        if pixel < range.0 {
            high = middle;
        } else if range.1 <= pixel {
            low = middle + 1;
        } else {
            return true;
        }
    }
    false
}

/// Returns whether a block of the nodes contains the pixel. A binary search over the positions of all blocks: searching
/// the nodes first and then the blocks of a node would take one step too many if nodes are not full. Finding a block by
/// its position compares no pixels.
pub(crate) fn find_block(nodes: &Nodes, pixel: u64, steps: &mut Steps) -> bool
    requires stored { AreStored (concat nodes.now) }
    requires capacity { steps.old < MAX_STEPS }
    ensures found { result ≡ in_ranges (concat (concat nodes.now)) pixel }
    ensures increases { steps.old ≤ steps.new }
    ensures cost { (d : ℕ) → length (concat nodes.now) < 2 ^ d → steps.new ≤ steps.old + d + 8 }
{
    let mut low = 0;
    let mut high = nodes.count_blocks();
    while low < high {
        let middle = low + (high - low) / 2;
        let Some(block) = nodes.block_at(middle) else {
            return false;
        };
        steps.step();
        if pixel < block.from() {
            high = middle;
        } else if block.to() <= pixel {
            low = middle + 1;
        } else {
            return find_range(block.ranges(), pixel, steps);
        }
    }
    false
}
