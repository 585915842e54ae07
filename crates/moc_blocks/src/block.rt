//! Blocks: shared lists of ranges, with their bounds and their total width.

ghost use Rattle.std.specs.Prelude.{◌≡◌, ◌++◌, ◌+◌, ◌<◌, ◌≤◌, ℕ, length, IfOk, OnOk, OnErr};
ghost use Rattle.std.specs.Bool.{OnTrue, OnFalse};
ghost use Rattle.std.specs.List.{insert};
ghost use Rattle.moc_blocks.specs.RangeList.{IsNormal};
ghost use Rattle.moc_blocks.specs.Private.Blocks.{first_of, last_of, width_of};
ghost use Rattle.moc_blocks.specs.Private.Edits.{FitsSplice, after_splice};

use crate::edits::splice::Splice;
use std::alloc::{AllocError, Global};
use std::marker::Model;
use std::num::{nearest_u64_to_f64, saturating_f64_to_u64};
use std::sync::Arc;

/// The maximum number of ranges of a block.
pub const MAX_BLOCK_RANGES: usize = 128;

/// The number of ranges by which a full list of ranges grows.
const GROWTH: usize = 16;

/// A block: 1 to 128 ranges in ascending order, in a list that several blocks can share.
#[derive(Drop)]
pub struct Block {
    from: u64,
    to: u64,
    size: u64,
    ranges: Arc<Vec<(u64, u64)>, Global>,
}

impl Model for Block {
    ghost use Rattle.std.specs.Prelude.{List, ℕ};
    ghost use Rattle.std.specs.Arc.{arc_value};
    ghost use Rattle.moc_blocks.specs.Private.Blocks.{IsBlock};

    ghost Value = { List (ℕ × ℕ) };

    ghost view = { λ b. (arc_value b.ranges).items };

    ghost invariant = { λ b. IsBlock b.from b.to b.size (arc_value b.ranges).items };
}

/// Returns the number of pixels in the ranges.
pub fn width_of_ranges(ranges: &[(u64, u64)]) -> u64
    requires { IsNormal ranges.now }
    ensures { result ≡ width_of ranges.now }
{
    let mut total = 0;
    for range in ranges {
        total += range.1 - range.0;
    }
    total
}

/// Inserts a range into a list at a position; a full list grows by `GROWTH`.
fn insert_into(
    ranges: &mut Vec<(u64, u64)>,
    place: usize,
    range: (u64, u64),
) -> Result<(), AllocError>
    requires { place ≤ length ranges.old.items }
    ensures put { OnOk result (ranges.new.items ≡ insert ranges.old.items place range) }
    ensures unchanged { OnErr result (ranges.new.items ≡ ranges.old.items) }
{
    if ranges.len() == ranges.capacity() {
        ranges.reserve_exact(GROWTH)?;
    }
    ranges.insert(place, range)?;
    Ok(())
}

/// Applies a splice to a list. A full list grows by `GROWTH`.
fn splice_list(ranges: &mut Vec<(u64, u64)>, splice: Splice) -> Result<(), AllocError>
    requires { FitsSplice splice (length ranges.old.items) }
    ensures put { OnOk result (ranges.new.items ≡ after_splice splice ranges.old.items) }
    ensures unchanged { OnErr result (ranges.new.items ≡ ranges.old.items) }
{
    match splice {
        Splice::Insert { place, range } => insert_into(ranges, place, range)?,
        Splice::Replace { place, range } => ranges[place] = range,
        Splice::Remove { place } => {
            ranges.remove(place);
        }
        Splice::Split {
            place,
            first,
            second,
        } => {
            insert_into(ranges, place + 1, second)?;
            ranges[place] = first;
        }
        Splice::Join { place, range } => {
            ranges.remove(place + 1);
            ranges[place] = range;
        }
    }
    Ok(())
}

impl Block {
    /// Returns the block of the given ranges.
    ///
    /// # Errors
    ///
    /// Fails if an allocation fails.
    ///
    /// # Complexity
    ///
    /// Linear in the number of ranges.
    pub fn new(alloc: Global, ranges: Vec<(u64, u64)>) -> Result<Block, AllocError>
        requires normal { IsNormal ranges.items }
        requires some { 0 < length ranges.items }
        requires fits { length ranges.items ≤ MAX_BLOCK_RANGES }
        ensures { IfOk result (λ b. b ≡ ranges.items) }
    {
        let from = ranges[0].0;
        let to = ranges[ranges.len() - 1].1;
        let size = width_of_ranges(&ranges);
        let ranges = Arc::new(alloc, ranges)?;
        Ok(Block {
            from,
            to,
            size,
            ranges,
        })
    }

    /// Returns the start of the first range.
    #[inline]
    pub fn from(&self) -> u64
        ensures value { result ≡ first_of self.now }
        ensures some { 0 < length self.now }
        ensures fits { length self.now ≤ MAX_BLOCK_RANGES }
    {
        self.from
    }

    /// Returns the end of the last range.
    #[inline]
    pub fn to(&self) -> u64
        ensures value { result ≡ last_of self.now }
        ensures some { 0 < length self.now }
        ensures fits { length self.now ≤ MAX_BLOCK_RANGES }
    {
        self.to
    }

    /// Returns the number of pixels in the ranges.
    #[inline]
    pub fn size(&self) -> u64
        ensures value { result ≡ width_of self.now }
        ensures some { 0 < length self.now }
        ensures fits { length self.now ≤ MAX_BLOCK_RANGES }
    {
        self.size
    }

    /// Returns the ranges.
    #[inline]
    pub fn ranges(&self) -> &[(u64, u64)]
        ensures value { result.now ≡ self.now }
        ensures some { 0 < length self.now }
        ensures fits { length self.now ≤ MAX_BLOCK_RANGES }
    {
        &self.ranges
    }

    /// Estimates how many of the ranges begin below a number, as if they were evenly spaced.
    #[inline]
    pub(crate) fn estimated_place(&self, number: u64) -> usize {
        let passed = nearest_u64_to_f64(number.saturating_sub(self.from));
        let width = nearest_u64_to_f64(self.to.saturating_sub(self.from));
        let count = nearest_u64_to_f64(self.ranges.len() as u64);
        saturating_f64_to_u64(passed / width * count) as usize
    }

    /// Changes ranges in place if this block is the only owner of its list, and returns whether they were changed. The
    /// list is not copied, unless it is full.
    ///
    /// # Errors
    ///
    /// Fails if an allocation fails; the block is unchanged.
    pub fn splice(&mut self, splice: Splice) -> Result<bool, AllocError>
        requires inside { FitsSplice splice (length self.old) }
        requires was_normal { IsNormal self.old }
        requires some { 0 < length (after_splice splice self.old) }
        requires fits { length (after_splice splice self.old) ≤ MAX_BLOCK_RANGES }
        requires normal { IsNormal (after_splice splice self.old) }
        ensures put { IfOk result (λ done. OnTrue done (self.new ≡ after_splice splice self.old)) }
        ensures same { IfOk result (λ done. OnFalse done (self.new ≡ self.old)) }
        ensures unchanged { OnErr result (self.new ≡ self.old) }
    {
        let Some(ranges) = Arc::get_mut(&mut self.ranges) else {
            return Ok(false);
        };
        let other_pixels = self.size - splice.old_width(ranges);
        splice_list(ranges, splice)?;
        self.size = other_pixels + splice.new_width();
        self.from = ranges[0].0;
        self.to = ranges[ranges.len() - 1].1;
        Ok(true)
    }

    /// Returns a block that shares the ranges of this block. O(1); allocates nothing.
    ///
    /// # Errors
    ///
    /// Fails if the reference count of the ranges is at its maximum.
    #[inline]
    pub fn share(&self) -> Result<Block, AllocError>
        ensures same { IfOk result (λ b. b ≡ self.now) }
        ensures some { 0 < length self.now }
        ensures fits { length self.now ≤ MAX_BLOCK_RANGES }
    {
        let ranges = Arc::try_clone(&self.ranges)?;
        Ok(Block {
            from: self.from,
            to: self.to,
            size: self.size,
            ranges,
        })
    }

    /// Returns the block of the ranges of this block and then those of the other. The ranges are copied.
    ///
    /// # Errors
    ///
    /// Fails if an allocation fails.
    pub fn followed_by(&self, alloc: Global, other: &Block) -> Result<Block, AllocError>
        requires normal { IsNormal (self.now ++ other.now) }
        requires capacity { length self.now + length other.now ≤ MAX_BLOCK_RANGES }
        ensures { IfOk result (λ b. b ≡ self.now ++ other.now) }
    {
        let mut ranges = Vec::with_capacity(alloc, self.ranges().len() + other.ranges().len())?;
        ranges.extend_from_slice(self.ranges())?;
        ranges.extend_from_slice(other.ranges())?;
        Block::new(alloc, ranges)
    }
}
