//! Builds a list of ranges by appending to its end.
ghost use Rattle.std.specs.Prelude.{◌≡◌, ◌<◌, ◌≤◌, ◌++◌, ◌∷◌, ◌||◌, [], List, ℕ, length, IfOk, OnOk, OnErr};
ghost use Rattle.std.specs.Prelude.{MatchOption};
ghost use Rattle.std.specs.Bool.{OnTrue, OnFalse};
ghost use Rattle.moc_blocks.specs.RangeList.{pixel_count, IsNormal};
ghost use Rattle.moc_blocks.specs.Lemmas.Members.{in_ranges, in_range};
ghost use Rattle.moc_blocks.specs.Blocks.{concat};
ghost use Rattle.moc_blocks.specs.Private.Blocks.{last_of};
ghost use Rattle.moc_blocks.specs.Private.Built.{ranges_of, empty_growing, CanMerge, CanAppend, MovesPrefix, EndsBelow};

use crate::block_builder::BlockBuilder;
use crate::list::RangeList;
use crate::ranges::Ranges;
use moc_blocks::{Block, MAX_BLOCK_RANGES, Node};
use std::alloc::{AllocError, Global};
use std::marker::Model;

/// A builder that collects ranges in ascending order into a list: blocks, then ranges that are not in a block yet. If
/// an allocation fails, the content of the builder is unspecified.
#[derive(Drop)]
pub struct ListBuilder {
    blocks: BlockBuilder,
    ranges: Vec<(u64, u64)>,
}

impl Model for ListBuilder {
    ghost use Rattle.moc_blocks.specs.Private.Built.{GrowingList, growing_list, IsBuilderState};

    ghost Value = { GrowingList };

    ghost view = { λ b. growing_list b.blocks.nodes.items b.blocks.blocks.items b.ranges.items };

    ghost invariant = { λ b. IsBuilderState b.blocks.nodes.items b.blocks.blocks.items b.ranges.items };
}

/// Passes on the result of a change. If the change failed, drops all blocks.
#[inline]
fn clear_on_error(blocks: &mut BlockBuilder, done: Result<(), AllocError>) -> Result<(), AllocError>
    ensures same { result ≡ done }
    ensures unchanged { OnOk result (blocks.new ≡ blocks.old) }
    ensures nodes { OnErr result (blocks.new.nodes.items ≡ []) }
    ensures blocks { OnErr result (blocks.new.blocks.items ≡ []) }
{
    if done.is_err() {
        blocks.clear();
    }
    done
}

impl ListBuilder {
    /// Returns an empty builder with capacity for `capacity` ranges, but at most for one block.
    ///
    /// # Errors
    ///
    /// Fails if an allocation fails.
    #[inline]
    pub fn new(alloc: Global, capacity: usize) -> Result<ListBuilder, AllocError>
        ensures { IfOk result (λ b. b ≡ empty_growing) }
    {
        let blocks = BlockBuilder {
            nodes: Vec::new(alloc),
            blocks: Vec::new(alloc),
        };
        let ranges = Vec::with_capacity(alloc, capacity.min(MAX_BLOCK_RANGES))?;
        Ok(ListBuilder { blocks, ranges })
    }

    /// Appends a range that begins after the end of all others.
    ///
    /// # Errors
    ///
    /// Fails if an allocation fails; the content of the builder is then unspecified.
    #[inline(always)]
    pub fn push(&mut self, alloc: Global, from: u64, to: u64) -> Result<(), AllocError>
        requires filled { from < to }
        requires within { to ≤ pixel_count }
        requires after { EndsBelow from (ranges_of self.old) }
        ensures built { OnOk result (IsNormal (ranges_of self.new)) }
        ensures appended { OnOk result (ranges_of self.new ≡ ranges_of self.old ++ (from, to) ∷ []) }
        ensures last { OnOk result ((init : List (ℕ × ℕ)) × (self.new.loose ≡ init ++ (from, to) ∷ [])) }
    {
        self.seal_if_full(alloc)?;
        self.ranges.push((from, to))?;
        Ok(())
    }

    /// Appends as many ranges as fit into a block, and returns the rest.
    fn fill<'a>(
        &mut self,
        alloc: Global,
        ranges: &'a [(u64, u64)],
    ) -> Result<&'a [(u64, u64)], AllocError>
        requires normal { IsNormal (ranges_of self.old ++ ranges.now) }
        requires some { 0 < length ranges.now }
        ensures appended { IfOk result (λ rest.
            ranges_of self.new ++ rest.now ≡ ranges_of self.old ++ ranges.entry.now) }
        ensures fewer { IfOk result (λ rest. length rest.now < length ranges.entry.now) }
    {
        self.seal_if_full(alloc)?;
        let count = ranges.len().min(MAX_BLOCK_RANGES - self.ranges.len());
        self.ranges.extend_from_slice(&ranges[..count])?;
        Ok(&ranges[count..])
    }

    /// Makes a block of the ranges that are in none, if there are as many as a block may have.
    #[inline]
    fn seal_if_full(&mut self, alloc: Global) -> Result<(), AllocError>
        ensures normal { OnOk result (IsNormal (ranges_of self.new)) }
        ensures appended { OnOk result (ranges_of self.new ≡ ranges_of self.old) }
        ensures capacity { OnOk result (length self.new.loose < MAX_BLOCK_RANGES) }
    {
        if self.ranges.len() < MAX_BLOCK_RANGES {
            return Ok(());
        }
        self.seal(alloc)
    }

    /// Makes a block of the ranges that are in none.
    fn seal(&mut self, alloc: Global) -> Result<(), AllocError>
        ensures normal { OnOk result (IsNormal (ranges_of self.new)) }
        ensures appended { OnOk result (ranges_of self.new ≡ ranges_of self.old) }
        ensures none { OnOk result (self.new.loose ≡ []) }
    {
        if self.ranges.is_empty() {
            return Ok(());
        }
        let ranges = block_ranges(alloc, &mut self.ranges)?;
        let block = Block::new(alloc, ranges)?;
        let done = self.blocks.push_block(alloc, block);
        clear_on_error(&mut self.blocks, done)
    }

    /// Appends ranges of a list after all others.
    ///
    /// # Errors
    ///
    /// Fails if an allocation fails; the content of the builder is then unspecified.
    pub fn push_all(&mut self, alloc: Global, ranges: &[(u64, u64)]) -> Result<(), AllocError>
        requires normal { IsNormal (ranges_of self.old ++ ranges.now) }
        ensures built { OnOk result (IsNormal (ranges_of self.new)) }
        ensures appended { OnOk result (ranges_of self.new ≡ ranges_of self.old ++ ranges.now) }
    {
        let mut rest = ranges;
        while !rest.is_empty() {
            rest = self.fill(alloc, rest)?;
        }
        Ok(())
    }

    /// Appends a block of a list after all others. The block is shared.
    fn push_shared(&mut self, alloc: Global, block: &Block) -> Result<(), AllocError>
        requires some { 0 < length block.now }
        requires fits { length block.now ≤ MAX_BLOCK_RANGES }
        requires normal { IsNormal (ranges_of self.old ++ block.now) }
        ensures built { OnOk result (IsNormal (ranges_of self.new)) }
        ensures appended { OnOk result (ranges_of self.new ≡ ranges_of self.old ++ block.now) }
    {
        self.seal(alloc)?;
        let shared = block.share()?;
        let done = self.blocks.push_block(alloc, shared);
        clear_on_error(&mut self.blocks, done)
    }

    /// Appends the blocks of a node after all others. They are shared.
    fn push_shared_node(&mut self, alloc: Global, node: &Node) -> Result<(), AllocError>
        requires normal { IsNormal (ranges_of self.old ++ concat node.now) }
        ensures built { OnOk result (IsNormal (ranges_of self.new)) }
        ensures appended { OnOk result (ranges_of self.new ≡ ranges_of self.old ++ concat node.now) }
    {
        self.seal(alloc)?;
        let done = self.blocks.push_shared_node(alloc, node);
        clear_on_error(&mut self.blocks, done)
    }

    /// Moves the next node or block of a list to the end of the builder, if the cursor is not inside a block and the
    /// node or block ends below the limit. Returns whether something was moved. Blocks are shared, not copied.
    ///
    /// # Errors
    ///
    /// Fails if an allocation fails; the content of the builder is then unspecified.
    pub fn push_shared_next(
        &mut self,
        alloc: Global,
        xs: &mut Ranges<'_>,
        limit: u64,
    ) -> Result<bool, AllocError>
        requires { CanAppend xs.old (ranges_of self.old) }
        ensures carried { OnOk result (MovesPrefix xs.old xs.new limit (ranges_of self.old) (ranges_of self.new)) }
        ensures some { IfOk result (λ carried. OnTrue carried (length xs.new < length xs.old)) }
        ensures none { IfOk result (λ carried. OnFalse carried ((xs.new ≡ xs.old) × (self.new ≡ self.old))) }
    {
        if let Some(node) = xs.take_node_below(limit) {
            self.push_shared_node(alloc, node)?;
            return Ok(true);
        }
        if let Some(block) = xs.take_block_below(limit) {
            self.push_shared(alloc, block)?;
            return Ok(true);
        }
        Ok(false)
    }

    /// Returns whether the ranges that can still be extended all end below f.
    #[inline]
    pub fn ends_before(&self, f: u64) -> bool
        ensures below { OnTrue result (EndsBelow f self.now.loose) }
        ensures some { OnFalse result (0 < length self.now.loose) }
        ensures reached { OnFalse result (f ≤ last_of self.now.loose) }
    {
        end_below(&self.ranges, f)
    }

    /// Adds a range that begins no sooner than the last one: appends it, or extends the last range if they touch.
    ///
    /// # Errors
    ///
    /// Fails if an allocation fails; the content of the builder is then unspecified.
    #[inline]
    pub fn push_or_merge(&mut self, alloc: Global, from: u64, to: u64) -> Result<(), AllocError>
        requires filled { from < to }
        requires within { to ≤ pixel_count }
        requires can { CanMerge self.old from }
        ensures built { OnOk result (IsNormal (ranges_of self.new)) }
        ensures same { OnOk result ((q : ℕ) → in_ranges (ranges_of self.new) q ≡
            (in_ranges (ranges_of self.old) q || in_range (from, to) q)) }
        ensures can { OnOk result (CanMerge self.new from) }
    {
        if self.ends_before(from) {
            return self.push(alloc, from, to);
        }
        if let Some(last) = self.ranges.pop() {
            self.ranges.push((last.0, last.1.max(to)))?;
        }
        Ok(())
    }

    /// Removes and returns the last range if it can still be extended.
    #[inline]
    pub fn pop(&mut self) -> Option<(u64, u64)>
        ensures { MatchOption result (self.new ≡ self.old) (λ last.
            (self.new.closed ≡ self.old.closed) × (self.old.loose ≡ self.new.loose ++ last ∷ [])) }
    {
        self.ranges.pop()
    }

    /// Returns the list of all ranges.
    ///
    /// # Errors
    ///
    /// Fails if an allocation fails.
    #[inline]
    pub fn finish(self, alloc: Global) -> Result<RangeList, AllocError>
        ensures { IfOk result (λ l. l ≡ ranges_of self) }
    {
        let ListBuilder { blocks, ranges } = self;
        if blocks.blocks.is_empty() && blocks.nodes.is_empty() {
            return Ok(RangeList::from_small(alloc, shrink(ranges)));
        }
        finish_blocks(alloc, ListBuilder { blocks, ranges })
    }
}

/// Returns the same ranges, and frees spare capacity if they use less than half of theirs. A capacity of up to five is
/// kept.
#[inline]
pub(crate) fn shrink(ranges: Vec<(u64, u64)>) -> Vec<(u64, u64)>
    ensures { result.items ≡ ranges.items }
{
    let mut ranges = ranges;
    if ranges.capacity() / 2 > ranges.len().max(2) {
        ranges.shrink_to_fit();
    }
    ranges
}

/// Takes the ranges for a block, without spare capacity: the list itself if it is full, and otherwise a copy.
fn block_ranges(alloc: Global, ranges: &mut Vec<(u64, u64)>) -> Result<Vec<(u64, u64)>, AllocError>
    ensures popped { IfOk result (λ v. v.items ≡ ranges.old.items) }
    ensures none { OnOk result (ranges.new.items ≡ []) }
    ensures unchanged { OnErr result (ranges.new.items ≡ ranges.old.items) }
{
    if ranges.len() < ranges.capacity() {
        let copy = ranges.to_vec(alloc)?;
        ranges.clear();
        return Ok(copy);
    }
    let capacity = Vec::with_capacity(alloc, MAX_BLOCK_RANGES)?;
    Ok(std::mem::replace(ranges, capacity))
}

/// Returns whether all ranges end below f.
#[inline]
pub fn end_below(ranges: &[(u64, u64)], f: u64) -> bool
    requires { IsNormal ranges.now }
    ensures below { OnTrue result (EndsBelow f ranges.now) }
    ensures some { OnFalse result (0 < length ranges.now) }
    ensures reached { OnFalse result (f ≤ last_of ranges.now) }
{
    match ranges {
        [.., last] => last.1 < f,
        [] => true,
    }
}

/// Returns the list of all ranges of a builder, in blocks.
fn finish_blocks(alloc: Global, mut builder: ListBuilder) -> Result<RangeList, AllocError>
    ensures { IfOk result (λ l. l ≡ ranges_of builder) }
{
    builder.seal(alloc)?;
    let ListBuilder { mut blocks, .. } = builder;
    blocks.seal_node(alloc)?;
    RangeList::from_nodes(alloc, blocks.nodes)
}

/// Returns the list of the given ranges. Up to 128 of them are stored without blocks.
///
/// # Errors
///
/// Fails if an allocation fails.
pub fn list_from_ranges(alloc: Global, ranges: Vec<(u64, u64)>) -> Result<RangeList, AllocError>
    requires { IsNormal ranges.items }
    ensures { IfOk result (λ l. l ≡ ranges.items) }
{
    if ranges.len() <= MAX_BLOCK_RANGES {
        return Ok(RangeList::from_small(alloc, shrink(ranges)));
    }
    let mut built = ListBuilder::new(alloc, MAX_BLOCK_RANGES)?;
    built.push_all(alloc, &ranges)?;
    built.finish(alloc)
}

/// Extends the last range `last`, which is not in the builder yet, by another range if they touch. Otherwise appends
/// `last` to the builder. Returns the range that is now last and not in the builder.
///
/// # Errors
///
/// Fails if an allocation fails; the content of the builder is then unspecified.
#[inline]
pub fn extend_or_push(
    alloc: Global,
    last: (u64, u64),
    range: (u64, u64),
    built: &mut ListBuilder,
) -> Result<(u64, u64), AllocError>
    requires opened { IsNormal (ranges_of built.old ++ last ∷ []) }
    requires filled { range.0 < range.1 }
    requires within { range.1 ≤ pixel_count }
    requires later { last.0 ≤ range.0 }
    ensures opened { IfOk result (λ o. IsNormal (ranges_of built.new ++ o ∷ [])) }
    ensures later { IfOk result (λ o. o.0 ≤ range.0) }
    ensures same { IfOk result (λ o. (q : ℕ) → in_ranges (ranges_of built.new ++ o ∷ []) q ≡
        (in_ranges (ranges_of built.old ++ last ∷ []) q || in_range range q)) }
{
    if range.0 <= last.1 {
        return Ok((last.0, last.1.max(range.1)));
    }
    built.push(alloc, last.0, last.1)?;
    Ok(range)
}
