//! Inserts a range into a list, or removes a range from it. A list without blocks is rebuilt here. In a list of blocks,
//! the block of the range is changed in place (`splice`), or rebuilt (`rebuild`). Its node is rebuilt too if it is
//! shared, if the block is split, or if the block is rebuilt together with a neighbour (`pairs`).
ghost use Rattle.std.specs.Prelude.{◌<◌, ◌≤◌, length};
ghost use Rattle.moc_blocks.specs.RangeList.{pixel_count, IsNormal};
ghost use Rattle.moc_blocks.specs.Private.Edits.{Inserts, Removes};

pub(crate) mod cutting;
pub(crate) mod pairs;
pub(crate) mod place;
pub(crate) mod reach;
pub(crate) mod rebuild;
pub(crate) mod splice;
pub(crate) mod splitting;

use crate::block::{MAX_BLOCK_RANGES, width_of_ranges};
use crate::edits::cutting::without_range;
use crate::edits::reach::with_range;
use std::alloc::{AllocError, Global};

/// Inserts a range into a list without blocks, and returns the number of new pixels. Returns `None` if the result has
/// more than `MAX_BLOCK_RANGES` ranges; the list is then unchanged.
///
/// # Errors
///
/// Fails if an allocation fails; the list is unchanged.
pub fn insert_small(
    alloc: Global,
    small: &mut Vec<(u64, u64)>,
    from: u64,
    to: u64,
) -> Result<Option<u64>, AllocError>
    requires normal { IsNormal small.old.items }
    requires fits { length small.old.items ≤ MAX_BLOCK_RANGES }
    requires filled { from < to }
    requires within { to ≤ pixel_count }
    ensures fits { length small.new.items ≤ MAX_BLOCK_RANGES }
    ensures normal { IsNormal small.new.items }
    ensures inserted { Inserts from to small.old.items small.new.items result }
{
    let ranges = with_range(alloc, small, from, to)?;
    if ranges.len() > MAX_BLOCK_RANGES {
        return Ok(None);
    }
    let added = width_of_ranges(&ranges) - width_of_ranges(small);
    *small = ranges;
    Ok(Some(added))
}

/// Removes the pixels of a range from a list without blocks, and returns the number of removed pixels. Returns `None`
/// if the result has more than `MAX_BLOCK_RANGES` ranges; the list is then unchanged.
///
/// # Errors
///
/// Fails if an allocation fails; the list is unchanged.
pub fn remove_small(
    alloc: Global,
    small: &mut Vec<(u64, u64)>,
    from: u64,
    to: u64,
) -> Result<Option<u64>, AllocError>
    requires normal { IsNormal small.old.items }
    requires fits { length small.old.items ≤ MAX_BLOCK_RANGES }
    requires filled { from < to }
    requires within { to ≤ pixel_count }
    ensures fits { length small.new.items ≤ MAX_BLOCK_RANGES }
    ensures normal { IsNormal small.new.items }
    ensures removed { Removes from to small.old.items small.new.items result }
{
    let ranges = without_range(alloc, small, from, to)?;
    if ranges.len() > MAX_BLOCK_RANGES {
        return Ok(None);
    }
    let removed = width_of_ranges(small) - width_of_ranges(&ranges);
    *small = ranges;
    Ok(Some(removed))
}
