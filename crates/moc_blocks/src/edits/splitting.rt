//! Splits a list that has too many items into two.
ghost use Rattle.std.specs.Prelude.{◌+◌, ◌<◌, ◌≤◌, length, IfOk, IfSome};
ghost use Rattle.std.specs.Bool.{OnTrue};
ghost use Rattle.moc_blocks.specs.Private.Edits.{IsSplit};

use crate::block::MAX_BLOCK_RANGES;
use std::alloc::{AllocError, Global};

/// A list after a split: one list, or two if the second is not empty.
#[derive(Drop)]
pub(crate) struct SplitList<T> {
    pub first: Vec<T>,
    pub second: Vec<T>,
}

/// Returns whether lists of these lengths may be adjacent under the fill rule. The first list may be missing.
fn may_be_adjacent(most: usize, first: usize, second: usize) -> bool
    requires { most ≤ MAX_BLOCK_RANGES }
    ensures { OnTrue result (0 < first → most < first + second) }
{
    first == 0 || first > most.saturating_sub(second)
}

/// Returns the position at which to split `count` items, at most twice `most`, into two lists of at most `most`, after
/// a list of length `before`. Returns `count` if one list suffices. `before` is 0 if there is no such list.
fn split_position(most: usize, count: usize, before: usize) -> usize
    requires { most ≤ MAX_BLOCK_RANGES }
    ensures { result ≤ count }
{
    if count <= most {
        return count;
    }
    let half = count / 2;
    if half == most || before > most.saturating_sub(half) {
        half
    } else {
        half + 1
    }
}

/// Returns a list whole, or split into two if it has more than `most` items, between lists of the given lengths.
/// Returns `None` if the list is empty, or if this would break the fill rule.
pub(crate) fn split_list<T: Drop>(
    alloc: Global,
    items: Vec<T>,
    most: usize,
    before: usize,
    after: usize,
) -> Result<Option<SplitList<T>>, AllocError>
    requires most { most ≤ MAX_BLOCK_RANGES }
    ensures { IfOk result (λ c. IfSome c (λ c. IsSplit most before after items.items c.first.items c.second.items)) }
{
    let mut first = items;
    let place = split_position(most, first.len(), before);
    let rest = first.len() - place;
    let last = if rest > 0 { rest } else { place };
    if place == 0 || place > most || rest > most {
        return Ok(None);
    }
    if !may_be_adjacent(most, before, place) || !may_be_adjacent(most, after, last) {
        return Ok(None);
    }
    if !may_be_adjacent(most, rest, place) {
        return Ok(None);
    }
    let second = first.split_off(place)?;
    Ok(Some(SplitList { first, second }))
}
