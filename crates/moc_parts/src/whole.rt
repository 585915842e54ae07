//! Splitting a set into its twelve parts, and merging the parts.
ghost use Rattle.std.specs.Prelude.{◌≡◌, IfOk, OnOk};
ghost use Rattle.moc_ranges.specs.Operations.{IsWithin, pixels};
ghost use Rattle.moc_parts.specs.Parts.{parts_below, union_of, part_count};
ghost use Rattle.moc_parts.specs.Prepared.{given_sets};

use crate::part::Part;
use moc_ranges::{Coverage, Memory};
use std::alloc::Global;

/// Splits a set into its twelve parts, in the order of the base pixels. O(n) for n ranges.
///
/// # Errors
/// Fails with `Memory` if an allocation fails.
pub fn split_by_base_pixel(alloc: Global, set: &Coverage) -> Result<Vec<Coverage>, Memory>
    ensures parts { IfOk result (λ parts. parts.items ≡ parts_below set.now part_count) }

    // A caller that merges the parts again requires this fact.
    ensures within { OnOk result (IsWithin set.now pixels) }
{
    let mut parts = Vec::with_capacity(alloc, 12)?;
    for part in Part::ALL {
        parts.push(set.part(alloc, part.get())?)?;
    }
    Ok(parts)
}

/// Returns the union of all parts that are given. Computes one union for each part.
///
/// # Errors
/// Fails with `Memory` if an allocation fails.
pub fn merge_parts(alloc: Global, parts: &[Option<&Coverage>; 12]) -> Result<Coverage, Memory>
    ensures { IfOk result (λ set. set ≡ union_of (given_sets parts.now)) }
{
    let mut whole = Coverage::empty(alloc);
    for part in parts {
        if let Some(part) = part {
            whole = whole.union(alloc, part)?;
        }
    }
    Ok(whole)
}
