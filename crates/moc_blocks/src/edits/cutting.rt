//! Removes the pixels of a range from a list of ranges.
ghost use Rattle.std.specs.Prelude.{◌≡◌, ◌++◌, ◌<◌, IfOk, OnOk};
ghost use Rattle.moc_blocks.specs.RangeList.{IsNormal};
ghost use Rattle.moc_blocks.specs.Private.Edits.{parts_below, parts_from};

use crate::runs::count_ended;
use std::alloc::{AllocError, Global};

/// Appends the parts of ranges below a number.
fn push_parts_below(
    new: &mut Vec<(u64, u64)>,
    ranges: &[(u64, u64)],
    limit: u64,
) -> Result<(), AllocError>
    requires { IsNormal ranges.now }
    ensures { OnOk result (new.new.items ≡ new.old.items ++ parts_below limit ranges.now) }
{
    let ended = count_ended(ranges, limit);
    new.extend_from_slice(&ranges[..ended])?;
    if let [range, ..] = &ranges[ended..] {
        if range.0 < limit {
            new.push((range.0, limit))?;
        }
    }
    Ok(())
}

/// Appends the parts of ranges at or above a number.
fn push_parts_from(
    new: &mut Vec<(u64, u64)>,
    ranges: &[(u64, u64)],
    limit: u64,
) -> Result<(), AllocError>
    requires { IsNormal ranges.now }
    ensures { OnOk result (new.new.items ≡ new.old.items ++ parts_from limit ranges.now) }
{
    let ended = count_ended(ranges, limit);
    if let [range, rest @ ..] = &ranges[ended..] {
        new.push((range.0.max(limit), range.1))?;
        new.extend_from_slice(rest)?;
    }
    Ok(())
}

/// Returns the ranges without the pixels of one range. The new list has one more range than the old if the range is
/// inside one of its ranges.
pub(crate) fn without_range(
    alloc: Global,
    ranges: &[(u64, u64)],
    from: u64,
    to: u64,
) -> Result<Vec<(u64, u64)>, AllocError>
    requires { IsNormal ranges.now }
    ensures { IfOk result (λ v. v.items ≡ parts_below from ranges.now ++ parts_from to ranges.now) }
{
    let mut new = Vec::with_capacity(alloc, ranges.len() + 1)?;
    push_parts_below(&mut new, ranges, from)?;
    push_parts_from(&mut new, ranges, to)?;
    Ok(new)
}
