//! Changes of a set that are computed part by part.
ghost use Rattle.std.specs.Prelude.{◌≡◌, IfOk};
ghost use Rattle.std.specs.FinSet as set;
ghost use Rattle.moc_ranges.specs.Cells.{degrade};
ghost use Rattle.moc_ranges.specs.Operations.{complement, part_of};
ghost use Rattle.moc_parts.specs.Private.Changes.{changed_part, IsPartUpdate, IsChange, LeavesOthers};

use crate::footprint::parts_met;
use crate::part::{Part, PartSet};
use moc_ranges::{Coverage, Memory};
use moc_sphere::Order;
use std::alloc::Global;

/// A change of a set.
#[derive(Clone, Copy)]
pub(crate) enum Change<'a> {
    /// Adds these pixels.
    Union(&'a Coverage),
    /// Removes these pixels.
    Subtract(&'a Coverage),
    /// Keeps only these pixels.
    Intersect(&'a Coverage),
    /// Replaces the set by its complement in the sky.
    Invert,
    /// Degrades the set to this order.
    Degrade(Order),
}

/// A changed part: its new list of ranges and the number of pixels that were added or removed.
#[derive(Drop)]
pub(crate) struct PartUpdate {
    pub list: Coverage,
    pub pixels: u64,
}

impl<'a> Change<'a> {
    /// Returns the parts that the change can alter.
    pub(crate) fn parts(&self) -> PartSet
        ensures { LeavesOthers self.now result }
    {
        match *self {
            Change::Union(s) => parts_met(s),
            Change::Subtract(s) => parts_met(s),
            _ => PartSet::all(),
        }
    }

    /// Returns the new list of one part, or `None` if the change does not alter the part.
    pub(crate) fn part(
        &self,
        alloc: Global,
        list: &Coverage,
        part: Part,
    ) -> Result<Option<PartUpdate>, Memory>
        requires change { IsChange self.now }
        requires list { part_of list.now part ≡ list.now }
        ensures { IfOk result (λ new. IsPartUpdate list.now (changed_part self.now list.now part) new) }
    {
        match *self {
            Change::Union(s) => union_part(alloc, list, &s.part(alloc, part.get())?),
            Change::Subtract(s) => subtract_part(alloc, list, s),
            Change::Intersect(s) => intersect_part(alloc, list, s),
            Change::Invert => invert(alloc, list, part),
            Change::Degrade(order) => degrade(alloc, list, order),
        }
    }
}

/// Returns the union of a list and a set, or `None` if the set adds no pixel.
fn union_part(alloc: Global, list: &Coverage, more: &Coverage) -> Result<Option<PartUpdate>, Memory>
    ensures { IfOk result (λ new. IsPartUpdate list.now (set.union list.now more.now) new) }
{
    let pixels = more.count() - list.count_common(more);
    if pixels == 0 {
        return Ok(None);
    }
    let list = list.union(alloc, more)?;
    Ok(Some(PartUpdate { list, pixels }))
}

/// Returns the difference of a list and a set, or `None` if they have no pixel in common.
fn subtract_part(
    alloc: Global,
    list: &Coverage,
    others: &Coverage,
) -> Result<Option<PartUpdate>, Memory>
    ensures { IfOk result (λ new. IsPartUpdate list.now (set.difference list.now others.now) new) }
{
    let pixels = list.count_common(others);
    if pixels == 0 {
        return Ok(None);
    }
    let list = list.difference(alloc, others)?;
    Ok(Some(PartUpdate { list, pixels }))
}

/// Returns the intersection of a list and a set, or `None` if the list is within the set.
fn intersect_part(
    alloc: Global,
    list: &Coverage,
    others: &Coverage,
) -> Result<Option<PartUpdate>, Memory>
    ensures { IfOk result (λ new. IsPartUpdate list.now (set.intersection list.now others.now) new) }
{
    let pixels = list.count() - list.count_common(others);
    if pixels == 0 {
        return Ok(None);
    }
    let list = list.intersection(alloc, others)?;
    Ok(Some(PartUpdate { list, pixels }))
}

/// Returns the complement of a list within its part.
fn invert(alloc: Global, list: &Coverage, part: Part) -> Result<Option<PartUpdate>, Memory>
    ensures { IfOk result (λ new. IsPartUpdate list.now (part_of (complement list.now) part) new) }
{
    let new = list.complement(alloc)?.part(alloc, part.get())?;
    let pixels = list.count() + new.count();
    Ok(Some(PartUpdate { list: new, pixels }))
}

/// Returns the degraded list, or `None` if it is equal to the list.
fn degrade(alloc: Global, list: &Coverage, order: Order) -> Result<Option<PartUpdate>, Memory>
    ensures { IfOk result (λ new. IsPartUpdate list.now (degrade list.now order) new) }
{
    let new = list.degrade(alloc, order)?;
    let pixels = new.count() - list.count();
    if pixels == 0 {
        return Ok(None);
    }
    Ok(Some(PartUpdate { list: new, pixels }))
}
