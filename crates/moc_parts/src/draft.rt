//! A working copy of a set in twelve parts, on which the commands of a batch are executed.
ghost use Rattle.std.specs.Prelude.{◌≡◌, ◌<◌, ℕ, IfOk, OnOk, None, get_or, length};
ghost use Rattle.std.specs.FinSet as set;
ghost use Rattle.moc_ranges.specs.Operations.{meets, part_of, symmetric, IsWithin, pixels};
ghost use Rattle.moc_parts.specs.Private.Changes.{set_after_change, IsChange};
ghost use Rattle.moc_parts.specs.Commands.{parts_met};
ghost use Rattle.moc_parts.specs.Private.Drafts.{current_lists, sets_of, with_part, AreParts};
ghost use Rattle.moc_parts.specs.Parts.{union_of, parts_below, part_count};
ghost use Rattle.moc_parts.specs.Prepared.{given_sets, is_given, part_if};

mod commands;

use crate::change::{Change, PartUpdate};
use crate::footprint::parts_met;
use crate::lists::Lists;
use crate::part::Part;
use moc_ranges::{Coverage, Memory};
use std::alloc::Global;
use std::marker::Model;

/// The original lists of the twelve parts, and the lists that replace some of them.
#[derive(Drop)]
pub(crate) struct Draft<'a> {
    before: [&'a Coverage; 12],
    new_lists: Lists,
}

impl<'a> Model for Draft<'a> {
    ghost use Rattle.std.specs.Prelude.{◌≡◌, length};
    ghost use Rattle.moc_parts.specs.Private.Drafts.{DraftState, draft_state_code, current_lists, sets_of, AreParts};
    ghost use Rattle.moc_parts.specs.Parts.{union_of, part_count};

    ghost Value = { DraftState };

    ghost coded = { draft_state_code };

    ghost view = { λ d. record {
      before = sets_of d.before;
      set = union_of (current_lists (sets_of d.before) d.new_lists);
    } };

    ghost invariant = { λ d. AreParts (current_lists (sets_of d.before) d.new_lists)
        × (length d.new_lists ≡ part_count) };
}

impl<'a> Draft<'a> {
    /// Creates a draft from the lists that were read. Parts without a list are empty.
    pub(crate) fn from_lists(
        alloc: Global,
        lists: &'a [Option<&'a Coverage>; 12],
        no_pixels: &'a Coverage,
    ) -> Draft<'a>
        requires parts { AreParts (given_sets lists.now) }
        requires no_pixels { no_pixels.now ≡ set.empty }
        ensures { result ≡ record { before = given_sets lists.now; set = union_of (given_sets lists.now) } }
    {
        let mut before = [no_pixels; 12];
        for (b, list) in lists.iter().enumerate() {
            before[b] = list.unwrap_or(no_pixels);
        }
        Draft::without_changes(alloc, before)
    }

    /// Creates a draft without any replaced list.
    fn without_changes(alloc: Global, before: [&'a Coverage; 12]) -> Draft<'a>
        requires { AreParts (sets_of before) }
        ensures { result ≡ record { before = sets_of before.entry; set = union_of (sets_of before.entry) } }
    {
        Draft {
            before,
            new_lists: Lists::new(alloc),
        }
    }

    /// Returns the current list of one part.
    fn part(&self, part: Part) -> &Coverage
        ensures list { result.now ≡ part_of self.now.set part }
        ensures within { IsWithin self.now.set pixels }
    {
        let before = &self.before[..];
        let before = before[part.index()];
        self.new_lists.get(part).unwrap_or(before)
    }

    /// Replaces the list of one part. Fails with `Memory` if an allocation fails.
    fn put(&mut self, part: Part, list: Coverage) -> Result<(), Memory>
        requires { part_of list part ≡ list }
        ensures set { OnOk result (self.new.set ≡ with_part self.old.set part list) }
        ensures before { self.new.before ≡ self.old.before }
    {
        self.new_lists.put(part, list)?;
        Ok(())
    }

    /// Establishes that the set is within the sky. Has no effect at run time.
    fn prove_in_sky(&self)
        ensures { IsWithin self.now.set pixels }
    {
        // Reading a field makes the invariant of the draft available to the proof.
        let _found = self.before;
    }

    /// Applies a change to the set, and returns the number of pixels that were added or removed.
    ///
    /// Lists of parts that stay unchanged are not replaced, and parts that the change cannot alter are not read. For
    /// each part, one pass counts the pixels and one combines the list and the operand. A union first extracts the
    /// part of the operand.
    pub(crate) fn change(&mut self, alloc: Global, change: &Change<'_>) -> Result<u64, Memory>
        requires { IsChange change.now }
        ensures set { OnOk result (self.new.set ≡ set_after_change change.now self.old.set) }
        ensures changed_pixels { IfOk result (λ n.
            n ≡ set.len (symmetric (set_after_change change.now self.old.set) self.old.set)) }
        ensures within { OnOk result (IsWithin self.old.set pixels) }
        ensures before { self.new.before ≡ self.old.before }
    {
        self.prove_in_sky();
        let mut changed_pixels = 0;
        for part in change.parts() {
            if let Some(PartUpdate { list, pixels }) = change.part(alloc, self.part(part), part)? {
                changed_pixels += pixels;
                self.put(part, list)?;
            }
        }
        Ok(changed_pixels)
    }

    /// Returns the number of pixels of one part that are also in `other`.
    fn count_common_in_part(&self, part: Part, other: &Coverage) -> u64
        ensures { result ≡ set.len (set.intersection (part_of self.now.set part) other.now) }
    {
        let list = self.part(part);
        if other.covers_base_pixel(part.get()) {
            list.count()
        } else {
            list.count_common(other)
        }
    }

    /// Returns the number of pixels that the set has in common with `other`.
    pub(crate) fn count_common(&self, other: &Coverage) -> u64
        ensures { result ≡ set.len (set.intersection self.now.set other.now) }
    {
        let mut total = 0;
        for part in parts_met(other) {
            total += self.count_common_in_part(part, other);
        }
        total
    }

    /// Returns whether the set has a pixel in common with `other`.
    pub(crate) fn meets(&self, other: &Coverage) -> bool
        ensures { result ≡ meets self.now.set other.now }
    {
        for part in parts_met(other) {
            if self.part(part).meets(other) {
                return true;
            }
        }
        false
    }

    /// Returns the pixels of one part that are also in `other`. If `other` covers the whole part, returns a copy that
    /// shares the blocks of the list.
    fn intersection_in(
        &self,
        alloc: Global,
        part: Part,
        other: &Coverage,
    ) -> Result<Coverage, Memory>
        ensures common { IfOk result (λ c. c ≡ set.intersection (part_of self.now.set part) other.now) }
        ensures within { IsWithin self.now.set pixels }
    {
        let list = self.part(part);
        if other.covers_base_pixel(part.get()) {
            Ok(list.try_copy(alloc)?)
        } else {
            Ok(list.intersection(alloc, other)?)
        }
    }

    /// Returns the intersection of the set with `other`.
    pub(crate) fn common(&self, alloc: Global, other: &Coverage) -> Result<Coverage, Memory>
        ensures { IfOk result (λ c. c ≡ set.intersection self.now.set other.now) }
    {
        let mut common = Coverage::empty(alloc);
        for part in parts_met(other) {
            common = merge_sets(alloc, common, self.intersection_in(alloc, part, other)?)?;
        }
        Ok(common)
    }

    /// Returns the replaced lists.
    pub(crate) fn into_new_lists(self) -> Lists
        ensures lists { current_lists self.entry.before result ≡ parts_below self.entry.set part_count }
        ensures within { IsWithin self.entry.set pixels }
        ensures twelve { length result ≡ part_count }
    {
        self.new_lists
    }

    /// Returns the current lists of the parts that are given; lists that were not replaced are copied.
    pub(crate) fn into_lists(
        self,
        alloc: Global,
        given: &[Option<&Coverage>; 12],
    ) -> Result<Lists, Memory>
        ensures { IfOk result (λ lists.
            (b : ℕ) → b < part_count → get_or lists b None ≡ part_if (is_given given.now b) self.entry.set b) }
    {
        let Draft { before, new_lists } = self;
        let mut lists = new_lists;
        for part in Part::ALL {
            let b = part.index();
            if given[b].is_none() {
                lists.clear(part);
            } else if lists.get(part).is_none() {
                lists.put(part, before[b].try_copy(alloc)?)?;
            }
        }
        Ok(lists)
    }
}

/// Returns the union of two sets. If one set is empty, the other is returned without a copy.
fn merge_sets(alloc: Global, a: Coverage, b: Coverage) -> Result<Coverage, Memory>
    ensures { IfOk result (λ c. c ≡ set.union a b) }
{
    if b.is_empty() {
        Ok(a)
    } else if a.is_empty() {
        Ok(b)
    } else {
        Ok(a.union(alloc, &b)?)
    }
}
