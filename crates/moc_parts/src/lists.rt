//! Lists of ranges for some of the twelve parts.
ghost use Rattle.std.specs.Prelude.{◌≡◌, ◌<◌, None, Some, OnOk, OnErr, get_or, replicate, set as set_at};
ghost use Rattle.std.specs.Option.{option_copied};
ghost use Rattle.moc_parts.specs.Private.Drafts.{index_of_part_from};
ghost use Rattle.moc_parts.specs.Parts.{part_count};

use crate::part::Part;
use moc_ranges::{Coverage, Memory};
use std::alloc::Global;
use std::marker::Model;

/// Lists of ranges for some of the twelve parts, stored as pairs. In contracts, the value is a list of twelve optional
/// sets.
#[derive(Debug, Drop)]
pub(crate) struct Lists {
    lists: Vec<(Part, Option<Coverage>)>,
}

impl Model for Lists {
    ghost use Rattle.std.specs.Prelude.{List, Option};
    ghost use Rattle.std.specs.Coded.{coded_list, coded_option, coded_ℕ};
    ghost use Rattle.std.specs.FinSet as set;
    ghost use Rattle.moc_lists.specs.RangeList.{NumberSet};
    ghost use Rattle.moc_parts.specs.Private.Drafts.{twelve_lists};

    ghost Value = { List (Option NumberSet) };

    ghost coded = { coded_list (coded_option (set.code coded_ℕ)) };

    ghost view = { λ l. twelve_lists l.lists.items };
}

impl Lists {
    /// Creates a collection without any list. Allocates nothing.
    pub(crate) fn new(alloc: Global) -> Lists
        ensures { result ≡ replicate part_count None }
    {
        Lists {
            lists: Vec::new(alloc),
        }
    }

    /// Returns the list of a part, if there is one.
    pub(crate) fn get(&self, part: Part) -> Option<&Coverage>
        ensures { option_copied result ≡ get_or self.now part None }
    {
        match index_of_part(&self.lists, part) {
            Some(i) => self.lists[i].1.as_ref(),
            None => None,
        }
    }

    /// Sets or replaces the list of a part. Fails with `Memory` if an allocation fails; the lists are then unchanged.
    pub(crate) fn put(&mut self, part: Part, list: Coverage) -> Result<(), Memory>
        ensures put { OnOk result (self.new ≡ set_at self.old part (Some list)) }
        ensures unchanged { OnErr result (self.new ≡ self.old) }
        ensures in_range { part < part_count }
    {
        match index_of_part(&self.lists, part) {
            Some(i) => {
                self.lists[i].1 = Some(list);
                Ok(())
            }
            None => {
                self.lists.push((part, Some(list)))?;
                Ok(())
            }
        }
    }

    /// Removes the list of a part. Allocates nothing.
    pub(crate) fn clear(&mut self, part: Part)
        ensures { self.new ≡ set_at self.old part None }
    {
        if let Some(i) = index_of_part(&self.lists, part) {
            self.lists[i].1 = None;
        }
    }

    /// Removes and returns the list of a part, if there is one. Allocates nothing.
    pub(crate) fn take(&mut self, part: Part) -> Option<Coverage>
        ensures taken { result ≡ get_or self.old part None }
        ensures left { self.new ≡ set_at self.old part None }
    {
        match index_of_part(&self.lists, part) {
            Some(i) => self.lists[i].1.take(),
            None => None,
        }
    }
}

/// Returns the index of the first entry for a part.
fn index_of_part(lists: &[(Part, Option<Coverage>)], part: Part) -> Option<usize>
    ensures place { result ≡ index_of_part_from 0 lists.now part }
    ensures in_range { part < part_count }
{
    let number = part.get();
    for (i, (other, _)) in lists.iter().enumerate() {
        if other.get() == number {
            return Some(i);
        }
    }
    None
}
