//! A table of coverages by id, and the last text.
ghost use Rattle.std.specs.Prelude.{◌≡◌, Err, MatchResult, Ok, OnErr, OnOk, IfOk};
ghost use Rattle.std.specs.Option.{option_copied, is_some};
ghost use Rattle.std.specs.String.{string_bytes};
ghost use Rattle.std.specs.FinMap as map;
ghost use Rattle.moc_c.specs.Answers.{order_of_number, set_at, sets_at};
ghost use Rattle.moc_c.specs.Private.Making.{KeepsParsed, MakesIf};
ghost use Rattle.moc_c.specs.Contents.{set_with_id, empty_store, with_set, with_text, without_set};

use crate::call_result::CallResult;
use crate::error::CallError;
use moc_ranges::{Coverage, Memory};
use moc_sphere::Order;
use std::alloc::Global;
use std::collections::BTreeMap;
use std::marker::Model;

/// Returns the order with this number. Fails if there is none.
pub(crate) fn order_of(number: u8) -> Result<Order, CallError>
    ensures { result ≡ order_of_number number }
{
    match Order::new(number) {
        Some(order) => Ok(order),
        None => Err(CallError::NoSuchOrder { order: number }),
    }
}

/// Coverages in a tree, by id.
#[derive(Drop)]
struct CoverageTree {
    by_id: BTreeMap<u64, Coverage>,
}

impl Model for CoverageTree {
    ghost use Rattle.std.specs.Coded.{coded_ℕ};
    ghost use Rattle.std.specs.FinMap as map;
    ghost use Rattle.std.specs.FinSet as set;
    ghost use Rattle.std.specs.Ordering.{nat_cmp};
    ghost use Rattle.moc_lists.specs.RangeList.{NumberSet};

    ghost Value = { map.FinMap nat_cmp NumberSet };

    ghost coded = { map.code coded_ℕ (set.code coded_ℕ) };

    ghost view = { λ s. map.from_entries s.by_id.entries };
}

impl CoverageTree {
    /// Returns an empty tree.
    fn new(alloc: Global) -> CoverageTree
        ensures { result ≡ map.empty }
    {
        CoverageTree {
            by_id: BTreeMap::new(alloc),
        }
    }

    /// Returns the coverage with this id, if there is one. O(log n).
    fn get(&self, id: u64) -> Option<&Coverage>
        ensures { option_copied result ≡ map.get self.now id }
    {
        self.by_id.get(&id)
    }

    /// Inserts a coverage. O(log n). Fails if an allocation fails.
    fn insert(&mut self, id: u64, set: Coverage) -> Result<(), Memory>
        ensures inserted { OnOk result (self.new ≡ map.insert self.old id set) }
        ensures unchanged { OnErr result (self.new ≡ self.old) }
    {
        match self.by_id.insert(id, set) {
            Ok(_) => Ok(()),
            Err(_) => Err(Memory),
        }
    }

    /// Removes the coverage with this id, and returns whether there was one. O(log n). Does not allocate.
    fn remove(&mut self, id: u64) -> bool
        ensures removed { self.new ≡ map.remove self.old id }
        ensures found { result ≡ is_some (map.get self.old id) }
    {
        self.by_id.remove(&id).is_some()
    }
}

/// The contents of a store: coverages, each with an id that is never used again, and the last text.
#[derive(Drop)]
pub struct CoverageTable {
    sets: CoverageTree,
    next: u64,
    text: String,
}

impl Model for CoverageTable {
    ghost use Rattle.std.specs.String.{string_bytes};
    ghost use Rattle.moc_c.specs.Answers.{set_at, sets_at};
    ghost use Rattle.moc_c.specs.Contents.{Contents};
    ghost use Rattle.moc_c.specs.Private.Storing.{contents_code, IsEmptyFrom};

    ghost Value = { Contents };

    ghost coded = { contents_code };

    ghost view = { λ s. record { sets = s.sets; next = s.next; text = string_bytes s.text } };

    ghost invariant = { λ s. IsEmptyFrom s.next s.sets };
}

impl CoverageTable {
    /// Returns an empty table without a text. Does not allocate.
    pub(crate) fn new(alloc: Global) -> CoverageTable
        ensures { result ≡ empty_store }
    {
        CoverageTable {
            sets: CoverageTree::new(alloc),
            next: 0,
            text: String::new(alloc),
        }
    }

    /// Returns the coverage with this id. Fails if there is none. O(log n).
    pub(crate) fn set(&self, id: u64) -> Result<&Coverage, CallError>
        ensures { MatchResult result (λ set. set_at self.now id ≡ Ok set.now) (λ e. set_at self.now id ≡ Err e) }
    {
        match self.sets.get(id) {
            Some(set) => Ok(set),
            None => Err(CallError::NoSuchSet { id }),
        }
    }

    /// Returns the coverages with two ids. Fails with the first id that no coverage has. O(log n).
    pub(crate) fn two(&self, a: u64, b: u64) -> Result<(&Coverage, &Coverage), CallError>
        ensures { MatchResult result (λ sets. sets_at self.now a b ≡ Ok (sets.0.now, sets.1.now))
            (λ e. sets_at self.now a b ≡ Err e) }
    {
        Ok((self.set(a)?, self.set(b)?))
    }

    /// Stores a coverage, and returns its new id. O(log n). Fails if an allocation fails, or if no id is left.
    pub(crate) fn put(&mut self, set: Coverage) -> Result<u64, Memory>
        ensures inserted { OnOk result (self.new ≡ with_set self.old set) }
        ensures id { IfOk result (λ id. id ≡ self.old.next) }
        ensures unchanged { OnErr result (self.new ≡ self.old) }
    {
        let id = self.next;
        let Some(next) = id.checked_add(1) else {
            return Err(Memory);
        };
        self.sets.insert(id, set)?;
        self.next = next;
        Ok(id)
    }

    /// Stores a new set and returns its id, or returns the code of `Memory` if the set was not allocated.
    pub(crate) fn insert_new(&mut self, made: Result<Coverage, Memory>) -> CallResult
        ensures { MakesIf self.old self.new made result }
    {
        let Ok(set) = made else {
            return CallResult::of(CallError::Memory);
        };
        match self.put(set) {
            Ok(id) => CallResult::number(id),
            Err(Memory) => CallResult::of(CallError::Memory),
        }
    }

    /// Stores a set that was built from an array and returns its id, or returns the code of the array's error.
    pub(crate) fn insert_or_fail(&mut self, outcome: Result<Coverage, CallError>) -> CallResult
        ensures { KeepsParsed self.old self.new outcome result }
    {
        match outcome {
            Ok(set) => self.insert_new(Ok(set)),
            Err(error) => CallResult::of(error),
        }
    }

    /// Removes the coverage with this id, and returns whether there was one. O(log n). Does not allocate.
    pub(crate) fn free(&mut self, id: u64) -> bool
        ensures removed { self.new ≡ without_set self.old id }
        ensures found { result ≡ is_some (set_with_id self.old id) }
    {
        self.sets.remove(id)
    }

    /// Replaces the last text.
    pub(crate) fn keep_text(&mut self, text: String)
        ensures { self.new ≡ with_text self.old (string_bytes text) }
    {
        self.text = text;
    }

    /// Returns the last text.
    pub(crate) fn text(&self) -> &[u8]
        ensures { result.now ≡ self.now.text }
    {
        self.text.as_bytes()
    }
}
