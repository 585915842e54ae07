//! Sets made from other sets.
ghost use Rattle.std.specs.Prelude.{◌≡◌, Ok, Err};
ghost use Rattle.std.specs.FinSet as set;
ghost use Rattle.moc_ranges.specs.Cells.{degrade};
ghost use Rattle.moc_ranges.specs.Operations.{complement, symmetric, pixels};
ghost use Rattle.moc_forms.specs.Combining.{set_of_two};
ghost use Rattle.moc_forms.specs.Changing.{changed_set};
ghost use Rattle.moc_c.specs.Answers.{both, Frees, set_made_of, Makes, of_two, order_of_number, set_at, sets_at};

use crate::call_result::CallResult;
use crate::error::CallError;
use crate::store::Store;
use crate::table::{CoverageTable, order_of};
use moc_forms::{Change, Operation};
use moc_ranges::Coverage;
use std::alloc::Global;

impl CoverageTable {
    /// Stores the result of an operation on two sets.
    fn combine(&mut self, alloc: Global, operation: Operation, a: u64, b: u64) -> CallResult
        ensures { Makes self.old self.new (set_made_of (of_two (set_of_two operation)) (sets_at self.old a b)) result }
    {
        match self.two(a, b) {
            Ok((first, second)) => {
                let made = operation.apply(alloc, first, second);
                self.insert_new(made)
            }
            Err(error) => CallResult::of(error),
        }
    }

    /// Stores the result of a change of one set.
    fn change(&mut self, alloc: Global, change: Change, a: u64) -> CallResult
        ensures { Makes self.old self.new (set_made_of (changed_set change) (set_at self.old a)) result }
    {
        match self.set(a) {
            Ok(set) => {
                let made = change.apply(alloc, set);
                self.insert_new(made)
            }
            Err(error) => CallResult::of(error),
        }
    }

    /// Stores the union of all cells of an order that the set meets.
    fn degrade(&mut self, alloc: Global, a: u64, order: u8) -> CallResult
        ensures { Makes self.old self.new
            (set_made_of (of_two degrade) (both (set_at self.old a) (order_of_number order))) result }
    {
        match (self.set(a), order_of(order)) {
            (Ok(set), Ok(order)) => {
                let made = set.degrade(alloc, order);
                self.insert_new(made)
            }
            (Ok(_), Err(error)) => CallResult::of(error),
            (Err(error), _) => CallResult::of(error),
        }
    }
}

/// Stores the empty set under a new id. O(log n) for n sets in the store. Fails if an allocation fails.
#[unsafe(no_mangle)]
pub extern "C" fn moc_empty(alloc: Global, store: &mut Store) -> CallResult
    ensures { Makes store.old.contents store.new.contents (Ok set.empty) result }
{
    store.table().insert_new(Ok(Coverage::empty(alloc)))
}

/// Stores the set of all pixels under a new id. O(log n) for n sets in the store. Fails if an allocation fails.
#[unsafe(no_mangle)]
pub extern "C" fn moc_full(alloc: Global, store: &mut Store) -> CallResult
    ensures { Makes store.old.contents store.new.contents (Ok pixels) result }
{
    store.table().insert_new(Coverage::full(alloc))
}

/// Stores the union of two sets under a new id. At most one pass over their ranges. Fails if an id has no set, or if an
/// allocation fails.
#[unsafe(no_mangle)]
pub extern "C" fn moc_union(alloc: Global, store: &mut Store, a: u64, b: u64) -> CallResult
    ensures { Makes store.old.contents store.new.contents
        (set_made_of (of_two set.union) (sets_at store.old.contents a b)) result }
{
    store.table().combine(alloc, Operation::Union, a, b)
}

/// Stores the intersection of two sets under a new id. As `moc_union`.
#[unsafe(no_mangle)]
pub extern "C" fn moc_intersection(alloc: Global, store: &mut Store, a: u64, b: u64) -> CallResult
    ensures { Makes store.old.contents store.new.contents
        (set_made_of (of_two set.intersection) (sets_at store.old.contents a b)) result }
{
    store.table().combine(alloc, Operation::Intersection, a, b)
}

/// Stores the pixels that are only in the first set under a new id. As `moc_union`.
#[unsafe(no_mangle)]
pub extern "C" fn moc_difference(alloc: Global, store: &mut Store, a: u64, b: u64) -> CallResult
    ensures { Makes store.old.contents store.new.contents
        (set_made_of (of_two set.difference) (sets_at store.old.contents a b)) result }
{
    store.table().combine(alloc, Operation::Difference, a, b)
}

/// Stores the pixels that are in exactly one of two sets under a new id. As `moc_union`.
#[unsafe(no_mangle)]
pub extern "C" fn moc_symmetric(alloc: Global, store: &mut Store, a: u64, b: u64) -> CallResult
    ensures { Makes store.old.contents store.new.contents
        (set_made_of (of_two symmetric) (sets_at store.old.contents a b)) result }
{
    store.table().combine(alloc, Operation::Symmetric, a, b)
}

/// Stores the complement of a set under a new id. One pass over its ranges. Fails if the id has no set, or if an
/// allocation fails.
#[unsafe(no_mangle)]
pub extern "C" fn moc_complement(alloc: Global, store: &mut Store, a: u64) -> CallResult
    ensures { Makes store.old.contents store.new.contents (set_made_of complement (set_at store.old.contents a))
        result }
{
    store.table().change(alloc, Change::Complement, a)
}

/// Stores the union of all cells of an order that the set meets under a new id. One pass over its ranges. Fails if the
/// id has no set, for an order above 29, or if an allocation fails.
#[unsafe(no_mangle)]
pub extern "C" fn moc_degrade(alloc: Global, store: &mut Store, a: u64, order: u8) -> CallResult
    ensures { Makes store.old.contents store.new.contents
        (set_made_of (of_two degrade) (both (set_at store.old.contents a) (order_of_number order))) result }
{
    store.table().degrade(alloc, a, order)
}

/// Stores a set of one store in another store under a new id. The stores share its blocks. O(n / 128) for n ranges, and
/// O(log n) for n sets in the store. Fails if the id has no set, or if an allocation fails.
#[unsafe(no_mangle)]
pub extern "C" fn moc_share(alloc: Global, from: &mut Store, a: u64, to: &mut Store) -> CallResult
    ensures makes { Makes to.old.contents to.new.contents (set_at from.old.contents a) result }
    ensures same { from.new.contents ≡ from.old.contents }
{
    match from.table().set(a) {
        Ok(set) => to.table().insert_new(set.try_copy(alloc)),
        Err(error) => CallResult::of(error),
    }
}

/// Frees the set with this id; the id is never used again. O(log n) for n sets in the store. Fails if the id has no
/// set.
#[unsafe(no_mangle)]
pub extern "C" fn moc_free(store: &mut Store, a: u64) -> CallResult
    ensures { Frees store.old.contents store.new.contents a result }
{
    if store.table().free(a) {
        CallResult::success()
    } else {
        CallResult::of(CallError::NoSuchSet { id: a })
    }
}
