//! Queries of sets. No query allocates; each fails with `NO_SUCH_SET` if an id has no set.
ghost use Rattle.std.specs.Prelude.{◌≡◌, ◌≤◌, ℕ, List, length, if◌then◌else◌};
ghost use Rattle.std.specs.FinSet as set;
ghost use Rattle.moc_ranges.specs.Cells.{degrade};
ghost use Rattle.moc_ranges.specs.Operations.{meets};
ghost use Rattle.moc_lists.specs.RangeList.{IsNormal, set_of};
ghost use Rattle.moc_c.specs.Answers.{Answers, IsWhether, set_at, sets_at};

use crate::call_result::CallResult;
use crate::store::Store;

/// Returns the number of order-29 pixels in the set.
///
/// # Complexity
/// O(1); a set of at most 128 ranges is summed.
#[unsafe(no_mangle)]
pub extern "C" fn moc_count(store: &mut Store, a: u64) -> CallResult
    ensures value { Answers (λ x n. n ≡ set.len x) (set_at store.old.contents a) result }
    ensures same { store.new.contents ≡ store.old.contents }
{
    match store.table().set(a) {
        Ok(set) => CallResult::number(set.count()),
        Err(error) => CallResult::of(error),
    }
}

/// Returns the number of order-29 pixels that are in both sets.
///
/// # Complexity
/// At most one pass over the ranges of both.
#[unsafe(no_mangle)]
pub extern "C" fn moc_count_common(store: &mut Store, a: u64, b: u64) -> CallResult
    ensures value { Answers (λ x n. n ≡ set.len (set.intersection x.0 x.1)) (sets_at store.old.contents a b) result }
    ensures same { store.new.contents ≡ store.old.contents }
{
    match store.table().two(a, b) {
        Ok((first, second)) => CallResult::number(first.count_common(second)),
        Err(error) => CallResult::of(error),
    }
}

/// Returns the number of ranges in the set's normal list.
///
/// # Complexity
/// O(1).
#[unsafe(no_mangle)]
pub extern "C" fn moc_range_count(store: &mut Store, a: u64) -> CallResult
    ensures value { Answers
        (λ x n. (ranges : List (ℕ × ℕ)) × IsNormal ranges × (set_of ranges ≡ x) × (n ≡ length ranges))
        (set_at store.old.contents a) result }
    ensures same { store.new.contents ≡ store.old.contents }
{
    match store.table().set(a) {
        Ok(set) => CallResult::number(set.range_count() as u64),
        Err(error) => CallResult::of(error),
    }
}

/// Returns the smallest order whose cells can form the set; 0 for the empty set.
///
/// # Complexity
/// One pass over the ranges.
#[unsafe(no_mangle)]
pub extern "C" fn moc_deepest_order(store: &mut Store, a: u64) -> CallResult
    ensures value { Answers (λ x n. (degrade x n ≡ x) × ((k : ℕ) → degrade x k ≡ x → n ≤ k))
        (set_at store.old.contents a) result }
    ensures same { store.new.contents ≡ store.old.contents }
{
    match store.table().set(a) {
        Ok(set) => CallResult::number(u64::from(set.deepest_order().get())),
        Err(error) => CallResult::of(error),
    }
}

/// Returns 1 if the set is empty, and 0 if not. O(1).
#[unsafe(no_mangle)]
pub extern "C" fn moc_is_empty(store: &mut Store, a: u64) -> CallResult
    ensures value { Answers (λ x n. IsWhether (x ≡ set.empty) n) (set_at store.old.contents a) result }
    ensures same { store.new.contents ≡ store.old.contents }
{
    match store.table().set(a) {
        Ok(set) => CallResult::number(u64::from(set.is_empty())),
        Err(error) => CallResult::of(error),
    }
}

/// Returns 1 if the set contains the order-29 pixel, and 0 if not. O(log n).
#[unsafe(no_mangle)]
pub extern "C" fn moc_contains(store: &mut Store, a: u64, pixel: u64) -> CallResult
    ensures value { Answers (λ x n. n ≡ (if set.contains x pixel then 1 else 0)) (set_at store.old.contents a) result }
    ensures same { store.new.contents ≡ store.old.contents }
{
    match store.table().set(a) {
        Ok(set) => CallResult::number(u64::from(set.contains(pixel))),
        Err(error) => CallResult::of(error),
    }
}

/// Returns 1 if two sets have a pixel in common, and 0 if not. At most one pass over their ranges.
#[unsafe(no_mangle)]
pub extern "C" fn moc_meets(store: &mut Store, a: u64, b: u64) -> CallResult
    ensures value { Answers (λ x n. n ≡ (if meets x.0 x.1 then 1 else 0)) (sets_at store.old.contents a b) result }
    ensures same { store.new.contents ≡ store.old.contents }
{
    match store.table().two(a, b) {
        Ok((first, second)) => CallResult::number(u64::from(first.meets(second))),
        Err(error) => CallResult::of(error),
    }
}

/// Returns 1 if the first set contains every pixel of the second, and 0 if not. At most one pass over their ranges.
#[unsafe(no_mangle)]
pub extern "C" fn moc_covers(store: &mut Store, a: u64, b: u64) -> CallResult
    ensures value { Answers (λ x n. n ≡ (if set.is_subset x.1 x.0 then 1 else 0))
        (sets_at store.old.contents a b) result }
    ensures same { store.new.contents ≡ store.old.contents }
{
    match store.table().two(a, b) {
        Ok((first, second)) => CallResult::number(u64::from(first.covers(second))),
        Err(error) => CallResult::of(error),
    }
}

/// Returns 1 if two sets are equal, and 0 if not. At most one pass over their ranges.
#[unsafe(no_mangle)]
pub extern "C" fn moc_same(store: &mut Store, a: u64, b: u64) -> CallResult
    ensures value { Answers (λ x n. IsWhether (x.0 ≡ x.1) n) (sets_at store.old.contents a b) result }
    ensures same { store.new.contents ≡ store.old.contents }
{
    match store.table().two(a, b) {
        Ok((first, second)) => CallResult::number(u64::from(first.same(second))),
        Err(error) => CallResult::of(error),
    }
}
