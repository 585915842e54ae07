//! Short lists in strictly ascending order.

ghost use Rattle.smallvec.specs.SmallVec.{HasRoomFor, small_vec_len};
ghost use Rattle.std.specs.List.Sorted.{IsStrictlyIncreasing};
ghost use Rattle.std.specs.Prelude.{◌≡◌, ◌≢◌, ℕ, ◌+◌, ◌^◌, ◌<◌, ◌≤◌, ◌↔◌, ◌⊎◌, min, max, Contains, slice_index, length};
ghost use Rattle.moc_sphere.specs.Private.Sums.{sum_at};

use smallvec::SmallVec;

/// Returns the first position whose number is at least `value`, or the length of the list. Searches an ascending list
/// from its end.
fn first_at_least(numbers: &[u64], value: u64) -> usize
    requires { IsStrictlyIncreasing numbers.now }
    ensures within { result ≤ length numbers.now }
    ensures below { (k : ℕ) → k < result → slice_index numbers.now k < value }
    ensures at { result < length numbers.now → value ≤ slice_index numbers.now result }
{
    let len = numbers.len();
    for passed in 0..len {
        let last = len - passed - 1;
        if numbers[last] < value {
            return last + 1;
        }
    }
    0
}

/// Inserts `value` into an ascending list, unless the list contains it.
pub(crate) fn insert_sorted(list: &mut SmallVec<u64, 8>, value: u64)
    requires capacity { HasRoomFor list.old 1 }
    requires ascending { IsStrictlyIncreasing list.old.items }
    ensures ascending { IsStrictlyIncreasing list.new.items }
    ensures has { (j : ℕ) → Contains list.new.items j ↔ ((j ≡ value) ⊎ Contains list.old.items j) }
    ensures capacity { list.new.capacity ≡ list.old.capacity }
    ensures len { small_vec_len list.new ≤ small_vec_len list.old + 1 }
{
    let at = first_at_least(list.as_slice(), value);
    if at == list.len() {
        list.push_reserved(value);
        return;
    }
    if list[at] == value {
        return;
    }
    match list.insert(at, value) {
        Ok(()) => {}
        Err(_) => unreachable!(),
    }
}

/// Returns the lesser and the greater of two numbers.
#[inline]
fn min_max(a: u64, b: u64) -> (u64, u64)
    ensures lesser { result.0 ≡ min a b }
    ensures greater { result.1 ≡ max a b }
{
    (a.min(b), a.max(b))
}

/// Returns the sums of a number of `across` and a number of `up`, except the sum of the two middle ones, in ascending
/// order. Because both lists are ascending, five comparisons sort the sums.
#[inline]
pub(crate) fn sums_around(across: [u64; 3], up: [u64; 3]) -> [u64; 8]
    requires across { IsStrictlyIncreasing across }
    requires up { IsStrictlyIncreasing up }
    requires fits { slice_index across 2 + slice_index up 2 < 2 ^ 64 }
    requires distinct { (d e : ℕ) → d < 9 → e < 9 → sum_at across up d ≡ sum_at across up e → d ≡ e }
    ensures ascending { IsStrictlyIncreasing result }
    ensures sums { (j : ℕ) → Contains result j ↔ ((d : ℕ) × (d < 9) × (d ≢ 4) × (j ≡ sum_at across up d)) }
{
    let [x0, x1, x2] = across;
    let [y0, y1, y2] = up;
    let (a, b) = min_max(x0 + y1, x1 + y0);
    let (c, d) = min_max(x0 + y2, x2 + y0);
    let (e, f) = min_max(x1 + y2, x2 + y1);
    let (b, c) = min_max(b, c);
    let (d, e) = min_max(d, e);
    [x0 + y0, a, b, c, d, e, f, x2 + y2]
}
