//! How far an operation on two lists looks ahead before it searches.
use moc_lists::Ranges;

/// The number of ranges to look ahead if one list has many times as many as the other.
pub const NEAR: usize = 3;

/// The number of ranges to look ahead if the lists have similar lengths, and a block is processed without branches: a
/// search costs less than this number of steps.
pub const FAR: usize = 32;

/// Lists have similar lengths if neither has more than this number of times as many ranges as the other.
const UNEVEN: usize = 8;

/// Returns whether one list has many times as many ranges as the other.
#[inline]
pub fn are_uneven(xs: &Ranges<'_>, ys: &Ranges<'_>) -> bool {
    let first = xs.size_hint().0;
    let second = ys.size_hint().0;
    first / UNEVEN > second || second / UNEVEN > first
}

/// Returns whether both lists have blocks, and neither has many times as many ranges as the other.
#[inline]
pub fn are_even(xs: &Ranges<'_>, ys: &Ranges<'_>) -> bool {
    xs.slice().is_none() && ys.slice().is_none() && !are_uneven(xs, ys)
}
