//! Set operations on two normal lists of ranges, and comparisons of two. Only `moc_ranges` uses this crate.
#![tactic(auto)]

mod comparisons;
mod differences;
mod gaps;
mod intersections;
mod lookahead;
mod range_intersection;
mod sharing;
mod slice;
mod symmetric_bounds;
mod symmetric_differences;
mod unions;

pub use comparisons::{are_same, count_common, covers, meets};
pub use differences::difference;
pub use intersections::intersection;
pub use range_intersection::write_if_nonempty;
pub use symmetric_differences::symmetric;
pub use unions::union;
