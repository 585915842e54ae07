//! Inverts a map of one base pixel, and reports the state of the map: `inverted`, `unchanged` if an allocation failed,
//! or otherwise `spoiled`.

use anyhow::Result;
use moc_parts::{Batch, Command, Map, Part};
use moc_ranges::Coverage;
use std::alloc::Global;
use std::io::Print;

/// The number of pixels of a base pixel: 4^29.
const BASE_PIXEL_SIZE: u64 = 288230376151711744;

/// Tests whether the first part has this number of pixels, and each other part that number.
fn has_counts(map: &Map, first: u64, others: u64) -> bool {
    let is_first = map.part(Part::of(0)).count() == first;
    is_first && (1u8..12).all(|b| map.part(Part::of(b)).count() == others)
}

/// Reports the result of the inversion.
pub fn report(rt: &impl Print, alloc: Global) -> Result<()> {
    let start = Coverage::from_ranges(alloc, &[(0, BASE_PIXEL_SIZE)])?;
    let mut map = Map::new(alloc, start)?;
    let batch = Batch::one(alloc, Command::Invert)?;
    let is_done = map.apply(alloc, &batch).is_ok();
    let outcome = if is_done && has_counts(&map, 0, BASE_PIXEL_SIZE) {
        "inverted"
    } else if !is_done && has_counts(&map, BASE_PIXEL_SIZE, 0) {
        "unchanged"
    } else {
        "spoiled"
    };
    println!(rt; "{outcome}")?;
    Ok(())
}
