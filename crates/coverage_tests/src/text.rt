//! Cases of the three formats, and texts of many cells.

mod ascii;
mod json;
mod segments;
mod uniq;

use moc_ranges::Coverage;
use moc_sphere::Order;
use std::alloc::Global;
use std::fmt::Write;
use std::process::Abort;

/// The number of pixels of a cell of order 0, of order 1, and of order 2.
const Q0: u64 = 288230376151711744;

const Q1: u64 = 72057594037927936;

const Q2: u64 = 18014398509481984;

/// Checks the pixels and the MOC order of a text.
fn assert_set(
    rt: &impl Abort,
    alloc: Global,
    parsed_set: &(Coverage, Option<Order>),
    ranges: &[(u64, u64)],
    deepest: Option<u8>,
) {
    let (set, found) = parsed_set;
    let wanted = Coverage::from_ranges(alloc, ranges).expect(rt, "ranges");
    assert!(rt; set.same(&wanted));
    assert_eq!(rt; *found, deepest.and_then(Order::new));
}

/// A byte a thousand times, between a prefix and a suffix.
fn repeated(rt: &impl Abort, alloc: Global, front: &[u8], byte: u8, back: &[u8]) -> Vec<u8> {
    let mut text = Vec::from_slice(alloc, front).expect(rt, "memory");
    for _ in 0..1000 {
        text.push(byte).expect(rt, "memory");
    }
    text.extend_from_slice(back).expect(rt, "memory");
    text
}

/// Every second number from `first` on, 1,500 of them, between a prefix and a suffix.
fn every_second(
    rt: &impl Abort,
    alloc: Global,
    front: &str,
    first: u64,
    between: &str,
    back: &str,
) -> String {
    let mut text = String::from_str(alloc, front).expect(rt, "memory");
    for step in 0..1500u64 {
        if step > 0 {
            text.push_str(between).expect(rt, "memory");
        }
        let number = first.saturating_add(2 * step);
        write!(text, "{number}").expect(rt, "memory");
    }
    text.push_str(back).expect(rt, "memory");
    text
}
