//! Look-up of ascending pixels by a walk over the ranges of a set.
ghost use Rattle.std.specs.Prelude.{◌≡◌, ◌<◌, ◌≤◌, IfSome};
ghost use Rattle.std.specs.FinSet as set;
ghost use Rattle.moc_c.specs.Private.Lookup.{IsRest, IsTrueOf};

use moc_ranges::{Coverage, Ranges};

/// The largest number of ranges that a walk advances before it searches instead.
const STEPS: usize = 8;

/// What is known about the pixels from `from` to `end`: the set contains those from `start` on, and none before.
#[derive(Clone, Copy)]
pub struct KnownSpan {
    pub from: u64,
    pub start: u64,
    pub end: u64,
}

/// Advances to the range that ends after a pixel if it is among the next `STEPS` ranges. The coverage is an argument
/// only for the contract.
fn advance(
    coverage: &Coverage,
    rest: &mut Ranges<'_>,
    passed: &mut u64,
    pixel: u64,
) -> Option<KnownSpan>
    requires { IsRest coverage.now rest.old passed.old }
    ensures rest { IsRest coverage.now rest.new passed.new }
    ensures known { IfSome result (λ k. IsTrueOf coverage.now k × (k.from ≤ pixel) × (pixel < k.end)) }
{
    if pixel < *passed {
        return None;
    }
    for _step in 0..STEPS {
        let Some((start, end)) = rest.next() else {
            return None;
        };
        let from = *passed;
        *passed = end;
        if pixel < end {
            return Some(KnownSpan { from, start, end });
        }
    }
    None
}

/// Tests whether a set contains a pixel, and returns what is known about the pixels around it. Walks, O(1), to a pixel
/// a few ranges ahead; otherwise searches, O(log n).
pub(crate) fn look(
    coverage: &Coverage,
    rest: &mut Ranges<'_>,
    passed: &mut u64,
    pixel: u64,
) -> (bool, KnownSpan)
    requires { IsRest coverage.now rest.old passed.old }
    ensures rest { IsRest coverage.now rest.new passed.new }
    ensures found { result.0 ≡ set.contains coverage.now pixel }
    ensures known { IsTrueOf coverage.now result.1 }
{
    if let Some(known) = advance(coverage, rest, passed, pixel) {
        return (known.start <= pixel, known);
    }
    let (has, end) = coverage.contains_until(pixel);
    let start = if has { pixel } else { end };
    let known = KnownSpan {
        from: pixel,
        start,
        end,
    };
    (has, known)
}
