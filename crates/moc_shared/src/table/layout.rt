//! The positions of the lock words and slots of parts in the table.
ghost use Rattle.std.specs.Prelude.{◌≡◌, ◌≢◌, ◌<◌, ℕ, IfSome, IfNone};
ghost use Rattle.moc_shared.specs.Seats.{table_index};

use moc_parts::Part;

/// The distance between two parts: eight words, that is 64 bytes, so that no two parts share a cache line of 64 bytes.
const STRIDE: usize = 8;

/// The number of words and of slots.
pub(crate) const TABLE_SIZE: usize = 12 * STRIDE;

/// Returns the index of the lock word and of the slot of a part.
pub(crate) fn index(part: Part) -> usize
    ensures place { result ≡ table_index part }
    ensures in_range { part < 12 }
{
    STRIDE * part.index()
}

/// Returns the part whose lock word and slot are at an index, if any.
pub(crate) fn part_at(k: usize) -> Option<Part>
    requires { k < table_index 12 }
    ensures some { IfSome result (λ b. table_index b ≡ k) }
    ensures none { IfNone result ((b : ℕ) → table_index b ≢ k) }
{
    if k % STRIDE == 0 {
        Some(Part::of((k / STRIDE) as u8))
    } else {
        None
    }
}
