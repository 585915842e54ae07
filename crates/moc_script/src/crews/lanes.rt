//! The number of threads of a crew.
ghost use Rattle.std.specs.Prelude.{◌≡◌, ◌<◌, ◌≤◌, ◌↔◌, IfSome, IsSome};

use moc_shared::MAX_CLIENTS;

/// A number of lanes, from 1 to 64.
#[derive(Clone, Copy, Debug, PartialEq, Eq)]
pub struct Lanes {
    number: u8,
    ghost some: { 0 < number },
    ghost few: { number ≤ 64 },
}

impl Lanes {
    /// Returns this number of lanes, or `None` if it is 0 or above 64. Allocates nothing.
    pub fn new(number: u8) -> Option<Lanes>
        ensures number { IfSome result (λ lanes. lanes.number ≡ number) }
        ensures accepted { IsSome result ↔ ((0 < number) × (number ≤ 64)) }
    {
        if number == 0 || number > MAX_CLIENTS {
            return None;
        }
        Some(Lanes { number })
    }

    /// Returns the number. Allocates nothing.
    pub fn get(self) -> u8
        ensures number { result ≡ self.number }
        ensures some { 0 < result }
        ensures bounded { result ≤ 64 }
    {
        self.number
    }
}
