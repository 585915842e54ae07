//! The twelve parts of a map, one for each base pixel.
ghost use Rattle.std.specs.Prelude.{◌≡◌, ◌↔◌, ℕ, ◌+◌, ◌<◌, nat_lt, [], ◌∷◌, IsTrue, MatchOption, SomeIff};
ghost use Rattle.std.specs.List.{list_any};
ghost use Rattle.std.specs.FinSet as set;
ghost use Rattle.std.specs.Iterator.{item_count, YieldsFirst};
ghost use Rattle.moc_parts.specs.Parts.{parts_from, part_count};

use std::marker::Model;

/// One of the twelve parts of a map: a base pixel, 0 to 11. Every method takes constant time and allocates nothing.
#[derive(Clone, Copy, Debug, PartialEq, Eq, PartialOrd, Ord, Hash)]
pub struct Part {
    number: u8,
}

impl Model for Part {
    ghost Value = { ℕ };

    ghost view = { λ part. part.number };

    ghost invariant = { λ part. part.number < part_count };

    ghost inverse = { λ n. record { number = n } };
}

impl Part {
    /// All twelve parts in ascending order.
    pub const ALL: [Part; 12] = [
        Part { number: 0 },
        Part { number: 1 },
        Part { number: 2 },
        Part { number: 3 },
        Part { number: 4 },
        Part { number: 5 },
        Part { number: 6 },
        Part { number: 7 },
        Part { number: 8 },
        Part { number: 9 },
        Part { number: 10 },
        Part { number: 11 },
    ];

    /// Returns the part of a base pixel, or `None` if the number is above 11.
    pub fn new(number: u8) -> Option<Part>
        ensures { SomeIff result (number < part_count) number }
    {
        if number < 12 {
            Some(Part { number })
        } else {
            None
        }
    }

    /// Returns the part of a base pixel. Requires a number below 12.
    pub fn of(number: u8) -> Part
        requires { number < part_count }
        ensures { result ≡ number }
    {
        Part { number }
    }

    /// Returns the number of the base pixel.
    pub fn get(self) -> u8
        ensures value { result ≡ self }
        ensures in_range { result < part_count }
    {
        self.number
    }

    /// Returns the number of the base pixel as an index into an array of twelve.
    pub fn index(self) -> usize
        ensures value { result ≡ self }
        ensures in_range { result < part_count }
    {
        usize::from(self.number)
    }
}

/// A set of parts.
#[derive(Clone, Copy, Debug, PartialEq, Eq, Hash)]
pub struct PartSet {
    flags: [bool; 12],
}

impl Model for PartSet {
    ghost use Rattle.std.specs.Prelude.{◌≡◌, length};
    ghost use Rattle.std.proofs.Common.{ap};
    ghost use Rattle.std.specs.Ordering.{nat_cmp};
    ghost use Rattle.std.specs.FinSet as set;
    ghost use Rattle.std.specs.Coded.{coded_ℕ};
    ghost use Rattle.moc_parts.specs.Parts.{part_count};
    ghost use Rattle.moc_parts.specs.Private.PartSets.{parts_of_flags, flags_of, flags_of-parts_of_flags};

    ghost Value = { set.FinSet nat_cmp };

    ghost coded = { set.code coded_ℕ };

    ghost view = { λ parts. parts_of_flags parts.flags };

    ghost invariant = { λ parts. length parts.flags ≡ part_count };

    ghost inverse = { λ parts. record { flags = flags_of parts } };

    ghost inverse_ok = { λ s twelve. ap (λ flags. record { flags = flags }) (flags_of-parts_of_flags s.flags twelve) };
}

impl PartSet {
    /// Returns the empty set of parts. O(1); allocates nothing.
    pub fn none() -> PartSet
        ensures { result ≡ set.empty }
    {
        PartSet { flags: [false; 12] }
    }

    /// Returns the set of all twelve parts. O(1); allocates nothing.
    pub fn all() -> PartSet
        ensures { (b : ℕ) → set.contains result b ≡ nat_lt b part_count }
    {
        PartSet { flags: [true; 12] }
    }

    /// Returns whether the set is empty. O(1); allocates nothing.
    pub fn is_empty(self) -> bool
        ensures { IsTrue result ↔ (self ≡ set.empty) }
    {
        !has_true(&self.flags)
    }

    /// Adds a part to the set. O(1); allocates nothing.
    pub fn insert(&mut self, part: Part)
        ensures { self.new ≡ set.insert self.old part }
    {
        self.flags[part.index()] = true;
    }

    /// Returns the union of two sets of parts. O(1); allocates nothing.
    pub fn union(self, other: PartSet) -> PartSet
        ensures { result ≡ set.union self other }
    {
        let mut parts = self;
        for part in Part::ALL {
            if other.flags[part.index()] {
                parts.insert(part);
            }
        }
        parts
    }

    /// Returns the first part in the set from `from` on, if any.
    fn first_from(self, from: u8) -> Option<Part>
        ensures { MatchOption result (parts_from self from ≡ []) (λ b.
            parts_from self from ≡ b ∷ parts_from self (b + 1)) }
    {
        for number in from..12 {
            let part = Part::of(number);
            if self.contains(part) {
                return Some(part);
            }
        }
        None
    }

    /// Returns whether the part is in the set. O(1); allocates nothing.
    pub fn contains(self, part: Part) -> bool
        ensures { result ≡ set.contains self part }
    {
        self.flags[part.index()]
    }
}

/// Iterates over the parts in ascending order. Each step examines at most twelve flags; allocates nothing.
impl IntoIterator for PartSet {
    type Item = Part;

    type IntoIter = Parts;

    ghost use Rattle.moc_parts.specs.Parts.{parts_from};

    ghost into_iter_gives = { λ s r. r ≡ parts_from s 0 };

    fn into_iter(self) -> Parts {
        Parts { set: self, from: 0 }
    }
}

/// An iterator over the remaining parts of a set, in ascending order.
#[derive(Debug, Drop)]
pub struct Parts {
    set: PartSet,
    from: u8,
}

impl Model for Parts {
    ghost use Rattle.std.specs.Prelude.{List, ℕ};
    ghost use Rattle.moc_parts.specs.Parts.{parts_from};

    ghost Value = { List ℕ };

    ghost view = { λ parts. parts_from parts.set parts.from };
}

impl Iterator for Parts {
    type Item = Part;

    ghost next_gives = { YieldsFirst (λ s. s) };

    ghost remaining = { item_count (λ s. s) };

    fn next(&mut self) -> Option<Part> {
        let part = self.set.first_from(self.from)?;
        self.from = part.number + 1;
        Some(part)
    }
}

/// Returns whether at least one flag is set.
fn has_true(flags: &[bool]) -> bool
    ensures { result ≡ list_any (λ flag. flag) flags.now }
{
    flags.iter().any(|flag| *flag)
}
