//! The effective set of an operand.
ghost use Rattle.std.specs.Prelude.{◌≡◌};
ghost use Rattle.moc_parts.specs.Private.EffectiveSet.{effective_pixels};

use moc_ranges::Coverage;

/// The effective set of an operand: the set itself, or the degraded set if an order is given.
#[derive(Drop)]
pub(crate) enum EffectiveSet<'a> {
    Original(&'a Coverage),
    Degraded(Coverage),
}

impl<'a> EffectiveSet<'a> {
    /// Returns the set.
    pub(crate) fn set(&self) -> &Coverage
        ensures { result.now ≡ effective_pixels self.now }
    {
        match self {
            EffectiveSet::Original(set) => set,
            EffectiveSet::Degraded(set) => set,
        }
    }
}
