//! Changes of a coverage: degrade and complement.
ghost use Rattle.std.specs.Prelude.{◌≡◌, IfOk, min, option_map};
ghost use Rattle.moc_forms.specs.Changing.{changed_order, changed_set};

use moc_ranges::{Coverage, Memory};
use moc_sphere::Order;
use std::alloc::Global;

/// A change of a set of pixels.
#[derive(Clone, Copy, Debug, PartialEq, Eq)]
pub enum Change {
    /// Replaces each cell of the given order that the set meets by all of its pixels.
    Degrade(Order),
    /// Replaces the set by the pixels that it does not contain.
    Complement,
}

impl Change {
    /// Returns the changed set.
    ///
    /// # Errors
    /// Fails with `Memory` if an allocation fails.
    ///
    /// # Complexity
    /// One pass over the ranges of the set.
    pub fn apply(self, alloc: Global, set: &Coverage) -> Result<Coverage, Memory>
        ensures set { IfOk result (λ c. c ≡ changed_set self set.now) }
    {
        match self {
            Change::Degrade(order) => set.degrade(alloc, order),
            Change::Complement => set.complement(alloc),
        }
    }

    /// Returns the MOC order to state for the changed set, given the MOC order of the original text. For a degraded set
    /// it is the coarser of this order and the order that the set is degraded to; for a complement it is unchanged.
    pub fn order_to_state(self, moc_order: Option<Order>) -> Option<Order>
        ensures order { result ≡ changed_order self moc_order }
    {
        match self {
            Change::Degrade(order) => coarser(moc_order, order),
            Change::Complement => moc_order,
        }
    }
}

/// Returns the coarser of two orders, or `None` if there is no first one.
fn coarser(first: Option<Order>, second: Order) -> Option<Order>
    ensures { result ≡ option_map (λ k. min k second) first }
{
    Some(first?.min(second))
}
