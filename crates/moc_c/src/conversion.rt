//! Conversions from one numbering of cells to another.
ghost use Rattle.std.specs.Prelude.{◌<◌, ◌≤◌, MatchOption};
ghost use Rattle.moc_sphere.specs.CellNumber.{cell_count};
ghost use Rattle.moc_c.specs.Buffers.{IsConverted};

use moc_sphere::{Cell, Order};

/// A conversion of one cell number.
#[derive(Clone, Copy)]
pub enum Conversion {
    /// From the nested index to the ring index.
    NestToRing,
    /// From the ring index to the nested index.
    RingToNest,
    /// From the nested index to the NUNIQ number.
    NestToUniq,
}

impl Conversion {
    /// Returns the converted number if the order has a cell with this one.
    #[inline]
    pub(crate) fn of(self, order: Order, number: u64) -> Option<u64>
        ensures { MatchOption result (cell_count order ≤ number)
            (λ y. (number < cell_count order) × IsConverted self order number y) }
    {
        match self {
            Conversion::NestToRing => Some(Cell::new(order, number).ok()?.ring()),
            Conversion::RingToNest => Some(Cell::from_ring(order, number).ok()?.index()),
            Conversion::NestToUniq => Some(Cell::new(order, number).ok()?.uniq()),
        }
    }
}
