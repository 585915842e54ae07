//! The pixels: the cells of order 29.

/// The number of pixels of the sky: 12 * 4^29, the cells of order 29 (MOC 2.0).
pub const PIXEL_COUNT: u64 = 3458764513820540928;
