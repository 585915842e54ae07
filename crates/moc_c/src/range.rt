//! Ranges in the layout of C.

/// The order-29 pixels from `from` (included) to `to` (excluded), by nested index.
#[repr(C)]
#[derive(Clone, Copy)]
pub struct Range {
    pub from: u64,
    pub to: u64,
}
