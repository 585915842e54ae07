//! The table of lock words and slots, its invariant, and the atomic steps on it.
pub mod layout;
pub mod locks;
pub mod seats;
pub mod slots;
pub mod steps;
