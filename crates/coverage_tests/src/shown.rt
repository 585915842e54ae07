//! `Display` and `Debug` of values.
use std::alloc::Global;
use std::fmt::{Debug, Display};
use std::process::Abort;

/// Checks the `Display` text of a value.
pub fn is_shown<T: Display>(rt: &impl Abort, alloc: Global, value: &T, text: &str) {
    let seen = value.to_string(alloc).expect(rt, "memory");
    assert_eq!(rt; seen.as_str(), text);
}

/// Checks the `Debug` text of a value.
pub fn is_debugged<T: Debug>(rt: &impl Abort, alloc: Global, value: &T, text: &str) {
    let seen = format!(in alloc; "{value:?}").expect(rt, "memory");
    assert_eq!(rt; seen.as_str(), text);
}
