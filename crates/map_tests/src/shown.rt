//! `Display` and `Debug` of errors and values.
use std::alloc::Global;
use std::fmt::{Debug, Display};
use std::process::Abort;

/// Checks the text of an error.
pub fn is_shown<E: Display>(rt: &impl Abort, alloc: Global, error: &E, text: &str) {
    let shown = error.to_string(alloc).expect(rt, "memory");
    assert_eq!(rt; shown.as_str(), text);
}

/// Checks the `Debug` text of a value.
pub fn is_debugged<T: Debug>(rt: &impl Abort, alloc: Global, value: &T, text: &str) {
    let shown = format!(in alloc; "{value:?}").expect(rt, "memory");
    assert_eq!(rt; shown.as_str(), text);
}
