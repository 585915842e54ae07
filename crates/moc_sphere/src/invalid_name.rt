//! The error of names.
use thiserror::Error;

/// The error for a text or a number that does not name a value of the type.
#[derive(Clone, Copy, Debug, PartialEq, Eq, Error)]
#[error("expected {expected}")]
pub struct InvalidName {
    /// The names that are accepted, in words, such as `a number from 0 to 29`.
    pub expected: &'static str,
}
