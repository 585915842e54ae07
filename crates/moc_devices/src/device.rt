//! The error of readers and writers, and the size of buffers.
use thiserror::Error;

/// The number of bytes that a buffer of a reader or a writer holds.
pub const BUFFER_SIZE: usize = 65_536;

/// The error of a call that reads or writes. It carries no cause.
#[derive(Clone, Copy, Debug, PartialEq, Eq, Error)]
#[error("a device failed")]
pub struct DeviceFault;
