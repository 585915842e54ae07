//! Readers and writers that remember a failure, with ghost logs of the bytes that they delivered and accepted.
#![tactic(auto)]

mod device;
mod guarded_source;
mod log;
mod sink;
mod source;

pub use device::{BUFFER_SIZE, DeviceFault};
pub use guarded_source::GuardedSource;
pub use log::Log;
pub use sink::{OverWriter, Sink, write_all, write_pending};
pub use source::{OverReader, Source};
