//! Sources that may be read only in some states.
ghost use Rattle.std.specs.Prelude.{◌≡◌, ◌≤◌, ◌||◌, Bool, ⊤, IfOk, is_err, length};
ghost use Rattle.moc_devices.specs.Devices.{SourceState, Reads, found_end};

use crate::device::DeviceFault;
use crate::source::Source;

/// A source that may be read only if a sink permits it.
///
/// Code that is generic over this trait can read only in states in which it proves the permission. For example, a
/// source may deliver more only after the replies to the bytes so far are in the sink, and would block before. Every
/// [`Source`] is a `GuardedSource` that may always be read.
pub trait GuardedSource<W> {
    /// The bytes that its reads have delivered, whether the last read found the end, and, if the source reports them,
    /// the bytes that are still to come.
    ghost reading: { Self → SourceState };

    /// Whether one of the source's calls has failed.
    ghost mark: { Self → Bool };

    /// Whether the source may be read now, as its state and the state of the sink permit.
    ghost may_read: { Self → W → Type 0 };

    /// Reads as [`Source::read`] does, in a state that permits it. Takes the sink by shared reference.
    fn read_after(&mut self, sink: &W, buffer: &mut [u8]) -> Result<usize, DeviceFault>
        requires permission { may_read self.old sink.now }
        ensures count { IfOk result (λ n. n ≤ length buffer.new) }
        ensures bytes { Reads (reading self.old) (reading self.new) result buffer.new }
        ensures ended { (reading self.new).ended ≡ found_end result buffer.new }
        ensures marks { mark self.new ≡ (mark self.old || is_err result) };
}

impl<R: Source, W> GuardedSource<W> for R {
    ghost reading = { R.reading };

    ghost mark = { R.mark };

    ghost may_read = { λ _ _. ⊤ };

    fn read_after(&mut self, _sink: &W, buffer: &mut [u8]) -> Result<usize, DeviceFault> {
        self.read(buffer)
    }
}
