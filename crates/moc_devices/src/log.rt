//! A ghost log of bytes: only proofs read it. It takes no memory, and its methods do nothing at run time.
ghost use Rattle.std.specs.Prelude.{◌≡◌, ℕ, List, [], ◌++◌};
ghost use Rattle.std.specs.Borrow.{ftrue};

use std::marker::{Model, PhantomData, Send};

/// The bytes that a device has delivered or accepted so far, in order.
#[derive(Drop)]
pub struct Log {
    marker: PhantomData<u8>,
    pub ghost bytes: { List ℕ },
}

impl Model for Log {
    ghost also_owns = { λ _. ftrue };
}

// A log owns nothing.
unsafe impl Send for Log {}

impl Log {
    /// Returns an empty log.
    pub fn new() -> Log
        ensures { result.bytes ≡ [] }
    {
        Log {
            marker: PhantomData,
        }
    }

    /// Appends these bytes.
    #[inline(always)]
    pub fn note(&mut self, _bytes: &[u8])
        ensures { self.new.bytes ≡ self.old.bytes ++ _bytes.now }
    {}
}
