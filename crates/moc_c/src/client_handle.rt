//! The handle of a thread of C: a client of a map that other threads change and query at the same time.
ghost use Rattle.std.specs.Prelude.{◌≡◌, IfOk};
ghost use Rattle.std.specs.Borrow.{sem};
ghost use Rattle.moc_c.specs.Sharing.{no_client};
ghost use Rattle.moc_c.specs.Private.ClientHandle.{handle_owns};
ghost use Rattle.moc_c.specs.contracts.client_state.ClientState as client_state_row;
ghost use Rattle.moc_c.specs.declared.client_state.ClientState.{ClientState as ClientStateValue};

use crate::box_parts::{BoxParts, sendable};
use crate::client_state::ClientState;
use std::alloc::{AllocError, Global};
use std::marker::{Model, Send};

/// A client handle: an owning pointer to its state.
#[repr(C)]
pub struct ClientHandle {
    ptr: *mut u8,
    alloc: Global,
    pub ghost contents: { ClientStateValue } by { client_state_row.the_row.coded },
}

impl Model for ClientHandle {
    ghost also_owns = { λ s. handle_owns s.alloc s.ptr s.contents };
}

impl ClientHandle {
    ghost use Rattle.moc_c.specs.Private.StateLending.{LendsState};

    /// Returns a handle without a client. Fails if an allocation fails.
    pub(crate) fn empty(alloc: Global) -> Result<ClientHandle, AllocError>
        ensures { IfOk result (λ s. s.contents ≡ no_client) }
    {
        Ok(ClientHandle::of_parts(BoxParts::of(Box::new(alloc, ClientState::no_client())?)))
    }

    fn of_parts(parts: BoxParts<ClientState, Global>) -> ClientHandle
        ensures { result.contents ≡ parts.value }
    {
        let BoxParts { ptr, alloc } = parts;
        ClientHandle {
            ptr: ptr as *mut u8,
            alloc,
        }
    }

    fn into_parts(self) -> BoxParts<ClientState, Global>
        ensures { result.value ≡ self.contents }
    {
        let ClientHandle { ptr, alloc } = self;
        BoxParts {
            ptr: ptr as *mut ClientState,
            alloc,
        }
    }

    /// Returns the state of the handle.
    pub(crate) fn client_state(&mut self) -> &mut ClientState
        ensures* writes_back { sem 𝓛 (LendsState self.entry result) }
        ensures value { result.now ≡ self.old.contents }
    {
        unsafe { &mut *(self.ptr as *mut ClientState) }
    }
}

impl Drop for ClientHandle {
    fn drop(self) {
        drop(self.into_parts().into_box());
    }
}

// A type with a raw pointer is not `Send` by default. This one owns what it points to, as a `Box<ClientState>` does,
// and no other pointer leads there. A `ClientState` is `Send`, and so is the allocator that frees it. All of this is
// proved.
unsafe impl Send for ClientHandle {}

/// Frees a handle. Its client makes no further call. The map exists until the last handle of its clients is freed.
#[unsafe(no_mangle)]
pub extern "C" fn moc_client_close(client_handle: ClientHandle) {
    drop(client_handle);
}

/// A handle may be sent to another thread.
pub(crate) fn handles_are_sendable(client_handle: &ClientHandle) {
    sendable(client_handle);
}
