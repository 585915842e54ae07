//! The call that creates a client handle.
ghost use Rattle.std.specs.Borrow.{sem};
ghost use Rattle.std.specs.Ptr.{room_at};
ghost use Rattle.moc_c.specs.contracts.client_handle.ClientHandle.{the_row};
ghost use Rattle.moc_c.specs.OpenedHandle.{handle_or_memory};

use crate::client_handle::ClientHandle;
use std::alloc::Global;

/// Creates an empty client handle at the address. Returns false if an allocation fails.
#[unsafe(no_mangle)]
pub unsafe extern "C" fn moc_client_open(alloc: Global, out: *mut ClientHandle) -> bool
    requires* { sem 𝓛 (room_at the_row out) }
    ensures* { sem 𝓛 (handle_or_memory result out) }
{
    match ClientHandle::empty(alloc) {
        Ok(made) => {
            out.write(made);
            true
        }
        Err(_) => false,
    }
}
