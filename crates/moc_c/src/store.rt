//! The store of coverages that C holds.
ghost use Rattle.std.specs.Prelude.{◌≡◌, IfOk};
ghost use Rattle.std.specs.Borrow.{sem};
ghost use Rattle.moc_c.specs.Contents.{empty_store, Contents};
ghost use Rattle.moc_c.specs.Private.Storing.{contents_code};
ghost use Rattle.moc_c.specs.Private.Store.{store_owns};

use crate::box_parts::{BoxParts, sendable};
use crate::table::CoverageTable;
use std::alloc::{AllocError, Global};
use std::marker::{Model, Send};

/// A store: an owning pointer to its table of coverages.
#[repr(C)]
pub struct Store {
    ptr: *mut u8,
    alloc: Global,
    pub ghost contents: { Contents } by { contents_code },
}

impl Model for Store {
    ghost also_owns = { λ d. store_owns d.alloc d.ptr d.contents };
}

impl Store {
    ghost use Rattle.moc_c.specs.Private.Lending.{LendsTable};

    /// Returns an empty store. Fails if an allocation fails.
    pub(crate) fn create(alloc: Global) -> Result<Store, AllocError>
        ensures { IfOk result (λ d. d.contents ≡ empty_store) }
    {
        Ok(Store::of_parts(BoxParts::of(Box::new(alloc, CoverageTable::new(alloc))?)))
    }

    fn of_parts(parts: BoxParts<CoverageTable, Global>) -> Store
        ensures { result.contents ≡ parts.value }
    {
        let BoxParts { ptr, alloc } = parts;
        Store {
            ptr: ptr as *mut u8,
            alloc,
        }
    }

    fn into_parts(self) -> BoxParts<CoverageTable, Global>
        ensures { result.value ≡ self.contents }
    {
        let Store { ptr, alloc } = self;
        BoxParts {
            ptr: ptr as *mut CoverageTable,
            alloc,
        }
    }

    /// Returns the table of coverages.
    pub(crate) fn table(&mut self) -> &mut CoverageTable
        ensures* writes_back { sem 𝓛 (LendsTable self.entry result) }
        ensures value { result.now ≡ self.old.contents }
    {
        unsafe { &mut *(self.ptr as *mut CoverageTable) }
    }
}

impl Drop for Store {
    fn drop(self) {
        drop(self.into_parts().into_box());
    }
}

// A type with a raw pointer is not `Send` by default. This one owns what it points to, as a `Box<CoverageTable>` does,
// and no other pointer leads there. A `CoverageTable` is `Send`, and so is the allocator that frees it. All of this is
// proved.
unsafe impl Send for Store {}

/// Frees a store with all coverages in it.
#[unsafe(no_mangle)]
pub extern "C" fn moc_store_close(store: Store) {
    drop(store);
}

/// A store may be sent to another thread.
pub(crate) fn stores_are_sendable(store: &Store) {
    sendable(store);
}
