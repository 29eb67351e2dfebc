//! A box, as C holds it: by its pointer alone.
ghost use Rattle.std.specs.Prelude.{◌≡◌, ◌≢◌, Option, Some, None};
ghost use Rattle.memory_handle.specs.declared.handles.Handle.{Handle};
ghost use Rattle.llsc_c.specs.inner.Holds.{holds};

use loose_box::Loose;
use memory_handle::Handle;
use std::alloc::Global;
use std::marker::Model;
use std::ptr;

/// The pointer of a handle's box, which stays on the heap; or no handle, and a pointer that says nothing.
///
/// It can't be read from the pointer whether there is a handle: who has a `Held` knows it by something else. To drop one forgets
/// the box: so this is done only where there is none.
#[repr(C)]
#[derive(Drop)]
pub struct Held {
    at: *mut u8,
    /// The handle.
    pub ghost handle: { Option Handle },
}

impl Model for Held {
    ghost also_owns = { λ i. holds i.at i.handle };
}

// A handle may go to another thread with all that it owns, and so may its box.
unsafe impl Send for Held {}

impl Held {
    /// No handle.
    #[inline]
    pub fn none() -> Held
        ensures { result.handle ≡ None }
    {
        Held {
            at: ptr::null_mut(),
        }
    }

    /// A handle's box.
    #[inline]
    pub fn of(handle: Box<Handle, Global>) -> Held
        ensures { result.handle ≡ Some handle.value }
    {
        Held::of_loose(Loose::of(handle))
    }

    /// The handle's box.
    #[inline]
    pub fn into_box(self, alloc: Global) -> Box<Handle, Global>
        requires { self.handle ≢ None }
        ensures { self.handle ≡ Some result.value }
    {
        self.into_loose(alloc).into_box()
    }

    /// What is left of a loose box without its allocator, of which there is one alone.
    #[inline]
    fn of_loose(handle: Loose<Handle, Global>) -> Held
        ensures { result.handle ≡ Some handle.value }
    {
        let Loose { at, alloc: _ } = handle;
        Held { at: at as *mut u8 }
    }

    /// The loose box again.
    #[inline]
    fn into_loose(self, alloc: Global) -> Loose<Handle, Global>
        requires { self.handle ≢ None }
        ensures { self.handle ≡ Some result.value }
    {
        let Held { at } = self;
        Loose {
            at: at as *mut Handle,
            alloc,
        }
    }
}
