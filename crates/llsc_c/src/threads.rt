//! What C has of guest threads.
ghost use Rattle.std.specs.Prelude.{◌≡◌, ◌≢◌, Some, None, MatchOption};

use crate::held::Held;
use memory_handle::Handle;
use std::alloc::Global;
use std::mem;

/// A guest thread, or several that weren't split yet, as C has them: `{ uint64_t live; void *at; }`. All zeros is none.
///
/// C promises that such a struct begins as zeros, that only the calls of this library write it, that it is moved and not copied,
/// that one call at a time has it, and that it goes to another host thread by what orders memory.
#[repr(C)]
#[derive(Drop)]
pub struct Thread {
    /// 1 where there is a handle.
    live: u64,
    /// The handle.
    pub held: Held,
    ghost some: { live ≡ 1 → held.handle ≢ None },
    ghost none: { live ≢ 1 → held.handle ≡ None },
}

/// The thread, or the threads, of this handle.
#[inline]
pub fn thread_of(handle: Box<Handle, Global>) -> Thread
    ensures { result.held.handle ≡ Some handle.value }
{
    sendable(Thread {
        live: 1,
        held: Held::of(handle),
    })
}

/// Takes the handle out of a thread, which has none then.
#[inline]
pub fn taken(alloc: Global, thread: &mut Thread) -> Option<Box<Handle, Global>>
    ensures handle { MatchOption result (thread.old.held.handle ≡ None) (λ handle. thread.old.held.handle ≡ Some handle.value) }
    ensures left { thread.new.held.handle ≡ None }
{
    let Thread { live, held } = mem::replace(
        thread,
        Thread {
            live: 0,
            held: Held::none(),
        },
    );
    if live != 1 {
        return None;
    }
    Some(held.into_box(alloc))
}

/// What may go to another thread: C may pass a struct so only where this is proved of it.
#[inline]
fn sendable<T: Send>(value: T) -> T
    ensures { result ≡ value }
{
    value
}
