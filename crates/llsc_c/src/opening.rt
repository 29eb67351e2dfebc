//! A memory that is opened, and threads that end.
ghost use Rattle.std.specs.Prelude.{◌≡◌, ◌≢◌, ◌↔◌, ◌⊎◌, None, length};
ghost use Rattle.llsc_base.specs.Sizes.{numbers, size_fault};
ghost use Rattle.llsc_c.specs.Answers.{close_answer, end_answer, open_answer};
ghost use Rattle.llsc_c.specs.Threads.{IsClosed, IsOpened};

use crate::answers::{DONE, GRANULE, LENGTH, NO_MEMORY, NO_THREAD, NOT_ALL, SIZE, THREAD_HERE};
use crate::threads::{Thread, taken, thread_of};
use llsc_base::MachineSize;
use memory_handle::Handle;
use std::alloc::Global;

/// Makes a memory of these bytes, and all of its threads, which `thread` holds from now on.
///
/// `bytes` are 65,536 to 16,777,216 in steps of 4096; `threads` is 1 to 16; `classes`, into which the rows of memory fall, is a
/// power of two from 1 to 4096; `limit`, how many writes a class takes, is 1 to 4,611,686,018,427,387,904 (2 to the 62); and
/// `granule` is 0 to 8: a row, which a reservation is on, has 8 * 2^granule bytes.
///
/// The answer is [`SIZE`] where one of the first four is out of its range, else [`GRANULE`] where the last is, else
/// [`THREAD_HERE`] where `thread` holds threads already; [`NO_MEMORY`] where the heap gives none; and else [`DONE`].
#[unsafe(no_mangle)]
pub extern "C" fn llsc_open(
    alloc: Global,
    thread: &mut Thread,
    bytes: &[u8],
    threads: u64,
    classes: u64,
    limit: u64,
    granule: u64,
) -> u32
    ensures opened { result ≡ DONE → IsOpened
        (record { mem = length bytes.now; threads = threads; classes = classes; limit = limit; granule = granule })
        bytes.now thread.new.held.handle }
    ensures answer { let told = open_answer (size_fault (numbers (length bytes.now) threads classes limit)) granule thread.old.held.handle in
        (result ≡ told) ⊎ ((told ≡ DONE) × (result ≡ NO_MEMORY)) }
    ensures kept { result ≢ DONE → thread.new.held.handle ≡ thread.old.held.handle }
    ensures free { result ≡ DONE → thread.old.held.handle ≡ None }
{
    let Ok(size) = MachineSize::new(bytes.len() as u64, threads, classes, limit) else {
        return SIZE;
    };
    let Ok(size) = size.with_granule(granule) else {
        return GRANULE;
    };
    if let Some(handle) = taken(alloc, thread) {
        *thread = thread_of(handle);
        return THREAD_HERE;
    }
    let Ok(handle) = Handle::open(alloc, bytes, &size) else {
        return NO_MEMORY;
    };
    let Ok(handle) = Box::new(alloc, handle) else {
        return NO_MEMORY;
    };
    *thread = thread_of(handle);
    DONE
}

/// Closes the memory whose threads `thread` holds all, and writes its bytes as they are left. `thread` holds none then.
///
/// The answer is [`NO_THREAD`] where `thread` holds none, else [`NOT_ALL`] where it doesn't hold all threads of its memory, else
/// [`LENGTH`] where `bytes` aren't as many as memory has; and else [`DONE`].
#[unsafe(no_mangle)]
pub extern "C" fn llsc_close(alloc: Global, thread: &mut Thread, bytes: &mut [u8]) -> u32
    ensures answer { result ≡ close_answer thread.old.held.handle (length bytes.old) }
    ensures closed { result ≡ DONE → IsClosed thread.old.held.handle bytes.new }
    ensures none { result ≡ DONE → thread.new.held.handle ≡ None }
    ensures kept { result ≢ DONE → thread.new.held.handle ≡ thread.old.held.handle }
    ensures bytes { result ≢ DONE → bytes.new ≡ bytes.old }
{
    let Some(handle) = taken(alloc, thread) else {
        return NO_THREAD;
    };
    if !handle.has_all() {
        *thread = thread_of(handle);
        return NOT_ALL;
    }
    if bytes.len() != handle.mem() as usize {
        *thread = thread_of(handle);
        return LENGTH;
    }
    Box::into_inner(handle).close(bytes);
    DONE
}

/// Ends the threads that `thread` holds, wherever they are. `thread` holds none then. The memory is there as long as any of its
/// threads is.
///
/// The answer is [`NO_THREAD`] where `thread` held none, and else [`DONE`].
#[unsafe(no_mangle)]
pub extern "C" fn llsc_end(alloc: Global, thread: &mut Thread) -> u32
    ensures ended { thread.new.held.handle ≡ None }
    ensures answer { result ≡ end_answer thread.old.held.handle }
    ensures held { result ≡ DONE ↔ thread.old.held.handle ≢ None }
{
    let Some(handle) = taken(alloc, thread) else {
        return NO_THREAD;
    };
    drop(handle);
    DONE
}
