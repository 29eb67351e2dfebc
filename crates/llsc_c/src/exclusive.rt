//! Exclusive accesses.
ghost use Rattle.std.specs.Prelude.{◌≡◌, ◌≢◌, ◌≤◌, ◌<◌, ◌^◌};
ghost use Rattle.history.specs.Operation.{clear, entries_of_operation};
ghost use Rattle.memory_handle.specs.Accesses.{Adds, HasFailedEx, HasStoredEx};
ghost use Rattle.llsc_c.specs.Answers.{clear_answer, load_answer, store_answer};
ghost use Rattle.llsc_c.specs.Threads.{Becomes, MakesLoadEx};

use crate::answers::{DONE, NO_THREAD, answer_to};
use crate::threads::{Thread, taken, thread_of};
use std::alloc::Global;

/// A load-exclusive of `width` bytes at `addr`, low byte first, into `value`. The thread holds a reservation on the row from now
/// on, unless a write of another thread in the class of the row is in flight; then it holds none.
///
/// The answers are those of [`llsc_load`](crate::plain::llsc_load).
#[unsafe(no_mangle)]
#[inline(always)]
pub extern "C" fn llsc_load_ex(
    alloc: Global,
    thread: &mut Thread,
    addr: u64,
    width: u32,
    value: &mut u64,
) -> u32
    ensures loaded { result ≡ DONE → Becomes (MakesLoadEx addr width value.new) thread.old.held.handle thread.new.held.handle }
    ensures fits { result ≡ DONE → value.new < 256 ^ width }
    ensures answer { result ≡ load_answer thread.old.held.handle addr width }
    ensures kept { result ≢ DONE → thread.new.held.handle ≡ thread.old.held.handle }
    ensures value { result ≢ DONE → value.new ≡ value.old }
{
    let Some(mut handle) = taken(alloc, thread) else {
        return NO_THREAD;
    };
    match handle.load_ex(addr, width) {
        Ok((found, _)) => {
            *value = found;
            *thread = thread_of(handle);
            DONE
        }
        Err(misuse) => {
            *thread = thread_of(handle);
            answer_to(misuse)
        }
    }
}

/// [`llsc_load_ex`] of one byte.
#[unsafe(no_mangle)]
pub extern "C" fn llsc_load_ex1(
    alloc: Global,
    thread: &mut Thread,
    addr: u64,
    value: &mut u64,
) -> u32
    ensures loaded { result ≡ DONE → Becomes (MakesLoadEx addr 1 value.new) thread.old.held.handle thread.new.held.handle }
    ensures fits { result ≡ DONE → value.new < 256 ^ 1 }
    ensures answer { result ≡ load_answer thread.old.held.handle addr 1 }
    ensures kept { result ≢ DONE → thread.new.held.handle ≡ thread.old.held.handle }
    ensures value { result ≢ DONE → value.new ≡ value.old }
{
    llsc_load_ex(alloc, thread, addr, 1, value)
}

/// [`llsc_load_ex`] of two bytes.
#[unsafe(no_mangle)]
pub extern "C" fn llsc_load_ex2(
    alloc: Global,
    thread: &mut Thread,
    addr: u64,
    value: &mut u64,
) -> u32
    ensures loaded { result ≡ DONE → Becomes (MakesLoadEx addr 2 value.new) thread.old.held.handle thread.new.held.handle }
    ensures fits { result ≡ DONE → value.new < 256 ^ 2 }
    ensures answer { result ≡ load_answer thread.old.held.handle addr 2 }
    ensures kept { result ≢ DONE → thread.new.held.handle ≡ thread.old.held.handle }
    ensures value { result ≢ DONE → value.new ≡ value.old }
{
    llsc_load_ex(alloc, thread, addr, 2, value)
}

/// [`llsc_load_ex`] of four bytes.
#[unsafe(no_mangle)]
pub extern "C" fn llsc_load_ex4(
    alloc: Global,
    thread: &mut Thread,
    addr: u64,
    value: &mut u64,
) -> u32
    ensures loaded { result ≡ DONE → Becomes (MakesLoadEx addr 4 value.new) thread.old.held.handle thread.new.held.handle }
    ensures fits { result ≡ DONE → value.new < 256 ^ 4 }
    ensures answer { result ≡ load_answer thread.old.held.handle addr 4 }
    ensures kept { result ≢ DONE → thread.new.held.handle ≡ thread.old.held.handle }
    ensures value { result ≢ DONE → value.new ≡ value.old }
{
    llsc_load_ex(alloc, thread, addr, 4, value)
}

/// [`llsc_load_ex`] of eight bytes.
#[unsafe(no_mangle)]
pub extern "C" fn llsc_load_ex8(
    alloc: Global,
    thread: &mut Thread,
    addr: u64,
    value: &mut u64,
) -> u32
    ensures loaded { result ≡ DONE → Becomes (MakesLoadEx addr 8 value.new) thread.old.held.handle thread.new.held.handle }
    ensures fits { result ≡ DONE → value.new < 256 ^ 8 }
    ensures answer { result ≡ load_answer thread.old.held.handle addr 8 }
    ensures kept { result ≢ DONE → thread.new.held.handle ≡ thread.old.held.handle }
    ensures value { result ≢ DONE → value.new ≡ value.old }
{
    llsc_load_ex(alloc, thread, addr, 8, value)
}

/// A store-exclusive of `value`, which is below 256 to the `width`, into `width` bytes at `addr`, low byte first: `failed` is 0
/// where it has stored, and 1 where it has failed, and then nothing is stored. It stores exactly where the thread holds a
/// reservation on the row, no write of any thread has begun in the row's class since, and the class may take another. The thread
/// holds no reservation from now on.
///
/// The answers are those of [`llsc_load`](crate::plain::llsc_load), and [`VALUE`] where the others are right and `value` is not
/// below 256 to the `width`.
///
/// [`VALUE`]: crate::answers::VALUE
#[unsafe(no_mangle)]
#[inline(always)]
pub extern "C" fn llsc_store_ex(
    alloc: Global,
    thread: &mut Thread,
    addr: u64,
    width: u32,
    value: u64,
    failed: &mut u32,
) -> u32
    ensures stored { result ≡ DONE → failed.new ≡ 0 → Becomes (HasStoredEx addr width value) thread.old.held.handle thread.new.held.handle }
    ensures failed { result ≡ DONE → failed.new ≢ 0 → Becomes (HasFailedEx addr width value) thread.old.held.handle thread.new.held.handle }
    ensures flag { result ≡ DONE → failed.new ≤ 1 }
    ensures answer { result ≡ store_answer thread.old.held.handle addr width value }
    ensures kept { result ≢ DONE → thread.new.held.handle ≡ thread.old.held.handle }
    ensures unfailed { result ≢ DONE → failed.new ≡ failed.old }
{
    let Some(mut handle) = taken(alloc, thread) else {
        return NO_THREAD;
    };
    match handle.store_ex(addr, width, value) {
        Ok(done) => {
            *failed = u32::from(!done);
            *thread = thread_of(handle);
            DONE
        }
        Err(misuse) => {
            *thread = thread_of(handle);
            answer_to(misuse)
        }
    }
}

/// [`llsc_store_ex`] of one byte.
#[unsafe(no_mangle)]
pub extern "C" fn llsc_store_ex1(
    alloc: Global,
    thread: &mut Thread,
    addr: u64,
    value: u64,
    failed: &mut u32,
) -> u32
    ensures stored { result ≡ DONE → failed.new ≡ 0 → Becomes (HasStoredEx addr 1 value) thread.old.held.handle thread.new.held.handle }
    ensures failed { result ≡ DONE → failed.new ≢ 0 → Becomes (HasFailedEx addr 1 value) thread.old.held.handle thread.new.held.handle }
    ensures flag { result ≡ DONE → failed.new ≤ 1 }
    ensures answer { result ≡ store_answer thread.old.held.handle addr 1 value }
    ensures kept { result ≢ DONE → thread.new.held.handle ≡ thread.old.held.handle }
    ensures unfailed { result ≢ DONE → failed.new ≡ failed.old }
{
    llsc_store_ex(alloc, thread, addr, 1, value, failed)
}

/// [`llsc_store_ex`] of two bytes.
#[unsafe(no_mangle)]
pub extern "C" fn llsc_store_ex2(
    alloc: Global,
    thread: &mut Thread,
    addr: u64,
    value: u64,
    failed: &mut u32,
) -> u32
    ensures stored { result ≡ DONE → failed.new ≡ 0 → Becomes (HasStoredEx addr 2 value) thread.old.held.handle thread.new.held.handle }
    ensures failed { result ≡ DONE → failed.new ≢ 0 → Becomes (HasFailedEx addr 2 value) thread.old.held.handle thread.new.held.handle }
    ensures flag { result ≡ DONE → failed.new ≤ 1 }
    ensures answer { result ≡ store_answer thread.old.held.handle addr 2 value }
    ensures kept { result ≢ DONE → thread.new.held.handle ≡ thread.old.held.handle }
    ensures unfailed { result ≢ DONE → failed.new ≡ failed.old }
{
    llsc_store_ex(alloc, thread, addr, 2, value, failed)
}

/// [`llsc_store_ex`] of four bytes.
#[unsafe(no_mangle)]
pub extern "C" fn llsc_store_ex4(
    alloc: Global,
    thread: &mut Thread,
    addr: u64,
    value: u64,
    failed: &mut u32,
) -> u32
    ensures stored { result ≡ DONE → failed.new ≡ 0 → Becomes (HasStoredEx addr 4 value) thread.old.held.handle thread.new.held.handle }
    ensures failed { result ≡ DONE → failed.new ≢ 0 → Becomes (HasFailedEx addr 4 value) thread.old.held.handle thread.new.held.handle }
    ensures flag { result ≡ DONE → failed.new ≤ 1 }
    ensures answer { result ≡ store_answer thread.old.held.handle addr 4 value }
    ensures kept { result ≢ DONE → thread.new.held.handle ≡ thread.old.held.handle }
    ensures unfailed { result ≢ DONE → failed.new ≡ failed.old }
{
    llsc_store_ex(alloc, thread, addr, 4, value, failed)
}

/// [`llsc_store_ex`] of eight bytes.
#[unsafe(no_mangle)]
pub extern "C" fn llsc_store_ex8(
    alloc: Global,
    thread: &mut Thread,
    addr: u64,
    value: u64,
    failed: &mut u32,
) -> u32
    ensures stored { result ≡ DONE → failed.new ≡ 0 → Becomes (HasStoredEx addr 8 value) thread.old.held.handle thread.new.held.handle }
    ensures failed { result ≡ DONE → failed.new ≢ 0 → Becomes (HasFailedEx addr 8 value) thread.old.held.handle thread.new.held.handle }
    ensures flag { result ≡ DONE → failed.new ≤ 1 }
    ensures answer { result ≡ store_answer thread.old.held.handle addr 8 value }
    ensures kept { result ≢ DONE → thread.new.held.handle ≡ thread.old.held.handle }
    ensures unfailed { result ≢ DONE → failed.new ≡ failed.old }
{
    llsc_store_ex(alloc, thread, addr, 8, value, failed)
}

/// CLREX: the thread holds no reservation then.
///
/// The answer is [`NO_THREAD`] where `thread` holds none, else [`SEVERAL`] where it holds several; and else [`DONE`].
///
/// [`SEVERAL`]: crate::answers::SEVERAL
#[unsafe(no_mangle)]
pub extern "C" fn llsc_clear_ex(alloc: Global, thread: &mut Thread) -> u32
    ensures cleared { result ≡ DONE → Becomes (λ old new. Adds (entries_of_operation old.first clear) old new) thread.old.held.handle thread.new.held.handle }
    ensures answer { result ≡ clear_answer thread.old.held.handle }
    ensures kept { result ≢ DONE → thread.new.held.handle ≡ thread.old.held.handle }
{
    let Some(mut handle) = taken(alloc, thread) else {
        return NO_THREAD;
    };
    match handle.clear_ex() {
        Ok(()) => {
            *thread = thread_of(handle);
            DONE
        }
        Err(misuse) => {
            *thread = thread_of(handle);
            answer_to(misuse)
        }
    }
}
