//! Plain accesses.
ghost use Rattle.std.specs.Prelude.{◌≡◌, ◌≢◌, ◌⊎◌, ◌<◌, ◌^◌};
ghost use Rattle.history.specs.Operation.{load};
ghost use Rattle.memory_handle.specs.Accesses.{HasFoundSpent, HasMetWrite, HasStored, Makes};
ghost use Rattle.llsc_c.specs.Answers.{load_answer, store_answer};
ghost use Rattle.llsc_c.specs.Threads.{Becomes};
ghost use Rattle.llsc_c.specs.declared.answers.TheConstants.{BUSY, SPENT};

use crate::answers::{DONE, NO_THREAD, answer_to};
use crate::threads::{Thread, taken, thread_of};
use std::alloc::Global;

/// A load of `width` bytes at `addr`, low byte first, into `value`.
///
/// The answer is [`NO_THREAD`] where `thread` holds none, else [`SEVERAL`] where it holds several, else [`WIDTH`] where `width`
/// is none of 1, 2, 4 and 8, else [`OUTSIDE`] where the place ends outside of memory, else [`UNALIGNED`] where `addr` is no
/// multiple of `width`; and else [`DONE`].
///
/// [`OUTSIDE`]: crate::answers::OUTSIDE
/// [`SEVERAL`]: crate::answers::SEVERAL
/// [`UNALIGNED`]: crate::answers::UNALIGNED
/// [`WIDTH`]: crate::answers::WIDTH
#[unsafe(no_mangle)]
#[inline(always)]
pub extern "C" fn llsc_load(
    alloc: Global,
    thread: &mut Thread,
    addr: u64,
    width: u32,
    value: &mut u64,
) -> u32
    ensures loaded { result ≡ DONE → Becomes (Makes addr width (λ place. load place value.new)) thread.old.held.handle thread.new.held.handle }
    ensures fits { result ≡ DONE → value.new < 256 ^ width }
    ensures answer { result ≡ load_answer thread.old.held.handle addr width }
    ensures kept { result ≢ DONE → thread.new.held.handle ≡ thread.old.held.handle }
    ensures value { result ≢ DONE → value.new ≡ value.old }
{
    let Some(mut handle) = taken(alloc, thread) else {
        return NO_THREAD;
    };
    match handle.load(addr, width) {
        Ok(found) => {
            *value = found;
            *thread = thread_of(handle);
            DONE
        }
        Err(misuse) => {
            *thread = thread_of(handle);
            answer_to(misuse)
        }
    }
}

/// [`llsc_load`] of one byte.
#[unsafe(no_mangle)]
pub extern "C" fn llsc_load1(alloc: Global, thread: &mut Thread, addr: u64, value: &mut u64) -> u32
    ensures loaded { result ≡ DONE → Becomes (Makes addr 1 (λ place. load place value.new)) thread.old.held.handle thread.new.held.handle }
    ensures fits { result ≡ DONE → value.new < 256 ^ 1 }
    ensures answer { result ≡ load_answer thread.old.held.handle addr 1 }
    ensures kept { result ≢ DONE → thread.new.held.handle ≡ thread.old.held.handle }
    ensures value { result ≢ DONE → value.new ≡ value.old }
{
    llsc_load(alloc, thread, addr, 1, value)
}

/// [`llsc_load`] of two bytes.
#[unsafe(no_mangle)]
pub extern "C" fn llsc_load2(alloc: Global, thread: &mut Thread, addr: u64, value: &mut u64) -> u32
    ensures loaded { result ≡ DONE → Becomes (Makes addr 2 (λ place. load place value.new)) thread.old.held.handle thread.new.held.handle }
    ensures fits { result ≡ DONE → value.new < 256 ^ 2 }
    ensures answer { result ≡ load_answer thread.old.held.handle addr 2 }
    ensures kept { result ≢ DONE → thread.new.held.handle ≡ thread.old.held.handle }
    ensures value { result ≢ DONE → value.new ≡ value.old }
{
    llsc_load(alloc, thread, addr, 2, value)
}

/// [`llsc_load`] of four bytes.
#[unsafe(no_mangle)]
pub extern "C" fn llsc_load4(alloc: Global, thread: &mut Thread, addr: u64, value: &mut u64) -> u32
    ensures loaded { result ≡ DONE → Becomes (Makes addr 4 (λ place. load place value.new)) thread.old.held.handle thread.new.held.handle }
    ensures fits { result ≡ DONE → value.new < 256 ^ 4 }
    ensures answer { result ≡ load_answer thread.old.held.handle addr 4 }
    ensures kept { result ≢ DONE → thread.new.held.handle ≡ thread.old.held.handle }
    ensures value { result ≢ DONE → value.new ≡ value.old }
{
    llsc_load(alloc, thread, addr, 4, value)
}

/// [`llsc_load`] of eight bytes.
#[unsafe(no_mangle)]
pub extern "C" fn llsc_load8(alloc: Global, thread: &mut Thread, addr: u64, value: &mut u64) -> u32
    ensures loaded { result ≡ DONE → Becomes (Makes addr 8 (λ place. load place value.new)) thread.old.held.handle thread.new.held.handle }
    ensures fits { result ≡ DONE → value.new < 256 ^ 8 }
    ensures answer { result ≡ load_answer thread.old.held.handle addr 8 }
    ensures kept { result ≢ DONE → thread.new.held.handle ≡ thread.old.held.handle }
    ensures value { result ≢ DONE → value.new ≡ value.old }
{
    llsc_load(alloc, thread, addr, 8, value)
}

/// A store of `value`, which is below 256 to the `width`, into `width` bytes at `addr`, low byte first. It is tried once and waits
/// for nobody.
///
/// The answer is one of [`llsc_load`]'s; or [`VALUE`] where the others are right and `value` is not below 256 to the `width`; or
/// [`BUSY`] where a write of another thread in the class of the place was in flight, or began first, and the call may be made
/// again; or [`SPENT`] where the class has had as many writes as the limit says. Nothing is stored but by [`DONE`].
///
/// [`BUSY`]: crate::answers::BUSY
/// [`SPENT`]: crate::answers::SPENT
/// [`VALUE`]: crate::answers::VALUE
#[unsafe(no_mangle)]
#[inline(always)]
pub extern "C" fn llsc_store_now(
    alloc: Global,
    thread: &mut Thread,
    addr: u64,
    width: u32,
    value: u64,
) -> u32
    ensures stored { result ≡ DONE → Becomes (HasStored addr width value) thread.old.held.handle thread.new.held.handle }
    ensures answer { let told = store_answer thread.old.held.handle addr width value in
        (result ≡ told) ⊎ ((told ≡ DONE) × ((result ≡ BUSY) ⊎ (result ≡ SPENT))) }
    ensures busy { result ≡ BUSY → Becomes (HasMetWrite addr width) thread.old.held.handle thread.new.held.handle }
    ensures spent { result ≡ SPENT → Becomes (HasFoundSpent addr width) thread.old.held.handle thread.new.held.handle }
    ensures kept { result ≢ DONE → result ≢ BUSY → result ≢ SPENT → thread.new.held.handle ≡ thread.old.held.handle }
{
    let Some(mut handle) = taken(alloc, thread) else {
        return NO_THREAD;
    };
    match handle.store(addr, width, value) {
        Ok(()) => {
            *thread = thread_of(handle);
            DONE
        }
        Err(misuse) => {
            *thread = thread_of(handle);
            answer_to(misuse)
        }
    }
}

/// [`llsc_store_now`] of one byte.
#[unsafe(no_mangle)]
pub extern "C" fn llsc_store_now1(alloc: Global, thread: &mut Thread, addr: u64, value: u64) -> u32
    ensures stored { result ≡ DONE → Becomes (HasStored addr 1 value) thread.old.held.handle thread.new.held.handle }
    ensures answer { let told = store_answer thread.old.held.handle addr 1 value in (result ≡ told) ⊎ ((told ≡ DONE) × ((result ≡ BUSY) ⊎ (result ≡ SPENT))) }
    ensures busy { result ≡ BUSY → Becomes (HasMetWrite addr 1) thread.old.held.handle thread.new.held.handle }
    ensures spent { result ≡ SPENT → Becomes (HasFoundSpent addr 1) thread.old.held.handle thread.new.held.handle }
    ensures kept { result ≢ DONE → result ≢ BUSY → result ≢ SPENT → thread.new.held.handle ≡ thread.old.held.handle }
{
    llsc_store_now(alloc, thread, addr, 1, value)
}

/// [`llsc_store_now`] of two bytes.
#[unsafe(no_mangle)]
pub extern "C" fn llsc_store_now2(alloc: Global, thread: &mut Thread, addr: u64, value: u64) -> u32
    ensures stored { result ≡ DONE → Becomes (HasStored addr 2 value) thread.old.held.handle thread.new.held.handle }
    ensures answer { let told = store_answer thread.old.held.handle addr 2 value in (result ≡ told) ⊎ ((told ≡ DONE) × ((result ≡ BUSY) ⊎ (result ≡ SPENT))) }
    ensures busy { result ≡ BUSY → Becomes (HasMetWrite addr 2) thread.old.held.handle thread.new.held.handle }
    ensures spent { result ≡ SPENT → Becomes (HasFoundSpent addr 2) thread.old.held.handle thread.new.held.handle }
    ensures kept { result ≢ DONE → result ≢ BUSY → result ≢ SPENT → thread.new.held.handle ≡ thread.old.held.handle }
{
    llsc_store_now(alloc, thread, addr, 2, value)
}

/// [`llsc_store_now`] of four bytes.
#[unsafe(no_mangle)]
pub extern "C" fn llsc_store_now4(alloc: Global, thread: &mut Thread, addr: u64, value: u64) -> u32
    ensures stored { result ≡ DONE → Becomes (HasStored addr 4 value) thread.old.held.handle thread.new.held.handle }
    ensures answer { let told = store_answer thread.old.held.handle addr 4 value in (result ≡ told) ⊎ ((told ≡ DONE) × ((result ≡ BUSY) ⊎ (result ≡ SPENT))) }
    ensures busy { result ≡ BUSY → Becomes (HasMetWrite addr 4) thread.old.held.handle thread.new.held.handle }
    ensures spent { result ≡ SPENT → Becomes (HasFoundSpent addr 4) thread.old.held.handle thread.new.held.handle }
    ensures kept { result ≢ DONE → result ≢ BUSY → result ≢ SPENT → thread.new.held.handle ≡ thread.old.held.handle }
{
    llsc_store_now(alloc, thread, addr, 4, value)
}

/// [`llsc_store_now`] of eight bytes.
#[unsafe(no_mangle)]
pub extern "C" fn llsc_store_now8(alloc: Global, thread: &mut Thread, addr: u64, value: u64) -> u32
    ensures stored { result ≡ DONE → Becomes (HasStored addr 8 value) thread.old.held.handle thread.new.held.handle }
    ensures answer { let told = store_answer thread.old.held.handle addr 8 value in (result ≡ told) ⊎ ((told ≡ DONE) × ((result ≡ BUSY) ⊎ (result ≡ SPENT))) }
    ensures busy { result ≡ BUSY → Becomes (HasMetWrite addr 8) thread.old.held.handle thread.new.held.handle }
    ensures spent { result ≡ SPENT → Becomes (HasFoundSpent addr 8) thread.old.held.handle thread.new.held.handle }
    ensures kept { result ≢ DONE → result ≢ BUSY → result ≢ SPENT → thread.new.held.handle ≡ thread.old.held.handle }
{
    llsc_store_now(alloc, thread, addr, 8, value)
}
