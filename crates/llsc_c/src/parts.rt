//! Threads that are split off, and taken in again.
ghost use Rattle.std.specs.Prelude.{◌≡◌, ◌≢◌, ◌⊎◌, Some, None};
ghost use Rattle.std.specs.Arc.{arc_value};
ghost use Rattle.memory_handle.specs.declared.handles.Handle.{Handle};
ghost use Rattle.llsc_c.specs.Answers.{join_answer, split_answer};
ghost use Rattle.llsc_c.specs.Threads.{Becomes, IsAsBefore, IsJoined, IsSplit};

use crate::answers::{APART, DONE, NO_MEMORY, NO_THREAD, THREAD_HERE, answer_to};
use crate::threads::{Thread, taken, thread_of};
use std::alloc::Global;

/// Splits the last of several threads off, which `last` holds from now on. None of them may have been taken in by [`llsc_join`],
/// since such a thread may have made an access.
///
/// The answer is [`THREAD_HERE`] where `last` holds a thread already, else [`NO_THREAD`] where `thread` holds none, else [`ONE`]
/// where it holds one alone, else [`USED`] where its threads may have made an access; [`NO_MEMORY`] where the heap gives none;
/// and else [`DONE`]. After [`NO_MEMORY`] `thread` holds the threads that it held, and they may be split as before.
///
/// [`ONE`]: crate::answers::ONE
/// [`USED`]: crate::answers::USED
#[unsafe(no_mangle)]
pub extern "C" fn llsc_split(alloc: Global, thread: &mut Thread, last: &mut Thread) -> u32
    ensures split { result ≡ DONE → IsSplit thread.old.held.handle thread.new.held.handle last.new.held.handle }
    ensures answer { let told = split_answer thread.old.held.handle last.old.held.handle in (result ≡ told) ⊎ ((told ≡ DONE) × (result ≡ NO_MEMORY)) }
    ensures free { result ≡ DONE → last.old.held.handle ≡ None }
    ensures last { result ≢ DONE → last.new.held.handle ≡ last.old.held.handle }
    ensures kept { result ≢ DONE → result ≢ NO_MEMORY → thread.new.held.handle ≡ thread.old.held.handle }
    ensures wanting { result ≡ NO_MEMORY → Becomes IsAsBefore thread.old.held.handle thread.new.held.handle }
{
    if let Some(handle) = taken(alloc, last) {
        *last = thread_of(handle);
        return THREAD_HERE;
    }
    let Some(mut handle) = taken(alloc, thread) else {
        return NO_THREAD;
    };
    let other = match handle.split() {
        Ok(other) => other,
        Err(misuse) => {
            *thread = thread_of(handle);
            return answer_to(misuse);
        }
    };
    match Box::new(alloc, other) {
        Ok(other) => {
            *last = thread_of(other);
            *thread = thread_of(handle);
            DONE
        }
        Err(failed) => {
            handle.put_back(failed.value);
            *thread = thread_of(handle);
            NO_MEMORY
        }
    }
}

/// Takes the threads of `next` in, which come next behind the last of `thread`. `next` holds none then.
///
/// Both are to be of one memory, which no test can see: that is what C promises by its call.
///
/// The answer is [`NO_THREAD`] where one of the two holds none, else [`APART`] where the threads of `next` aren't those that
/// come next; and else [`DONE`].
#[unsafe(no_mangle)]
pub extern "C" fn llsc_join(alloc: Global, thread: &mut Thread, next: &mut Thread) -> u32
    requires one_memory { (mine : Handle) → (yours : Handle) → thread.old.held.handle ≡ Some mine → next.old.held.handle ≡ Some yours
        → arc_value yours.memory ≡ arc_value mine.memory }
    ensures answer { result ≡ join_answer thread.old.held.handle next.old.held.handle }
    ensures joined { result ≡ DONE → IsJoined thread.old.held.handle next.old.held.handle thread.new.held.handle }
    ensures taken { result ≡ DONE → next.new.held.handle ≡ None }
    ensures kept { result ≢ DONE → (thread.new.held.handle ≡ thread.old.held.handle) × (next.new.held.handle ≡ next.old.held.handle) }
{
    let Some(mut handle) = taken(alloc, thread) else {
        return NO_THREAD;
    };
    let Some(other) = taken(alloc, next) else {
        *thread = thread_of(handle);
        return NO_THREAD;
    };
    if !handle.is_next(&other) {
        *thread = thread_of(handle);
        *next = thread_of(other);
        return APART;
    }
    handle.join(Box::into_inner(other));
    *thread = thread_of(handle);
    DONE
}
