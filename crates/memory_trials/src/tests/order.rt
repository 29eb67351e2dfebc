//! The accesses of threads, as they logged them, are laid into one order.
//!
//! Each value is written once, so that it says which write a load read, and a store-exclusive that succeeded says by the value
//! that its load-exclusive read which write to its place comes before it. In the order each thread's accesses stand as it made
//! them, a load stands behind the write that it read, and a write behind the one before it to its place and behind each load
//! that read that one. A load-exclusive whose store-exclusive succeeded is laid at once with it, and with what its thread loaded
//! of its own place between the two. As the order grows, Arm's memory and monitors (`PlainMemory`) make each access again, and
//! are to answer what was logged: the value of each load, and that each store-exclusive which succeeded has its mark, so that
//! nobody wrote in the row since the load-exclusive. In the end memory is to have the cells that the closed one has.
ghost use Rattle.std.specs.Prelude.{◌≡◌, length};
ghost use Rattle.memory_trials.specs.inner.Tried.{IsFor};

use super::accesses::may;
use super::logged::{own_place, place_of};
use history::{Access, Deed, PlainMemory};
use llsc_base::Place;
use row_bytes::take;
use shared_memory::Rows;

/// What becomes of the accesses that a thread has left.
#[derive(Clone, Copy)]
enum Step {
    /// So many more of them are laid.
    Laid(usize),
    /// They come behind accesses of others that aren't laid yet.
    Waits,
    /// Memory doesn't answer what was logged.
    Differs,
}

/// Whether an access is a load.
fn reads(access: &Access) -> bool {
    match access.deed {
        Deed::Load | Deed::LoadEx => true,
        Deed::Store | Deed::StoreEx | Deed::StoreFail | Deed::Clear => false,
    }
}

/// Whether an access writes.
fn writes(access: &Access) -> bool {
    match access.deed {
        Deed::Store | Deed::StoreEx => true,
        Deed::Load | Deed::LoadEx | Deed::StoreFail | Deed::Clear => false,
    }
}

/// So many words there are in the rows that threads access.
pub(super) const FIRST_VALUES: usize = 32;

/// Where it is kept how many loads of a value of a place are still to be laid: the first values have these words, by their
/// places, and each written value one.
fn slot_of(place: Place, value: u64) -> usize {
    if value == 0 {
        return (place.addr % 128 / 4) as usize;
    }
    (FIRST_VALUES - 1).wrapping_add(value as usize)
}

/// How many loads of a value of a place are still to be laid.
fn unread_of(unread: &[u32], place: Place, value: u64) -> u32 {
    match unread.get(slot_of(place, value)) {
        Some(count) => *count,
        None => 0,
    }
}

/// Counts the loads of a log.
pub(super) fn count_loads(unread: &mut [u32], log: &[Access]) {
    for access in log {
        if !reads(access) {
            continue;
        }
        if let Some(count) = unread.get_mut(slot_of(access.place, access.value)) {
            *count = count.wrapping_add(1);
        }
    }
}

/// How many of the accesses that are left are laid at once: a load-exclusive with its store-exclusive that succeeded, where
/// between the two there are loads of the thread's own place alone, and elsewhere one.
fn laid_at_once(left: &[Access]) -> usize {
    let mut count = 0usize;
    let mut watched = Place::NOWHERE;
    for access in left {
        count = count.wrapping_add(1);
        match access.deed {
            Deed::LoadEx if count == 1 => watched = access.place,
            Deed::Load if access.place == own_place(access.thread) => {}
            Deed::StoreEx if access.place == watched => return count,
            _ => return 1,
        }
    }
    1
}

/// Whether Arm's memory answers an access as it was logged.
fn is_made_again(plain: &mut PlainMemory, threads: u32, access: Access) -> bool
    requires { IsFor threads plain.old }
    ensures { IsFor threads plain.new }
{
    if access.thread >= threads || !may(access.place, access.value) {
        return false;
    }
    plain.make(access) == access
}

/// The value of a place.
fn value_of(plain: &PlainMemory, place: Place) -> u64
    requires { length plain.now.memory ≡ 65536 }
{
    if !may(place, 0) {
        return 0;
    }
    plain.load(place)
}

/// Whether accesses that are laid at once come next, by the first and the last of them.
fn come_next(plain: &PlainMemory, unread: &[u32], first: &Access, last: &Access) -> bool
    requires { length plain.now.memory ≡ 65536 }
{
    if reads(first) && value_of(plain, first.place) != first.value {
        return false;
    }
    if !writes(last) {
        return true;
    }
    // A load-exclusive that is laid with the write reads what this one writes over.
    let own = if reads(first) { 1 } else { 0 };
    unread_of(unread, last.place, value_of(plain, last.place)) == own
}

/// Lays accesses, and gives whether Arm's memory answers what was logged.
fn are_made_again(
    plain: &mut PlainMemory,
    threads: u32,
    unread: &mut [u32],
    accesses: &[Access],
) -> bool
    requires { IsFor threads plain.old }
    ensures { IsFor threads plain.new }
{
    for access in accesses {
        if !is_made_again(plain, threads, *access) {
            return false;
        }
        if !reads(access) {
            continue;
        }
        if let Some(count) = unread.get_mut(slot_of(access.place, access.value)) {
            *count = count.wrapping_sub(1);
        }
    }
    true
}

/// Lays the next accesses of a thread, where they come next.
fn lay(plain: &mut PlainMemory, threads: u32, unread: &mut [u32], left: &[Access]) -> Step
    requires { IsFor threads plain.old }
    ensures { IsFor threads plain.new }
{
    let count = laid_at_once(left);
    if count == 0 || count > left.len() {
        return Step::Waits;
    }
    if !come_next(plain, unread, &left[0], &left[count - 1]) {
        return Step::Waits;
    }
    if !are_made_again(plain, threads, unread, &left[..count]) {
        return Step::Differs;
    }
    Step::Laid(count)
}

/// Lays the next accesses of each thread that come next, and gives whether there were some: none where memory doesn't answer
/// what was logged.
fn lay_round(
    plain: &mut PlainMemory,
    threads: u32,
    unread: &mut [u32],
    logs: &mut [&[Access]],
) -> Option<bool>
    requires { IsFor threads plain.old }
    ensures { IsFor threads plain.new }
{
    let mut moved = false;
    for left in logs.iter_mut() {
        match lay(plain, threads, unread, *left) {
            Step::Laid(count) if count <= left.len() => {
                *left = &left[count..];
                moved = true;
            }
            Step::Differs => return None,
            _ => {}
        }
    }
    Some(moved)
}

/// Whether all accesses of these logs, so many at most, are laid into one order.
pub(super) fn are_laid(
    plain: &mut PlainMemory,
    threads: u32,
    unread: &mut [u32],
    logs: &mut [&[Access]],
    most: usize,
) -> bool
    requires { IsFor threads plain.old }
    ensures { IsFor threads plain.new }
{
    for _ in 0..most {
        match lay_round(plain, threads, unread, logs) {
            Some(true) => {}
            Some(false) | None => break,
        }
    }
    logs.iter().all(|left| left.is_empty())
}

/// Whether each place has in memory as it is left the value that the order gives it.
pub(super) fn ends_so(plain: &PlainMemory, rows: &Rows) -> bool
    requires { length plain.now.memory ≡ 65536 }
{
    for k in 0..24u32 {
        let place = place_of(k / 6, k % 6);
        if place.cell() >= rows.count() || !place.is_aligned() {
            return false;
        }
        if take(rows.row(place.cell()), place) != value_of(plain, place) {
            return false;
        }
    }
    true
}
