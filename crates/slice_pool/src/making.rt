//! How a pool is made.
ghost use Rattle.std.specs.Prelude.{◌≡◌, ◌<◌, ◌≤◌, ◌+◌, ℕ, [], All, IfOk, nat_lt, vec_len};
ghost use Rattle.crossbeam_queue.specs.Passes.{ruled_capacity};
ghost use Rattle.history.specs.Parts.{entries_of};
ghost use Rattle.shared_memory.specs.Seen.{IsSingle};
ghost use Rattle.slice_pool.specs.AtWork.{IsFree};
ghost use Rattle.slice_pool.specs.Hands.{downto};
ghost use Rattle.slice_pool.specs.Pools.{IsFreshGuest, IsReadyPool};
ghost use Rattle.slice_pool.specs.Rule.{last_first};

use crate::crews::Desk;
use crate::pool::Pool;
use crate::queue::{Line, Waiting};
use guest_calls::Output;
use guest_core::Code;
use guest_thread::{Part, start_cpu};
use llsc_base::Image;
use shared_memory::SharedMemory;
use std::alloc::{AllocError, Global};

/// The guest of a thread, which begins by itself, at its start.
fn guest_of<M: SharedMemory>(
    alloc: Global,
    mem: &M,
    image: &Image,
    thread: u32,
    pass: M::Pass,
) -> Result<Waiting<M::Pass>, AllocError>
    requires memory { M.home pass ≡ M.id mem.now }
    requires single { IsSingle thread (M.numbers pass) }
    requires known { thread < (M.origin mem.now).size.threads }
    requires none { entries_of thread (M.seen pass) ≡ [] }
    ensures fresh { IfOk result (IsFreshGuest M.home M.numbers M.seen (M.id mem.now) (M.origin mem.now) image.now) }
    ensures thread { IfOk result (λ guest. guest.thread ≡ thread) }
{
    let size = mem.size();
    let cpu = start_cpu(image, &size, size.threads(), thread);
    let out = Output::new(alloc)?;
    Ok(Waiting {
        part: Part::new(cpu, pass, out),
        thread,
        turns: 0,
    })
}

/// The guests of all threads, in order of number.
fn guests_of<M: SharedMemory>(
    alloc: Global,
    mem: &M,
    image: &Image,
    mut first: M::Pass,
) -> Result<Vec<Waiting<M::Pass>>, AllocError>
    requires memory { M.home first ≡ M.id mem.now }
    requires numbers { (t : ℕ) → M.numbers first t ≡ nat_lt t (M.origin mem.now).size.threads }
    requires none { (t : ℕ) → entries_of t (M.seen first) ≡ [] }
    ensures fresh { IfOk result (λ guests. All (IsFreshGuest M.home M.numbers M.seen (M.id mem.now) (M.origin mem.now) image.now) guests.items) }
    ensures numbers { IfOk result (λ guests. last_first guests.items [] ≡ downto (M.origin mem.now).size.threads) }
{
    let size = mem.size();
    let last = size.threads() - 1;
    let mut guests = Vec::with_capacity(alloc, last as usize + 1)?;
    for t in 0..last {
        let pass = mem.split(&mut first, t);
        guests.push(guest_of(alloc, mem, image, t, pass)?)?;
    }
    guests.push(guest_of(alloc, mem, image, last, first)?)?;
    Ok(guests)
}

/// A worker that hasn't begun.
fn desk_of<'i, P: Drop>(
    alloc: Global,
    image: &'i Image,
    count: u32,
) -> Result<Desk<'i, P>, AllocError>
    ensures { IfOk result (IsFree image.now count) }
{
    let code = Code::new(alloc, image)?;
    let done = Vec::with_capacity(alloc, count as usize)?;
    Ok(Desk { code, done })
}

/// So many workers, none of which has begun.
fn desks_of<'i, P: Drop>(
    alloc: Global,
    image: &'i Image,
    workers: u32,
    count: u32,
) -> Result<Vec<Desk<'i, P>>, AllocError>
    ensures free { IfOk result (λ desks. All (IsFree image.now count) desks.items) }
    ensures len { IfOk result (λ desks. vec_len desks ≡ workers) }
{
    let mut desks = Vec::with_capacity(alloc, workers as usize)?;
    for _ in 0..workers {
        desks.push(desk_of(alloc, image, count)?)?;
    }
    Ok(desks)
}

/// The pool of all threads of a memory, each of which begins by itself, with one to four workers, and with all that they need of
/// memory, so that none is asked for while they run: the queue has room for every guest, and each worker for every guest's end. The
/// pass holds the numbers of all threads, none of which has made an access.
///
/// # Errors
///
/// `AllocError` is want of memory. Then the passes are gone, and the memory can't be closed.
pub fn pool_crew<'i, M: SharedMemory>(
    alloc: Global,
    mem: &M,
    image: &'i Image,
    first: M::Pass,
    workers: u32,
) -> Result<Pool<'i, M>, AllocError>
    requires memory { M.home first ≡ M.id mem.now }
    requires numbers { (t : ℕ) → M.numbers first t ≡ nat_lt t (M.origin mem.now).size.threads }
    requires begin { (M.origin mem.now).first ≡ (M.origin mem.now).size.threads }
    requires none { (t : ℕ) → entries_of t (M.seen first) ≡ [] }
    requires workers { (1 ≤ workers) × (workers ≤ 4) }
    ensures ready { IfOk result (IsReadyPool M.home M.numbers M.seen (M.id mem.now) (M.origin mem.now) image.now) }
    ensures workers { IfOk result (λ pool. vec_len pool.desks ≡ workers) }
    ensures places { IfOk result (λ pool. (M.origin mem.now).size.threads ≤ ruled_capacity pool.line) }
{
    let size = mem.size();
    let count = size.threads();
    let ends = Vec::with_capacity(alloc, count as usize)?;
    let turns = Vec::with_capacity(alloc, count as usize)?;
    let desks = desks_of(alloc, image, workers, count)?;
    let seats = Vec::with_capacity(alloc, workers as usize)?;
    let own = desk_of(alloc, image, count)?;
    let (line, seat) = Line::<M>::ruled(alloc, count as usize)?;
    let guests = guests_of(alloc, mem, image, first)?;
    Ok(Pool {
        line,
        seat,
        guests,
        desks,
        workers: seats,
        own,
        ends,
        turns,
    })
}
