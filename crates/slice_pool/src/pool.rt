//! A pool: its guests at their start, its queue, and its workers; and all of them run.
ghost use Rattle.std.specs.Prelude.{true, ◌^◌, ◌≡◌, ◌<◌, ◌≤◌, ℕ, [], All, length, vec_len, vec_capacity};
ghost use Rattle.llsc_base.specs.Limits.{most_budget};
ghost use Rattle.crossbeam_queue.specs.Passes.{view, IsPassOf};
ghost use Rattle.slice_pool.specs.Hands.{downto, hand, no_key};
ghost use Rattle.slice_pool.specs.inner.Hands.{key_of};
ghost use Rattle.slice_pool.specs.Rule.{last_first};
ghost use Rattle.slice_pool.specs.inner.Over.{AreAllGone, IsGone};
ghost use Rattle.slice_pool.specs.AtWork.{IsFree};
ghost use Rattle.slice_pool.specs.Pools.{IsFreshGuest, IsReadyPool};
ghost use Rattle.shared_memory.specs.Origin.{IsLegalFrom};
ghost use Rattle.shared_memory.specs.Seen.{IsOneOf};
ghost use Rattle.guest_thread.specs.Counting.{accesses_counted, counts_in};
ghost use Rattle.guest_thread.specs.Outcome.{AreEndsOn};
ghost use Rattle.guest_thread.specs.declared.ends.GuestEnd.{GuestEnd};
ghost use Rattle.slice_pool.specs.Ends.{AreTurnsOfEach};
ghost use Rattle.a32_step.specs.Machine.{a32};

use crate::crews::{Desk, gather_all, put_all, run_workers, sit_down};
use crate::ends::{Pooled, in_order};
use crate::queue::{Begin, Knows, Line, Seat, Waiting};
use crate::turns::Gone;
use crate::working::{Worker, work};
use guest_thread::GuestEnd;
use llsc_base::{Image, Stop};
use shared_memory::SharedMemory;
use std::marker::Brand;
use std::sync::Wait;
use std::thread::Threads;

/// The guests of a pool at their start, its queue with the one seat that there is, what its workers are to run with and what the
/// caller is, and room for how all guests end.
#[derive(Drop)]
pub struct Pool<'i, M: SharedMemory> {
    pub(crate) line: Line<M>,
    pub(crate) seat: Seat<M::Pass>,
    pub(crate) guests: Vec<Waiting<M::Pass>>,
    pub(crate) desks: Vec<Desk<'i, M::Pass>>,
    pub(crate) workers: Vec<Worker<'i, M::Pass>>,
    pub(crate) own: Desk<'i, M::Pass>,
    pub(crate) ends: Vec<GuestEnd>,
    pub(crate) turns: Vec<u64>,
}

/// Runs all guests: workers beside each other, and then what still waits.
fn run_guests<'i, K: Knows + Send + Sync, M: SharedMemory, R: Threads + Wait + Sync>(
    rt: &R,
    mem: &M,
    image: &Image,
    line: &Line<M>,
    mut seat: Seat<M::Pass>,
    guests: Vec<Waiting<M::Pass>>,
    desks: Vec<Desk<'i, M::Pass>>,
    workers: Vec<Worker<'i, M::Pass>>,
    own: Desk<'i, M::Pass>,
    slice: u64,
    budget: u64,
) -> Vec<Gone<M::Pass>>
    requires key { K.key ≡ key_of (M.id mem.now) image.now (M.origin mem.now).size slice budget }
    requires begin { (M.origin mem.now).first ≡ (M.origin mem.now).size.threads }
    requires whole { length image.now.bytes ≡ (M.origin mem.now).size.mem }
    requires slice { 1 ≤ slice }
    requires budget { budget ≤ most_budget }
    requires queue { IsPassOf line.now seat }
    requires seat { view seat ≡ hand 8 [] no_key }
    requires guests { All (IsFreshGuest M.home M.numbers M.seen (M.id mem.now) (M.origin mem.now) image.now) guests.items }
    requires numbers { last_first guests.items [] ≡ downto (M.origin mem.now).size.threads }
    requires desks { All (IsFree image.now (M.origin mem.now).size.threads) desks.items × (vec_len desks ≤ 4) }
    requires empty { (workers.items ≡ []) × (vec_len workers ≡ 0) }
    requires room { vec_len desks ≤ vec_capacity workers }
    requires own { IsFree image.now (M.origin mem.now).size.threads own }
    ensures gone { All (IsGone M.home M.numbers M.seen (M.origin mem.now) (key_of (M.id mem.now) image.now (M.origin mem.now).size slice budget)) result.items }
    ensures all { AreAllGone (M.origin mem.now).size.threads result.items }
{
    let _ = line.another::<Begin<K>>(&mut seat);
    put_all(rt, line, &mut seat, guests);
    let Desk { code, done } = own;
    let mut ours = Worker { seat, code, done };
    let mut workers = sit_down(mem, image, line, &mut ours, desks, workers, slice, budget);
    run_workers(rt, mem, image, line, &mut workers, slice, budget);
    gather_all(mem, image, line, &mut ours, workers, slice, budget);
    work(rt, mem, line, &mut ours, slice, budget);
    let Worker {
        seat: _,
        code: _,
        done,
    } = ours;
    done
}

/// Runs all guests of a pool up to their stops, a slice of so many steps at a time, which is at least one, and gives how each ended,
/// in order of number, with a pass of all of their numbers. Memory has as many bytes as the image. The budget is at most
/// 1,000,000,000,000 steps for each. No memory is taken from the allocator.
///
/// What they did is in what the pass has seen of the history, which is legal: a guest's accesses there are those of its run, with its
/// end. Each slice of a guest but its last has all of its steps, and in the last it stops.
pub fn run_pool<M: SharedMemory, R: Threads + Wait + Sync>(
    rt: &R,
    mem: &M,
    image: &Image,
    pool: Pool<M>,
    slice: u64,
    budget: u64,
) -> Pooled<M::Pass>
    requires pool { IsReadyPool M.home M.numbers M.seen (M.id mem.now) (M.origin mem.now) image.now pool }
    requires whole { length image.now.bytes ≡ (M.origin mem.now).size.mem }
    requires slice { 1 ≤ slice }
    requires budget { budget ≤ most_budget }
    ensures ends { AreEndsOn a32 image.now (M.origin mem.now).size budget (M.seen result.pass) result.ends.items }
    ensures turns { AreTurnsOfEach slice result.ends.items result.turns.items }
    ensures spends { All (λ (end : GuestEnd). (addr : ℕ) → end.stop ≡ Stop.TagLimit addr → (M.origin mem.now).spends ≡ true) result.ends.items }
    ensures few { All (λ (end : GuestEnd). accesses_counted (counts_in end) < 2 ^ 45) result.ends.items }
    ensures numbers { (t : ℕ) → t < (M.origin mem.now).size.threads → IsOneOf t (M.numbers result.pass) }
    ensures legal { IsLegalFrom (M.origin mem.now) (M.seen result.pass) }
    ensures memory { M.home result.pass ≡ M.id mem.now }
{
    let Pool {
        line,
        seat,
        guests,
        desks,
        workers,
        own,
        ends,
        turns,
    } = pool;
    let done = run_guests::<Brand, M, R>(
        rt, mem, image, &line, seat, guests, desks, workers, own, slice, budget,
    );
    let mut pooled = in_order(mem, image, done, ends, turns, slice, budget);
    mem.vouch(&mut pooled.pass);
    pooled
}
