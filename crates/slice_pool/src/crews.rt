//! Workers beside each other.
ghost use Rattle.std.specs.Prelude.{◌≡◌, ◌≤◌, ◌+◌, ◌-◌, [], All, length, vec_len, vec_capacity};
ghost use Rattle.llsc_base.specs.Limits.{most_budget};
ghost use Rattle.crossbeam_queue.specs.Passes.{view, IsPassOf};
ghost use Rattle.slice_pool.specs.Hands.{hand};
ghost use Rattle.slice_pool.specs.inner.Hands.{key_of};
ghost use Rattle.slice_pool.specs.Rule.{last_first};
ghost use Rattle.slice_pool.specs.inner.Rule.{IsGuestUnderWay};
ghost use Rattle.slice_pool.specs.AtWork.{IsFree};
ghost use Rattle.slice_pool.specs.inner.AtWork.{IsWorker};

use crate::queue::{Cut, Few, Line, Puts, Seat, Waiting};
use crate::turns::Gone;
use crate::working::{Worker, work};
use a32_step::Kept;
use guest_core::Code;
use llsc_base::Image;
use shared_memory::SharedMemory;
use std::sync::Wait;
use std::thread::{Threads, for_each_mut};

/// The most workers of a pool.
pub(crate) const MOST_WORKERS: usize = 4;

/// What a worker brings with it: its program, and room for all guests that may end with it.
#[derive(Drop)]
pub(crate) struct Desk<'i, P> {
    pub(crate) code: Code<'i, Kept>,
    pub(crate) done: Vec<Gone<P>>,
}

/// Each worker takes a seat at the queue.
pub(crate) fn sit_down<'i, M: SharedMemory>(
    mem: &M,
    image: &Image,
    line: &Line<M>,
    ours: &mut Worker<'i, M::Pass>,
    mut desks: Vec<Desk<'i, M::Pass>>,
    mut workers: Vec<Worker<'i, M::Pass>>,
    slice: u64,
    budget: u64,
) -> Vec<Worker<'i, M::Pass>>
    requires ours { IsWorker M.home M.numbers M.seen line.now (M.origin mem.now) (key_of (M.id mem.now) image.now (M.origin mem.now).size slice budget) 8 ours.old }
    requires desks { All (IsFree image.now (M.origin mem.now).size.threads) desks.items × (vec_len desks ≤ 4) }
    requires empty { (workers.items ≡ []) × (vec_len workers ≡ 0) }
    requires room { vec_len desks ≤ vec_capacity workers }
    ensures ours { IsWorker M.home M.numbers M.seen line.now (M.origin mem.now) (key_of (M.id mem.now) image.now (M.origin mem.now).size slice budget) (8 - vec_len result) ours.new }
    ensures workers { All (IsWorker M.home M.numbers M.seen line.now (M.origin mem.now) (key_of (M.id mem.now) image.now (M.origin mem.now).size slice budget) 1) result.items }
    ensures few { vec_len result ≤ 4 }
{
    while let Some(desk) = desks.pop() {
        let seat = line.another::<Cut>(&mut ours.seat);
        let Desk { code, done } = desk;
        workers.push_reserved(Worker { seat, code, done });
    }
    workers
}

/// Takes in what another worker did.
fn gather<'i, M: SharedMemory>(
    mem: &M,
    image: &Image,
    line: &Line<M>,
    ours: &mut Worker<'i, M::Pass>,
    other: Worker<'i, M::Pass>,
    slice: u64,
    budget: u64,
)
    requires ours { IsWorker M.home M.numbers M.seen line.now (M.origin mem.now) (key_of (M.id mem.now) image.now (M.origin mem.now).size slice budget) (view ours.old.seat).parts ours.old }
    requires yours { IsWorker M.home M.numbers M.seen line.now (M.origin mem.now) (key_of (M.id mem.now) image.now (M.origin mem.now).size slice budget) 1 other }
    ensures ours { IsWorker M.home M.numbers M.seen line.now (M.origin mem.now) (key_of (M.id mem.now) image.now (M.origin mem.now).size slice budget) ((view ours.old.seat).parts + 1) ours.new }
{
    let Worker {
        seat,
        code: _,
        mut done,
    } = other;
    line.absorb::<Cut>(&mut ours.seat, seat);
    line.learn_as::<Few>(&mut ours.seat);
    let Ok(()) = ours.done.append(&mut done) else {
        unreachable!()
    };
}

/// Takes in what all of them did.
pub(crate) fn gather_all<'i, M: SharedMemory>(
    mem: &M,
    image: &Image,
    line: &Line<M>,
    ours: &mut Worker<'i, M::Pass>,
    mut workers: Vec<Worker<'i, M::Pass>>,
    slice: u64,
    budget: u64,
)
    requires ours { IsWorker M.home M.numbers M.seen line.now (M.origin mem.now) (key_of (M.id mem.now) image.now (M.origin mem.now).size slice budget) (8 - vec_len workers) ours.old }
    requires workers { All (IsWorker M.home M.numbers M.seen line.now (M.origin mem.now) (key_of (M.id mem.now) image.now (M.origin mem.now).size slice budget) 1) workers.items }
    requires few { vec_len workers ≤ 4 }
    ensures ours { IsWorker M.home M.numbers M.seen line.now (M.origin mem.now) (key_of (M.id mem.now) image.now (M.origin mem.now).size slice budget) 8 ours.new }
{
    while let Some(other) = workers.pop() {
        gather(mem, image, line, ours, other, slice, budget);
    }
}

/// Runs workers beside each other, each on a host thread, until none of them finds a guest that waits.
pub(crate) fn run_workers<'i, M: SharedMemory, R: Threads + Wait + Sync>(
    rt: &R,
    mem: &M,
    image: &Image,
    line: &Line<M>,
    workers: &mut Vec<Worker<'i, M::Pass>>,
    slice: u64,
    budget: u64,
)
    requires begin { (M.origin mem.now).first ≡ (M.origin mem.now).size.threads }
    requires whole { length image.now.bytes ≡ (M.origin mem.now).size.mem }
    requires slice { 1 ≤ slice }
    requires budget { budget ≤ most_budget }
    requires workers { All (IsWorker M.home M.numbers M.seen line.now (M.origin mem.now) (key_of (M.id mem.now) image.now (M.origin mem.now).size slice budget) 1) workers.old.items }
    ensures workers { All (IsWorker M.home M.numbers M.seen line.now (M.origin mem.now) (key_of (M.id mem.now) image.now (M.origin mem.now).size slice budget) 1) workers.new.items }
    ensures len { vec_len workers.new ≡ vec_len workers.old }
{
    let works = |_index: usize, worker: &mut Worker<M::Pass>|
        requires { ((M.origin mem.now).first ≡ (M.origin mem.now).size.threads) × (length image.now.bytes ≡ (M.origin mem.now).size.mem) × (1 ≤ slice) × (budget ≤ most_budget)
            × IsWorker M.home M.numbers M.seen line.now (M.origin mem.now) (key_of (M.id mem.now) image.now (M.origin mem.now).size slice budget) 1 worker.now }
        ensures { IsWorker M.home M.numbers M.seen line.entry.now (M.origin mem.entry.now) (key_of (M.id mem.entry.now) image.entry.now (M.origin mem.entry.now).size slice budget) 1 worker.exit.now }
    { work_on(rt, mem, image, line, worker, slice, budget) };
    for_each_mut(rt, workers.as_mut_slice(), MOST_WORKERS, &works);
}

/// Works at a program that is the image.
fn work_on<M: SharedMemory, R: Wait>(
    rt: &R,
    mem: &M,
    image: &Image,
    line: &Line<M>,
    worker: &mut Worker<M::Pass>,
    slice: u64,
    budget: u64,
)
    requires begin { (M.origin mem.now).first ≡ (M.origin mem.now).size.threads }
    requires whole { length image.now.bytes ≡ (M.origin mem.now).size.mem }
    requires slice { 1 ≤ slice }
    requires budget { budget ≤ most_budget }
    requires worker { IsWorker M.home M.numbers M.seen line.now (M.origin mem.now) (key_of (M.id mem.now) image.now (M.origin mem.now).size slice budget) 1 worker.old }
    ensures worker { IsWorker M.home M.numbers M.seen line.now (M.origin mem.now) (key_of (M.id mem.now) image.now (M.origin mem.now).size slice budget) 1 worker.new }
{
    work(rt, mem, line, worker, slice, budget)
}

/// Puts all guests into the queue, the last of them first. Where it has no room the guest stays here, and is tried again.
pub(crate) fn put_all<M: SharedMemory, R: Wait>(
    rt: &R,
    line: &Line<M>,
    seat: &mut Seat<M::Pass>,
    mut guests: Vec<Waiting<M::Pass>>,
)
    requires queue { IsPassOf line.now seat.old }
    requires some_part { 1 ≤ (view seat.old).parts }
    requires held { (view seat.old).held ≡ last_first guests.items [] }
    requires guests { All (IsGuestUnderWay M.home M.numbers M.seen (view seat.old).key) guests.items }
    ensures queue { IsPassOf line.now seat.new }
    ensures put { view seat.new ≡ hand (view seat.old).parts [] (view seat.old).key }
{
    for _ in rt.forever() {
        let Some(guest) = guests.pop() else {
            return;
        };
        if let Err(back) = line.push_as::<Puts, R>(rt, seat, guest) {
            guests.push_reserved(back);
        }
    }
    unreachable!()
}
