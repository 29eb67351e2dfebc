//! What a worker does, and workers beside each other.
ghost use Rattle.std.specs.Prelude.{◌≡◌, ◌≤◌, length};
ghost use Rattle.llsc_base.specs.Limits.{most_budget};
ghost use Rattle.crossbeam_queue.specs.Passes.{view};
ghost use Rattle.slice_pool.specs.inner.Hands.{key_of};
ghost use Rattle.slice_pool.specs.inner.Over.{AreAllGone};
ghost use Rattle.slice_pool.specs.inner.AtWork.{IsWorker};

use crate::queue::{Line, Seat, Takes};
use crate::turns::{Gone, turns_of};
use a32_step::Kept;
use guest_core::Code;
use shared_memory::SharedMemory;
use std::sync::Wait;

/// A worker: its seat of the queue, its program, and the guests that have ended with it, with room for all of them.
#[derive(Drop)]
pub(crate) struct Worker<'i, P> {
    pub(crate) seat: Seat<P>,
    pub(crate) code: Code<'i, Kept>,
    pub(crate) done: Vec<Gone<P>>,
}

/// Runs guests, a slice at a time, until none waits.
pub(crate) fn work<M: SharedMemory, R: Wait>(
    rt: &R,
    mem: &M,
    line: &Line<M>,
    worker: &mut Worker<M::Pass>,
    slice: u64,
    budget: u64,
)
    requires begin { (M.origin mem.now).first ≡ (M.origin mem.now).size.threads }
    requires whole { length worker.old.code.program.bytes ≡ (M.origin mem.now).size.mem }
    requires slice { 1 ≤ slice }
    requires budget { budget ≤ most_budget }
    requires worker { IsWorker M.home M.numbers M.seen line.now (M.origin mem.now) (key_of (M.id mem.now) worker.old.code.program (M.origin mem.now).size slice budget) (view worker.old.seat).parts worker.old }
    ensures worker { IsWorker M.home M.numbers M.seen line.now (M.origin mem.now) (key_of (M.id mem.now) worker.old.code.program (M.origin mem.now).size slice budget) (view worker.old.seat).parts worker.new }
    ensures all { (view worker.old.seat).parts ≡ 8 → AreAllGone (M.origin mem.now).size.threads worker.new.done.items }
{
    for _ in rt.forever() {
        let Some(guest) = line.pop_as::<Takes<M>, R>(rt, &mut worker.seat) else {
            return;
        };
        if let Some(gone) = turns_of(
            rt,
            mem,
            &mut worker.code,
            line,
            &mut worker.seat,
            guest,
            slice,
            budget,
        ) {
            worker.done.push_reserved(gone);
        }
    }
    unreachable!()
}
