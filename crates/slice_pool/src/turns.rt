//! The slices of one guest.
ghost use Rattle.std.specs.Prelude.{◌≡◌, ◌≤◌, ◌∷◌, ℕ, List, IfNone, IfSome, drop, length};
ghost use Rattle.llsc_base.specs.Limits.{most_budget};
ghost use Rattle.crossbeam_queue.specs.Passes.{view, IsPassOf};
ghost use Rattle.slice_pool.specs.Hands.{hand};
ghost use Rattle.slice_pool.specs.inner.Hands.{key_of, IsSeated};
ghost use Rattle.slice_pool.specs.inner.Rule.{IsGuestUnderWay};
ghost use Rattle.slice_pool.specs.inner.Over.{HasTurned, IsGoneFrom, IsUpto};

use crate::queue::{Line, Puts, Seat, Waiting};
use a32_step::Kept;
use guest_core::Code;
use guest_family::go_on;
use guest_thread::{Finished, GuestEnd, Paused};
use shared_memory::SharedMemory;
use std::sync::Wait;

/// A guest that has ended: its pass, how it ended, and in how many slices.
#[derive(Drop)]
pub struct Gone<P> {
    pub pass: P,
    pub end: GuestEnd,
    pub turns: u64,
}

/// What came of a guest's slice.
pub(crate) enum Turned<P> {
    /// It has ended.
    Over(Gone<P>),
    /// It waits for its next.
    Waits(Waiting<P>),
}

/// Up to how many steps a guest's next slice goes that has made so many: as far as the slice, and no further than the budget.
fn slice_end(steps: u64, slice: u64, budget: u64) -> u64
    requires { steps ≤ budget }
    ensures { IsUpto slice budget steps result }
{
    if slice < budget - steps {
        return steps + slice;
    }
    budget
}

/// Runs a guest's next slice.
fn turn<M: SharedMemory, R: Wait>(
    rt: &R,
    mem: &M,
    code: &mut Code<Kept>,
    guest: Waiting<M::Pass>,
    slice: u64,
    budget: u64,
) -> Turned<M::Pass>
    requires begin { (M.origin mem.now).first ≡ (M.origin mem.now).size.threads }
    requires whole { length code.old.program.bytes ≡ (M.origin mem.now).size.mem }
    requires slice { 1 ≤ slice }
    requires budget { budget ≤ most_budget }
    requires guest { IsGuestUnderWay M.home M.numbers M.seen (key_of (M.id mem.now) code.old.program (M.origin mem.now).size slice budget) guest }
    ensures program { code.new.program ≡ code.old.program }
    ensures turned { HasTurned M.home M.numbers M.seen (M.origin mem.now) (key_of (M.id mem.now) code.old.program (M.origin mem.now).size slice budget) guest result }
{
    let Waiting {
        part,
        thread,
        turns,
    } = guest;
    let upto = slice_end(part.steps, slice, budget);
    let turns = turns + 1;
    match go_on(rt, mem, code, part, upto, budget, false) {
        Paused::Ended(done) => {
            let Finished { pass, end } = done;
            Turned::Over(Gone { pass, end, turns })
        }
        Paused::Start { .. } => unreachable!(),
        Paused::Pause(part) => Turned::Waits(Waiting {
            part,
            thread,
            turns,
        }),
    }
}

/// Runs a guest's slices until it ends, or the queue takes it. Where the queue has no room it goes on at once.
pub(crate) fn turns_of<M: SharedMemory, R: Wait>(
    rt: &R,
    mem: &M,
    code: &mut Code<Kept>,
    line: &Line<M>,
    seat: &mut Seat<M::Pass>,
    mut guest: Waiting<M::Pass>,
    slice: u64,
    budget: u64,
) -> Option<Gone<M::Pass>>
    requires begin { (M.origin mem.now).first ≡ (M.origin mem.now).size.threads }
    requires whole { length code.old.program.bytes ≡ (M.origin mem.now).size.mem }
    requires slice { 1 ≤ slice }
    requires budget { budget ≤ most_budget }
    requires guest { IsGuestUnderWay M.home M.numbers M.seen (key_of (M.id mem.now) code.old.program (M.origin mem.now).size slice budget) guest }
    requires queue { IsPassOf line.now seat.old }
    requires seat { IsSeated (key_of (M.id mem.now) code.old.program (M.origin mem.now).size slice budget) (view seat.old) }
    requires held { (rest : List ℕ) × ((view seat.old).held ≡ guest.thread ∷ rest) }
    ensures program { code.new.program ≡ code.old.program }
    ensures queue { IsPassOf line.now seat.new }
    ensures back { IfNone result (view seat.new ≡ hand (view seat.old).parts (drop 1 (view seat.old).held) (view seat.old).key) }
    ensures gone { IfSome result (IsGoneFrom M.home M.numbers M.seen (M.origin mem.now) (key_of (M.id mem.now) code.old.program (M.origin mem.now).size slice budget) guest.thread) }
    ensures kept { IfSome result (λ _. view seat.new ≡ view seat.old) }
{
    for _ in rt.forever() {
        match turn(rt, mem, code, guest, slice, budget) {
            Turned::Over(gone) => return Some(gone),
            Turned::Waits(next) => match line.push_as::<Puts, R>(rt, seat, next) {
                Ok(()) => return None,
                Err(back) => guest = back,
            },
        }
    }
    unreachable!()
}
