//! A thread goes on to its end, or to a call that starts another.
ghost use Rattle.std.specs.Prelude.{◌≡◌, ◌<◌, ◌≤◌, ◌^◌, ℕ, length};
ghost use Rattle.llsc_base.specs.Limits.{most_budget};
ghost use Rattle.history.specs.Starts.{starts_in};
ghost use Rattle.shared_memory.specs.Seen.{IsSingle};
ghost use Rattle.a32_step.specs.Machine.{Machine};
ghost use Rattle.guest_core.specs.Machine.{IsCalling};
ghost use Rattle.guest_thread.specs.Begun.{stock_of};
ghost use Rattle.guest_family.specs.inner.Next.{HasNoneLeft, IsAligned, IsNext, after_answer, refusal_of};
ghost use Rattle.guest_family.specs.inner.UnderWay.{HasReachedEnd, IsPartUnderWay};

use crate::pieces::go_on;
use a32_step::{Cpu, Kept};
use guest_core::Code;
use guest_thread::{Finished, Part, Paused};
use shared_memory::StartMemory;
use std::sync::Wait;

/// The answer where a thread is to be started at an address that is no multiple of 4: minus 22, EINVAL.
const BAD_ENTRY: u32 = 0xffff_ffea;

/// The answer where a thread may start none more: minus 11, EAGAIN.
const NONE_LEFT: u32 = 0xffff_fff5;

/// What a thread comes to.
pub(crate) enum Next<P> {
    /// It has ended.
    Ended(Finished<P>),
    /// It calls for a thread to be started, at an address and with an argument.
    Calls {
        part: Part<P, Cpu>,
        entry: u32,
        arg: u32,
    },
}

/// Goes on with a thread until it has ended or calls for another to be started.
pub(crate) fn to_next<M: StartMemory, R: Wait>(
    rt: &R,
    mem: &M,
    code: &mut Code<Kept>,
    part: Part<M::Pass, Cpu>,
    budget: u64,
) -> Next<M::Pass>
    requires whole { length code.old.program.bytes ≡ (M.origin mem.now).size.mem }
    requires budget { budget ≤ most_budget }
    requires goes { (t : ℕ) × (start : Machine) × IsPartUnderWay M.home M.numbers M.seen (M.id mem.now) (M.origin mem.now) code.old.program budget t start part }
    ensures program { code.new.program ≡ code.old.program }
    ensures next { (t : ℕ) (start : Machine) → IsPartUnderWay M.home M.numbers M.seen (M.id mem.now) (M.origin mem.now) code.old.program budget t start part
        → IsNext M.home M.numbers M.seen (M.id mem.now) (M.origin mem.now) code.old.program budget t start part.pass part.steps result }
{
    match go_on(rt, mem, code, part, budget, budget, mem.spare() > 0) {
        Paused::Ended(done) => Next::Ended(done),
        Paused::Start { part, entry, arg } => Next::Calls { part, entry, arg },
        Paused::Pause(_) => unreachable!(),
    }
}

/// What a call that starts no thread is answered: its address is no multiple of 4, or the thread has no number left.
fn refusal(entry: u32) -> u32
    ensures { result ≡ refusal_of entry }
{
    if entry % 4 != 0 {
        return BAD_ENTRY;
    }
    NONE_LEFT
}

/// A thread whose call was answered, which is a step.
pub(crate) fn answered<P>(mut part: Part<P, Cpu>, value: u32) -> Part<P, Cpu>
    requires calling { IsCalling part.cpu.phase }
    requires few { part.steps < 2 ^ 63 }
    ensures { result ≡ after_answer part value }
{
    part.cpu.answer(value);
    part.steps += 1;
    part
}

/// Goes on with a thread that has no number left for others, to its end.
pub(crate) fn run_out<M: StartMemory, R: Wait>(
    rt: &R,
    mem: &M,
    code: &mut Code<Kept>,
    mut part: Part<M::Pass, Cpu>,
    budget: u64,
) -> Finished<M::Pass>
    requires whole { length code.old.program.bytes ≡ (M.origin mem.now).size.mem }
    requires budget { budget ≤ most_budget }
    requires goes { (t : ℕ) × (start : Machine) × IsPartUnderWay M.home M.numbers M.seen (M.id mem.now) (M.origin mem.now) code.old.program budget t start part }
    requires none { (t : ℕ) → IsSingle t (M.numbers part.pass) → HasNoneLeft (stock_of (M.origin mem.now).first (M.origin mem.now).spare t) (starts_in t (M.seen part.pass)) }
    ensures ended { (t : ℕ) (start : Machine) → IsPartUnderWay M.home M.numbers M.seen (M.id mem.now) (M.origin mem.now) code.old.program budget t start part
        → HasReachedEnd M.home M.numbers M.seen (M.id mem.now) (M.origin mem.now) code.old.program budget t start part.pass result }
{
    'calls: loop {
        match to_next(rt, mem, code, part, budget) {
            Next::Ended(done) => return done,
            Next::Calls {
                part: called,
                entry,
                arg: _,
            } => part = answered(called, refusal(entry)),
        }
    }
}

/// Goes on with a thread that has a number left for another, to its end or to a call that starts one, whose address is a
/// multiple of 4.
pub(crate) fn to_start<M: StartMemory, R: Wait>(
    rt: &R,
    mem: &M,
    code: &mut Code<Kept>,
    mut part: Part<M::Pass, Cpu>,
    budget: u64,
) -> Next<M::Pass>
    requires whole { length code.old.program.bytes ≡ (M.origin mem.now).size.mem }
    requires budget { budget ≤ most_budget }
    requires goes { (t : ℕ) × (start : Machine) × IsPartUnderWay M.home M.numbers M.seen (M.id mem.now) (M.origin mem.now) code.old.program budget t start part }
    ensures program { code.new.program ≡ code.old.program }
    ensures next { (t : ℕ) (start : Machine) → IsPartUnderWay M.home M.numbers M.seen (M.id mem.now) (M.origin mem.now) code.old.program budget t start part
        → IsNext M.home M.numbers M.seen (M.id mem.now) (M.origin mem.now) code.old.program budget t start part.pass part.steps result }
    ensures aligned { IsAligned result }
{
    'calls: loop {
        match to_next(rt, mem, code, part, budget) {
            Next::Ended(done) => return Next::Ended(done),
            Next::Calls {
                part: called,
                entry,
                arg,
            } => {
                if entry % 4 == 0 {
                    return Next::Calls {
                        part: called,
                        entry,
                        arg,
                    };
                }
                part = answered(called, BAD_ENTRY);
            }
        }
    }
}
