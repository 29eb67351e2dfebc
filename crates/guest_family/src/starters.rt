//! One of the first threads, with those that it starts, on host threads beside each other.
ghost use Rattle.std.specs.Prelude.{◌≡◌, ◌%◌, ◌<◌, ◌≤◌, ◌+◌, ◌^◌, ℕ, [], ◌∷◌, ◌++◌, length, MatchOption, vec_len, vec_capacity};
ghost use Rattle.llsc_base.specs.Limits.{most_budget};
ghost use Rattle.llsc_base.specs.Images.{Program};
ghost use Rattle.history.specs.Parts.{entries_of};
ghost use Rattle.history.specs.Started.{starts_of};
ghost use Rattle.history.specs.Starts.{starts_in};
ghost use Rattle.shared_memory.specs.Seen.{IsFront, IsOneOf, IsSingle};
ghost use Rattle.a32_step.specs.Machine.{Machine, a32};
ghost use Rattle.guest_core.specs.Machine.{IsCalling};
ghost use Rattle.guest_thread.specs.Begun.{child_start};
ghost use Rattle.guest_thread.specs.inner.Crews.{AreTaken};
ghost use Rattle.guest_family.specs.inner.EndedStarters.{IfEnded, IfStarts, IsLater, IsStarterPart, LeavesRoom, RunsTo, next_start, ComesToBranch};
ghost use Rattle.guest_family.specs.Kin.{AreSpares, IsSpare, spares_of};
ghost use Rattle.guest_family.specs.inner.UnderWay.{HasCalled, IsEndFrom, IsPartUnderWay};
ghost use denote.Param.Send.{IsSync, IsSend};

use crate::kin::Spare;
use crate::running::{Next, answered, run_out, to_start};
use a32_step::{Cpu, Kept};
use guest_calls::Output;
use guest_core::Code;
use guest_thread::{Finished, GuestEnd, Part, Ran, gather};
use llsc_base::{Image, MachineSize};
use shared_memory::StartMemory;
use std::sync::Wait;
use std::thread::{Threads, join};

/// A thread that may start others under way: how far it has come, those that it may still start, in order of number, and room for
/// the ends of all of them.
#[derive(Drop)]
pub(crate) struct StarterPart<'i, P> {
    pub(crate) part: Part<P, Cpu>,
    pub(crate) code: Code<'i, Kept>,
    pub(crate) spares: Vec<Spare<'i, P>>,
    pub(crate) ends: Vec<GuestEnd>,
}

/// The core of a thread that is started, at an address that is a multiple of 4 and with an argument. Its number is below the
/// machine's threads.
fn child_cpu(size: &MachineSize, child: u32, entry: u32, arg: u32) -> Cpu
    requires known { child < size.now.threads }
    requires aligned { entry % 4 ≡ 0 }
    ensures { result ≡ child_start a32 size.now child entry arg }
{
    let stack = size.room() + 4096 * (child + 1);
    Cpu::start(entry, arg, child, stack)
}

/// A thread that is started, at its first instruction, from the moment on in which it is started.
fn come_in<M: StartMemory, R: Wait>(
    rt: &R,
    mem: &M,
    thread: u32,
    mut pass: M::Pass,
    out: Output,
    entry: u32,
    arg: u32,
) -> Part<M::Pass, Cpu>
    requires memory { M.home pass ≡ M.id mem.now }
    requires single { IsSingle thread (M.numbers pass) }
    requires none { entries_of thread (M.seen pass) ≡ [] }
    requires empty { out ≡ [] }
    requires number { ((M.origin mem.now).first ≤ thread) × (thread < (M.origin mem.now).size.threads) }
    requires aligned { entry % 4 ≡ 0 }
    ensures { (program : Program) (budget : ℕ) →
        IsPartUnderWay M.home M.numbers M.seen (M.id mem.now) (M.origin mem.now) program budget thread (child_start a32 (M.origin mem.now).size thread entry arg) result }
{
    mem.enter(rt, &mut pass);
    let cpu = child_cpu(&mem.size(), thread, entry, arg);
    Part::new(cpu, pass, out)
}

/// Runs a thread that is started, from the moment on in which it is, to its end.
fn run_child<M: StartMemory, R: Wait>(
    rt: &R,
    mem: &M,
    image: &Image,
    spare: Spare<M::Pass>,
    entry: u32,
    arg: u32,
    budget: u64,
) -> Finished<M::Pass>
    requires spare { IsSpare M.home M.numbers M.seen (M.id mem.now) image.now spare }
    requires number { ((M.origin mem.now).first ≤ spare.thread) × (spare.thread < (M.origin mem.now).size.threads) }
    requires aligned { entry % 4 ≡ 0 }
    requires whole { length image.now.bytes ≡ (M.origin mem.now).size.mem }
    requires budget { budget ≤ most_budget }
    ensures end { IsEndFrom image.now (M.origin mem.now) budget spare.entry.thread (child_start a32 (M.origin mem.now).size spare.entry.thread entry arg) (M.seen result.pass) result.end }
    ensures number { IsOneOf spare.entry.thread (M.numbers result.pass) }
    ensures memory { M.home result.pass ≡ M.id mem.now }
{
    let Spare {
        thread,
        pass,
        out,
        mut code,
    } = spare;
    let part = come_in(rt, mem, thread, pass, out, entry, arg);
    run_out(rt, mem, &mut code, part, budget)
}

/// Takes out the thread that is to be started next, where there is one.
fn take_next<'i, P>(spares: &mut Vec<Spare<'i, P>>) -> Option<Spare<'i, P>>
    ensures items { MatchOption result (spares.old.items ≡ []) (λ next. spares.old.items ≡ next ∷ spares.new.items) }
    ensures len { MatchOption result (vec_len spares.old ≡ 0) (λ _. vec_len spares.old ≡ vec_len spares.new + 1) }
{
    if spares.is_empty() {
        return None;
    }
    Some(spares.remove(0))
}

/// Takes in the passes of threads that were never started.
fn join_unstarted<M: StartMemory>(
    mem: &M,
    mut pass: M::Pass,
    spare: Spare<M::Pass>,
    mut spares: Vec<Spare<M::Pass>>,
) -> M::Pass
    requires memory { M.home pass ≡ M.id mem.now }
    requires others { (program : Program) × AreSpares M.home M.numbers M.seen (M.id mem.now) program (spare ∷ spares.items) }
    ensures later { IsLater M.home M.numbers M.seen pass result }
    ensures taken { AreTaken (M.numbers result) (spares_of (spare.entry ∷ spares.entry.items)) }
{
    mem.join(&mut pass, spare.pass);
    while let Some(other) = spares.pop() {
        mem.join(&mut pass, other.pass);
    }
    pass
}

/// A thread that has called for another to be started, which is then started, and its call answered by the number of that.
fn started<M: StartMemory>(
    mem: &M,
    mut part: Part<M::Pass, Cpu>,
    entry: u32,
    arg: u32,
) -> Part<M::Pass, Cpu>
    requires memory { M.home part.pass ≡ M.id mem.now }
    requires single { (t : ℕ) × IsSingle t (M.numbers part.pass) × (t < (M.origin mem.now).first) × (starts_of t (M.seen part.pass) < (M.origin mem.now).spare) }
    requires calling { IsCalling part.cpu.phase }
    requires few { part.steps < 2 ^ 63 }
    ensures goes { (program : Program) (budget t : ℕ) (start : Machine) (old : M.Pass) → t < (M.origin mem.now).first → starts_of t (M.seen part.pass) < (M.origin mem.now).spare
        → entry % 4 ≡ 0 → HasCalled M.home M.numbers M.seen (M.id mem.now) (M.origin mem.now) program budget t start old part entry arg
        → IsPartUnderWay M.home M.numbers M.seen (M.id mem.now) (M.origin mem.now) program budget t start result }
    ensures starts { (t : ℕ) → IsSingle t (M.numbers part.pass) → starts_in t (M.seen result.pass) ≡ starts_in t (M.seen part.pass)
        ++ next_start (M.origin mem.now) t (M.seen part.pass) entry arg ∷ [] }
    ensures front { IsFront (M.seen part.pass) (M.seen result.pass) }
{
    let child = mem.start(&mut part.pass, entry, arg);
    answered(part, child)
}

/// A thread that has started others, and how it and they ended: they from the last one back, with the pass of all of them.
#[derive(Drop)]
pub(crate) struct StarterEnd<P> {
    pub(crate) ran: Ran<P>,
    pub(crate) end: GuestEnd,
}

/// A thread that has ended, with the ends of those that it has started.
fn with_ends<P>(done: Finished<P>, ends: Vec<GuestEnd>) -> StarterEnd<P>
    ensures pass { result.ran.pass ≡ done.pass }
    ensures ends { result.ran.ends ≡ ends }
    ensures end { result.end ≡ done.end }
{
    let Finished { pass, end } = done;
    let ran = Ran { pass, ends };
    StarterEnd { ran, end }
}

/// What one of the first threads comes to.
pub(crate) enum Branch<'i, P> {
    /// It has ended.
    Ended(StarterEnd<P>),
    /// It has started another, at an address and with an argument: what is left of it, and what that one is to run with.
    Starts {
        rest: StarterPart<'i, P>,
        spare: Spare<'i, P>,
        entry: u32,
        arg: u32,
    },
}

/// Goes on with one of the first threads until it has ended or has started another.
fn to_branch<'i, M: StartMemory, R: Wait>(
    rt: &R,
    mem: &M,
    image: &Image,
    mut starter: StarterPart<'i, M::Pass>,
    budget: u64,
) -> Branch<'i, M::Pass>
    requires starter { (t : ℕ) × IsStarterPart M.home M.numbers M.seen (M.id mem.now) (M.origin mem.now) image.now budget t starter }
    requires whole { length image.now.bytes ≡ (M.origin mem.now).size.mem }
    requires budget { budget ≤ most_budget }
    ensures branches { ComesToBranch M.home M.numbers M.seen (M.id mem.now) (M.origin mem.now) image.now budget starter.entry result }
    ensures goes { IfStarts result (λ rest spare entry arg. (t : ℕ) × IsStarterPart M.home M.numbers M.seen (M.id mem.now) (M.origin mem.now) image.now budget t rest) }
    ensures spare { IfStarts result (λ rest spare entry arg. IsSpare M.home M.numbers M.seen (M.id mem.now) image.now spare) }
    ensures number { IfStarts result (λ rest spare entry arg. ((M.origin mem.now).first ≤ spare.thread) × (spare.thread < (M.origin mem.now).size.threads)) }
    ensures aligned { IfStarts result (λ rest spare entry arg. entry % 4 ≡ 0) }
    ensures memory { IfEnded result (λ ended. M.home ended.ran.pass ≡ M.id mem.now) }
    ensures room { LeavesRoom starter.entry result }
{
    let part = starter.part;
    let Some(spare) = take_next(&mut starter.spares) else {
        let done = run_out(rt, mem, &mut starter.code, part, budget);
        return Branch::Ended(with_ends(done, starter.ends));
    };
    match to_start(rt, mem, &mut starter.code, part, budget) {
        Next::Ended(Finished { pass, end }) => {
            let pass = join_unstarted(mem, pass, spare, starter.spares);
            Branch::Ended(with_ends(Finished { pass, end }, starter.ends))
        }
        Next::Calls { part, entry, arg } => {
            let part = started(mem, part, entry, arg);
            Branch::Starts {
                rest: StarterPart { part, ..starter },
                spare,
                entry,
                arg,
            }
        }
    }
}

/// Goes on with one of the first threads to its end. Each thread that it starts runs beside what is left of it, on another host
/// thread.
#[cycle(starters)]
pub(crate) fn run_on<M: StartMemory, R: Threads + Wait + Sync>(
    rt: &R,
    mem: &M,
    image: &Image,
    starter: StarterPart<M::Pass>,
    budget: u64,
) -> StarterEnd<M::Pass>
    requires starter { (t : ℕ) × IsStarterPart M.home M.numbers M.seen (M.id mem.now) (M.origin mem.now) image.now budget t starter }
    requires whole { length image.now.bytes ≡ (M.origin mem.now).size.mem }
    requires budget { budget ≤ most_budget }
    ensures ended { RunsTo M.home M.numbers M.seen (M.id mem.now) (M.origin mem.now) image.now budget starter.entry result }
    ensures memory { M.home result.ran.pass ≡ M.id mem.now }
    ensures room { (vec_len result.ran.ends ≤ vec_len starter.entry.spares) × (vec_capacity starter.entry.ends ≤ vec_capacity result.ran.ends) }
{
    let (rest, spare, entry, arg) = match to_branch(rt, mem, image, starter, budget) {
        Branch::Ended(ended) => return ended,
        Branch::Starts {
            rest,
            spare,
            entry,
            arg,
        } => (rest, spare, entry, arg),
    };
    let (ended, done) = join(
        rt,
        move || -> StarterEnd<M::Pass>
            requires { IsSync R.row × ((t : ℕ) × IsStarterPart M.home M.numbers M.seen (M.id mem.now) (M.origin mem.now) image.now budget t rest) × (length image.now.bytes ≡ (M.origin mem.now).size.mem) × (budget ≤ most_budget) }
            ensures { RunsTo M.home M.numbers M.seen (M.id mem.entry.now) (M.origin mem.entry.now) image.entry.now budget rest.entry result × (M.home result.ran.pass ≡ M.id mem.entry.now)
                × (vec_len result.ran.ends ≤ vec_len rest.entry.spares) × (vec_capacity rest.entry.ends ≤ vec_capacity result.ran.ends) }
        { run_on(rt, mem, image, rest, budget) },
        move || -> Finished<M::Pass>
            requires { IsSpare M.home M.numbers M.seen (M.id mem.now) image.now spare × (((M.origin mem.now).first ≤ spare.thread) × (spare.thread < (M.origin mem.now).size.threads))
                × (entry % 4 ≡ 0) × (length image.now.bytes ≡ (M.origin mem.now).size.mem) × (budget ≤ most_budget) }
            ensures { IsEndFrom image.entry.now (M.origin mem.entry.now) budget spare.entry.thread (child_start a32 (M.origin mem.entry.now).size spare.entry.thread entry arg) (M.seen result.pass) result.end
                × IsOneOf spare.entry.thread (M.numbers result.pass) × (M.home result.pass ≡ M.id mem.entry.now) }
        { run_child(rt, mem, image, spare, entry, arg, budget) },
    );
    let ran = gather(mem, ended.ran, done);
    StarterEnd { ran, ..ended }
}
