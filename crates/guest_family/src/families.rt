//! All threads of a program that may start others, on host threads.
ghost use Rattle.std.specs.Prelude.{◌≡◌, ◌<◌, ◌≤◌, ◌+◌, ◌*◌, ◌^◌, ℕ, [], ◌∷◌, ◌++◌, All, Contains, length, reverse, true, vec_len, vec_capacity};
ghost use Rattle.llsc_base.specs.Limits.{most_budget};
ghost use Rattle.history.specs.Parts.{entries_of};
ghost use Rattle.shared_memory.specs.Origin.{IsLegalFrom};
ghost use Rattle.shared_memory.specs.Seen.{IsFront, IsOneOf, SaysAllOf, joint};
ghost use Rattle.guest_thread.specs.Begun.{begun_in};
ghost use Rattle.guest_thread.specs.BegunOutcome.{AreBegunEnds};
ghost use Rattle.guest_thread.specs.Counting.{accesses_counted, counts_in};
ghost use Rattle.guest_thread.specs.declared.ends.GuestEnd.{GuestEnd};
ghost use Rattle.guest_family.specs.inner.EndedStarters.{HasEndedWithAll, HaveEndedWithAll};
ghost use Rattle.guest_family.specs.Kin.{AreReadyKin, IsStarter, heads_of, own_numbers};
ghost use Rattle.guest_family.specs.inner.Kin.{MayRun};
ghost use denote.Param.Send.{IsSync, IsSend};
ghost use Rattle.a32_step.specs.Machine.{a32};

use crate::kin::{Kin, Starter};
use crate::starters::{StarterEnd, StarterPart, run_on};
use guest_thread::{GuestEnd, Job, Part, Ran};
use llsc_base::{Image, Stop};
use shared_memory::StartMemory;
use std::sync::Wait;
use std::thread::{Threads, join};

/// First threads that have ended, and those that they started: the pass of all of them, and how each ended, in order of number.
#[derive(Drop)]
pub(crate) struct Gathered<P> {
    pub(crate) pass: P,
    pub(crate) ends: Vec<GuestEnd>,
    pub(crate) children: Vec<GuestEnd>,
}

/// Runs one of the first threads from its start, with those that it starts.
fn run_starter<M: StartMemory, R: Threads + Wait + Sync>(
    rt: &R,
    mem: &M,
    image: &Image,
    starter: Starter<M::Pass>,
    budget: u64,
) -> StarterEnd<M::Pass>
    requires starter { IsStarter M.home M.numbers M.seen (M.id mem.now) (M.origin mem.now) image.now starter }
    requires whole { length image.now.bytes ≡ (M.origin mem.now).size.mem }
    requires budget { budget ≤ most_budget }
    ensures ended { HasEndedWithAll M.home M.numbers M.seen (M.id mem.now) (M.origin mem.now) image.now budget starter.entry.job.thread [] (own_numbers (M.origin mem.now).first (M.origin mem.now).spare starter.entry.job.thread) result }
    ensures front { IsFront (M.seen starter.entry.job.pass) (M.seen result.ran.pass) }
    ensures memory { M.home result.ran.pass ≡ M.id mem.now }
    ensures len { vec_len result.ran.ends ≤ (M.origin mem.now).spare }
{
    let Starter { job, spares, ends } = starter;
    let Job {
        thread: _,
        cpu,
        pass,
        out,
        code,
    } = job;
    let begun = StarterPart {
        part: Part::new(cpu, pass, out),
        code,
        spares,
        ends,
    };
    run_on(rt, mem, image, begun, budget)
}

/// Moves ends behind others, the last of them first.
fn move_back(from: &mut Vec<GuestEnd>, to: &mut Vec<GuestEnd>)
    requires room { vec_len to.old + vec_len from.old ≤ vec_capacity to.old }
    ensures items { to.new.items ≡ to.old.items ++ reverse from.old.items }
    ensures len { vec_len to.new ≡ vec_len to.old + vec_len from.old }
    ensures capacity { vec_capacity to.new ≡ vec_capacity to.old }
{
    while let Some(end) = from.pop() {
        to.push_reserved(end);
    }
}

/// One of the first threads has ended: it is taken in behind those before it.
fn take_in<M: StartMemory>(
    mem: &M,
    gathered: Gathered<M::Pass>,
    ended: StarterEnd<M::Pass>,
) -> Gathered<M::Pass>
    requires memory { (M.home gathered.pass ≡ M.id mem.now) × (M.home ended.ran.pass ≡ M.id mem.now) }
    requires ends_room { vec_len gathered.ends < vec_capacity gathered.ends }
    requires children_room { vec_len gathered.children + vec_len ended.ran.ends ≤ vec_capacity gathered.children }
    ensures memory { M.home result.pass ≡ M.id mem.now }
    ensures numbers { M.numbers result.pass ≡ joint (M.numbers gathered.pass) (M.numbers ended.ran.pass) }
    ensures fronts { IsFront (M.seen gathered.pass) (M.seen result.pass) × IsFront (M.seen ended.ran.pass) (M.seen result.pass) }
    ensures mine { SaysAllOf (M.numbers gathered.pass) (M.seen gathered.pass) (M.seen result.pass) }
    ensures yours { SaysAllOf (M.numbers ended.ran.pass) (M.seen ended.ran.pass) (M.seen result.pass) }
    ensures ends { result.ends.items ≡ gathered.ends.items ++ ended.end ∷ [] }
    ensures ends_len { vec_len result.ends ≡ vec_len gathered.ends + 1 }
    ensures ends_capacity { vec_capacity result.ends ≡ vec_capacity gathered.ends }
    ensures children { result.children.items ≡ gathered.children.items ++ reverse ended.ran.ends.items }
    ensures children_len { vec_len result.children ≡ vec_len gathered.children + vec_len ended.ran.ends }
    ensures children_capacity { vec_capacity result.children ≡ vec_capacity gathered.children }
{
    let Gathered {
        mut pass,
        mut ends,
        mut children,
    } = gathered;
    let StarterEnd { ran, end } = ended;
    let Ran {
        pass: other,
        ends: mut started,
    } = ran;
    mem.join(&mut pass, other);
    ends.push_reserved(end);
    move_back(&mut started, &mut children);
    Gathered {
        pass,
        ends,
        children,
    }
}

/// The first of those that have ended.
fn begin<P>(
    ended: StarterEnd<P>,
    mut ends: Vec<GuestEnd>,
    mut children: Vec<GuestEnd>,
) -> Gathered<P>
    requires empty { (ends.items ≡ []) × (vec_len ends ≡ 0) × (children.items ≡ []) × (vec_len children ≡ 0) }
    requires ends_room { 0 < vec_capacity ends }
    requires children_room { vec_len ended.ran.ends ≤ vec_capacity children }
    ensures pass { result.pass ≡ ended.ran.pass }
    ensures ends { result.ends.items ≡ ended.end ∷ [] }
    ensures ends_len { vec_len result.ends ≡ 1 }
    ensures ends_capacity { vec_capacity result.ends ≡ vec_capacity ends }
    ensures children { result.children.items ≡ reverse ended.ran.ends.items }
    ensures children_len { vec_len result.children ≡ vec_len ended.ran.ends }
    ensures children_capacity { vec_capacity result.children ≡ vec_capacity children }
{
    let StarterEnd { ran, end } = ended;
    let Ran {
        pass,
        ends: mut started,
    } = ran;
    ends.push_reserved(end);
    move_back(&mut started, &mut children);
    Gathered {
        pass,
        ends,
        children,
    }
}

/// Runs first threads beside another, each with those that it starts: that one on a host thread of its own.
#[cycle(starters)]
fn run_both<'i, M: StartMemory, R: Threads + Wait + Sync>(
    rt: &R,
    mem: &M,
    image: &Image,
    kin: Kin<'i, M::Pass>,
    last: Starter<'i, M::Pass>,
    budget: u64,
) -> (Gathered<M::Pass>, StarterEnd<M::Pass>)
    requires kin { MayRun M.home M.numbers M.seen (M.id mem.now) (M.origin mem.now) image.now kin }
    requires last { IsStarter M.home M.numbers M.seen (M.id mem.now) (M.origin mem.now) image.now last }
    requires whole { length image.now.bytes ≡ (M.origin mem.now).size.mem }
    requires budget { budget ≤ most_budget }
    ensures gathered { HaveEndedWithAll M.home M.numbers M.seen (M.id mem.now) (M.origin mem.now) image.now budget (heads_of (kin.entry.first ∷ kin.entry.others.items)) result.0 }
    ensures front { IsFront (M.seen kin.entry.first.job.pass) (M.seen result.0.pass) }
    ensures ends_len { vec_len result.0.ends ≡ vec_len kin.entry.others + 1 }
    ensures ends_capacity { vec_capacity result.0.ends ≡ vec_capacity kin.entry.ends }
    ensures children_len { vec_len result.0.children ≤ (vec_len kin.entry.others + 1) * (M.origin mem.now).spare }
    ensures children_capacity { vec_capacity result.0.children ≡ vec_capacity kin.entry.children }
    ensures ended { HasEndedWithAll M.home M.numbers M.seen (M.id mem.now) (M.origin mem.now) image.now budget last.entry.job.thread [] (own_numbers (M.origin mem.now).first (M.origin mem.now).spare last.entry.job.thread) result.1 }
    ensures started { vec_len result.1.ran.ends ≤ (M.origin mem.now).spare }
{
    join(
        rt,
        move || -> Gathered<M::Pass>
            requires { IsSync R.row × MayRun M.home M.numbers M.seen (M.id mem.now) (M.origin mem.now) image.now kin
                × (length image.now.bytes ≡ (M.origin mem.now).size.mem) × (budget ≤ most_budget) }
            ensures { HaveEndedWithAll M.home M.numbers M.seen (M.id mem.entry.now) (M.origin mem.entry.now) image.entry.now budget (heads_of (kin.entry.first ∷ kin.entry.others.items)) result
                × IsFront (M.seen kin.entry.first.job.pass) (M.seen result.pass)
                × (vec_len result.ends ≡ vec_len kin.entry.others + 1) × (vec_capacity result.ends ≡ vec_capacity kin.entry.ends)
                × (vec_len result.children ≤ (vec_len kin.entry.others + 1) * (M.origin mem.entry.now).spare) × (vec_capacity result.children ≡ vec_capacity kin.entry.children) }
        { run_starters(rt, mem, image, kin, budget) },
        move || -> StarterEnd<M::Pass>
            requires { IsSync R.row × IsStarter M.home M.numbers M.seen (M.id mem.now) (M.origin mem.now) image.now last
                × (length image.now.bytes ≡ (M.origin mem.now).size.mem) × (budget ≤ most_budget) }
            ensures { HasEndedWithAll M.home M.numbers M.seen (M.id mem.entry.now) (M.origin mem.entry.now) image.entry.now budget last.entry.job.thread []
                (own_numbers (M.origin mem.entry.now).first (M.origin mem.entry.now).spare last.entry.job.thread) result
                × (vec_len result.ran.ends ≤ (M.origin mem.entry.now).spare) }
        { run_starter(rt, mem, image, last, budget) },
    )
}

/// Runs first threads beside each other, each with those that it starts: the last on a host thread of its own, those before it so
/// in turn.
#[cycle(starters)]
fn run_starters<M: StartMemory, R: Threads + Wait + Sync>(
    rt: &R,
    mem: &M,
    image: &Image,
    mut kin: Kin<M::Pass>,
    budget: u64,
) -> Gathered<M::Pass>
    requires kin { MayRun M.home M.numbers M.seen (M.id mem.now) (M.origin mem.now) image.now kin }
    requires whole { length image.now.bytes ≡ (M.origin mem.now).size.mem }
    requires budget { budget ≤ most_budget }
    ensures ended { HaveEndedWithAll M.home M.numbers M.seen (M.id mem.now) (M.origin mem.now) image.now budget (heads_of (kin.entry.first ∷ kin.entry.others.items)) result }
    ensures front { IsFront (M.seen kin.entry.first.job.pass) (M.seen result.pass) }
    ensures ends_len { vec_len result.ends ≡ vec_len kin.entry.others + 1 }
    ensures ends_capacity { vec_capacity result.ends ≡ vec_capacity kin.entry.ends }
    ensures children_len { vec_len result.children ≤ (vec_len kin.entry.others + 1) * (M.origin mem.now).spare }
    ensures children_capacity { vec_capacity result.children ≡ vec_capacity kin.entry.children }
{
    let Some(last) = kin.others.pop() else {
        return begin(
            run_starter(rt, mem, image, kin.first, budget),
            kin.ends,
            kin.children,
        );
    };
    let (gathered, ended) = run_both(rt, mem, image, kin, last, budget);
    take_in(mem, gathered, ended)
}

/// Ends behind others.
fn all_ends(mut ends: Vec<GuestEnd>, mut others: Vec<GuestEnd>) -> Vec<GuestEnd>
    requires room { vec_len ends + vec_len others ≤ vec_capacity ends }
    ensures items { result.items ≡ ends.items ++ others.items }
    ensures len { vec_len result ≡ vec_len ends + vec_len others }
{
    others.reverse();
    move_back(&mut others, &mut ends);
    ends
}

/// Runs all threads of a program on host threads, each up to its stop: those that begin by themselves, and each that one of them
/// starts, from then on. Gives how each ended that has begun, in order of number, with a pass of all numbers. Memory has as many
/// bytes as the image. The budget is at most 1,000,000,000,000 steps for each. No memory is taken from the allocator.
///
/// What they did is in what the pass has seen of the history, which is legal: a thread's accesses there, and those that it starts
/// there, are those of its run, with its end. A thread that has not begun there has no entries.
pub fn run_family<M: StartMemory, R: Threads + Wait + Sync>(
    rt: &R,
    mem: &M,
    image: &Image,
    kin: Kin<M::Pass>,
    budget: u64,
) -> Ran<M::Pass>
    requires kin { AreReadyKin M.home M.numbers M.seen (M.id mem.now) (M.origin mem.now) image.now kin }
    requires whole { length image.now.bytes ≡ (M.origin mem.now).size.mem }
    requires budget { budget ≤ most_budget }
    ensures ends { AreBegunEnds a32 image.now (M.origin mem.now).size (M.origin mem.now).first (M.origin mem.now).spare budget (M.seen result.pass) result.ends.items }
    ensures spends { All (λ (end : GuestEnd). (addr : ℕ) → end.stop ≡ Stop.TagLimit addr → (M.origin mem.now).spends ≡ true) result.ends.items }
    ensures few { All (λ (end : GuestEnd). accesses_counted (counts_in end) < 2 ^ 45) result.ends.items }
    ensures many { vec_len result.ends ≤ (M.origin mem.now).size.threads }
    ensures numbers { (t : ℕ) → t < (M.origin mem.now).size.threads → IsOneOf t (M.numbers result.pass) }
    ensures begins { IsFront (M.seen kin.entry.first.job.pass) (M.seen result.pass) }
    ensures legal { IsLegalFrom (M.origin mem.now) (M.seen result.pass) }
    ensures others { (t : ℕ) → (Contains (begun_in (M.origin mem.now).first (M.seen result.pass)) t → ⊥) → entries_of t (M.seen result.pass) ≡ [] }
    ensures memory { M.home result.pass ≡ M.id mem.now }
{
    let Gathered {
        mut pass,
        ends,
        children,
    } = run_starters(rt, mem, image, kin, budget);
    mem.vouch(&mut pass);
    Ran {
        pass,
        ends: all_ends(ends, children),
    }
}
