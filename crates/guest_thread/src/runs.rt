//! All guest threads of a program on host threads.
ghost use Rattle.std.specs.Prelude.{◌≡◌, ◌<◌, ◌≤◌, ◌+◌, ℕ, [], ◌∷◌, ◌^◌, All, true, length, vec_len, vec_capacity};
ghost use Rattle.llsc_base.specs.Limits.{most_budget};
ghost use Rattle.shared_memory.specs.Origin.{IsLegalFrom};
ghost use Rattle.shared_memory.specs.Seen.{IsFront, IsOneOf};
ghost use Rattle.guest_thread.specs.Crews.{AreFresh, IsFresh, IsReadyCrew, threads_of};
ghost use Rattle.guest_thread.specs.inner.Crews.{HaveEnded, IsEndOf};
ghost use Rattle.guest_thread.specs.Counting.{accesses_counted, counts_in};
ghost use Rattle.guest_thread.specs.Outcome.{AreEndsOn};
ghost use Rattle.guest_thread.specs.declared.ends.GuestEnd.{GuestEnd};
ghost use denote.Param.Send.{IsSync, IsSend};

use crate::crews::{Crew, Job};
use crate::ends::GuestEnd;
use crate::gathering::{Ran, begin, gather, pop_job};
use crate::running::{Finished, run_thread};
use guest_core::Core;
use llsc_base::{Image, Stop};
use shared_memory::SharedMemory;
use std::sync::Wait;
use std::thread::{Threads, join};

/// Runs one job.
fn run_job<M: SharedMemory, C: Core, R: Wait>(
    rt: &R,
    mem: &M,
    image: &Image,
    job: Job<M::Pass, C, C::Ready>,
    budget: u64,
) -> Finished<M::Pass>
    requires fresh { IsFresh C.set C.machine M.home M.numbers M.seen (M.id mem.now) (M.origin mem.now) image.now job }
    requires whole { length image.now.bytes ≡ (M.origin mem.now).size.mem }
    requires budget { budget ≤ most_budget }
    ensures end { IsEndOf C.set image.now (M.origin mem.now) budget (M.seen result.pass) job.entry.thread result.end }
    ensures number { IsOneOf job.entry.thread (M.numbers result.pass) }
    ensures begins { IsFront (M.seen job.entry.pass) (M.seen result.pass) }
    ensures memory { M.home result.pass ≡ M.id mem.now }
{
    let Job {
        thread: _,
        cpu,
        pass,
        out,
        code,
    } = job;
    run_thread(rt, mem, code, cpu, pass, out, budget)
}

/// Runs the jobs beside each other: the last on a host thread of its own, those before it so in turn.
#[cycle(jobs)]
fn run_jobs<M: SharedMemory, C: Core, R: Threads + Wait + Sync>(
    rt: &R,
    mem: &M,
    image: &Image,
    first_job: Job<M::Pass, C, C::Ready>,
    mut jobs: Vec<Job<M::Pass, C, C::Ready>>,
    ends: Vec<GuestEnd>,
    budget: u64,
) -> Ran<M::Pass>
    requires first_job { IsFresh C.set C.machine M.home M.numbers M.seen (M.id mem.now) (M.origin mem.now) image.now first_job }
    requires others { AreFresh C.set C.machine M.home M.numbers M.seen (M.id mem.now) (M.origin mem.now) image.now jobs.items }
    requires empty { (ends.items ≡ []) × (vec_len ends ≡ 0) }
    requires room { vec_len jobs < vec_capacity ends }
    requires whole { length image.now.bytes ≡ (M.origin mem.now).size.mem }
    requires budget { budget ≤ most_budget }
    ensures ended { HaveEnded C.set M.home M.numbers M.seen (M.id mem.now) (M.origin mem.now) image.now budget (threads_of (first_job.entry ∷ jobs.entry.items)) result }
    ensures begins { IsFront (M.seen first_job.entry.pass) (M.seen result.pass) }
    ensures len { vec_len result.ends ≡ vec_len jobs.entry + 1 }
    ensures capacity { vec_capacity ends ≤ vec_capacity result.ends }
{
    let Some(last) = pop_job(mem, image, &mut jobs) else {
        return begin(run_job(rt, mem, image, first_job, budget), ends);
    };
    let (ran, done) = join(
        rt,
        move || -> Ran<M::Pass>
            requires { IsSync R.row × IsFresh C.set C.machine M.home M.numbers M.seen (M.id mem.now) (M.origin mem.now) image.now first_job
                × AreFresh C.set C.machine M.home M.numbers M.seen (M.id mem.now) (M.origin mem.now) image.now jobs.items
                × ((ends.items ≡ []) × (vec_len ends ≡ 0)) × (vec_len jobs < vec_capacity ends)
                × (length image.now.bytes ≡ (M.origin mem.now).size.mem) × (budget ≤ most_budget) }
            ensures { HaveEnded C.set M.home M.numbers M.seen (M.id mem.entry.now) (M.origin mem.entry.now) image.entry.now budget (threads_of (first_job.entry ∷ jobs.entry.items)) result
                × IsFront (M.seen first_job.entry.pass) (M.seen result.pass)
                × (vec_len result.ends ≡ vec_len jobs.entry + 1) × (vec_capacity ends ≤ vec_capacity result.ends) }
        { run_jobs(rt, mem, image, first_job, jobs, ends, budget) },
        move || -> Finished<M::Pass>
            requires { IsFresh C.set C.machine M.home M.numbers M.seen (M.id mem.now) (M.origin mem.now) image.now last
                × (length image.now.bytes ≡ (M.origin mem.now).size.mem) × (budget ≤ most_budget) }
            ensures { IsEndOf C.set image.entry.now (M.origin mem.entry.now) budget (M.seen result.pass) last.entry.thread result.end
                × IsOneOf last.entry.thread (M.numbers result.pass) × (M.home result.pass ≡ M.id mem.entry.now) }
        { run_job(rt, mem, image, last, budget) },
    );
    gather(mem, ran, done)
}

/// Runs all threads, each on a host thread, up to their stops, and gives how each ended, in order of number, with a pass of all
/// of their numbers. Memory has as many bytes as the image. The budget is at most 1,000,000,000,000 steps for each. No memory is
/// taken from the allocator.
///
/// What they did is in what the pass has seen of the history, which is legal: a thread's accesses there are those of its run, with its
/// end.
pub fn run_all<M: SharedMemory, C: Core, R: Threads + Wait + Sync>(
    rt: &R,
    mem: &M,
    image: &Image,
    crew: Crew<M::Pass, C, C::Ready>,
    budget: u64,
) -> Ran<M::Pass>
    requires crew { IsReadyCrew C.set C.machine M.home M.numbers M.seen (M.id mem.now) (M.origin mem.now) image.now crew }
    requires whole { length image.now.bytes ≡ (M.origin mem.now).size.mem }
    requires budget { budget ≤ most_budget }
    ensures ends { AreEndsOn C.set image.now (M.origin mem.now).size budget (M.seen result.pass) result.ends.items }
    ensures spends { All (λ (end : GuestEnd). (addr : ℕ) → end.stop ≡ Stop.TagLimit addr → (M.origin mem.now).spends ≡ true) result.ends.items }
    ensures few { All (λ (end : GuestEnd). accesses_counted (counts_in end) < 2 ^ 45) result.ends.items }
    ensures numbers { (t : ℕ) → t < (M.origin mem.now).size.threads → IsOneOf t (M.numbers result.pass) }
    ensures begins { IsFront (M.seen crew.entry.first_job.pass) (M.seen result.pass) }
    ensures legal { IsLegalFrom (M.origin mem.now) (M.seen result.pass) }
    ensures memory { M.home result.pass ≡ M.id mem.now }
{
    let Crew {
        first_job,
        jobs,
        ends,
    } = crew;
    let mut ran = run_jobs(rt, mem, image, first_job, jobs, ends, budget);
    mem.vouch(&mut ran.pass);
    ran
}
