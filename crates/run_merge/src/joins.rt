//! Threads that log their accesses, beside each other.
ghost use Rattle.std.specs.Prelude.{◌≡◌, ◌<◌, ◌≤◌, ◌+◌, ◌∷◌, ◌++◌, [], All, IfNone, IfSome, MatchOption, length, vec_capacity, vec_len};
ghost use Rattle.llsc_base.specs.Limits.{most_budget};
ghost use Rattle.shared_memory.specs.Origin.{IsLegalFrom};
ghost use Rattle.shared_memory.specs.Seen.{IsFront, IsOneOf, SaysAllOf, joint, longer};
ghost use Rattle.version_memory.specs.Memory.{memory_id, memory_origin, pass_home, pass_numbers, pass_seen};
ghost use Rattle.guest_thread.specs.Crews.{AreFresh, HaveSeen, IsFresh, threads_of};
ghost use Rattle.guest_thread.specs.inner.Crews.{IsEndOf};
ghost use Rattle.run_merge.specs.Crews.{IsUnused};
ghost use Rattle.run_merge.specs.inner.Crews.{HaveLogged};
ghost use Rattle.run_merge.specs.Logs.{IsLogOf};
ghost use denote.Param.Send.{IsSync};

use crate::logs::Log;
use crate::running::{LoggedThread, log_thread};
use guest_core::Core;
use guest_thread::{Finished, GuestEnd, Job, Ran, begin, gather, pop_job};
use llsc_base::Image;
use shared_memory::SharedMemory;
use std::sync::Wait;
use std::thread::{Threads, join};
use version_memory::{VersionMemory, VersionPass};

/// Threads that have ended, and their logs, in order of number.
#[derive(Drop)]
pub(crate) struct Recorded {
    pub(crate) ran: Ran<VersionPass>,
    pub(crate) logs: Vec<Log>,
}

/// Runs one job, with its log.
fn log_job<C: Core, R: Wait>(
    rt: &R,
    mem: &VersionMemory,
    image: &Image,
    job: Job<VersionPass, C, C::Ready>,
    log: Log,
    budget: u64,
) -> LoggedThread
    requires fresh { IsFresh C.set C.machine pass_home pass_numbers pass_seen (memory_id mem.now) (memory_origin mem.now) image.now job }
    requires none { pass_seen job.pass ≡ [] }
    requires unused { IsUnused log }
    requires whole { length image.now.bytes ≡ (memory_origin mem.now).size.mem }
    requires budget { budget ≤ most_budget }
    ensures end { IsEndOf C.set image.now (memory_origin mem.now) budget (pass_seen result.pass) job.entry.thread result.end }
    ensures number { IsOneOf job.entry.thread (pass_numbers result.pass) }
    ensures memory { pass_home result.pass ≡ memory_id mem.now }
    ensures legal { IsLegalFrom (memory_origin mem.now) (pass_seen result.pass) }
    ensures log { IsLogOf (memory_origin mem.now).size job.entry.thread (pass_seen result.pass) result.log.entries.items result.log.count }
{
    let Job {
        thread: _,
        cpu,
        pass,
        out,
        code,
    } = job;
    log_thread(rt, mem, code, cpu, pass, out, log, budget)
}

/// Takes the last of some jobs out, where there is one.
fn take_job<'i, C: Core>(
    mem: &VersionMemory,
    image: &Image,
    jobs: &mut Vec<Job<'i, VersionPass, C, C::Ready>>,
) -> Option<Job<'i, VersionPass, C, C::Ready>>
    requires fresh { AreFresh C.set C.machine pass_home pass_numbers pass_seen (memory_id mem.now) (memory_origin mem.now) image.now jobs.old.items }
    requires none { HaveSeen pass_seen [] jobs.old.items }
    ensures others { AreFresh C.set C.machine pass_home pass_numbers pass_seen (memory_id mem.now) (memory_origin mem.now) image.now jobs.new.items }
    ensures last { IfSome result (IsFresh C.set C.machine pass_home pass_numbers pass_seen (memory_id mem.now) (memory_origin mem.now) image.now) }
    ensures none { IfSome result (λ last. (pass_seen last.pass ≡ []) × HaveSeen pass_seen [] jobs.new.items) }
    ensures items { MatchOption result (jobs.old.items ≡ []) (λ last. jobs.old.items ≡ jobs.new.items ++ last ∷ []) }
    ensures len { IfSome result (λ _. vec_len jobs.old ≡ vec_len jobs.new + 1) }
    ensures empty { IfNone result (vec_len jobs.old ≡ 0) }
{
    pop_job(mem, image, jobs)
}

/// Takes the last of some logs out.
fn take_log(logs: &mut Vec<Log>) -> Log
    requires some { 0 < vec_len logs.old }
    requires unused { All IsUnused logs.old.items }
    ensures unused { IsUnused result }
    ensures others { All IsUnused logs.new.items }
    ensures len { vec_len logs.new + 1 ≡ vec_len logs.old }
    ensures capacity { vec_capacity logs.new ≡ vec_capacity logs.old }
    ensures room { vec_len logs.new < vec_capacity logs.new }
{
    match logs.pop() {
        Some(log) => log,
        None => unreachable!(),
    }
}

/// The first of the threads that have ended.
fn begin_log(done: LoggedThread, ends: Vec<GuestEnd>, mut logs: Vec<Log>) -> Recorded
    requires room { vec_len ends < vec_capacity ends }
    requires space { vec_len logs < vec_capacity logs }
    ensures pass { result.ran.pass ≡ done.pass }
    ensures ends { result.ran.ends.items ≡ ends.items ++ done.end ∷ [] }
    ensures logs { result.logs.items ≡ logs.items ++ done.log ∷ [] }
    ensures len { (vec_len result.ran.ends ≡ vec_len ends + 1) × (vec_len result.logs ≡ vec_len logs + 1) }
    ensures capacity { (vec_capacity ends ≤ vec_capacity result.ran.ends) × (vec_capacity logs ≤ vec_capacity result.logs) }
{
    let LoggedThread { pass, end, log } = done;
    logs.push_reserved(log);
    Recorded {
        ran: begin(Finished { pass, end }, ends),
        logs,
    }
}

/// Takes one more thread that has ended to those before it.
fn gather_log(mem: &VersionMemory, recorded: Recorded, done: LoggedThread) -> Recorded
    requires memory { (pass_home recorded.ran.pass ≡ memory_id mem.now) × (pass_home done.pass ≡ memory_id mem.now) }
    requires room { vec_len recorded.ran.ends < vec_capacity recorded.ran.ends }
    requires space { vec_len recorded.logs < vec_capacity recorded.logs }
    ensures memory { pass_home result.ran.pass ≡ memory_id mem.now }
    ensures numbers { pass_numbers result.ran.pass ≡ joint (pass_numbers recorded.ran.pass) (pass_numbers done.pass) }
    ensures seen { pass_seen result.ran.pass ≡ longer (pass_seen recorded.ran.pass) (pass_seen done.pass) }
    ensures fronts { IsFront (pass_seen recorded.ran.pass) (pass_seen result.ran.pass) × IsFront (pass_seen done.pass) (pass_seen result.ran.pass) }
    ensures mine { SaysAllOf (pass_numbers recorded.ran.pass) (pass_seen recorded.ran.pass) (pass_seen result.ran.pass) }
    ensures yours { SaysAllOf (pass_numbers done.pass) (pass_seen done.pass) (pass_seen result.ran.pass) }
    ensures ends { result.ran.ends.items ≡ recorded.ran.ends.items ++ done.end ∷ [] }
    ensures logs { result.logs.items ≡ recorded.logs.items ++ done.log ∷ [] }
    ensures len { (vec_len result.ran.ends ≡ vec_len recorded.ran.ends + 1) × (vec_len result.logs ≡ vec_len recorded.logs + 1) }
    ensures capacity { (vec_capacity recorded.ran.ends ≤ vec_capacity result.ran.ends) × (vec_capacity recorded.logs ≤ vec_capacity result.logs) }
{
    let Recorded { ran, mut logs } = recorded;
    let LoggedThread { pass, end, log } = done;
    logs.push_reserved(log);
    Recorded {
        ran: gather(mem, ran, Finished { pass, end }),
        logs,
    }
}

/// Runs the jobs beside each other, each with its log: the last on a host thread of its own, those before it so in turn.
#[cycle(jobs)]
pub(crate) fn log_jobs<C: Core, R: Threads + Wait + Sync>(
    rt: &R,
    mem: &VersionMemory,
    image: &Image,
    first_job: Job<VersionPass, C, C::Ready>,
    mut jobs: Vec<Job<VersionPass, C, C::Ready>>,
    ends: Vec<GuestEnd>,
    mut logs: Vec<Log>,
    budget: u64,
) -> Recorded
    requires first_job { IsFresh C.set C.machine pass_home pass_numbers pass_seen (memory_id mem.now) (memory_origin mem.now) image.now first_job }
    requires others { AreFresh C.set C.machine pass_home pass_numbers pass_seen (memory_id mem.now) (memory_origin mem.now) image.now jobs.items }
    requires none { (pass_seen first_job.pass ≡ []) × HaveSeen pass_seen [] jobs.items }
    requires unused { All IsUnused logs.items }
    requires logs { vec_len logs ≡ vec_len jobs + 1 }
    requires empty { (ends.items ≡ []) × (vec_len ends ≡ 0) }
    requires room { vec_len jobs < vec_capacity ends }
    requires whole { length image.now.bytes ≡ (memory_origin mem.now).size.mem }
    requires budget { budget ≤ most_budget }
    ensures logged { HaveLogged C.set (memory_id mem.now) (memory_origin mem.now) image.now budget (threads_of (first_job.entry ∷ jobs.entry.items)) result }
    ensures len { (vec_len result.ran.ends ≡ vec_len jobs.entry + 1) × (vec_len result.logs ≡ vec_len jobs.entry + 1) }
    ensures capacity { (vec_capacity ends ≤ vec_capacity result.ran.ends) × (vec_capacity logs ≤ vec_capacity result.logs) }
{
    let Some(last) = take_job(mem, image, &mut jobs) else {
        let log = take_log(&mut logs);
        return begin_log(log_job(rt, mem, image, first_job, log, budget), ends, logs);
    };
    let log = take_log(&mut logs);
    let (recorded, done) = join(
        rt,
        move || -> Recorded
            requires { IsSync R.row × IsFresh C.set C.machine pass_home pass_numbers pass_seen (memory_id mem.now) (memory_origin mem.now) image.now first_job
                × AreFresh C.set C.machine pass_home pass_numbers pass_seen (memory_id mem.now) (memory_origin mem.now) image.now jobs.items
                × ((pass_seen first_job.pass ≡ []) × HaveSeen pass_seen [] jobs.items) × All IsUnused logs.items × (vec_len logs ≡ vec_len jobs + 1)
                × ((ends.items ≡ []) × (vec_len ends ≡ 0)) × (vec_len jobs < vec_capacity ends)
                × (length image.now.bytes ≡ (memory_origin mem.now).size.mem) × (budget ≤ most_budget) }
            ensures { HaveLogged C.set (memory_id mem.entry.now) (memory_origin mem.entry.now) image.entry.now budget (threads_of (first_job.entry ∷ jobs.entry.items)) result
                × ((vec_len result.ran.ends ≡ vec_len jobs.entry + 1) × (vec_len result.logs ≡ vec_len jobs.entry + 1))
                × ((vec_capacity ends ≤ vec_capacity result.ran.ends) × (vec_capacity logs ≤ vec_capacity result.logs)) }
        { log_jobs(rt, mem, image, first_job, jobs, ends, logs, budget) },
        move || -> LoggedThread
            requires { IsFresh C.set C.machine pass_home pass_numbers pass_seen (memory_id mem.now) (memory_origin mem.now) image.now last
                × (pass_seen last.pass ≡ []) × IsUnused log × (length image.now.bytes ≡ (memory_origin mem.now).size.mem) × (budget ≤ most_budget) }
            ensures { IsEndOf C.set image.entry.now (memory_origin mem.entry.now) budget (pass_seen result.pass) last.entry.thread result.end
                × IsOneOf last.entry.thread (pass_numbers result.pass) × (pass_home result.pass ≡ memory_id mem.entry.now)
                × IsLegalFrom (memory_origin mem.entry.now) (pass_seen result.pass)
                × IsLogOf (memory_origin mem.entry.now).size last.entry.thread (pass_seen result.pass) result.log.entries.items result.log.count }
        { log_job(rt, mem, image, last, log, budget) },
    );
    gather_log(mem, recorded, done)
}
