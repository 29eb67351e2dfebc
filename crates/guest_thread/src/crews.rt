//! Guest threads on a memory that threads share, each at its start.
ghost use Rattle.std.specs.Prelude.{◌≡◌, ◌<◌, ◌+◌, ℕ, IfOk, [], nat_lt, vec_len};
ghost use Rattle.std.specs.List.{range_with_len};
ghost use Rattle.history.specs.Parts.{entries_of};
ghost use Rattle.shared_memory.specs.Seen.{IsSingle};
ghost use Rattle.guest_thread.specs.Crews.{AreFresh, HaveSeen, IsFresh, IsReadyCrew, threads_of};

use crate::ends::GuestEnd;
use crate::starts::start_cpu;
use guest_calls::Output;
use guest_core::{Code, Core, Ready};
use llsc_base::Image;
use shared_memory::SharedMemory;
use std::alloc::{AllocError, Global};

/// What a thread runs with: its number, its core, its pass of the memory, where its output goes, and its program.
#[derive(Drop)]
pub struct Job<'i, P, C, I: Ready> {
    pub thread: u32,
    pub cpu: C,
    pub pass: P,
    pub out: Output,
    pub code: Code<'i, I>,
}

/// The jobs of all threads in order of number, with room for their ends.
#[derive(Drop)]
pub struct Crew<'i, P, C, I: Ready> {
    pub first_job: Job<'i, P, C, I>,
    pub jobs: Vec<Job<'i, P, C, I>>,
    pub ends: Vec<GuestEnd>,
}

/// The job of a thread, which begins by itself, with its pass, which holds its number alone.
///
/// # Errors
///
/// `AllocError` is want of memory. Then the pass is gone.
pub fn job_of<'i, M: SharedMemory, C: Core>(
    alloc: Global,
    mem: &M,
    image: &'i Image,
    thread: u32,
    pass: M::Pass,
) -> Result<Job<'i, M::Pass, C, C::Ready>, AllocError>
    requires memory { M.home pass ≡ M.id mem.now }
    requires single { IsSingle thread (M.numbers pass) }
    requires begins { thread < (M.origin mem.now).first }
    requires none { entries_of thread (M.seen pass) ≡ [] }
    ensures fresh { IfOk result (IsFresh C.set C.machine M.home M.numbers M.seen (M.id mem.now) (M.origin mem.now) image.now) }
    ensures thread { IfOk result (λ job. job.thread ≡ thread) }
    ensures seen { IfOk result (λ job. M.seen job.pass ≡ M.seen pass) }
{
    let size = mem.size();
    let code = Code::new(alloc, image)?;
    let out = Output::new(alloc)?;
    Ok(Job {
        thread,
        cpu: start_cpu(image, &size, mem.first(), thread),
        pass,
        out,
        code,
    })
}

/// The jobs of all threads but thread 0, whose number the pass keeps.
fn other_jobs<'i, M: SharedMemory, C: Core>(
    alloc: Global,
    mem: &M,
    image: &'i Image,
    first: &mut M::Pass,
    count: u32,
) -> Result<Vec<Job<'i, M::Pass, C, C::Ready>>, AllocError>
    requires count { (count ≡ (M.origin mem.now).size.threads) × (0 < count) }
    requires memory { M.home first.old ≡ M.id mem.now }
    requires numbers { (t : ℕ) → M.numbers first.old t ≡ nat_lt t (M.origin mem.now).size.threads }
    requires begin { (M.origin mem.now).first ≡ (M.origin mem.now).size.threads }
    requires none { (t : ℕ) → entries_of t (M.seen first.old) ≡ [] }
    ensures fresh { IfOk result (λ jobs. AreFresh C.set C.machine M.home M.numbers M.seen (M.id mem.now) (M.origin mem.now) image.now jobs.items) }
    ensures threads { IfOk result (λ jobs. threads_of jobs.items ≡ range_with_len 1 (vec_len jobs)) }
    ensures len { IfOk result (λ jobs. vec_len jobs + 1 ≡ count) }
    ensures unseen { IfOk result (λ jobs. HaveSeen M.seen (M.seen first.old) jobs.items) }
    ensures single { IfOk result (λ _. IsSingle 0 (M.numbers first.new)) }
    ensures memory { M.home first.new ≡ M.home first.old }
    ensures seen { M.seen first.new ≡ M.seen first.old }
{
    let mut jobs = Vec::with_capacity(alloc, count as usize)?;
    for t in 1..count {
        let pass = mem.split(first, t);
        jobs.push(job_of(alloc, mem, image, t, pass)?)?;
    }
    Ok(jobs)
}

/// The jobs of all threads of a memory, each of which begins by itself, with what they need of memory, so that none is asked for
/// while they run. The pass holds the numbers of all threads, none of which has made an access.
///
/// # Errors
///
/// `AllocError` is want of memory. Then the passes are gone, and the memory can't be closed.
pub fn prepare<'i, M: SharedMemory, C: Core>(
    alloc: Global,
    mem: &M,
    image: &'i Image,
    mut first: M::Pass,
) -> Result<Crew<'i, M::Pass, C, C::Ready>, AllocError>
    requires memory { M.home first ≡ M.id mem.now }
    requires numbers { (t : ℕ) → M.numbers first t ≡ nat_lt t (M.origin mem.now).size.threads }
    requires begin { (M.origin mem.now).first ≡ (M.origin mem.now).size.threads }
    requires none { (t : ℕ) → entries_of t (M.seen first) ≡ [] }
    ensures ready { IfOk result (IsReadyCrew C.set C.machine M.home M.numbers M.seen (M.id mem.now) (M.origin mem.now) image.now) }
    ensures seen { IfOk result (λ crew. M.seen crew.first_job.pass ≡ M.seen first) }
    ensures unseen { IfOk result (λ crew. HaveSeen M.seen (M.seen first) crew.jobs.items) }
{
    let size = mem.size();
    let count = size.threads();
    let ends = Vec::with_capacity(alloc, count as usize)?;
    let jobs = other_jobs(alloc, mem, image, &mut first, count)?;
    let first_job = job_of(alloc, mem, image, 0, first)?;
    Ok(Crew {
        first_job,
        jobs,
        ends,
    })
}
