//! Threads that run beside each other, on a memory of their own.
ghost use Rattle.std.specs.Prelude.{◌≡◌, ◌≤◌, ◌+◌, ◌*◌, ℕ, [], length, nat_lt, true, IfOk};
ghost use Rattle.llsc_base.specs.Limits.{most_budget};
ghost use Rattle.version_memory.specs.Memory.{story_history};
ghost use Rattle.a32_step.specs.Machine.{a32};
ghost use Rattle.llsc_call.specs.Beside.{HaveRun, HaveRunFrom};

use guest_core::Core;
use guest_family::{prepare_family, run_family};
use guest_thread::{Crew, GuestEnd, Ran, prepare, run_all};
use llsc_base::{Image, MachineSize};
use shared_memory::{Rows, SharedMemory, StartMemory};
use slice_pool::{Pooled, pool_crew, run_pool};
use std::alloc::{AllocError, Global};
use std::sync::Wait;
use std::thread::Threads;
use version_memory::{VersionMemory, VersionStory};

/// A run whose memory is closed: what threads have done that ran beside each other.
#[derive(Drop)]
pub struct ClosedRun<S> {
    /// How each thread ended that has begun, in order of number.
    pub ends: Vec<GuestEnd>,
    /// The cells of memory as it was left.
    pub rows: Rows,
    /// The history of all accesses.
    pub story: S,
}

/// Runs an image's threads, of a core's instructions, which start no others, on a memory that counts the writes of a class, and on
/// which a store-exclusive loses to nothing but writes, with the pass of all of them, and closes it.
fn run_over<M: SharedMemory, C: Core, R: Threads + Wait + Sync>(
    rt: &R,
    alloc: Global,
    memory: M,
    pass: M::Pass,
    image: &Image,
    budget: u64,
) -> Result<ClosedRun<M::Story>, AllocError>
    requires made { M.home pass ≡ M.id memory }
    requires all { (t : ℕ) → M.numbers pass t ≡ nat_lt t (M.origin memory).size.threads }
    requires none { M.seen pass ≡ [] }
    requires first { (M.origin memory).first ≡ (M.origin memory).size.threads }
    requires spare { (M.origin memory).spare ≡ 0 }
    requires bytes { (M.origin memory).bytes ≡ image.now.bytes }
    requires spends { (M.origin memory).spends ≡ true }
    requires steady { (M.origin memory).steady ≡ true }
    requires whole { length image.now.bytes ≡ (M.origin memory).size.mem }
    requires budget { budget ≤ most_budget }
    ensures { IfOk result (λ done. HaveRun C.set image.now (M.origin memory).size budget (M.history done.story) done.ends.items done.rows) }
{
    let crew: Crew<M::Pass, C, C::Ready> = prepare(alloc, &memory, image, pass)?;
    let threads = memory.size().threads();
    prove!(threads <= 16);
    let Ran { pass, ends } = run_all(rt, &memory, image, crew, budget);
    let (rows, story) = memory.close(pass);
    Ok(ClosedRun { ends, rows, story })
}

/// Runs an image's threads, of a core's instructions, beside each other on a machine, each up to its stop. All memory that this
/// takes is taken before the first of them begins.
///
/// # Errors
///
/// `AllocError` is want of memory.
pub fn run_beside<C: Core, R: Threads + Wait + Sync>(
    rt: &R,
    alloc: Global,
    size: &MachineSize,
    image: &Image,
    budget: u64,
) -> Result<ClosedRun<VersionStory>, AllocError>
    requires whole { length image.now.bytes ≡ size.now.mem }
    requires budget { budget ≤ most_budget }
    ensures { IfOk result (λ done. HaveRun C.set image.now size.now budget (story_history done.story) done.ends.items done.rows) }
{
    let (memory, pass) = VersionMemory::new(alloc, image, size)?;
    run_over::<VersionMemory, C, R>(rt, alloc, memory, pass, image, budget)
}

/// Runs an image's threads, which start no others, on few workers, a slice of steps at a time, on a memory that counts the writes of a
/// class, and on which a store-exclusive loses to nothing but writes, with the pass of all of them, and closes it.
fn pool_over<M: SharedMemory, R: Threads + Wait + Sync>(
    rt: &R,
    alloc: Global,
    memory: M,
    pass: M::Pass,
    image: &Image,
    workers: u32,
    slice: u64,
    budget: u64,
) -> Result<ClosedRun<M::Story>, AllocError>
    requires made { M.home pass ≡ M.id memory }
    requires all { (t : ℕ) → M.numbers pass t ≡ nat_lt t (M.origin memory).size.threads }
    requires none { M.seen pass ≡ [] }
    requires first { (M.origin memory).first ≡ (M.origin memory).size.threads }
    requires spare { (M.origin memory).spare ≡ 0 }
    requires bytes { (M.origin memory).bytes ≡ image.now.bytes }
    requires spends { (M.origin memory).spends ≡ true }
    requires steady { (M.origin memory).steady ≡ true }
    requires whole { length image.now.bytes ≡ (M.origin memory).size.mem }
    requires workers { (1 ≤ workers) × (workers ≤ 4) }
    requires slice { 1 ≤ slice }
    requires budget { budget ≤ most_budget }
    ensures { IfOk result (λ done. HaveRun a32 image.now (M.origin memory).size budget (M.history done.story) done.ends.items done.rows) }
{
    let pool = pool_crew(alloc, &memory, image, pass, workers)?;
    let threads = memory.size().threads();
    prove!(threads <= 16);
    let Pooled {
        pass,
        ends,
        turns: _,
    } = run_pool(rt, &memory, image, pool, slice, budget);
    let (rows, story) = memory.close(pass);
    Ok(ClosedRun { ends, rows, story })
}

/// Runs an image's threads on a machine, each up to its stop, on one to four workers beside each other: a worker runs a slice of one
/// thread's steps, which is at least one, before it goes on to the next thread that waits. All memory that this takes is taken before
/// the first of them begins.
///
/// # Errors
///
/// `AllocError` is want of memory.
pub fn run_pool_beside<R: Threads + Wait + Sync>(
    rt: &R,
    alloc: Global,
    size: &MachineSize,
    image: &Image,
    workers: u32,
    slice: u64,
    budget: u64,
) -> Result<ClosedRun<VersionStory>, AllocError>
    requires whole { length image.now.bytes ≡ size.now.mem }
    requires workers { (1 ≤ workers) × (workers ≤ 4) }
    requires slice { 1 ≤ slice }
    requires budget { budget ≤ most_budget }
    ensures { IfOk result (λ done. HaveRun a32 image.now size.now budget (story_history done.story) done.ends.items done.rows) }
{
    let (memory, pass) = VersionMemory::new(alloc, image, size)?;
    pool_over(rt, alloc, memory, pass, image, workers, slice, budget)
}

/// Runs an image's threads, and those that they start, on a memory that counts the writes of a class, and on which a
/// store-exclusive loses to nothing but writes, with the pass of all of them, and closes it.
fn family_over<M: StartMemory, R: Threads + Wait + Sync>(
    rt: &R,
    alloc: Global,
    memory: M,
    pass: M::Pass,
    image: &Image,
    budget: u64,
) -> Result<ClosedRun<M::Story>, AllocError>
    requires made { M.home pass ≡ M.id memory }
    requires all { (t : ℕ) → M.numbers pass t ≡ nat_lt t (M.origin memory).size.threads }
    requires none { M.seen pass ≡ [] }
    requires bytes { (M.origin memory).bytes ≡ image.now.bytes }
    requires spends { (M.origin memory).spends ≡ true }
    requires steady { (M.origin memory).steady ≡ true }
    requires whole { length image.now.bytes ≡ (M.origin memory).size.mem }
    requires budget { budget ≤ most_budget }
    ensures { IfOk result (λ done. HaveRunFrom image.now (M.origin memory).size (M.origin memory).first (M.origin memory).spare budget (M.history done.story) done.ends.items done.rows) }
{
    let kin = prepare_family(alloc, &memory, image, pass)?;
    let threads = memory.size().threads();
    prove!(threads <= 16);
    let Ran { pass, ends } = run_family(rt, &memory, image, kin, budget);
    let (rows, story) = memory.close(pass);
    Ok(ClosedRun { ends, rows, story })
}

/// Runs an image's threads beside each other on a machine, each up to its stop: so many begin by themselves, and each of these may
/// start so many more, which are all of the machine's together. All memory that this takes is taken before the first of them
/// begins.
///
/// # Errors
///
/// `AllocError` is want of memory.
pub fn run_family_beside<R: Threads + Wait + Sync>(
    rt: &R,
    alloc: Global,
    size: &MachineSize,
    image: &Image,
    first: u32,
    spare: u32,
    budget: u64,
) -> Result<ClosedRun<VersionStory>, AllocError>
    requires whole { length image.now.bytes ≡ size.now.mem }
    requires some { 1 ≤ first }
    requires all { first * (1 + spare) ≡ size.now.threads }
    requires budget { budget ≤ most_budget }
    ensures { IfOk result (λ done. HaveRunFrom image.now size.now first spare budget (story_history done.story) done.ends.items done.rows) }
{
    let (memory, pass) = VersionMemory::with_spare(alloc, image, size, first, spare)?;
    family_over(rt, alloc, memory, pass, image, budget)
}
