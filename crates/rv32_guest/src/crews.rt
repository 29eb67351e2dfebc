//! All threads of a RISC-V guest on a memory that threads share.
ghost use Rattle.std.specs.Prelude.{◌≡◌, ◌<◌, ◌≤◌, ◌^◌, ℕ, IfOk, [], All, nat_lt, length, true};
ghost use Rattle.llsc_base.specs.Limits.{most_budget};
ghost use Rattle.history.specs.Parts.{entries_of};
ghost use Rattle.shared_memory.specs.Origin.{IsLegalFrom};
ghost use Rattle.shared_memory.specs.Seen.{IsFront, IsOneOf};
ghost use Rattle.guest_thread.specs.Counting.{accesses_counted, counts_in};
ghost use Rattle.guest_thread.specs.Crews.{IsReadyCrew};
ghost use Rattle.guest_thread.specs.Outcome.{AreEndsOn};
ghost use Rattle.guest_thread.specs.declared.ends.GuestEnd.{GuestEnd};
ghost use Rattle.rv32_guest.specs.Machine.{rv32};

use crate::cpu::RvCpu;
use crate::ready::RvKept;
use guest_thread::{Crew, Job, Ran, prepare, run_all};
use llsc_base::{Image, Stop};
use shared_memory::SharedMemory;
use std::alloc::{AllocError, Global};
use std::sync::Wait;
use std::thread::Threads;

/// What a thread runs with.
pub type RvJob<'i, P> = Job<'i, P, RvCpu, RvKept>;

/// The jobs of all threads in order of number, with room for their ends.
pub type RvCrew<'i, P> = Crew<'i, P, RvCpu, RvKept>;

/// The pass of all threads, and how each ended, in order of number.
pub type RvRan<P> = Ran<P>;

/// The jobs of all threads of a memory, each of which begins by itself, with what they need of memory, so that none is asked for
/// while they run. The pass holds the numbers of all threads, none of which has made an access.
///
/// # Errors
///
/// `AllocError` is want of memory. Then the passes are gone, and the memory can't be closed.
pub fn prepare_rv<'i, M: SharedMemory>(
    alloc: Global,
    mem: &M,
    image: &'i Image,
    first: M::Pass,
) -> Result<RvCrew<'i, M::Pass>, AllocError>
    requires memory { M.home first ≡ M.id mem.now }
    requires numbers { (t : ℕ) → M.numbers first t ≡ nat_lt t (M.origin mem.now).size.threads }
    requires begin { (M.origin mem.now).first ≡ (M.origin mem.now).size.threads }
    requires none { (t : ℕ) → entries_of t (M.seen first) ≡ [] }
    ensures ready { IfOk result (IsReadyCrew rv32 (λ cpu. cpu) M.home M.numbers M.seen (M.id mem.now) (M.origin mem.now) image.now) }
    ensures seen { IfOk result (λ crew. M.seen crew.first_job.pass ≡ M.seen first) }
{
    prepare(alloc, mem, image, first)
}

/// Runs all threads, each on a host thread, up to their stops, and gives how each ended, in order of number, with a pass of all
/// of their numbers. Memory has as many bytes as the image. The budget is at most 1,000,000,000,000 steps for each. No memory is
/// taken from the allocator.
///
/// What they did is in what the pass has seen of the history, which is legal: a thread's accesses there are those of its run, with its
/// end.
pub fn run_rv_all<M: SharedMemory, R: Threads + Wait + Sync>(
    rt: &R,
    mem: &M,
    image: &Image,
    crew: RvCrew<M::Pass>,
    budget: u64,
) -> RvRan<M::Pass>
    requires crew { IsReadyCrew rv32 (λ cpu. cpu) M.home M.numbers M.seen (M.id mem.now) (M.origin mem.now) image.now crew }
    requires whole { length image.now.bytes ≡ (M.origin mem.now).size.mem }
    requires budget { budget ≤ most_budget }
    ensures ends { AreEndsOn rv32 image.now (M.origin mem.now).size budget (M.seen result.pass) result.ends.items }
    ensures spends { All (λ (end : GuestEnd). (addr : ℕ) → end.stop ≡ Stop.TagLimit addr → (M.origin mem.now).spends ≡ true) result.ends.items }
    ensures few { All (λ (end : GuestEnd). accesses_counted (counts_in end) < 2 ^ 45) result.ends.items }
    ensures numbers { (t : ℕ) → t < (M.origin mem.now).size.threads → IsOneOf t (M.numbers result.pass) }
    ensures begins { IsFront (M.seen crew.entry.first_job.pass) (M.seen result.pass) }
    ensures legal { IsLegalFrom (M.origin mem.now) (M.seen result.pass) }
    ensures memory { M.home result.pass ≡ M.id mem.now }
{
    run_all(rt, mem, image, crew, budget)
}
