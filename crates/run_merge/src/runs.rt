//! A run that its threads recorded.
ghost use Rattle.std.specs.Prelude.{◌≡◌, ◌≤◌, ◌^◌, ◌<◌, ℕ, All, length, true};
ghost use Rattle.llsc_base.specs.Limits.{most_budget};
ghost use Rattle.shared_memory.specs.Origin.{IsLegalFrom};
ghost use Rattle.shared_memory.specs.Seen.{IsOneOf};
ghost use Rattle.version_memory.specs.Memory.{memory_id, memory_origin, pass_home, pass_numbers, pass_seen};
ghost use Rattle.guest_thread.specs.Counting.{accesses_counted, counts_in};
ghost use Rattle.guest_thread.specs.Outcome.{AreEndsOn};
ghost use Rattle.guest_thread.specs.declared.ends.GuestEnd.{GuestEnd};
ghost use Rattle.run_merge.specs.Crews.{IsReadyToLog};
ghost use Rattle.run_merge.specs.Runs.{KeepLogs};

use crate::crews::LogCrew;
use crate::joins::{Recorded, log_jobs};
use crate::logs::Log;
use guest_core::Core;
use guest_thread::{Crew, GuestEnd, Ran};
use llsc_base::{Image, MachineSize, Stop};
use shared_memory::SharedMemory;
use std::sync::Wait;
use std::thread::Threads;
use version_memory::{VersionMemory, VersionPass};

/// A run that its threads recorded: the memory's size, the pass of all threads, how each ended, and their logs, in order of number.
///
/// A log's count is how many accesses its thread has in what the pass has seen of the history, and its entries are the first
/// 1,000,000 of them, each load and each store with its stamp there.
#[derive(Drop)]
pub struct LoggedRun {
    /// The size of the memory.
    pub size: MachineSize,
    /// The pass of all threads, which has seen what they did.
    pub pass: VersionPass,
    /// How each thread ended.
    pub ends: Vec<GuestEnd>,
    /// What each thread logged.
    pub logs: Vec<Log>,
    ghost kept: { KeepLogs size (pass_seen pass) logs.items },
}

/// Runs all threads, each on a host thread, up to their stops, as `guest_thread::run_all` does, and each logs its accesses. Memory
/// has as many bytes as the image. The budget is at most 1,000,000,000,000 steps for each. No memory is taken from the allocator.
///
/// What they did is in what the pass has seen of the history: a thread's accesses there are those of its run, with its end.
pub fn log_all<C: Core, R: Threads + Wait + Sync>(
    rt: &R,
    mem: &VersionMemory,
    image: &Image,
    crew: LogCrew<C, C::Ready>,
    budget: u64,
) -> LoggedRun
    requires crew { IsReadyToLog C.set C.machine (memory_id mem.now) (memory_origin mem.now) image.now crew }
    requires whole { length image.now.bytes ≡ (memory_origin mem.now).size.mem }
    requires budget { budget ≤ most_budget }
    ensures size { result.size ≡ (memory_origin mem.now).size }
    ensures ends { AreEndsOn C.set image.now (memory_origin mem.now).size budget (pass_seen result.pass) result.ends.items }
    ensures spends { All (λ (end : GuestEnd). (addr : ℕ) → end.stop ≡ Stop.TagLimit addr → (memory_origin mem.now).spends ≡ true) result.ends.items }
    ensures few { All (λ (end : GuestEnd). accesses_counted (counts_in end) < 2 ^ 45) result.ends.items }
    ensures legal { IsLegalFrom (memory_origin mem.now) (pass_seen result.pass) }
    ensures numbers { (t : ℕ) → t < (memory_origin mem.now).size.threads → IsOneOf t (pass_numbers result.pass) }
    ensures memory { pass_home result.pass ≡ memory_id mem.now }
{
    let LogCrew { crew, logs } = crew;
    let Crew {
        first_job,
        jobs,
        ends,
    } = crew;
    let size = mem.size();
    let Recorded { ran, logs } = log_jobs(rt, mem, image, first_job, jobs, ends, logs, budget);
    let Ran { pass, ends } = ran;
    LoggedRun {
        size,
        pass,
        ends,
        logs,
    }
}
