//! Threads that log their accesses, each at its start.
ghost use Rattle.std.specs.Prelude.{◌≡◌, ◌<◌, ◌+◌, ℕ, All, IfOk, [], nat_lt, vec_len};
ghost use Rattle.history.specs.Parts.{entries_of};
ghost use Rattle.version_memory.specs.Memory.{memory_id, memory_origin, pass_home, pass_numbers, pass_seen};
ghost use Rattle.run_merge.specs.Crews.{IsReadyToLog, IsUnused};

use crate::logs::Log;
use guest_core::{Core, Ready};
use guest_thread::{Crew, prepare};
use llsc_base::Image;
use shared_memory::SharedMemory;
use std::alloc::{AllocError, Global};
use version_memory::{VersionMemory, VersionPass};

/// The jobs of all threads in order of number, with room for their ends, and a log for each.
#[derive(Drop)]
pub struct LogCrew<'i, C, I: Ready> {
    /// The threads, as `guest_thread::prepare` makes them ready.
    pub crew: Crew<'i, VersionPass, C, I>,
    /// Logs of nothing, as many as there are threads.
    pub logs: Vec<Log>,
}

/// So many logs of nothing.
fn unused_logs(alloc: Global, count: usize) -> Result<Vec<Log>, AllocError>
    ensures unused { IfOk result (λ logs. All IsUnused logs.items) }
    ensures len { IfOk result (λ logs. vec_len logs ≡ count) }
{
    let mut logs = Vec::with_capacity(alloc, count)?;
    while logs.len() < count {
        logs.push(Log::new(alloc)?)?;
    }
    Ok(logs)
}

/// The jobs of all threads of a memory, each of which begins by itself, with what they need of memory, so that none is asked for
/// while they run: for each a log with room for 1,000,000 accesses. The pass holds the numbers of all threads, none of which has made
/// an access.
///
/// # Errors
///
/// `AllocError` is want of memory. Then the passes are gone, and the memory can't be closed.
pub fn log_crew<'i, C: Core>(
    alloc: Global,
    mem: &VersionMemory,
    image: &'i Image,
    first: VersionPass,
) -> Result<LogCrew<'i, C, C::Ready>, AllocError>
    requires memory { pass_home first ≡ memory_id mem.now }
    requires numbers { (t : ℕ) → pass_numbers first t ≡ nat_lt t (memory_origin mem.now).size.threads }
    requires begin { (memory_origin mem.now).first ≡ (memory_origin mem.now).size.threads }
    requires none { (t : ℕ) → entries_of t (pass_seen first) ≡ [] }
    ensures { IfOk result (IsReadyToLog C.set C.machine (memory_id mem.now) (memory_origin mem.now) image.now) }
{
    let crew: Crew<VersionPass, C, C::Ready> = prepare(alloc, mem, image, first)?;
    let logs = unused_logs(alloc, crew.jobs.len() + 1)?;
    Ok(LogCrew { crew, logs })
}
