//! The run of a thread that logs its accesses.
ghost use Rattle.std.specs.Prelude.{◌≡◌, ◌<◌, ◌≤◌, ℕ, [], length, true};
ghost use Rattle.llsc_base.specs.Limits.{most_budget};
ghost use Rattle.history.specs.Parts.{accesses_of, entries_of};
ghost use Rattle.shared_memory.specs.Origin.{IsLegalFrom};
ghost use Rattle.shared_memory.specs.Seen.{IsSingle};
ghost use Rattle.version_memory.specs.Memory.{memory_id, memory_origin, pass_home, pass_numbers, pass_seen};
ghost use Rattle.guest_core.specs.Machine.{between};
ghost use Rattle.guest_calls.specs.Bound.{most_accesses_in};
ghost use Rattle.guest_thread.specs.Outcome.{IsEndOn};
ghost use Rattle.run_merge.specs.Crews.{IsUnused};
ghost use Rattle.run_merge.specs.Logs.{IsLogOf};

use crate::logging::Logging;
use crate::logs::Log;
use guest_calls::Output;
use guest_core::{Code, Core};
use guest_thread::{Guest, GuestEnd};
use llsc_base::Stop;
use shared_memory::SharedMemory;
use std::sync::Wait;
use version_memory::{VersionMemory, VersionPass};

/// A thread that has ended: its pass, how it ended, and its log.
#[derive(Drop)]
pub(crate) struct LoggedThread {
    pub(crate) pass: VersionPass,
    pub(crate) end: GuestEnd,
    pub(crate) log: Log,
}

/// Runs a thread as `guest_thread::run_thread` does, and logs its accesses. Nothing was seen before it begins.
pub(crate) fn log_thread<C: Core, R: Wait>(
    rt: &R,
    mem: &VersionMemory,
    mut code: Code<C::Ready>,
    cpu: C,
    pass: VersionPass,
    out: Output,
    log: Log,
    budget: u64,
) -> LoggedThread
    requires memory { pass_home pass ≡ memory_id mem.now }
    requires single { (t : ℕ) × IsSingle t (pass_numbers pass) × (t < (memory_origin mem.now).first) }
    requires none { pass_seen pass ≡ [] }
    requires whole { length code.program.bytes ≡ (memory_origin mem.now).size.mem }
    requires between { C.machine cpu ≡ between (C.machine cpu).state }
    requires empty { out ≡ [] }
    requires unused { IsUnused log }
    requires budget { budget ≤ most_budget }
    ensures end { IsEndOn C.set code.entry.program (memory_origin mem.now).size budget (C.machine cpu) (pass_seen result.pass) result.end }
    ensures spends { (addr : ℕ) → result.end.stop ≡ Stop.TagLimit addr → (memory_origin mem.now).spends ≡ true }
    ensures thread { IsSingle result.end.thread (pass_numbers pass) }
    ensures single { IsSingle result.end.thread (pass_numbers result.pass) }
    ensures memory { pass_home result.pass ≡ pass_home pass }
    ensures few { length (accesses_of (entries_of result.end.thread (pass_seen result.pass))) ≤ most_accesses_in result.end.steps }
    ensures legal { IsLegalFrom (memory_origin mem.now) (pass_seen result.pass) }
    ensures log { IsLogOf (memory_origin mem.now).size result.end.thread (pass_seen result.pass) result.log.entries.items result.log.count }
{
    let most = mem.size().mem();
    prove!(most <= 16_777_216);
    C::is_sound();
    let thread = mem.thread(&pass);
    let mut logging = Logging::new(rt, mem, pass, thread, log);
    let mut guest = Guest::new(cpu, out);
    let stop = guest.run(&(), &mut code, budget, &mut logging);
    let counts = logging.counts();
    let (pass, log) = logging.into_parts();
    let end = GuestEnd {
        thread,
        stop,
        steps: guest.steps(),
        reads: counts.reads,
        writes: counts.writes,
        fails: counts.fails,
        out: guest.into_output(),
    };
    LoggedThread { pass, end, log }
}
