//! The run of a RISC-V thread on a memory that threads share.
ghost use Rattle.std.specs.Prelude.{◌≡◌, ◌≤◌, ℕ, [], length, true};
ghost use Rattle.llsc_base.specs.Limits.{most_budget};
ghost use Rattle.history.specs.Parts.{accesses_of, entries_of};
ghost use Rattle.shared_memory.specs.Calls.{MayUse};
ghost use Rattle.shared_memory.specs.Seen.{IsFront, IsSingle};
ghost use Rattle.guest_core.specs.Machine.{between};
ghost use Rattle.guest_calls.specs.Bound.{most_accesses_in};
ghost use Rattle.guest_thread.specs.Outcome.{IsEndOn};
ghost use Rattle.rv32_guest.specs.Machine.{rv32};

use crate::cpu::RvCpu;
use crate::ready::RvKept;
use guest_calls::Output;
use guest_core::Code;
use guest_thread::{Finished, run_thread};
use llsc_base::Stop;
use shared_memory::SharedMemory;
use std::sync::Wait;

/// Runs a thread that may act on a memory that threads share, up to its stop, with a pass that holds its number alone. Its core is between
/// two instructions, and it has made no access and written nothing; memory has as many bytes as the code's image. The budget is at most
/// 1,000,000,000,000 steps. No memory is taken from the allocator.
///
/// What it did is in what the pass has seen of the history: its accesses there are those of a run of the core, with this end.
/// They are at most 16 for each of its steps, and at most 65,552 besides.
pub fn run_rv_thread<M: SharedMemory, R: Wait>(
    rt: &R,
    mem: &M,
    code: Code<RvKept>,
    cpu: RvCpu,
    pass: M::Pass,
    out: Output,
    budget: u64,
) -> Finished<M::Pass>
    requires memory { M.home pass ≡ M.id mem.now }
    requires single { MayUse (M.origin mem.now) (M.numbers pass) (M.seen pass) }
    requires none { (t : ℕ) → IsSingle t (M.numbers pass) → entries_of t (M.seen pass) ≡ [] }
    requires whole { length code.program.bytes ≡ (M.origin mem.now).size.mem }
    requires between { cpu ≡ between cpu.state }
    requires empty { out ≡ [] }
    requires budget { budget ≤ most_budget }
    ensures end { IsEndOn rv32 code.entry.program (M.origin mem.now).size budget cpu (M.seen result.pass) result.end }
    ensures spends { (addr : ℕ) → result.end.stop ≡ Stop.TagLimit addr → (M.origin mem.now).spends ≡ true }
    ensures thread { IsSingle result.end.thread (M.numbers pass) }
    ensures single { IsSingle result.end.thread (M.numbers result.pass) }
    ensures begins { IsFront (M.seen pass) (M.seen result.pass) }
    ensures memory { M.home result.pass ≡ M.home pass }
    ensures few { length (accesses_of (entries_of result.end.thread (M.seen result.pass))) ≤ most_accesses_in result.end.steps }
{
    run_thread(rt, mem, code, cpu, pass, out, budget)
}
