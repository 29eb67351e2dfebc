//! A piece of the run of a thread of A32 instructions.
ghost use Rattle.std.specs.Prelude.{◌≡◌, ◌≤◌, ℕ, length};
ghost use Rattle.llsc_base.specs.Limits.{most_budget};
ghost use Rattle.shared_memory.specs.Calls.{MayUse};
ghost use Rattle.shared_memory.specs.Seen.{IsSingle};
ghost use Rattle.guest_core.specs.Machine.{between};
ghost use Rattle.a32_step.specs.Machine.{a32};
ghost use Rattle.guest_thread.specs.Pieces.{CountFew, IsPiece, counts_by};

use a32_step::{Cpu, Kept};
use guest_core::Code;
use guest_thread::{Part, Paused};
use shared_memory::SharedMemory;
use std::sync::Wait;

/// [`guest_thread::go_on`] for a thread of A32 instructions, with its conditions and its promises.
///
/// A generic function is compiled once for each crate that gives it a core, and the way of an instruction is compiled into the loop
/// over instructions only where there is one such loop. So whoever goes on with threads of A32 instructions piece by piece does it by
/// this one.
pub fn go_on<M: SharedMemory, R: Wait>(
    rt: &R,
    mem: &M,
    code: &mut Code<Kept>,
    part: Part<M::Pass, Cpu>,
    upto: u64,
    budget: u64,
    starts: bool,
) -> Paused<M::Pass, Cpu>
    requires memory { M.home part.pass ≡ M.id mem.now }
    requires single { MayUse (M.origin mem.now) (M.numbers part.pass) (M.seen part.pass) }
    requires whole { length code.old.program.bytes ≡ (M.origin mem.now).size.mem }
    requires between { part.cpu ≡ between part.cpu.state }
    requires few { CountFew (counts_by part) part.steps part.out }
    requires upto { (part.steps ≤ upto) × (upto ≤ budget) }
    requires budget { budget ≤ most_budget }
    ensures program { code.new.program ≡ code.old.program }
    ensures piece { (t : ℕ) → IsSingle t (M.numbers part.pass) → IsPiece a32 (λ m. m) M.home M.numbers M.seen (M.id mem.now) (M.origin mem.now) code.old.program starts upto budget t part result }
{
    guest_thread::go_on(rt, mem, code, part, upto, budget, starts)
}
