//! Guest calls under their numbers of RISC-V.
ghost use Rattle.std.specs.Prelude.{◌≡◌, length};
ghost use Rattle.guest_core.specs.Machine.{IsCalling};
ghost use Rattle.guest_calls.specs.Calls.{call_effect};
ghost use Rattle.guest_calls.specs.Steps.{step_of, after_call, HaveRoom};
ghost use Rattle.rv32_guest.specs.Calls.{call_of, number_of};
ghost use Rattle.rv32_guest.specs.Machine.{rv32};

use crate::cpu::RvCpu;
use guest_calls::{CallStep, Output, guest_call};
use llsc_base::CallAsk;

/// The number of exit, in x17.
const EXIT: u32 = 93;

/// The number of write.
const WRITE: u32 = 64;

/// The number of sched_yield.
const SCHED_YIELD: u32 = 124;

/// The number of a call in the table of guest calls, or 0 where there is no such call.
fn number_of(number: u32) -> u32
    ensures { result ≡ number_of number }
{
    match number {
        EXIT => 1,
        WRITE => 4,
        SCHED_YIELD => 158,
        _ => 0,
    }
}

/// The call of the table that a call is.
pub fn call_of(ask: &CallAsk) -> CallAsk
    ensures { result ≡ call_of ask.now }
{
    CallAsk {
        imm: ask.imm,
        number: number_of(ask.number),
        a: ask.a,
        b: ask.b,
        c: ask.c,
    }
}

/// Makes the guest call that a core waits for, where memory has `mem` bytes and the thread wrote `out` before: exit is 93, write
/// 64 and sched_yield 124, and every other call is answered by -38 (ENOSYS).
///
/// The core is answered where the step is [`CallStep::Answered`]; at [`CallStep::Bytes`] the caller loads the bytes, adds
/// them to the output, and answers the core by their number.
pub fn rv_call(cpu: &mut RvCpu, ask: &CallAsk, mem: u32, out: &mut Output) -> CallStep
    requires { IsCalling cpu.old.phase }
    ensures step { result ≡ step_of (call_effect (call_of ask.now) mem (length out.old)) }
    ensures cpu { cpu.new ≡ after_call rv32 cpu.old (call_effect (call_of ask.now) mem (length out.old)) }
    ensures out { out.new ≡ out.old }
    ensures room { HaveRoom mem (length out.old) result }
{
    guest_call(cpu, ask, mem, out)
}
