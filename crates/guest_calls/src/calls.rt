//! The table of guest calls.
ghost use Rattle.std.specs.Prelude.{◌≡◌, length};
ghost use Rattle.guest_core.specs.Machine.{IsCalling};
ghost use Rattle.guest_calls.specs.Calls.{call_effect, is_start_call, write_effect};
ghost use Rattle.guest_calls.specs.Outcomes.{effect_of_outcome};
ghost use Rattle.guest_calls.specs.Steps.{step_of, after_call, HaveRoom};

use crate::output::Output;
use guest_core::Core;
use llsc_base::CallAsk;

/// The number of exit.
const EXIT: u32 = 1;

/// The number of write.
const WRITE: u32 = 4;

/// The number of sched_yield.
const SCHED_YIELD: u32 = 158;

/// The number of the call that starts a thread.
const START: u32 = 0xf_0001;

/// The answer where there is no such call: minus 38, ENOSYS.
const NO_CALL: u32 = 0xffff_ffda;

/// The answer where there is no such descriptor: minus 9, EBADF.
const BAD_DESCRIPTOR: u32 = 0xffff_fff7;

/// The answer where the bytes reach past memory: minus 14, EFAULT.
const BAD_ADDRESS: u32 = 0xffff_fff2;

/// The answer where the output has no room for the bytes: minus 28, ENOSPC.
const NO_ROOM: u32 = 0xffff_ffe4;

/// What becomes of a guest call.
#[derive(Clone, Copy, Debug, PartialEq, Eq)]
pub enum CallStep {
    /// The thread ends with this code.
    Exit(u8),
    /// The call was answered, and the thread goes on.
    Answered,
    /// So many bytes of memory from an address up are to be loaded and written; the answer is then their number.
    Bytes { from: u32, len: u32 },
}

/// What a guest call does, by the table: nothing of it is done yet.
#[derive(Clone, Copy, Debug, PartialEq, Eq)]
pub enum CallOutcome {
    /// The thread ends with this code.
    Exit(u8),
    /// The call is answered.
    Answer(u32),
    /// So many bytes of memory from an address up are to be loaded and written; the answer is then their number.
    Bytes { from: u32, len: u32 },
}

/// What a guest call does, where memory has `mem` bytes and the thread wrote `out` before.
///
/// Where the immediate is 0, number 1 is exit, with the low 8 bits of the first argument; number 4 is write, of so many bytes as
/// the third says from the address that the second is, where the first is 1 or 2; and number 158 is sched_yield, answered by 0.
/// A write is answered by -9 (EBADF) where the first is another, and otherwise by 0 where the third is 0, by -14 (EFAULT) where
/// the bytes reach past memory, and by -28 (ENOSPC) where the output has no room for them. Every other call is answered by -38
/// (ENOSYS).
pub fn outcome_of(ask: &CallAsk, mem: u32, out: &Output) -> CallOutcome
    ensures effect { effect_of_outcome result ≡ call_effect ask.now mem (length out.now) }
    ensures room { HaveRoom mem (length out.now) (step_of (effect_of_outcome result)) }
{
    if ask.imm != 0 {
        return CallOutcome::Answer(NO_CALL);
    }
    match ask.number {
        EXIT => CallOutcome::Exit((ask.a & 0xff) as u8),
        WRITE => write(ask, mem, out),
        SCHED_YIELD => CallOutcome::Answer(0),
        _ => CallOutcome::Answer(NO_CALL),
    }
}

/// Whether a call is to start a thread, for a thread that may start some: number 0xF0001, where the immediate is 0.
pub fn is_start_call(ask: &CallAsk) -> bool
    ensures { result ≡ is_start_call ask.now }
{
    ask.number == START && ask.imm == 0
}

/// A write: the first argument is the descriptor, the second the address of the bytes, and the third their number.
fn write(ask: &CallAsk, mem: u32, out: &Output) -> CallOutcome
    ensures effect { effect_of_outcome result ≡ write_effect ask.now.a ask.now.b ask.now.c mem (length out.now) }
    ensures room { HaveRoom mem (length out.now) (step_of (effect_of_outcome result)) }
{
    if ask.a != 1 && ask.a != 2 {
        return CallOutcome::Answer(BAD_DESCRIPTOR);
    }
    if ask.c == 0 {
        return CallOutcome::Answer(0);
    }
    if u64::from(ask.b) + u64::from(ask.c) > u64::from(mem) {
        return CallOutcome::Answer(BAD_ADDRESS);
    }
    if ask.c > out.room_left() {
        return CallOutcome::Answer(NO_ROOM);
    }
    CallOutcome::Bytes {
        from: ask.b,
        len: ask.c,
    }
}

/// Makes the guest call that a core waits for ([`outcome_of`]), where memory has `mem` bytes and the thread wrote `out` before.
///
/// The core is answered where the step is [`CallStep::Answered`]; at [`CallStep::Bytes`] the caller loads the bytes, adds
/// them to the output, and answers the core by their number.
pub fn guest_call<C: Core>(core: &mut C, ask: &CallAsk, mem: u32, out: &mut Output) -> CallStep
    requires { IsCalling (C.machine core.old).phase }
    ensures step { result ≡ step_of (call_effect (C.set.call_of ask.now) mem (length out.old)) }
    ensures core { C.machine core.new ≡ after_call C.set (C.machine core.old) (call_effect (C.set.call_of ask.now) mem (length out.old)) }
    ensures out { out.new ≡ out.old }
    ensures room { HaveRoom mem (length out.old) result }
{
    match outcome_of(&C::numbered(ask), mem, out) {
        CallOutcome::Exit(code) => CallStep::Exit(code),
        CallOutcome::Answer(value) => {
            core.answer(value);
            CallStep::Answered
        }
        CallOutcome::Bytes { from, len } => CallStep::Bytes { from, len },
    }
}
