//! The core of a guest thread, of whatever instruction set.
ghost use Rattle.std.specs.Prelude.{◌≡◌, ◌<◌, ◌≤◌, ◌%◌, ◌+◌, ◌^◌, length, false, true, IsTrue};
ghost use Rattle.llsc_base.specs.Images.{Program};
ghost use Rattle.llsc_base.specs.declared.outside.Ask.{Ask};
ghost use Rattle.llsc_base.specs.declared.outside.Stop.{Stop};
ghost use Rattle.llsc_base.specs.Effects.{asks, stops};
ghost use Rattle.llsc_base.specs.Words.{low32};
ghost use Rattle.guest_core.specs.Phase as phase;
ghost use Rattle.guest_core.specs.Machine.{MachineOf, InstructionSet, after_of, between, given, next_of, returned_of, start_in, wanted_of, Follows, GoesOn, GoesOnWith, IsAwaiting, IsCalling, IsHeld, IsOwn, AwaitsNothing, IsTested, PassesTests};
ghost use Rattle.guest_core.specs.Known.{IsRightAt};
ghost use Rattle.guest_core.specs.Passages.{IsCarriedOnOf, IsHeldBack};

use crate::phases::{Passage, Wanted};
use crate::ports::TryPort;
use crate::ready::Ready;
use llsc_base::{CallAsk, Image};

/// A core that carries out the instructions of a set one access at a time. What it stands for is a machine of that set.
pub trait Core: Send + Drop {
    /// An instruction as it is kept ready.
    type Ready: Ready;

    /// The instructions.
    ghost Instr: { Type 0 };

    /// Registers and PC.
    ghost State: { Type 0 };

    /// What each instruction does.
    ghost set: { InstructionSet Instr State };

    /// The machine that a core stands for.
    ghost machine: { Self → MachineOf Instr State };

    /// The start of guest thread `t` of `n` at `entry`, a multiple of 4, with this stack pointer.
    fn start(entry: u32, t: u32, n: u32, sp: u32) -> Self
        requires { entry % 4 ≡ 0 }
        ensures { machine result ≡ start_in set entry t n sp };

    /// The address of the instruction in hand, or of the next one.
    fn pc(&self) -> u32
        ensures pc { result ≡ set.pc_of (machine self.now).state }
        ensures aligned { result % 4 ≡ 0 };

    /// Goes on until something is wanted from outside; neither a reply nor an answer may be awaited.
    fn next(&mut self, image: &Image) -> Wanted
        requires { AwaitsNothing (machine self.old).phase }
        ensures wanted { result ≡ wanted_of (next_of set image.now (machine self.old)) }
        ensures state { machine self.new ≡ after_of set image.now (machine self.old) }
        ensures follows { Follows (machine self.old) result (machine self.new) }
        ensures tested { IsTested image.now (machine self.old).replies result };

    /// Carries the next instruction through, as it is kept ready, over a port. The core is between
    /// two instructions, and the port's memory has as many bytes as the program.
    ///
    /// The instruction is complete; or the core is between two instructions as it was, or under way with the replies that it had,
    /// and [`Core::next`] goes on from there: what it does next doesn't complete the instruction. Nothing is done where it wasn't
    /// met.
    fn carry<P: TryPort>(&mut self, kept: &Self::Ready, image: &Image, port: &mut P) -> Passage
        requires rest { machine self.old ≡ between (machine self.old).state }
        requires kept { IsRightAt Self.Ready.is_met Self.Ready.found Self.Ready.instr Self.Ready.is_right image.now (set.pc_of (machine self.old).state) kept.now }
        requires mem { P.mem port.old ≡ length image.now.bytes }
        requires few { P.counted port.old + 16 ≤ 2 ^ 63 }
        ensures carried { IsCarriedOnOf set P.replies image.now (machine self.old) port.old result (machine self.new) port.new }
        ensures next { result ≡ Passage.Next → set.pc_of (machine self.new).state ≡ low32 (set.pc_of (machine self.old).state + 4) }
        ensures met { result ≡ Passage.Next → Self.Ready.is_met kept.now ≡ true }
        ensures unmet { result ≡ Passage.Unmet → (Self.Ready.is_met kept.now ≡ false) × (machine self.new ≡ machine self.old) }
        ensures held { IsHeldBack result → IsHeld (next_of set image.now (machine self.new)) }
        ensures room { length (machine self.new).replies ≤ 16 }
        ensures mem { P.mem port.new ≡ P.mem port.old }
        ensures counted { P.counted port.new ≤ P.counted port.old + 16 };

    /// The reply to the access that is awaited; one must be.
    fn give(&mut self, reply: u64)
        requires { IsAwaiting (machine self.old).phase }
        ensures state { machine self.new ≡ given (machine self.old) reply }
        ensures ready { AwaitsNothing (machine self.new).phase }
        ensures one_more { length (machine self.new).replies ≡ length (machine self.old).replies + 1 }
        ensures room { length (machine self.new).replies ≤ 16 };

    /// The guest call whose answer is awaited; one must be.
    fn asked_call(&self) -> CallAsk
        requires { IsCalling (machine self.now).phase }
        ensures { (machine self.now).phase ≡ phase.Calling result };

    /// The answer of the guest call that is awaited, which is over then; one must be.
    fn answer(&mut self, value: u32)
        requires { IsCalling (machine self.old).phase }
        ensures { machine self.new ≡ returned_of set (machine self.old) value };

    /// Whether it is between two instructions.
    fn is_between(&self) -> bool
        ensures rest { IsTrue result → machine self.now ≡ between (machine self.now).state }
        ensures all { machine self.now ≡ between (machine self.now).state → IsTrue result };

    /// The call of the table of guest calls that a call of this core is.
    fn numbered(ask: &CallAsk) -> CallAsk
        ensures { result ≡ set.call_of ask.now };

    /// The law that an access which is asked for next has passed its tests, and that its instruction has had fewer than 16
    /// replies; and that a stop is one that an instruction makes.
    fn is_sound()
        ensures passes { (program : Program) (core : MachineOf Instr State) (asked : Ask) → GoesOn core.phase →
            next_of set program core ≡ asks asked → PassesTests program asked }
        ensures room { (program : Program) (core : MachineOf Instr State) (asked : Ask) → GoesOnWith core.phase core.replies →
            next_of set program core ≡ asks asked → length core.replies < 16 }
        ensures own { (program : Program) (core : MachineOf Instr State) (why : Stop) → GoesOn core.phase →
            next_of set program core ≡ stops why → IsOwn why };
}
