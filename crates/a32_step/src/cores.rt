//! The core of an A32 thread as the core of a guest thread.

use crate::cpu::Cpu;
use crate::kept::Kept;
use crate::phases::Came;
use guest_core::{Core, Passage, TryPort, Wanted};
use llsc_base::{CallAsk, Image};

impl Core for Cpu {
    type Ready = Kept;

    ghost use Rattle.a32_instr.specs.declared.instructions.Instr.{Instr as A32Instr};
    ghost use Rattle.a32_instr.specs.State.{State as A32State};
    ghost use Rattle.a32_step.specs.Machine.{a32};

    ghost Instr = { A32Instr };

    ghost State = { A32State };

    ghost set = { a32 };

    ghost machine = { λ m. m };

    fn start(entry: u32, t: u32, n: u32, sp: u32) -> Cpu {
        Cpu::start(entry, t, n, sp)
    }

    #[inline(always)]
    fn pc(&self) -> u32 {
        Cpu::pc(self)
    }

    #[inline(always)]
    fn next(&mut self, image: &Image) -> Wanted {
        Cpu::next(self, image)
    }

    /// It is at its start where it calls, stops, or accesses memory and the port has no reply at once. It is under way where the
    /// port has no reply at once to a later access of its block, or where it loads a PC that may not be.
    #[inline(always)]
    fn carry<P: TryPort>(&mut self, kept: &Kept, image: &Image, port: &mut P) -> Passage {
        match self.execution.come_kept(kept, image, port) {
            Came::Unmet => Passage::Unmet,
            Came::Next => Passage::Next,
            Came::Jumped => Passage::Jumped,
            Came::Held => self.put_back(image),
            Came::Passed => unreachable!(),
        }
    }

    #[inline(always)]
    fn give(&mut self, reply: u64) {
        Cpu::give(self, reply);
    }

    fn asked_call(&self) -> CallAsk {
        Cpu::asked_call(self)
    }

    fn answer(&mut self, value: u32) {
        Cpu::answer(self, value);
    }

    #[inline(always)]
    fn is_between(&self) -> bool {
        Cpu::is_between(self)
    }

    fn numbered(ask: &CallAsk) -> CallAsk {
        *ask
    }

    #[tactic(auto, using(crate::proofs::Tested::next_passes, crate::proofs::Tested::next_own))]
    fn is_sound() {}
}
