//! The core of a RISC-V guest as one of the cores that run guests.
use crate::calls::call_of;
use crate::cpu::RvCpu;
use crate::ready::{Kind, RvKept};
use guest_core::{Core, Passage, TryPort, Wanted};
use llsc_base::{CallAsk, Image};

impl Core for RvCpu {
    type Ready = RvKept;

    ghost use Rattle.rv32_guest.specs.declared.instructions.RvInstr.{RvInstr as RvInstruction};
    ghost use Rattle.rv32_guest.specs.Machine.{rv32};
    ghost use Rattle.rv32_guest.specs.State.{RvState};

    ghost Instr = { RvInstruction };

    ghost State = { RvState };

    ghost set = { rv32 };

    ghost machine = { λ m. m };

    fn start(entry: u32, t: u32, n: u32, sp: u32) -> RvCpu {
        RvCpu::start(entry, t, n, sp)
    }

    /// It is complete, or at its start: where it calls, stops, or makes an access that the port doesn't.
    #[inline(always)]
    fn carry<P: TryPort>(&mut self, kept: &RvKept, image: &Image, port: &mut P) -> Passage {
        match kept.kind {
            Kind::Unmet => Passage::Unmet,
            Kind::Alone => self.registers.carry_alone(kept.instr),
            Kind::Accesses => self.registers.carry_access(kept.instr, image, port),
        }
    }

    #[inline(always)]
    fn pc(&self) -> u32 {
        RvCpu::pc(self)
    }

    #[inline(always)]
    fn next(&mut self, image: &Image) -> Wanted {
        RvCpu::next(self, image)
    }

    #[inline(always)]
    fn give(&mut self, reply: u64) {
        RvCpu::give(self, reply);
    }

    fn asked_call(&self) -> CallAsk {
        RvCpu::asked_call(self)
    }

    fn answer(&mut self, value: u32) {
        RvCpu::answer(self, value);
    }

    #[inline(always)]
    fn is_between(&self) -> bool {
        RvCpu::is_between(self)
    }

    fn numbered(ask: &CallAsk) -> CallAsk {
        call_of(ask)
    }

    #[tactic(auto, using(crate::proofs::Sound::next_passes, crate::proofs::Sound::next_own))]
    fn is_sound() {}
}
