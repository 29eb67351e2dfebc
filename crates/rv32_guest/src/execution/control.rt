//! Jumps, branches and guest calls ("Control Transfer Instructions", "Environment Call and Breakpoints").
ghost use Rattle.std.specs.Prelude.{◌≡◌, ◌%◌};
ghost use Rattle.rv32_guest.specs.State.{jumps, next_pc};
ghost use Rattle.rv32_guest.specs.Effect.{branches, call_in};
ghost use Rattle.rv32_guest.specs.inner.Outcome.{effect_by, Keeps};

use crate::arithmetic::moved;
use crate::outcomes::Outcome;
use crate::reg::RvReg;
use crate::registers::Registers;
use llsc_base::{CallAsk, Stop};

impl Registers {
    /// A jump, with the address of the next instruction in a register.
    #[inline(always)]
    pub(super) fn jump(&mut self, rd: RvReg, target: u32) -> Outcome
        ensures effect { effect_by self.new result ≡ jumps self.old rd target }
        ensures kept { Keeps result self.old self.new }
        ensures next { result ≡ Outcome.Next → self.new.pc ≡ next_pc self.old }
    {
        if target % 4 != 0 {
            return Outcome::Stops(Stop::Alignment(target));
        }
        let next_pc = self.next_pc();
        self.complete(rd, next_pc, target);
        Outcome::Jumps
    }

    /// A branch.
    #[inline(always)]
    pub(super) fn branch(&mut self, taken: bool, distance: i32) -> Outcome
        ensures effect { effect_by self.new result ≡ branches self.old taken distance }
        ensures kept { Keeps result self.old self.new }
        ensures next { result ≡ Outcome.Next → self.new.pc ≡ next_pc self.old }
    {
        if taken {
            self.jump(RvReg::ZERO, moved(self.pc(), distance))
        } else {
            self.pass_by()
        }
    }

    /// The guest call that an ECALL makes.
    pub(super) fn call(&self) -> CallAsk
        ensures { result ≡ call_in self.now }
    {
        CallAsk {
            imm: 0,
            number: self.x(RvReg::new(17)),
            a: self.x(RvReg::new(10)),
            b: self.x(RvReg::new(11)),
            c: self.x(RvReg::new(12)),
        }
    }
}
