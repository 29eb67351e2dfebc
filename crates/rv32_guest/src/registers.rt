//! The registers of a core, and its PC.
ghost use Rattle.std.specs.Prelude.{◌≡◌, ◌%◌, [], ◌∷◌};
ghost use Rattle.rv32_guest.specs.State.{register, with_register, next_pc};

use crate::reg::RvReg;
use std::marker::Model;

/// The registers x0 to x31, of which x0 is always 0, and the PC, a multiple of 4.
#[derive(Drop)]
pub struct Registers {
    values: [u32; 32],
    pc: u32,
}

impl Model for Registers {
    ghost use Rattle.rv32_guest.specs.State.{RvState};

    ghost Value = { RvState };

    ghost use Rattle.rv32_guest.specs.inner.Registers.{state_of, IsRegisters};

    ghost view = { state_of };

    ghost invariant = { IsRegisters };
}

impl Registers {
    /// All 0 but x2, x10 and x11.
    pub fn start(pc: u32, x2: u32, x10: u32, x11: u32) -> Registers
        requires { pc % 4 ≡ 0 }
        ensures { result ≡ record { regs = 0 ∷ 0 ∷ x2 ∷ 0 ∷ 0 ∷ 0 ∷ 0 ∷ 0 ∷ 0 ∷ 0 ∷ x10 ∷ x11 ∷ 0 ∷ 0 ∷ 0 ∷ 0 ∷ 0 ∷ 0 ∷ 0 ∷ 0 ∷ 0 ∷ 0 ∷ 0 ∷ 0 ∷ 0 ∷ 0 ∷ 0 ∷ 0 ∷ 0 ∷ 0 ∷ 0 ∷ 0 ∷ []; pc = pc } }
    {
        let values = [
            0, 0, x2, 0, 0, 0, 0, 0, 0, 0, x10, x11, 0, 0, 0, 0, 0, 0, 0, 0, 0, 0, 0, 0, 0, 0, 0,
            0, 0, 0, 0, 0,
        ];
        Registers { values, pc }
    }

    /// A register's value.
    #[inline]
    #[tactic(auto, using(crate::proofs::Zero::zero_reads))]
    pub fn x(&self, r: RvReg) -> u32
        ensures { result ≡ register self.now r }
    {
        self.values[usize::from(r.num())]
    }

    /// The address of the instruction.
    #[inline]
    pub fn pc(&self) -> u32
        ensures pc { result ≡ self.now.pc }
        ensures aligned { result % 4 ≡ 0 }
    {
        self.pc
    }

    /// The address of the next instruction.
    #[inline]
    pub fn next_pc(&self) -> u32
        ensures pc { result ≡ next_pc self.now }
        ensures aligned { result % 4 ≡ 0 }
    {
        self.pc.wrapping_add(4)
    }

    /// The next instruction stands at `pc`.
    #[inline]
    pub fn go_to(&mut self, pc: u32)
        requires { pc % 4 ≡ 0 }
        ensures { self.new ≡ record self.old { pc = pc } }
    {
        self.pc = pc;
    }

    /// A register gets a value, and the next instruction stands at `pc`.
    #[inline]
    #[tactic(auto, using(llsc_base::proofs::Words::words_set, crate::proofs::Zero::zero_set))]
    pub fn complete(&mut self, rd: RvReg, value: u32, pc: u32)
        requires { pc % 4 ≡ 0 }
        ensures { self.new ≡ record (with_register self.old rd value) { pc = pc } }
    {
        self.values[usize::from(rd.num())] = value;
        self.values[0] = 0;
        self.pc = pc;
    }
}
