//! What an instruction does with the registers.
ghost use Rattle.std.specs.Prelude.{◌≡◌, ℕ, List};
ghost use Rattle.llsc_base.specs.Effects.{completes};
ghost use Rattle.llsc_base.specs.Images.{Program};
ghost use Rattle.rv32_guest.specs.Kept.{MakesNoAccess};
ghost use Rattle.rv32_guest.specs.Computing.{moved};
ghost use Rattle.rv32_guest.specs.State.{advanced, next_pc, register, with_register, writes};
ghost use Rattle.rv32_guest.specs.Effect.{acts};
ghost use Rattle.rv32_guest.specs.inner.Outcome.{effect_by, Keeps};

use crate::arithmetic::{
    as_number, difference, even, is_less_signed, moved, shift_left, shift_right, shift_signed, sum,
    word_of,
};
use crate::instructions::RvInstr;
use crate::outcomes::Outcome;
use crate::reg::RvReg;
use crate::registers::Registers;

mod accesses;
mod carrying;
mod control;

impl Registers {
    /// A register gets a value, and the next instruction follows.
    #[inline(always)]
    fn advance_with(&mut self, rd: RvReg, value: u32)
        ensures { self.new ≡ advanced (with_register self.old rd value) }
    {
        let next_pc = self.next_pc();
        self.complete(rd, value, next_pc);
    }

    /// The next instruction follows.
    #[inline(always)]
    fn advance(&mut self)
        ensures { self.new ≡ advanced self.old }
    {
        let next_pc = self.next_pc();
        self.go_to(next_pc);
    }

    /// The instruction is complete, and does nothing.
    #[inline(always)]
    fn pass_by(&mut self) -> Outcome
        ensures effect { effect_by self.new result ≡ completes (advanced self.old) }
        ensures kept { Keeps result self.old self.new }
        ensures next { result ≡ Outcome.Next → self.new.pc ≡ next_pc self.old }
    {
        self.advance();
        Outcome::Next
    }

    /// The instruction is complete with a value in a register.
    #[inline(always)]
    fn write(&mut self, rd: RvReg, value: u32) -> Outcome
        ensures effect { effect_by self.new result ≡ writes self.old rd value }
        ensures kept { Keeps result self.old self.new }
        ensures next { result ≡ Outcome.Next → self.new.pc ≡ next_pc self.old }
    {
        self.advance_with(rd, value);
        Outcome::Next
    }

    /// The address that a load, a store or a JALR has.
    #[inline(always)]
    fn address(&self, rs1: RvReg, imm: i32) -> u32
        ensures { result ≡ moved (register self.now rs1) imm }
    {
        moved(self.x(rs1), imm)
    }

    /// What an instruction does that makes no access.
    #[rattlefmt::skip] // a row for each
    #[inline(always)]
    pub fn act(&mut self, instr: RvInstr) -> Outcome
        requires { MakesNoAccess instr }
        ensures effect { (program : Program) (replies : List ℕ) → effect_by self.new result ≡ acts instr program replies self.old }
        ensures kept { Keeps result self.old self.new }
        ensures next { result ≡ Outcome.Next → self.new.pc ≡ next_pc self.old }
    {
        match instr {
            RvInstr::Lui { rd, imm } => self.write(rd, imm),
            RvInstr::Auipc { rd, imm } => self.write(rd, sum(self.pc(), imm)),
            RvInstr::Jal { rd, imm } => self.jump(rd, moved(self.pc(), imm)),
            RvInstr::Jalr { rd, rs1, imm } => self.jump(rd, even(self.address(rs1, imm))),
            RvInstr::Beq { rs1, rs2, imm } => self.branch(self.x(rs1) == self.x(rs2), imm),
            RvInstr::Bne { rs1, rs2, imm } => self.branch(self.x(rs1) != self.x(rs2), imm),
            RvInstr::Blt { rs1, rs2, imm } => self.branch(is_less_signed(self.x(rs1), self.x(rs2)), imm),
            RvInstr::Bge { rs1, rs2, imm } => self.branch(!is_less_signed(self.x(rs1), self.x(rs2)), imm),
            RvInstr::Bltu { rs1, rs2, imm } => self.branch(self.x(rs1) < self.x(rs2), imm),
            RvInstr::Bgeu { rs1, rs2, imm } => self.branch(self.x(rs1) >= self.x(rs2), imm),
            RvInstr::Addi { rd, rs1, imm } => self.write(rd, sum(self.x(rs1), word_of(imm))),
            RvInstr::Slti { rd, rs1, imm } => self.write(rd, as_number(is_less_signed(self.x(rs1), word_of(imm)))),
            RvInstr::Sltiu { rd, rs1, imm } => self.write(rd, as_number(self.x(rs1) < word_of(imm))),
            RvInstr::Xori { rd, rs1, imm } => self.write(rd, self.x(rs1) ^ word_of(imm)),
            RvInstr::Ori { rd, rs1, imm } => self.write(rd, self.x(rs1) | word_of(imm)),
            RvInstr::Andi { rd, rs1, imm } => self.write(rd, self.x(rs1) & word_of(imm)),
            RvInstr::Slli { rd, rs1, amount } => self.write(rd, shift_left(self.x(rs1), u32::from(amount))),
            RvInstr::Srli { rd, rs1, amount } => self.write(rd, shift_right(self.x(rs1), u32::from(amount))),
            RvInstr::Srai { rd, rs1, amount } => self.write(rd, shift_signed(self.x(rs1), u32::from(amount))),
            RvInstr::Add { rd, rs1, rs2 } => self.write(rd, sum(self.x(rs1), self.x(rs2))),
            RvInstr::Sub { rd, rs1, rs2 } => self.write(rd, difference(self.x(rs1), self.x(rs2))),
            RvInstr::Sll { rd, rs1, rs2 } => self.write(rd, shift_left(self.x(rs1), self.x(rs2))),
            RvInstr::Slt { rd, rs1, rs2 } => self.write(rd, as_number(is_less_signed(self.x(rs1), self.x(rs2)))),
            RvInstr::Sltu { rd, rs1, rs2 } => self.write(rd, as_number(self.x(rs1) < self.x(rs2))),
            RvInstr::Xor { rd, rs1, rs2 } => self.write(rd, self.x(rs1) ^ self.x(rs2)),
            RvInstr::Srl { rd, rs1, rs2 } => self.write(rd, shift_right(self.x(rs1), self.x(rs2))),
            RvInstr::Sra { rd, rs1, rs2 } => self.write(rd, shift_signed(self.x(rs1), self.x(rs2))),
            RvInstr::Or { rd, rs1, rs2 } => self.write(rd, self.x(rs1) | self.x(rs2)),
            RvInstr::And { rd, rs1, rs2 } => self.write(rd, self.x(rs1) & self.x(rs2)),
            RvInstr::Fence => self.pass_by(),
            RvInstr::Ecall => Outcome::Calls(self.call()),
            _ => unreachable!(),
        }
    }
}
