//! Data processing (DDI 0406C A5.2).
ghost use Rattle.std.specs.Prelude.{◌≡◌, true};
ghost use Rattle.a32_instr.specs.DataProcessing.{operand_of, alu};
ghost use Rattle.a32_step.specs.inner.Progress.{progress_of};
ghost use Rattle.a32_step.specs.inner.ExecutionState.{moves};

use super::Execution;
use crate::phases::Progress;
use a32_compute::arithmetic::{compute, value_of};
use a32_compute::shifts::{immediate, shift, shift_by_number};
use a32_instr::{AluOp, Operand2, Reg, Shifted};

impl Execution {
    /// The second operand of a data-processing instruction.
    #[inline(always)]
    fn second_operand(&self, operand: Operand2) -> Shifted
        ensures { result ≡ operand_of operand self.now.state }
    {
        match operand {
            Operand2::Imm { turn, imm8 } => immediate(turn, imm8, self.flags.c),
            Operand2::ByNum { rm, kind, amount } => {
                shift_by_number(kind, self.operand(rm), amount, self.flags.c)
            }
            Operand2::ByReg { rm, kind, rs } => {
                shift(kind, self.operand(rm), self.operand(rs) % 256, self.flags.c)
            }
        }
    }

    /// Data processing that sets the flags.
    #[inline(always)]
    fn alu_with_flags(&mut self, op: AluOp, rd: Reg, rn: Reg, operand: Operand2) -> Progress
        ensures progress { result ≡ progress_of (alu op true rd rn operand self.old.state) }
        ensures state { self.new ≡ moves self.old (alu op true rd rn operand self.old.state) }
    {
        let second = self.second_operand(operand);
        let computed = compute(op, self.operand(rn), second, self.flags);
        if op.is_compare() {
            self.flags = computed.flags;
            return self.advance();
        }
        self.write(computed.flags, rd, computed.value)
    }

    /// Data processing (DDI 0406C A5.2).
    #[inline(always)]
    pub(super) fn alu(
        &mut self,
        op: AluOp,
        sets: bool,
        rd: Reg,
        rn: Reg,
        operand: Operand2,
    ) -> Progress
        ensures progress { result ≡ progress_of (alu op sets rd rn operand self.old.state) }
        ensures state { self.new ≡ moves self.old (alu op sets rd rn operand self.old.state) }
    {
        if sets {
            return self.alu_with_flags(op, rd, rn, operand);
        }
        if op.is_compare() {
            return self.advance();
        }
        let second = self.second_operand(operand);
        let value = value_of(op, self.operand(rn), second, self.flags);
        self.write(self.flags, rd, value)
    }
}
