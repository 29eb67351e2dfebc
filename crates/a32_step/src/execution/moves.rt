//! Wide moves, CLZ, REV and extends (DDI 0406C A5.2, A5.4.3).
ghost use Rattle.std.specs.Prelude.{◌≡◌};
ghost use Rattle.a32_instr.specs.Moves.{moves_wide, moves_top, counts_zeros, reverses, extends};
ghost use Rattle.a32_step.specs.inner.Progress.{progress_of};
ghost use Rattle.a32_step.specs.inner.ExecutionState.{moves};

use super::Execution;
use crate::phases::Progress;
use a32_compute::parts::{extend, reverse, with_upper_half};
use a32_compute::shifts::rotate_right;
use a32_instr::Reg;

impl Execution {
    /// MOVW (DDI 0406C A8.8.102).
    #[inline(never)]
    pub(super) fn move_wide(&mut self, rd: Reg, imm: u16) -> Progress
        ensures progress { result ≡ progress_of (moves_wide rd imm self.old.state) }
        ensures state { self.new ≡ moves self.old (moves_wide rd imm self.old.state) }
    {
        self.write(self.flags, rd, u32::from(imm))
    }

    /// MOVT (DDI 0406C A8.8.106).
    #[inline(never)]
    pub(super) fn move_top(&mut self, rd: Reg, imm: u16) -> Progress
        ensures progress { result ≡ progress_of (moves_top rd imm self.old.state) }
        ensures state { self.new ≡ moves self.old (moves_top rd imm self.old.state) }
    {
        let value = with_upper_half(self.operand(rd), imm);
        self.write(self.flags, rd, value)
    }

    /// CLZ (DDI 0406C A8.8.33).
    #[inline(never)]
    pub(super) fn count_zeros(&mut self, rd: Reg, rm: Reg) -> Progress
        ensures progress { result ≡ progress_of (counts_zeros rd rm self.old.state) }
        ensures state { self.new ≡ moves self.old (counts_zeros rd rm self.old.state) }
    {
        let value = self.operand(rm).leading_zeros();
        self.write(self.flags, rd, value)
    }

    /// SXTB, SXTH, UXTB and UXTH (DDI 0406C A8.8.233, A8.8.235, A8.8.274, A8.8.276).
    #[inline(never)]
    pub(super) fn extend(
        &mut self,
        unsigned: bool,
        half: bool,
        rd: Reg,
        rm: Reg,
        turn: u8,
    ) -> Progress
        ensures progress { result ≡ progress_of (extends unsigned half rd rm turn self.old.state) }
        ensures state { self.new ≡ moves self.old (extends unsigned half rd rm turn self.old.state) }
    {
        let turned = rotate_right(self.operand(rm), 8 * u32::from(turn));
        self.write(self.flags, rd, extend(unsigned, half, turned))
    }

    /// REV (DDI 0406C A8.8.145).
    #[inline(never)]
    pub(super) fn reverse(&mut self, rd: Reg, rm: Reg) -> Progress
        ensures progress { result ≡ progress_of (reverses rd rm self.old.state) }
        ensures state { self.new ≡ moves self.old (reverses rd rm self.old.state) }
    {
        let value = reverse(self.operand(rm));
        self.write(self.flags, rd, value)
    }
}
