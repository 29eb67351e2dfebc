//! Branches (DDI 0406C A5.5) and the supervisor call (A5.6).
ghost use Rattle.std.specs.Prelude.{◌≡◌};
ghost use Rattle.llsc_base.specs.Effects.{calls};
ghost use Rattle.a32_instr.specs.Branch.{branched, branches_by_register, call_of};
ghost use Rattle.a32_step.specs.inner.Progress.{progress_of};
ghost use Rattle.a32_step.specs.inner.ExecutionState.{moves};

use super::Execution;
use crate::phases::{Hold, Point, Progress};
use a32_compute::operands::branch_target;
use a32_instr::Reg;
use llsc_base::CallAsk;

impl Execution {
    /// B and BL (DDI 0406C A8.8.18, A8.8.25).
    #[tactic(auto, using(llsc_base::proofs::Words::words_set))]
    pub(super) fn branch(&mut self, link: bool, words: i32) -> Progress
        ensures progress { result ≡ Progress.Complete }
        ensures state { self.new ≡ record self.old { state = branched link words self.old.state } }
    {
        if link {
            self.regs[14] = self.pc.wrapping_add(4);
        }
        self.pc = branch_target(self.pc, words);
        Progress::Complete
    }

    /// BX and BLX (DDI 0406C A8.8.27, A8.8.26): the register is read before the link is written.
    #[inline(never)]
    #[tactic(auto, using(llsc_base::proofs::Words::words_set))]
    pub(super) fn branch_by_register(&mut self, link: bool, rm: Reg) -> Progress
        ensures progress { result ≡ progress_of (branches_by_register link rm self.old.state) }
        ensures state { self.new ≡ moves self.old (branches_by_register link rm self.old.state) }
    {
        let address = self.operand(rm);
        if let Some(stop) = self.stop_at_value(address) {
            return self.stop(stop);
        }
        if link {
            self.regs[14] = self.pc.wrapping_add(4);
        }
        self.pc = address;
        Progress::Complete
    }

    /// SVC (DDI 0406C A8.8.228).
    #[inline(never)]
    pub(super) fn call(&mut self, imm: u32) -> Progress
        ensures progress { result ≡ Progress.Held }
        ensures state { self.new ≡ moves self.old (calls (call_of imm self.old.state)) }
    {
        let call = CallAsk {
            imm,
            number: self.regs[7],
            a: self.regs[0],
            b: self.regs[1],
            c: self.regs[2],
        };
        self.point = Point::Held;
        self.hold = Hold::Call(call);
        Progress::Held
    }
}
