//! A32 instructions as a core keeps them ready.
ghost use Rattle.std.specs.Prelude.{◌≡◌, ℕ, true, if◌then◌else◌, List, ◌≤◌, IfSome, IfNone};
ghost use Rattle.llsc_base.specs.Effects.{completes};
ghost use Rattle.llsc_base.specs.Images.{Program};
ghost use Rattle.a32_instr.specs.Condition.{passes};
ghost use Rattle.a32_instr.specs.Effect.{acts};
ghost use Rattle.a32_instr.specs.State.{State, advanced};
ghost use Rattle.a32_step.specs.declared.lowered.Lowered.{Lowered};
ghost use Rattle.a32_step.specs.RowActs.{is_met_row, row_acts, IsKeptOf};
ghost use Rattle.a32_step.specs.inner.Lowering.{DoesBranch, DoesUnder, DoesWhere, IsWhole};

use crate::lowered::Lowered;
use crate::rows::Row;
use a32_decode::decode;
use a32_instr::{Cond, Instr};
use guest_core::Ready;

/// An A32 instruction with its operands, or one that wasn't met.
#[derive(Clone, Copy)]
pub struct Kept {
    /// What it does, with its condition.
    pub(crate) row: Row,
    pub(crate) lowered: Lowered,
}

const _: () = prove!(size_of::<Kept>() == 32);

/// The row of a branch under a condition.
fn branch_row(cond: Cond) -> Row
    ensures does { DoesBranch cond result }
    ensures met { is_met_row result ≡ true }
{
    match cond.num() {
        0 => Row::BranchEq,
        1 => Row::BranchNe,
        2 => Row::BranchCs,
        3 => Row::BranchCc,
        4 => Row::BranchMi,
        5 => Row::BranchPl,
        6 => Row::BranchVs,
        7 => Row::BranchVc,
        8 => Row::BranchHi,
        9 => Row::BranchLs,
        10 => Row::BranchGe,
        11 => Row::BranchLt,
        12 => Row::BranchGt,
        13 => Row::BranchLe,
        _ => Row::Branch,
    }
}

/// The row of what an instruction does under a condition.
fn if_row(cond: Cond) -> Option<Row>
    ensures does { IfSome result (DoesWhere cond) }
    ensures met { IfSome result (λ row. is_met_row row ≡ true) }
    ensures always { IfNone result (14 ≤ cond) }
{
    match cond.num() {
        0 => Some(Row::IfEq),
        1 => Some(Row::IfNe),
        2 => Some(Row::IfCs),
        3 => Some(Row::IfCc),
        4 => Some(Row::IfMi),
        5 => Some(Row::IfPl),
        6 => Some(Row::IfVs),
        7 => Some(Row::IfVc),
        8 => Some(Row::IfHi),
        9 => Some(Row::IfLs),
        10 => Some(Row::IfGe),
        11 => Some(Row::IfLt),
        12 => Some(Row::IfGt),
        13 => Some(Row::IfLe),
        _ => None,
    }
}

/// The row of an instruction that does what a row does where its condition passes.
fn row_under(row: Row, cond: Cond) -> Row
    requires { IsWhole row }
    ensures does { DoesUnder cond row result }
    ensures met { is_met_row result ≡ true }
{
    if let Row::Branch = row {
        return branch_row(cond);
    }
    match if_row(cond) {
        Some(under) => under,
        None => row,
    }
}

impl Kept {
    /// What is kept of an instruction.
    fn of(instr: Instr) -> Kept
        ensures kept { IsKeptOf instr result }
        ensures met { is_met_row result.row ≡ true }
    {
        let lowered = Lowered::of(instr);
        Kept {
            row: row_under(lowered.row, instr.cond()),
            lowered,
        }
    }
}

impl Ready for Kept {
    ghost use Rattle.a32_instr.specs.declared.instructions.Instr.{Instr};
    ghost use Rattle.a32_step.specs.Machine.{instr_at};
    ghost use Rattle.a32_step.specs.RowActs.{is_met_row, IsKeptOf};

    ghost Meaning = { Instr };

    ghost found = { instr_at };

    ghost instr = { λ kept. kept.lowered.instr };

    ghost is_met = { λ kept. is_met_row kept.row };

    ghost is_right = { λ kept. IsKeptOf kept.lowered.instr kept };

    fn unmet() -> Kept {
        Kept {
            row: Row::Unmet,
            lowered: Lowered::other(Instr::Nop { cond: Cond::ALWAYS }),
        }
    }

    fn is_met(&self) -> bool {
        !matches!(self.row, Row::Unmet)
    }

    fn of_word(word: u32) -> Option<Kept> {
        let Ok(instr) = decode(word) else {
            return None;
        };
        Some(Kept::of(instr))
    }
}
