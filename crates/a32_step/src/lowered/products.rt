//! Multiplications whose operands are found beforehand.
ghost use Rattle.std.specs.Prelude.{IfSome};
ghost use Rattle.a32_step.specs.RowActs.{IsLoweredOf};
ghost use Rattle.a32_step.specs.inner.Lowering.{DoesLong, IsWhole};

use super::Lowered;
use crate::low::Low;
use crate::rows::Row;
use a32_instr::{Instr, LongKind};

/// The row of a product of 64 bits.
fn long_row(kind: LongKind) -> Row
    ensures does { DoesLong kind result }
    ensures whole { IsWhole result }
{
    match kind {
        LongKind::Umull => Row::Umull,
        LongKind::Umlal => Row::Umlal,
        LongKind::Smull => Row::Smull,
        LongKind::Smlal => Row::Smlal,
    }
}

impl Lowered {
    /// MUL with its row, where it has one: it sets no flags.
    pub(super) fn with_product(instr: &Instr) -> Option<Lowered>
        ensures { IfSome result (IsLoweredOf instr.now) }
    {
        let Instr::Mul { s, rd, rn, rm, .. } = instr else {
            return None;
        };
        if *s {
            return None;
        }
        Some(Lowered {
            row: Row::Mul,
            d: Low::of(*rd)?,
            n: Low::of(*rn)?,
            m: Low::of(*rm)?,
            ..Lowered::other(*instr)
        })
    }

    /// MLA with its row, where it has one: it sets no flags.
    pub(super) fn with_sum(instr: &Instr) -> Option<Lowered>
        ensures { IfSome result (IsLoweredOf instr.now) }
    {
        let Instr::Mla {
            s,
            rd,
            rn,
            rm,
            ra,
            ..
        } = instr
        else {
            return None;
        };
        if *s {
            return None;
        }
        Some(Lowered {
            row: Row::Mla,
            d: Low::of(*rd)?,
            n: Low::of(*rn)?,
            m: Low::of(*rm)?,
            a: Low::of(*ra)?,
            ..Lowered::other(*instr)
        })
    }

    /// A product of 64 bits with its row, where it has one: it sets no flags. Its high half goes to the fourth register.
    pub(super) fn with_long(instr: &Instr) -> Option<Lowered>
        ensures { IfSome result (IsLoweredOf instr.now) }
    {
        let Instr::Long {
            kind,
            s,
            lo,
            hi,
            rn,
            rm,
            ..
        } = instr
        else {
            return None;
        };
        if *s {
            return None;
        }
        Some(Lowered {
            row: long_row(*kind),
            d: Low::of(*lo)?,
            n: Low::of(*rn)?,
            m: Low::of(*rm)?,
            a: Low::of(*hi)?,
            ..Lowered::other(*instr)
        })
    }
}
