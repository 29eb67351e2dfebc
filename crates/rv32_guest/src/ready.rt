//! RISC-V instructions as a core keeps them ready.
ghost use Rattle.rv32_guest.specs.Kept.{IsKindOf};

use crate::decoder::rv_decode;
use crate::instructions::RvInstr;
use guest_core::Ready;

/// What an instruction is that may have been met.
#[derive(Clone, Copy)]
pub enum Kind {
    /// It wasn't met.
    Unmet,
    /// It makes no access.
    Alone,
    /// It makes an access.
    Accesses,
}

/// An instruction, if it was met.
#[derive(Clone, Copy)]
pub struct RvKept {
    pub(crate) kind: Kind,
    pub(crate) instr: RvInstr,
}

/// The kind of an instruction that was met.
fn kind_of(instr: &RvInstr) -> Kind
    ensures { IsKindOf instr.now result }
{
    match instr {
        RvInstr::Lb { .. }
        | RvInstr::Lh { .. }
        | RvInstr::Lw { .. }
        | RvInstr::Lbu { .. }
        | RvInstr::Lhu { .. }
        | RvInstr::Sb { .. }
        | RvInstr::Sh { .. }
        | RvInstr::Sw { .. }
        | RvInstr::LrW { .. }
        | RvInstr::ScW { .. } => Kind::Accesses,
        _ => Kind::Alone,
    }
}

impl Ready for RvKept {
    ghost use Rattle.rv32_guest.specs.declared.instructions.RvInstr.{RvInstr};
    ghost use Rattle.rv32_guest.specs.Kept.{is_met, IsKindOf};
    ghost use Rattle.rv32_guest.specs.Machine.{instr_at};

    ghost Meaning = { RvInstr };

    ghost found = { instr_at };

    ghost instr = { λ kept. kept.instr };

    ghost is_met = { λ kept. is_met kept.kind };

    ghost is_right = { λ kept. IsKindOf kept.instr kept.kind };

    fn unmet() -> RvKept {
        RvKept {
            kind: Kind::Unmet,
            instr: RvInstr::Fence,
        }
    }

    fn is_met(&self) -> bool {
        !matches!(self.kind, Kind::Unmet)
    }

    fn of_word(word: u32) -> Option<RvKept> {
        let Ok(instr) = rv_decode(word) else {
            return None;
        };
        Some(RvKept {
            kind: kind_of(&instr),
            instr,
        })
    }
}
