//! Branches ("Conditional Branches").
ghost use Rattle.std.specs.Prelude.{◌≡◌, ◌∷◌, []};
ghost use Rattle.llsc_base.specs.Bits.{bits_of};
ghost use Rattle.rv32_guest.specs.Table.{beq, bne, blt, bge, bltu, bgeu};
ghost use Rattle.rv32_guest.specs.inner.Rows.{Decides};

use crate::bits::{branch_distance, funct3, rs1, rs2};
use crate::instructions::RvInstr;
use llsc_base::DecodeFault;

/// A branch: a word of the opcode 1100011.
#[inline]
pub fn branch(word: u32) -> Result<RvInstr, DecodeFault>
    requires { bits_of word 0 7 ≡ 0x63 }
    ensures { Decides (beq ∷ bne ∷ blt ∷ bge ∷ bltu ∷ bgeu ∷ []) word result }
{
    let rs1 = rs1(word);
    let rs2 = rs2(word);
    let imm = branch_distance(word);
    match funct3(word) {
        0 => Ok(RvInstr::Beq { rs1, rs2, imm }),
        1 => Ok(RvInstr::Bne { rs1, rs2, imm }),
        4 => Ok(RvInstr::Blt { rs1, rs2, imm }),
        5 => Ok(RvInstr::Bge { rs1, rs2, imm }),
        6 => Ok(RvInstr::Bltu { rs1, rs2, imm }),
        7 => Ok(RvInstr::Bgeu { rs1, rs2, imm }),
        _ => Err(DecodeFault::Undefined),
    }
}
