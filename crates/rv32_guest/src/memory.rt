//! Loads and stores ("Load and Store Instructions"), and load-reserved and store-conditional ("Zalrsc").
ghost use Rattle.std.specs.Prelude.{◌≡◌, ◌∷◌, []};
ghost use Rattle.llsc_base.specs.Bits.{bits_of};
ghost use Rattle.rv32_guest.specs.Table.{lb, lh, lw, lbu, lhu, sb, sh, sw, lr_w, sc_w};
ghost use Rattle.rv32_guest.specs.inner.Rows.{Decides};

use crate::bits::{funct3, immediate, rd, rs1, rs2, store_offset};
use crate::instructions::RvInstr;
use llsc_base::{DecodeFault, bits};

/// A load: a word of the opcode 0000011.
#[inline]
pub fn load(word: u32) -> Result<RvInstr, DecodeFault>
    requires { bits_of word 0 7 ≡ 0x03 }
    ensures { Decides (lb ∷ lh ∷ lw ∷ lbu ∷ lhu ∷ []) word result }
{
    let rd = rd(word);
    let rs1 = rs1(word);
    let imm = immediate(word);
    match funct3(word) {
        0 => Ok(RvInstr::Lb { rd, rs1, imm }),
        1 => Ok(RvInstr::Lh { rd, rs1, imm }),
        2 => Ok(RvInstr::Lw { rd, rs1, imm }),
        4 => Ok(RvInstr::Lbu { rd, rs1, imm }),
        5 => Ok(RvInstr::Lhu { rd, rs1, imm }),
        _ => Err(DecodeFault::Undefined),
    }
}

/// A store: a word of the opcode 0100011.
#[inline]
pub fn store(word: u32) -> Result<RvInstr, DecodeFault>
    requires { bits_of word 0 7 ≡ 0x23 }
    ensures { Decides (sb ∷ sh ∷ sw ∷ []) word result }
{
    let rs1 = rs1(word);
    let rs2 = rs2(word);
    let imm = store_offset(word);
    match funct3(word) {
        0 => Ok(RvInstr::Sb { rs1, rs2, imm }),
        1 => Ok(RvInstr::Sh { rs1, rs2, imm }),
        2 => Ok(RvInstr::Sw { rs1, rs2, imm }),
        _ => Err(DecodeFault::Undefined),
    }
}

/// LR.W or SC.W: a word of the opcode 0101111.
#[inline]
pub fn atomic(word: u32) -> Result<RvInstr, DecodeFault>
    requires { bits_of word 0 7 ≡ 0x2f }
    ensures { Decides (lr_w ∷ sc_w ∷ []) word result }
{
    if funct3(word) != 2 {
        return Err(DecodeFault::Undefined);
    }
    let rd = rd(word);
    let rs1 = rs1(word);
    let rs2 = rs2(word);
    match bits(word, 27, 5) {
        2 if rs2.num() == 0 => Ok(RvInstr::LrW { rd, rs1 }),
        3 => Ok(RvInstr::ScW { rd, rs1, rs2 }),
        _ => Err(DecodeFault::Undefined),
    }
}
