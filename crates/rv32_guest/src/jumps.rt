//! Upper immediates and jumps ("Integer Register-Immediate Instructions", "Unconditional Jumps").
ghost use Rattle.std.specs.Prelude.{◌≡◌, ◌∷◌, []};
ghost use Rattle.llsc_base.specs.Bits.{bits_of};
ghost use Rattle.rv32_guest.specs.Table.{lui, auipc, jal, jalr};
ghost use Rattle.rv32_guest.specs.inner.Rows.{Decides};

use crate::bits::{funct3, immediate, jump_distance, rd, rs1};
use crate::instructions::RvInstr;
use llsc_base::{DecodeFault, bits};

/// LUI: a word of the opcode 0110111.
#[inline]
pub fn load_upper(word: u32) -> Result<RvInstr, DecodeFault>
    requires { bits_of word 0 7 ≡ 0x37 }
    ensures { Decides (lui ∷ []) word result }
{
    Ok(RvInstr::Lui {
        rd: rd(word),
        imm: bits(word, 12, 20) * 0x1000,
    })
}

/// AUIPC: a word of the opcode 0010111.
#[inline]
pub fn add_upper(word: u32) -> Result<RvInstr, DecodeFault>
    requires { bits_of word 0 7 ≡ 0x17 }
    ensures { Decides (auipc ∷ []) word result }
{
    Ok(RvInstr::Auipc {
        rd: rd(word),
        imm: bits(word, 12, 20) * 0x1000,
    })
}

/// JAL: a word of the opcode 1101111.
#[inline]
pub fn jump(word: u32) -> Result<RvInstr, DecodeFault>
    requires { bits_of word 0 7 ≡ 0x6f }
    ensures { Decides (jal ∷ []) word result }
{
    Ok(RvInstr::Jal {
        rd: rd(word),
        imm: jump_distance(word),
    })
}

/// JALR: a word of the opcode 1100111.
#[inline]
pub fn jump_by_register(word: u32) -> Result<RvInstr, DecodeFault>
    requires { bits_of word 0 7 ≡ 0x67 }
    ensures { Decides (jalr ∷ []) word result }
{
    if funct3(word) != 0 {
        return Err(DecodeFault::Undefined);
    }
    Ok(RvInstr::Jalr {
        rd: rd(word),
        rs1: rs1(word),
        imm: immediate(word),
    })
}
