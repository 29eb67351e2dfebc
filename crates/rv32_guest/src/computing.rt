//! Computing with an immediate, and with registers ("Integer Computational Instructions").
ghost use Rattle.std.specs.Prelude.{◌≡◌, ◌∷◌, []};
ghost use Rattle.llsc_base.specs.Bits.{bits_of};
ghost use Rattle.rv32_guest.specs.Table.{addi, slti, sltiu, xori, ori, andi, slli, srli, srai, add, sub, sll, slt, sltu, xor, srl, sra, or, and};
ghost use Rattle.rv32_guest.specs.inner.Rows.{Decides};

use crate::bits::{amount, funct3, immediate, rd, rs1, rs2};
use crate::instructions::RvInstr;
use llsc_base::{DecodeFault, bits};

/// Computing with an immediate: a word of the opcode 0010011.
#[inline]
pub fn with_immediate(word: u32) -> Result<RvInstr, DecodeFault>
    requires { bits_of word 0 7 ≡ 0x13 }
    ensures { Decides (addi ∷ slti ∷ sltiu ∷ xori ∷ ori ∷ andi ∷ slli ∷ srli ∷ srai ∷ []) word result }
{
    let rd = rd(word);
    let rs1 = rs1(word);
    let imm = immediate(word);
    match funct3(word) {
        0 => Ok(RvInstr::Addi { rd, rs1, imm }),
        2 => Ok(RvInstr::Slti { rd, rs1, imm }),
        3 => Ok(RvInstr::Sltiu { rd, rs1, imm }),
        4 => Ok(RvInstr::Xori { rd, rs1, imm }),
        6 => Ok(RvInstr::Ori { rd, rs1, imm }),
        7 => Ok(RvInstr::Andi { rd, rs1, imm }),
        1 => shift_left(word),
        _ => shift_right(word),
    }
}

/// SLLI.
#[inline]
fn shift_left(word: u32) -> Result<RvInstr, DecodeFault>
    requires opcode { bits_of word 0 7 ≡ 0x13 }
    requires left { bits_of word 12 3 ≡ 1 }
    ensures { Decides (slli ∷ []) word result }
{
    if bits(word, 25, 7) != 0 {
        return Err(DecodeFault::Undefined);
    }
    Ok(RvInstr::Slli {
        rd: rd(word),
        rs1: rs1(word),
        amount: amount(word),
    })
}

/// SRLI and SRAI.
#[inline]
fn shift_right(word: u32) -> Result<RvInstr, DecodeFault>
    requires opcode { bits_of word 0 7 ≡ 0x13 }
    requires right { bits_of word 12 3 ≡ 5 }
    ensures { Decides (srli ∷ srai ∷ []) word result }
{
    let rd = rd(word);
    let rs1 = rs1(word);
    let amount = amount(word);
    match bits(word, 25, 7) {
        0 => Ok(RvInstr::Srli { rd, rs1, amount }),
        0x20 => Ok(RvInstr::Srai { rd, rs1, amount }),
        _ => Err(DecodeFault::Undefined),
    }
}

/// Computing with registers: a word of the opcode 0110011.
#[inline]
pub fn with_registers(word: u32) -> Result<RvInstr, DecodeFault>
    requires { bits_of word 0 7 ≡ 0x33 }
    ensures { Decides (add ∷ sub ∷ sll ∷ slt ∷ sltu ∷ xor ∷ srl ∷ sra ∷ or ∷ and ∷ []) word result }
{
    match bits(word, 25, 7) {
        0 => plain(word),
        0x20 => turned(word),
        _ => Err(DecodeFault::Undefined),
    }
}

/// The computations whose bits 31:25 are 0.
#[inline]
fn plain(word: u32) -> Result<RvInstr, DecodeFault>
    requires opcode { bits_of word 0 7 ≡ 0x33 }
    requires plain { bits_of word 25 7 ≡ 0 }
    ensures { Decides (add ∷ sll ∷ slt ∷ sltu ∷ xor ∷ srl ∷ or ∷ and ∷ []) word result }
{
    let rd = rd(word);
    let rs1 = rs1(word);
    let rs2 = rs2(word);
    match funct3(word) {
        0 => Ok(RvInstr::Add { rd, rs1, rs2 }),
        1 => Ok(RvInstr::Sll { rd, rs1, rs2 }),
        2 => Ok(RvInstr::Slt { rd, rs1, rs2 }),
        3 => Ok(RvInstr::Sltu { rd, rs1, rs2 }),
        4 => Ok(RvInstr::Xor { rd, rs1, rs2 }),
        5 => Ok(RvInstr::Srl { rd, rs1, rs2 }),
        6 => Ok(RvInstr::Or { rd, rs1, rs2 }),
        _ => Ok(RvInstr::And { rd, rs1, rs2 }),
    }
}

/// SUB and SRA.
#[inline]
fn turned(word: u32) -> Result<RvInstr, DecodeFault>
    requires opcode { bits_of word 0 7 ≡ 0x33 }
    requires turned { bits_of word 25 7 ≡ 0x20 }
    ensures { Decides (sub ∷ sra ∷ []) word result }
{
    let rd = rd(word);
    let rs1 = rs1(word);
    let rs2 = rs2(word);
    match funct3(word) {
        0 => Ok(RvInstr::Sub { rd, rs1, rs2 }),
        5 => Ok(RvInstr::Sra { rd, rs1, rs2 }),
        _ => Err(DecodeFault::Undefined),
    }
}
