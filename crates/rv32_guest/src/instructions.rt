//! The instructions, by the fields of their words.

use crate::reg::RvReg;

/// An instruction of RV32I without EBREAK, or of Zalrsc (The RISC-V Instruction Set Manual, Volume I, chapters "RV32I Base
/// Integer Instruction Set" and "A Extension"). `rd`, `rs1` and `rs2` are registers.
#[derive(Clone, Copy, Debug)]
pub enum RvInstr {
    /// LUI: `imm`, whose low twelve bits are 0.
    Lui { rd: RvReg, imm: u32 },
    /// AUIPC: the address of the instruction plus `imm`, whose low twelve bits are 0.
    Auipc { rd: RvReg, imm: u32 },
    /// JAL: a jump by `imm` bytes, with the address of the next instruction in `rd`.
    Jal { rd: RvReg, imm: i32 },
    /// JALR: a jump to `rs1` plus `imm`, with bit 0 cleared.
    Jalr { rd: RvReg, rs1: RvReg, imm: i32 },
    /// BEQ: a jump by `imm` bytes where both are equal.
    Beq { rs1: RvReg, rs2: RvReg, imm: i32 },
    /// BNE: where they are not.
    Bne { rs1: RvReg, rs2: RvReg, imm: i32 },
    /// BLT: where the first is less, both read as signed.
    Blt { rs1: RvReg, rs2: RvReg, imm: i32 },
    /// BGE: where it isn't.
    Bge { rs1: RvReg, rs2: RvReg, imm: i32 },
    /// BLTU: where the first is less.
    Bltu { rs1: RvReg, rs2: RvReg, imm: i32 },
    /// BGEU: where it isn't.
    Bgeu { rs1: RvReg, rs2: RvReg, imm: i32 },
    /// LB: the byte at `rs1` plus `imm`, with its sign.
    Lb { rd: RvReg, rs1: RvReg, imm: i32 },
    /// LH: the halfword, with its sign.
    Lh { rd: RvReg, rs1: RvReg, imm: i32 },
    /// LW: the word.
    Lw { rd: RvReg, rs1: RvReg, imm: i32 },
    /// LBU: the byte, with zeros above it.
    Lbu { rd: RvReg, rs1: RvReg, imm: i32 },
    /// LHU: the halfword, with zeros above it.
    Lhu { rd: RvReg, rs1: RvReg, imm: i32 },
    /// SB: the low byte of `rs2` at `rs1` plus `imm`.
    Sb { rs1: RvReg, rs2: RvReg, imm: i32 },
    /// SH: the low halfword.
    Sh { rs1: RvReg, rs2: RvReg, imm: i32 },
    /// SW: the word.
    Sw { rs1: RvReg, rs2: RvReg, imm: i32 },
    /// ADDI: the sum.
    Addi { rd: RvReg, rs1: RvReg, imm: i32 },
    /// SLTI: 1 where the first is less, both read as signed, and 0 otherwise.
    Slti { rd: RvReg, rs1: RvReg, imm: i32 },
    /// SLTIU: 1 where the first is less than `imm` modulo 2 to the 32, and 0 otherwise.
    Sltiu { rd: RvReg, rs1: RvReg, imm: i32 },
    /// XORI: bit by bit.
    Xori { rd: RvReg, rs1: RvReg, imm: i32 },
    /// ORI: bit by bit.
    Ori { rd: RvReg, rs1: RvReg, imm: i32 },
    /// ANDI: bit by bit.
    Andi { rd: RvReg, rs1: RvReg, imm: i32 },
    /// SLLI: shifted left by `amount`, from 0 to 31.
    Slli { rd: RvReg, rs1: RvReg, amount: u8 },
    /// SRLI: shifted right, with zeros above.
    Srli { rd: RvReg, rs1: RvReg, amount: u8 },
    /// SRAI: shifted right, with the sign above.
    Srai { rd: RvReg, rs1: RvReg, amount: u8 },
    /// ADD: the sum.
    Add { rd: RvReg, rs1: RvReg, rs2: RvReg },
    /// SUB: the difference.
    Sub { rd: RvReg, rs1: RvReg, rs2: RvReg },
    /// SLL: shifted left by the low five bits of `rs2`.
    Sll { rd: RvReg, rs1: RvReg, rs2: RvReg },
    /// SLT: 1 where the first is less, both read as signed, and 0 otherwise.
    Slt { rd: RvReg, rs1: RvReg, rs2: RvReg },
    /// SLTU: 1 where the first is less, and 0 otherwise.
    Sltu { rd: RvReg, rs1: RvReg, rs2: RvReg },
    /// XOR: bit by bit.
    Xor { rd: RvReg, rs1: RvReg, rs2: RvReg },
    /// SRL: shifted right, with zeros above.
    Srl { rd: RvReg, rs1: RvReg, rs2: RvReg },
    /// SRA: shifted right, with the sign above.
    Sra { rd: RvReg, rs1: RvReg, rs2: RvReg },
    /// OR: bit by bit.
    Or { rd: RvReg, rs1: RvReg, rs2: RvReg },
    /// AND: bit by bit.
    And { rd: RvReg, rs1: RvReg, rs2: RvReg },
    /// FENCE, of any kind: it does nothing, since every access has its place in one order.
    Fence,
    /// LR.W: the word at `rs1`, with a reservation.
    LrW { rd: RvReg, rs1: RvReg },
    /// SC.W: the word `rs2` at `rs1`, if the reservation stands; 0 where it was stored, and 1 where not.
    ScW { rd: RvReg, rs1: RvReg, rs2: RvReg },
    /// ECALL: a guest call.
    Ecall,
}
