//! The numbers that stand in a word for a register, a condition, and each kind of thing.
ghost use Rattle.std.specs.Prelude.{◌≡◌, ◌<◌, ◌*◌, ◌^◌};
ghost use Rattle.a32_instr.specs.DataProcessing.{one_if};
ghost use Rattle.a32_encode.specs.Word.{opcode, shift_bits, long_bits, size_bits, barrier_bits, index_bits, half_bits, operand_bits, word_offset, half_offset, branch_bits};

use a32_instr::{
    AluOp, BarrierKind, Cond, HalfKind, Index, LongKind, Offset, Operand2, Reg, ShiftKind,
};
use llsc_base::Size;

/// A register's number.
pub fn register(reg: Reg) -> u64
    ensures value { result ≡ reg }
    ensures bound { result < 16 }
{
    u64::from(reg.num())
}

/// A condition's number, in bits 31:28 (DDI 0406C A8.3).
pub fn condition(cond: Cond) -> u64
    ensures value { result ≡ cond * 2 ^ 28 }
    ensures bound { result < 2 ^ 32 }
{
    u64::from(cond.num()) * 0x1000_0000
}

/// A bit.
pub fn bit(set: bool) -> u64
    ensures value { result ≡ one_if set }
    ensures bound { result < 2 }
{
    u64::from(set)
}

/// The opcode of a data-processing operation (DDI 0406C table A5-3).
pub fn opcode(op: AluOp) -> u64
    ensures value { result ≡ opcode op }
    ensures bound { result < 16 }
{
    match op {
        AluOp::And => 0,
        AluOp::Eor => 1,
        AluOp::Sub => 2,
        AluOp::Rsb => 3,
        AluOp::Add => 4,
        AluOp::Adc => 5,
        AluOp::Sbc => 6,
        AluOp::Rsc => 7,
        AluOp::Tst => 8,
        AluOp::Teq => 9,
        AluOp::Cmp => 10,
        AluOp::Cmn => 11,
        AluOp::Orr => 12,
        AluOp::Mov => 13,
        AluOp::Bic => 14,
        AluOp::Mvn => 15,
    }
}

/// The encoding of a kind of shift (DDI 0406C A8.4.3).
fn shift(kind: ShiftKind) -> u64
    ensures value { result ≡ shift_bits kind }
    ensures bound { result < 4 }
{
    match kind {
        ShiftKind::Lsl => 0,
        ShiftKind::Lsr => 1,
        ShiftKind::Asr => 2,
        ShiftKind::Ror => 3,
    }
}

/// Bits 22:21 of a long multiplication (DDI 0406C A5.2.5).
pub fn long_kind(kind: LongKind) -> u64
    ensures value { result ≡ long_bits kind }
    ensures bound { result < 4 }
{
    match kind {
        LongKind::Umull => 0,
        LongKind::Umlal => 1,
        LongKind::Smull => 2,
        LongKind::Smlal => 3,
    }
}

/// Bits 22:21 of an exclusive (DDI 0406C A5.2.10).
pub fn exclusive_size(size: Size) -> u64
    ensures value { result ≡ size_bits size }
    ensures bound { result < 4 }
{
    match size {
        Size::B4 => 0,
        Size::B8 => 1,
        Size::B1 => 2,
        Size::B2 => 3,
    }
}

/// Bits 5:4 of a barrier (DDI 0406C A5.7.1).
pub fn barrier_kind(kind: BarrierKind) -> u64
    ensures value { result ≡ barrier_bits kind }
    ensures bound { result < 4 }
{
    match kind {
        BarrierKind::Dsb => 0,
        BarrierKind::Dmb => 1,
        BarrierKind::Isb => 2,
    }
}

/// Bits 24 and 21 of a load or a store (DDI 0406C A8.5).
pub fn index(index: Index) -> u64
    ensures value { result ≡ index_bits index }
    ensures bound { result < 2 ^ 25 }
{
    match index {
        Index::Plain => 0x100_0000,
        Index::Pre => 0x120_0000,
        Index::Post => 0,
    }
}

/// Bits 20 and 7:4 of a halfword or a signed byte (DDI 0406C A5.2.8).
pub fn half_kind(kind: HalfKind) -> u64
    ensures value { result ≡ half_bits kind }
    ensures bound { result < 2 ^ 21 }
{
    match kind {
        HalfKind::Strh => 0xb0,
        HalfKind::Ldrh => 0x10_00b0,
        HalfKind::Ldrsb => 0x10_00d0,
        HalfKind::Ldrsh => 0x10_00f0,
    }
}

/// Bit 25 and bits 11:0 of data processing (DDI 0406C A5.2.1 to A5.2.3).
pub fn second_operand(operand: Operand2) -> u64
    ensures value { result ≡ operand_bits operand }
    ensures bound { result < 2 ^ 26 }
{
    match operand {
        Operand2::Imm { turn, imm8 } => 0x200_0000 + u64::from(turn) * 0x100 + u64::from(imm8),
        Operand2::ByNum { rm, kind, amount } => u64::from(amount) * 0x80
            + shift(kind) * 0x20
            + register(rm),
        Operand2::ByReg { rm, kind, rs } => register(rs) * 0x100
            + shift(kind) * 0x20
            + 0x10
            + register(rm),
    }
}

/// Bits 25, 23 and 11:0 of a load or a store of a word or a byte (DDI 0406C A5.3).
pub fn word_offset(offset: Offset) -> u64
    ensures value { result ≡ word_offset offset }
    ensures bound { result < 2 ^ 26 }
{
    match offset {
        Offset::Imm { add, imm } => bit(add) * 0x80_0000 + u64::from(imm),
        Offset::Shifted {
            add,
            rm,
            kind,
            amount,
        } => {
            0x200_0000
                + bit(add) * 0x80_0000
                + u64::from(amount) * 0x80
                + shift(kind) * 0x20
                + register(rm)
        }
    }
}

/// Bits 23, 22, 11:8 and 3:0 of a halfword or a signed byte (DDI 0406C A5.2.8).
pub fn half_offset(offset: Offset) -> u64
    ensures value { result ≡ half_offset offset }
    ensures bound { result < 2 ^ 25 }
{
    match offset {
        Offset::Imm { add, imm } => {
            let imm = u64::from(imm);
            bit(add) * 0x80_0000 + 0x40_0000 + imm / 0x10 * 0x100 + imm % 0x10
        }
        Offset::Shifted { add, rm, .. } => bit(add) * 0x80_0000 + register(rm),
    }
}

/// A branch's distance in 24 bits (DDI 0406C A8.8.18).
pub fn distance(words: i32) -> u64
    ensures value { result ≡ branch_bits words }
    ensures bound { result < 2 ^ 24 }
{
    words.rem_euclid(0x100_0000) as u64
}
