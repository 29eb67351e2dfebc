//! Data-processing instructions and their neighbours (DDI 0406C A5.2).
ghost use Rattle.std.specs.Prelude.{◌≡◌, ◌<◌, ◌==◌, ◌&&◌, ◌∷◌, []};
ghost use Rattle.llsc_base.specs.Bits.{bits_of};
ghost use Rattle.a32_instr.specs.Fields.{alu_fits, alu_op, alu_unpredictable, shift_kind};
ghost use Rattle.a32_instr.specs.Table.{alu_imm, alu_by_num, alu_by_reg, half_imm, half_reg, movw, movt, nop, yields, mul, mla, mls, long, clz, branch_reg, load_ex, store_ex};
ghost use Rattle.a32_decode.specs.inner.Rows.{Decides, rows_of_registers};

use crate::bits::{bit, condition, register};
use crate::pc::{one_of_2_is_pc, one_of_4_is_pc};
use crate::{branch, extra_load_store, multiply, synchronization};
use a32_instr::{AluOp, Instr, Operand2, Reg, ShiftKind};
use llsc_base::{DecodeFault, bits};

/// Data processing with registers, multiplications, exclusives, halfwords and signed bytes: a word whose bits 27:25
/// are 000 (DDI 0406C A5.2).
#[inline]
pub fn with_registers(word: u32) -> Result<Instr, DecodeFault>
    requires group { bits_of word 25 3 ≡ 0 }
    requires cond { bits_of word 28 4 < 15 }
    ensures { Decides rows_of_registers word result }
{
    if !bit(word, 4) {
        return shifted_by_number(word);
    }
    if !bit(word, 7) {
        return shifted_by_register(word);
    }
    if bits(word, 4, 4) != 9 {
        return extra_load_store::half(word);
    }
    if bit(word, 24) {
        return synchronization::exclusive(word);
    }
    multiply::multiplication(word)
}

/// Data processing with an immediate, wide moves and hints: a word whose bits 27:25 are 001 (DDI 0406C A5.2).
#[inline]
#[tactic(auto, using(a32_instr::proofs::SilentCompare::silent_compare))]
pub fn with_immediate(word: u32) -> Result<Instr, DecodeFault>
    requires group { bits_of word 25 3 ≡ 1 }
    requires cond { bits_of word 28 4 < 15 }
    ensures { Decides (alu_imm ∷ movw ∷ movt ∷ nop ∷ yields ∷ []) word result }
{
    if is_silent_compare(word) {
        return wide_move_or_hint(word);
    }
    immediate(word)
}

/// Data processing with an immediate (DDI 0406C A5.2.3).
#[inline]
fn immediate(word: u32) -> Result<Instr, DecodeFault>
    requires group { bits_of word 25 3 ≡ 1 }
    requires cond { bits_of word 28 4 < 15 }
    ensures { Decides (alu_imm ∷ []) word result }
{
    if !is_form(word) {
        return Err(DecodeFault::Undefined);
    }
    if sets_flags_and_pc(word) {
        return Err(DecodeFault::Unpredictable);
    }
    let operand = Operand2::Imm {
        turn: bits(word, 8, 4) as u8,
        imm8: bits(word, 0, 8) as u8,
    };
    Ok(alu(word, operand))
}

/// Data processing with a register that is shifted by a number (DDI 0406C A5.2.1).
#[inline]
fn shifted_by_number(word: u32) -> Result<Instr, DecodeFault>
    requires group { bits_of word 25 3 ≡ 0 }
    requires by_number { bits_of word 4 1 ≡ 0 }
    requires cond { bits_of word 28 4 < 15 }
    ensures { Decides (alu_by_num ∷ []) word result }
{
    if !is_form(word) {
        return Err(DecodeFault::Undefined);
    }
    if sets_flags_and_pc(word) {
        return Err(DecodeFault::Unpredictable);
    }
    let operand = Operand2::ByNum {
        rm: register(word, 0),
        kind: kind_of_shift(bits(word, 5, 2)),
        amount: bits(word, 7, 5) as u8,
    };
    Ok(alu(word, operand))
}

/// Data processing with a register that is shifted by another, and its neighbours (DDI 0406C A5.2.2, A5.2.12).
#[inline]
#[tactic(auto, using(a32_instr::proofs::SilentCompare::silent_compare))]
fn shifted_by_register(word: u32) -> Result<Instr, DecodeFault>
    requires group { bits_of word 25 3 ≡ 0 }
    requires by_register { bits_of word 4 1 ≡ 1 }
    requires no_product { bits_of word 7 1 ≡ 0 }
    requires cond { bits_of word 28 4 < 15 }
    ensures { Decides (alu_by_reg ∷ clz ∷ branch_reg ∷ []) word result }
{
    if is_silent_compare(word) {
        return miscellaneous(word);
    }
    if !is_form(word) {
        return Err(DecodeFault::Undefined);
    }
    let rm = register(word, 0);
    let rs = register(word, 8);
    if one_of_4_is_pc(register(word, 16), register(word, 12), rs, rm) {
        return Err(DecodeFault::Unpredictable);
    }
    let operand = Operand2::ByReg {
        rm,
        kind: kind_of_shift(bits(word, 5, 2)),
        rs,
    };
    Ok(alu(word, operand))
}

/// MOVW, MOVT and hints (DDI 0406C A5.2, A5.2.11).
#[inline]
fn wide_move_or_hint(word: u32) -> Result<Instr, DecodeFault>
    requires group { bits_of word 25 3 ≡ 1 }
    requires compare { bits_of word 23 2 ≡ 2 }
    requires silent { bits_of word 20 1 ≡ 0 }
    requires cond { bits_of word 28 4 < 15 }
    ensures { Decides (movw ∷ movt ∷ nop ∷ yields ∷ []) word result }
{
    if bit(word, 21) {
        return hint(word);
    }
    let rd = register(word, 12);
    if rd.num() == 15 {
        return Err(DecodeFault::Unpredictable);
    }
    let cond = condition(word);
    let imm = (bits(word, 16, 4) * 0x1000 + bits(word, 0, 12)) as u16;
    if bit(word, 22) {
        return Ok(Instr::Movt { cond, rd, imm });
    }
    Ok(Instr::Movw { cond, rd, imm })
}

/// NOP and YIELD (DDI 0406C A5.2.11).
#[inline]
fn hint(word: u32) -> Result<Instr, DecodeFault>
    requires group { bits_of word 25 3 ≡ 1 }
    requires compare { bits_of word 23 2 ≡ 2 }
    requires silent { bits_of word 20 2 ≡ 2 }
    requires cond { bits_of word 28 4 < 15 }
    ensures { Decides (nop ∷ yields ∷ []) word result }
{
    let cond = condition(word);
    match bits(word, 0, 23) {
        0x20f000 => Ok(Instr::Nop { cond }),
        0x20f001 => Ok(Instr::Yield { cond }),
        _ => Err(DecodeFault::Undefined),
    }
}

/// Miscellaneous instructions (DDI 0406C A5.2.12).
#[inline]
fn miscellaneous(word: u32) -> Result<Instr, DecodeFault>
    requires group { bits_of word 25 3 ≡ 0 }
    requires compare { bits_of word 23 2 ≡ 2 }
    requires silent { bits_of word 20 1 ≡ 0 }
    requires cond { bits_of word 28 4 < 15 }
    ensures { Decides (clz ∷ branch_reg ∷ []) word result }
{
    if bits(word, 21, 2) == 1 {
        return branch::by_register(word);
    }
    leading_zeros(word)
}

/// CLZ (DDI 0406C A8.8.33).
#[inline]
fn leading_zeros(word: u32) -> Result<Instr, DecodeFault>
    requires group { bits_of word 25 3 ≡ 0 }
    requires compare { bits_of word 23 2 ≡ 2 }
    requires cond { bits_of word 28 4 < 15 }
    ensures { Decides (clz ∷ []) word result }
{
    if bits(word, 16, 7) != 0x6f || bits(word, 4, 8) != 0xf1 {
        return Err(DecodeFault::Undefined);
    }
    let rd = register(word, 12);
    let rm = register(word, 0);
    if one_of_2_is_pc(rd, rm) {
        return Err(DecodeFault::Unpredictable);
    }
    Ok(Instr::Clz {
        cond: condition(word),
        rd,
        rm,
    })
}

/// The instruction of data processing that a word is, with its operand.
#[inline(always)]
fn alu(word: u32, operand: Operand2) -> Instr
    requires { bits_of word 28 4 < 15 }
    ensures { result ≡ Instr.Alu (bits_of word 28 4) (alu_op (bits_of word 21 4)) (bits_of word 20 1 == 1) (bits_of word 12 4) (bits_of word 16 4) operand }
{
    Instr::Alu {
        cond: condition(word),
        op: operation(bits(word, 21, 4)),
        s: bit(word, 20),
        rd: register(word, 12),
        rn: register(word, 16),
        operand,
    }
}

/// The operation of an opcode (DDI 0406C table A5-3).
#[inline]
#[tactic(auto, unfolding(a32_instr::specs::Fields::alu_op))]
fn operation(opcode: u32) -> AluOp
    ensures { result ≡ alu_op opcode }
{
    match opcode {
        0 => AluOp::And,
        1 => AluOp::Eor,
        2 => AluOp::Sub,
        3 => AluOp::Rsb,
        4 => AluOp::Add,
        5 => AluOp::Adc,
        6 => AluOp::Sbc,
        7 => AluOp::Rsc,
        8 => AluOp::Tst,
        9 => AluOp::Teq,
        10 => AluOp::Cmp,
        11 => AluOp::Cmn,
        12 => AluOp::Orr,
        13 => AluOp::Mov,
        14 => AluOp::Bic,
        _ => AluOp::Mvn,
    }
}

/// The kind of shift of two bits (DDI 0406C A8.4.3).
#[inline]
#[tactic(auto, unfolding(a32_instr::specs::Fields::shift_kind))]
pub fn kind_of_shift(kind: u32) -> ShiftKind
    ensures { result ≡ shift_kind kind }
{
    match kind {
        0 => ShiftKind::Lsl,
        1 => ShiftKind::Lsr,
        2 => ShiftKind::Asr,
        _ => ShiftKind::Ror,
    }
}

/// Whether a word has the opcode of a compare and doesn't set the flags: those are other instructions.
#[inline(always)]
fn is_silent_compare(word: u32) -> bool
    ensures { result ≡ ((bits_of word 23 2 == 2) && (bits_of word 20 1 == 0)) }
{
    bits(word, 23, 2) == 2 && bits(word, 20, 1) == 0
}

/// Whether a word has the form of data processing.
#[inline(always)]
fn is_form(word: u32) -> bool
    ensures { result ≡ alu_fits (alu_op (bits_of word 21 4)) (bits_of word 20 1) (bits_of word 12 4) (bits_of word 16 4) }
{
    is_form_of(
        operation(bits(word, 21, 4)),
        bits(word, 20, 1),
        register(word, 12),
        register(word, 16),
    )
}

/// A compare sets the flags and names no destination, a move names no first operand.
#[inline]
#[tactic(auto, unfolding(a32_instr::specs::Fields::alu_fits))]
fn is_form_of(op: AluOp, sets: u32, rd: Reg, rn: Reg) -> bool
    ensures { result ≡ alu_fits op sets rd rn }
{
    if op.is_compare() && !(sets == 1 && rd.num() == 0) {
        return false;
    }
    !op.is_move() || rn.num() == 0
}

/// Whether a word of data processing sets the flags and writes the PC.
#[inline]
#[tactic(auto, unfolding(a32_instr::specs::Fields::alu_unpredictable))]
fn sets_flags_and_pc(word: u32) -> bool
    ensures { result ≡ alu_unpredictable (alu_op (bits_of word 21 4)) (bits_of word 20 1) (bits_of word 12 4) }
{
    let op = operation(bits(word, 21, 4));
    bits(word, 20, 1) == 1 && !op.is_compare() && register(word, 12).num() == 15
}
