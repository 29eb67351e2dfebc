//! The one word that can be an instruction's.
ghost use Rattle.std.specs.Prelude.{◌≡◌};
ghost use Rattle.a32_encode.specs.Word.{word_of};

use crate::fields::{
    barrier_kind, bit, condition, distance, exclusive_size, half_kind, half_offset,
    index as indexing, long_kind, opcode, register, second_operand, word_offset,
};
use a32_instr::{
    AluOp, BarrierKind, Cond, HalfKind, Index, Instr, LongKind, Offset, Operand2, Reg,
};
use llsc_base::Size;

/// Data processing (DDI 0406C A5.2.1 to A5.2.3).
fn data_processing(cond: Cond, op: AluOp, s: bool, rd: Reg, rn: Reg, operand: Operand2) -> u64
    ensures { result ≡ word_of (Instr.Alu cond op s rd rn operand) }
{
    condition(cond)
        + opcode(op) * 0x20_0000
        + bit(s) * 0x10_0000
        + register(rn) * 0x1_0000
        + register(rd) * 0x1000
        + second_operand(operand)
}

/// MOVW (DDI 0406C A8.8.102).
fn move_wide(cond: Cond, rd: Reg, imm: u16) -> u64
    ensures { result ≡ word_of (Instr.Movw cond rd imm) }
{
    let imm = u64::from(imm);
    condition(cond) + 0x300_0000 + imm / 0x1000 * 0x1_0000 + register(rd) * 0x1000 + imm % 0x1000
}

/// MOVT (DDI 0406C A8.8.106).
fn move_top(cond: Cond, rd: Reg, imm: u16) -> u64
    ensures { result ≡ word_of (Instr.Movt cond rd imm) }
{
    let imm = u64::from(imm);
    condition(cond) + 0x340_0000 + imm / 0x1000 * 0x1_0000 + register(rd) * 0x1000 + imm % 0x1000
}

/// MUL (DDI 0406C A8.8.114).
fn product(cond: Cond, s: bool, rd: Reg, rn: Reg, rm: Reg) -> u64
    ensures { result ≡ word_of (Instr.Mul cond s rd rn rm) }
{
    condition(cond)
        + 0x90
        + bit(s) * 0x10_0000
        + register(rd) * 0x1_0000
        + register(rm) * 0x100
        + register(rn)
}

/// MLA (DDI 0406C A8.8.100).
fn product_added(cond: Cond, s: bool, rd: Reg, rn: Reg, rm: Reg, ra: Reg) -> u64
    ensures { result ≡ word_of (Instr.Mla cond s rd rn rm ra) }
{
    condition(cond)
        + 0x20_0090
        + bit(s) * 0x10_0000
        + register(rd) * 0x1_0000
        + register(ra) * 0x1000
        + register(rm) * 0x100
        + register(rn)
}

/// MLS (DDI 0406C A8.8.101).
fn product_subtracted(cond: Cond, rd: Reg, rn: Reg, rm: Reg, ra: Reg) -> u64
    ensures { result ≡ word_of (Instr.Mls cond rd rn rm ra) }
{
    condition(cond)
        + 0x60_0090
        + register(rd) * 0x1_0000
        + register(ra) * 0x1000
        + register(rm) * 0x100
        + register(rn)
}

/// UMULL, UMLAL, SMULL and SMLAL (DDI 0406C A5.2.5).
fn long_product(cond: Cond, kind: LongKind, s: bool, lo: Reg, hi: Reg, rn: Reg, rm: Reg) -> u64
    ensures { result ≡ word_of (Instr.Long cond kind s lo hi rn rm) }
{
    condition(cond)
        + 0x80_0090
        + long_kind(kind) * 0x20_0000
        + bit(s) * 0x10_0000
        + register(hi) * 0x1_0000
        + register(lo) * 0x1000
        + register(rm) * 0x100
        + register(rn)
}

/// CLZ (DDI 0406C A8.8.33).
fn leading_zeros(cond: Cond, rd: Reg, rm: Reg) -> u64
    ensures { result ≡ word_of (Instr.Clz cond rd rm) }
{
    condition(cond) + 0x16f_0f10 + register(rd) * 0x1000 + register(rm)
}

/// SXTB, SXTH, UXTB and UXTH (DDI 0406C A5.4.3).
fn extended(cond: Cond, unsigned: bool, half: bool, rd: Reg, rm: Reg, turn: u8) -> u64
    ensures { result ≡ word_of (Instr.Extend cond unsigned half rd rm turn) }
{
    condition(cond)
        + 0x6af_0070
        + bit(unsigned) * 0x40_0000
        + bit(half) * 0x10_0000
        + register(rd) * 0x1000
        + u64::from(turn) * 0x400
        + register(rm)
}

/// REV (DDI 0406C A8.8.145).
fn reversed(cond: Cond, rd: Reg, rm: Reg) -> u64
    ensures { result ≡ word_of (Instr.Rev cond rd rm) }
{
    condition(cond) + 0x6bf_0f30 + register(rd) * 0x1000 + register(rm)
}

/// LDR, STR, LDRB and STRB (DDI 0406C A5.3).
fn word_access(
    cond: Cond,
    load: bool,
    byte: bool,
    index: Index,
    rn: Reg,
    rt: Reg,
    offset: Offset,
) -> u64
    ensures { result ≡ word_of (Instr.Word cond load byte index rn rt offset) }
{
    condition(cond)
        + 0x400_0000
        + indexing(index)
        + bit(byte) * 0x40_0000
        + bit(load) * 0x10_0000
        + register(rn) * 0x1_0000
        + register(rt) * 0x1000
        + word_offset(offset)
}

/// STRH, LDRH, LDRSB and LDRSH (DDI 0406C A5.2.8).
fn half_access(cond: Cond, kind: HalfKind, index: Index, rn: Reg, rt: Reg, offset: Offset) -> u64
    ensures { result ≡ word_of (Instr.Half cond kind index rn rt offset) }
{
    condition(cond)
        + indexing(index)
        + half_kind(kind)
        + register(rn) * 0x1_0000
        + register(rt) * 0x1000
        + half_offset(offset)
}

/// LDM and STM (DDI 0406C A5.5).
fn block(cond: Cond, load: bool, before: bool, up: bool, wback: bool, rn: Reg, list: u16) -> u64
    ensures { result ≡ word_of (Instr.Block cond load before up wback rn list) }
{
    condition(cond)
        + 0x800_0000
        + bit(before) * 0x100_0000
        + bit(up) * 0x80_0000
        + bit(wback) * 0x20_0000
        + bit(load) * 0x10_0000
        + register(rn) * 0x1_0000
        + u64::from(list)
}

/// B and BL (DDI 0406C A8.8.18, A8.8.25).
fn branch(cond: Cond, link: bool, words: i32) -> u64
    ensures { result ≡ word_of (Instr.Branch cond link words) }
{
    condition(cond) + 0xa00_0000 + bit(link) * 0x100_0000 + distance(words)
}

/// BX and BLX (DDI 0406C A8.8.27, A8.8.26).
fn branch_to_register(cond: Cond, link: bool, rm: Reg) -> u64
    ensures { result ≡ word_of (Instr.BranchReg cond link rm) }
{
    condition(cond) + 0x12f_ff10 + bit(link) * 0x20 + register(rm)
}

/// SVC (DDI 0406C A8.8.228).
fn supervisor_call(cond: Cond, imm: u32) -> u64
    ensures { result ≡ word_of (Instr.Svc cond imm) }
{
    condition(cond) + 0xf00_0000 + u64::from(imm)
}

/// LDREX and its kin (DDI 0406C A8.8.75 to A8.8.78).
fn load_exclusive(cond: Cond, size: Size, rn: Reg, rt: Reg) -> u64
    ensures { result ≡ word_of (Instr.LoadEx cond size rn rt) }
{
    condition(cond)
        + 0x190_0f9f
        + exclusive_size(size) * 0x20_0000
        + register(rn) * 0x1_0000
        + register(rt) * 0x1000
}

/// STREX and its kin (DDI 0406C A8.8.212 to A8.8.215).
fn store_exclusive(cond: Cond, size: Size, rn: Reg, rd: Reg, rt: Reg) -> u64
    ensures { result ≡ word_of (Instr.StoreEx cond size rn rd rt) }
{
    condition(cond)
        + 0x180_0f90
        + exclusive_size(size) * 0x20_0000
        + register(rn) * 0x1_0000
        + register(rd) * 0x1000
        + register(rt)
}

/// DSB, DMB and ISB (DDI 0406C A5.7.1).
fn barrier(kind: BarrierKind, option: u8) -> u64
    ensures { result ≡ word_of (Instr.Barrier kind option) }
{
    0xf57f_f040 + barrier_kind(kind) * 0x10 + u64::from(option)
}

/// NOP (DDI 0406C A8.8.119).
fn no_operation(cond: Cond) -> u64
    ensures { result ≡ word_of (Instr.Nop cond) }
{
    condition(cond) + 0x320_f000
}

/// YIELD (DDI 0406C A8.8.426).
fn give_way(cond: Cond) -> u64
    ensures { result ≡ word_of (Instr.Yield cond) }
{
    condition(cond) + 0x320_f001
}

/// The sum of an instruction's fixed bits and its fields, each at its place (DDI 0406C A5.1 to A5.7). It is
/// no word of the instruction's where a field is too large, and where the fields are no instruction.
#[rattlefmt::skip] // a row for each instruction
pub fn candidate(i: Instr) -> u64
    ensures { result ≡ word_of i }
{
    match i {
        Instr::Alu { cond, op, s, rd, rn, operand } => data_processing(cond, op, s, rd, rn, operand),
        Instr::Movw { cond, rd, imm } => move_wide(cond, rd, imm),
        Instr::Movt { cond, rd, imm } => move_top(cond, rd, imm),
        Instr::Nop { cond } => no_operation(cond),
        Instr::Yield { cond } => give_way(cond),
        Instr::Mul { cond, s, rd, rn, rm } => product(cond, s, rd, rn, rm),
        Instr::Mla { cond, s, rd, rn, rm, ra } => product_added(cond, s, rd, rn, rm, ra),
        Instr::Mls { cond, rd, rn, rm, ra } => product_subtracted(cond, rd, rn, rm, ra),
        Instr::Long { cond, kind, s, lo, hi, rn, rm } => long_product(cond, kind, s, lo, hi, rn, rm),
        Instr::Clz { cond, rd, rm } => leading_zeros(cond, rd, rm),
        Instr::Extend { cond, unsigned, half, rd, rm, turn } => extended(cond, unsigned, half, rd, rm, turn),
        Instr::Rev { cond, rd, rm } => reversed(cond, rd, rm),
        Instr::Word { cond, load, byte, index, rn, rt, offset } => word_access(cond, load, byte, index, rn, rt, offset),
        Instr::Half { cond, kind, index, rn, rt, offset } => half_access(cond, kind, index, rn, rt, offset),
        Instr::Block { cond, load, before, up, wback, rn, list } => block(cond, load, before, up, wback, rn, list),
        Instr::Branch { cond, link, words } => branch(cond, link, words),
        Instr::BranchReg { cond, link, rm } => branch_to_register(cond, link, rm),
        Instr::Svc { cond, imm } => supervisor_call(cond, imm),
        Instr::LoadEx { cond, size, rn, rt } => load_exclusive(cond, size, rn, rt),
        Instr::StoreEx { cond, size, rn, rd, rt } => store_exclusive(cond, size, rn, rd, rt),
        Instr::Clrex => 0xf57f_f01f,
        Instr::Barrier { kind, option } => barrier(kind, option),
    }
}
