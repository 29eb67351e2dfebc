//! Worked words of the instruction table: what each means, computed by the table.
ghost use Rattle.std.specs.Prelude.{◌≡◌, false, true, negsuc};
ghost use Rattle.a32_instr.specs.Table.{table, meaning};

use crate::instructions::{
    AluOp, BarrierKind, HalfKind, Index, Instr, LongKind, Offset, Operand2, ShiftKind,
};
use llsc_base::{DecodeFault, Size};

/// Worked words: `mov r0, #0`, `subs r2, r2, #1`, `cmp r1, #3`, `ldr r0, [r1]`,
/// `str r0, [r1, #-4]`, a branch to itself, with a link too, and `svc #0`; a `movs pc, #0`, which is
/// unpredictable; and words that are undefined: a condition field of 15, and a compare that sets no flags.
#[tactic(auto, unfolding(crate::specs::Table::meaning, crate::specs::Fields::alu_op, crate::specs::Fields::alu_fits, crate::specs::Fields::alu_unpredictable, crate::specs::Fields::signed24, crate::specs::Fields::index_fits, crate::specs::Fields::index_of, crate::specs::Fields::word_unpredictable))]
pub fn meanings_of_words()
    ensures moves { meaning table 0xE3A00000 ≡ Ok (Instr.Alu 14 AluOp.Mov false 0 0 (Operand2.Imm 0 0)) }
    ensures subtracts { meaning table 0xE2522001 ≡ Ok (Instr.Alu 14 AluOp.Sub true 2 2 (Operand2.Imm 0 1)) }
    ensures compares { meaning table 0xE3510003 ≡ Ok (Instr.Alu 14 AluOp.Cmp true 0 1 (Operand2.Imm 0 3)) }
    ensures loads { meaning table 0xE5910000 ≡ Ok (Instr.Word 14 true false Index.Plain 1 0 (Offset.Imm true 0)) }
    ensures stores { meaning table 0xE5010004 ≡ Ok (Instr.Word 14 false false Index.Plain 1 0 (Offset.Imm false 4)) }
    ensures branches { meaning table 0xEAFFFFFE ≡ Ok (Instr.Branch 14 false (negsuc 1)) }
    ensures calls { meaning table 0xEF000000 ≡ Ok (Instr.Svc 14 0) }
    ensures unpredictable { meaning table 0xE3B0F000 ≡ Err DecodeFault.Unpredictable }
    ensures no_condition { meaning table 0xF3A00000 ≡ Err DecodeFault.Undefined }
    ensures no_flags { meaning table 0xE1010003 ≡ Err DecodeFault.Undefined }
    ensures linked { meaning table 0xEBFFFFFE ≡ Ok (Instr.Branch 14 true (negsuc 1)) }
{}

/// Worked words of data processing with registers, and of wide moves and hints: `adds r0, r0, #1`,
/// `mov r1, #8192`, `rsb r3, r0, #1`, `mov r10, r4, lsr #28`, `add r10, r9, r10, lsl #3`, `mvns r1, r2, asr r3`,
/// `movw r5, #26125`, `movt r5, #25`, `nop` and `yield`.
#[tactic(auto, unfolding(crate::specs::Table::meaning, crate::specs::Fields::alu_op, crate::specs::Fields::shift_kind, crate::specs::Fields::alu_fits, crate::specs::Fields::alu_unpredictable, crate::specs::Fields::one_of_4_is_pc))]
pub fn meanings_of_operations()
    ensures adds { meaning table 0xE2900001 ≡ Ok (Instr.Alu 14 AluOp.Add true 0 0 (Operand2.Imm 0 1)) }
    ensures turns { meaning table 0xE3A01A02 ≡ Ok (Instr.Alu 14 AluOp.Mov false 1 0 (Operand2.Imm 10 2)) }
    ensures reverses { meaning table 0xE2603001 ≡ Ok (Instr.Alu 14 AluOp.Rsb false 3 0 (Operand2.Imm 0 1)) }
    ensures shifts_right { meaning table 0xE1A0AE24 ≡ Ok (Instr.Alu 14 AluOp.Mov false 10 0 (Operand2.ByNum 4 ShiftKind.Lsr 28)) }
    ensures shifts_left { meaning table 0xE089A18A ≡ Ok (Instr.Alu 14 AluOp.Add false 10 9 (Operand2.ByNum 10 ShiftKind.Lsl 3)) }
    ensures shifts_by_register { meaning table 0xE1F01352 ≡ Ok (Instr.Alu 14 AluOp.Mvn true 1 0 (Operand2.ByReg 2 ShiftKind.Asr 3)) }
    ensures moves_wide { meaning table 0xE306560D ≡ Ok (Instr.Movw 14 5 26125) }
    ensures moves_top { meaning table 0xE3405019 ≡ Ok (Instr.Movt 14 5 25) }
    ensures does_nothing { meaning table 0xE320F000 ≡ Ok (Instr.Nop 14) }
    ensures gives_way { meaning table 0xE320F001 ≡ Ok (Instr.Yield 14) }
{}

/// Worked words of multiplications, CLZ, extends and REV: `mla r4, r4, r5, r6`, `muls r1, r2, r3`,
/// `mls r1, r2, r3, r4`, `smlals r1, r2, r3, r4`, `clz r0, r1`, `rev r0, r1` and `uxtb r0, r1, ror #8`; and a
/// `umull r1, r1, r2, r3`, which is unpredictable.
#[tactic(auto, unfolding(crate::specs::Table::meaning, crate::specs::Fields::alu_op, crate::specs::Fields::long_kind, crate::specs::Fields::alu_fits, crate::specs::Fields::alu_unpredictable, crate::specs::Fields::one_of_2_is_pc, crate::specs::Fields::one_of_3_is_pc, crate::specs::Fields::one_of_4_is_pc, crate::specs::Fields::index_fits, crate::specs::Fields::half_fits))]
pub fn meanings_of_products_and_parts()
    ensures adds { meaning table 0xE0246594 ≡ Ok (Instr.Mla 14 false 4 4 5 6) }
    ensures multiplies { meaning table 0xE0110392 ≡ Ok (Instr.Mul 14 true 1 2 3) }
    ensures subtracts { meaning table 0xE0614392 ≡ Ok (Instr.Mls 14 1 2 3 4) }
    ensures multiplies_long { meaning table 0xE0F21493 ≡ Ok (Instr.Long 14 LongKind.Smlal true 1 2 3 4) }
    ensures counts { meaning table 0xE16F0F11 ≡ Ok (Instr.Clz 14 0 1) }
    ensures reverses { meaning table 0xE6BF0F31 ≡ Ok (Instr.Rev 14 0 1) }
    ensures extends { meaning table 0xE6EF0471 ≡ Ok (Instr.Extend 14 true false 0 1 1) }
    ensures one_destination { meaning table 0xE0811392 ≡ Err DecodeFault.Unpredictable }
{}

/// Worked words of exclusives, branches to registers and barriers: `ldrex r11, [r10]`, `strex r12, r11, [r10]`,
/// `ldrexd r2, r3, [r1]`, `strexb r0, r2, [r1]`, `clrex`, `bx lr` and `dmb #15`; a `strex` whose status register is that
/// of its value and a `ldrexd r3, r4, [r1]`, which are unpredictable.
#[tactic(auto, unfolding(crate::specs::Table::meaning, crate::specs::Fields::alu_op, crate::specs::Fields::alu_fits, crate::specs::Fields::alu_unpredictable, crate::specs::Fields::one_of_2_is_pc, crate::specs::Fields::one_of_3_is_pc, crate::specs::Fields::exclusive_size, crate::specs::Fields::no_pair, crate::specs::Fields::status_clashes, crate::specs::Fields::barrier_kind, crate::specs::Fields::index_fits, crate::specs::Fields::half_fits))]
pub fn meanings_of_exclusives()
    ensures loads { meaning table 0xE19ABF9F ≡ Ok (Instr.LoadEx 14 Size.B4 10 11) }
    ensures stores { meaning table 0xE18ACF9B ≡ Ok (Instr.StoreEx 14 Size.B4 10 12 11) }
    ensures clears { meaning table 0xF57FF01F ≡ Ok Instr.Clrex }
    ensures loads_two { meaning table 0xE1B12F9F ≡ Ok (Instr.LoadEx 14 Size.B8 1 2) }
    ensures stores_byte { meaning table 0xE1C10F92 ≡ Ok (Instr.StoreEx 14 Size.B1 1 0 2) }
    ensures returns { meaning table 0xE12FFF1E ≡ Ok (Instr.BranchReg 14 false 14) }
    ensures waits { meaning table 0xF57FF05F ≡ Ok (Instr.Barrier BarrierKind.Dmb 15) }
    ensures odd_pair { meaning table 0xE1B13F9F ≡ Err DecodeFault.Unpredictable }
    ensures one_register { meaning table 0xE1810F90 ≡ Err DecodeFault.Unpredictable }
{}

/// Worked words of loads and stores: `ldr r1, [r2, r3, lsl #3]`, `str r1, [r2, r0, lsl #3]`, `ldrb r0, [r1], #1`,
/// `str lr, [sp, #-4]!`; and a `ldr r1, [r1], #4`, which is unpredictable.
#[tactic(auto, unfolding(crate::specs::Table::meaning, crate::specs::Fields::alu_op, crate::specs::Fields::alu_fits, crate::specs::Fields::alu_unpredictable, crate::specs::Fields::shift_kind, crate::specs::Fields::index_fits, crate::specs::Fields::index_of, crate::specs::Fields::word_unpredictable))]
pub fn meanings_of_loads_and_stores()
    ensures loads { meaning table 0xE7921183 ≡ Ok (Instr.Word 14 true false Index.Plain 2 1 (Offset.Shifted true 3 ShiftKind.Lsl 3)) }
    ensures stores { meaning table 0xE7821180 ≡ Ok (Instr.Word 14 false false Index.Plain 2 1 (Offset.Shifted true 0 ShiftKind.Lsl 3)) }
    ensures loads_byte { meaning table 0xE4D10001 ≡ Ok (Instr.Word 14 true true Index.Post 1 0 (Offset.Imm true 1)) }
    ensures pushes { meaning table 0xE52DE004 ≡ Ok (Instr.Word 14 false false Index.Pre 13 14 (Offset.Imm false 4)) }
    ensures one_register { meaning table 0xE4911004 ≡ Err DecodeFault.Unpredictable }
{}

/// Worked words of halfwords and signed bytes: `ldrh r0, [r1, #18]`, `strh r2, [r3], #-2`, `ldrsb r4, [r5, -r6]`,
/// `ldrsh r7, [r8, #4]!`; a `ldrh pc, [r1]`, which is unpredictable; and an `ldrd r0, r1, [r2]`, which is undefined.
#[tactic(auto, unfolding(crate::specs::Table::meaning, crate::specs::Fields::alu_op, crate::specs::Fields::alu_fits, crate::specs::Fields::alu_unpredictable, crate::specs::Fields::index_fits, crate::specs::Fields::index_of, crate::specs::Fields::half_fits, crate::specs::Fields::half_kind, crate::specs::Fields::half_unpredictable))]
pub fn meanings_of_halves()
    ensures loads { meaning table 0xE1D101B2 ≡ Ok (Instr.Half 14 HalfKind.Ldrh Index.Plain 1 0 (Offset.Imm true 18)) }
    ensures stores { meaning table 0xE04320B2 ≡ Ok (Instr.Half 14 HalfKind.Strh Index.Post 3 2 (Offset.Imm false 2)) }
    ensures loads_byte { meaning table 0xE11540D6 ≡ Ok (Instr.Half 14 HalfKind.Ldrsb Index.Plain 5 4 (Offset.Shifted false 6 ShiftKind.Lsl 0)) }
    ensures loads_signed { meaning table 0xE1F870F4 ≡ Ok (Instr.Half 14 HalfKind.Ldrsh Index.Pre 8 7 (Offset.Imm true 4)) }
    ensures into_pc { meaning table 0xE1D1F0B0 ≡ Err DecodeFault.Unpredictable }
    ensures two_words { meaning table 0xE1C200D0 ≡ Err DecodeFault.Undefined }
{}

/// Worked words of blocks: `ldmia sp!, {r4, pc}`, `stmia r1, {r2, r3, r4, r5}`, `stmdb sp!, {r0, lr}`; and an
/// `ldmia r4!, {r4, pc}`, a `stmia r1!, {r0, r1}` and a block of no registers, which are unpredictable.
#[tactic(auto, unfolding(crate::specs::Table::meaning, crate::specs::Fields::alu_op, crate::specs::Fields::alu_fits, crate::specs::Fields::block_unpredictable))]
pub fn meanings_of_blocks()
    ensures loads { meaning table 0xE8BD8010 ≡ Ok (Instr.Block 14 true false true true 13 0x8010) }
    ensures stores { meaning table 0xE881003C ≡ Ok (Instr.Block 14 false false true false 1 0x3C) }
    ensures pushes { meaning table 0xE92D4001 ≡ Ok (Instr.Block 14 false true false true 13 0x4001) }
    ensures base_loaded { meaning table 0xE8B48010 ≡ Err DecodeFault.Unpredictable }
    ensures base_not_lowest { meaning table 0xE8A10003 ≡ Err DecodeFault.Unpredictable }
    ensures no_registers { meaning table 0xE8910000 ≡ Err DecodeFault.Unpredictable }
{}
