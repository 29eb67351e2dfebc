//! Laws of an instruction's encoding. The first two, proved for every instruction, say together what `encoding_of` is,
//! whatever sums compute it: the word that means the instruction, and none where no word does.
ghost use Rattle.std.specs.Prelude.{◌≡◌, ◌<◌, ◌^◌, ℕ, Some, None, true, false, pos, negsuc};
ghost use Rattle.a32_instr.specs.Table.{table, meaning};
ghost use Rattle.a32_encode.specs.Encoding.{encoding_of};

use a32_instr::{AluOp, Index, Instr, Offset, Operand2};

/// An instruction's encoding is a word that means it.
pub fn encodings_mean_their_instructions()
    ensures { (i : Instr) (w : ℕ) → encoding_of i ≡ Some w → (w < 2 ^ 32) × (meaning table w ≡ Ok i) }
{}

/// A word that means an instruction is its encoding.
pub fn meanings_have_their_encodings()
    ensures { (i : Instr) (w : ℕ) → w < 2 ^ 32 → meaning table w ≡ Ok i → encoding_of i ≡ Some w }
{}

/// Worked encodings, of `adds r0, r0, #1`, `ldr r1, [r1, #4]`, a `bne` of four words back, and `clrex`. An `adds` of a
/// byte that is turned by 32 bits, `ldr r1, [r1], #4`, and a branch of 2 to the 23 words have none.
#[tactic(auto, unfolding(crate::specs::Encoding::encoding_of, a32_instr::specs::Table::meaning, a32_instr::specs::Fields::alu_op, a32_instr::specs::Fields::alu_fits, a32_instr::specs::Fields::alu_unpredictable, a32_instr::specs::Fields::index_fits, a32_instr::specs::Fields::index_of, a32_instr::specs::Fields::word_unpredictable, a32_instr::specs::Fields::signed24))]
pub fn worked_encodings()
    ensures adds { encoding_of (Instr.Alu 14 AluOp.Add true 0 0 (Operand2.Imm 0 1)) ≡ Some 0xE2900001 }
    ensures loads { encoding_of (Instr.Word 14 true false Index.Plain 1 1 (Offset.Imm true 4)) ≡ Some 0xE5911004 }
    ensures branches { encoding_of (Instr.Branch 1 false (negsuc 3)) ≡ Some 0x1AFFFFFC }
    ensures clears { encoding_of Instr.Clrex ≡ Some 0xF57FF01F }
    ensures turned { encoding_of (Instr.Alu 14 AluOp.Add true 0 0 (Operand2.Imm 16 1)) ≡ None }
    ensures one_register { encoding_of (Instr.Word 14 true false Index.Post 1 1 (Offset.Imm true 4)) ≡ None }
    ensures too_far { encoding_of (Instr.Branch 14 false (pos 0x800000)) ≡ None }
{}
