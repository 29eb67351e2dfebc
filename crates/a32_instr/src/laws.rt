//! Laws of the instruction table, each proved for every word, and of the condition.
ghost use Rattle.std.specs.Prelude.{◌≡◌, ◌==◌, ◌<◌, ◌^◌, ℕ, List, false, true, AllPairs, IsTrue};
ghost use Rattle.std.specs.List.{list_all};
ghost use Rattle.llsc_base.specs.Images.{Program};
ghost use Rattle.llsc_base.specs.Bits.{width_of};
ghost use Rattle.a32_instr.specs.Condition.{passes};
ghost use Rattle.a32_instr.specs.Effect.{acts, condition_of, effect_of};
ghost use Rattle.a32_instr.specs.State.{State, advanced};
ghost use Rattle.llsc_base.specs.Effects.{completes};
ghost use Rattle.a32_instr.specs.Table.{table, meaning, AreApart, FitsNone, MeansItsRow};

use crate::instructions::Instr;
use llsc_base::DecodeFault;

/// Each row of the table has 32 bits.
pub fn rows_have_32_bits()
    ensures { IsTrue (list_all (λ row. width_of row.bits == 32) table) }
{}

/// No word fits two rows of the table, so the order of the rows is of no account.
pub fn no_word_fits_two_rows()
    ensures { AllPairs AreApart table }
{}

/// The three cases of a word: undefined, which is just where it fits no row; and where it fits one, what
/// that row says: unpredictable, or its instruction.
pub fn words_have_three_cases()
    ensures undefined { (word : ℕ) → FitsNone table word → meaning table word ≡ Err DecodeFault.Undefined }
    ensures fits_none { (word : ℕ) → meaning table word ≡ Err DecodeFault.Undefined → FitsNone table word }
    ensures by_its_row { (word : ℕ) → word < 2 ^ 32 → MeansItsRow table word (meaning table word) }
{}

/// The condition of an instruction counts however many replies it has had: where it passes the instruction acts, and where it
/// fails it is complete and does nothing.
pub fn conditions_count_with_all_replies()
    ensures passed { (instr : Instr) (program : Program) (replies : List ℕ) (state : State) →
        passes (condition_of instr) state.flags ≡ true → effect_of instr program replies state ≡ acts instr program replies state }
    ensures failed { (instr : Instr) (program : Program) (replies : List ℕ) (state : State) →
        passes (condition_of instr) state.flags ≡ false → effect_of instr program replies state ≡ completes (advanced state) }
{}
