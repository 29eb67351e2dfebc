//! Laws of mnemonics, and of instructions as they are shown.
ghost use Rattle.std.specs.Prelude.{◌≡◌, ◌<◌, ◌%◌, ◌^◌, ℕ, IsTrue, List, Some, Ok};
ghost use Rattle.std.specs.List.{list_all};
ghost use Rattle.a32_instr.specs.Table.{meaning, table};
ghost use Rattle.a32_forms.specs.Text.{after_word, front_word, is_name, parts};
ghost use Rattle.a32_syntax.specs.Formed.{IsFormed};
ghost use Rattle.a32_syntax.specs.Meaning.{Site, instruction_of};
ghost use Rattle.a32_syntax.specs.Shown.{instruction_text, is_shown_code, operands_shown, showing_of};
ghost use Rattle.a32_syntax.specs.Mnemonics.{is_mnemonic, mnemonic_of, mnemonic_text};

use crate::operations::Mnemonic;
use a32_instr::Instr;

/// The text of a mnemonic is read as that mnemonic, so no two mnemonics have one text.
#[tactic(auto, using(crate::proofs::MnemonicTexts::mnemonic_read_again, crate::proofs::MnemonicTexts::one_text))]
pub fn mnemonics_are_read_back()
    ensures again { (m : Mnemonic) → IsTrue (is_mnemonic m) → mnemonic_of (mnemonic_text m) ≡ Some m }
    ensures apart { (m other : Mnemonic) → IsTrue (is_mnemonic m) → IsTrue (is_mnemonic other) → mnemonic_text m ≡ mnemonic_text other → m ≡ other }
{}

/// A word that is read as a mnemonic is that mnemonic's text.
pub fn words_are_their_mnemonics()
    ensures { (word : List ℕ) (m : Mnemonic) → mnemonic_of word ≡ Some m → (mnemonic_text m ≡ word) × IsTrue (is_mnemonic m) }
{}

/// The instruction that a word means has its fields in their ranges, so it can be shown.
#[tactic(auto, using(crate::proofs::Formed::meant_is_formed))]
pub fn meant_instructions_are_formed()
    ensures { (word : ℕ) (i : Instr) → word < 2 ^ 32 → meaning table word ≡ Ok i → IsFormed i }
{}

/// The text of a shown instruction has spaces and printed bytes of ASCII, and no `@`. It is its mnemonic, a name, and
/// behind that its operands. The mnemonic is read again as that mnemonic, and the operands, at the same address and
/// whatever labels there are, as that instruction.
pub fn shown_instructions_are_read_again()
    ensures bytes { (i : Instr) (here : ℕ) → IsFormed i → IsTrue (list_all is_shown_code (instruction_text i here)) }
    ensures name { (i : Instr) (here : ℕ) → IsTrue (is_name (front_word (instruction_text i here))) }
    ensures front { (i : Instr) (here : ℕ) → front_word (instruction_text i here) ≡ mnemonic_text (showing_of i here).mnemonic }
    ensures rest { (i : Instr) (here : ℕ) → after_word (instruction_text i here) ≡ operands_shown i here }
    ensures mnemonic { (i : Instr) (here : ℕ) → IsFormed i
        → mnemonic_of (mnemonic_text (showing_of i here).mnemonic) ≡ Some (showing_of i here).mnemonic }
    ensures operands { (i : Instr) (site : Site) → site.here % 4 ≡ 0 → site.here < 2 ^ 32 → IsFormed i
        → instruction_of (showing_of i site.here).mnemonic site (parts (operands_shown i site.here)) ≡ Ok i }
{}
