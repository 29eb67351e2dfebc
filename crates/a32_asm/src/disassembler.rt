//! The text of a word.
ghost use Rattle.std.specs.Prelude.{◌≡◌, ◌%◌, ℕ, List, Option, false, Ok};
ghost use Rattle.a32_asm.specs.declared.layout.Spot.{Spot};
ghost use Rattle.a32_asm.specs.Statements.{code_word, line_piece};
ghost use Rattle.a32_asm.specs.Shown.{shown_word};

use a32_decode::decode;
use a32_syntax::write_instruction;
use llsc_base::Line;
use number_text::{write_text, write_word};

/// Shows a word as the instruction that it means at an address, a multiple of 4, or as `.word` and its eight digits
/// where it means none. `out` then has that text alone.
/// Read as a line of the code at that address, the text is the word again, whatever labels there are.
#[tactic(auto, using(a32_syntax::proofs::Formed::meant_is_formed))]
pub fn disassemble(word: u32, addr: u32, out: &mut Line)
    requires aligned { addr % 4 ≡ 0 }
    ensures text { out.new ≡ shown_word word addr }
    ensures again { (labels : List ℕ → Option ℕ) (spot : Spot) → spot.in_data ≡ false
        → line_piece (record { here = addr; labels = labels }) spot (shown_word word addr) ≡ Ok (code_word word) }
{
    *out = Line::new();
    match decode(word) {
        Ok(instruction) => write_instruction(&instruction, addr, out),
        Err(_) => {
            write_text(out, b".word 0x");
            write_word(out, word);
        }
    }
}
