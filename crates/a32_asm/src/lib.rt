//! The assembler and the disassembler of A32 programs.
//!
//! [`assemble`] makes a program of a text, or names the text's first fault with its line; [`disassemble`]
//! shows a word as the instruction that it means, in a text that is the word again when it is read.
//!
//! What a text means stands in `specs/`: the lines of a text (`Lines`), where each of them stands and where
//! the labels do (`Layout`), what a line adds to the program (`Statements`), and the program or the first
//! fault (`Assembled`). The instructions of the lines are those of `a32_syntax`. The code goes over a text
//! twice: first it reads where the labels are, which it sorts by their names, and then what each line adds.
#![tactic(auto)]

mod assembler;
mod disassembler;
mod drafts;
mod heads;
mod labels;
mod layout;
mod lines;
mod outcomes;
mod pieces;
mod places;

pub use a32_syntax::AsmKind;
pub use assembler::{AsmFault, assemble};
pub use disassembler::disassemble;
pub use outcomes::MOST_TEXT;
