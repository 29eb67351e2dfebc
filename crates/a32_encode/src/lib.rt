//! The encoder of A32 instructions: an instruction's one word (DDI 0406C A5, A8.8).
//!
//! `encode` builds the only word that can be the instruction's, decodes it, and answers it where the
//! decoder reads the same instruction. Its contract says by the table of instruction words in
//! `a32_instr`'s `specs/Table.antt` that a word that is given means the instruction, that no other word
//! does, and that where none is given there is none.
//!
//! `encoding_of` in `specs/Encoding.antt` is the same as a function, for definitions that need an
//! instruction's word. The laws in [`laws`] say by the table what it is, and they are all that is
//! promised of it: the sums in `specs/Word.antt`, and the comparison of what they mean with the
//! instruction, only compute it, and are no part of what is promised.
#![tactic(auto)]

mod encoder;
mod fields;
pub mod laws;
mod words;

pub use encoder::{EncodeFault, encode};
