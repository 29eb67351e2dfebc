//! The decoder of A32 words: what the table of instruction words says of a word, found by branching
//! on its bits (DDI 0406C A5).
//!
//! The table stands in `a32_instr`'s `specs/Table.antt`. The decoder goes by the manual's groups of
//! encodings, with one private function for each group; its contract has a clause for each row of
//! the group, and one for the words that fit none of them. `decode` is the whole of it.
#![tactic(auto)]

mod bits;
mod block;
mod branch;
mod data_processing;
mod decoder;
mod extra_load_store;
mod load_store;
mod media;
mod multiply;
mod pc;
mod synchronization;

pub use decoder::decode;
pub use llsc_base::DecodeFault;
