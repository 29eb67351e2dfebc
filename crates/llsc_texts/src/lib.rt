//! Programs as text: the file that `asm` makes of a text, and what `dis` shows of a program's image.
#![tactic(auto)]

mod asm;
mod dis;
mod pages;

pub use asm::assembled;
pub use dis::{Listing, push_word, write_listing};
pub use pages::{Page, make_room};
