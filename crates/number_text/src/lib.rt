//! Numbers as text: decimal numbers of words, records and reports, and hexadecimal numbers with a fixed
//! number of digits. `specs/Digits.antt` says what digits are worth, `specs/Decimal.antt` which words are
//! numbers, and `specs/Hexadecimal.antt` how eight or sixteen digits show a number of 32 or 64 bits.
#![tactic(auto)]

mod digits;
mod hexadecimal;
pub mod laws;
mod plain;
mod write;

pub use digits::{are_digits, are_hex_digits, digit_value, is_digit};
pub use hexadecimal::{long_number, word_number};
pub use plain::plain_number;
pub use write::{write_decimal, write_long, write_text, write_word};
