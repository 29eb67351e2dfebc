//! Numbers that are written, against texts that were written by hand.
use super::same;
use llsc_base::Line;
use number_text::{write_decimal, write_word};

#[tactic(auto, using(number_text::proofs::Lengths::short_decimal))]
#[test]
fn writes_numbers(rt: HostRuntime) {
    let mut decimal = Line::new();
    write_decimal(&mut decimal, 4294967295);
    same(&rt, decimal.bytes(), b"4294967295");
    let mut word = Line::new();
    write_word(&mut word, 0x00c0_ffee);
    same(&rt, word.bytes(), b"00c0ffee");
}
