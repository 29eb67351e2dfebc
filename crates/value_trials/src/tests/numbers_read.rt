//! Hexadecimal numbers that are read, and one that is written again.
use super::same;
use llsc_base::Line;
use number_text::{long_number, word_number, write_long};

/// Texts with the numbers of 32 bits that they stand for.
const WORDS: [(&str, Option<u32>); 6] = [
    ("00c0ffee", Some(0x00c0_ffee)),
    ("ffffffff", Some(0xffff_ffff)),
    ("00C0ffee", None),
    ("0c0ffee", None),
    ("000c0ffee", None),
    ("00c0ffeg", None),
];

#[test]
fn reads_words(rt: HostRuntime) {
    for &(text, number) in &WORDS {
        assert!(rt; word_number(text.as_bytes()) == number, "{text}");
    }
}

#[test]
fn reads_longs(rt: HostRuntime) {
    let text = "0123456789abcdef";
    same(
        &rt,
        long_number(text.as_bytes()),
        Some(0x0123_4567_89ab_cdef),
    );
    same(&rt, long_number(b"00c0ffee"), None);
    let mut line = Line::new();
    write_long(&mut line, 0x0123_4567_89ab_cdef);
    same(&rt, line.bytes(), text.as_bytes());
}
