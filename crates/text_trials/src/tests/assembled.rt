//! A text that is assembled.
use a32_asm::assemble;
use std::alloc::Global;

/// A guest that counts, with its data behind its code.
const COUNTER: &str = "@ adds one to a word, and leaves with what it was\n\
    movw r10, #lo(word)\n\tmovt r10, #hi(word)\n\
    try: ldrex r0, [r10] @ try\n add r1, r0, #1\n strex r2, r1, [r10]\n cmp r2, #0\n bne try\n\
    mov r7, #1\nsvc #0\n.word try\n.data\n.byte 7\n.byte 0x08\n.text\nnop\n.data\n.byte 9\n.byte 10\nword: .word word\n.space 3\nend:\n.space 5\n";

/// Its code.
const WORDS: [u32; 11] = [
    0xe302_a004,
    0xe340_a000,
    0xe19a_0f9f,
    0xe280_1001,
    0xe18a_2f91,
    0xe352_0000,
    0x1aff_fffa,
    0xe3a0_7001,
    0xef00_0000,
    0x0000_1008,
    0xe320_f000,
];

/// Its data.
const BYTES: [u8; 8] = [7, 8, 9, 10, 4, 0x20, 0, 0];

/// Whether a text is a program of these words, these bytes and so much space.
fn is_program(alloc: Global, text: &str, words: &[u32], bytes: &[u8], space: u32) -> bool {
    match assemble(alloc, text) {
        Ok(unit) => {
            unit.words.as_slice() == words && unit.bytes.as_slice() == bytes && unit.space == space
        }
        Err(_) => false,
    }
}

#[test]
fn a_program_is_made(rt: HostRuntime) {
    assert!(rt; is_program(rt.alloc(), COUNTER, &WORDS, &BYTES, 8));
}
