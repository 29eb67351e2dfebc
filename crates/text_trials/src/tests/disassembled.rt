//! Words that are shown as instructions, and read again.
use a32_asm::{assemble, disassemble};
use llsc_base::Line;
use std::alloc::Global;

/// Words with their texts at address 0x1000.
const SHOWN: [(u32, &str); 26] = [
    (0xe290_0001, "adds r0, r0, #1"),
    (0xe3a0_1a02, "mov r1, #8192"),
    (0xe260_3001, "rsb r3, r0, #1"),
    (0xe1a0_ae24, "mov r10, r4, lsr #28"),
    (0xe089_a18a, "add r10, r9, r10, lsl #3"),
    (0xe306_560d, "movw r5, #26125"),
    (0xe340_5019, "movt r5, #25"),
    (0xe024_6594, "mla r4, r4, r5, r6"),
    (0xe792_1183, "ldr r1, [r2, r3, lsl #3]"),
    (0xe782_1180, "str r1, [r2, r0, lsl #3]"),
    (0xe1d1_01b2, "ldrh r0, [r1, #18]"),
    (0xe8bd_8010, "ldmia sp!, {r4, pc}"),
    (0xe881_003c, "stmia r1, {r2, r3, r4, r5}"),
    (0x1aff_fffc, "bne 0x00000ff8"),
    (0xe12f_ff1e, "bx lr"),
    (0xe16f_0f11, "clz r0, r1"),
    (0xe6bf_0f31, "rev r0, r1"),
    (0xe6ef_0471, "uxtb r0, r1, ror #8"),
    (0xe19a_bf9f, "ldrex r11, [r10]"),
    (0xe18a_cf9b, "strex r12, r11, [r10]"),
    (0xf57f_f01f, "clrex"),
    (0xf57f_f05f, "dmb #15"),
    (0xe511_0000, "ldr r0, [r1, #-0]"),
    (0xe3a0_0f41, "mov r0, #260"),
    (0xe3a0_0e01, "mov r0, #1, #28"),
    (0xe181_0f90, ".word 0xe1810f90"),
];

/// Whether a word is shown as this text.
fn is_shown(word: u32, text: &str) -> bool {
    let mut line = Line::new();
    disassemble(word, 0x1000, &mut line);
    line.bytes() == text.as_bytes()
}

/// Whether a text is read as this word.
fn is_read(alloc: Global, text: &str, word: u32) -> bool {
    match assemble(alloc, text) {
        Ok(unit) => unit.words.as_slice() == [word].as_slice(),
        Err(_) => false,
    }
}

#[test]
fn words_are_shown_and_read_again(rt: HostRuntime) {
    for &(word, text) in &SHOWN {
        assert!(rt; is_shown(word, text), "{text}");
        assert!(rt; is_read(rt.alloc(), text, word), "{text}");
    }
}
