//! Words both ways: what the decoder reads of a word is encoded as that word.
ghost use Rattle.std.specs.Prelude.{◌<◌};

use crate::tests::same;
use a32_decode::decode;
use a32_encode::{EncodeFault, encode};
use a32_instr::{AluOp, BarrierKind, Cond, HalfKind, Index, Instr, Offset, Operand2, Reg};

/// Words of each class of instructions, as the GNU assembler encodes them.
const WORDS: &[u32] = &[
    // adds r0, r0, #1; mov r1, #8192; rsb r3, r0, #1; mov r10, r4, lsr #28; add r10, r9, r10, lsl #3
    0xE2900001, 0xE3A01A02, 0xE2603001, 0xE1A0AE24, 0xE089A18A,
    // mvns r1, r2, asr r3; cmp r1, #3; movw r5, #26125; movt r5, #25; nop; yield
    0xE1F01352, 0xE3510003, 0xE306560D, 0xE3405019, 0xE320F000, 0xE320F001,
    // mla r4, r4, r5, r6; muls r1, r2, r3; mls r1, r2, r3, r4; clz r0, r1; rev r0, r1; uxtb r0, r1, ror #8
    0xE0246594, 0xE0110392, 0xE0614392, 0xE16F0F11, 0xE6BF0F31, 0xE6EF0471,
    // ldr r1, [r2, r3, lsl #3]; str r1, [r2, r0, lsl #3]; ldrb r0, [r1], #1; str lr, [sp, #-4]!
    0xE7921183, 0xE7821180, 0xE4D10001, 0xE52DE004,
    // ldrh r0, [r1, #18]; strh r2, [r3], #-2; ldrsb r4, [r5, -r6]; ldrsh r7, [r8, #4]!
    0xE1D101B2, 0xE04320B2, 0xE11540D6, 0xE1F870F4,
    // ldmia sp!, {r4, pc}; stmia r1, {r2, r3, r4, r5}; bne, four words back; bl to itself; bx lr; svc #0
    0xE8BD8010, 0xE881003C, 0x1AFFFFFC, 0xEBFFFFFE, 0xE12FFF1E, 0xEF000000,
    // ldrex r11, [r10]; strex r12, r11, [r10]; ldrexd r2, r3, [r1]; strexb r0, r2, [r1]; clrex; dmb #15
    0xE19ABF9F, 0xE18ACF9B, 0xE1B12F9F, 0xE1C10F92, 0xF57FF01F, 0xF57FF05F,
];

/// Whether what is read of a word is encoded as that word.
fn is_given_back(word: u32) -> bool {
    match decode(word) {
        Ok(meant) => encode(&meant) == Ok(word),
        Err(_) => false,
    }
}

#[test]
fn gives_back_words_of_each_class(rt: HostRuntime) {
    for &word in WORDS {
        assert!(rt; is_given_back(word), "at {word:#x}");
    }
}

/// Whether an instruction is encoded as this word.
fn is_word(instr: &Instr, word: u32) -> bool {
    encode(instr) == Ok(word)
}

/// Whether no word means the instruction.
fn has_no_word(instr: &Instr) -> bool {
    encode(instr) == Err(EncodeFault::NoEncoding)
}

fn r(num: u8) -> Reg
    requires { num < 16 }
{
    Reg::new(num)
}

fn operation(op: AluOp, s: bool, rd: u8, rn: u8, operand: Operand2) -> Instr
    requires rd { rd < 16 }
    requires rn { rn < 16 }
{
    Instr::Alu {
        cond: Cond::ALWAYS,
        op,
        s,
        rd: r(rd),
        rn: r(rn),
        operand,
    }
}

fn ldrh(rt: u8, offset: Offset) -> Instr
    requires { rt < 16 }
{
    Instr::Half {
        cond: Cond::ALWAYS,
        kind: HalfKind::Ldrh,
        index: Index::Plain,
        rn: r(1),
        rt: r(rt),
        offset,
    }
}

/// The number 1.
fn one() -> Operand2 {
    Operand2::Imm { turn: 0, imm8: 1 }
}

fn branch(words: i32) -> Instr {
    Instr::Branch {
        cond: Cond::ALWAYS,
        link: false,
        words,
    }
}

/// The last distances and numbers that have a word, as the manual's fields have room for them.
#[test]
fn gives_words_at_the_ends_of_fields(rt: HostRuntime) {
    let number = Operand2::Imm {
        turn: 15,
        imm8: 255,
    };
    assert!(rt; is_word(&operation(AluOp::Mov, false, 0, 0, number), 0xE3A00FFF));
    assert!(rt; is_word(&branch(0x7F_FFFF), 0xEA7FFFFF));
    assert!(rt; is_word(&branch(-0x80_0000), 0xEA800000));
    let offset = Offset::Imm {
        add: true,
        imm: 255,
    };
    assert!(rt; is_word(&ldrh(0, offset), 0xE1D10FBF));
    let barrier = Instr::Barrier {
        kind: BarrierKind::Isb,
        option: 15,
    };
    assert!(rt; is_word(&barrier, 0xF57FF06F));
}

/// Fields that have no room for their number, and fields that together are no instruction.
#[test]
fn gives_no_word_where_there_is_none(rt: HostRuntime) {
    let turned = Operand2::Imm { turn: 16, imm8: 0 };
    assert!(rt; has_no_word(&operation(AluOp::Mov, false, 0, 0, turned)));
    assert!(rt; has_no_word(&operation(AluOp::Cmp, false, 0, 0, one())));
    assert!(rt; has_no_word(&operation(AluOp::Mov, false, 0, 1, one())));
    assert!(rt; has_no_word(&operation(AluOp::Add, true, 15, 0, one())));
    assert!(rt; has_no_word(&branch(0x80_0000)));
    assert!(rt; has_no_word(&branch(-0x80_0001)));
    let offset = Offset::Imm {
        add: true,
        imm: 256,
    };
    assert!(rt; has_no_word(&ldrh(0, offset)));
    assert!(rt; has_no_word(&ldrh(15, Offset::Imm { add: true, imm: 0 })));
    let call = Instr::Svc {
        cond: Cond::ALWAYS,
        imm: 0x100_0000,
    };
    assert!(rt; has_no_word(&call));
    let largest = Instr::Svc {
        cond: Cond::ALWAYS,
        imm: 0xffff_ffff,
    };
    assert!(rt; has_no_word(&largest));
    let barrier = Instr::Barrier {
        kind: BarrierKind::Dmb,
        option: 16,
    };
    assert!(rt; has_no_word(&barrier));
}

#[test]
fn names_its_fault(rt: HostRuntime) {
    same(&rt, EncodeFault::NoEncoding.name(), "NoEncoding");
}
