//! Words beside those of instructions: a word is an instruction just where it has the fixed bits of one.
use rv32_guest::{DecodeFault, rv_decode};
use std::test::Fail;

/// The fixed bits of the words of each instruction, and which bits these are, as the GNU tools have them (`MATCH_ADD` and
/// `MASK_ADD`, and so on).
const FIXED: &[(u32, u32)] = &[
    // lui, auipc, jal, jalr
    (0x0000_0037, 0x0000_007f),
    (0x0000_0017, 0x0000_007f),
    (0x0000_006f, 0x0000_007f),
    (0x0000_0067, 0x0000_707f),
    // beq, bne, blt, bge, bltu, bgeu
    (0x0000_0063, 0x0000_707f),
    (0x0000_1063, 0x0000_707f),
    (0x0000_4063, 0x0000_707f),
    (0x0000_5063, 0x0000_707f),
    (0x0000_6063, 0x0000_707f),
    (0x0000_7063, 0x0000_707f),
    // lb, lh, lw, lbu, lhu, sb, sh, sw
    (0x0000_0003, 0x0000_707f),
    (0x0000_1003, 0x0000_707f),
    (0x0000_2003, 0x0000_707f),
    (0x0000_4003, 0x0000_707f),
    (0x0000_5003, 0x0000_707f),
    (0x0000_0023, 0x0000_707f),
    (0x0000_1023, 0x0000_707f),
    (0x0000_2023, 0x0000_707f),
    // addi, slti, sltiu, xori, ori, andi
    (0x0000_0013, 0x0000_707f),
    (0x0000_2013, 0x0000_707f),
    (0x0000_3013, 0x0000_707f),
    (0x0000_4013, 0x0000_707f),
    (0x0000_6013, 0x0000_707f),
    (0x0000_7013, 0x0000_707f),
    // slli, srli, srai
    (0x0000_1013, 0xfe00_707f),
    (0x0000_5013, 0xfe00_707f),
    (0x4000_5013, 0xfe00_707f),
    // add, sub, sll, slt, sltu, xor, srl, sra, or, and
    (0x0000_0033, 0xfe00_707f),
    (0x4000_0033, 0xfe00_707f),
    (0x0000_1033, 0xfe00_707f),
    (0x0000_2033, 0xfe00_707f),
    (0x0000_3033, 0xfe00_707f),
    (0x0000_4033, 0xfe00_707f),
    (0x0000_5033, 0xfe00_707f),
    (0x4000_5033, 0xfe00_707f),
    (0x0000_6033, 0xfe00_707f),
    (0x0000_7033, 0xfe00_707f),
    // fence, lr.w, sc.w, ecall
    (0x0000_000f, 0x0000_707f),
    (0x1000_202f, 0xf9f0_707f),
    (0x1800_202f, 0xf800_707f),
    (0x0000_0073, 0xffff_ffff),
];

/// Whether a word has the fixed bits of an instruction.
fn has_fixed_bits(word: u32) -> bool {
    for (bits, mask) in FIXED {
        if word & *mask == *bits {
            return true;
        }
    }
    false
}

/// Whether a word is read as an instruction just where it has the fixed bits of one, and is undefined otherwise.
fn is_right(word: u32) -> bool {
    match rv_decode(word) {
        Ok(_) => has_fixed_bits(word),
        Err(fault) => fault == DecodeFault::Undefined && !has_fixed_bits(word),
    }
}

/// The first of a word and of those that differ from it in one bit that isn't read so.
fn first_wrong(word: u32) -> Option<u32> {
    for bit in 0..32u32 {
        if !is_right(word ^ 1 << bit) {
            return Some(word ^ 1 << bit);
        }
    }
    if is_right(word) { None } else { Some(word) }
}

/// All other bits are zeros, or ones.
#[test]
fn words_beside_those_of_instructions(rt: HostRuntime) -> Result<(), Fail> {
    for (bits, mask) in FIXED {
        assert_eq!(rt; first_wrong(*bits), None, "beside {bits:#x}");
        assert_eq!(rt; first_wrong(*bits | !*mask), None, "beside {bits:#x}");
    }
    Ok(())
}
