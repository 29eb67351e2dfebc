//! Words that the table refuses, and neighbours of theirs that it takes (DDI 0406C A5, A8.8).
//!
//! Each place where the PC may not stand has a word, and so has each other condition under which a word is unpredictable or
//! fits no row.
use a32_decode::{DecodeFault, decode};

/// Words that fit a row and are unpredictable there. The manual calls them so, a return from an exception in User mode; only
/// for a base that is stored above another register it says, in place of that, that the stored word is unknown.
const UNPREDICTABLE: &[u32] = &[
    // adds and movs into the PC, with a number and with a register
    0xe291f001, 0xe3b0f000, 0xe091f002, 0xe1b0f00e,
    // add r0, r1, r2, lsl r3 with the PC in each place
    0xe081f312, 0xe08f0312, 0xe081031f, 0xe0810f12,
    // cmp r1, r2, lsl r3 and mov r0, r1, lsl r2 with the PC in each place
    0xe15f0312, 0xe151031f, 0xe1510f12, 0xe1a0f211, 0xe1a0021f, 0xe1a00f11,
    // movw and movt
    0xe300f001, 0xe340f001,
    // mul r0, r1, r2, and muls, with the PC in each place
    0xe00f0291, 0xe000029f, 0xe0000f91, 0xe01f0291,
    // mla r0, r1, r2, r3 with the PC in each place
    0xe02f3291, 0xe020329f, 0xe0203f91, 0xe020f291,
    // mls r0, r1, r2, r3 with the PC in each place
    0xe06f3291, 0xe060329f, 0xe0603f91, 0xe060f291,
    // umull r0, r1, r2, r3 with the PC in each place, and one register for both halves
    0xe081f392, 0xe08f0392, 0xe081039f, 0xe0810f92, 0xe0800392,
    // umlal, smull and smlals into the PC, and with one register for both halves
    0xe0af0392, 0xe0a00392, 0xe0cf0392, 0xe0c00392, 0xe0ff0392, 0xe0f00392,
    // clz r0, r1 and rev r0, r1 with the PC in each place
    0xe16fff11, 0xe16f0f1f, 0xe6bfff31, 0xe6bf0f3f,
    // sxtb, sxth, uxtb and uxth r0, r1 with the PC in each place
    0xe6aff071, 0xe6af007f, 0xe6bff071, 0xe6bf007f, 0xe6eff071, 0xe6ef007f, 0xe6fff071, 0xe6ff007f,
    // ldr and str r0 that write back to the PC: [pc, #4]!, [pc], #4, [pc, r2]! and [pc], r2
    0xe5bf0004, 0xe5af0004, 0xe49f0004, 0xe48f0004, 0xe7bf0002, 0xe7af0002, 0xe69f0002, 0xe68f0002,
    // ldr and str r1 that write back to r1, with a number, and ldrb and strb
    0xe5b11004, 0xe5a11004, 0xe4911004, 0xe4811004, 0xe5f11004, 0xe5e11004, 0xe4d11004, 0xe4c11004,
    // ldr and str r1 that write back to r1, with a register
    0xe7b11002, 0xe7a11002, 0xe6911002, 0xe6811002,
    // ldrb and strb of the PC
    0xe5d1f000, 0xe5c1f000, 0xe4d1f004, 0xe7d1f002, 0xe7c1f002,
    // ldr, str and ldrb r0, [r1, pc]
    0xe791000f, 0xe781000f, 0xe7d1000f,
    // ldrh, strh, ldrsb and ldrsh of the PC, with a number and with a register
    0xe1d1f0b0, 0xe1c1f0b0, 0xe1d1f0d0, 0xe1d1f0f0, 0xe191f0b2, 0xe181f0b2, 0xe191f0d2, 0xe191f0f2,
    // ldrh and strh that write back to the PC
    0xe1ff00b2, 0xe1ef00b2, 0xe0df00b2, 0xe0cf00b2, 0xe1bf00b2, 0xe09f00b2,
    // ldrh and strh r1 that write back to r1
    0xe1f110b2, 0xe1e110b2, 0xe0d110b2, 0xe0c110b2, 0xe1b110b2, 0xe09110b2,
    // ldrh, strh and ldrsb r0, [r1, pc]
    0xe19100bf, 0xe18100bf, 0xe19100df,
    // ldmia and stmia of pc, and ldmia of pc!; ldmia, stmia and ldmia! of no registers
    0xe89f0002, 0xe88f0002, 0xe8bf0002, 0xe8910000, 0xe8810000, 0xe8b10000,
    // a base that is loaded: ldmia r4!, {r4, pc}; ldmia r1!, {r0, r1}; ldmia lr!, {lr}
    0xe8b48010, 0xe8b10003, 0xe8be4000,
    // a base that is stored above another: stmia r1!, {r0, r1}; stmdb sp!, {r0, sp}
    0xe8a10003, 0xe92d2001,
    // blx pc
    0xe12fff3f,
    // ldrex, ldrexb, ldrexh and ldrexd at the PC
    0xe19f0f9f, 0xe1df0f9f, 0xe1ff0f9f, 0xe1bf0f9f,
    // ldrex, ldrexb and ldrexh of the PC; ldrexd of r15, lr, r1 and r3
    0xe191ff9f, 0xe1d1ff9f, 0xe1f1ff9f, 0xe1b1ff9f, 0xe1b1ef9f, 0xe1b21f9f, 0xe1b13f9f,
    // strex r0, r2, [r1] with the PC in each place, and r0 in place of r1 and of r2
    0xe18f0f92, 0xe181ff92, 0xe1810f9f, 0xe1800f92, 0xe1810f90,
    // strexb and strexh the same
    0xe1cf0f92, 0xe1c1ff92, 0xe1c10f9f, 0xe1c00f92, 0xe1c10f90, 0xe1ef0f92, 0xe1e1ff92, 0xe1e10f9f,
    0xe1e00f92, 0xe1e10f90,
    // strexd r0, r2, r3, [r1] the same, with r3 as the status, and of r3 and lr
    0xe1af0f92, 0xe1a1ff92, 0xe1a10f9f, 0xe1a00f92, 0xe1a10f90, 0xe1a13f92, 0xe1a10f93, 0xe1a10f9e,
];

/// Words that fit no row, most of them instructions that this table leaves out.
const UNKNOWN: &[u32] = &[
    // teq and cmn without S, with a number
    0xe3210001, 0xe3610001,
    // tst, teq, cmp and cmn without S, with a register, and cmp with a shift by a register
    0xe1010002, 0xe1210002, 0xe1410002, 0xe1610002, 0xe1410312,
    // tst, teq, cmp and cmn with rd 1, and cmp with rd 15
    0xe3111001, 0xe1311002, 0xe3511003, 0xe1511002, 0xe1511312, 0xe3711001, 0xe351f003, 0xe151f312,
    // mov and mvn with rn 1
    0xe3a10000, 0xe3e10000, 0xe1a10002, 0xe1e10002, 0xe1a11312, 0xe1e11312,
    // wfe, wfi, sev and dbg; nop with rd 14; writes to the flags and to the saved ones
    0xe320f002, 0xe320f003, 0xe320f004, 0xe320f0f0, 0xe320e000, 0xe321f000, 0xe360f000, 0xe129f001,
    // mul with bits 15:12 set; mls with S; umaal; the opcode between
    0xe0001291, 0xe0703291, 0xe0410392, 0xe0503291,
    // clz with other bits at 11:8 and 19:16; qadd; smlabb; bkpt; mrs; bxj; bx with bit 6 set
    0xe16f0011, 0xe16e0f11, 0xe1010052, 0xe1010382, 0xe1200070, 0xe10f0000, 0xe12fff21, 0xe12fff51,
    // sxtab; sxtb with bit 8 set; sxtb16 and uxtb16; rev16, revsh and rbit; rev with bit 8 or bit 19 clear
    0xe6a20071, 0xe6af0171, 0xe68f0071, 0xe6cf0071, 0xe6bf0fb1, 0xe6ff0fb1, 0xe6ff0f31, 0xe6bf0e31,
    0xe6b70f31,
    // sxtb with one of bits 27, 24, 23, 19 to 16, 9 and 7 to 5 the other way
    0xeeaf0071, 0xe7af0071, 0xe62f0071, 0xe6a70071, 0xe6ab0071, 0xe6ad0071, 0xe6ae0071, 0xe6af0271,
    0xe6af00f1, 0xe6af0031, 0xe6af0051,
    // rev with one of bits 27, 24, 23, 21, 20, 18 to 16, 11 to 9, 6 and 5 the other way
    0xeebf0f31, 0xe7bf0f31, 0xe63f0f31, 0xe69f0f31, 0xe6af0f31, 0xe6bb0f31, 0xe6bd0f31, 0xe6be0f31,
    0xe6bf0731, 0xe6bf0b31, 0xe6bf0d31, 0xe6bf0f71, 0xe6bf0f11,
    // mls, clz and ldrh with bit 27 set, and bx with bit 7 set
    0xe8603291, 0xe96f0f11, 0xe9d100b0, 0xe12fff91,
    // ssat, sel, ubfx, bfc, sdiv and udf
    0xe6a10011, 0xe6810fb2, 0xe7e00050, 0xe7c0001f, 0xe710f211, 0xe7f000f0,
    // ldrt, strt, ldrbt and strbt r0, [r1], #4; ldrt and strbt with r2; ldrt r1, [r1], #4; ldrbt pc, [r1], #4
    0xe4b10004, 0xe4a10004, 0xe4f10004, 0xe4e10004, 0xe6b10002, 0xe6e10002, 0xe4b11004, 0xe4f1f004,
    // ldrht, strht, ldrsbt and ldrsht, with a number and with a register; ldrht pc
    0xe0f100b2, 0xe0e100b2, 0xe0f100d2, 0xe0f100f2, 0xe0b100b2, 0xe0a100b2, 0xe0b100d2, 0xe0b100f2,
    0xe0f1f0b2,
    // ldrd and strd, with a number and with a register; ldrd pc; swp, and its bits with a load
    0xe1c200d0, 0xe1c200f0, 0xe18200d3, 0xe18200f3, 0xe1c2f0d0, 0xe1020091, 0xe1d10092,
    // ldrh r0, [r1, r2] with bit 8 or bit 11 set, and ldrh r0, [r1, pc] with bit 10 set
    0xe19101b2, 0xe19108b2, 0xe19104bf,
    // ldmia and stmia r1, {r2}^; ldmia r1, {r2, pc}^; ldmia pc, {}^; ldmia r1!, {}^
    0xe8d10004, 0xe8c10004, 0xe8d18004, 0xe8df0000, 0xe8f10000,
    // coprocessor loads, moves and operations
    0xed910000, 0xec410100, 0xee000000, 0xee010f10,
    // ldrex with bit 8 or bit 0 clear, strex with bit 8 clear
    0xe1910e9f, 0xe1910f9e, 0xe1810e92,
    // a barrier of no kind; clrex with bit 0 clear; dmb with bit 16 clear; clrex and dsb with bit 27 set, clrex with bit 25 set
    0xf57ff07f, 0xf57ff070, 0xf57ff01e, 0xf57ef05f, 0xfd7ff01f, 0xfd7ff04f, 0xf77ff01f,
    // a condition field of 15 in each class of encodings
    0xf0812003, 0xf3a00000, 0xf5d1f000, 0xf7d1f002, 0xf8910004, 0xfa000000, 0xfe000000, 0xf1d100b2,
    0xf1910f9f, 0xffffffff,
];

/// Words beside those, which are instructions.
const TAKEN: &[u32] = &[
    // add and mov into the PC, adds of it, and cmp of it
    0xe281f001, 0xe1a0f00e, 0xe29f0001, 0xe091000f, 0xe35f0001, 0xe15f000f,
    // teq with S; movw and movt of lr; nop and yield
    0xe3310001, 0xe300e001, 0xe340e001, 0xe320f000, 0xe320f001,
    // muls, mlas and umulls; mul, mla, mls of lr; smlal with one register in the other places
    0xe0100291, 0xe0303291, 0xe0910392, 0xe00e0e9e, 0xe02eee9e, 0xe06eee9e, 0xe0e10090,
    // clz, rev and uxth of lr
    0xe16fef1e, 0xe6bfef3e, 0xe6ffe07e,
    // ldr and str of the PC, plain and with write-back; ldr, str and ldrb at the PC
    0xe591f000, 0xe581f000, 0xe491f004, 0xe7b1f002, 0xe59f0004, 0xe58f0004, 0xe79f0002, 0xe5df0000,
    // ldr r1, [r1, #4]; ldr r1, [r1, r2]; ldr r0, [r1, r1]!; strb r1, [r1]
    0xe5911004, 0xe7911002, 0xe7b10001, 0xe5c11000,
    // ldrh and strh at the PC; ldrh r1, [r1, #2]; ldrsh r0, [r1, r1]!
    0xe1df00b2, 0xe1cf00b2, 0xe1d110b2, 0xe1b100f1,
    // ldmia r1, {r1, pc}; ldmia r1!, {r2}; stmia r1, {r0, r1}; stmia r1!, {r1, r2}
    0xe8918002, 0xe8b10004, 0xe8810003, 0xe8a10006,
    // bx pc and blx lr
    0xe12fff1f, 0xe12fff3e,
    // ldrex lr, ldrex r1, [r1], ldrexb r3; ldrexd r12, and r2, [r2]
    0xe191ef9f, 0xe1911f9f, 0xe1d13f9f, 0xe1b1cf9f, 0xe1b22f9f,
    // strex r0, r1, [r1], strex r0, lr, [r1] and strex r3, r2, [r1]; strexb and strexh r3, r2, [r1]
    0xe1810f91, 0xe1810f9e, 0xe1813f92, 0xe1c13f92, 0xe1e13f92,
    // strexd r0, r12, [r1], r4, r2, [r1] and r0, r2, [r2]
    0xe1a10f9c, 0xe1a14f92, 0xe1a20f92,
    // dsb, dmb and isb with 0, and clrex
    0xf57ff040, 0xf57ff050, 0xf57ff060, 0xf57ff01f,
];

/// Whether a word is refused so.
fn is_refused(word: u32, fault: DecodeFault) -> bool {
    decode(word) == Err(fault)
}

#[test]
fn refuses_unpredictable_words(rt: HostRuntime) {
    for &word in UNPREDICTABLE {
        assert!(rt;
            is_refused(word, DecodeFault::Unpredictable),
            "at {word:#x}"
        );
    }
}

#[test]
fn refuses_words_of_no_row(rt: HostRuntime) {
    for &word in UNKNOWN {
        assert!(rt; is_refused(word, DecodeFault::Undefined), "at {word:#x}");
    }
}

#[test]
fn takes_words_beside_those(rt: HostRuntime) {
    for word in TAKEN {
        assert!(rt; decode(*word).is_ok(), "at {word:#x}");
    }
}
