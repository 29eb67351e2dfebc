//! Texts beside the words that the GNU assembler gives them.
ghost use Rattle.std.specs.Prelude.{codes, if◌then◌else◌, None, Some};
ghost use Rattle.std.specs.Str.{bytes_eq};

use a32_decode::decode;
use a32_instr::Instr;
use a32_syntax::{AsmKind, Labels, instruction_of, mnemonic_of};

/// No labels at all.
#[derive(Drop)]
struct NoLabels;

impl Labels for NoLabels {
    ghost addresses = { λ labels name. None };

    fn address(&self, _name: &[u8]) -> Option<u32> {
        None
    }
}

/// What a text is read as.
fn read<L: Labels>(
    mnemonic: &str,
    operands: &str,
    here: u32,
    labels: &L,
) -> Result<Instr, AsmKind> {
    match mnemonic_of(mnemonic.as_bytes()) {
        Some(mnemonic) => instruction_of(mnemonic, operands.as_bytes(), here, labels),
        None => Err(AsmKind::Mnemonic),
    }
}

/// Whether a text is read as what a word means.
fn is_word<L: Labels>(mnemonic: &str, operands: &str, here: u32, labels: &L, word: u32) -> bool {
    match decode(word) {
        Ok(meant) => read(mnemonic, operands, here, labels) == Ok(meant),
        Err(_) => false,
    }
}

/// A mnemonic, its operands, the address at which it stands, and the word.
const TEXTS: [(&str, &str, u32, u32); 22] = [
    ("adds", "r0, r0, #1", 0, 0xE2900001),
    ("mov", "r1, #8192", 0, 0xE3A01A02),
    ("rsb", "r3, r0, #1", 0, 0xE2603001),
    ("mov", "r10, r4, lsr #28", 0, 0xE1A0AE24),
    ("add", "r10, r9, r10, lsl #3", 0, 0xE089A18A),
    ("movw", "r5, #26125", 0, 0xE306560D),
    ("movt", "r5, #25", 0, 0xE3405019),
    ("mla", "r4, r4, r5, r6", 0, 0xE0246594),
    ("ldr", "r1, [r2, r3, lsl #3]", 0, 0xE7921183),
    ("str", "r1, [r2, r0, lsl #3]", 0, 0xE7821180),
    ("ldrh", "r0, [r1, #18]", 0, 0xE1D101B2),
    ("ldmia", "sp!, {r4, pc}", 0, 0xE8BD8010),
    ("stmia", "r1, {r2, r3, r4, r5}", 0, 0xE881003C),
    ("bne", "0x00001008", 0x1010, 0x1AFFFFFC),
    ("bx", "lr", 0, 0xE12FFF1E),
    ("clz", "r0, r1", 0, 0xE16F0F11),
    ("rev", "r0, r1", 0, 0xE6BF0F31),
    ("uxtb", "r0, r1, ror #8", 0, 0xE6EF0471),
    ("ldrex", "r11, [r10]", 0, 0xE19ABF9F),
    ("strex", "r12, r11, [r10]", 0, 0xE18ACF9B),
    ("clrex", "", 0, 0xF57FF01F),
    ("dmb", "#15", 0, 0xF57FF05F),
];

#[test]
fn reads_texts_of_each_class(rt: HostRuntime) {
    for &(mnemonic, operands, here, word) in &TEXTS {
        assert!(rt;
            is_word(mnemonic, operands, here, &NoLabels, word),
            "{mnemonic} {operands}"
        );
    }
}

/// One label, of the name `there`.
#[derive(Drop)]
struct There {
    address: u32,
}

impl Labels for There {
    ghost addresses = { λ labels name. if bytes_eq name (codes "there") then Some labels.address else None };

    fn address(&self, name: &[u8]) -> Option<u32> {
        if name == b"there".as_slice() {
            return Some(self.address);
        }
        None
    }
}

/// The same beside the label `there` at address 0x123454.
const TEXTS_WITH_A_LABEL: [(&str, &str, u32, u32); 9] = [
    // movw r1, #0x3454; movt r1, #0x12; a branch 5 words back, to its address less 12
    ("movw", "r1, #lo(there)", 0, 0xE3031454),
    ("movt", "r1, #hi(there)", 0, 0xE3401012),
    ("bl", "there", 0x12_3460, 0xEBFFFFFB),
    ("b", "0x0", 0, 0xEAFFFFFE),
    ("mov", "r0, r1, asr #32", 0, 0xE1A00041),
    ("mov", "r0, r1, rrx", 0, 0xE1A00061),
    ("movs", "r0, r1, lsl r2", 0, 0xE1B00211),
    ("ldr", "r0, [r1, #-4]!", 0, 0xE5310004),
    ("ldrb", "r0, [r1], -r2, lsr #32", 0, 0xE6510022),
];

#[test]
fn reads_labels_and_long_shifts(rt: HostRuntime) {
    let labels = There { address: 0x12_3454 };
    for &(mnemonic, operands, here, word) in &TEXTS_WITH_A_LABEL {
        assert!(rt;
            is_word(mnemonic, operands, here, &labels, word),
            "{mnemonic} {operands}"
        );
    }
}
