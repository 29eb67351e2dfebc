//! Multiplications (DDI 0406C A5.2.5).
ghost use Rattle.std.specs.Prelude.{◌≡◌, ◌<◌, ◌∷◌, []};
ghost use Rattle.llsc_base.specs.Bits.{bits_of};
ghost use Rattle.a32_instr.specs.Fields.{long_kind};
ghost use Rattle.a32_instr.specs.Table.{mul, mla, mls, long};
ghost use Rattle.a32_decode.specs.inner.Rows.{Decides};

use crate::bits::{bit, condition, register};
use crate::pc::{one_of_3_is_pc, one_of_4_is_pc};
use a32_instr::{Instr, LongKind};
use llsc_base::{DecodeFault, bits};

/// A multiplication: a word whose bits 27:24 are 0000 and 7:4 are 1001 (DDI 0406C A5.2.5).
#[inline]
pub fn multiplication(word: u32) -> Result<Instr, DecodeFault>
    requires group { bits_of word 24 4 ≡ 0 }
    requires product { bits_of word 4 4 ≡ 9 }
    requires cond { bits_of word 28 4 < 15 }
    ensures { Decides (mul ∷ mla ∷ mls ∷ long ∷ []) word result }
{
    if bit(word, 23) {
        return product_of_64(word);
    }
    if bit(word, 22) {
        return product_subtracted(word);
    }
    if bit(word, 21) {
        return product_added(word);
    }
    product(word)
}

/// MUL (DDI 0406C A8.8.114).
#[inline]
fn product(word: u32) -> Result<Instr, DecodeFault>
    requires group { bits_of word 21 7 ≡ 0 }
    requires product { bits_of word 4 4 ≡ 9 }
    requires cond { bits_of word 28 4 < 15 }
    ensures { Decides (mul ∷ []) word result }
{
    if bits(word, 12, 4) != 0 {
        return Err(DecodeFault::Undefined);
    }
    let rd = register(word, 16);
    let rn = register(word, 0);
    let rm = register(word, 8);
    if one_of_3_is_pc(rd, rn, rm) {
        return Err(DecodeFault::Unpredictable);
    }
    Ok(Instr::Mul {
        cond: condition(word),
        s: bit(word, 20),
        rd,
        rn,
        rm,
    })
}

/// MLA (DDI 0406C A8.8.100).
#[inline]
fn product_added(word: u32) -> Result<Instr, DecodeFault>
    requires group { bits_of word 21 7 ≡ 1 }
    requires product { bits_of word 4 4 ≡ 9 }
    requires cond { bits_of word 28 4 < 15 }
    ensures { Decides (mla ∷ []) word result }
{
    let rd = register(word, 16);
    let rn = register(word, 0);
    let rm = register(word, 8);
    let ra = register(word, 12);
    if one_of_4_is_pc(rd, rn, rm, ra) {
        return Err(DecodeFault::Unpredictable);
    }
    Ok(Instr::Mla {
        cond: condition(word),
        s: bit(word, 20),
        rd,
        rn,
        rm,
        ra,
    })
}

/// MLS (DDI 0406C A8.8.101).
#[inline]
fn product_subtracted(word: u32) -> Result<Instr, DecodeFault>
    requires group { bits_of word 22 6 ≡ 1 }
    requires product { bits_of word 4 4 ≡ 9 }
    requires cond { bits_of word 28 4 < 15 }
    ensures { Decides (mls ∷ []) word result }
{
    if bits(word, 20, 2) != 2 {
        return Err(DecodeFault::Undefined);
    }
    let rd = register(word, 16);
    let rn = register(word, 0);
    let rm = register(word, 8);
    let ra = register(word, 12);
    if one_of_4_is_pc(rd, rn, rm, ra) {
        return Err(DecodeFault::Unpredictable);
    }
    Ok(Instr::Mls {
        cond: condition(word),
        rd,
        rn,
        rm,
        ra,
    })
}

/// UMULL, UMLAL, SMULL and SMLAL.
#[inline]
fn product_of_64(word: u32) -> Result<Instr, DecodeFault>
    requires group { bits_of word 23 5 ≡ 1 }
    requires product { bits_of word 4 4 ≡ 9 }
    requires cond { bits_of word 28 4 < 15 }
    ensures { Decides (long ∷ []) word result }
{
    let hi = register(word, 16);
    let lo = register(word, 12);
    let rn = register(word, 0);
    let rm = register(word, 8);
    if one_of_4_is_pc(hi, lo, rn, rm) {
        return Err(DecodeFault::Unpredictable);
    }
    if hi == lo {
        return Err(DecodeFault::Unpredictable);
    }
    Ok(Instr::Long {
        cond: condition(word),
        kind: kind_of_product(bits(word, 21, 2)),
        s: bit(word, 20),
        lo,
        hi,
        rn,
        rm,
    })
}

/// The multiplication of bits 22:21.
#[inline]
#[tactic(auto, unfolding(a32_instr::specs::Fields::long_kind))]
fn kind_of_product(kind: u32) -> LongKind
    ensures { result ≡ long_kind kind }
{
    match kind {
        0 => LongKind::Umull,
        1 => LongKind::Umlal,
        2 => LongKind::Smull,
        _ => LongKind::Smlal,
    }
}
