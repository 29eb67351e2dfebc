//! Extended parts and reversed bytes (DDI 0406C A5.4.3).
ghost use Rattle.std.specs.Prelude.{◌≡◌, ◌<◌, ◌∷◌, []};
ghost use Rattle.llsc_base.specs.Bits.{bits_of};
ghost use Rattle.a32_instr.specs.Table.{extend, rev};
ghost use Rattle.a32_decode.specs.inner.Rows.{Decides};

use crate::bits::{bit, condition, register};
use crate::pc::one_of_2_is_pc;
use a32_instr::Instr;
use llsc_base::{DecodeFault, bits};

/// A media instruction: a word whose bits 27:25 are 011 and whose bit 4 is set (DDI 0406C A5.4).
#[inline]
pub fn media(word: u32) -> Result<Instr, DecodeFault>
    requires group { bits_of word 25 3 ≡ 3 }
    requires media { bits_of word 4 1 ≡ 1 }
    requires cond { bits_of word 28 4 < 15 }
    ensures { Decides (extend ∷ rev ∷ []) word result }
{
    if bits(word, 4, 4) == 7 {
        return extended(word);
    }
    reversed(word)
}

/// SXTB, SXTH, UXTB and UXTH.
#[inline]
fn extended(word: u32) -> Result<Instr, DecodeFault>
    requires group { bits_of word 25 3 ≡ 3 }
    requires extends { bits_of word 4 4 ≡ 7 }
    requires cond { bits_of word 28 4 < 15 }
    ensures { Decides (extend ∷ []) word result }
{
    if bits(word, 23, 2) != 1 || !bit(word, 21) {
        return Err(DecodeFault::Undefined);
    }
    if bits(word, 16, 4) != 15 || bits(word, 8, 2) != 0 {
        return Err(DecodeFault::Undefined);
    }
    let rd = register(word, 12);
    let rm = register(word, 0);
    if one_of_2_is_pc(rd, rm) {
        return Err(DecodeFault::Unpredictable);
    }
    Ok(Instr::Extend {
        cond: condition(word),
        unsigned: bit(word, 22),
        half: bit(word, 20),
        rd,
        rm,
        turn: bits(word, 10, 2) as u8,
    })
}

/// REV (DDI 0406C A8.8.145).
#[inline]
fn reversed(word: u32) -> Result<Instr, DecodeFault>
    requires group { bits_of word 25 3 ≡ 3 }
    requires cond { bits_of word 28 4 < 15 }
    ensures { Decides (rev ∷ []) word result }
{
    if bits(word, 16, 9) != 0xbf || bits(word, 4, 8) != 0xf3 {
        return Err(DecodeFault::Undefined);
    }
    let rd = register(word, 12);
    let rm = register(word, 0);
    if one_of_2_is_pc(rd, rm) {
        return Err(DecodeFault::Unpredictable);
    }
    Ok(Instr::Rev {
        cond: condition(word),
        rd,
        rm,
    })
}
