//! The registers, the condition and the single bits that a word names.
ghost use Rattle.std.specs.Prelude.{◌≡◌, ◌<◌, ◌==◌};
ghost use Rattle.llsc_base.specs.Bits.{bits_of};

use a32_instr::{Cond, Reg};
use llsc_base::bits;

/// Whether a bit of a word is set.
#[inline(always)]
pub fn bit(word: u32, low: u32) -> bool
    requires { low < 32 }
    ensures { result ≡ (bits_of word low 1 == 1) }
{
    bits(word, low, 1) == 1
}

/// The register that the four bits of a word from bit `low` up name.
#[inline(always)]
pub fn register(word: u32, low: u32) -> Reg
    requires { low < 32 }
    ensures { result ≡ bits_of word low 4 }
{
    Reg::new(bits(word, low, 4) as u8)
}

/// The condition code of a word that has one, bits 31:28 (DDI 0406C A8.3).
#[inline(always)]
pub fn condition(word: u32) -> Cond
    requires { bits_of word 28 4 < 15 }
    ensures { result ≡ bits_of word 28 4 }
{
    Cond::new(bits(word, 28, 4) as u8)
}
