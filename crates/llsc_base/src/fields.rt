//! The fields of a word.
ghost use Rattle.std.specs.Prelude.{◌≡◌, ◌<◌, ◌^◌};
ghost use Rattle.llsc_base.specs.Bits.{bits_of};

/// The `width` bits of a word from bit `low` up.
#[inline(always)]
pub fn bits(word: u32, low: u32, width: u32) -> u32
    requires low { low < 32 }
    requires width { width < 32 }
    ensures value { result ≡ bits_of word low width }
    ensures bound { result < 2 ^ width }
{
    (word >> low) & ((1 << width) - 1)
}
