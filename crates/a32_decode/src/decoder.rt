//! The instruction of a word, by the groups of encodings.
ghost use Rattle.std.specs.Prelude.{◌≡◌, ◌<◌, ◌∷◌, []};
ghost use Rattle.llsc_base.specs.Bits.{bits_of};
ghost use Rattle.a32_instr.specs.Table.{extend, rev, word_reg, meaning, table};
ghost use Rattle.a32_decode.specs.inner.Rows.{Decides};

use crate::bits::bit;
use crate::{block, branch, data_processing, load_store, media, synchronization};
use a32_instr::Instr;
use llsc_base::{DecodeFault, bits};

/// The instruction that a word is, by the table of words (DDI 0406C A5, A8.8). The encodings go by bits 27:25 (DDI 0406C
/// A5.1, table A5-1); a condition field of 15 is another space of encodings.
///
/// # Errors
///
/// `Undefined` exactly where the word fits no row of the table; `Unpredictable` exactly where it fits one, and the row's
/// last condition, `unpredictable`, holds of its fields.
#[inline]
pub fn decode(word: u32) -> Result<Instr, DecodeFault>
    ensures { result ≡ meaning table word }
{
    if bits(word, 28, 4) == 15 {
        return synchronization::unconditional(word);
    }
    match bits(word, 25, 3) {
        0 => data_processing::with_registers(word),
        1 => data_processing::with_immediate(word),
        2 => load_store::immediate(word),
        3 => by_register_or_media(word),
        4 => block::block(word),
        5 => branch::immediate(word),
        7 => branch::supervisor_call(word),
        _ => Err(DecodeFault::Undefined),
    }
}

/// A load or a store with a register offset, or a media instruction: a word whose bits 27:25 are 011
/// (DDI 0406C A5.1).
#[inline]
fn by_register_or_media(word: u32) -> Result<Instr, DecodeFault>
    requires group { bits_of word 25 3 ≡ 3 }
    requires cond { bits_of word 28 4 < 15 }
    ensures { Decides (extend ∷ rev ∷ word_reg ∷ []) word result }
{
    if !bit(word, 4) {
        return load_store::by_register(word);
    }
    media::media(word)
}
