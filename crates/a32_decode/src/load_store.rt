//! Loads and stores of one register (DDI 0406C A5.3).
ghost use Rattle.std.specs.Prelude.{◌≡◌, ◌<◌, ◌∷◌, ◌==◌, []};
ghost use Rattle.llsc_base.specs.Bits.{bits_of};
ghost use Rattle.a32_instr.specs.Fields.{index_fits, index_of, word_unpredictable};
ghost use Rattle.a32_instr.specs.Table.{word_imm, word_reg};
ghost use Rattle.a32_decode.specs.inner.Rows.{Decides};

use crate::bits::{bit, condition, register};
use crate::data_processing::kind_of_shift;
use a32_instr::{Index, Instr, Offset, Reg};
use llsc_base::{DecodeFault, bits};

/// A load or a store with an immediate offset: a word whose bits 27:25 are 010 (DDI 0406C A5.3).
#[inline]
pub fn immediate(word: u32) -> Result<Instr, DecodeFault>
    requires group { bits_of word 25 3 ≡ 2 }
    requires cond { bits_of word 28 4 < 15 }
    ensures { Decides (word_imm ∷ []) word result }
{
    if !is_index(bits(word, 24, 1), bits(word, 21, 1)) {
        return Err(DecodeFault::Undefined);
    }
    if clashes(word) {
        return Err(DecodeFault::Unpredictable);
    }
    let offset = Offset::Imm {
        add: bit(word, 23),
        imm: bits(word, 0, 12) as u16,
    };
    Ok(of_word(word, offset))
}

/// A load or a store with a register offset: a word whose bits 27:25 are 011 and bit 4 is 0 (DDI 0406C A5.3).
#[inline]
pub fn by_register(word: u32) -> Result<Instr, DecodeFault>
    requires group { bits_of word 25 3 ≡ 3 }
    requires by_number { bits_of word 4 1 ≡ 0 }
    requires cond { bits_of word 28 4 < 15 }
    ensures { Decides (word_reg ∷ []) word result }
{
    if !is_index(bits(word, 24, 1), bits(word, 21, 1)) {
        return Err(DecodeFault::Undefined);
    }
    let rm = register(word, 0);
    if clashes(word) || rm.num() == 15 {
        return Err(DecodeFault::Unpredictable);
    }
    let offset = Offset::Shifted {
        add: bit(word, 23),
        rm,
        kind: kind_of_shift(bits(word, 5, 2)),
        amount: bits(word, 7, 5) as u8,
    };
    Ok(of_word(word, offset))
}

/// The load or the store of a word, with its offset.
#[inline(always)]
fn of_word(word: u32, offset: Offset) -> Instr
    requires { bits_of word 28 4 < 15 }
    ensures { result ≡ Instr.Word (bits_of word 28 4) (bits_of word 20 1 == 1) (bits_of word 22 1 == 1)
        (index_of (bits_of word 24 1) (bits_of word 21 1)) (bits_of word 16 4) (bits_of word 12 4) offset }
{
    Instr::Word {
        cond: condition(word),
        load: bit(word, 20),
        byte: bit(word, 22),
        index: index(bits(word, 24, 1), bits(word, 21, 1)),
        rn: register(word, 16),
        rt: register(word, 12),
        offset,
    }
}

/// Whether bits 24 and 21 name an index form.
#[inline(always)]
#[tactic(auto, unfolding(a32_instr::specs::Fields::index_fits))]
pub(crate) fn is_index(p: u32, w: u32) -> bool
    ensures { result ≡ index_fits p w }
{
    !(p == 0 && w == 1)
}

/// The index form that bits 24 and 21 name.
#[inline(always)]
#[tactic(auto, unfolding(a32_instr::specs::Fields::index_of))]
pub(crate) fn index(p: u32, w: u32) -> Index
    ensures { result ≡ index_of p w }
{
    if p == 0 {
        return Index::Post;
    }
    if w == 1 { Index::Pre } else { Index::Plain }
}

/// Whether the registers of a word's load or store clash.
#[inline(always)]
fn clashes(word: u32) -> bool
    ensures { result ≡ word_unpredictable (bits_of word 24 1) (bits_of word 21 1) (bits_of word 22 1) (bits_of word 16 4) (bits_of word 12 4) }
{
    registers_clash(
        bits(word, 24, 1),
        bits(word, 21, 1),
        bits(word, 22, 1),
        register(word, 16),
        register(word, 12),
    )
}

/// Whether a base that is written back is the PC or the other register, or a byte's register is the PC.
#[inline(always)]
#[tactic(auto, unfolding(a32_instr::specs::Fields::word_unpredictable))]
fn registers_clash(p: u32, w: u32, b: u32, rn: Reg, rt: Reg) -> bool
    ensures { result ≡ word_unpredictable p w b rn rt }
{
    ((p == 0 || w == 1) && (rn.num() == 15 || rn == rt)) || (b == 1 && rt.num() == 15)
}
