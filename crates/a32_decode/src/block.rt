//! Loads and stores of a block of registers (DDI 0406C A5.5).
ghost use Rattle.std.specs.Prelude.{◌≡◌, ◌<◌, ◌^◌, ◌/◌, ◌%◌, ◌==◌, ◌∷◌, not, []};
ghost use Rattle.llsc_base.specs.Bits.{bits_of};
ghost use Rattle.a32_instr.specs.Fields.{block_unpredictable};
ghost use Rattle.a32_instr.specs.Table.{block};
ghost use Rattle.a32_decode.specs.inner.Rows.{Decides};

use crate::bits::{bit, condition, register};
use a32_instr::{Instr, Reg};
use llsc_base::{DecodeFault, bits};

/// A load or a store of a block: a word whose bits 27:25 are 100 (DDI 0406C A5.5). Bit 22 names the registers of another
/// mode, or a return from an exception: those are other instructions.
#[inline]
pub fn block(word: u32) -> Result<Instr, DecodeFault>
    requires group { bits_of word 25 3 ≡ 4 }
    requires cond { bits_of word 28 4 < 15 }
    ensures { Decides (block ∷ []) word result }
{
    if bit(word, 22) {
        return Err(DecodeFault::Undefined);
    }
    let rn = register(word, 16);
    let list = bits(word, 0, 16);
    if clashes(bits(word, 21, 1), bits(word, 20, 1), rn, list) {
        return Err(DecodeFault::Unpredictable);
    }
    Ok(Instr::Block {
        cond: condition(word),
        load: bit(word, 20),
        before: bit(word, 24),
        up: bit(word, 23),
        wback: bit(word, 21),
        rn,
        list: list as u16,
    })
}

/// Whether the base is the PC, the list is empty, or a base that is written back clashes with the list.
#[inline]
#[tactic(auto, unfolding(a32_instr::specs::Fields::block_unpredictable))]
fn clashes(w: u32, l: u32, rn: Reg, list: u32) -> bool
    ensures { result ≡ block_unpredictable w l rn list }
{
    if rn.num() == 15 || list == 0 {
        return true;
    }
    w == 1 && has(list, rn) && (l == 1 || has_lower(list, rn))
}

/// Whether a register is in a list.
#[inline(always)]
fn has(list: u32, register: Reg) -> bool
    ensures { result ≡ (list / 2 ^ register % 2 == 1) }
{
    bit(list, register.num() as u32)
}

/// Whether a register lower than this one is in a list.
#[inline(always)]
fn has_lower(list: u32, register: Reg) -> bool
    ensures { result ≡ not (list % 2 ^ register == 0) }
{
    bits(list, 0, register.num() as u32) != 0
}
