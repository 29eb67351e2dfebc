//! Loads and stores of a halfword, and loads of a signed byte (DDI 0406C A5.2.8).
ghost use Rattle.std.specs.Prelude.{◌≡◌, ◌<◌, ◌∷◌, ◌&&◌, []};
ghost use Rattle.llsc_base.specs.Bits.{bits_of};
ghost use Rattle.a32_instr.specs.Fields.{index_fits, index_of, half_fits, half_kind, half_unpredictable};
ghost use Rattle.a32_instr.specs.Table.{half_imm, half_reg};
ghost use Rattle.a32_decode.specs.inner.Rows.{Decides};

use crate::bits::{bit, condition, register};
use crate::load_store::{index, is_index};
use a32_instr::{HalfKind, Instr, Offset, Reg, ShiftKind};
use llsc_base::{DecodeFault, bits};

/// A load or a store of a halfword, or a load of a signed byte: a word whose bits 27:25 are 000 and whose bits 7 and 4
/// are set (DDI 0406C A5.2.8).
#[inline]
pub fn half(word: u32) -> Result<Instr, DecodeFault>
    requires group { bits_of word 25 3 ≡ 0 }
    requires extra { bits_of word 7 1 ≡ 1 }
    requires no_number { bits_of word 4 1 ≡ 1 }
    requires cond { bits_of word 28 4 < 15 }
    ensures { Decides (half_imm ∷ half_reg ∷ []) word result }
{
    if bit(word, 22) {
        return immediate(word);
    }
    by_register(word)
}

/// With an immediate offset, whose upper four bits are bits 11:8 and whose lower four are bits 3:0.
#[inline]
fn immediate(word: u32) -> Result<Instr, DecodeFault>
    requires group { bits_of word 25 3 ≡ 0 }
    requires immediate { bits_of word 22 1 ≡ 1 }
    requires extra { bits_of word 7 1 ≡ 1 }
    requires no_number { bits_of word 4 1 ≡ 1 }
    requires cond { bits_of word 28 4 < 15 }
    ensures { Decides (half_imm ∷ []) word result }
{
    if !is_form(word) {
        return Err(DecodeFault::Undefined);
    }
    if clashes(word) {
        return Err(DecodeFault::Unpredictable);
    }
    let offset = Offset::Imm {
        add: bit(word, 23),
        imm: (bits(word, 8, 4) * 16 + bits(word, 0, 4)) as u16,
    };
    Ok(of_half(word, offset))
}

/// With a register offset, at which bits 11:8 are 0.
#[inline]
fn by_register(word: u32) -> Result<Instr, DecodeFault>
    requires group { bits_of word 25 3 ≡ 0 }
    requires by_register { bits_of word 22 1 ≡ 0 }
    requires extra { bits_of word 7 1 ≡ 1 }
    requires no_number { bits_of word 4 1 ≡ 1 }
    requires cond { bits_of word 28 4 < 15 }
    ensures { Decides (half_reg ∷ []) word result }
{
    if bits(word, 8, 4) != 0 {
        return Err(DecodeFault::Undefined);
    }
    if !is_form(word) {
        return Err(DecodeFault::Undefined);
    }
    let rm = register(word, 0);
    if clashes(word) || rm.num() == 15 {
        return Err(DecodeFault::Unpredictable);
    }
    let offset = Offset::Shifted {
        add: bit(word, 23),
        rm,
        kind: ShiftKind::Lsl,
        amount: 0,
    };
    Ok(of_half(word, offset))
}

/// The load or the store that a word is, with its offset.
#[inline(always)]
fn of_half(word: u32, offset: Offset) -> Instr
    requires { bits_of word 28 4 < 15 }
    ensures { result ≡ Instr.Half (bits_of word 28 4) (half_kind (bits_of word 20 1) (bits_of word 6 1) (bits_of word 5 1))
        (index_of (bits_of word 24 1) (bits_of word 21 1)) (bits_of word 16 4) (bits_of word 12 4) offset }
{
    Instr::Half {
        cond: condition(word),
        kind: kind_of_half(bits(word, 20, 1), bits(word, 6, 1), bits(word, 5, 1)),
        index: index(bits(word, 24, 1), bits(word, 21, 1)),
        rn: register(word, 16),
        rt: register(word, 12),
        offset,
    }
}

/// Whether a word has an index form, and is a halfword's or a signed byte's.
#[inline(always)]
fn is_form(word: u32) -> bool
    ensures { result ≡ (index_fits (bits_of word 24 1) (bits_of word 21 1) && half_fits (bits_of word 20 1) (bits_of word 6 1) (bits_of word 5 1)) }
{
    is_index(bits(word, 24, 1), bits(word, 21, 1))
        && is_half(bits(word, 20, 1), bits(word, 6, 1), bits(word, 5, 1))
}

/// Whether bits 20, 6 and 5 name a load or a store of a halfword, or a load of a signed byte.
#[inline(always)]
#[tactic(auto, unfolding(a32_instr::specs::Fields::half_fits))]
fn is_half(l: u32, x: u32, y: u32) -> bool
    ensures { result ≡ half_fits l x y }
{
    (x == 0 && y == 1) || (x == 1 && l == 1)
}

/// The load or the store that bits 20, 6 and 5 name.
#[inline]
#[tactic(auto, unfolding(a32_instr::specs::Fields::half_kind))]
fn kind_of_half(l: u32, x: u32, y: u32) -> HalfKind
    ensures { result ≡ half_kind l x y }
{
    if x == 0 && l == 0 {
        return HalfKind::Strh;
    }
    if x == 0 {
        return HalfKind::Ldrh;
    }
    if y == 0 {
        return HalfKind::Ldrsb;
    }
    HalfKind::Ldrsh
}

/// Whether the registers of a word's load or store clash.
#[inline(always)]
fn clashes(word: u32) -> bool
    ensures { result ≡ half_unpredictable (bits_of word 24 1) (bits_of word 21 1) (bits_of word 16 4) (bits_of word 12 4) }
{
    registers_clash(
        bits(word, 24, 1),
        bits(word, 21, 1),
        register(word, 16),
        register(word, 12),
    )
}

/// Whether the register is the PC, or a base that is written back is the PC or that register.
#[inline(always)]
#[tactic(auto, unfolding(a32_instr::specs::Fields::half_unpredictable))]
fn registers_clash(p: u32, w: u32, rn: Reg, rt: Reg) -> bool
    ensures { result ≡ half_unpredictable p w rn rt }
{
    rt.num() == 15 || ((p == 0 || w == 1) && (rn.num() == 15 || rn == rt))
}
