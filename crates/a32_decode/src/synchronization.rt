//! Synchronization primitives (DDI 0406C A5.2.10) and barriers (A5.7.1).
ghost use Rattle.std.specs.Prelude.{◌≡◌, ◌<◌, ◌∷◌, []};
ghost use Rattle.llsc_base.specs.Bits.{bits_of};
ghost use Rattle.a32_instr.specs.Fields.{barrier_kind, exclusive_size, no_pair, status_clashes};
ghost use Rattle.a32_instr.specs.Table.{load_ex, store_ex, clrex, barrier};
ghost use Rattle.a32_decode.specs.inner.Rows.{Decides};

use crate::bits::{bit, condition, register};
use crate::pc::{one_of_2_is_pc, one_of_3_is_pc};
use a32_instr::{BarrierKind, Instr, Reg};
use llsc_base::{DecodeFault, Size, bits};

/// A load-exclusive or a store-exclusive: a word whose bits 27:24 are 0001 and 7:4 are 1001.
#[inline]
pub fn exclusive(word: u32) -> Result<Instr, DecodeFault>
    requires group { bits_of word 24 4 ≡ 1 }
    requires exclusive { bits_of word 4 4 ≡ 9 }
    requires cond { bits_of word 28 4 < 15 }
    ensures { Decides (load_ex ∷ store_ex ∷ []) word result }
{
    if bits(word, 8, 4) != 15 || !bit(word, 23) {
        return Err(DecodeFault::Undefined);
    }
    if bit(word, 20) {
        return load(word);
    }
    store(word)
}

/// LDREX and its kin (DDI 0406C A8.8.75 to A8.8.78).
#[inline]
fn load(word: u32) -> Result<Instr, DecodeFault>
    requires group { bits_of word 23 5 ≡ 3 }
    requires load { bits_of word 20 1 ≡ 1 }
    requires exclusive { bits_of word 4 8 ≡ 0xf9 }
    requires cond { bits_of word 28 4 < 15 }
    ensures { Decides (load_ex ∷ []) word result }
{
    if bits(word, 0, 4) != 15 {
        return Err(DecodeFault::Undefined);
    }
    let size = bits(word, 21, 2);
    let rn = register(word, 16);
    let rt = register(word, 12);
    if one_of_2_is_pc(rn, rt) || is_no_pair(size, rt) {
        return Err(DecodeFault::Unpredictable);
    }
    Ok(Instr::LoadEx {
        cond: condition(word),
        size: size_of(size),
        rn,
        rt,
    })
}

/// STREX and its kin (DDI 0406C A8.8.212 to A8.8.215).
#[inline]
fn store(word: u32) -> Result<Instr, DecodeFault>
    requires group { bits_of word 23 5 ≡ 3 }
    requires store { bits_of word 20 1 ≡ 0 }
    requires exclusive { bits_of word 4 8 ≡ 0xf9 }
    requires cond { bits_of word 28 4 < 15 }
    ensures { Decides (store_ex ∷ []) word result }
{
    let size = bits(word, 21, 2);
    let rn = register(word, 16);
    let rd = register(word, 12);
    let rt = register(word, 0);
    if one_of_3_is_pc(rn, rd, rt) || clashes(size, rn, rd, rt) || is_no_pair(size, rt) {
        return Err(DecodeFault::Unpredictable);
    }
    Ok(Instr::StoreEx {
        cond: condition(word),
        size: size_of(size),
        rn,
        rd,
        rt,
    })
}

/// A word that has 1111 in the place of a condition (DDI 0406C A5.7).
#[inline]
pub fn unconditional(word: u32) -> Result<Instr, DecodeFault>
    requires { bits_of word 28 4 ≡ 15 }
    ensures { Decides (clrex ∷ barrier ∷ []) word result }
{
    if bits(word, 8, 20) != 0x57ff0 {
        return Err(DecodeFault::Undefined);
    }
    if bits(word, 6, 2) == 1 {
        return memory_barrier(word);
    }
    if bits(word, 0, 8) != 0x1f {
        return Err(DecodeFault::Undefined);
    }
    Ok(Instr::Clrex)
}

/// DSB, DMB and ISB (DDI 0406C A8.8.44, A8.8.43, A8.8.53).
#[inline]
fn memory_barrier(word: u32) -> Result<Instr, DecodeFault>
    requires space { bits_of word 28 4 ≡ 15 }
    requires group { bits_of word 8 20 ≡ 0x57ff0 }
    requires barrier { bits_of word 6 2 ≡ 1 }
    ensures { Decides (barrier ∷ []) word result }
{
    let kind = bits(word, 4, 2);
    if kind == 3 {
        return Err(DecodeFault::Undefined);
    }
    Ok(Instr::Barrier {
        kind: kind_of_barrier(kind),
        option: bits(word, 0, 4) as u8,
    })
}

/// The barrier that bits 5:4 name.
#[inline(always)]
#[tactic(auto, unfolding(a32_instr::specs::Fields::barrier_kind))]
fn kind_of_barrier(kind: u32) -> BarrierKind
    ensures { result ≡ barrier_kind kind }
{
    match kind {
        0 => BarrierKind::Dsb,
        1 => BarrierKind::Dmb,
        _ => BarrierKind::Isb,
    }
}

/// The size that bits 22:21 name.
#[inline(always)]
#[tactic(auto, unfolding(a32_instr::specs::Fields::exclusive_size))]
fn size_of(size: u32) -> Size
    ensures { result ≡ exclusive_size size }
{
    match size {
        0 => Size::B4,
        1 => Size::B8,
        2 => Size::B1,
        _ => Size::B2,
    }
}

/// Whether a doubleword doesn't stand in a register and the next.
#[inline(always)]
#[tactic(auto, unfolding(a32_instr::specs::Fields::no_pair))]
fn is_no_pair(size: u32, rt: Reg) -> bool
    ensures { result ≡ no_pair size rt }
{
    size == 1 && (rt.num() % 2 == 1 || rt.num() == 14)
}

/// Whether the status register is one of the others.
#[inline(always)]
#[tactic(auto, unfolding(a32_instr::specs::Fields::status_clashes))]
fn clashes(size: u32, rn: Reg, rd: Reg, rt: Reg) -> bool
    ensures { result ≡ status_clashes size rn rd rt }
{
    rd == rn || rd == rt || (size == 1 && rd.num() == rt.num() + 1)
}
