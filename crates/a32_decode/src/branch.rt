//! Branches and supervisor calls (DDI 0406C A5.5, A5.6).
ghost use Rattle.std.specs.Prelude.{◌≡◌, ◌<◌, ◌^◌, ◌∷◌, []};
ghost use Rattle.llsc_base.specs.Bits.{bits_of};
ghost use Rattle.a32_instr.specs.Fields.{signed24};
ghost use Rattle.a32_instr.specs.Table.{branch, branch_reg, svc};
ghost use Rattle.a32_decode.specs.inner.Rows.{Decides};

use crate::bits::{bit, condition, register};
use a32_instr::Instr;
use llsc_base::{DecodeFault, bits};

/// A branch: a word whose bits 27:25 are 101 (DDI 0406C A5.5).
#[inline]
pub fn immediate(word: u32) -> Result<Instr, DecodeFault>
    requires group { bits_of word 25 3 ≡ 5 }
    requires cond { bits_of word 28 4 < 15 }
    ensures { Decides (branch ∷ []) word result }
{
    Ok(Instr::Branch {
        cond: condition(word),
        link: bit(word, 24),
        words: signed(bits(word, 0, 24)),
    })
}

/// BX and BLX: a word whose bits 27:20 are 00010010 (DDI 0406C A5.2.12).
#[inline]
pub fn by_register(word: u32) -> Result<Instr, DecodeFault>
    requires group { bits_of word 20 8 ≡ 0x12 }
    requires cond { bits_of word 28 4 < 15 }
    ensures { Decides (branch_reg ∷ []) word result }
{
    if bits(word, 8, 12) != 0xfff || bits(word, 6, 2) != 0 || bits(word, 4, 1) != 1 {
        return Err(DecodeFault::Undefined);
    }
    let link = bit(word, 5);
    let rm = register(word, 0);
    if link && rm.num() == 15 {
        return Err(DecodeFault::Unpredictable);
    }
    Ok(Instr::BranchReg {
        cond: condition(word),
        link,
        rm,
    })
}

/// A supervisor call, or a coprocessor's instruction: a word whose bits 27:25 are 111 (DDI 0406C A5.6).
#[inline]
pub fn supervisor_call(word: u32) -> Result<Instr, DecodeFault>
    requires group { bits_of word 25 3 ≡ 7 }
    requires cond { bits_of word 28 4 < 15 }
    ensures { Decides (svc ∷ []) word result }
{
    if !bit(word, 24) {
        return Err(DecodeFault::Undefined);
    }
    Ok(Instr::Svc {
        cond: condition(word),
        imm: bits(word, 0, 24),
    })
}

/// A number of 24 bits, read as signed.
#[inline]
#[tactic(auto, unfolding(a32_instr::specs::Fields::signed24))]
fn signed(field: u32) -> i32
    requires { field < 2 ^ 24 }
    ensures { result ≡ signed24 field }
{
    if field < 0x80_0000 {
        field as i32
    } else {
        field as i32 - 0x100_0000
    }
}
