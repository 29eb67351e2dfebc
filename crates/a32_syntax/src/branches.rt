//! Branches to an address.
ghost use Rattle.std.specs.Prelude.{◌≡◌, ◌<◌, ◌≤◌, ◌^◌};
ghost use Rattle.a32_syntax.specs.Meaning.{branch_by, branch_to, words_between};

use crate::kinds::AsmKind;
use a32_instr::{Cond, Instr};

/// How many words a target lies behind the address of the instruction plus 8, modulo 2 to the 30.
fn words_between(here: u32, target: u32) -> u32
    ensures value { result ≡ words_between here target }
    ensures bound { result < 2 ^ 30 }
{
    target.wrapping_sub(here.wrapping_add(8)) / 4
}

/// A branch by so many words, at most 2 to the 23 back and one less ahead (DDI 0406C A8.8.18).
fn branch_by(cond: Cond, link: bool, words: u32) -> Result<Instr, AsmKind>
    requires { words < 2 ^ 30 }
    ensures { result ≡ branch_by cond link words }
{
    if words < 0x80_0000 {
        return Ok(Instr::Branch {
            cond,
            link,
            words: words as i32,
        });
    }
    if words >= 0x3f80_0000 {
        return Ok(Instr::Branch {
            cond,
            link,
            words: words as i32 - 0x4000_0000,
        });
    }
    Err(AsmKind::Range)
}

/// A branch at an address to an address, which is a multiple of 4.
#[tactic(auto, unfolding(crate::specs::Meaning::branch_to))]
pub fn branch_to(cond: Cond, link: bool, here: u32, target: u64) -> Result<Instr, AsmKind>
    ensures { result ≡ branch_to cond link here target }
{
    if target > 0xffff_ffff || target % 4 != 0 {
        return Err(AsmKind::Range);
    }
    branch_by(cond, link, words_between(here, target as u32))
}
