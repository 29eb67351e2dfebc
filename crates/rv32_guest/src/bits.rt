//! The registers, immediates and distances that a word names.
ghost use Rattle.std.specs.Prelude.{◌≡◌, ◌<◌, ◌^◌, ◌*◌, ◌+◌};
ghost use Rattle.llsc_base.specs.Bits.{bits_of};
ghost use Rattle.rv32_guest.specs.Immediates.{signed_field, branch_distance, jump_distance};

use crate::reg::RvReg;
use llsc_base::bits;

/// The destination register.
#[inline(always)]
pub fn rd(word: u32) -> RvReg
    ensures { result ≡ bits_of word 7 5 }
{
    RvReg::new(bits(word, 7, 5) as u8)
}

/// The first source register.
#[inline(always)]
pub fn rs1(word: u32) -> RvReg
    ensures { result ≡ bits_of word 15 5 }
{
    RvReg::new(bits(word, 15, 5) as u8)
}

/// The second source register.
#[inline(always)]
pub fn rs2(word: u32) -> RvReg
    ensures { result ≡ bits_of word 20 5 }
{
    RvReg::new(bits(word, 20, 5) as u8)
}

/// The amount of a shift.
#[inline(always)]
pub fn amount(word: u32) -> u8
    ensures { result ≡ bits_of word 20 5 }
{
    bits(word, 20, 5) as u8
}

/// The three bits that tell the instructions of an opcode from each other.
#[inline(always)]
pub fn funct3(word: u32) -> u32
    ensures { result ≡ bits_of word 12 3 }
{
    bits(word, 12, 3)
}

/// The immediate of a computation or a load.
#[inline(always)]
pub fn immediate(word: u32) -> i32
    ensures { result ≡ signed_field 12 (bits_of word 20 12) }
{
    signed_12(bits(word, 20, 12))
}

/// The immediate of a store.
#[inline(always)]
pub fn store_offset(word: u32) -> i32
    ensures { result ≡ signed_field 12 (bits_of word 25 7 * 2 ^ 5 + bits_of word 7 5) }
{
    signed_12(bits(word, 25, 7) * 0x20 + bits(word, 7, 5))
}

/// The distance of a branch.
#[inline]
#[tactic(auto, unfolding(crate::specs::Immediates::signed_field))]
pub fn branch_distance(word: u32) -> i32
    ensures { result ≡ branch_distance (bits_of word 31 1) (bits_of word 7 1) (bits_of word 25 6) (bits_of word 8 4) }
{
    let low = bits(word, 7, 1) * 0x800 + bits(word, 25, 6) * 0x20 + bits(word, 8, 4) * 2;
    if bits(word, 31, 1) == 0 {
        low as i32
    } else {
        low as i32 - 0x1000
    }
}

/// The distance of a jump.
#[inline]
#[tactic(auto, unfolding(crate::specs::Immediates::signed_field))]
pub fn jump_distance(word: u32) -> i32
    ensures { result ≡ jump_distance (bits_of word 31 1) (bits_of word 12 8) (bits_of word 20 1) (bits_of word 21 10) }
{
    let low = bits(word, 12, 8) * 0x1000 + bits(word, 20, 1) * 0x800 + bits(word, 21, 10) * 2;
    if bits(word, 31, 1) == 0 {
        low as i32
    } else {
        low as i32 - 0x10_0000
    }
}

/// A number of twelve bits, read as signed.
#[inline(always)]
#[tactic(auto, unfolding(crate::specs::Immediates::signed_field))]
fn signed_12(field: u32) -> i32
    requires { field < 2 ^ 12 }
    ensures { result ≡ signed_field 12 field }
{
    if field < 0x800 {
        field as i32
    } else {
        field as i32 - 0x1000
    }
}
