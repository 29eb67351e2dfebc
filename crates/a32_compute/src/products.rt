//! Products of 32-bit numbers (DDI 0406C A5.2.5).
ghost use Rattle.std.specs.Prelude.{◌≡◌, ◌<◌, ◌*◌, ◌+◌, ◌*ℤ◌, ◌^◌};
ghost use Rattle.llsc_base.specs.Words.{low32, signed};
ghost use Rattle.a32_instr.specs.Multiply.{less_product, long_product};

use crate::arithmetic::as_signed;
use a32_instr::LongKind;

/// A product modulo 2 to the 32.
#[inline(always)]
pub fn product(x: u32, y: u32) -> u32
    ensures { result ≡ low32 (x * y) }
{
    x.wrapping_mul(y)
}

/// A product and another number, modulo 2 to the 32.
#[inline(always)]
pub fn product_plus(x: u32, y: u32, z: u32) -> u32
    ensures { result ≡ low32 (x * y + z) }
{
    x.wrapping_mul(y).wrapping_add(z)
}

/// A number less a product, modulo 2 to the 32.
#[inline(always)]
#[tactic(auto, unfolding(a32_instr::specs::Multiply::less_product))]
pub fn minus_product(x: u32, y: u32, z: u32) -> u32
    ensures { result ≡ less_product x y z }
{
    x.wrapping_sub(y.wrapping_mul(z))
}

/// The product of two numbers, which is below 2 to the 64.
#[inline(always)]
fn unsigned_product(x: u32, y: u32) -> u64
    ensures product { result ≡ x * y }
{
    u64::from(x) * u64::from(y)
}

/// The signed product of two numbers.
#[inline(always)]
fn signed_product(x: u32, y: u32) -> i64
    ensures { result ≡ signed x *ℤ signed y }
{
    as_signed(x) * as_signed(y)
}

/// A product of 64 bits, with what its destination held, modulo 2 to the 64.
#[inline]
#[tactic(auto, unfolding(a32_instr::specs::Multiply::long_product))]
pub fn wide(kind: LongKind, x: u32, y: u32, old: u64) -> u64
    ensures { result ≡ long_product kind x y old }
{
    match kind {
        LongKind::Umull => unsigned_product(x, y),
        LongKind::Umlal => unsigned_product(x, y).wrapping_add(old),
        LongKind::Smull => signed_product(x, y).cast_unsigned(),
        LongKind::Smlal => signed_product(x, y).cast_unsigned().wrapping_add(old),
    }
}
