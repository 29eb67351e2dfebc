//! What instructions compute of 32-bit numbers ("Integer Computational Instructions").
ghost use Rattle.std.specs.Prelude.{◌≡◌, ◌<◌, ◌^◌};
ghost use Rattle.rv32_guest.specs.Computing.{word_of, moved, sum, difference, is_less_signed, as_number, shifted_left, shifted_right, shifted_signed, even, sign_extended};
ghost use Rattle.rv32_guest.specs.Accesses.{loaded};
ghost use Rattle.llsc_base.specs.Words.{low32, signed};

use llsc_base::Size;

/// A signed number as one of 32 bits.
#[inline(always)]
pub fn word_of(z: i32) -> u32
    ensures { result ≡ word_of z }
{
    z.cast_unsigned()
}

/// A number moved by a signed distance.
#[inline(always)]
pub fn moved(x: u32, distance: i32) -> u32
    ensures { result ≡ moved x distance }
{
    x.wrapping_add(word_of(distance))
}

/// The sum of two numbers.
#[inline(always)]
pub fn sum(x: u32, y: u32) -> u32
    ensures { result ≡ sum x y }
{
    x.wrapping_add(y)
}

/// The difference of two numbers.
#[inline(always)]
pub fn difference(x: u32, y: u32) -> u32
    ensures { result ≡ difference x y }
{
    x.wrapping_sub(y)
}

/// A 32-bit number read as signed.
#[inline(always)]
fn as_signed(x: u32) -> i64
    ensures { result ≡ signed x }
{
    i64::from(x.cast_signed())
}

/// Whether the first is less, both read as signed.
#[inline(always)]
pub fn is_less_signed(x: u32, y: u32) -> bool
    ensures { result ≡ is_less_signed x y }
{
    as_signed(x) < as_signed(y)
}

/// 1 for what is so, and 0 for what isn't.
#[inline(always)]
pub fn as_number(test: bool) -> u32
    ensures { result ≡ as_number test }
{
    u32::from(test)
}

/// A number shifted left.
#[inline(always)]
pub fn shift_left(x: u32, y: u32) -> u32
    ensures { result ≡ shifted_left x y }
{
    x << (y % 32)
}

/// A number shifted right, with zeros above.
#[inline(always)]
pub fn shift_right(x: u32, y: u32) -> u32
    ensures { result ≡ shifted_right x y }
{
    x >> (y % 32)
}

/// A number shifted right, with its sign above.
#[inline(always)]
pub fn shift_signed(x: u32, y: u32) -> u32
    ensures { result ≡ shifted_signed x y }
{
    (as_signed(x) >> (y % 32)).rem_euclid(1 << 32) as u32
}

/// A number without its bit 0.
#[inline(always)]
pub fn even(x: u32) -> u32
    ensures { result ≡ even x }
{
    x - x % 2
}

/// The low 32 bits of a number.
#[inline(always)]
pub fn low_word(x: u64) -> u32
    ensures { result ≡ low32 x }
{
    (x & 0xffff_ffff) as u32
}

/// A byte as 32 bits, with its sign above it.
#[inline(always)]
fn extend_byte(part: u32) -> u32
    requires { part < 2 ^ 8 }
    ensures { result ≡ sign_extended 8 part }
{
    if part < 0x80 {
        part
    } else {
        part + 0xffff_ff00
    }
}

/// A halfword as 32 bits, with its sign above it.
#[inline(always)]
fn extend_half(part: u32) -> u32
    requires { part < 2 ^ 16 }
    ensures { result ≡ sign_extended 16 part }
{
    if part < 0x8000 {
        part
    } else {
        part + 0xffff_0000
    }
}

/// What the load of a byte takes of its reply.
#[inline]
pub fn loaded_byte(with_sign: bool, reply: u64) -> u32
    ensures { result ≡ loaded with_sign Size.B1 reply }
{
    let part = (reply & 0xff) as u32;
    if with_sign { extend_byte(part) } else { part }
}

/// What the load of a halfword takes of its reply.
#[inline]
pub fn loaded_half(with_sign: bool, reply: u64) -> u32
    ensures { result ≡ loaded with_sign Size.B2 reply }
{
    let part = (reply & 0xffff) as u32;
    if with_sign { extend_half(part) } else { part }
}
