//! Words, halves and bytes of numbers (DDI 0406C A5.2.8, A5.4.3, A8.8.106).
ghost use Rattle.std.specs.Prelude.{◌≡◌};
ghost use Rattle.llsc_base.specs.Words.{low32};
ghost use Rattle.a32_instr.specs.LoadStore.{access_size, half_size, half_value};
ghost use Rattle.llsc_base.specs.Effects.{loaded_part};
ghost use Rattle.a32_instr.specs.Moves.{with_top, reversed, extended, width_of};

use a32_instr::HalfKind;
use llsc_base::Size;

/// A number with another upper half.
#[inline(always)]
pub fn with_upper_half(x: u32, imm: u16) -> u32
    ensures { result ≡ with_top x imm }
{
    u32::from(imm) * 0x1_0000 + x % 0x1_0000
}

/// The bytes of a number the other way round.
#[inline(always)]
pub fn reverse(x: u32) -> u32
    ensures { result ≡ reversed x }
{
    x.swap_bytes()
}

/// The low byte of a number, or its low half, with zeros above or with its sign.
#[inline]
pub fn extend(unsigned: bool, half: bool, x: u32) -> u32
    ensures { result ≡ extended unsigned (width_of half) x }
{
    if half {
        extend_half(unsigned, x)
    } else {
        extend_byte(unsigned, x)
    }
}

#[inline(always)]
fn extend_byte(unsigned: bool, x: u32) -> u32
    ensures { result ≡ extended unsigned 8 x }
{
    let byte = x % 0x100;
    if unsigned || byte < 0x80 {
        byte
    } else {
        byte + 0xffff_ff00
    }
}

#[inline(always)]
fn extend_half(unsigned: bool, x: u32) -> u32
    ensures { result ≡ extended unsigned 16 x }
{
    let half = x % 0x1_0000;
    if unsigned || half < 0x8000 {
        half
    } else {
        half + 0xffff_0000
    }
}

/// The low 32 bits of a number.
#[inline(always)]
pub fn low_word(x: u64) -> u32
    ensures { result ≡ low32 x }
{
    (x & 0xffff_ffff) as u32
}

/// What a load of this size takes of its reply.
#[inline]
pub fn loaded_part(size: Size, reply: u64) -> u64
    ensures { result ≡ loaded_part size reply }
{
    match size {
        Size::B1 => reply & 0xff,
        Size::B2 => reply & 0xffff,
        Size::B4 => reply & 0xffff_ffff,
        Size::B8 => reply,
    }
}

/// A loaded word or byte.
#[inline]
pub fn loaded_word(byte: bool, reply: u64) -> u32
    ensures { result ≡ loaded_part (access_size byte) reply }
{
    if byte {
        (reply & 0xff) as u32
    } else {
        low_word(reply)
    }
}

/// A loaded halfword or signed byte as 32 bits.
#[inline]
pub fn loaded_half(kind: HalfKind, reply: u64) -> u32
    ensures { result ≡ half_value kind (loaded_part (half_size kind) reply) }
{
    let half = (reply & 0xffff) as u32;
    match kind {
        HalfKind::Strh | HalfKind::Ldrh => half,
        HalfKind::Ldrsb => extend_byte(false, half),
        HalfKind::Ldrsh => extend_half(false, half),
    }
}
