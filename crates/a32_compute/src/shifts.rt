//! Shifts of 32-bit numbers with the shifter's carry (DDI 0406C A8.4).
ghost use Rattle.std.specs.Prelude.{◌≡◌, ◌<◌, if◌then◌else◌, true, false};
ghost use Rattle.a32_instr.specs.Shift.{top_bit, shifted_left, shifted_right, shifted_signed, rotated_right, rotated, rotated_with_carry, moved_by, unshifted, shifted, shifted_by_0, shifted_by_number};
ghost use Rattle.a32_instr.specs.DataProcessing.{immediate};

use crate::arithmetic::as_signed;
use crate::parts::low_word;
use a32_instr::{ShiftKind, Shifted};

/// Bit 31.
#[inline(always)]
pub fn is_negative(x: u32) -> bool
    ensures { result ≡ top_bit x }
{
    x >= 1 << 31
}

/// A number rotated right (DDI 0406C A2.2.1, ROR).
#[inline(always)]
pub fn rotate_right(x: u32, amount: u32) -> u32
    ensures { result ≡ rotated_right x amount }
{
    x.rotate_right(amount)
}

/// A logical shift left (DDI 0406C A2.2.1, LSL_C).
#[inline]
#[tactic(auto, unfolding(a32_instr::specs::Shift::shifted_left), using(crate::proofs::Amounts::left_wide, crate::proofs::Amounts::left_none, crate::proofs::Amounts::left_last))]
fn shift_left(x: u32, amount: u32) -> Shifted
    ensures { result ≡ shifted_left x amount }
{
    if amount > 32 {
        return Shifted {
            value: 0,
            carry: false,
        };
    }
    let wide = u64::from(x) << amount;
    Shifted {
        value: low_word(wide),
        carry: (wide >> 32) % 2 == 1,
    }
}

/// A logical shift right (DDI 0406C A2.2.1, LSR_C).
#[inline]
#[tactic(auto, unfolding(a32_instr::specs::Shift::shifted_right), using(crate::proofs::Amounts::right_none))]
fn shift_right(x: u32, amount: u32) -> Shifted
    requires { 0 < amount }
    ensures { result ≡ shifted_right x amount }
{
    if amount > 32 {
        return Shifted {
            value: 0,
            carry: false,
        };
    }
    Shifted {
        value: (u64::from(x) >> amount) as u32,
        carry: (x >> (amount - 1)) % 2 == 1,
    }
}

/// What is left of a number once each of its bits is its sign.
#[inline]
fn sign_only(x: u32) -> Shifted
    ensures { result ≡ (if top_bit x then record { value = 4294967295; carry = true } else record { value = 0; carry = false }) }
{
    if is_negative(x) {
        Shifted {
            value: u32::MAX,
            carry: true,
        }
    } else {
        Shifted {
            value: 0,
            carry: false,
        }
    }
}

/// An arithmetic shift right (DDI 0406C A2.2.1, ASR_C).
#[inline]
#[tactic(auto, unfolding(a32_instr::specs::Shift::shifted_signed), using(crate::proofs::Amounts::signed_far))]
fn shift_signed(x: u32, amount: u32) -> Shifted
    requires { 0 < amount }
    ensures { result ≡ shifted_signed x amount }
{
    if amount > 32 {
        return sign_only(x);
    }
    let signed = as_signed(x);
    Shifted {
        value: (signed >> amount).rem_euclid(1 << 32) as u32,
        carry: (signed >> (amount - 1)).rem_euclid(2) == 1,
    }
}

/// A rotation right (DDI 0406C A2.2.1, ROR_C).
#[inline]
fn rotate(x: u32, amount: u32) -> Shifted
    ensures { result ≡ rotated x amount }
{
    let value = rotate_right(x, amount);
    Shifted {
        value,
        carry: is_negative(value),
    }
}

/// A rotation right by one bit through the carry (DDI 0406C A2.2.1, RRX_C).
#[inline]
#[tactic(auto, unfolding(a32_instr::specs::Shift::rotated_with_carry))]
fn rotate_with_carry(x: u32, carry: bool) -> Shifted
    ensures { result ≡ rotated_with_carry x carry }
{
    Shifted {
        value: x / 2 + if carry { 1 << 31 } else { 0 },
        carry: x % 2 == 1,
    }
}

/// A shift by an amount that isn't 0.
#[inline]
fn shift_on(kind: ShiftKind, x: u32, amount: u32) -> Shifted
    requires { 0 < amount }
    ensures { result ≡ moved_by kind x amount }
{
    match kind {
        ShiftKind::Lsl => shift_left(x, amount),
        ShiftKind::Lsr => shift_right(x, amount),
        ShiftKind::Asr => shift_signed(x, amount),
        ShiftKind::Ror => rotate(x, amount),
    }
}

/// A shift by any amount (DDI 0406C A8.4.3, Shift_C).
#[inline]
pub fn shift(kind: ShiftKind, x: u32, amount: u32, carry: bool) -> Shifted
    ensures { result ≡ shifted kind x amount carry }
{
    if amount == 0 {
        return Shifted { value: x, carry };
    }
    shift_on(kind, x, amount)
}

/// What the number 0 in a word means (DDI 0406C A8.4.3, DecodeImmShift).
#[inline]
fn shift_by_0(kind: ShiftKind, x: u32, carry: bool) -> Shifted
    ensures { result ≡ shifted_by_0 kind x carry }
{
    match kind {
        ShiftKind::Lsl => Shifted { value: x, carry },
        ShiftKind::Lsr => shift_right(x, 32),
        ShiftKind::Asr => shift_signed(x, 32),
        ShiftKind::Ror => rotate_with_carry(x, carry),
    }
}

/// A shift by the number in a word (DDI 0406C A8.4.3).
#[inline]
pub fn shift_by_number(kind: ShiftKind, x: u32, amount: u8, carry: bool) -> Shifted
    ensures { result ≡ shifted_by_number kind x amount carry }
{
    if amount == 0 {
        return shift_by_0(kind, x, carry);
    }
    shift_on(kind, x, u32::from(amount))
}

/// An immediate operand: one that isn't turned keeps the carry (DDI 0406C A5.2.4).
#[inline]
pub fn immediate(turn: u8, imm8: u8, carry: bool) -> Shifted
    ensures { result ≡ immediate turn imm8 carry }
{
    let value = rotate_right(u32::from(imm8), 2 * u32::from(turn));
    Shifted {
        value,
        carry: if turn == 0 { carry } else { is_negative(value) },
    }
}
