//! Sums of 32-bit numbers, and the data-processing operations on them.
ghost use Rattle.std.specs.Prelude.{◌≡◌, ◌<◌, ◌+ℤ◌, pos};
ghost use Rattle.llsc_base.specs.Words.{signed};
ghost use Rattle.a32_instr.specs.Sum.{complement, is_out_of_range, sum_of};
ghost use Rattle.a32_instr.specs.DataProcessing.{summed, logical, computed, one_if};

use crate::parts::low_word;
use crate::shifts::is_negative;
use a32_instr::{AluOp, Computed, Flags, Shifted, Sum};

/// A 32-bit number read as signed.
#[inline(always)]
pub fn as_signed(x: u32) -> i64
    ensures { result ≡ signed x }
{
    i64::from(x.cast_signed())
}

/// Whether the signed sum of two numbers and a carry is out of range.
fn overflows(x: u32, y: u32, carry: u32) -> bool
    requires { carry < 2 }
    ensures { result ≡ is_out_of_range (signed x +ℤ signed y +ℤ pos carry) }
{
    let sum = as_signed(x) + as_signed(y) + i64::from(carry);
    sum < -(1 << 31) || sum > (1 << 31) - 1
}

/// The sum of two numbers and a carry, which is 0 or 1 (DDI 0406C A2.2.1, AddWithCarry).
#[tactic(auto, unfolding(a32_instr::specs::Sum::sum_of))]
pub fn sum(x: u32, y: u32, carry: u32) -> Sum
    requires { carry < 2 }
    ensures { result ≡ sum_of x y carry }
{
    let wide = u64::from(x) + u64::from(y) + u64::from(carry);
    Sum {
        value: low_word(wide),
        carry: wide >= 1 << 32,
        overflow: overflows(x, y, carry),
    }
}

/// A sum with the flags that it sets.
fn of_sum(sum: Sum) -> Computed
    ensures { result ≡ summed sum }
{
    Computed {
        value: sum.value,
        flags: Flags {
            n: is_negative(sum.value),
            z: sum.value == 0,
            c: sum.carry,
            v: sum.overflow,
        },
    }
}

/// A difference with the flags that it sets.
#[inline(always)]
#[tactic(auto, unfolding(a32_instr::specs::Sum::sum_of))]
fn of_difference(x: u32, y: u32) -> Computed
    ensures { result ≡ summed (sum_of x (complement y) 1) }
{
    let value = x.wrapping_sub(y);
    Computed {
        value,
        flags: Flags {
            n: is_negative(value),
            z: value == 0,
            c: x >= y,
            v: is_negative(value) != (x.cast_signed() < y.cast_signed()),
        },
    }
}

/// A logical result with the flags that it sets.
fn of_logic(value: u32, carry: bool, flags: Flags) -> Computed
    ensures { result ≡ logical value carry flags }
{
    Computed {
        value,
        flags: Flags {
            n: is_negative(value),
            z: value == 0,
            c: carry,
            v: flags.v,
        },
    }
}

/// A flag as a number.
#[inline(always)]
fn as_number(flag: bool) -> u32
    ensures value { result ≡ one_if flag }
    ensures bound { result < 2 }
{
    u32::from(flag)
}

/// A data-processing operation (DDI 0406C A8.8) on its first operand and its second.
#[inline(always)]
pub fn compute(op: AluOp, x: u32, y: Shifted, flags: Flags) -> Computed
    ensures { result ≡ computed op x y flags }
{
    match op {
        AluOp::And | AluOp::Tst => of_logic(x & y.value, y.carry, flags),
        AluOp::Eor | AluOp::Teq => of_logic(x ^ y.value, y.carry, flags),
        AluOp::Sub | AluOp::Cmp => of_difference(x, y.value),
        AluOp::Rsb => of_sum(sum(!x, y.value, 1)),
        AluOp::Add | AluOp::Cmn => of_sum(sum(x, y.value, 0)),
        AluOp::Adc => of_sum(sum(x, y.value, as_number(flags.c))),
        AluOp::Sbc => of_sum(sum(x, !y.value, as_number(flags.c))),
        AluOp::Rsc => of_sum(sum(!x, y.value, as_number(flags.c))),
        AluOp::Orr => of_logic(x | y.value, y.carry, flags),
        AluOp::Mov => of_logic(y.value, y.carry, flags),
        AluOp::Bic => of_logic(x & !y.value, y.carry, flags),
        AluOp::Mvn => of_logic(!y.value, y.carry, flags),
    }
}

/// The value of a data-processing operation, where its flags aren't asked for.
#[inline(always)]
#[tactic(auto, unfolding(a32_instr::specs::Sum::sum_of))]
pub fn value_of(op: AluOp, x: u32, y: Shifted, flags: Flags) -> u32
    ensures { result ≡ (computed op x y flags).value }
{
    match op {
        AluOp::And | AluOp::Tst => x & y.value,
        AluOp::Eor | AluOp::Teq => x ^ y.value,
        AluOp::Sub | AluOp::Cmp => x.wrapping_sub(y.value),
        AluOp::Rsb => y.value.wrapping_sub(x),
        AluOp::Add | AluOp::Cmn => x.wrapping_add(y.value),
        AluOp::Adc => x.wrapping_add(y.value).wrapping_add(as_number(flags.c)),
        AluOp::Sbc => x.wrapping_add(!y.value).wrapping_add(as_number(flags.c)),
        AluOp::Rsc => y.value.wrapping_add(!x).wrapping_add(as_number(flags.c)),
        AluOp::Orr => x | y.value,
        AluOp::Mov => y.value,
        AluOp::Bic => x & !y.value,
        AluOp::Mvn => !y.value,
    }
}
