//! The numbers of the assembler: decimal, or `0x` and hexadecimal digits; zeros may stand in front.
ghost use Rattle.std.specs.Prelude.{◌≡◌, ◌≤◌, ◌<◌, ◌^◌, IfSome};
ghost use Rattle.number_text.specs.Digits.{value_in};
ghost use Rattle.a32_forms.specs.Numbers.{behind_prefix, capped, decimal_of, has_prefix, hexadecimal_of, number_of};

use number_text::{are_digits, are_hex_digits, digit_value};

/// What stands for each number that 32 bits don't hold.
const TOO_GREAT: u64 = 0x1_0000_0000;

/// A number, or what stands for it.
fn capped(value: u64) -> u64
    ensures value { result ≡ capped value }
    ensures bound { result ≤ 2 ^ 32 }
{
    if value < TOO_GREAT { value } else { TOO_GREAT }
}

/// What digits stand for in a base.
fn capped_value(base: u64, digits: &[u8]) -> u64
    requires low { 0 < base }
    requires high { base ≤ 16 }
    ensures value { result ≡ capped (value_in base digits.now) }
    ensures bound { result ≤ 2 ^ 32 }
{
    let mut value = 0;
    for &digit in digits {
        value = capped(value * base + digit_value(digit));
    }
    value
}

fn decimal_of(digits: &[u8]) -> Option<u64>
    ensures value { result ≡ decimal_of digits.now }
    ensures bound { IfSome result (λ v. v ≤ 2 ^ 32) }
{
    if digits.is_empty() || !are_digits(digits) {
        return None;
    }
    Some(capped_value(10, digits))
}

fn hexadecimal_of(digits: &[u8]) -> Option<u64>
    ensures value { result ≡ hexadecimal_of digits.now }
    ensures bound { IfSome result (λ v. v ≤ 2 ^ 32) }
{
    if digits.is_empty() || !are_hex_digits(digits) {
        return None;
    }
    Some(capped_value(16, digits))
}

/// The number that a word stands for, if it is one; 2 to the 32nd for each that 32 bits don't hold.
pub(crate) fn number_of(word: &[u8]) -> Option<u64>
    ensures value { result ≡ number_of word.now }
    ensures bound { IfSome result (λ v. v ≤ 2 ^ 32) }
{
    if let [b'0', b'x', digits @ ..] = word {
        return hexadecimal_of(digits);
    }
    decimal_of(word)
}
