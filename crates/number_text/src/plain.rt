//! Decimal numbers as they stand in words, records and reports.
ghost use Rattle.std.specs.Prelude.{◌≡◌, ◌+◌, ◌*◌, ◌^◌, ◌<◌, if◌then◌else◌, nat_lt, Some, None};
ghost use Rattle.number_text.specs.Digits.{digit_value};
ghost use Rattle.number_text.specs.Decimal.{is_plain, plain_number};

use crate::digits;

/// Whether a word is digits, one of them at least, with no zero before others.
fn is_plain(word: &[u8]) -> bool
    ensures { result ≡ is_plain word.now }
{
    if word.is_empty() {
        return false;
    }
    if !digits::are_digits(word) {
        return false;
    }
    word[0] != b'0' || word.len() == 1
}

/// A number with a digit behind it, `None` where 64 bits don't hold it.
fn with_digit(number: u64, digit: u8) -> Option<u64>
    ensures { result ≡ (if nat_lt (number * 10 + digit_value digit) (2 ^ 64) then Some (number * 10 + digit_value digit) else None) }
{
    number
        .checked_mul(10)?
        .checked_add(digits::digit_value(digit))
}

/// The number that a word stands for: decimal digits with no zero before others, `None` where it is none or
/// one that 64 bits don't hold.
pub fn plain_number(word: &[u8]) -> Option<u64>
    ensures { result ≡ plain_number word.now }
{
    if !is_plain(word) {
        return None;
    }
    let mut number = 0u64;
    for &digit in word {
        number = with_digit(number, digit)?;
    }
    Some(number)
}
