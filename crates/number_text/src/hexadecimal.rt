//! Hexadecimal numbers with a fixed number of digits, read.
ghost use Rattle.std.specs.Prelude.{◌≡◌, ◌≤◌, length, true};
ghost use Rattle.std.specs.List.{list_all};
ghost use Rattle.number_text.specs.Digits.{value_in};
ghost use Rattle.number_text.specs.Hexadecimal.{are_lower_digits, is_lower_digit, long_number, word_number};

use crate::digits;

/// Whether a byte is a hexadecimal digit of lower case.
fn is_lower_digit(byte: u8) -> bool
    ensures { result ≡ is_lower_digit byte }
{
    digits::is_digit(byte) || (b'a' <= byte && byte <= b'f')
}

/// Whether the bytes are hexadecimal digits of lower case.
fn are_lower(word: &[u8]) -> bool
    ensures { result ≡ list_all is_lower_digit word.now }
{
    word.iter().all(|byte| is_lower_digit(*byte))
}

/// Whether the bytes are exactly so many hexadecimal digits of lower case.
fn are_lower_digits(count: usize, word: &[u8]) -> bool
    ensures { result ≡ are_lower_digits count word.now }
{
    word.len() == count && are_lower(word)
}

/// What hexadecimal digits stand for together.
fn value(word: &[u8]) -> u64
    requires digits { list_all is_lower_digit word.now ≡ true }
    requires most { length word.now ≤ 16 }
    ensures { result ≡ value_in 16 word.now }
{
    let mut number = 0u64;
    for &digit in word {
        number = number * 16 + digits::digit_value(digit);
    }
    number
}

/// The number that a word of exactly eight hexadecimal digits of lower case stands for, `None` where the word is
/// none.
pub fn word_number(word: &[u8]) -> Option<u32>
    ensures { result ≡ word_number word.now }
{
    if !are_lower_digits(8, word) {
        return None;
    }
    Some(value(word) as u32)
}

/// The number that a word of exactly sixteen hexadecimal digits of lower case stands for, `None` where the word
/// is none.
pub fn long_number(word: &[u8]) -> Option<u64>
    ensures { result ≡ long_number word.now }
{
    if !are_lower_digits(16, word) {
        return None;
    }
    Some(value(word))
}
