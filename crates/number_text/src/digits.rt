//! Digits and what they are worth.
ghost use Rattle.std.specs.Prelude.{◌≡◌, ◌<◌};
ghost use Rattle.std.specs.List.{list_all};
ghost use Rattle.number_text.specs.Digits.{digit_value, is_digit, is_hex_digit};

/// Whether a byte is a decimal digit.
pub fn is_digit(byte: u8) -> bool
    ensures { result ≡ is_digit byte }
{
    b'0' <= byte && byte <= b'9'
}

/// Whether a byte is a hexadecimal digit, of either case.
pub(crate) fn is_hex_digit(byte: u8) -> bool
    ensures { result ≡ is_hex_digit byte }
{
    is_digit(byte) || (b'A' <= byte && byte <= b'F') || (b'a' <= byte && byte <= b'f')
}

/// Whether the bytes are decimal digits.
pub fn are_digits(word: &[u8]) -> bool
    ensures { result ≡ list_all is_digit word.now }
{
    word.iter().all(|byte| is_digit(*byte))
}

/// Whether the bytes are hexadecimal digits.
pub fn are_hex_digits(word: &[u8]) -> bool
    ensures { result ≡ list_all is_hex_digit word.now }
{
    word.iter().all(|byte| is_hex_digit(*byte))
}

/// What a digit of either case stands for, 0 to 15. A byte that is no digit has a value too, which is below 256 and
/// means nothing.
pub fn digit_value(byte: u8) -> u64
    ensures value { result ≡ digit_value byte }
    ensures bound { result < 256 }
{
    let code = u64::from(byte);
    if code < 65 {
        return code.saturating_sub(48);
    }
    if code < 97 {
        return code - 55;
    }
    code - 87
}
