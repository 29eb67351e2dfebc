//! Numbers and texts at the end of a line.
ghost use Rattle.std.specs.Prelude.{◌≡◌, ◌+◌, ◌<◌, ◌≤◌, ◌++◌, length};
ghost use Rattle.std.specs.Fmt.{decimal};
ghost use Rattle.number_text.specs.Hexadecimal.{hex_digit, half_text, long_text, word_text};

use llsc_base::Line;

/// Adds a text at the end of a line, which has room for it: the line has at most 96 bytes then, here as below.
pub fn write_text(line: &mut Line, text: &[u8])
    requires room { length line.old + length text.now ≤ 96 }
    ensures { line.new ≡ line.old ++ text.now }
{
    for byte in text {
        line.push(*byte);
    }
}

/// Adds a number at the end of a line, in decimal without a zero before others: at most 10 digits for a number of 32
/// bits, and 20 for any.
#[tactic(auto, using(crate::proofs::Decimals::decimal_ends))]
pub fn write_decimal(line: &mut Line, number: u64)
    requires room { length line.old + length (decimal number) ≤ 96 }
    ensures { line.new ≡ line.old ++ decimal number }
{
    if number < 10 {
        line.push(b'0' + number as u8);
        return;
    }
    write_decimal(line, number / 10);
    line.push(b'0' + (number % 10) as u8);
}

/// The digit of a number below 16.
fn hex_digit(value: u32) -> u8
    requires { value < 16 }
    ensures { result ≡ hex_digit value }
{
    if value < 10 {
        b'0' + value as u8
    } else {
        b'a' + (value - 10) as u8
    }
}

/// Adds a number below 65,536 at the end of a line, in four digits.
#[tactic(auto, unfolding(crate::specs::Hexadecimal::half_text))]
fn write_half(line: &mut Line, half: u32)
    requires small { half < 65536 }
    requires room { length line.old + 4 ≤ 96 }
    ensures { line.new ≡ line.old ++ half_text half }
{
    line.push(hex_digit(half / 4096));
    line.push(hex_digit(half / 256 % 16));
    line.push(hex_digit(half / 16 % 16));
    line.push(hex_digit(half % 16));
}

/// Adds a word at the end of a line, in eight hexadecimal digits of lower case.
#[tactic(auto, unfolding(crate::specs::Hexadecimal::half_text, crate::specs::Hexadecimal::word_text))]
pub fn write_word(line: &mut Line, word: u32)
    requires room { length line.old + 8 ≤ 96 }
    ensures { line.new ≡ line.old ++ word_text word }
{
    write_half(line, word / 65536);
    write_half(line, word % 65536);
}

/// Adds a number of 64 bits at the end of a line, in sixteen hexadecimal digits of lower case.
#[tactic(auto, using(crate::proofs::Lengths::word_length), unfolding(crate::specs::Hexadecimal::long_text))]
pub fn write_long(line: &mut Line, long: u64)
    requires room { length line.old + 16 ≤ 96 }
    ensures { line.new ≡ line.old ++ long_text long }
{
    write_word(line, (long >> 32) as u32);
    write_word(line, (long % (1 << 32)) as u32);
}
