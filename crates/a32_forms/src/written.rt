//! Operands as they are shown.
ghost use Rattle.std.specs.Prelude.{◌≡◌, ◌+◌, ◌≤◌, ◌++◌, IsTrue, length};
ghost use Rattle.a32_forms.specs.Written.{has_number, mark_text, number_text, sign_text, written};
ghost use Rattle.a32_forms.specs.Fits.{fits_sign, fits_form, form_room};

use crate::shown_list::write_list;
use crate::shown_names::{register_name, shift_name};
use llsc_base::Line;
use number_text::{write_decimal, write_text, write_word};

/// Whether a sign has a number.
fn has_number(sign: u8) -> bool
    ensures { result ≡ has_number sign }
{
    matches!(sign, b'r' | b'n' | b'x' | b'k' | b'b' | b'~' | b'!')
}

/// Adds a mark at the end of a line, or nothing where its number is 0.
fn write_mark(line: &mut Line, mark: u8, number: u64)
    requires room { length line.old + length (mark_text mark number) ≤ 96 }
    ensures { line.new ≡ line.old ++ mark_text mark number }
{
    if number != 0 {
        line.push(mark);
    }
}

/// Adds the number of a sign at the end of a line, as that sign shows it.
#[tactic(auto, unfolding(crate::specs::Written::number_text), using(number_text::proofs::Lengths::word_length))]
fn write_number(line: &mut Line, sign: u8, number: u64)
    requires fits { IsTrue (fits_sign sign number) }
    requires room { length line.old + length (number_text sign number) ≤ 96 }
    ensures { line.new ≡ line.old ++ number_text sign number }
{
    match sign {
        b'r' => write_text(line, register_name(number)),
        b'n' => write_decimal(line, number),
        b'x' => {
            write_text(line, b"0x");
            write_word(line, number as u32);
        }
        b'k' => write_text(line, shift_name(number)),
        b'b' => write_list(line, number),
        b'~' => write_mark(line, b'-', number),
        _ => write_mark(line, b'!', number),
    }
}

/// Adds a sign without a number at the end of a line.
#[tactic(auto, unfolding(crate::specs::Written::sign_text))]
fn write_sign(line: &mut Line, sign: u8)
    requires room { length line.old + length (sign_text sign) ≤ 96 }
    ensures { line.new ≡ line.old ++ sign_text sign }
{
    match sign {
        b'X' => write_text(line, b"rrx"),
        b'O' => write_text(line, b"ror"),
        b'L' => write_text(line, b"lo"),
        b'H' => write_text(line, b"hi"),
        _ => line.push(sign),
    }
}

/// Adds operands at the end of a line, which has room for them: a form, with a number at each sign that has one. The
/// numbers are as many as these signs, and each is in its sign's range.
pub fn write_form(line: &mut Line, form: &[u8], numbers: &[u64])
    requires fits { IsTrue (fits_form form.now numbers.now) }
    requires room { length line.old + form_room form.now ≤ 96 }
    ensures { line.new ≡ line.old ++ written form.now numbers.now }
{
    let mut at = 0;
    for sign in form {
        if !has_number(*sign) {
            write_sign(line, *sign);
            continue;
        }
        write_number(line, *sign, numbers[at]);
        at += 1;
    }
}
