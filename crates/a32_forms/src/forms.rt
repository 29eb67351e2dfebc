//! The forms that operands may have: the first of several that operands have, and what stands at its signs.
ghost use Rattle.std.specs.Prelude.{◌≡◌, ◌<◌, length, IfSome, IsTrue};
ghost use Rattle.std.specs.Option.{option_map};
ghost use Rattle.a32_forms.specs.Text.{parts};
ghost use Rattle.a32_forms.specs.Forms.{chosen, form_in, forms_in, takes, takes_at_word, takes_name, takes_or_not, takes_part, takes_registers, takes_sign, takes_word, took};
ghost use Rattle.a32_forms.specs.inner.Took.{took_of};
ghost use Rattle.a32_forms.specs.Within.{are_within, has_room, have_room};
ghost use Rattle.a32_forms.specs.Written.{has_number};

use crate::cuts;
use crate::fields::{Chosen, Fields};
use crate::names::{register_of, shift_of};
use crate::numbers::number_of;
use crate::registers::registers_in;
use crate::text::{Front, front_part, is_blank, is_name};

/// What was taken so far, and the text that is left.
#[derive(Drop)]
pub struct Taken<'a> {
    fields: Fields<'a>,
    rest: &'a [u8],
}

/// A number was taken, if there is one.
fn took<'a>(fields: Fields<'a>, rest: &'a [u8], number: Option<u64>) -> Option<Taken<'a>>
    requires { length fields.numbers < 8 }
    ensures { option_map took_of result ≡ option_map (took fields.entry (parts rest.now)) number }
{
    let number = number?;
    Some(Taken {
        fields: fields.with_number(number),
        rest,
    })
}

/// A word that stands for itself.
fn take_word<'a>(
    wanted: &[u8],
    fields: Fields<'a>,
    word: &[u8],
    rest: &'a [u8],
) -> Option<Taken<'a>>
    ensures { option_map took_of result ≡ takes_word wanted.now fields.entry word.now (parts rest.now) }
{
    if word != wanted {
        return None;
    }
    Some(Taken { fields, rest })
}

/// A word that is a label's name.
fn take_name<'a>(fields: Fields<'a>, word: &'a [u8], rest: &'a [u8]) -> Option<Taken<'a>>
    ensures { option_map took_of result ≡ takes_name fields.entry word.now (parts rest.now) }
{
    if !is_name(word) {
        return None;
    }
    Some(Taken {
        fields: fields.with_name(word),
        rest,
    })
}

/// A word where a sign wants one.
#[tactic(auto, unfolding(crate::specs::Forms::takes_at_word))]
fn take_at_word<'a>(
    sign: u8,
    fields: Fields<'a>,
    word: &'a [u8],
    rest: &'a [u8],
) -> Option<Taken<'a>>
    requires { IsTrue (has_number sign) → length fields.numbers < 8 }
    ensures { option_map took_of result ≡ takes_at_word sign fields.entry word.now (parts rest.now) }
{
    if sign == b'r' {
        return took(fields, rest, register_of(word));
    }
    if sign == b'n' || sign == b'x' {
        return took(fields, rest, number_of(word));
    }
    if sign == b'k' {
        return took(fields, rest, shift_of(word));
    }
    if sign == b'l' {
        return take_name(fields, word, rest);
    }
    if sign == b'X' {
        return take_word(b"rrx", fields, word, rest);
    }
    if sign == b'O' {
        return take_word(b"ror", fields, word, rest);
    }
    if sign == b'L' {
        return take_word(b"lo", fields, word, rest);
    }
    if sign == b'H' {
        return take_word(b"hi", fields, word, rest);
    }
    None
}

/// A mark that may be left out.
fn take_or_not<'a>(code: u8, fields: Fields<'a>, text: &'a [u8]) -> Option<Taken<'a>>
    requires { length fields.numbers < 8 }
    ensures { option_map took_of result ≡ takes_or_not code fields.entry (parts text.now) }
{
    if let Front::Mark(mark, rest) = front_part(text) {
        if mark == code {
            return took(fields, rest, Some(1));
        }
    }
    took(fields, text, Some(0))
}

/// A list of registers, which a brace ends.
#[tactic(auto, using(crate::proofs::CutParts::before_brace, crate::proofs::CutParts::from_brace))]
fn take_registers<'a>(fields: Fields<'a>, text: &'a [u8]) -> Option<Taken<'a>>
    requires { length fields.numbers < 8 }
    ensures { option_map took_of result ≡ takes_registers fields.entry (parts text.now) }
{
    let list = registers_in(cuts::before_code(text, b'}'));
    took(fields, cuts::from_code(text, b'}'), list)
}

/// A word or a mark for a sign that wants one.
fn take_part<'a>(sign: u8, fields: Fields<'a>, text: &'a [u8]) -> Option<Taken<'a>>
    requires { IsTrue (has_number sign) → length fields.numbers < 8 }
    ensures { option_map took_of result ≡ takes_part sign fields.entry (parts text.now) }
{
    match front_part(text) {
        Front::End => None,
        Front::Word(word, rest) => take_at_word(sign, fields, word, rest),
        Front::Mark(mark, rest) => {
            if mark != sign {
                return None;
            }
            Some(Taken { fields, rest })
        }
    }
}

/// What a sign takes from the front of a text.
#[tactic(auto, unfolding(crate::specs::Forms::takes_sign))]
fn take_sign<'a>(sign: u8, fields: Fields<'a>, text: &'a [u8]) -> Option<Taken<'a>>
    requires { IsTrue (has_number sign) → length fields.numbers < 8 }
    ensures { option_map took_of result ≡ takes_sign sign fields.entry (parts text.now) }
{
    if sign == b'~' {
        return take_or_not(b'-', fields, text);
    }
    if sign == b'!' {
        return take_or_not(b'!', fields, text);
    }
    if sign == b'b' {
        return take_registers(fields, text);
    }
    if is_blank(sign) {
        return Some(Taken { fields, rest: text });
    }
    take_part(sign, fields, text)
}

/// The fields of operands that have a form.
fn fields_of<'a>(form: &[u8], text: &'a [u8]) -> Option<Fields<'a>>
    requires { IsTrue (has_room form.now) }
    ensures fields { result ≡ takes form.now (parts text.now) }
    ensures within { IfSome result (λ fields. IsTrue (are_within form.now fields.numbers)) }
{
    let mut fields = Fields::new();
    let mut rest = text;
    for &sign in form {
        let taken = take_sign(sign, fields, rest)?;
        fields = taken.fields;
        rest = taken.rest;
    }
    let Front::End = front_part(rest) else {
        return None;
    };
    Some(fields)
}

/// The first of some forms that a text of operands has, with its place among them from 0, and what stands at its signs.
/// `None` where the text has none of them. The forms stand in their text with `|` between, and each has at most eight
/// signs that have numbers.
pub fn chosen<'a>(forms: &[u8], text: &'a [u8]) -> Option<Chosen<'a>>
    requires { IsTrue (have_room forms.now) }
    ensures form { result ≡ chosen forms.now (parts text.now) }
    ensures place { IfSome result (λ found. found.form < length (forms_in forms.now)) }
    ensures within { IfSome result (λ found. IsTrue (are_within (form_in forms.now found.form) found.fields.numbers)) }
{
    let mut left = forms;
    let mut form = 0;
    loop {
        if let Some(fields) = fields_of(cuts::before_code(left, b'|'), text) {
            return Some(Chosen::new(form, fields));
        }
        let (_, after) = cuts::from_code(left, b'|').split_first()?;
        left = after;
        form += 1;
    }
}
