//! The names of registers and of kinds of shift.
ghost use Rattle.std.specs.Prelude.{◌≡◌, ◌<◌, ◌+◌, ◌^◌, length, IfSome};
ghost use Rattle.a32_forms.specs.Names.{names_in, place_from, register_of, shift_of};

use crate::cuts;

/// The place of a word among names that stand between single spaces, counted from a number on. `None` where it isn't
/// among them.
pub fn place(start: u64, names: &[u8], word: &[u8]) -> Option<u64>
    requires { start + length names.now < 2 ^ 64 }
    ensures place { result ≡ place_from start (names_in names.now) word.now }
    ensures bound { IfSome result (λ place. place < start + length (names_in names.now)) }
{
    let mut rest = names;
    let mut place = start;
    loop {
        if cuts::before_code(rest, b' ') == word {
            return Some(place);
        }
        let (_, after) = cuts::from_code(rest, b' ').split_first()?;
        rest = after;
        place += 1;
    }
}

/// The number, 0 to 15, of a register by its name: r0 to r15, sp, lr or pc in lower case; `None` for any other word.
pub(crate) fn register_of(word: &[u8]) -> Option<u64>
    ensures number { result ≡ register_of word.now }
    ensures bound { IfSome result (λ number. number < 16) }
{
    let numbered = b"r0 r1 r2 r3 r4 r5 r6 r7 r8 r9 r10 r11 r12 r13 r14 r15";
    if let Some(number) = place(0, numbered, word) {
        return Some(number);
    }
    place(13, b"sp lr pc", word)
}

/// The kind of shift by its name: 0 to 3 for lsl, lsr, asr and ror; `None` for any other word.
pub(crate) fn shift_of(word: &[u8]) -> Option<u64>
    ensures kind { result ≡ shift_of word.now }
    ensures bound { IfSome result (λ kind. kind < 4) }
{
    place(0, b"lsl lsr asr ror", word)
}
