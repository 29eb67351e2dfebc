//! The words of a text, and what stands between them.
ghost use Rattle.std.specs.Prelude.{◌≡◌, ◌<◌, ◌∷◌, length};
ghost use Rattle.a32_forms.specs.inner.Fronts.{parts_from};
ghost use Rattle.a32_forms.specs.Text.{Word, after_blanks, after_word, front_word, is_blank, is_letter, is_name, is_wordy, parts};

use number_text::is_digit;

/// What stands at the front of a text, and the text behind it.
#[derive(Clone, Copy)]
pub enum Front<'a> {
    End,
    Word(&'a [u8], &'a [u8]),
    Mark(u8, &'a [u8]),
}

/// Whether a byte is a letter.
fn is_letter(byte: u8) -> bool
    ensures { result ≡ is_letter byte }
{
    (b'A' <= byte && byte <= b'Z') || (b'a' <= byte && byte <= b'z')
}

/// Whether a byte may stand in a word: a letter, a digit or `_`.
pub(crate) fn is_wordy(byte: u8) -> bool
    ensures { result ≡ is_wordy byte }
{
    is_letter(byte) || is_digit(byte) || byte == b'_'
}

/// Whether a byte is a space or a tab.
pub(crate) fn is_blank(byte: u8) -> bool
    ensures { result ≡ is_blank byte }
{
    byte == b' ' || byte == b'\t'
}

/// What stands behind the word at the front of a text.
#[tactic(auto, unfolding(crate::specs::Text::after_word))]
pub fn after_word(text: &[u8]) -> &[u8]
    ensures { result.now ≡ after_word text.now }
{
    let mut rest = text;
    while let Some((byte, after)) = rest.split_first() {
        if !is_wordy(*byte) {
            return rest;
        }
        rest = after;
    }
    rest
}

/// The word at the front of a text, which is empty where no word begins there.
#[tactic(auto, using(crate::proofs::FrontWords::front_after, crate::proofs::FrontWords::front_is, crate::proofs::FrontWords::front_part_is))]
pub fn front_word(text: &[u8]) -> &[u8]
    ensures word { result.now ≡ front_word text.now }
    ensures parts { 0 < length result.now → parts text.now ≡ Word result.now ∷ parts (after_word text.now) }
{
    &text[..text.len() - after_word(text).len()]
}

/// A text without the blanks in front.
#[tactic(auto, unfolding(crate::specs::Text::after_blanks, crate::specs::Text::parts))]
pub fn after_blanks(text: &[u8]) -> &[u8]
    ensures blanks { result.now ≡ after_blanks text.now }
    ensures parts { parts result.now ≡ parts text.now }
{
    let mut rest = text;
    while let Some((byte, after)) = rest.split_first() {
        if !is_blank(*byte) {
            return rest;
        }
        rest = after;
    }
    rest
}

/// What stands at the front of a text behind blanks.
#[tactic(auto, using(crate::proofs::FrontWords::parts_word, crate::proofs::FrontWords::parts_mark, crate::proofs::FrontWords::parts_end))]
pub fn front_part(text: &[u8]) -> Front<'_>
    ensures { parts_from result ≡ parts text.now }
{
    let text = after_blanks(text);
    let Some((first, rest)) = text.split_first() else {
        return Front::End;
    };
    if is_wordy(*first) {
        return Front::Word(front_word(text), after_word(text));
    }
    Front::Mark(*first, rest)
}

/// Whether a word is a name: it doesn't begin with a digit.
pub fn is_name(word: &[u8]) -> bool
    ensures { result ≡ is_name word.now }
{
    match word {
        [] => false,
        [first, ..] => !is_digit(*first),
    }
}
