//! The lines of a text: a label, a statement and a comment, each of which may be left out.
ghost use Rattle.std.specs.Prelude.{◌≡◌, ◌≤◌, ◌+◌, ◌∷◌, [], None, Some, drop, length};
ghost use Rattle.std.specs.Option.{option_map};
ghost use Rattle.a32_forms.specs.Cuts.{before_code};
ghost use Rattle.a32_asm.specs.Lines.{lines_of, before_comment, is_ascii, begins_with, has_label, front_of, label_of, statement_of, directive, head_of, operands_of};
ghost use Rattle.a32_asm.specs.Layout.{indent_of, line_size};
ghost use Rattle.a32_asm.specs.inner.Seen.{lines_left, text_left, bytes_left, size_left};

use crate::heads::Head;
use a32_forms::{after_blanks, after_word, before_code, from_code, front_word, is_name};

/// The first line of a text, and what stands behind its newline, if it has one.
#[tactic(auto, using(crate::proofs::FirstLine::one_line, crate::proofs::FirstLine::line_before, crate::proofs::FirstLine::length_alone, crate::proofs::FirstLine::length_before, crate::proofs::FirstLine::rest_shorter, crate::proofs::FirstLine::rest_alone, crate::proofs::FirstLine::rest_before))]
pub fn first_line(text: &[u8]) -> (&[u8], Option<&[u8]>)
    ensures lines { lines_of text.now ≡ result.0.now ∷ lines_left result.1 }
    ensures bytes { length text.now ≡ line_size result.0.now (lines_left result.1) + bytes_left result.1 }
    ensures shorter { size_left result.1 ≤ length text.now }
    ensures line { result.0.now ≡ before_code 10 text.now }
    ensures rest { text_left result.1 ≡ drop (line_size result.0.now (lines_left result.1)) text.now }
{
    let line = before_code(text, b'\n');
    let after = from_code(text, b'\n');
    let Some((_, rest)) = after.split_first() else {
        return (line, None);
    };
    (line, Some(rest))
}

/// Whether all bytes of a text are below 128.
fn is_ascii(text: &[u8]) -> bool
    ensures { result ≡ is_ascii text.now }
{
    text.iter().all(|byte| *byte < 128)
}

/// Whether a text begins with a byte.
fn begins_with(byte: u8, text: &[u8]) -> bool
    ensures { result ≡ begins_with byte text.now }
{
    match text {
        [] => false,
        [first, ..] => *first == byte,
    }
}

/// Whether a text begins with a label: a name, and a colon right behind it.
fn has_label(text: &[u8]) -> bool
    ensures { result ≡ has_label text.now }
{
    is_name(front_word(text)) && begins_with(b':', after_word(text))
}

/// A line's parts.
#[derive(Drop)]
pub struct Line<'a> {
    /// How many blanks it begins with.
    pub indent: usize,
    /// The name before a colon.
    pub label: Option<&'a [u8]>,
    /// What stands behind the label, up to the comment.
    pub statement: &'a [u8],
    /// What the statement is.
    pub head: Head,
    /// Whether all bytes before the comment are below 128.
    pub is_ascii: bool,
}

/// Reads a line.
#[tactic(auto, using(crate::proofs::LineLabels::unblanked_fits, crate::proofs::CutTexts::before_fits))]
pub fn read_line(line: &[u8]) -> Line<'_>
    ensures indent { result.indent ≡ indent_of line.now }
    ensures within { result.indent ≤ length line.now }
    ensures label { option_map (λ name. name.now) result.label ≡ label_of line.now }
    ensures statement { result.statement.now ≡ statement_of line.now }
    ensures head { result.head ≡ head_of (statement_of line.now) }
    ensures ascii { result.is_ascii ≡ is_ascii (before_comment line.now) }
{
    let text = before_code(line, b'@');
    let front = after_blanks(text);
    let indent = text.len() - front.len();
    if !has_label(front) {
        return Line {
            indent,
            label: None,
            statement: front,
            head: head_of(front),
            is_ascii: is_ascii(text),
        };
    }
    let statement = after_blanks(&after_word(front)[1..]);
    Line {
        indent,
        label: Some(front_word(front)),
        statement,
        head: head_of(statement),
        is_ascii: is_ascii(text),
    }
}

/// A directive by the word behind its point.
fn directive(word: &[u8]) -> Head
    ensures { result ≡ directive word.now }
{
    if word == b"text".as_slice() {
        return Head::Text;
    }
    if word == b"data".as_slice() {
        return Head::Data;
    }
    if word == b"word".as_slice() {
        return Head::Word;
    }
    if word == b"byte".as_slice() {
        return Head::Byte;
    }
    if word == b"space".as_slice() {
        return Head::Space;
    }
    Head::Unreadable
}

/// What a statement is.
fn head_of(text: &[u8]) -> Head
    ensures { result ≡ head_of text.now }
{
    let Some((first, rest)) = text.split_first() else {
        return Head::Nothing;
    };
    if has_label(text) {
        return Head::Unreadable;
    }
    if *first == b'.' {
        return directive(front_word(rest));
    }
    if is_name(front_word(text)) {
        return Head::Instruction;
    }
    Head::Unreadable
}

/// The operands of a directive or an instruction, behind its word.
pub fn operands_of(text: &[u8]) -> &[u8]
    ensures { result.now ≡ operands_of text.now }
{
    let Some((first, rest)) = text.split_first() else {
        return text;
    };
    if *first == b'.' {
        return after_word(rest);
    }
    after_word(text)
}
