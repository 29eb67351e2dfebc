//! Where the labels of a text stand.
ghost use Rattle.std.specs.Prelude.{◌≡◌, ◌≤◌, ◌∷◌, [], None, drop, length};
ghost use Rattle.std.specs.Cmp.Lexicographic.{slice_cmp};
ghost use Rattle.std.specs.Ordering.{nat_cmp};
ghost use Rattle.a32_forms.specs.Cuts.{before_code};
ghost use Rattle.a32_asm.specs.inner.Places.{order_of, NamesOn};

use std::cmp::Ordering;

/// Where a label stands: in the text, by how many bytes are before its name, and in the program, by its section and by how
/// many bytes of the section are before it, modulo 2 to the 32.
#[derive(Clone, Copy)]
pub struct LabelPlace {
    pub at: usize,
    pub in_data: bool,
    pub offset: u32,
}

/// A text from a place on.
pub fn text_at<'a>(text: &'a [u8], place: &LabelPlace) -> &'a [u8]
    ensures { result.now ≡ drop place.now.at text.now }
{
    text.get(place.at..).unwrap_or(&[])
}

/// The first byte of a name, which ends before a colon, and the text behind it.
#[tactic(auto, unfolding(a32_forms::specs::Cuts::before_code))]
fn name_byte(text: &[u8]) -> Option<(u8, &[u8])>
    ensures { NamesOn text.now result }
{
    let Some((byte, rest)) = text.split_first() else {
        return None;
    };
    if *byte == b':' {
        return None;
    }
    Some((*byte, rest))
}

/// How many bytes the names at the fronts of two texts have in common before they differ.
#[tactic(auto, using(crate::proofs::SharedFronts::shared_more))]
fn shared_front(first: &[u8], second: &[u8]) -> usize
    ensures first { result ≤ length first.now }
    ensures second { result ≤ length second.now }
    ensures same { slice_cmp nat_cmp (before_code 58 (drop result first.now)) (before_code 58 (drop result second.now)) ≡ slice_cmp nat_cmp (before_code 58 first.now) (before_code 58 second.now) }
{
    let mut count = 0;
    while count < first.len() && count < second.len() {
        let byte = first[count];
        if byte == b':' || byte != second[count] {
            return count;
        }
        count += 1;
    }
    count
}

/// The order of the names at the fronts of two texts, each of which ends before a colon.
pub fn compare_names(first: &[u8], second: &[u8]) -> Ordering
    ensures { result ≡ slice_cmp nat_cmp (before_code 58 first.now) (before_code 58 second.now) }
{
    let shared = shared_front(first, second);
    let mut left = &first[shared..];
    let mut right = &second[shared..];
    while let Some((byte, left_rest)) = name_byte(left) {
        let Some((other, right_rest)) = name_byte(right) else {
            return Ordering::Greater;
        };
        if byte != other {
            return byte.cmp(&other);
        }
        left = left_rest;
        right = right_rest;
    }
    if name_byte(right).is_some() {
        return Ordering::Less;
    }
    Ordering::Equal
}

/// The order of two places of a text: by their names, and of one name as the text has them.
pub fn order_of(text: &[u8], first: &LabelPlace, second: &LabelPlace) -> Ordering
    ensures { result ≡ order_of text.now first.now second.now }
{
    compare_names(text_at(text, first), text_at(text, second)).then(first.at.cmp(&second.at))
}
