//! Lists of registers, as a number with bit r set for each register r.
ghost use Rattle.std.specs.Prelude.{◌≡◌, ◌<◌, ◌≤◌, ◌^◌, IfSome};
ghost use Rattle.a32_forms.specs.Text.{parts};
ghost use Rattle.a32_forms.specs.Registers.{mask, range, range_of, registers_in, rises};

use crate::cuts;
use crate::names::register_of;
use crate::text::{Front, front_part};

/// Registers from one to another, both with them.
#[derive(Clone, Copy)]
pub struct Range {
    pub first: u64,
    pub last: u64,
}

/// The registers from one to another, where there are both.
fn between(first: Option<u64>, last: Option<u64>) -> Option<Range>
    requires first { IfSome first (λ number. number < 16) }
    requires last { IfSome last (λ number. number < 16) }
    ensures range { result ≡ range first last }
    ensures bound { IfSome result (λ found. found.last < 16) }
{
    Some(Range {
        first: first?,
        last: last?,
    })
}

/// An item of a list: a register, or two with `-` between.
fn range_of(item: &[u8]) -> Option<Range>
    ensures range { result ≡ range_of (parts item.now) }
    ensures bound { IfSome result (λ found. found.last < 16) }
{
    let Front::Word(first, rest) = front_part(item) else {
        return None;
    };
    let first = register_of(first);
    let rest = front_part(rest);
    if let Front::End = rest {
        return between(first, first);
    }
    let Front::Mark(dash, rest) = rest else {
        return None;
    };
    if dash != b'-' {
        return None;
    }
    let Front::Word(last, rest) = front_part(rest) else {
        return None;
    };
    let Front::End = front_part(rest) else {
        return None;
    };
    between(first, register_of(last))
}

/// Whether a range rises, and stands above the registers before it.
fn rises(lowest: u64, item: Range) -> bool
    ensures { result ≡ rises lowest item }
{
    lowest <= item.first && item.first <= item.last
}

/// The bits of a range that rises.
fn mask(item: Range) -> u64
    requires rises { item.first ≤ item.last }
    requires bound { item.last < 16 }
    ensures { result ≡ mask item }
{
    (1 << (item.last + 1)) - (1 << item.first)
}

/// The registers between braces, separated by commas; each item of the list stands above those before it.
pub fn registers_in(text: &[u8]) -> Option<u64>
    ensures list { result ≡ registers_in (parts text.now) }
    ensures bound { IfSome result (λ list. list < 2 ^ 16) }
{
    let mut rest = text;
    let mut lowest = 0;
    let mut list = 0;
    loop {
        let item = range_of(cuts::before_code(rest, b','))?;
        if !rises(lowest, item) {
            return None;
        }
        list += mask(item);
        lowest = item.last + 1;
        let Some((_, after)) = cuts::from_code(rest, b',').split_first() else {
            return Some(list);
        };
        rest = after;
    }
}
