//! The text of a record, written.
ghost use Rattle.std.specs.Prelude.{◌≡◌, ◌+◌, ◌^◌, ◌<◌, ◌≤◌, ◌++◌, IfOk, codes, length};
ghost use Rattle.std.specs.Fmt.{decimal};
ghost use Rattle.number_text.specs.Hexadecimal.{long_text, word_text};
ghost use Rattle.run_record.specs.Limits.{IsRecord, most_granule};
ghost use Rattle.run_record.specs.Text.{deed_text, deed_word, front_text, header_text, line_text, object_text, record_text, size_word};

use crate::records::RunRecord;
use history::{Access, Deed};
use llsc_base::{Line, Size};
use number_text::{write_decimal, write_long, write_text, write_word};
use std::alloc::{AllocError, Global};

/// Adds a text at the end of a line.
fn put(line: &mut Line, text: &[u8])
    requires room { length line.old + length text.now ≤ 96 }
    ensures text { line.new ≡ line.old ++ text.now }
    ensures length { length line.new ≡ length line.old + length text.now }
{
    write_text(line, text);
}

/// Adds a number of 32 bits at the end of a line, in decimal.
fn put_short(line: &mut Line, number: u32)
    requires room { length line.old + 10 ≤ 96 }
    ensures text { line.new ≡ line.old ++ decimal number }
    ensures most { length line.new ≤ length line.old + 10 }
{
    write_decimal(line, u64::from(number));
}

/// Adds a number at the end of a line, in decimal.
fn put_long(line: &mut Line, number: u64)
    requires room { length line.old + 20 ≤ 96 }
    ensures text { line.new ≡ line.old ++ decimal number }
    ensures most { length line.new ≤ length line.old + 20 }
{
    write_decimal(line, number);
}

/// Adds a number below 10 at the end of a line.
fn put_digit(line: &mut Line, number: u32)
    requires digit { number < 10 }
    requires room { length line.old < 96 }
    ensures text { line.new ≡ line.old ++ decimal number }
    ensures most { length line.new ≤ length line.old + 1 }
{
    write_decimal(line, u64::from(number));
}

/// Adds an address at the end of a line, in eight hexadecimal digits.
fn put_address(line: &mut Line, addr: u32)
    requires room { length line.old + 8 ≤ 96 }
    ensures text { line.new ≡ line.old ++ word_text addr }
    ensures length { length line.new ≡ length line.old + 8 }
{
    write_word(line, addr);
}

/// Adds a value at the end of a line, in sixteen hexadecimal digits.
fn put_value(line: &mut Line, value: u64)
    requires room { length line.old + 16 ≤ 96 }
    ensures text { line.new ≡ line.old ++ long_text value }
    ensures length { length line.new ≡ length line.old + 16 }
{
    write_long(line, value);
}

/// Adds the front of the header line at the end of a line: the format, the number of threads, and the granule number
/// unless it is 0.
fn put_front(line: &mut Line, threads: u32, granule: u32)
    requires granule { granule ≤ most_granule }
    requires room { length line.old + 39 ≤ 96 }
    ensures text { line.new ≡ line.old ++ front_text threads granule }
    ensures most { length line.new ≤ length line.old + 39 }
{
    if granule == 0 {
        put(line, b"llsc-run 1 threads ");
        put_short(line, threads);
        return;
    }
    put(line, b"llsc-run 2 threads ");
    put_short(line, threads);
    put(line, b" granule ");
    put_digit(line, granule);
}

/// The header line.
#[tactic(auto, unfolding(crate::specs::Text::header_text))]
fn header_line(threads: u32, granule: u32, budget: u64, count: u32) -> Line
    requires granule { granule ≤ most_granule }
    ensures { result ≡ header_text threads granule budget count }
{
    let mut line = Line::new();
    put_front(&mut line, threads, granule);
    put(&mut line, b" budget ");
    put_long(&mut line, budget);
    put(&mut line, b" accesses ");
    put_short(&mut line, count);
    put(&mut line, b"\n");
    line
}

/// The word of a deed.
fn deed_word(deed: Deed) -> &'static str
    ensures word { result.now ≡ deed_word deed }
    ensures most { length result.now ≤ 7 }
{
    match deed {
        Deed::Load => "load",
        Deed::LoadEx => "loadex",
        Deed::Store => "store",
        Deed::StoreEx => "storeex",
        Deed::StoreFail => "fail",
        Deed::Clear => "clear",
    }
}

/// A size, by its number of bytes.
fn size_word(size: Size) -> &'static str
    ensures word { result.now ≡ size_word size }
    ensures length { length result.now ≡ 1 }
{
    match size {
        Size::B1 => "1",
        Size::B2 => "2",
        Size::B4 => "4",
        Size::B8 => "8",
    }
}

/// Adds the size, the address and the value of an access at the end of a line.
fn put_object(line: &mut Line, access: &Access)
    requires room { length line.old + 28 ≤ 96 }
    ensures text { line.new ≡ line.old ++ object_text access.now }
    ensures length { length line.new ≡ length line.old + 28 }
{
    put(line, b" ");
    put(line, size_word(access.place.size).as_bytes());
    put(line, b" ");
    put_address(line, access.place.addr);
    put(line, b" ");
    put_value(line, access.value);
}

/// Adds what an access does at the end of a line.
fn put_deed(line: &mut Line, access: &Access)
    requires room { length line.old + 35 ≤ 96 }
    ensures text { line.new ≡ line.old ++ deed_text access.now.deed access.now }
    ensures most { length line.new ≤ length line.old + 35 }
{
    put(line, deed_word(access.deed).as_bytes());
    if access.deed == Deed::Clear {
        return;
    }
    put_object(line, access);
}

/// The line of an access.
#[tactic(auto, unfolding(crate::specs::Text::line_text))]
fn access_line(access: &Access) -> Line
    ensures { result ≡ line_text access.now }
{
    let mut line = Line::new();
    put_short(&mut line, access.thread);
    put(&mut line, b" ");
    put_deed(&mut line, access);
    put(&mut line, b"\n");
    line
}

/// The text of a record: the header line and a line for each access, in order. The header line has the first format where
/// the granule number is 0, and else the second, which names it. The record has 1 to 16 threads, a budget of 1 to
/// 1,000,000,000,000, a granule number of 0 to 8 and at most 1,000,000 accesses, each by one of its threads, at an
/// aligned place, of a value that its size holds; a `Clear` has the place of one byte at address 0 and the value 0.
///
/// # Errors
///
/// Want of memory alone.
pub fn print_record(alloc: Global, run: &RunRecord) -> Result<Vec<u8>, AllocError>
    requires { IsRecord run.now }
    ensures { IfOk result (λ text. text.items ≡ record_text run.now) }
{
    let accesses = run.accesses.as_slice();
    let header = header_line(run.threads, run.granule, run.budget, accesses.len() as u32);
    let mut text = Vec::new(alloc);
    text.extend_from_slice(header.bytes())?;
    for access in accesses {
        let line = access_line(access);
        text.extend_from_slice(line.bytes())?;
    }
    Ok(text)
}
