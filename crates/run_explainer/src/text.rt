//! The text of an explanation, made on a page.
ghost use Rattle.std.specs.Prelude.{◌≡◌, ◌+◌, ◌-◌, ◌*◌, ◌<◌, ◌≤◌, ◌%◌, ◌++◌, codes, drop, length};
ghost use Rattle.std.specs.Fmt.{decimal};
ghost use Rattle.number_text.specs.Hexadecimal.{word_text};
ghost use Rattle.run_explainer.specs.Text.{came_back_text, deed_text, done_text, indented, last_text, line_of, more_text, place_text, shown_at, tally_text, value_text, why_text, writes_text};
ghost use Rattle.run_explainer.specs.inner.Texts.{Longer};

use crate::events::Event;
use crate::reasons::Why;
use crate::reservations::Writes;
use crate::shown::Shown;
use crate::tallies::Tally;
use history::{Access, Deed};
use llsc_base::{Line, Size};
use llsc_report::write_count;
use llsc_texts::{Page, push_word};
use number_text::{write_decimal, write_long, write_text};

/// Adds a line to a page.
fn put_line(page: &mut Page, line: &Line)
    requires { length page.old + 96 ≤ 65536 }
    ensures { Longer 96 page.old line.now page.new }
{
    page.push(line.bytes());
}

/// Adds an access by its index, its thread, the steps before its instruction, and the address of that.
fn put_place(page: &mut Page, event: &Event)
    requires { length page.old + 96 ≤ 65536 }
    ensures { Longer 96 page.old (place_text event.now) page.new }
{
    let mut line = Line::new();
    write_decimal(&mut line, u64::from(event.index));
    write_count(&mut line, " thread ", u64::from(event.access.thread));
    write_count(&mut line, " step ", event.sighting.steps);
    line.push(b' ');
    push_word(&mut line, event.sighting.pc);
    put_line(page, &line);
}

/// The last of some digits, so many of them.
fn last_of(digits: &[u8], count: usize) -> &[u8]
    requires { count ≤ length digits.now }
    ensures { result.now ≡ drop (length digits.now - count) digits.now }
{
    &digits[digits.len() - count..]
}

/// Adds a name and a value, in two digits for each byte of its size.
fn put_value(page: &mut Page, name: &[u8], size: Size, value: u64)
    requires { length page.old + (length name.now + 16) ≤ 65536 }
    ensures { Longer (length name.now + 16) page.old (name.now ++ value_text size value) page.new }
{
    let mut digits = Line::new();
    write_long(&mut digits, value);
    page.push(name);
    page.push(last_of(digits.bytes(), 2 * size.bytes() as usize));
}

/// Adds what an access did.
fn put_deed(page: &mut Page, access: &Access)
    requires { length page.old + 32 ≤ 65536 }
    ensures { Longer 32 page.old (deed_text access.now.deed access.now.place.size access.now.value) page.new }
{
    let size = access.place.size;
    match access.deed {
        Deed::Load | Deed::LoadEx => put_value(page, b" read ", size, access.value),
        Deed::Store | Deed::StoreEx => put_value(page, b" wrote ", size, access.value),
        Deed::StoreFail => page.push(b" failed"),
        Deed::Clear => {}
    }
}

/// Adds the line of an access.
fn put_event(page: &mut Page, shown: &mut Shown, event: &Event)
    requires { length page.old + 250 ≤ 65536 }
    ensures text { Longer 250 page.old (line_of shown.old event.now) page.new }
    ensures program { shown.new ≡ shown.old }
{
    put_place(page, event);
    shown.put(page, event.sighting.pc);
    put_deed(page, &event.access);
    page.push(b"\n");
}

/// Adds the line of an access behind two blanks.
fn put_indented(page: &mut Page, shown: &mut Shown, event: &Event)
    requires { length page.old + 252 ≤ 65536 }
    ensures text { Longer 252 page.old (indented shown.old event.now) page.new }
    ensures program { shown.new ≡ shown.old }
{
    page.push(b"  ");
    put_event(page, shown, event);
}

/// Adds how many writes there are beside the first and the last, where there are any.
fn put_more(page: &mut Page, count: u32)
    requires { length page.old + 96 ≤ 65536 }
    ensures { Longer 96 page.old (more_text count) page.new }
{
    if count <= 2 {
        return;
    }
    let mut line = Line::new();
    write_count(&mut line, "  and ", u64::from(count - 2));
    write_text(&mut line, b" more\n");
    put_line(page, &line);
}

/// Adds the first of some writes, how many more there were, and the last.
fn put_writes(page: &mut Page, shown: &mut Shown, writes: &Writes)
    requires { length page.old + 600 ≤ 65536 }
    ensures text { Longer 600 page.old (writes_text shown.old writes.now) page.new }
    ensures program { shown.new ≡ shown.old }
{
    put_indented(page, shown, &writes.first);
    put_more(page, writes.count);
    if writes.count > 1 {
        put_indented(page, shown, &writes.last);
    }
}

/// Adds that the value had come back, where it had.
fn put_came_back(page: &mut Page, came_back: bool)
    requires { length page.old + 96 ≤ 65536 }
    ensures { Longer 96 page.old (came_back_text came_back) page.new }
{
    if came_back {
        page.push(
            b"  the value is as it was read: a comparison of values would have let it succeed\n",
        );
    }
}

/// Adds a reason.
fn put_why(page: &mut Page, shown: &mut Shown, why: &Why)
    requires { length page.old + 1000 ≤ 65536 }
    ensures text { Longer 1000 page.old (why_text shown.old why.now) page.new }
    ensures program { shown.new ≡ shown.old }
{
    match why {
        Why::NoLoadExclusive => page.push(b"  no load-exclusive came before\n"),
        Why::AnotherRow { load } => {
            put_indented(page, shown, load);
            page.push(b"  the reservation is on another row\n");
        }
        Why::EndedItself { load, own } => {
            put_indented(page, shown, load);
            put_indented(page, shown, own);
            page.push(b"  the thread had ended its reservation itself\n");
        }
        Why::Written {
            load,
            writes,
            came_back,
        } => {
            put_indented(page, shown, load);
            put_writes(page, shown, writes);
            put_came_back(page, *came_back);
        }
        Why::Otherwise { load } => {
            put_indented(page, shown, load);
            page.push(
                b"  nobody wrote the row since: another row of its class was written, or the class takes no more writes\n",
            );
        }
    }
}

/// Adds why a store-exclusive failed: its line, and the reason.
pub(crate) fn put_failure(page: &mut Page, shown: &mut Shown, failed: &Event, why: &Why)
    requires { length page.old + 1250 ≤ 65536 }
    ensures text { Longer 1250 page.old (line_of shown.old failed.now ++ why_text shown.old why.now) page.new }
    ensures program { shown.new ≡ shown.old }
{
    put_event(page, shown, failed);
    put_why(page, shown, why);
}

/// Adds a name and a count.
fn put_count(page: &mut Page, name: &str, count: u32)
    requires room { length page.old + 96 ≤ 65536 }
    requires short { length name.now ≤ 40 }
    ensures { Longer 96 page.old (name.now ++ decimal count) page.new }
{
    let mut line = Line::new();
    write_count(&mut line, name, u64::from(count));
    put_line(page, &line);
}

/// Adds a tally.
pub(crate) fn put_tally(page: &mut Page, tally: &Tally)
    requires { length page.old + 600 ≤ 65536 }
    ensures { Longer 600 page.old (tally_text tally.now) page.new }
{
    put_count(page, ": succeeded ", tally.stored);
    put_count(page, ", failed to others' writes ", tally.written);
    put_count(page, ", without a reservation ", tally.without);
    put_count(page, ", otherwise ", tally.otherwise);
    put_count(page, ", values came back ", tally.came_back);
    page.push(b"\n");
}

/// Adds the line of the instruction at an address, with the tally of its store-exclusives.
pub(crate) fn put_instruction(page: &mut Page, shown: &mut Shown, addr: u32, tally: &Tally)
    requires { length page.old + 800 ≤ 65536 }
    ensures text { Longer 800 page.old (word_text addr ++ (codes " " ++ (shown_at shown.old addr ++ tally_text tally.now))) page.new }
    ensures program { shown.new ≡ shown.old }
{
    let mut line = Line::new();
    push_word(&mut line, addr);
    put_line(page, &line);
    shown.put(page, addr);
    put_tally(page, tally);
}
