//! The summary of a load: what the counters of its guest hold, and their sum.
ghost use Rattle.std.specs.Prelude.{◌≡◌, ◌<◌, ◌≤◌, ◌^◌, length, slice_index};
ghost use Rattle.llsc_base.specs.Memory.{cell_of};
ghost use Rattle.row_bytes.specs.Cell.{value_in_cell};
ghost use Rattle.llsc_host.specs.Writes.{Writes};
ghost use Rattle.guest_gen.specs.Counters.{counter_place};
ghost use Rattle.llsc_report.specs.Summary.{counter_line, counter_lines, counter_of, load_line, summary_by, total_line, total_of};

use crate::report::write_count;
use guest_gen::{COUNTER_COUNT, FIRST_COUNTER};
use llsc_base::{Line, Place, Size};
use llsc_host::{Failed, Host, write};
use llsc_words::LoadNumbers;
use number_text::{write_decimal, write_text};
use row_bytes::take;
use shared_memory::Rows;

/// Where a counter of the guest is.
fn counter_place(index: u32) -> Place
    requires { index < 16 }
    ensures { result ≡ counter_place index }
{
    Place {
        addr: FIRST_COUNTER + 8 * index,
        size: Size::B4,
    }
}

/// What a counter holds.
#[tactic(auto, unfolding(llsc_base::specs::Memory::cell_of))]
fn counter(rows: &Rows, index: u32) -> u64
    requires known { index < 16 }
    requires inside { 2000 ≤ length rows.now }
    ensures value { result ≡ counter_of rows.now index }
    ensures fits { result < 2 ^ 32 }
{
    let place = counter_place(index);
    take(rows.row(place.addr / 8), place)
}

/// The sum of what the counters hold.
pub fn total(rows: &Rows) -> u64
    requires { 2000 ≤ length rows.now }
    ensures value { result ≡ total_of (counter_of rows.now) 16 }
{
    let mut total = 0;
    for i in 0..COUNTER_COUNT {
        total += counter(rows, i);
    }
    total
}

/// The line of a load's numbers.
fn load_line(numbers: &LoadNumbers) -> Line
    ensures { result ≡ load_line numbers.now.seed numbers.now.threads numbers.now.rounds }
{
    let mut line = Line::new();
    write_count(&mut line, "load seed ", numbers.seed);
    write_count(&mut line, " threads ", numbers.threads);
    write_count(&mut line, " rounds ", numbers.rounds);
    line.push(b'\n');
    line
}

/// The line of a counter.
fn counter_line(index: u32, value: u64) -> Line
    ensures { result ≡ counter_line index value }
{
    let mut line = Line::new();
    write_count(&mut line, "counter ", u64::from(index));
    write_count(&mut line, " ", value);
    line.push(b'\n');
    line
}

/// The line of the sum.
fn total_line(total: u64) -> Line
    ensures { result ≡ total_line total }
{
    let mut line = Line::new();
    write_count(&mut line, "total ", total);
    line.push(b'\n');
    line
}

/// Writes the line of each counter.
fn write_counters<H: Host>(host: &mut H, rows: &Rows) -> Result<(), Failed>
    requires { 2000 ≤ length rows.now }
    ensures { Writes H.Host host.old host.new (counter_lines (counter_of rows.now) 16) result }
{
    for index in 0..COUNTER_COUNT {
        let line = counter_line(index, counter(rows, index));
        write(host, line.bytes())?;
    }
    Ok(())
}

/// Writes the summary of a load by the cells of memory as it was left: a line of its numbers, one of each counter, and one of
/// their sum, each by a write of its own. No memory is taken.
///
/// # Errors
///
/// `Failed` where a write failed: a front of the summary is written.
pub fn write_summary<H: Host>(
    host: &mut H,
    numbers: &LoadNumbers,
    rows: &Rows,
) -> Result<(), Failed>
    requires { 2000 ≤ length rows.now }
    ensures { Writes H.Host host.old host.new (summary_by numbers.now.seed numbers.now.threads numbers.now.rounds (counter_of rows.now)) result }
{
    let first = load_line(numbers);
    write(host, first.bytes())?;
    write_counters(host, rows)?;
    let last = total_line(total(rows));
    write(host, last.bytes())
}
