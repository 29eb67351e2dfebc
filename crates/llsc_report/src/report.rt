//! The report of a run: of each thread a line and its output, and a line of the counts of all.
ghost use Rattle.std.specs.Prelude.{◌≡◌, ◌≤◌, ◌+◌, ◌++◌, codes, length};
ghost use Rattle.std.specs.Fmt.{decimal};
ghost use Rattle.number_text.specs.Hexadecimal.{word_text};
ghost use Rattle.llsc_host.specs.Writes.{Writes};
ghost use Rattle.std.specs.List.{flat_map, sum_by};
ghost use Rattle.llsc_report.specs.Report.{HasSums, head_line, last_line, report_of, stop_text, thread_text};

use guest_thread::{Counts, GuestEnd};
use llsc_base::{Line, Stop};
use llsc_host::{Failed, Host, write};
use number_text::{write_decimal, write_text, write_word};

/// Adds a name and a number of 32 bits at the end of a line.
fn write_short(line: &mut Line, name: &str, number: u32)
    requires room { length line.old + (length name.now + 10) ≤ 96 }
    ensures text { line.new ≡ line.old ++ (name.now ++ decimal number) }
    ensures most { length line.new ≤ length line.old + (length name.now + 10) }
{
    write_text(line, name.as_bytes());
    write_decimal(line, u64::from(number));
}

/// Adds a name and a number at the end of a line.
pub fn write_count(line: &mut Line, name: &str, number: u64)
    requires room { length line.old + (length name.now + 20) ≤ 96 }
    ensures text { line.new ≡ line.old ++ (name.now ++ decimal number) }
    ensures most { length line.new ≤ length line.old + (length name.now + 20) }
{
    write_text(line, name.as_bytes());
    write_decimal(line, number);
}

/// Adds a name and an address at the end of a line.
fn write_address(line: &mut Line, name: &str, addr: u32)
    requires room { length line.old + (length name.now + 8) ≤ 96 }
    ensures text { line.new ≡ line.old ++ (name.now ++ word_text addr) }
    ensures most { length line.new ≤ length line.old + (length name.now + 8) }
{
    write_text(line, name.as_bytes());
    write_word(line, addr);
}

/// Adds a stop at the end of a line, by its name and its number.
fn write_stop(line: &mut Line, budget: u64, stop: Stop)
    requires room { length line.old + 27 ≤ 96 }
    ensures text { line.new ≡ line.old ++ stop_text budget stop }
    ensures most { length line.new ≤ length line.old + 27 }
{
    match stop {
        Stop::Exit(code) => write_short(line, "exit ", u32::from(code)),
        Stop::Undefined(pc) => write_address(line, "undefined ", pc),
        Stop::Unpredictable(pc) => write_address(line, "unpredictable ", pc),
        Stop::Alignment(addr) => write_address(line, "alignment ", addr),
        Stop::Outside(addr) => write_address(line, "outside ", addr),
        Stop::ReadOnly(addr) => write_address(line, "readonly ", addr),
        Stop::Thumb(pc) => write_address(line, "thumb ", pc),
        Stop::Budget => write_count(line, "budget ", budget),
        Stop::TagLimit(addr) => write_address(line, "taglimit ", addr),
    }
}

/// The line of a thread, with how many bytes its output has.
fn head_line(budget: u64, end: &GuestEnd) -> Line
    ensures { result ≡ head_line budget end.now }
{
    let mut line = Line::new();
    write_short(&mut line, "thread ", end.thread);
    write_text(&mut line, b" stop ");
    write_stop(&mut line, budget, end.stop);
    write_count(&mut line, " steps ", end.steps);
    write_short(&mut line, " out ", end.out.bytes().len() as u32);
    line.push(b'\n');
    line
}

/// What was counted of all threads together.
fn counts_of(ends: &[GuestEnd]) -> Counts
    requires { HasSums ends.now }
    ensures reads { result.reads ≡ sum_by (λ end. end.reads) ends.now }
    ensures writes { result.writes ≡ sum_by (λ end. end.writes) ends.now }
    ensures fails { result.fails ≡ sum_by (λ end. end.fails) ends.now }
{
    let mut all = Counts::none();
    for end in ends {
        all.reads += end.reads;
        all.writes += end.writes;
        all.fails += end.fails;
    }
    all
}

/// The line of the counts.
fn last_line(ends: &[GuestEnd]) -> Line
    requires { HasSums ends.now }
    ensures { result ≡ last_line ends.now }
{
    let all = counts_of(ends);
    let mut line = Line::new();
    write_count(&mut line, "reads ", all.reads);
    write_count(&mut line, " writes ", all.writes);
    write_count(&mut line, " fails ", all.fails);
    line.push(b'\n');
    line
}

/// Two writes, one after the other.
fn write_both<H: Host>(host: &mut H, first: &[u8], second: &[u8]) -> Result<(), Failed>
    ensures { Writes H.Host host.old host.new (first.now ++ second.now) result }
{
    write(host, first)?;
    write(host, second)
}

/// Writes an output if there is any, and the end of its line.
fn write_output<H: Host>(host: &mut H, output: &[u8]) -> Result<(), Failed>
    ensures { Writes H.Host host.old host.new (output.now ++ codes "\n") result }
{
    if output.is_empty() {
        return write(host, b"\n");
    }
    write_both(host, output, b"\n")
}

/// Writes what is said of a thread: its line, its output if there is any, and the end of the output's line.
fn write_thread<H: Host>(host: &mut H, budget: u64, end: &GuestEnd) -> Result<(), Failed>
    ensures { Writes H.Host host.old host.new (thread_text budget end.now) result }
{
    let head = head_line(budget, end);
    write(host, head.bytes())?;
    write_output(host, end.out.bytes())
}

/// Writes what is said of each thread.
fn write_threads<H: Host>(host: &mut H, budget: u64, ends: &[GuestEnd]) -> Result<(), Failed>
    ensures { Writes H.Host host.old host.new (flat_map (thread_text budget) ends.now) result }
{
    for end in ends {
        write_thread(host, budget, end)?;
    }
    Ok(())
}

/// Writes the report of the threads' ends with this budget: of each thread its line, its output if there is any, and the end of
/// the output's line, and then the counts, one write each. No memory is taken.
///
/// # Errors
///
/// `Failed` where a write failed: a front of the report is written.
pub fn write_report<H: Host>(host: &mut H, budget: u64, ends: &[GuestEnd]) -> Result<(), Failed>
    requires { HasSums ends.now }
    ensures { Writes H.Host host.old host.new (report_of budget ends.now) result }
{
    write_threads(host, budget, ends)?;
    let last = last_line(ends);
    write(host, last.bytes())
}
