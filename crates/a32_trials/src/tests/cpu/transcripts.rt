//! Rows that say what an instruction does step by step. A row has three parts with colons between them. The first has
//! the word, the flags, and values of registers; a register that it leaves out holds its own number. The second has the
//! values that the loads get, in order. The third is the transcript: each access with its size, its address and the
//! value that is stored, and then the stop, or `done` with the PC. Last come the registers that changed. Sizes and the
//! names of registers are decimal, and all other numbers hexadecimal. A line that begins with a semicolon is a comment.
ghost use Rattle.guest_core.specs.Machine.{AwaitsNothing};

use super::*;
use crate::tests::same;
use llsc_base::Ask;
use std::process::Abort;
use std::str::SplitWhitespace;

/// The registers that stand in a row.
#[derive(Clone, Copy)]
struct Start {
    word: u32,
    flags: u32,
    regs: [u32; 15],
}

/// The register and the value of a text such as `r1=2000`.
fn assignment(text: &str) -> Result<(usize, u32), Fail> {
    let (name, value) = text.split_once('=').ok_or("a register has no value")?;
    let digits = name.strip_prefix('r').ok_or("no register's name")?;
    Ok((digits.parse()?, number(Some(value))?))
}

/// The word, the flags and the registers of a row's first part.
fn start_in(part: &str) -> Result<Start, Fail> {
    let mut words = part.split_whitespace();
    let word = number(words.next())?;
    let flags = number(words.next())?;
    let mut regs = [0, 1, 2, 3, 4, 5, 6, 7, 8, 9, 10, 11, 12, 13, 14];
    for text in words {
        let (r, value) = assignment(text)?;
        *regs.get_mut(r).ok_or("no such register")? = value;
    }
    Ok(Start { word, flags, regs })
}

/// The text of an access.
fn access_text(alloc: Global, ask: Ask) -> Result<String, Fail> {
    let (name, place, value) = match ask {
        Ask::Load(place) => ("load", place, None),
        Ask::Store(place, value) => ("store", place, Some(value)),
        _ => return Err("an access of another kind")?,
    };
    let mut text = format!(in alloc; "{name} {} {:x}", place.size.bytes(), place.addr)?;
    if let Some(value) = value {
        write!(text, " {value:x}")?;
    }
    text.push_str(", ")?;
    Ok(text)
}

/// The text of a stop.
fn stop_text(alloc: Global, stop: Stop) -> Result<String, Fail> {
    let (name, number) = match stop {
        Stop::Alignment(addr) => ("alignment", addr),
        Stop::Outside(addr) => ("outside", addr),
        Stop::ReadOnly(addr) => ("readonly", addr),
        Stop::Thumb(pc) => ("thumb", pc),
        Stop::Unpredictable(pc) => ("unpredictable", pc),
        _ => return Err("a stop of another kind")?,
    };
    Ok(format!(in alloc; "{name} {number:x}")?)
}

/// The reply to an access: a load has the next of these values.
fn reply_to(ask: Ask, values: &mut SplitWhitespace) -> Result<u64, Fail> {
    match ask {
        Ask::Load(_) => Ok(u64::from(number(values.next())?)),
        _ => Ok(0),
    }
}

/// The accesses of the core's next instruction, whose loads get these values, and its end.
fn steps(alloc: Global, image: &Image, cpu: &mut Cpu, values: &str) -> Result<String, Fail>
    requires { AwaitsNothing cpu.old.phase }
{
    let mut values = values.split_whitespace();
    let mut text = String::new(alloc);
    for _ in 0..17 {
        match cpu.next(image) {
            Wanted::Access(ask) => {
                text.push_str(&access_text(alloc, ask)?)?;
                cpu.give(reply_to(ask, &mut values)?);
            }
            Wanted::Done => {
                write!(text, "done {:x}", cpu.pc())?;
                return Ok(text);
            }
            Wanted::Stopped(stop) => {
                text.push_str(&stop_text(alloc, stop)?)?;
                return Ok(text);
            }
            Wanted::Call(_) => return Err("a call")?,
        }
    }
    Err("no end")?
}

/// The transcript of a row's instruction, from these registers and flags.
fn transcript(alloc: Global, start: Start, values: &str) -> Result<String, Fail> {
    let image = image_of(alloc, start.word)?;
    let mut cpu = core_with(alloc, start.regs, start.flags)?;
    let mut text = steps(alloc, &image, &mut cpu, values)?;
    if !text.contains("done") && cpu.pc() != 0x1000 {
        return Err("a stop moved the PC")?;
    }
    for i in 0..15u32 {
        if cpu.reg(i) != start.regs[i as usize] {
            write!(text, " r{i}={:x}", cpu.reg(i))?;
        }
    }
    if cpu.flags() != flags_of(start.flags) {
        return Err("the flags changed")?;
    }
    Ok(text)
}

/// Each row's transcript is the one that stands in it.
pub(super) fn check<R: Abort>(rt: &R, alloc: Global, rows: &str) -> Result<(), Fail> {
    for row in rows.lines() {
        if row.starts_with(';') {
            continue;
        }
        let (first, rest) = row.split_once(':').ok_or("a row has one part")?;
        let (values, wanted) = rest.split_once(':').ok_or("a row has two parts")?;
        let start = start_in(first)?;
        for flags in reachable(start.flags) {
            let text = transcript(alloc, Start { flags, ..start }, values)?;
            same(rt, (row, text.as_str()), (row, wanted.trim()));
        }
    }
    Ok(())
}
