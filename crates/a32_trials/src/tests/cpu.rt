//! One instruction at a time, against what an Arm processor's emulator did. Each table was made by running the
//! instruction in a program for Arm Linux under that emulator, `qemu-arm`. A row has the word, r0 to r3 and the flags
//! before it, and then r0, r1 and the flags after it, all in hexadecimal; the flags are N, Z, C and V as bits 3, 2, 1
//! and 0. A line that begins with a semicolon is a comment. Loads and stores have rows of their own (`accesses`,
//! `edges` and `blocks`), which `transcripts` reads. `starts` makes the core before a row's instruction.
ghost use Rattle.guest_core.specs.Machine.{AwaitsNothing};

use crate::tests::cpu::starts::{core_with, reachable};
use a32_step::{Cpu, Flags};
use guest_core::Wanted;
use llsc_base::{Image, MachineSize, Stop};
use std::alloc::Global;
use std::test::Fail;

mod accesses;
mod blocks;
mod conditions;
mod edges;
mod operations;
mod products;
mod shifts;
mod starts;
mod transcripts;

/// An image of these instructions.
fn image(alloc: Global, words: &[u8]) -> Result<Image, Fail> {
    let size = MachineSize::new(65_536, 1, 1, 1)?;
    Ok(Image::flat(alloc, words, &size)?)
}

/// An image whose one instruction is this word.
fn image_of(alloc: Global, word: u32) -> Result<Image, Fail> {
    image(alloc, &word.to_le_bytes())
}

fn flags_of(bits: u32) -> Flags {
    Flags {
        n: bits & 8 != 0,
        z: bits & 4 != 0,
        c: bits & 2 != 0,
        v: bits & 1 != 0,
    }
}

/// The registers of a core whose first four are these.
fn regs_of(r0: u32, r1: u32, r2: u32, r3: u32) -> [u32; 15] {
    [r0, r1, r2, r3, 4, 5, 6, 7, 8, 9, 10, 11, 12, 13, 14]
}

fn number(text: Option<&str>) -> Result<u32, Fail> {
    Ok(u32::from_str_radix(text.ok_or("a row is short")?, 16)?)
}

/// What a row says of a core after its instruction.
#[derive(Clone, Copy)]
struct After {
    r0: u32,
    r1: u32,
    flags: u32,
}

/// A row: the instruction, the core before it, and the core after it.
#[derive(Clone, Copy)]
struct Row {
    word: u32,
    regs: [u32; 15],
    flags: u32,
    after: After,
}

/// What the text of a row says.
fn row_of(text: &str) -> Result<Row, Fail> {
    let mut words = text.split_whitespace();
    Ok(Row {
        word: number(words.next())?,
        regs: regs_of(
            number(words.next())?,
            number(words.next())?,
            number(words.next())?,
            number(words.next())?,
        ),
        flags: number(words.next())?,
        after: After {
            r0: number(words.next())?,
            r1: number(words.next())?,
            flags: number(words.next())?,
        },
    })
}

/// Whether the core does what a row says.
fn agrees(alloc: Global, text: &str) -> Result<bool, Fail> {
    if text.starts_with(';') {
        return Ok(true);
    }
    let row = row_of(text)?;
    let image = image_of(alloc, row.word)?;
    for flags in reachable(row.flags) {
        if !comes_to(core_with(alloc, row.regs, flags)?, &image, row.after) {
            return Ok(false);
        }
    }
    Ok(true)
}

/// Whether a core's next instruction is complete, and leaves it so.
fn comes_to(mut cpu: Cpu, image: &Image, after: After) -> bool
    requires { AwaitsNothing cpu.phase }
{
    cpu.next(image) == Wanted::Done
        && cpu.pc() == 0x1004
        && cpu.reg(0) == after.r0
        && cpu.reg(1) == after.r1
        && cpu.flags() == flags_of(after.flags)
}
