//! That the program is what its text assembles to, which numbers have none, and how often counters are named.
use a32_asm::assemble;
use elf32::Unit;
use guest_gen::{counters, named};
use std::alloc::Global;
use std::test::Fail;

/// The program's text behind its first two lines and before the two that give the rounds.
const GENERATOR: &str = "\
    add r4, r4, r0
    movw r5, #26125
    movt r5, #25
    movw r6, #62303
    movt r6, #15470
";

/// The text behind the two lines that give the rounds.
const ROUNDS: &str = "\
    mov r9, #8192
    loop: cmp r8, #0
    beq done
    mla r4, r4, r5, r6
    mov r10, r4, lsr #28
    add r10, r9, r10, lsl #3
    try: ldrex r11, [r10]
    add r11, r11, #1
    strex r12, r11, [r10]
    cmp r12, #0
    bne try
    sub r8, r8, #1
    b loop
    done: mov r0, #0
    mov r7, #1
    svc #0
    .data
    .space 128
";

/// The program's text with these first two lines, and with these two that give the rounds.
fn text_of(alloc: Global, start: &str, rounds: &str) -> Result<String, Fail> {
    let mut text = String::new(alloc);
    for part in [start, GENERATOR, rounds, ROUNDS] {
        text.push_str(part)?;
    }
    Ok(text)
}

/// Whether two programs have the same words, bytes and space.
fn are_same(one: &Unit, other: &Unit) -> bool {
    one.words.as_slice() == other.words.as_slice()
        && one.bytes.as_slice() == other.bytes.as_slice()
        && one.space == other.space
}

/// The program of this text.
fn assembled(alloc: Global, start: &str, rounds: &str) -> Result<Unit, Fail> {
    let text = text_of(alloc, start, rounds)?;
    Ok(assemble(alloc, &text)?)
}

/// A seed, so many threads and rounds, the two lines of the seed, and the two that give the rounds.
type Written = (u64, u64, u64, &'static str, &'static str);

const WRITTEN: &[Written] = &[
    (
        0,
        1,
        1,
        "movw r4, #0\nmovt r4, #0\n",
        "movw r8, #1\nmovt r8, #0\n",
    ),
    (
        7,
        2,
        1000,
        "movw r4, #7\nmovt r4, #0\n",
        "movw r8, #1000\nmovt r8, #0\n",
    ),
    (
        0x1_0000_0007,
        2,
        1000,
        "movw r4, #7\nmovt r4, #0\n",
        "movw r8, #1000\nmovt r8, #0\n",
    ),
    (
        u64::MAX,
        16,
        50_000,
        "movw r4, #65535\nmovt r4, #65535\n",
        "movw r8, #50000\nmovt r8, #0\n",
    ),
];

/// Whether the program of these numbers is the one of that text.
fn is_as_written(alloc: Global, written: Written) -> Result<bool, Fail> {
    let (seed, threads, rounds, start, count) = written;
    let unit = counters(alloc, seed, threads, rounds)?;
    Ok(are_same(&unit, &assembled(alloc, start, count)?))
}

#[test]
fn assembles_to_the_same(rt: HostRuntime) -> Result<(), Fail> {
    for written in WRITTEN {
        let seed = written.0;
        assert!(rt; is_as_written(rt.alloc(), *written)?, "at {seed}");
    }
    Ok(())
}

/// Threads and rounds, one of which is out of its range.
const BEYOND: &[(u64, u64)] = &[(0, 1), (17, 1), (1, 0), (16, 50_001), (u64::MAX, u64::MAX)];

/// Whether numbers are refused as out of their ranges.
fn is_beyond(alloc: Global, threads: u64, rounds: u64) -> bool {
    match counters(alloc, 0, threads, rounds) {
        Ok(_) => false,
        Err(fault) => fault.name() == "Range",
    }
}

#[test]
fn ranges_end_where_they_say(rt: HostRuntime) {
    for &(threads, rounds) in BEYOND {
        assert!(rt;
            is_beyond(rt.alloc(), threads, rounds),
            "at {threads} and {rounds}"
        );
    }
}

/// Of a seed, so many threads and rounds, and a counter, how often it is named, as a script of its own computes it.
const NAMED: &[((u64, u32, u32, u32), u32)] = &[
    ((0, 1, 3, 13), 1),
    ((0, 2, 1, 3), 2),
    ((7, 4, 1000, 0), 264),
    ((7, 4, 1000, 15), 254),
    ((0x1_0000_0007, 4, 1000, 0), 264),
    ((u64::MAX, 2, 1, 3), 2),
];

/// Whether a counter is named so often, where the numbers are in their ranges.
fn is_named(numbers: (u64, u32, u32, u32), times: u32) -> bool {
    let (seed, threads, rounds, index) = numbers;
    let is_known = threads >= 1 && threads <= 16 && rounds >= 1 && rounds <= 50_000 && index < 16;
    is_known && named(seed, threads, rounds, index) == times
}

#[test]
fn names_counters(rt: HostRuntime) {
    for (numbers, times) in NAMED {
        assert!(rt; is_named(*numbers, *times), "at {numbers:?}");
    }
}
