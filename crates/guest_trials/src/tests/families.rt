//! Guests that start threads, on host threads beside each other.
use super::programs::image_of;
use guest_family::{prepare_family, run_family};
use guest_thread::{GuestEnd, Ran};
use llsc_base::{MachineSize, Stop};
use std::alloc::Global;
use std::sync::Wait;
use std::test::Fail;
use std::thread::Threads;
use version_memory::VersionMemory;

/// Starts a thread at its own first word, and leaves with the answer:
/// mov r0, #0x1000; movw r7, #1; movt r7, #15; svc #0; mov r7, #1; svc #0.
const STARTS_ITSELF: &[u32] = &[
    0xe3a0_0a01,
    0xe300_7001,
    0xe340_700f,
    0xef00_0000,
    0xe3a0_7001,
    0xef00_0000,
];

/// The same, at an address that no word has: mov r0, #1.
const STARTS_NOWHERE: &[u32] = &[
    0xe3a0_0001,
    0xe300_7001,
    0xe340_700f,
    0xef00_0000,
    0xe3a0_7001,
    0xef00_0000,
];

/// Starts a thread with 7, waits for what it stores at 0x2000, and leaves with that and its number together: mov r0, #0x1000;
/// add r0, r0, #60; mov r1, #7; movw r7, #1; movt r7, #15; svc #0; mov r4, r0; mov r2, #0x2000; ldr r3, [r2]; cmp r3, #0;
/// beq to the load; add r0, r3, r4; mov r7, #1; svc #0; nop. Behind them is the other: mov r2, #0x2000; str r0, [r2];
/// mov r0, #0; mov r7, #1; svc #0.
const WAITS: &[u32] = &[
    0xe3a0_0a01,
    0xe280_003c,
    0xe3a0_1007,
    0xe300_7001,
    0xe340_700f,
    0xef00_0000,
    0xe1a0_4000,
    0xe3a0_2a02,
    0xe592_3000,
    0xe353_0000,
    0x0aff_fffc,
    0xe083_0004,
    0xe3a0_7001,
    0xef00_0000,
    0xe320_f000,
    0xe3a0_2a02,
    0xe582_0000,
    0xe3a0_0000,
    0xe3a0_7001,
    0xef00_0000,
];

/// Whether an end is that of this thread, which left with this code.
fn left_with(end: &GuestEnd, thread: usize, code: u8) -> bool {
    end.thread as usize == thread && end.stop == Stop::Exit(code)
}

/// Whether a program of one thread, which may start one more, ends with so many threads that left with these codes, in order of
/// number.
fn leaves_with<R: Threads + Wait + Sync>(
    rt: &R,
    alloc: Global,
    words: &[u32],
    codes: &[u8],
) -> Result<bool, Fail> {
    let size = MachineSize::new(65_536, 2, 4096, 1 << 62)?;
    let image = image_of(alloc, words, &size)?;
    let (memory, pass) = VersionMemory::with_spare(alloc, &image, &size, 1, 1)?;
    let kin = prepare_family(alloc, &memory, &image, pass)?;
    let Ran { pass: _, ends } = run_family(rt, &memory, &image, kin, 100_000_000);
    let mut same = ends.len() == codes.len();
    for (thread, end) in ends.iter().enumerate() {
        let code = codes.get(thread).copied().unwrap_or(0);
        same = same && left_with(end, thread, code);
    }
    Ok(same)
}

#[test]
fn threads_start_others(rt: HostRuntime) -> Result<(), Fail> {
    assert!(rt; leaves_with(&rt, rt.alloc(), STARTS_ITSELF, &[1, 245])?);
    assert!(rt; leaves_with(&rt, rt.alloc(), STARTS_NOWHERE, &[234])?);
    assert!(rt; leaves_with(&rt, rt.alloc(), WAITS, &[8, 0])?);
    Ok(())
}
