//! All threads of a guest, on host threads beside each other.
use super::programs::image_of;
use guest_thread::{GuestEnd, Ran};
use llsc_base::{MachineSize, Stop};
use rv32_guest::{prepare_rv, run_rv_all};
use shared_memory::{Rows, SharedMemory};
use std::alloc::Global;
use std::sync::Wait;
use std::test::Fail;
use std::thread::Threads;
use version_memory::VersionMemory;

/// Adds 1 to the word at 0x2000 a hundred times by LR.W and SC.W, writes `Hi`, and leaves with 3 and its number together:
/// lui x5, 2; li x28, 100; mv x8, x10; lr.w x6, (x5); addi x6, x6, 1; sc.w x7, x6, (x5); bnez x7 to the LR.W;
/// addi x28, x28, -1; bnez x28 to the LR.W; li x10, 1; auipc x11, 0; addi x11, x11, 32; li x12, 2; li x17, 64; ecall;
/// addi x10, x8, 3; li x17, 93; ecall.
const COUNTS: &[u32] = &[
    0x0000_22b7,
    0x0640_0e13,
    0x0005_0413,
    0x1002_a32f,
    0x0013_0313,
    0x1862_a3af,
    0xfe03_9ae3,
    0xfffe_0e13,
    0xfe0e_16e3,
    0x0010_0513,
    0x0000_0597,
    0x0205_8593,
    0x0020_0613,
    0x0400_0893,
    0x0000_0073,
    0x0034_0513,
    0x05d0_0893,
    0x0000_0073,
    0x0000_6948,
];

/// The cell of the word at 0x2000.
const COUNTED: u32 = 0x2000 / 8;

/// Whether a thread has left with 3 and its number together, with a hundred writes and the output; an SC.W that failed is four
/// steps and a read more.
fn has_counted(end: &GuestEnd, thread: usize) -> bool {
    let more = end.steps.wrapping_sub(612);
    end.thread as usize == thread
        && end.stop == Stop::Exit(if thread == 0 { 3 } else { 4 })
        && (end.writes, end.out.bytes()) == (100, b"Hi".as_slice())
        && more == end.fails.wrapping_mul(4)
        && end.reads.wrapping_sub(102) == end.fails
}

/// How the guest's two threads end by a budget, and the cells of memory as they left it.
fn ran<R: Threads + Wait + Sync>(
    rt: &R,
    alloc: Global,
    budget: u32,
) -> Result<(Vec<GuestEnd>, Rows), Fail> {
    let size = MachineSize::new(65_536, 2, 4096, 1 << 62)?;
    let image = image_of(alloc, COUNTS, &size)?;
    let (memory, pass) = VersionMemory::new(alloc, &image, &size)?;
    let crew = prepare_rv(alloc, &memory, &image, pass)?;
    let Ran { pass, ends } = run_rv_all(rt, &memory, &image, crew, u64::from(budget));
    let (rows, story) = memory.close(pass);
    drop(story);
    Ok((ends, rows))
}

/// The count that memory was left with.
fn count_in(rows: &Rows) -> Option<u64> {
    if rows.count() <= COUNTED {
        return None;
    }
    Some(rows.row(COUNTED))
}

#[test]
fn threads_count_together(rt: HostRuntime) -> Result<(), Fail> {
    let (ends, rows) = ran(&rt, rt.alloc(), 100_000_000)?;
    assert_eq!(rt; ends.len(), 2);
    for (thread, end) in ends.iter().enumerate() {
        assert!(rt; has_counted(end, thread), "thread {thread}");
    }
    assert_eq!(rt; count_in(&rows), Some(200));
    Ok(())
}

/// By two steps nothing is counted.
#[test]
fn threads_end_by_their_budget(rt: HostRuntime) -> Result<(), Fail> {
    let (ends, rows) = ran(&rt, rt.alloc(), 2)?;
    assert_eq!(rt; ends.len(), 2);
    for end in ends.iter() {
        assert_eq!(rt;
            (end.stop, end.steps, end.reads, end.out.bytes()),
            (Stop::Budget, 2, 0, b"".as_slice())
        );
    }
    assert_eq!(rt; count_in(&rows), Some(0));
    Ok(())
}
