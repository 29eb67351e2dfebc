//! Guests on few workers, which run a slice of their steps at a time.
ghost use Rattle.std.specs.Prelude.{◌≤◌};

use super::programs::image_of;
use llsc_base::{MachineSize, Stop};
use slice_pool::{Pooled, pool_crew, run_pool};
use std::alloc::Global;
use std::sync::Wait;
use std::test::Fail;
use std::thread::Threads;
use version_memory::VersionMemory;

/// Leaves with code 0 by its third step: mov r0, #0; mov r7, #1; svc #0.
const LEAVES: &[u32] = &[0xe3a0_0000, 0xe3a0_7001, 0xef00_0000];

/// Whether three guests leave so on some workers, each by so many slices.
fn leave_by<R: Threads + Wait + Sync>(
    rt: &R,
    alloc: Global,
    workers: u32,
    slice: u64,
    slices: u64,
) -> Result<bool, Fail>
    requires workers { (1 ≤ workers) × (workers ≤ 4) }
    requires slice { 1 ≤ slice }
{
    let size = MachineSize::new(65_536, 3, 4096, 1 << 62)?;
    let image = image_of(alloc, LEAVES, &size)?;
    let (memory, pass) = VersionMemory::new(alloc, &image, &size)?;
    let pool = pool_crew(alloc, &memory, &image, pass, workers)?;
    let Pooled {
        pass: _,
        ends,
        turns,
    } = run_pool(rt, &memory, &image, pool, slice, 1000);
    let mut same = ends.len() == 3 && turns.len() == 3;
    for (thread, end) in ends.iter().enumerate() {
        same = same && end.thread as usize == thread;
        same = same && (end.stop, end.steps) == (Stop::Exit(0), 3);
    }
    for many in turns.iter() {
        same = same && *many == slices;
    }
    Ok(same)
}

#[test]
fn guests_run_by_slices(rt: HostRuntime) -> Result<(), Fail> {
    assert!(rt; leave_by(&rt, rt.alloc(), 2, 1, 3)?);
    assert!(rt; leave_by(&rt, rt.alloc(), 1, 2, 2)?);
    assert!(rt; leave_by(&rt, rt.alloc(), 3, 3, 1)?);
    assert!(rt; leave_by(&rt, rt.alloc(), 4, 1000, 1)?);
    Ok(())
}
