//! Guests that log their accesses while they run freely, and the merge of their logs.

use super::programs::{ADDS, SHARES, image_of};
use a32_step::Cpu;
use history::{Access, Deed};
use llsc_base::{MachineSize, Place, Size};
use run_merge::{LoggedRun, Stamped, log_all, log_crew, merge};
use std::alloc::Global;
use std::sync::Wait;
use std::test::Fail;
use std::thread::Threads;
use version_memory::VersionMemory;

/// What so many threads of a program log.
fn logged<R: Threads + Wait + Sync>(
    rt: &R,
    alloc: Global,
    words: &[u32],
    threads: u64,
) -> Result<LoggedRun, Fail> {
    let size = MachineSize::new(65_536, threads, 4096, 1 << 62)?;
    let image = image_of(alloc, words, &size)?;
    let (memory, pass) = VersionMemory::new(alloc, &image, &size)?;
    let crew = log_crew::<Cpu>(alloc, &memory, &image, pass)?;
    Ok(log_all(rt, &memory, &image, crew, 1000))
}

/// An access of thread 0 to the word at 0x2000, behind so many writes of its class.
fn own(deed: Deed, value: u64, stamp: u64) -> Stamped {
    let place = Place {
        addr: 0x2000,
        size: Size::B4,
    };
    let access = Access {
        thread: 0,
        deed,
        place,
        value,
    };
    Stamped { access, stamp }
}

/// Whether one thread of a program logs these two accesses, and the merge has them in order.
fn is_logged<R: Threads + Wait + Sync>(
    rt: &R,
    alloc: Global,
    words: &[u32],
    wanted: [Stamped; 2],
) -> Result<bool, Fail> {
    let run = logged(rt, alloc, words, 1)?;
    let merged = merge(alloc, &run)?;
    let mut same = run.ends.len() == 1 && run.logs.len() == 1;
    for log in run.logs.iter() {
        same = same && log.count == 2 && log.entries.as_slice() == wanted.as_slice();
    }
    Ok(same && merged.as_slice() == [wanted[0].access, wanted[1].access].as_slice())
}

#[test]
fn a_thread_logs_its_accesses(rt: HostRuntime) -> Result<(), Fail> {
    let added = [own(Deed::LoadEx, 0, 0), own(Deed::StoreEx, 7, 0)];
    assert!(rt; is_logged(&rt, rt.alloc(), ADDS, added)?);
    let shared = [own(Deed::Store, 0, 0), own(Deed::Load, 0, 1)];
    assert!(rt; is_logged(&rt, rt.alloc(), SHARES, shared)?);
    Ok(())
}

/// Whether each load has the value of the last store before it.
fn follows_stores(merged: &[Access]) -> bool {
    let mut last = 0;
    for access in merged.iter() {
        match access.deed {
            Deed::Store => last = access.value,
            _ => {
                if access.value != last {
                    return false;
                }
            }
        }
    }
    true
}

#[test]
fn logs_of_threads_are_merged(rt: HostRuntime) -> Result<(), Fail> {
    let run = logged(&rt, rt.alloc(), SHARES, 3)?;
    let merged = merge(rt.alloc(), &run)?;
    assert!(rt; merged.len() == 6 && follows_stores(merged.as_slice()));
    Ok(())
}
