//! Traces of small programs by the number 0.
use super::programs::{ADDS, SHARES, image_of};
use a32_step::Remembering;
use guest_machine::{Traced, trace};
use guest_thread::GuestEnd;
use history::{Access, Deed};
use llsc_base::{MachineSize, Place, Size, Stop};
use std::alloc::Global;
use std::test::Fail;

/// The program that adds, with CLREX in place of the sum.
const CLEARS: &[u32] = &[
    0xe3a0_1a02,
    0xe191_0f9f,
    0xf57f_f01f,
    0xe181_2f90,
    0xe1a0_0002,
    0xe3a0_7001,
    0xef00_0000,
];

/// The thread, the deed and the value of an access: a CLREX, or an access of the word at 0x2000.
type Made = (u32, Deed, u64);

/// A thread's stop, its steps, its loads, its stores, and its store-exclusives that failed.
type End = (Stop, u64, u64, u64, u64);

/// The accesses of two threads that store, of one that adds, and of one that clears.
const STORES_MADE: &[Made] = &[
    (1, Deed::Store, 1),
    (0, Deed::Store, 0),
    (1, Deed::Load, 0),
    (0, Deed::Load, 0),
];

const ADDS_MADE: &[Made] = &[(0, Deed::LoadEx, 0), (0, Deed::StoreEx, 7)];

const CLEARS_MADE: &[Made] = &[
    (0, Deed::LoadEx, 0),
    (0, Deed::Clear, 0),
    (0, Deed::StoreFail, 0),
];

/// The words, the threads, the accesses, and the last thread's end.
type Case = (&'static [u32], u64, &'static [Made], End);

const CASES: &[Case] = &[
    (SHARES, 2, STORES_MADE, (Stop::Exit(0), 6, 1, 1, 0)),
    (ADDS, 1, ADDS_MADE, (Stop::Exit(0), 7, 1, 1, 0)),
    (CLEARS, 1, CLEARS_MADE, (Stop::Exit(1), 7, 1, 0, 1)),
];

/// The place of an access.
fn place_of(deed: Deed) -> Place {
    match deed {
        Deed::Clear => Place {
            addr: 0,
            size: Size::B1,
        },
        _ => Place {
            addr: 0x2000,
            size: Size::B4,
        },
    }
}

/// The accesses of a list.
fn accesses_of(alloc: Global, list: &[Made]) -> Result<Vec<Access>, Fail> {
    let mut accesses = Vec::new(alloc);
    for (thread, deed, value) in list {
        accesses.push(Access {
            thread: *thread,
            deed: *deed,
            place: place_of(*deed),
            value: *value,
        })?;
    }
    Ok(accesses)
}

/// How a thread ended.
fn shown(end: &GuestEnd) -> End {
    (end.stop, end.steps, end.reads, end.writes, end.fails)
}

/// Whether a trace has these accesses, and this end of its last thread.
fn has(traced: &Traced, accesses: &[Access], end: End) -> bool {
    traced.run.accesses.as_slice() == accesses
        && traced.ends.as_slice().last().map(shown) == Some(end)
}

/// Whether a program's trace is as a case says.
fn holds(alloc: Global, (words, threads, made, end): Case) -> Result<bool, Fail> {
    let accesses = accesses_of(alloc, made)?;
    let size = MachineSize::new(1_048_576, threads, 1, 1)?;
    let image = image_of(alloc, words, &size)?;
    let traced = trace::<Remembering>(alloc, &image, &size, 0, 10_000)?;
    Ok(has(&traced, accesses.as_slice(), end))
}

#[test]
fn takes_turns(rt: HostRuntime) -> Result<(), Fail> {
    for case in CASES {
        assert!(rt; holds(rt.alloc(), *case)?);
    }
    Ok(())
}
