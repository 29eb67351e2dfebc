//! What a memory by versions answers beside every shared memory: stamps, and stores that are refused.
use super::accesses::{Deed, X, all_answer, at_x, of_other};
use super::same;
use super::tried::{MANY, Shape, USUAL, two};
use llsc_base::{Place, Size};
use shared_memory::{SharedMemory, Spent};
use std::alloc::Global;
use std::sync::Wait;
use std::test::Fail;
use version_memory::VersionMemory;

#[test]
fn loads_of_another_disturb_nothing(rt: HostRuntime) -> Result<(), Fail> {
    let cases = [
        at_x(Deed::LoadEx(0)),
        of_other(0x2000, Size::B4, Deed::LoadEx(0)),
        of_other(0x2000, Size::B4, Deed::Load(0)),
        of_other(0x2008, Size::B4, Deed::StoreEx(1, false)),
        of_other(0x2000, Size::B4, Deed::Clear),
        at_x(Deed::StoreEx(9, true)),
    ];
    assert!(rt; all_answer::<VersionMemory, _>(&rt, rt.alloc(), USUAL, &cases)?);
    Ok(())
}

/// Three stores and two loads with their stamps, on so many classes: the loads, and the stamps of the stores.
fn stamps_of<R: Wait>(rt: &R, alloc: Global, classes: u64) -> Result<[(u64, u64); 5], Fail> {
    let (memory, mut one, _other) = two::<VersionMemory>(alloc, Shape { classes, ..USUAL })?;
    let next = Place {
        addr: 0x2008,
        size: Size::B4,
    };
    let first = memory.load_stamped(rt, &mut one, X);
    let stored = memory.store_stamped(rt, &mut one, X, 5).unwrap_or(MANY);
    let second = memory.load_stamped(rt, &mut one, X);
    let beside = memory.store_stamped(rt, &mut one, next, 1).unwrap_or(MANY);
    let again = memory.store_stamped(rt, &mut one, X, 6).unwrap_or(MANY);
    Ok([first, (5, stored), second, (1, beside), (6, again)])
}

#[test]
fn a_stamp_counts_the_writes_of_its_class(rt: HostRuntime) -> Result<(), Fail> {
    let apart = stamps_of(&rt, rt.alloc(), 4096)?;
    same(&rt, apart, [(0, 0), (5, 0), (5, 1), (1, 0), (6, 1)]);
    let together = stamps_of(&rt, rt.alloc(), 1)?;
    same(&rt, together, [(0, 0), (5, 0), (5, 1), (1, 1), (6, 2)]);
    Ok(())
}

/// A store of another between a stamped load-exclusive and its store-exclusive, or none: the load, and the stamp of the
/// store-exclusive.
fn exclusive_stamps<R: Wait>(
    rt: &R,
    alloc: Global,
    disturbed: bool,
) -> Result<((u64, u64), Option<u64>), Fail> {
    let (memory, mut one, mut other) = two::<VersionMemory>(alloc, USUAL)?;
    let stored = memory.store(rt, &mut other, X, 7).is_ok();
    let loaded = memory.load_ex_stamped(rt, &mut one, X);
    if disturbed && stored {
        let _again = memory.store(rt, &mut other, X, 7).is_ok();
    }
    Ok((loaded, memory.store_ex_stamped(&mut one, X, 9)))
}

#[test]
fn exclusive_accesses_have_stamps(rt: HostRuntime) -> Result<(), Fail> {
    let left = exclusive_stamps(&rt, rt.alloc(), false)?;
    let disturbed = exclusive_stamps(&rt, rt.alloc(), true)?;
    same(&rt, [left, disturbed], [((7, 1), Some(1)), ((7, 1), None)]);
    Ok(())
}

/// One class, which takes so many writes.
fn few(limit: u64) -> Shape {
    Shape {
        classes: 1,
        limit,
        granule: 0,
    }
}

/// What three stores to a class that takes two are answered, and whether there is a reservation then, and success with it.
fn after_two<R: Wait>(rt: &R, alloc: Global) -> Result<([Option<Spent>; 3], bool, bool), Fail> {
    let (memory, mut one, _other) = two::<VersionMemory>(alloc, few(2))?;
    let answers = [
        memory.store(rt, &mut one, X, 1).err(),
        memory.store(rt, &mut one, X, 2).err(),
        memory.store(rt, &mut one, X, 3).err(),
    ];
    let (_value, reserved) = memory.load_ex_now(&mut one, X);
    Ok((answers, reserved, memory.store_ex_now(&mut one, X, 9)))
}

#[test]
fn a_class_takes_so_many_writes(rt: HostRuntime) -> Result<(), Fail> {
    let (answers, reserved, succeeds) = after_two(&rt, rt.alloc())?;
    let spent = Spent {
        class: 0,
        writes: 2,
    };
    same(&rt, answers, [None, None, Some(spent)]);
    same(&rt, (reserved, succeeds), (true, false));
    Ok(())
}

/// Whether both threads get a reservation in a class that has had its one write, and whether the first succeeds with it.
fn after_one<R: Wait>(rt: &R, alloc: Global) -> Result<(bool, bool, bool), Fail> {
    let (memory, mut one, mut other) = two::<VersionMemory>(alloc, few(1))?;
    let _stored = memory.store(rt, &mut one, X, 1).is_ok();
    let mine = memory.load_ex_now(&mut one, X).1;
    let yours = memory.load_ex_now(&mut other, X).1;
    Ok((mine, yours, memory.store_ex_now(&mut one, X, 9)))
}

#[test]
fn a_reservation_is_of_no_use_past_the_last_write(rt: HostRuntime) -> Result<(), Fail> {
    same(&rt, after_one(&rt, rt.alloc())?, (true, true, false));
    Ok(())
}
