//! What every memory that threads share is to answer to accesses of two threads, one after the other.
ghost use Rattle.std.specs.Prelude.{◌<◌};

use super::accesses::{Deed, X, all_answer, at_x, of_one, of_other};
use super::tried::{Shape, Tried, USUAL, two};
use llsc_base::Size;
use std::alloc::Global;
use std::sync::Wait;
use std::test::Fail;

/// A change that is undone is a change.
pub(super) fn undone_change<M: Tried, R: Wait>(rt: &R, alloc: Global) -> Result<bool, Fail> {
    let cases = [
        at_x(Deed::LoadEx(0)),
        of_other(0x2000, Size::B4, Deed::Store(5)),
        of_other(0x2000, Size::B4, Deed::Store(0)),
        at_x(Deed::StoreEx(9, false)),
        at_x(Deed::Load(0)),
    ];
    all_answer::<M, R>(rt, alloc, USUAL, &cases)
}

/// Whether a store of thread 1 leaves thread 0 its reservation or takes it, as this says.
fn is_left<M: Tried, R: Wait>(
    rt: &R,
    alloc: Global,
    shape: Shape,
    store: (u32, Size),
    succeeds: bool,
) -> Result<bool, Fail> {
    let cases = [
        at_x(Deed::LoadEx(0)),
        of_other(store.0, store.1, Deed::Store(1)),
        at_x(Deed::StoreEx(9, succeeds)),
    ];
    all_answer::<M, R>(rt, alloc, shape, &cases)
}

/// A store disturbs its row and class.
pub(super) fn row_and_class<M: Tried, R: Wait>(rt: &R, alloc: Global) -> Result<bool, Fail> {
    // The classes, what thread 1 stores to, and whether thread 0 succeeds then.
    let stores = [
        (4096, (0x2007, Size::B1), false),
        (4096, (0x2008, Size::B8), true),
        (1, (0x3000, Size::B4), false),
        (4096, (0x3000, Size::B4), true),
    ];
    for (classes, store, succeeds) in stores {
        let shape = Shape { classes, ..USUAL };
        if !is_left::<M, R>(rt, alloc, shape, store, succeeds)? {
            return Ok(false);
        }
    }
    Ok(true)
}

/// An own store gives the reservation up.
pub(super) fn own_store<M: Tried, R: Wait>(rt: &R, alloc: Global) -> Result<bool, Fail> {
    let cases = [
        at_x(Deed::LoadEx(0)),
        of_other(0x2000, Size::B4, Deed::Store(4)),
        of_one(0x2004, Size::B4, Deed::Store(1)),
        at_x(Deed::StoreEx(9, false)),
    ];
    all_answer::<M, R>(rt, alloc, USUAL, &cases)
}

/// A store keeps the other bytes of its cell.
pub(super) fn bytes_of_a_cell<M: Tried, R: Wait>(rt: &R, alloc: Global) -> Result<bool, Fail> {
    let cases = [
        of_one(0x2000, Size::B8, Deed::LoadEx(0)),
        of_other(0x2006, Size::B2, Deed::Store(0xbeef)),
        of_one(0x2000, Size::B8, Deed::StoreEx(1, false)),
        of_one(0x2000, Size::B8, Deed::Load(0xbeef_0000_0000_0000)),
        of_one(0x2004, Size::B4, Deed::Load(0xbeef_0000)),
        of_one(0x2000, Size::B8, Deed::LoadEx(0xbeef_0000_0000_0000)),
        of_one(0x2000, Size::B8, Deed::StoreEx(1, true)),
        of_one(0x2000, Size::B8, Deed::Load(1)),
    ];
    all_answer::<M, R>(rt, alloc, USUAL, &cases)
}

/// Rows are as wide as the granule: a store to the next cell disturbs, and one to the next row doesn't.
pub(super) fn stores_by_granule<M: Tried, R: Wait>(rt: &R, alloc: Global) -> Result<bool, Fail> {
    let shape = Shape {
        granule: 1,
        ..USUAL
    };
    let near = is_left::<M, R>(rt, alloc, shape, (0x2008, Size::B8), false)?;
    let far = is_left::<M, R>(rt, alloc, shape, (0x2010, Size::B8), true)?;
    Ok(near && far)
}

/// And a store-exclusive to the next cell finds the reservation just where both are of one row.
pub(super) fn exclusives_by_granule<M: Tried, R: Wait>(
    rt: &R,
    alloc: Global,
) -> Result<bool, Fail> {
    for (granule, succeeds) in [(1, true), (0, false)] {
        let shape = Shape { granule, ..USUAL };
        let cases = [
            at_x(Deed::LoadEx(0)),
            of_one(0x2008, Size::B4, Deed::StoreEx(9, succeeds)),
        ];
        if !all_answer::<M, R>(rt, alloc, shape, &cases)? {
            return Ok(false);
        }
    }
    Ok(true)
}

/// Stores a value by one thread, loads it by the other, and says whether it was stored, what was loaded, and the cell at
/// closing.
pub(super) fn handed_over<M: Tried, R: Wait>(
    rt: &R,
    alloc: Global,
) -> Result<(bool, u64, u64), Fail> {
    let (memory, mut one, mut other) = two::<M>(alloc, USUAL)?;
    let stored = memory.store(rt, &mut one, X, 5).is_ok();
    let loaded = memory.load(&mut other, X);
    memory.join(&mut one, other);
    let (rows, story) = memory.close(one);
    drop(story);
    Ok((stored, loaded, rows.row(1024)))
}
