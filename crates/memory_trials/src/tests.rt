//! What each memory that threads share answers.
mod accesses;
mod crossed;
mod handles;
mod logged;
mod many_threads;
mod names;
mod order;
mod starts;
mod trials;
mod tried;
mod versions;

use crate::tests::crossed::one_sees_the_other;
use crate::tests::many_threads::have_one_order;
use crate::tests::trials::{
    bytes_of_a_cell, exclusives_by_granule, handed_over, own_store, row_and_class,
    stores_by_granule, undone_change,
};
use hst_memory::HstMemory;
use std::fmt::Debug;
use std::process::Abort;
use std::test::Fail;
use version_memory::VersionMemory;

/// Compares what is there with what is wanted.
fn same<R: Abort, T: PartialEq + Debug + Copy>(rt: &R, given: T, wanted: T) {
    assert_eq!(rt; given, wanted);
}

#[test]
fn a_change_that_is_undone_is_a_change(rt: HostRuntime) -> Result<(), Fail> {
    assert!(rt; undone_change::<HstMemory, _>(&rt, rt.alloc())?);
    assert!(rt; undone_change::<VersionMemory, _>(&rt, rt.alloc())?);
    Ok(())
}

#[test]
fn a_store_disturbs_its_row_and_class(rt: HostRuntime) -> Result<(), Fail> {
    assert!(rt; row_and_class::<HstMemory, _>(&rt, rt.alloc())?);
    assert!(rt; row_and_class::<VersionMemory, _>(&rt, rt.alloc())?);
    Ok(())
}

#[test]
fn an_own_store_gives_the_reservation_up(rt: HostRuntime) -> Result<(), Fail> {
    assert!(rt; own_store::<HstMemory, _>(&rt, rt.alloc())?);
    assert!(rt; own_store::<VersionMemory, _>(&rt, rt.alloc())?);
    Ok(())
}

#[test]
fn bytes_of_one_cell_are_kept(rt: HostRuntime) -> Result<(), Fail> {
    assert!(rt; bytes_of_a_cell::<HstMemory, _>(&rt, rt.alloc())?);
    assert!(rt; bytes_of_a_cell::<VersionMemory, _>(&rt, rt.alloc())?);
    Ok(())
}

#[test]
fn rows_are_as_wide_as_the_granule(rt: HostRuntime) -> Result<(), Fail> {
    assert!(rt; stores_by_granule::<HstMemory, _>(&rt, rt.alloc())?);
    assert!(rt; stores_by_granule::<VersionMemory, _>(&rt, rt.alloc())?);
    assert!(rt; exclusives_by_granule::<HstMemory, _>(&rt, rt.alloc())?);
    assert!(rt; exclusives_by_granule::<VersionMemory, _>(&rt, rt.alloc())?);
    Ok(())
}

#[test]
fn what_one_thread_stored_another_loads(rt: HostRuntime) -> Result<(), Fail> {
    let by_names = handed_over::<HstMemory, _>(&rt, rt.alloc())?;
    let by_versions = handed_over::<VersionMemory, _>(&rt, rt.alloc())?;
    same(&rt, [by_names, by_versions], [(true, 5, 5); 2]);
    Ok(())
}

#[test]
fn one_of_two_sees_the_other(rt: HostRuntime) -> Result<(), Fail> {
    assert!(rt; one_sees_the_other::<HstMemory, _>(&rt, rt.alloc())?);
    assert!(rt; one_sees_the_other::<VersionMemory, _>(&rt, rt.alloc())?);
    Ok(())
}

#[test]
fn accesses_of_threads_have_one_order_by_names(rt: HostRuntime) -> Result<(), Fail> {
    for threads in [2, 4, 8, 16] {
        assert!(rt;
            have_one_order::<HstMemory, _>(&rt, rt.alloc(), threads)?,
            "of {threads} threads"
        );
    }
    Ok(())
}

#[test]
fn accesses_of_threads_have_one_order_by_versions(rt: HostRuntime) -> Result<(), Fail> {
    for threads in [2, 4, 8, 16] {
        assert!(rt;
            have_one_order::<VersionMemory, _>(&rt, rt.alloc(), threads)?,
            "of {threads} threads"
        );
    }
    Ok(())
}
