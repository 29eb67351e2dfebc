//! What a memory by names and a section answers, and one by versions doesn't.
use super::accesses::{Deed, all_answer, at_x, of_other};
use super::tried::{Shape, USUAL};
use hst_memory::HstMemory;
use llsc_base::Size;
use std::test::Fail;

#[test]
fn a_load_exclusive_of_another_disturbs(rt: HostRuntime) -> Result<(), Fail> {
    let cases = [
        at_x(Deed::LoadEx(0)),
        of_other(0x2000, Size::B4, Deed::LoadEx(0)),
        of_other(0x2000, Size::B4, Deed::Load(0)),
        of_other(0x2000, Size::B4, Deed::Clear),
        at_x(Deed::StoreEx(9, false)),
    ];
    assert!(rt; all_answer::<HstMemory, _>(&rt, rt.alloc(), USUAL, &cases)?);
    Ok(())
}

#[test]
fn a_class_takes_more_writes_than_the_limit(rt: HostRuntime) -> Result<(), Fail> {
    let shape = Shape { limit: 1, ..USUAL };
    let cases = [
        at_x(Deed::Store(1)),
        at_x(Deed::Store(2)),
        at_x(Deed::LoadEx(2)),
        at_x(Deed::StoreEx(3, true)),
        at_x(Deed::Load(3)),
    ];
    assert!(rt; all_answer::<HstMemory, _>(&rt, rt.alloc(), shape, &cases)?);
    Ok(())
}
