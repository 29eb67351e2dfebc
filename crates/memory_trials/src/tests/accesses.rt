//! Accesses of two threads, one after the other, with what memory is to answer.
ghost use Rattle.std.specs.Prelude.{◌+◌, ◌^◌, ◌<◌, ◌≤◌, ℕ, IsTrue};
ghost use Rattle.llsc_base.specs.Memory.{is_aligned, size_bytes};
ghost use Rattle.memory_trials.specs.inner.Tried.{IsOf, IsPassOf};

use super::tried::{Shape, Tried, two};
use llsc_base::{Place, Size};
use std::alloc::Global;
use std::sync::Wait;
use std::test::Fail;

/// What a thread does, with what memory is to answer.
#[derive(Clone, Copy)]
pub(super) enum Deed {
    Load(u64),
    LoadEx(u64),
    Store(u64),
    StoreEx(u64, bool),
    Clear,
}

/// An access of one of two threads.
#[derive(Clone, Copy)]
pub(super) struct Case {
    other: bool,
    place: Place,
    deed: Deed,
}

/// The place that most accesses are to.
pub(super) const X: Place = Place {
    addr: 0x2000,
    size: Size::B4,
};

/// An access of thread 0.
pub(super) fn of_one(addr: u32, size: Size, deed: Deed) -> Case {
    Case {
        other: false,
        place: Place { addr, size },
        deed,
    }
}

/// One to `X`.
pub(super) fn at_x(deed: Deed) -> Case {
    of_one(X.addr, X.size, deed)
}

/// An access of thread 1.
pub(super) fn of_other(addr: u32, size: Size, deed: Deed) -> Case {
    Case {
        other: true,
        place: Place { addr, size },
        deed,
    }
}

/// Whether the place may be accessed, and the value is one of its size.
pub(super) fn may(place: Place, value: u64) -> bool
    ensures { IsTrue result → IsTrue (is_aligned place) × (place.addr + size_bytes place.size ≤ 65536) × (value < 256 ^ size_bytes place.size) }
{
    let inside = place.addr < 65_536 && place.addr + place.size.bytes() <= 65_536;
    let fits = match place.size {
        Size::B1 => value < 0x100,
        Size::B2 => value < 0x1_0000,
        Size::B4 => value < 0x1_0000_0000,
        Size::B8 => true,
    };
    place.is_aligned() && inside && fits
}

/// Makes an access, and says whether memory answers as it is to.
fn answers<M: Tried, R: Wait>(
    rt: &R,
    memory: &M,
    pass: &mut M::Pass,
    place: Place,
    deed: Deed,
) -> bool
    requires two { IsOf 2 (M.origin memory.now) }
    requires pass { (t : ℕ) × IsPassOf M.home M.numbers (M.id memory.now) t pass.old × (t < 2) }
    ensures pass { (t : ℕ) → IsPassOf M.home M.numbers (M.id memory.now) t pass.old → IsPassOf M.home M.numbers (M.id memory.now) t pass.new }
{
    let value = match deed {
        Deed::Store(value) | Deed::StoreEx(value, _) => value,
        _ => 0,
    };
    if !may(place, value) {
        return false;
    }
    match deed {
        Deed::Load(answer) => memory.load(pass, place) == answer,
        Deed::LoadEx(answer) => memory.load_ex(rt, pass, place) == answer,
        Deed::Store(_) => memory.store(rt, pass, place, value).is_ok(),
        Deed::StoreEx(_, answer) => memory.store_ex(rt, pass, place, value) == answer,
        Deed::Clear => {
            memory.clear_ex(pass);
            true
        }
    }
}

/// The same of one of two passes.
fn answers_of_two<M: Tried, R: Wait>(
    rt: &R,
    memory: &M,
    one: &mut M::Pass,
    other: &mut M::Pass,
    case: Case,
) -> bool
    requires two { IsOf 2 (M.origin memory.now) }
    requires passes { IsPassOf M.home M.numbers (M.id memory.now) 0 one.old × IsPassOf M.home M.numbers (M.id memory.now) 1 other.old }
    ensures { IsPassOf M.home M.numbers (M.id memory.now) 0 one.new × IsPassOf M.home M.numbers (M.id memory.now) 1 other.new }
{
    if case.other {
        return answers(rt, memory, other, case.place, case.deed);
    }
    answers(rt, memory, one, case.place, case.deed)
}

/// Whether memory answers all accesses as it is to.
pub(super) fn all_answer<M: Tried, R: Wait>(
    rt: &R,
    alloc: Global,
    shape: Shape,
    cases: &[Case],
) -> Result<bool, Fail> {
    let (memory, mut one, mut other) = two::<M>(alloc, shape)?;
    for case in cases {
        if !answers_of_two(rt, &memory, &mut one, &mut other, *case) {
            return Ok(false);
        }
    }
    Ok(true)
}
