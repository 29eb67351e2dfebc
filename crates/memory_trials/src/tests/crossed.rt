//! Two threads store and load beside each other.
ghost use Rattle.std.specs.Prelude.{◌≡◌, ◌+◌, ◌<◌, ◌≤◌, ℕ, IsTrue};
ghost use Rattle.llsc_base.specs.Memory.{is_aligned, size_bytes};
ghost use Rattle.shared_memory.specs.Seen.{IsSingle};
ghost use Rattle.memory_trials.specs.inner.Tried.{AreWords, IsOf, IsPassOf};

use super::tried::{Tried, USUAL, two};
use llsc_base::{Place, Size};
use shared_memory::SharedMemory;
use std::alloc::Global;
use std::sync::Wait;
use std::test::Fail;
use std::thread::{Threads, join};

/// Stores 1 to a word, and loads another.
fn store_then_load<M: SharedMemory, R: Wait>(
    rt: &R,
    memory: &M,
    mut pass: M::Pass,
    mine: Place,
    yours: Place,
) -> (u64, M::Pass)
    requires memory { M.home pass ≡ M.id memory.now }
    requires single { (t : ℕ) × IsSingle t (M.numbers pass) × (t < (M.origin memory.now).first) }
    requires size { (M.origin memory.now).size.mem ≡ 65536 }
    requires mine { IsTrue (is_aligned mine) × (mine.addr + size_bytes mine.size ≤ 65536) }
    requires yours { IsTrue (is_aligned yours) × (yours.addr + size_bytes yours.size ≤ 65536) }
    ensures memory { M.home result.1 ≡ M.home pass }
    ensures numbers { M.numbers result.1 ≡ M.numbers pass }
{
    match memory.store(rt, &mut pass, mine, 1) {
        Ok(()) => (memory.load(&mut pass, yours), pass),
        Err(_) => (0, pass),
    }
}

/// A double word, by its number.
fn double_word(k: u32) -> Place
    requires { k < 8192 }
    ensures aligned { IsTrue (is_aligned result) }
    ensures inside { result.addr + size_bytes result.size ≤ 65536 }
    ensures wide { result.size ≡ Size.B8 }
{
    Place {
        addr: 8 * k,
        size: Size::B8,
    }
}

/// Each of two threads stores to its own word and loads the other's, beside each other: how many of the loads gave 1.
fn crossed<M: Tried, R: Threads + Wait + Sync>(
    rt: &R,
    memory: &M,
    one: M::Pass,
    other: M::Pass,
    k: u32,
) -> (u64, M::Pass, M::Pass)
    requires two { IsOf 2 (M.origin memory.now) }
    requires passes { IsPassOf M.home M.numbers (M.id memory.now) 0 one × IsPassOf M.home M.numbers (M.id memory.now) 1 other }
    requires word { k < 4096 }
    ensures { IsPassOf M.home M.numbers (M.id memory.now) 0 result.1 × IsPassOf M.home M.numbers (M.id memory.now) 1 result.2 }
{
    let (x, y) = (double_word(2 * k), double_word(2 * k + 1));
    let ((a, one), (b, other)) = join(
        rt,
        move || -> (u64, M::Pass)
            requires { IsOf 2 (M.origin memory.now) × IsPassOf M.home M.numbers (M.id memory.now) 0 one × AreWords x y }
            ensures { IsPassOf M.home M.numbers (M.id memory.entry.now) 0 result.1 }
        { store_then_load(rt, memory, one, x, y) },
        move || -> (u64, M::Pass)
            requires { IsOf 2 (M.origin memory.now) × IsPassOf M.home M.numbers (M.id memory.now) 1 other × AreWords y x }
            ensures { IsPassOf M.home M.numbers (M.id memory.entry.now) 1 result.1 }
        { store_then_load(rt, memory, other, y, x) },
    );
    (a.wrapping_add(b), one, other)
}

/// Of two threads that do so at least one sees the other's store, each time.
pub(super) fn one_sees_the_other<M: Tried, R: Threads + Wait + Sync>(
    rt: &R,
    alloc: Global,
) -> Result<bool, Fail> {
    let (memory, mut one, mut other) = two::<M>(alloc, USUAL)?;
    for k in 0..1000u32 {
        let (seen, next_one, next_other) = crossed(rt, &memory, one, other, k);
        one = next_one;
        other = next_other;
        if seen != 1 && seen != 2 {
            return Ok(false);
        }
    }
    Ok(true)
}
