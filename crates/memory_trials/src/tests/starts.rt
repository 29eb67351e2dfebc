//! A thread starts others, which count beside it.
ghost use Rattle.std.specs.Prelude.{◌≡◌, ◌<◌, ◌≤◌, ℕ, [], IfOk};
ghost use Rattle.history.specs.Started.{MayAct};
ghost use Rattle.shared_memory.specs.Seen.{IsSingle};
ghost use Rattle.version_memory.specs.Memory.{memory_id, memory_origin, pass_home, pass_numbers, pass_seen};
ghost use Rattle.memory_trials.specs.inner.Tried.{IsFamily, IsPassOf};
ghost use denote.Param.Send.{IsSync};

use super::tried::{USUAL, machine, zero_image};
use llsc_base::{Place, Size};
use shared_memory::{SharedMemory, StartMemory};
use std::alloc::Global;
use std::sync::Wait;
use std::test::Fail;
use std::thread::{Threads, join};
use version_memory::{VersionMemory, VersionPass};

/// What all threads count in.
const COUNTER: Place = Place {
    addr: 0x2000,
    size: Size::B8,
};

/// Where a thread leaves a value for those that it starts.
const LEFT: Place = Place {
    addr: 0x3000,
    size: Size::B4,
};

/// So often each thread tries to count.
const TRIES: u32 = 10_000;

/// One try to add 1 to the counter, and whether it came about.
fn try_count<M: SharedMemory, R: Wait>(rt: &R, memory: &M, pass: &mut M::Pass) -> bool
    requires memory { M.home pass.old ≡ M.id memory.now }
    requires single { (t : ℕ) × IsSingle t (M.numbers pass.old) × MayAct (M.origin memory.now).first t (M.seen pass.old) }
    requires size { (M.origin memory.now).size.mem ≡ 65536 }
    ensures memory { M.home pass.new ≡ M.home pass.old }
    ensures numbers { M.numbers pass.new ≡ M.numbers pass.old }
    ensures single { (t : ℕ) × IsSingle t (M.numbers pass.new) × MayAct (M.origin memory.now).first t (M.seen pass.new) }
{
    let value = memory.load_ex(rt, pass, COUNTER);
    memory.store_ex(rt, pass, COUNTER, value.wrapping_add(1))
}

/// Tries so often to count, and how often it came about.
fn count<M: SharedMemory, R: Wait>(rt: &R, memory: &M, pass: &mut M::Pass) -> u64
    requires memory { M.home pass.old ≡ M.id memory.now }
    requires single { (t : ℕ) × IsSingle t (M.numbers pass.old) × MayAct (M.origin memory.now).first t (M.seen pass.old) }
    requires size { (M.origin memory.now).size.mem ≡ 65536 }
    ensures memory { M.home pass.new ≡ M.home pass.old }
    ensures numbers { M.numbers pass.new ≡ M.numbers pass.old }
{
    let mut count = 0u64;
    for _ in 0..TRIES {
        if try_count(rt, memory, pass) {
            count = count.wrapping_add(1);
        }
    }
    count
}

/// A started thread comes in, and counts: whether it found what was left for it, and its count.
fn run_child<M: StartMemory, R: Wait>(rt: &R, memory: &M, mut pass: M::Pass) -> (bool, u64)
    requires memory { M.home pass ≡ M.id memory.now }
    requires single { (t : ℕ) × IsSingle t (M.numbers pass) × ((M.origin memory.now).first ≤ t) }
    requires size { (M.origin memory.now).size.mem ≡ 65536 }
{
    memory.enter(rt, &mut pass);
    let found = memory.load(&mut pass, LEFT) == 5;
    let count = count(rt, memory, &mut pass);
    (found, count)
}

/// The first thread leaves a value, starts two others, and counts: whether they are of these numbers, its count, and its pass.
fn run_first<M: StartMemory, R: Wait>(
    rt: &R,
    memory: &M,
    mut pass: M::Pass,
    children: [u32; 2],
) -> (bool, u64, M::Pass)
    requires family { IsFamily (M.origin memory.now) }
    requires pass { IsPassOf M.home M.numbers (M.id memory.now) 0 pass }
    requires none { M.seen pass ≡ [] }
    ensures { IsPassOf M.home M.numbers (M.id memory.now) 0 result.2 }
{
    let Ok(()) = memory.store(rt, &mut pass, LEFT, 5) else {
        return (false, 0, pass);
    };
    let started = [
        memory.start(&mut pass, 4096, 1),
        memory.start(&mut pass, 4096, 2),
    ];
    let count = count(rt, memory, &mut pass);
    (started == children, count, pass)
}

/// Two started threads beside each other: whether both found what was left for them, and their counts together.
fn run_children<M: StartMemory, R: Threads + Wait + Sync>(
    rt: &R,
    memory: &M,
    one: M::Pass,
    two: M::Pass,
) -> (bool, u64)
    requires family { IsFamily (M.origin memory.now) }
    requires passes { IsPassOf M.home M.numbers (M.id memory.now) 1 one × IsPassOf M.home M.numbers (M.id memory.now) 2 two }
{
    let ((found, count), (found_too, more)) = join(
        rt,
        move || -> (bool, u64)
            requires { IsFamily (M.origin memory.now) × IsPassOf M.home M.numbers (M.id memory.now) 1 one }
        { run_child(rt, memory, one) },
        move || -> (bool, u64)
            requires { IsFamily (M.origin memory.now) × IsPassOf M.home M.numbers (M.id memory.now) 2 two }
        { run_child(rt, memory, two) },
    );
    (found && found_too, count.wrapping_add(more))
}

/// A thread beside the two that it starts: whether all went well, their counts together, and its pass.
fn run_family<M: StartMemory, R: Threads + Wait + Sync>(
    rt: &R,
    memory: &M,
    first: M::Pass,
    one: M::Pass,
    two: M::Pass,
) -> (bool, u64, M::Pass)
    requires family { IsFamily (M.origin memory.now) }
    requires first { IsPassOf M.home M.numbers (M.id memory.now) 0 first }
    requires none { M.seen first ≡ [] }
    requires passes { IsPassOf M.home M.numbers (M.id memory.now) 1 one × IsPassOf M.home M.numbers (M.id memory.now) 2 two }
    ensures { IsPassOf M.home M.numbers (M.id memory.now) 0 result.2 }
{
    let ((right, count, first), (found, more)) = join(
        rt,
        move || -> (bool, u64, M::Pass)
            requires { IsFamily (M.origin memory.now) × IsPassOf M.home M.numbers (M.id memory.now) 0 first × (M.seen first ≡ []) }
            ensures { IsPassOf M.home M.numbers (M.id memory.entry.now) 0 result.2 }
        { run_first(rt, memory, first, [1, 2]) },
        move || -> (bool, u64)
            requires { IsSync R.row × IsFamily (M.origin memory.now) × IsPassOf M.home M.numbers (M.id memory.now) 1 one × IsPassOf M.home M.numbers (M.id memory.now) 2 two }
        { run_children(rt, memory, one, two) },
    );
    (right && found, count.wrapping_add(more), first)
}

/// A memory of zeros whose one first thread may start two, and the passes of the three.
fn three(alloc: Global) -> Result<(VersionMemory, VersionPass, VersionPass, VersionPass), Fail>
    ensures family { IfOk result (λ t. IsFamily (memory_origin t.0)) }
    ensures first { IfOk result (λ t. IsPassOf pass_home pass_numbers (memory_id t.0) 0 t.1) }
    ensures none { IfOk result (λ t. pass_seen t.1 ≡ []) }
    ensures one { IfOk result (λ t. IsPassOf pass_home pass_numbers (memory_id t.0) 1 t.2) }
    ensures two { IfOk result (λ t. IsPassOf pass_home pass_numbers (memory_id t.0) 2 t.3) }
{
    let size = machine(3, USUAL)?;
    let image = zero_image(alloc)?;
    let (memory, mut first) = VersionMemory::with_spare(alloc, &image, &size, 1, 2)?;
    let two = memory.split(&mut first, 2);
    let one = memory.split(&mut first, 1);
    Ok((memory, first, one, two))
}

/// The counter at the end, and the counts of a thread and of the two that it starts; or none, where one found another value than
/// was left for it, or had another number.
fn counts<R: Threads + Wait + Sync>(rt: &R, alloc: Global) -> Result<Option<(u64, u64)>, Fail> {
    let (memory, first, one, two) = three(alloc)?;
    let (right, count, mut first) = run_family(rt, &memory, first, one, two);
    if !right || memory.first() != 1 || memory.spare() != 2 {
        return Ok(None);
    }
    Ok(Some((memory.load(&mut first, COUNTER), count)))
}

#[test]
fn started_threads_count_beside_their_starter(rt: HostRuntime) -> Result<(), Fail> {
    let Some((left, count)) = counts(&rt, rt.alloc())? else {
        return Err(Fail::new("a started thread has another number, or came in too soon"));
    };
    assert_eq!(rt; left, count);
    assert!(rt; count >= 3);
    Ok(())
}
