//! Threads, as many as are asked for, make accesses beside each other, and log them.
ghost use Rattle.std.specs.Prelude.{◌≡◌, ◌+◌, ◌<◌, ◌≤◌, ◌∷◌, ◌++◌, ℕ, [], IfNone, IfOk, IfSome, MatchOption, nat_lt, vec_len, vec_capacity};
ghost use Rattle.history.specs.Parts.{entries_of};
ghost use Rattle.shared_memory.specs.Seen.{IsOneOf, IsSingle, joint};
ghost use Rattle.memory_trials.specs.inner.Tried.{HasAll, IsFor, MayAllLog, MayLog, numbers_of};
ghost use denote.Param.Send.{IsSync};

use super::logged::log_accesses;
use super::order::{FIRST_VALUES, are_laid, count_loads, ends_so};
use super::tried::{MANY, Shape, Tried, machine, zeros};
use history::{Access, Deed, PlainMemory};
use llsc_base::{MachineSize, Place};
use shared_memory::{Rows, SharedMemory};
use std::alloc::{AllocError, Global};
use std::sync::Wait;
use std::test::Fail;
use std::thread::{Threads, join};

/// So many accesses the threads make together.
const ACCESSES: usize = 400_000;

/// So many store-exclusives of each thread succeed at least. Each of 16 threads makes 25,000 accesses, and about one in five is
/// a store-exclusive while the thread holds a reservation. Nearly all of these succeed where threads take turns on one
/// processor, since turns are long, and about half of them where others write in the row all the while.
const ENOUGH: usize = 100;

/// Rows of 32 bytes.
const WIDE: Shape = Shape {
    classes: 4096,
    limit: MANY,
    granule: 2,
};

/// A thread's log, and its pass.
type Logged<P> = (Vec<Access>, P);

/// Room for what each of so many threads logs.
fn room(alloc: Global, threads: u32) -> Result<Vec<Access>, AllocError>
    requires { 0 < threads }
{
    let none = Access {
        thread: 0,
        deed: Deed::Clear,
        place: Place::NOWHERE,
        value: 0,
    };
    vec![in alloc; none; ACCESSES / threads as usize]
}

/// The room and the passes of all threads but thread 0, whose number the pass keeps.
fn others<M: Tried>(
    alloc: Global,
    memory: &M,
    pass: &mut M::Pass,
    threads: u32,
) -> Result<Vec<Logged<M::Pass>>, AllocError>
    requires threads { (threads ≡ (M.origin memory.now).first) × (0 < threads) }
    requires memory { M.home pass.old ≡ M.id memory.now }
    requires numbers { (t : ℕ) → M.numbers pass.old t ≡ nat_lt t threads }
    requires none { (t : ℕ) → entries_of t (M.seen pass.old) ≡ [] }
    ensures may { IfOk result (λ logged. MayAllLog M.home M.numbers (M.id memory.now) (M.origin memory.now) logged.items) }
    ensures all { IfOk result (λ logged. (t : ℕ) → t < threads → IsOneOf t (joint (M.numbers pass.new) (numbers_of M.numbers logged.items))) }
    ensures len { IfOk result (λ logged. vec_len logged + 1 ≡ threads) }
    ensures single { IfOk result (λ _. IsSingle 0 (M.numbers pass.new)) }
    ensures memory { M.home pass.new ≡ M.home pass.old }
{
    let mut logged = Vec::with_capacity(alloc, threads as usize)?;
    for count in 1..threads {
        let other = memory.split(pass, threads - count);
        logged.push((room(alloc, threads)?, other))?;
    }
    Ok(logged)
}

/// What threads logged, and the pass of all of them.
#[derive(Drop)]
struct Ran<P> {
    logs: Vec<Vec<Access>>,
    pass: P,
}

/// Takes what one more thread logged to that of those before it.
fn gather<M: SharedMemory>(memory: &M, ran: Ran<M::Pass>, logged: Logged<M::Pass>) -> Ran<M::Pass>
    requires memory { (M.home ran.pass ≡ M.id memory.now) × (M.home logged.1 ≡ M.id memory.now) }
    requires room { vec_len ran.logs < vec_capacity ran.logs }
    ensures memory { M.home result.pass ≡ M.id memory.now }
    ensures numbers { M.numbers result.pass ≡ joint (M.numbers ran.pass) (M.numbers logged.1) }
    ensures len { vec_len result.logs ≡ vec_len ran.logs + 1 }
    ensures capacity { vec_capacity ran.logs ≤ vec_capacity result.logs }
{
    let Ran { mut logs, mut pass } = ran;
    let (log, other) = logged;
    memory.join(&mut pass, other);
    logs.push_reserved(log);
    Ran { logs, pass }
}

/// The first of the threads logs its accesses.
fn begin<M: SharedMemory, R: Wait>(
    rt: &R,
    memory: &M,
    first: Logged<M::Pass>,
    mut logs: Vec<Vec<Access>>,
) -> Ran<M::Pass>
    requires may { MayLog M.home M.numbers (M.id memory.now) (M.origin memory.now) first.1 }
    requires size { (M.origin memory.now).size.mem ≡ 65536 }
    requires room { vec_len logs < vec_capacity logs }
    ensures memory { M.home result.pass ≡ M.id memory.now }
    ensures numbers { M.numbers result.pass ≡ M.numbers first.1 }
    ensures len { vec_len result.logs ≡ vec_len logs + 1 }
    ensures capacity { vec_capacity logs ≤ vec_capacity result.logs }
{
    let (log, pass) = log_accesses(rt, memory, first);
    logs.push_reserved(log);
    Ran { logs, pass }
}

/// Takes the last of the threads out, where there is one.
fn take_last<M: SharedMemory>(
    memory: &M,
    others: &mut Vec<Logged<M::Pass>>,
) -> Option<Logged<M::Pass>>
    requires may { MayAllLog M.home M.numbers (M.id memory.now) (M.origin memory.now) others.old.items }
    ensures others { MayAllLog M.home M.numbers (M.id memory.now) (M.origin memory.now) others.new.items }
    ensures last { IfSome result (λ last. MayLog M.home M.numbers (M.id memory.now) (M.origin memory.now) last.1) }
    ensures items { MatchOption result (others.old.items ≡ []) (λ last. others.old.items ≡ others.new.items ++ last ∷ []) }
    ensures len { IfSome result (λ _. vec_len others.old ≡ vec_len others.new + 1) }
    ensures empty { IfNone result (vec_len others.old ≡ 0) }
{
    let Some(last) = others.pop() else {
        return None;
    };
    Some(last)
}

/// Threads log accesses beside each other: the last on this host thread, those before it so in turn on another.
#[cycle(logged)]
fn log_all<M: SharedMemory, R: Threads + Wait + Sync>(
    rt: &R,
    memory: &M,
    first: Logged<M::Pass>,
    mut others: Vec<Logged<M::Pass>>,
    logs: Vec<Vec<Access>>,
) -> Ran<M::Pass>
    requires first { MayLog M.home M.numbers (M.id memory.now) (M.origin memory.now) first.1 }
    requires others { MayAllLog M.home M.numbers (M.id memory.now) (M.origin memory.now) others.items }
    requires size { (M.origin memory.now).size.mem ≡ 65536 }
    requires empty { vec_len logs ≡ 0 }
    requires room { vec_len others < vec_capacity logs }
    ensures memory { M.home result.pass ≡ M.id memory.now }
    ensures all { HasAll M.numbers first.1 others.items result.pass }
    ensures len { vec_len result.logs ≡ vec_len others + 1 }
    ensures capacity { vec_capacity logs ≤ vec_capacity result.logs }
{
    let Some(last) = take_last(memory, &mut others) else {
        return begin(rt, memory, first, logs);
    };
    let (ran, logged) = join(
        rt,
        move || -> Ran<M::Pass>
            requires { IsSync R.row × MayLog M.home M.numbers (M.id memory.now) (M.origin memory.now) first.1
                × MayAllLog M.home M.numbers (M.id memory.now) (M.origin memory.now) others.items
                × ((M.origin memory.now).size.mem ≡ 65536) × (vec_len logs ≡ 0) × (vec_len others < vec_capacity logs) }
            ensures { (M.home result.pass ≡ M.id memory.entry.now) × HasAll M.numbers first.1 others.items result.pass
                × (vec_len result.logs ≡ vec_len others + 1) × (vec_capacity logs ≤ vec_capacity result.logs) }
        { log_all(rt, memory, first, others, logs) },
        move || -> Logged<M::Pass>
            requires { MayLog M.home M.numbers (M.id memory.now) (M.origin memory.now) last.1 × ((M.origin memory.now).size.mem ≡ 65536) }
            ensures { (M.home result.1 ≡ M.id memory.entry.now) × (M.numbers result.1 ≡ M.numbers last.1) }
        { log_accesses(rt, memory, last) },
    );
    gather(memory, ran, logged)
}

/// The threads of a machine log accesses beside each other on a memory of zeros: their logs, and memory as they left it.
fn logs_of<M: Tried, R: Threads + Wait + Sync>(
    rt: &R,
    alloc: Global,
    size: &MachineSize,
) -> Result<(Vec<Vec<Access>>, Rows), Fail>
    requires { size.now.mem ≡ 65536 }
    ensures { IfOk result (λ t. vec_len t.0 ≡ size.now.threads) }
{
    let threads = size.threads();
    let logs = Vec::with_capacity(alloc, threads as usize)?;
    let log = room(alloc, threads)?;
    let (memory, mut pass) = zeros::<M>(alloc, size)?;
    let others = others(alloc, &memory, &mut pass, threads)?;
    let Ran { logs, pass } = log_all(rt, &memory, (log, pass), others, logs);
    let (rows, story) = memory.close(pass);
    drop(story);
    Ok((logs, rows))
}

/// What the logs of threads say.
#[derive(Drop)]
struct Outcome {
    /// Whether their accesses have one order.
    is_laid: bool,
    /// Whether memory is left as that order leaves it.
    ends_so: bool,
    /// How many store-exclusives of a thread succeeded at least.
    least: usize,
}

/// How many store-exclusives of a log succeeded.
fn successes(log: &[Access]) -> usize {
    let mut count = 0usize;
    for access in log {
        if access.deed == Deed::StoreEx {
            count = count.wrapping_add(1);
        }
    }
    count
}

/// Arm's memory and monitors for a machine.
fn plain(alloc: Global, size: &MachineSize) -> Result<PlainMemory, Fail>
    requires { size.now.mem ≡ 65536 }
    ensures { IfOk result (IsFor size.now.threads) }
{
    let bytes = vec![in alloc; 0; size.mem() as usize]?;
    Ok(PlainMemory::sized(alloc, bytes.as_slice(), size)?)
}

/// How often each value is loaded, in all logs.
fn loads_of(alloc: Global, logs: &[Vec<Access>]) -> Result<Vec<u32>, AllocError> {
    let mut unread = vec![in alloc; 0u32; FIRST_VALUES + ACCESSES]?;
    for log in logs {
        count_loads(unread.as_mut_slice(), log.as_slice());
    }
    Ok(unread)
}

/// What is left of each log at first: all of it.
fn whole<'a>(alloc: Global, logs: &'a [Vec<Access>]) -> Result<Vec<&'a [Access]>, AllocError> {
    let mut left = Vec::with_capacity(alloc, logs.len())?;
    for log in logs {
        left.push(log.as_slice())?;
    }
    Ok(left)
}

/// How many store-exclusives of a thread succeeded at least.
fn least_successes(logs: &[Vec<Access>]) -> usize {
    let mut least = ACCESSES;
    for log in logs {
        least = least.min(successes(log.as_slice()));
    }
    least
}

/// The accesses of these logs are laid into one order, on this memory that they left.
fn outcome_of(
    alloc: Global,
    size: &MachineSize,
    logs: &[Vec<Access>],
    rows: &Rows,
) -> Result<Outcome, Fail>
    requires { size.now.mem ≡ 65536 }
{
    let mut unread = loads_of(alloc, logs)?;
    let mut left = whole(alloc, logs)?;
    let mut plain = plain(alloc, size)?;
    let is_laid = are_laid(
        &mut plain,
        size.threads(),
        unread.as_mut_slice(),
        left.as_mut_slice(),
        ACCESSES,
    );
    Ok(Outcome {
        is_laid,
        ends_so: ends_so(&plain, rows),
        least: least_successes(logs),
    })
}

/// The accesses of so many threads have one order, by which memory is left so, and enough store-exclusives of each succeed.
pub(super) fn have_one_order<M: Tried, R: Threads + Wait + Sync>(
    rt: &R,
    alloc: Global,
    threads: u64,
) -> Result<bool, Fail> {
    let size = machine(threads, WIDE)?;
    let (logs, rows) = logs_of::<M, R>(rt, alloc, &size)?;
    let outcome = outcome_of(alloc, &size, logs.as_slice(), &rows)?;
    Ok(outcome.is_laid && outcome.ends_so && outcome.least >= ENOUGH)
}
