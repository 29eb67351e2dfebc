//! A memory by hand: two threads add 1 to the same word, a thousand times each.
//!
//! A memory is made together with its first pass, which holds the numbers of all its threads. An access takes the pass of the
//! thread that makes it, which holds that number alone. So [`SharedMemory::split`] makes a pass for thread 1, and leaves number 0
//! to the first one; each goes to a host thread, and the memory is shared by reference. At the end [`SharedMemory::join`] puts
//! both numbers into one pass again, with which the memory can be closed.
//!
//! What the memory promises: what a pass has seen is a history, legal by Arm's memory and monitors, and of two passes that are
//! joined the one has seen a front of what the other has. What a call adds is the thread's own operation, once, and entries of
//! other threads. So the contracts say what each thread has done by what its pass has seen: [`add_one`] adds one more addition to
//! the thread's accesses (`HasAdded`, `specs/inner/Counting`), [`add_all`] makes them [`ROUNDS`], and both threads' stand in the
//! history with which memory is closed. A store-exclusive that succeeds finds in memory what the load-exclusive before it read,
//! whatever came in between: a law of every legal history. So no addition is lost, and that [`count`] gives 2000 is proved
//! (`proofs/Sums`, by `Additions` of `history`), for every order in which the two threads' accesses may come. Nobody promises
//! that a loop of exclusive accesses ends, so that it is one by `rt.forever()`, which a bound `Wait` allows.
ghost use Rattle.std.specs.Prelude.{◌≡◌, ◌+◌, ◌<◌, ℕ, List, [], IfOk, nat_lt};
ghost use Rattle.history.specs.declared.entry.Entry.{Entry};
ghost use Rattle.shared_memory.specs.Origin.{Origin};
ghost use Rattle.shared_memory.specs.Seen.{IsOneOf, IsSingle};
ghost use Rattle.version_memory.specs.Memory.{memory_id, memory_origin, pass_home, pass_numbers, pass_seen};
ghost use Rattle.by_hand.specs.inner.Counting.{HasAdded, HaveBothAdded, IsOfTwo, Leaves, accesses_by};
ghost use denote.Param.Send.{IsSync};

use llsc_base::{Image, MachineSize, Place, Size};
use shared_memory::SharedMemory;
use std::alloc::{AllocError, Global};
use std::sync::Wait;
use std::thread::{Threads, join};
use version_memory::{VersionMemory, VersionPass};

/// How often each thread adds.
const ROUNDS: u32 = 1000;

/// Where the word is to which both add.
const ADDR: u32 = 0x2000;

/// The word, which has eight bytes.
const WORD: Place = Place {
    addr: ADDR,
    size: Size::B8,
};

/// A memory of zeros for two threads, and the pass that holds both of their numbers.
///
/// # Errors
///
/// [`AllocError`] is want of memory: the machine's numbers are in their ranges.
fn zeros(alloc: Global) -> Result<(VersionMemory, VersionPass), AllocError>
    ensures origin { IfOk result (λ made. IsOfTwo (memory_origin made.0)) }
    ensures memory { IfOk result (λ made. pass_home made.1 ≡ memory_id made.0) }
    ensures numbers { IfOk result (λ made. (t : ℕ) → pass_numbers made.1 t ≡ nat_lt t 2) }
    ensures seen { IfOk result (λ made. pass_seen made.1 ≡ []) }
{
    let Ok(size) = MachineSize::new(65_536, 2, 4096, 1 << 62) else {
        unreachable!()
    };
    let bytes = vec![in alloc; 0; 65_536]?;
    let image = Image::of(bytes, Vec::new(alloc), 0);
    let (memory, pass) = VersionMemory::new(alloc, &image, &size)?;
    Ok((memory, pass))
}

/// Adds 1 once: loads exclusively and stores exclusively, until nobody wrote the word in between.
fn add_one<M: SharedMemory, R: Wait>(rt: &R, memory: &M, pass: &mut M::Pass)
    requires memory { M.home pass.old ≡ M.id memory.now }
    requires single { (t : ℕ) × IsSingle t (M.numbers pass.old) × (t < 2) }
    requires origin { IsOfTwo (M.origin memory.now) }
    ensures memory { M.home pass.new ≡ M.home pass.old }
    ensures numbers { M.numbers pass.new ≡ M.numbers pass.old }
    ensures added { (t times : ℕ) → IsSingle t (M.numbers pass.old)
        → HasAdded t WORD times (accesses_by t (M.seen pass.old)) → HasAdded t WORD (times + 1) (accesses_by t (M.seen pass.new)) }
{
    for _ in rt.forever() {
        let value = memory.load_ex(rt, pass, WORD);
        if memory.store_ex(rt, pass, WORD, value.wrapping_add(1)) {
            return;
        }
    }
    unreachable!()
}

/// What each thread does, with a pass of its own.
fn add_all<M: SharedMemory, R: Wait>(rt: &R, memory: &M, mut pass: M::Pass) -> M::Pass
    requires memory { M.home pass ≡ M.id memory.now }
    requires single { (t : ℕ) × IsSingle t (M.numbers pass) × (t < 2) }
    requires origin { IsOfTwo (M.origin memory.now) }
    ensures memory { M.home result ≡ M.home pass }
    ensures numbers { M.numbers result ≡ M.numbers pass }
    ensures added { (t : ℕ) → IsSingle t (M.numbers pass) → M.seen pass ≡ []
        → HasAdded t WORD ROUNDS (accesses_by t (M.seen result)) }
{
    for round in 0..ROUNDS {
        add_one(rt, memory, &mut pass);
    }
    pass
}

/// Splits a pass of both numbers, has each thread add on a host thread of its own, and joins the two passes: the pass that comes
/// of it holds both numbers again.
fn add_beside<M: SharedMemory, R: Threads + Wait + Sync>(
    rt: &R,
    memory: &M,
    mut pass: M::Pass,
) -> M::Pass
    requires memory { M.home pass ≡ M.id memory.now }
    requires numbers { (t : ℕ) → M.numbers pass t ≡ nat_lt t 2 }
    requires seen { M.seen pass ≡ [] }
    requires origin { IsOfTwo (M.origin memory.now) }
    ensures memory { M.home result ≡ M.id memory.now }
    ensures both { (t : ℕ) → t < 2 → IsOneOf t (M.numbers result) }
    ensures added { HaveBothAdded WORD ROUNDS (M.seen result) }
{
    let other = memory.split(&mut pass, 1);
    let (mut pass, other) = join(
        rt,
        move || -> M::Pass
            requires { IsSync R.row × (M.home pass ≡ M.id memory.now) × IsSingle 0 (M.numbers pass) × (M.seen pass ≡ [])
                × IsOfTwo (M.origin memory.now) }
            ensures { (M.home result ≡ M.id memory.entry.now) × IsSingle 0 (M.numbers result)
                × HasAdded 0 WORD ROUNDS (accesses_by 0 (M.seen result)) }
        { add_all(rt, memory, pass) },
        move || -> M::Pass
            requires { (M.home other ≡ M.id memory.now) × IsSingle 1 (M.numbers other) × (M.seen other ≡ [])
                × IsOfTwo (M.origin memory.now) }
            ensures { (M.home result ≡ M.id memory.entry.now) × IsSingle 1 (M.numbers result)
                × HasAdded 1 WORD ROUNDS (accesses_by 1 (M.seen result)) }
        { add_all(rt, memory, other) },
    );
    memory.join(&mut pass, other);
    pass
}

/// The word, once both threads have added and memory is closed: 2000, which is what the history of their accesses leaves there.
///
/// # Errors
///
/// [`AllocError`] is want of memory.
pub(crate) fn count<R: Threads + Wait + Sync>(rt: &R, alloc: Global) -> Result<u64, AllocError>
    ensures sum { IfOk result (λ word. word ≡ 2000) }
    ensures left { IfOk result (λ word. (origin : Origin) × (history : List Entry) × IsOfTwo origin
        × HaveBothAdded WORD ROUNDS history × Leaves origin history 1024 word) }
{
    let (memory, pass) = zeros(alloc)?;
    let pass = add_beside(rt, &memory, pass);
    let (rows, _story) = memory.close(pass);
    Ok(rows.row(ADDR / 8))
}
