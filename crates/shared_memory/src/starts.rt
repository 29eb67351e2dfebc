//! The contract of a memory on which guest threads start others.
ghost use Rattle.std.specs.Prelude.{◌≡◌, ◌+◌, ◌*◌, ◌<◌, ◌≤◌, ℕ, true};
ghost use Rattle.history.specs.Operation.{start};
ghost use Rattle.history.specs.Started.{child_of, is_started, starts_of};
ghost use Rattle.shared_memory.specs.Seen.{IsSingle};
ghost use Rattle.shared_memory.specs.Calls.{DoesNothing, Performs};

use crate::memory::SharedMemory;
use std::sync::Wait;

/// A shared memory whose first threads may start others.
///
/// Each thread that begins by itself has so many numbers of its own, behind the numbers of all the first threads and in the order
/// of their threads, and starts the threads of these numbers one after another. A started thread starts none.
pub trait StartMemory: SharedMemory {
    /// How many threads each of the first may start: together they are all threads of the memory.
    fn spare(&self) -> u32
        ensures spare { result ≡ (Self.origin self.now).spare }
        ensures all { (Self.origin self.now).first * (1 + result) ≡ (Self.origin self.now).size.threads };

    /// Starts the next of the threads that are the pass's thread's own, at an address and with an argument, and answers its
    /// number. The pass's thread is one of the first, and has started fewer than it may.
    fn start(&self, pass: &mut Self::Pass, entry: u32, arg: u32) -> u32
        requires memory { Self.home pass.old ≡ Self.id self.now }
        requires single { (t : ℕ) × IsSingle t (Self.numbers pass.old) × (t < (Self.origin self.now).first)
            × (starts_of t (Self.seen pass.old) < (Self.origin self.now).spare) }
        ensures seen { Performs (Self.origin self.now) (Self.numbers pass.old) (Self.seen pass.old)
            (start result entry arg) (Self.seen pass.new) }
        ensures child { (t : ℕ) → IsSingle t (Self.numbers pass.old)
            → result ≡ child_of (Self.origin self.now).first (Self.origin self.now).spare t (starts_of t (Self.seen pass.old)) }
        ensures memory { Self.home pass.new ≡ Self.home pass.old }
        ensures numbers { Self.numbers pass.new ≡ Self.numbers pass.old };

    /// A thread that doesn't begin by itself comes in: from now on its pass has seen that it was started, and it may access
    /// memory. It waits until the thread is started.
    fn enter<R: Wait>(&self, rt: &R, pass: &mut Self::Pass)
        requires memory { Self.home pass.old ≡ Self.id self.now }
        requires single { (t : ℕ) × IsSingle t (Self.numbers pass.old) × ((Self.origin self.now).first ≤ t) }
        ensures seen { DoesNothing (Self.origin self.now) (Self.numbers pass.old) (Self.seen pass.old) (Self.seen pass.new) }
        ensures started { (t : ℕ) → IsSingle t (Self.numbers pass.old) → is_started t (Self.seen pass.new) ≡ true }
        ensures memory { Self.home pass.new ≡ Self.home pass.old }
        ensures numbers { Self.numbers pass.new ≡ Self.numbers pass.old };
}
