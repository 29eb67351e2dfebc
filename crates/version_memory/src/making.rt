//! A memory is made.
ghost use Rattle.std.specs.Prelude.{◌≡◌, ◌+◌, ◌%◌, ◌*◌, ◌<◌, ◌≤◌, ℕ, [], true, IfOk, length, nat_lt};
ghost use Rattle.version_memory.specs.Memory.{memory_id, memory_origin, pass_home, pass_numbers, pass_seen};

use crate::memory::VersionMemory;
use crate::passes::VersionPass;
use llsc_base::{Image, MachineSize};
use shared_memory::{Plan, first_marks, initial_words};
use std::alloc::{AllocError, Global};
use std::snapshot::Snapshot;
use version_rule::VersionTable;

impl VersionMemory {
    /// A memory of these bytes at first, as many as the machine has, with the pass that holds the numbers of all its threads.
    ///
    /// # Errors
    ///
    /// `AllocError` is want of memory.
    pub fn new(
        alloc: Global,
        image: &Image,
        size: &MachineSize,
    ) -> Result<(VersionMemory, VersionPass), AllocError>
        requires { length image.now.bytes ≡ size.now.mem }
        ensures origin { IfOk result (λ made. memory_origin made.0 ≡ record {
          size = size.now;
          first = size.now.threads;
          spare = 0;
          bytes = image.now.bytes;
          spends = true;
          steady = true;
        }) }
        ensures pass { IfOk result (λ made. pass_home made.1 ≡ memory_id made.0) }
        ensures numbers { IfOk result (λ made. (t : ℕ) → pass_numbers made.1 t ≡ nat_lt t size.now.threads) }
        ensures seen { IfOk result (λ made. pass_seen made.1 ≡ []) }
    {
        VersionMemory::with_spare(alloc, image, size, size.threads(), 0)
    }

    /// A memory on which threads may start others: of the machine's threads the first begin by themselves, and each of these may
    /// start so many more, which are all of them together. Its bytes at first are these, as many as the machine has; and with it
    /// the pass that holds the numbers of all threads.
    ///
    /// # Errors
    ///
    /// `AllocError` is want of memory.
    pub fn with_spare(
        alloc: Global,
        image: &Image,
        size: &MachineSize,
        first: u32,
        spare: u32,
    ) -> Result<(VersionMemory, VersionPass), AllocError>
        requires bytes { length image.now.bytes ≡ size.now.mem }
        requires some { 1 ≤ first }
        requires all { first * (1 + spare) ≡ size.now.threads }
        ensures origin { IfOk result (λ made. memory_origin made.0 ≡ record {
          size = size.now;
          first = first;
          spare = spare;
          bytes = image.now.bytes;
          spends = true;
          steady = true;
        }) }
        ensures pass { IfOk result (λ made. pass_home made.1 ≡ memory_id made.0) }
        ensures numbers { IfOk result (λ made. (t : ℕ) → pass_numbers made.1 t ≡ nat_lt t size.now.threads) }
        ensures seen { IfOk result (λ made. pass_seen made.1 ≡ []) }
    {
        let (threads, mem, limit) = (size.threads(), size.mem(), size.limit());
        prove!(mem % 8 == 0);
        prove!(limit <= 1 << 62);
        let (tags, starts) = (1 + size.classes() as usize, (threads - first) as usize);
        let words = initial_words(alloc, image.bytes(), tags, starts)?;
        let plan = Plan {
            size: *size,
            first,
            spare,
            image: Snapshot::of(image),
        };
        let (table, seat) = VersionTable::of_words(alloc, words.as_slice(), &plan)?;
        let memory = VersionMemory {
            table,
            size: *size,
            first,
            spare,
        };
        let pass = VersionPass {
            seat,
            has: first_marks(threads),
            number: 0,
            reserved: None,
            pauses: 0,
            started: 0,
        };
        Ok((memory, pass))
    }
}
