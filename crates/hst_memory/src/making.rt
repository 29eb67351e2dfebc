//! A memory is made.
ghost use Rattle.std.specs.Prelude.{◌≡◌, ◌+◌, ◌%◌, ◌*◌, ◌<◌, ℕ, [], false, IfOk, length, nat_lt};
ghost use Rattle.hst_memory.specs.Memory.{memory_id, memory_origin, pass_home, pass_numbers, pass_seen};

use crate::memory::HstMemory;
use crate::passes::HstPass;
use crate::plans::HstTable;
use llsc_base::{Image, MachineSize};
use shared_memory::{Plan, first_marks, initial_words};
use std::alloc::{AllocError, Global};
use std::snapshot::Snapshot;

impl HstMemory {
    /// A memory of these bytes at first, as many as the machine has, with the pass that holds the numbers of all its threads.
    ///
    /// # Errors
    ///
    /// `AllocError` is want of memory.
    pub fn new(
        alloc: Global,
        image: &Image,
        size: &MachineSize,
    ) -> Result<(HstMemory, HstPass), AllocError>
        requires { length image.now.bytes ≡ size.now.mem }
        ensures origin { IfOk result (λ made. memory_origin made.0 ≡ record {
          size = size.now;
          first = size.now.threads;
          spare = 0;
          bytes = image.now.bytes;
          spends = false;
          steady = false;
        }) }
        ensures pass { IfOk result (λ made. pass_home made.1 ≡ memory_id made.0) }
        ensures numbers { IfOk result (λ made. (t : ℕ) → pass_numbers made.1 t ≡ nat_lt t size.now.threads) }
        ensures seen { IfOk result (λ made. pass_seen made.1 ≡ []) }
    {
        let (threads, mem) = (size.threads(), size.mem());
        prove!(mem % 8 == 0);
        let words = initial_words(alloc, image.bytes(), 1 + size.classes() as usize, 0)?;
        let plan = Plan {
            size: *size,
            first: threads,
            spare: 0,
            image: Snapshot::of(image),
        };
        let (table, seat) = HstTable::of_words(alloc, words.as_slice(), &plan)?;
        let memory = HstMemory { table, size: *size };
        let pass = HstPass {
            seat,
            has: first_marks(threads),
            number: 0,
            reserved: None,
        };
        Ok((memory, pass))
    }
}
