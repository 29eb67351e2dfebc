//! A run of one thread.
ghost use Rattle.std.specs.Prelude.{◌≡◌, ◌≤◌, IfOk, length};
ghost use Rattle.llsc_base.specs.Limits.{most_budget};
ghost use Rattle.guest_machine.specs.Alone.{IsSoloEnd};

use crate::serving::serve;
use guest_calls::reply_of;
use guest_core::{Code, Core, Port, TryPort};
use guest_thread::{Counts, Guest, GuestEnd};
use history::PlainMemory;
use llsc_base::{Ask, Image, MachineSize};
use std::alloc::{AllocError, Global};

/// The memory that a thread has to itself, and how many accesses of each kind it made.
#[derive(Drop)]
pub(crate) struct Alone {
    memory: PlainMemory,
    counts: Counts,
    ghost one: { length memory.marks ≡ 1 },
}

impl TryPort for Alone {
    ghost use Rattle.guest_thread.specs.Counting.{accesses_counted};
    ghost use Rattle.guest_machine.specs.inner.Served.{RepliesAlone};

    ghost replies = { RepliesAlone };

    ghost mem = { λ alone. length alone.memory.memory };

    ghost counted = { λ alone. accesses_counted alone.counts };

    #[inline(always)]
    fn try_reply(&mut self, ask: Ask) -> Option<u64> {
        let access = serve(&mut self.memory, 0, ask);
        self.counts.count(&access);
        Some(reply_of(&access))
    }

    #[tactic(auto, using(crate::proofs::UnderWay::one_counted))]
    fn counts_one() {}
}

impl Port<()> for Alone {
    ghost refuses = { λ alone addr. ⊥ };

    // It makes each access at once.
    #[inline(always)]
    fn reply(&mut self, handle: &(), ask: Ask) -> Option<u64> {
        self.try_reply(ask)
    }
}

/// Runs an image's one thread on a memory of its own, which begins as the image's bytes.
///
/// It ends by a stop, by the exit call, or since it has made `budget` steps, which are at most 1,000,000,000,000. Each
/// load has the value of its place, and a store-exclusive fails just where the thread isn't marked on the row.
///
/// # Errors
///
/// `AllocError` is want of memory.
pub fn solo<C: Core>(
    alloc: Global,
    image: &Image,
    size: &MachineSize,
    budget: u64,
) -> Result<GuestEnd, AllocError>
    requires one_thread { size.now.threads ≡ 1 }
    requires whole { length image.now.bytes ≡ size.now.mem }
    requires budget { budget ≤ most_budget }
    ensures { IfOk result (λ end. IsSoloEnd C.set image.now size.now budget end) }
{
    let mem = size.mem();
    prove!(mem <= 16_777_216);
    let mut guest = Guest::<C>::start(alloc, image, size, 0)?;
    let mut alone = Alone {
        memory: PlainMemory::sized(alloc, image.bytes(), size)?,
        counts: Counts::none(),
    };
    let mut code = Code::new(alloc, image)?;
    let stop = guest.run(&(), &mut code, budget, &mut alone);
    Ok(GuestEnd {
        thread: 0,
        stop,
        steps: guest.steps(),
        reads: alone.counts.reads,
        writes: alone.counts.writes,
        fails: alone.counts.fails,
        out: guest.into_output(),
    })
}
