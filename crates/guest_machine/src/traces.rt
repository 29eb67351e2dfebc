//! A trace: the run of all threads in the order that a number fixes.
ghost use Rattle.std.specs.Prelude.{◌≡◌, ◌⊎◌, ◌<◌, ◌≤◌, IfErr, IfOk, length};
ghost use Rattle.guest_machine.specs.Traces.{IsLegalTrace, IsTraceRecord, trace_fault_name};
ghost use Rattle.llsc_base.specs.Limits.{most_budget};
ghost use Rattle.history.specs.Accesses.{history_of};
ghost use Rattle.guest_thread.specs.Ends.{AreEnds};
ghost use Rattle.guest_machine.specs.Turns.{IsTooLong};

use crate::ends::ends_of;
use crate::turns::{Plan, Turns};
use guest_core::Core;
use guest_thread::GuestEnd;
use llsc_base::{Image, MachineSize};
use run_record::{Accesses, RunRecord};
use std::alloc::Global;
use thiserror::Error;

/// A trace: its record, and the end of each thread, in order of number.
#[derive(Drop)]
pub struct Traced {
    pub run: RunRecord,
    pub ends: Vec<GuestEnd>,
}

/// Why there is no trace.
#[derive(Clone, Copy, Debug, PartialEq, Eq, Error)]
pub enum TraceFault {
    /// The run has more accesses than a record may have, which is 1,000,000.
    #[error("the run has more than 1000000 accesses")]
    TooLong,
    /// Want of memory.
    #[error("out of memory")]
    Memory,
}

impl TraceFault {
    /// The variant's name.
    pub fn name(&self) -> &str
        ensures { result.now ≡ trace_fault_name self.now }
    {
        match self {
            TraceFault::TooLong => "TooLong",
            TraceFault::Memory => "Memory",
        }
    }
}

/// Runs an image's guest threads on one host thread and one memory, which begins as the image's bytes.
///
/// The threads take turns. A number begins as `seed`, and each turn makes `x * 6364136223846793005 + 1442695040888963407`
/// of it, modulo 2 to the 64. Of the R threads that have not stopped, in order of number, the turn is that of the one at
/// the place `x / 2^33` modulo R. It goes on until it has made one access or has stopped. Each thread has `budget` steps,
/// which is 1 to 1,000,000,000,000. A store-exclusive fails just where its thread isn't marked on the row.
///
/// # Errors
///
/// [`TraceFault::TooLong`] only where the run has more than 1,000,000 accesses, and [`TraceFault::Memory`] is want of
/// memory. Such a run has no trace: it is answered by one of the two.
pub fn trace<C: Core>(
    alloc: Global,
    image: &Image,
    size: &MachineSize,
    seed: u64,
    budget: u64,
) -> Result<Traced, TraceFault>
    requires whole { length image.now.bytes ≡ size.now.mem }
    requires some { 1 ≤ budget }
    requires budget { budget ≤ most_budget }
    ensures run { IfOk result (λ traced. IsTraceRecord C.set image.now size.now seed budget traced.run) }
    ensures ends { IfOk result (λ traced. AreEnds C.set image.now size.now budget (history_of traced.run.accesses) traced.ends.items) }
    ensures legal { IfOk result (λ traced. IsLegalTrace image.now size.now traced.run.accesses) }
    ensures fault { IfErr result (λ fault. ((fault ≡ TraceFault.TooLong) × IsTooLong C.set image.now size.now seed budget)
        ⊎ (fault ≡ TraceFault.Memory)) }
{
    let threads = size.threads();
    let plan = Plan {
        image,
        size,
        seed,
        budget,
    };
    let Ok(mut turns) = Turns::<C>::new(alloc, &plan) else {
        return Err(TraceFault::Memory);
    };
    turns.run(&plan)?;
    let Ok(ends) = ends_of(alloc, turns.seats, &turns.accesses) else {
        return Err(TraceFault::Memory);
    };
    let run = RunRecord {
        threads,
        budget,
        granule: size.granule(),
        accesses: Accesses::new(turns.accesses),
    };
    Ok(Traced { run, ends })
}
