//! `trace`: a run of all threads in an order that a number fixes, as a record.
ghost use Rattle.std.specs.Prelude.{◌≡◌, ◌≤◌, None, Some, codes, length};
ghost use Rattle.llsc_base.specs.Limits.{most_budget};
ghost use Rattle.llsc_files.specs.Refusals.{most_program, too_long, IsRefusal};
ghost use Rattle.llsc_call.specs.Trace.{AnswersTrace, Traces};
ghost use Rattle.llsc_call.specs.inner.Outcome.{Gives};

use crate::outcome::Outcome;
use a32_step::Remembering;
use guest_machine::{TraceFault, Traced, trace};
use llsc_base::{Image, MachineSize};
use llsc_files::{Refusal, load, numbers_of, refuse};
use llsc_words::{Format, TraceNumbers};
use run_record::print_record;
use std::alloc::Global;

/// The refusal of a trace that there isn't.
fn refuse_trace(alloc: Global, fault: TraceFault) -> Refusal
    ensures named { IsRefusal (Some (codes "TooLong")) result }
    ensures memory { fault ≡ TraceFault.Memory → result ≡ Refusal.Memory }
{
    match fault {
        TraceFault::TooLong => refuse(alloc, fault.name()),
        TraceFault::Memory => Refusal::Memory,
    }
}

/// Runs an image, and prints the record.
fn run(alloc: Global, size: &MachineSize, image: &Image, seed: u64, budget: u64) -> Outcome
    requires whole { length image.now.bytes ≡ size.now.mem }
    requires some { 1 ≤ budget }
    requires budget { budget ≤ most_budget }
    ensures { Gives (Traces image.now size.now seed budget) result }
{
    let Traced { run, ends } = match trace::<Remembering>(alloc, image, size, seed, budget) {
        Ok(traced) => traced,
        Err(fault) => return Outcome::from(refuse_trace(alloc, fault)),
    };
    match print_record(alloc, &run) {
        Ok(text) => Outcome::Recorded { text, ends },
        Err(_) => Outcome::NoMemory,
    }
}

/// Traces a file by these numbers.
pub fn outcome(alloc: Global, format: Format, numbers: TraceNumbers, file: Vec<u8>) -> Outcome
    requires some { 1 ≤ numbers.budget }
    requires budget { numbers.budget ≤ most_budget }
    requires short { too_long most_program file.items ≡ None }
    ensures { Gives (AnswersTrace format numbers.threads numbers.mem numbers.granule numbers.seed numbers.budget file.items) result }
{
    let machine = numbers_of(numbers.mem, numbers.threads, numbers.granule);
    match load(alloc, machine, format, file) {
        Ok(loaded) => run(
            alloc,
            &loaded.size,
            &loaded.image,
            numbers.seed,
            numbers.budget,
        ),
        Err(refusal) => Outcome::from(refusal),
    }
}
