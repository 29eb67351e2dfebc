//! `solo`: a run of one thread.
ghost use Rattle.std.specs.Prelude.{◌≡◌, ◌≤◌, None, length};
ghost use Rattle.llsc_base.specs.Limits.{most_budget};
ghost use Rattle.llsc_files.specs.Refusals.{most_program, too_long};
ghost use Rattle.llsc_call.specs.Answer.{AnswersSolo, IsReported};
ghost use Rattle.llsc_call.specs.inner.Outcome.{Gives};

use crate::outcome::Outcome;
use a32_step::Cpu;
use guest_machine::solo;
use llsc_base::{Image, MachineSize};
use llsc_files::{LEAST_GRANULE, load, numbers_of};
use llsc_words::Format;
use std::alloc::Global;

/// Runs an image as one thread. The loop of the thread stands in a function of its own, so that it has all registers.
#[inline(never)]
fn run(alloc: Global, size: &MachineSize, image: &Image, budget: u64) -> Outcome
    requires one_thread { size.now.threads ≡ 1 }
    requires budget { budget ≤ most_budget }
    requires whole { length image.now.bytes ≡ size.now.mem }
    ensures { Gives (IsReported image.now size.now budget) result }
{
    match solo::<Cpu>(alloc, image, size, budget) {
        Ok(end) => Outcome::Alone { budget, end },
        Err(_) => Outcome::NoMemory,
    }
}

/// Runs a file on a machine of one thread with so much memory.
pub fn outcome(alloc: Global, format: Format, mem: u64, budget: u64, file: Vec<u8>) -> Outcome
    requires budget { budget ≤ most_budget }
    requires short { too_long most_program file.items ≡ None }
    ensures { Gives (AnswersSolo format mem budget file.items) result }
{
    let numbers = numbers_of(mem, 1, LEAST_GRANULE);
    match load(alloc, numbers, format, file) {
        Ok(loaded) => run(alloc, &loaded.size, &loaded.image, budget),
        Err(refusal) => Outcome::from(refusal),
    }
}
