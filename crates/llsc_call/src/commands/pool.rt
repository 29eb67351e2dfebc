//! `pool`: all threads of a program, on few workers.
ghost use Rattle.std.specs.Prelude.{◌≡◌, ◌≤◌, None, length};
ghost use Rattle.llsc_base.specs.Limits.{most_budget};
ghost use Rattle.llsc_words.specs.Request.{machine_by};
ghost use Rattle.llsc_files.specs.Refusals.{most_program, too_long};
ghost use Rattle.llsc_call.specs.Run.{AnswersRun, ReportsRun};
ghost use Rattle.llsc_call.specs.inner.Outcome.{GivesBy};

use crate::answer::Answer;
use crate::beside::run_pool_beside;
use crate::outcome::Outcome;
use llsc_base::{Image, MachineSize};
use llsc_files::load;
use llsc_words::{Format, PoolNumbers, SetName};
use std::alloc::Global;
use std::sync::Wait;
use std::thread::Threads;

/// Runs an image's threads on so many workers, so many steps of a thread at a time.
fn run<R: Threads + Wait + Sync>(
    rt: &R,
    alloc: Global,
    size: &MachineSize,
    image: &Image,
    workers: u32,
    slice: u64,
    budget: u64,
) -> Answer
    requires whole { length image.now.bytes ≡ size.now.mem }
    requires workers { (1 ≤ workers) × (workers ≤ 4) }
    requires slice { 1 ≤ slice }
    requires budget { budget ≤ most_budget }
    ensures { GivesBy (λ story. ReportsRun SetName.A32 story image.now size.now size.now.threads 0 budget) result.outcome result.story }
{
    let Ok(done) = run_pool_beside(rt, alloc, size, image, workers, slice, budget) else {
        return Answer::from(Outcome::NoMemory);
    };
    Answer::of_threads(budget, done)
}

/// Runs a file as all threads of a machine, by these numbers of a pool.
pub fn answer<R: Threads + Wait + Sync>(
    rt: &R,
    alloc: Global,
    format: Format,
    numbers: PoolNumbers,
    file: Vec<u8>,
) -> Answer
    requires workers { (1 ≤ numbers.workers) × (numbers.workers ≤ 4) }
    requires slice { 1 ≤ numbers.slice }
    requires budget { numbers.budget ≤ most_budget }
    requires short { too_long most_program file.items ≡ None }
    ensures { GivesBy (AnswersRun SetName.A32 format numbers.machine.threads 0 (machine_by numbers.machine) numbers.budget file.items) result.outcome result.story }
{
    match load(alloc, numbers.machine, format, file) {
        Ok(loaded) => {
            let workers = numbers.workers as u32;
            run(
                rt,
                alloc,
                &loaded.size,
                &loaded.image,
                workers,
                numbers.slice,
                numbers.budget,
            )
        }
        Err(refusal) => Answer::from(Outcome::from(refusal)),
    }
}
