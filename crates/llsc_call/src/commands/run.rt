//! `run`: all threads of a program, beside each other.
ghost use Rattle.std.specs.Prelude.{ℕ, ◌≡◌, ◌≤◌, ◌+◌, ◌*◌, None, length, IfErr, IfOk, OnOk};
ghost use Rattle.llsc_base.specs.Limits.{most_budget};
ghost use Rattle.version_memory.specs.Memory.{story_history};
ghost use Rattle.llsc_words.specs.Request.{size_of_run};
ghost use Rattle.llsc_files.specs.Programs.{program_refusal_as, IsLoadedAs};
ghost use Rattle.llsc_files.specs.Refusals.{most_program, too_long, IsRefusal};
ghost use Rattle.llsc_call.specs.Beside.{HaveRunFrom};
ghost use Rattle.llsc_call.specs.Run.{AnswersRun, ReportsRun};
ghost use Rattle.llsc_call.specs.inner.Outcome.{GivesBy};

use crate::answer::Answer;
use crate::beside::{ClosedRun, run_beside, run_family_beside};
use crate::outcome::Outcome;
use a32_step::Cpu;
use llsc_base::{Image, MachineSize};
use llsc_files::{Loaded, Refusal, load_as};
use llsc_words::{Format, RunNumbers, SetName};
use rv32_guest::RvCpu;
use std::alloc::{AllocError, Global};
use std::sync::Wait;
use std::thread::Threads;
use version_memory::VersionStory;

/// Runs an image's threads on a memory of its own: the first, and those that they start where they may.
///
/// # Errors
///
/// `AllocError` is want of memory.
fn run_threads<R: Threads + Wait + Sync>(
    rt: &R,
    alloc: Global,
    size: &MachineSize,
    image: &Image,
    first: u32,
    spare: u32,
    budget: u64,
) -> Result<ClosedRun<VersionStory>, AllocError>
    requires whole { length image.now.bytes ≡ size.now.mem }
    requires some { 1 ≤ first }
    requires all { first * (1 + spare) ≡ size.now.threads }
    requires budget { budget ≤ most_budget }
    ensures { IfOk result (λ done. HaveRunFrom image.now size.now first spare budget (story_history done.story) done.ends.items done.rows) }
{
    if spare == 0 {
        return run_beside::<Cpu, R>(rt, alloc, size, image, budget);
    }
    run_family_beside(rt, alloc, size, image, first, spare, budget)
}

/// Runs an image's threads, and those that they start.
fn run<R: Threads + Wait + Sync>(
    rt: &R,
    alloc: Global,
    size: &MachineSize,
    image: &Image,
    first: u32,
    spare: u32,
    budget: u64,
) -> Answer
    requires whole { length image.now.bytes ≡ size.now.mem }
    requires some { 1 ≤ first }
    requires all { first * (1 + spare) ≡ size.now.threads }
    requires budget { budget ≤ most_budget }
    ensures { GivesBy (λ story. ReportsRun SetName.A32 story image.now size.now first spare budget) result.outcome result.story }
{
    let Ok(done) = run_threads(rt, alloc, size, image, first, spare, budget) else {
        return Answer::from(Outcome::NoMemory);
    };
    Answer::of_threads(budget, done)
}

/// Runs an image's threads of RISC-V instructions, all of which begin by themselves.
fn run_rv<R: Threads + Wait + Sync>(
    rt: &R,
    alloc: Global,
    size: &MachineSize,
    image: &Image,
    budget: u64,
) -> Answer
    requires whole { length image.now.bytes ≡ size.now.mem }
    requires budget { budget ≤ most_budget }
    ensures { (first spare : ℕ) → GivesBy (λ story. ReportsRun SetName.Rv32 story image.now size.now first spare budget) result.outcome result.story }
{
    let Ok(done) = run_beside::<RvCpu, R>(rt, alloc, size, image, budget) else {
        return Answer::from(Outcome::NoMemory);
    };
    Answer::of_threads(budget, done)
}

/// Runs an image's threads of instructions of that set, and those that they start.
fn run_of<R: Threads + Wait + Sync>(
    rt: &R,
    alloc: Global,
    set: SetName,
    size: &MachineSize,
    image: &Image,
    first: u32,
    spare: u32,
    budget: u64,
) -> Answer
    requires whole { length image.now.bytes ≡ size.now.mem }
    requires some { 1 ≤ first }
    requires all { first * (1 + spare) ≡ size.now.threads }
    requires budget { budget ≤ most_budget }
    ensures { GivesBy (λ story. ReportsRun set story image.now size.now first spare budget) result.outcome result.story }
{
    match set {
        SetName::A32 => run(rt, alloc, size, image, first, spare, budget),
        SetName::Rv32 => run_rv(rt, alloc, size, image, budget),
    }
}

/// The machine of a run, and the image of a program's file on it.
///
/// # Errors
///
/// The refusal by what stands against the file, first.
fn load_run(
    alloc: Global,
    set: SetName,
    format: Format,
    numbers: RunNumbers,
    file: Vec<u8>,
) -> Result<Loaded, Refusal>
    requires short { too_long most_program file.items ≡ None }
    ensures loaded { IfOk result (IsLoadedAs set format (size_of_run numbers) file.items) }
    ensures few { OnOk result ((1 ≤ numbers.machine.threads) × (numbers.machine.threads ≤ 16) × (numbers.spare ≤ 16)) }
    ensures refused { IfErr result (IsRefusal (program_refusal_as set format (size_of_run numbers) file.items)) }
{
    load_as(alloc, numbers.whole_machine(), set, format, file)
}

/// Runs a file as the threads of a machine of these numbers, and those that they start.
pub fn answer<R: Threads + Wait + Sync>(
    rt: &R,
    alloc: Global,
    set: SetName,
    format: Format,
    numbers: RunNumbers,
    file: Vec<u8>,
) -> Answer
    requires budget { numbers.budget ≤ most_budget }
    requires short { too_long most_program file.items ≡ None }
    ensures { GivesBy (AnswersRun set format numbers.machine.threads numbers.spare (size_of_run numbers) numbers.budget file.items) result.outcome result.story }
{
    match load_run(alloc, set, format, numbers, file) {
        Ok(loaded) => {
            let first = numbers.machine.threads as u32;
            let spare = numbers.spare as u32;
            run_of(
                rt,
                alloc,
                set,
                &loaded.size,
                &loaded.image,
                first,
                spare,
                numbers.budget,
            )
        }
        Err(refusal) => Answer::from(Outcome::from(refusal)),
    }
}
