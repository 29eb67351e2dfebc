//! `record`: all threads of a program, beside each other, each of which records what it does.
ghost use Rattle.std.specs.Prelude.{◌≡◌, ◌≤◌, ℕ, [], All, IfOk, IfSome, Some, None, length, nat_lt, true};
ghost use Rattle.llsc_base.specs.Limits.{most_budget};
ghost use Rattle.run_record.specs.Limits.{IsAccess, most_accesses};
ghost use Rattle.run_record.specs.Text.{record_text};
ghost use Rattle.version_memory.specs.Memory.{memory_id, memory_origin, pass_home, pass_numbers, pass_seen};
ghost use Rattle.llsc_words.specs.Request.{machine_by};
ghost use Rattle.llsc_files.specs.Refusals.{most_program, too_long};
ghost use Rattle.llsc_call.specs.inner.Merged.{TellsOf};
ghost use Rattle.llsc_call.specs.Record.{AnswersRecord, RecordsRun, record_by};
ghost use Rattle.llsc_call.specs.inner.Outcome.{GivesBy};

use crate::answer::Answer;
use crate::outcome::Outcome;
use a32_step::Cpu;
use guest_thread::GuestEnd;
use history::Access;
use llsc_base::{Image, MachineSize};
use llsc_files::{Refusal, load, refuse};
use llsc_words::{Format, RecordNumbers};
use run_merge::{LogCrew, LoggedRun, MergeFault, log_all, log_crew, merge};
use run_record::{Accesses, RunRecord, print_record};
use shared_memory::SharedMemory;
use std::alloc::{AllocError, Global};
use std::sync::Wait;
use std::thread::Threads;
use version_memory::{VersionMemory, VersionPass};

/// The text of a record of these accesses, which are of a machine's threads.
///
/// # Errors
///
/// `AllocError` is want of memory.
fn print(
    alloc: Global,
    size: &MachineSize,
    budget: u64,
    merged: Vec<Access>,
) -> Result<Vec<u8>, AllocError>
    requires accesses { All (IsAccess size.now.threads) merged.items }
    requires few { length merged.items ≤ most_accesses }
    requires budget { (1 ≤ budget) × (budget ≤ most_budget) }
    ensures { IfOk result (λ text. text.items ≡ record_text (record_by size.now budget merged.items)) }
{
    let threads = size.threads();
    let granule = size.granule();
    prove!(threads >= 1 && threads <= 16);
    prove!(granule <= 8);
    let run = RunRecord {
        threads,
        budget,
        granule,
        accesses: Accesses::new(merged),
    };
    print_record(alloc, &run)
}

/// What is said of a merge, or of why there is none; nothing, where memory is wanting.
fn told(
    alloc: Global,
    size: &MachineSize,
    budget: u64,
    merged: Result<Vec<Access>, MergeFault>,
    ends: Vec<GuestEnd>,
) -> Option<Outcome>
    requires accesses { IfOk merged (λ all. All (IsAccess size.now.threads) all.items) }
    requires few { IfOk merged (λ all. length all.items ≤ most_accesses) }
    requires budget { (1 ≤ budget) × (budget ≤ most_budget) }
    ensures { IfSome result (TellsOf size.now budget ends.items merged) }
{
    match merged {
        Ok(merged) => {
            let text = print(alloc, size, budget, merged).ok()?;
            Some(Outcome::Recorded { text, ends })
        }
        Err(MergeFault::TooLong) => match refuse(alloc, MergeFault::TooLong.name()) {
            Refusal::Said(text) => Some(Outcome::Refused(text)),
            Refusal::Memory => None,
        },
        Err(MergeFault::Memory) => None,
    }
}

/// Runs an image's threads on a memory, with the pass of all of them, merges what they recorded, and closes the memory.
fn record_over<R: Threads + Wait + Sync>(
    rt: &R,
    alloc: Global,
    memory: VersionMemory,
    pass: VersionPass,
    image: &Image,
    budget: u64,
) -> Answer
    requires made { pass_home pass ≡ memory_id memory }
    requires all { (t : ℕ) → pass_numbers pass t ≡ nat_lt t (memory_origin memory).size.threads }
    requires none { pass_seen pass ≡ [] }
    requires first { (memory_origin memory).first ≡ (memory_origin memory).size.threads }
    requires spare { (memory_origin memory).spare ≡ 0 }
    requires bytes { (memory_origin memory).bytes ≡ image.now.bytes }
    requires spends { (memory_origin memory).spends ≡ true }
    requires steady { (memory_origin memory).steady ≡ true }
    requires whole { length image.now.bytes ≡ (memory_origin memory).size.mem }
    requires budget { (1 ≤ budget) × (budget ≤ most_budget) }
    ensures { GivesBy (λ story. RecordsRun story image.now (memory_origin memory).size budget) result.outcome result.story }
{
    let Ok(crew) = log_crew::<Cpu>(alloc, &memory, image, pass) else {
        return Answer::from(Outcome::NoMemory);
    };
    let most = memory.size().mem();
    prove!(most <= 16_777_216);
    let run = log_all(rt, &memory, image, crew, budget);
    let merged = merge(alloc, &run);
    let LoggedRun {
        size,
        pass,
        ends,
        ..
    } = run;
    let Some(outcome) = told(alloc, &size, budget, merged, ends) else {
        return Answer::from(Outcome::NoMemory);
    };
    let (_, story) = memory.close(pass);
    Answer {
        outcome,
        story: Some(story),
    }
}

/// Runs an image's threads on a machine, and records what they do.
fn record_run<R: Threads + Wait + Sync>(
    rt: &R,
    alloc: Global,
    size: &MachineSize,
    image: &Image,
    budget: u64,
) -> Answer
    requires whole { length image.now.bytes ≡ size.now.mem }
    requires budget { (1 ≤ budget) × (budget ≤ most_budget) }
    ensures { GivesBy (λ story. RecordsRun story image.now size.now budget) result.outcome result.story }
{
    let Ok((memory, pass)) = VersionMemory::new(alloc, image, size) else {
        return Answer::from(Outcome::NoMemory);
    };
    record_over(rt, alloc, memory, pass, image, budget)
}

/// Records the run of a file by these numbers.
pub fn answer<R: Threads + Wait + Sync>(
    rt: &R,
    alloc: Global,
    format: Format,
    numbers: RecordNumbers,
    file: Vec<u8>,
) -> Answer
    requires budget { (1 ≤ numbers.budget) × (numbers.budget ≤ most_budget) }
    requires short { too_long most_program file.items ≡ None }
    ensures { GivesBy (AnswersRecord format (machine_by numbers.machine) numbers.budget file.items) result.outcome result.story }
{
    match load(alloc, numbers.machine, format, file) {
        Ok(loaded) => record_run(rt, alloc, &loaded.size, &loaded.image, numbers.budget),
        Err(refusal) => Answer::from(Outcome::from(refusal)),
    }
}
