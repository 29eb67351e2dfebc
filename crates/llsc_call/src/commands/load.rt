//! `load`: the counter guest of a seed, whose threads run beside each other.
ghost use Rattle.std.specs.Prelude.{◌≡◌, ◌<◌, ◌≤◌, IfErr, IfOk, List, None, Some, codes, length};
ghost use Rattle.llsc_base.specs.Limits.{most_budget};
ghost use Rattle.llsc_base.specs.Sizes.{room_of};
ghost use Rattle.elf32.specs.Units.{IsWithin, end_of, unit_image};
ghost use Rattle.guest_gen.specs.Counters.{counter_unit};
ghost use Rattle.history.specs.declared.entry.Entry.{Entry};
ghost use Rattle.llsc_files.specs.Refusals.{IsRefusal};
ghost use Rattle.a32_step.specs.Machine.{a32};
ghost use Rattle.llsc_call.specs.Beside.{HaveRun};
ghost use Rattle.llsc_call.specs.Load.{AnswersLoad, TellsLoad, guest_refusal, load_program, load_refusal, load_size};
ghost use Rattle.llsc_call.specs.inner.Load.{IsPrepared};
ghost use Rattle.llsc_call.specs.inner.Outcome.{GivesBy, IsOneAnswer};

use crate::answer::Answer;
use crate::beside::run_beside;
use crate::outcome::Outcome;
use a32_step::Cpu;
use elf32::{Unit, write};
use guest_gen::{GenFault, counters};
use guest_thread::GuestEnd;
use llsc_base::{Image, MachineSize};
use llsc_files::{LEAST_GRANULE, Loaded, Refusal, machine, numbers_of, refuse};
use llsc_report::have_left;
use llsc_words::{DEFAULT_MEM, LoadNumbers};
use shared_memory::Rows;
use std::alloc::{AllocError, Global};
use std::sync::Wait;
use std::thread::Threads;

/// The image of a program that has a word and ends within a machine's room.
///
/// # Errors
///
/// `AllocError` is want of memory.
fn image_of(alloc: Global, unit: &Unit, size: &MachineSize) -> Result<Image, AllocError>
    requires within { IsWithin unit.now }
    requires some { 0 < length unit.now.words }
    requires ends { end_of unit.now ≤ room_of size.now }
    ensures { IfOk result (λ image. image ≡ unit_image unit.now size.now) }
{
    let file = write(alloc, unit)?;
    elf32::load(alloc, file.as_slice(), size).map_err(|_| AllocError)
}

/// The refusal of a guest that there isn't.
fn refuse_guest(alloc: Global, fault: GenFault) -> Refusal
    ensures named { IsRefusal (Some (codes "Range")) result }
    ensures memory { fault ≡ GenFault.Memory → result ≡ Refusal.Memory }
{
    match fault {
        GenFault::Range => refuse(alloc, fault.name()),
        GenFault::Memory => Refusal::Memory,
    }
}

/// The guest of a load.
///
/// # Errors
///
/// The refusal of numbers that no guest has.
fn unit(alloc: Global, numbers: &LoadNumbers) -> Result<Unit, Refusal>
    ensures unit { IfOk result (λ unit. unit ≡ counter_unit numbers.now.seed numbers.now.rounds) }
    ensures within { IfOk result IsWithin }
    ensures sound { IfOk result (λ unit. guest_refusal numbers.now.threads numbers.now.rounds ≡ None) }
    ensures refused { IfErr result (IsRefusal (guest_refusal numbers.now.threads numbers.now.rounds)) }
{
    match counters(alloc, numbers.seed, numbers.threads, numbers.rounds) {
        Ok(unit) => Ok(unit),
        Err(fault) => Err(refuse_guest(alloc, fault)),
    }
}

/// The machine of a load, and the image of its guest on it.
///
/// # Errors
///
/// The refusal by what stands against the load, first.
fn prepare(alloc: Global, numbers: &LoadNumbers) -> Result<Loaded, Refusal>
    ensures loaded { IfOk result (IsPrepared numbers.now.seed numbers.now.threads numbers.now.rounds) }
    ensures refused { IfErr result (IsRefusal (load_refusal numbers.now.threads numbers.now.rounds)) }
{
    let machine_numbers = numbers_of(DEFAULT_MEM, numbers.threads, LEAST_GRANULE);
    let size = machine(alloc, machine_numbers)?;
    let unit = unit(alloc, numbers)?;
    let Ok(image) = image_of(alloc, &unit, &size) else {
        return Err(Refusal::Memory);
    };
    Ok(Loaded { size, image })
}

/// What threads that ran come to: what they counted where each left by an exit call with code 0, and else their ends.
fn outcome_of(numbers: LoadNumbers, ends: Vec<GuestEnd>, rows: Rows) -> Outcome
    requires { guest_refusal numbers.threads numbers.rounds ≡ None }
    ensures { (history : List Entry) → HaveRun a32 (load_program numbers.seed numbers.threads numbers.rounds) (load_size numbers.threads) numbers.budget history ends.items rows
        → IsOneAnswer (TellsLoad (Some history) numbers.seed numbers.threads numbers.rounds numbers.budget) result }
{
    if !have_left(ends.as_slice()) {
        return Outcome::Beside {
            budget: numbers.budget,
            ends,
        };
    }
    Outcome::Counted { numbers, rows }
}

/// Runs the counter guest of these numbers.
pub fn answer<R: Threads + Wait + Sync>(rt: &R, alloc: Global, numbers: LoadNumbers) -> Answer
    requires { numbers.budget ≤ most_budget }
    ensures { GivesBy (AnswersLoad numbers.seed numbers.threads numbers.rounds numbers.budget) result.outcome result.story }
{
    let loaded = match prepare(alloc, &numbers) {
        Ok(loaded) => loaded,
        Err(refusal) => return Answer::from(Outcome::from(refusal)),
    };
    let Ok(done) = run_beside::<Cpu, R>(rt, alloc, &loaded.size, &loaded.image, numbers.budget)
    else {
        return Answer::from(Outcome::NoMemory);
    };
    Answer {
        outcome: outcome_of(numbers, done.ends, done.rows),
        story: Some(done.story),
    }
}
