//! The commands: what each answers to the bytes of its files, without a host.
ghost use Rattle.std.specs.Prelude.{◌≡◌, None, IfErr, OnOk};
ghost use Rattle.std.specs.Option.{option_and_then, option_map};
ghost use Rattle.llsc_words.specs.Request.{asked, machine_by, HasBudget};
ghost use Rattle.llsc_files.specs.Refusals.{size_refusal, IsRefusal};
ghost use Rattle.llsc_call.specs.Answer.{Answers};
ghost use Rattle.llsc_call.specs.inner.Files.{barred, files_by, AreShort};
ghost use Rattle.llsc_call.specs.inner.Outcome.{GivesBy};

mod asm;
mod check;
mod dis;
mod explain;
mod load;
mod pool;
mod record_files;
mod recording;
mod run;
mod solo;
mod trace;

use crate::answer::Answer;
use crate::files::Files;
use llsc_files::{LEAST_GRANULE, Refusal, machine, numbers_of};
use llsc_words::{MachineNumbers, Request};
use std::alloc::Global;
use std::sync::Wait;
use std::thread::Threads;

/// The numbers of the machine that a request names, or of one that is refused as that is; a request for a text or a record names
/// none.
fn machine_named(request: Request<'_>) -> Option<MachineNumbers>
    ensures { option_and_then size_refusal (option_map machine_by result) ≡ barred (asked request.entry) }
{
    match request {
        Request::Solo { mem, .. } | Request::Disassemble { mem, .. } => {
            Some(numbers_of(mem, 1, LEAST_GRANULE))
        }
        Request::Run { numbers, .. } => Some(numbers.whole_machine()),
        Request::Pool { numbers, .. } => Some(numbers.machine),
        Request::Record { numbers, .. } => Some(numbers.machine),
        Request::Trace { numbers, .. } => {
            Some(numbers_of(numbers.mem, numbers.threads, numbers.granule))
        }
        Request::Assemble { .. }
        | Request::Check { .. }
        | Request::Explain { .. }
        | Request::Load { .. } => None,
    }
}

/// Nothing, where no machine that a request names stands against it before its files are read.
///
/// # Errors
///
/// The refusal by the first number of that machine that is out of its range.
pub fn admit(alloc: Global, request: Request<'_>) -> Result<(), Refusal>
    ensures admitted { OnOk result (barred (asked request.entry) ≡ None) }
    ensures refused { IfErr result (IsRefusal (barred (asked request.entry))) }
{
    let Some(numbers) = machine_named(request) else {
        return Ok(());
    };
    match machine(alloc, numbers) {
        Ok(_) => Ok(()),
        Err(refusal) => Err(refusal),
    }
}

/// Answers a request by the bytes of its files, none of which is too long.
pub fn answer<R: Threads + Wait + Sync>(
    rt: &R,
    alloc: Global,
    request: Request<'_>,
    files: Files,
) -> Answer
    requires budget { HasBudget request }
    requires short { AreShort (asked request) files }
    ensures { GivesBy (Answers (asked request.entry) (files_by (asked request.entry) files)) result.outcome result.story }
{
    let Files { first, second } = files;
    match request {
        Request::Solo {
            format,
            mem,
            budget,
            ..
        } => Answer::from(solo::outcome(alloc, format, mem, budget, first)),
        Request::Run {
            format,
            set,
            numbers,
            ..
        } => run::answer(rt, alloc, set, format, numbers, first),
        Request::Pool {
            format,
            numbers,
            ..
        } => pool::answer(rt, alloc, format, numbers, first),
        Request::Record {
            format,
            numbers,
            ..
        } => recording::answer(rt, alloc, format, numbers, first),
        Request::Assemble { format, .. } => Answer::from(asm::outcome(alloc, format, first)),
        Request::Disassemble { format, mem, .. } => {
            Answer::from(dis::outcome(alloc, format, mem, first))
        }
        Request::Trace {
            format,
            numbers,
            ..
        } => Answer::from(trace::outcome(alloc, format, numbers, first)),
        Request::Check { format, mem, .. } => {
            Answer::from(check::outcome(alloc, format, mem, first, second))
        }
        Request::Explain { format, mem, .. } => {
            Answer::from(explain::outcome(alloc, format, mem, first, second))
        }
        Request::Load { numbers } => load::answer(rt, alloc, numbers),
    }
}
