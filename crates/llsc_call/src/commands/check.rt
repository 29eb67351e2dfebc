//! `check`: whether a record is a run of its program.
ghost use Rattle.std.specs.Prelude.{◌≡◌, None, IfOk, length, string_bytes};
ghost use Rattle.run_record.specs.Limits.{IsRecord};
ghost use Rattle.llsc_files.specs.Refusals.{most_program, too_long};
ghost use Rattle.llsc_call.specs.Check.{most_record, verdict_status, verdict_text, AnswersCheck, IsJudged};
ghost use Rattle.llsc_call.specs.inner.Outcome.{Gives};

use crate::commands::record_files::{RecordedRun, recorded_run};
use crate::outcome::Outcome;
use a32_step::Remembering;
use llsc_base::{Image, MachineSize};
use llsc_words::Format;
use run_checker::{Verdict, check_record};
use run_record::RunRecord;
use std::alloc::{AllocError, Global};

/// The text of a verdict.
fn text_of(alloc: Global, verdict: Verdict) -> Result<String, AllocError>
    ensures { IfOk result (λ text. string_bytes text ≡ verdict_text verdict) }
{
    match verdict {
        Verdict::Good => String::from_str(alloc, "good\n"),
        Verdict::Bad { index, reason } => format!(in alloc; "bad {index} {}\n", reason.name()),
    }
}

/// A verdict on a record, as what a call comes to.
pub fn judged(alloc: Global, verdict: Verdict) -> Outcome
    ensures { Gives (λ status text. (status ≡ verdict_status verdict) × (text ≡ verdict_text verdict)) result }
{
    match text_of(alloc, verdict) {
        Ok(text) => Outcome::Judged { verdict, text },
        Err(_) => Outcome::NoMemory,
    }
}

/// Judges a record of an image's threads.
fn judge(alloc: Global, size: &MachineSize, image: &Image, run: &RunRecord) -> Outcome
    requires whole { length image.now.bytes ≡ size.now.mem }
    requires threads { run.now.threads ≡ size.now.threads }
    requires granule { run.now.granule ≡ size.now.granule }
    requires record_ { IsRecord run.now }
    ensures { Gives (IsJudged image.now size.now run.now) result }
{
    match check_record::<Remembering>(alloc, image, size, run) {
        Ok(verdict) => judged(alloc, verdict),
        Err(_) => Outcome::NoMemory,
    }
}

/// Checks a record as a run of a file in so much memory.
pub fn outcome(alloc: Global, format: Format, mem: u64, file: Vec<u8>, recorded: Vec<u8>) -> Outcome
    requires short { too_long most_program file.items ≡ None }
    requires few { too_long most_record recorded.items ≡ None }
    ensures { Gives (AnswersCheck format mem file.items recorded.items) result }
{
    match recorded_run(alloc, format, mem, file, recorded) {
        Ok(RecordedRun { run, loaded }) => judge(alloc, &loaded.size, &loaded.image, &run),
        Err(refusal) => Outcome::from(refusal),
    }
}
