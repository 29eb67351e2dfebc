//! `explain`: why store-exclusives of a record failed.
ghost use Rattle.std.specs.Prelude.{◌≡◌, None, length};
ghost use Rattle.run_record.specs.Limits.{IsRecord};
ghost use Rattle.llsc_files.specs.Refusals.{most_program, too_long};
ghost use Rattle.llsc_call.specs.Check.{most_record};
ghost use Rattle.llsc_call.specs.Explain.{AnswersExplain, IsExplained};
ghost use Rattle.llsc_call.specs.inner.Outcome.{Gives};

use crate::commands::check::judged;
use crate::commands::record_files::{RecordedRun, recorded_run};
use crate::outcome::Outcome;
use a32_step::Remembering;
use llsc_base::{Image, MachineSize};
use llsc_files::Loaded;
use llsc_words::Format;
use run_checker::{Verdict, sight_record};
use run_explainer::Explanation;
use run_record::RunRecord;
use std::alloc::Global;

/// Explains a record of an image's threads where it is good, and else says why it is bad.
fn explain(alloc: Global, size: &MachineSize, image: Image, run: RunRecord) -> Outcome
    requires whole { length image.bytes ≡ size.now.mem }
    requires threads { run.threads ≡ size.now.threads }
    requires granule { run.granule ≡ size.now.granule }
    requires record_ { IsRecord run }
    ensures { Gives (IsExplained image size.now run) result }
{
    let Ok((verdict, sightings)) = sight_record::<Remembering>(alloc, &image, size, &run) else {
        return Outcome::NoMemory;
    };
    if verdict != Verdict::Good {
        return judged(alloc, verdict);
    }
    match Explanation::new(alloc, image, size.mem(), run, sightings) {
        Ok(explanation) => Outcome::Explained(explanation),
        Err(_) => Outcome::NoMemory,
    }
}

/// Explains a record as a run of a file in so much memory.
pub fn outcome(alloc: Global, format: Format, mem: u64, file: Vec<u8>, recorded: Vec<u8>) -> Outcome
    requires short { too_long most_program file.items ≡ None }
    requires few { too_long most_record recorded.items ≡ None }
    ensures { Gives (AnswersExplain format mem file.items recorded.items) result }
{
    match recorded_run(alloc, format, mem, file, recorded) {
        Ok(RecordedRun { run, loaded }) => {
            let Loaded { size, image } = loaded;
            explain(alloc, &size, image, run)
        }
        Err(refusal) => Outcome::from(refusal),
    }
}
