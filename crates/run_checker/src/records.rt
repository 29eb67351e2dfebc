//! The verdict on a record.
ghost use Rattle.std.specs.Prelude.{◌≡◌, ◌≤◌, [], List, All, IfOk, length};
ghost use Rattle.llsc_base.specs.Limits.{most_budget};
ghost use Rattle.llsc_base.specs.Sizes.{Numbers};
ghost use Rattle.run_record.specs.Limits.{IsAccess, IsRecord, most_accesses};
ghost use Rattle.run_checker.specs.Verdict.{Judges};
ghost use Rattle.run_checker.specs.Sighted.{AreSighted};
ghost use Rattle.run_checker.specs.declared.sightings.Sighting.{Sighting as SightingSpec};
ghost use Rattle.run_checker.specs.inner.Positions.{AreBrought, MayGoOn};

use crate::checker::Checker;
use crate::sightings::{Nobody, Sightings, Watch};
use crate::verdicts::{Reason, Verdict};
use guest_core::Core;
use history::Access;
use llsc_base::{Image, MachineSize};
use run_record::RunRecord;
use std::alloc::{AllocError, Global};

/// Whether a recorded run of an image's threads is one, and where it is wrong.
///
/// The threads of the image run again, each up to its next access, and each access of the record is compared with what
/// its thread asks and made in memory. The cost is that of the run. `size` has the record's threads and its granule, its
/// memory is as long as the image's, and the record is within its limits.
///
/// # Errors
///
/// `AllocError` is want of memory.
pub fn check_record<C: Core>(
    alloc: Global,
    image: &Image,
    size: &MachineSize,
    run: &RunRecord,
) -> Result<Verdict, AllocError>
    requires whole { length image.now.bytes ≡ size.now.mem }
    requires threads { run.now.threads ≡ size.now.threads }
    requires granule { run.now.granule ≡ size.now.granule }
    requires limits { IsRecord run.now }
    ensures { IfOk result (λ verdict. Judges C.set image.now size.now run.now.budget run.now.accesses verdict) }
{
    let checker = Checker::<C>::new(alloc, image, size)?;
    let accesses = run.accesses.as_slice();
    verdict_of(checker, image, run.budget, accesses, &mut Nobody)
}

/// Checks a record as [`check_record`] does, and gives besides where each access of a good one stands.
///
/// # Errors
///
/// `AllocError` is want of memory.
pub fn sight_record<C: Core>(
    alloc: Global,
    image: &Image,
    size: &MachineSize,
    run: &RunRecord,
) -> Result<(Verdict, Sightings), AllocError>
    requires whole { length image.now.bytes ≡ size.now.mem }
    requires threads { run.now.threads ≡ size.now.threads }
    requires granule { run.now.granule ≡ size.now.granule }
    requires limits { IsRecord run.now }
    ensures verdict { IfOk result (λ sighted. Judges C.set image.now size.now run.now.budget run.now.accesses sighted.0) }
    ensures sighted { IfOk result (λ sighted. sighted.0 ≡ Verdict.Good → AreSighted C.set image.now size.now run.now.budget run.now.accesses sighted.1) }
{
    let accesses = run.accesses.as_slice();
    let mut sightings = Sightings::new(alloc, accesses.len())?;
    let checker = Checker::<C>::new(alloc, image, size)?;
    let verdict = verdict_of(checker, image, run.budget, accesses, &mut sightings)?;
    Ok((verdict, sightings))
}

/// The verdict on accesses, by threads and memory at their start. Each access that is right is told, one after another.
///
/// # Errors
///
/// `AllocError` where the one who is told has no memory for it.
fn verdict_of<C: Core, W: Watch>(
    mut checker: Checker<C>,
    image: &Image,
    budget: u64,
    accesses: &[Access],
    watch: &mut W,
) -> Result<Verdict, AllocError>
    requires ready { MayGoOn C.machine (length image.now.bytes) budget checker }
    requires budget { budget ≤ most_budget }
    requires few { length accesses.now ≤ most_accesses }
    requires accesses { All (IsAccess (length checker.memory.marks)) accesses.now }
    ensures verdict { IfOk result (λ verdict. (size : Numbers) → size.threads ≡ length checker.guests.items → AreBrought C.set C.machine image.now size budget [] checker
        → Judges C.set image.now size budget accesses.now verdict) }
    ensures told { IfOk result (λ verdict. verdict ≡ Verdict.Good → W.told watch.old []
        → (sightings : List SightingSpec) × ((size : Numbers) → AreBrought C.set C.machine image.now size budget [] checker → AreSighted C.set image.now size budget accesses.now sightings) × W.told watch.new sightings) }
{
    let mut rest = accesses;
    let mut index = 0;
    while let Some((access, after)) = rest.split_first() {
        let sighting = match checker.step(image, budget, *access) {
            Ok(sighting) => sighting,
            Err(reason) => return Ok(Verdict::Bad { index, reason }),
        };
        watch.see(sighting)?;
        index += 1;
        rest = after;
    }
    if checker.asks(image, budget) {
        return Ok(Verdict::Bad {
            index,
            reason: Reason::Unfinished,
        });
    }
    Ok(Verdict::Good)
}
