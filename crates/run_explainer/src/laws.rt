//! Laws of reasons, each a function of no effect whose contract is the law.
ghost use Rattle.std.specs.Prelude.{◌≡◌, ◌∷◌, ◌++◌, ℕ, Bool, List};
ghost use Rattle.llsc_base.specs.Images.{Program};
ghost use Rattle.llsc_base.specs.Sizes.{Numbers};
ghost use Rattle.run_record.specs.declared.records.RunRecord.{RunRecord};
ghost use Rattle.run_explainer.specs.Marks.{AreOfGood, IsEndedBy, marked_behind, reserved_row};
ghost use Rattle.run_explainer.specs.Reasons.{why_of};
ghost use Rattle.run_explainer.specs.Reservations.{reservation_of};
ghost use Rattle.run_explainer.specs.declared.events.Event.{Event as EventSpec};
ghost use Rattle.run_explainer.specs.declared.reservations.Writes.{Writes as WritesSpec};

use crate::reasons::Why;
use guest_core::Core;
use history::Deed;
use run_checker::laws::good_records_are_legal;

/// In a good record each thread is marked just where its reservation still stands: on the row of its last load-exclusive, unless it
/// has ended the reservation itself since, or another thread has written the row.
pub fn reservations_are_marks<C: Core>()
    ensures { (program : Program) (size : Numbers) (run : RunRecord) (before after : List EventSpec) (thread : ℕ) →
        AreOfGood C.set program size run (before ++ after) →
        marked_behind program size thread before ≡ reserved_row size.granule (reservation_of size.granule thread before) }
{
    good_records_are_legal::<C>();
}

/// Where a store-exclusive of a good record is said to have failed to others' writes, its thread was marked on the row by the
/// load-exclusive that is told, and the first write that is told ended the mark.
pub fn told_writes_ended_the_mark<C: Core>()
    ensures { (program : Program) (size : Numbers) (run : RunRecord) (before after : List EventSpec) (failed load : EventSpec) (writes : WritesSpec) (came_back : Bool) →
        AreOfGood C.set program size run (before ++ failed ∷ after) →
        why_of size.granule before failed ≡ Why.Written load writes came_back →
        IsEndedBy program size failed.access.thread before load writes.first }
{
    good_records_are_legal::<C>();
}

/// A store-exclusive of a good record that succeeded has none of the reasons that name a cause: had it failed, nobody could be blamed.
pub fn successes_have_no_cause<C: Core>()
    ensures { (program : Program) (size : Numbers) (run : RunRecord) (before after : List EventSpec) (stored : EventSpec) →
        AreOfGood C.set program size run (before ++ stored ∷ after) → stored.access.deed ≡ Deed.StoreEx →
        (load : EventSpec) × (why_of size.granule before stored ≡ Why.Otherwise load) }
{
    good_records_are_legal::<C>();
}
