//! Worked verdicts on accesses of small programs.
ghost use Rattle.std.specs.Prelude.{◌∷◌, []};
ghost use Rattle.run_checker.specs.Verdict.{AreRight, IsRight, IsWrong, Judges};
ghost use Rattle.run_checker.specs.Worked.{access_as, word};
ghost use Rattle.a32_runs.specs.Verdicts.{leaving, loading, small_machine, storing, taking};
ghost use Rattle.a32_step.specs.Machine.{a32};

use history::Deed;
use run_checker::{Reason, Verdict};

/// An access is right where its thread asks it and memory has nothing against it: a load of memory's value, and a
/// store-exclusive that fails, but not one that stores without a mark.
pub fn right_accesses()
    ensures load { IsRight a32 loading small_machine 10 [] (access_as Deed.Load word 0) }
    ensures failed { IsRight a32 storing small_machine 10 [] (access_as Deed.StoreFail word 1) }
    ensures another_value { ¬ IsRight a32 loading small_machine 10 [] (access_as Deed.Load word 5) }
    ensures unmarked { ¬ IsRight a32 storing small_machine 10 [] (access_as Deed.StoreEx word 1) }
    ensures not_asked { ¬ IsRight a32 loading small_machine 10 [] (access_as Deed.LoadEx word 0) }
    ensures after_its_stop { ¬ IsRight a32 leaving small_machine 10 [] (access_as Deed.Load word 0) }
    ensures again { ¬ IsRight a32 loading small_machine 10 (access_as Deed.Load word 0 ∷ []) (access_as Deed.Load word 0) }
{}

/// An access is wrong for each reason but that a thread is unfinished.
pub fn wrong_accesses()
    ensures after_stop { IsWrong a32 leaving small_machine 10 [] (access_as Deed.Load word 0) Reason.AfterStop }
    ensures not_asked { IsWrong a32 loading small_machine 10 [] (access_as Deed.LoadEx word 0) Reason.NotAsked }
    ensures wrong_value { IsWrong a32 loading small_machine 10 [] (access_as Deed.Load word 5) Reason.WrongValue }
    ensures no_reservation { IsWrong a32 storing small_machine 10 [] (access_as Deed.StoreEx word 1) Reason.NoReservation }
    ensures never_unfinished { ¬ IsWrong a32 leaving small_machine 10 [] (access_as Deed.Load word 0) Reason.Unfinished }
{}

/// It isn't wrong for another reason, and one that is right isn't wrong for any.
pub fn accesses_wrong_for_no_other_reason()
    ensures asked { ¬ IsWrong a32 loading small_machine 10 [] (access_as Deed.Load word 5) Reason.NotAsked }
    ensures not_stopped { ¬ IsWrong a32 loading small_machine 10 [] (access_as Deed.LoadEx word 0) Reason.AfterStop }
    ensures stopped { ¬ IsWrong a32 leaving small_machine 10 [] (access_as Deed.Load word 5) Reason.WrongValue }
    ensures right { (why : Reason) → ¬ IsWrong a32 loading small_machine 10 [] (access_as Deed.Load word 0) why }
    ensures failed { (why : Reason) → ¬ IsWrong a32 storing small_machine 10 [] (access_as Deed.StoreFail word 1) why }
{}

/// Accesses are right where each is right behind those before it.
pub fn lists_of_right_accesses()
    ensures none { AreRight a32 leaving small_machine 10 [] }
    ensures one { AreRight a32 loading small_machine 10 (access_as Deed.Load word 0 ∷ []) }
    ensures first_wrong { ¬ AreRight a32 loading small_machine 10 (access_as Deed.Load word 5 ∷ access_as Deed.Load word 0 ∷ []) }
    ensures last_wrong { ¬ AreRight a32 loading small_machine 10 (access_as Deed.Load word 0 ∷ access_as Deed.Load word 0 ∷ []) }
{}

/// The accesses before count: a store-exclusive may store behind a load-exclusive, and fail there too, and a load has what was
/// stored before it, and not what failed.
pub fn accesses_behind_others()
    ensures taken { IsRight a32 taking small_machine 10 (access_as Deed.LoadEx word 0 ∷ []) (access_as Deed.StoreEx word 1) }
    ensures not_taken { IsRight a32 taking small_machine 10 (access_as Deed.LoadEx word 0 ∷ []) (access_as Deed.StoreFail word 1) }
    ensures stored { IsRight a32 taking small_machine 10 (access_as Deed.LoadEx word 0 ∷ access_as Deed.StoreEx word 1 ∷ []) (access_as Deed.Load word 1) }
    ensures stale { IsWrong a32 taking small_machine 10 (access_as Deed.LoadEx word 0 ∷ access_as Deed.StoreEx word 1 ∷ []) (access_as Deed.Load word 0) Reason.WrongValue }
    ensures kept { IsRight a32 taking small_machine 10 (access_as Deed.LoadEx word 0 ∷ access_as Deed.StoreFail word 1 ∷ []) (access_as Deed.Load word 0) }
    ensures failed { IsWrong a32 taking small_machine 10 (access_as Deed.LoadEx word 0 ∷ access_as Deed.StoreFail word 1 ∷ []) (access_as Deed.Load word 1) Reason.WrongValue }
{}

/// The verdict is good where the accesses are right and each thread has ended, and bad at the first that is wrong or behind
/// them all.
pub fn verdicts_on_accesses()
    ensures none { Judges a32 leaving small_machine 10 [] Verdict.Good }
    ensures load { Judges a32 loading small_machine 10 (access_as Deed.Load word 0 ∷ []) Verdict.Good }
    ensures all { Judges a32 taking small_machine 10 (access_as Deed.LoadEx word 0 ∷ access_as Deed.StoreEx word 1 ∷ access_as Deed.Load word 1 ∷ []) Verdict.Good }
    ensures first { Judges a32 loading small_machine 10 (access_as Deed.Load word 5 ∷ []) (Verdict.Bad 0 Reason.WrongValue) }
    ensures second { Judges a32 loading small_machine 10 (access_as Deed.Load word 0 ∷ access_as Deed.Load word 0 ∷ []) (Verdict.Bad 1 Reason.AfterStop) }
    ensures unfinished { Judges a32 loading small_machine 10 [] (Verdict.Bad 0 Reason.Unfinished) }
{}

/// There is no other verdict on these.
pub fn verdicts_that_are_not_theirs()
    ensures none_bad { ¬ Judges a32 leaving small_machine 10 [] (Verdict.Bad 0 Reason.Unfinished) }
    ensures unfinished_good { ¬ Judges a32 loading small_machine 10 [] Verdict.Good }
    ensures wrong_good { ¬ Judges a32 loading small_machine 10 (access_as Deed.Load word 5 ∷ []) Verdict.Good }
    ensures another_index { ¬ Judges a32 loading small_machine 10 (access_as Deed.Load word 5 ∷ []) (Verdict.Bad 1 Reason.WrongValue) }
    ensures another_reason { ¬ Judges a32 loading small_machine 10 (access_as Deed.Load word 5 ∷ []) (Verdict.Bad 0 Reason.NotAsked) }
{}
