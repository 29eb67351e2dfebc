//! Worked cases of the status that threads' stops give, computed by the definitions.
ghost use Rattle.std.specs.Prelude.{◌≡◌, ◌∷◌, [], false, true};
ghost use Rattle.guest_thread.specs.Worked.{end_of};
ghost use Rattle.llsc_report.specs.Status.{have_left, status_of, status_of_all};

use llsc_base::Stop;

/// The status of a thread is 0 where it left by the exit call with code 0, and 1 where it left with another code or
/// stopped otherwise.
pub fn statuses_of_stops()
    ensures exit { status_of (Stop.Exit 0) ≡ 0 }
    ensures exit_1 { status_of (Stop.Exit 1) ≡ 1 }
    ensures exit_256 { status_of (Stop.Exit 256) ≡ 1 }
    ensures undefined { status_of (Stop.Undefined 0) ≡ 1 }
    ensures unpredictable { status_of (Stop.Unpredictable 0) ≡ 1 }
    ensures alignment { status_of (Stop.Alignment 0) ≡ 1 }
    ensures outside { status_of (Stop.Outside 0) ≡ 1 }
    ensures read_only { status_of (Stop.ReadOnly 0) ≡ 1 }
    ensures thumb { status_of (Stop.Thumb 0) ≡ 1 }
    ensures budget { status_of Stop.Budget ≡ 1 }
    ensures tag_limit { status_of (Stop.TagLimit 0) ≡ 1 }
{}

/// Threads have left where every one did with code 0: one that didn't is enough, whichever it is.
pub fn threads_that_have_left()
    ensures one { have_left (end_of 0 (Stop.Exit 0) 2 0 0 0 ∷ []) ≡ true }
    ensures both { have_left (end_of 0 (Stop.Exit 0) 2 0 0 0 ∷ end_of 1 (Stop.Exit 0) 3 1 1 1 ∷ []) ≡ true }
    ensures not_the_first { have_left (end_of 0 (Stop.Exit 1) 2 0 0 0 ∷ end_of 1 (Stop.Exit 0) 2 0 0 0 ∷ []) ≡ false }
    ensures not_the_last { have_left (end_of 0 (Stop.Exit 0) 2 0 0 0 ∷ end_of 1 (Stop.Exit 1) 2 0 0 0 ∷ []) ≡ false }
    ensures not_the_second { have_left (end_of 0 (Stop.Exit 0) 2 0 0 0 ∷ end_of 1 Stop.Budget 2 0 0 0 ∷ end_of 2 (Stop.Exit 0) 2 0 0 0 ∷ []) ≡ false }
    ensures neither { have_left (end_of 0 Stop.Budget 2 0 0 0 ∷ end_of 1 (Stop.Exit 1) 2 0 0 0 ∷ []) ≡ false }
{}

/// The status of all threads is 0 where they have left, and 1 where one didn't.
pub fn statuses_of_all_threads()
    ensures one { status_of_all (end_of 0 (Stop.Exit 0) 2 0 0 0 ∷ []) ≡ 0 }
    ensures both { status_of_all (end_of 0 (Stop.Exit 0) 2 0 0 0 ∷ end_of 1 (Stop.Exit 0) 2 0 0 0 ∷ []) ≡ 0 }
    ensures not_the_first { status_of_all (end_of 0 Stop.Budget 2 0 0 0 ∷ end_of 1 (Stop.Exit 0) 2 0 0 0 ∷ []) ≡ 1 }
    ensures not_the_last { status_of_all (end_of 0 (Stop.Exit 0) 2 0 0 0 ∷ end_of 1 (Stop.Exit 1) 2 0 0 0 ∷ []) ≡ 1 }
    ensures neither { status_of_all (end_of 0 (Stop.Exit 2) 2 0 0 0 ∷ end_of 1 (Stop.Exit 2) 2 0 0 0 ∷ []) ≡ 1 }
{}
