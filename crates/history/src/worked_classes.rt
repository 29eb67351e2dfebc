//! Worked cases of reservations, of what ends them, and of what a history says of a class of rows.
ghost use Rattle.std.specs.Prelude.{◌≡◌, ◌∷◌, [], false, true, None, Some};
ghost use Rattle.history.specs.Cause.{KeepsLimit, MayFail, writes_in_class};
ghost use Rattle.history.specs.Class.{comer_in, edges_of, last_of, name_of, writer_in};
ghost use Rattle.history.specs.Entry.{is_in_class};
ghost use Rattle.history.specs.Reservation.{reservation_of};
ghost use Rattle.history.specs.Steady.{AreSteady, IsSteady};
ghost use Rattle.history.specs.Worked.{cell_before, far_word, next_row, small_machine, word};

use crate::entry::{Cause, Entry};

/// A thread holds a reservation on the row of its last Watch.
pub fn reservations_that_are_taken()
    ensures none { reservation_of (small_machine 4096) 0 (Entry.Read 0 word 0 true ∷ []) ≡ None }
    ensures watched { reservation_of (small_machine 4096) 0 (Entry.Watch 0 word ∷ []) ≡ Some 1 }
    ensures of_another { reservation_of (small_machine 4096) 0 (Entry.Watch 1 word ∷ []) ≡ None }
    ensures replaced { reservation_of (small_machine 4096) 0 (Entry.Watch 0 word ∷ Entry.Watch 0 next_row ∷ []) ≡ Some 2 }
{}

/// A thread's own Miss, CLREX, failed store-exclusive and exclusive write end its reservation, wherever they are.
pub fn reservations_that_end()
    ensures missed { reservation_of (small_machine 4096) 0 (Entry.Watch 0 word ∷ Entry.Miss 0 next_row ∷ []) ≡ None }
    ensures cleared { reservation_of (small_machine 4096) 0 (Entry.Watch 0 word ∷ Entry.Clear 0 ∷ []) ≡ None }
    ensures failed { reservation_of (small_machine 4096) 0 (Entry.Watch 0 word ∷ Entry.Fail 0 next_row 9 Cause.Lost ∷ []) ≡ None }
    ensures succeeded { reservation_of (small_machine 4096) 0 (Entry.Watch 0 word ∷ Entry.Write 0 next_row 9 true ∷ []) ≡ None }
{}

/// Another thread's entries end no reservation, and neither do the thread's own loads, plain Writes and Ends.
pub fn reservations_that_stay()
    ensures of_another { reservation_of (small_machine 4096) 0 (Entry.Watch 0 word ∷ Entry.Watch 1 word ∷ Entry.Miss 1 word
        ∷ Entry.Clear 1 ∷ Entry.Fail 1 word 9 Cause.Lost ∷ []) ≡ Some 1 }
    ensures written_by_another { reservation_of (small_machine 4096) 0
        (Entry.Watch 0 word ∷ Entry.Begin 1 word ∷ Entry.Write 1 word 9 true ∷ Entry.End 1 word ∷ []) ≡ Some 1 }
    ensures own { reservation_of (small_machine 4096) 0 (Entry.Watch 0 word ∷ Entry.Read 0 word 0 true ∷ Entry.Write 0 word 5 false
        ∷ Entry.End 0 word ∷ []) ≡ Some 1 }
{}

/// A store-exclusive may fail as lost where another thread's load-exclusive with a reservation has begun in the class since,
/// and not for one without, for the thread's own, or for what else another thread does.
pub fn failing_by_a_load_exclusive()
    ensures lost { MayFail (small_machine 1) (Entry.Watch 0 word ∷ Entry.Watch 1 next_row ∷ []) 0 word Cause.Lost }
    ensures not_in_another_class { ¬ MayFail (small_machine 4096) (Entry.Watch 0 word ∷ Entry.Watch 1 next_row ∷ []) 0 word Cause.Lost }
    ensures not_by_a_miss { ¬ MayFail (small_machine 1) (Entry.Watch 0 word ∷ Entry.Miss 1 word ∷ []) 0 word Cause.Lost }
    ensures not_by_its_own { ¬ MayFail (small_machine 1) (Entry.Watch 0 word ∷ Entry.Watch 0 word ∷ []) 0 word Cause.Lost }
    ensures not_by_others { ¬ MayFail (small_machine 1) (Entry.Watch 0 word ∷ Entry.Read 1 word 0 true ∷ Entry.Clear 1
        ∷ Entry.End 1 word ∷ []) 0 word Cause.Lost }
    ensures full { MayFail (small_machine 1) (Entry.Write 1 word 5 false ∷ Entry.Watch 0 word ∷ Entry.Watch 1 word ∷ []) 0 word Cause.Limit }
{}

/// A store-exclusive that has lost to a load-exclusive of another has its cause, and isn't steady.
#[tactic(auto, unfolding(llsc_base::specs::Memory::row_of, llsc_base::specs::Memory::class_of))]
pub fn losses_that_are_steady()
    ensures by_a_write { IsSteady (small_machine 1) (Entry.Watch 0 word ∷ Entry.Begin 1 next_row ∷ []) (Entry.Fail 0 word 9 Cause.Lost) }
    ensures by_a_load_exclusive { ¬ IsSteady (small_machine 1) (Entry.Watch 0 word ∷ Entry.Watch 1 word ∷ []) (Entry.Fail 0 word 9 Cause.Lost) }
    ensures before_its_watch { ¬ IsSteady (small_machine 1) (Entry.Begin 1 word ∷ Entry.Watch 0 word ∷ []) (Entry.Fail 0 word 9 Cause.Lost) }
    ensures by_its_own { ¬ IsSteady (small_machine 1) (Entry.Watch 0 word ∷ Entry.Begin 0 word ∷ []) (Entry.Fail 0 word 9 Cause.Lost) }
    ensures in_another_class { ¬ IsSteady (small_machine 4096) (Entry.Watch 0 word ∷ Entry.Begin 1 next_row ∷ []) (Entry.Fail 0 word 9 Cause.Lost) }
    ensures has_its_cause { MayFail (small_machine 1) (Entry.Watch 0 word ∷ Entry.Watch 1 word ∷ []) 0 word Cause.Lost }
    ensures of_another_cause { IsSteady (small_machine 1) [] (Entry.Fail 0 word 9 Cause.Absent) }
    ensures in_a_history { AreSteady (small_machine 1) (Entry.Watch 0 word ∷ Entry.Begin 1 word ∷ Entry.Fail 0 word 9 Cause.Lost ∷ []) }
    ensures not_in_a_history { ¬ AreSteady (small_machine 1) (Entry.Watch 0 word ∷ Entry.Watch 1 word ∷ Entry.Fail 0 word 9 Cause.Lost ∷ []) }
{}

/// Rows are dealt out to the classes in turn.
pub fn classes_of_rows()
    ensures one_class { is_in_class (small_machine 1) 1 next_row ≡ true }
    ensures next_class { is_in_class (small_machine 4096) 1 next_row ≡ false }
    ensures again { is_in_class (small_machine 4096) 1 far_word ≡ true }
    ensures between { is_in_class (small_machine 2) 1 next_row ≡ false }
{}

/// Of a class a history says how many Writes it has had, how many Begins and Ends, who began its last write, and who
/// came last.
pub fn words_of_a_class()
    ensures writes { writes_in_class (small_machine 1) 1 (Entry.Write 0 word 5 false ∷ Entry.Write 1 next_row 9 true
        ∷ Entry.Fail 0 word 9 Cause.Lost ∷ []) ≡ 2 }
    ensures writes_elsewhere { writes_in_class (small_machine 4096) 1 (Entry.Write 0 word 5 false ∷ Entry.Write 1 next_row 9 true ∷ []) ≡ 1 }
    ensures edges { edges_of (small_machine 1) 1 (Entry.Begin 0 word ∷ Entry.Write 0 word 5 false ∷ Entry.End 0 word
        ∷ Entry.Watch 0 word ∷ Entry.Begin 1 next_row ∷ []) ≡ 3 }
    ensures edges_elsewhere { edges_of (small_machine 4096) 1 (Entry.Begin 0 word ∷ Entry.End 0 word ∷ Entry.Begin 1 next_row ∷ []) ≡ 2 }
    ensures writer { last_of (writer_in (small_machine 1) 1) (Entry.Begin 0 word ∷ Entry.Begin 1 next_row ∷ Entry.Watch 0 word ∷ []) ≡ Some 1 }
    ensures writer_elsewhere { last_of (writer_in (small_machine 4096) 1) (Entry.Begin 0 word ∷ Entry.Begin 1 next_row ∷ Entry.Watch 1 word ∷ []) ≡ Some 0 }
    ensures comer { last_of (comer_in (small_machine 4096) 1) (Entry.Begin 0 word ∷ Entry.Watch 1 word ∷ Entry.Miss 0 word
        ∷ Entry.Watch 0 next_row ∷ []) ≡ Some 1 }
    ensures no_comer { last_of (comer_in (small_machine 4096) 1) (Entry.Begin 0 next_row ∷ Entry.End 0 word ∷ []) ≡ None }
    ensures names { name_of (Some 0) ≡ 1 }
    ensures no_name { name_of None ≡ 0 }
{}

/// A history keeps to the limit where no class has had more Writes than it may have, in all of its rows together. A write that has
/// only begun isn't one yet.
pub fn limits_that_are_kept()
    ensures only_begun { KeepsLimit (small_machine 2) (Entry.Begin 0 word ∷ Entry.Begin 1 word ∷ []) }
    ensures as_many { KeepsLimit (small_machine 2) (Entry.Write 0 word 5 false ∷ Entry.End 0 word ∷ Entry.Begin 1 word ∷ []) }
    ensures one_more { ¬ KeepsLimit (small_machine 2) (Entry.Write 0 word 5 false ∷ Entry.Write 1 word 9 true ∷ []) }
    ensures in_two_rows { ¬ KeepsLimit (small_machine 2) (Entry.Write 1 cell_before 5 false ∷ Entry.Write 0 next_row 9 true ∷ []) }
{}
