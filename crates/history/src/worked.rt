//! Worked histories of two threads in a small memory of zeros, computed by the definitions.
//!
//! Thread 0 loads a word exclusively and then stores to it exclusively; what stands between decides.
ghost use Rattle.std.specs.Prelude.{◌≡◌, ◌∷◌, [], false, true, replicate};
ghost use Rattle.history.specs.ArmLegal.{IsArmLegal};
ghost use Rattle.history.specs.Cause.{MayFail, MayMiss};
ghost use Rattle.history.specs.Legal.{IsLegal};
ghost use Rattle.history.specs.Monitor.{at_rest};
ghost use Rattle.history.specs.Reservation.{reservation_of};
ghost use Rattle.history.specs.Worked.{beside, last_byte, next_row, small_machine, word};

use crate::entry::{Cause, Entry};

/// Another thread changes the word and changes it back: the store-exclusive can't succeed, and it may fail.
pub fn changed_and_changed_back()
    ensures refused { ¬ IsArmLegal (at_rest (replicate 32 0) 2)
        (Entry.Read 0 word 0 true
        ∷ Entry.Write 1 word 5 false
        ∷ Entry.Write 1 word 0 false
        ∷ Entry.Write 0 word 9 true
        ∷ []) }
    ensures allowed { IsArmLegal (at_rest (replicate 32 0) 2)
        (Entry.Read 0 word 0 true
        ∷ Entry.Write 1 word 5 false
        ∷ Entry.Write 1 word 0 false
        ∷ Entry.Fail 0 word 9 Cause.Lost
        ∷ Entry.Read 0 word 0 false
        ∷ []) }
{}

/// The thread's own plain store to the other word of the row ends its mark, and one to the next row doesn't.
pub fn own_plain_store()
    ensures in_the_row { ¬ IsArmLegal (at_rest (replicate 32 0) 2)
        (Entry.Read 0 word 0 true ∷ Entry.Write 0 beside 1 false ∷ Entry.Write 0 word 9 true ∷ []) }
    ensures in_the_next_row { IsArmLegal (at_rest (replicate 32 0) 2)
        (Entry.Read 0 word 0 true ∷ Entry.Write 0 next_row 1 false ∷ Entry.Write 0 word 9 true ∷ []) }
{}

/// Another thread's store of one byte of the row ends the mark, and one to the next row doesn't.
pub fn neighbours_store()
    ensures in_the_row { ¬ IsArmLegal (at_rest (replicate 32 0) 2)
        (Entry.Read 0 word 0 true ∷ Entry.Write 1 last_byte 1 false ∷ Entry.Write 0 word 9 true ∷ []) }
    ensures in_the_next_row { IsArmLegal (at_rest (replicate 32 0) 2)
        (Entry.Read 0 word 0 true ∷ Entry.Write 1 next_row 1 false ∷ Entry.Write 0 word 9 true ∷ []) }
{}

/// A thread's own write to the next row ends its reservation where there is one class, and not where there are more.
pub fn own_write_in_the_class()
    ensures in_the_class { reservation_of (small_machine 1) 0 (Entry.Watch 0 word ∷ Entry.Read 0 word 0 true ∷ Entry.Begin 0 next_row ∷ []) ≡ None }
    ensures in_another_class { reservation_of (small_machine 4096) 0 (Entry.Watch 0 word ∷ Entry.Read 0 word 0 true ∷ Entry.Begin 0 next_row ∷ []) ≡ Some 1 }
{}

/// A store-exclusive may fail as lost where another thread has begun a write in the class since, and not where the
/// thread alone has; it may fail as absent where the thread's own write has ended its reservation.
pub fn failing_by_a_write()
    ensures lost { MayFail (small_machine 1) (Entry.Watch 0 word ∷ Entry.Read 0 word 0 true ∷ Entry.Begin 1 next_row ∷ []) 0 word Cause.Lost }
    ensures not_in_another_class { ¬ MayFail (small_machine 4096) (Entry.Watch 0 word ∷ Entry.Read 0 word 0 true
        ∷ Entry.Begin 1 next_row ∷ []) 0 word Cause.Lost }
    ensures not_before { ¬ MayFail (small_machine 1) (Entry.Begin 1 next_row ∷ Entry.Watch 0 word ∷ Entry.Read 0 word 0 true ∷ []) 0 word Cause.Lost }
    ensures absent { MayFail (small_machine 1) (Entry.Watch 0 word ∷ Entry.Read 0 word 0 true ∷ Entry.Begin 0 next_row ∷ []) 0 word Cause.Absent }
    ensures not_absent { ¬ MayFail (small_machine 4096) (Entry.Watch 0 word ∷ Entry.Read 0 word 0 true ∷ Entry.Begin 0 next_row ∷ []) 0 word Cause.Absent }
{}

/// A store-exclusive may fail at the limit where its class has had so many writes, and not where it has had fewer, nor
/// where another thread's write has begun since.
pub fn failing_at_the_limit()
    ensures full { MayFail (small_machine 1)
        (Entry.Begin 1 word ∷ Entry.Write 1 word 5 false ∷ Entry.End 1 word ∷ Entry.Watch 0 word ∷ Entry.Read 0 word 5 true ∷ []) 0 word Cause.Limit }
    ensures not_full { ¬ MayFail (small_machine 1) (Entry.Watch 0 word ∷ Entry.Read 0 word 0 true ∷ []) 0 word Cause.Limit }
    ensures lost_first { ¬ MayFail (small_machine 1)
        (Entry.Watch 0 word ∷ Entry.Read 0 word 0 true ∷ Entry.Begin 1 word ∷ Entry.Write 1 word 5 false ∷ Entry.End 1 word ∷ []) 0 word Cause.Limit }
{}

/// A load-exclusive may get no reservation while another thread's write in the class is in flight, and not after it.
pub fn missing_in_flight()
    ensures in_flight { MayMiss (small_machine 1) (Entry.Begin 1 next_row ∷ []) 0 word }
    ensures ended { ¬ MayMiss (small_machine 1) (Entry.Begin 1 next_row ∷ Entry.Write 1 next_row 5 false ∷ Entry.End 1 next_row ∷ []) 0 word }
    ensures in_another_class { ¬ MayMiss (small_machine 4096) (Entry.Begin 1 next_row ∷ []) 0 word }
    ensures own { ¬ MayMiss (small_machine 1) (Entry.Begin 0 next_row ∷ []) 0 word }
{}

/// A history is legal where Arm allows its accesses, each thread's entries are operations, and each failure has its cause;
/// it isn't where another thread writes between a load-exclusive and the store-exclusive that succeeds, where a write has
/// not begun, or where a store-exclusive fails for no cause.
pub fn legal_histories()
    ensures legal { IsLegal (small_machine 1) (replicate 32 0)
        (Entry.Watch 0 word
        ∷ Entry.Read 0 word 0 true
        ∷ Entry.Begin 0 word
        ∷ Entry.Write 0 word 9 true
        ∷ Entry.End 0 word
        ∷ []) }
    ensures overtaken { ¬ IsLegal (small_machine 1) (replicate 32 0)
        (Entry.Watch 0 word
        ∷ Entry.Read 0 word 0 true
        ∷ Entry.Begin 1 word
        ∷ Entry.Write 1 word 0 false
        ∷ Entry.End 1 word
        ∷ Entry.Begin 0 word
        ∷ Entry.Write 0 word 9 true
        ∷ Entry.End 0 word
        ∷ []) }
    ensures not_begun { ¬ IsLegal (small_machine 1) (replicate 32 0) (Entry.Write 0 word 9 false ∷ []) }
    ensures causeless { ¬ IsLegal (small_machine 1) (replicate 32 0) (Entry.Fail 0 word 9 Cause.Lost ∷ []) }
{}
