//! Worked cases of the operations of which a thread's entries are made, and of writes in flight.
ghost use Rattle.std.specs.Prelude.{◌≡◌, ◌∷◌, [], false, true, None, Some};
ghost use Rattle.history.specs.Cause.{flight_of};
ghost use Rattle.history.specs.Legal.{IsComplete};
ghost use Rattle.history.specs.Operation.{AreFinished, AreOperations};
ghost use Rattle.history.specs.Worked.{beside, next_row, word};

use crate::entry::{Cause, Entry};

/// Loads and stores of each kind, a store-exclusive that fails and CLREX are finished operations, one behind another; what
/// lacks its end is none.
pub fn finished_operations()
    ensures loads { AreFinished 0 (Entry.Read 0 word 0 false ∷ Entry.Watch 0 word ∷ Entry.Read 0 word 0 true ∷ Entry.Miss 0 word
        ∷ Entry.Read 0 word 0 true ∷ []) }
    ensures stores { AreFinished 0 (Entry.Begin 0 word ∷ Entry.Write 0 word 5 false ∷ Entry.End 0 word ∷ Entry.Begin 0 word
        ∷ Entry.Write 0 word 9 true ∷ Entry.End 0 word ∷ []) }
    ensures others { AreFinished 0 (Entry.Fail 0 word 9 Cause.Lost ∷ Entry.Clear 0 ∷ []) }
    ensures watching { ¬ AreFinished 0 (Entry.Watch 0 word ∷ []) }
    ensures writing { ¬ AreFinished 0 (Entry.Begin 0 word ∷ Entry.Write 0 word 5 false ∷ []) }
{}

/// The last operation of a thread may be unfinished, at each of its entries.
pub fn unfinished_operations()
    ensures watching { AreOperations 0 (Entry.Clear 0 ∷ Entry.Watch 0 word ∷ []) }
    ensures missing { AreOperations 0 (Entry.Miss 0 word ∷ []) }
    ensures begun { AreOperations 0 (Entry.Begin 0 word ∷ []) }
    ensures written { AreOperations 0 (Entry.Begin 0 word ∷ Entry.Write 0 word 5 false ∷ []) }
{}

/// Entries are no operations where a load-exclusive or a write has not begun, goes on at another place or as another access,
/// or where they are another thread's.
pub fn entries_that_are_no_operations()
    ensures not_begun { ¬ AreOperations 0 (Entry.Read 0 word 0 true ∷ []) }
    ensures plain { ¬ AreOperations 0 (Entry.Watch 0 word ∷ Entry.Read 0 word 0 false ∷ []) }
    ensures read_elsewhere { ¬ AreOperations 0 (Entry.Watch 0 beside ∷ Entry.Read 0 word 0 true ∷ []) }
    ensures not_written { ¬ AreOperations 0 (Entry.Begin 0 word ∷ Entry.End 0 word ∷ []) }
    ensures written_elsewhere { ¬ AreOperations 0 (Entry.Begin 0 beside ∷ Entry.Write 0 word 5 false ∷ []) }
    ensures ended_elsewhere { ¬ AreOperations 0 (Entry.Begin 0 word ∷ Entry.Write 0 word 5 false ∷ Entry.End 0 beside ∷ []) }
    ensures not_ended { ¬ AreOperations 0 (Entry.Begin 0 word ∷ Entry.Write 0 word 5 false ∷ Entry.Clear 0 ∷ []) }
    ensures of_another { ¬ AreOperations 0 (Entry.Clear 1 ∷ []) }
{}

/// A history is complete where no thread's last operation is unfinished.
pub fn complete_histories()
    ensures complete { IsComplete (Entry.Watch 0 word ∷ Entry.Read 0 word 0 true ∷ Entry.Begin 0 word ∷ Entry.Write 0 word 9 true ∷ Entry.End 0 word ∷ []) }
    ensures watching { ¬ IsComplete (Entry.Clear 0 ∷ Entry.Watch 1 word ∷ []) }
{}

/// A thread's write is in flight from its Begin to its End, whatever another thread begins or ends.
pub fn writes_in_flight()
    ensures begun { flight_of 1 (Entry.Begin 1 word ∷ []) ≡ Some word }
    ensures written { flight_of 1 (Entry.Begin 1 word ∷ Entry.Write 1 word 5 false ∷ []) ≡ Some word }
    ensures ended { flight_of 1 (Entry.Begin 1 word ∷ Entry.Write 1 word 5 false ∷ Entry.End 1 word ∷ []) ≡ None }
    ensures ended_by_another { flight_of 1 (Entry.Begin 1 word ∷ Entry.End 0 word ∷ []) ≡ Some word }
    ensures of_another { flight_of 0 (Entry.Begin 1 word ∷ []) ≡ None }
    ensures begun_again { flight_of 1 (Entry.Begin 1 word ∷ Entry.End 1 word ∷ Entry.Begin 1 next_row ∷ []) ≡ Some next_row }
{}
