//! Worked histories of a thread alone, in a small memory of zeros.
ghost use Rattle.std.specs.Prelude.{◌∷◌, [], true, false};
ghost use Rattle.history.specs.Worked.{beside, next_row, word};
ghost use Rattle.guest_machine.specs.Alone.{AllFailUnmarked, FailsUnmarked, IsHistoryAlone};
ghost use Rattle.guest_machine.specs.Worked.{first_word, lone_after, zeros};

use history::{Cause, Entry};

/// A store-exclusive fails unmarked where its thread has no mark or one on another row, whose width is by the granule.
pub fn failures_without_a_mark()
    ensures unmarked { FailsUnmarked (lone_after 0 []) (Entry.Fail 0 word 9 Cause.Absent) }
    ensures marked_elsewhere { FailsUnmarked (lone_after 0 (Entry.Read 0 next_row 0 true ∷ [])) (Entry.Fail 0 word 9 Cause.Absent) }
    ensures marked { ¬ FailsUnmarked (lone_after 0 (Entry.Read 0 word 0 true ∷ [])) (Entry.Fail 0 word 9 Cause.Absent) }
    ensures marked_beside { ¬ FailsUnmarked (lone_after 0 (Entry.Read 0 beside 0 true ∷ [])) (Entry.Fail 0 word 9 Cause.Absent) }
    ensures row_before { FailsUnmarked (lone_after 0 (Entry.Read 0 first_word 0 true ∷ [])) (Entry.Fail 0 word 9 Cause.Absent) }
    ensures wider_row { ¬ FailsUnmarked (lone_after 1 (Entry.Read 0 first_word 0 true ∷ [])) (Entry.Fail 0 word 9 Cause.Absent) }
    ensures stored { FailsUnmarked (lone_after 0 (Entry.Read 0 word 0 true ∷ [])) (Entry.Write 0 word 9 true) }
{}

/// Each failure of a history is tested by the marks that the accesses before it leave.
pub fn histories_that_fail_unmarked()
    ensures none { AllFailUnmarked (lone_after 0 []) [] }
    ensures behind_a_store { AllFailUnmarked (lone_after 0 []) (Entry.Read 0 word 0 true ∷ Entry.Write 0 word 9 true ∷ Entry.Fail 0 word 9 Cause.Absent ∷ []) }
    ensures behind_a_load { ¬ AllFailUnmarked (lone_after 0 []) (Entry.Fail 0 word 9 Cause.Absent ∷ Entry.Read 0 word 0 true ∷ Entry.Fail 0 word 9 Cause.Absent ∷ []) }
{}

/// A thread alone stores exclusively behind its load-exclusive and fails without one; it doesn't fail while it is marked.
pub fn histories_of_a_thread_alone()
    ensures stored { IsHistoryAlone 0 zeros (Entry.Read 0 word 0 true ∷ Entry.Write 0 word 9 true ∷ []) }
    ensures failed { IsHistoryAlone 0 zeros (Entry.Fail 0 word 9 Cause.Absent ∷ []) }
    ensures failed_while_marked { ¬ IsHistoryAlone 0 zeros (Entry.Read 0 word 0 true ∷ Entry.Fail 0 word 9 Cause.Absent ∷ []) }
    ensures stored_unmarked { ¬ IsHistoryAlone 0 zeros (Entry.Write 0 word 9 true ∷ []) }
    ensures another_value { ¬ IsHistoryAlone 0 zeros (Entry.Read 0 word 5 false ∷ []) }
    ensures of_another { ¬ IsHistoryAlone 0 zeros (Entry.Read 1 word 0 false ∷ []) }
{}
