//! Worked cases of what a mark is, when it ends, and what it says of its row, in a small memory of zeros.
ghost use Rattle.std.specs.Prelude.{◌≡◌, ◌∷◌, [], false, true, None, Some};
ghost use Rattle.llsc_base.specs.Memory.{stored};
ghost use Rattle.history.specs.Marked.{IsUnwrittenSince, KeepsRow, is_load_ex, is_write_in};
ghost use Rattle.history.specs.Worked.{beside, bytes_after_these, last_byte, mark_after_these, next_row, small_memory, word};

use crate::entry::{Cause, Entry};

/// A load-exclusive marks its row for its thread, in place of an earlier mark; nothing else marks one.
pub fn marks_that_are_set()
    ensures marked { mark_after_these (Entry.Read 0 word 0 true ∷ []) 0 ≡ Some 1 }
    ensures not_for_another { mark_after_these (Entry.Read 0 word 0 true ∷ []) 1 ≡ None }
    ensures replaced { mark_after_these (Entry.Read 0 word 0 true ∷ Entry.Read 0 next_row 0 true ∷ []) 0 ≡ Some 2 }
    ensures not_by_a_load { mark_after_these (Entry.Read 0 word 0 false ∷ []) 0 ≡ None }
    ensures not_by_a_watch { mark_after_these (Entry.Watch 0 word ∷ []) 0 ≡ None }
{}

/// A mark is ended by its thread's CLREX, by its store-exclusive, whether that fails or succeeds and wherever it is, and by
/// a write of anybody in its row.
pub fn marks_that_end()
    ensures cleared { mark_after_these (Entry.Read 0 word 0 true ∷ Entry.Clear 0 ∷ []) 0 ≡ None }
    ensures failed { mark_after_these (Entry.Read 0 word 0 true ∷ Entry.Fail 0 next_row 9 Cause.Lost ∷ []) 0 ≡ None }
    ensures succeeded { mark_after_these (Entry.Read 0 word 0 true ∷ Entry.Write 0 next_row 9 true ∷ []) 0 ≡ None }
    ensures overwritten { mark_after_these (Entry.Read 0 word 0 true ∷ Entry.Write 1 last_byte 0 false ∷ []) 0 ≡ None }
    ensures taken { mark_after_these (Entry.Read 0 word 0 true ∷ Entry.Read 1 beside 0 true ∷ Entry.Write 1 beside 0 true ∷ []) 0 ≡ None }
{}

/// A mark outlives another thread's CLREX and failed store-exclusive, writes to another row, its thread's loads, and the
/// marks of a history.
pub fn marks_that_stay()
    ensures cleared_by_another { mark_after_these (Entry.Read 0 word 0 true ∷ Entry.Clear 1 ∷ []) 0 ≡ Some 1 }
    ensures failed_by_another { mark_after_these (Entry.Read 0 word 0 true ∷ Entry.Fail 1 word 9 Cause.Lost ∷ []) 0 ≡ Some 1 }
    ensures written_elsewhere { mark_after_these (Entry.Read 0 word 0 true ∷ Entry.Write 1 next_row 9 true ∷ []) 0 ≡ Some 1 }
    ensures loaded { mark_after_these (Entry.Read 0 word 0 true ∷ Entry.Read 0 next_row 0 false ∷ []) 0 ≡ Some 1 }
    ensures begun { mark_after_these (Entry.Read 0 word 0 true ∷ Entry.Begin 1 word ∷ Entry.End 1 word ∷ []) 0 ≡ Some 1 }
{}

/// A write in a row is anybody's, of any value, and exclusive or not; no other access is one, nor a write of another row.
pub fn writes_in_a_row()
    ensures plain { is_write_in 0 1 (Entry.Write 1 last_byte 0 false) ≡ true }
    ensures exclusive { is_write_in 0 1 (Entry.Write 0 word 9 true) ≡ true }
    ensures of_another_row { is_write_in 0 1 (Entry.Write 1 next_row 1 false) ≡ false }
    ensures read { is_write_in 0 1 (Entry.Read 0 word 0 true) ≡ false }
    ensures failed { is_write_in 0 1 (Entry.Fail 0 word 9 Cause.Lost) ≡ false }
{}

/// A load-exclusive of a thread is its own, and exclusive.
pub fn load_exclusives_of_a_thread()
    ensures own { is_load_ex 0 (Entry.Read 0 word 0 true) ≡ true }
    ensures plain { is_load_ex 0 (Entry.Read 0 word 0 false) ≡ false }
    ensures of_another { is_load_ex 0 (Entry.Read 1 word 0 true) ≡ false }
    ensures write { is_load_ex 0 (Entry.Write 0 word 0 true) ≡ false }
{}

/// A memory keeps a row where it keeps each byte of it, the first and the last one too, whatever becomes of other rows.
pub fn kept_rows()
    ensures kept { KeepsRow 0 1 small_memory.memory (stored small_memory.memory next_row 1) }
    ensures first_byte { ¬ KeepsRow 0 1 small_memory.memory (stored small_memory.memory word 1) }
    ensures last_byte { ¬ KeepsRow 0 1 small_memory.memory (stored small_memory.memory last_byte 1) }
{}

/// A row is undisturbed from the thread's last load-exclusive on, where that was of this row and nobody has written in the
/// row since, not even the value that was there.
pub fn undisturbed_rows()
    ensures undisturbed { IsUnwrittenSince small_memory (Entry.Read 0 word 0 true ∷ Entry.Write 1 next_row 1 false ∷ []) 0 1 }
    ensures written { ¬ IsUnwrittenSince small_memory (Entry.Read 0 word 0 true ∷ Entry.Write 1 last_byte 0 false ∷ []) 0 1 }
    ensures of_another_row { ¬ IsUnwrittenSince small_memory (Entry.Read 0 next_row 0 true ∷ []) 0 1 }
    ensures of_another_thread { ¬ IsUnwrittenSince small_memory (Entry.Read 1 word 0 true ∷ []) 0 1 }
    ensures not_exclusive { ¬ IsUnwrittenSince small_memory (Entry.Read 0 word 0 false ∷ []) 0 1 }
    ensures not_the_last { ¬ IsUnwrittenSince small_memory (Entry.Read 0 word 0 true ∷ Entry.Read 0 next_row 0 true ∷ []) 0 1 }
{}

/// An undisturbed row has the bytes that it had when it was read.
pub fn undisturbed_rows_are_kept(accesses: &[Entry], thread: u32, row: u32)
    ensures { (since : IsUnwrittenSince small_memory accesses.now thread row)
        → KeepsRow 0 row (bytes_after_these since.before) (bytes_after_these accesses.now) }
{}
