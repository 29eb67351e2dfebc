//! Worked cases of which accesses may come and what they leave, in a small memory of zeros, and of the parts of a history.
ghost use Rattle.std.specs.Prelude.{◌≡◌, ◌∷◌, ◌++◌, [], false, true, replicate};
ghost use Rattle.history.specs.ArmLegal.{IsArmLegal, IsSound};
ghost use Rattle.history.specs.Parts.{accesses_of, entries_of};
ghost use Rattle.history.specs.Worked.{byte_behind, bytes_after_these, end_word, half, last_byte, next_row, small_memory, split_word, word};

use crate::entry::{Cause, Entry};

/// An access is sound with the last thread, at the last word, of the greatest value; and not with a thread more, past the
/// end, where it isn't aligned, or with a value more.
pub fn sound_accesses()
    ensures greatest_word { IsSound 2 32 1 end_word 4294967295 }
    ensures greatest_byte { IsSound 2 32 1 last_byte 255 }
    ensures no_thread { ¬ IsSound 2 32 2 word 0 }
    ensures unaligned { ¬ IsSound 2 40 0 split_word 0 }
    ensures past_the_end { ¬ IsSound 2 31 0 end_word 0 }
    ensures outside { ¬ IsSound 2 32 0 byte_behind 0 }
    ensures byte_too_great { ¬ IsSound 2 32 0 last_byte 256 }
    ensures word_too_great { ¬ IsSound 2 32 0 word 4294967296 }
{}

/// A load has the value that stands in memory, exclusive or not.
pub fn loaded_values()
    ensures stored { IsArmLegal small_memory (Entry.Write 1 word 5 false ∷ Entry.Read 0 word 5 false ∷ []) }
    ensures stale { ¬ IsArmLegal small_memory (Entry.Write 1 word 5 false ∷ Entry.Read 0 word 0 false ∷ []) }
    ensures stale_exclusive { ¬ IsArmLegal small_memory (Entry.Write 1 word 5 false ∷ Entry.Read 0 word 0 true ∷ []) }
{}

/// A store-exclusive succeeds only where its thread is marked on its row, and each access is sound.
pub fn accesses_that_may_not_come()
    ensures unmarked { ¬ IsArmLegal small_memory (Entry.Write 0 word 9 true ∷ []) }
    ensures marked_elsewhere { ¬ IsArmLegal small_memory (Entry.Read 0 next_row 0 true ∷ Entry.Write 0 word 9 true ∷ []) }
    ensures read_by_no_thread { ¬ IsArmLegal small_memory (Entry.Read 2 word 0 false ∷ []) }
    ensures write_by_no_thread { ¬ IsArmLegal small_memory (Entry.Write 2 word 0 false ∷ []) }
    ensures failed_by_no_thread { ¬ IsArmLegal small_memory (Entry.Fail 2 word 9 Cause.Lost ∷ []) }
    ensures cleared_by_no_thread { ¬ IsArmLegal small_memory (Entry.Clear 2 ∷ []) }
    ensures cleared { IsArmLegal small_memory (Entry.Clear 1 ∷ []) }
{}

/// A write sets the bytes of its place, the lowest first, and what isn't a write sets none.
pub fn written_bytes()
    ensures written { bytes_after_these (Entry.Write 0 half 513 false ∷ []) ≡ replicate 10 0 ++ 1 ∷ 2 ∷ replicate 20 0 }
    ensures exclusive { bytes_after_these (Entry.Write 0 half 513 true ∷ []) ≡ replicate 10 0 ++ 1 ∷ 2 ∷ replicate 20 0 }
    ensures failed { bytes_after_these (Entry.Fail 0 half 513 Cause.Lost ∷ []) ≡ replicate 32 0 }
    ensures begun { bytes_after_these (Entry.Begin 0 half ∷ []) ≡ replicate 32 0 }
{}

/// Of a history with an entry of each kind, the accesses, and the entries of each thread.
pub fn parts_of_a_history()
    ensures accesses { accesses_of (Entry.Watch 0 word ∷ Entry.Read 0 word 0 true ∷ Entry.Miss 1 word ∷ Entry.Read 1 word 0 true ∷ Entry.Begin 0 word
        ∷ Entry.Write 0 word 9 true ∷ Entry.End 0 word ∷ Entry.Fail 1 word 9 Cause.Absent ∷ Entry.Clear 0 ∷ [])
        ≡ Entry.Read 0 word 0 true ∷ Entry.Read 1 word 0 true ∷ Entry.Write 0 word 9 true ∷ Entry.Fail 1 word 9 Cause.Absent ∷ Entry.Clear 0 ∷ [] }
    ensures of_a_thread { entries_of 0 (Entry.Watch 0 word ∷ Entry.Read 1 word 0 false ∷ Entry.Read 0 word 0 true ∷ Entry.Begin 0 word
        ∷ Entry.Write 0 word 9 true ∷ Entry.Clear 1 ∷ Entry.End 0 word ∷ Entry.Fail 0 word 9 Cause.Absent ∷ Entry.Miss 0 word ∷ Entry.Clear 0 ∷ [])
        ≡ Entry.Watch 0 word ∷ Entry.Read 0 word 0 true ∷ Entry.Begin 0 word ∷ Entry.Write 0 word 9 true ∷ Entry.End 0 word ∷ Entry.Fail 0 word 9 Cause.Absent
        ∷ Entry.Miss 0 word ∷ Entry.Clear 0 ∷ [] }
    ensures of_another { entries_of 1 (Entry.Watch 0 word ∷ Entry.Read 0 word 0 true ∷ Entry.Begin 0 word ∷ Entry.Write 0 word 9 true ∷ Entry.End 0 word
        ∷ Entry.Fail 0 word 9 Cause.Absent ∷ Entry.Miss 0 word ∷ Entry.Clear 0 ∷ []) ≡ [] }
{}
