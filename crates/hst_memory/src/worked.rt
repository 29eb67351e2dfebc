//! Worked cases of when a thread is undisturbed, and of store-exclusives that have succeeded or failed by that.
//!
//! Thread 0 loads a word exclusively and then stores to it exclusively; what stands between decides. Where there is one class,
//! the next row falls into it, and where there are 4096 it doesn't.
ghost use Rattle.std.specs.Prelude.{◌∷◌, [], false, true};
ghost use Rattle.history.specs.Worked.{beside, cell_before, next_row, small_machine, wide_machine, word};
ghost use Rattle.hst_memory.specs.Exact.{IsExact, IsUndisturbed};

use history::{Cause, Entry};

/// A thread that holds a reservation on the row is undisturbed by what others do in another class; by their loads, their
/// load-exclusives without a reservation, and what becomes of a write that has begun before; and by how many writes there were.
#[tactic(auto, unfolding(llsc_base::specs::Memory::row_of, llsc_base::specs::Memory::class_of))]
pub fn undisturbed_threads()
    ensures reserved { IsUndisturbed (small_machine 1) 0 word (Entry.Watch 0 word ∷ Entry.Read 0 word 0 true ∷ []) }
    ensures on_the_row { IsUndisturbed (small_machine 4096) 0 beside (Entry.Watch 0 word ∷ []) }
    ensures on_a_wide_row { IsUndisturbed (wide_machine 4096) 0 word (Entry.Watch 0 cell_before ∷ []) }
    ensures written_elsewhere { IsUndisturbed (small_machine 4096) 0 word (Entry.Watch 0 word ∷ Entry.Begin 1 next_row ∷ []) }
    ensures reserved_elsewhere { IsUndisturbed (small_machine 4096) 0 word (Entry.Watch 0 word ∷ Entry.Watch 1 next_row ∷ []) }
    ensures own_store_elsewhere { IsUndisturbed (small_machine 4096) 0 word (Entry.Watch 0 word ∷ Entry.Begin 0 next_row ∷ []) }
    ensures missed { IsUndisturbed (small_machine 1) 0 word (Entry.Watch 0 word ∷ Entry.Miss 1 word ∷ Entry.Read 1 word 0 true ∷ []) }
    ensures reserved_before { IsUndisturbed (small_machine 1) 0 word (Entry.Watch 1 word ∷ Entry.Watch 0 word ∷ []) }
    ensures begun_before { IsUndisturbed (small_machine 1) 0 word (Entry.Begin 1 word ∷ Entry.Watch 0 word
        ∷ Entry.Write 1 word 5 false ∷ Entry.End 1 word ∷ []) }
    ensures reserved_again { IsUndisturbed (small_machine 1) 0 word (Entry.Watch 0 word ∷ Entry.Begin 1 word
        ∷ Entry.Watch 0 word ∷ []) }
{}

/// A thread isn't undisturbed that holds no reservation on the row, be it that its own store in the class has ended it, or
/// after another's write or load-exclusive with a reservation has begun in the class.
#[tactic(auto, unfolding(llsc_base::specs::Memory::row_of, llsc_base::specs::Memory::class_of))]
pub fn disturbed_threads()
    ensures none { ¬ IsUndisturbed (small_machine 1) 0 word [] }
    ensures of_another { ¬ IsUndisturbed (small_machine 1) 0 word (Entry.Watch 1 word ∷ []) }
    ensures on_another_row { ¬ IsUndisturbed (small_machine 1) 0 word (Entry.Watch 0 next_row ∷ []) }
    ensures own_store { ¬ IsUndisturbed (small_machine 1) 0 word (Entry.Watch 0 word ∷ Entry.Begin 0 next_row ∷ []) }
    ensures written { ¬ IsUndisturbed (small_machine 1) 0 word (Entry.Watch 0 word ∷ Entry.Begin 1 next_row ∷ []) }
    ensures reserved_by_another { ¬ IsUndisturbed (small_machine 1) 0 word (Entry.Watch 0 word ∷ Entry.Watch 1 next_row ∷ []) }
{}

/// A store-exclusive has succeeded where its thread was undisturbed before its Begin, whatever came after that.
#[tactic(auto, unfolding(llsc_base::specs::Memory::row_of, llsc_base::specs::Memory::class_of))]
pub fn store_exclusives_that_succeeded()
    ensures undisturbed { IsExact (small_machine 1) 0 word 9 true (Entry.Watch 0 word ∷ [])
        (Entry.Watch 0 word ∷ Entry.Begin 0 word ∷ []) }
    ensures written_elsewhere { IsExact (small_machine 4096) 0 word 9 true (Entry.Watch 0 word ∷ [])
        (Entry.Watch 0 word ∷ Entry.Begin 1 next_row ∷ Entry.Begin 0 word ∷ []) }
    ensures written_after { IsExact (small_machine 1) 0 word 9 true (Entry.Watch 0 word ∷ [])
        (Entry.Watch 0 word ∷ Entry.Begin 0 word ∷ Entry.Begin 1 next_row ∷ []) }
    ensures written_before { ¬ IsExact (small_machine 1) 0 word 9 true (Entry.Watch 0 word ∷ [])
        (Entry.Watch 0 word ∷ Entry.Begin 1 next_row ∷ Entry.Begin 0 word ∷ []) }
    ensures reserved_by_another { ¬ IsExact (small_machine 1) 0 word 9 true (Entry.Watch 0 word ∷ [])
        (Entry.Watch 0 word ∷ Entry.Watch 1 next_row ∷ Entry.Begin 0 word ∷ []) }
    ensures of_another { ¬ IsExact (small_machine 1) 0 word 9 true (Entry.Watch 0 word ∷ [])
        (Entry.Watch 0 word ∷ Entry.Begin 1 word ∷ []) }
    ensures elsewhere { ¬ IsExact (small_machine 1) 0 word 9 true (Entry.Watch 0 word ∷ [])
        (Entry.Watch 0 word ∷ Entry.Begin 0 next_row ∷ []) }
    ensures seen_before { ¬ IsExact (small_machine 1) 0 word 9 true (Entry.Watch 0 word ∷ Entry.Begin 0 word ∷ [])
        (Entry.Watch 0 word ∷ Entry.Begin 0 word ∷ []) }
{}

/// A store-exclusive has failed where its thread wasn't undisturbed before its Fail, whatever came after that.
#[tactic(auto, unfolding(llsc_base::specs::Memory::row_of, llsc_base::specs::Memory::class_of))]
pub fn store_exclusives_that_failed()
    ensures absent { IsExact (small_machine 1) 0 word 9 false [] (Entry.Fail 0 word 9 Cause.Absent ∷ Entry.Watch 0 word ∷ []) }
    ensures own_store { IsExact (small_machine 1) 0 word 9 false (Entry.Watch 0 word ∷ Entry.Begin 0 next_row ∷ [])
        (Entry.Watch 0 word ∷ Entry.Begin 0 next_row ∷ Entry.Fail 0 word 9 Cause.Absent ∷ []) }
    ensures written { IsExact (small_machine 1) 0 word 9 false (Entry.Watch 0 word ∷ [])
        (Entry.Watch 0 word ∷ Entry.Begin 1 next_row ∷ Entry.Fail 0 word 9 Cause.Lost ∷ []) }
    ensures reserved_by_another { IsExact (small_machine 1) 0 word 9 false (Entry.Watch 0 word ∷ [])
        (Entry.Watch 0 word ∷ Entry.Watch 1 next_row ∷ Entry.Fail 0 word 9 Cause.Lost ∷ []) }
    ensures undisturbed { ¬ IsExact (small_machine 1) 0 word 9 false (Entry.Watch 0 word ∷ [])
        (Entry.Watch 0 word ∷ Entry.Fail 0 word 9 Cause.Lost ∷ []) }
    ensures written_elsewhere { ¬ IsExact (small_machine 4096) 0 word 9 false (Entry.Watch 0 word ∷ [])
        (Entry.Watch 0 word ∷ Entry.Begin 1 next_row ∷ Entry.Fail 0 word 9 Cause.Lost ∷ []) }
    ensures another_value { ¬ IsExact (small_machine 1) 0 word 9 false [] (Entry.Fail 0 word 8 Cause.Absent ∷ []) }
    ensures of_another { ¬ IsExact (small_machine 1) 0 word 9 false [] (Entry.Fail 1 word 9 Cause.Absent ∷ []) }
    ensures seen_before { ¬ IsExact (small_machine 1) 0 word 9 false (Entry.Fail 0 word 9 Cause.Absent ∷ [])
        (Entry.Fail 0 word 9 Cause.Absent ∷ []) }
{}
