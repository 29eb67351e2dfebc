//! Worked cases of when a store-exclusive succeeds, when one has lost, when a store is refused, of versions, of what all threads
//! have left, and of the words of started threads.
//!
//! Where there is one class, the next row falls into it, and where there are 4096 it doesn't.
ghost use Rattle.std.specs.Prelude.{◌≡◌, ◌∷◌, [], false, true};
ghost use Rattle.history.specs.Worked.{beside, cell_before, next_row, small_machine, wide_machine, word};
ghost use Rattle.version_rule.specs.Exact.{IsAtLimit, IsOvertaken, IsUndisturbed, IsVersion};
ghost use Rattle.version_rule.specs.Left.{IsOver, cell_left};
ghost use Rattle.version_rule.specs.StartWords.{start_mark};
ghost use Rattle.shared_memory.specs.Worked.{limited_machine, made};

use history::{Cause, Entry};

/// A thread that holds a reservation on the row is undisturbed by load-exclusives of others, by what they write in another class,
/// and by what becomes of a write that has begun before, as long as the class may take another write.
#[tactic(auto, unfolding(llsc_base::specs::Memory::row_of, llsc_base::specs::Memory::class_of))]
pub fn undisturbed_threads()
    ensures reserved { IsUndisturbed (limited_machine 1 1) 0 word (Entry.Watch 0 word ∷ Entry.Read 0 word 0 true ∷ []) }
    ensures on_the_row { IsUndisturbed (limited_machine 4096 1) 0 beside (Entry.Watch 0 word ∷ []) }
    ensures on_a_wide_row { IsUndisturbed (wide_machine 4096) 0 word (Entry.Watch 0 cell_before ∷ []) }
    ensures reserved_by_another { IsUndisturbed (limited_machine 1 1) 0 word (Entry.Watch 0 word ∷ Entry.Watch 1 word ∷ Entry.Read 1 word 0 true ∷ []) }
    ensures begun_elsewhere { IsUndisturbed (limited_machine 4096 1) 0 word (Entry.Watch 0 word ∷ Entry.Begin 1 next_row ∷ []) }
    ensures own_store_elsewhere { IsUndisturbed (limited_machine 4096 1) 0 word (Entry.Watch 0 word ∷ Entry.Begin 0 next_row ∷ []) }
    ensures begun_before { IsUndisturbed (limited_machine 1 2) 0 word
        (Entry.Begin 1 word ∷ Entry.Watch 0 word ∷ Entry.Write 1 word 5 false ∷ Entry.End 1 word ∷ []) }
    ensures room_for_one { IsUndisturbed (limited_machine 1 2) 0 word (Entry.Write 1 word 5 false ∷ Entry.Watch 0 word ∷ []) }
    ensures full_elsewhere { IsUndisturbed (limited_machine 4096 1) 0 word (Entry.Write 1 next_row 5 false ∷ Entry.Watch 0 word ∷ []) }
{}

/// A thread isn't undisturbed that holds no reservation on the row, after a write of anybody has begun in the class, or where the
/// class has had all of its writes.
#[tactic(auto, unfolding(llsc_base::specs::Memory::row_of, llsc_base::specs::Memory::class_of))]
pub fn disturbed_threads()
    ensures none { ¬ IsUndisturbed (limited_machine 1 1) 0 word [] }
    ensures of_another { ¬ IsUndisturbed (limited_machine 1 1) 0 word (Entry.Watch 1 word ∷ []) }
    ensures on_another_row { ¬ IsUndisturbed (limited_machine 1 1) 0 word (Entry.Watch 0 next_row ∷ []) }
    ensures begun { ¬ IsUndisturbed (limited_machine 1 1) 0 word (Entry.Watch 0 word ∷ Entry.Begin 1 next_row ∷ []) }
    ensures own_store { ¬ IsUndisturbed (limited_machine 1 1) 0 word (Entry.Watch 0 word ∷ Entry.Begin 0 next_row ∷ []) }
    ensures full { ¬ IsUndisturbed (limited_machine 1 1) 0 word (Entry.Write 1 next_row 5 false ∷ Entry.Watch 0 word ∷ []) }
{}

/// A thread is overtaken where it holds a reservation on the row and a write of another has begun in the class since.
#[tactic(auto, unfolding(llsc_base::specs::Memory::row_of, llsc_base::specs::Memory::class_of))]
pub fn overtaken_threads()
    ensures begun { IsOvertaken (limited_machine 1 1) 0 word (Entry.Watch 0 word ∷ Entry.Begin 1 next_row ∷ []) }
    ensures in_the_wide_row { IsOvertaken (wide_machine 4096) 0 word (Entry.Watch 0 word ∷ Entry.Begin 1 cell_before ∷ []) }
    ensures begun_elsewhere { ¬ IsOvertaken (limited_machine 4096 1) 0 word (Entry.Watch 0 word ∷ Entry.Begin 1 next_row ∷ []) }
    ensures begun_before { ¬ IsOvertaken (limited_machine 1 1) 0 word (Entry.Begin 1 next_row ∷ Entry.Watch 0 word ∷ Entry.Write 1 next_row 5 false ∷ []) }
    ensures reserved_by_another { ¬ IsOvertaken (limited_machine 1 1) 0 word (Entry.Watch 0 word ∷ Entry.Watch 1 word ∷ []) }
    ensures own_store { ¬ IsOvertaken (limited_machine 1 1) 0 word (Entry.Watch 0 word ∷ Entry.Begin 0 next_row ∷ []) }
    ensures not_reserved { ¬ IsOvertaken (limited_machine 1 1) 0 word (Entry.Begin 1 next_row ∷ []) }
    ensures on_another_row { ¬ IsOvertaken (limited_machine 1 1) 0 next_row (Entry.Watch 0 word ∷ Entry.Begin 1 next_row ∷ []) }
{}

/// A class is spent that has had just as many writes as it may have, in any of its rows, and has none in flight.
#[tactic(auto, unfolding(llsc_base::specs::Memory::row_of, llsc_base::specs::Memory::class_of))]
pub fn spent_classes()
    ensures spent { IsAtLimit (limited_machine 1 1) word (Entry.Begin 1 next_row ∷ Entry.Write 1 next_row 5 false ∷ Entry.End 1 next_row ∷ []) }
    ensures wide_row { IsAtLimit (wide_machine 4096) word (Entry.Write 1 cell_before 5 false ∷ []) }
    ensures in_flight_elsewhere { IsAtLimit (limited_machine 4096 1) word (Entry.Write 1 word 5 false ∷ Entry.Begin 0 next_row ∷ []) }
    ensures one_below { ¬ IsAtLimit (limited_machine 1 2) word (Entry.Write 1 word 5 false ∷ []) }
    ensures one_above { ¬ IsAtLimit (limited_machine 1 1) word (Entry.Write 1 word 5 false ∷ Entry.Write 0 word 6 false ∷ []) }
    ensures written_elsewhere { ¬ IsAtLimit (limited_machine 4096 1) word (Entry.Write 1 next_row 5 false ∷ []) }
    ensures only_begun { ¬ IsAtLimit (limited_machine 1 1) word (Entry.Begin 1 word ∷ Entry.End 1 word ∷ []) }
    ensures in_flight { ¬ IsAtLimit (limited_machine 1 1) word (Entry.Begin 1 next_row ∷ Entry.Write 1 next_row 5 false ∷ []) }
{}

/// A version is twice the writes that the class has had; one that has only begun doesn't count.
#[tactic(auto, unfolding(llsc_base::specs::Memory::row_of, llsc_base::specs::Memory::class_of))]
pub fn versions_of_classes()
    ensures first { IsVersion (limited_machine 1 1) word 0 [] }
    ensures written { IsVersion (limited_machine 1 1) word 2 (Entry.Begin 1 next_row ∷ Entry.Write 1 next_row 5 false ∷ Entry.End 1 next_row ∷ []) }
    ensures begun { IsVersion (limited_machine 1 1) word 0 (Entry.Begin 1 word ∷ []) }
    ensures written_elsewhere { IsVersion (limited_machine 4096 1) word 0 (Entry.Write 1 next_row 5 false ∷ []) }
    ensures wide_row { IsVersion (wide_machine 4096) word 2 (Entry.Write 1 cell_before 5 false ∷ []) }
    ensures odd { ¬ IsVersion (limited_machine 1 1) word 1 (Entry.Write 1 word 5 false ∷ []) }
    ensures not_gone_on { ¬ IsVersion (limited_machine 1 1) word 0 (Entry.Write 1 word 5 false ∷ []) }
{}

/// The word of a thread is 1 from its start on, and 0 before; the start of another is none of it, nor one that it makes.
pub fn words_of_started_threads()
    ensures first { start_mark 2 [] ≡ 0 }
    ensures started { start_mark 2 (Entry.Start 0 2 4096 7 ∷ []) ≡ 1 }
    ensures later_on { start_mark 2 (Entry.Start 0 2 4096 7 ∷ Entry.Clear 0 ∷ Entry.Start 0 3 4096 7 ∷ []) ≡ 1 }
    ensures another { start_mark 3 (Entry.Start 0 2 4096 7 ∷ []) ≡ 0 }
    ensures starter { start_mark 0 (Entry.Start 0 2 4096 7 ∷ []) ≡ 0 }
{}

/// A history is over where it is legal, no call is in flight, no class has had more writes than it may have, and each
/// store-exclusive that has lost has lost to a write of another thread.
pub fn histories_that_are_over()
    ensures nothing { IsOver (made (small_machine 1) true) [] }
    ensures half_a_store { ¬ IsOver (made (small_machine 1) true) (Entry.Begin 0 word ∷ Entry.Write 0 word 5 false ∷ []) }
    ensures of_nobody { ¬ IsOver (made (small_machine 1) true) (Entry.Clear 2 ∷ []) }
    ensures past_the_limit { ¬ IsOver (made (small_machine 1) true) (Entry.Begin 0 word ∷ Entry.Write 0 word 5 false ∷ Entry.End 0 word
        ∷ Entry.Begin 0 word ∷ Entry.Write 0 word 5 false ∷ Entry.End 0 word ∷ []) }
    ensures lost_to_nobody { ¬ IsOver (made (small_machine 1) true) (Entry.Watch 0 word ∷ Entry.Read 0 word 0 true ∷ Entry.Fail 0 word 9 Cause.Lost ∷ []) }
{}

/// A cell is left as the stores leave it, its first byte the least significant, and as it was first where there were none.
#[tactic(auto, unfolding(llsc_base::specs::Memory::row_of, llsc_base::specs::Memory::number_of, llsc_base::specs::Memory::bytes_of))]
pub fn cells_that_are_left()
    ensures first { cell_left (made (small_machine 1) true) [] 1 ≡ 0 }
    ensures stored { cell_left (made (small_machine 1) true) (Entry.Begin 0 word ∷ Entry.Write 0 word 261 false ∷ Entry.End 0 word ∷ []) 1 ≡ 261 }
    ensures in_the_high_word { cell_left (made (small_machine 1) true) (Entry.Write 0 beside 1 false ∷ []) 1 ≡ 4294967296 }
    ensures stored_elsewhere { cell_left (made (small_machine 1) true) (Entry.Write 0 next_row 5 false ∷ []) 1 ≡ 0 }
    ensures stored_last { cell_left (made (small_machine 1) true) (Entry.Write 0 word 5 false ∷ Entry.Write 1 word 6 true ∷ []) 1 ≡ 6 }
{}
