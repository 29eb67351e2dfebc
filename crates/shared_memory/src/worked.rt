//! Worked cases of what passes have seen, of the numbers that they hold, and of classes that may take no write.
ghost use Rattle.std.specs.Prelude.{◌≡◌, ◌∷◌, [], false, true};
ghost use Rattle.history.specs.Legal.{IsLegal};
ghost use Rattle.history.specs.Worked.{beside, cell_before, next_row, small_machine, word};
ghost use Rattle.shared_memory.specs.Origin.{IsLegalFrom};
ghost use Rattle.shared_memory.specs.Seen.{IsFront, IsOneOf, IsSingle, IsUsedUp, SaysAllOf, Sees, all_but, joint, longer};
ghost use Rattle.shared_memory.specs.Worked.{alone, below, limited_machine, made, wide_limited_machine};

use history::Entry;

/// A front of a history is where it begins, from nothing up to all of it.
pub fn fronts_of_a_history()
    ensures nothing { IsFront [] (Entry.Clear 0 ∷ Entry.Clear 1 ∷ []) }
    ensures front { IsFront (Entry.Clear 0 ∷ []) (Entry.Clear 0 ∷ Entry.Clear 1 ∷ []) }
    ensures all { IsFront (Entry.Clear 0 ∷ Entry.Clear 1 ∷ []) (Entry.Clear 0 ∷ Entry.Clear 1 ∷ []) }
    ensures back { ¬ IsFront (Entry.Clear 1 ∷ []) (Entry.Clear 0 ∷ Entry.Clear 1 ∷ []) }
    ensures more { ¬ IsFront (Entry.Clear 0 ∷ Entry.Clear 1 ∷ []) (Entry.Clear 0 ∷ []) }
{}

/// Of two histories the longer one is kept, and the first where neither is longer.
pub fn longer_histories()
    ensures first { longer (Entry.Clear 0 ∷ Entry.Clear 1 ∷ []) (Entry.Clear 0 ∷ []) ≡ Entry.Clear 0 ∷ Entry.Clear 1 ∷ [] }
    ensures second { longer (Entry.Clear 0 ∷ []) (Entry.Clear 0 ∷ Entry.Clear 1 ∷ []) ≡ Entry.Clear 0 ∷ Entry.Clear 1 ∷ [] }
    ensures as_long { longer (Entry.Clear 0 ∷ []) (Entry.Clear 1 ∷ []) ≡ Entry.Clear 0 ∷ [] }
{}

/// A number is one of those that a test takes, and single where it is taken and no other is.
pub fn numbers_of_a_pass()
    ensures taken { IsOneOf 1 (below 2) }
    ensures not_taken { ¬ IsOneOf 2 (below 2) }
    ensures single { IsSingle 1 (alone 1) }
    ensures one_of_several { ¬ IsSingle 1 (below 2) }
    ensures of_another { ¬ IsSingle 0 (alone 1) }
    ensures of_none { ¬ IsSingle 0 (below 0) }
{}

/// All numbers but one are those that were taken, without it; those of two are those of the one and of the other.
pub fn numbers_that_are_dealt_out()
    ensures kept { all_but 1 (below 3) 0 ≡ true }
    ensures kept_above { all_but 1 (below 3) 2 ≡ true }
    ensures given { all_but 1 (below 3) 1 ≡ false }
    ensures never_there { all_but 1 (below 3) 3 ≡ false }
    ensures mine { joint (alone 0) (alone 2) 0 ≡ true }
    ensures yours { joint (alone 0) (alone 2) 2 ≡ true }
    ensures nobodys { joint (alone 0) (alone 2) 1 ≡ false }
{}

/// What was seen says all of a thread where a longer history has no more entries of the thread's, not even marks; of others
/// nothing is said.
pub fn what_is_said_of_threads()
    ensures of_the_thread { SaysAllOf (alone 0) (Entry.Clear 0 ∷ []) (Entry.Clear 0 ∷ Entry.Clear 1 ∷ []) }
    ensures of_nobody { SaysAllOf (below 0) [] (Entry.Clear 0 ∷ []) }
    ensures of_another { ¬ SaysAllOf (alone 1) (Entry.Clear 0 ∷ []) (Entry.Clear 0 ∷ Entry.Clear 1 ∷ []) }
    ensures of_both { ¬ SaysAllOf (below 2) (Entry.Clear 0 ∷ []) (Entry.Clear 0 ∷ Entry.Clear 1 ∷ []) }
    ensures of_a_mark { ¬ SaysAllOf (alone 0) (Entry.Clear 0 ∷ []) (Entry.Clear 0 ∷ Entry.Watch 0 word ∷ []) }
{}

/// A memory's history is legal, its threads are the machine's, and where none is spare no thread is started.
pub fn histories_of_a_memory()
    ensures known { IsLegalFrom (made (small_machine 1) true) (Entry.Watch 1 word ∷ []) }
    ensures unknown { ¬ IsLegalFrom (made (small_machine 1) true) (Entry.Watch 2 word ∷ []) }
    ensures unknown_but_legal { IsLegal (small_machine 1) [] (Entry.Watch 2 word ∷ []) }
    ensures not_legal { ¬ IsLegalFrom (made (small_machine 1) true) (Entry.Write 0 word 9 false ∷ []) }
    ensures none_spare { ¬ IsLegalFrom (made (small_machine 1) true) (Entry.Start 0 2 4096 7 ∷ []) }
    ensures none_spare_but_legal { IsLegal (small_machine 1) [] (Entry.Start 0 2 4096 7 ∷ []) }
{}

/// A pass sees more where the history goes on behind what it had seen, with just these entries of the thread, marks too, and
/// any of others.
pub fn what_is_seen()
    ensures own { Sees (made (small_machine 1) true) 0 (Entry.Clear 0 ∷ []) (Entry.Clear 0 ∷ []) (Entry.Clear 0 ∷ Entry.Clear 1 ∷ Entry.Clear 0 ∷ []) }
    ensures of_others { Sees (made (small_machine 1) true) 0 (Entry.Clear 0 ∷ []) [] (Entry.Clear 0 ∷ Entry.Clear 1 ∷ []) }
    ensures mark { Sees (made (small_machine 1) true) 0 [] (Entry.Watch 0 word ∷ []) (Entry.Watch 0 word ∷ []) }
    ensures begun_before { Sees (made (small_machine 1) true) 0 (Entry.Begin 0 word ∷ []) (Entry.Write 0 word 5 false ∷ [])
        (Entry.Begin 0 word ∷ Entry.Write 0 word 5 false ∷ []) }
    ensures seen_before { ¬ Sees (made (small_machine 1) true) 0 (Entry.Clear 0 ∷ []) (Entry.Clear 0 ∷ []) (Entry.Clear 0 ∷ []) }
    ensures more_of_its_own { ¬ Sees (made (small_machine 1) true) 0 [] (Entry.Clear 0 ∷ []) (Entry.Clear 0 ∷ Entry.Clear 0 ∷ []) }
    ensures of_another { ¬ Sees (made (small_machine 1) true) 0 [] (Entry.Clear 1 ∷ []) (Entry.Clear 1 ∷ []) }
    ensures not_behind { ¬ Sees (made (small_machine 1) true) 0 (Entry.Clear 1 ∷ []) (Entry.Clear 0 ∷ []) (Entry.Clear 0 ∷ Entry.Clear 1 ∷ []) }
    ensures not_legal_as_a_whole { ¬ Sees (made (small_machine 1) true) 0 (Entry.Begin 0 word ∷ []) (Entry.Clear 0 ∷ [])
        (Entry.Begin 0 word ∷ Entry.Clear 0 ∷ []) }
{}

/// A class may take no write where memory counts them and the class has had the limit of them, in any of its rows, or more. It
/// is named by its number, and not by that of a row, and with the limit.
#[tactic(auto, unfolding(llsc_base::specs::Memory::row_of, llsc_base::specs::Memory::class_of))]
pub fn classes_that_are_used_up()
    ensures full { IsUsedUp (made (limited_machine 2 2) true) next_row 0 2 (Entry.Write 1 cell_before 5 false ∷ Entry.Write 0 next_row 9 true ∷ []) }
    ensures overfull { IsUsedUp (made (limited_machine 2 2) true) next_row 0 2
        (Entry.Write 1 next_row 5 false ∷ Entry.Write 0 next_row 6 false ∷ Entry.Write 0 next_row 7 false ∷ []) }
    ensures wide_row { IsUsedUp (made (wide_limited_machine 2 2) true) word 0 2 (Entry.Write 1 cell_before 5 false ∷ Entry.Write 0 word 9 true ∷ []) }
    ensures by_its_row { ¬ IsUsedUp (made (limited_machine 2 2) true) next_row 2 2 (Entry.Write 1 cell_before 5 false ∷ Entry.Write 0 next_row 9 true ∷ []) }
    ensures by_its_writes { ¬ IsUsedUp (made (limited_machine 2 2) true) next_row 0 3
        (Entry.Write 1 next_row 5 false ∷ Entry.Write 0 next_row 6 false ∷ Entry.Write 0 next_row 7 false ∷ []) }
    ensures one_below { ¬ IsUsedUp (made (limited_machine 2 2) true) next_row 0 2 (Entry.Write 1 cell_before 5 false ∷ []) }
    ensures in_another_class { ¬ IsUsedUp (made (limited_machine 2 2) true) next_row 0 2 (Entry.Write 1 word 5 false ∷ Entry.Write 0 beside 9 true ∷ []) }
    ensures only_begun { ¬ IsUsedUp (made (limited_machine 2 2) true) next_row 0 2
        (Entry.Write 1 next_row 5 false ∷ Entry.End 1 next_row ∷ Entry.Begin 0 next_row ∷ []) }
    ensures not_counted { ¬ IsUsedUp (made (limited_machine 2 2) false) next_row 0 2 (Entry.Write 1 cell_before 5 false ∷ Entry.Write 0 next_row 9 true ∷ []) }
{}
