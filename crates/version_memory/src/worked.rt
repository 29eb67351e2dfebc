//! Worked cases of where an entry stands, of its stamp, and of store-exclusives that have failed.
//!
//! Where there is one class, the next row falls into it, and where there are 4096 it doesn't.
ghost use Rattle.std.specs.Prelude.{◌≡◌, ◌∷◌, [], false};
ghost use Rattle.history.specs.Worked.{cell_before, next_row, wide_machine, word};
ghost use Rattle.shared_memory.specs.Worked.{limited_machine};
ghost use Rattle.version_memory.specs.Exact.{HasFailedAt};
ghost use Rattle.version_memory.specs.Stands.{HasRoom, IsStamped, Stands};

use history::{Cause, Entry};

/// An entry stands in what was seen, behind what had been seen, and what is so of all before it isn't asked of what is behind it.
pub fn entries_that_stand()
    ensures behind { Stands (λ past. past ≡ Entry.Clear 1 ∷ []) (Entry.Clear 0) (Entry.Clear 1 ∷ [])
        (Entry.Clear 1 ∷ Entry.Clear 0 ∷ Entry.Clear 1 ∷ []) }
    ensures later { Stands (λ past. past ≡ Entry.Clear 1 ∷ []) (Entry.Clear 0) [] (Entry.Clear 1 ∷ Entry.Clear 0 ∷ []) }
    ensures seen_before { ¬ Stands (λ past. past ≡ []) (Entry.Clear 0) (Entry.Clear 0 ∷ []) (Entry.Clear 0 ∷ Entry.Clear 1 ∷ []) }
    ensures another { ¬ Stands (λ past. past ≡ []) (Entry.Clear 0) [] (Entry.Clear 1 ∷ []) }
    ensures with_itself { ¬ Stands (λ past. past ≡ Entry.Clear 0 ∷ []) (Entry.Clear 0) [] (Entry.Clear 0 ∷ []) }
{}

/// A stamp is the number of writes that the class has had before the entry, in any of its rows.
#[tactic(auto, unfolding(llsc_base::specs::Memory::row_of, llsc_base::specs::Memory::class_of))]
pub fn stamps_of_entries()
    ensures first { IsStamped (limited_machine 1 2) word 0 (Entry.Write 0 word 9 false) [] (Entry.Write 0 word 9 false ∷ []) }
    ensures second { IsStamped (limited_machine 1 2) word 1 (Entry.Write 0 word 9 false) []
        (Entry.Write 1 next_row 5 false ∷ Entry.Write 0 word 9 false ∷ []) }
    ensures written_elsewhere { IsStamped (limited_machine 4096 2) word 0 (Entry.Write 0 word 9 false) []
        (Entry.Write 1 next_row 5 false ∷ Entry.Write 0 word 9 false ∷ []) }
    ensures wide_row { IsStamped (wide_machine 4096) word 1 (Entry.Read 0 word 0 false) [] (Entry.Write 1 cell_before 5 false
        ∷ Entry.Read 0 word 0 false ∷ []) }
    ensures begun { IsStamped (limited_machine 1 2) word 0 (Entry.Read 0 word 0 false) []
        (Entry.Begin 1 word ∷ Entry.Read 0 word 0 false ∷ []) }
    ensures with_itself { ¬ IsStamped (limited_machine 1 2) word 1 (Entry.Write 0 word 9 false) [] (Entry.Write 0 word 9 false ∷ []) }
    ensures written_after { ¬ IsStamped (limited_machine 1 2) word 1 (Entry.Read 0 word 0 false) []
        (Entry.Read 0 word 0 false ∷ Entry.Write 1 word 5 false ∷ []) }
{}

/// A class has room before an entry where it has had fewer writes than it may have.
#[tactic(auto, unfolding(llsc_base::specs::Memory::row_of, llsc_base::specs::Memory::class_of))]
pub fn classes_with_room()
    ensures room { HasRoom (limited_machine 1 2) word (Entry.Begin 0 word) []
        (Entry.Write 1 next_row 5 false ∷ Entry.Begin 0 word ∷ []) }
    ensures full_elsewhere { HasRoom (limited_machine 4096 1) word (Entry.Begin 0 word) []
        (Entry.Write 1 next_row 5 false ∷ Entry.Begin 0 word ∷ []) }
    ensures full_after { HasRoom (limited_machine 1 1) word (Entry.Begin 0 word) []
        (Entry.Begin 0 word ∷ Entry.Write 0 word 5 false ∷ []) }
    ensures full { ¬ HasRoom (limited_machine 1 1) word (Entry.Begin 0 word) []
        (Entry.Write 1 next_row 5 false ∷ Entry.Begin 0 word ∷ []) }
    ensures full_wide_row { ¬ HasRoom (wide_machine 4096) word (Entry.Begin 0 word) [] (Entry.Write 1 cell_before 5 false
        ∷ Entry.Begin 0 word ∷ []) }
{}

/// A store-exclusive has failed where its thread wasn't undisturbed: for want of a reservation, at the limit, or lost, and that
/// only to a write of another that had begun in the class since the reservation.
#[tactic(auto, unfolding(llsc_base::specs::Memory::row_of, llsc_base::specs::Memory::class_of))]
pub fn store_exclusives_that_failed()
    ensures absent { HasFailedAt (limited_machine 1 1) 0 word 9 [] (Entry.Fail 0 word 9 Cause.Absent ∷ []) }
    ensures lost { HasFailedAt (limited_machine 1 1) 0 word 9 (Entry.Watch 0 word ∷ [])
        (Entry.Watch 0 word ∷ Entry.Begin 1 next_row ∷ Entry.Fail 0 word 9 Cause.Lost ∷ []) }
    ensures full { HasFailedAt (limited_machine 1 1) 0 word 9 (Entry.Write 1 word 5 false ∷ [])
        (Entry.Write 1 word 5 false ∷ Entry.Watch 0 word ∷ Entry.Fail 0 word 9 Cause.Limit ∷ []) }
    ensures undisturbed { ¬ HasFailedAt (limited_machine 1 1) 0 word 9 (Entry.Watch 0 word ∷ [])
        (Entry.Watch 0 word ∷ Entry.Fail 0 word 9 Cause.Absent ∷ []) }
    ensures not_full { ¬ HasFailedAt (limited_machine 1 2) 0 word 9 (Entry.Write 1 word 5 false ∷ [])
        (Entry.Write 1 word 5 false ∷ Entry.Watch 0 word ∷ Entry.Fail 0 word 9 Cause.Limit ∷ []) }
    ensures reserved_by_another { ¬ HasFailedAt (limited_machine 1 1) 0 word 9 (Entry.Watch 0 word ∷ [])
        (Entry.Watch 0 word ∷ Entry.Watch 1 word ∷ Entry.Fail 0 word 9 Cause.Lost ∷ []) }
    ensures begun_elsewhere { ¬ HasFailedAt (limited_machine 4096 1) 0 word 9 (Entry.Watch 0 word ∷ [])
        (Entry.Watch 0 word ∷ Entry.Begin 1 next_row ∷ Entry.Fail 0 word 9 Cause.Lost ∷ []) }
    ensures lost_without_a_reservation { ¬ HasFailedAt (limited_machine 1 1) 0 word 9 [] (Entry.Fail 0 word 9 Cause.Lost ∷ []) }
    ensures another_value { ¬ HasFailedAt (limited_machine 1 1) 0 word 9 [] (Entry.Fail 0 word 8 Cause.Absent ∷ []) }
    ensures seen_before { ¬ HasFailedAt (limited_machine 1 1) 0 word 9 (Entry.Fail 0 word 9 Cause.Absent ∷ [])
        (Entry.Fail 0 word 9 Cause.Absent ∷ []) }
{}
