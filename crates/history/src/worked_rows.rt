//! Worked cases of rows: of each granule, and what rows of 16 bytes make of marks, reservations and causes.
ghost use Rattle.std.specs.Prelude.{◌≡◌, ◌∷◌, [], false, true, None, Some};
ghost use Rattle.llsc_base.specs.Memory.{row_of};
ghost use Rattle.history.specs.Cause.{MayFail, writes_in_class};
ghost use Rattle.history.specs.Class.{comer_in, edges_of, last_of, writer_in};
ghost use Rattle.history.specs.Entry.{is_in_class};
ghost use Rattle.history.specs.Marked.{byte_place, is_write_in};
ghost use Rattle.history.specs.Monitor.{marked_row, monitor_after};
ghost use Rattle.history.specs.Reservation.{reservation_of};
ghost use Rattle.history.specs.Standing.{standing_after, standing_of};
ghost use Rattle.history.specs.Worked.{cell_before, next_row, small_machine, wide_machine, wide_memory, word};

use crate::entry::{Cause, Entry};

/// The first row of each granule ends with its last byte.
#[tactic(auto, unfolding(llsc_base::specs::Memory::class_of, llsc_base::specs::Memory::row_of))]
pub fn rows_of_each_granule()
    ensures last_of_8 { row_of 0 (byte_place 7) ≡ 0 }
    ensures behind_8 { row_of 0 (byte_place 8) ≡ 1 }
    ensures last_of_16 { row_of 1 (byte_place 15) ≡ 0 }
    ensures behind_16 { row_of 1 (byte_place 16) ≡ 1 }
    ensures last_of_32 { row_of 2 (byte_place 31) ≡ 0 }
    ensures behind_32 { row_of 2 (byte_place 32) ≡ 1 }
    ensures last_of_64 { row_of 3 (byte_place 63) ≡ 0 }
    ensures behind_64 { row_of 3 (byte_place 64) ≡ 1 }
    ensures last_of_128 { row_of 4 (byte_place 127) ≡ 0 }
    ensures behind_128 { row_of 4 (byte_place 128) ≡ 1 }
    ensures last_of_256 { row_of 5 (byte_place 255) ≡ 0 }
    ensures behind_256 { row_of 5 (byte_place 256) ≡ 1 }
    ensures last_of_512 { row_of 6 (byte_place 511) ≡ 0 }
    ensures behind_512 { row_of 6 (byte_place 512) ≡ 1 }
    ensures last_of_1024 { row_of 7 (byte_place 1023) ≡ 0 }
    ensures behind_1024 { row_of 7 (byte_place 1024) ≡ 1 }
    ensures last_of_2048 { row_of 8 (byte_place 2047) ≡ 0 }
    ensures behind_2048 { row_of 8 (byte_place 2048) ≡ 1 }
{}

/// A write in another cell of a wide row ends a mark, and one in the next row doesn't.
#[tactic(auto, unfolding(llsc_base::specs::Memory::class_of, llsc_base::specs::Memory::row_of))]
pub fn marks_of_wide_rows()
    ensures marked { marked_row (monitor_after wide_memory (Entry.Read 0 word 0 true ∷ [])) 0 ≡ Some 0 }
    ensures overwritten { marked_row (monitor_after wide_memory (Entry.Read 0 word 0 true ∷ Entry.Write 1 cell_before 0 false ∷ [])) 0 ≡ None }
    ensures written_elsewhere { marked_row (monitor_after wide_memory (Entry.Read 0 word 0 true ∷ Entry.Write 1 next_row 0 false ∷ [])) 0 ≡ Some 0 }
    ensures write { is_write_in 1 0 (Entry.Write 1 cell_before 0 false) ≡ true }
    ensures not_in_it { is_write_in 1 0 (Entry.Write 1 next_row 0 false) ≡ false }
{}

/// A reservation is on a wide row, ends with its thread's own write of another cell of it, and stands so too.
#[tactic(auto, unfolding(llsc_base::specs::Memory::class_of, llsc_base::specs::Memory::row_of))]
pub fn reservations_on_wide_rows()
    ensures watched { reservation_of (wide_machine 4096) 0 (Entry.Watch 0 word ∷ []) ≡ Some 0 }
    ensures beside { reservation_of (wide_machine 4096) 0 (Entry.Watch 0 word ∷ Entry.Begin 0 cell_before ∷ []) ≡ None }
    ensures elsewhere { reservation_of (wide_machine 4096) 0 (Entry.Watch 0 word ∷ Entry.Begin 0 next_row ∷ []) ≡ Some 0 }
    ensures stands { (standing_after (wide_machine 4096) (standing_of []) (Entry.Watch 0 word ∷ [])).reserved 0 ≡ Some 0 }
    ensures falls { (standing_after (wide_machine 4096) (standing_of []) (Entry.Watch 0 word ∷ Entry.Begin 0 cell_before ∷ [])).reserved 0 ≡ None }
    ensures mark { (standing_after (wide_machine 4096) (standing_of []) (Entry.Read 0 word 0 true ∷ [])).mark 0 ≡ Some 0 }
{}

/// What a history says of the class of a wide row counts all cells of the row.
#[tactic(auto, unfolding(llsc_base::specs::Memory::class_of, llsc_base::specs::Memory::row_of))]
pub fn classes_of_wide_rows()
    ensures same { is_in_class (wide_machine 4096) 0 cell_before ≡ true }
    ensures next { is_in_class (wide_machine 4096) 0 next_row ≡ false }
    ensures small { is_in_class (small_machine 4096) 1 cell_before ≡ false }
    ensures writes { writes_in_class (wide_machine 4096) 0 (Entry.Write 1 cell_before 0 false ∷ Entry.Write 1 word 0 false
        ∷ Entry.Write 1 next_row 0 false ∷ []) ≡ 2 }
    ensures edges { edges_of (wide_machine 4096) 0 (Entry.Begin 1 cell_before ∷ Entry.End 1 next_row ∷ []) ≡ 1 }
    ensures writer { last_of (writer_in (wide_machine 4096) 0) (Entry.Begin 1 cell_before ∷ Entry.Begin 0 next_row ∷ []) ≡ Some 1 }
    ensures comer { last_of (comer_in (wide_machine 4096) 0) (Entry.Watch 1 cell_before ∷ Entry.Watch 0 next_row ∷ []) ≡ Some 1 }
{}

/// A store-exclusive may fail as lost by another thread's write of another cell of a wide row, as full by one write of another cell,
/// and not for what falls into the next row.
#[tactic(auto, unfolding(llsc_base::specs::Memory::class_of, llsc_base::specs::Memory::row_of))]
pub fn failing_on_wide_rows()
    ensures lost { MayFail (wide_machine 4096) (Entry.Watch 0 word ∷ Entry.Begin 1 cell_before ∷ []) 0 word Cause.Lost }
    ensures not_lost { ¬ MayFail (wide_machine 4096) (Entry.Watch 0 word ∷ Entry.Begin 1 next_row ∷ []) 0 word Cause.Lost }
    ensures full { MayFail (wide_machine 4096) (Entry.Write 1 cell_before 5 false ∷ Entry.Watch 0 word ∷ []) 0 word Cause.Limit }
    ensures absent { MayFail (wide_machine 4096) (Entry.Watch 0 next_row ∷ []) 0 word Cause.Absent }
    ensures not_absent { ¬ MayFail (wide_machine 4096) (Entry.Watch 0 cell_before ∷ []) 0 word Cause.Absent }
{}
