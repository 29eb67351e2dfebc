//! Worked turns and traces of small programs.
ghost use Rattle.std.specs.Prelude.{◌≡◌, ◌∷◌, []};
ghost use Rattle.guest_machine.specs.Traces.{IsLegalTrace, IsTraceRecord};
ghost use Rattle.guest_machine.specs.Turns.{IsTooLong, IsTrace, Takes};
ghost use Rattle.a32_runs.specs.Turns.{access_at, leaving, load_by, loading, looping, small_machine, small_record};
ghost use Rattle.a32_step.specs.Machine.{a32};

use history::Deed;
use llsc_base::Size;

/// Each turn draws a number; the thread that it names makes an access, which memory answers, or stops.
pub fn turns_taken()
    ensures none { Takes a32 leaving (small_machine 2) 0 10 0 (0 ∷ 1 ∷ []) [] }
    ensures stopped { Takes a32 leaving (small_machine 2) 0 10 1442695040888963407 (0 ∷ []) [] }
    ensures loaded { Takes a32 loading (small_machine 2) 0 10 1442695040888963407 (0 ∷ 1 ∷ []) (load_by 1 0xE5942000 ∷ []) }
{}

/// Threads that leave at once make no access in a trace, and two that load make one each, in the order of their turns.
pub fn traces_of_small_programs()
    ensures empty { IsTrace a32 leaving (small_machine 1) 0 10 [] }
    ensures loads { IsTrace a32 loading (small_machine 2) 0 10 (load_by 1 0xE5942000 ∷ load_by 0 0xE5942000 ∷ []) }
    ensures invented { ¬ IsTrace a32 leaving (small_machine 1) 0 10 (load_by 0 0 ∷ []) }
    ensures unfinished { ¬ IsTrace a32 loading (small_machine 2) 0 10 (load_by 1 0xE5942000 ∷ []) }
    ensures exchanged { ¬ IsTrace a32 loading (small_machine 2) 0 10 (load_by 0 0xE5942000 ∷ load_by 1 0xE5942000 ∷ []) }
    ensures another_value { ¬ IsTrace a32 loading (small_machine 2) 0 10 (load_by 1 0 ∷ load_by 0 0xE5942000 ∷ []) }
    ensures not_too_long { ¬ IsTooLong a32 loading (small_machine 2) 0 10 }
{}

/// A thread that makes a load in every second step has a trace that is too long from the budget on that lets it make one more
/// than a million of them.
pub fn traces_that_are_too_long()
    ensures one_more { IsTooLong a32 looping (small_machine 1) 0 2000001 }
    ensures a_million { ¬ IsTooLong a32 looping (small_machine 1) 0 2000000 }
{}

/// The record of a trace has its accesses, and the threads, the granule and the budget of the run.
pub fn records_of_traces()
    ensures empty { IsTraceRecord a32 leaving (small_machine 1) 0 10 (small_record 1 []) }
    ensures loads { IsTraceRecord a32 loading (small_machine 2) 0 10 (small_record 2 (load_by 1 0xE5942000 ∷ load_by 0 0xE5942000 ∷ [])) }
    ensures more_threads { ¬ IsTraceRecord a32 leaving (small_machine 2) 0 10 (small_record 1 []) }
    ensures wider_rows { ¬ IsTraceRecord a32 leaving (record (small_machine 1) { granule = 1 }) 0 10 (small_record 1 []) }
    ensures another_budget { ¬ IsTraceRecord a32 leaving (small_machine 1) 0 11 (small_record 1 []) }
    ensures no_budget { ¬ IsTraceRecord a32 leaving (small_machine 1) 0 0 (record (small_record 1 []) { budget = 0 }) }
    ensures invented { ¬ IsTraceRecord a32 leaving (small_machine 1) 0 10 (small_record 1 (load_by 0 0 ∷ [])) }
{}

/// Arm allows accesses to the program's memory that have its values, and no others.
pub fn legal_traces()
    ensures loads { IsLegalTrace loading (small_machine 2) (load_by 1 0xE5942000 ∷ load_by 0 0xE5942000 ∷ []) }
    ensures another_value { ¬ IsLegalTrace loading (small_machine 2) (load_by 1 0 ∷ []) }
    ensures no_thread { ¬ IsLegalTrace loading (small_machine 1) (load_by 1 0xE5942000 ∷ []) }
{}

/// It allows none past the end of the eight bytes of memory, at no multiple of its size, or with a value that its size doesn't hold, be it
/// a store-exclusive that failed.
pub fn accesses_that_no_trace_has()
    ensures last_byte { IsLegalTrace leaving (small_machine 1) (access_at Deed.StoreFail 7 Size.B1 255 ∷ []) }
    ensures load_outside { ¬ IsLegalTrace leaving (small_machine 1) (access_at Deed.Load 8 Size.B4 0 ∷ []) }
    ensures load_unaligned { ¬ IsLegalTrace leaving (small_machine 1) (access_at Deed.Load 5 Size.B2 0 ∷ []) }
    ensures load_exclusive_outside { ¬ IsLegalTrace leaving (small_machine 1) (access_at Deed.LoadEx 8 Size.B1 0 ∷ []) }
    ensures store_outside { ¬ IsLegalTrace leaving (small_machine 1) (access_at Deed.Store 8 Size.B1 0 ∷ []) }
    ensures store_unaligned { ¬ IsLegalTrace leaving (small_machine 1) (access_at Deed.Store 2 Size.B4 0 ∷ []) }
    ensures store_too_great { ¬ IsLegalTrace leaving (small_machine 1) (access_at Deed.Store 4 Size.B1 256 ∷ []) }
    ensures failed_outside { ¬ IsLegalTrace leaving (small_machine 1) (access_at Deed.StoreFail 8 Size.B1 0 ∷ []) }
    ensures failed_unaligned { ¬ IsLegalTrace leaving (small_machine 1) (access_at Deed.StoreFail 2 Size.B4 0 ∷ []) }
    ensures failed_too_great { ¬ IsLegalTrace leaving (small_machine 1) (access_at Deed.StoreFail 4 Size.B1 256 ∷ []) }
{}
