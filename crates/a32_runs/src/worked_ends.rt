//! Worked cases of how threads end, and of what comes of a run of all of them.
ghost use Rattle.std.specs.Prelude.{◌∷◌, ◌++◌, [], false, List, ◌≡◌, replicate, None};
ghost use Rattle.guest_thread.specs.End.{IsEndIn};
ghost use Rattle.guest_thread.specs.Ended.{HasEnded};
ghost use Rattle.guest_thread.specs.Ends.{AreEnds};
ghost use Rattle.guest_thread.specs.Outcome.{IsSpent, IsOutcome, IsEndOn};
ghost use Rattle.guest_thread.specs.Start.{thread_start, first_state};
ghost use Rattle.guest_thread.specs.Worked.{access, end_of, machine_of, next_row, store_of, word};
ghost use Rattle.a32_runs.specs.Leaving.{leaving, loading, storing};
ghost use Rattle.guest_thread.specs.declared.ends.GuestEnd.{GuestEnd};
ghost use Rattle.a32_step.specs.Machine.{a32};
ghost use Rattle.llsc_base.specs.Images.{program_of};
ghost use Rattle.guest_core.specs.Phase.{Between};

use history::{Deed, Entry};
use llsc_base::{Size, Stop};

/// An end has the stop, the steps and the counts of its thread's accesses, whatever another thread's are.
pub fn ends_of_a_thread()
    ensures leaves { IsEndIn a32 leaving 2 (thread_start a32 leaving (machine_of 2 1 1) 2 1) (Entry.Read 0 word 0 false ∷ []) (end_of 1 (Stop.Exit 1) 2 0 0 0) }
    ensures spends { IsEndIn a32 loading 1 (thread_start a32 loading (machine_of 2 1 1) 2 0) (Entry.Read 0 word 7 false ∷ store_of 1 word) (end_of 0 Stop.Budget 1 1 0 0) }
    ensures another_code { ¬ IsEndIn a32 leaving 2 (thread_start a32 leaving (machine_of 2 1 1) 2 1) [] (end_of 1 (Stop.Exit 0) 2 0 0 0) }
    ensures a_step_less { ¬ IsEndIn a32 leaving 2 (thread_start a32 leaving (machine_of 2 1 1) 2 1) [] (end_of 1 (Stop.Exit 1) 1 0 0 0) }
    ensures a_read_more { ¬ IsEndIn a32 leaving 2 (thread_start a32 leaving (machine_of 2 1 1) 2 1) [] (end_of 1 (Stop.Exit 1) 2 1 0 0) }
    ensures asks { ¬ IsEndIn a32 loading 1 (thread_start a32 loading (machine_of 2 1 1) 2 0) (Entry.Read 1 word 7 false ∷ []) (end_of 0 Stop.Budget 1 0 0 0) }
{}

/// The ends of all threads are one of each, in order of number.
pub fn ends_of_all_threads()
    ensures ordered { AreEnds a32 leaving (machine_of 2 1 1) 2 [] (end_of 0 (Stop.Exit 0) 2 0 0 0 ∷ end_of 1 (Stop.Exit 1) 2 0 0 0 ∷ []) }
    ensures exchanged { ¬ AreEnds a32 leaving (machine_of 2 1 1) 2 [] (end_of 1 (Stop.Exit 1) 2 0 0 0 ∷ end_of 0 (Stop.Exit 0) 2 0 0 0 ∷ []) }
    ensures one_missing { ¬ AreEnds a32 leaving (machine_of 2 1 1) 2 [] (end_of 0 (Stop.Exit 0) 2 0 0 0 ∷ []) }
    ensures one_twice { ¬ AreEnds a32 leaving (machine_of 2 1 1) 2 [] (end_of 0 (Stop.Exit 0) 2 0 0 0 ∷ end_of 0 (Stop.Exit 0) 2 0 0 0 ∷ []) }
    ensures another_end { ¬ AreEnds a32 leaving (machine_of 2 1 1) 2 [] (end_of 0 (Stop.Exit 0) 2 0 0 0 ∷ end_of 1 (Stop.Exit 0) 2 0 0 0 ∷ []) }
{}

/// A thread has ended where its accesses lead its run to an end, and not where it still asks.
pub fn threads_that_have_ended()
    ensures left { HasEnded a32 leaving (machine_of 2 1 1) 2 [] 1 }
    ensures spent { HasEnded a32 loading (machine_of 2 1 1) 1 (access 0 Deed.Load 7 ∷ []) 0 }
    ensures asks { ¬ HasEnded a32 loading (machine_of 2 1 1) 1 (access 1 Deed.Load 7 ∷ []) 0 }
{}

/// A class is spent once it has had as many Writes as it may have, and no sooner, wherever in it they are.
#[tactic(auto, unfolding(llsc_base::specs::Memory::row_of, llsc_base::specs::Memory::class_of))]
pub fn spent_classes()
    ensures at_the_limit { IsSpent (machine_of 2 1 2) (store_of 1 word ++ store_of 0 next_row) 8 }
    ensures one_below { ¬ IsSpent (machine_of 2 1 2) (store_of 1 word) 8 }
    ensures wide_row { IsSpent (record { mem = 65536; threads = 2; classes = 2; limit = 1; granule = 1 }) (store_of 1 (record { addr = 0; size = Size.B4 })) 8 }
    ensures narrow_row { ¬ IsSpent (machine_of 2 2 1) (store_of 1 (record { addr = 0; size = Size.B4 })) 8 }
    ensures in_another_class { ¬ IsSpent (machine_of 2 2 1) (store_of 1 next_row) 8 }
{}

/// A thread may end at a store whose class is spent, with its counts, and not where the class isn't.
pub fn ends_at_a_limit()
    ensures by_itself { IsEndOn a32 leaving (machine_of 2 1 1) 2 (thread_start a32 leaving (machine_of 2 1 1) 2 1) [] (end_of 1 (Stop.Exit 1) 2 0 0 0) }
    ensures spent { IsEndOn a32 storing (machine_of 2 1 1) 1 (thread_start a32 storing (machine_of 2 1 1) 2 0) (store_of 1 word) (end_of 0 (Stop.TagLimit 8) 0 0 0 0) }
    ensures not_spent { ¬ IsEndOn a32 storing (machine_of 2 1 2) 1 (thread_start a32 storing (machine_of 2 1 2) 2 0) (store_of 1 word) (end_of 0 (Stop.TagLimit 8) 0 0 0 0) }
    ensures another_count { ¬ IsEndOn a32 storing (machine_of 2 1 1) 1 (thread_start a32 storing (machine_of 2 1 1) 2 0) (store_of 1 word) (end_of 0 (Stop.TagLimit 8) 0 0 1 0) }
{}

/// Of a program that leaves at once an empty history has the one outcome that each thread leaves, in order of number; a history
/// that isn't legal on the program's memory, isn't complete, or has a thread started, has none.
pub fn outcomes()
    ensures outcome { IsOutcome a32 leaving (machine_of 2 1 1) 2 [] (end_of 0 (Stop.Exit 0) 2 0 0 0 ∷ end_of 1 (Stop.Exit 1) 2 0 0 0 ∷ []) }
    ensures another_number { ¬ IsOutcome a32 leaving (machine_of 2 1 1) 2 [] (end_of 1 (Stop.Exit 0) 2 0 0 0 ∷ end_of 1 (Stop.Exit 1) 2 0 0 0 ∷ []) }
    ensures one_missing { ¬ IsOutcome a32 leaving (machine_of 2 1 1) 2 [] (end_of 0 (Stop.Exit 0) 2 0 0 0 ∷ []) }
    ensures another_end { ¬ IsOutcome a32 leaving (machine_of 2 1 1) 2 [] (end_of 0 (Stop.Exit 0) 2 0 0 0 ∷ end_of 1 (Stop.Exit 0) 2 0 0 0 ∷ []) }
    ensures another_memory { (ends : List GuestEnd) → ¬ IsOutcome a32 loading (machine_of 1 1 1) 1 (Entry.Read 0 word 7 false ∷ []) ends }
    ensures not_legal { (ends : List GuestEnd) → ¬ IsOutcome a32 leaving (machine_of 2 1 1) 2 (Entry.Write 0 word 9 false ∷ []) ends }
    ensures not_complete { (ends : List GuestEnd) → ¬ IsOutcome a32 leaving (machine_of 2 1 1) 2 (Entry.Watch 0 word ∷ []) ends }
    ensures one_started { (ends : List GuestEnd) → ¬ IsOutcome a32 leaving (machine_of 2 1 1) 2 (Entry.Start 0 2 0 0 ∷ []) ends }
{}

/// A thread begins at the entry with its number in r0 and the number of those that begin by themselves in r1; its stack is
/// the page of its number behind the room, and r13 has the end of it. All else is 0.
pub fn threads_at_their_start()
    ensures registers { (thread_start a32 leaving (machine_of 2 1 1) 2 0).state.regs ≡ 0 ∷ 2 ∷ replicate 11 0 ++ 61440 ∷ 0 ∷ [] }
    ensures next_thread { (thread_start a32 leaving (machine_of 2 1 1) 2 1).state.regs ≡ 1 ∷ 2 ∷ replicate 11 0 ++ 65536 ∷ 0 ∷ [] }
    ensures one_begins { (thread_start a32 leaving (machine_of 2 1 1) 1 0).state.regs ≡ 0 ∷ 1 ∷ replicate 11 0 ++ 61440 ∷ 0 ∷ [] }
    ensures flags { (thread_start a32 leaving (machine_of 2 1 1) 2 0).state.flags ≡ record { n = false; z = false; c = false; v = false } }
    ensures entry { (thread_start a32 (program_of [] [] 4096) (machine_of 2 1 1) 2 0).state.pc ≡ 4096 }
    ensures phase { (thread_start a32 leaving (machine_of 2 1 1) 2 0).phase ≡ Between }
    ensures replies { (thread_start a32 leaving (machine_of 2 1 1) 2 0).replies ≡ [] }
    ensures steps { (first_state a32 leaving (machine_of 2 1 1) 2 0).steps ≡ 0 }
    ensures output { (first_state a32 leaving (machine_of 2 1 1) 2 0).output ≡ [] }
{}
