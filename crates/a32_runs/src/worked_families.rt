//! Worked cases of what comes of a run of threads that may start others: which have begun, where, and which ends are theirs.
ghost use Rattle.std.specs.Prelude.{◌≡◌, ◌++◌, ◌∷◌, [], List, None, Some, false, replicate};
ghost use Rattle.guest_core.specs.Phase.{Between};
ghost use Rattle.guest_thread.specs.Begun.{BeginsAs, begun_in, child_start, stock_of};
ghost use Rattle.guest_thread.specs.BegunOutcome.{IsOutcomeFrom, IsStockEndOn};
ghost use Rattle.guest_thread.specs.Start.{thread_start};
ghost use Rattle.guest_thread.specs.Worked.{end_of, machine_of, store_of, word};
ghost use Rattle.guest_thread.specs.declared.ends.GuestEnd.{GuestEnd};
ghost use Rattle.a32_runs.specs.Leaving.{leaving, loading, starting, storing};
ghost use Rattle.a32_step.specs.Machine.{Machine, a32};

use history::Entry;
use llsc_base::Stop;

/// The threads that have begun are the first, and behind them those that each of them has started, one thread's before the next
/// one's.
pub fn threads_that_have_begun()
    ensures none_started { begun_in 2 [] ≡ 0 ∷ 1 ∷ [] }
    ensures by_their_starters { begun_in 2 (Entry.Start 1 4 8 7 ∷ Entry.Start 0 2 8 9 ∷ Entry.Clear 4 ∷ Entry.Start 1 5 0 7 ∷ [])
        ≡ 0 ∷ 1 ∷ 2 ∷ 4 ∷ 5 ∷ [] }
{}

/// Each of the first threads has as many numbers as are spare, behind those of the first and of the threads before it; a thread that
/// was started has none left; and where none is spare nobody has a stock.
pub fn stocks_of_threads()
    ensures first { stock_of 2 3 0 ≡ Some (record { first = 2; count = 3 }) }
    ensures second { stock_of 2 3 1 ≡ Some (record { first = 5; count = 3 }) }
    ensures of_a_started_one { stock_of 2 3 2 ≡ Some (record { first = 0; count = 0 }) }
    ensures without_a_spare { stock_of 2 0 0 ≡ None }
{}

/// A thread that was started begins at its address, with its argument in r0 and its number in r1; its stack is the page of its number
/// behind the room, and r13 has the end of it. All else is 0.
pub fn started_threads_at_their_start()
    ensures registers { (child_start a32 (machine_of 3 1 1) 1 8 7).state.regs ≡ 7 ∷ 1 ∷ replicate 11 0 ++ 61440 ∷ 0 ∷ [] }
    ensures last { (child_start a32 (machine_of 3 1 1) 2 8 7).state.regs ≡ 7 ∷ 2 ∷ replicate 11 0 ++ 65536 ∷ 0 ∷ [] }
    ensures flags { (child_start a32 (machine_of 3 1 1) 2 8 7).state.flags ≡ record { n = false; z = false; c = false; v = false } }
    ensures entry { (child_start a32 (machine_of 3 1 1) 2 8 7).state.pc ≡ 8 }
    ensures phase { (child_start a32 (machine_of 3 1 1) 2 8 7).phase ≡ Between }
    ensures replies { (child_start a32 (machine_of 3 1 1) 2 8 7).replies ≡ [] }
{}

/// One of the first threads begins by itself, and any other as an entry of the history starts it.
pub fn threads_that_begin()
    ensures by_itself { BeginsAs a32 leaving (machine_of 2 1 1) 1 [] 0 (thread_start a32 leaving (machine_of 2 1 1) 1 0) }
    ensures by_its_start { BeginsAs a32 leaving (machine_of 2 1 1) 1 (Entry.Start 0 1 4 7 ∷ []) 1 (child_start a32 (machine_of 2 1 1) 1 4 7) }
    ensures not_started { (start : Machine) → ¬ BeginsAs a32 leaving (machine_of 2 1 1) 1 [] 1 start }
    ensures another_started { (start : Machine) → ¬ BeginsAs a32 leaving (machine_of 2 1 1) 1 (Entry.Start 0 2 4 7 ∷ []) 1 start }
{}

/// A thread ends as one without a stock does that starts none: by itself, or at a store whose class is spent, and with the counts of its
/// accesses.
pub fn ends_of_a_thread_without_a_stock()
    ensures by_itself { IsStockEndOn a32 None leaving (machine_of 2 1 1) 2 (thread_start a32 leaving (machine_of 2 1 1) 2 1) [] (end_of 1 (Stop.Exit 1) 2 0 0 0) }
    ensures spent { IsStockEndOn a32 None storing (machine_of 2 1 1) 1 (thread_start a32 storing (machine_of 2 1 1) 2 0) (store_of 1 word)
        (end_of 0 (Stop.TagLimit 8) 0 0 0 0) }
    ensures not_spent { ¬ IsStockEndOn a32 None storing (machine_of 2 1 2) 1 (thread_start a32 storing (machine_of 2 1 2) 2 0) (store_of 1 word)
        (end_of 0 (Stop.TagLimit 8) 0 0 0 0) }
    ensures another_count { ¬ IsStockEndOn a32 None storing (machine_of 2 1 1) 1 (thread_start a32 storing (machine_of 2 1 1) 2 0) (store_of 1 word)
        (end_of 0 (Stop.TagLimit 8) 0 0 1 0) }
    ensures starts_none { ¬ IsStockEndOn a32 None leaving (machine_of 2 1 1) 2 (thread_start a32 leaving (machine_of 2 1 1) 2 1) (Entry.Start 1 2 4 7 ∷ [])
        (end_of 1 (Stop.Exit 1) 2 0 0 0) }
{}

/// The outcome of a thread that starts none, and of one that starts another, at its first instruction and with the argument 1: the ends of
/// the threads that have begun, in order.
pub fn outcomes()
    ensures of_one { IsOutcomeFrom a32 leaving (machine_of 2 1 1) 1 1 2 [] (end_of 0 (Stop.Exit 0) 2 0 0 0 ∷ []) }
    ensures of_two { IsOutcomeFrom a32 starting (machine_of 2 1 1) 1 1 3 (Entry.Start 0 1 0 1 ∷ []) (end_of 0 Stop.Budget 3 0 0 0 ∷ end_of 1 Stop.Budget 3 0 0 0 ∷ []) }
    ensures not_begun { ¬ IsOutcomeFrom a32 leaving (machine_of 2 1 1) 1 1 2 [] (end_of 0 (Stop.Exit 0) 2 0 0 0 ∷ end_of 1 (Stop.Exit 1) 2 0 0 0 ∷ []) }
    ensures one_missing { ¬ IsOutcomeFrom a32 starting (machine_of 2 1 1) 1 1 3 (Entry.Start 0 1 0 1 ∷ []) (end_of 0 Stop.Budget 3 0 0 0 ∷ []) }
    ensures exchanged { ¬ IsOutcomeFrom a32 starting (machine_of 2 1 1) 1 1 3 (Entry.Start 0 1 0 1 ∷ []) (end_of 1 Stop.Budget 3 0 0 0 ∷ end_of 0 Stop.Budget 3 0 0 0 ∷ []) }
{}

/// A history that isn't legal on the program's memory, isn't complete, in which a thread acts that nobody has started, or one starts more
/// than are spare, has no outcome.
pub fn histories_without_an_outcome()
    ensures another_memory { (ends : List GuestEnd) → ¬ IsOutcomeFrom a32 loading (machine_of 2 1 1) 1 1 1 (Entry.Read 0 word 7 false ∷ []) ends }
    ensures not_legal { (ends : List GuestEnd) → ¬ IsOutcomeFrom a32 leaving (machine_of 2 1 1) 1 1 2 (Entry.Write 0 word 9 false ∷ []) ends }
    ensures not_complete { (ends : List GuestEnd) → ¬ IsOutcomeFrom a32 leaving (machine_of 2 1 1) 1 1 2 (Entry.Watch 0 word ∷ []) ends }
    ensures not_started { (ends : List GuestEnd) → ¬ IsOutcomeFrom a32 leaving (machine_of 2 1 1) 1 1 2 (Entry.Clear 1 ∷ []) ends }
    ensures none_spare { (ends : List GuestEnd) → ¬ IsOutcomeFrom a32 starting (machine_of 2 1 1) 1 0 3 (Entry.Start 0 1 0 1 ∷ []) ends }
{}
