//! Worked runs of threads of one instruction, a call, a load or a store, which has its arguments from the thread's start.
ghost use Rattle.std.specs.Prelude.{◌≡◌, ◌∷◌, [], ℕ, List, true};
ghost use Rattle.llsc_base.specs.declared.outside.Ask.{Ask};
ghost use Rattle.llsc_base.specs.declared.outside.Stop.{Stop};
ghost use Rattle.a32_step.specs.Machine.{Machine, a32};
ghost use Rattle.guest_calls.specs.Run.{Pair, first_point, EndsOn, Ends, ReachesFrom, ReachesBy, Reaches, Asks, effect_of_call};
ghost use Rattle.guest_core.specs.Machine.{returned_of};
ghost use Rattle.guest_calls.specs.Worked.{byte_at, word, call};
ghost use Rattle.a32_runs.specs.OneWord.{calling, loading, storing, storing_exclusively, thread_at};
ghost use Rattle.guest_calls.specs.Calls.{answers, writes_bytes};

use llsc_base::{Ask, Stop};

/// An answer stands in r0, and the thread goes on behind the call.
pub fn threads_after_an_answer()
    ensures { returned_of a32 (thread_at 0 5 8 2 158) 7 ≡ thread_at 4 7 8 2 158 }
{}

/// An instruction that is complete is a step, with the replies to what it asks before; so is a call that is answered, and a
/// write once each of its bytes was loaded, which are its output. The exit call leads nowhere, and nothing begins once the
/// steps are the budget.
pub fn threads_that_go_on()
    ensures begins { Reaches a32 calling 0 (thread_at 0 5 0 0 1) [] (thread_at 0 5 0 0 1) 0 [] }
    ensures loads { Reaches a32 loading 1 (thread_at 0 0 8 0 0) ((Ask.Load word, 7) ∷ []) (thread_at 4 7 8 0 0) 1 [] }
    ensures stores { Reaches a32 storing 1 (thread_at 0 7 8 0 0) ((Ask.Store word 7, 0) ∷ []) (thread_at 4 7 8 0 0) 1 [] }
    ensures yields { Reaches a32 calling 1 (thread_at 0 5 0 0 158) [] (thread_at 4 0 0 0 158) 1 [] }
    ensures writes { Reaches a32 calling 1 (thread_at 0 1 8 2 4)
        ((Ask.Load (byte_at 8), 104) ∷ (Ask.Load (byte_at 9), 105) ∷ []) (thread_at 4 2 8 2 4) 1 (104 ∷ 105 ∷ []) }
    ensures from_a_point { ReachesFrom a32 calling 8 (record { machine = thread_at 0 5 0 0 158; steps = 7; output = 104 ∷ [] })
        [] (thread_at 4 0 0 0 158) 8 (104 ∷ []) }
    ensures not_by_exit { (machine : Machine) → ¬ Reaches a32 calling 1 (thread_at 0 261 0 0 1) [] machine 1 [] }
    ensures not_without_a_reply { (machine : Machine) → ¬ Reaches a32 loading 1 (thread_at 0 0 8 0 0) [] machine 1 [] }
    ensures not_beyond_the_budget { (machine : Machine) → ¬ Reaches a32 calling 0 (thread_at 0 5 0 0 158) [] machine 1 [] }
{}

/// A thread with a stock stays where it calls for a thread to be started, which is answered elsewhere, and goes on as one without
/// by any other call. Without a stock that call is one that doesn't exist.
pub fn threads_with_a_stock()
    ensures yields { ReachesBy a32 true calling 1 (first_point (thread_at 0 5 0 0 158)) [] (thread_at 4 0 0 0 158) 1 [] }
    ensures stays { (pairs : List Pair) (machine : Machine) (steps : ℕ) (output : List ℕ) →
        ReachesBy a32 true calling 1 (first_point (thread_at 0 4 7 0 983041)) pairs machine steps output → steps ≡ 0 }
    ensures without { Reaches a32 calling 1 (thread_at 0 4 7 0 983041) [] (thread_at 4 4294967258 7 0 983041) 1 [] }
{}

/// A thread leaves by the exit call with the low byte of its code, which is a step; it stops where no instruction may be run,
/// or at an access that is barred, which is none; and its steps are spent between two instructions.
pub fn threads_that_end()
    ensures leaves { Ends a32 calling 1 (thread_at 0 261 0 0 1) [] (Stop.Exit 5) 1 [] }
    ensures stops { Ends a32 calling 1 (thread_at 4 5 0 0 1) [] (Stop.Outside 4) 0 [] }
    ensures barred { Ends a32 storing 1 (thread_at 0 7 0 0 0) [] (Stop.ReadOnly 0) 0 [] }
    ensures spends { Ends a32 calling 0 (thread_at 0 261 0 0 1) [] Stop.Budget 0 [] }
    ensures spends_one { Ends a32 loading 1 (thread_at 0 0 8 0 0) ((Ask.Load word, 7) ∷ []) Stop.Budget 1 [] }
    ensures writes { Ends a32 calling 1 (thread_at 0 1 8 2 4)
        ((Ask.Load (byte_at 8), 104) ∷ (Ask.Load (byte_at 9), 105) ∷ []) Stop.Budget 1 (104 ∷ 105 ∷ []) }
{}

/// The exit call is a step and a stop is none; no thread leaves or stops once its steps are the budget, or is spent before;
/// and none ends where it asks for an access, be it a byte of a write.
pub fn ends_that_are_none()
    ensures no_step { ¬ Ends a32 calling 1 (thread_at 0 261 0 0 1) [] (Stop.Exit 5) 0 [] }
    ensures another_code { ¬ Ends a32 calling 1 (thread_at 0 261 0 0 1) [] (Stop.Exit 6) 1 [] }
    ensures a_step { ¬ Ends a32 calling 1 (thread_at 4 5 0 0 1) [] (Stop.Outside 4) 1 [] }
    ensures leaves_too_late { ¬ Ends a32 calling 0 (thread_at 0 261 0 0 1) [] (Stop.Exit 5) 1 [] }
    ensures stops_too_late { ¬ Ends a32 calling 0 (thread_at 4 5 0 0 1) [] (Stop.Outside 4) 0 [] }
    ensures spent_too_early { ¬ Ends a32 calling 1 (thread_at 0 261 0 0 1) [] Stop.Budget 0 [] }
    ensures asks { (stop : Stop) (steps : ℕ) (output : List ℕ) → ¬ Ends a32 loading 1 (thread_at 0 0 8 0 0) [] stop steps output }
    ensures asks_a_byte { (stop : Stop) (steps : ℕ) (output : List ℕ) →
        ¬ Ends a32 calling 1 (thread_at 0 1 8 2 4) ((Ask.Load (byte_at 8), 104) ∷ []) stop steps output }
{}

/// What a thread asks next: the access of its instruction, or the next byte of its write; nothing once its steps are the
/// budget, behind the last byte, or where it leaves.
pub fn accesses_that_are_asked()
    ensures load { Asks a32 loading 1 (thread_at 0 0 8 0 0) [] (Ask.Load word) }
    ensures store { Asks a32 storing 1 (thread_at 0 7 8 0 0) [] (Ask.Store word 7) }
    ensures store_exclusive { Asks a32 storing_exclusively 1 (thread_at 0 7 8 0 0) [] (Ask.StoreEx word 7) }
    ensures first_byte { Asks a32 calling 1 (thread_at 0 1 8 2 4) [] (Ask.Load (byte_at 8)) }
    ensures second_byte { Asks a32 calling 1 (thread_at 0 1 8 2 4) ((Ask.Load (byte_at 8), 104) ∷ []) (Ask.Load (byte_at 9)) }
    ensures another { ¬ Asks a32 loading 1 (thread_at 0 0 8 0 0) [] (Ask.LoadEx word) }
    ensures too_late { (ask : Ask) → ¬ Asks a32 loading 0 (thread_at 0 0 8 0 0) [] ask }
    ensures behind_the_last_byte { (ask : Ask) →
        ¬ Asks a32 calling 1 (thread_at 0 1 8 2 4) ((Ask.Load (byte_at 8), 104) ∷ (Ask.Load (byte_at 9), 105) ∷ []) ask }
    ensures leaves { (ask : Ask) → ¬ Asks a32 calling 1 (thread_at 0 261 0 0 1) [] ask }
{}

/// Where writes are limited a thread may end at a store besides, at its address and before its step; not at a load or a
/// store-exclusive, behind the store, or once its steps are the budget.
pub fn ends_at_a_limit()
    ensures by_itself { EndsOn a32 calling 1 (thread_at 0 261 0 0 1) [] (Stop.Exit 5) 1 [] }
    ensures at_a_store { EndsOn a32 storing 1 (thread_at 0 7 8 0 0) [] (Stop.TagLimit 8) 0 [] }
    ensures elsewhere { ¬ EndsOn a32 storing 1 (thread_at 0 7 8 0 0) [] (Stop.TagLimit 12) 0 [] }
    ensures a_step { ¬ EndsOn a32 storing 1 (thread_at 0 7 8 0 0) [] (Stop.TagLimit 8) 1 [] }
    ensures at_a_load { (stop : Stop) (steps : ℕ) (output : List ℕ) → ¬ EndsOn a32 loading 1 (thread_at 0 0 8 0 0) [] stop steps output }
    ensures at_a_store_exclusive { (stop : Stop) (steps : ℕ) (output : List ℕ) →
        ¬ EndsOn a32 storing_exclusively 1 (thread_at 0 7 8 0 0) [] stop steps output }
    ensures behind_it { ¬ EndsOn a32 storing 1 (thread_at 0 7 8 0 0) ((Ask.Store word 7, 0) ∷ []) (Stop.TagLimit 8) 0 [] }
    ensures too_late { ¬ EndsOn a32 storing 0 (thread_at 0 7 8 0 0) [] (Stop.TagLimit 8) 0 [] }
{}

/// In a program a write reaches to the end of its memory.
pub fn writes_in_a_program()
    ensures to_the_end { effect_of_call a32 calling (call 4 1 14 2) 65534 ≡ writes_bytes 14 2 }
    ensures past_the_end { effect_of_call a32 calling (call 4 1 15 2) 0 ≡ answers 0xFFFFFFF2 }
    ensures no_room { effect_of_call a32 calling (call 4 1 14 2) 65535 ≡ answers 0xFFFFFFE4 }
{}
