//! Worked cases of the call that starts a thread: what it answers, and which thread it starts.
ghost use Rattle.std.specs.Prelude.{◌≡◌, ◌∷◌, []};
ghost use Rattle.llsc_base.specs.declared.outside.Stop.{Stop};
ghost use Rattle.guest_calls.specs.Worked.{call};
ghost use Rattle.guest_thread.specs.StockRun.{start_answer, starts_after};

use llsc_base::Stop;

/// The first rule that fits: an address that isn't a multiple of 4 is none, then no number may be left, and else the next one is
/// the answer.
pub fn starts_that_are_answered()
    ensures zeroth { start_answer (record { first = 2; count = 2 }) 0 (call 983041 4096 7 0) ≡ 2 }
    ensures next { start_answer (record { first = 2; count = 2 }) 1 (call 983041 4096 7 0) ≡ 3 }
    ensures none_left { start_answer (record { first = 2; count = 2 }) 2 (call 983041 4096 7 0) ≡ 4294967285 }
    ensures bad_entry { start_answer (record { first = 2; count = 2 }) 0 (call 983041 4098 7 0) ≡ 4294967274 }
    ensures bad_before_none { start_answer (record { first = 2; count = 0 }) 0 (call 983041 4097 7 0) ≡ 4294967274 }
{}

/// A thread is started, at its address and with its argument, just where the answer is its number.
pub fn threads_that_a_call_starts()
    ensures one { starts_after (record { first = 2; count = 2 }) 3 [] (call 983041 4096 7 0)
        ≡ record { child = 2; entry = 4096; arg = 7; place = 3 } ∷ [] }
    ensures another { starts_after (record { first = 2; count = 2 }) 5 (record { child = 2; entry = 4096; arg = 7; place = 3 } ∷ []) (call 983041 8192 9 0)
        ≡ record { child = 2; entry = 4096; arg = 7; place = 3 } ∷ record { child = 3; entry = 8192; arg = 9; place = 5 } ∷ [] }
    ensures none_left { starts_after (record { first = 2; count = 0 }) 3 [] (call 983041 4096 7 0) ≡ [] }
    ensures bad_entry { starts_after (record { first = 2; count = 2 }) 3 [] (call 983041 4098 7 0) ≡ [] }
{}
