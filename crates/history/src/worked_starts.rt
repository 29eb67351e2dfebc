//! Worked cases of threads that are started: which may act, which may be started, and by whom.
ghost use Rattle.std.specs.Prelude.{◌≡◌, ◌∷◌, [], true};
ghost use Rattle.history.specs.Operation.{AreFinished};
ghost use Rattle.history.specs.Started.{AreBorn, MayAct, MayStand};
ghost use Rattle.history.specs.Starts.{starts_in};
ghost use Rattle.history.specs.Worked.{word};

use crate::entry::Entry;

/// A thread may act where it is one of the first, or has been started.
pub fn threads_that_may_act()
    ensures first { MayAct 1 0 [] }
    ensures started { MayAct 1 1 (Entry.Start 0 1 4096 7 ∷ []) }
    ensures not_started { ¬ MayAct 1 1 [] }
    ensures another_started { ¬ MayAct 1 1 (Entry.Start 0 2 4096 7 ∷ []) }
{}

/// Two threads that may start two each have the numbers 2 and 3, and 4 and 5, in order. A thread that was started starts none.
pub fn starts_that_may_stand()
    ensures zeroth { MayStand 2 2 [] (Entry.Start 1 4 4096 7) }
    ensures next { MayStand 2 2 (Entry.Start 1 4 4096 7 ∷ Entry.Start 0 2 4096 7 ∷ []) (Entry.Start 1 5 4096 7) }
    ensures out_of_order { ¬ MayStand 2 2 [] (Entry.Start 1 5 4096 7) }
    ensures of_another { ¬ MayStand 2 2 [] (Entry.Start 1 2 4096 7) }
    ensures one_too_many { ¬ MayStand 2 1 (Entry.Start 1 3 4096 7 ∷ []) (Entry.Start 1 4 4096 7) }
    ensures by_a_child { ¬ MayStand 1 1 (Entry.Start 0 1 4096 7 ∷ []) (Entry.Start 1 2 4096 7) }
{}

/// A started thread acts behind its Start, which is an operation of the thread that starts it.
pub fn histories_of_started_threads()
    ensures born { AreBorn 1 1 (Entry.Start 0 1 4096 7 ∷ Entry.Clear 1 ∷ []) }
    ensures too_early { ¬ AreBorn 1 1 (Entry.Clear 1 ∷ Entry.Start 0 1 4096 7 ∷ []) }
    ensures finished { AreFinished 0 (Entry.Start 0 1 4096 7 ∷ Entry.Clear 0 ∷ []) }
{}

/// What a thread has started, in order, each behind so many of its accesses, whatever others do.
pub fn threads_that_were_started()
    ensures two { starts_in 0 (Entry.Clear 0 ∷ Entry.Start 0 2 4096 7 ∷ Entry.Clear 1 ∷ Entry.Start 1 4 4096 7
        ∷ Entry.Watch 0 word ∷ Entry.Read 0 word 0 true ∷ Entry.Start 0 3 8192 9 ∷ [])
        ≡ record { child = 2; entry = 4096; arg = 7; place = 1 } ∷ record { child = 3; entry = 8192; arg = 9; place = 2 } ∷ [] }
    ensures none { starts_in 1 (Entry.Start 0 1 4096 7 ∷ Entry.Clear 1 ∷ []) ≡ [] }
{}
