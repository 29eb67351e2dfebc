//! Worked ends of a thread alone.
ghost use Rattle.guest_machine.specs.Alone.{IsSoloEnd};
ghost use Rattle.a32_runs.specs.Turns.{leaving, loading, silent_end, small_machine};
ghost use Rattle.a32_step.specs.Machine.{a32};

use llsc_base::Stop;

/// A thread alone ends as thread 0 of a machine that has one: where it leaves, behind a load too, or where its steps are spent.
pub fn ends_of_a_thread_alone()
    ensures at_once { IsSoloEnd a32 leaving (small_machine 1) 10 (silent_end 0 (Stop.Exit 0) 2 0) }
    ensures behind_a_load { IsSoloEnd a32 loading (small_machine 1) 10 (silent_end 0 (Stop.Exit 0) 3 1) }
    ensures spent { IsSoloEnd a32 leaving (small_machine 1) 1 (silent_end 0 Stop.Budget 1 0) }
{}

/// It has no other end: no other number, stop or steps, no load that it didn't make, and none on a machine of two threads.
pub fn ends_that_are_another_threads()
    ensures another_number { ¬ IsSoloEnd a32 leaving (small_machine 1) 10 (silent_end 1 (Stop.Exit 0) 2 0) }
    ensures another_code { ¬ IsSoloEnd a32 leaving (small_machine 1) 10 (silent_end 0 (Stop.Exit 1) 2 0) }
    ensures another_step { ¬ IsSoloEnd a32 leaving (small_machine 1) 10 (silent_end 0 (Stop.Exit 0) 3 0) }
    ensures no_load { ¬ IsSoloEnd a32 loading (small_machine 1) 10 (silent_end 0 (Stop.Exit 0) 3 0) }
    ensures of_two { ¬ IsSoloEnd a32 leaving (small_machine 2) 10 (silent_end 0 (Stop.Exit 0) 2 0) }
{}
