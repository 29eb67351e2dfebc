//! Worked cases of how many slices steps take, computed by the definitions.
ghost use Rattle.std.specs.Prelude.{◌≡◌, ◌∷◌, []};
ghost use Rattle.guest_thread.specs.Worked.{end_of};
ghost use Rattle.slice_pool.specs.Ends.{AreTurnsOfEach};
ghost use Rattle.slice_pool.specs.Over.{AreTurnsOf, last_step};

use llsc_base::Stop;

/// The step at which a thread stopped is the last that it made, where that was the exit call or its steps were used up; at any other
/// stop it is the next.
pub fn steps_of_stops()
    ensures exit { last_step (Stop.Exit 0) 3 ≡ 2 }
    ensures used_up { last_step Stop.Budget 3 ≡ 2 }
    ensures none_to_use { last_step Stop.Budget 0 ≡ 0 }
    ensures stopped { last_step (Stop.Undefined 4) 3 ≡ 3 }
    ensures refused { last_step (Stop.TagLimit 4) 3 ≡ 3 }
{}

/// Each slice but the last has all of its steps, and the last has that at which the guest stopped.
pub fn slices_of_steps()
    ensures first_step { AreTurnsOf 3 1 0 }
    ensures last_of_the_first { AreTurnsOf 3 1 2 }
    ensures first_of_the_second { AreTurnsOf 3 2 3 }
    ensures last_of_the_second { AreTurnsOf 3 2 5 }
    ensures no_slice { ¬ AreTurnsOf 3 0 0 }
    ensures too_few { ¬ AreTurnsOf 3 1 3 }
    ensures too_many { ¬ AreTurnsOf 3 2 2 }
    ensures two_too_many { ¬ AreTurnsOf 3 3 2 }
{}

/// The slices of all guests are those of each, in order.
pub fn slices_of_guests()
    ensures none { AreTurnsOfEach 3 [] [] }
    ensures two { AreTurnsOfEach 3 (end_of 0 (Stop.Exit 0) 4 0 0 0 ∷ end_of 1 (Stop.Exit 0) 3 0 0 0 ∷ []) (2 ∷ 1 ∷ []) }
    ensures exchanged { ¬ AreTurnsOfEach 3 (end_of 0 (Stop.Exit 0) 4 0 0 0 ∷ end_of 1 (Stop.Exit 0) 3 0 0 0 ∷ []) (1 ∷ 2 ∷ []) }
    ensures none_behind_its_last { ¬ AreTurnsOfEach 3 (end_of 0 (Stop.Exit 0) 3 0 0 0 ∷ []) (2 ∷ []) }
    ensures stopped_in_its_next { AreTurnsOfEach 3 (end_of 0 (Stop.Undefined 0) 3 0 0 0 ∷ []) (2 ∷ []) }
    ensures one_missing { ¬ AreTurnsOfEach 3 (end_of 0 (Stop.Exit 0) 4 0 0 0 ∷ end_of 1 (Stop.Exit 0) 3 0 0 0 ∷ []) (2 ∷ []) }
    ensures one_more { ¬ AreTurnsOfEach 3 (end_of 0 (Stop.Exit 0) 4 0 0 0 ∷ []) (2 ∷ 1 ∷ []) }
{}
