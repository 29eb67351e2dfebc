//! Worked turns, and the names of faults, computed by the definitions.
ghost use Rattle.std.specs.Prelude.{◌≡◌, ◌∷◌, [], None, Some, codes};
ghost use Rattle.guest_machine.specs.Traces.{trace_fault_name};
ghost use Rattle.guest_machine.specs.Turns.{drawn, turn_of, without};

use crate::traces::TraceFault;

/// The numbers that are drawn from 0, and the one from the greatest, which wraps at 2 to the 64.
pub fn drawn_numbers()
    ensures first { drawn 0 ≡ 1442695040888963407 }
    ensures second { drawn 1442695040888963407 ≡ 1876011003808476466 }
    ensures third { drawn 1876011003808476466 ≡ 11166244414315200793 }
    ensures wraps { drawn 18446744073709551615 ≡ 13525302890751722018 }
{}

/// A number gives the turn by its bits from 33 up, to one of the threads that have not stopped.
pub fn turns_of_numbers()
    ensures first { turn_of 0 (3 ∷ 5 ∷ []) ≡ Some 3 }
    ensures lower_bits { turn_of 8589934591 (3 ∷ 5 ∷ []) ≡ Some 3 }
    ensures second { turn_of 8589934592 (3 ∷ 5 ∷ []) ≡ Some 5 }
    ensures again { turn_of 17179869184 (3 ∷ 5 ∷ []) ≡ Some 3 }
    ensures of_one { turn_of 8589934592 (3 ∷ []) ≡ Some 3 }
    ensures of_none { turn_of 0 [] ≡ None }
{}

/// A thread that has stopped is taken out, and the others keep their order.
pub fn threads_without_one()
    ensures inner { without 1 (0 ∷ 1 ∷ 2 ∷ []) ≡ 0 ∷ 2 ∷ [] }
    ensures only { without 0 (0 ∷ []) ≡ [] }
    ensures absent { without 3 (0 ∷ 1 ∷ []) ≡ 0 ∷ 1 ∷ [] }
{}

/// Each fault has its variant's name.
pub fn names_of_faults()
    ensures too_long { trace_fault_name TraceFault.TooLong ≡ codes "TooLong" }
    ensures memory { trace_fault_name TraceFault.Memory ≡ codes "Memory" }
{}
