//! The laws of runs, for whatever instructions, each a function of no effect whose contract is the law.
ghost use Rattle.std.specs.Prelude.{◌≡◌, ◌≤◌, ℕ, Bool, List, length};
ghost use Rattle.llsc_base.specs.Images.{Program};
ghost use Rattle.llsc_base.specs.declared.outside.Ask.{Ask};
ghost use Rattle.llsc_base.specs.declared.outside.Stop.{Stop};
ghost use Rattle.guest_core.specs.Machine.{MachineOf, between};
ghost use Rattle.guest_calls.specs.Bound.{most_accesses_in};
ghost use Rattle.guest_calls.specs.Run.{Pair, PointOf, ReachesBy, ReachesFrom, Ends, EndsOn, Asks};

use guest_core::Core;

/// A guest thread that starts so, with this budget and these accesses and replies, has one end at most: its stop, its
/// steps and its output.
pub fn runs_have_one_end<C: Core>()
    ensures { (program : Program) (budget : ℕ) (start : MachineOf C.Instr C.State) (pairs : List Pair) (stop other : Stop) (steps count : ℕ) (output text : List ℕ) →
        Ends C.set program budget start pairs stop steps output → Ends C.set program budget start pairs other count text →
        (stop ≡ other) × (steps ≡ count) × (output ≡ text) }
{}

/// The same on a memory whose classes of rows take a limited number of writes: a thread that is stopped at a store which such a
/// memory refuses has no other end.
pub fn runs_have_one_end_on_limits<C: Core>()
    ensures { (program : Program) (budget : ℕ) (start : MachineOf C.Instr C.State) (pairs : List Pair) (stop other : Stop) (steps count : ℕ) (output text : List ℕ) →
        EndsOn C.set program budget start pairs stop steps output → EndsOn C.set program budget start pairs other count text →
        (stop ≡ other) × (steps ≡ count) × (output ≡ text) }
{}

/// A guest thread that starts so, with this budget and these accesses and replies, asks one access next at most.
pub fn runs_ask_one_access<C: Core>()
    ensures { (program : Program) (budget : ℕ) (start : MachineOf C.Instr C.State) (pairs : List Pair) (ask other : Ask) →
        Asks C.set program budget start pairs ask → Asks C.set program budget start pairs other → ask ≡ other }
{}

/// A guest thread that asks an access next hasn't ended with the same accesses and replies.
pub fn runs_ask_or_end<C: Core>()
    ensures { (program : Program) (budget : ℕ) (start : MachineOf C.Instr C.State) (pairs : List Pair) (ask : Ask) (stop : Stop) (steps : ℕ) (output : List ℕ) →
        Asks C.set program budget start pairs ask → Ends C.set program budget start pairs stop steps output → ⊥ }
{}

/// A guest thread that starts between two instructions makes at most 16 accesses for each of its steps, and at most 65,552
/// besides: one for each byte that it writes, and 16 of an instruction that isn't complete.
pub fn runs_make_few_accesses<C: Core>()
    ensures { (program : Program) (budget : ℕ) (start : C.State) (pairs : List Pair) (stop : Stop) (steps : ℕ) (output : List ℕ) →
        EndsOn C.set program budget (between start) pairs stop steps output → length pairs ≤ most_accesses_in steps }
{
    C::is_sound();
}

/// A guest thread makes no more steps than its budget.
pub fn runs_keep_to_their_budget<C: Core>()
    ensures { (program : Program) (budget : ℕ) (start : MachineOf C.Instr C.State) (pairs : List Pair) (stop : Stop) (steps : ℕ) (output : List ℕ) →
        EndsOn C.set program budget start pairs stop steps output → steps ≤ budget }
{}

/// What a thread with a stock does without starting a thread, it does without a stock as well.
pub fn stocks_change_no_other_call<C: Core>()
    ensures { (stocked : Bool) (program : Program) (budget : ℕ) (from : PointOf C.Instr C.State) (pairs : List Pair) (machine : MachineOf C.Instr C.State) (steps : ℕ) (output : List ℕ) →
        ReachesBy C.set stocked program budget from pairs machine steps output → ReachesFrom C.set program budget from pairs machine steps output }
{}
