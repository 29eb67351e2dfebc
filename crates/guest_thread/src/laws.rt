//! The laws of ends, each a function of no effect whose contract is the law.
ghost use Rattle.std.specs.Prelude.{◌≡◌, ◌≢◌, ℕ, List, [], None};
ghost use Rattle.llsc_base.specs.Images.{Program};
ghost use Rattle.llsc_base.specs.Sizes.{Numbers};
ghost use Rattle.history.specs.Starts.{Started};
ghost use Rattle.history.specs.declared.entry.Entry.{Entry};
ghost use Rattle.llsc_base.specs.declared.outside.Stop.{Stop};
ghost use Rattle.guest_core.specs.Machine.{MachineOf};
ghost use Rattle.guest_calls.specs.Run.{Pair, Ends, EndsOn};
ghost use Rattle.guest_thread.specs.BegunOutcome.{IsOutcomeFrom};
ghost use Rattle.guest_thread.specs.Ends.{AreEnds};
ghost use Rattle.guest_thread.specs.Outcome.{IsOutcome};
ghost use Rattle.guest_thread.specs.Start.{thread_start};
ghost use Rattle.guest_thread.specs.StockRun.{IsStockRun};
ghost use Rattle.guest_thread.specs.declared.ends.GuestEnd.{GuestEnd};

use guest_core::Core;
use llsc_base::Stop;

/// No run of a thread ends by itself since a class of rows has no write left: that is for memory to answer.
pub fn runs_reach_no_limit<C: Core>()
    ensures { (program : Program) (size : Numbers) (budget first t : ℕ) (pairs : List Pair) (stop : Stop) (steps : ℕ) (output : List ℕ) (addr : ℕ) →
        Ends C.set program budget (thread_start C.set program size first t) pairs stop steps output → stop ≢ Stop.TagLimit addr }
{
    C::is_sound();
}

/// A run without a stock is a run, in which no thread is started.
pub fn runs_without_a_stock<C: Core>()
    ensures plain { (program : Program) (budget : ℕ) (start : MachineOf C.Instr C.State) (pairs : List Pair) (starts : List Started) (stop : Stop) (steps : ℕ) (output : List ℕ) →
        IsStockRun C.set None program budget start pairs starts stop steps output → (starts ≡ []) × EndsOn C.set program budget start pairs stop steps output }
    ensures all { (program : Program) (budget : ℕ) (start : MachineOf C.Instr C.State) (pairs : List Pair) (stop : Stop) (steps : ℕ) (output : List ℕ) →
        EndsOn C.set program budget start pairs stop steps output → IsStockRun C.set None program budget start pairs [] stop steps output }
{}

/// All threads end in one way at most by a history: their stops, steps, outputs and counts.
pub fn histories_end_threads_in_one_way<C: Core>()
    ensures { (program : Program) (size : Numbers) (budget : ℕ) (history : List Entry) (ends others : List GuestEnd) →
        AreEnds C.set program size budget history ends → AreEnds C.set program size budget history others → ends ≡ others }
{}

/// A history has one outcome at most, also on a memory whose classes of rows take a limited number of writes.
pub fn histories_have_one_outcome<C: Core>()
    ensures { (program : Program) (size : Numbers) (budget : ℕ) (history : List Entry) (ends others : List GuestEnd) →
        IsOutcome C.set program size budget history ends → IsOutcome C.set program size budget history others → ends ≡ others }
{}

/// Where none is spare, an outcome of threads that begin by themselves is one of threads that may start others.
pub fn outcomes_without_a_spare<C: Core>()
    ensures { (program : Program) (size : Numbers) (budget : ℕ) (history : List Entry) (ends : List GuestEnd) →
        IsOutcome C.set program size budget history ends → IsOutcomeFrom C.set program size size.threads 0 budget history ends }
{}
