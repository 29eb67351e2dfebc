//! The laws of threads that start others, each a function of no effect whose contract is the law.
ghost use Rattle.std.specs.Prelude.{◌≡◌, ℕ, List, Option};
ghost use Rattle.llsc_base.specs.Images.{Program};
ghost use Rattle.llsc_base.specs.Sizes.{Numbers};
ghost use Rattle.history.specs.Starts.{Started};
ghost use Rattle.history.specs.declared.entry.Entry.{Entry};
ghost use Rattle.llsc_base.specs.declared.outside.Stop.{Stop};
ghost use Rattle.a32_step.specs.Machine.{Machine, a32};
ghost use Rattle.guest_calls.specs.Run.{Pair};
ghost use Rattle.guest_thread.specs.BegunOutcome.{IsOutcomeFrom};
ghost use Rattle.guest_thread.specs.StockRun.{Stock, IsStockRun};
ghost use Rattle.guest_thread.specs.declared.ends.GuestEnd.{GuestEnd};

/// By its accesses and replies a thread with a stock, or with none, starts the same threads and ends in one way: with one stop, one
/// number of steps and one output.
pub fn runs_with_a_stock_are_one()
    ensures { (stock : Option Stock) (program : Program) (budget : ℕ) (start : Machine) (pairs : List Pair) (starts others : List Started) (stop other : Stop) (steps count : ℕ) (output text : List ℕ) →
        IsStockRun a32 stock program budget start pairs starts stop steps output → IsStockRun a32 stock program budget start pairs others other count text →
        (starts ≡ others) × (stop ≡ other) × (steps ≡ count) × (output ≡ text) }
{}

/// A history has one list of ends: of each thread that has begun in it one stop, one number of steps, its counts and one output.
pub fn outcomes_from_are_one()
    ensures { (program : Program) (size : Numbers) (first spare budget : ℕ) (history : List Entry) (ends others : List GuestEnd) →
        IsOutcomeFrom a32 program size first spare budget history ends → IsOutcomeFrom a32 program size first spare budget history others →
        ends ≡ others }
{}
