//! The laws of how runs are cut off, and of outcomes in which nobody is started: each a function of no effect whose contract is the law.
ghost use Rattle.std.specs.Prelude.{ℕ, List};
ghost use Rattle.llsc_base.specs.Images.{Program};
ghost use Rattle.llsc_base.specs.Sizes.{Numbers};
ghost use Rattle.history.specs.declared.entry.Entry.{Entry};
ghost use Rattle.guest_thread.specs.BegunOutcome.{IsOutcomeFrom};
ghost use Rattle.guest_thread.specs.Outcome.{IsOutcome};
ghost use Rattle.guest_thread.specs.declared.ends.GuestEnd.{GuestEnd};
ghost use Rattle.a32_step.specs.Machine.{a32};
ghost use Rattle.a32_guests.specs.Cuts.{MayCut};

use llsc_base::Stop;

/// A thread is cut off where its steps are used up, and at a store for which memory has no write left. One that leaves by an exit call
/// isn't.
pub fn stops_that_cut_off()
    ensures steps { MayCut Stop.Budget }
    ensures limit { (addr : ℕ) → MayCut (Stop.TagLimit addr) }
    ensures exit { (code : ℕ) → MayCut (Stop.Exit code) → ⊥ }
{}

/// Where none is spare, an outcome of threads that may start others, as `run` and `pool` have it, is one of threads that begin by
/// themselves.
pub fn outcomes_start_nobody()
    ensures { (program : Program) (size : Numbers) (budget : ℕ) (history : List Entry) (ends : List GuestEnd) →
        IsOutcomeFrom a32 program size size.threads 0 budget history ends → IsOutcome a32 program size budget history ends }
{}
