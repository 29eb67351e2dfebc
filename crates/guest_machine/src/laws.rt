//! The laws of traces and of a thread alone, each a function of no effect whose contract is the law.
ghost use Rattle.std.specs.Prelude.{◌≡◌, ◌≤◌, ◌<◌, ◌∷◌, [], ℕ, List, length};
ghost use Rattle.llsc_base.specs.Images.{Program};
ghost use Rattle.llsc_base.specs.Sizes.{Numbers};
ghost use Rattle.history.specs.declared.entry.Access.{Access};
ghost use Rattle.history.specs.Accesses.{history_of};
ghost use Rattle.guest_core.specs.Machine.{MachineOf};
ghost use Rattle.guest_thread.specs.Ends.{AreEnds};
ghost use Rattle.guest_thread.specs.declared.ends.GuestEnd.{GuestEnd};
ghost use Rattle.run_record.specs.Limits.{most_accesses};
ghost use Rattle.guest_machine.specs.Alone.{IsEndAlone, IsSoloEnd};
ghost use Rattle.guest_thread.specs.Ended.{HasEnded};
ghost use Rattle.guest_machine.specs.Turns.{IsTooLong, IsTrace};

use guest_core::Core;

/// A program, a machine, a number and a budget have one trace at most.
pub fn traces_are_one<C: Core>()
    ensures { (program : Program) (size : Numbers) (seed budget : ℕ) (accesses others : List Access) →
        IsTrace C.set program size seed budget accesses → IsTrace C.set program size seed budget others → accesses ≡ others }
{}

/// Where there is a trace that a record may have, the run isn't too long.
pub fn short_traces_are_not_too_long<C: Core>()
    ensures { (program : Program) (size : Numbers) (seed budget : ℕ) (accesses : List Access) →
        IsTrace C.set program size seed budget accesses → length accesses ≤ most_accesses → IsTooLong C.set program size seed budget → ⊥ }
{}

/// Each thread's accesses in a trace are those of a run of it that has ended.
pub fn traces_end_each_thread<C: Core>()
    ensures { (program : Program) (size : Numbers) (seed budget : ℕ) (accesses : List Access) (t : ℕ) → t < size.threads →
        IsTrace C.set program size seed budget accesses → HasEnded C.set program size budget accesses t }
{}

/// The trace of one thread is the same by every number.
pub fn one_thread_needs_no_seed<C: Core>()
    ensures { (program : Program) (size : Numbers) (seed other budget : ℕ) (accesses : List Access) → size.threads ≡ 1 →
        IsTrace C.set program size seed budget accesses → IsTrace C.set program size other budget accesses }
{}

/// A thread alone has one end at most: its stop, its steps, its output, and how many loads, stores and failed
/// store-exclusives it made follow from its program, its budget, its start and its memory at first.
pub fn threads_alone_have_one_end<C: Core>()
    ensures any_start { (program : Program) (budget : ℕ) (start : MachineOf C.Instr C.State) (granule : ℕ) (bytes : List ℕ) (end other : GuestEnd) →
        IsEndAlone C.set program budget start granule bytes end → IsEndAlone C.set program budget start granule bytes other → end ≡ other }
    ensures solo { (program : Program) (size : Numbers) (budget : ℕ) (end other : GuestEnd) →
        IsSoloEnd C.set program size budget end → IsSoloEnd C.set program size budget other → end ≡ other }
{}

/// A trace of one thread ends as the thread does alone, however many accesses it has.
pub fn threads_alone_end_as_traced<C: Core>()
    ensures { (program : Program) (size : Numbers) (seed budget : ℕ) (accesses : List Access) (end alone : GuestEnd) →
        IsTrace C.set program size seed budget accesses → AreEnds C.set program size budget (history_of accesses) (end ∷ []) →
        IsSoloEnd C.set program size budget alone → end ≡ alone }
{}

/// The threads of a program end in one way at most by a trace, whose accesses are one too.
pub fn traces_have_one_end<C: Core>()
    ensures { (program : Program) (size : Numbers) (seed budget : ℕ) (accesses others : List Access) (ends more : List GuestEnd) →
        IsTrace C.set program size seed budget accesses → AreEnds C.set program size budget (history_of accesses) ends →
        IsTrace C.set program size seed budget others → AreEnds C.set program size budget (history_of others) more → ends ≡ more }
{}
