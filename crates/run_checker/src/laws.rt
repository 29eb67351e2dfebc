//! Laws of verdicts, each a function of no effect whose contract is the law.
ghost use Rattle.std.specs.Prelude.{◌≡◌, ◌<◌, ℕ, List};
ghost use Rattle.llsc_base.specs.Images.{Program};
ghost use Rattle.llsc_base.specs.Sizes.{Numbers};
ghost use Rattle.history.specs.ArmLegal.{IsArmLegal};
ghost use Rattle.history.specs.Monitor.{at_rest_by};
ghost use Rattle.history.specs.declared.entry.Access.{Access};
ghost use Rattle.history.specs.Accesses.{history_of};
ghost use Rattle.run_record.specs.Limits.{IsRecord};
ghost use Rattle.run_record.specs.declared.records.RunRecord.{RunRecord};
ghost use Rattle.guest_thread.specs.Ended.{HasEnded};
ghost use Rattle.run_checker.specs.Verdict.{Judges};

use crate::verdicts::Verdict;
use guest_core::Core;

/// Accesses have one verdict at most: good, or bad at one index for one reason.
pub fn verdicts_are_one<C: Core>()
    ensures { (program : Program) (size : Numbers) (budget : ℕ) (accesses : List Access) (verdict other : Verdict) →
        Judges C.set program size budget accesses verdict → Judges C.set program size budget accesses other → verdict ≡ other }
{}

/// The accesses of a good record are what Arm's memory and monitors allow, and each thread has stopped behind its own.
pub fn good_records_are_legal<C: Core>()
    ensures legal { (program : Program) (size : Numbers) (run : RunRecord) →
        IsRecord run → run.threads ≡ size.threads → Judges C.set program size run.budget run.accesses Verdict.Good →
        IsArmLegal (at_rest_by size.granule program.bytes size.threads) (history_of run.accesses) }
    ensures stopped { (program : Program) (size : Numbers) (run : RunRecord) (t : ℕ) →
        Judges C.set program size run.budget run.accesses Verdict.Good → t < size.threads →
        HasEnded C.set program size run.budget run.accesses t }
{
    C::is_sound();
}

/// Accesses that Arm's memory and monitors allow, by which each thread has stopped, are good.
pub fn legal_records_are_good<C: Core>()
    ensures { (program : Program) (size : Numbers) (budget : ℕ) (accesses : List Access) →
        IsArmLegal (at_rest_by size.granule program.bytes size.threads) (history_of accesses) →
        ((t : ℕ) → t < size.threads → HasEnded C.set program size budget accesses t) →
        Judges C.set program size budget accesses Verdict.Good }
{}
