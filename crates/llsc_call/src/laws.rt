//! The laws of what the program answers, each a function of no effect whose contract is the law.
ghost use Rattle.std.specs.Prelude.{◌≡◌, ◌≢◌, ◌⊎◌, ◌≤◌, ℕ, false, List, Option, Some, codes, slice_get};
ghost use Rattle.llsc_base.specs.Images.{Program};
ghost use Rattle.llsc_base.specs.Limits.{most_budget};
ghost use Rattle.llsc_base.specs.Sizes.{Numbers};
ghost use Rattle.history.specs.Accesses.{history_of};
ghost use Rattle.history.specs.Legal.{IsLegal};
ghost use Rattle.history.specs.declared.entry.Access.{Access};
ghost use Rattle.history.specs.declared.entry.Entry.{Entry};
ghost use Rattle.guest_thread.specs.End.{IsEndIn};
ghost use Rattle.guest_thread.specs.BegunOutcome.{IsOutcomeFrom};
ghost use Rattle.guest_thread.specs.Outcome.{AreEndsOn, IsOutcome};
ghost use Rattle.rv32_guest.specs.Machine.{rv32};
ghost use Rattle.guest_thread.specs.Start.{thread_start};
ghost use Rattle.guest_thread.specs.declared.ends.GuestEnd.{GuestEnd};
ghost use Rattle.run_record.specs.declared.records.RunRecord.{RunRecord};
ghost use Rattle.guest_machine.specs.Alone.{IsSoloEnd};
ghost use Rattle.guest_machine.specs.Traces.{IsTraceRecord};
ghost use Rattle.guest_machine.specs.Turns.{IsTrace};
ghost use Rattle.run_checker.specs.Verdict.{Judges};
ghost use Rattle.run_merge.specs.Merge.{IsMerge};
ghost use Rattle.llsc_call.specs.Answer.{Answers, prints_any_merge};
ghost use Rattle.llsc_call.specs.Check.{AnswersCheck};
ghost use Rattle.llsc_call.specs.Exclusives.{AreStoresExact};
ghost use Rattle.llsc_call.specs.Load.{AnswersLoad, CountsEveryRound, load_program, load_size, load_text};
ghost use Rattle.llsc_files.specs.Programs.{image_of};
ghost use Rattle.llsc_report.specs.Report.{report_of};
ghost use Rattle.llsc_report.specs.Summary.{load_summary};
ghost use Rattle.llsc_call.specs.Record.{AnswersRecord, PrintsMerge};
ghost use Rattle.llsc_call.specs.Run.{AnswersRun, IsOutcomeBy};
ghost use Rattle.llsc_call.specs.Versions.{KeepsVersions};
ghost use Rattle.llsc_words.specs.declared.formats.Format.{Format};
ghost use Rattle.llsc_words.specs.declared.sets.SetName.{SetName};
ghost use Rattle.llsc_words.specs.Request.{Request};
ghost use Rattle.a32_step.specs.Machine.{a32};

use llsc_base::Stop;
use run_checker::Verdict;

/// A request has one answer for the bytes of its files, and for the history of its threads where they run beside each other: one
/// status and one text. Of a record alone it has one for each merge of that history.
pub fn answers_are_one()
    ensures { (asked : Request) (files : List (List ℕ)) (story : Option (List Entry)) (status other : ℕ) (text more : List ℕ) →
        prints_any_merge asked ≡ false → Answers asked files story status text → Answers asked files story other more → (status ≡ other) × (text ≡ more) }
{}

/// What a run prints, where its status is 0 or 1, is the report of an outcome of its threads, those that begin by themselves and
/// those that they start: of one history, legal and complete, from the program's memory on, that goes with the answer. In it no
/// class of rows has had more writes than the machine lets it; and loads, load-exclusives, failed store-exclusives and CLREX of
/// others end no reservation: a store-exclusive has lost only where a write of another thread in the class of its row had begun
/// since its load-exclusive.
pub fn runs_have_one_history()
    ensures { (set : SetName) (format : Format) (first spare : ℕ) (size : Numbers) (budget : ℕ) (file : List ℕ) (story : Option (List Entry)) (status : ℕ) (text : List ℕ) →
        AnswersRun set format first spare size budget file story status text → (status ≡ 0) ⊎ (status ≡ 1) →
        (history : List Entry) × (ends : List GuestEnd)
        × ((story ≡ Some history) × (IsOutcomeBy set (image_of format file size) size first spare budget history ends
        × (KeepsVersions size history × (text ≡ report_of budget ends)))) }
{}

/// What a load prints, where its status is 0 or 1, is by an outcome of its guest's threads: by one history, legal and complete, from
/// the guest's memory on, that goes with the answer. In it too no class of rows has had more writes than it may, and a
/// store-exclusive has lost only to a write of another thread. What is printed is the summary of the load's numbers, where each
/// thread left with code 0, and the report of the ends else.
pub fn loads_have_one_history()
    ensures { (seed threads rounds budget : ℕ) (story : Option (List Entry)) (status : ℕ) (text : List ℕ) →
        AnswersLoad seed threads rounds budget story status text → (status ≡ 0) ⊎ (status ≡ 1) →
        let program = load_program seed threads rounds in
        let size = load_size threads in
        (history : List Entry) × (ends : List GuestEnd)
        × ((story ≡ Some history) × (IsOutcome a32 program size budget history ends × (KeepsVersions size history
        × (text ≡ load_text seed threads rounds budget ends)))) }
{}

/// A load with status 0 has counted every round: in the memory that its one history leaves, each counter holds exactly as many as
/// there are rounds that name it, however its threads came to run beside each other; and so it is printed, with the rounds of all
/// threads as the total.
pub fn loads_count_every_round()
    ensures { (seed threads rounds budget : ℕ) (story : Option (List Entry)) (text : List ℕ) →
        AnswersLoad seed threads rounds budget story 0 text →
        (history : List Entry) × ((story ≡ Some history) × (CountsEveryRound seed threads rounds history
        × (text ≡ load_summary seed threads rounds))) }
{}

/// In the one history of a run, of a load or of a recorded run each store-exclusive that succeeded was undisturbed: the last
/// load-exclusive of its thread read the same row, and nobody has written in that row since, whatever the value. And each that failed
/// has its cause. By RISC-V instructions these are SC.W and LR.W.
pub fn store_exclusives_are_exact()
    ensures of_all { (program : Program) (size : Numbers) (budget : ℕ) (history : List Entry) (ends : List GuestEnd) →
        IsOutcome a32 program size budget history ends → AreStoresExact size program.bytes history }
    ensures of_begun { (program : Program) (size : Numbers) (first spare budget : ℕ) (history : List Entry) (ends : List GuestEnd) →
        IsOutcomeFrom a32 program size first spare budget history ends → AreStoresExact size program.bytes history }
    ensures of_risc_v { (program : Program) (size : Numbers) (budget : ℕ) (history : List Entry) (ends : List GuestEnd) →
        IsOutcome rv32 program size budget history ends → AreStoresExact size program.bytes history }
{}

/// A record has one status for the bytes of its file and for the history of its threads, whichever merge is printed, and where that is
/// 4 one text.
pub fn records_have_one_status()
    ensures { (format : Format) (size : Numbers) (budget : ℕ) (file : List ℕ) (story : Option (List Entry)) (status other : ℕ) (text more : List ℕ) →
        AnswersRecord format size budget file story status text → AnswersRecord format size budget file story other more → (status ≡ other) × (status ≡ 4 → text ≡ more) }
{}

/// What `record` prints, where its status is 0 or 1, is a record of a merge of one history of its threads, legal and complete, from the
/// program's memory on, that goes with the answer; and that history has no more accesses than a record may have.
pub fn records_have_one_history()
    ensures { (format : Format) (size : Numbers) (budget : ℕ) (file : List ℕ) (story : Option (List Entry)) (status : ℕ) (text : List ℕ) →
        AnswersRecord format size budget file story status text → (status ≡ 0) ⊎ (status ≡ 1) →
        (history : List Entry) × (ends : List GuestEnd)
        × ((story ≡ Some history) × (IsOutcome a32 (image_of format file size) size budget history ends
        × (KeepsVersions size history × PrintsMerge history size budget ends status text))) }
{}

/// A merge of a legal history of a program's threads is a good record, where none of them was stopped at a store since a class of rows
/// had had all of its writes.
pub fn merges_are_good()
    ensures { (program : Program) (size : Numbers) (budget : ℕ) (history : List Entry) (ends : List GuestEnd) (merged : List Access) →
        IsLegal size program.bytes history → AreEndsOn a32 program size budget history ends →
        ((t addr : ℕ) (end : GuestEnd) → slice_get ends t ≡ Some end → end.stop ≢ Stop.TagLimit addr) →
        IsMerge size history merged → Judges a32 program size budget merged Verdict.Good }
{}

/// What `record` prints with status 0, where every thread has left with code 0, `check` finds good by the same file, format and memory,
/// whatever classes and writes the machine had.
pub fn records_are_good()
    ensures { (format : Format) (size : Numbers) (budget : ℕ) (file : List ℕ) (story : Option (List Entry)) (text : List ℕ) →
        1 ≤ budget → budget ≤ most_budget →
        AnswersRecord format size budget file story 0 text → AnswersCheck format size.mem file text 0 (codes "good\n") }
{}

/// The record of a trace is good.
pub fn traces_are_good()
    ensures { (program : Program) (size : Numbers) (seed budget : ℕ) (accesses : List Access) →
        IsTrace a32 program size seed budget accesses → Judges a32 program size budget accesses Verdict.Good }
{}

/// A trace of one thread that a record may have ends as the thread does alone.
pub fn one_threads_trace_ends_as_alone()
    ensures { (program : Program) (size : Numbers) (seed : ℕ) (run : RunRecord) (end : GuestEnd) →
        size.threads ≡ 1 → IsTraceRecord a32 program size seed run.budget run → end.thread ≡ 0 →
        IsEndIn a32 program run.budget (thread_start a32 program size size.threads 0) (history_of run.accesses) end →
        IsSoloEnd a32 program size run.budget end }
{}
