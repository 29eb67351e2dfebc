//! The law of what is answered of the stack guest, a function of no effect whose contract is the law.
ghost use Rattle.std.specs.Prelude.{◌≡◌, ◌⊎◌, ◌+◌, ◌*◌, ◌<◌, ◌≤◌, ◌∷◌, [], ℕ, List, Option, Some};
ghost use Rattle.elf32.specs.Written.{written_file};
ghost use Rattle.llsc_base.specs.Sizes.{Numbers, room_of};
ghost use Rattle.history.specs.declared.entry.Entry.{Entry};
ghost use Rattle.llsc_words.specs.Request.{Request};
ghost use Rattle.llsc_call.specs.Answer.{Answers};
ghost use Rattle.stack_runs.specs.Guest.{stack_unit};
ghost use Rattle.stack_answers.specs.Told.{AreNeverLost, HaveComeBack, RunsThreads};

/// A run, by `run` without spare threads or by `pool`, of the file that `asm` writes of the stack guest. Where its status is 0 or 1,
/// each node was at every moment of its one history once on the stack, or in the hand of one thread. Where the status is 0, each node is
/// on the stack at the end, and together the nodes count every round of every thread.
pub fn runs_lose_no_node()
    ensures ever { (nodes rounds budget : ℕ) (size : Numbers) (asked : Request) (story : Option (List Entry)) (status : ℕ) (text : List ℕ) →
        nodes ≤ 64 → 1 ≤ rounds → rounds < 65536 → 8256 + 8 * nodes ≤ room_of size → RunsThreads size budget asked →
        Answers asked (written_file (stack_unit nodes rounds) ∷ []) story status text → (status ≡ 0) ⊎ (status ≡ 1) →
        (history : List Entry) × ((story ≡ Some history) × AreNeverLost nodes rounds size history) }
    ensures at_end { (nodes rounds budget : ℕ) (size : Numbers) (asked : Request) (story : Option (List Entry)) (text : List ℕ) →
        nodes ≤ 64 → 1 ≤ rounds → rounds < 65536 → 8256 + 8 * nodes ≤ room_of size → RunsThreads size budget asked →
        Answers asked (written_file (stack_unit nodes rounds) ∷ []) story 0 text →
        (history : List Entry) × ((story ≡ Some history) × HaveComeBack nodes rounds size history) }
{}
