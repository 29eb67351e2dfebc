//! Laws of threads that are started, each a function of no effect whose contract is the law.
ghost use Rattle.std.specs.Prelude.{◌≡◌, ◌+◌, ◌*◌, ◌<◌, ◌++◌, ◌∷◌, [], ℕ, List, false, length};
ghost use Rattle.history.specs.Parts.{entries_of};
ghost use Rattle.history.specs.Started.{AreBorn, MayAct, child_of, is_started, starts_of};
ghost use Rattle.history.specs.Starts.{made_by, starts_in};

use crate::entry::Entry;

/// Where none is spare no thread is started, so that none but the first may act.
pub fn none_is_started_where_none_is_spare()
    ensures none { (first child : ℕ) (history : List Entry) → AreBorn first 0 history → is_started child history ≡ false }
    ensures first { (first thread : ℕ) (history : List Entry) → AreBorn first 0 history → MayAct first thread history → thread < first }
{}

/// The number of a started thread says which thread started it and how many that had started before; and it is below the number
/// of all threads.
pub fn started_threads_have_their_numbers()
    ensures apart { (first spare one other some more : ℕ) → some < spare → more < spare →
        child_of first spare one some ≡ child_of first spare other more → (one ≡ other) × (some ≡ more) }
    ensures below { (first spare thread started : ℕ) → thread < first → started < spare →
        child_of first spare thread started < first + first * spare }
{}

/// What a thread has started grows by its own Starts, each behind so many of its accesses, and by nothing else: it has as many
/// members as the thread has Starts.
pub fn starts_grow_by_ones_own()
    ensures by_a_start { (thread : ℕ) (old added : List Entry) (child entry arg : ℕ) → entries_of thread added ≡ Entry.Start thread child entry arg ∷ [] →
        starts_in thread (old ++ added) ≡ starts_in thread old ++ record { child = child; entry = entry; arg = arg; place = made_by thread old } ∷ [] }
    ensures by_no_other { (thread : ℕ) (old added : List Entry) → starts_of thread (entries_of thread added) ≡ 0 →
        starts_in thread (old ++ added) ≡ starts_in thread old }
    ensures counted { (thread : ℕ) (history : List Entry) → length (starts_in thread history) ≡ starts_of thread history }
{}
