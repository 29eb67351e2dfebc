//! Laws of merges, each a function of no effect whose contract is the law.
ghost use Rattle.std.specs.Prelude.{◌≡◌, ◌≤◌, ◌^◌, ◌⊎◌, ◌++◌, ◌∷◌, [], ℕ, All, List, length, map};
ghost use Rattle.llsc_base.specs.Sizes.{Numbers};
ghost use Rattle.history.specs.Accesses.{entry_of, history_of};
ghost use Rattle.history.specs.ArmLegal.{IsArmLegal};
ghost use Rattle.history.specs.Legal.{IsLegal};
ghost use Rattle.history.specs.Monitor.{at_rest_by};
ghost use Rattle.history.specs.declared.entry.Access.{Access};
ghost use Rattle.history.specs.declared.entry.Entry.{Entry};
ghost use Rattle.run_record.specs.Limits.{IsAccess};
ghost use Rattle.run_merge.specs.Logs.{access_of, log_of};
ghost use Rattle.run_merge.specs.Merge.{IsMerge};
ghost use Rattle.run_merge.specs.Taking.{IsTakenSoFar, MayBeTaken};
ghost use Rattle.run_merge.specs.declared.logs.Stamped.{Stamped};

/// A merge of a legal history is what Arm's memory and monitors allow.
pub fn merges_are_legal()
    ensures { (size : Numbers) (bytes : List ℕ) (history : List Entry) (merged : List Access) →
        IsLegal size bytes history → IsMerge size history merged →
        IsArmLegal (at_rest_by size.granule bytes size.threads) (history_of merged) }
{}

/// Where logs are merged access by access, an access may be taken as long as one is left; and what is taken in the end is a merge.
pub fn logs_can_be_merged()
    ensures begins { (size : Numbers) (history : List Entry) → IsTakenSoFar size history [] }
    ensures goes_on { (size : Numbers) (history taken : List Entry) → IsTakenSoFar size history taken →
        ((t : ℕ) → length (log_of size t history) ≤ length (log_of size t taken))
        ⊎ ((t : ℕ) × (next : Stamped) × MayBeTaken size history taken t next) }
    ensures one_more { (size : Numbers) (history taken : List Entry) (t : ℕ) (next : Stamped) → IsTakenSoFar size history taken →
        MayBeTaken size history taken t next → IsTakenSoFar size history (taken ++ entry_of next.access ∷ []) }
    ensures ends { (size : Numbers) (history : List Entry) (merged : List Access) → IsTakenSoFar size history (history_of merged) →
        ((t : ℕ) → length (log_of size t history) ≤ length (log_of size t (history_of merged))) → IsMerge size history merged }
{}

/// The accesses of a merge of a legal history may stand in a record of so many threads, where each CLREX is written as a record has it
/// and memory has no more bytes than 32 bits name.
pub fn merges_can_be_recorded()
    ensures { (size : Numbers) (bytes : List ℕ) (history : List Entry) (merged : List Access) →
        IsLegal size bytes history → length bytes ≤ 2 ^ 32 → IsMerge size history merged → merged ≡ map access_of (history_of merged) →
        All (IsAccess size.threads) merged }
{}
