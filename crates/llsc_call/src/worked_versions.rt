//! Worked cases of histories of memory that is kept by versions, of store-exclusives that are exact, and of requests that have one
//! answer for each merge.
ghost use Rattle.std.specs.Prelude.{◌≡◌, ◌∷◌, [], false, true, codes, replicate};
ghost use Rattle.history.specs.Worked.{last_byte, next_row, small_machine, word};
ghost use Rattle.llsc_call.specs.Answer.{prints_any_merge};
ghost use Rattle.llsc_call.specs.Exclusives.{AreStoresExact};
ghost use Rattle.llsc_call.specs.Versions.{KeepsVersions};
ghost use Rattle.llsc_words.specs.Request.Request.{Assemble, Check, Disassemble, Explain, Load, Pool, Record, Run, Solo, Trace};

use history::{Cause, Entry};
use llsc_words::{Format, SetName};

/// A history keeps the versions where a store-exclusive has lost to another's write and no class has had more writes than it takes; not
/// where one has lost to a load-exclusive, and not where a class has had one write more.
#[tactic(auto, unfolding(llsc_base::specs::Memory::row_of, llsc_base::specs::Memory::class_of))]
pub fn histories_that_keep_versions()
    ensures lost_to_a_write { KeepsVersions (small_machine 1) (Entry.Watch 0 word ∷ Entry.Begin 1 word ∷ Entry.Fail 0 word 9 Cause.Lost ∷ []) }
    ensures lost_to_a_load_exclusive { ¬ KeepsVersions (small_machine 1) (Entry.Watch 0 word ∷ Entry.Watch 1 word ∷ Entry.Fail 0 word 9 Cause.Lost ∷ []) }
    ensures one_write_more { ¬ KeepsVersions (small_machine 1) (Entry.Write 0 word 5 false ∷ Entry.Write 1 word 9 false ∷ []) }
{}

/// A store-exclusive that succeeded isn't exact where another wrote in the row since the load-exclusive, where that was of another row or
/// another thread's; and one that failed as lost isn't where its thread held no reservation.
#[tactic(auto, unfolding(llsc_base::specs::Memory::row_of))]
pub fn store_exclusives_that_are_not_exact()
    ensures written { ¬ AreStoresExact (small_machine 1) (replicate 32 0)
        (Entry.Read 0 word 0 true ∷ Entry.Write 1 last_byte 0 false ∷ Entry.Write 0 word 9 true ∷ []) }
    ensures of_another_row { ¬ AreStoresExact (small_machine 1) (replicate 32 0) (Entry.Read 0 next_row 0 true ∷ Entry.Write 0 word 9 true ∷ []) }
    ensures of_another_thread { ¬ AreStoresExact (small_machine 1) (replicate 32 0) (Entry.Read 1 word 0 true ∷ Entry.Write 0 word 9 true ∷ []) }
    ensures causeless { ¬ AreStoresExact (small_machine 1) (replicate 32 0) (Entry.Fail 0 word 9 Cause.Lost ∷ []) }
{}

/// Of a record alone any merge may be printed.
pub fn requests_that_print_any_merge()
    ensures record_run { prints_any_merge (Record (codes "p") Format.Elf (small_machine 1) 1) ≡ true }
    ensures solo { prints_any_merge (Solo (codes "p") Format.Elf 65536 1) ≡ false }
    ensures run { prints_any_merge (Run (codes "p") Format.Elf SetName.A32 2 0 (small_machine 1) 1) ≡ false }
    ensures run_rv { prints_any_merge (Run (codes "p") Format.Elf SetName.Rv32 2 0 (small_machine 1) 1) ≡ false }
    ensures pool { prints_any_merge (Pool (codes "p") Format.Elf (small_machine 1) 2 1 1) ≡ false }
    ensures assemble { prints_any_merge (Assemble (codes "p") Format.Elf) ≡ false }
    ensures disassemble { prints_any_merge (Disassemble (codes "p") Format.Elf 65536) ≡ false }
    ensures trace { prints_any_merge (Trace (codes "p") Format.Elf 2 65536 0 0 1) ≡ false }
    ensures check { prints_any_merge (Check (codes "p") (codes "r") Format.Elf 65536) ≡ false }
    ensures explain { prints_any_merge (Explain (codes "p") (codes "r") Format.Elf 65536) ≡ false }
    ensures load { prints_any_merge (Load 0 1 1 1) ≡ false }
{}
