//! Worked cases of what memory makes of what it asks, and of what is counted.
ghost use Rattle.std.specs.Prelude.{◌≡◌, ◌∷◌, ◌++◌, [], false, true, None, Some, replicate};
ghost use Rattle.llsc_base.specs.Images.{program_of};
ghost use Rattle.history.specs.Monitor.{at_rest, monitor_after};
ghost use Rattle.guest_thread.specs.Accesses.{access_by, monitor_of, tried_by};
ghost use Rattle.guest_thread.specs.Counting.{AreCounts, HaveGrownBy};
ghost use Rattle.guest_thread.specs.Counts.{fails_in, fails_of, reads_in, reads_of, writes_in, writes_of};
ghost use Rattle.guest_thread.specs.Worked.{access, machine_of, store_of, word};

use history::{Cause, Deed, Entry};
use llsc_base::Ask;

/// What is tried by an ask: the same access, a load with no value yet.
pub fn accesses_that_are_tried()
    ensures load { tried_by 1 (Ask.Load word) ≡ access 1 Deed.Load 0 }
    ensures load_exclusive { tried_by 1 (Ask.LoadEx word) ≡ access 1 Deed.LoadEx 0 }
    ensures store { tried_by 1 (Ask.Store word 7) ≡ access 1 Deed.Store 7 }
    ensures store_exclusive { tried_by 1 (Ask.StoreEx word 7) ≡ access 1 Deed.StoreEx 7 }
    ensures clear_thread { (tried_by 1 Ask.Clear).thread ≡ 1 }
    ensures clear_deed { (tried_by 1 Ask.Clear).deed ≡ Deed.Clear }
    ensures clear_address { (tried_by 1 Ask.Clear).place.addr ≡ 0 }
{}

/// What memory makes of an ask: a load has the value that stands there; a store-exclusive fails where its thread isn't marked
/// on the row, as another is, and stores where it is; a plain store asks for no mark.
#[tactic(auto, unfolding(llsc_base::specs::Memory::row_of, llsc_base::specs::Memory::number_of, llsc_base::specs::Memory::bytes_of))]
pub fn accesses_that_are_made()
    ensures load { access_by (monitor_after (at_rest (replicate 24 0) 2) (store_of 1 word)) 0 (Ask.Load word) ≡ access 0 Deed.Load 5 }
    ensures load_exclusive { access_by (monitor_after (at_rest (replicate 24 0) 2) (store_of 1 word)) 0 (Ask.LoadEx word) ≡ access 0 Deed.LoadEx 5 }
    ensures store { access_by (at_rest (replicate 24 0) 2) 0 (Ask.Store word 7) ≡ access 0 Deed.Store 7 }
    ensures unmarked { access_by (monitor_after (at_rest (replicate 24 0) 2) (Entry.Read 1 word 0 true ∷ [])) 0 (Ask.StoreEx word 7) ≡ access 0 Deed.StoreFail 7 }
    ensures marked { access_by (monitor_after (at_rest (replicate 24 0) 2) (Entry.Read 0 word 0 true ∷ [])) 0 (Ask.StoreEx word 7) ≡ access 0 Deed.StoreEx 7 }
    ensures clear { (access_by (at_rest (replicate 24 0) 2) 0 Ask.Clear).deed ≡ Deed.Clear }
{}

/// Memory and the marks begin as the program has them and no thread has any, and stand after accesses as these leave them.
#[tactic(auto, unfolding(llsc_base::specs::Memory::row_of, llsc_base::specs::Memory::bytes_of))]
pub fn memory_of_a_run()
    ensures begins { (monitor_of (program_of (5 ∷ replicate 15 7) [] 0) (machine_of 2 1 1) []).memory ≡ 5 ∷ replicate 15 7 }
    ensures unmarked { (monitor_of (program_of (replicate 16 0) [] 0) (machine_of 2 1 1) []).marks ≡ None ∷ None ∷ [] }
    ensures marked { (monitor_of (program_of (replicate 16 0) [] 0) (machine_of 2 1 1) (access 1 Deed.LoadEx 0 ∷ [])).marks ≡ None ∷ Some 1 ∷ [] }
    ensures stored { (monitor_of (program_of (replicate 16 0) [] 0) (machine_of 2 1 1) (access 1 Deed.Store 5 ∷ [])).memory ≡ replicate 8 0 ++ 5 ∷ replicate 7 0 }
    ensures granule { (monitor_of (program_of (replicate 16 0) [] 0) (record { mem = 65536; threads = 2; classes = 1; limit = 1; granule = 3 }) []).granule ≡ 3 }
{}

/// A load counts once, exclusive or not, so does a store that is made, and a store-exclusive that fails; nothing else does.
pub fn counts_of_accesses()
    ensures reads { reads_of (Entry.Watch 0 word ∷ Entry.Read 0 word 0 true ∷ Entry.Read 0 word 0 false ∷ Entry.Clear 0 ∷ []) ≡ 2 }
    ensures writes { writes_of (Entry.Begin 0 word ∷ Entry.Write 0 word 9 true ∷ Entry.End 0 word ∷ store_of 0 word) ≡ 2 }
    ensures fails { fails_of (Entry.Miss 0 word ∷ Entry.Read 0 word 0 true ∷ Entry.Fail 0 word 9 Cause.Absent ∷ []) ≡ 1 }
    ensures one_read { reads_in (Entry.Read 0 word 0 true) ≡ 1 }
    ensures no_read { reads_in (Entry.Write 0 word 9 true) ≡ 0 }
    ensures one_write { writes_in (Entry.Write 0 word 9 true) ≡ 1 }
    ensures no_write { writes_in (Entry.Fail 0 word 9 Cause.Absent) ≡ 0 }
    ensures one_fail { fails_in (Entry.Fail 0 word 9 Cause.Absent) ≡ 1 }
    ensures no_fail { fails_in (Entry.Write 0 word 9 true) ≡ 0 }
    ensures no_clear { fails_in (Entry.Clear 0) ≡ 0 }
{}

/// A thread's counts are those of its own accesses, each of the three.
pub fn counts_of_a_thread()
    ensures own { AreCounts 0 (Entry.Read 0 word 0 true ∷ Entry.Read 1 word 0 false ∷ Entry.Fail 0 word 9 Cause.Absent ∷ store_of 0 word ++ store_of 1 word)
        (record { reads = 1; writes = 1; fails = 1 }) }
    ensures too_many_reads { ¬ AreCounts 0 (Entry.Read 0 word 0 true ∷ Entry.Read 1 word 0 false ∷ []) (record { reads = 2; writes = 0; fails = 0 }) }
    ensures too_few_writes { ¬ AreCounts 0 (store_of 0 word) (record { reads = 0; writes = 0; fails = 0 }) }
    ensures of_another { ¬ AreCounts 0 (Entry.Fail 1 word 9 Cause.Absent ∷ []) (record { reads = 0; writes = 0; fails = 1 }) }
{}

/// Counts grow by the thread's own accesses alone, whatever they were before.
pub fn counts_that_grow()
    ensures own { HaveGrownBy 0 (Entry.Read 0 word 0 true ∷ Entry.Read 1 word 0 false ∷ store_of 0 word) (record { reads = 5; writes = 0; fails = 7 }) (record { reads = 6; writes = 1; fails = 7 }) }
    ensures too_many { ¬ HaveGrownBy 0 (Entry.Read 0 word 0 true ∷ []) (record { reads = 5; writes = 0; fails = 7 }) (record { reads = 7; writes = 0; fails = 7 }) }
    ensures from_none { ¬ HaveGrownBy 0 (Entry.Read 0 word 0 true ∷ []) (record { reads = 5; writes = 0; fails = 7 }) (record { reads = 1; writes = 0; fails = 0 }) }
{}
