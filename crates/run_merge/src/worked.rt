//! Worked cases of a thread's log: which of a history's entries it has, as what accesses, and with which stamps; and how many of them
//! are kept.
//!
//! There is one class, into which the next row falls, too.
ghost use Rattle.std.specs.Prelude.{◌≡◌, ◌∷◌, [], false, true};
ghost use Rattle.history.specs.Accesses.{nowhere};
ghost use Rattle.history.specs.Worked.{next_row, small_machine, word};
ghost use Rattle.run_merge.specs.Logs.{log_of, most_logged};

use history::{Cause, Deed, Entry};

/// A log has the thread's accesses, in order. A Read or a Write is stamped with how many Writes of its class stand before it, whosever they
/// are; what begins or ends counts for none, and a failed store-exclusive and a CLREX have stamp 0.
#[tactic(auto, unfolding(llsc_base::specs::Memory::row_of, llsc_base::specs::Memory::class_of))]
pub fn logs_of_a_thread()
    ensures stored { log_of (small_machine 1) 0 (Entry.Write 1 next_row 5 false ∷ Entry.Watch 0 word ∷ Entry.Read 0 word 0 true
        ∷ Entry.Begin 0 word ∷ Entry.Write 0 word 9 true ∷ Entry.End 0 word ∷ Entry.Read 0 word 9 false ∷ [])
        ≡ record { access = record { thread = 0; deed = Deed.LoadEx; place = word; value = 0 }; stamp = 1 }
        ∷ record { access = record { thread = 0; deed = Deed.StoreEx; place = word; value = 9 }; stamp = 1 }
        ∷ record { access = record { thread = 0; deed = Deed.Load; place = word; value = 9 }; stamp = 2 } ∷ [] }
    ensures failed { log_of (small_machine 1) 0 (Entry.Write 0 next_row 5 false ∷ Entry.Fail 0 word 7 Cause.Absent ∷ Entry.Clear 0 ∷ [])
        ≡ record { access = record { thread = 0; deed = Deed.Store; place = next_row; value = 5 }; stamp = 0 }
        ∷ record { access = record { thread = 0; deed = Deed.StoreFail; place = word; value = 7 }; stamp = 0 }
        ∷ record { access = record { thread = 0; deed = Deed.Clear; place = nowhere; value = 0 }; stamp = 0 } ∷ [] }
    ensures of_another { log_of (small_machine 1) 1 (Entry.Write 0 word 5 false ∷ Entry.Watch 1 word ∷ []) ≡ [] }
    ensures in_another_class { log_of (small_machine 4096) 0 (Entry.Write 1 next_row 5 false ∷ Entry.Read 0 word 0 false ∷ [])
        ≡ record { access = record { thread = 0; deed = Deed.Load; place = word; value = 0 }; stamp = 0 } ∷ [] }
{}

/// So many of a thread's accesses are kept.
#[tactic(auto, unfolding(crate::specs::Logs::most_logged))]
pub fn accesses_that_are_kept()
    ensures { most_logged ≡ 1000000 }
{}
