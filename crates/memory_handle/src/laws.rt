//! Laws of what has come of the calls on handles, each a function of no effect whose contract is the law.
//!
//! They are about an access of four bytes at address 8, which stands for any other.
ghost use Rattle.std.specs.Prelude.{◌≡◌, ◌⊎◌, ◌++◌, ◌∷◌, [], true, false, ℕ, List, None};
ghost use Rattle.history.specs.Operation.{load, load_missed, load_watched};
ghost use Rattle.history.specs.Parts.{entries_of};
ghost use Rattle.history.specs.Worked.{word};
ghost use Rattle.shared_memory.specs.Origin.{IsLegalFrom};
ghost use Rattle.version_rule.specs.Exact.{IsAtLimit, IsUndisturbed};
ghost use Rattle.version_rule.specs.Left.{IsOver};
ghost use Rattle.version_memory.specs.Exact.{HasFailedAt, IsContended};
ghost use Rattle.version_memory.specs.Stands.{HasRoom, Stands};
ghost use Rattle.memory_handle.specs.Accesses.{Adds, HasFailedEx, HasFoundSpent, HasMetWrite, HasStored, HasStoredEx, Makes};
ghost use Rattle.memory_handle.specs.Faults.{IsRefused, store_fault};
ghost use Rattle.memory_handle.specs.Handles.{AreAlike, handle_origin, handle_seen};
ghost use Rattle.memory_handle.specs.Left.{IsLeft, bytes_left};
ghost use Rattle.memory_handle.specs.declared.handles.Handle.{Handle};

use crate::misuse::Misuse;
use history::{Cause, Entry};

/// What a handle's thread adds to what it has seen of the history: its own entries there are just these, and the whole is legal.
pub fn entries_that_are_added()
    ensures { (entries : List Entry) (old new : Handle) → Adds entries old new →
        (added : List Entry) × (handle_seen new ≡ handle_seen old ++ added) × (entries_of old.first added ≡ entries)
        × IsLegalFrom (handle_origin old) (handle_seen new) }
{}

/// By an access the handle's thread adds one operation: that of the call, at its place and with its value. A store that isn't done adds
/// none.
pub fn accesses_add_their_operations()
    ensures load { (value : ℕ) (old new : Handle) → Makes 8 4 (λ place. load place value) old new → Adds (Entry.Read old.first word value false ∷ []) old new }
    ensures reserved { (value : ℕ) (old new : Handle) → Makes 8 4 (λ place. load_watched place value) old new →
        Adds (Entry.Watch old.first word ∷ Entry.Read old.first word value true ∷ []) old new }
    ensures missed { (value : ℕ) (old new : Handle) → Makes 8 4 (λ place. load_missed place value) old new →
        Adds (Entry.Miss old.first word ∷ Entry.Read old.first word value true ∷ []) old new }
    ensures stored { (value : ℕ) (old new : Handle) → HasStored 8 4 value old new →
        Adds (Entry.Begin old.first word ∷ Entry.Write old.first word value false ∷ Entry.End old.first word ∷ []) old new }
    ensures stored_exclusively { (value : ℕ) (old new : Handle) → HasStoredEx 8 4 value old new →
        Adds (Entry.Begin old.first word ∷ Entry.Write old.first word value true ∷ Entry.End old.first word ∷ []) old new }
    ensures failed { (value : ℕ) (old new : Handle) → HasFailedEx 8 4 value old new →
        (cause : Cause) × Adds (Entry.Fail old.first word value cause ∷ []) old new }
    ensures met_a_write { (old new : Handle) → HasMetWrite 8 4 old new → Adds [] old new }
    ensures found_spent { (old new : Handle) → HasFoundSpent 8 4 old new → Adds [] old new }
{}

/// A store is done where its class may take another write. It isn't where a write of the class was in flight or came first, or where the
/// class has had all of its writes and none is in flight.
pub fn stores_have_their_reasons()
    ensures stored { (value : ℕ) (old new : Handle) → HasStored 8 4 value old new →
        HasRoom (handle_origin old).size word (Entry.Begin old.first word) (handle_seen old) (handle_seen new) }
    ensures met_a_write { (old new : Handle) → HasMetWrite 8 4 old new → IsContended (handle_origin old).size word (handle_seen old) (handle_seen new) }
    ensures found_spent { (old new : Handle) → HasFoundSpent 8 4 old new → IsAtLimit (handle_origin old).size word (handle_seen new) }
{}

/// What memory refuses of a store is one against which nothing stands, and it is refused as busy or as spent.
pub fn stores_that_memory_refuses()
    ensures sound { (handle : Handle) (misuse : Misuse) → IsRefused handle 8 4 5 misuse → store_fault handle 8 4 5 ≡ None }
    ensures why { (handle : Handle) (misuse : Misuse) → IsRefused handle 8 4 5 misuse → (misuse ≡ Misuse.Busy) ⊎ (misuse ≡ Misuse.Spent) }
{}

/// A store-exclusive succeeds where its thread is undisturbed, and fails where it isn't.
pub fn store_exclusives_have_their_reasons()
    ensures stored { (value : ℕ) (old new : Handle) → HasStoredEx 8 4 value old new →
        Stands (IsUndisturbed (handle_origin old).size old.first word) (Entry.Begin old.first word) (handle_seen old) (handle_seen new) }
    ensures failed { (value : ℕ) (old new : Handle) → HasFailedEx 8 4 value old new →
        HasFailedAt (handle_origin old).size old.first word value (handle_seen old) (handle_seen new) }
{}

/// Handles that are alike are of one memory and have the same threads, and a memory that is left is over by what the handle has seen,
/// and left with just the bytes that this leaves.
pub fn handles_before_and_after()
    ensures alike { (old new : Handle) → AreAlike old new →
        (handle_origin new ≡ handle_origin old) × (new.first ≡ old.first) × (new.upto ≡ old.upto) × (new.fresh ≡ old.fresh) }
    ensures left { (handle : Handle) (bytes : List ℕ) → IsLeft handle bytes → IsOver (handle_origin handle) (handle_seen handle) }
    ensures left_bytes { (handle : Handle) (bytes : List ℕ) → IsLeft handle bytes → bytes ≡ bytes_left (handle_origin handle) (handle_seen handle) }
{}
