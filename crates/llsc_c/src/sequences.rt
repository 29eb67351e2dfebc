//! Laws of calls from C behind each other, from a memory's opening to its end, each a function of no effect whose contract is the law.
//!
//! They are of any address, width and value: that a store was done says that these were right. Where one speaks of the bytes that are
//! left, it asks that those of the opening are below 256. Those of C always are.
ghost use Rattle.std.specs.Prelude.{◌≡◌, ◌<◌, ◌∷◌, [], ℕ, List, Option, All};
ghost use Rattle.llsc_base.specs.Sizes.{Numbers};
ghost use Rattle.history.specs.Operation.{load};
ghost use Rattle.memory_handle.specs.Accesses.{HasStored, Makes};
ghost use Rattle.memory_handle.specs.declared.handles.Handle.{Handle};
ghost use Rattle.llsc_c.specs.Sequences.{AreApart, with_value};
ghost use Rattle.llsc_c.specs.Threads.{Becomes, IsClosed, IsJoined, IsOpened, IsSplit};

/// One thread has stored a value, and then loaded the same place. It got the value, and the bytes that are left are those of the opening
/// with the value in them.
pub fn one_thread_that_stores_and_loads()
    ensures got { (size : Numbers) (bytes : List ℕ) (addr width value got : ℕ) (opened stored loaded : Option Handle) → size.threads ≡ 1
        → IsOpened size bytes opened
        → Becomes (HasStored addr width value) opened stored
        → Becomes (Makes addr width (λ place. load place got)) stored loaded
        → got ≡ value }
    ensures left { (size : Numbers) (bytes left : List ℕ) (addr width value got : ℕ) (opened stored loaded : Option Handle) → size.threads ≡ 1
        → All (λ byte. byte < 256) bytes
        → IsOpened size bytes opened
        → Becomes (HasStored addr width value) opened stored
        → Becomes (Makes addr width (λ place. load place got)) stored loaded
        → IsClosed loaded left
        → left ≡ with_value bytes addr width value }
{}

/// Two threads were split, and each has stored a value at a place of its own, in whichever order. The bytes that are left are those of the
/// opening with both values in them. A thread that loads its place behind its store gets its value.
pub fn two_threads_that_store_apart()
    ensures left { (size : Numbers) (bytes left : List ℕ) (addr width value other_addr other_width other_value : ℕ)
        (opened first last first_stored last_stored both : Option Handle) → size.threads ≡ 2
        → All (λ byte. byte < 256) bytes
        → IsOpened size bytes opened
        → IsSplit opened first last
        → Becomes (HasStored addr width value) first first_stored
        → Becomes (HasStored other_addr other_width other_value) last last_stored
        → AreApart addr width other_addr other_width
        → IsJoined first_stored last_stored both
        → IsClosed both left
        → left ≡ with_value (with_value bytes addr width value) other_addr other_width other_value }
    ensures got { (size : Numbers) (bytes : List ℕ) (addr width value got other_addr other_width other_value : ℕ)
        (opened first last first_stored first_loaded last_stored both : Option Handle) → size.threads ≡ 2
        → IsOpened size bytes opened
        → IsSplit opened first last
        → Becomes (HasStored addr width value) first first_stored
        → Becomes (Makes addr width (λ place. load place got)) first_stored first_loaded
        → Becomes (HasStored other_addr other_width other_value) last last_stored
        → AreApart addr width other_addr other_width
        → IsJoined first_loaded last_stored both
        → got ≡ value }
{}

/// A value is put in low byte first, over as many bytes as it has, and all others are as they were.
#[tactic(auto, unfolding(llsc_base::specs::Memory::bytes_of))]
pub fn values_that_are_put_in()
    ensures word { with_value (1 ∷ 2 ∷ 3 ∷ 4 ∷ 5 ∷ 6 ∷ []) 2 2 258 ≡ 1 ∷ 2 ∷ 2 ∷ 1 ∷ 5 ∷ 6 ∷ [] }
    ensures byte { with_value (1 ∷ 2 ∷ 3 ∷ []) 0 1 9 ≡ 9 ∷ 2 ∷ 3 ∷ [] }
    ensures beside { AreApart 8 4 12 4 }
    ensures before { AreApart 12 4 8 4 }
    ensures over { ¬ AreApart 8 4 11 4 }
{}
