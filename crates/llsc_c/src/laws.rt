//! Laws of what a call from C has done with the handles that structs hold, each a function of no effect whose contract is the law.
//!
//! Of the accesses they are about one of four bytes at address 8, which stands for any other.
ghost use Rattle.std.specs.Prelude.{◌≡◌, ◌≤◌, ◌<◌, ◌+◌, ◌⊎◌, [], true, false, ℕ, List, length, Option, Some, None};
ghost use Rattle.llsc_base.specs.Sizes.{AreInRange, Numbers};
ghost use Rattle.history.specs.Operation.{load, load_missed, load_watched};
ghost use Rattle.history.specs.Parts.{entries_of};
ghost use Rattle.shared_memory.specs.Seen.{IsFront, longer};
ghost use Rattle.memory_handle.specs.Accesses.{Makes};
ghost use Rattle.memory_handle.specs.Handles.{AreAlike, handle_origin, handle_seen};
ghost use Rattle.memory_handle.specs.Left.{IsLeft};
ghost use Rattle.memory_handle.specs.declared.handles.Handle.{Handle};
ghost use Rattle.llsc_c.specs.Threads.{Becomes, IsAsBefore, IsClosed, IsJoined, IsOpened, IsSplit, MakesLoadEx};

/// A struct that held a handle holds one still, of the same memory and with the same threads, to which just that was done. One that held
/// none has come to none, and none is left of one.
pub fn handles_that_are_held_still()
    ensures done { (value : ℕ) (old new : Handle) → Becomes (Makes 8 4 (λ place. load place value)) (Some old) (Some new) →
        Makes 8 4 (λ place. load place value) old new }
    ensures alike { (value : ℕ) (old new : Handle) → Becomes (Makes 8 4 (λ place. load place value)) (Some old) (Some new) → AreAlike old new }
    ensures none_before { (value : ℕ) (new : Option Handle) → ¬ Becomes (Makes 8 4 (λ place. load place value)) None new }
    ensures none_after { (value : ℕ) (old : Option Handle) → ¬ Becomes (Makes 8 4 (λ place. load place value)) old None }
{}

/// A load-exclusive was made, with a reservation or without one, and no other load.
pub fn load_exclusives_are_made()
    ensures { (value : ℕ) (old new : Handle) → MakesLoadEx 8 4 value old new →
        Makes 8 4 (λ place. load_watched place value) old new ⊎ Makes 8 4 (λ place. load_missed place value) old new }
{}

/// A memory that is opened has the numbers and the bytes that were given. The numbers are in their ranges, and the bytes are as many as
/// they say. All of its threads begin by themselves, and a class may have had all of its writes, and a store-exclusive loses to nothing
/// but writes. The handle has all threads, which have seen nothing and may be split.
pub fn memories_that_are_opened()
    ensures numbers { (size : Numbers) (bytes : List ℕ) (handle : Handle) → IsOpened size bytes (Some handle) → (handle_origin handle).size ≡ size }
    ensures memory { (size : Numbers) (bytes : List ℕ) (handle : Handle) → IsOpened size bytes (Some handle) → (handle_origin handle).bytes ≡ bytes }
    ensures begin { (size : Numbers) (bytes : List ℕ) (handle : Handle) → IsOpened size bytes (Some handle) →
        ((handle_origin handle).first ≡ size.threads) × ((handle_origin handle).spare ≡ 0) }
    ensures kind { (size : Numbers) (bytes : List ℕ) (handle : Handle) → IsOpened size bytes (Some handle) →
        ((handle_origin handle).spends ≡ true) × ((handle_origin handle).steady ≡ true) }
    ensures all { (size : Numbers) (bytes : List ℕ) (handle : Handle) → IsOpened size bytes (Some handle) →
        (handle.first ≡ 0) × (handle.upto ≡ size.threads) × (handle_seen handle ≡ []) × (handle.fresh ≡ true) }
    ensures range { (size : Numbers) (bytes : List ℕ) (handle : Handle) → IsOpened size bytes (Some handle) → AreInRange size × (length bytes ≡ size.mem) }
    ensures none { (size : Numbers) (bytes : List ℕ) → ¬ IsOpened size bytes None }
{}

/// The last thread is split off and the others stay, of one memory; both have seen what was seen, and may be split.
pub fn threads_that_are_split()
    ensures memory { (old new last : Handle) → IsSplit (Some old) (Some new) (Some last) →
        (handle_origin new ≡ handle_origin old) × (handle_origin last ≡ handle_origin old) }
    ensures numbers { (old new last : Handle) → IsSplit (Some old) (Some new) (Some last) →
        (new.first ≡ old.first) × (new.upto ≡ last.first) × (last.first + 1 ≡ old.upto) × (last.upto ≡ old.upto) }
    ensures seen { (old new last : Handle) → IsSplit (Some old) (Some new) (Some last) →
        (handle_seen new ≡ handle_seen old) × (handle_seen last ≡ handle_seen old) × (new.fresh ≡ true) × (last.fresh ≡ true) }
{}

/// A handle has the threads of both, of its memory, and can't be split any more; it has seen the longer of what both had seen, in which
/// no thread of either has done more than its handle had seen of it.
pub fn threads_that_are_joined()
    ensures memory { (mine yours both : Handle) → IsJoined (Some mine) (Some yours) (Some both) → handle_origin both ≡ handle_origin mine }
    ensures numbers { (mine yours both : Handle) → IsJoined (Some mine) (Some yours) (Some both) → (both.first ≡ mine.first) × (both.upto ≡ yours.upto) }
    ensures seen { (mine yours both : Handle) → IsJoined (Some mine) (Some yours) (Some both) →
        (handle_seen both ≡ longer (handle_seen mine) (handle_seen yours))
        × IsFront (handle_seen mine) (handle_seen both) × IsFront (handle_seen yours) (handle_seen both) }
    ensures of_mine { (mine yours both : Handle) (thread : ℕ) → IsJoined (Some mine) (Some yours) (Some both) → mine.first ≤ thread → thread < mine.upto →
        entries_of thread (handle_seen both) ≡ entries_of thread (handle_seen mine) }
    ensures of_yours { (mine yours both : Handle) (thread : ℕ) → IsJoined (Some mine) (Some yours) (Some both) → yours.first ≤ thread → thread < yours.upto →
        entries_of thread (handle_seen both) ≡ entries_of thread (handle_seen yours) }
    ensures used { (mine yours both : Handle) → IsJoined (Some mine) (Some yours) (Some both) → both.fresh ≡ false }
    ensures with_none { (old new : Option Handle) → ¬ IsJoined old None new }
{}

/// A handle that is as before is of the same memory, has the same threads, has seen the same and may be split alike; and a memory that
/// is closed is left as its handle has seen it.
pub fn handles_that_go_on_or_end()
    ensures as_before { (old new : Handle) → IsAsBefore old new →
        (handle_origin new ≡ handle_origin old) × (new.first ≡ old.first) × (new.upto ≡ old.upto) × (handle_seen new ≡ handle_seen old)
        × (new.fresh ≡ old.fresh) }
    ensures closed { (handle : Handle) (bytes : List ℕ) → IsClosed (Some handle) bytes → IsLeft handle bytes }
    ensures none { (bytes : List ℕ) → ¬ IsClosed None bytes }
{}
