//! The contract of a memory that guest threads share.
ghost use Rattle.std.specs.Prelude.{◌≡◌, ◌≢◌, ◌+◌, ◌*◌, ◌^◌, ◌<◌, ◌≤◌, ℕ, Bool, List, [], ◌∷◌, IsTrue, IfErr, IfNone, IfSome, codes, false, true, length, slice_index};
ghost use Rattle.std.specs.Bool.{OnFalse, OnTrue};
ghost use Rattle.std.specs.Result.{OnOk};
ghost use Rattle.llsc_base.specs.Memory.{is_aligned, size_bytes};
ghost use Rattle.row_bytes.specs.Cell.{cell_at};
ghost use Rattle.atomic_table.specs.Seated.{TableId};
ghost use Rattle.history.specs.Cause.{KeepsLimit};
ghost use Rattle.history.specs.Legal.{IsComplete};
ghost use Rattle.history.specs.Monitor.{at_rest_by, monitor_after};
ghost use Rattle.history.specs.Parts.{accesses_of, entries_of};
ghost use Rattle.history.specs.Operation.{clear, load, load_missed, load_watched, store};
ghost use Rattle.history.specs.Steady.{AreSteady};
ghost use Rattle.history.specs.declared.entry.Entry.{Entry};
ghost use Rattle.shared_memory.specs.Origin.{Origin, IsLegalFrom};
ghost use Rattle.shared_memory.specs.Seen.{IsFront, IsOneOf, IsSingle, IsUsedUp, SaysAllOf, all_but, joint, longer};
ghost use Rattle.shared_memory.specs.Calls.{DoesNothing, FailsToStore, MayUse, Performs, PerformsEither};

use crate::rows::Rows;
use llsc_base::{MachineSize, Place};
use std::sync::Wait;

/// A store was refused: its class of rows has had all the writes that it takes.
#[derive(Clone, Copy, Debug, PartialEq, Eq)]
pub struct Spent {
    /// The class, from 0 up.
    pub class: u32,
    /// How many writes it has had, the limit of a class.
    pub writes: u64,
}

impl Spent {
    /// The fault's name.
    pub fn name(&self) -> &str
        ensures { result.now ≡ codes "Spent" }
    {
        "Spent"
    }
}

/// A memory that threads share while they run on host threads.
///
/// What a pass of the memory has seen is a history of accesses, legal by Arm's memory and monitors (DDI 0406C A3.4). Of what two
/// passes have seen the one is a front of the other, as [`join`](SharedMemory::join) says; at [`close`](SharedMemory::close) one
/// pass has seen the whole. Each access takes a pass that holds the number alone of a thread that may act: one that begins by itself, or that
/// was started in what the pass has seen. What it adds to what the pass has seen is the access's own operation, in full, and
/// entries of other threads between.
pub trait SharedMemory: Sync + Drop {
    /// What a thread accesses the memory with.
    type Pass: Send + Drop;

    /// The whole history of a closed memory. Nothing of it is read at run time.
    type Story: Send + Drop;

    /// What the memory was made with.
    ghost origin: { Self → Origin };

    /// Which memory it is.
    ghost id: { Self → TableId };

    /// The memory that made a pass.
    ghost home: { Self.Pass → TableId };

    /// Which thread numbers a pass holds.
    ghost numbers: { Self.Pass → ℕ → Bool };

    /// The front of the history that a pass has seen.
    ghost seen: { Self.Pass → List Entry };

    /// The history of a story.
    ghost history: { Self.Story → List Entry };

    /// The size that the memory was made with.
    fn size(&self) -> MachineSize
        ensures { result ≡ (origin self.now).size };

    /// How many threads begin by themselves: from 1 to the size's threads.
    fn first(&self) -> u32
        ensures first { result ≡ (origin self.now).first }
        ensures least { 1 ≤ result }
        ensures most { result ≤ (origin self.now).size.threads };

    /// The number of a pass that holds one alone.
    fn thread(&self, pass: &Self::Pass) -> u32
        requires memory { home pass.now ≡ id self.now }
        requires single { (t : ℕ) × IsSingle t (numbers pass.now) }
        ensures { IsSingle result (numbers pass.now) };

    /// Vouches for what a pass has seen: it is a legal history of the memory. The pass stays as it is.
    fn vouch(&self, pass: &mut Self::Pass)
        requires memory { home pass.old ≡ id self.now }
        ensures legal { IsLegalFrom (origin self.now) (seen pass.new) }
        ensures seen { seen pass.new ≡ seen pass.old }
        ensures memory { home pass.new ≡ home pass.old }
        ensures numbers { numbers pass.new ≡ numbers pass.old };

    /// A load: the value of the place, which is aligned and lies in memory, here as below.
    fn load(&self, pass: &mut Self::Pass, place: Place) -> u64
        requires memory { home pass.old ≡ id self.now }
        requires single { MayUse (origin self.now) (numbers pass.old) (seen pass.old) }
        requires aligned { IsTrue (is_aligned place) }
        requires inside { place.addr + size_bytes place.size ≤ (origin self.now).size.mem }
        ensures seen { Performs (origin self.now) (numbers pass.old) (seen pass.old) (load place result) (seen pass.new) }
        ensures fits { result < 256 ^ size_bytes place.size }
        ensures memory { home pass.new ≡ home pass.old }
        ensures numbers { numbers pass.new ≡ numbers pass.old };

    /// A store of a value below 2 to the 8, 16, 32 or 64 by the place's size. It may wait for other threads.
    ///
    /// # Errors
    ///
    /// [`Spent`] where the memory counts the writes of a class, and that of the place has had all that it takes. Then
    /// nothing is stored.
    fn store<R: Wait>(
        &self,
        rt: &R,
        pass: &mut Self::Pass,
        place: Place,
        value: u64,
    ) -> Result<(), Spent>
        requires memory { home pass.old ≡ id self.now }
        requires single { MayUse (origin self.now) (numbers pass.old) (seen pass.old) }
        requires aligned { IsTrue (is_aligned place) }
        requires inside { place.addr + size_bytes place.size ≤ (origin self.now).size.mem }
        requires fits { value < 256 ^ size_bytes place.size }
        ensures done { OnOk result
            (Performs (origin self.now) (numbers pass.old) (seen pass.old) (store place value false) (seen pass.new)) }
        ensures spent { IfErr result (λ s. IsUsedUp (origin self.now) place s.class s.writes (seen pass.new)) }
        ensures refused { IfErr result (λ _. DoesNothing (origin self.now) (numbers pass.old) (seen pass.old) (seen pass.new)) }
        ensures memory { home pass.new ≡ home pass.old }
        ensures numbers { numbers pass.new ≡ numbers pass.old };

    /// A store that is tried once and waits for nobody, and whether it is done. It isn't where it would have to wait, or where the
    /// memory counts the writes of a class, and that of the place has had all that it takes. Then nothing is stored.
    fn try_store(&self, pass: &mut Self::Pass, place: Place, value: u64) -> bool
        requires memory { home pass.old ≡ id self.now }
        requires single { MayUse (origin self.now) (numbers pass.old) (seen pass.old) }
        requires aligned { IsTrue (is_aligned place) }
        requires inside { place.addr + size_bytes place.size ≤ (origin self.now).size.mem }
        requires fits { value < 256 ^ size_bytes place.size }
        ensures done { OnTrue result
            (Performs (origin self.now) (numbers pass.old) (seen pass.old) (store place value false) (seen pass.new)) }
        ensures nothing { OnFalse result (DoesNothing (origin self.now) (numbers pass.old) (seen pass.old) (seen pass.new)) }
        ensures memory { home pass.new ≡ home pass.old }
        ensures numbers { numbers pass.new ≡ numbers pass.old };

    /// A load-exclusive: the value of the place, on whose row the thread holds a reservation from now on, unless a write of
    /// another thread in the class of the row is in flight. It may wait for other threads.
    fn load_ex<R: Wait>(&self, rt: &R, pass: &mut Self::Pass, place: Place) -> u64
        requires memory { home pass.old ≡ id self.now }
        requires single { MayUse (origin self.now) (numbers pass.old) (seen pass.old) }
        requires aligned { IsTrue (is_aligned place) }
        requires inside { place.addr + size_bytes place.size ≤ (origin self.now).size.mem }
        ensures seen { PerformsEither (origin self.now) (numbers pass.old) (seen pass.old)
            (load_watched place result) (load_missed place result) (seen pass.new) }
        ensures fits { result < 256 ^ size_bytes place.size }
        ensures memory { home pass.new ≡ home pass.old }
        ensures numbers { numbers pass.new ≡ numbers pass.old };

    /// A load-exclusive as [`load_ex`](SharedMemory::load_ex) makes it, which waits for nobody. `None` where it would have to wait:
    /// then nothing is loaded.
    fn try_load_ex(&self, pass: &mut Self::Pass, place: Place) -> Option<u64>
        requires memory { home pass.old ≡ id self.now }
        requires single { MayUse (origin self.now) (numbers pass.old) (seen pass.old) }
        requires aligned { IsTrue (is_aligned place) }
        requires inside { place.addr + size_bytes place.size ≤ (origin self.now).size.mem }
        ensures seen { IfSome result (λ value. PerformsEither (origin self.now) (numbers pass.old) (seen pass.old)
            (load_watched place value) (load_missed place value) (seen pass.new)) }
        ensures fits { IfSome result (λ value. value < 256 ^ size_bytes place.size) }
        ensures nothing { IfNone result (DoesNothing (origin self.now) (numbers pass.old) (seen pass.old) (seen pass.new)) }
        ensures memory { home pass.new ≡ home pass.old }
        ensures numbers { numbers pass.new ≡ numbers pass.old };

    /// A store-exclusive of a value below 2 to the 8, 16, 32 or 64 by the place's size, and whether it succeeded. One that
    /// failed stores nothing, and has its cause in what was seen. It may wait for other threads.
    fn store_ex<R: Wait>(&self, rt: &R, pass: &mut Self::Pass, place: Place, value: u64) -> bool
        requires memory { home pass.old ≡ id self.now }
        requires single { MayUse (origin self.now) (numbers pass.old) (seen pass.old) }
        requires aligned { IsTrue (is_aligned place) }
        requires inside { place.addr + size_bytes place.size ≤ (origin self.now).size.mem }
        requires fits { value < 256 ^ size_bytes place.size }
        ensures done { OnTrue result
            (Performs (origin self.now) (numbers pass.old) (seen pass.old) (store place value true) (seen pass.new)) }
        ensures failed { OnFalse result
            (FailsToStore (origin self.now) (numbers pass.old) (seen pass.old) place value (seen pass.new)) }
        ensures memory { home pass.new ≡ home pass.old }
        ensures numbers { numbers pass.new ≡ numbers pass.old };

    /// A store-exclusive as [`store_ex`](SharedMemory::store_ex) makes it, which waits for nobody, and whether it succeeded. `None`
    /// where it would have to wait: then it neither succeeds nor fails, and the thread keeps the reservation that it holds.
    fn try_store_ex(&self, pass: &mut Self::Pass, place: Place, value: u64) -> Option<bool>
        requires memory { home pass.old ≡ id self.now }
        requires single { MayUse (origin self.now) (numbers pass.old) (seen pass.old) }
        requires aligned { IsTrue (is_aligned place) }
        requires inside { place.addr + size_bytes place.size ≤ (origin self.now).size.mem }
        requires fits { value < 256 ^ size_bytes place.size }
        ensures done { IfSome result (λ done. OnTrue done
            (Performs (origin self.now) (numbers pass.old) (seen pass.old) (store place value true) (seen pass.new))) }
        ensures failed { IfSome result (λ done. OnFalse done
            (FailsToStore (origin self.now) (numbers pass.old) (seen pass.old) place value (seen pass.new))) }
        ensures nothing { IfNone result (DoesNothing (origin self.now) (numbers pass.old) (seen pass.old) (seen pass.new)) }
        ensures memory { home pass.new ≡ home pass.old }
        ensures numbers { numbers pass.new ≡ numbers pass.old };

    /// CLREX: the thread holds no reservation from now on.
    fn clear_ex(&self, pass: &mut Self::Pass)
        requires memory { home pass.old ≡ id self.now }
        requires single { MayUse (origin self.now) (numbers pass.old) (seen pass.old) }
        ensures seen { Performs (origin self.now) (numbers pass.old) (seen pass.old) clear (seen pass.new) }
        ensures memory { home pass.new ≡ home pass.old }
        ensures numbers { numbers pass.new ≡ numbers pass.old };

    /// A pass for one thread of several that a pass holds, none of which has made an access. Both have seen what the pass
    /// had seen.
    fn split(&self, pass: &mut Self::Pass, t: u32) -> Self::Pass
        requires memory { home pass.old ≡ id self.now }
        requires one { IsOneOf t (numbers pass.old) }
        requires several { (other : ℕ) × (other ≢ t) × IsOneOf other (numbers pass.old) }
        requires fresh { (u : ℕ) → IsOneOf u (numbers pass.old) → entries_of u (seen pass.old) ≡ [] }
        ensures rest { numbers pass.new ≡ all_but t (numbers pass.old) }
        ensures single { IsSingle t (numbers result) }
        ensures seen { (seen pass.new ≡ seen pass.old) × (seen result ≡ seen pass.old) }
        ensures memory { (home pass.new ≡ home pass.old) × (home result ≡ home pass.old) };

    /// Takes in another pass: the pass holds the numbers of both. Of what the two have seen the one is a front of the
    /// other, and the longer is kept; it has no more entries of each one's threads than that one had seen.
    fn join(&self, pass: &mut Self::Pass, other: Self::Pass)
        requires memory { (home pass.old ≡ id self.now) × (home other ≡ id self.now) }
        ensures numbers { numbers pass.new ≡ joint (numbers pass.old) (numbers other) }
        ensures seen { seen pass.new ≡ longer (seen pass.old) (seen other) }
        ensures fronts { IsFront (seen pass.old) (seen pass.new) × IsFront (seen other) (seen pass.new) }
        ensures mine { SaysAllOf (numbers pass.old) (seen pass.old) (seen pass.new) }
        ensures yours { SaysAllOf (numbers other) (seen other) (seen pass.new) }
        ensures memory { home pass.new ≡ home pass.old };

    /// Memory as it is left, cell by cell, and its history, once a pass holds the numbers of all threads. Where the memory counts
    /// the writes of a class, no class has had more of them than it takes. Where a store-exclusive loses on it to nothing but
    /// writes, each that has lost has lost to a write of another thread.
    fn close(self, pass: Self::Pass) -> (Rows, Self::Story)
        requires memory { home pass ≡ id self }
        requires all { (t : ℕ) → t < (origin self).size.threads → IsOneOf t (numbers pass) }
        ensures story { history result.1 ≡ seen pass }
        ensures legal { IsLegalFrom (origin self) (seen pass) }
        ensures complete { IsComplete (seen pass) }
        ensures few { (origin self).spends ≡ true → KeepsLimit (origin self).size (seen pass) }
        ensures steady { (origin self).steady ≡ true → AreSteady (origin self).size (seen pass) }
        ensures count { 8 * length result.0 ≡ (origin self).size.mem }
        ensures cells { let start = at_rest_by (origin self).size.granule (origin self).bytes (origin self).size.threads in
            (i : ℕ) → i < length result.0 → slice_index result.0 i ≡ cell_at (monitor_after start (accesses_of (seen pass))).memory i };
}
