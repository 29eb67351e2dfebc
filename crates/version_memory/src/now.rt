//! Accesses that wait for nobody.
ghost use Rattle.std.specs.Prelude.{◌≡◌, ◌+◌, ◌^◌, ◌<◌, ◌≤◌, ℕ, IfErr, IfOk, IsTrue, false, true};
ghost use Rattle.std.specs.Bool.{OnFalse, OnTrue};
ghost use Rattle.llsc_base.specs.Memory.{is_aligned, size_bytes};
ghost use Rattle.history.specs.Operation.{load_missed, load_watched, store};
ghost use Rattle.shared_memory.specs.Seen.{IsSingle, IsUsedUp};
ghost use Rattle.version_rule.specs.Exact.{IsAtLimit, IsUndisturbed};
ghost use Rattle.version_memory.specs.Exact.{HasFailedAt, IsContended};
ghost use Rattle.version_memory.specs.Memory.{memory_id, memory_origin, pass_home, pass_numbers, pass_seen};
ghost use Rattle.version_memory.specs.Stands.{HasRoom, Stands};
ghost use Rattle.shared_memory.specs.Calls.{DoesNothing, FailsToStore, MayUse, Performs, PerformsEither};

use crate::exclusive::load_ex_cell;
use crate::memory::VersionMemory;
use crate::passes::{Reserved, VersionPass};
use crate::pauses::{pause, pauses_after};
use crate::plain::{Tried, try_store};
use history::Entry;
use llsc_base::Place;
use row_bytes::take;
use shared_memory::Spent;
use std::marker::Brand;

/// How often a load-exclusive looks at its class before the look at which it begins in any case.
const LOOKS: u32 = 64;

impl VersionMemory {
    /// A load-exclusive, and whether the thread holds a reservation on the row from now on: it does unless a write of another
    /// thread in the class of the row is in flight still after so many looks at the class.
    #[inline]
    pub(crate) fn load_ex_within(
        &self,
        pass: &mut VersionPass,
        place: Place,
        looks: u32,
    ) -> (u64, bool)
        requires memory { pass_home pass.old ≡ memory_id self.now }
        requires single { MayUse (memory_origin self.now) (pass_numbers pass.old) (pass_seen pass.old) }
        requires aligned { IsTrue (is_aligned place) }
        requires inside { place.addr + size_bytes place.size ≤ (memory_origin self.now).size.mem }
        ensures reserved { OnTrue result.1 (Performs (memory_origin self.now) (pass_numbers pass.old) (pass_seen pass.old)
            (load_watched place result.0) (pass_seen pass.new)) }
        ensures missed { OnFalse result.1 (Performs (memory_origin self.now) (pass_numbers pass.old) (pass_seen pass.old)
            (load_missed place result.0) (pass_seen pass.new)) }
        ensures fits { result.0 < 256 ^ size_bytes place.size }
        ensures memory { pass_home pass.new ≡ pass_home pass.old }
        ensures numbers { pass_numbers pass.new ≡ pass_numbers pass.old }
    {
        let target = self.target(place, 0);
        let linked = load_ex_cell::<Brand>(&self.table.shared, &mut pass.seat, target, looks);
        let value = take(linked.cell, place);
        if linked.tag % 2 != 0 {
            pass.reserved = None;
            return (value, false);
        }
        pass.reserved = Some(Reserved {
            row: place.row(self.size.granule()),
            version: linked.tag,
        });
        (value, true)
    }

    /// A load-exclusive that pauses first where store-exclusives of its thread failed of late, looks at its class a while, and then
    /// goes on, without a reservation where a write of the class is in flight still.
    #[inline]
    pub(crate) fn load_ex_paused(&self, pass: &mut VersionPass, place: Place) -> u64
        requires memory { pass_home pass.old ≡ memory_id self.now }
        requires single { MayUse (memory_origin self.now) (pass_numbers pass.old) (pass_seen pass.old) }
        requires aligned { IsTrue (is_aligned place) }
        requires inside { place.addr + size_bytes place.size ≤ (memory_origin self.now).size.mem }
        ensures seen { PerformsEither (memory_origin self.now) (pass_numbers pass.old) (pass_seen pass.old)
            (load_watched place result) (load_missed place result) (pass_seen pass.new) }
        ensures fits { result < 256 ^ size_bytes place.size }
        ensures memory { pass_home pass.new ≡ pass_home pass.old }
        ensures numbers { pass_numbers pass.new ≡ pass_numbers pass.old }
    {
        pause(pass.pauses);
        self.load_ex_within(pass, place, LOOKS).0
    }

    /// A load-exclusive that waits for nobody, and whether the thread holds a reservation on the row from now on: it does
    /// unless a write of another thread in the class of the row is in flight.
    pub fn load_ex_now(&self, pass: &mut VersionPass, place: Place) -> (u64, bool)
        requires memory { pass_home pass.old ≡ memory_id self.now }
        requires single { MayUse (memory_origin self.now) (pass_numbers pass.old) (pass_seen pass.old) }
        requires aligned { IsTrue (is_aligned place) }
        requires inside { place.addr + size_bytes place.size ≤ (memory_origin self.now).size.mem }
        ensures reserved { OnTrue result.1 (Performs (memory_origin self.now) (pass_numbers pass.old) (pass_seen pass.old)
            (load_watched place result.0) (pass_seen pass.new)) }
        ensures missed { OnFalse result.1 (Performs (memory_origin self.now) (pass_numbers pass.old) (pass_seen pass.old)
            (load_missed place result.0) (pass_seen pass.new)) }
        ensures fits { result.0 < 256 ^ size_bytes place.size }
        ensures memory { pass_home pass.new ≡ pass_home pass.old }
        ensures numbers { pass_numbers pass.new ≡ pass_numbers pass.old }
    {
        self.load_ex_within(pass, place, 0)
    }

    /// A store-exclusive of a value below 2 to the 8, 16, 32 or 64 by the place's size, which waits for nobody, and whether it
    /// succeeded: exactly where the thread holds a reservation on the row, no write of any thread has begun in the row's class
    /// since, and the class may take another.
    pub fn store_ex_now(&self, pass: &mut VersionPass, place: Place, value: u64) -> bool
        requires memory { pass_home pass.old ≡ memory_id self.now }
        requires single { MayUse (memory_origin self.now) (pass_numbers pass.old) (pass_seen pass.old) }
        requires aligned { IsTrue (is_aligned place) }
        requires inside { place.addr + size_bytes place.size ≤ (memory_origin self.now).size.mem }
        requires fits { value < 256 ^ size_bytes place.size }
        ensures done { OnTrue result (Performs (memory_origin self.now) (pass_numbers pass.old) (pass_seen pass.old)
            (store place value true) (pass_seen pass.new)) }
        ensures failed { OnFalse result (FailsToStore (memory_origin self.now) (pass_numbers pass.old) (pass_seen pass.old)
            place value (pass_seen pass.new)) }
        ensures exact_done { OnTrue result ((t : ℕ) → IsSingle t (pass_numbers pass.old)
            → Stands (IsUndisturbed (memory_origin self.now).size t place) (Entry.Begin t place)
            (pass_seen pass.old) (pass_seen pass.new)) }
        ensures exact_failed { OnFalse result ((t : ℕ) → IsSingle t (pass_numbers pass.old)
            → HasFailedAt (memory_origin self.now).size t place value (pass_seen pass.old) (pass_seen pass.new)) }
        ensures memory { pass_home pass.new ≡ pass_home pass.old }
        ensures numbers { pass_numbers pass.new ≡ pass_numbers pass.old }
    {
        // It needs no stamp, and is otherwise the stamped one.
        self.store_ex_stamped(pass, place, value).is_some()
    }

    /// A store-exclusive as [`store_ex_now`](VersionMemory::store_ex_now) makes it, after which it is known how often the next
    /// load-exclusive of the thread pauses.
    #[inline]
    pub(crate) fn store_ex_paused(&self, pass: &mut VersionPass, place: Place, value: u64) -> bool
        requires memory { pass_home pass.old ≡ memory_id self.now }
        requires single { MayUse (memory_origin self.now) (pass_numbers pass.old) (pass_seen pass.old) }
        requires aligned { IsTrue (is_aligned place) }
        requires inside { place.addr + size_bytes place.size ≤ (memory_origin self.now).size.mem }
        requires fits { value < 256 ^ size_bytes place.size }
        ensures done { OnTrue result (Performs (memory_origin self.now) (pass_numbers pass.old) (pass_seen pass.old)
            (store place value true) (pass_seen pass.new)) }
        ensures failed { OnFalse result (FailsToStore (memory_origin self.now) (pass_numbers pass.old) (pass_seen pass.old)
            place value (pass_seen pass.new)) }
        ensures exact_done { OnTrue result ((t : ℕ) → IsSingle t (pass_numbers pass.old)
            → Stands (IsUndisturbed (memory_origin self.now).size t place) (Entry.Begin t place)
            (pass_seen pass.old) (pass_seen pass.new)) }
        ensures exact_failed { OnFalse result ((t : ℕ) → IsSingle t (pass_numbers pass.old)
            → HasFailedAt (memory_origin self.now).size t place value (pass_seen pass.old) (pass_seen pass.new)) }
        ensures memory { pass_home pass.new ≡ pass_home pass.old }
        ensures numbers { pass_numbers pass.new ≡ pass_numbers pass.old }
    {
        let done = self.store_ex_now(pass, place, value);
        pass.pauses = pauses_after(pass.pauses, done);
        done
    }

    /// A store of a value below 2 to the 8, 16, 32 or 64 by the place's size, which is tried once and waits for nobody, and
    /// whether it is done: it is unless a write of another thread in the class of the place is in flight, or comes first. Then
    /// nothing is stored, and the caller may try again.
    ///
    /// # Errors
    ///
    /// [`Spent`] exactly where the class has had as many writes as it may have, and none of them is in flight. Then nothing is
    /// stored.
    pub fn store_now(&self, pass: &mut VersionPass, place: Place, value: u64) -> Result<bool, Spent>
        requires memory { pass_home pass.old ≡ memory_id self.now }
        requires single { MayUse (memory_origin self.now) (pass_numbers pass.old) (pass_seen pass.old) }
        requires aligned { IsTrue (is_aligned place) }
        requires inside { place.addr + size_bytes place.size ≤ (memory_origin self.now).size.mem }
        requires fits { value < 256 ^ size_bytes place.size }
        ensures done { IfOk result
            (λ done. OnTrue done (Performs (memory_origin self.now) (pass_numbers pass.old) (pass_seen pass.old)
            (store place value false) (pass_seen pass.new))) }
        ensures room { IfOk result (λ done. OnTrue done ((t : ℕ) → IsSingle t (pass_numbers pass.old)
            → HasRoom (memory_origin self.now).size place (Entry.Begin t place) (pass_seen pass.old) (pass_seen pass.new))) }
        ensures contended { IfOk result
            (λ done. OnFalse done (IsContended (memory_origin self.now).size place (pass_seen pass.old) (pass_seen pass.new))) }
        ensures not_yet { IfOk result
            (λ done. OnFalse done (DoesNothing (memory_origin self.now) (pass_numbers pass.old) (pass_seen pass.old)
            (pass_seen pass.new))) }
        ensures spent { IfErr result (λ s. IsUsedUp (memory_origin self.now) place s.class s.writes (pass_seen pass.new)) }
        ensures exact { IfErr result (λ _. IsAtLimit (memory_origin self.now).size place (pass_seen pass.new)) }
        ensures refused { IfErr result (λ _. DoesNothing (memory_origin self.now) (pass_numbers pass.old) (pass_seen pass.old)
            (pass_seen pass.new)) }
        ensures memory { pass_home pass.new ≡ pass_home pass.old }
        ensures numbers { pass_numbers pass.new ≡ pass_numbers pass.old }
    {
        let target = self.target(place, value);
        let limit = self.size.limit();
        match try_store::<Brand>(&self.table.shared, &mut pass.seat, target, limit) {
            Tried::Waits => Ok(false),
            Tried::Spent => Err(Spent {
                class: self.class_at(place),
                writes: limit,
            }),
            Tried::Done(_) => {
                pass.reserved = self.reserved_after(pass.reserved, place);
                Ok(true)
            }
        }
    }
}
