//! Accesses that give their stamps: how many writes the class of their place had had before.
ghost use Rattle.std.specs.Prelude.{◌≡◌, ◌≢◌, ◌+◌, ◌^◌, ◌<◌, ◌≤◌, ℕ, None, Some, IfErr, IfOk, IfSome, IsTrue, false, true};
ghost use Rattle.std.specs.Result.{OnOk};
ghost use Rattle.llsc_base.specs.Memory.{is_aligned, size_bytes};
ghost use Rattle.history.specs.Operation.{load, load_watched, store};
ghost use Rattle.shared_memory.specs.Seen.{IsSingle, IsUsedUp};
ghost use Rattle.version_rule.specs.Exact.{IsAtLimit, IsUndisturbed};
ghost use Rattle.version_memory.specs.Exact.{HasFailedAt};
ghost use Rattle.version_memory.specs.Memory.{memory_id, memory_origin, pass_home, pass_numbers, pass_seen};
ghost use Rattle.version_memory.specs.Stands.{HasRoom, IsStamped, Stands};
ghost use Rattle.shared_memory.specs.Calls.{DoesNothing, FailsToStore, MayUse, Performs};

use crate::exclusive::{fail_absent, store_ex_cell};
use crate::memory::VersionMemory;
use crate::passes::{Reserved, VersionPass};
use crate::plain::store_cell;
use crate::stamped::{load_ex_stamped_cell, load_stamped_cell};
use history::Entry;
use llsc_base::Place;
use row_bytes::take;
use shared_memory::Spent;
use std::marker::Brand;
use std::sync::Wait;

/// The version of a reservation, where it is on this row.
#[inline]
fn version_on(reserved: Option<Reserved>, row: u32) -> Option<u64>
    ensures some { IfSome result (λ version. reserved ≡ Some (record { row = row; version = version })) }
    ensures none { result ≡ None → (version : ℕ) → reserved ≢ Some (record { row = row; version = version }) }
{
    let held = reserved?;
    if held.row != row {
        return None;
    }
    Some(held.version)
}

impl VersionMemory {
    /// A load, and its stamp: how many writes the class of the place had had before. It may wait for other threads.
    pub fn load_stamped<R: Wait>(&self, rt: &R, pass: &mut VersionPass, place: Place) -> (u64, u64)
        requires memory { pass_home pass.old ≡ memory_id self.now }
        requires single { MayUse (memory_origin self.now) (pass_numbers pass.old) (pass_seen pass.old) }
        requires aligned { IsTrue (is_aligned place) }
        requires inside { place.addr + size_bytes place.size ≤ (memory_origin self.now).size.mem }
        ensures seen { Performs (memory_origin self.now) (pass_numbers pass.old) (pass_seen pass.old)
            (load place result.0) (pass_seen pass.new) }
        ensures stamp { (t : ℕ) → IsSingle t (pass_numbers pass.old)
            → IsStamped (memory_origin self.now).size place result.1 (Entry.Read t place result.0 false)
            (pass_seen pass.old) (pass_seen pass.new) }
        ensures fits { result.0 < 256 ^ size_bytes place.size }
        ensures memory { pass_home pass.new ≡ pass_home pass.old }
        ensures numbers { pass_numbers pass.new ≡ pass_numbers pass.old }
    {
        let target = self.target(place, 0);
        let found = load_stamped_cell::<R, Brand>(rt, &self.table.shared, &mut pass.seat, target);
        (take(found.cell, place), found.stamp)
    }

    /// A store of a value below 2 to the 8, 16, 32 or 64 by the place's size, and its stamp: how many writes the class of the
    /// place had had before. It may wait for other threads.
    ///
    /// # Errors
    ///
    /// [`Spent`] exactly where the class has had as many writes as it may have, and none of them is in flight. Then nothing is
    /// stored.
    pub fn store_stamped<R: Wait>(
        &self,
        rt: &R,
        pass: &mut VersionPass,
        place: Place,
        value: u64,
    ) -> Result<u64, Spent>
        requires memory { pass_home pass.old ≡ memory_id self.now }
        requires single { MayUse (memory_origin self.now) (pass_numbers pass.old) (pass_seen pass.old) }
        requires aligned { IsTrue (is_aligned place) }
        requires inside { place.addr + size_bytes place.size ≤ (memory_origin self.now).size.mem }
        requires fits { value < 256 ^ size_bytes place.size }
        ensures done { OnOk result (Performs (memory_origin self.now) (pass_numbers pass.old) (pass_seen pass.old)
            (store place value false) (pass_seen pass.new)) }
        ensures stamp { IfOk result (λ stamp. (t : ℕ) → IsSingle t (pass_numbers pass.old)
            → IsStamped (memory_origin self.now).size place stamp (Entry.Write t place value false)
            (pass_seen pass.old) (pass_seen pass.new)) }
        ensures room { OnOk result ((t : ℕ) → IsSingle t (pass_numbers pass.old)
            → HasRoom (memory_origin self.now).size place (Entry.Begin t place) (pass_seen pass.old) (pass_seen pass.new)) }
        ensures spent { IfErr result (λ s. IsUsedUp (memory_origin self.now) place s.class s.writes (pass_seen pass.new)) }
        ensures exact { IfErr result (λ _. IsAtLimit (memory_origin self.now).size place (pass_seen pass.new)) }
        ensures refused { IfErr result (λ _. DoesNothing (memory_origin self.now) (pass_numbers pass.old) (pass_seen pass.old)
            (pass_seen pass.new)) }
        ensures memory { pass_home pass.new ≡ pass_home pass.old }
        ensures numbers { pass_numbers pass.new ≡ pass_numbers pass.old }
    {
        let target = self.target(place, value);
        let limit = self.size.limit();
        let stored = store_cell::<R, Brand>(rt, &self.table.shared, &mut pass.seat, target, limit);
        let Some(stamp) = stored else {
            return Err(Spent {
                class: self.class_at(place),
                writes: limit,
            });
        };
        pass.reserved = self.reserved_after(pass.reserved, place);
        Ok(stamp)
    }

    /// A load-exclusive, on whose row the thread holds a reservation from now on, and its stamp: how many writes the class of
    /// the place had had before. It may wait for other threads.
    pub fn load_ex_stamped<R: Wait>(
        &self,
        rt: &R,
        pass: &mut VersionPass,
        place: Place,
    ) -> (u64, u64)
        requires memory { pass_home pass.old ≡ memory_id self.now }
        requires single { MayUse (memory_origin self.now) (pass_numbers pass.old) (pass_seen pass.old) }
        requires aligned { IsTrue (is_aligned place) }
        requires inside { place.addr + size_bytes place.size ≤ (memory_origin self.now).size.mem }
        ensures seen { Performs (memory_origin self.now) (pass_numbers pass.old) (pass_seen pass.old)
            (load_watched place result.0) (pass_seen pass.new) }
        ensures stamp { (t : ℕ) → IsSingle t (pass_numbers pass.old)
            → IsStamped (memory_origin self.now).size place result.1 (Entry.Read t place result.0 true)
            (pass_seen pass.old) (pass_seen pass.new) }
        ensures fits { result.0 < 256 ^ size_bytes place.size }
        ensures memory { pass_home pass.new ≡ pass_home pass.old }
        ensures numbers { pass_numbers pass.new ≡ pass_numbers pass.old }
    {
        let target = self.target(place, 0);
        let linked = load_ex_stamped_cell::<R, Brand>(
            rt,
            &self.table.shared,
            &mut pass.seat,
            target,
        );
        pass.reserved = Some(Reserved {
            row: place.row(self.size.granule()),
            version: linked.tag,
        });
        (take(linked.cell, place), linked.tag / 2)
    }

    /// A store-exclusive of a value below 2 to the 8, 16, 32 or 64 by the place's size, which waits for nobody; and its stamp,
    /// how many writes the class of the place had had before, or none where it failed. It succeeds exactly where the thread
    /// holds a reservation on the row, no write of any thread has begun in the row's class since, and the class may take
    /// another.
    pub fn store_ex_stamped(&self, pass: &mut VersionPass, place: Place, value: u64) -> Option<u64>
        requires memory { pass_home pass.old ≡ memory_id self.now }
        requires single { MayUse (memory_origin self.now) (pass_numbers pass.old) (pass_seen pass.old) }
        requires aligned { IsTrue (is_aligned place) }
        requires inside { place.addr + size_bytes place.size ≤ (memory_origin self.now).size.mem }
        requires fits { value < 256 ^ size_bytes place.size }
        ensures done { IfSome result (λ _. Performs (memory_origin self.now) (pass_numbers pass.old) (pass_seen pass.old)
            (store place value true) (pass_seen pass.new)) }
        ensures stamp { IfSome result (λ stamp. (t : ℕ) → IsSingle t (pass_numbers pass.old)
            → IsStamped (memory_origin self.now).size place stamp (Entry.Write t place value true)
            (pass_seen pass.old) (pass_seen pass.new)) }
        ensures failed { result ≡ None → FailsToStore (memory_origin self.now) (pass_numbers pass.old) (pass_seen pass.old)
            place value (pass_seen pass.new) }
        ensures exact_done { IfSome result (λ _. (t : ℕ) → IsSingle t (pass_numbers pass.old)
            → Stands (IsUndisturbed (memory_origin self.now).size t place) (Entry.Begin t place)
            (pass_seen pass.old) (pass_seen pass.new)) }
        ensures exact_failed { result ≡ None → (t : ℕ) → IsSingle t (pass_numbers pass.old)
            → HasFailedAt (memory_origin self.now).size t place value (pass_seen pass.old) (pass_seen pass.new) }
        ensures memory { pass_home pass.new ≡ pass_home pass.old }
        ensures numbers { pass_numbers pass.new ≡ pass_numbers pass.old }
    {
        let target = self.target(place, value);
        let held = version_on(pass.reserved, place.row(self.size.granule()));
        pass.reserved = None;
        let Some(version) = held else {
            fail_absent::<Brand>(&self.table.shared, &mut pass.seat, target);
            return None;
        };
        let limit = self.size.limit();
        store_ex_cell::<Brand>(&self.table.shared, &mut pass.seat, target, version, limit)
    }
}
