//! The calls of the memory as one that threads share: it keeps the promise of `SharedMemory`.
ghost use Rattle.std.specs.Prelude.{◌≡◌, ◌+◌, ◌^◌, ◌<◌, ◌≤◌, ℕ, IsTrue, false, true};
ghost use Rattle.llsc_base.specs.Memory.{is_aligned, size_bytes};
ghost use Rattle.hst_memory.specs.inner.Hands.{row_after};
ghost use Rattle.hst_memory.specs.Exact.{IsExact};
ghost use Rattle.shared_memory.specs.inner.Targets.{IsPlace, IsTarget};
ghost use Rattle.history.specs.Operation.{fail, load_missed, load_watched, store};
ghost use Rattle.history.specs.declared.entry.Cause.{Cause};
ghost use Rattle.shared_memory.specs.Seen.{IsSingle};
ghost use Rattle.std.specs.Bool.{OnFalse, OnTrue};
ghost use Rattle.hst_memory.specs.Memory.{memory_id, memory_origin, pass_home, pass_numbers, pass_seen, story_history};
ghost use Rattle.shared_memory.specs.Calls.{FailsToStore, MayUse, Performs, PerformsEither};

use crate::alone::{clear_reservation, fail_absent, load_ex_cell, store_ex_cell};
use crate::memory::HstMemory;
use crate::passes::{HstPass, HstStory};
use crate::plain::{load_cell, store_cell};
use crate::seats::{join_numbers, split_number, vouch_for};
use llsc_base::{MachineSize, Place};
use row_bytes::take;
use shared_memory::{
    Rows, SharedMemory, Spent, Target, merge_marks, only_mark, other_number, word_of_cell,
};
use std::marker::Brand;
use std::snapshot::Snapshot;
use std::sync::Wait;

impl HstMemory {
    /// Where an access goes, and the value that a store puts there.
    #[inline]
    fn target(&self, place: Place, value: u64) -> Target
        requires place { IsPlace self.now.table.shared.key place }
        requires fits { value < 256 ^ size_bytes place.size }
        ensures target { IsTarget self.now.table.shared.key result }
        ensures place { result.place ≡ place }
        ensures value { result.value ≡ value }
    {
        Target::of(&self.size, place, value)
    }

    /// A reservation after the thread's own store to a place, which ends it where the place falls into its class.
    #[inline]
    fn reserved_after(&self, reserved: Option<u32>, place: Place) -> Option<u32>
        ensures { result ≡ row_after self.now.table.shared.key.size place reserved }
    {
        let kept = reserved?;
        let row = place.row(self.size.granule());
        if self.size.class_of(row) == self.size.class_of(kept) {
            return None;
        }
        reserved
    }
}

impl SharedMemory for HstMemory {
    type Pass = HstPass;

    type Story = HstStory;

    ghost origin = { memory_origin };

    ghost id = { memory_id };

    ghost home = { pass_home };

    ghost numbers = { pass_numbers };

    ghost seen = { pass_seen };

    ghost history = { story_history };

    fn size(&self) -> MachineSize {
        self.size
    }

    fn first(&self) -> u32 {
        self.size.threads()
    }

    fn thread(&self, pass: &HstPass) -> u32 {
        pass.number
    }

    fn vouch(&self, pass: &mut HstPass) {
        vouch_for::<Brand>(&self.table.shared, &mut pass.seat);
    }

    fn load(&self, pass: &mut HstPass, place: Place) -> u64 {
        let word = word_of_cell(&self.size, place);
        let cell = load_cell::<Brand>(&self.table.shared, &mut pass.seat, place, word);
        take(cell, place)
    }

    fn store<R: Wait>(
        &self,
        rt: &R,
        pass: &mut HstPass,
        place: Place,
        value: u64,
    ) -> Result<(), Spent> {
        let target = self.target(place, value);
        let name = u64::from(pass.number) + 1;
        let threads = self.size.threads();
        store_cell::<R, Brand>(
            rt,
            &self.table.shared,
            &mut pass.seat,
            target,
            threads,
            name,
        );
        pass.reserved = self.reserved_after(pass.reserved, place);
        Ok(())
    }

    // It might have to wait for a thread that is alone in the memory: so it isn't done.
    fn try_store(&self, pass: &mut HstPass, place: Place, value: u64) -> bool {
        self.vouch(pass);
        false
    }

    // It has a reservation in any case.
    fn load_ex<R: Wait>(&self, rt: &R, pass: &mut HstPass, place: Place) -> u64
        requires memory { pass_home pass.old ≡ memory_id self.now }
        requires single { MayUse (memory_origin self.now) (pass_numbers pass.old) (pass_seen pass.old) }
        requires aligned { IsTrue (is_aligned place) }
        requires inside { place.addr + size_bytes place.size ≤ (memory_origin self.now).size.mem }
        ensures seen { PerformsEither (memory_origin self.now) (pass_numbers pass.old) (pass_seen pass.old)
            (load_watched place result) (load_missed place result) (pass_seen pass.new) }
        ensures fits { result < 256 ^ size_bytes place.size }
        ensures memory { pass_home pass.new ≡ pass_home pass.old }
        ensures numbers { pass_numbers pass.new ≡ pass_numbers pass.old }
        ensures watched { Performs (memory_origin self.now) (pass_numbers pass.old) (pass_seen pass.old)
            (load_watched place result) (pass_seen pass.new) }
    {
        let target = self.target(place, 0);
        let name = u64::from(pass.number) + 1;
        let cell = load_ex_cell::<R, Brand>(rt, &self.table.shared, &mut pass.seat, target, name);
        pass.reserved = Some(place.row(self.size.granule()));
        take(cell, place)
    }

    // It would have to be alone in the memory, for which it might have to wait.
    fn try_load_ex(&self, pass: &mut HstPass, place: Place) -> Option<u64> {
        self.vouch(pass);
        None
    }

    // It succeeds exactly where its thread is undisturbed, and fails for want of a reservation or because that was lost.
    fn store_ex<R: Wait>(&self, rt: &R, pass: &mut HstPass, place: Place, value: u64) -> bool
        requires memory { pass_home pass.old ≡ memory_id self.now }
        requires single { MayUse (memory_origin self.now) (pass_numbers pass.old) (pass_seen pass.old) }
        requires aligned { IsTrue (is_aligned place) }
        requires inside { place.addr + size_bytes place.size ≤ (memory_origin self.now).size.mem }
        requires fits { value < 256 ^ size_bytes place.size }
        ensures done { OnTrue result (Performs (memory_origin self.now) (pass_numbers pass.old) (pass_seen pass.old)
            (store place value true) (pass_seen pass.new)) }
        ensures failed { OnFalse result (FailsToStore (memory_origin self.now) (pass_numbers pass.old) (pass_seen pass.old)
            place value (pass_seen pass.new)) }
        ensures memory { pass_home pass.new ≡ pass_home pass.old }
        ensures numbers { pass_numbers pass.new ≡ pass_numbers pass.old }
        ensures exact { (t : ℕ) → IsSingle t (pass_numbers pass.old)
            → IsExact (memory_origin self.now).size t place value result (pass_seen pass.old) (pass_seen pass.new) }
        ensures causes { OnFalse result (PerformsEither (memory_origin self.now) (pass_numbers pass.old) (pass_seen pass.old)
            (fail place value Cause.Absent) (fail place value Cause.Lost) (pass_seen pass.new)) }
    {
        let target = self.target(place, value);
        let name = u64::from(pass.number) + 1;
        let reserved = pass.reserved;
        pass.reserved = None;
        if reserved != Some(place.row(self.size.granule())) {
            fail_absent::<Brand>(&self.table.shared, &mut pass.seat, target);
            return false;
        }
        store_ex_cell::<R, Brand>(rt, &self.table.shared, &mut pass.seat, target, name)
    }

    // As `try_load_ex`.
    fn try_store_ex(&self, pass: &mut HstPass, place: Place, value: u64) -> Option<bool> {
        self.vouch(pass);
        None
    }

    fn clear_ex(&self, pass: &mut HstPass) {
        clear_reservation::<Brand>(&self.table.shared, &mut pass.seat);
        pass.reserved = None;
    }

    fn split(&self, pass: &mut HstPass, t: u32) -> HstPass {
        let lead = other_number(&pass.has, t);
        let seat = split_number::<Brand>(&self.table.shared, &mut pass.seat, t, lead);
        pass.has[t as usize] = false;
        pass.number = lead;
        pass.reserved = None;
        HstPass {
            seat,
            has: only_mark(t),
            number: t,
            reserved: None,
        }
    }

    fn join(&self, pass: &mut HstPass, other: HstPass) {
        let HstPass {
            seat,
            has,
            number: _,
            reserved: _,
        } = other;
        join_numbers(&self.table.shared, &mut pass.seat, seat);
        pass.has = merge_marks(&pass.has, &has);
        pass.reserved = None;
    }

    fn close(self, pass: HstPass) -> (Rows, HstStory) {
        let HstMemory { table, size } = self;
        let HstPass {
            seat,
            has: _,
            number: _,
            reserved: _,
        } = pass;
        let story = HstStory {
            of: Snapshot::of(&seat),
        };
        let closed = table.close_with(seat);
        let rows = Rows::new(closed, 1 + size.classes() as usize, size.mem() / 8);
        (rows, story)
    }
}
