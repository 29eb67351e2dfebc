//! The calls of the memory as one that threads share: it keeps the promise of `SharedMemory`.
ghost use Rattle.std.specs.Prelude.{◌≡◌, ◌+◌, ◌^◌, ◌<◌, ◌≤◌, ℕ, None, IfErr, IsTrue, false, true};
ghost use Rattle.std.specs.Bool.{OnFalse, OnTrue};
ghost use Rattle.std.specs.Result.{OnOk};
ghost use Rattle.llsc_base.specs.Memory.{is_aligned, size_bytes};
ghost use Rattle.history.specs.Operation.{store};
ghost use Rattle.shared_memory.specs.Seen.{IsSingle, IsUsedUp};
ghost use Rattle.version_rule.specs.Exact.{IsAtLimit, IsUndisturbed};
ghost use Rattle.version_memory.specs.Exact.{HasFailedAt};
ghost use Rattle.version_memory.specs.Stands.{HasRoom, Stands};
ghost use Rattle.version_rule.specs.Hands.{class_at};
ghost use Rattle.shared_memory.specs.inner.Targets.{IsPlace, IsTarget};
ghost use Rattle.version_memory.specs.inner.Passes.{reserved_after};
ghost use Rattle.version_memory.specs.Memory.{memory_id, memory_origin, pass_home, pass_numbers, pass_seen, story_history};
ghost use Rattle.shared_memory.specs.Calls.{DoesNothing, FailsToStore, MayUse, Performs};

use crate::exclusive::clear_reservation;
use crate::memory::VersionMemory;
use crate::passes::{Reserved, VersionPass, VersionStory};
use crate::plain::{Tried, load_cell, try_store};
use crate::seats::{join_numbers, split_number, vouch_for};
use history::Entry;
use llsc_base::{MachineSize, Place};
use row_bytes::take;
use shared_memory::{
    Rows, SharedMemory, Spent, Target, merge_marks, only_mark, other_number, word_of_cell,
};
use std::marker::Brand;
use std::snapshot::Snapshot;
use std::sync::Wait;

impl VersionMemory {
    /// The class of a place.
    #[inline]
    pub(crate) fn class_at(&self, place: Place) -> u32
        ensures { result ≡ class_at self.now.table.shared.key.size place }
    {
        self.size.class_of(place.row(self.size.granule()))
    }

    /// Where an access goes, and the value that a store puts there.
    #[inline]
    pub(crate) fn target(&self, place: Place, value: u64) -> Target
        requires place { IsPlace self.now.table.shared.key place }
        requires fits { value < 256 ^ size_bytes place.size }
        ensures target { IsTarget self.now.table.shared.key result }
        ensures place { result.place ≡ place }
        ensures value { result.value ≡ value }
    {
        Target::of(&self.size, place, value)
    }

    /// A reservation after the thread's own store to a place, which ends it where the place falls into its class.
    #[inline]
    pub(crate) fn reserved_after(
        &self,
        reserved: Option<Reserved>,
        place: Place,
    ) -> Option<Reserved>
        ensures { result ≡ reserved_after self.now.table.shared.key.size place reserved }
    {
        let kept = reserved?;
        if self.class_at(place) == self.size.class_of(kept.row) {
            return None;
        }
        reserved
    }
}

impl SharedMemory for VersionMemory {
    type Pass = VersionPass;

    type Story = VersionStory;

    ghost origin = { memory_origin };

    ghost id = { memory_id };

    ghost home = { pass_home };

    ghost numbers = { pass_numbers };

    ghost seen = { pass_seen };

    ghost history = { story_history };

    fn size(&self) -> MachineSize {
        self.size
    }

    fn first(&self) -> u32 {
        self.first
    }

    fn thread(&self, pass: &VersionPass) -> u32 {
        pass.number
    }

    fn vouch(&self, pass: &mut VersionPass) {
        vouch_for::<Brand>(&self.table.shared, &mut pass.seat);
    }

    fn load(&self, pass: &mut VersionPass, place: Place) -> u64 {
        let word = word_of_cell(&self.size, place);
        let cell = load_cell::<Brand>(&self.table.shared, &mut pass.seat, place, word);
        take(cell, place)
    }

    // It is refused exactly where the class has had all of its writes, and none of them is in flight.
    fn store<R: Wait>(
        &self,
        rt: &R,
        pass: &mut VersionPass,
        place: Place,
        value: u64,
    ) -> Result<(), Spent>
        requires memory { pass_home pass.old ≡ memory_id self.now }
        requires single { MayUse (memory_origin self.now) (pass_numbers pass.old) (pass_seen pass.old) }
        requires aligned { IsTrue (is_aligned place) }
        requires inside { place.addr + size_bytes place.size ≤ (memory_origin self.now).size.mem }
        requires fits { value < 256 ^ size_bytes place.size }
        ensures done { OnOk result (Performs (memory_origin self.now) (pass_numbers pass.old) (pass_seen pass.old)
            (store place value false) (pass_seen pass.new)) }
        ensures spent { IfErr result (λ s. IsUsedUp (memory_origin self.now) place s.class s.writes (pass_seen pass.new)) }
        ensures refused { IfErr result (λ _. DoesNothing (memory_origin self.now) (pass_numbers pass.old) (pass_seen pass.old)
            (pass_seen pass.new)) }
        ensures memory { pass_home pass.new ≡ pass_home pass.old }
        ensures numbers { pass_numbers pass.new ≡ pass_numbers pass.old }
        ensures room { OnOk result ((t : ℕ) → IsSingle t (pass_numbers pass.old)
            → HasRoom (memory_origin self.now).size place (Entry.Begin t place) (pass_seen pass.old) (pass_seen pass.new)) }
        ensures exact { IfErr result (λ _. IsAtLimit (memory_origin self.now).size place (pass_seen pass.new)) }
    {
        self.store_stamped(rt, pass, place, value)?;
        Ok(())
    }

    // Where it isn't done, a write of the class was in flight or came first, or the class has had all of its writes.
    #[inline]
    fn try_store(&self, pass: &mut VersionPass, place: Place, value: u64) -> bool {
        let target = self.target(place, value);
        let limit = self.size.limit();
        match try_store::<Brand>(&self.table.shared, &mut pass.seat, target, limit) {
            Tried::Waits => false,
            Tried::Spent => false,
            Tried::Done(_) => {
                pass.reserved = self.reserved_after(pass.reserved, place);
                true
            }
        }
    }

    // It waits for nobody, so that the handle isn't used.
    fn load_ex<R: Wait>(&self, rt: &R, pass: &mut VersionPass, place: Place) -> u64 {
        self.load_ex_paused(pass, place)
    }

    #[inline]
    fn try_load_ex(&self, pass: &mut VersionPass, place: Place) -> Option<u64> {
        Some(self.load_ex_paused(pass, place))
    }

    // It succeeds exactly where its thread is undisturbed, and waits for nobody.
    fn store_ex<R: Wait>(&self, rt: &R, pass: &mut VersionPass, place: Place, value: u64) -> bool
        requires memory { pass_home pass.old ≡ memory_id self.now }
        requires single { MayUse (memory_origin self.now) (pass_numbers pass.old) (pass_seen pass.old) }
        requires aligned { IsTrue (is_aligned place) }
        requires inside { place.addr + size_bytes place.size ≤ (memory_origin self.now).size.mem }
        requires fits { value < 256 ^ size_bytes place.size }
        ensures done { OnTrue result (Performs (memory_origin self.now) (pass_numbers pass.old) (pass_seen pass.old)
            (store place value true) (pass_seen pass.new)) }
        ensures failed { OnFalse result (FailsToStore (memory_origin self.now) (pass_numbers pass.old) (pass_seen pass.old)
            place value (pass_seen pass.new)) }
        ensures memory { pass_home pass.new ≡ pass_home pass.old }
        ensures numbers { pass_numbers pass.new ≡ pass_numbers pass.old }
        ensures exact_done { OnTrue result ((t : ℕ) → IsSingle t (pass_numbers pass.old)
            → Stands (IsUndisturbed (memory_origin self.now).size t place) (Entry.Begin t place)
            (pass_seen pass.old) (pass_seen pass.new)) }
        ensures exact_failed { OnFalse result ((t : ℕ) → IsSingle t (pass_numbers pass.old)
            → HasFailedAt (memory_origin self.now).size t place value (pass_seen pass.old) (pass_seen pass.new)) }
    {
        self.store_ex_paused(pass, place, value)
    }

    #[inline]
    fn try_store_ex(&self, pass: &mut VersionPass, place: Place, value: u64) -> Option<bool> {
        Some(self.store_ex_paused(pass, place, value))
    }

    fn clear_ex(&self, pass: &mut VersionPass) {
        clear_reservation::<Brand>(&self.table.shared, &mut pass.seat);
        pass.reserved = None;
    }

    fn split(&self, pass: &mut VersionPass, t: u32) -> VersionPass {
        let lead = other_number(&pass.has, t);
        let seat = split_number::<Brand>(&self.table.shared, &mut pass.seat, t, lead);
        pass.has[t as usize] = false;
        pass.number = lead;
        pass.reserved = None;
        pass.started = 0;
        VersionPass {
            seat,
            has: only_mark(t),
            number: t,
            reserved: None,
            pauses: 0,
            started: 0,
        }
    }

    fn join(&self, pass: &mut VersionPass, other: VersionPass) {
        let VersionPass {
            seat,
            has,
            number: _,
            reserved: _,
            pauses: _,
            started: _,
        } = other;
        join_numbers(&self.table.shared, &mut pass.seat, seat);
        pass.has = merge_marks(&pass.has, &has);
        pass.reserved = None;
    }

    fn close(self, pass: VersionPass) -> (Rows, VersionStory) {
        let VersionMemory {
            table,
            size,
            first: _,
            spare: _,
        } = self;
        let VersionPass {
            seat,
            has: _,
            number: _,
            reserved: _,
            pauses: _,
            started: _,
        } = pass;
        let story = VersionStory {
            of: Snapshot::of(&seat),
        };
        let closed = table.close_with(seat);
        let rows = Rows::new(closed, 1 + size.classes() as usize, size.mem() / 8);
        (rows, story)
    }
}
