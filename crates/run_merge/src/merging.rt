//! The merge of logs.
ghost use Rattle.std.specs.Prelude.{◌≡◌, ◌≤◌, ◌<◌, ◌+◌, ◌^◌, ℕ, IsTrue, IfOk, false, true, length, map, slice_index};
ghost use Rattle.std.specs.Result.{OnOk};
ghost use Rattle.history.specs.Accesses.{history_of};
ghost use Rattle.version_memory.specs.Memory.{pass_seen};
ghost use Rattle.run_merge.specs.inner.Merging.{AreLogs, IsMerging, tables_of};
ghost use Rattle.run_merge.specs.inner.Tables.{after_taking, class_at, is_open, spot};
ghost use Rattle.run_merge.specs.Merge.{IsMerge};
ghost use Rattle.run_merge.specs.Logs.{access_of};
ghost use Rattle.run_merge.specs.Taking.{AreKnown, MayBeTaken, reads, writes};
ghost use Rattle.run_merge.specs.declared.logs.Stamped.{Stamped};

use crate::logs::{Log, Stamped};
use crate::reservations::Reservations;
use history::{Access, Deed};
use llsc_base::MachineSize;
use std::alloc::AllocError;
use version_memory::VersionPass;

/// Whether failed store-exclusives wait for the writes by which they may have been lost.
#[derive(Clone, Copy)]
pub(crate) enum Failures {
    /// Each waits until the class of its thread's reservation has had a write.
    Wait,
    /// None waits.
    Go,
}

/// How far logs are merged.
#[derive(Drop)]
pub(crate) struct Merging {
    /// How many accesses of each thread are taken.
    pub(crate) at: Vec<usize>,
    /// Where the stamps of each class begin in `left`.
    pub(crate) base: Vec<usize>,
    /// How many Reads of each class and stamp are not taken.
    pub(crate) left: Vec<usize>,
    /// How many Writes of each class are taken.
    pub(crate) count: Vec<u64>,
    /// The reservations of threads behind the accesses that are taken.
    pub(crate) reservations: Reservations,
    /// The accesses that are taken.
    pub(crate) out: Vec<Access>,
}

/// Whether it is a load.
pub(crate) fn loads(deed: Deed) -> bool
    ensures { result ≡ reads deed }
{
    match deed {
        Deed::Load | Deed::LoadEx => true,
        _ => false,
    }
}

/// Whether it stores.
fn stores(deed: Deed) -> bool
    ensures { result ≡ writes deed }
{
    match deed {
        Deed::Store | Deed::StoreEx => true,
        _ => false,
    }
}

/// The class of an access.
pub(crate) fn class_of(size: &MachineSize, one: &Stamped) -> usize
    ensures class { result ≡ class_at size.now one.now }
    ensures within { result < size.now.classes }
{
    let row = one.access.place.row(size.granule());
    size.class_of(row) as usize
}

impl Merging {
    /// Whether an access may be taken, by the tables.
    fn may_take(&self, size: &MachineSize, one: &Stamped) -> bool
        requires base { length self.now.base.items ≡ size.now.classes }
        requires count { length self.now.count.items ≡ size.now.classes }
        requires spot { spot size.now self.now.base.items one.now < length self.now.left.items }
        ensures { result ≡ is_open size.now (tables_of self.now) one.now }
    {
        let read = loads(one.access.deed);
        if !read && !stores(one.access.deed) {
            return true;
        }
        let class = class_of(size, one);
        if self.count.as_slice()[class] != one.stamp {
            return false;
        }
        if read {
            return true;
        }
        let spot = self.base.as_slice()[class] + one.stamp as usize;
        self.left.as_slice()[spot] == 0
    }

    /// The tables once an access is taken.
    fn count_one(&mut self, size: &MachineSize, one: &Stamped)
        requires base { length self.old.base.items ≡ size.now.classes }
        requires count { length self.old.count.items ≡ size.now.classes }
        requires spot { spot size.now self.old.base.items one.now < length self.old.left.items }
        requires read { reads one.now.access.deed ≡ true → 1 ≤ slice_index self.old.left.items (spot size.now self.old.base.items one.now) }
        requires few { writes one.now.access.deed ≡ true → slice_index self.old.count.items (class_at size.now one.now) < 2 ^ 63 }
        ensures tables { tables_of self.new ≡ after_taking size.now (tables_of self.old) one.now }
        ensures at { self.new.at.items ≡ self.old.at.items }
        ensures reservations { self.new.reservations ≡ self.old.reservations }
        ensures out { self.new.out.items ≡ self.old.out.items }
    {
        let read = loads(one.access.deed);
        if !read && !stores(one.access.deed) {
            return;
        }
        let class = class_of(size, one);
        if read {
            let spot = self.base.as_slice()[class] + one.stamp as usize;
            self.left[spot] -= 1;
            return;
        }
        self.count[class] += 1;
    }

    /// Takes the next access of a thread, where it may be taken and needn't wait.
    fn take(
        &mut self,
        size: &MachineSize,
        pass: &VersionPass,
        logs: &[Log],
        t: usize,
        failures: Failures,
    ) -> Result<bool, AllocError>
        requires logs { AreLogs size.now (pass_seen pass.now) logs.now }
        requires state { IsMerging size.now (pass_seen pass.now) self.old }
        requires known { t < size.now.threads }
        ensures state { OnOk result (IsMerging size.now (pass_seen pass.now) self.new) }
        ensures more { IfOk result (λ taken. IsTrue taken → length self.new.out.items ≡ length self.old.out.items + 1) }
        ensures same { IfOk result (λ taken. taken ≡ false → self.new.out.items ≡ self.old.out.items) }
        ensures none { IfOk result (λ taken. taken ≡ false → failures ≡ Failures.Go
            → (next : Stamped) → MayBeTaken size.now (pass_seen pass.now) (history_of self.old.out.items) t next → ⊥) }
    {
        let at = self.at.as_slice()[t];
        let entries = logs[t].entries.as_slice();
        if at >= entries.len() {
            return Ok(false);
        }
        let next = entries[at];
        if !self.may_take(size, &next) {
            return Ok(false);
        }
        if let Failures::Wait = failures {
            let early = self
                .reservations
                .is_early(size, self.count.as_slice(), t, &next);
            if early {
                return Ok(false);
            }
        }
        self.out.push(next.access)?;
        self.count_one(size, &next);
        self.reservations.note(t, &next);
        self.at[t] = at + 1;
        Ok(true)
    }

    /// Takes accesses of a thread as long as they may be taken and needn't wait. Whether one was.
    fn take_some(
        &mut self,
        size: &MachineSize,
        pass: &VersionPass,
        logs: &[Log],
        t: usize,
    ) -> Result<bool, AllocError>
        requires logs { AreLogs size.now (pass_seen pass.now) logs.now }
        requires state { IsMerging size.now (pass_seen pass.now) self.old }
        requires known { t < size.now.threads }
        ensures state { OnOk result (IsMerging size.now (pass_seen pass.now) self.new) }
        ensures more { IfOk result (λ taken. IsTrue taken → length self.old.out.items < length self.new.out.items) }
        ensures same { IfOk result (λ taken. taken ≡ false → self.new.out.items ≡ self.old.out.items) }
    {
        if !self.take(size, pass, logs, t, Failures::Wait)? {
            return Ok(false);
        }
        for _ in 1..logs[t].entries.as_slice().len() {
            if !self.take(size, pass, logs, t, Failures::Wait)? {
                break;
            }
        }
        Ok(true)
    }

    /// A turn over all threads, in which failed store-exclusives wait. Whether an access was taken.
    fn turn(
        &mut self,
        size: &MachineSize,
        pass: &VersionPass,
        logs: &[Log],
    ) -> Result<bool, AllocError>
        requires logs { AreLogs size.now (pass_seen pass.now) logs.now }
        requires state { IsMerging size.now (pass_seen pass.now) self.old }
        ensures state { OnOk result (IsMerging size.now (pass_seen pass.now) self.new) }
        ensures more { IfOk result (λ taken. IsTrue taken → length self.old.out.items < length self.new.out.items) }
        ensures same { IfOk result (λ taken. taken ≡ false → self.new.out.items ≡ self.old.out.items) }
    {
        let mut any = false;
        for t in 0..size.threads() as usize {
            if self.take_some(size, pass, logs, t)? {
                any = true;
            }
        }
        Ok(any)
    }

    /// Takes one access, of the first thread whose next one may be taken. Whether there is one.
    fn take_first(
        &mut self,
        size: &MachineSize,
        pass: &VersionPass,
        logs: &[Log],
    ) -> Result<bool, AllocError>
        requires logs { AreLogs size.now (pass_seen pass.now) logs.now }
        requires state { IsMerging size.now (pass_seen pass.now) self.old }
        ensures state { OnOk result (IsMerging size.now (pass_seen pass.now) self.new) }
        ensures more { IfOk result (λ taken. IsTrue taken → length self.old.out.items < length self.new.out.items) }
        ensures none { IfOk result (λ taken. taken ≡ false
            → (t : ℕ) (next : Stamped) → t < size.now.threads → MayBeTaken size.now (pass_seen pass.now) (history_of self.new.out.items) t next → ⊥) }
    {
        for t in 0..size.threads() as usize {
            if self.take(size, pass, logs, t, Failures::Go)? {
                return Ok(true);
            }
        }
        Ok(false)
    }

    /// A turn in which failed store-exclusives wait, and where it takes nothing one access that doesn't. Whether one was taken.
    fn advance(
        &mut self,
        size: &MachineSize,
        pass: &VersionPass,
        logs: &[Log],
    ) -> Result<bool, AllocError>
        requires logs { AreLogs size.now (pass_seen pass.now) logs.now }
        requires state { IsMerging size.now (pass_seen pass.now) self.old }
        ensures state { OnOk result (IsMerging size.now (pass_seen pass.now) self.new) }
        ensures more { IfOk result (λ taken. IsTrue taken → length self.old.out.items < length self.new.out.items) }
        ensures none { IfOk result (λ taken. taken ≡ false
            → (t : ℕ) (next : Stamped) → t < size.now.threads → MayBeTaken size.now (pass_seen pass.now) (history_of self.new.out.items) t next → ⊥) }
    {
        if self.turn(size, pass, logs)? {
            return Ok(true);
        }
        self.take_first(size, pass, logs)
    }

    /// Takes all accesses, which are so many.
    pub(crate) fn take_all(
        &mut self,
        size: &MachineSize,
        pass: &VersionPass,
        logs: &[Log],
    ) -> Result<(), AllocError>
        requires logs { AreLogs size.now (pass_seen pass.now) logs.now }
        requires state { IsMerging size.now (pass_seen pass.now) self.old }
        requires known { AreKnown size.now.threads (pass_seen pass.now) }
        ensures merge { OnOk result (IsMerge size.now (pass_seen pass.now) self.new.out.items) }
        ensures form { OnOk result (self.new.out.items ≡ map access_of (history_of self.new.out.items)) }
    {
        while self.advance(size, pass, logs)? {}
        Ok(())
    }
}
