//! A thread's part in a memory that threads share, with its log.
ghost use Rattle.std.specs.Prelude.{◌≡◌, ◌≤◌, ◌<◌, ◌^◌, ◌+◌, IfNone, IfSome, vec_capacity};
ghost use Rattle.shared_memory.specs.Origin.{IsLegalFrom};
ghost use Rattle.shared_memory.specs.Seen.{IsSingle};
ghost use Rattle.version_memory.specs.Memory.{memory_id, memory_origin, pass_home, pass_numbers, pass_seen};
ghost use Rattle.guest_thread.specs.Counting.{accesses_counted};
ghost use Rattle.guest_core.specs.Ports.{IsAskIn};
ghost use Rattle.llsc_base.specs.declared.outside.Ask.{Ask};
ghost use Rattle.llsc_base.specs.Memory.{size_bytes};
ghost use Rattle.guest_thread.specs.inner.Sharing.{IsServedSharing, IsUnserved, RefusesAt};
ghost use Rattle.run_merge.specs.inner.Logging.{IsLogged, RepliesLogging};
ghost use Rattle.run_record.specs.Limits.{most_accesses};

use crate::logs::{Log, Stamped};
use guest_core::{Port, TryPort};
use guest_thread::Counts;
use history::{Access, Deed};
use llsc_base::{Ask, Place, STATUS_FAILED, STATUS_STORED};
use shared_memory::SharedMemory;
use std::marker::Model;
use std::sync::Wait;
use version_memory::{VersionMemory, VersionPass};

/// An access, with its stamp.
#[inline(always)]
fn stamped(thread: u32, deed: Deed, place: Place, value: u64, stamp: u64) -> Stamped
    ensures { result ≡ record { access = record { thread = thread; deed = deed; place = place; value = value }; stamp = stamp } }
{
    let access = Access {
        thread,
        deed,
        place,
        value,
    };
    Stamped { access, stamp }
}

/// The memory, a thread's pass of it, how many accesses of each kind the thread made, and their log.
#[derive(Drop)]
pub(crate) struct Logging<'a, R: Wait> {
    rt: &'a R,
    mem: &'a VersionMemory,
    pass: VersionPass,
    thread: u32,
    counts: Counts,
    log: Log,
}

impl<'a, R: Wait> Model for Logging<'a, R> {
    ghost use Rattle.std.specs.Prelude.{◌≡◌, ◌<◌, ◌≤◌, vec_capacity};
    ghost use Rattle.shared_memory.specs.Seen.{IsSingle};
    ghost use Rattle.version_memory.specs.Memory.{memory_id, memory_origin, pass_home, pass_numbers, pass_seen};
    ghost use Rattle.guest_thread.specs.Counting.{accesses_counted};
    ghost use Rattle.run_record.specs.Limits.{most_accesses};
    ghost use Rattle.run_merge.specs.inner.Logging.{LoggingState};

    ghost Value = { LoggingState };

    ghost view = { λ s. record {
      sharing = record { memory = memory_id s.mem.now; origin = memory_origin s.mem.now; thread = s.thread; seen = pass_seen s.pass; counts = s.counts };
      entries = s.log.entries.items;
      count = s.log.count;
    } };

    ghost invariant = { λ s. (pass_home s.pass ≡ memory_id s.mem.now) × IsSingle s.thread (pass_numbers s.pass) × (s.thread < (memory_origin s.mem.now).first)
        × (accesses_counted s.counts ≤ s.log.count) × (most_accesses ≤ vec_capacity s.log.entries) };
}

impl<'a, R: Wait> Logging<'a, R> {
    /// A thread's part before its first access, with an empty log that has room.
    pub(crate) fn new(
        rt: &'a R,
        mem: &'a VersionMemory,
        pass: VersionPass,
        thread: u32,
        log: Log,
    ) -> Logging<'a, R>
        requires memory { pass_home pass ≡ memory_id mem.now }
        requires single { IsSingle thread (pass_numbers pass) }
        requires first { thread < (memory_origin mem.now).first }
        requires room { most_accesses ≤ vec_capacity log.entries }
        ensures state { result ≡ record {
          sharing = record { memory = memory_id mem.now; origin = memory_origin mem.now; thread = thread; seen = pass_seen pass; counts = record { reads = 0; writes = 0; fails = 0 } };
          entries = log.entries.items;
          count = log.count;
        } }
    {
        Logging {
            rt,
            mem,
            pass,
            thread,
            counts: Counts::none(),
            log,
        }
    }

    /// How many accesses of each kind it made.
    pub(crate) fn counts(&self) -> Counts
        ensures { result ≡ self.now.sharing.counts }
    {
        self.counts
    }

    /// Its pass, and its log.
    pub(crate) fn into_parts(self) -> (VersionPass, Log)
        ensures memory { pass_home result.0 ≡ self.entry.sharing.memory }
        ensures single { IsSingle self.entry.sharing.thread (pass_numbers result.0) }
        ensures seen { pass_seen result.0 ≡ self.entry.sharing.seen }
        ensures entries { result.1.entries.items ≡ self.entry.entries }
        ensures count { result.1.count ≡ self.entry.count }
    {
        (self.pass, self.log)
    }

    /// A load of a place that may be accessed, logged with its stamp.
    #[inline(always)]
    fn load(&mut self, place: Place) -> u64
        requires may { IsAskIn self.old.sharing.origin.size.mem (Ask.Load place) }
        requires few { self.old.count < 2 ^ 63 }
        ensures served { IsServedSharing self.old.sharing (Ask.Load place) result self.new.sharing }
        ensures log { IsLogged self.old → IsLogged self.new }
        ensures legal { IsLegalFrom self.new.sharing.origin self.new.sharing.seen }
        ensures one { self.new.count ≡ self.old.count + 1 }
        ensures fits { result < 256 ^ size_bytes place.size }
    {
        let (value, stamp) = self.mem.load_stamped(self.rt, &mut self.pass, place);
        self.counts.reads += 1;
        self.log
            .add(stamped(self.thread, Deed::Load, place, value, stamp));
        value
    }

    /// A load-exclusive, likewise.
    #[inline(always)]
    fn load_ex(&mut self, place: Place) -> u64
        requires may { IsAskIn self.old.sharing.origin.size.mem (Ask.LoadEx place) }
        requires few { self.old.count < 2 ^ 63 }
        ensures served { IsServedSharing self.old.sharing (Ask.LoadEx place) result self.new.sharing }
        ensures log { IsLogged self.old → IsLogged self.new }
        ensures legal { IsLegalFrom self.new.sharing.origin self.new.sharing.seen }
        ensures one { self.new.count ≡ self.old.count + 1 }
        ensures fits { result < 256 ^ size_bytes place.size }
    {
        let (value, stamp) = self.mem.load_ex_stamped(self.rt, &mut self.pass, place);
        self.counts.reads += 1;
        self.log
            .add(stamped(self.thread, Deed::LoadEx, place, value, stamp));
        value
    }

    /// A store, likewise. `None` where its class has had all of its writes.
    #[inline(always)]
    fn store(&mut self, place: Place, value: u64) -> Option<u64>
        requires may { IsAskIn self.old.sharing.origin.size.mem (Ask.Store place value) }
        requires few { self.old.count < 2 ^ 63 }
        ensures served { IfSome result (λ reply. (reply ≡ 0) × IsServedSharing self.old.sharing (Ask.Store place value) 0 self.new.sharing) }
        ensures unserved { IfNone result (IsUnserved self.old.sharing self.new.sharing) }
        ensures refused { IfNone result (RefusesAt self.new.sharing place.addr) }
        ensures log { IsLogged self.old → IsLogged self.new }
        ensures legal { IsLegalFrom self.new.sharing.origin self.new.sharing.seen }
        ensures one { self.new.count ≤ self.old.count + 1 }
        ensures none { IfNone result (self.new.count ≡ self.old.count) }
    {
        let Ok(stamp) = self
            .mem
            .store_stamped(self.rt, &mut self.pass, place, value)
        else {
            return None;
        };
        self.counts.writes += 1;
        self.log
            .add(stamped(self.thread, Deed::Store, place, value, stamp));
        Some(0)
    }

    /// A store-exclusive, likewise: its status.
    #[inline(always)]
    fn store_ex(&mut self, place: Place, value: u64) -> u64
        requires may { IsAskIn self.old.sharing.origin.size.mem (Ask.StoreEx place value) }
        requires few { self.old.count < 2 ^ 63 }
        ensures served { IsServedSharing self.old.sharing (Ask.StoreEx place value) result self.new.sharing }
        ensures log { IsLogged self.old → IsLogged self.new }
        ensures legal { IsLegalFrom self.new.sharing.origin self.new.sharing.seen }
        ensures one { self.new.count ≡ self.old.count + 1 }
    {
        let Some(stamp) = self.mem.store_ex_stamped(&mut self.pass, place, value) else {
            self.counts.fails += 1;
            self.log
                .add(stamped(self.thread, Deed::StoreFail, place, value, 0));
            return STATUS_FAILED;
        };
        self.counts.writes += 1;
        self.log
            .add(stamped(self.thread, Deed::StoreEx, place, value, stamp));
        STATUS_STORED
    }

    /// CLREX, likewise.
    #[inline(always)]
    fn clear(&mut self)
        requires few { self.old.count < 2 ^ 63 }
        ensures served { IsServedSharing self.old.sharing Ask.Clear 0 self.new.sharing }
        ensures log { IsLogged self.old → IsLogged self.new }
        ensures legal { IsLegalFrom self.new.sharing.origin self.new.sharing.seen }
        ensures one { self.new.count ≡ self.old.count + 1 }
    {
        self.mem.clear_ex(&mut self.pass);
        self.log
            .add(stamped(self.thread, Deed::Clear, Place::NOWHERE, 0, 0));
    }
}

impl<'a, R: Wait> TryPort for Logging<'a, R> {
    ghost use Rattle.run_merge.specs.inner.Logging.{RepliesLogging};

    ghost replies = { RepliesLogging };

    ghost mem = { λ logging. logging.sharing.origin.size.mem };

    ghost counted = { λ logging. logging.count };

    // It makes each access, and waits for that itself.
    #[inline(always)]
    fn try_reply(&mut self, ask: Ask) -> Option<u64> {
        self.reply(&(), ask)
    }

    fn counts_one() {}
}

impl<'a, R: Wait> Port<()> for Logging<'a, R> {
    ghost use Rattle.run_merge.specs.inner.Logging.{RefusesLogged};

    ghost refuses = { RefusesLogged };

    #[inline(always)]
    fn reply(&mut self, handle: &(), ask: Ask) -> Option<u64> {
        match ask {
            Ask::Load(place) => Some(self.load(place)),
            Ask::LoadEx(place) => Some(self.load_ex(place)),
            Ask::Store(place, value) => self.store(place, value),
            Ask::StoreEx(place, value) => Some(self.store_ex(place, value)),
            Ask::Clear => {
                self.clear();
                Some(0)
            }
        }
    }
}
