//! A thread's part in a memory that threads share.
ghost use Rattle.std.specs.Prelude.{◌≡◌};
ghost use Rattle.history.specs.Started.{MayAct};
ghost use Rattle.llsc_base.specs.declared.outside.Ask.{Ask};
ghost use Rattle.shared_memory.specs.Seen.{IsSingle};

use crate::counts::Counts;
use guest_core::{Port, TryPort};
use llsc_base::{Ask, STATUS_FAILED, STATUS_STORED};
use shared_memory::SharedMemory;
use std::marker::Model;
use std::sync::Wait;

/// The memory, a thread's pass of it, and how many accesses of each kind the thread made. It holds no handle by which it might wait:
/// so the loop of a thread is over a type that can't wait, and whoever makes an access that has to brings the handle.
#[derive(Drop)]
pub(crate) struct Sharing<'a, M: SharedMemory> {
    mem: &'a M,
    pass: M::Pass,
    thread: u32,
    counts: Counts,
}

impl<'a, M: SharedMemory> Model for Sharing<'a, M> {
    ghost use Rattle.std.specs.Prelude.{◌≡◌};
    ghost use Rattle.history.specs.Started.{MayAct};
    ghost use Rattle.shared_memory.specs.Seen.{IsSingle};
    ghost use Rattle.guest_thread.specs.inner.Sharing.{SharingState};

    ghost Value = { SharingState };

    ghost view = { λ s. record { memory = M.id s.mem.now; origin = M.origin s.mem.now; thread = s.thread; seen = M.seen s.pass; counts = s.counts } };

    ghost invariant = { λ s. (M.home s.pass ≡ M.id s.mem.now) × IsSingle s.thread (M.numbers s.pass) × (MayAct (M.origin s.mem.now).first s.thread (M.seen s.pass)) };
}

impl<'a, M: SharedMemory> Sharing<'a, M> {
    /// A thread's part before its first access.
    pub(crate) fn new(mem: &'a M, pass: M::Pass, thread: u32) -> Sharing<'a, M>
        requires memory { M.home pass ≡ M.id mem.now }
        requires single { IsSingle thread (M.numbers pass) }
        requires may_act { MayAct (M.origin mem.now).first thread (M.seen pass) }
        ensures state { result ≡ record { memory = M.id mem.now; origin = M.origin mem.now; thread = thread; seen = M.seen pass; counts = record { reads = 0; writes = 0; fails = 0 } } }
    {
        Sharing {
            mem,
            pass,
            thread,
            counts: Counts::none(),
        }
    }

    /// A thread's part behind so many accesses of each kind.
    pub(crate) fn with(mem: &'a M, pass: M::Pass, thread: u32, counts: Counts) -> Sharing<'a, M>
        requires memory { M.home pass ≡ M.id mem.now }
        requires single { IsSingle thread (M.numbers pass) }
        requires may_act { MayAct (M.origin mem.now).first thread (M.seen pass) }
        ensures state { result ≡ record { memory = M.id mem.now; origin = M.origin mem.now; thread = thread; seen = M.seen pass; counts = counts } }
    {
        Sharing {
            mem,
            pass,
            thread,
            counts,
        }
    }

    /// How many accesses of each kind it made.
    pub(crate) fn counts(&self) -> Counts
        ensures { result ≡ self.now.counts }
    {
        self.counts
    }

    /// Its pass.
    pub(crate) fn into_pass(self) -> M::Pass
        ensures memory { M.home result ≡ self.entry.memory }
        ensures single { IsSingle self.entry.thread (M.numbers result) }
        ensures seen { M.seen result ≡ self.entry.seen }
    {
        self.pass
    }
}

impl<'a, M: SharedMemory> TryPort for Sharing<'a, M> {
    ghost use Rattle.guest_thread.specs.Counting.{accesses_counted};
    ghost use Rattle.guest_thread.specs.inner.Sharing.{RepliesSharing};

    ghost replies = { RepliesSharing };

    ghost mem = { λ sharing. sharing.origin.size.mem };

    ghost counted = { λ sharing. accesses_counted sharing.counts };

    #[inline(always)]
    fn try_reply(&mut self, ask: Ask) -> Option<u64> {
        match ask {
            Ask::Load(place) => {
                let value = self.mem.load(&mut self.pass, place);
                self.counts.reads += 1;
                Some(value)
            }
            Ask::LoadEx(place) => {
                let value = self.mem.try_load_ex(&mut self.pass, place)?;
                self.counts.reads += 1;
                Some(value)
            }
            Ask::Store(place, value) => {
                if self.mem.try_store(&mut self.pass, place, value) {
                    self.counts.writes += 1;
                    return Some(0);
                }
                None
            }
            Ask::StoreEx(place, value) => {
                let stored = self.mem.try_store_ex(&mut self.pass, place, value)?;
                if !stored {
                    self.counts.fails += 1;
                    return Some(STATUS_FAILED);
                }
                self.counts.writes += 1;
                Some(STATUS_STORED)
            }
            Ask::Clear => {
                self.mem.clear_ex(&mut self.pass);
                Some(0)
            }
        }
    }

    fn counts_one() {}
}

impl<'a, M: SharedMemory, R: Wait> Port<R> for Sharing<'a, M> {
    ghost use Rattle.guest_thread.specs.inner.Sharing.{RefusesAt};

    ghost refuses = { RefusesAt };

    #[inline(always)]
    fn reply(&mut self, handle: &R, ask: Ask) -> Option<u64> {
        match ask {
            Ask::Load(place) => {
                let value = self.mem.load(&mut self.pass, place);
                self.counts.reads += 1;
                Some(value)
            }
            Ask::LoadEx(place) => {
                let value = self.mem.load_ex(handle, &mut self.pass, place);
                self.counts.reads += 1;
                Some(value)
            }
            Ask::Store(place, value) => {
                let Ok(()) = self.mem.store(handle, &mut self.pass, place, value) else {
                    return None;
                };
                self.counts.writes += 1;
                Some(0)
            }
            Ask::StoreEx(place, value) => {
                if self.mem.store_ex(handle, &mut self.pass, place, value) {
                    self.counts.writes += 1;
                    return Some(STATUS_STORED);
                }
                self.counts.fails += 1;
                Some(STATUS_FAILED)
            }
            Ask::Clear => {
                self.mem.clear_ex(&mut self.pass);
                Some(0)
            }
        }
    }
}
