//! A thread's part in a memory that threads share, where the thread runs piece by piece.
ghost use Rattle.std.specs.Prelude.{◌≡◌};
ghost use Rattle.history.specs.Started.{MayAct};
ghost use Rattle.shared_memory.specs.Seen.{IsSingle};
ghost use Rattle.llsc_base.specs.declared.outside.Ask.{Ask};

use crate::counts::Counts;
use crate::sharing::Sharing;
use guest_core::{Port, TryPort};
use llsc_base::Ask;
use shared_memory::SharedMemory;
use std::marker::Model;
use std::sync::Wait;

/// The same as a [`Sharing`]. It is a type of its own so that the loop of a thread that runs as a whole and that of one that runs
/// piece by piece have the instructions compiled into them each: into two loops over one type they are not.
#[derive(Drop)]
pub(crate) struct InPieces<'a, M: SharedMemory> {
    sharing: Sharing<'a, M>,
}

impl<'a, M: SharedMemory> Model for InPieces<'a, M> {
    ghost use Rattle.guest_thread.specs.inner.Sharing.{SharingState};

    ghost Value = { SharingState };

    ghost view = { λ pieces. pieces.sharing };
}

impl<'a, M: SharedMemory> InPieces<'a, M> {
    /// A thread's part behind so many accesses of each kind.
    pub(crate) fn with(mem: &'a M, pass: M::Pass, thread: u32, counts: Counts) -> InPieces<'a, M>
        requires memory { M.home pass ≡ M.id mem.now }
        requires single { IsSingle thread (M.numbers pass) }
        requires may_act { MayAct (M.origin mem.now).first thread (M.seen pass) }
        ensures state { result ≡ record { memory = M.id mem.now; origin = M.origin mem.now; thread = thread; seen = M.seen pass; counts = counts } }
    {
        InPieces {
            sharing: Sharing::with(mem, pass, thread, counts),
        }
    }

    /// How many accesses of each kind it made.
    pub(crate) fn counts(&self) -> Counts
        ensures { result ≡ self.now.counts }
    {
        self.sharing.counts()
    }

    /// Its pass.
    pub(crate) fn into_pass(self) -> M::Pass
        ensures memory { M.home result ≡ self.entry.memory }
        ensures single { IsSingle self.entry.thread (M.numbers result) }
        ensures seen { M.seen result ≡ self.entry.seen }
    {
        self.sharing.into_pass()
    }
}

impl<'a, M: SharedMemory> TryPort for InPieces<'a, M> {
    ghost use Rattle.guest_thread.specs.Counting.{accesses_counted};
    ghost use Rattle.guest_thread.specs.inner.Sharing.{RepliesSharing};

    ghost replies = { RepliesSharing };

    ghost mem = { λ pieces. pieces.origin.size.mem };

    ghost counted = { λ pieces. accesses_counted pieces.counts };

    #[inline(always)]
    fn try_reply(&mut self, ask: Ask) -> Option<u64> {
        self.sharing.try_reply(ask)
    }

    fn counts_one() {
        Sharing::<M>::counts_one();
    }
}

impl<'a, M: SharedMemory, R: Wait> Port<R> for InPieces<'a, M> {
    ghost use Rattle.guest_thread.specs.inner.Sharing.{RefusesAt};

    ghost refuses = { RefusesAt };

    #[inline(always)]
    fn reply(&mut self, handle: &R, ask: Ask) -> Option<u64> {
        self.sharing.reply(handle, ask)
    }
}
