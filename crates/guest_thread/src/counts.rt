//! How many accesses of each kind a thread made.
ghost use Rattle.std.specs.Prelude.{◌≡◌, ◌<◌, ◌≤◌, ◌+◌, ◌^◌};
ghost use Rattle.history.specs.Accesses.{entry_of, history_of};
ghost use Rattle.guest_thread.specs.Counts.{fails_in, reads_in, writes_in};
ghost use Rattle.guest_thread.specs.Counting.{AreCounts, accesses_counted};

use history::{Access, Deed};

/// A thread's loads, its stores, and its store-exclusives that failed.
#[derive(Clone, Copy, Debug, PartialEq, Eq)]
pub struct Counts {
    pub reads: u64,
    pub writes: u64,
    pub fails: u64,
}

impl Counts {
    /// The counts before the first access.
    pub fn none() -> Counts
        ensures { result ≡ record { reads = 0; writes = 0; fails = 0 } }
    {
        Counts {
            reads: 0,
            writes: 0,
            fails: 0,
        }
    }

    /// One more access. CLREX counts for nothing.
    #[inline(always)]
    pub fn count(&mut self, access: &Access)
        requires few { accesses_counted self.old < 2 ^ 63 }
        ensures reads { self.new.reads ≡ self.old.reads + reads_in (entry_of access.now) }
        ensures writes { self.new.writes ≡ self.old.writes + writes_in (entry_of access.now) }
        ensures fails { self.new.fails ≡ self.old.fails + fails_in (entry_of access.now) }
        ensures sum { accesses_counted self.new ≤ accesses_counted self.old + 1 }
    {
        match access.deed {
            Deed::Load | Deed::LoadEx => self.reads += 1,
            Deed::Store | Deed::StoreEx => self.writes += 1,
            Deed::StoreFail => self.fails += 1,
            Deed::Clear => {}
        }
    }
}

/// The counts of a thread in these accesses.
pub fn counts_of(accesses: &[Access], thread: u32) -> Counts
    ensures { AreCounts thread (history_of accesses.now) result }
{
    let mut counts = Counts::none();
    for access in accesses {
        if access.thread == thread {
            counts.count(access);
        }
    }
    counts
}
