//! The log of a thread.
ghost use Rattle.std.specs.Prelude.{◌≡◌, ◌<◌, ◌≤◌, ◌+◌, ◌++◌, ◌∷◌, ◌^◌, [], IfOk, List, vec_capacity};
ghost use Rattle.run_record.specs.Limits.{most_accesses};
ghost use Rattle.run_merge.specs.Crews.{IsUnused};
ghost use Rattle.run_merge.specs.Logs.{IsFirst};
ghost use Rattle.run_merge.specs.declared.logs.Stamped.{Stamped};

use history::Access;
use run_record::MOST_ACCESSES;
use std::alloc::{AllocError, Global};

/// An access, and how many writes the class of its place had had before. A failed store-exclusive and a CLREX have stamp 0, which
/// says nothing.
#[derive(Clone, Copy, Debug, PartialEq, Eq)]
pub struct Stamped {
    /// What the thread did.
    pub access: Access,
    /// The stores of the class before it, store-exclusives that stored among them.
    pub stamp: u64,
}

/// The first 1,000,000 accesses of a thread in order, and how many it made.
#[derive(Drop)]
pub struct Log {
    /// The first of its accesses, at most 1,000,000.
    pub entries: Vec<Stamped>,
    /// How many accesses it made, whether or not they are kept.
    pub count: u64,
}

impl Log {
    /// A log of nothing, with room for as many accesses as a record may have.
    pub(crate) fn new(alloc: Global) -> Result<Log, AllocError>
        ensures { IfOk result IsUnused }
    {
        let entries = Vec::with_capacity(alloc, MOST_ACCESSES)?;
        Ok(Log { entries, count: 0 })
    }

    /// One access more. It takes no memory.
    #[inline(always)]
    pub(crate) fn add(&mut self, one: Stamped)
        requires room { most_accesses ≤ vec_capacity self.old.entries }
        requires few { self.old.count < 2 ^ 63 }
        ensures count { self.new.count ≡ self.old.count + 1 }
        ensures more { (all : List Stamped) → IsFirst all self.old.entries.items self.old.count → IsFirst (all ++ one ∷ []) self.new.entries.items self.new.count }
        ensures room { vec_capacity self.new.entries ≡ vec_capacity self.old.entries }
    {
        let kept = self.entries.as_slice().len();
        if kept < MOST_ACCESSES {
            self.entries.push_reserved(one);
        }
        self.count += 1;
    }
}
