//! The numbers of a machine, each in its range.
ghost use Rattle.std.specs.Prelude.{◌≡◌, ◌+◌, ◌*◌, ◌%◌, ◌^◌, ◌≤◌, ◌<◌, MatchResult, IfOk, IfErr, Some, None, IsTrue};
ghost use Rattle.std.specs.Int.{is_power_of_two};
ghost use Rattle.llsc_base.specs.Memory.{class_of};
ghost use Rattle.llsc_base.specs.Sizes.{AreInRange, numbers, room_of, size_fault, size_fault_name};

use std::marker::Model;
use thiserror::Error;

/// The first number of a machine that is out of its range.
#[derive(Clone, Copy, Debug, PartialEq, Eq, Error)]
pub enum SizeFault {
    /// The bytes of memory.
    #[error("the memory is no multiple of 4096 from 65536 to 16777216")]
    Mem,
    /// The guest threads.
    #[error("the threads are not 1 to 16")]
    Threads,
    /// The classes of rows.
    #[error("the classes are no power of two from 1 to 4096")]
    Classes,
    /// The writes of a class.
    #[error("the limit is not 1 to 4611686018427387904")]
    Limit,
    /// The number of the granule.
    #[error("the granule is not 0 to 8")]
    Granule,
}

impl SizeFault {
    /// The variant's name.
    pub fn name(&self) -> &str
        ensures { result.now ≡ size_fault_name self.now }
    {
        match self {
            SizeFault::Mem => "Mem",
            SizeFault::Threads => "Threads",
            SizeFault::Classes => "Classes",
            SizeFault::Limit => "Limit",
            SizeFault::Granule => "Granule",
        }
    }
}

/// The numbers of a machine, each in its range.
///
/// ```
/// let size = MachineSize::new(65_536, 2, 4096, 1 << 62)?;
/// let refused = MachineSize::new(65_537, 2, 4096, 1 << 62); // Err(SizeFault::Mem): no whole pages
/// ```
#[derive(Clone, Copy, Debug, PartialEq, Eq)]
pub struct MachineSize {
    mem: u32,
    threads: u32,
    classes: u32,
    limit: u64,
    granule: u32,
}

impl Model for MachineSize {
    ghost use Rattle.llsc_base.specs.Sizes.{Numbers, AreInRange};

    ghost Value = { Numbers };

    ghost view = { λ s. record { mem = s.mem; threads = s.threads; classes = s.classes; limit = s.limit; granule = s.granule } };

    ghost invariant = { λ s. AreInRange (record { mem = s.mem; threads = s.threads; classes = s.classes; limit = s.limit; granule = s.granule }) };

    ghost inverse = { λ n. record { mem = n.mem; threads = n.threads; classes = n.classes; limit = n.limit; granule = n.granule } };
}

impl MachineSize {
    /// The machine of these numbers.
    ///
    /// # Errors
    ///
    /// The first number, in the order of the parameters, that is out of its range: `mem` is a multiple of
    /// 4096 from 65,536 to 16,777,216, `threads` is 1 to 16, `classes` is a power of two from 1 to 4096,
    /// and `limit` is 1 to 4,611,686,018,427,387,904 (2 to the 62).
    pub fn new(mem: u64, threads: u64, classes: u64, limit: u64) -> Result<MachineSize, SizeFault>
        ensures { let n = numbers mem threads classes limit in
            MatchResult result (λ size. (size_fault n ≡ None) × (size ≡ n)) (λ fault. size_fault n ≡ Some fault) }
    {
        if mem < 65_536 || mem > 16_777_216 || mem % 4096 != 0 {
            return Err(SizeFault::Mem);
        }
        if threads < 1 || threads > 16 {
            return Err(SizeFault::Threads);
        }
        if !classes.is_power_of_two() || classes > 4096 {
            return Err(SizeFault::Classes);
        }
        if limit < 1 || limit > 1 << 62 {
            return Err(SizeFault::Limit);
        }
        Ok(MachineSize {
            mem: mem as u32,
            threads: threads as u32,
            classes: classes as u32,
            limit,
            granule: 0,
        })
    }

    /// The machine with rows of `8 * 2^granule` bytes, and every other number as it was.
    ///
    /// # Errors
    ///
    /// [`SizeFault::Granule`] where the number of the granule is above 8.
    pub fn with_granule(self, granule: u64) -> Result<MachineSize, SizeFault>
        ensures machine { IfOk result (λ size. (granule ≤ 8) × (size ≡ record self { granule = granule })) }
        ensures fault { IfErr result (λ fault. (8 < granule) × (fault ≡ SizeFault.Granule)) }
        ensures kinds { let n = record self { granule = granule } in
            MatchResult result (λ size. size_fault n ≡ None) (λ fault. size_fault n ≡ Some fault) }
    {
        if granule > 8 {
            return Err(SizeFault::Granule);
        }
        Ok(MachineSize {
            granule: granule as u32,
            ..self
        })
    }

    /// The bytes of memory: a multiple of 4096 from 65,536 to 16,777,216.
    pub fn mem(&self) -> u32
        ensures number { result ≡ self.now.mem }
        ensures least { 65536 ≤ result }
        ensures most { result ≤ 16777216 }
        ensures pages { result % 4096 ≡ 0 }
        ensures in_range { AreInRange self.now }
    {
        self.mem
    }

    /// The guest threads: 1 to 16.
    pub fn threads(&self) -> u32
        ensures number { result ≡ self.now.threads }
        ensures least { 1 ≤ result }
        ensures most { result ≤ 16 }
    {
        self.threads
    }

    /// The classes that rows fall into: a power of two from 1 to 4096.
    pub fn classes(&self) -> u32
        ensures number { result ≡ self.now.classes }
        ensures power { IsTrue (is_power_of_two result) }
        ensures most { result ≤ 4096 }
    {
        self.classes
    }

    /// The class of a row: below [`MachineSize::classes`].
    #[inline]
    #[tactic(auto, unfolding(crate::specs::Memory::class_of))]
    pub fn class_of(&self, row: u32) -> u32
        ensures class { result ≡ class_of self.now.classes row }
        ensures below { result < self.now.classes }
    {
        row % self.classes
    }

    /// How many writes a class of rows takes: 1 to 4,611,686,018,427,387,904 (2 to the 62).
    pub fn limit(&self) -> u64
        ensures number { result ≡ self.now.limit }
        ensures least { 1 ≤ result }
        ensures most { result ≤ 2 ^ 62 }
    {
        self.limit
    }

    /// The number of the granule: 0 to 8. A row, on which a monitor marks a thread, has `8 * 2^granule` bytes; it is 0 where
    /// [`MachineSize::with_granule`] gave no other.
    pub fn granule(&self) -> u32
        ensures number { result ≡ self.now.granule }
        ensures most { result ≤ 8 }
    {
        self.granule
    }

    /// The bytes below the stacks, which are the last 4096 bytes of memory for each thread: a multiple of 4096 from 0
    /// to 16,773,120. No program fits a machine whose room is 0.
    pub fn room(&self) -> u32
        ensures number { result ≡ room_of self.now }
        ensures whole { result + 4096 * self.now.threads ≡ self.now.mem }
        ensures memory { self.now.mem ≤ 16777216 }
        ensures threads { self.now.threads ≤ 16 }
        ensures pages { result % 4096 ≡ 0 }
    {
        self.mem - 4096 * self.threads
    }
}
