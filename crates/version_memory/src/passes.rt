//! A pass, and the story of a memory that was closed.
ghost use Rattle.std.specs.Prelude.{◌≤◌};
ghost use Rattle.version_memory.specs.Passes.{HasStarted, IsBetween};

use std::snapshot::Snapshot;
use version_rule::VersionSeat;

/// A reservation.
#[derive(Clone, Copy)]
pub struct Reserved {
    /// The row on which it is held.
    pub row: u32,
    /// The tag of the row's class when it was taken, an even number.
    pub version: u64,
}

/// What a thread accesses the memory with.
#[derive(Drop)]
pub struct VersionPass {
    pub(crate) seat: VersionSeat,
    /// For each thread number whether the pass holds it.
    pub(crate) has: [bool; 16],
    /// One of its numbers.
    pub(crate) number: u32,
    /// The reservation of its thread.
    pub(crate) reserved: Option<Reserved>,
    /// How often the next load-exclusive of its thread pauses first.
    pub(crate) pauses: u32,
    /// How many threads its thread has started.
    pub(crate) started: u32,
    ghost between: { IsBetween seat.me has number reserved },
    ghost few: { pauses ≤ 8 },
    ghost counted: { HasStarted seat.me started },
}

/// The whole history of a memory that was closed.
#[derive(Drop)]
pub struct VersionStory {
    pub(crate) of: Snapshot<VersionSeat>,
}
