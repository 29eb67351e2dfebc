//! A pass, and the story of a memory that was closed.
ghost use Rattle.hst_memory.specs.Passes.{IsBetween};

use crate::plans::HstSeat;
use std::snapshot::Snapshot;

/// What a thread accesses the memory with.
#[derive(Drop)]
pub struct HstPass {
    pub(crate) seat: HstSeat,
    /// For each thread number whether the pass holds it.
    pub(crate) has: [bool; 16],
    /// One of its numbers.
    pub(crate) number: u32,
    /// The row on which its thread holds a reservation.
    pub(crate) reserved: Option<u32>,
    ghost between: { IsBetween seat.me has number reserved },
}

/// The whole history of a memory that was closed.
#[derive(Drop)]
pub struct HstStory {
    pub(crate) of: Snapshot<HstSeat>,
}
