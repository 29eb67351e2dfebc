//! What a memory was made with, as its table keeps it.
use llsc_base::{Image, MachineSize};
use std::snapshot::Snapshot;

/// What the table is told once: what the memory was made with.
#[derive(Drop)]
pub struct Plan {
    pub size: MachineSize,
    /// How many threads begin by themselves.
    pub first: u32,
    /// How many threads each of these may start.
    pub spare: u32,
    pub image: Snapshot<Image>,
}
