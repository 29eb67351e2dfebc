//! The store-exclusives of a record.
use crate::events::Event;
use crate::reasons::Why;

/// What came of a store-exclusive.
#[derive(Clone, Copy, Debug, PartialEq, Eq)]
pub enum Outcome {
    Stored,
    Failed(Why),
}

/// A store-exclusive, with what came of it.
#[derive(Clone, Copy, Debug, PartialEq, Eq)]
pub struct Attempt {
    pub event: Event,
    pub outcome: Outcome,
}
