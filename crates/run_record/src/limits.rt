//! How many accesses a record has at most.

/// The most accesses of a record.
pub const MOST_ACCESSES: usize = 1_000_000;
