//! What values are, as text and in memory.
mod cells;
mod flat_files;
mod lines;
mod loads;
mod numbers_read;
mod numbers_written;
mod plain_memory;
mod sizes;

use std::fmt::Debug;
use std::process::Abort;

/// Compares what is there with what is wanted.
fn same<R: Abort, T: PartialEq + Debug + Copy>(rt: &R, given: T, wanted: T) {
    assert_eq!(rt; given, wanted);
}
