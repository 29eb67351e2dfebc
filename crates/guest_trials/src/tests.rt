//! What guests do, and what is recorded of it.
mod alone;
mod calls;
mod counters;
mod families;
mod guests;
mod output;
mod pieces;
mod pools;
mod ports;
mod programs;
mod record_texts;
mod recorded;
mod traces;
mod verdicts;

use std::fmt::Debug;
use std::process::Abort;

/// Compares what is there with what is wanted.
fn same<R: Abort, T: PartialEq + Debug + Copy>(rt: &R, given: T, wanted: T) {
    assert_eq!(rt; given, wanted);
}
