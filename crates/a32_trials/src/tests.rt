//! Words, their instructions, and what a core does with those.
mod cpu;
mod decoder;
mod encoder;

use std::fmt::Debug;
use std::process::Abort;

/// Compares what is there with what is wanted.
fn same<R: Abort, T: PartialEq + Debug + Copy>(rt: &R, given: T, wanted: T) {
    assert_eq!(rt; given, wanted);
}
