//! What texts and files mean, and how programs are shown and kept.
mod assembled;
mod disassembled;
mod elf_loaded;
mod elf_written;
mod instructions_read;
mod instructions_shown;
mod operands_read;
mod operands_shown;
mod units;

use std::fmt::Debug;
use std::process::Abort;

/// Compares what is there with what is wanted.
fn same<R: Abort, T: PartialEq + Debug + Copy>(rt: &R, given: T, wanted: T) {
    assert_eq!(rt; given, wanted);
}
