//! A program's file, had or refused: its bytes, the machine that it is for, and its image on that.
//!
//! [`read`] has the bytes of a file from the host, and writes nothing; [`load_as`] makes of them a machine and an image, for a program
//! of a given instruction set, without a host, and [`load`] does so for A32. What stands against a request is a value, the
//! [`Refusal`], which has its text. `specs/Refusals` and `specs/Programs` say what stands against a file, and `specs/Reads` what comes
//! of a read.
#![tactic(auto)]

mod files;
pub mod programs;
mod refusals;

pub use files::{LEAST_GRANULE, Loaded, load, load_as, machine, numbers_of, read};
pub use refusals::{Refusal, refuse};
