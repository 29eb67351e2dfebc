//! What a history of shared memory is, and which histories are legal.
//!
//! A history is a list of entries ([`Entry`]): accesses, and marks that say when an operation began or is over. Its
//! accesses are those that Arm's memory and exclusive monitors allow (DDI 0406C A3.4); its marks say why a
//! store-exclusive failed. `specs/` has one definition a file, to be read beside the manual; `specs/Standing.antt` and
//! `specs/Follow.antt` have the same entry by entry, for proofs, and [`laws`] ties the two.
//!
//! [`PlainMemory`] keeps memory and the monitors on one host thread: each of its calls is one access. The `worked` modules
//! have small cases of each definition, what holds and what doesn't, as laws.
#![tactic(auto)]

mod entry;
pub mod laws;
pub mod laws_of_starts;
mod plain;
pub mod worked;
pub mod worked_accesses;
pub mod worked_classes;
pub mod worked_marks;
pub mod worked_operations;
pub mod worked_rows;
pub mod worked_starts;

pub use entry::{Access, Cause, Deed, Entry};
pub use plain::PlainMemory;
