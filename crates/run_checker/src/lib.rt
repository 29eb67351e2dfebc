//! Whether a recorded run is one of its program.
//!
//! [`check_record`] runs the threads again, and compares what they ask with the record and memory with its values;
//! `specs/Verdict.antt` says which access is wrong, and why. [`sight_record`] gives besides where each access stands: by which
//! instruction it is made, and behind how many steps of its thread (`specs/Sighted.antt`). [`laws`] has that accesses have one verdict
//! at most, and that a good record is what Arm allows; [`worked`] has small cases.
#![tactic(auto)]

mod asked;
mod checker;
pub mod laws;
mod records;
mod serving;
mod sightings;
mod verdicts;
pub mod worked;

pub use records::{check_record, sight_record};
pub use sightings::{Sighting, Sightings};
pub use verdicts::{Reason, Verdict};
