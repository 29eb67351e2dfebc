//! Why the store-exclusives of a recorded run failed.
//!
//! An [`Explanation`] is made of a record that is good, with where each of its accesses stands ([`run_checker::Sightings`]), and
//! [`write_explanation`] writes its text page by page. An [`Event`] is an access of the record. What came of each thread's last
//! reservation ([`Reservation`]) says why a store-exclusive failed ([`Why`]), and a [`Tally`] has how many came out in which way.
//! `specs/Reasons.antt` has the reasons, `specs/Text.antt` the text. [`laws`] ties them to the marks of Arm's monitors.
#![tactic(auto)]

mod attempts;
mod events;
mod explainer;
mod explanations;
pub mod laws;
mod reasons;
mod reservations;
mod shown;
mod tallies;
mod text;

pub use attempts::{Attempt, Outcome};
pub use events::Event;
pub use explanations::{Explanation, write_explanation};
pub use reasons::Why;
pub use reservations::{Reservation, Writes};
pub use tallies::Tally;
