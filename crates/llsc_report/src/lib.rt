//! What is said of threads that have run, and the status that goes with it.
//!
//! [`write_report`] writes the report of threads' ends, [`write_summary`] that of a load's counters, each to a host, line by
//! line. Their texts are those of `specs/Report` and `Summary`, and the status is by the threads' stops (`specs/Status`).
//! [`worked`] and [`worked_statuses`] have cases of them, as laws.
#![tactic(auto)]

mod report;
mod statuses;
mod summary;
pub mod worked;
pub mod worked_statuses;

pub use report::{write_count, write_report};
pub use statuses::{have_left, status, status_of_all};
pub use summary::{total, write_summary};
