//! A run that its threads record while they run freely, each in a log of its own, and the logs merged to one order of all accesses.
//!
//! [`log_crew`] makes ready what [`log_all`] runs beside each other: the threads of an image, of a core's instructions, on a memory
//! by versions, whose stamped calls say of each access how many writes its class had had before. A [`Log`] is a thread's accesses with
//! their stamps ([`Stamped`]), and a [`LoggedRun`] what comes of all threads. [`merge`] makes one list of accesses of their logs: each
//! thread's in order, and each with the stamp that it has in the history, which is what Arm's memory and monitors allow ([`laws`]).
#![tactic(auto)]

mod crews;
mod filling;
mod joins;
pub mod laws;
mod logging;
mod logs;
mod merges;
mod merging;
mod reservations;
mod running;
mod runs;
pub mod worked;

pub use crews::{LogCrew, log_crew};
pub use logs::{Log, Stamped};
pub use merges::{MergeFault, merge};
pub use runs::{LoggedRun, log_all};
