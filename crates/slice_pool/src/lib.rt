//! Many guest threads on few workers: each runs a slice of its steps at a time, and goes back through a queue that all workers
//! share.
//!
//! [`pool_crew`] makes a [`Pool`] of all threads of a memory, each at its start, and of one to four workers; [`run_pool`] runs
//! it. A worker takes a guest out of the queue, runs a slice of it, and puts it back; where the queue has no room it goes on
//! with the guest itself. A worker ends where the queue is empty, and when all have, the caller runs what still waits. The rule of
//! the queue (`specs/inner/Rule`) is that the numbers of the guests that wait in it and of those that the seats hold are all
//! numbers of the machine, each once: so no guest is lost or doubled. In `specs/inner`, `Over` says what a guest is that has
//! ended, `AtWork` what a worker has between two guests, and `Ends` how all have ended, in order of number. [`worked`] has cases of
//! how many slices steps take.
#![tactic(auto)]

mod crews;
mod ends;
mod making;
mod pool;
mod queue;
mod turns;
mod views;
pub mod worked;
mod working;

pub use ends::Pooled;
pub use making::pool_crew;
pub use pool::{Pool, run_pool};
pub use queue::Waiting;
pub use turns::Gone;
