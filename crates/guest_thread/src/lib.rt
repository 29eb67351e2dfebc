//! One guest thread, whoever replies to its accesses, and all of a program beside each other.
//!
//! A [`Guest`] begins by [`Guest::start`] and goes on by [`Guest::next`] until it asks for an access or has ended; the
//! caller replies by [`Guest::give`]. Instructions, guest calls and the loads of a write's bytes are all within it;
//! what it asks, and how it ends, is the run of the thread (`guest_calls`, `specs/Run`); every reply takes it further,
//! so that it comes to an end within its budget (`specs/Progress`). By [`Guest::run`] a [`guest_core::Port`] replies, up
//! to the end. [`run_thread`] runs a thread, whose core begins by [`start_cpu`], on a memory that threads share, and
//! gives back its pass with its end ([`Finished`]); [`go_on`] runs one piece by piece, from a [`Part`] to the next or to its end
//! ([`Paused`]), and up to each call that starts a thread. A [`GuestEnd`] is how a thread ended. [`Counts`] are a thread's
//! accesses, and [`tried_by`] says which access a thread tries by what it asks.
//!
//! [`prepare`] makes a [`Job`] of each thread on a memory that threads share, and [`run_all`] runs them beside each
//! other up to their ends; `specs/Crews` says when a [`Crew`] of jobs is ready, and `specs/inner/Crews` how its threads have
//! ended. [`laws`] has that no thread ends by itself for what only memory can want, and that a history has one outcome;
//! [`worked`] and [`worked_stocks`] have small cases.
#![tactic(auto)]

mod counts;
mod crews;
mod ends;
mod gathering;
mod guests;
mod in_pieces;
pub mod laws;
mod pieces;
mod ports;
mod running;
mod runs;
mod sharing;
mod starts;
mod tries;
pub mod worked;
pub mod worked_stocks;

pub use counts::{Counts, counts_of};
pub use crews::{Crew, Job, job_of, prepare};
pub use ends::GuestEnd;
pub use gathering::{Ran, begin, gather, pop_job};
pub use guests::{Guest, Turn};
pub use pieces::{Part, Paused, go_on};
pub use running::{Finished, run_thread};
pub use runs::run_all;
pub use starts::start_cpu;
pub use tries::tried_by;
