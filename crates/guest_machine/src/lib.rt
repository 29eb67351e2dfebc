//! The guest threads of a program: one alone, or all on one host thread in an order that a number fixes. Those that run
//! beside each other on host threads are `guest_thread`'s ([`prepare`], [`run_all`]), and are named here as well.
//!
//! [`solo`] runs a program's one thread on a memory of its own; `specs/Alone.antt` says what its end is. [`trace`]
//! gives the accesses of a run of all threads as a record, and how each thread ended; `specs/Turns.antt` says whose
//! turn it is and what a turn does. [`laws`] has that there is one end of a thread alone, and one trace at most for a
//! program, a machine, a number and a budget, and that one thread's trace ends as the thread alone; [`worked`] and
//! [`worked_alone`] have small cases.
#![tactic(auto)]

mod alone;
mod drawing;
mod ends;
pub mod laws;
mod seats;
mod serving;
mod traces;
mod turns;
pub mod worked;
pub mod worked_alone;

pub use alone::solo;
pub use guest_thread::{Crew, Job, Ran, prepare, run_all};
pub use traces::{TraceFault, Traced, trace};
