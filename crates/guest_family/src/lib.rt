//! Guest threads that start others, beside each other on host threads.
//!
//! [`prepare_family`] makes a [`Kin`] of all threads of a memory: a [`Starter`] for each that begins by itself, with a [`Spare`] for
//! each thread that it may start. [`run_family`] runs them up to their stops, each started thread as one side of a join and what is
//! left of its starter as the other (`starters`). [`go_on`] is a piece of the run of a thread of A32 instructions, for whoever runs
//! such threads by pieces. [`laws`] has that a run that starts threads has one end, and a history one list of ends.
#![tactic(auto)]

mod families;
mod kin;
pub mod laws;
mod pieces;
mod running;
mod starters;

pub use families::run_family;
pub use guest_thread::Ran;
pub use kin::{Kin, Spare, Starter, prepare_family};
pub use pieces::go_on;
