//! The core of a guest thread, of whatever instruction set: what it wants next, and what comes of that.
//!
//! A [`Core`] carries out the instructions of a set one access at a time. [`Core::next`] goes on until the
//! instruction at the PC wants something from outside ([`Wanted`]): an access to memory, a guest call, or
//! nothing, since it is complete or the thread has stopped. Whoever runs the thread answers. [`Core::carry`]
//! takes a whole instruction at once, in the form in which the core keeps it [`Ready`], over a [`TryPort`],
//! which replies to its accesses as far as it can at once; a [`Port`] replies to each. [`Code`] knows the
//! instructions of one image that were met.
//!
//! `specs/Machine` has what a set of instructions is (`InstructionSet`), and what a machine of such a set
//! does that may be in the middle of an instruction.
#![tactic(auto)]

mod asking;
mod code;
mod cores;
mod pages;
mod phases;
mod ports;
mod ready;

pub use asking::stop_at;
pub use code::Code;
pub use cores::Core;
pub use phases::{Passage, Wanted};
pub use ports::{Port, TryPort};
pub use ready::Ready;
