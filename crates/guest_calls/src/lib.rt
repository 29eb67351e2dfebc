//! The guest calls, and what a run of a guest thread is.
//!
//! An A32 guest calls by SVC with the immediate 0: the number of the call is in r7, its arguments are in r0, r1 and r2,
//! and the answer goes to r0; another set of instructions says which call of the table a call of its own is. [`guest_call`] says what a call does and answers it where it can; for a write the caller loads
//! the bytes, one access each, adds them to the thread's [`Output`], and answers with their number. `specs/Calls.antt`
//! is the table of the calls, and `specs/Run.antt` says what a thread's run is, whoever replies to its accesses. [`laws`]
//! has that a run has one end, and [`worked`] has small cases.
#![tactic(auto)]

mod calls;
pub mod laws;
mod output;
mod replies;
pub mod worked;

pub use calls::{CallOutcome, CallStep, guest_call, is_start_call, outcome_of};
pub use output::Output;
pub use replies::reply_of;
