//! What a proof about any A32 guest needs of the run of one thread: lemmas, and no code that runs.
//!
//! A program is the list of its instructions (`proofs/Listing`). What is left of a thread's run, from its beginning on, loses one
//! instruction after another (`Onward`), by where branches go on (`Branching`). `ThreadRuns` has that of each thread of an outcome,
//! whatever its end. [`laws`] say which ends cut a run off, and that nobody is started where no thread is spare.
#![tactic(auto)]

pub mod laws;
