//! Runs of the counter guest: what each thread asks for, round by round, and what the counters hold once all threads have left.
//!
//! That each counter holds how often the threads name it is a law of every history ([`laws`]), by the run of each thread: it goes
//! from block to block of the guest's words (`proofs/Blocks`, `Rounds`), and what it stored is in memory (`proofs/Stores`, by
//! `history/proofs/Additions`). What serves a proof about any A32 guest stands in `a32_guests`. [`worked`] has one such guest as
//! numbers, and its law.
#![tactic(auto)]

pub mod laws;
pub mod worked;
