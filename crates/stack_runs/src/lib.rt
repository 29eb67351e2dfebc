//! Runs of the stack guest, which goes by a lock-free stack whose nodes are used again: a program that goes wrong without a sound where
//! a store-exclusive is made out of a compare-and-swap.
//!
//! [`laws`] say that no node is ever lost or doubled, however many threads there are and however they come to run beside each other. Each
//! thread goes by a protocol (`proofs/Protocol`), from block to block of its words (`proofs/Blocks`, `Rounds`). Each access by the
//! protocol keeps what holds of the memory, the monitors and all threads together (`proofs/Invariant`, `Steps`, `OneStep`). So that
//! holds at every point of a history (`proofs/EachPoint`), and of every outcome (`proofs/Outcomes`). What serves a proof about any A32
//! guest stands in `a32_guests`. [`worked`] has one such guest as numbers, and its law.
#![tactic(auto)]

pub mod laws;
pub mod worked;
