//! What the answers of `run` and `pool` say of the stack guest: of the memory that its threads leave, and of its nodes at every moment
//! before. [`laws`] take what `stack_runs` says of every outcome up to what `llsc` answers.
#![tactic(auto)]

pub mod laws;
