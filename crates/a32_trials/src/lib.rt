//! Trials of the instruction set: what is read of words and written of instructions, and what a core does with them. There is
//! nothing here but tests.
#![tactic(auto)]

#[cfg(test)]
mod tests;
