//! Trials of the RISC-V guests: what is read of words, what a core does with them, and how their threads run beside each other.
//! There is nothing here but tests.
#![tactic(auto)]

#[cfg(test)]
mod tests;
