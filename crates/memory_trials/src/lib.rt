//! Trials of the memories that threads share: what each answers to the same accesses, made one after the other and beside each
//! other. There is nothing here but tests.
#![tactic(auto)]

#[cfg(test)]
mod tests;
