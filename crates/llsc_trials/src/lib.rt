//! Trials of whole calls over hosts in memory, one of each command and where a host fails, and of each host by itself. There is
//! nothing here but tests.
#![tactic(auto)]

#[cfg(test)]
mod tests;
