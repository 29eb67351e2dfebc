//! Trials of guests: their calls, a thread's run, all threads' runs, the record of a run with the verdict on it, and the guests
//! that a number makes. There is nothing here but tests.
#![tactic(auto)]

#[cfg(test)]
mod tests;
