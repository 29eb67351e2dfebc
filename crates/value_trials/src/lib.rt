//! Trials of values and of memory on one thread: sizes, flat files, places and lines, numbers as text, bytes in cells, and
//! Arm's exclusive monitors. There is nothing here but tests.
#![tactic(auto)]

#[cfg(test)]
mod tests;
