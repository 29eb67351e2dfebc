//! Trials of programs as text and as files: operands and instructions that are read and shown, texts that are assembled,
//! words that are shown as text, and ELF files that are written and loaded. There is nothing here but tests.
#![tactic(auto)]

#[cfg(test)]
mod tests;
