//! Answers words and files with a text and a status: all that the program does, but for having its words.
//!
//! It is one call, [`llsc`], whose contract says what is answered to which words and files; `specs/Answer.antt`
//! has the words of that contract. It reads the files of a request (`files`), computes what the call comes to without a host, each
//! command in a file of `commands`, and says that, piece by piece (`say`). What a call comes to is an `Outcome`, and
//! `specs/inner/Outcome.antt` has its text and its status. What is asked of the world outside is a `Host` (`llsc_host`); how a
//! program's file is had or refused is `llsc_files`', and what is said of threads that ran `llsc_report`'s.
#![tactic(auto)]

mod answer;
mod answering;
pub mod beside;
mod call;
mod commands;
mod ended;
mod files;
pub mod laws;
mod outcome;
mod say;
mod steady_call;
pub mod worked_limits;
pub mod worked_versions;

pub use crate::call::llsc;
pub use crate::ended::Ended;
pub use crate::steady_call::steady;
