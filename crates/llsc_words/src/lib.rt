//! The words of the program's command line, read with `clap`.
//!
//! The first word is a command; what stands behind it is read as `specs/Commands.antt` says which options and files each command
//! takes. `specs/Request.antt` says what words ask for; [`worked`], [`worked_names`], [`worked_numbers`], [`worked_options`] and
//! [`worked_refusals`] have small cases, by the words of `specs/Worked.antt`.
#![tactic(auto)]

mod arguments;
mod asked;
mod commands;
mod defaults;
mod formats;
mod given;
mod names;
mod numbers;
mod requests;
mod sets;
mod words;
pub mod worked;
pub mod worked_names;
pub mod worked_numbers;
pub mod worked_options;
pub mod worked_refusals;

pub use defaults::{DEFAULT_MEM, RUN_CLASSES, RUN_LIMIT};
pub use formats::Format;
pub use requests::{
    LoadNumbers, MachineNumbers, PoolNumbers, RecordNumbers, Request, RunNumbers, TraceNumbers,
};
pub use sets::SetName;
pub use words::parse;
