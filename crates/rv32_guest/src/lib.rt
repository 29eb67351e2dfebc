//! Guests of RISC-V: the instructions of RV32I without EBREAK, and of Zalrsc (The RISC-V Instruction Set Manual, Volume I:
//! Unprivileged Architecture).
//!
//! What is to be believed stands in `specs/`: the table of instruction words (`Table`), with the immediates by their pieces
//! (`Immediates`), what each instruction does (`Effect`, by `Computing` and `Accesses`), guest calls by their numbers (`Calls`),
//! and the set of all of them (`Machine`). [`rv_decode`] is the table, and an [`RvCpu`] a core of that set. Its threads run on a
//! memory that they share by [`prepare_rv`] and [`run_rv_all`], which are `guest_thread`'s. [`laws`] has laws of the table, of the
//! set and of runs.
#![tactic(auto)]

mod arithmetic;
mod bits;
mod branches;
mod calls;
mod computing;
mod cores;
mod cpu;
mod crews;
mod decoder;
mod execution;
mod instructions;
mod jumps;
pub mod laws;
mod memory;
mod outcomes;
mod ready;
mod reg;
mod registers;
mod running;
mod system;

pub use calls::rv_call;
pub use cpu::RvCpu;
pub use crews::{RvCrew, RvJob, RvRan, prepare_rv, run_rv_all};
pub use decoder::rv_decode;
pub use guest_core::Wanted;
pub use instructions::RvInstr;
pub use llsc_base::DecodeFault;
pub use ready::RvKept;
pub use reg::RvReg;
pub use running::run_rv_thread;
