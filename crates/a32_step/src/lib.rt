//! The interpreter of one guest thread: its registers, flags and PC, moved one access at a time.
//!
//! [`Cpu::next`] goes on until the instruction at the PC wants something from outside: an access to
//! memory, a guest call, or nothing, since it is complete or the thread has stopped. The caller
//! answers an access by [`Cpu::give`] and a call by [`Cpu::answer`]. Each of them is proved to be
//! what the effect of the instruction says (`a32_instr`, `specs/Effect`); `specs/Machine` here is the
//! set of these instructions, for a machine that may be in the middle of one (`guest_core`,
//! `specs/Machine`), and [`laws`] has that the two agree over all replies. As a
//! [`guest_core::Core`], a `Cpu` also carries a whole instruction through at once, in the form that
//! [`Kept`] has. A [`Remembering`] is a core that goes access by access, and decodes the words
//! of a loop once.
#![tactic(auto)]

mod amounts;
mod cores;
mod cpu;
mod execution;
mod kept;
pub mod laws;
mod low;
mod lowered;
mod phases;
mod remembering;
mod replies;
mod rows;
mod slot;
mod sources;

pub use a32_instr::Flags;
pub use cpu::Cpu;
pub use kept::Kept;
pub use remembering::Remembering;
