//! What the program asks of the world outside: files to read, and an output to write.
//!
//! [`Host`] is what is asked, call by call: what a file holds and what was written so far, where a host tells it, and two counts
//! that say when a read or a write failed. [`RealHost`] is the host of the program as it runs, over the operating system, and
//! tells nothing of bytes; [`MemoryHost`] tells everything, and fails where it is told to; [`SteadyHost`] never fails. [`write`]
//! is a write whose contract is one word, by which those of several writes are said (`specs/Writes`).
#![tactic(auto)]

mod host;
mod memory_host;
mod real_host;
mod steady_host;
mod writing;

pub use host::{Failed, Host, ReadFault};
pub use memory_host::MemoryHost;
pub use real_host::RealHost;
pub use steady_host::SteadyHost;
pub use writing::write;
