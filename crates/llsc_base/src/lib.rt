//! What every other crate speaks of: sizes and places of accesses, the numbers of a machine, the
//! image of a guest program, and what an instruction may ask of what is outside, whatever its set.
//!
//! An access has a [`Place`]: an address and a [`Size`]. A [`MachineSize`] holds the numbers of a
//! machine, all in range. An [`Image`] is a program as it stands in memory before its first
//! instruction; [`Image::fetch`] and [`Image::test`] say what a guest may run and access. An
//! instruction may make an access ([`Ask`]) or a guest call ([`CallAsk`]), or stop its thread
//! ([`Stop`]); a word may be none ([`DecodeFault`]).
#![tactic(auto)]

mod access;
mod decoding;
mod fields;
mod flat;
mod hulls;
mod images;
pub mod laws;
mod limits;
mod lines;
mod memory;
mod outside;
mod sizes;
mod statuses;

pub use access::{Bar, BarredWord, Place, Size};
pub use decoding::DecodeFault;
pub use fields::bits;
pub use flat::{ELF_MAGIC, FlatFault};
pub use images::{Image, Span};
pub use limits::{CODE_START, MOST_STEPS};
pub use lines::Line;
pub use memory::load;
pub use outside::{Ask, CallAsk, Stop};
pub use sizes::{MachineSize, SizeFault};
pub use statuses::{STATUS_FAILED, STATUS_STORED};
