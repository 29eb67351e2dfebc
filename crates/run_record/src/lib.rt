//! The record of a run as text: how many threads ran, with which granule and budget, and their accesses in order.
//!
//! The first line is `llsc-run 1 threads N budget B accesses A` where the granule number is 0, and `llsc-run 2 threads N
//! granule G budget B accesses A` where it is G, from 1 to 8. A line for each access follows: `T WORD SIZE ADDR VALUE`,
//! or `T clear`. [`print_record`] writes the text of a [`RunRecord`], and [`read_record`] reads exactly these
//! texts: for all other bytes it gives the first fault. `specs/Text.antt` has both formats, `specs/Limits.antt` says which
//! records there are, and `specs/Fault.antt` which fault is the first; `specs/Reading.antt` reads field by field, and
//! [`laws`] ties it to these.
#![tactic(auto)]

mod faults;
mod fields;
mod headers;
pub mod laws;
mod limits;
mod lines;
mod printing;
mod reading;
mod records;

pub use faults::RecordFault;
pub use limits::MOST_ACCESSES;
pub use printing::print_record;
pub use reading::read_record;
pub use records::{Accesses, RunRecord};
