//! Guests that a number makes.
//!
//! [`counters`] gives a program whose threads add 1 to sixteen counters of memory, each thread so many times. Which counter
//! is next a generator of numbers draws, which a seed starts; and each addition is a load-exclusive and a store-exclusive,
//! tried until it succeeds. The program's words stand in `specs/Counters`, and its text in `specs/Text`.
//!
//! [`named`] says how often the threads name a counter (`specs/Namings`).
#![tactic(auto)]

mod counter_guest;
mod faults;
pub mod laws;
mod namings;

pub use counter_guest::{COUNTER_COUNT, FIRST_COUNTER, counters};
pub use faults::GenFault;
pub use namings::named;
