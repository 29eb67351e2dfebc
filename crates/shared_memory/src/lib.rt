//! What a memory promises that guest threads share while they run beside each other.
//!
//! [`SharedMemory`] is the promise, call by call. Its words are in `specs/Calls`, what a call asks of a pass and what the pass
//! has seen after it, and in `specs/Seen`: what a pass has seen of the history, which thread numbers it holds, and when a class
//! may take no write; `specs/Origin` says what a memory was made with, and which histories are legal of it. [`StartMemory`]
//! promises besides that threads may start others. [`Rows`] are the cells of a memory that was closed.
//!
//! The rest is what memories share that keep the promise on a table of atomic words. `specs/Layout` says which word is a tag
//! and which a cell; a [`Plan`] is what the table is told once, [`initial_words`] makes its words, and a [`Target`] is a place
//! with its words. What a seat of the table knows is a [`View`], by `specs/Passes`; `specs/Rule` has what every such memory
//! keeps between any two steps, of its history and of what its seats know. [`Load`] and [`Look`] are the steps that every
//! memory has. By [`Vouch`] a seat learns that what it has seen is legal, and by [`Settle`] what another had seen that it has
//! taken in; `specs/Told` says what each tells its caller.
//! [`Marks`] are the numbers of a pass, and by [`Gives`] a call picks the one that a seat gives away. How histories grow, and
//! how seats are split, joined and closed, is proved in `proofs/`, once for all of them.
//!
//! [`worked`] has small cases of the words of the promise, what holds and what doesn't.
#![tactic(auto)]

mod asks;
mod memory;
mod numbers;
mod plans;
mod rows;
mod seats;
mod starts;
mod targets;
mod views;
mod words;
pub mod worked;

pub use asks::{Asks, Load, Look, Settle, Vouch};
pub use memory::{SharedMemory, Spent};
pub use numbers::{Marks, first_marks, merge_marks, only_mark, other_number};
pub use plans::Plan;
pub use rows::Rows;
pub use seats::Gives;
pub use starts::StartMemory;
pub use targets::{Target, word_of_cell};
pub use views::{Part, View};
pub use words::initial_words;
