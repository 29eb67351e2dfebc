//! What an emulator holds of a memory that guest threads share: one guest thread of it, or several in a row.
//!
//! [`Handle::open`] makes a memory and the handle that has all of its threads. [`Handle::split`] takes the last thread out of a
//! handle, so that each thread comes to have a handle of its own, which may go to another host thread. By it the thread makes its
//! accesses: [`Handle::load`], [`Handle::store`], [`Handle::load_ex`], [`Handle::store_ex`] and [`Handle::clear_ex`], none of
//! which waits for another thread. At the end [`Handle::join`] puts handles together again, and [`Handle::close`] writes, by the
//! handle of all threads, the bytes that are left.
//!
//! Widths, addresses, values and whether a handle may be split are tested at run time: a call that is refused says by a [`Misuse`]
//! what was wrong, and has changed nothing; only a store that memory refused may have seen what others did. `specs/Faults` says when each comes, `specs/Accesses` what has come of an access that
//! was made, `specs/Handles` what a handle holds, and `specs/Left` what is left at the end. The [`laws`] say it of one access in the
//! history's entries.
#![tactic(auto)]

mod accesses;
mod closing;
mod handles;
pub mod laws;
mod misuse;
mod opening;
mod parts;
mod places;
pub mod worked;

pub use handles::Handle;
pub use misuse::Misuse;
