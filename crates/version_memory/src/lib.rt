//! A shared memory by versions: each class of rows counts its writes.
//!
//! How it goes is told at [`VersionMemory`]; its steps, and what they keep, are those of `version_rule`. Each step is a function
//! with one atomic operation. `plain` has those of loads and stores: `load_cell`; `look_at_tag`, `claim`, `take_cell`,
//! `change_cell` and `release`, of which `store_cell` is made. `exclusive` has those of exclusive accesses: `try_watch`, `watch`
//! and `read_ex`, of which `load_ex_cell` is made; `claim_ex`, with which `store_ex_cell` begins, and
//! `fail_limited`; `fail_absent`, and CLREX as `clear_reservation`. `stamped` has the three looks of a stamped load. `starts` has
//! `start_child`, and of a thread that waits for its start `know_own` and `look_at_start`. `seats` splits and joins, `making`
//! makes a memory, `leaving` looks at one that all threads have left, and `pauses` says how long a thread waits whose
//! store-exclusives failed.
//!
//! Its calls as a shared memory are in `calls`, those by which threads start others in `starting`, those that wait for nobody
//! in `now`, and those of accesses that give their stamps in `stamps`. A store-exclusive is made in `store_ex_stamped`:
//! `store_ex_now` drops its stamp, and `store_ex_paused` besides keeps count of the pauses of its thread; `store_ex` and
//! `try_store_ex` are that, as `load_ex` and `try_load_ex` are `load_ex_paused`. `specs/Stands` says where an entry stands in
//! what a pass has seen, and what was so before it; `specs/Exact` says when a store-exclusive has failed, and when a store that
//! is tried once is not done; [`worked`] has small cases, what holds and what doesn't.
#![tactic(auto)]

mod calls;
mod exclusive;
mod leaving;
mod making;
mod memory;
mod now;
mod passes;
mod pauses;
mod plain;
mod seats;
mod stamped;
mod stamps;
mod starting;
mod starts;
pub mod worked;

pub use memory::VersionMemory;
pub use passes::{VersionPass, VersionStory};
