//! A shared memory by names and a section: the hash-table store test (HST).
//!
//! How it goes is told at [`HstMemory`], and what stands in the words of its table at `HstRule` (`plans`). Each step is a
//! function with one atomic operation. `plain` has those of loads and stores: `load_cell`; `enter`, `set_tag`, `try_change`
//! and `leave`, of which `store_cell` is made. `alone` has those of exclusive accesses: `try_enter_alone`, `watch`, `read_ex` and
//! `leave_alone`, of which `load_ex_cell` is made; `test_tag`, `try_change_alone` and `leave_written`, with which `store_ex_cell`
//! goes on; `fail_absent`, and CLREX as `clear_reservation`. `seats` splits and joins, `making` makes a memory, and `calls`
//! has its calls as a shared memory.
//!
//! What a step tells its caller is named in `plays` and said in `specs/inner/Told`. What a seat is doing is `hands`, what its
//! thread knows by that `specs/inner/Knowledge`, and what is kept between any two steps `specs/inner/Kept`; that each step keeps
//! it is proved in `proofs/PlainSteps`, `AloneSteps` and `SeatSteps`, of a memory that is made in `Opening` and of one that is
//! closed in `Closing`. `specs/Exact` says when a store-exclusive succeeds; [`worked`] has small cases, what holds and what
//! doesn't.
#![tactic(auto)]

mod alone;
mod calls;
mod hands;
mod making;
mod memory;
mod passes;
mod plain;
mod plans;
mod plays;
mod seats;
pub mod worked;

pub use memory::HstMemory;
pub use passes::{HstPass, HstStory};
