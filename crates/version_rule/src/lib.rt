//! Versions: what a shared memory keeps whose classes of rows each have a count of their writes, and which of its steps keep
//! it.
//!
//! How such a memory goes is told at `VersionMemory` of `version_memory`, which makes these steps; what stands in the words of
//! its table is told at [`VersionRule`]. Each step is a type of `plays`, and `specs/Told` says what it tells its caller: of
//! stores [`LookAtTag`], [`Claim`], [`Take`], [`Change`] and [`Release`]; of load-exclusives [`TryWatch`] or [`Watch`], and
//! [`ReadEx`]; of store-exclusives [`ClaimEx`], after which they go on as a store does, or [`Limited`] or [`Absent`], where they
//! fail at once; [`Clear`] of CLREX; of stamped loads [`FirstLook`], [`SecondLook`] and [`ThirdLook`] or [`ThirdLookEx`];
//! [`StartChild`] of a thread that starts another; of one that waits until it is started [`Know`] and [`LookAtStart`]; and
//! [`LookAtLeft`] of a cell as all threads have left it.
//!
//! What a seat is doing is a [`Hand`], what its thread knows by that `specs/Knowledge`, and what is kept between any two steps
//! `specs/Kept`, of the words of started threads `specs/StartWords`; that each step keeps it is proved in `proofs/PlainSteps`,
//! `ExclusiveSteps`, `StampedSteps`, `StartSteps` and `SeatSteps`, of a memory that is made in `Opening`, and of one that is
//! closed in `Closing`, which has [`LookAtLeft`] too. `specs/Exact` says when a store-exclusive succeeds, when one has lost, and
//! when a store is refused, and `specs/Left` what is so of a memory that all threads have left; [`worked`] has small cases, what
//! holds and what doesn't.
#![tactic(auto)]

mod hands;
mod plans;
mod plays;
pub mod worked;

pub use hands::{Doing, Hand, Reserve, VersionView};
pub use plans::{VersionRule, VersionSeat, VersionShared, VersionTable};
pub use plays::{
    Absent, Births, Change, Claim, ClaimEx, Clear, FirstLook, Know, Limited, LookAtLeft,
    LookAtStart, LookAtTag, ReadEx, Release, SecondLook, StartChild, Take, ThirdLook, ThirdLookEx,
    TryWatch, Watch,
};
