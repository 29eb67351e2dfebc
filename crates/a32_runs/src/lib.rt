//! Worked runs of guest threads whose instructions are A32: of one instruction ([`worked_runs`]), with their ends in a history
//! ([`worked_ends`]), with a stock of numbers for threads that they start ([`worked_stocks`]), with all of these threads
//! ([`worked_families`]), alone ([`worked_alone`]), in turns ([`worked_turns`]), and as a record has them ([`worked_verdicts`]). Beside
//! them stands a row of the instruction table, and what the table's laws don't allow of it ([`worked_rows`]).
//!
//! What a run is, how threads end, whose turn it is and which record is good stands in `guest_calls`, `guest_thread`,
//! `guest_machine` and `run_checker` for whatever instructions; here it is at `a32`.
#![tactic(auto)]

pub mod worked_alone;
pub mod worked_ends;
pub mod worked_families;
pub mod worked_rows;
pub mod worked_runs;
pub mod worked_stocks;
pub mod worked_turns;
pub mod worked_verdicts;
