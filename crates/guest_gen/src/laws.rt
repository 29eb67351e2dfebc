//! The laws of the guests, each a function of no effect whose contract is the law.
ghost use Rattle.std.specs.Prelude.{◌≡◌, ◌*◌, ◌∷◌, [], ℕ, List, drop, length};
ghost use Rattle.llsc_base.specs.Memory.{value_at};
ghost use Rattle.elf32.specs.Units.{data_of, end_of};
ghost use Rattle.guest_gen.specs.Counters.{counter_at, counter_in, counter_place, counter_unit, counters};
ghost use Rattle.guest_gen.specs.Namings.{named_in, namings_of};
ghost use Rattle.std.specs.List.{range_with_len, sum_by};

use crate::counter_guest::{COUNTER_COUNT, FIRST_COUNTER};
use llsc_base::Size;

/// The numbers by which others find the counters: how many there are, and where the first stands.
pub fn counters_are_where_they_are_told()
    ensures count { COUNTER_COUNT ≡ counters }
    ensures first { FIRST_COUNTER ≡ counter_at 0 }
{}

/// There are sixteen counters, from 0x2000 on, of eight bytes each.
pub fn counters_in_numbers()
    ensures count { COUNTER_COUNT ≡ 16 }
    ensures first { FIRST_COUNTER ≡ 8192 }
    ensures second { counter_at 1 ≡ 8200 }
{}

/// The counter guest has 25 words, and its counters are its data: the first stands where the data begins, and the program ends
/// behind the last.
pub fn counters_are_the_data()
    ensures words { (seed rounds : ℕ) → length (counter_unit seed rounds).words ≡ 25 }
    ensures first { (seed rounds : ℕ) → data_of (counter_unit seed rounds) ≡ counter_at 0 }
    ensures end { (seed rounds : ℕ) → end_of (counter_unit seed rounds) ≡ counter_at counters }
{}

/// A counter is the word at the first four of its eight bytes, and holds what memory has there.
pub fn counters_as_words()
    ensures second { counter_place 1 ≡ record { addr = 8200; size = Size.B4 } }
    ensures held { (memory : List ℕ) → counter_in memory 1 ≡ value_at memory (record { addr = 8200; size = Size.B4 }) }
{}

/// The code of the counter guest ends with `mov r0, #0`, `mov r7, #1` and `svc #0`, by which a thread leaves with code 0.
pub fn threads_that_leave()
    ensures { (seed rounds : ℕ) → drop 22 (counter_unit seed rounds).words ≡ 0xE3A00000 ∷ 0xE3A07001 ∷ 0xEF000000 ∷ [] }
{}

/// The counters are named once in each round of each thread.
#[tactic(auto, using(crate::proofs::Totals::all_namings))]
pub fn namings_are_all_rounds()
    ensures { (seed threads rounds : ℕ) → sum_by (namings_of seed threads rounds) (range_with_len 0 counters) ≡ threads * rounds }
{}

/// Worked namings: of three rounds in a row, and how often a counter is named.
#[tactic(auto, unfolding(crate::specs::Namings::named_in, crate::specs::Namings::namings_in, crate::specs::Namings::namings_of))]
pub fn worked_namings()
    ensures in_a_row { named_in 0 3 ≡ 3 ∷ 4 ∷ 13 ∷ [] }
    ensures one { namings_of 0 1 3 13 ≡ 1 }
    ensures two { namings_of 0 2 1 3 ≡ 2 }
    ensures other_seed { namings_of 1 2 1 3 ≡ 2 }
    ensures none { namings_of 0 2 1 4 ≡ 0 }
{}
