//! Worked numbers of words: their form, and their least and greatest values, computed by the definitions.
ghost use Rattle.std.specs.Prelude.{◌≡◌, [], true, None, Some, codes, is_some};
ghost use Rattle.llsc_words.specs.Request.Request.{Load, Solo, Trace};
ghost use Rattle.llsc_words.specs.Worked.{asked_in, fault_in, joined_to, taken_by_any, with_value};

use crate::formats::Format;
use llsc_base::SizeFault;

/// A number is decimal digits without a zero before others, and fits 64 bits.
#[tactic(auto, unfolding(crate::proofs::OnLiterals::words_on_literals))]
pub fn seeds()
    ensures zero { asked_in (codes "load 0") ≡ Some (Load 0 2 1000 100000000) }
    ensures greatest { asked_in (codes "load 18446744073709551615") ≡ Some (Load 18446744073709551615 2 1000 100000000) }
    ensures too_great { asked_in (codes "load 18446744073709551616") ≡ None }
    ensures zero_before { asked_in (codes "load 07") ≡ None }
    ensures zeros { asked_in (codes "load 00") ≡ None }
    ensures plus { asked_in (codes "load +7") ≡ None }
    ensures minus { asked_in (codes "load -- -7") ≡ None }
    ensures hexadecimal { asked_in (codes "load 0x7") ≡ None }
    ensures parted { asked_in (codes "load 1_000") ≡ None }
    ensures no_digit { asked_in (codes "load p") ≡ None }
    ensures empty { asked_in (codes "load ") ≡ None }
{}

/// No option has a value of another form.
#[tactic(auto, unfolding(crate::proofs::OnLiterals::words_on_literals))]
pub fn values_that_are_no_numbers()
    ensures too_great { taken_by_any (with_value (codes "18446744073709551616")) ≡ [] }
    ensures zero_before { taken_by_any (with_value (codes "01")) ≡ [] }
    ensures plus { taken_by_any (with_value (codes "+1")) ≡ [] }
    ensures minus { taken_by_any (joined_to (codes "-1")) ≡ [] }
    ensures no_digit { taken_by_any (with_value (codes "one")) ≡ [] }
    ensures empty { taken_by_any (joined_to []) ≡ [] }
{}

/// A budget is 1 to 1,000,000,000,000 steps, of each command that has one.
#[tactic(auto, unfolding(crate::proofs::OnLiterals::words_on_literals))]
pub fn budgets()
    ensures solo_below { asked_in (codes "solo p --budget 0") ≡ None }
    ensures solo_least { asked_in (codes "solo p --budget 1") ≡ Some (Solo (codes "p") Format.Elf 1048576 1) }
    ensures solo_greatest { asked_in (codes "solo p --budget 1000000000000") ≡ Some (Solo (codes "p") Format.Elf 1048576 1000000000000) }
    ensures solo_above { asked_in (codes "solo p --budget 1000000000001") ≡ None }
    ensures run_below { asked_in (codes "run p --budget 0") ≡ None }
    ensures run_least { is_some (asked_in (codes "run p --budget 1")) ≡ true }
    ensures run_greatest { is_some (asked_in (codes "run p --budget 1000000000000")) ≡ true }
    ensures run_above { asked_in (codes "run p --budget 1000000000001") ≡ None }
    ensures pool_below { asked_in (codes "pool p --budget 0") ≡ None }
    ensures pool_least { is_some (asked_in (codes "pool p --budget 1")) ≡ true }
    ensures pool_greatest { is_some (asked_in (codes "pool p --budget 1000000000000")) ≡ true }
    ensures pool_above { asked_in (codes "pool p --budget 1000000000001") ≡ None }
    ensures record_below { asked_in (codes "record p --budget 0") ≡ None }
    ensures record_least { is_some (asked_in (codes "record p --budget 1")) ≡ true }
    ensures record_greatest { is_some (asked_in (codes "record p --budget 1000000000000")) ≡ true }
    ensures record_above { asked_in (codes "record p --budget 1000000000001") ≡ None }
    ensures trace_below { asked_in (codes "trace p --budget 0") ≡ None }
    ensures trace_least { asked_in (codes "trace p --budget 1") ≡ Some (Trace (codes "p") Format.Elf 2 1048576 0 0 1) }
    ensures trace_greatest { asked_in (codes "trace p --budget 1000000000000") ≡ Some (Trace (codes "p") Format.Elf 2 1048576 0 0 1000000000000) }
    ensures trace_above { asked_in (codes "trace p --budget 1000000000001") ≡ None }
    ensures load_below { asked_in (codes "load 7 --budget 0") ≡ None }
    ensures load_least { asked_in (codes "load 7 --budget 1") ≡ Some (Load 7 2 1000 1) }
    ensures load_greatest { asked_in (codes "load 7 --budget 1000000000000") ≡ Some (Load 7 2 1000 1000000000000) }
    ensures load_above { asked_in (codes "load 7 --budget 1000000000001") ≡ None }
{}

/// A pool has 1 to 4 workers, and a slice 1 to 1,000,000,000,000 steps.
#[tactic(auto, unfolding(crate::proofs::OnLiterals::words_on_literals))]
pub fn workers_and_slices()
    ensures no_worker { asked_in (codes "pool p --workers 0") ≡ None }
    ensures one_worker { is_some (asked_in (codes "pool p --workers 1")) ≡ true }
    ensures most_workers { is_some (asked_in (codes "pool p --workers 4")) ≡ true }
    ensures too_many_workers { asked_in (codes "pool p --workers 5") ≡ None }
    ensures no_step { asked_in (codes "pool p --slice 0") ≡ None }
    ensures one_step { is_some (asked_in (codes "pool p --slice 1")) ≡ true }
    ensures most_steps { is_some (asked_in (codes "pool p --slice 1000000000000")) ≡ true }
    ensures too_many_steps { asked_in (codes "pool p --slice 1000000000001") ≡ None }
{}

/// Memory has 65,536 to 16,777,216 bytes, in pages of 4096.
#[tactic(auto, unfolding(crate::proofs::OnLiterals::words_on_literals))]
pub fn memories()
    ensures a_page_less { fault_in (codes "run p --mem 61440") ≡ Some (Some SizeFault.Mem) }
    ensures least { fault_in (codes "run p --mem 65536") ≡ Some None }
    ensures a_byte_more { fault_in (codes "run p --mem 65537") ≡ Some (Some SizeFault.Mem) }
    ensures a_page_more { fault_in (codes "run p --mem 69632") ≡ Some None }
    ensures greatest { fault_in (codes "run p --mem 16777216") ≡ Some None }
    ensures above { fault_in (codes "run p --mem 16781312") ≡ Some (Some SizeFault.Mem) }
{}

/// There are 1 to 16 threads, those counted that others may start; classes are a power of two, from 1 to 4096; a class takes 1
/// to 4,611,686,018,427,387,904 writes; a granule's number is 0 to 8.
#[tactic(auto, unfolding(crate::proofs::OnLiterals::words_on_literals))]
pub fn machines()
    ensures no_thread { fault_in (codes "run p --threads 0") ≡ Some (Some SizeFault.Threads) }
    ensures one_thread { fault_in (codes "run p --threads 1") ≡ Some None }
    ensures most_threads { fault_in (codes "run p --threads 16") ≡ Some None }
    ensures too_many_threads { fault_in (codes "run p --threads 17") ≡ Some (Some SizeFault.Threads) }
    ensures all_spare { fault_in (codes "run p --threads 4 --spare 3") ≡ Some None }
    ensures one_too_many { fault_in (codes "run p --threads 4 --spare 4") ≡ Some (Some SizeFault.Threads) }
    ensures none_to_start { fault_in (codes "run p --threads 0 --spare 18446744073709551615") ≡ Some (Some SizeFault.Threads) }
    ensures product_past_64_bits { fault_in (codes "run p --threads 2 --spare 9223372036854775807") ≡ Some (Some SizeFault.Threads) }
    ensures product_that_would_wrap_to_one { fault_in (codes "run p --threads 3 --spare 12297829382473034410") ≡ Some (Some SizeFault.Threads) }
    ensures no_class { fault_in (codes "run p --classes 0") ≡ Some (Some SizeFault.Classes) }
    ensures one_class { fault_in (codes "run p --classes 1") ≡ Some None }
    ensures no_power_of_two { fault_in (codes "run p --classes 4095") ≡ Some (Some SizeFault.Classes) }
    ensures most_classes { fault_in (codes "run p --classes 4096") ≡ Some None }
    ensures too_many_classes { fault_in (codes "run p --classes 8192") ≡ Some (Some SizeFault.Classes) }
    ensures no_write { fault_in (codes "run p --limit 0") ≡ Some (Some SizeFault.Limit) }
    ensures one_write { fault_in (codes "run p --limit 1") ≡ Some None }
    ensures most_writes { fault_in (codes "run p --limit 4611686018427387904") ≡ Some None }
    ensures too_many_writes { fault_in (codes "run p --limit 4611686018427387905") ≡ Some (Some SizeFault.Limit) }
    ensures least_granule { fault_in (codes "run p --granule 0") ≡ Some None }
    ensures greatest_granule { fault_in (codes "run p --granule 8") ≡ Some None }
    ensures too_great_a_granule { fault_in (codes "run p --granule 9") ≡ Some (Some SizeFault.Granule) }
    ensures too_many_threads_of_risc_v { fault_in (codes "run p --rv --threads 17") ≡ Some (Some SizeFault.Threads) }
{}

/// Of several numbers out of range the fault is that of memory, then of the threads, the classes, the limit and the granule.
#[tactic(auto, unfolding(crate::proofs::OnLiterals::words_on_literals))]
pub fn faults_in_order()
    ensures memory { fault_in (codes "run p --granule 9 --limit 0 --classes 0 --threads 0 --mem 1") ≡ Some (Some SizeFault.Mem) }
    ensures threads { fault_in (codes "run p --granule 9 --limit 0 --classes 0 --threads 0") ≡ Some (Some SizeFault.Threads) }
    ensures classes { fault_in (codes "run p --granule 9 --limit 0 --classes 0") ≡ Some (Some SizeFault.Classes) }
    ensures limit { fault_in (codes "run p --granule 9 --limit 0") ≡ Some (Some SizeFault.Limit) }
{}
