//! The laws of runs of the counter guest, each a function of no effect whose contract is the law.
ghost use Rattle.std.specs.Prelude.{◌≡◌, ◌<◌, ◌≤◌, ℕ, List, Ok, codes};
ghost use Rattle.a32_asm.specs.Assembled.{unit_of};
ghost use Rattle.guest_gen.specs.Counters.{AreInRange, counter_image, counter_place, counter_unit};
ghost use Rattle.guest_gen.specs.Text.{counter_text};
ghost use Rattle.llsc_base.specs.Memory.{value_at};
ghost use Rattle.llsc_base.specs.Sizes.{Numbers};
ghost use Rattle.history.specs.Monitor.{at_rest_by, monitor_after};
ghost use Rattle.history.specs.Parts.{accesses_of};
ghost use Rattle.history.specs.declared.entry.Entry.{Entry};
ghost use Rattle.guest_thread.specs.Outcome.{HaveLeft, IsOutcome};
ghost use Rattle.guest_thread.specs.Start.{thread_start};
ghost use Rattle.guest_calls.specs.Run.{Pair, EndsOn};
ghost use Rattle.counter_runs.specs.Tries.{AreTries};
ghost use Rattle.guest_thread.specs.declared.ends.GuestEnd.{GuestEnd};
ghost use Rattle.guest_gen.specs.Namings.{first_draw, named_in, namings_of};
ghost use Rattle.a32_step.specs.Machine.{a32};

use llsc_base::Stop;

/// Worked texts of the counter guest, each of which assembles to it: with the least seed and one round, with another, and with
/// the greatest seed, all of whose 32 bits are set, and the most rounds.
pub fn worked_texts()
    ensures least { unit_of (counter_text (codes "0") (codes "0") (codes "1")) ≡ Ok (counter_unit 0 1) }
    ensures other { unit_of (counter_text (codes "7") (codes "0") (codes "1000")) ≡ Ok (counter_unit 7 1000) }
    ensures greatest { unit_of (counter_text (codes "65535") (codes "65535") (codes "50000")) ≡ Ok (counter_unit 18446744073709551615 50000) }
{}

/// In every history of the counter guest whose threads have all left with code 0, each counter holds at the end how often
/// the threads name it.
pub fn counters_hold_their_namings()
    ensures { (seed rounds budget index : ℕ) (size : Numbers) (history : List Entry) (ends : List GuestEnd) →
        65536 ≤ size.mem → AreInRange size.threads rounds → IsOutcome a32 (counter_image seed rounds size) size budget history ends → HaveLeft ends →
        index < 16 →
        value_at (monitor_after (at_rest_by size.granule (counter_image seed rounds size).bytes size.threads) (accesses_of history)).memory (counter_place index)
        ≡ namings_of seed size.threads rounds index }
{}

/// A thread of the counter guest that leaves with code 0, with these accesses and replies, has added 1 to the counter of each
/// of its rounds in order.
pub fn threads_try_in_each_round()
    ensures { (seed rounds budget t steps : ℕ) (size : Numbers) (pairs : List Pair) (output : List ℕ) →
        65536 ≤ size.mem → rounds ≤ 50000 →
        EndsOn a32 (counter_image seed rounds size) budget (thread_start a32 (counter_image seed rounds size) size size.threads t) pairs (Stop.Exit 0) steps output →
        AreTries (named_in (first_draw seed t) rounds) pairs }
{}
