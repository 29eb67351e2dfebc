//! Worked cases of which place a call names, of what stands against one, of the numbers that a handle has, of when a store meets a
//! write, and of the bytes that a memory is left with. There is one class, into which the next row falls, too.
ghost use Rattle.std.specs.Prelude.{◌≡◌, ◌++◌, ◌∷◌, [], false, true, None, Some, replicate};
ghost use Rattle.history.specs.Worked.{next_row, small_machine, word};
ghost use Rattle.shared_memory.specs.Worked.{alone, below, limited_machine, made};
ghost use Rattle.version_memory.specs.Exact.{IsContended};
ghost use Rattle.memory_handle.specs.Accesses.{IsPlaceOf};
ghost use Rattle.memory_handle.specs.Faults.{first_of, place_fault, value_fault};
ghost use Rattle.memory_handle.specs.Left.{bytes_left};
ghost use Rattle.memory_handle.specs.Numbers.{AreFrom};

use crate::misuse::Misuse;
use history::Entry;

/// A place is that of so many bytes from an address up.
pub fn places_of_calls()
    ensures word { IsPlaceOf 8 4 word }
    ensures narrower { ¬ IsPlaceOf 8 2 word }
    ensures elsewhere { ¬ IsPlaceOf 12 4 word }
{}

/// Against a place stands its width, else its end, else its address.
pub fn misuses_of_places()
    ensures last_word { place_fault 65536 65532 4 ≡ None }
    ensures width { place_fault 65536 65537 3 ≡ Some Misuse.Width }
    ensures outside { place_fault 65536 65533 4 ≡ Some Misuse.Outside }
    ensures far { place_fault 65536 4294967296 4 ≡ Some Misuse.Outside }
    ensures alignment { place_fault 65536 65531 4 ≡ Some Misuse.Alignment }
{}

/// A value is below 256 to the width; and of two faults the first counts.
pub fn misuses_of_values()
    ensures greatest { value_fault 1 255 ≡ None }
    ensures one_more { value_fault 1 256 ≡ Some Misuse.Value }
    ensures greatest_of_all { value_fault 8 18446744073709551615 ≡ None }
    ensures place_first { first_of (place_fault 65536 2 4) (value_fault 4 4294967296) ≡ Some Misuse.Alignment }
    ensures value_alone { first_of (place_fault 65536 4 4) (value_fault 4 4294967296) ≡ Some Misuse.Value }
{}

/// A handle has the threads from its first one on, up to the one behind its last, and no others.
pub fn numbers_of_handles()
    ensures two { AreFrom 0 2 (below 2) }
    ensures one { AreFrom 3 4 (alone 3) }
    ensures one_more { ¬ AreFrom 0 3 (below 2) }
    ensures one_less { ¬ AreFrom 1 2 (below 2) }
{}

/// A store meets a write where a write of the class is in flight, or one has begun since the thread last looked, and not where there
/// was none.
pub fn stores_that_meet_a_write()
    ensures in_flight { IsContended (limited_machine 1 2) word (Entry.Begin 1 next_row ∷ []) (Entry.Begin 1 next_row ∷ []) }
    ensures begun_since { IsContended (limited_machine 1 2) word [] (Entry.Begin 1 word ∷ Entry.Write 1 word 5 false ∷ Entry.End 1 word ∷ []) }
    ensures none { ¬ IsContended (limited_machine 1 2) word [] [] }
{}

/// A memory is left with the bytes of all its cells, the first one's first, and of each the least significant first.
#[tactic(auto, unfolding(llsc_base::specs::Memory::row_of, llsc_base::specs::Memory::number_of, llsc_base::specs::Memory::bytes_of, row_bytes::specs::Cell::bytes_of_cells))]
pub fn bytes_that_are_left()
    ensures first { bytes_left (made (record (small_machine 1) { mem = 32 }) true) [] ≡ replicate 32 0 }
    ensures stored { bytes_left (made (record (small_machine 1) { mem = 32 }) true) (Entry.Begin 0 word ∷ Entry.Write 0 word 258 false ∷ Entry.End 0 word ∷ [])
        ≡ replicate 8 0 ++ 2 ∷ 1 ∷ replicate 22 0 }
{}
