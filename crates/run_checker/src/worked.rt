//! Worked cases of what an access is compared with, what its thread asks and memory, and the names of reasons.
ghost use Rattle.std.specs.Prelude.{◌≡◌, ◌∷◌, [], codes, false, true};
ghost use Rattle.run_checker.specs.Verdict.{HasWrongValue, LacksMark, is_asked, is_load, is_place, reason_name};
ghost use Rattle.run_checker.specs.Worked.{access_as, beside, low_byte, next_row, word, zeros_after};

use crate::verdicts::Reason;
use history::{Deed, Entry};
use llsc_base::Ask;

/// Places are the same where their addresses and their sizes are.
pub fn same_places()
    ensures same { is_place word word ≡ true }
    ensures another_address { is_place word beside ≡ false }
    ensures another_size { is_place word low_byte ≡ false }
{}

/// A load is what was asked at the same place and as exclusive, whatever its value.
pub fn loads_as_asked()
    ensures plain { is_asked (Ask.Load word) (access_as Deed.Load word 5) ≡ true }
    ensures exclusive { is_asked (Ask.LoadEx word) (access_as Deed.LoadEx word 5) ≡ true }
    ensures elsewhere { is_asked (Ask.Load word) (access_as Deed.Load beside 5) ≡ false }
    ensures exclusive_elsewhere { is_asked (Ask.LoadEx word) (access_as Deed.LoadEx beside 5) ≡ false }
    ensures another_size { is_asked (Ask.Load word) (access_as Deed.Load low_byte 5) ≡ false }
    ensures exclusive_another_size { is_asked (Ask.LoadEx word) (access_as Deed.LoadEx low_byte 5) ≡ false }
    ensures as_exclusive { is_asked (Ask.Load word) (access_as Deed.LoadEx word 5) ≡ false }
    ensures as_plain { is_asked (Ask.LoadEx word) (access_as Deed.Load word 5) ≡ false }
    ensures as_store { is_asked (Ask.Load word) (access_as Deed.Store word 5) ≡ false }
    ensures as_store_exclusive { is_asked (Ask.LoadEx word) (access_as Deed.StoreEx word 5) ≡ false }
{}

/// A plain store is what was asked at the same place with the same value.
pub fn stores_as_asked()
    ensures plain { is_asked (Ask.Store word 5) (access_as Deed.Store word 5) ≡ true }
    ensures another_value { is_asked (Ask.Store word 5) (access_as Deed.Store word 6) ≡ false }
    ensures elsewhere { is_asked (Ask.Store word 5) (access_as Deed.Store beside 5) ≡ false }
    ensures another_size { is_asked (Ask.Store word 5) (access_as Deed.Store low_byte 5) ≡ false }
    ensures as_exclusive { is_asked (Ask.Store word 5) (access_as Deed.StoreEx word 5) ≡ false }
    ensures as_failed { is_asked (Ask.Store word 5) (access_as Deed.StoreFail word 5) ≡ false }
    ensures as_load { is_asked (Ask.Store word 5) (access_as Deed.Load word 5) ≡ false }
{}

/// A store-exclusive is what was asked at the same place with the same value, whether it stored or failed.
pub fn store_exclusives_as_asked()
    ensures stored { is_asked (Ask.StoreEx word 5) (access_as Deed.StoreEx word 5) ≡ true }
    ensures failed { is_asked (Ask.StoreEx word 5) (access_as Deed.StoreFail word 5) ≡ true }
    ensures stored_another_value { is_asked (Ask.StoreEx word 5) (access_as Deed.StoreEx word 6) ≡ false }
    ensures failed_another_value { is_asked (Ask.StoreEx word 5) (access_as Deed.StoreFail word 6) ≡ false }
    ensures stored_elsewhere { is_asked (Ask.StoreEx word 5) (access_as Deed.StoreEx beside 5) ≡ false }
    ensures failed_elsewhere { is_asked (Ask.StoreEx word 5) (access_as Deed.StoreFail beside 5) ≡ false }
    ensures as_plain { is_asked (Ask.StoreEx word 5) (access_as Deed.Store word 5) ≡ false }
{}

/// A CLREX is what was asked where it was, and nothing else is.
pub fn clears_as_asked()
    ensures clear { is_asked Ask.Clear (access_as Deed.Clear low_byte 0) ≡ true }
    ensures as_load { is_asked Ask.Clear (access_as Deed.Load low_byte 0) ≡ false }
    ensures as_failed { is_asked Ask.Clear (access_as Deed.StoreFail low_byte 0) ≡ false }
    ensures in_place_of_a_load { is_asked (Ask.Load low_byte) (access_as Deed.Clear low_byte 0) ≡ false }
    ensures in_place_of_a_store { is_asked (Ask.StoreEx low_byte 0) (access_as Deed.Clear low_byte 0) ≡ false }
{}

/// Of the deeds, two are loads.
pub fn deeds_that_load()
    ensures load { is_load Deed.Load ≡ true }
    ensures load_exclusive { is_load Deed.LoadEx ≡ true }
    ensures store { is_load Deed.Store ≡ false }
    ensures store_exclusive { is_load Deed.StoreEx ≡ false }
    ensures failed { is_load Deed.StoreFail ≡ false }
    ensures clear { is_load Deed.Clear ≡ false }
{}

/// A load has a wrong value where memory has another one at its place, and a store has none.
pub fn wrong_values()
    ensures load { HasWrongValue (zeros_after 0 []) (access_as Deed.Load word 5) }
    ensures load_exclusive { HasWrongValue (zeros_after 0 []) (access_as Deed.LoadEx word 5) }
    ensures stale { HasWrongValue (zeros_after 0 (Entry.Write 0 word 5 false ∷ [])) (access_as Deed.Load word 0) }
    ensures memorys { ¬ HasWrongValue (zeros_after 0 []) (access_as Deed.Load word 0) }
    ensures stored { ¬ HasWrongValue (zeros_after 0 (Entry.Write 0 word 5 false ∷ [])) (access_as Deed.LoadEx word 5) }
    ensures store { ¬ HasWrongValue (zeros_after 0 []) (access_as Deed.Store word 5) }
{}

/// A store-exclusive that stored lacks its mark where its thread isn't marked on the row, whose width is by the
/// granule; one that failed and a plain store need none.
pub fn marks_that_are_lacking()
    ensures unmarked { LacksMark (zeros_after 0 []) (access_as Deed.StoreEx word 5) }
    ensures marked_elsewhere { LacksMark (zeros_after 0 (Entry.Read 0 next_row 0 true ∷ [])) (access_as Deed.StoreEx word 5) }
    ensures marked { ¬ LacksMark (zeros_after 0 (Entry.Read 0 word 0 true ∷ [])) (access_as Deed.StoreEx word 5) }
    ensures marked_beside { ¬ LacksMark (zeros_after 0 (Entry.Read 0 beside 0 true ∷ [])) (access_as Deed.StoreEx word 5) }
    ensures wider_row { ¬ LacksMark (zeros_after 1 (Entry.Read 0 next_row 0 true ∷ [])) (access_as Deed.StoreEx word 5) }
    ensures failed { ¬ LacksMark (zeros_after 0 []) (access_as Deed.StoreFail word 5) }
    ensures plain { ¬ LacksMark (zeros_after 0 []) (access_as Deed.Store word 5) }
{}

/// Each reason has its variant's name.
pub fn names_of_reasons()
    ensures after_stop { reason_name Reason.AfterStop ≡ codes "AfterStop" }
    ensures not_asked { reason_name Reason.NotAsked ≡ codes "NotAsked" }
    ensures wrong_value { reason_name Reason.WrongValue ≡ codes "WrongValue" }
    ensures no_reservation { reason_name Reason.NoReservation ≡ codes "NoReservation" }
    ensures unfinished { reason_name Reason.Unfinished ≡ codes "Unfinished" }
{}
