//! Worked cases of the table of guest calls, and of the accesses of a thread as its run has them.
ghost use Rattle.std.specs.Prelude.{◌≡◌, ◌∷◌, [], false, true};
ghost use Rattle.guest_calls.specs.Bound.{most_accesses_in};
ghost use Rattle.guest_calls.specs.Calls.{answers, call_effect, exits, write_effect, writes_bytes};
ghost use Rattle.guest_calls.specs.Pairs.{pair_of, pairs_in, pairs_of, reply_of};
ghost use Rattle.guest_calls.specs.Run.{byte_loads};
ghost use Rattle.guest_calls.specs.Steps.{HaveRoom};
ghost use Rattle.guest_calls.specs.Worked.{byte_at, call, word};

use crate::calls::CallStep;
use history::{Cause, Deed, Entry};
use llsc_base::Ask;

/// Exit leaves with the low byte of its first argument, write goes by its own rules, and sched_yield is answered by 0; every other number is
/// answered by minus 38, and so is every number with another immediate.
pub fn calls_by_number()
    ensures exit { call_effect (call 1 261 0 0) 16 0 ≡ exits 5 }
    ensures exit_greatest { call_effect (call 1 255 0 0) 16 0 ≡ exits 255 }
    ensures write { call_effect (call 4 1 8 2) 16 0 ≡ writes_bytes 8 2 }
    ensures bad_write { call_effect (call 4 1 15 2) 16 0 ≡ answers 0xFFFFFFF2 }
    ensures full_write { call_effect (call 4 1 8 2) 16 65535 ≡ answers 0xFFFFFFE4 }
    ensures sched_yield { call_effect (call 158 5 8 2) 16 0 ≡ answers 0 }
    ensures nought { call_effect (call 0 1 8 2) 16 0 ≡ answers 0xFFFFFFDA }
    ensures read { call_effect (call 3 1 8 2) 16 0 ≡ answers 0xFFFFFFDA }
    ensures behind_sched_yield { call_effect (call 159 1 8 2) 16 0 ≡ answers 0xFFFFFFDA }
    ensures another_immediate { call_effect (record { imm = 1; number = 1; a = 5; b = 0; c = 0 }) 16 0 ≡ answers 0xFFFFFFDA }
{}

/// A write is by the first rule that fits: to descriptors 1 and 2 alone; of no bytes wherever they are; up to the end of
/// memory, which an address doesn't pass by going on at 0; and up to 65,536 bytes in all.
pub fn writes_by_rule()
    ensures descriptor_1 { write_effect 1 8 2 16 0 ≡ writes_bytes 8 2 }
    ensures descriptor_2 { write_effect 2 8 2 16 0 ≡ writes_bytes 8 2 }
    ensures descriptor_0 { write_effect 0 8 2 16 0 ≡ answers 0xFFFFFFF7 }
    ensures descriptor_3 { write_effect 3 8 2 16 0 ≡ answers 0xFFFFFFF7 }
    ensures descriptor_first { write_effect 0 20 0 16 65536 ≡ answers 0xFFFFFFF7 }
    ensures no_bytes { write_effect 1 20 0 16 65536 ≡ answers 0 }
    ensures to_the_end { write_effect 1 14 2 16 0 ≡ writes_bytes 14 2 }
    ensures past_the_end { write_effect 1 15 2 16 0 ≡ answers 0xFFFFFFF2 }
    ensures not_from_0_again { write_effect 1 4294967295 2 16 0 ≡ answers 0xFFFFFFF2 }
    ensures address_before_room { write_effect 1 15 2 16 65535 ≡ answers 0xFFFFFFF2 }
    ensures last_room { write_effect 1 8 2 16 65534 ≡ writes_bytes 8 2 }
    ensures no_room { write_effect 1 8 2 16 65535 ≡ answers 0xFFFFFFE4 }
{}

/// Bytes that are to be loaded are some, lie in memory, and have room in the output.
pub fn room_for_bytes()
    ensures last_room { HaveRoom 16 65534 (CallStep.Bytes 14 2) }
    ensures no_bytes { ¬ HaveRoom 16 0 (CallStep.Bytes 8 0) }
    ensures past_the_end { ¬ HaveRoom 16 0 (CallStep.Bytes 15 2) }
    ensures no_room { ¬ HaveRoom 16 65535 (CallStep.Bytes 8 2) }
{}

/// The bytes of a write are loaded one by one, from its address up.
pub fn loads_of_bytes()
    ensures none { byte_loads 8 [] ≡ [] }
    ensures two { byte_loads 8 (104 ∷ 105 ∷ []) ≡ (Ask.Load (byte_at 8), 104) ∷ (Ask.Load (byte_at 9), 105) ∷ [] }
{}

/// An access is what its thread asked with the reply that it had: the value of a load, 0 of a store, and 0 or 1 of a
/// store-exclusive that stored or failed.
pub fn replies_to_accesses()
    ensures load { pair_of (Entry.Read 0 word 7 false) ≡ (Ask.Load word, 7) }
    ensures load_exclusive { pair_of (Entry.Read 0 word 7 true) ≡ (Ask.LoadEx word, 7) }
    ensures store { pair_of (Entry.Write 0 word 7 false) ≡ (Ask.Store word 7, 0) }
    ensures store_exclusive { pair_of (Entry.Write 0 word 7 true) ≡ (Ask.StoreEx word 7, 0) }
    ensures failed { pair_of (Entry.Fail 0 word 7 Cause.Lost) ≡ (Ask.StoreEx word 7, 1) }
    ensures clear { pair_of (Entry.Clear 0) ≡ (Ask.Clear, 0) }
{}

/// The same of an access of a record.
pub fn replies_in_a_record()
    ensures load { reply_of (record { thread = 0; deed = Deed.Load; place = word; value = 7 }) ≡ 7 }
    ensures load_exclusive { reply_of (record { thread = 0; deed = Deed.LoadEx; place = word; value = 7 }) ≡ 7 }
    ensures store { reply_of (record { thread = 0; deed = Deed.Store; place = word; value = 7 }) ≡ 0 }
    ensures store_exclusive { reply_of (record { thread = 0; deed = Deed.StoreEx; place = word; value = 7 }) ≡ 0 }
    ensures failed { reply_of (record { thread = 0; deed = Deed.StoreFail; place = word; value = 7 }) ≡ 1 }
    ensures clear { reply_of (record { thread = 0; deed = Deed.Clear; place = byte_at 0; value = 0 }) ≡ 0 }
{}

/// A thread has its own accesses in their order, and nothing of the marks of a history or of another thread's accesses.
pub fn accesses_of_a_thread()
    ensures own { pairs_of 0 (Entry.Watch 0 word ∷ Entry.Read 0 word 7 true ∷ Entry.Miss 1 word ∷ Entry.Read 1 word 7 true ∷ Entry.Begin 0 word
        ∷ Entry.Write 0 word 9 true ∷ Entry.End 0 word ∷ Entry.Fail 1 word 9 Cause.Absent ∷ Entry.Clear 0 ∷ [])
        ≡ (Ask.LoadEx word, 7) ∷ (Ask.StoreEx word 9, 0) ∷ (Ask.Clear, 0) ∷ [] }
    ensures of_another { pairs_of 1 (Entry.Watch 0 word ∷ Entry.Read 0 word 7 true ∷ Entry.Miss 1 word ∷ Entry.Read 1 word 7 true ∷ Entry.Begin 0 word
        ∷ Entry.Write 0 word 9 true ∷ Entry.End 0 word ∷ Entry.Fail 1 word 9 Cause.Absent ∷ Entry.Clear 0 ∷ [])
        ≡ (Ask.LoadEx word, 7) ∷ (Ask.StoreEx word 9, 1) ∷ [] }
    ensures in_a_record { pairs_in 1
        (record { thread = 1; deed = Deed.Load; place = word; value = 7 }
        ∷ record { thread = 0; deed = Deed.Load; place = word; value = 7 }
        ∷ record { thread = 1; deed = Deed.StoreFail; place = word; value = 9 }
        ∷ [])
        ≡ (Ask.Load word, 7) ∷ (Ask.StoreEx word 9, 1) ∷ [] }
{}

/// The most accesses of a thread are 65,552 before its first step is over, and 16 more for each step.
pub fn most_accesses_by_steps()
    ensures none { most_accesses_in 0 ≡ 65552 }
    ensures one { most_accesses_in 1 ≡ 65568 }
    ensures budget { most_accesses_in 1000000000000 ≡ 16000000065552 }
{}
