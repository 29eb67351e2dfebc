//! Worked cases of the machines that commands run on, and of what is too long or too many, computed by the definitions.
ghost use Rattle.std.specs.Prelude.{◌≡◌, ◌∷◌, [], None, Some, codes};
ghost use Rattle.a32_asm.specs.Assembled.{most_text};
ghost use Rattle.llsc_call.specs.Check.{most_record};
ghost use Rattle.llsc_call.specs.Load.{guest_refusal, load_refusal, load_size};
ghost use Rattle.llsc_files.specs.Refusals.{machine_of, most_program, solo_size, too_long};

/// A machine has 4096 classes, of 4,611,686,018,427,387,904 writes each; that of `solo` has one thread and rows of eight bytes,
/// and that of `load` so many bytes and rows of eight bytes.
pub fn machines_of_commands()
    ensures machine { machine_of 65536 3 5 ≡ record { mem = 65536; threads = 3; classes = 4096; limit = 4611686018427387904; granule = 5 } }
    ensures solo { solo_size 69632 ≡ record { mem = 69632; threads = 1; classes = 4096; limit = 4611686018427387904; granule = 0 } }
    ensures load { load_size 7 ≡ record { mem = 1048576; threads = 7; classes = 4096; limit = 4611686018427387904; granule = 0 } }
{}

/// How many bytes a program's file, a record and a text may have; a file is too long that has a byte more than it may.
pub fn longest_files()
    ensures program { most_program ≡ 33554432 }
    ensures record_ { most_record ≡ 67108864 }
    ensures text { most_text ≡ 4194304 }
    ensures within { too_long 2 (9 ∷ 8 ∷ []) ≡ None }
    ensures a_byte_more { too_long 2 (9 ∷ 8 ∷ 7 ∷ []) ≡ Some (codes "FileTooLong") }
{}

/// A load has 1 to 16 threads, and then 1 to 50,000 rounds.
pub fn numbers_of_loads()
    ensures least { load_refusal 1 1 ≡ None }
    ensures greatest { load_refusal 16 50000 ≡ None }
    ensures no_thread { load_refusal 0 1 ≡ Some (codes "Threads") }
    ensures too_many_threads { load_refusal 17 1 ≡ Some (codes "Threads") }
    ensures no_round { load_refusal 1 0 ≡ Some (codes "Range") }
    ensures too_many_rounds { load_refusal 1 50001 ≡ Some (codes "Range") }
    ensures threads_first { load_refusal 0 0 ≡ Some (codes "Threads") }
    ensures no_guest { guest_refusal 17 1 ≡ Some (codes "Range") }
{}
