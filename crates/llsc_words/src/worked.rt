//! Worked words of each command, and what they ask for, computed by the definitions.
ghost use Rattle.std.specs.Prelude.{◌≡◌, Some, codes};
ghost use Rattle.llsc_words.specs.Request.{default_budget, default_mem, load_rounds, load_threads, pool_slice, pool_workers, record_budget, run_classes, run_granule, run_limit, run_spare, run_threads, trace_budget, trace_granule, trace_seed, trace_threads};
ghost use Rattle.llsc_words.specs.Request.Request.{Assemble, Check, Disassemble, Explain, Load, Pool, Record, Run, Solo, Trace};
ghost use Rattle.llsc_words.specs.Worked.{asked_in};

use crate::formats::Format;
use crate::sets::SetName;

/// The numbers where none are given.
pub fn numbers_where_none_are_given()
    ensures memory { default_mem ≡ 1048576 }
    ensures budget { default_budget ≡ 100000000 }
    ensures run_threads { run_threads ≡ 2 }
    ensures run_spare { run_spare ≡ 0 }
    ensures run_granule { run_granule ≡ 0 }
    ensures run_classes { run_classes ≡ 4096 }
    ensures run_limit { run_limit ≡ 4611686018427387904 }
    ensures pool_workers { pool_workers ≡ 2 }
    ensures pool_slice { pool_slice ≡ 1000 }
    ensures record_budget { record_budget ≡ 10000 }
    ensures trace_threads { trace_threads ≡ 2 }
    ensures trace_granule { trace_granule ≡ 0 }
    ensures trace_seed { trace_seed ≡ 0 }
    ensures trace_budget { trace_budget ≡ 10000 }
    ensures load_threads { load_threads ≡ 2 }
    ensures load_rounds { load_rounds ≡ 1000 }
{}

/// Each command by itself: the file is an ELF file, and each number is the one where none is given.
#[tactic(auto, unfolding(crate::proofs::OnLiterals::words_on_literals))]
pub fn commands_by_themselves()
    ensures solo { asked_in (codes "solo p") ≡ Some (Solo (codes "p") Format.Elf 1048576 100000000) }
    ensures run { asked_in (codes "run p") ≡ Some (Run (codes "p") Format.Elf SetName.A32 2 0 (record { mem = 1048576; threads = 2; classes = 4096; limit = 4611686018427387904; granule = 0 }) 100000000) }
    ensures pool { asked_in (codes "pool p") ≡ Some (Pool (codes "p") Format.Elf (record { mem = 1048576; threads = 2; classes = 4096; limit = 4611686018427387904; granule = 0 }) 2 1000 100000000) }
    ensures record_run { asked_in (codes "record p") ≡ Some (Record (codes "p") Format.Elf (record { mem = 1048576; threads = 2; classes = 4096; limit = 4611686018427387904; granule = 0 }) 10000) }
    ensures assemble { asked_in (codes "asm p") ≡ Some (Assemble (codes "p") Format.Elf) }
    ensures disassemble { asked_in (codes "dis p") ≡ Some (Disassemble (codes "p") Format.Elf 1048576) }
    ensures trace { asked_in (codes "trace p") ≡ Some (Trace (codes "p") Format.Elf 2 1048576 0 0 10000) }
    ensures check { asked_in (codes "check p r") ≡ Some (Check (codes "p") (codes "r") Format.Elf 1048576) }
    ensures explain { asked_in (codes "explain p r") ≡ Some (Explain (codes "p") (codes "r") Format.Elf 1048576) }
    ensures load { asked_in (codes "load 7") ≡ Some (Load 7 2 1000 100000000) }
{}

/// Each command with all of its options: each number is the one behind its name.
#[tactic(auto, unfolding(crate::proofs::OnLiterals::words_on_literals))]
pub fn commands_with_all_options()
    ensures solo { asked_in (codes "solo --flat --mem 65536 --budget 42 guest.bin") ≡ Some (Solo (codes "guest.bin") Format.Flat 65536 42) }
    ensures run { asked_in (codes "run --flat --threads 3 --spare 2 --mem 69632 --granule 5 --classes 64 --limit 7 --budget 9 guest.bin")
        ≡ Some (Run (codes "guest.bin") Format.Flat SetName.A32 3 2 (record { mem = 69632; threads = 9; classes = 64; limit = 7; granule = 5 }) 9) }
    ensures pool { asked_in (codes "pool --flat --threads 3 --mem 69632 --granule 5 --classes 64 --limit 7 --workers 4 --slice 8 --budget 9 guest.bin")
        ≡ Some (Pool (codes "guest.bin") Format.Flat (record { mem = 69632; threads = 3; classes = 64; limit = 7; granule = 5 }) 4 8 9) }
    ensures record_run { asked_in (codes "record --flat --threads 3 --mem 69632 --granule 5 --classes 64 --limit 7 --budget 9 guest.bin")
        ≡ Some (Record (codes "guest.bin") Format.Flat (record { mem = 69632; threads = 3; classes = 64; limit = 7; granule = 5 }) 9) }
    ensures assemble { asked_in (codes "asm --flat guest.s") ≡ Some (Assemble (codes "guest.s") Format.Flat) }
    ensures disassemble { asked_in (codes "dis --flat --mem 73728 guest.bin") ≡ Some (Disassemble (codes "guest.bin") Format.Flat 73728) }
    ensures trace { asked_in (codes "trace --flat --threads 3 --mem 69632 --granule 5 --seed 12 --budget 9 guest.bin")
        ≡ Some (Trace (codes "guest.bin") Format.Flat 3 69632 5 12 9) }
    ensures check { asked_in (codes "check --flat --mem 77824 guest.bin record") ≡ Some (Check (codes "guest.bin") (codes "record") Format.Flat 77824) }
    ensures explain { asked_in (codes "explain --flat --mem 81920 guest.bin record") ≡ Some (Explain (codes "guest.bin") (codes "record") Format.Flat 81920) }
    ensures load { asked_in (codes "load --threads 16 --rounds 50000 --budget 8 41") ≡ Some (Load 41 16 50000 8) }
{}

/// A run by RISC-V instructions: everything else is as by those of Arm, and that a thread may start none may be said.
#[tactic(auto, unfolding(crate::proofs::OnLiterals::words_on_literals))]
pub fn runs_by_risc_v_instructions()
    ensures by_itself { asked_in (codes "run --rv p") ≡ Some (Run (codes "p") Format.Elf SetName.Rv32 2 0 (record { mem = 1048576; threads = 2; classes = 4096; limit = 4611686018427387904; granule = 0 }) 100000000) }
    ensures behind { asked_in (codes "run p --rv") ≡ asked_in (codes "run --rv p") }
    ensures none_to_start { asked_in (codes "run --rv --spare 0 p") ≡ asked_in (codes "run --rv p") }
    ensures all_options { asked_in (codes "run --flat --rv --threads 3 --spare=0 --mem 69632 --granule 5 --classes 64 --limit 7 --budget 9 guest.bin")
        ≡ Some (Run (codes "guest.bin") Format.Flat SetName.Rv32 3 0 (record { mem = 69632; threads = 3; classes = 64; limit = 7; granule = 5 }) 9) }
{}

/// Options, files and a seed stand in any order, of two files the program's first; a value is behind a name or joined to it; behind
/// `--` there are only files, and `-` is one.
#[tactic(auto, unfolding(crate::proofs::OnLiterals::words_on_literals))]
pub fn words_in_any_order()
    ensures behind { asked_in (codes "solo p --flat --mem 65536") ≡ Some (Solo (codes "p") Format.Flat 65536 100000000) }
    ensures around { asked_in (codes "check --mem 65536 p --flat r") ≡ Some (Check (codes "p") (codes "r") Format.Flat 65536) }
    ensures exchanged { asked_in (codes "check r p") ≡ Some (Check (codes "r") (codes "p") Format.Elf 1048576) }
    ensures seed { asked_in (codes "load --rounds 3 7 --threads 4") ≡ Some (Load 7 4 3 100000000) }
    ensures joined { asked_in (codes "trace --seed=5 p --threads=4") ≡ Some (Trace (codes "p") Format.Elf 4 1048576 0 5 10000) }
    ensures only_files { asked_in (codes "solo --flat -- --mem") ≡ Some (Solo (codes "--mem") Format.Flat 1048576 100000000) }
    ensures dash { asked_in (codes "check - -- -") ≡ Some (Check (codes "-") (codes "-") Format.Elf 1048576) }
    ensures command { asked_in (codes "run run") ≡ asked_in (codes "run -- run") }
{}
