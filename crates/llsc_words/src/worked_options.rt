//! Which options each command takes, computed by the definitions.
ghost use Rattle.std.specs.Prelude.{◌≡◌, ◌∷◌, ◌++◌, [], codes};
ghost use Rattle.llsc_words.specs.Worked.{bare, joined_to, shortened, taken, taken_by_any, with_value};

/// Of all options each command takes these with a value, and no other.
#[tactic(auto, unfolding(crate::proofs::OnLiterals::words_on_literals))]
pub fn options_with_a_value()
    ensures solo { taken (with_value (codes "1")) (codes "solo p") ≡ codes "mem" ∷ codes "budget" ∷ [] }
    ensures run { taken (with_value (codes "1")) (codes "run p")
        ≡ codes "threads" ∷ codes "spare" ∷ codes "mem" ∷ codes "granule" ∷ codes "classes" ∷ codes "limit" ∷ codes "budget" ∷ [] }
    ensures pool { taken (with_value (codes "1")) (codes "pool p")
        ≡ codes "threads" ∷ codes "mem" ∷ codes "granule" ∷ codes "classes" ∷ codes "limit" ∷ codes "workers" ∷ codes "slice" ∷ codes "budget" ∷ [] }
    ensures record_run { taken (with_value (codes "1")) (codes "record p")
        ≡ codes "threads" ∷ codes "mem" ∷ codes "granule" ∷ codes "classes" ∷ codes "limit" ∷ codes "budget" ∷ [] }
    ensures assemble { taken (with_value (codes "1")) (codes "asm p") ≡ [] }
    ensures disassemble { taken (with_value (codes "1")) (codes "dis p") ≡ codes "mem" ∷ [] }
    ensures trace { taken (with_value (codes "1")) (codes "trace p")
        ≡ codes "threads" ∷ codes "mem" ∷ codes "granule" ∷ codes "seed" ∷ codes "budget" ∷ [] }
    ensures check { taken (with_value (codes "1")) (codes "check p r") ≡ codes "mem" ∷ [] }
    ensures explain { taken (with_value (codes "1")) (codes "explain p r") ≡ codes "mem" ∷ [] }
    ensures load { taken (with_value (codes "1")) (codes "load 7") ≡ codes "threads" ∷ codes "rounds" ∷ codes "budget" ∷ [] }
{}

/// A value may be joined to the name of its option.
#[tactic(auto, unfolding(crate::proofs::OnLiterals::words_on_literals))]
pub fn options_with_a_value_joined_to_them()
    ensures solo { taken (joined_to (codes "1")) (codes "solo p") ≡ codes "mem" ∷ codes "budget" ∷ [] }
    ensures run { taken (joined_to (codes "1")) (codes "run p")
        ≡ codes "threads" ∷ codes "spare" ∷ codes "mem" ∷ codes "granule" ∷ codes "classes" ∷ codes "limit" ∷ codes "budget" ∷ [] }
    ensures pool { taken (joined_to (codes "1")) (codes "pool p")
        ≡ codes "threads" ∷ codes "mem" ∷ codes "granule" ∷ codes "classes" ∷ codes "limit" ∷ codes "workers" ∷ codes "slice" ∷ codes "budget" ∷ [] }
    ensures record_run { taken (joined_to (codes "1")) (codes "record p")
        ≡ codes "threads" ∷ codes "mem" ∷ codes "granule" ∷ codes "classes" ∷ codes "limit" ∷ codes "budget" ∷ [] }
    ensures assemble { taken (joined_to (codes "1")) (codes "asm p") ≡ [] }
    ensures disassemble { taken (joined_to (codes "1")) (codes "dis p") ≡ codes "mem" ∷ [] }
    ensures trace { taken (joined_to (codes "1")) (codes "trace p")
        ≡ codes "threads" ∷ codes "mem" ∷ codes "granule" ∷ codes "seed" ∷ codes "budget" ∷ [] }
    ensures check { taken (joined_to (codes "1")) (codes "check p r") ≡ codes "mem" ∷ [] }
    ensures explain { taken (joined_to (codes "1")) (codes "explain p r") ≡ codes "mem" ∷ [] }
    ensures load { taken (joined_to (codes "1")) (codes "load 7") ≡ codes "threads" ∷ codes "rounds" ∷ codes "budget" ∷ [] }
{}

/// Each command of a program's file takes `--flat`, `run` takes `--rv` besides, and none takes another option with no value.
#[tactic(auto, unfolding(crate::proofs::OnLiterals::words_on_literals))]
pub fn options_with_no_value()
    ensures solo { taken bare (codes "solo p") ≡ codes "flat" ∷ [] }
    ensures run { taken bare (codes "run p") ≡ codes "flat" ∷ codes "rv" ∷ [] }
    ensures pool { taken bare (codes "pool p") ≡ codes "flat" ∷ [] }
    ensures record_run { taken bare (codes "record p") ≡ codes "flat" ∷ [] }
    ensures assemble { taken bare (codes "asm p") ≡ codes "flat" ∷ [] }
    ensures disassemble { taken bare (codes "dis p") ≡ codes "flat" ∷ [] }
    ensures trace { taken bare (codes "trace p") ≡ codes "flat" ∷ [] }
    ensures check { taken bare (codes "check p r") ≡ codes "flat" ∷ [] }
    ensures explain { taken bare (codes "explain p r") ≡ codes "flat" ∷ [] }
    ensures load { taken bare (codes "load 7") ≡ [] }
{}

/// No command takes an option twice, or cut short by a letter.
#[tactic(auto, unfolding(crate::proofs::OnLiterals::words_on_literals))]
pub fn options_of_no_command()
    ensures twice { taken_by_any (λ name. with_value (codes "1") name ++ with_value (codes "1") name) ≡ [] }
    ensures twice_with_other_values { taken_by_any (λ name. with_value (codes "1") name ++ joined_to (codes "2") name) ≡ [] }
    ensures twice_with_no_value { taken_by_any (λ name. bare name ++ bare name) ≡ [] }
    ensures cut_short { taken_by_any (λ name. with_value (codes "1") (shortened name)) ≡ [] }
    ensures cut_short_with_no_value { taken_by_any (λ name. bare (shortened name)) ≡ [] }
{}
