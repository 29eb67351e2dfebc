//! Words that ask for nothing, computed by the definitions.
ghost use Rattle.std.specs.Prelude.{◌≡◌, [], None, codes};
ghost use Rattle.llsc_words.specs.Request.{request_of};
ghost use Rattle.llsc_words.specs.Worked.{asked_in};

/// No word, and words that don't begin with a command's whole name.
#[tactic(auto, unfolding(crate::proofs::OnLiterals::words_on_literals))]
pub fn words_of_no_command()
    ensures no_word { request_of [] ≡ None }
    ensures empty { asked_in (codes "") ≡ None }
    ensures unknown { asked_in (codes "walk p") ≡ None }
    ensures cut_short { asked_in (codes "sol p") ≡ None }
    ensures longer { asked_in (codes "solos p") ≡ None }
    ensures capital { asked_in (codes "Solo p") ≡ None }
    ensures behind_an_option { asked_in (codes "--flat solo p") ≡ None }
    ensures file { asked_in (codes "p") ≡ None }
{}

/// A file or a seed too few, and one too many.
#[tactic(auto, unfolding(crate::proofs::OnLiterals::words_on_literals))]
pub fn files_too_few_or_too_many()
    ensures solo_of_none { asked_in (codes "solo --flat") ≡ None }
    ensures solo_of_two { asked_in (codes "solo p q") ≡ None }
    ensures run_of_none { asked_in (codes "run") ≡ None }
    ensures run_of_two { asked_in (codes "run p --flat q") ≡ None }
    ensures pool_of_none { asked_in (codes "pool --workers 1") ≡ None }
    ensures pool_of_two { asked_in (codes "pool p q") ≡ None }
    ensures assemble_none { asked_in (codes "asm") ≡ None }
    ensures assemble_two { asked_in (codes "asm p q") ≡ None }
    ensures disassemble_none { asked_in (codes "dis") ≡ None }
    ensures disassemble_two { asked_in (codes "dis p q") ≡ None }
    ensures trace_of_none { asked_in (codes "trace --seed 7") ≡ None }
    ensures trace_of_two { asked_in (codes "trace p 7") ≡ None }
    ensures check_of_none { asked_in (codes "check") ≡ None }
    ensures check_of_one { asked_in (codes "check p") ≡ None }
    ensures check_of_three { asked_in (codes "check p r q") ≡ None }
    ensures explain_none { asked_in (codes "explain") ≡ None }
    ensures explain_one { asked_in (codes "explain p") ≡ None }
    ensures explain_three { asked_in (codes "explain p r q") ≡ None }
    ensures load_of_none { asked_in (codes "load") ≡ None }
    ensures load_of_two { asked_in (codes "load 7 8") ≡ None }
{}

/// A call for help or for the version is one for an option or a file that the command lacks.
#[tactic(auto, unfolding(crate::proofs::OnLiterals::words_on_literals))]
pub fn calls_for_help()
    ensures help { asked_in (codes "help") ≡ None }
    ensures option { asked_in (codes "--help") ≡ None }
    ensures solo { asked_in (codes "solo p --help") ≡ None }
    ensures run { asked_in (codes "run p --help") ≡ None }
    ensures pool { asked_in (codes "pool p --help") ≡ None }
    ensures assemble { asked_in (codes "asm p --help") ≡ None }
    ensures disassemble { asked_in (codes "dis p --help") ≡ None }
    ensures trace { asked_in (codes "trace p --help") ≡ None }
    ensures check { asked_in (codes "check p r --help") ≡ None }
    ensures explain { asked_in (codes "explain p r --help") ≡ None }
    ensures load { asked_in (codes "load 7 --help") ≡ None }
    ensures letter { asked_in (codes "solo p -h") ≡ None }
    ensures version { asked_in (codes "solo p --version") ≡ None }
{}

/// An option that is unknown, a value that is missing, and one of `--flat`; behind `--` there is no option.
#[tactic(auto, unfolding(crate::proofs::OnLiterals::words_on_literals))]
pub fn options_and_values_that_fail()
    ensures unknown { asked_in (codes "run p --budgets 1") ≡ None }
    ensures capital { asked_in (codes "solo p --Flat") ≡ None }
    ensures one_dash { asked_in (codes "solo p -flat") ≡ None }
    ensures letter { asked_in (codes "solo p -f") ≡ None }
    ensures no_value { asked_in (codes "solo p --mem") ≡ None }
    ensures option_for_a_value { asked_in (codes "solo p --mem --flat") ≡ None }
    ensures value_of_a_flag { asked_in (codes "solo p --flat=true") ≡ None }
    ensures empty_value_of_a_flag { asked_in (codes "solo p --flat=") ≡ None }
    ensures behind_all_options { asked_in (codes "solo -- p --flat") ≡ None }
{}

/// `--rv` for a command other than `run`, with threads that may start others, whatever else is out of range, twice, and with a value.
#[tactic(auto, unfolding(crate::proofs::OnLiterals::words_on_literals))]
pub fn calls_for_risc_v()
    ensures solo { asked_in (codes "solo --rv p") ≡ None }
    ensures pool { asked_in (codes "pool --rv p") ≡ None }
    ensures assemble { asked_in (codes "asm --rv p") ≡ None }
    ensures disassemble { asked_in (codes "dis --rv p") ≡ None }
    ensures trace { asked_in (codes "trace --rv p") ≡ None }
    ensures check { asked_in (codes "check --rv p r") ≡ None }
    ensures explain { asked_in (codes "explain --rv p r") ≡ None }
    ensures load { asked_in (codes "load --rv 7") ≡ None }
    ensures one_to_start { asked_in (codes "run --rv --spare 1 p") ≡ None }
    ensures one_to_start_said_before { asked_in (codes "run --spare 1 p --rv") ≡ None }
    ensures most_to_start { asked_in (codes "run --rv --spare 18446744073709551615 p") ≡ None }
    ensures one_to_start_in_no_memory { asked_in (codes "run --rv --spare 1 --mem 0 p") ≡ None }
    ensures twice { asked_in (codes "run --rv --rv p") ≡ None }
    ensures value { asked_in (codes "run --rv=true p") ≡ None }
{}
