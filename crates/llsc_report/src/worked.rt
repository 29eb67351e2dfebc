//! Worked texts of a report and of a summary, computed by the definitions.
ghost use Rattle.std.specs.Prelude.{◌≡◌, ◌∷◌, [], codes};
ghost use Rattle.guest_thread.specs.Worked.{end_of};
ghost use Rattle.llsc_report.specs.Report.{head_line, last_line, stop_text};
ghost use Rattle.llsc_report.specs.Summary.{load_line};

use llsc_base::Stop;

/// A stop is shown by its name and its number: a code in decimal, an address as eight digits, and where the steps are spent
/// the budget.
#[tactic(auto, unfolding(number_text::specs::Hexadecimal::word_text, number_text::specs::Hexadecimal::half_text))]
pub fn texts_of_stops()
    ensures exit { stop_text 42 (Stop.Exit 7) ≡ codes "exit 7" }
    ensures undefined { stop_text 42 (Stop.Undefined 32768) ≡ codes "undefined 00008000" }
    ensures unpredictable { stop_text 42 (Stop.Unpredictable 4) ≡ codes "unpredictable 00000004" }
    ensures alignment { stop_text 42 (Stop.Alignment 4294967295) ≡ codes "alignment ffffffff" }
    ensures outside { stop_text 42 (Stop.Outside 1048576) ≡ codes "outside 00100000" }
    ensures read_only { stop_text 42 (Stop.ReadOnly 16) ≡ codes "readonly 00000010" }
    ensures thumb { stop_text 42 (Stop.Thumb 65532) ≡ codes "thumb 0000fffc" }
    ensures budget { stop_text 42 Stop.Budget ≡ codes "budget 42" }
    ensures tag_limit { stop_text 42 (Stop.TagLimit 305419896) ≡ codes "taglimit 12345678" }
{}

/// The budget, the steps, the counts of all threads together and a seed are shown whole, also where 32 bits don't hold them.
pub fn texts_of_great_numbers()
    ensures stop { stop_text 1000000000000 Stop.Budget ≡ codes "budget 1000000000000" }
    ensures thread { head_line 1000000000000 (end_of 15 Stop.Budget 1000000000000 0 0 0)
        ≡ codes "thread 15 stop budget 1000000000000 steps 1000000000000 out 0\n" }
    ensures counts { last_line (end_of 0 (Stop.Exit 0) 9 4294967295 4294967296 0 ∷ end_of 1 (Stop.Exit 0) 9 1 4294967296 4294967297 ∷ [])
        ≡ codes "reads 4294967296 writes 8589934592 fails 4294967297\n" }
    ensures load { load_line 18446744073709551615 16 50000 ≡ codes "load seed 18446744073709551615 threads 16 rounds 50000\n" }
{}
