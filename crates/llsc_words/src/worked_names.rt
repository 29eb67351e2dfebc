//! The names of commands, and of all that each takes, computed by the definitions.
ghost use Rattle.std.specs.Prelude.{◌≡◌, ◌∷◌, [], ℕ, List, None, Some, codes};
ghost use Rattle.clap.specs.Words.{Text};
ghost use Rattle.llsc_words.specs.Commands.{app_by, flag_rule, option_rule, positional_rule};
ghost use Rattle.llsc_words.specs.Names.{command_named};
ghost use Rattle.llsc_words.specs.Worked.{name_of, names_in};
ghost use Rattle.llsc_words.specs.declared.names.CommandName.{CommandName as Named};

use crate::names::CommandName;

/// A command has one name, and no other word names it.
#[tactic(auto, using(crate::proofs::Named::own_name, crate::proofs::Named::no_other_name))]
pub fn names_of_commands()
    ensures own { (command : Named) → command_named (name_of command) ≡ Some command }
    ensures no_other { (word : List ℕ) (command : Named) → command_named word ≡ Some command → word ≡ name_of command }
{}

/// All that each command takes, by name.
#[tactic(auto, unfolding(crate::proofs::OnLiterals::words_on_literals))]
pub fn names_that_commands_take()
    ensures solo { names_in (app_by CommandName.Solo) ≡ codes "FILE" ∷ codes "flat" ∷ codes "mem" ∷ codes "budget" ∷ [] }
    ensures run { names_in (app_by CommandName.Run)
        ≡ codes "FILE" ∷ codes "flat" ∷ codes "threads" ∷ codes "mem" ∷ codes "granule" ∷ codes "classes" ∷ codes "limit" ∷ codes "budget" ∷ codes "spare" ∷ codes "rv" ∷ [] }
    ensures pool { names_in (app_by CommandName.Pool)
        ≡ codes "FILE" ∷ codes "flat" ∷ codes "threads" ∷ codes "mem" ∷ codes "granule" ∷ codes "classes" ∷ codes "limit" ∷ codes "budget" ∷ codes "workers" ∷ codes "slice" ∷ [] }
    ensures record_run { names_in (app_by CommandName.Record)
        ≡ codes "FILE" ∷ codes "flat" ∷ codes "threads" ∷ codes "mem" ∷ codes "granule" ∷ codes "classes" ∷ codes "limit" ∷ codes "budget" ∷ [] }
    ensures assemble { names_in (app_by CommandName.Asm) ≡ codes "FILE" ∷ codes "flat" ∷ [] }
    ensures disassemble { names_in (app_by CommandName.Dis) ≡ codes "FILE" ∷ codes "flat" ∷ codes "mem" ∷ [] }
    ensures trace { names_in (app_by CommandName.Trace)
        ≡ codes "FILE" ∷ codes "flat" ∷ codes "threads" ∷ codes "mem" ∷ codes "granule" ∷ codes "seed" ∷ codes "budget" ∷ [] }
    ensures check { names_in (app_by CommandName.Check) ≡ codes "FILE" ∷ codes "RECORD" ∷ codes "flat" ∷ codes "mem" ∷ [] }
    ensures explain { names_in (app_by CommandName.Explain) ≡ codes "FILE" ∷ codes "RECORD" ∷ codes "flat" ∷ codes "mem" ∷ [] }
    ensures load { names_in (app_by CommandName.Load) ≡ codes "SEED" ∷ codes "threads" ∷ codes "rounds" ∷ codes "budget" ∷ [] }
{}

/// An option and a flag stand behind their one name, and none behind a letter; what stands by itself has no name before it.
pub fn names_of_options()
    ensures option { (name : Text) → (option_rule name).long ≡ Some name }
    ensures option_by_no_other { (name : Text) → (option_rule name).aliases ≡ [] }
    ensures option_by_no_letter { (name : Text) → (option_rule name).short ≡ None }
    ensures flag { (name : Text) → (flag_rule name).long ≡ Some name }
    ensures flag_by_no_other { (name : Text) → (flag_rule name).aliases ≡ [] }
    ensures flag_by_no_letter { (name : Text) → (flag_rule name).short ≡ None }
    ensures positional { (name : Text) → (positional_rule name).long ≡ None }
    ensures positional_by_no_letter { (name : Text) → (positional_rule name).short ≡ None }
{}
