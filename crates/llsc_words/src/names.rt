//! The commands by their names.
ghost use Rattle.std.specs.Prelude.{◌≡◌};
ghost use Rattle.llsc_words.specs.Names.{command_named};

/// A command of the program.
#[derive(Clone, Copy)]
pub enum CommandName {
    Solo,
    Run,
    Pool,
    Record,
    Asm,
    Dis,
    Trace,
    Check,
    Explain,
    Load,
}

/// The command of that name.
pub fn command_named(word: &str) -> Option<CommandName>
    ensures { result ≡ command_named word.now }
{
    match word {
        "solo" => Some(CommandName::Solo),
        "run" => Some(CommandName::Run),
        "pool" => Some(CommandName::Pool),
        "record" => Some(CommandName::Record),
        "asm" => Some(CommandName::Asm),
        "dis" => Some(CommandName::Dis),
        "trace" => Some(CommandName::Trace),
        "check" => Some(CommandName::Check),
        "explain" => Some(CommandName::Explain),
        "load" => Some(CommandName::Load),
        _ => None,
    }
}
