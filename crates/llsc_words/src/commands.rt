//! The commands, each with its options and files.
ghost use Rattle.std.specs.Prelude.{◌≡◌, IfOk, false};
ghost use Rattle.clap.specs.Words.{app_of, rule_of};
ghost use Rattle.llsc_words.specs.Commands.{app_by};
ghost use Rattle.llsc_words.specs.inner.Commands.{app_laid, part_rule, with_parts};

use crate::arguments::{flag, option, plain, positional};
use crate::names::CommandName;
use clap::{Arg, Command};
use std::alloc::{AllocError, Global};

/// What a command may have behind its name.
#[derive(Clone, Copy)]
pub(crate) enum Part {
    /// A file or a number that stands by itself.
    Word(&'static str),
    /// A flag.
    Flag(&'static str),
    /// An option with a value.
    Value(&'static str),
}

/// A command's name, and all that it may have behind it.
#[derive(Clone, Copy)]
pub(crate) struct Layout {
    pub(crate) name: &'static str,
    pub(crate) parts: &'static [Part],
}

/// Runs one thread.
const SOLO: Layout = Layout {
    name: "solo",
    parts: &[
        Part::Word("FILE"),
        Part::Flag("flat"),
        Part::Value("mem"),
        Part::Value("budget"),
    ],
};

/// Makes a file of a text.
const ASM: Layout = Layout {
    name: "asm",
    parts: &[Part::Word("FILE"), Part::Flag("flat")],
};

/// Shows a file as text.
const DIS: Layout = Layout {
    name: "dis",
    parts: &[Part::Word("FILE"), Part::Flag("flat"), Part::Value("mem")],
};

/// Runs all threads.
const RUN: Layout = Layout {
    name: "run",
    parts: &[
        Part::Word("FILE"),
        Part::Flag("flat"),
        Part::Value("threads"),
        Part::Value("mem"),
        Part::Value("granule"),
        Part::Value("classes"),
        Part::Value("limit"),
        Part::Value("budget"),
        Part::Value("spare"),
        Part::Flag("rv"),
    ],
};

/// Runs all threads on few workers.
const POOL: Layout = Layout {
    name: "pool",
    parts: &[
        Part::Word("FILE"),
        Part::Flag("flat"),
        Part::Value("threads"),
        Part::Value("mem"),
        Part::Value("granule"),
        Part::Value("classes"),
        Part::Value("limit"),
        Part::Value("budget"),
        Part::Value("workers"),
        Part::Value("slice"),
    ],
};

/// Runs all threads, which record their accesses.
const RECORD: Layout = Layout {
    name: "record",
    parts: &[
        Part::Word("FILE"),
        Part::Flag("flat"),
        Part::Value("threads"),
        Part::Value("mem"),
        Part::Value("granule"),
        Part::Value("classes"),
        Part::Value("limit"),
        Part::Value("budget"),
    ],
};

/// Records a run of all threads by turns.
const TRACE: Layout = Layout {
    name: "trace",
    parts: &[
        Part::Word("FILE"),
        Part::Flag("flat"),
        Part::Value("threads"),
        Part::Value("mem"),
        Part::Value("granule"),
        Part::Value("seed"),
        Part::Value("budget"),
    ],
};

/// Checks a record.
const CHECK: Layout = Layout {
    name: "check",
    parts: &[
        Part::Word("FILE"),
        Part::Word("RECORD"),
        Part::Flag("flat"),
        Part::Value("mem"),
    ],
};

/// Explains the failed store-exclusives of a record.
const EXPLAIN: Layout = Layout {
    name: "explain",
    parts: &[
        Part::Word("FILE"),
        Part::Word("RECORD"),
        Part::Flag("flat"),
        Part::Value("mem"),
    ],
};

/// Runs the counter guest of a seed.
const LOAD: Layout = Layout {
    name: "load",
    parts: &[
        Part::Word("SEED"),
        Part::Value("threads"),
        Part::Value("rounds"),
        Part::Value("budget"),
    ],
};

/// The layout of the command of a name.
#[tactic(auto, unfolding(crate::proofs::Laid::commands_are_laid))]
fn layout_of(name: CommandName) -> Layout
    ensures { app_laid result ≡ app_by name }
{
    match name {
        CommandName::Solo => SOLO,
        CommandName::Run => RUN,
        CommandName::Pool => POOL,
        CommandName::Record => RECORD,
        CommandName::Asm => ASM,
        CommandName::Dis => DIS,
        CommandName::Trace => TRACE,
        CommandName::Check => CHECK,
        CommandName::Explain => EXPLAIN,
        CommandName::Load => LOAD,
    }
}

/// A part, as `clap` takes it.
fn argument<'a>(alloc: Global, part: Part) -> Arg<'a>
    ensures rule { rule_of result ≡ part_rule part }
    ensures local { result.global ≡ false }
{
    match part {
        Part::Word(name) => positional(alloc, name),
        Part::Flag(name) => flag(alloc, name),
        Part::Value(name) => option(alloc, name),
    }
}

/// The command with these parts more.
fn with_parts<'a>(
    alloc: Global,
    command: Command<'a>,
    parts: &[Part],
) -> Result<Command<'a>, AllocError>
    ensures { IfOk result (λ more. app_of more ≡ with_parts (app_of command.entry) parts.now) }
{
    let [part, others @ ..] = parts else {
        return Ok(command);
    };
    with_parts(alloc, command.arg(argument(alloc, *part))?, others)
}

/// The command of a name, with its options and files.
pub fn command_by<'a>(alloc: Global, name: CommandName) -> Result<Command<'a>, AllocError>
    ensures { IfOk result (λ command. app_of command ≡ app_by name) }
{
    let Layout { name, parts } = layout_of(name);
    let name: &'a str = name;
    with_parts(alloc, plain(alloc, name), parts)
}
