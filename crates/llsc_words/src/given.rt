//! What the words behind a command give it.
ghost use Rattle.std.specs.Prelude.{◌≡◌, IfOk, map, string_bytes, codes};
ghost use Rattle.std.specs.Option.{option_map};
ghost use Rattle.clap.specs.Words.{app_of, first_of, found_of, rows_of};
ghost use Rattle.llsc_words.specs.inner.Commands.{IsStated};
ghost use Rattle.llsc_words.specs.Given.{given_by, given_in, is_true};
ghost use Rattle.llsc_words.specs.inner.Given.{seen};

use clap::error::ErrorKind;
use clap::{ArgMatches, Command};
use std::alloc::AllocError;

/// The values of a command, each as the text that it is, `None` where it isn't given.
#[derive(Clone, Copy)]
pub struct Given<'a> {
    /// The program's file.
    pub file: Option<&'a str>,
    /// The record's file.
    pub recorded: Option<&'a str>,
    /// The number that names a load.
    pub number: Option<&'a str>,
    /// `--flat`: the file is a flat image.
    pub flat: bool,
    /// `--rv`: the program's instructions are those of RISC-V.
    pub rv: bool,
    /// `--threads`: the guest threads that begin by themselves.
    pub threads: Option<&'a str>,
    /// `--spare`: how many threads each of these may start.
    pub spare: Option<&'a str>,
    /// `--mem`: the bytes of memory.
    pub mem: Option<&'a str>,
    /// `--granule`: the number of the granule, by which rows have their width.
    pub granule: Option<&'a str>,
    /// `--classes`: the classes that rows are dealt out to.
    pub classes: Option<&'a str>,
    /// `--limit`: the most writes of a class.
    pub limit: Option<&'a str>,
    /// `--workers`: the workers of a pool.
    pub workers: Option<&'a str>,
    /// `--slice`: the steps that a guest of a pool runs at a time.
    pub slice: Option<&'a str>,
    /// `--seed`: the number that fixes the order of the threads' turns.
    pub seed: Option<&'a str>,
    /// `--rounds`: the rounds of each thread of a load.
    pub rounds: Option<&'a str>,
    /// `--budget`: the most steps of a thread.
    pub budget: Option<&'a str>,
}

/// The value of that name, where it is given.
#[tactic(auto, using(crate::proofs::Found::value_found))]
fn value<'a>(matches: &ArgMatches<'a>, name: &str) -> Option<&'a str>
    ensures { option_map (λ text. text.now) result ≡ first_of name.now (rows_of (found_of matches.now)) }
{
    matches.get_str(name)
}

/// Whether the flag of that name is given.
fn has_flag(matches: &ArgMatches<'_>, name: &str) -> bool
    ensures { result ≡ is_true (first_of name.now (rows_of (found_of matches.now))) }
{
    match value(matches, name) {
        Some(text) => text == "true",
        None => false,
    }
}

/// The values that were found.
fn read<'a>(matches: &ArgMatches<'a>) -> Given<'a>
    ensures { seen result ≡ given_by (rows_of (found_of matches.now)) }
{
    Given {
        file: value(matches, "FILE"),
        recorded: value(matches, "RECORD"),
        number: value(matches, "SEED"),
        flat: has_flag(matches, "flat"),
        rv: has_flag(matches, "rv"),
        threads: value(matches, "threads"),
        spare: value(matches, "spare"),
        mem: value(matches, "mem"),
        granule: value(matches, "granule"),
        classes: value(matches, "classes"),
        limit: value(matches, "limit"),
        workers: value(matches, "workers"),
        slice: value(matches, "slice"),
        seed: value(matches, "seed"),
        rounds: value(matches, "rounds"),
        budget: value(matches, "budget"),
    }
}

/// What the words give a command, `None` where it refuses them.
pub fn given_in<'a>(
    command: Command<'a>,
    words: &'a [String],
) -> Result<Option<Given<'a>>, AllocError>
    requires stated { IsStated (app_of command) }
    ensures { IfOk result (λ given. option_map seen given ≡ given_in (app_of command.entry) (map string_bytes words.now)) }
{
    match command.try_get_matches_from(words) {
        Ok(matches) => Ok(Some(read(&matches))),
        Err(error) => match error.kind() {
            ErrorKind::OutOfMemory => Err(AllocError),
            _ => Ok(None),
        },
    }
}
