//! The words of a call, and what they ask for.
ghost use Rattle.std.specs.Prelude.{◌≡◌, IfOk, IfSome, map, string_bytes};
ghost use Rattle.std.specs.Option.{option_map};
ghost use Rattle.llsc_words.specs.Request.{asked, request_in, request_of, HasBudget};

use crate::asked::request_by;
use crate::commands::command_by;
use crate::given::given_in;
use crate::names::{CommandName, command_named};
use crate::requests::Request;
use std::alloc::{AllocError, Global};

/// What a command asks for with the words behind it, `None` where they are refused.
#[tactic(auto, using(crate::proofs::Stated::commands_are_stated))]
fn request_in<'a>(
    alloc: Global,
    name: CommandName,
    words: &'a [String],
) -> Result<Option<Request<'a>>, AllocError>
    ensures request { IfOk result (λ request. option_map asked request ≡ request_in name (map string_bytes words.now)) }
    ensures budget { IfOk result (λ request. IfSome request HasBudget) }
{
    let command = command_by(alloc, name)?;
    let Some(given) = given_in(command, words)? else {
        return Ok(None);
    };
    Ok(request_by(name, &given))
}

/// What the words ask for, `None` where they are refused. The words do not include the program's name.
pub fn parse<'a>(alloc: Global, words: &'a [String]) -> Result<Option<Request<'a>>, AllocError>
    ensures request { IfOk result (λ request. option_map asked request ≡ request_of (map string_bytes words.now)) }
    ensures budget { IfOk result (λ request. IfSome request HasBudget) }
{
    let [word, rest @ ..] = words else {
        return Ok(None);
    };
    let Some(command) = command_named(word.as_str()) else {
        return Ok(None);
    };
    request_in(alloc, command, rest)
}
