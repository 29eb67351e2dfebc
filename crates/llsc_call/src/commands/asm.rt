//! `asm`: a program from its text, as a file.
ghost use Rattle.std.specs.Prelude.{◌≡◌, None};
ghost use Rattle.a32_asm.specs.Assembled.{most_text};
ghost use Rattle.llsc_files.specs.Refusals.{too_long};
ghost use Rattle.llsc_texts.specs.Assembly.{AnswersAsm};
ghost use Rattle.llsc_call.specs.inner.Outcome.{Gives};

use crate::outcome::Outcome;
use llsc_texts::assembled;
use llsc_words::Format;
use std::alloc::Global;

/// Assembles a text as a file of a format.
pub fn outcome(alloc: Global, format: Format, file: Vec<u8>) -> Outcome
    requires { too_long most_text file.items ≡ None }
    ensures { Gives (AnswersAsm format file.items) result }
{
    match assembled(alloc, format, file.as_slice()) {
        Ok(made) => Outcome::Assembled(made),
        Err(refusal) => Outcome::from(refusal),
    }
}
