//! `dis`: an image, word by word.
ghost use Rattle.std.specs.Prelude.{◌≡◌, None};
ghost use Rattle.llsc_files.specs.Refusals.{most_program, too_long};
ghost use Rattle.llsc_texts.specs.Disassembly.{AnswersDis};
ghost use Rattle.llsc_call.specs.inner.Outcome.{Gives};

use crate::outcome::Outcome;
use llsc_files::{LEAST_GRANULE, load, numbers_of};
use llsc_texts::Listing;
use llsc_words::Format;
use std::alloc::Global;

/// Disassembles a file in so much memory.
pub fn outcome(alloc: Global, format: Format, mem: u64, file: Vec<u8>) -> Outcome
    requires { too_long most_program file.items ≡ None }
    ensures { Gives (AnswersDis format mem file.items) result }
{
    let numbers = numbers_of(mem, 1, LEAST_GRANULE);
    let loaded = match load(alloc, numbers, format, file) {
        Ok(loaded) => loaded,
        Err(refusal) => return Outcome::from(refusal),
    };
    let mem = loaded.size.mem();
    match Listing::new(alloc, loaded.image, mem) {
        Ok(listing) => Outcome::Listed(listing),
        Err(_) => Outcome::NoMemory,
    }
}
