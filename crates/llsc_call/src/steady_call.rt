//! Calls over a host that never fails.
ghost use Rattle.std.specs.Prelude.{◌≡◌, ◌⊎◌, ℕ, List, map, string_bytes, None, Some};
ghost use Rattle.llsc_words.specs.Request.{Request, request_of, files_of};
ghost use Rattle.llsc_call.specs.Answer.{Answers};
ghost use Rattle.llsc_files.specs.Reads.{IsDone};
ghost use Rattle.llsc_host.specs.Host.{Adds};
ghost use Rattle.llsc_host.specs.Said.{words_text};
ghost use Rattle.llsc_call.specs.Run.{told};
ghost use Rattle.llsc_host.specs.SteadyHost.{written_of};

use crate::call::llsc;
use crate::ended::Ended;
use llsc_host::SteadyHost;
use std::alloc::Global;
use std::sync::Wait;
use std::thread::Threads;

/// Answers the words over a host that never fails: no read and no write is told to have failed.
///
/// Words that ask for something are answered by the one file, whatever names they have for it, or memory is wanting.
pub fn steady<R: Threads + Wait + Sync>(
    rt: &R,
    alloc: Global,
    words: &[String],
    host: &mut SteadyHost,
) -> Ended
    ensures ended { IsDone result.status ⊎ ((result.status ≡ 2) ⊎ (result.status ≡ 6)) }
    ensures refused { request_of (map string_bytes words.now) ≡ None → (result.status ≡ 2) ⊎ (result.status ≡ 6) }
    ensures words { result.status ≡ 2 →
        (request_of (map string_bytes words.now) ≡ None) × (result.story ≡ None) × Adds (written_of host.old) (written_of host.new) words_text }
    ensures answered { (asked : Request) → request_of (map string_bytes words.now) ≡ Some asked →
        (result.status ≡ 6) ⊎ ((text : List ℕ)
        × (Answers asked (map (λ name. host.old.file) (files_of asked)) (told result.story) result.status text × Adds (written_of host.old) (written_of host.new) text)) }
    ensures memory { result.status ≡ 6 → (written_of host.new ≡ written_of host.old) × (result.story ≡ None) }
{
    llsc(rt, alloc, words, host)
}
