//! The top call: words and files in, a status and a text out.
ghost use Rattle.std.specs.Prelude.{◌≡◌, ◌≢◌, ◌⊎◌, ◌-◌, ◌^◌, ◌<◌, ℕ, List, map, string_bytes, None, Some};
ghost use Rattle.llsc_host.specs.Host.{Adds, Rose};
ghost use Rattle.llsc_words.specs.Request.{Request, request_of, files_of};
ghost use Rattle.llsc_host.specs.Said.{words_text, read_text};
ghost use Rattle.llsc_call.specs.Run.{told};
ghost use Rattle.llsc_call.specs.Answer.{Answers, AreTold, IsNoneOf, IsAnswer, ReadFailed, IsCut};
ghost use Rattle.llsc_files.specs.Reads.{IsDone};

use crate::answer::Answer;
use crate::answering::answer_words;
use crate::ended::Ended;
use crate::say::say;
use llsc_host::Host;
use std::alloc::Global;
use std::sync::Wait;
use std::thread::Threads;

/// The one call of the program: answers the words with a status and a text, and where guest threads ran beside each other with
/// the history of their accesses.
///
/// The words are those behind the program's name. The text is added to what the host has written,
/// whole or, where a write failed, a front of it; where memory is wanting, nothing is added. [`Ended`] has the statuses.
pub fn llsc<H: Host, R: Threads + Wait + Sync>(
    rt: &R,
    alloc: Global,
    words: &[String],
    host: &mut H,
) -> Ended
    ensures ended { IsDone result.status ⊎ ((result.status ≡ 2) ⊎ ((result.status ≡ 3) ⊎ ((result.status ≡ 5) ⊎ (result.status ≡ 6)))) }

    // Words that ask for nothing are refused, and no others.
    ensures refused { request_of (map string_bytes words.now) ≡ None →
        (result.status ≡ 2) ⊎ ((result.status ≡ 5) ⊎ (result.status ≡ 6)) }
    ensures words { result.status ≡ 2 →
        (request_of (map string_bytes words.now) ≡ None) × (result.story ≡ None) × Adds (H.written host.old) (H.written host.new) words_text }

    // A request is answered by what its files hold.
    ensures done { IsDone result.status → (text : List ℕ) ×
        (IsAnswer (H.file host.old) (request_of (map string_bytes words.now)) (told result.story) result.status text × Adds (H.written host.old) (H.written host.new) text) }
    ensures complete { (asked : Request) (files : List (List ℕ)) → request_of (map string_bytes words.now) ≡ Some asked → AreTold (H.file host.old) (files_of asked) files
        → (Rose (H.write_faults host.old) (H.write_faults host.new) → ⊥)
        → (Rose (H.read_faults host.old) (H.read_faults host.new) → ⊥) ⊎ IsNoneOf (files_of asked) (H.lost host.new)
        → (result.status ≡ 6) ⊎ ((text : List ℕ) × (Answers asked files (told result.story) result.status text × Adds (H.written host.old) (H.written host.new) text)) }

    // A failure of the host is answered as one only where the host had it in this call.
    ensures read { result.status ≡ 3 →
        ReadFailed (H.file host.old) (request_of (map string_bytes words.now)) (H.read_faults host.old) (H.read_faults host.new) (H.lost host.new)
        × (result.story ≡ None) × Adds (H.written host.old) (H.written host.new) read_text }
    ensures write { result.status ≡ 5 → Rose (H.write_faults host.old) (H.write_faults host.new) }
    ensures cut { result.status ≡ 5 → IsCut (H.file host.old) (request_of (map string_bytes words.now)) (told result.story)
        (ReadFailed (H.file host.old) (request_of (map string_bytes words.now)) (H.read_faults host.old) (H.read_faults host.new) (H.lost host.new))
        (H.written host.old) (H.written host.new) }

    // Where a read of a file failed, no thread has run, whatever was written behind it. A count that stood at the end of its type
    // doesn't tell of this call's reads.
    ensures no_story { result.status ≡ 5
        → ReadFailed (H.file host.old) (request_of (map string_bytes words.now)) (H.read_faults host.old) (H.read_faults host.new) (H.lost host.new)
        → H.read_faults host.old < 2 ^ 64 - 1 → result.story ≡ None }

    // And each failure that the host had in this call is answered as one.
    ensures write_answered { result.status ≢ 5 → H.write_faults host.new ≡ H.write_faults host.old }
    ensures read_answered { result.status ≢ 3 → result.status ≢ 5 → H.read_faults host.new ≡ H.read_faults host.old }

    // Want of memory leaves no trace.
    ensures memory { result.status ≡ 6 → (H.written host.new ≡ H.written host.old) × (result.story ≡ None) }
{
    let Answer { outcome, story } = answer_words(rt, alloc, host, words);
    let status = say(host, outcome);
    Ended { status, story }
}
