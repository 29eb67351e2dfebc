//! What words come to, by the files that they ask for.
ghost use Rattle.std.specs.Prelude.{Some, map, string_bytes};
ghost use Rattle.llsc_host.specs.Writes.{KeepsWrites};
ghost use Rattle.llsc_words.specs.Request.{asked, request_of, HasBudget};
ghost use Rattle.llsc_call.specs.inner.Comes.{Comes, IsUnread};

use crate::answer::Answer;
use crate::commands::{admit, answer};
use crate::files::read_files;
use crate::outcome::Outcome;
use llsc_files::refuse;
use llsc_host::{Host, ReadFault};
use llsc_words::{Request, parse};
use std::alloc::Global;
use std::sync::Wait;
use std::thread::Threads;

/// What comes of a file that could not be had.
fn unread(alloc: Global, fault: ReadFault) -> Outcome
    ensures { IsUnread fault result }
{
    match fault {
        ReadFault::Failed => Outcome::Unread,
        ReadFault::FileTooLong => Outcome::from(refuse(alloc, fault.name())),
        ReadFault::Memory => Outcome::NoMemory,
    }
}

/// What a request comes to, for which its files are read.
fn answer_request<H: Host, R: Threads + Wait + Sync>(
    rt: &R,
    alloc: Global,
    host: &mut H,
    request: Request<'_>,
) -> Answer
    requires { HasBudget request }
    ensures comes { Comes H.Host host.old host.new (Some (asked request.entry)) result.outcome result.story }
    ensures writes { KeepsWrites H.Host host.old host.new }
{
    if let Err(refusal) = admit(alloc, request) {
        return Answer::from(Outcome::from(refusal));
    }
    match read_files(alloc, host, request) {
        Ok(files) => answer(rt, alloc, request, files),
        Err(fault) => Answer::from(unread(alloc, fault)),
    }
}

/// What words come to.
pub fn answer_words<H: Host, R: Threads + Wait + Sync>(
    rt: &R,
    alloc: Global,
    host: &mut H,
    words: &[String],
) -> Answer
    ensures comes { Comes H.Host host.old host.new (request_of (map string_bytes words.now)) result.outcome result.story }
    ensures writes { KeepsWrites H.Host host.old host.new }
{
    let Ok(request) = parse(alloc, words) else {
        return Answer::from(Outcome::NoMemory);
    };
    match request {
        None => Answer::from(Outcome::NoRequest),
        Some(request) => answer_request(rt, alloc, host, request),
    }
}
