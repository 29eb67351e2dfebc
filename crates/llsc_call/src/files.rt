//! The files of a request: which it has, and their bytes.
ghost use Rattle.std.specs.Prelude.{◌≡◌, None};
ghost use Rattle.std.specs.Option.{option_map};
ghost use Rattle.llsc_words.specs.Request.{asked};
ghost use Rattle.llsc_call.specs.inner.Files.{barred, first_file, second_file, wanted, ReadFiles, ReadWanted};

use a32_asm::MOST_TEXT;
use llsc_files::read;
use llsc_host::{Host, ReadFault};
use llsc_words::Request;
use std::alloc::Global;

/// The most bytes of a program's file.
const MOST_PROGRAM: usize = 33_554_432;

/// The most bytes of a record's file.
const MOST_RECORD: usize = 67_108_864;

/// A file that is to be read: its name, and the most bytes that it may have.
#[derive(Clone, Copy)]
pub struct Wanted<'a> {
    pub name: &'a str,
    pub most: usize,
}

/// The bytes of a request's files, in their order; empty where it has none.
#[derive(Drop)]
pub struct Files {
    pub first: Vec<u8>,
    pub second: Vec<u8>,
}

/// The first file of a request.
fn first_file(request: Request<'_>) -> Option<Wanted<'_>>
    ensures { option_map wanted result ≡ first_file (asked request.entry) }
{
    match request {
        Request::Solo { file, .. }
        | Request::Run { file, .. }
        | Request::Pool { file, .. }
        | Request::Record { file, .. }
        | Request::Disassemble { file, .. }
        | Request::Trace { file, .. }
        | Request::Check { file, .. }
        | Request::Explain { file, .. } => Some(Wanted {
            name: file,
            most: MOST_PROGRAM,
        }),
        Request::Assemble { file, .. } => Some(Wanted {
            name: file,
            most: MOST_TEXT,
        }),
        Request::Load { .. } => None,
    }
}

/// The second file of a request.
fn second_file(request: Request<'_>) -> Option<Wanted<'_>>
    ensures { option_map wanted result ≡ second_file (asked request.entry) }
{
    match request {
        Request::Check { recorded, .. } | Request::Explain { recorded, .. } => Some(Wanted {
            name: recorded,
            most: MOST_RECORD,
        }),
        _ => None,
    }
}

/// The bytes of a file, if one is wanted.
fn read_wanted<H: Host>(
    alloc: Global,
    host: &mut H,
    file: Option<Wanted<'_>>,
) -> Result<Vec<u8>, ReadFault>
    ensures { ReadWanted H.Host host.old host.new (option_map wanted file.entry) result }
{
    match file {
        Some(file) => read(alloc, host, file.name, file.most),
        None => Ok(Vec::new(alloc)),
    }
}

/// The bytes of a request's files.
///
/// # Errors
///
/// Why the first of them that could not be had wasn't.
pub fn read_files<H: Host>(
    alloc: Global,
    host: &mut H,
    request: Request<'_>,
) -> Result<Files, ReadFault>
    requires { barred (asked request) ≡ None }
    ensures { ReadFiles H.Host host.old host.new (asked request.entry) result }
{
    let first = read_wanted(alloc, host, first_file(request))?;
    let second = read_wanted(alloc, host, second_file(request))?;
    Ok(Files { first, second })
}
