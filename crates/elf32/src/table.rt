//! The table of program headers of a file, and the segments among them.
ghost use Rattle.std.specs.Prelude.{◌≡◌, filter, length, ◌≤◌};
ghost use Rattle.elf32.specs.Headers.{headers_of, is_segment};
ghost use Rattle.elf32.specs.inner.Headers.{HasTable};

use crate::fields::{table_count, table_offset};
use crate::headers::ProgramHeader;
use arrayvec::ArrayVec;

/// The most program headers that a file may have.
pub(crate) const MOST_HEADERS: usize = 64;

/// The bytes of a program header in a file.
pub(crate) const ENTRY_SIZE: usize = 32;

/// Program headers, in the order in which the file has them.
pub(crate) type Headers = ArrayVec<ProgramHeader, MOST_HEADERS>;

/// The program headers of a file.
#[tactic(auto, unfolding(crate::specs::Headers::headers_of))]
pub(crate) fn program_headers(bytes: &[u8]) -> Headers
    requires { HasTable bytes.now }
    ensures { result.items ≡ headers_of bytes.now }
{
    let table = table_offset(bytes) as usize;
    let mut headers = ArrayVec::new();
    for i in 0..table_count(bytes) as usize {
        headers.push(ProgramHeader::read(bytes, table + ENTRY_SIZE * i));
    }
    headers
}

/// Those of at most 64 program headers that are segments.
pub(crate) fn segments_among(headers: &[ProgramHeader]) -> Headers
    requires { length headers.now ≤ 64 }
    ensures { result.items ≡ filter is_segment headers.now }
{
    let mut segments = ArrayVec::new();
    for header in headers {
        if header.is_segment() {
            segments.push(*header);
        }
    }
    segments
}
