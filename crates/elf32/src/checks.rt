//! What stands against an ELF file, looked for in the order of its faults.
ghost use Rattle.std.specs.Prelude.{◌≡◌, ◌≤◌, None, false, length};
ghost use Rattle.std.specs.List.{list_any};
ghost use Rattle.elf32.specs.Faults.{has_bad_table, has_code_at, header_fault, is_bad_entry, is_dynamic, is_past, is_unstored, is_writable_code, overlap, program_fault, share};
ghost use Rattle.elf32.specs.Headers.{entry_address, header_size, headers_of, runs, segments_of};
ghost use Rattle.elf32.specs.inner.Headers.{HasTable};

use crate::faults::ElfFault;
use crate::fields::{entry_field, file_type, machine, table_count, table_entry_size, table_offset};
use crate::headers::ProgramHeader;
use crate::table::{ENTRY_SIZE, MOST_HEADERS};
use llsc_base::ELF_MAGIC;

/// The bytes of a file's header.
pub(crate) const HEADER_SIZE: usize = 52;

/// A file of 32 bits (ELFCLASS32).
const BITS_32: u8 = 1;

/// Numbers have their least significant byte first (ELFDATA2LSB).
const LEAST_FIRST: u8 = 1;

/// An executable (ET_EXEC).
pub(crate) const EXECUTABLE: u16 = 2;

/// For Arm (EM_ARM).
pub(crate) const ARM: u16 = 40;

/// The first fault of a file's header, where it is to be for the processor of this number.
#[tactic(auto, unfolding(crate::specs::Faults::header_fault))]
pub(crate) fn header_fault(number: u32, bytes: &[u8]) -> Option<ElfFault>
    ensures fault { result ≡ header_fault number bytes.now }
    ensures table { result ≡ None → HasTable bytes.now }
{
    if bytes.len() < HEADER_SIZE {
        return Some(ElfFault::Short);
    }
    if !bytes.starts_with(&ELF_MAGIC) {
        return Some(ElfFault::Magic);
    }
    if bytes[4] != BITS_32 {
        return Some(ElfFault::Class);
    }
    if bytes[5] != LEAST_FIRST {
        return Some(ElfFault::DataOrder);
    }
    if file_type(bytes) != EXECUTABLE {
        return Some(ElfFault::FileType);
    }
    if u32::from(machine(bytes)) != number {
        return Some(ElfFault::Machine);
    }
    if has_bad_table(bytes) {
        return Some(ElfFault::Headers);
    }
    None
}

/// Whether the program headers are of another size, none or more than 64, or not all in the file.
fn has_bad_table(bytes: &[u8]) -> bool
    requires { header_size ≤ length bytes.now }
    ensures bad { result ≡ has_bad_table bytes.now }
    ensures table { result ≡ false → HasTable bytes.now }
{
    let count = table_count(bytes) as usize;
    if table_entry_size(bytes) as usize != ENTRY_SIZE || count == 0 || count > MOST_HEADERS {
        return true;
    }
    table_offset(bytes) as usize + ENTRY_SIZE * count > bytes.len()
}

/// The first fault of a file's program headers, of which these are the segments, where memory has so much room.
#[tactic(auto, unfolding(crate::specs::Faults::program_fault))]
pub(crate) fn program_fault(
    room: u32,
    bytes: &[u8],
    headers: &[ProgramHeader],
    segments: &[ProgramHeader],
) -> Option<ElfFault>
    requires header { header_size ≤ length bytes.now }
    requires headers { headers.now ≡ headers_of bytes.now }
    requires segments { segments.now ≡ segments_of bytes.now }
    ensures fault { result ≡ program_fault room bytes.now }
{
    if any_is_dynamic(headers) {
        return Some(ElfFault::Dynamic);
    }
    if any_is_writable_code(segments) {
        return Some(ElfFault::WritableCode);
    }
    if !any_runs(segments) {
        return Some(ElfFault::NoCode);
    }
    if any_is_past(room, segments) {
        return Some(ElfFault::SegmentBounds);
    }
    if any_is_unstored(bytes.len(), segments) {
        return Some(ElfFault::FileBounds);
    }
    if overlap(segments) {
        return Some(ElfFault::Overlap);
    }
    if is_bad_entry(bytes, segments) {
        return Some(ElfFault::Entry);
    }
    if entry_field(bytes) % 2 == 1 {
        return Some(ElfFault::ThumbEntry);
    }
    None
}

/// Whether a header asks for a dynamic linker.
fn any_is_dynamic(headers: &[ProgramHeader]) -> bool
    ensures { result ≡ list_any is_dynamic headers.now }
{
    headers.iter().any(|header| header.is_dynamic())
}

/// Whether a segment is both run and written.
fn any_is_writable_code(segments: &[ProgramHeader]) -> bool
    ensures { result ≡ list_any is_writable_code segments.now }
{
    segments.iter().any(|segment| segment.is_writable_code())
}

/// Whether a segment is run.
fn any_runs(segments: &[ProgramHeader]) -> bool
    ensures { result ≡ list_any runs segments.now }
{
    segments.iter().any(|segment| segment.runs())
}

/// Whether a segment reaches past the room.
fn any_is_past(room: u32, segments: &[ProgramHeader]) -> bool
    ensures { result ≡ list_any (is_past room) segments.now }
{
    segments.iter().any(|segment| segment.is_past(room))
}

/// Whether a segment has more bytes in the file than in memory, or than a file of this length has for it.
fn any_is_unstored(len: usize, segments: &[ProgramHeader]) -> bool
    ensures { result ≡ list_any (is_unstored len) segments.now }
{
    segments.iter().any(|segment| segment.is_unstored(len))
}

/// Whether two of the segments share an address.
fn overlap(segments: &[ProgramHeader]) -> bool
    ensures { result ≡ overlap segments.now }
{
    match segments {
        [] => false,
        [segment, others @ ..] => any_shares(segment, others) || overlap(others),
    }
}

/// Whether a segment shares an address with one of the others.
fn any_shares(segment: &ProgramHeader, others: &[ProgramHeader]) -> bool
    ensures { result ≡ list_any (share segment.now) others.now }
{
    others.iter().any(|other| segment.shares(other))
}

/// Whether no code of four bytes stands at the first instruction, or it is no word's address and not Thumb's.
fn is_bad_entry(bytes: &[u8], segments: &[ProgramHeader]) -> bool
    requires { header_size ≤ length bytes.now }
    ensures { result ≡ is_bad_entry bytes.now segments.now }
{
    let field = entry_field(bytes);
    let entry = field - field % 2;
    !any_has_code_at(entry, segments) || (field % 2 == 0 && entry % 4 != 0)
}

/// Whether the four bytes at an address lie in one segment that is run.
fn any_has_code_at(addr: u32, segments: &[ProgramHeader]) -> bool
    ensures { result ≡ list_any (has_code_at addr) segments.now }
{
    segments.iter().any(|segment| segment.has_code_at(addr))
}
