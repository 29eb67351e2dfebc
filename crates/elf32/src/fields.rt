//! The numbers of an ELF file, and those of its header that are looked at (System V gABI, ELF Header).
ghost use Rattle.std.specs.Prelude.{◌≡◌, ◌+◌, ◌≤◌, length};
ghost use Rattle.elf32.specs.Headers.{entry_field, file_type, half_at, header_size, machine, table_count, table_entry_size, table_offset, word_at};

use byteorder::{ByteOrder, LittleEndian};

/// The number of 16 bits at an offset of a file.
fn half_at(bytes: &[u8], offset: usize) -> u16
    requires { offset + 2 ≤ length bytes.now }
    ensures { result ≡ half_at bytes.now offset }
{
    LittleEndian::read_u16(&bytes[offset..])
}

/// The number of 32 bits at an offset of a file.
pub(crate) fn word_at(bytes: &[u8], offset: usize) -> u32
    requires { offset + 4 ≤ length bytes.now }
    ensures { result ≡ word_at bytes.now offset }
{
    LittleEndian::read_u32(&bytes[offset..])
}

/// What kind of file it is (e_type).
pub(crate) fn file_type(bytes: &[u8]) -> u16
    requires { header_size ≤ length bytes.now }
    ensures { result ≡ file_type bytes.now }
{
    half_at(bytes, 16)
}

/// The machine that it is for (e_machine).
pub(crate) fn machine(bytes: &[u8]) -> u16
    requires { header_size ≤ length bytes.now }
    ensures { result ≡ machine bytes.now }
{
    half_at(bytes, 18)
}

/// Where it is entered, with the lowest bit that says Thumb (e_entry).
pub(crate) fn entry_field(bytes: &[u8]) -> u32
    requires { header_size ≤ length bytes.now }
    ensures { result ≡ entry_field bytes.now }
{
    word_at(bytes, 24)
}

/// Where the table of program headers stands in the file (e_phoff).
pub(crate) fn table_offset(bytes: &[u8]) -> u32
    requires { header_size ≤ length bytes.now }
    ensures { result ≡ table_offset bytes.now }
{
    word_at(bytes, 28)
}

/// The bytes of a program header (e_phentsize).
pub(crate) fn table_entry_size(bytes: &[u8]) -> u16
    requires { header_size ≤ length bytes.now }
    ensures { result ≡ table_entry_size bytes.now }
{
    half_at(bytes, 42)
}

/// How many program headers there are (e_phnum).
pub(crate) fn table_count(bytes: &[u8]) -> u16
    requires { header_size ≤ length bytes.now }
    ensures { result ≡ table_count bytes.now }
{
    half_at(bytes, 44)
}
