//! The program headers of an ELF file.
ghost use Rattle.std.specs.Prelude.{◌≡◌, ◌+◌, ◌≤◌, length};
ghost use Rattle.elf32.specs.Faults.{has_code_at, is_dynamic, is_past, is_unstored, is_writable_code, share};
ghost use Rattle.elf32.specs.Headers.{end_of, entry_size, header_at, is_segment, runs, writes};

use crate::fields::word_at;

/// A program header of an ELF file, without p_paddr and p_align (System V gABI, Program Header).
#[derive(Clone, Copy, Debug, PartialEq, Eq, Default)]
pub(crate) struct ProgramHeader {
    /// p_type: 1 is PT_LOAD, 2 PT_DYNAMIC and 3 PT_INTERP.
    pub(crate) kind: u32,
    /// p_offset: where its bytes stand in the file.
    pub(crate) offset: u32,
    /// p_vaddr: where it stands in memory.
    pub(crate) address: u32,
    /// p_filesz: how many bytes it has in the file.
    pub(crate) file_size: u32,
    /// p_memsz: how many bytes it has in memory.
    pub(crate) memory_size: u32,
    /// p_flags: 1 to be run, 2 to be written, 4 to be read.
    pub(crate) flags: u32,
}

/// p_type of a segment (PT_LOAD).
pub(crate) const LOAD: u32 = 1;

/// p_type of what a dynamic linker reads (PT_DYNAMIC).
const DYNAMIC: u32 = 2;

/// p_type of a dynamic linker's name (PT_INTERP).
const INTERP: u32 = 3;

impl ProgramHeader {
    /// The program header at an offset of a file.
    #[tactic(auto, unfolding(crate::specs::Headers::header_at))]
    pub(crate) fn read(bytes: &[u8], offset: usize) -> ProgramHeader
        requires { offset + entry_size ≤ length bytes.now }
        ensures { result ≡ header_at bytes.now offset }
    {
        ProgramHeader {
            kind: word_at(bytes, offset),
            offset: word_at(bytes, offset + 4),
            address: word_at(bytes, offset + 8),
            file_size: word_at(bytes, offset + 16),
            memory_size: word_at(bytes, offset + 20),
            flags: word_at(bytes, offset + 24),
        }
    }

    /// Whether it asks for a dynamic linker.
    pub(crate) fn is_dynamic(&self) -> bool
        ensures { result ≡ is_dynamic self.now }
    {
        self.kind == DYNAMIC || self.kind == INTERP
    }

    /// Whether it is of type PT_LOAD and takes memory.
    pub(crate) fn is_segment(&self) -> bool
        ensures { result ≡ is_segment self.now }
    {
        self.kind == LOAD && self.memory_size != 0
    }

    /// Whether instructions may be fetched from it (PF_X).
    pub(crate) fn runs(&self) -> bool
        ensures { result ≡ runs self.now }
    {
        self.flags % 2 == 1
    }

    /// Whether a guest may store into it (PF_W).
    pub(crate) fn writes(&self) -> bool
        ensures { result ≡ writes self.now }
    {
        self.flags / 2 % 2 == 1
    }

    /// The first address behind it in memory, which may be past 32 bits.
    pub(crate) fn end(&self) -> u64
        ensures { result ≡ end_of self.now }
    {
        u64::from(self.address) + u64::from(self.memory_size)
    }

    /// Whether it is both run and written.
    pub(crate) fn is_writable_code(&self) -> bool
        ensures { result ≡ is_writable_code self.now }
    {
        self.runs() && self.writes()
    }

    /// Whether it reaches past the room.
    pub(crate) fn is_past(&self, room: u32) -> bool
        ensures { result ≡ is_past room self.now }
    {
        self.end() > u64::from(room)
    }

    /// Whether it has more bytes in the file than in memory, or than a file of this length has for it.
    pub(crate) fn is_unstored(&self, len: usize) -> bool
        ensures { result ≡ is_unstored len self.now }
    {
        self.file_size > self.memory_size || self.offset as usize + self.file_size as usize > len
    }

    /// Whether it shares an address with another.
    pub(crate) fn shares(&self, other: &ProgramHeader) -> bool
        ensures { result ≡ share self.now other.now }
    {
        u64::from(self.address.max(other.address)) < self.end().min(other.end())
    }

    /// Whether it is run and holds the four bytes at an address.
    pub(crate) fn has_code_at(&self, addr: u32) -> bool
        ensures { result ≡ has_code_at addr self.now }
    {
        self.runs() && self.address <= addr && u64::from(addr) + 4 <= self.end()
    }
}
