//! Why an ELF file gives no image.
ghost use Rattle.std.specs.Prelude.{◌≡◌};
ghost use Rattle.elf32.specs.Faults.{elf_fault_name};

use thiserror::Error;

/// Why an ELF file gives no image, in the order in which it is looked for.
///
/// A segment is a program header of type PT_LOAD that takes memory.
#[derive(Clone, Copy, Debug, PartialEq, Eq, Error)]
pub enum ElfFault {
    /// The file has fewer than 52 bytes, the size of its header.
    #[error("the file is shorter than its header")]
    Short,
    /// The file doesn't begin with 7F 45 4C 46.
    #[error("the file doesn't begin as an ELF file")]
    Magic,
    /// It is no file of 32 bits.
    #[error("the file is not of 32 bits")]
    Class,
    /// Its least significant bytes don't come first.
    #[error("the file is not little-endian")]
    DataOrder,
    /// It is no executable.
    #[error("the file is not an executable")]
    FileType,
    /// It is not for the processor that is asked for.
    #[error("the file is for another processor")]
    Machine,
    /// The program headers don't have 32 bytes each, there are none of them or more than 64, or their table reaches past
    /// the file.
    #[error("the program headers are of another size, too many or too few, or not in the file")]
    Headers,
    /// A program header asks for a dynamic linker (PT_DYNAMIC or PT_INTERP).
    #[error("the file wants a dynamic linker")]
    Dynamic,
    /// A segment is both run and written.
    #[error("a segment is both run and written")]
    WritableCode,
    /// No segment is run.
    #[error("no segment is run")]
    NoCode,
    /// A segment reaches past the room below the stacks.
    #[error("a segment reaches past the room below the stacks")]
    SegmentBounds,
    /// A segment has more bytes in the file than in memory, or bytes past the file's end.
    #[error("a segment has more bytes than its memory or the file")]
    FileBounds,
    /// Two segments share an address.
    #[error("two segments share an address")]
    Overlap,
    /// No four bytes of a segment that is run stand at the entry, or it is no multiple of 4 and not Thumb's.
    #[error("the entry is no instruction's address")]
    Entry,
    /// The entry is Thumb code.
    #[error("the entry is Thumb code")]
    ThumbEntry,
    /// Want of memory.
    #[error("out of memory")]
    Memory,
}

impl ElfFault {
    /// The variant's name.
    pub fn name(&self) -> &str
        ensures { result.now ≡ elf_fault_name self.now }
    {
        match self {
            ElfFault::Short => "Short",
            ElfFault::Magic => "Magic",
            ElfFault::Class => "Class",
            ElfFault::DataOrder => "DataOrder",
            ElfFault::FileType => "FileType",
            ElfFault::Machine => "Machine",
            ElfFault::Headers => "Headers",
            ElfFault::Dynamic => "Dynamic",
            ElfFault::WritableCode => "WritableCode",
            ElfFault::NoCode => "NoCode",
            ElfFault::SegmentBounds => "SegmentBounds",
            ElfFault::FileBounds => "FileBounds",
            ElfFault::Overlap => "Overlap",
            ElfFault::Entry => "Entry",
            ElfFault::ThumbEntry => "ThumbEntry",
            ElfFault::Memory => "Memory",
        }
    }
}
