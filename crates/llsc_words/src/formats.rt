//! The formats of a program's file.

/// The format of a program's file.
#[derive(Clone, Copy, Debug, PartialEq, Eq)]
pub enum Format {
    /// A 32-bit ELF executable for a processor of the program's instructions.
    Elf,
    /// A flat image: instruction words and nothing else.
    Flat,
}
