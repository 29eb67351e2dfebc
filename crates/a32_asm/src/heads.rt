//! What a statement is, by how it begins.

/// What a statement is, by how it begins.
#[derive(Clone, Copy)]
pub enum Head {
    /// Nothing: the line is empty, or has a label or a comment alone.
    Nothing,
    /// `.text`: what follows is code.
    Text,
    /// `.data`: what follows is data.
    Data,
    /// `.word`: a word of 32 bits.
    Word,
    /// `.byte`: a byte of data.
    Byte,
    /// `.space`: zeros behind all other data.
    Space,
    /// An instruction, or what stands in its place.
    Instruction,
    /// None of these.
    Unreadable,
}
