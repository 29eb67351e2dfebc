//! A program while its text is read.
ghost use Rattle.std.specs.Prelude.{◌≡◌, ◌++◌, [], OnOk};
ghost use Rattle.a32_asm.specs.inner.Seen.{added_piece};

use crate::pieces::Added;
use elf32::{Bytes, Unit, Words};
use std::alloc::{AllocError, Global};

/// The code words and the data bytes so far.
#[derive(Drop)]
pub struct Draft {
    words: Vec<u32>,
    bytes: Vec<u8>,
}

impl Draft {
    /// Nothing so far.
    pub fn new(alloc: Global) -> Draft
        ensures words { result.words.items ≡ [] }
        ensures bytes { result.bytes.items ≡ [] }
    {
        Draft {
            words: Vec::new(alloc),
            bytes: Vec::new(alloc),
        }
    }

    /// What a line adds, behind all else.
    #[tactic(auto, using(llsc_base::proofs::Bytes::byte_rules))]
    pub fn add(&mut self, added: Added) -> Result<(), AllocError>
        ensures words { OnOk result (self.new.words.items ≡ self.old.words.items ++ (added_piece added).words) }
        ensures bytes { OnOk result (self.new.bytes.items ≡ self.old.bytes.items ++ (added_piece added).bytes) }
    {
        match added {
            Added::Nothing => Ok(()),
            Added::Code(word) => Ok(self.words.push(word)?),
            Added::Byte(byte) => Ok(self.bytes.push(byte)?),
            Added::Data(word) => self.bytes.extend_from_slice(&word.to_le_bytes()),
        }
    }

    /// The program, with so many bytes of space.
    pub fn finish(self, space: u32) -> Unit
        ensures words { result.words ≡ self.words.items }
        ensures bytes { result.bytes ≡ self.bytes.items }
        ensures space { result.space ≡ space }
    {
        Unit {
            words: Words::new(self.words),
            bytes: Bytes::new(self.bytes),
            space,
        }
    }
}
