//! The image of a flat file: instruction words and nothing else.
ghost use Rattle.std.specs.Prelude.{◌≡◌, ◌⊎◌, ◌+◌, ◌<◌, ◌≤◌, IfErr, IfOk, IfSome, None, Some, length};
ghost use Rattle.llsc_base.specs.Flat.{flat_byte, flat_fault, flat_fault_name, flat_image, values_below};
ghost use Rattle.llsc_base.specs.Limits.{code_start};

use crate::images::{Image, Span};
use crate::limits::CODE_START;
use crate::memory::put;
use crate::sizes::MachineSize;
use std::alloc::{AllocError, Global};
use thiserror::Error;

/// The four bytes with which an ELF file begins (System V gABI, ELF identification).
pub const ELF_MAGIC: [u8; 4] = [0x7f, b'E', b'L', b'F'];

/// Why a flat file gives no image.
#[derive(Clone, Copy, Debug, PartialEq, Eq, Error)]
pub enum FlatFault {
    /// The file begins as an ELF file does.
    #[error("the file begins as an ELF file")]
    Elf,
    /// The file is empty, or its length is no multiple of 4.
    #[error("the length is 0 or no multiple of 4")]
    Length,
    /// The file reaches into the stacks or past the end of memory.
    #[error("the file reaches past the room below the stacks")]
    TooLong,
    /// Want of memory.
    #[error("out of memory")]
    Memory,
}

impl FlatFault {
    /// The variant's name.
    pub fn name(&self) -> &str
        ensures { result.now ≡ flat_fault_name self.now }
    {
        match self {
            FlatFault::Elf => "Elf",
            FlatFault::Length => "Length",
            FlatFault::TooLong => "TooLong",
            FlatFault::Memory => "Memory",
        }
    }
}

impl Image {
    /// The image of a flat file: instruction words and nothing else, which stand in memory from 0x1000 up,
    /// in one span that runs and isn't written. The first word is the first instruction.
    ///
    /// # Errors
    ///
    /// The first of [`FlatFault`]'s variants that holds: `Elf` where the file begins with 7F 45 4C 46,
    /// `Length` where it is empty or its length is no multiple of 4, `TooLong` where 0x1000 and its length
    /// are more than the size's room, and `Memory` where there is no memory for the image.
    pub fn flat(alloc: Global, bytes: &[u8], size: &MachineSize) -> Result<Image, FlatFault>
        ensures ok { IfOk result (λ image. (flat_fault bytes.now size.now ≡ None) × (image ≡ flat_image bytes.now size.now)) }
        ensures err { IfErr result (λ fault. (flat_fault bytes.now size.now ≡ Some fault) ⊎ (fault ≡ FlatFault.Memory)) }
        ensures refused { IfSome (flat_fault bytes.now size.now) (λ fault. result ≡ Err fault) }
    {
        if let Some(fault) = flat_fault(bytes, size) {
            return Err(fault);
        }
        let Ok(memory) = flat_memory(alloc, bytes, size.mem()) else {
            return Err(FlatFault::Memory);
        };
        let span = Span {
            start: CODE_START,
            end: CODE_START + bytes.len() as u32,
            run: true,
            write: false,
        };
        let Ok(spans) = vec![in alloc; span] else {
            return Err(FlatFault::Memory);
        };
        Ok(Image::of(memory, spans, CODE_START))
    }
}

/// The first fault of a flat file.
fn flat_fault(bytes: &[u8], size: &MachineSize) -> Option<FlatFault>
    ensures { result ≡ flat_fault bytes.now size.now }
{
    if bytes.starts_with(&ELF_MAGIC) {
        return Some(FlatFault::Elf);
    }
    if bytes.len() == 0 || bytes.len() % 4 != 0 {
        return Some(FlatFault::Length);
    }
    if CODE_START as usize + bytes.len() > size.room() as usize {
        return Some(FlatFault::TooLong);
    }
    None
}

/// All of memory, with the file's bytes in it and 0 elsewhere.
fn flat_memory(alloc: Global, file: &[u8], mem: u32) -> Result<Vec<u8>, AllocError>
    requires { code_start + length file.now ≤ mem }
    ensures { IfOk result (λ memory. memory.items ≡ values_below mem (flat_byte file.now)) }
{
    let mut memory = vec![in alloc; 0; mem as usize]?;
    put(&mut memory, CODE_START as usize, file);
    Ok(memory)
}
