//! The ELF file of a program.
ghost use Rattle.std.specs.Prelude.{◌≡◌, ◌+◌, ◌*◌, ◌<◌, ◌≤◌, ◌++◌, [], ◌∷◌, None, length, IfOk, OnOk};
ghost use Rattle.llsc_base.specs.Limits.{code_start};
ghost use Rattle.llsc_base.specs.Sizes.{Numbers, room_of};
ghost use Rattle.elf32.specs.Faults.{first_fault};
ghost use Rattle.elf32.specs.Image.{image_of};
ghost use Rattle.elf32.specs.Units.{IsWithin, data_start, end_of, most_data, most_words, unit_image};
ghost use Rattle.elf32.specs.Written.{code_offset, file_header, halves, program_header, words, written_file};

use crate::checks::{ARM, EXECUTABLE, HEADER_SIZE};
use crate::headers::{LOAD, ProgramHeader};
use crate::table::ENTRY_SIZE;
use crate::units::Unit;
use byteorder::{ByteOrder, LittleEndian};
use llsc_base::CODE_START;
use std::alloc::{AllocError, Global};

/// Where the code stands in the file: behind the header and the two program headers.
const CODE_OFFSET: u32 = 116;

/// The bytes with which the file begins: 32 bits, least significant byte first, version 1 (System V gABI, ELF
/// Identification).
const IDENTIFICATION: [u8; 16] = [0x7f, b'E', b'L', b'F', 1, 1, 1, 0, 0, 0, 0, 0, 0, 0, 0, 0];

/// The version of the format (EV_CURRENT).
const VERSION: u32 = 1;

/// Flags of a file for the Arm EABI, version 5 (EF_ARM_ABI_VER5).
const EABI_5: u32 = 0x0500_0000;

/// The ELF file of a program: an executable for Arm with one segment for the code, which is run, and one for data and
/// space, which is written.
///
/// The program has at most 65,536 words of code and at most 1,048,576 bytes of data and space together. Where it has a
/// word and ends within a machine's room, [`load`](crate::load) accepts the file, as the program's image.
///
/// # Errors
///
/// `AllocError` is want of memory.
pub fn write(alloc: Global, unit: &Unit) -> Result<Vec<u8>, AllocError>
    requires { IsWithin unit.now }
    ensures file { IfOk result (λ file. file.items ≡ written_file unit.now) }
    ensures accepted { (size : Numbers) → 0 < length unit.now.words → end_of unit.now ≤ room_of size
        → IfOk result (λ file. (first_fault file.items size ≡ None) × (image_of file.items size ≡ unit_image unit.now size)) }
{
    let words = unit.words.as_slice();
    let bytes = unit.bytes.as_slice();
    let mut file = Vec::with_capacity(alloc, CODE_OFFSET as usize + 4 * words.len() + bytes.len())?;
    push_file_header(&mut file)?;
    push_program_header(&mut file, code_header(words.len() as u32))?;
    push_program_header(
        &mut file,
        data_header(words.len() as u32, bytes.len() as u32, unit.space),
    )?;
    push_words(&mut file, words)?;
    file.extend_from_slice(bytes)?;
    Ok(file)
}

/// Puts the file's header behind what is written: an executable for Arm, begun at the code, with two program headers.
fn push_file_header(file: &mut Vec<u8>) -> Result<(), AllocError>
    ensures { OnOk result (file.new.items ≡ file.old.items ++ file_header) }
{
    file.extend_from_slice(&IDENTIFICATION)?;
    push_halves(file, &[EXECUTABLE, ARM])?;
    push_words(file, &[VERSION, CODE_START, HEADER_SIZE as u32, 0, EABI_5])?;
    push_halves(file, &[HEADER_SIZE as u16, ENTRY_SIZE as u16, 2, 0, 0, 0])
}

/// The program header of so many words of code: a segment that is read and run.
fn code_header(words: u32) -> ProgramHeader
    requires { words ≤ most_words }
    ensures { result ≡ record { kind = 1; offset = code_offset; address = code_start; file_size = 4 * words; memory_size = 4 * words; flags = 5 } }
{
    ProgramHeader {
        kind: LOAD,
        offset: CODE_OFFSET,
        address: CODE_START,
        file_size: 4 * words,
        memory_size: 4 * words,
        flags: 5,
    }
}

/// The program header of so many bytes of data and so many of space, behind so many words of code: a segment that is
/// read and written.
fn data_header(words: u32, bytes: u32, space: u32) -> ProgramHeader
    requires words { words ≤ most_words }
    requires bytes { bytes + space ≤ most_data }
    ensures { result ≡ record { kind = 1; offset = code_offset + 4 * words; address = data_start words; file_size = bytes; memory_size = bytes + space; flags = 6 } }
{
    ProgramHeader {
        kind: LOAD,
        offset: CODE_OFFSET + 4 * words,
        address: (CODE_START + 4 * words + 4095) / 4096 * 4096,
        file_size: bytes,
        memory_size: bytes + space,
        flags: 6,
    }
}

/// Puts a program header behind what is written, at the same address twice, with an alignment of 4.
fn push_program_header(file: &mut Vec<u8>, header: ProgramHeader) -> Result<(), AllocError>
    requires { header.kind ≡ 1 }
    ensures { OnOk result (file.new.items ≡ file.old.items
        ++ program_header header.offset header.address header.file_size header.memory_size header.flags) }
{
    push_words(
        file,
        &[
            header.kind,
            header.offset,
            header.address,
            header.address,
            header.file_size,
            header.memory_size,
            header.flags,
            4,
        ],
    )
}

/// Puts numbers of 16 bits behind what is written.
#[tactic(auto, using(crate::proofs::Pushed::more_halves))]
fn push_halves(file: &mut Vec<u8>, numbers: &[u16]) -> Result<(), AllocError>
    ensures { OnOk result (file.new.items ≡ file.old.items ++ halves numbers.now) }
{
    for half in numbers {
        let mut bytes = [0; 2];
        LittleEndian::write_u16(&mut bytes, *half);
        file.extend_from_slice(&bytes)?;
    }
    Ok(())
}

/// Puts numbers of 32 bits behind what is written.
#[tactic(auto, using(crate::proofs::Pushed::more_words))]
fn push_words(file: &mut Vec<u8>, numbers: &[u32]) -> Result<(), AllocError>
    ensures { OnOk result (file.new.items ≡ file.old.items ++ words numbers.now) }
{
    for word in numbers {
        let mut bytes = [0; 4];
        LittleEndian::write_u32(&mut bytes, *word);
        file.extend_from_slice(&bytes)?;
    }
    Ok(())
}
