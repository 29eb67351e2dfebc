//! The image of a program's file, of either format and any instruction set.
ghost use Rattle.std.specs.Prelude.{◌≡◌, IfOk, IfErr, None};
ghost use Rattle.llsc_files.specs.Programs.{elf_machine, program_fault_name, image_of, is_wanting, refusal_as, refusal_on, IsFaultBy};

use elf32::ElfFault;
use llsc_base::{FlatFault, Image, MachineSize};
use llsc_words::{Format, SetName};
use std::alloc::Global;
use thiserror::Error;

/// Why a program's file gives no image.
#[derive(Clone, Copy, Debug, PartialEq, Eq, Error)]
pub enum ProgramFault {
    /// A fault of an ELF file.
    #[error(transparent)]
    Elf(ElfFault),
    /// A fault of a flat file.
    #[error(transparent)]
    Flat(FlatFault),
}

impl ProgramFault {
    /// The fault's name, without its format.
    pub fn name(&self) -> &str
        ensures { result.now ≡ program_fault_name self.now }
    {
        match self {
            ProgramFault::Elf(fault) => fault.name(),
            ProgramFault::Flat(fault) => fault.name(),
        }
    }

    /// Whether memory is wanting, and the file has no fault.
    pub fn is_wanting(self) -> bool
        ensures { result ≡ is_wanting self }
    {
        match self {
            ProgramFault::Elf(ElfFault::Memory) | ProgramFault::Flat(FlatFault::Memory) => true,
            _ => false,
        }
    }
}

/// The number (e_machine) of the processors of Arm.
const EM_ARM: u32 = 40;

/// The number (e_machine) of the processors of RISC-V.
const EM_RISCV: u32 = 243;

/// The number by which an ELF file is for a processor of that instruction set.
fn elf_machine(set: SetName) -> u32
    ensures { result ≡ elf_machine set }
{
    match set {
        SetName::A32 => EM_ARM,
        SetName::Rv32 => EM_RISCV,
    }
}

/// The image of the file of a program of that instruction set on a machine.
///
/// # Errors
///
/// The first fault of the file, by its format, or want of memory for the image.
pub fn image_as(
    alloc: Global,
    set: SetName,
    format: Format,
    size: &MachineSize,
    file: &[u8],
) -> Result<Image, ProgramFault>
    ensures sound { IfOk result (λ image. refusal_as set format size.now file.now ≡ None) }
    ensures image { IfOk result (λ image. image ≡ image_of format file.now size.now) }
    ensures fault { IfErr result (IsFaultBy (refusal_as set format size.now file.now)) }
{
    match format {
        Format::Elf => {
            elf32::load_as(alloc, file, size, elf_machine(set)).map_err(ProgramFault::Elf)
        }
        Format::Flat => Image::flat(alloc, file, size).map_err(ProgramFault::Flat),
    }
}

/// As [`image_as`], for A32.
///
/// # Errors
///
/// Those of [`image_as`].
pub fn image_of(
    alloc: Global,
    format: Format,
    size: &MachineSize,
    file: &[u8],
) -> Result<Image, ProgramFault>
    ensures sound { IfOk result (λ image. refusal_on format size.now file.now ≡ None) }
    ensures image { IfOk result (λ image. image ≡ image_of format file.now size.now) }
    ensures fault { IfErr result (IsFaultBy (refusal_on format size.now file.now)) }
{
    image_as(alloc, SetName::A32, format, size, file)
}
