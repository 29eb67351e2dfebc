//! The image of an ELF file.
ghost use Rattle.std.specs.Prelude.{◌≡◌, ◌≤◌, ◌⊎◌, length, None, Some, IfOk, IfErr, IfSome};
ghost use Rattle.llsc_base.specs.Sizes.{room_of};
ghost use Rattle.elf32.specs.Faults.{first_fault, first_fault_as, program_fault};
ghost use Rattle.elf32.specs.Headers.{header_size, segments_of};
ghost use Rattle.elf32.specs.Image.{image_of};

use crate::checks::{ARM, header_fault, program_fault};
use crate::faults::ElfFault;
use crate::fields::entry_field;
use crate::headers::ProgramHeader;
use crate::segments;
use crate::table::{Headers, program_headers, segments_among};
use llsc_base::{Image, MachineSize};
use std::alloc::{AllocError, Global};

/// The image of an ELF file for Arm on a machine of this size: its segments in memory, and 0 elsewhere.
///
/// # Errors
///
/// The first of [`ElfFault`]'s variants that holds of the file, in their order; `Memory`, the last, where there is no
/// memory for the image.
pub fn load(alloc: Global, bytes: &[u8], size: &MachineSize) -> Result<Image, ElfFault>
    ensures image { IfOk result (λ image. (first_fault bytes.now size.now ≡ None) × (image ≡ image_of bytes.now size.now)) }
    ensures fault { IfErr result (λ fault. (first_fault bytes.now size.now ≡ Some fault) ⊎ (fault ≡ ElfFault.Memory)) }
    ensures refused { IfSome (first_fault bytes.now size.now) (λ fault. result ≡ Err fault) }
{
    load_as(alloc, bytes, size, u32::from(ARM))
}

/// As [`load`], for the processor of this number (e_machine) in place of Arm, whose number is 40. Nothing else depends on the
/// number: an odd entry is `ThumbEntry` by each.
///
/// # Errors
///
/// Those of [`load`], with `Machine` where the file has another number.
pub fn load_as(
    alloc: Global,
    bytes: &[u8],
    size: &MachineSize,
    machine: u32,
) -> Result<Image, ElfFault>
    ensures image { IfOk result (λ image. (first_fault_as machine bytes.now size.now ≡ None) × (image ≡ image_of bytes.now size.now)) }
    ensures fault { IfErr result (λ fault. (first_fault_as machine bytes.now size.now ≡ Some fault) ⊎ (fault ≡ ElfFault.Memory)) }
    ensures refused { IfSome (first_fault_as machine bytes.now size.now) (λ fault. result ≡ Err fault) }
{
    let segments = sound_segments(machine, bytes, size)?;
    image(alloc, bytes, &segments, size).map_err(|_| ElfFault::Memory)
}

/// The segments of a file for the processor of this number that has no fault, or its first fault.
#[tactic(auto, unfolding(crate::specs::Faults::first_fault_as, crate::specs::Headers::segments_of))]
fn sound_segments(machine: u32, bytes: &[u8], size: &MachineSize) -> Result<Headers, ElfFault>
    ensures none { IfOk result (λ segments. first_fault_as machine bytes.now size.now ≡ None) }
    ensures header { IfOk result (λ segments. header_size ≤ length bytes.now) }
    ensures sound { IfOk result (λ segments. program_fault (room_of size.now) bytes.now ≡ None) }
    ensures segments { IfOk result (λ segments. segments.items ≡ segments_of bytes.now) }
    ensures fault { IfErr result (λ fault. first_fault_as machine bytes.now size.now ≡ Some fault) }
{
    if let Some(fault) = header_fault(machine, bytes) {
        return Err(fault);
    }
    let headers = program_headers(bytes);
    let segments = segments_among(&headers);
    if let Some(fault) = program_fault(size.room(), bytes, &headers, &segments) {
        return Err(fault);
    }
    Ok(segments)
}

/// The image of a file with a header and no fault of its program headers, of which these are the segments.
fn image(
    alloc: Global,
    bytes: &[u8],
    segments: &[ProgramHeader],
    size: &MachineSize,
) -> Result<Image, AllocError>
    requires header { header_size ≤ length bytes.now }
    requires sound { program_fault (room_of size.now) bytes.now ≡ None }
    requires segments { segments.now ≡ segments_of bytes.now }
    ensures { IfOk result (λ image. image ≡ image_of bytes.now size.now) }
{
    let memory = segments::memory(alloc, bytes, segments, size.mem())?;
    let spans = segments::spans(alloc, segments)?;
    Ok(Image::of(memory, spans, entry_field(bytes)))
}
