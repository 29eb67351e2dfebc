//! A file of a call: its bytes, and for a program's its machine and its image.
ghost use Rattle.std.specs.Prelude.{◌≡◌, None, Some, IfOk, IfErr, MatchResult, length};
ghost use Rattle.llsc_base.specs.Sizes.{size_fault};
ghost use Rattle.llsc_words.specs.Request.{machine_by};
ghost use Rattle.llsc_files.specs.Refusals.{machine_of, too_long, most_program, size_refusal, IsRefusal};
ghost use Rattle.llsc_files.specs.Programs.{image_of, program_refusal, program_refusal_as, refusal_as, IsLoaded, IsLoadedAs};
ghost use Rattle.llsc_files.specs.Reads.{Reads};

use crate::programs::image_as;
use crate::refusals::{Refusal, refuse};
use llsc_base::{Image, MachineSize, SizeFault};
use llsc_host::{Host, ReadFault};
use llsc_words::{Format, MachineNumbers, RUN_CLASSES, RUN_LIMIT, SetName};
use std::alloc::Global;

/// The number of the least granule, by which a row has eight bytes.
pub const LEAST_GRANULE: u64 = 0;

/// The numbers of a machine with so much memory, so many threads, and rows of this granule; its classes and their writes are
/// those of a run where none are given.
pub fn numbers_of(mem: u64, threads: u64, granule: u64) -> MachineNumbers
    ensures { machine_by result ≡ machine_of mem threads granule }
{
    MachineNumbers {
        mem,
        threads,
        classes: RUN_CLASSES,
        limit: RUN_LIMIT,
        granule,
    }
}

/// The bytes of the file of a name, `most` at most.
///
/// # Errors
///
/// Why they could not be had.
pub fn read<H: Host>(
    alloc: Global,
    host: &mut H,
    name: &str,
    most: usize,
) -> Result<Vec<u8>, ReadFault>
    ensures { Reads H.Host host.old host.new name.now most result }
{
    let Ok(owned) = String::from_str(alloc, name) else {
        return Err(ReadFault::Memory);
    };
    host.read_file(alloc, owned, most)
}

/// The machine of these numbers, or the first number that is out of its range.
fn sized(numbers: MachineNumbers) -> Result<MachineSize, SizeFault>
    ensures { let n = machine_by numbers in
        MatchResult result (λ size. (size_fault n ≡ None) × (size ≡ n)) (λ fault. size_fault n ≡ Some fault) }
{
    MachineSize::new(numbers.mem, numbers.threads, numbers.classes, numbers.limit)?.with_granule(
        numbers.granule,
    )
}

/// The machine of these numbers.
///
/// # Errors
///
/// The refusal by the first number that is out of its range.
pub fn machine(alloc: Global, numbers: MachineNumbers) -> Result<MachineSize, Refusal>
    ensures size { IfOk result (λ size. (size ≡ machine_by numbers) × (size_refusal (machine_by numbers) ≡ None)) }
    ensures refused { IfErr result (IsRefusal (size_refusal (machine_by numbers))) }
{
    match sized(numbers) {
        Ok(size) => Ok(size),
        Err(fault) => Err(refuse(alloc, fault.name())),
    }
}

/// The image of the file of a program of that instruction set on a machine.
#[tactic(auto, using(crate::proofs::Images::image_sized))]
fn image_on(
    alloc: Global,
    set: SetName,
    format: Format,
    size: &MachineSize,
    file: &[u8],
) -> Result<Image, Refusal>
    ensures sound { IfOk result (λ image. refusal_as set format size.now file.now ≡ None) }
    ensures image { IfOk result (λ image. image ≡ image_of format file.now size.now) }
    ensures whole { IfOk result (λ image. length image.bytes ≡ size.now.mem) }
    ensures refused { IfErr result (IsRefusal (refusal_as set format size.now file.now)) }
{
    match image_as(alloc, set, format, size, file) {
        Ok(image) => Ok(image),
        Err(fault) if fault.is_wanting() => Err(Refusal::Memory),
        Err(fault) => Err(refuse(alloc, fault.name())),
    }
}

/// A machine, and the image of its program.
#[derive(Drop)]
pub struct Loaded {
    pub size: MachineSize,
    pub image: Image,
}

/// The machine of these numbers, and the image of the file of a program of that instruction set on it.
///
/// # Errors
///
/// The refusal by what stands against the file, first.
pub fn load_as(
    alloc: Global,
    numbers: MachineNumbers,
    set: SetName,
    format: Format,
    file: Vec<u8>,
) -> Result<Loaded, Refusal>
    requires { too_long most_program file.items ≡ None }
    ensures loaded { IfOk result (IsLoadedAs set format (machine_by numbers) file.items) }
    ensures refused { IfErr result (IsRefusal (program_refusal_as set format (machine_by numbers) file.items)) }
{
    let size = machine(alloc, numbers)?;
    let image = image_on(alloc, set, format, &size, file.as_slice())?;
    Ok(Loaded { size, image })
}

/// As [`load_as`], for A32.
///
/// # Errors
///
/// Those of [`load_as`].
pub fn load(
    alloc: Global,
    numbers: MachineNumbers,
    format: Format,
    file: Vec<u8>,
) -> Result<Loaded, Refusal>
    requires { too_long most_program file.items ≡ None }
    ensures loaded { IfOk result (IsLoaded format (machine_by numbers) file.items) }
    ensures refused { IfErr result (IsRefusal (program_refusal format (machine_by numbers) file.items)) }
{
    load_as(alloc, numbers, SetName::A32, format, file)
}
