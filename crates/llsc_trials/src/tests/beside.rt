//! Guest threads that run beside each other, with all rows in one class.
ghost use Rattle.std.specs.Prelude.{◌≡◌, IfOk, length};

use super::*;
use a32_step::Cpu;
use elf32::write;
use guest_gen::counters;
use llsc_base::{Image, MachineSize};
use llsc_call::beside::run_beside;
use llsc_files::programs::image_of;
use llsc_report::total;
use llsc_words::{Format, RUN_LIMIT};

/// The file of the counter guest of the seed 7 with a hundred rounds of each of four threads.
fn counting(alloc: Global) -> Result<Vec<u8>, AllocError> {
    let unit = counters(alloc, 7, 4, 100).map_err(|_| AllocError)?;
    write(alloc, &unit)
}

/// The image of an ELF file on a machine.
fn loaded(alloc: Global, size: &MachineSize, file: &[u8]) -> Result<Image, AllocError>
    ensures { IfOk result (λ image. length image.bytes ≡ size.now.mem) }
{
    match image_of(alloc, Format::Elf, size, file) {
        Ok(image) => Ok(image),
        Err(_) => Err(AllocError),
    }
}

/// What the counters hold together once the threads of an image have run.
fn counted<R: Threads + Wait + Sync + AllocGlobal + Abort>(
    rt: &R,
    size: &MachineSize,
    image: &Image,
) -> Result<u64, AllocError>
    requires { length image.now.bytes ≡ size.now.mem }
{
    let done = run_beside::<Cpu, R>(rt, rt.alloc(), size, image, 1_000_000)?;
    assert!(rt; done.rows.count() >= 2000);
    Ok(total(&done.rows))
}

#[test]
fn counts_with_all_rows_in_one_class(rt: HostRuntime) -> Result<(), Fail> {
    let file = counting(rt.alloc())?;
    let size = MachineSize::new(1_048_576, 4, 1, RUN_LIMIT)?;
    let image = loaded(rt.alloc(), &size, file.as_slice())?;
    same(&rt, counted(&rt, &size, &image)?, 400);
    let files = holding(rt.alloc(), "counters", file)?;
    let (status, _) = called(
        &rt,
        "run --threads 4 --classes 1 counters",
        files,
        &[],
        SPACE,
    )?;
    same(&rt, status, 0);
    Ok(())
}
