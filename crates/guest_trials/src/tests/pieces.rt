//! A guest on a memory that threads share, which runs piece by piece and calls for a thread to be started.
ghost use Rattle.std.specs.Prelude.{◌≡◌, ◌≤◌, IfOk, length};
ghost use Rattle.guest_trials.specs.inner.Parts.{MayGoOn};

use super::programs::image_of;
use a32_step::{Cpu, Kept};
use guest_calls::Output;
use guest_core::Code;
use guest_thread::{Finished, Part, Paused, go_on, start_cpu};
use llsc_base::{MachineSize, Stop};
use shared_memory::SharedMemory;
use std::alloc::Global;
use std::sync::Wait;
use std::test::Fail;
use version_memory::VersionMemory;

/// Calls for a thread to be started at 0x1000 with 7, stores the answer at 0x2000, and leaves with it:
/// mov r0, #0x1000; mov r1, #7; movw r7, #1; movt r7, #15; svc #0; mov r2, #0x2000; str r0, [r2]; exit.
const STARTS: &[u32] = &[
    0xe3a0_0a01,
    0xe3a0_1007,
    0xe300_7001,
    0xe340_700f,
    0xef00_0000,
    0xe3a0_2a02,
    0xe582_0000,
    0xe3a0_7001,
    0xef00_0000,
];

/// More steps than it makes.
const BUDGET: u64 = 1000;

/// Runs a guest's next piece. A call for a thread to be started at 0x1000 with 7 is answered by 5, and any other by 6.
fn next_piece<M: SharedMemory, R: Wait>(
    rt: &R,
    mem: &M,
    code: &mut Code<Kept>,
    part: Part<M::Pass, Cpu>,
    upto: u64,
    starts: bool,
) -> Result<Part<M::Pass, Cpu>, Finished<M::Pass>>
    requires part { MayGoOn M.home M.numbers M.seen (M.id mem.now) (M.origin mem.now) upto part }
    requires whole { length code.old.program.bytes ≡ (M.origin mem.now).size.mem }
    requires upto { upto ≤ 1000 }
    ensures program { code.new.program ≡ code.old.program }
    ensures part { IfOk result (MayGoOn M.home M.numbers M.seen (M.id mem.now) (M.origin mem.now) upto) }
{
    match go_on(rt, mem, code, part, upto, BUDGET, starts) {
        Paused::Ended(done) => Err(done),
        Paused::Start { part, entry, arg } => {
            let mut part = part;
            let answer = if (entry, arg) == (0x1000, 7) { 5 } else { 6 };
            part.cpu.answer(answer);
            part.steps += 1;
            Ok(part)
        }
        Paused::Pause(part) => Ok(part),
    }
}

/// How a guest ends that runs by pieces of so many steps, and how many pieces these are.
fn ended<M: SharedMemory, R: Wait>(
    rt: &R,
    mem: &M,
    code: &mut Code<Kept>,
    part: Part<M::Pass, Cpu>,
    slice: u64,
    starts: bool,
) -> Result<(Finished<M::Pass>, u64), Fail>
    requires part { MayGoOn M.home M.numbers M.seen (M.id mem.now) (M.origin mem.now) 0 part }
    requires whole { length code.old.program.bytes ≡ (M.origin mem.now).size.mem }
    requires slice { slice ≤ 7 }
{
    let mut part = part;
    let mut upto = 0;
    let mut pieces = 0;
    while pieces < 100 {
        pieces += 1;
        upto += slice;
        match next_piece(rt, mem, code, part, upto, starts) {
            Ok(next) => part = next,
            Err(done) => return Ok((done, pieces)),
        }
    }
    Err(Fail::from("the guest doesn't end"))
}

/// Whether the program ends so by pieces of so many steps: the code with which it leaves, and its pieces. It makes nine steps, and
/// stores once.
fn ends_so<R: Wait>(
    rt: &R,
    alloc: Global,
    slice: u64,
    starts: bool,
    wanted: (u8, u64),
) -> Result<bool, Fail>
    requires { slice ≤ 7 }
{
    let size = MachineSize::new(65_536, 1, 4096, 1 << 62)?;
    let image = image_of(alloc, STARTS, &size)?;
    let (memory, pass) = VersionMemory::new(alloc, &image, &size)?;
    let mut code = Code::new(alloc, &image)?;
    let part = Part::new(start_cpu(&image, &size, 1, 0), pass, Output::new(alloc)?);
    let (done, pieces) = ended(rt, &memory, &mut code, part, slice, starts)?;
    let Finished { pass: _, end } = done;
    let counts = (end.thread, end.steps, end.reads, end.writes, end.fails);
    Ok(counts == (0, 9, 0, 1, 0) && (end.stop, pieces) == (Stop::Exit(wanted.0), wanted.1))
}

#[test]
fn runs_piece_by_piece(rt: HostRuntime) -> Result<(), Fail> {
    assert!(rt; ends_so(&rt, rt.alloc(), 1, true, (5, 9))?);
    assert!(rt; ends_so(&rt, rt.alloc(), 7, true, (5, 2))?);
    assert!(rt; ends_so(&rt, rt.alloc(), 1, false, (218, 9))?);
    assert!(rt; ends_so(&rt, rt.alloc(), 7, false, (218, 2))?);
    Ok(())
}
