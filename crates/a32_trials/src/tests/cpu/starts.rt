//! Cores with given registers and flags. A core starts with its flags clear, and instructions alone set them.
ghost use Rattle.std.specs.Result.{IfOk};
ghost use Rattle.guest_core.specs.Machine.{AwaitsNothing};

use super::*;
use llsc_base::Ask;

/// `adds r2, r0, r0`, which sets V by r0; `movs r2, r1, lsl #1`, which sets N, Z and C by r1; `ldmia sp, {r0-pc}`.
const SETTING: [u8; 12] = [
    0x00, 0x20, 0x90, 0xe0, 0x81, 0x20, 0xb0, 0xe1, 0xff, 0xff, 0x9d, 0xe8,
];

/// The flags from which a row is tried that has these. N and Z are never set together: each instruction that sets them sets
/// both by one result. A row that has both is tried with each of them alone.
pub(super) fn reachable(flags: u32) -> [u32; 2] {
    if flags & 12 == 12 {
        [flags & 11, flags & 7]
    } else {
        [flags, flags]
    }
}

/// A core before the instruction at 0x1000, with these registers and flags, not both N and Z among them.
pub(super) fn core_with(alloc: Global, regs: [u32; 15], flags: u32) -> Result<Cpu, Fail>
    ensures { IfOk result (λ cpu. AwaitsNothing cpu.phase) }
{
    let image = image(alloc, &SETTING)?;
    let mut cpu = flagged(&image, flags_of(flags))?;
    for value in regs {
        load(&mut cpu, &image, value)?;
    }
    load(&mut cpu, &image, 0x1000)?;
    finish(&mut cpu, &image)?;
    if !stands_with(&cpu, &regs, flags_of(flags)) {
        return Err("the core has other registers or flags")?;
    }
    Ok(cpu)
}

/// A core that has these flags, before the third instruction.
fn flagged(image: &Image, flags: Flags) -> Result<Cpu, Fail>
    ensures { IfOk result (λ cpu. AwaitsNothing cpu.phase) }
{
    let doubled = if flags.v { 0x4000_0000 } else { 0 };
    let mut cpu = Cpu::start(0x1000, doubled, shifted(flags), 0);
    finish(&mut cpu, image)?;
    finish(&mut cpu, image)?;
    Ok(cpu)
}

/// A number whose shift to the left by 1 sets N, Z and C so.
fn shifted(flags: Flags) -> u32 {
    let carried = if flags.c { 0x8000_0000 } else { 0 };
    let rest = if flags.n {
        0x4000_0000
    } else if flags.z {
        0
    } else {
        1
    };
    carried | rest
}

/// An instruction is complete.
fn finish(cpu: &mut Cpu, image: &Image) -> Result<(), Fail>
    requires { AwaitsNothing cpu.old.phase }
    ensures { IfOk result (λ done. AwaitsNothing cpu.new.phase) }
{
    match cpu.next(image) {
        Wanted::Done => Ok(()),
        _ => Err("no end of an instruction")?,
    }
}

/// A load gets this value.
fn load(cpu: &mut Cpu, image: &Image, value: u32) -> Result<(), Fail>
    requires { AwaitsNothing cpu.old.phase }
    ensures { IfOk result (λ done. AwaitsNothing cpu.new.phase) }
{
    match cpu.next(image) {
        Wanted::Access(Ask::Load(_)) => {
            cpu.give(u64::from(value));
            Ok(())
        }
        _ => Err("no load")?,
    }
}

/// Whether a core has these registers and flags, and is before the instruction at 0x1000.
fn stands_with(cpu: &Cpu, regs: &[u32; 15], flags: Flags) -> bool {
    for i in 0..15u32 {
        if cpu.reg(i) != regs[i as usize] {
            return false;
        }
    }
    cpu.flags() == flags && cpu.pc() == 0x1000
}
