//! Conditions, and writes to the PC.
ghost use Rattle.guest_core.specs.Machine.{AwaitsNothing};

use super::*;
use a32_compute::conditions::passes;
use a32_decode::decode;

/// A move of 1 to r0 under each condition, and the flags at which it was done: bit F is set for flags F.
const CONDITIONS: [[u32; 2]; 15] = [
    [0x03a00001, 0xf0f0],
    [0x13a00001, 0x0f0f],
    [0x23a00001, 0xcccc],
    [0x33a00001, 0x3333],
    [0x43a00001, 0xff00],
    [0x53a00001, 0x00ff],
    [0x63a00001, 0xaaaa],
    [0x73a00001, 0x5555],
    [0x83a00001, 0x0c0c],
    [0x93a00001, 0xf3f3],
    [0xa3a00001, 0xaa55],
    [0xb3a00001, 0x55aa],
    [0xc3a00001, 0x0a05],
    [0xd3a00001, 0xf5fa],
    [0xe3a00001, 0xffff],
];

/// What comes of a core's next instruction: what it wants then, its r0, and its PC.
fn after(mut cpu: Cpu, image: &Image) -> (Wanted, u32, u32)
    requires { AwaitsNothing cpu.phase }
{
    let wanted = cpu.next(image);
    (wanted, cpu.reg(0), cpu.pc())
}

/// At all flags that a core can have: N and Z are never set together.
#[test]
fn passes_conditions(rt: HostRuntime) -> Result<(), Fail> {
    for &[word, passing] in &CONDITIONS {
        let image = image_of(rt.alloc(), word)?;
        for flags in 0..12u32 {
            let cpu = core_with(rt.alloc(), regs_of(0, 0, 0, 0), flags)?;
            let wanted = (Wanted::Done, passing >> flags & 1, 0x1004);
            assert!(rt; after(cpu, &image) == wanted, "at {word:#x} with {flags}");
        }
    }
    Ok(())
}

/// Whether flags meet the condition of a word, by the functions that a core asks.
fn meets(word: u32, flags: Flags) -> bool {
    match decode(word) {
        Ok(instr) => passes(instr.cond(), flags),
        Err(_) => false,
    }
}

/// At all flags, N and Z together too.
#[test]
fn meets_conditions(rt: HostRuntime) {
    for &[word, passing] in &CONDITIONS {
        for flags in 0..16u32 {
            let wanted = passing >> flags & 1 != 0;
            assert!(rt;
                meets(word, flags_of(flags)) == wanted,
                "at {word:#x} with {flags}"
            );
        }
    }
}

/// Values of r1, and what comes of `mov pc, r1` then, with the PC.
const JUMPS: [(u32, Wanted, u32); 5] = [
    (0x1008, Wanted::Done, 0x1008),
    (0xffff_fffc, Wanted::Done, 0xffff_fffc),
    (0x1001, Wanted::Stopped(Stop::Thumb(0x1000)), 0x1000),
    (0x1003, Wanted::Stopped(Stop::Thumb(0x1000)), 0x1000),
    (0x1002, Wanted::Stopped(Stop::Unpredictable(0x1000)), 0x1000),
];

/// The PC takes a multiple of 4, and nothing else (DDI 0406C A2.3.2, BXWritePC).
#[test]
fn writes_the_pc(rt: HostRuntime) -> Result<(), Fail> {
    let image = image_of(rt.alloc(), 0xe1a0_f001)?;
    for &(target, wanted, pc) in &JUMPS {
        let cpu = core_with(rt.alloc(), regs_of(0, target, 0, 0), 0)?;
        assert!(rt; after(cpu, &image) == (wanted, 0, pc), "to {target:#x}");
    }
    Ok(())
}
