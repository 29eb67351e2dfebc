//! One call at a time, at the edges of each rule.
use super::same;
use a32_step::Cpu;
use guest_calls::{CallStep, Output, guest_call};
use guest_core::Wanted;
use llsc_base::{CallAsk, Image, MachineSize};
use std::alloc::Global;
use std::process::Abort;
use std::test::Fail;

/// r0 of a core whose call isn't answered.
const KEPT: u32 = 77;

/// An output of so many bytes.
fn written(alloc: Global, count: u32) -> Result<Output, Fail> {
    let mut output = Output::new(alloc)?;
    for _ in 0..count {
        if output.room_left() > 0 {
            output.push(b'.');
        }
    }
    Ok(output)
}

/// What becomes of a call, and r0 afterwards.
fn made(alloc: Global, ask: CallAsk, count: u32, mem: u32) -> Result<(CallStep, u32), Fail> {
    let size = MachineSize::new(65_536, 1, 1, 1)?;
    let image = Image::flat(alloc, &[0, 0, 0, 0xef], &size)?;
    let mut cpu = Cpu::start(image.entry(), KEPT, 1, 0);
    let Wanted::Call(_) = cpu.next(&image) else {
        return Err(Fail::from("the program makes no call"));
    };
    let mut output = written(alloc, count)?;
    let step = guest_call(&mut cpu, &ask, mem, &mut output);
    Ok((step, cpu.reg(0)))
}

/// A call, the bytes written before and those of memory; what becomes of it, and r0 afterwards.
#[derive(Clone, Copy)]
struct Case {
    ask: CallAsk,
    written: u32,
    mem: u32,
    step: CallStep,
    r0: u32,
}

/// The call of a number by an immediate, with r0, r1 and r2.
fn call(number: u32, imm: u32, a: u32, b: u32, c: u32) -> CallAsk {
    CallAsk {
        imm,
        number,
        a,
        b,
        c,
    }
}

/// The write of so many bytes from an address up.
fn write_of(descriptor: u32, from: u32, len: u32) -> CallAsk {
    call(4, 0, descriptor, from, len)
}

/// A call that ends the thread.
fn exits(ask: CallAsk, code: u8) -> Case {
    Case {
        ask,
        written: 0,
        mem: 100,
        step: CallStep::Exit(code),
        r0: KEPT,
    }
}

/// A call that is answered.
fn answers(ask: CallAsk, written: u32, mem: u32, r0: u32) -> Case {
    Case {
        ask,
        written,
        mem,
        step: CallStep::Answered,
        r0,
    }
}

/// A write that wants its bytes.
fn wants_bytes(ask: CallAsk, written: u32, mem: u32, from: u32, len: u32) -> Case {
    Case {
        ask,
        written,
        mem,
        step: CallStep::Bytes { from, len },
        r0: KEPT,
    }
}

/// Makes the call of each case.
fn make<R: Abort>(rt: &R, alloc: Global, cases: &[Case]) -> Result<(), Fail> {
    for case in cases {
        let ask = case.ask;
        let made = made(alloc, ask, case.written, case.mem)?;
        same(rt, (ask, made), (ask, (case.step, case.r0)));
    }
    Ok(())
}

#[test]
fn exits_with_the_low_byte(rt: HostRuntime) -> Result<(), Fail> {
    let cases = [
        exits(call(1, 0, 0, 0, 0), 0),
        exits(call(1, 0, 0x1ff, 0, 0), 255),
        exits(call(1, 0, 256, 0, 0), 0),
    ];
    make(&rt, rt.alloc(), &cases)
}

#[test]
fn answers_a_write_without_its_bytes(rt: HostRuntime) -> Result<(), Fail> {
    let cases = [
        answers(write_of(0, 1000, 1000), 0, 100, 0xffff_fff7),
        answers(write_of(3, 0, 0), 0, 100, 0xffff_fff7),
        answers(write_of(0xffff_ffff, 0, 1), 0, 100, 0xffff_fff7),
        answers(write_of(1, 0xffff_ffff, 0), 0, 100, 0),
        answers(write_of(2, 5, 0), 65_536, 100, 0),
        answers(write_of(1, 100, 1), 0, 100, 0xffff_fff2),
        answers(write_of(1, 1, 100), 0, 100, 0xffff_fff2),
        answers(write_of(1, 0xffff_ffff, 1), 0, 0xffff_ffff, 0xffff_fff2),
        answers(write_of(1, 0xffff_ffff, 2), 0, 100, 0xffff_fff2),
        answers(write_of(1, 90, 11), 65_536, 100, 0xffff_fff2),
        answers(write_of(1, 0, 2), 65_535, 100, 0xffff_ffe4),
        answers(write_of(2, 0, 1), 65_536, 100, 0xffff_ffe4),
        answers(write_of(1, 8, 65_537), 0, 100_000, 0xffff_ffe4),
    ];
    make(&rt, rt.alloc(), &cases)
}

#[test]
fn wants_the_bytes_of_a_write(rt: HostRuntime) -> Result<(), Fail> {
    let cases = [
        wants_bytes(write_of(1, 99, 1), 0, 100, 99, 1),
        wants_bytes(write_of(2, 0, 100), 0, 100, 0, 100),
        wants_bytes(write_of(1, 0, 1), 65_535, 100, 0, 1),
        wants_bytes(write_of(1, 8, 65_536), 0, 100_000, 8, 65_536),
    ];
    make(&rt, rt.alloc(), &cases)
}

#[test]
fn answers_other_calls(rt: HostRuntime) -> Result<(), Fail> {
    let cases = [
        answers(call(1, 1, 0, 0, 0), 0, 100, 0xffff_ffda),
        answers(call(4, 7, 1, 0, 1), 0, 100, 0xffff_ffda),
        answers(call(158, 0, 5, 6, 7), 0, 100, 0),
        answers(call(3, 0, 0, 0, 0), 0, 100, 0xffff_ffda),
    ];
    make(&rt, rt.alloc(), &cases)
}
