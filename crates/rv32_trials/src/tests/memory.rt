//! Loads, stores and calls, step by step: what is asked for, and what becomes of each reply.
use super::programs::image;
use llsc_base::{Ask, CallAsk, Place, Size, Stop};
use rv32_guest::{RvCpu, Wanted};
use std::test::Fail;

fn word_at(addr: u32) -> Place {
    Place {
        addr,
        size: Size::B4,
    }
}

/// `lui x6, 2`, `lr.w x5, (x6)`, `sc.w x7, x5, (x6)`, `mv x10, x7`, `li x17, 93`, `ecall`: a store-conditional that succeeds has 0.
#[test]
fn a_reserved_word_is_stored(rt: HostRuntime) -> Result<(), Fail> {
    let image = image(
        rt.alloc(),
        &[
            0x2337,
            0x1003_22af,
            0x1853_23af,
            0x0003_8513,
            0x05d0_0893,
            0x73,
        ],
    )?;
    for status in 0..2 {
        let mut cpu = RvCpu::start(0x1000, 0, 1, 0);
        assert_eq!(rt; cpu.next(&image), Wanted::Done);
        assert_eq!(rt;
            cpu.next(&image),
            Wanted::Access(Ask::LoadEx(word_at(0x2000)))
        );
        cpu.give(0x1234_5678);
        assert_eq!(rt; cpu.next(&image), Wanted::Done);
        assert_eq!(rt;
            cpu.next(&image),
            Wanted::Access(Ask::StoreEx(word_at(0x2000), 0x1234_5678))
        );
        cpu.give(status);
        assert_eq!(rt; cpu.next(&image), Wanted::Done);
        assert_eq!(rt; cpu.next(&image), Wanted::Done);
        assert_eq!(rt; cpu.next(&image), Wanted::Done);
        let call = CallAsk {
            imm: 0,
            number: 93,
            a: status as u32,
            b: 1,
            c: 0,
        };
        assert_eq!(rt; cpu.next(&image), Wanted::Call(call));
        cpu.answer(7);
        assert_eq!(rt; cpu.reg(10), 7);
        assert_eq!(rt; cpu.pc(), 0x1018);
    }
    Ok(())
}

/// `lb x12, -1(x10)`, `lhu x12, 2(x10)` and `sb x11, 3(x10)`.
#[test]
fn loads_and_stores(rt: HostRuntime) -> Result<(), Fail> {
    let image = image(rt.alloc(), &[0xfff5_0603, 0x0025_5603, 0x00b5_01a3])?;
    let mut cpu = RvCpu::start(0x1000, 0x3000, 0x1ff, 0);
    assert_eq!(rt;
        cpu.next(&image),
        Wanted::Access(Ask::Load(Place {
            addr: 0x2fff,
            size: Size::B1
        }))
    );
    cpu.give(0x80);
    assert_eq!(rt; cpu.next(&image), Wanted::Done);
    assert_eq!(rt; cpu.reg(12), 0xffff_ff80);
    assert_eq!(rt;
        cpu.next(&image),
        Wanted::Access(Ask::Load(Place {
            addr: 0x3002,
            size: Size::B2
        }))
    );
    cpu.give(0x8001);
    assert_eq!(rt; cpu.next(&image), Wanted::Done);
    assert_eq!(rt; cpu.reg(12), 0x8001);
    assert_eq!(rt;
        cpu.next(&image),
        Wanted::Access(Ask::Store(
            Place {
                addr: 0x3003,
                size: Size::B1
            },
            0xff
        ))
    );
    cpu.give(0);
    assert_eq!(rt; cpu.next(&image), Wanted::Done);
    assert_eq!(rt; cpu.next(&image), Wanted::Stopped(Stop::Outside(0x100c)));
    Ok(())
}

/// `lw x12, 0(x10)` at an address that is no multiple of 4, and `jalr x1, 3(x10)`, whose target's bit 1 is left.
#[test]
fn stops(rt: HostRuntime) -> Result<(), Fail> {
    let loads = image(rt.alloc(), &[0x0005_2603])?;
    let mut cpu = RvCpu::start(0x1000, 0x2002, 0, 0);
    assert_eq!(rt; cpu.next(&loads), Wanted::Stopped(Stop::Alignment(0x2002)));
    assert_eq!(rt; cpu.next(&loads), Wanted::Stopped(Stop::Alignment(0x2002)));
    let jumps = image(rt.alloc(), &[0x0035_00e7])?;
    let mut cpu = RvCpu::start(0x1000, 0x2000, 0, 0);
    assert_eq!(rt; cpu.next(&jumps), Wanted::Stopped(Stop::Alignment(0x2002)));
    assert_eq!(rt; cpu.reg(1), 0);
    Ok(())
}
