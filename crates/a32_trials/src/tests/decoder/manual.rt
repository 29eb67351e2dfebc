//! Words and what they are, encoded by hand from the manual (DDI 0406C A5, A8.8).
ghost use Rattle.std.specs.Prelude.{◌<◌};

use super::first_wrong;
use crate::tests::same;
use a32_decode::DecodeFault;
use a32_instr::{AluOp, Cond, Index, Instr, Offset, Operand2, Reg, ShiftKind};
use llsc_base::Size;

/// Data processing under the condition AL.
fn alu(op: AluOp, s: bool, rd: u8, rn: u8, turn: u8, imm8: u8) -> Result<Instr, DecodeFault>
    requires rd { rd < 16 }
    requires rn { rn < 16 }
{
    let operand = Operand2::Imm { turn, imm8 };
    Ok(Instr::Alu {
        cond: Cond::ALWAYS,
        op,
        s,
        rd: Reg::new(rd),
        rn: Reg::new(rn),
        operand,
    })
}

/// A load or a store of a word under the condition AL, with a number as its offset.
fn word(load: bool, rt: u8, rn: u8, add: bool, imm: u16) -> Result<Instr, DecodeFault>
    requires rt { rt < 16 }
    requires rn { rn < 16 }
{
    access(load, false, Index::Plain, rt, rn, Offset::Imm { add, imm })
}

/// A load or a store under the condition AL.
fn access(
    load: bool,
    byte: bool,
    index: Index,
    rt: u8,
    rn: u8,
    offset: Offset,
) -> Result<Instr, DecodeFault>
    requires rt { rt < 16 }
    requires rn { rn < 16 }
{
    Ok(Instr::Word {
        cond: Cond::ALWAYS,
        load,
        byte,
        index,
        rn: Reg::new(rn),
        rt: Reg::new(rt),
        offset,
    })
}

/// Register 2 added, shifted left.
fn scaled(amount: u8) -> Offset {
    Offset::Shifted {
        add: true,
        rm: Reg::new(2),
        kind: ShiftKind::Lsl,
        amount,
    }
}

/// A load-exclusive of r0 at r1.
fn load_ex(size: Size) -> Result<Instr, DecodeFault> {
    Ok(Instr::LoadEx {
        cond: Cond::ALWAYS,
        size,
        rn: Reg::new(1),
        rt: Reg::new(0),
    })
}

/// A store-exclusive of r2 at r1, with its status in r0.
fn store_ex(size: Size) -> Result<Instr, DecodeFault> {
    Ok(Instr::StoreEx {
        cond: Cond::ALWAYS,
        size,
        rn: Reg::new(1),
        rd: Reg::new(0),
        rt: Reg::new(2),
    })
}

fn branch(cond: u8, words: i32) -> Result<Instr, DecodeFault>
    requires { cond < 15 }
{
    Ok(Instr::Branch {
        cond: Cond::new(cond),
        link: false,
        words,
    })
}

fn svc(imm: u32) -> Result<Instr, DecodeFault> {
    Ok(Instr::Svc {
        cond: Cond::ALWAYS,
        imm,
    })
}

#[test]
fn decodes_words_of_each_row(rt: HostRuntime) {
    let words = [
        // mov r0, #0; mov r7, #1; add r3, r1, #0x1000; subs r2, r2, #1; cmp r1, #3
        (0xE3A00000, alu(AluOp::Mov, false, 0, 0, 0, 0)),
        (0xE3A07001, alu(AluOp::Mov, false, 7, 0, 0, 1)),
        (0xE2813A01, alu(AluOp::Add, false, 3, 1, 10, 1)),
        (0xE2522001, alu(AluOp::Sub, true, 2, 2, 0, 1)),
        (0xE3510003, alu(AluOp::Cmp, true, 0, 1, 0, 3)),
        // str r0, [r1]; ldr r0, [r1]; str r0, [r1, #-4]; ldr r3, [r4, #-2052]
        (0xE5810000, word(false, 0, 1, true, 0)),
        (0xE5910000, word(true, 0, 1, true, 0)),
        (0xE5010004, word(false, 0, 1, false, 4)),
        (0xE5143804, word(true, 3, 4, false, 2052)),
        // bne, three words back; b, two words on; svc #0; svc #0x123456
        (0x1AFFFFFD, branch(1, -3)),
        (0xEA000002, branch(14, 2)),
        (0xEF000000, svc(0)),
        (0xEF123456, svc(0x123456)),
    ];
    same(&rt, first_wrong(&words), None);
}

#[test]
fn decodes_each_form_of_an_access(rt: HostRuntime) {
    let four = Offset::Imm { add: true, imm: 4 };
    let words = [
        // ldr r0, [r1], #4; strb r0, [r1, #4]!; ldr r0, [r1, r2, lsl #2]; ldrb r0, [r1, r2]
        (0xE4910004, access(true, false, Index::Post, 0, 1, four)),
        (
            0xE5E10004,
            access(
                false,
                true,
                Index::Pre,
                0,
                1,
                Offset::Imm { add: true, imm: 4 },
            ),
        ),
        (
            0xE7910102,
            access(true, false, Index::Plain, 0, 1, scaled(2)),
        ),
        (
            0xE7D10002,
            access(true, true, Index::Plain, 0, 1, scaled(0)),
        ),
        // ldrex, ldrexb, ldrexh r0, [r1]; ldrexd r0, r1, [r1]
        (0xE1910F9F, load_ex(Size::B4)),
        (0xE1D10F9F, load_ex(Size::B1)),
        (0xE1F10F9F, load_ex(Size::B2)),
        (0xE1B10F9F, load_ex(Size::B8)),
        // strex, strexb, strexh r0, r2, [r1]; strexd r0, r2, r3, [r1]
        (0xE1810F92, store_ex(Size::B4)),
        (0xE1C10F92, store_ex(Size::B1)),
        (0xE1E10F92, store_ex(Size::B2)),
        (0xE1A10F92, store_ex(Size::B8)),
    ];
    same(&rt, first_wrong(&words), None);
}
