//! Instructions as they are shown, one of each kind of operands.
ghost use Rattle.std.specs.Prelude.{◌≡◌, ◌<◌};
ghost use Rattle.a32_syntax.specs.Formed.{IsFormed};

use a32_instr::{AluOp, Cond, Index, Instr, Offset, Operand2, Reg, ShiftKind};
use a32_syntax::write_instruction;
use llsc_base::Line;

fn r(num: u8) -> Reg
    requires { num < 16 }
    ensures { result ≡ num }
{
    Reg::new(num)
}

/// Whether an instruction at an address is shown as this text.
fn is_shown(instruction: &Instr, here: u32, text: &[u8]) -> bool
    requires { IsFormed instruction.now }
{
    let mut line = Line::new();
    write_instruction(instruction, here, &mut line);
    line.bytes() == text
}

/// An immediate by its least turn.
#[test]
#[tactic(auto, unfolding(a32_syntax::specs::Formed::IsFormed))]
fn writes_an_immediate(rt: HostRuntime) {
    let least = Instr::Alu {
        cond: Cond::ALWAYS,
        op: AluOp::Mov,
        s: true,
        rd: r(1),
        rn: r(0),
        operand: Operand2::Imm { turn: 10, imm8: 2 },
    };
    assert!(rt; is_shown(&least, 0, b"movs r1, #8192"));
}

/// The longest text: each register of a block.
#[test]
#[tactic(auto, unfolding(a32_syntax::specs::Formed::IsFormed))]
fn writes_a_block_of_all_registers(rt: HostRuntime) {
    let all = Instr::Block {
        cond: Cond::new(0),
        load: true,
        before: false,
        up: true,
        wback: true,
        rn: r(10),
        list: 0xffff,
    };
    let text = b"ldmiaeq r10!, {r0, r1, r2, r3, r4, r5, r6, r7, r8, r9, r10, r11, r12, sp, lr, pc}";
    assert!(rt; is_shown(&all, 0, text));
}

/// A base that is moved down and written back.
#[test]
#[tactic(auto, unfolding(a32_syntax::specs::Formed::IsFormed))]
fn writes_a_moved_base(rt: HostRuntime) {
    let store = Instr::Word {
        cond: Cond::ALWAYS,
        load: false,
        byte: false,
        index: Index::Pre,
        rn: r(13),
        rt: r(14),
        offset: Offset::Shifted {
            add: false,
            rm: r(3),
            kind: ShiftKind::Lsr,
            amount: 0,
        },
    };
    assert!(rt; is_shown(&store, 0, b"str lr, [sp, -r3, lsr #32]!"));
}

/// A branch below address 0.
#[test]
#[tactic(auto, unfolding(a32_syntax::specs::Formed::IsFormed))]
fn writes_a_target(rt: HostRuntime) {
    let branch = Instr::Branch {
        cond: Cond::ALWAYS,
        link: true,
        words: -4,
    };
    assert!(rt; is_shown(&branch, 4, b"bl 0xfffffffc"));
}
