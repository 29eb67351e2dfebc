//! Instructions of data processing.
ghost use Rattle.std.specs.Prelude.{◌≡◌, ◌+◌, ◌≤◌, true};
ghost use Rattle.a32_forms.specs.Forms.{number_at};
ghost use Rattle.a32_syntax.specs.inner.Bounds.{IsRegister, IsWithin};
ghost use Rattle.a32_syntax.specs.Meaning.{alu, alu_with, amount_of, by_amount, second_operand};
ghost use Rattle.a32_syntax.specs.Operands.{operands_of, three_operands, two_operands};

use crate::kinds::AsmKind;
use crate::operations::Operation;
use crate::registers::register;
use crate::second_operands::{amount_of, least_immediate, number_and_turn, shift_kind};
use a32_forms::Chosen;
use a32_instr::{AluOp, Cond, Instr, Operand2, Reg, ShiftKind};

/// A register shifted by a number.
fn by_amount(rm: Reg, kind: ShiftKind, bits: u64) -> Result<Operand2, AsmKind>
    ensures { result ≡ by_amount rm kind (amount_of kind bits) }
{
    let amount = amount_of(kind, bits)?;
    Ok(Operand2::ByNum { rm, kind, amount })
}

// The places of the second operand's forms among those of its operation.
const AS_NUMBER: usize = 0;

const AS_TURNED_NUMBER: usize = 1;

const AS_REGISTER: usize = 2;

const AS_SHIFTED_BY_NUMBER: usize = 3;

const AS_TURNED_THROUGH_CARRY: usize = 4;

/// The second operand by its form, whose numbers begin at a place.
#[tactic(auto, unfolding(crate::specs::Meaning::second_operand))]
fn second_operand(found: &Chosen, at: usize) -> Result<Operand2, AsmKind>
    requires place { at ≤ 2 }
    requires rm { 2 ≤ found.now.form → IsRegister found.now at }
    requires rs { 5 ≤ found.now.form → IsRegister found.now (at + 2) }
    ensures { result ≡ second_operand found.now at }
{
    match found.form() {
        AS_NUMBER => least_immediate(found.number(at)),
        AS_TURNED_NUMBER => number_and_turn(found.number(at), found.number(at + 1)),
        AS_REGISTER => Ok(Operand2::ByNum {
            rm: register(found, at),
            kind: ShiftKind::Lsl,
            amount: 0,
        }),
        AS_SHIFTED_BY_NUMBER => by_amount(
            register(found, at),
            shift_kind(found.number(at + 1)),
            found.number(at + 2),
        ),
        AS_TURNED_THROUGH_CARRY => Ok(Operand2::ByNum {
            rm: register(found, at),
            kind: ShiftKind::Ror,
            amount: 0,
        }),
        _ => Ok(Operand2::ByReg {
            rm: register(found, at),
            kind: shift_kind(found.number(at + 1)),
            rs: register(found, at + 2),
        }),
    }
}

/// A compare, which has no destination and always sets the flags.
#[tactic(auto, using(crate::proofs::Places::alu_registers))]
fn compare(cond: Cond, op: AluOp, found: &Chosen) -> Result<Instr, AsmKind>
    requires { IsWithin two_operands found.now }
    ensures { result ≡ alu_with cond op true 0 (number_at found.now 0) (second_operand found.now 1) }
{
    let operand = second_operand(found, 1)?;
    Ok(Instr::Alu {
        cond,
        op,
        s: true,
        rd: Reg::new(0),
        rn: register(found, 0),
        operand,
    })
}

/// A move, which has no first operand.
#[tactic(auto, using(crate::proofs::Places::alu_registers))]
fn move_operand(cond: Cond, op: AluOp, s: bool, found: &Chosen) -> Result<Instr, AsmKind>
    requires { IsWithin two_operands found.now }
    ensures { result ≡ alu_with cond op s (number_at found.now 0) 0 (second_operand found.now 1) }
{
    let operand = second_operand(found, 1)?;
    Ok(Instr::Alu {
        cond,
        op,
        s,
        rd: register(found, 0),
        rn: Reg::new(0),
        operand,
    })
}

/// An operation with two operands.
#[tactic(auto, using(crate::proofs::Places::alu_registers))]
fn operate(cond: Cond, op: AluOp, s: bool, found: &Chosen) -> Result<Instr, AsmKind>
    requires { IsWithin three_operands found.now }
    ensures { result ≡ alu_with cond op s (number_at found.now 0) (number_at found.now 1) (second_operand found.now 2) }
{
    let operand = second_operand(found, 2)?;
    Ok(Instr::Alu {
        cond,
        op,
        s,
        rd: register(found, 0),
        rn: register(found, 1),
        operand,
    })
}

/// Data processing (DDI 0406C A5.2).
pub fn alu(cond: Cond, op: AluOp, s: bool, found: &Chosen) -> Result<Instr, AsmKind>
    requires { IsWithin (operands_of (Operation.Alu op)) found.now }
    ensures { result ≡ alu cond op s found.now }
{
    if op.is_compare() {
        return compare(cond, op, found);
    }
    if op.is_move() {
        return move_operand(cond, op, s, found);
    }
    operate(cond, op, s, found)
}
