//! How second operands and offsets are shown.
ghost use Rattle.std.specs.Prelude.{◌≡◌, ◌<◌, ◌≤◌, ◌+◌, ◌*◌, ◌^◌, ◌++◌, ◌∷◌, [], length, Some};
ghost use Rattle.a32_syntax.specs.Shown.{alu_registers, bits_shown, is_through_carry, is_unshifted, operand_form, operand_numbers, shift_number};

use crate::immediates::{immediate_number, is_least};
use crate::shown_numbers::{Numbers, register};
use a32_instr::{AluOp, Operand2, Reg, ShiftKind};

/// The number of a kind of shift.
pub fn shift_number(kind: ShiftKind) -> u64
    ensures value { result ≡ shift_number kind }
{
    match kind {
        ShiftKind::Lsl => 0,
        ShiftKind::Lsr => 1,
        ShiftKind::Asr => 2,
        ShiftKind::Ror => 3,
    }
}

/// The bits of a shift by its field: at LSR and ASR 0 stands for 32.
pub fn bits_shown(amount: u8) -> u64
    ensures { result ≡ bits_shown amount }
{
    if amount == 0 { 32 } else { u64::from(amount) }
}

/// Whether a shift by a number is none.
pub fn is_unshifted(kind: ShiftKind, amount: u8) -> bool
    ensures { result ≡ is_unshifted kind amount }
{
    matches!(kind, ShiftKind::Lsl) && amount == 0
}

/// Whether a shift by a number is a turn through the carry.
pub fn is_through_carry(kind: ShiftKind, amount: u8) -> bool
    ensures { result ≡ is_through_carry kind amount }
{
    matches!(kind, ShiftKind::Ror) && amount == 0
}

/// Adds the numbers of an immediate behind the others, and tells its form.
#[tactic(auto, unfolding(crate::specs::Shown::operand_form, crate::specs::Shown::operand_numbers))]
fn show_immediate(turn: u8, imm8: u8, numbers: &mut Numbers) -> usize
    requires { length numbers.old ≤ 5 }
    ensures form { result ≡ operand_form (Operand2.Imm turn imm8) }
    ensures numbers { numbers.new ≡ numbers.old ++ operand_numbers (Operand2.Imm turn imm8) }
{
    if is_least(turn, imm8) {
        numbers.push(u64::from(immediate_number(turn, imm8)));
        return 0;
    }
    numbers.push(u64::from(imm8));
    numbers.push(2 * u64::from(turn));
    1
}

/// Adds the numbers of a register that is shifted by a number behind the others, and tells its form.
#[tactic(auto, unfolding(crate::specs::Shown::operand_form, crate::specs::Shown::operand_numbers))]
fn show_shifted(rm: Reg, kind: ShiftKind, amount: u8, numbers: &mut Numbers) -> usize
    requires { length numbers.old ≤ 5 }
    ensures form { result ≡ operand_form (Operand2.ByNum rm kind amount) }
    ensures numbers { numbers.new ≡ numbers.old ++ operand_numbers (Operand2.ByNum rm kind amount) }
{
    if is_unshifted(kind, amount) {
        numbers.push(register(rm));
        return 2;
    }
    if is_through_carry(kind, amount) {
        numbers.push(register(rm));
        return 4;
    }
    numbers.extend(&[register(rm), shift_number(kind), bits_shown(amount)]);
    3
}

/// Adds the numbers of a register that is shifted by another behind the others, and tells its form.
#[tactic(auto, unfolding(crate::specs::Shown::operand_form, crate::specs::Shown::operand_numbers))]
fn show_shifted_by_register(rm: Reg, kind: ShiftKind, rs: Reg, numbers: &mut Numbers) -> usize
    requires { length numbers.old ≤ 5 }
    ensures form { result ≡ operand_form (Operand2.ByReg rm kind rs) }
    ensures numbers { numbers.new ≡ numbers.old ++ operand_numbers (Operand2.ByReg rm kind rs) }
{
    numbers.extend(&[register(rm), shift_number(kind), register(rs)]);
    5
}

/// Adds the numbers of a second operand behind the others, and tells its form among those of an operation.
#[tactic(auto, unfolding(crate::specs::Shown::operand_form, crate::specs::Shown::operand_numbers))]
pub fn show_operand(operand: Operand2, numbers: &mut Numbers) -> usize
    requires { length numbers.old ≤ 5 }
    ensures form { result ≡ operand_form operand }
    ensures numbers { numbers.new ≡ numbers.old ++ operand_numbers operand }
{
    match operand {
        Operand2::Imm { turn, imm8 } => show_immediate(turn, imm8, numbers),
        Operand2::ByNum { rm, kind, amount } => show_shifted(rm, kind, amount, numbers),
        Operand2::ByReg { rm, kind, rs } => show_shifted_by_register(rm, kind, rs, numbers),
    }
}

/// Adds the registers before the second operand behind the others.
pub fn show_alu_registers(op: AluOp, rd: Reg, rn: Reg, numbers: &mut Numbers)
    requires { length numbers.old ≤ 5 }
    ensures numbers { numbers.new ≡ numbers.old ++ alu_registers op rd rn }
    ensures bound { length numbers.new ≤ length numbers.old + 2 }
{
    if op.is_compare() {
        numbers.push(register(rn));
        return;
    }
    if op.is_move() {
        numbers.push(register(rd));
        return;
    }
    numbers.extend(&[register(rd), register(rn)]);
}
