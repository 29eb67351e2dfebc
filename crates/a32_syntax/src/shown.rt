//! What is shown of an instruction: its mnemonic, and one of the forms of its operands with numbers.
ghost use Rattle.std.specs.Prelude.{◌≡◌, ◌<◌, ◌≤◌, ◌^◌, ◌+◌, ◌+ℤ◌, ◌*ℤ◌, pos, false, length, ◌∷◌, []};
ghost use Rattle.a32_instr.specs.Branch.{target_of};
ghost use Rattle.a32_instr.specs.DataProcessing.{one_if};
ghost use Rattle.a32_syntax.specs.Shown.{access_numbers, half_form, load_exclusive_numbers, showing, showing_of, store_exclusive_numbers, word_form};

use crate::operations::{Mnemonic, Operation};
use crate::shown_accesses::{access_numbers, half_form, word_form};
use crate::shown_numbers::{Numbers, register};
use crate::shown_operands::{show_alu_registers, show_operand};
use a32_instr::{AluOp, Cond, HalfKind, Index, Instr, Offset, Operand2, Reg};
use llsc_base::Size;
use std::marker::Model;

/// What is shown of an instruction.
#[derive(Drop)]
pub struct Showing {
    mnemonic: Mnemonic,
    form: usize,
    numbers: Numbers,
}

impl Model for Showing {
    ghost use Rattle.a32_syntax.specs.Shown.{Showing as ShownForm};

    ghost Value = { ShownForm };

    ghost view = { λ s. record { mnemonic = s.mnemonic; form = s.form; numbers = s.numbers } };
}

impl Showing {
    /// The mnemonic.
    pub fn mnemonic(&self) -> Mnemonic
        ensures { result ≡ self.now.mnemonic }
    {
        self.mnemonic
    }

    /// The place of the form among those of the mnemonic's operation.
    pub fn form(&self) -> usize
        ensures { result ≡ self.now.form }
    {
        self.form
    }

    /// The numbers at the form's signs.
    pub fn numbers(&self) -> &[u64]
        ensures { result.now ≡ self.now.numbers }
    {
        self.numbers.as_slice()
    }
}

/// A form of an operation with numbers.
fn in_form(
    operation: Operation,
    set_flags: bool,
    cond: Cond,
    form: usize,
    numbers: Numbers,
) -> Showing
    ensures { result ≡ showing operation set_flags cond form numbers }
{
    Showing {
        mnemonic: Mnemonic {
            operation,
            set_flags,
            cond,
        },
        form,
        numbers,
    }
}

/// An operation that sets no flags, by its first form.
fn plain(operation: Operation, cond: Cond, numbers: &[u64]) -> Showing
    requires { length numbers.now ≤ 8 }
    ensures { result ≡ showing operation false cond 0 numbers.now }
{
    in_form(operation, false, cond, 0, Numbers::of(numbers))
}

/// An operation of registers alone, by its first form.
fn of_registers(operation: Operation, set_flags: bool, cond: Cond, registers: &[Reg]) -> Showing
    requires { length registers.now ≤ 8 }
    ensures { result ≡ showing operation set_flags cond 0 registers.now }
{
    in_form(
        operation,
        set_flags,
        cond,
        0,
        Numbers::of_registers(registers),
    )
}

/// An operation of two registers.
fn of_two(operation: Operation, cond: Cond, first: Reg, second: Reg) -> Showing
    ensures { result ≡ showing operation false cond 0 (first ∷ second ∷ []) }
{
    of_registers(operation, false, cond, &[first, second])
}

/// An operation of three registers.
fn of_three(
    operation: Operation,
    set_flags: bool,
    cond: Cond,
    first: Reg,
    second: Reg,
    third: Reg,
) -> Showing
    ensures { result ≡ showing operation set_flags cond 0 (first ∷ second ∷ third ∷ []) }
{
    of_registers(operation, set_flags, cond, &[first, second, third])
}

/// An operation of four registers.
fn of_four(
    operation: Operation,
    set_flags: bool,
    cond: Cond,
    first: Reg,
    second: Reg,
    third: Reg,
    fourth: Reg,
) -> Showing
    ensures { result ≡ showing operation set_flags cond 0 (first ∷ second ∷ third ∷ fourth ∷ []) }
{
    of_registers(operation, set_flags, cond, &[first, second, third, fourth])
}

/// An operation without operands.
fn alone(operation: Operation, cond: Cond) -> Showing
    ensures { result ≡ showing operation false cond 0 [] }
{
    in_form(operation, false, cond, 0, Numbers::new())
}

/// An operation of one number.
fn of_number(operation: Operation, cond: Cond, number: u64) -> Showing
    ensures { result ≡ showing operation false cond 0 (number ∷ []) }
{
    plain(operation, cond, &[number])
}

/// An operation of a register and a number.
fn wide_move(operation: Operation, cond: Cond, rd: Reg, imm: u16) -> Showing
    ensures { result ≡ showing operation false cond 0 (rd ∷ imm ∷ []) }
{
    plain(operation, cond, &[register(rd), u64::from(imm)])
}

/// A load or a store of a block.
fn block(operation: Operation, cond: Cond, wback: bool, rn: Reg, list: u16) -> Showing
    ensures { result ≡ showing operation false cond 0 (rn ∷ one_if wback ∷ list ∷ []) }
{
    plain(
        operation,
        cond,
        &[register(rn), one_if(wback), u64::from(list)],
    )
}

/// Data processing.
#[tactic(auto, unfolding(crate::specs::Shown::showing_of))]
fn alu(cond: Cond, op: AluOp, s: bool, rd: Reg, rn: Reg, operand: Operand2, here: u32) -> Showing
    ensures { result ≡ showing_of (Instr.Alu cond op s rd rn operand) here }
{
    let mut numbers = Numbers::new();
    show_alu_registers(op, rd, rn, &mut numbers);
    let form = show_operand(operand, &mut numbers);
    let set_flags = s && !op.is_compare();
    in_form(Operation::Alu(op), set_flags, cond, form, numbers)
}

/// An extend, with its turn where there is one.
#[tactic(auto, unfolding(crate::specs::Shown::showing_of))]
fn extend(cond: Cond, unsigned: bool, half: bool, rd: Reg, rm: Reg, turn: u8, here: u32) -> Showing
    ensures { result ≡ showing_of (Instr.Extend cond unsigned half rd rm turn) here }
{
    let operation = Operation::Extend { unsigned, half };
    if turn == 0 {
        return plain(operation, cond, &[register(rd), register(rm)]);
    }
    let numbers = Numbers::of(&[register(rd), register(rm), 8 * u64::from(turn)]);
    in_form(operation, false, cond, 1, numbers)
}

/// The number of a mark that may be left out.
fn one_if(set: bool) -> u64
    ensures { result ≡ one_if set }
{
    u64::from(set)
}

/// So many words from the address of an instruction plus 8.
fn words_ahead(here: u32, words: i32) -> i64
    ensures { result ≡ (pos (here + 8) +ℤ (pos 4 *ℤ words)) }
{
    i64::from(here) + 8 + 4 * i64::from(words)
}

/// The address of a branch's target.
#[tactic(auto, unfolding(a32_instr::specs::Branch::target_of))]
fn target(here: u32, words: i32) -> u64
    ensures { result ≡ target_of here words }
{
    words_ahead(here, words).rem_euclid(0x1_0000_0000) as u64
}

/// The numbers of a load-exclusive: a doubleword names both of its registers.
fn load_exclusive_numbers(size: Size, rn: Reg, rt: Reg) -> Numbers
    ensures { result ≡ load_exclusive_numbers size rn rt }
{
    let (rn, rt) = (register(rn), register(rt));
    match size {
        Size::B8 => Numbers::of(&[rt, rt + 1, rn]),
        _ => Numbers::of(&[rt, rn]),
    }
}

/// The numbers of a store-exclusive.
fn store_exclusive_numbers(size: Size, rn: Reg, rd: Reg, rt: Reg) -> Numbers
    ensures { result ≡ store_exclusive_numbers size rn rd rt }
{
    let (rn, rd, rt) = (register(rn), register(rd), register(rt));
    match size {
        Size::B8 => Numbers::of(&[rd, rt, rt + 1, rn]),
        _ => Numbers::of(&[rd, rt, rn]),
    }
}

/// A load-exclusive.
fn load_exclusive(cond: Cond, size: Size, rn: Reg, rt: Reg) -> Showing
    ensures { result ≡ showing (Operation.LoadEx size) false cond 0 (load_exclusive_numbers size rn rt) }
{
    let numbers = load_exclusive_numbers(size, rn, rt);
    in_form(Operation::LoadEx(size), false, cond, 0, numbers)
}

/// A store-exclusive.
fn store_exclusive(cond: Cond, size: Size, rn: Reg, rd: Reg, rt: Reg) -> Showing
    ensures { result ≡ showing (Operation.StoreEx size) false cond 0 (store_exclusive_numbers size rn rd rt) }
{
    let numbers = store_exclusive_numbers(size, rn, rd, rt);
    in_form(Operation::StoreEx(size), false, cond, 0, numbers)
}

/// A load or a store of a word or a byte.
fn word_access(
    operation: Operation,
    cond: Cond,
    index: Index,
    rn: Reg,
    rt: Reg,
    offset: &Offset,
) -> Showing
    ensures { result ≡ showing operation false cond (word_form index offset.now) (access_numbers index offset.now rt rn) }
{
    let form = word_form(index, offset);
    let numbers = access_numbers(index, offset, rt, rn);
    in_form(operation, false, cond, form, numbers)
}

/// A load or a store of a halfword, or a load of a signed byte.
fn half_access(
    kind: HalfKind,
    cond: Cond,
    index: Index,
    rn: Reg,
    rt: Reg,
    offset: &Offset,
) -> Showing
    ensures { result ≡ showing (Operation.Half kind) false cond (half_form index offset.now) (access_numbers index offset.now rt rn) }
{
    let form = half_form(index, offset);
    let numbers = access_numbers(index, offset, rt, rn);
    in_form(Operation::Half(kind), false, cond, form, numbers)
}

/// What is shown of an instruction at an address.
#[rattlefmt::skip] // a row for each instruction
#[tactic(auto, unfolding(crate::specs::Shown::showing_of))]
pub fn showing_of(instruction: Instr, here: u32) -> Showing
    ensures { result ≡ showing_of instruction here }
{
    match instruction {
        Instr::Alu { cond, op, s, rd, rn, operand } => alu(cond, op, s, rd, rn, operand, here),
        Instr::Movw { cond, rd, imm } => wide_move(Operation::Movw, cond, rd, imm),
        Instr::Movt { cond, rd, imm } => wide_move(Operation::Movt, cond, rd, imm),
        Instr::Nop { cond } => alone(Operation::Nop, cond),
        Instr::Yield { cond } => alone(Operation::Yield, cond),
        Instr::Mul { cond, s, rd, rn, rm } => of_three(Operation::Mul, s, cond, rd, rn, rm),
        Instr::Mla { cond, s, rd, rn, rm, ra } => of_four(Operation::Mla, s, cond, rd, rn, rm, ra),
        Instr::Mls { cond, rd, rn, rm, ra } => of_four(Operation::Mls, false, cond, rd, rn, rm, ra),
        Instr::Long { cond, kind, s, lo, hi, rn, rm } => of_four(Operation::Long(kind), s, cond, lo, hi, rn, rm),
        Instr::Clz { cond, rd, rm } => of_two(Operation::Clz, cond, rd, rm),
        Instr::Rev { cond, rd, rm } => of_two(Operation::Rev, cond, rd, rm),
        Instr::Extend { cond, unsigned, half, rd, rm, turn } => extend(cond, unsigned, half, rd, rm, turn, here),
        Instr::Word { cond, load, byte, index, rn, rt, offset } =>
            word_access(Operation::Word { load, byte }, cond, index, rn, rt, &offset),
        Instr::Half { cond, kind, index, rn, rt, offset } => half_access(kind, cond, index, rn, rt, &offset),
        Instr::Block { cond, load, before, up, wback, rn, list } =>
            block(Operation::Block { load, before, up }, cond, wback, rn, list),
        Instr::Branch { cond, link, words } => of_number(Operation::Branch { link }, cond, target(here, words)),
        Instr::BranchReg { cond, link, rm } => of_number(Operation::BranchReg { link }, cond, register(rm)),
        Instr::Svc { cond, imm } => of_number(Operation::Svc, cond, u64::from(imm)),
        Instr::LoadEx { cond, size, rn, rt } => load_exclusive(cond, size, rn, rt),
        Instr::StoreEx { cond, size, rn, rd, rt } => store_exclusive(cond, size, rn, rd, rt),
        Instr::Clrex => alone(Operation::Clrex, Cond::ALWAYS),
        Instr::Barrier { kind, option } => of_number(Operation::Barrier(kind), Cond::ALWAYS, u64::from(option)),
    }
}
