//! How the base and the offset of a load or a store are shown.
ghost use Rattle.std.specs.Prelude.{◌≡◌, ◌+◌, ◌<◌, ◌≤◌, ◌++◌, ◌∷◌, [], length};
ghost use Rattle.a32_syntax.specs.Shown.{access_numbers, exclamation_of, half_form, is_base_alone, minus_of, offset_form, offset_numbers, word_form};

use crate::shown_numbers::{Numbers, register};
use crate::shown_operands::{bits_shown, is_through_carry, is_unshifted, shift_number};
use a32_instr::{Index, Offset, Reg, ShiftKind};

/// The number of the `-`.
fn minus_of(add: bool) -> u64
    ensures { result ≡ minus_of add }
{
    if add { 0 } else { 1 }
}

/// Whether the base alone is shown: an added 0 with no write-back isn't.
fn is_base_alone(index: Index, offset: &Offset) -> bool
    ensures { result ≡ is_base_alone index offset.now }
{
    match (index, *offset) {
        (Index::Plain, Offset::Imm { add, imm }) => add && imm == 0,
        _ => false,
    }
}

/// The place of an offset's form among those of one index.
fn offset_form(offset: &Offset) -> usize
    ensures value { result ≡ offset_form offset.now }
    ensures bound { result ≤ 4 }
{
    match *offset {
        Offset::Imm { .. } => 1,
        Offset::Shifted { kind, amount, .. } => {
            if is_unshifted(kind, amount) {
                2
            } else if is_through_carry(kind, amount) {
                4
            } else {
                3
            }
        }
    }
}

/// The place of the form of a word's or a byte's access.
#[tactic(auto, unfolding(crate::specs::Shown::word_form))]
pub fn word_form(index: Index, offset: &Offset) -> usize
    ensures { result ≡ word_form index offset.now }
{
    if is_base_alone(index, offset) {
        return 0;
    }
    match index {
        Index::Post => offset_form(offset) + 4,
        _ => offset_form(offset),
    }
}

/// The place of the form of a halfword's or a signed byte's access.
#[tactic(auto, unfolding(crate::specs::Shown::half_form))]
pub fn half_form(index: Index, offset: &Offset) -> usize
    ensures { result ≡ half_form index offset.now }
{
    if is_base_alone(index, offset) {
        return 0;
    }
    match index {
        Index::Post => offset_form(offset) + 2,
        _ => offset_form(offset),
    }
}

/// Adds the numbers of an offset that is a number behind the others.
fn show_number(add: bool, imm: u16, numbers: &mut Numbers)
    requires { length numbers.old ≤ 2 }
    ensures { numbers.new ≡ numbers.old ++ offset_numbers (Offset.Imm add imm) }
{
    numbers.extend(&[minus_of(add), u64::from(imm)]);
}

/// Adds the numbers of an offset that is a register behind the others.
fn show_shifted(add: bool, rm: Reg, kind: ShiftKind, amount: u8, numbers: &mut Numbers)
    requires { length numbers.old ≤ 2 }
    ensures { numbers.new ≡ numbers.old ++ offset_numbers (Offset.Shifted add rm kind amount) }
{
    if is_unshifted(kind, amount) || is_through_carry(kind, amount) {
        numbers.extend(&[minus_of(add), register(rm)]);
        return;
    }
    let shift = shift_number(kind);
    numbers.extend(&[minus_of(add), register(rm), shift, bits_shown(amount)]);
}

/// Adds the numbers of an offset behind the others.
fn show_offset(offset: &Offset, numbers: &mut Numbers)
    requires { length numbers.old ≤ 2 }
    ensures numbers { numbers.new ≡ numbers.old ++ offset_numbers offset.now }
    ensures bound { length numbers.new ≤ length numbers.old + 4 }
{
    match *offset {
        Offset::Imm { add, imm } => show_number(add, imm, numbers),
        Offset::Shifted {
            add,
            rm,
            kind,
            amount,
        } => show_shifted(add, rm, kind, amount, numbers),
    }
}

/// Adds the number of the `!` behind the others, which a form with the offset behind the base doesn't have.
fn show_exclamation(index: Index, numbers: &mut Numbers)
    requires { length numbers.old < 8 }
    ensures { numbers.new ≡ numbers.old ++ exclamation_of index }
{
    match index {
        Index::Plain => numbers.push(0),
        Index::Pre => numbers.push(1),
        Index::Post => (),
    }
}

/// The numbers of an access.
#[tactic(auto, unfolding(crate::specs::Shown::access_numbers))]
pub fn access_numbers(index: Index, offset: &Offset, rt: Reg, rn: Reg) -> Numbers
    ensures { result ≡ access_numbers index offset.now rt rn }
{
    let mut numbers = Numbers::new();
    numbers.push(register(rt));
    numbers.push(register(rn));
    if is_base_alone(index, offset) {
        return numbers;
    }
    show_offset(offset, &mut numbers);
    show_exclamation(index, &mut numbers);
    numbers
}
