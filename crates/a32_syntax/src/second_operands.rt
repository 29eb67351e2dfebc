//! Second operands of data processing, and shifts.
ghost use Rattle.std.specs.Prelude.{◌≡◌, ◌<◌, ◌≤◌, ◌^◌, IfOk, IfSome};
ghost use Rattle.a32_instr.specs.Fields.{shift_kind};
ghost use Rattle.a32_syntax.specs.Meaning.{amount_of, least_immediate, least_turn, most_bits, number_and_turn, turned_back};

use crate::kinds::AsmKind;
use a32_instr::{Operand2, ShiftKind};

/// A number turned back by a turn: left by twice as many bits.
#[tactic(auto, unfolding(crate::specs::Meaning::turned_back), using(a32_instr::proofs::Rotation::rotate_left_is))]
fn turned_back(number: u32, turn: u8) -> u32
    requires { turn < 16 }
    ensures { result ≡ turned_back number turn }
{
    number.rotate_left(2 * u32::from(turn))
}

/// The least turn by which eight bits become the number.
pub fn least_turn(number: u32) -> Option<u8>
    ensures turn { result ≡ least_turn number }
    ensures bound { IfSome result (λ turn. turn < 16) }
{
    for turn in 0..16u8 {
        if turned_back(number, turn) < 256 {
            return Some(turn);
        }
    }
    None
}

/// A number by the least turn that gives it.
#[tactic(auto, unfolding(crate::specs::Meaning::least_immediate))]
pub fn least_immediate(number: u64) -> Result<Operand2, AsmKind>
    ensures { result ≡ least_immediate number }
{
    if number > 0xffff_ffff {
        return Err(AsmKind::Range);
    }
    let number = number as u32;
    let Some(turn) = least_turn(number) else {
        return Err(AsmKind::Range);
    };
    Ok(Operand2::Imm {
        turn,
        imm8: turned_back(number, turn) as u8,
    })
}

/// Eight bits and by how many bits they are turned, which is an even number.
#[tactic(auto, unfolding(crate::specs::Meaning::number_and_turn))]
pub fn number_and_turn(imm8: u64, bits: u64) -> Result<Operand2, AsmKind>
    ensures { result ≡ number_and_turn imm8 bits }
{
    if bits % 2 == 1 {
        return Err(AsmKind::Operand);
    }
    if imm8 > 255 || bits > 30 {
        return Err(AsmKind::Range);
    }
    Ok(Operand2::Imm {
        turn: (bits / 2) as u8,
        imm8: imm8 as u8,
    })
}

/// The most bits by which a kind of shift shifts.
fn most_bits(shift: ShiftKind) -> u64
    ensures value { result ≡ most_bits shift }
    ensures bound { result ≤ 32 }
{
    match shift {
        ShiftKind::Lsl => 31,
        ShiftKind::Lsr => 32,
        ShiftKind::Asr => 32,
        ShiftKind::Ror => 31,
    }
}

/// The field of a shift's amount: at LSR and ASR 0 stands for 32 (DDI 0406C A8.4.3).
#[tactic(auto, unfolding(crate::specs::Meaning::amount_of))]
pub fn amount_of(shift: ShiftKind, bits: u64) -> Result<u8, AsmKind>
    ensures { result ≡ amount_of shift bits }
{
    if bits == 0 {
        return Err(AsmKind::Operand);
    }
    if bits > most_bits(shift) {
        return Err(AsmKind::Range);
    }
    Ok((bits % 32) as u8)
}

/// A kind of shift by the number of its encoding (DDI 0406C A8.4.3, DecodeRegShift).
#[tactic(auto, unfolding(a32_instr::specs::Fields::shift_kind))]
pub fn shift_kind(kind: u64) -> ShiftKind
    ensures { result ≡ shift_kind kind }
{
    match kind {
        0 => ShiftKind::Lsl,
        1 => ShiftKind::Lsr,
        2 => ShiftKind::Asr,
        _ => ShiftKind::Ror,
    }
}
