//! Immediates of eight bits that are turned right by an even number of bits (DDI 0406C A5.2.4).
ghost use Rattle.std.specs.Prelude.{◌≡◌};
ghost use Rattle.a32_syntax.specs.Shown.{immediate_number, is_least};

use crate::second_operands::least_turn;

/// The number of an immediate: its eight bits turned right (DDI 0406C A2.2.1, ROR).
#[tactic(auto, using(a32_instr::proofs::Rotation::rotate_right_is))]
pub fn immediate_number(turn: u8, imm8: u8) -> u32
    ensures { result ≡ immediate_number turn imm8 }
{
    u32::from(imm8).rotate_right(2 * u32::from(turn))
}

/// Whether the turn of an immediate is the least that gives its number.
pub fn is_least(turn: u8, imm8: u8) -> bool
    ensures { result ≡ is_least turn imm8 }
{
    match least_turn(immediate_number(turn, imm8)) {
        Some(least) => least == turn,
        None => false,
    }
}
