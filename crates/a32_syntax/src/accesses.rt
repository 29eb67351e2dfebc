//! Loads and stores.
ghost use Rattle.std.specs.Prelude.{◌≡◌, ◌≤◌, ◌<◌, ◌^◌, Ok};
ghost use Rattle.a32_forms.specs.Forms.{number_at};
ghost use Rattle.a32_syntax.specs.inner.Bounds.{IsRegister, IsWithin};
ghost use Rattle.a32_syntax.specs.Meaning.{at_base, block, half, half_indexed, indexed, is_added, offset_number, plain_or_pre, shifted_offset, word, word_indexed};
ghost use Rattle.a32_syntax.specs.Operands.{half_operands, operands_of, word_operands};

use crate::kinds::AsmKind;
use crate::operations::Operation;
use crate::registers::register;
use crate::second_operands::{amount_of, shift_kind};
use a32_forms::Chosen;
use a32_instr::{Cond, HalfKind, Index, Instr, Offset, ShiftKind};

/// An access's index and its offset.
#[derive(Drop)]
pub struct Indexed {
    pub index: Index,
    pub offset: Result<Offset, AsmKind>,
}

/// The base alone: 0 is added.
fn at_base() -> Indexed
    ensures { result ≡ at_base }
{
    Indexed {
        index: Index::Plain,
        offset: Ok(Offset::Imm { add: true, imm: 0 }),
    }
}

fn plain_or_pre(exclamation: u64) -> Index
    ensures { result ≡ plain_or_pre exclamation }
{
    if exclamation == 0 {
        Index::Plain
    } else {
        Index::Pre
    }
}

/// Whether an offset is added: there is no `-`.
fn is_added(found: &Chosen) -> bool
    ensures { result ≡ is_added (number_at found.now 2) }
{
    found.number(2) == 0
}

/// An offset that is a number of at most so many bytes.
fn by_number(found: &Chosen, most: u64) -> Result<Offset, AsmKind>
    requires { most < 2 ^ 16 }
    ensures { result ≡ offset_number most (number_at found.now 2) (number_at found.now 3) }
{
    let bytes = found.number(3);
    if bytes > most {
        return Err(AsmKind::Range);
    }
    Ok(Offset::Imm {
        add: is_added(found),
        imm: bytes as u16,
    })
}

/// An offset that is a register, not shifted or turned through the carry.
fn by_register(found: &Chosen, kind: ShiftKind) -> Result<Offset, AsmKind>
    requires { IsRegister found.now 3 }
    ensures { result ≡ Ok (Offset.Shifted (is_added (number_at found.now 2)) (number_at found.now 3) kind 0) }
{
    Ok(Offset::Shifted {
        add: is_added(found),
        rm: register(found, 3),
        kind,
        amount: 0,
    })
}

/// An offset that is a register shifted by a number.
fn by_shift(found: &Chosen) -> Result<Offset, AsmKind>
    requires { IsRegister found.now 3 }
    ensures { result ≡ shifted_offset found.now }
{
    let kind = shift_kind(found.number(4));
    let amount = amount_of(kind, found.number(5))?;
    Ok(Offset::Shifted {
        add: is_added(found),
        rm: register(found, 3),
        kind,
        amount,
    })
}

fn moved(index: Index, offset: Result<Offset, AsmKind>) -> Indexed
    ensures { result ≡ indexed index offset }
{
    Indexed { index, offset }
}

/// The index and the offset of a word or a byte.
#[tactic(auto, unfolding(crate::specs::Meaning::word_indexed), using(crate::proofs::Places::access_registers))]
fn word_indexed(found: &Chosen) -> Indexed
    requires { IsWithin word_operands found.now }
    ensures { result ≡ word_indexed found.now }
{
    match found.form() {
        0 => at_base(),
        1 => moved(plain_or_pre(found.number(4)), by_number(found, 4095)),
        2 => moved(
            plain_or_pre(found.number(4)),
            by_register(found, ShiftKind::Lsl),
        ),
        3 => moved(plain_or_pre(found.number(6)), by_shift(found)),
        4 => moved(
            plain_or_pre(found.number(4)),
            by_register(found, ShiftKind::Ror),
        ),
        5 => moved(Index::Post, by_number(found, 4095)),
        6 => moved(Index::Post, by_register(found, ShiftKind::Lsl)),
        7 => moved(Index::Post, by_shift(found)),
        _ => moved(Index::Post, by_register(found, ShiftKind::Ror)),
    }
}

/// The index and the offset of a halfword or a signed byte.
#[tactic(auto, unfolding(crate::specs::Meaning::half_indexed), using(crate::proofs::Places::access_registers))]
fn half_indexed(found: &Chosen) -> Indexed
    requires { IsWithin half_operands found.now }
    ensures { result ≡ half_indexed found.now }
{
    match found.form() {
        0 => at_base(),
        1 => moved(plain_or_pre(found.number(4)), by_number(found, 255)),
        2 => moved(
            plain_or_pre(found.number(4)),
            by_register(found, ShiftKind::Lsl),
        ),
        3 => moved(Index::Post, by_number(found, 255)),
        _ => moved(Index::Post, by_register(found, ShiftKind::Lsl)),
    }
}

/// A load or a store of a word or a byte (DDI 0406C A5.3).
#[tactic(auto, using(crate::proofs::Places::access_registers))]
pub fn word(cond: Cond, load: bool, byte: bool, found: &Chosen) -> Result<Instr, AsmKind>
    requires { IsWithin (operands_of (Operation.Word load byte)) found.now }
    ensures { result ≡ word cond load byte found.now }
{
    let indexed = word_indexed(found);
    let offset = indexed.offset?;
    Ok(Instr::Word {
        cond,
        load,
        byte,
        index: indexed.index,
        rn: register(found, 1),
        rt: register(found, 0),
        offset,
    })
}

/// A load or a store of a halfword or a signed byte (DDI 0406C A5.2.8).
#[tactic(auto, using(crate::proofs::Places::access_registers))]
pub fn half(cond: Cond, kind: HalfKind, found: &Chosen) -> Result<Instr, AsmKind>
    requires { IsWithin (operands_of (Operation.Half kind)) found.now }
    ensures { result ≡ half cond kind found.now }
{
    let indexed = half_indexed(found);
    let offset = indexed.offset?;
    Ok(Instr::Half {
        cond,
        kind,
        index: indexed.index,
        rn: register(found, 1),
        rt: register(found, 0),
        offset,
    })
}

/// A load or a store of registers (DDI 0406C A5.5); `!` writes the moved base back.
#[tactic(auto, using(crate::proofs::Places::block_registers))]
pub fn block(
    cond: Cond,
    load: bool,
    before: bool,
    up: bool,
    found: &Chosen,
) -> Result<Instr, AsmKind>
    requires { IsWithin (operands_of (Operation.Block load before up)) found.now }
    ensures { result ≡ block cond load before up found.now }
{
    Ok(Instr::Block {
        cond,
        load,
        before,
        up,
        wback: found.number(1) == 1,
        rn: register(found, 0),
        list: found.number(2) as u16,
    })
}
