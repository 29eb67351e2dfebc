//! What a line adds to a program.
ghost use Rattle.std.specs.Prelude.{◌≡◌, ◌≤◌, codes};
ghost use Rattle.a32_forms.specs.Text.{parts};
ghost use Rattle.a32_forms.specs.Forms.{chosen};
ghost use Rattle.a32_encode.specs.Encoding.{encoding_of};
ghost use Rattle.a32_syntax.specs.Mnemonics.{mnemonic_of};
ghost use Rattle.a32_asm.specs.Statements.{alone, word_from, byte_from, space_from, word_piece, with_word, instruction_from, piece_of};
ghost use Rattle.a32_asm.specs.Assembled.{site_of};
ghost use Rattle.a32_asm.specs.Layout.{address_of};
ghost use Rattle.a32_asm.specs.Lines.{operands_of};
ghost use Rattle.a32_forms.specs.Text.{front_word};
ghost use Rattle.a32_asm.specs.inner.Seen.{layout_seen, added_piece, piece_seen};

use crate::heads::Head;
use crate::layout::{Spot, TextLayout};
use crate::lines::{Line, operands_of};
use a32_encode::encode;
use a32_forms::{chosen, front_word};
use a32_instr::Instr;
use a32_syntax::{AsmKind, Labels, instruction_of, mnemonic_of};
use llsc_base::CODE_START;

/// What a line adds to a program.
#[derive(Clone, Copy)]
pub enum Added {
    Nothing,
    /// A word of the code.
    Code(u32),
    /// A word of the data.
    Data(u32),
    /// A byte of the data.
    Byte(u8),
}

impl Labels for TextLayout<'_> {
    ghost addresses = { λ layout. address_of (layout_seen layout) };

    fn address(&self, name: &[u8]) -> Option<u32> {
        self.label_address(name)
    }
}

/// A word of the code or of the data.
fn word(in_data: bool, word: u32) -> Added
    ensures { added_piece result ≡ word_piece in_data word }
{
    if in_data {
        return Added::Data(word);
    }
    Added::Code(word)
}

/// A directive without operands.
fn alone(operands: &[u8]) -> Result<Added, AsmKind>
    ensures { piece_seen result ≡ alone (chosen (codes "") (parts operands.now)) }
{
    if chosen(b"", operands).is_some() {
        return Ok(Added::Nothing);
    }
    Err(AsmKind::Operand)
}

/// A number, or the address of a label.
fn word_from(layout: &TextLayout<'_>, spot: Spot, operands: &[u8]) -> Result<Added, AsmKind>
    ensures { piece_seen result ≡ word_from (site_of (layout_seen layout.now) spot) spot.in_data (chosen (codes "n|l") (parts operands.now)) }
{
    let Some(found) = chosen(b"n|l", operands) else {
        return Err(AsmKind::Operand);
    };
    if found.form() == 0 {
        let number = found.number(0);
        if number > 0xffff_ffff {
            return Err(AsmKind::Range);
        }
        return Ok(word(spot.in_data, number as u32));
    }
    match layout.address(found.name()) {
        Some(address) => Ok(word(spot.in_data, address)),
        None => Err(AsmKind::Label),
    }
}

/// A byte of data.
fn byte_from(operands: &[u8]) -> Result<Added, AsmKind>
    ensures { piece_seen result ≡ byte_from (chosen (codes "n") (parts operands.now)) }
{
    let Some(found) = chosen(b"n", operands) else {
        return Err(AsmKind::Operand);
    };
    let number = found.number(0);
    if number > 0xff {
        return Err(AsmKind::Range);
    }
    Ok(Added::Byte(number as u8))
}

/// Space, which stands behind all other data.
fn space_from(operands: &[u8]) -> Result<Added, AsmKind>
    ensures { piece_seen result ≡ space_from (chosen (codes "n") (parts operands.now)) }
{
    let Some(found) = chosen(b"n", operands) else {
        return Err(AsmKind::Operand);
    };
    if found.number(0) > 0xffff_ffff {
        return Err(AsmKind::Range);
    }
    Ok(Added::Nothing)
}

/// The word of an instruction.
fn encoded(instruction: &Instr) -> Result<Added, AsmKind>
    ensures { piece_seen result ≡ with_word (encoding_of instruction.now) }
{
    match encode(instruction) {
        Ok(word) => Ok(Added::Code(word)),
        Err(_) => Err(AsmKind::Operand),
    }
}

/// An instruction at a spot of the code.
fn instruction_from(layout: &TextLayout<'_>, spot: Spot, line: &Line<'_>) -> Result<Added, AsmKind>
    requires { spot.words ≤ 65536 }
    ensures { piece_seen result ≡ instruction_from (site_of (layout_seen layout.now) spot) (parts (operands_of line.now.statement.now)) (mnemonic_of (front_word line.now.statement.now)) }
{
    let Some(mnemonic) = mnemonic_of(front_word(line.statement)) else {
        return Err(AsmKind::Mnemonic);
    };
    let here = CODE_START + 4 * spot.words as u32;
    match instruction_of(mnemonic, operands_of(line.statement), here, layout) {
        Ok(instruction) => encoded(&instruction),
        Err(fault) => Err(fault),
    }
}

/// What a statement at a spot adds.
pub fn piece_of(layout: &TextLayout<'_>, spot: Spot, line: &Line<'_>) -> Result<Added, AsmKind>
    requires { spot.words ≤ 65536 }
    ensures { piece_seen result ≡ piece_of (site_of (layout_seen layout.now) spot) spot.in_data line.now.head line.now.statement.now }
{
    let operands = operands_of(line.statement);
    match line.head {
        Head::Nothing => Ok(Added::Nothing),
        Head::Text | Head::Data => alone(operands),
        Head::Word => word_from(layout, spot, operands),
        Head::Byte => byte_from(operands),
        Head::Space => space_from(operands),
        Head::Instruction => instruction_from(layout, spot, line),
        Head::Unreadable => Err(AsmKind::Syntax),
    }
}
