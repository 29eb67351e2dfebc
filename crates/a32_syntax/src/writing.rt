//! An instruction at the end of a line, as it is shown.
ghost use Rattle.std.specs.Prelude.{◌≡◌, ◌+◌, ◌<◌, ◌≤◌, ◌++◌, IsTrue, length};
ghost use Rattle.a32_forms.specs.Fits.{fits_form, form_room};
ghost use Rattle.a32_syntax.specs.Formed.{IsFormed};
ghost use Rattle.a32_syntax.specs.Mnemonics.{base_of, condition_name, flags_text, mnemonic_text};
ghost use Rattle.a32_syntax.specs.Shown.{instruction_text, operands_text};

use crate::mnemonics::base;
use crate::operand_forms::operands_of;
use crate::operations::{Mnemonic, Operation};
use crate::shown::showing_of;
use a32_forms::{form_in, write_form};
use a32_instr::{Cond, Instr};
use llsc_base::Line;
use number_text::write_text;

/// The name of a condition; always is shown by nothing.
fn condition_name(cond: Cond) -> &'static [u8]
    ensures name { result.now ≡ condition_name cond }
    ensures bound { length result.now ≤ 2 }
{
    match cond.num() {
        0 => b"eq",
        1 => b"ne",
        2 => b"cs",
        3 => b"cc",
        4 => b"mi",
        5 => b"pl",
        6 => b"vs",
        7 => b"vc",
        8 => b"hi",
        9 => b"ls",
        10 => b"ge",
        11 => b"lt",
        12 => b"gt",
        13 => b"le",
        _ => b"",
    }
}

/// Adds the base of an operation at the end of a line: at most 6 bytes.
#[tactic(auto, using(crate::proofs::Texts::base_short))]
fn write_base(line: &mut Line, operation: Operation)
    requires room { length line.old + 6 ≤ 96 }
    ensures text { line.new ≡ line.old ++ base_of operation }
    ensures bound { length line.new ≤ length line.old + 6 }
{
    write_text(line, base(operation));
}

/// Adds what says that the flags are set at the end of a line: at most 1 byte.
fn write_flags(line: &mut Line, set_flags: bool)
    requires room { length line.old < 96 }
    ensures text { line.new ≡ line.old ++ flags_text set_flags }
    ensures bound { length line.new ≤ length line.old + 1 }
{
    if set_flags {
        line.push(b's');
    }
}

/// Adds the name of a condition at the end of a line: at most 2 bytes.
fn write_condition(line: &mut Line, cond: Cond)
    requires room { length line.old + 2 ≤ 96 }
    ensures text { line.new ≡ line.old ++ condition_name cond }
    ensures bound { length line.new ≤ length line.old + 2 }
{
    write_text(line, condition_name(cond));
}

/// Adds a mnemonic at the end of a line: at most 9 bytes.
fn write_mnemonic(line: &mut Line, mnemonic: Mnemonic)
    requires room { length line.old + 9 ≤ 96 }
    ensures text { line.new ≡ line.old ++ mnemonic_text mnemonic }
    ensures bound { length line.new ≤ length line.old + 9 }
{
    write_base(line, mnemonic.operation);
    write_flags(line, mnemonic.set_flags);
    write_condition(line, mnemonic.cond);
}

/// Adds the operands of a form behind a space, and nothing for the form without operands.
fn write_operands(line: &mut Line, form: &[u8], numbers: &[u64])
    requires fits { IsTrue (fits_form form.now numbers.now) }
    requires room { length line.old + 1 + form_room form.now ≤ 96 }
    ensures { line.new ≡ line.old ++ operands_text form.now numbers.now }
{
    if form.is_empty() {
        return;
    }
    line.push(b' ');
    write_form(line, form, numbers);
}

/// Adds an instruction at an address at the end of a line, as it is shown: at most 83 bytes.
#[tactic(auto, using(crate::proofs::EachInstruction::fits_its_form, crate::proofs::Texts::form_short))]
pub fn write_instruction(instruction: &Instr, here: u32, line: &mut Line)
    requires formed { IsFormed instruction.now }
    requires room { length line.old + 83 ≤ 96 }
    ensures { line.new ≡ line.old ++ instruction_text instruction.now here }
{
    let shown = showing_of(*instruction, here);
    let mnemonic = shown.mnemonic();
    let form = form_in(operands_of(mnemonic.operation), shown.form());
    write_mnemonic(line, mnemonic);
    write_operands(line, form, shown.numbers());
}
