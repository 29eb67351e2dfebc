//! `asm`: a program from its text, as a file.
ghost use Rattle.std.specs.Prelude.{◌≡◌, None, Some, IfOk, string_bytes};
ghost use Rattle.a32_asm.specs.Assembled.{most_text};
ghost use Rattle.elf32.specs.Units.{code_bytes, IsWithin};
ghost use Rattle.llsc_files.specs.Refusals.{too_long, IsRefusal};
ghost use Rattle.llsc_texts.specs.Assembly.{asm_answer, asm_fault_text, has_data, unit_answer, unit_file, IsGiven};

use a32_asm::{AsmFault, AsmKind, assemble};
use elf32::Unit;
use llsc_files::{Refusal, refuse};
use llsc_words::Format;
use std::alloc::{AllocError, Global};
use std::str;

/// The words of the code, each from its low byte on.
fn code_bytes(alloc: Global, words: &[u32]) -> Result<Vec<u8>, AllocError>
    ensures { IfOk result (λ bytes. bytes.items ≡ code_bytes words.now) }
{
    let mut bytes = Vec::new(alloc);
    for word in words {
        bytes.extend_from_slice(&word.to_le_bytes())?;
    }
    Ok(bytes)
}

/// The file of a program. A flat image is the code alone.
fn file_of(alloc: Global, format: Format, unit: &Unit) -> Result<Vec<u8>, AllocError>
    requires { IsWithin unit.now }
    ensures { IfOk result (λ bytes. bytes.items ≡ unit_file format unit.now) }
{
    match format {
        Format::Elf => elf32::write(alloc, unit),
        Format::Flat => code_bytes(alloc, unit.words.as_slice()),
    }
}

/// Whether a program has data, or space for it.
fn has_data(unit: &Unit) -> bool
    ensures { result ≡ has_data unit.now }
{
    unit.bytes.as_slice().len() > 0 || unit.space > 0
}

/// The file of a program, unless it is to be a flat image and has data.
fn file_for(alloc: Global, format: Format, unit: &Unit) -> Result<Vec<u8>, Refusal>
    requires { IsWithin unit.now }
    ensures { IsGiven (unit_answer format unit.now) result }
{
    if format == Format::Flat && has_data(unit) {
        return Err(refuse(alloc, "FlatData"));
    }
    match file_of(alloc, format, unit) {
        Ok(bytes) => Ok(bytes),
        Err(_) => Err(Refusal::Memory),
    }
}

/// The name of a fault: its line and its kind.
fn name_of(alloc: Global, fault: AsmFault) -> Result<String, AllocError>
    ensures { IfOk result (λ name. string_bytes name ≡ asm_fault_text fault) }
{
    format!(in alloc; "line {} {}", fault.line, fault.kind.name())
}

/// The refusal by the line of a text that has a fault, and which.
fn refuse_text(alloc: Global, fault: AsmFault) -> Refusal
    ensures named { IsRefusal (Some (asm_fault_text fault)) result }
    ensures memory { fault.kind ≡ AsmKind.Memory → result ≡ Refusal.Memory }
{
    if fault.kind == AsmKind::Memory {
        return Refusal::Memory;
    }
    match name_of(alloc, fault) {
        Ok(name) => refuse(alloc, name.as_str()),
        Err(_) => Refusal::Memory,
    }
}

/// The file of a format that a text is assembled to, by the bytes of the text's file.
///
/// # Errors
///
/// The refusal by what stands against the text, first.
pub fn assembled(alloc: Global, format: Format, file: &[u8]) -> Result<Vec<u8>, Refusal>
    requires { too_long most_text file.now ≡ None }
    ensures { IsGiven (asm_answer format file.now) result }
{
    let Ok(text) = str::from_utf8(file) else {
        return Err(refuse(alloc, "NotText"));
    };
    match assemble(alloc, text) {
        Ok(unit) => file_for(alloc, format, &unit),
        Err(fault) => Err(refuse_text(alloc, fault)),
    }
}
