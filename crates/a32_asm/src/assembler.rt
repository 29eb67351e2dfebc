//! The program of a text.
ghost use Rattle.std.specs.Prelude.{◌≡◌, ◌⊎◌, Ok, Err, IfOk, IfErr};
ghost use Rattle.a32_syntax.specs.Kinds.{kind_name};
ghost use Rattle.elf32.specs.Units.{IsWithin};
ghost use Rattle.a32_asm.specs.Assembled.{first, unit_from, unit_of};
ghost use Rattle.a32_asm.specs.Lines.{lines_of};
ghost use Rattle.a32_asm.specs.inner.Seen.{bytes_left, layout_seen};

use crate::drafts::Draft;
use crate::layout::{START, TextLayout, lay_out, next_spot};
use crate::lines::{first_line, read_line};
use crate::outcomes::{first_fault, is_repeated, is_too_long, line_piece};
use a32_syntax::AsmKind;
use elf32::Unit;
use std::alloc::Global;
use thiserror::Error;

/// Why a text is no program: the first line that has a fault, counted from 1, and the first of its faults.
/// Want of memory has line 0.
#[derive(Clone, Copy, Debug, PartialEq, Eq, Error)]
#[error("line {line}: {kind}")]
pub struct AsmFault {
    pub line: u32,
    pub kind: AsmKind,
}

impl AsmFault {
    /// The name of the fault's kind.
    pub fn name(&self) -> &str
        ensures { result.now ≡ kind_name self.now.kind }
    {
        self.kind.name()
    }
}

/// Want of memory.
const OUT_OF_MEMORY: AsmFault = AsmFault {
    line: 0,
    kind: AsmKind::Memory,
};

/// Makes the program of the lines of a text, whose layout is known.
fn assemble_lines(alloc: Global, text: &[u8], layout: &TextLayout<'_>) -> Result<Unit, AsmFault>
    ensures unit { IfOk result (λ unit. unit_from (layout_seen layout.now) first (lines_of text.now) ≡ Ok unit) }
    ensures fault { IfErr result (λ fault. (fault ≡ record { line = 0; kind = AsmKind.Memory }) ⊎ (unit_from (layout_seen layout.now) first (lines_of text.now) ≡ Err fault)) }
{
    let mut draft = Draft::new(alloc);
    let mut spot = START;
    let mut number = 1;
    let mut left = Some(text);
    while let Some(rest) = left {
        let (line, after) = first_line(rest);
        let line = read_line(line);
        let behind = next_spot(spot, &line);
        let repeated = is_repeated(layout, text.len() - rest.len(), line.label);
        let too_long = is_too_long(behind, text.len() - length_of(after));
        let added = match first_fault(repeated, too_long, line_piece(layout, spot, &line)) {
            Ok(added) => added,
            Err(kind) => return Err(AsmFault { line: number, kind }),
        };
        let Ok(()) = draft.add(added) else {
            return Err(OUT_OF_MEMORY);
        };
        spot = behind;
        number += 1;
        left = after;
    }
    Ok(draft.finish(spot.space as u32))
}

/// How many bytes are left of a text.
fn length_of(left: Option<&[u8]>) -> usize
    ensures { result ≡ bytes_left left.entry }
{
    match left {
        Some(text) => text.len(),
        None => 0,
    }
}

/// The program of a text.
///
/// It has at most 65,536 words of code and at most 1,048,576 bytes of data and space together, so that
/// [`elf32::write`] takes it.
///
/// # Errors
///
/// The first line that has a fault, counted from 1, with the first of its faults in the order of [`AsmKind`]. Want of
/// memory is [`AsmKind::Memory`] with line 0, and the one answer that the text doesn't fix.
pub fn assemble(alloc: Global, text: &str) -> Result<Unit, AsmFault>
    ensures unit { IfOk result (λ unit. unit_of text.now ≡ Ok unit) }
    ensures fault { IfErr result (λ fault. (fault ≡ record { line = 0; kind = AsmKind.Memory }) ⊎ (unit_of text.now ≡ Err fault)) }
    ensures within { IfOk result IsWithin }
{
    let text = text.as_bytes();
    let Ok(layout) = lay_out(alloc, text) else {
        return Err(OUT_OF_MEMORY);
    };
    assemble_lines(alloc, text, &layout)
}
