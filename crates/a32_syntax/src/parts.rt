//! Instructions that count, turn round or extend parts of a register.
ghost use Rattle.std.specs.Prelude.{◌≡◌, ◌==◌, ◌||◌};
ghost use Rattle.a32_forms.specs.Forms.{number_at};
ghost use Rattle.a32_syntax.specs.inner.Bounds.{IsWithin};
ghost use Rattle.a32_syntax.specs.Meaning.{extend};
ghost use Rattle.a32_syntax.specs.Operands.{operands_of};

use crate::kinds::AsmKind;
use crate::operations::Operation;
use crate::registers::register;
use a32_forms::Chosen;
use a32_instr::{Cond, Instr};

/// CLZ (DDI 0406C A8.8.33).
#[tactic(auto, using(crate::proofs::Places::part_registers))]
pub fn clz(cond: Cond, found: &Chosen) -> Instr
    requires { IsWithin (operands_of Operation.Clz) found.now }
    ensures { result ≡ Instr.Clz cond (number_at found.now 0) (number_at found.now 1) }
{
    Instr::Clz {
        cond,
        rd: register(found, 0),
        rm: register(found, 1),
    }
}

/// REV (DDI 0406C A8.8.145).
#[tactic(auto, using(crate::proofs::Places::part_registers))]
pub fn rev(cond: Cond, found: &Chosen) -> Instr
    requires { IsWithin (operands_of Operation.Rev) found.now }
    ensures { result ≡ Instr.Rev cond (number_at found.now 0) (number_at found.now 1) }
{
    Instr::Rev {
        cond,
        rd: register(found, 0),
        rm: register(found, 1),
    }
}

/// Whether a register may be turned by so many bits before it is extended.
fn is_turn(bits: u64) -> bool
    ensures { result ≡ ((bits == 8) || (bits == 16) || (bits == 24)) }
{
    bits == 8 || bits == 16 || bits == 24
}

/// SXTB, SXTH, UXTB and UXTH, which turn a register right by 0, 8, 16 or 24 bits (DDI 0406C A5.4.3).
#[tactic(auto, using(crate::proofs::Places::part_registers))]
pub fn extend(cond: Cond, unsigned: bool, half: bool, found: &Chosen) -> Result<Instr, AsmKind>
    requires { IsWithin (operands_of (Operation.Extend unsigned half)) found.now }
    ensures { result ≡ extend cond unsigned half found.now }
{
    let rd = register(found, 0);
    let rm = register(found, 1);
    if found.form() == 0 {
        return Ok(Instr::Extend {
            cond,
            unsigned,
            half,
            rd,
            rm,
            turn: 0,
        });
    }
    let bits = found.number(2);
    if !is_turn(bits) {
        return Err(AsmKind::Operand);
    }
    Ok(Instr::Extend {
        cond,
        unsigned,
        half,
        rd,
        rm,
        turn: (bits / 8) as u8,
    })
}
