//! Instructions that may name a label.
ghost use Rattle.std.specs.Prelude.{◌≡◌, ℕ, List, Option};
ghost use Rattle.a32_forms.specs.Forms.{number_at};
ghost use Rattle.a32_syntax.specs.inner.Bounds.{IsWithin};
ghost use Rattle.a32_syntax.specs.Meaning.{branch, movt, movw};
ghost use Rattle.a32_syntax.specs.Operands.{operands_of};

use crate::branches::branch_to;
use crate::kinds::AsmKind;
use crate::operations::Operation;
use crate::registers::register;
use a32_forms::Chosen;
use a32_instr::{Cond, Instr};

/// The labels that instructions may name.
pub trait Labels {
    /// The address of a label by its name.
    ghost addresses: { Self → List ℕ → Option ℕ };

    /// The address of a label; `None` where no label has that name.
    fn address(&self, name: &[u8]) -> Option<u32>
        ensures { result ≡ addresses self.now name.now };
}

/// MOVW (DDI 0406C A8.8.102): a number, or with `lo` the lower half of a label's address.
#[tactic(auto, using(crate::proofs::Places::move_registers))]
pub fn movw<L: Labels>(cond: Cond, labels: &L, found: &Chosen) -> Result<Instr, AsmKind>
    requires { IsWithin (operands_of Operation.Movw) found.now }
    ensures { result ≡ movw cond (L.addresses labels.now) found.now }
{
    let rd = register(found, 0);
    if found.form() == 0 {
        let imm = found.number(1);
        if imm > 0xffff {
            return Err(AsmKind::Range);
        }
        return Ok(Instr::Movw {
            cond,
            rd,
            imm: imm as u16,
        });
    }
    let Some(address) = labels.address(found.name()) else {
        return Err(AsmKind::Label);
    };
    Ok(Instr::Movw {
        cond,
        rd,
        imm: (address % 0x1_0000) as u16,
    })
}

/// MOVT (DDI 0406C A8.8.106): a number, or with `hi` the upper half of a label's address.
#[tactic(auto, using(crate::proofs::Places::move_registers))]
pub fn movt<L: Labels>(cond: Cond, labels: &L, found: &Chosen) -> Result<Instr, AsmKind>
    requires { IsWithin (operands_of Operation.Movt) found.now }
    ensures { result ≡ movt cond (L.addresses labels.now) found.now }
{
    let rd = register(found, 0);
    if found.form() == 0 {
        let imm = found.number(1);
        if imm > 0xffff {
            return Err(AsmKind::Range);
        }
        return Ok(Instr::Movt {
            cond,
            rd,
            imm: imm as u16,
        });
    }
    let Some(address) = labels.address(found.name()) else {
        return Err(AsmKind::Label);
    };
    Ok(Instr::Movt {
        cond,
        rd,
        imm: (address / 0x1_0000) as u16,
    })
}

/// B and BL (DDI 0406C A8.8.18, A8.8.25), to an address or a label.
pub fn branch<L: Labels>(
    cond: Cond,
    link: bool,
    here: u32,
    labels: &L,
    found: &Chosen,
) -> Result<Instr, AsmKind>
    ensures { result ≡ branch cond link (record { here = here; labels = L.addresses labels.now }) found.now }
{
    if found.form() == 0 {
        return branch_to(cond, link, here, found.number(0));
    }
    let Some(address) = labels.address(found.name()) else {
        return Err(AsmKind::Label);
    };
    branch_to(cond, link, here, u64::from(address))
}
