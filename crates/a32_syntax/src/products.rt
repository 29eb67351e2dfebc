//! Multiplications.
ghost use Rattle.std.specs.Prelude.{◌≡◌};
ghost use Rattle.a32_forms.specs.Forms.{number_at};
ghost use Rattle.a32_syntax.specs.inner.Bounds.{IsWithin};
ghost use Rattle.a32_syntax.specs.Operands.{operands_of};

use crate::operations::Operation;
use crate::registers::register;
use a32_forms::Chosen;
use a32_instr::{Cond, Instr, LongKind};

/// MUL (DDI 0406C A8.8.114).
#[tactic(auto, using(crate::proofs::Places::product_registers))]
pub fn mul(cond: Cond, s: bool, found: &Chosen) -> Instr
    requires { IsWithin (operands_of Operation.Mul) found.now }
    ensures { result ≡ Instr.Mul cond s (number_at found.now 0) (number_at found.now 1) (number_at found.now 2) }
{
    Instr::Mul {
        cond,
        s,
        rd: register(found, 0),
        rn: register(found, 1),
        rm: register(found, 2),
    }
}

/// MLA (DDI 0406C A8.8.100).
#[tactic(auto, using(crate::proofs::Places::product_registers))]
pub fn mla(cond: Cond, s: bool, found: &Chosen) -> Instr
    requires { IsWithin (operands_of Operation.Mla) found.now }
    ensures { result ≡ Instr.Mla cond s (number_at found.now 0) (number_at found.now 1) (number_at found.now 2) (number_at found.now 3) }
{
    Instr::Mla {
        cond,
        s,
        rd: register(found, 0),
        rn: register(found, 1),
        rm: register(found, 2),
        ra: register(found, 3),
    }
}

/// MLS (DDI 0406C A8.8.101).
#[tactic(auto, using(crate::proofs::Places::product_registers))]
pub fn mls(cond: Cond, found: &Chosen) -> Instr
    requires { IsWithin (operands_of Operation.Mls) found.now }
    ensures { result ≡ Instr.Mls cond (number_at found.now 0) (number_at found.now 1) (number_at found.now 2) (number_at found.now 3) }
{
    Instr::Mls {
        cond,
        rd: register(found, 0),
        rn: register(found, 1),
        rm: register(found, 2),
        ra: register(found, 3),
    }
}

/// UMULL, UMLAL, SMULL and SMLAL (DDI 0406C A5.2.5).
#[tactic(auto, using(crate::proofs::Places::product_registers))]
pub fn long(cond: Cond, kind: LongKind, s: bool, found: &Chosen) -> Instr
    requires { IsWithin (operands_of (Operation.Long kind)) found.now }
    ensures { result ≡ Instr.Long cond kind s (number_at found.now 0) (number_at found.now 1) (number_at found.now 2) (number_at found.now 3) }
{
    Instr::Long {
        cond,
        kind,
        s,
        lo: register(found, 0),
        hi: register(found, 1),
        rn: register(found, 2),
        rm: register(found, 3),
    }
}
