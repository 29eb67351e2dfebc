//! Registers of operands.
ghost use Rattle.std.specs.Prelude.{◌≡◌};
ghost use Rattle.a32_forms.specs.Forms.{number_at};
ghost use Rattle.a32_syntax.specs.inner.Bounds.{IsRegister};

use a32_forms::Chosen;
use a32_instr::Reg;

/// The register at a place.
pub fn register(found: &Chosen, at: usize) -> Reg
    requires { IsRegister found.now at }
    ensures { result ≡ number_at found.now at }
{
    Reg::new(found.number(at) as u8)
}
