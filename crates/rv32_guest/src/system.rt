//! Fences ("Memory Ordering Instructions"), and the environment call ("Environment Call and Breakpoints").
ghost use Rattle.std.specs.Prelude.{◌≡◌, ◌∷◌, []};
ghost use Rattle.llsc_base.specs.Bits.{bits_of};
ghost use Rattle.rv32_guest.specs.Table.{fence, ecall};
ghost use Rattle.rv32_guest.specs.inner.Rows.{Decides};

use crate::bits::funct3;
use crate::instructions::RvInstr;
use llsc_base::DecodeFault;

/// FENCE: a word of the opcode 0001111.
#[inline]
pub fn fence(word: u32) -> Result<RvInstr, DecodeFault>
    requires { bits_of word 0 7 ≡ 0x0f }
    ensures { Decides (fence ∷ []) word result }
{
    if funct3(word) != 0 {
        return Err(DecodeFault::Undefined);
    }
    Ok(RvInstr::Fence)
}

/// ECALL: a word of the opcode 1110011.
#[inline]
pub fn call(word: u32) -> Result<RvInstr, DecodeFault>
    requires { bits_of word 0 7 ≡ 0x73 }
    ensures { Decides (ecall ∷ []) word result }
{
    if word != 0x73 {
        return Err(DecodeFault::Undefined);
    }
    Ok(RvInstr::Ecall)
}
