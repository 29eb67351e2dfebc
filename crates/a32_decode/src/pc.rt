//! Registers that may not be the PC.
ghost use Rattle.std.specs.Prelude.{◌≡◌};
ghost use Rattle.a32_instr.specs.Fields.{one_of_2_is_pc, one_of_3_is_pc, one_of_4_is_pc};

use a32_instr::Reg;

/// Whether one of two registers is the PC.
#[inline(always)]
#[tactic(auto, unfolding(a32_instr::specs::Fields::one_of_2_is_pc))]
pub fn one_of_2_is_pc(x: Reg, y: Reg) -> bool
    ensures { result ≡ one_of_2_is_pc x y }
{
    x.num() == 15 || y.num() == 15
}

/// Whether one of three registers is the PC.
#[inline(always)]
#[tactic(auto, unfolding(a32_instr::specs::Fields::one_of_3_is_pc))]
pub fn one_of_3_is_pc(x: Reg, y: Reg, z: Reg) -> bool
    ensures { result ≡ one_of_3_is_pc x y z }
{
    x.num() == 15 || y.num() == 15 || z.num() == 15
}

/// Whether one of four registers is the PC.
#[inline(always)]
#[tactic(auto, unfolding(a32_instr::specs::Fields::one_of_4_is_pc))]
pub fn one_of_4_is_pc(x: Reg, y: Reg, z: Reg, w: Reg) -> bool
    ensures { result ≡ one_of_4_is_pc x y z w }
{
    x.num() == 15 || y.num() == 15 || z.num() == 15 || w.num() == 15
}
