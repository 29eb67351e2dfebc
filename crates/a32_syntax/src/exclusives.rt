//! Exclusives and barriers.
ghost use Rattle.std.specs.Prelude.{◌≡◌};
ghost use Rattle.a32_forms.specs.Forms.{number_at};
ghost use Rattle.a32_syntax.specs.inner.Bounds.{IsWithin};
ghost use Rattle.a32_syntax.specs.Meaning.{barrier, load_exclusive, store_exclusive};
ghost use Rattle.a32_syntax.specs.Operands.{load_exclusive_operands, operands_of, store_exclusive_operands};

use crate::kinds::AsmKind;
use crate::operations::Operation;
use crate::registers::register;
use a32_forms::Chosen;
use a32_instr::{BarrierKind, Cond, Instr};
use llsc_base::Size;

/// A doubleword's second register is the next one.
#[tactic(auto, using(crate::proofs::Places::exclusive_registers))]
fn load_pair(cond: Cond, found: &Chosen) -> Result<Instr, AsmKind>
    requires { IsWithin (load_exclusive_operands Size.B8) found.now }
    ensures { result ≡ load_exclusive cond Size.B8 found.now }
{
    if found.number(1) != u64::from(register(found, 0).num()) + 1 {
        return Err(AsmKind::Operand);
    }
    Ok(Instr::LoadEx {
        cond,
        size: Size::B8,
        rn: register(found, 2),
        rt: register(found, 0),
    })
}

#[tactic(auto, using(crate::proofs::Places::exclusive_registers))]
fn load_one(cond: Cond, size: Size, found: &Chosen) -> Instr
    requires { IsWithin (load_exclusive_operands Size.B4) found.now }
    ensures { result ≡ Instr.LoadEx cond size (number_at found.now 1) (number_at found.now 0) }
{
    Instr::LoadEx {
        cond,
        size,
        rn: register(found, 1),
        rt: register(found, 0),
    }
}

/// LDREX and its kin (DDI 0406C A8.8.75 to A8.8.78).
pub fn load_exclusive(cond: Cond, size: Size, found: &Chosen) -> Result<Instr, AsmKind>
    requires { IsWithin (operands_of (Operation.LoadEx size)) found.now }
    ensures { result ≡ load_exclusive cond size found.now }
{
    match size {
        Size::B8 => load_pair(cond, found),
        _ => Ok(load_one(cond, size, found)),
    }
}

/// A doubleword's second register is the next one.
#[tactic(auto, using(crate::proofs::Places::exclusive_registers))]
fn store_pair(cond: Cond, found: &Chosen) -> Result<Instr, AsmKind>
    requires { IsWithin (store_exclusive_operands Size.B8) found.now }
    ensures { result ≡ store_exclusive cond Size.B8 found.now }
{
    if found.number(2) != u64::from(register(found, 1).num()) + 1 {
        return Err(AsmKind::Operand);
    }
    Ok(Instr::StoreEx {
        cond,
        size: Size::B8,
        rn: register(found, 3),
        rd: register(found, 0),
        rt: register(found, 1),
    })
}

#[tactic(auto, using(crate::proofs::Places::exclusive_registers))]
fn store_one(cond: Cond, size: Size, found: &Chosen) -> Instr
    requires { IsWithin (store_exclusive_operands Size.B4) found.now }
    ensures { result ≡ Instr.StoreEx cond size (number_at found.now 2) (number_at found.now 0) (number_at found.now 1) }
{
    Instr::StoreEx {
        cond,
        size,
        rn: register(found, 2),
        rd: register(found, 0),
        rt: register(found, 1),
    }
}

/// STREX and its kin (DDI 0406C A8.8.212 to A8.8.215).
pub fn store_exclusive(cond: Cond, size: Size, found: &Chosen) -> Result<Instr, AsmKind>
    requires { IsWithin (operands_of (Operation.StoreEx size)) found.now }
    ensures { result ≡ store_exclusive cond size found.now }
{
    match size {
        Size::B8 => store_pair(cond, found),
        _ => Ok(store_one(cond, size, found)),
    }
}

/// DSB, DMB and ISB (DDI 0406C A5.7.1): alone, one of the whole system for all accesses.
pub fn barrier(kind: BarrierKind, found: &Chosen) -> Result<Instr, AsmKind>
    ensures { result ≡ barrier kind found.now }
{
    if found.form() != 0 {
        return Ok(Instr::Barrier { kind, option: 15 });
    }
    let option = found.number(0);
    if option > 15 {
        return Err(AsmKind::Range);
    }
    Ok(Instr::Barrier {
        kind,
        option: option as u8,
    })
}
