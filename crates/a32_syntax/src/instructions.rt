//! The instruction that a mnemonic and operands mean.
ghost use Rattle.std.specs.Prelude.{◌≡◌};
ghost use Rattle.a32_forms.specs.Forms.{number_at};
ghost use Rattle.a32_forms.specs.Text.{parts};
ghost use Rattle.a32_syntax.specs.inner.Bounds.{IsWithin};
ghost use Rattle.a32_syntax.specs.Meaning.{instruction_of, means, within};
ghost use Rattle.a32_syntax.specs.Operands.{operands_of};

use crate::accesses::{block, half, word};
use crate::data_processing::alu;
use crate::exclusives::{barrier, load_exclusive, store_exclusive};
use crate::kinds::AsmKind;
use crate::labels::{Labels, branch, movt, movw};
use crate::operand_forms::operands_of;
use crate::operations::{Mnemonic, Operation};
use crate::parts::{clz, extend, rev};
use crate::products::{long, mla, mls, mul};
use crate::registers::register;
use a32_forms::{Chosen, chosen};
use a32_instr::{Cond, Instr};

/// BX and BLX (DDI 0406C A8.8.27, A8.8.26).
#[tactic(auto, using(crate::proofs::Places::branch_rm))]
fn branch_reg(cond: Cond, link: bool, found: &Chosen) -> Instr
    requires { IsWithin (operands_of (Operation.BranchReg link)) found.now }
    ensures { result ≡ Instr.BranchReg cond link (number_at found.now 0) }
{
    Instr::BranchReg {
        cond,
        link,
        rm: register(found, 0),
    }
}

/// SVC (DDI 0406C A8.8.228).
fn svc(cond: Cond, found: &Chosen) -> Result<Instr, AsmKind>
    ensures { result ≡ within 16777215 (number_at found.now 0) (Instr.Svc cond (number_at found.now 0)) }
{
    let imm = found.number(0);
    if imm > 0xff_ffff {
        return Err(AsmKind::Range);
    }
    Ok(Instr::Svc {
        cond,
        imm: imm as u32,
    })
}

/// The instruction of an operation with operands of one of its forms.
#[tactic(auto, unfolding(crate::specs::Meaning::means))]
fn means<L: Labels>(
    mnemonic: Mnemonic,
    here: u32,
    labels: &L,
    found: &Chosen,
) -> Result<Instr, AsmKind>
    requires { IsWithin (operands_of mnemonic.operation) found.now }
    ensures { result ≡ means mnemonic.operation mnemonic.set_flags mnemonic.cond (record { here = here; labels = L.addresses labels.now }) found.now }
{
    let s = mnemonic.set_flags;
    let cond = mnemonic.cond;
    match mnemonic.operation {
        Operation::Alu(op) => alu(cond, op, s, found),
        Operation::Movw => movw(cond, labels, found),
        Operation::Movt => movt(cond, labels, found),
        Operation::Nop => Ok(Instr::Nop { cond }),
        Operation::Yield => Ok(Instr::Yield { cond }),
        Operation::Mul => Ok(mul(cond, s, found)),
        Operation::Mla => Ok(mla(cond, s, found)),
        Operation::Mls => Ok(mls(cond, found)),
        Operation::Long(kind) => Ok(long(cond, kind, s, found)),
        Operation::Clz => Ok(clz(cond, found)),
        Operation::Rev => Ok(rev(cond, found)),
        Operation::Extend { unsigned, half } => extend(cond, unsigned, half, found),
        Operation::Word { load, byte } => word(cond, load, byte, found),
        Operation::Half(kind) => half(cond, kind, found),
        Operation::Block { load, before, up } => block(cond, load, before, up, found),
        Operation::Branch { link } => branch(cond, link, here, labels, found),
        Operation::BranchReg { link } => Ok(branch_reg(cond, link, found)),
        Operation::Svc => svc(cond, found),
        Operation::LoadEx(size) => load_exclusive(cond, size, found),
        Operation::StoreEx(size) => store_exclusive(cond, size, found),
        Operation::Clrex => Ok(Instr::Clrex),
        Operation::Barrier(kind) => barrier(kind, found),
    }
}

/// The instruction that a mnemonic and its operands mean at an address, or the first fault of the operands.
///
/// # Errors
///
/// `Operand` where the operands have none of the mnemonic's forms, or fields that no instruction has; `Label` where a
/// label has no address; `Range` where a number is above its field or can't be had by a turn, or a branch can't reach
/// its target.
#[tactic(auto, unfolding(crate::specs::inner::Bounds::IsWithin))]
pub fn instruction_of<L: Labels>(
    mnemonic: Mnemonic,
    operands: &[u8],
    here: u32,
    labels: &L,
) -> Result<Instr, AsmKind>
    ensures { result ≡ instruction_of mnemonic (record { here = here; labels = L.addresses labels.now }) (parts operands.now) }
{
    let Some(found) = chosen(operands_of(mnemonic.operation), operands) else {
        return Err(AsmKind::Operand);
    };
    means(mnemonic, here, labels, &found)
}
