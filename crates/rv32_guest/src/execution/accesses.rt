//! Loads and stores ("Load and Store Instructions"), and load-reserved and store-conditional ("Zalrsc").
ghost use Rattle.std.specs.Prelude.{◌≡◌, ◌%◌, ◌^◌, [], ◌∷◌, IfNone, IfSome};
ghost use Rattle.llsc_base.specs.Memory.{size_bytes};
ghost use Rattle.llsc_base.specs.Images.{Program};
ghost use Rattle.llsc_base.specs.Effects.{completes};
ghost use Rattle.guest_core.specs.Machine.{ValueFits};
ghost use Rattle.rv32_guest.specs.Kept.{MakesAccess, MakesNoAccess};
ghost use Rattle.rv32_guest.specs.Accesses.{place_of};
ghost use Rattle.guest_core.specs.inner.Asking.{asked_first};
ghost use Rattle.rv32_guest.specs.Computing.{moved};
ghost use Rattle.rv32_guest.specs.Effect.{acts};
ghost use Rattle.rv32_guest.specs.State.{register};

use crate::arithmetic::{loaded_byte, loaded_half, low_word};
use crate::instructions::RvInstr;
use crate::reg::RvReg;
use crate::registers::Registers;
use llsc_base::{Ask, Place, Size};

/// The place of a size at an address.
#[inline(always)]
pub(super) fn place(size: Size, addr: u32) -> Place
    ensures { result ≡ place_of size addr }
{
    Place { addr, size }
}

/// The low part of a value that a store has.
#[inline(always)]
pub(super) fn stored_part(size: Size, value: u32) -> u64
    ensures { result ≡ value % 256 ^ size_bytes size }
{
    match size {
        Size::B1 => u64::from(value & 0xff),
        Size::B2 => u64::from(value & 0xffff),
        Size::B4 | Size::B8 => u64::from(value),
    }
}

impl Registers {
    /// The access of a load.
    #[inline(always)]
    fn load(&self, size: Size, rs1: RvReg, imm: i32) -> Ask
        ensures { result ≡ Ask.Load (place_of size (moved (register self.now rs1) imm)) }
    {
        Ask::Load(place(size, self.address(rs1, imm)))
    }

    /// The access of a store.
    #[inline(always)]
    fn store(&self, size: Size, rs1: RvReg, imm: i32, rs2: RvReg) -> Ask
        ensures ask { result ≡ Ask.Store (place_of size (moved (register self.now rs1) imm)) (register self.now rs2 % 256 ^ size_bytes size) }
        ensures fits { ValueFits result }
    {
        Ask::Store(
            place(size, self.address(rs1, imm)),
            stored_part(size, self.x(rs2)),
        )
    }

    /// The access of an instruction, if it makes one.
    #[inline(always)]
    pub fn access(&self, instr: &RvInstr) -> Option<Ask>
        ensures asks { IfSome result (λ ask. (program : Program) → acts instr.now program [] self.now ≡ asked_first program ask) }
        ensures fits { IfSome result ValueFits }
        ensures makes_one { IfSome result (λ ask. MakesAccess instr.now) }
        ensures makes_none { IfNone result (MakesNoAccess instr.now) }
    {
        match *instr {
            RvInstr::Lb { rs1, imm, .. } => Some(self.load(Size::B1, rs1, imm)),
            RvInstr::Lh { rs1, imm, .. } => Some(self.load(Size::B2, rs1, imm)),
            RvInstr::Lw { rs1, imm, .. } => Some(self.load(Size::B4, rs1, imm)),
            RvInstr::Lbu { rs1, imm, .. } => Some(self.load(Size::B1, rs1, imm)),
            RvInstr::Lhu { rs1, imm, .. } => Some(self.load(Size::B2, rs1, imm)),
            RvInstr::Sb { rs1, rs2, imm } => Some(self.store(Size::B1, rs1, imm, rs2)),
            RvInstr::Sh { rs1, rs2, imm } => Some(self.store(Size::B2, rs1, imm, rs2)),
            RvInstr::Sw { rs1, rs2, imm } => Some(self.store(Size::B4, rs1, imm, rs2)),
            RvInstr::LrW { rs1, .. } => Some(Ask::LoadEx(place(Size::B4, self.x(rs1)))),
            RvInstr::ScW { rs1, rs2, .. } => Some(Ask::StoreEx(
                place(Size::B4, self.x(rs1)),
                u64::from(self.x(rs2)),
            )),
            _ => None,
        }
    }

    /// An instruction is complete with the reply to its access.
    #[inline(always)]
    pub fn take(&mut self, instr: &RvInstr, reply: u64)
        requires { MakesAccess instr.now }
        ensures { (program : Program) → acts instr.now program (reply ∷ []) self.old ≡ completes self.new }
    {
        match *instr {
            RvInstr::Lb { rd, .. } => self.advance_with(rd, loaded_byte(true, reply)),
            RvInstr::Lh { rd, .. } => self.advance_with(rd, loaded_half(true, reply)),
            RvInstr::Lbu { rd, .. } => self.advance_with(rd, loaded_byte(false, reply)),
            RvInstr::Lhu { rd, .. } => self.advance_with(rd, loaded_half(false, reply)),
            RvInstr::Lw { rd, .. } | RvInstr::LrW { rd, .. } => {
                self.advance_with(rd, low_word(reply));
            }
            RvInstr::ScW { rd, .. } => {
                let status = low_word(reply);
                self.advance_with(rd, status);
            }
            RvInstr::Sb { .. } | RvInstr::Sh { .. } | RvInstr::Sw { .. } => {
                self.advance();
            }
            _ => unreachable!(),
        }
    }
}
