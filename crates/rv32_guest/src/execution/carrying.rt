//! Instructions that are carried through at once, over a port.
ghost use Rattle.std.specs.Prelude.{◌≡◌, ◌≤◌, ◌+◌, ◌^◌, ℕ, List, [], Some, true, false, length, IfNone, IfSome};
ghost use Rattle.llsc_base.specs.Images.{Program};
ghost use Rattle.llsc_base.specs.declared.access.Size.{Size};
ghost use Rattle.guest_core.specs.Machine.{PassesTests, ValueFits};
ghost use Rattle.guest_core.specs.Ports.{Leads};
ghost use Rattle.rv32_guest.specs.inner.Carrying.{IsCarriedAlone, IsCarriedBy};
ghost use Rattle.rv32_guest.specs.Kept.{MakesAccess, MakesNoAccess};
ghost use Rattle.rv32_guest.specs.Accesses.{loads, place_of, reserves, stores, stores_conditionally};
ghost use Rattle.rv32_guest.specs.Computing.{moved};
ghost use Rattle.rv32_guest.specs.Effect.{acts};
ghost use Rattle.rv32_guest.specs.State.{next_pc, register};

use super::accesses::{place, stored_part};
use crate::arithmetic::{loaded_byte, loaded_half, low_word};
use crate::instructions::RvInstr;
use crate::outcomes::Outcome;
use crate::reg::RvReg;
use crate::registers::Registers;
use guest_core::{Passage, TryPort, stop_at};
use llsc_base::{Ask, Image, Size};

/// The reply to an access, if nothing bars it and the port makes it.
#[inline(always)]
fn reply_to<P: TryPort>(ask: Ask, image: &Image, port: &mut P) -> Option<u64>
    requires fits { ValueFits ask }
    requires mem { P.mem port.old ≡ length image.now.bytes }
    requires few { P.counted port.old + 16 ≤ 2 ^ 63 }
    ensures passes { IfSome result (λ reply. PassesTests image.now ask) }
    ensures replied { IfSome result (λ reply. P.replies port.old ask (Some reply) port.new) }
    ensures leads { IfNone result (Leads P.replies port.old [] port.new) }
    ensures mem { P.mem port.new ≡ P.mem port.old }
    ensures counted { P.counted port.new ≤ P.counted port.old + 16 }
{
    if stop_at(image, ask).is_some() {
        return None;
    }
    port.try_reply(ask)
}

impl Registers {
    /// LB or LBU, of the byte at an address.
    #[inline(always)]
    fn carry_byte<P: TryPort>(
        &mut self,
        with_sign: bool,
        rd: RvReg,
        addr: u32,
        image: &Image,
        port: &mut P,
    ) -> Passage
        requires mem { P.mem port.old ≡ length image.now.bytes }
        requires few { P.counted port.old + 16 ≤ 2 ^ 63 }
        ensures carried { IsCarriedBy P.replies (λ had. loads image.now (place_of Size.B1 addr) with_sign rd had self.old) self.old port.old result self.new port.new }
        ensures next { result ≡ Passage.Next → self.new.pc ≡ next_pc self.old }
        ensures mem { P.mem port.new ≡ P.mem port.old }
        ensures counted { P.counted port.new ≤ P.counted port.old + 16 }
    {
        let ask = Ask::Load(place(Size::B1, addr));
        let Some(reply) = reply_to(ask, image, port) else {
            return Passage::AtStart;
        };
        self.advance_with(rd, loaded_byte(with_sign, reply));
        Passage::Next
    }

    /// LH or LHU, of the halfword at an address.
    #[inline(always)]
    fn carry_half<P: TryPort>(
        &mut self,
        with_sign: bool,
        rd: RvReg,
        addr: u32,
        image: &Image,
        port: &mut P,
    ) -> Passage
        requires mem { P.mem port.old ≡ length image.now.bytes }
        requires few { P.counted port.old + 16 ≤ 2 ^ 63 }
        ensures carried { IsCarriedBy P.replies (λ had. loads image.now (place_of Size.B2 addr) with_sign rd had self.old) self.old port.old result self.new port.new }
        ensures next { result ≡ Passage.Next → self.new.pc ≡ next_pc self.old }
        ensures mem { P.mem port.new ≡ P.mem port.old }
        ensures counted { P.counted port.new ≤ P.counted port.old + 16 }
    {
        let ask = Ask::Load(place(Size::B2, addr));
        let Some(reply) = reply_to(ask, image, port) else {
            return Passage::AtStart;
        };
        self.advance_with(rd, loaded_half(with_sign, reply));
        Passage::Next
    }

    /// LW, of the word at an address.
    #[inline(always)]
    fn carry_word<P: TryPort>(
        &mut self,
        rd: RvReg,
        addr: u32,
        image: &Image,
        port: &mut P,
    ) -> Passage
        requires mem { P.mem port.old ≡ length image.now.bytes }
        requires few { P.counted port.old + 16 ≤ 2 ^ 63 }
        ensures carried { IsCarriedBy P.replies (λ had. loads image.now (place_of Size.B4 addr) false rd had self.old) self.old port.old result self.new port.new }
        ensures next { result ≡ Passage.Next → self.new.pc ≡ next_pc self.old }
        ensures mem { P.mem port.new ≡ P.mem port.old }
        ensures counted { P.counted port.new ≤ P.counted port.old + 16 }
    {
        let ask = Ask::Load(place(Size::B4, addr));
        let Some(reply) = reply_to(ask, image, port) else {
            return Passage::AtStart;
        };
        self.advance_with(rd, low_word(reply));
        Passage::Next
    }

    /// SB, SH or SW, of a value to an address.
    #[inline(always)]
    fn carry_store<P: TryPort>(
        &mut self,
        size: Size,
        addr: u32,
        value: u32,
        image: &Image,
        port: &mut P,
    ) -> Passage
        requires mem { P.mem port.old ≡ length image.now.bytes }
        requires few { P.counted port.old + 16 ≤ 2 ^ 63 }
        ensures carried { IsCarriedBy P.replies (λ had. stores image.now (place_of size addr) value had self.old) self.old port.old result self.new port.new }
        ensures next { result ≡ Passage.Next → self.new.pc ≡ next_pc self.old }
        ensures mem { P.mem port.new ≡ P.mem port.old }
        ensures counted { P.counted port.new ≤ P.counted port.old + 16 }
    {
        let ask = Ask::Store(place(size, addr), stored_part(size, value));
        let Some(_reply) = reply_to(ask, image, port) else {
            return Passage::AtStart;
        };
        self.advance();
        Passage::Next
    }

    /// LR.W, of the word at an address.
    #[inline(always)]
    fn carry_reserved<P: TryPort>(
        &mut self,
        rd: RvReg,
        addr: u32,
        image: &Image,
        port: &mut P,
    ) -> Passage
        requires mem { P.mem port.old ≡ length image.now.bytes }
        requires few { P.counted port.old + 16 ≤ 2 ^ 63 }
        ensures carried { IsCarriedBy P.replies (λ had. reserves image.now addr rd had self.old) self.old port.old result self.new port.new }
        ensures next { result ≡ Passage.Next → self.new.pc ≡ next_pc self.old }
        ensures mem { P.mem port.new ≡ P.mem port.old }
        ensures counted { P.counted port.new ≤ P.counted port.old + 16 }
    {
        let ask = Ask::LoadEx(place(Size::B4, addr));
        let Some(reply) = reply_to(ask, image, port) else {
            return Passage::AtStart;
        };
        self.advance_with(rd, low_word(reply));
        Passage::Next
    }

    /// SC.W, of a value to an address.
    #[inline(always)]
    fn carry_conditional<P: TryPort>(
        &mut self,
        rd: RvReg,
        addr: u32,
        value: u32,
        image: &Image,
        port: &mut P,
    ) -> Passage
        requires mem { P.mem port.old ≡ length image.now.bytes }
        requires few { P.counted port.old + 16 ≤ 2 ^ 63 }
        ensures carried { IsCarriedBy P.replies (λ had. stores_conditionally image.now addr value rd had self.old) self.old port.old result self.new port.new }
        ensures next { result ≡ Passage.Next → self.new.pc ≡ next_pc self.old }
        ensures mem { P.mem port.new ≡ P.mem port.old }
        ensures counted { P.counted port.new ≤ P.counted port.old + 16 }
    {
        let ask = Ask::StoreEx(place(Size::B4, addr), u64::from(value));
        let Some(reply) = reply_to(ask, image, port) else {
            return Passage::AtStart;
        };
        self.advance_with(rd, low_word(reply));
        Passage::Next
    }

    /// An instruction that makes an access is carried through, over a port. Where it isn't complete it is at its start, and the
    /// registers are as they were.
    #[inline(always)]
    pub fn carry_access<P: TryPort>(
        &mut self,
        instr: RvInstr,
        image: &Image,
        port: &mut P,
    ) -> Passage
        requires class { MakesAccess instr }
        requires mem { P.mem port.old ≡ length image.now.bytes }
        requires few { P.counted port.old + 16 ≤ 2 ^ 63 }
        ensures carried { IsCarriedBy P.replies (λ had. acts instr image.now had self.old) self.old port.old result self.new port.new }
        ensures next { result ≡ Passage.Next → self.new.pc ≡ next_pc self.old }
        ensures mem { P.mem port.new ≡ P.mem port.old }
        ensures counted { P.counted port.new ≤ P.counted port.old + 16 }
    {
        match instr {
            RvInstr::Lb { rd, rs1, imm } => {
                self.carry_byte(true, rd, self.address(rs1, imm), image, port)
            }
            RvInstr::Lh { rd, rs1, imm } => {
                self.carry_half(true, rd, self.address(rs1, imm), image, port)
            }
            RvInstr::Lw { rd, rs1, imm } => {
                self.carry_word(rd, self.address(rs1, imm), image, port)
            }
            RvInstr::Lbu { rd, rs1, imm } => {
                self.carry_byte(false, rd, self.address(rs1, imm), image, port)
            }
            RvInstr::Lhu { rd, rs1, imm } => {
                self.carry_half(false, rd, self.address(rs1, imm), image, port)
            }
            RvInstr::Sb { rs1, rs2, imm } => {
                self.carry_store(Size::B1, self.address(rs1, imm), self.x(rs2), image, port)
            }
            RvInstr::Sh { rs1, rs2, imm } => {
                self.carry_store(Size::B2, self.address(rs1, imm), self.x(rs2), image, port)
            }
            RvInstr::Sw { rs1, rs2, imm } => {
                self.carry_store(Size::B4, self.address(rs1, imm), self.x(rs2), image, port)
            }
            RvInstr::LrW { rd, rs1 } => self.carry_reserved(rd, self.x(rs1), image, port),
            RvInstr::ScW { rd, rs1, rs2 } => {
                self.carry_conditional(rd, self.x(rs1), self.x(rs2), image, port)
            }
            _ => unreachable!(),
        }
    }

    /// An instruction that makes no access is carried through. Where it isn't complete it is at its start, and the registers are as
    /// they were.
    #[inline(always)]
    pub fn carry_alone(&mut self, instr: RvInstr) -> Passage
        requires { MakesNoAccess instr }
        ensures carried { IsCarriedAlone (λ program. acts instr program [] self.old) self.old result self.new }
        ensures next { result ≡ Passage.Next → self.new.pc ≡ next_pc self.old }
    {
        match self.act(instr) {
            Outcome::Next => Passage::Next,
            Outcome::Jumps => Passage::Jumped,
            Outcome::Calls(_) | Outcome::Stops(_) => Passage::AtStart,
        }
    }
}
