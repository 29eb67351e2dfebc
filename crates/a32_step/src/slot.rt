//! A word that was decoded, so that it isn't decoded again where it is met next.
ghost use Rattle.std.specs.Prelude.{◌≡◌, ◌%◌, IfOk, IfErr, Ok, Err};
ghost use Rattle.a32_instr.specs.declared.instructions.Instr.{Instr};
ghost use Rattle.a32_instr.specs.Effect.{condition_of};
ghost use Rattle.a32_instr.specs.Table.{meaning, table};
ghost use Rattle.a32_step.specs.Machine.{instr_at};
ghost use Rattle.a32_step.specs.RowActs.{IsLoweredOf};

use crate::lowered::Lowered;
use a32_decode::decode;
use a32_instr::{Cond, Instr};
use llsc_base::{DecodeFault, Image, Stop};
use std::marker::Model;

/// The word NOP (DDI 0406C A8.8.119).
const NOP: u32 = 0xe320_f000;

/// A word, its instruction, and the condition of that.
#[derive(Clone, Copy)]
pub struct Slot {
    word: u32,
    cond: Cond,
    lowered: Lowered,
}

impl Model for Slot {
    ghost use Rattle.std.specs.Prelude.{◌≡◌, Ok};
    ghost use Rattle.std.proofs.Common.{ap, sym};
    ghost use Rattle.a32_instr.specs.Effect.{condition_of};
    ghost use Rattle.a32_instr.specs.Table.{meaning, table};
    ghost use Rattle.a32_step.specs.RowActs.{IsLoweredOf};
    ghost use Rattle.a32_step.specs.inner.Slots.{Met};

    ghost Value = { Met };

    ghost view = { λ slot. record { word = slot.word; lowered = slot.lowered } };

    ghost invariant = { λ slot. (meaning table slot.word ≡ Ok slot.lowered.instr) × (slot.cond ≡ condition_of slot.lowered.instr) × IsLoweredOf slot.lowered.instr slot.lowered };

    ghost inverse = { λ met. record { word = met.word; cond = condition_of met.lowered.instr; lowered = met.lowered } };

    ghost inverse_ok = { λ slot right. ap (λ cond. record slot { cond = cond }) (sym right.1) };
}

impl Slot {
    /// The word NOP.
    #[tactic(auto, using(crate::proofs::Slots::nop_means))]
    pub fn nop() -> Slot {
        Slot {
            word: NOP,
            cond: Cond::ALWAYS,
            lowered: Lowered::other(Instr::Nop { cond: Cond::ALWAYS }),
        }
    }

    /// Its instruction, with its operands.
    #[inline(always)]
    pub fn lowered(&self) -> &Lowered
        ensures lowered { result.now ≡ self.now.lowered }
        ensures right { IsLoweredOf result.now.instr result.now }
    {
        &self.lowered
    }

    /// The condition of its instruction.
    #[inline(always)]
    pub fn cond(&self) -> Cond
        ensures { result ≡ condition_of self.now.lowered.instr }
    {
        self.cond
    }

    /// Sees to it that it has the instruction at an address, or says what stops a thread there. The span `near` is looked at first.
    #[inline(always)]
    pub fn fetch(&mut self, image: &Image, addr: u32, near: &mut usize) -> Result<(), Stop>
        requires { addr % 4 ≡ 0 }
        ensures known { IfOk result (λ done. instr_at image.now addr ≡ Ok self.new.lowered.instr) }
        ensures stops { IfErr result (λ stop. instr_at image.now addr ≡ Err stop) }
    {
        let Some(word) = image.fetch_near(addr, near) else {
            return Err(Stop::Outside(addr));
        };
        match self.take(word) {
            Ok(()) => Ok(()),
            Err(fault) => Err(fault.stop_at(addr)),
        }
    }

    /// Sees to it that it has the instruction of this word, or says why the word is none.
    #[inline(always)]
    fn take(&mut self, word: u32) -> Result<(), DecodeFault>
        ensures known { IfOk result (λ done. meaning table word ≡ Ok self.new.lowered.instr) }
        ensures refused { IfErr result (λ fault. meaning table word ≡ Err fault) }
    {
        if self.word == word {
            return Ok(());
        }
        self.decode(word)
    }

    /// Sees to it that it has the instruction at an address; there must be one.
    #[cold]
    #[inline(never)]
    pub fn keep(&mut self, image: &Image, addr: u32)
        requires aligned { addr % 4 ≡ 0 }
        requires one { (instr : Instr) × (instr_at image.now addr ≡ Ok instr) }
        ensures { instr_at image.now addr ≡ Ok self.new.lowered.instr }
    {
        let Some(word) = image.fetch(addr) else {
            unreachable!()
        };
        let Ok(()) = self.take(word) else {
            unreachable!()
        };
    }

    /// The instruction of another word.
    fn decode(&mut self, word: u32) -> Result<(), DecodeFault>
        ensures known { IfOk result (λ done. meaning table word ≡ Ok self.new.lowered.instr) }
        ensures refused { IfErr result (λ fault. meaning table word ≡ Err fault) }
    {
        let instr = decode(word)?;
        *self = Slot {
            word,
            cond: instr.cond(),
            lowered: Lowered::of(instr),
        };
        Ok(())
    }
}
