//! Synchronization primitives (DDI 0406C A3.4, A5.2.10): exclusives ask, and memory decides.
ghost use Rattle.std.specs.Prelude.{◌≡◌, ◌<◌, ◌≤◌, ◌+◌, ◌^◌, length, [], IsFalse};
ghost use Rattle.llsc_base.specs.Effects.{loaded_part};
ghost use Rattle.a32_instr.specs.Exclusive.{next_register, with_loaded, stored_part, load_exclusive, store_exclusive, clear_exclusive};
ghost use Rattle.a32_step.specs.inner.Acting.{IsActed};

use super::Execution;
use crate::phases::Progress;
use crate::sources::Source;
use a32_compute::parts::{loaded_part, low_word};
use a32_instr::Reg;
use llsc_base::{Ask, Image, Place, Size};

/// The register after this one, which holds the high word of a doubleword.
fn next_register(rt: Reg) -> Reg
    ensures { result ≡ next_register rt }
{
    Reg::new((rt.num() + 1) % 16)
}

impl Execution {
    /// What a load-exclusive takes of its reply goes to its register, or to two.
    fn set_loaded(&mut self, size: Size, rt: Reg, reply: u64)
        ensures { self.new ≡ record self.old { state = with_loaded size rt (loaded_part size reply) self.old.state } }
    {
        let value = loaded_part(size, reply);
        self.set(rt, low_word(value));
        if size == Size::B8 {
            self.set(next_register(rt), (value >> 32) as u32);
        }
    }

    /// The value that a store-exclusive stores.
    fn part_to_store(&self, size: Size, rt: Reg) -> u64
        ensures { result ≡ stored_part size rt self.now.state }
    {
        let low = u64::from(self.operand(rt));
        match size {
            Size::B1 => low & 0xff,
            Size::B2 => low & 0xffff,
            Size::B4 => low,
            Size::B8 => u64::from(self.operand(next_register(rt))) * 0x1_0000_0000 + low,
        }
    }
}

impl Execution {
    /// LDREX, LDREXB, LDREXH and LDREXD (DDI 0406C A8.8.75 to A8.8.78).
    #[inline(never)]
    pub(super) fn load_exclusive<S: Source>(
        &mut self,
        image: &Image,
        size: Size,
        rn: Reg,
        rt: Reg,
        source: &mut S,
    ) -> Progress
        requires fresh { IsFalse S.RESUMES → self.old.replies ≡ [] }
        requires mem { S.mem source.old ≡ length image.now.bytes }
        requires few { S.counted source.old < 2 ^ 63 }
        ensures acted { IsActed S.replies (λ had. load_exclusive size rn rt image.now had self.old.state) self.old source.old result self.new source.new }
        ensures mem { S.mem source.new ≡ S.mem source.old }
        ensures counted { S.counted source.new ≤ S.counted source.old + 1 }
    {
        let place = Place {
            addr: self.operand(rn),
            size,
        };
        let Some(reply) = self.reply_to(image, Ask::LoadEx(place), source) else {
            return Progress::Held;
        };
        self.set_loaded(size, rt, reply);
        self.advance()
    }

    /// STREX, STREXB, STREXH and STREXD (DDI 0406C A8.8.212 to A8.8.215).
    #[tactic(auto, using(crate::proofs::Instructions::stored_part_fits))]
    #[inline(never)]
    pub(super) fn store_exclusive<S: Source>(
        &mut self,
        image: &Image,
        size: Size,
        rn: Reg,
        rd: Reg,
        rt: Reg,
        source: &mut S,
    ) -> Progress
        requires fresh { IsFalse S.RESUMES → self.old.replies ≡ [] }
        requires mem { S.mem source.old ≡ length image.now.bytes }
        requires few { S.counted source.old < 2 ^ 63 }
        ensures acted { IsActed S.replies (λ had. store_exclusive size rn rd rt image.now had self.old.state) self.old source.old result self.new source.new }
        ensures mem { S.mem source.new ≡ S.mem source.old }
        ensures counted { S.counted source.new ≤ S.counted source.old + 1 }
    {
        // The registers hold words.
        let _ = &self.regs;
        let place = Place {
            addr: self.operand(rn),
            size,
        };
        let value = self.part_to_store(size, rt);
        let Some(reply) = self.reply_to(image, Ask::StoreEx(place, value), source) else {
            return Progress::Held;
        };
        let status = low_word(reply);
        self.set(rd, status);
        self.advance()
    }

    /// CLREX (DDI 0406C A8.8.32).
    #[inline(never)]
    pub(super) fn clear_exclusive<S: Source>(&mut self, image: &Image, source: &mut S) -> Progress
        requires fresh { IsFalse S.RESUMES → self.old.replies ≡ [] }
        requires mem { S.mem source.old ≡ length image.now.bytes }
        requires few { S.counted source.old < 2 ^ 63 }
        ensures acted { IsActed S.replies (λ had. clear_exclusive had self.old.state) self.old source.old result self.new source.new }
        ensures mem { S.mem source.new ≡ S.mem source.old }
        ensures counted { S.counted source.new ≤ S.counted source.old + 1 }
    {
        let Some(_reply) = self.reply_to(image, Ask::Clear, source) else {
            return Progress::Held;
        };
        self.advance()
    }
}
