//! Pages of a program's instructions.
ghost use Rattle.std.specs.Prelude.{◌≡◌, ◌<◌, ◌≤◌, ◌/◌, ◌%◌, IfOk, IfSome, length, slice_index, vec_len};
ghost use Rattle.llsc_base.specs.Images.{Program};
ghost use Rattle.guest_core.specs.Known.{AreRightFrom, EndsUnmet, IsRightAt};
ghost use Rattle.guest_core.specs.Paged.{AreRightIn};

use crate::ready::Ready;
use std::alloc::{AllocError, Global};

/// How many instructions a page has: those of 1 KiB of a program.
const PLACES: usize = 256;

/// How many are kept for a page. Behind its instructions is one that never is met, so that a walk over them ends there.
const STRIDE: usize = PLACES + 1;

/// How many pages are known at most: those of a program of 16 KiB, each in a slot of its own.
const SLOTS: usize = 16;

/// The number of a page that no address has.
const NOWHERE: u32 = u32::MAX;

/// Instructions as they are kept ready, as far as they were met, page by page.
#[derive(Drop)]
pub struct Pages<R: Ready> {
    numbers: [u32; SLOTS],
    kept: Vec<R>,
}

impl<R: Ready> Pages<R> {
    /// Pages none of whose instructions was met.
    ///
    /// # Errors
    ///
    /// `AllocError` is want of memory.
    pub fn new(alloc: Global) -> Result<Pages<R>, AllocError>
        ensures many { IfOk result (λ pages. vec_len pages.kept ≡ 4112) }
        ensures right { IfOk result (λ pages. (program : Program) → AreRightIn R.is_met R.found R.instr R.is_right program pages.numbers pages.kept.items) }
    {
        let mut kept = Vec::with_capacity(alloc, SLOTS * STRIDE)?;
        for _at in 0..SLOTS * STRIDE {
            kept.push(R::unmet())?;
        }
        Ok(Pages {
            numbers: [NOWHERE; SLOTS],
            kept,
        })
    }

    /// What is kept from an address on, which is a multiple of 4. `None` where its page isn't known.
    #[inline(always)]
    pub fn from(&self, addr: u32) -> Option<&[R]>
        requires aligned { addr % 4 ≡ 0 }
        requires many { vec_len self.now.kept ≡ 4112 }
        ensures some { IfSome result (λ kept. 0 < length kept.now) }
        ensures right { IfSome result (λ kept. (program : Program) → AreRightIn R.is_met R.found R.instr R.is_right program self.now.numbers self.now.kept.items
            → AreRightFrom R.is_met R.found R.instr R.is_right program addr kept.now) }
        ensures ends { IfSome result (λ kept. (program : Program) → AreRightIn R.is_met R.found R.instr R.is_right program self.now.numbers self.now.kept.items
            → EndsUnmet R.is_met kept.now) }
    {
        let slot = slot_of(addr);
        if self.numbers[slot] != addr / 1024 {
            return None;
        }
        let place = (addr / 4) as usize % (SLOTS * PLACES) + slot;
        Some(&self.kept[place..slot * STRIDE + STRIDE])
    }

    /// Whether the instruction at an address was met, which is a multiple of 4.
    pub fn has(&self, addr: u32) -> bool
        requires aligned { addr % 4 ≡ 0 }
        requires many { vec_len self.now.kept ≡ 4112 }
    {
        match self.from(addr) {
            Some(kept) => kept[0].is_met(),
            None => false,
        }
    }

    /// Keeps the instruction at an address, which is a multiple of 4.
    pub fn keep(&mut self, addr: u32, ready: R)
        requires aligned { addr % 4 ≡ 0 }
        requires many { vec_len self.old.kept ≡ 4112 }
        ensures many { vec_len self.new.kept ≡ 4112 }
        ensures right { (program : Program) → AreRightIn R.is_met R.found R.instr R.is_right program self.old.numbers self.old.kept.items
            → IsRightAt R.is_met R.found R.instr R.is_right program addr ready → AreRightIn R.is_met R.found R.instr R.is_right program self.new.numbers self.new.kept.items }
    {
        let slot = slot_of(addr);
        self.turn_to(slot, addr / 1024);
        self.kept[slot * STRIDE + (addr / 4) as usize % PLACES] = ready;
    }

    /// A slot has the page of a number from then on; where it had another one, nothing is known of it.
    fn turn_to(&mut self, slot: usize, number: u32)
        requires slot { slot < 16 }
        requires many { vec_len self.old.kept ≡ 4112 }
        ensures many { vec_len self.new.kept ≡ 4112 }
        ensures number { slice_index self.new.numbers slot ≡ number }
        ensures right { (program : Program) → AreRightIn R.is_met R.found R.instr R.is_right program self.old.numbers self.old.kept.items
            → AreRightIn R.is_met R.found R.instr R.is_right program self.new.numbers self.new.kept.items }
    {
        if self.numbers[slot] == number {
            return;
        }
        let unmet = R::unmet();
        for place in 0..STRIDE {
            self.kept[slot * STRIDE + place] = unmet;
        }
        self.numbers[slot] = number;
    }
}

/// The slot of an address's page.
#[inline(always)]
fn slot_of(addr: u32) -> usize
    ensures { result ≡ addr / 1024 % 16 }
{
    (addr / 1024) as usize % SLOTS
}
