//! A program's instructions, each decoded where it is met first.
ghost use Rattle.std.specs.Prelude.{◌≡◌, ◌%◌, IfOk, IfSome};
ghost use Rattle.guest_core.specs.Known.{AreRightFrom, EndsUnmet};

use crate::pages::Pages;
use crate::ready::Ready;
use llsc_base::Image;
use std::alloc::{AllocError, Global};
use std::marker::Model;

/// A program as a thread runs it: its image, and the instructions that were met, page by page. The image is one for all of them,
/// so an instruction that is known is neither fetched nor decoded again.
#[derive(Drop)]
pub struct Code<'i, R: Ready> {
    image: &'i Image,
    pages: Pages<R>,
}

impl<'i, R: Ready> Model for Code<'i, R> {
    ghost use Rattle.std.specs.Prelude.{◌≡◌, vec_len};
    ghost use Rattle.guest_core.specs.Known.{KnownCode};
    ghost use Rattle.guest_core.specs.Paged.{AreRightIn};

    ghost Value = { KnownCode };

    ghost view = { λ code. record { program = code.image.now } };

    ghost invariant = { λ code. (vec_len code.pages.kept ≡ 4112) × AreRightIn R.is_met R.found R.instr R.is_right code.image.now code.pages.numbers code.pages.kept.items };
}

impl<'i, R: Ready> Code<'i, R> {
    /// A program none of whose instructions was met.
    ///
    /// # Errors
    ///
    /// `AllocError` is want of memory.
    pub fn new(alloc: Global, image: &'i Image) -> Result<Code<'i, R>, AllocError>
        ensures { IfOk result (λ code. code.program ≡ image.now) }
    {
        Ok(Code {
            image,
            pages: Pages::new(alloc)?,
        })
    }

    /// The program.
    #[inline(always)]
    pub fn image(&self) -> &'i Image
        ensures { result.now ≡ self.now.program }
    {
        self.image
    }

    /// What is kept from an address on, which is a multiple of 4. `None` where nothing is known of its page.
    #[inline(always)]
    pub fn from(&self, addr: u32) -> Option<&[R]>
        requires { addr % 4 ≡ 0 }
        ensures right { IfSome result (λ kept. AreRightFrom R.is_met R.found R.instr R.is_right self.now.program addr kept.now) }
        ensures ends { IfSome result (λ kept. EndsUnmet R.is_met kept.now) }
    {
        self.pages.from(addr)
    }

    /// Gets to know the instruction at an address, a multiple of 4, if there is one. Whether there is.
    #[cold]
    #[inline(never)]
    pub fn meet(&mut self, addr: u32) -> bool
        requires { addr % 4 ≡ 0 }
        ensures { self.new.program ≡ self.old.program }
    {
        if self.pages.has(addr) {
            return true;
        }
        let Some(word) = self.image.fetch(addr) else {
            return false;
        };
        let Some(ready) = R::of_word(word) else {
            return false;
        };
        self.pages.keep(addr, ready);
        true
    }
}
