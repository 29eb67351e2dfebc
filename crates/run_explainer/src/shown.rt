//! The instructions of a program as they are shown, of which some are kept: most failures tell the same few instructions.
ghost use Rattle.std.specs.Prelude.{◌≡◌, ◌+◌, ◌≤◌, ◌<◌, All, IfOk, length};
ghost use Rattle.run_explainer.specs.Text.{shown_at};
ghost use Rattle.run_explainer.specs.inner.Texts.{Longer};

use a32_asm::disassemble;
use llsc_base::{Image, Line};
use llsc_texts::Page;
use std::alloc::{AllocError, Global};
use std::marker::Model;

/// How many texts are kept.
const SLOTS: usize = 64;

/// The text of the instruction at an address.
#[derive(Drop)]
struct Slot {
    addr: u32,
    text: Line,
}

/// A program's image, with the texts of some of its instructions.
#[derive(Drop)]
pub(crate) struct Shown {
    image: Image,
    slots: Vec<Slot>,
}

impl Model for Shown {
    ghost use Rattle.std.specs.Prelude.{◌≡◌, All, length};
    ghost use Rattle.llsc_base.specs.Images.{Program};
    ghost use Rattle.run_explainer.specs.Text.{shown_at};

    ghost Value = { Program };

    ghost view = { λ s. s.image };

    ghost invariant = { λ s. (length s.slots.items ≡ 64) × All (λ slot. slot.text ≡ shown_at s.image slot.addr) s.slots.items };
}

/// The instruction at an address, as it is shown.
fn text_of(image: &Image, addr: u32) -> Line
    ensures { result ≡ shown_at image.now addr }
{
    let mut line = Line::new();
    if addr % 4 == 0 {
        if let Some(word) = image.fetch(addr) {
            disassemble(word, addr, &mut line);
        }
    }
    line
}

/// As many texts as are kept, of an address at which no instruction stands.
fn no_slots(alloc: Global, image: &Image) -> Result<Vec<Slot>, AllocError>
    ensures count { IfOk result (λ slots. length slots.items ≡ 64) }
    ensures texts { IfOk result (λ slots. All (λ slot. slot.text ≡ shown_at image.now slot.addr) slots.items) }
{
    let mut slots = Vec::with_capacity(alloc, SLOTS)?;
    while slots.len() < SLOTS {
        slots.push(Slot {
            addr: 1,
            text: text_of(image, 1),
        })?;
    }
    Ok(slots)
}

impl Shown {
    /// The instructions of an image, none of which is kept.
    ///
    /// # Errors
    ///
    /// `AllocError` is want of memory.
    pub(crate) fn new(alloc: Global, image: Image) -> Result<Shown, AllocError>
        ensures { IfOk result (λ shown. shown ≡ image) }
    {
        let slots = no_slots(alloc, &image)?;
        Ok(Shown { image, slots })
    }

    /// Adds the instruction at an address, as it is shown.
    pub(crate) fn put(&mut self, page: &mut Page, addr: u32)
        requires { length page.old + 96 ≤ 65536 }
        ensures text { Longer 96 page.old (shown_at self.old addr) page.new }
        ensures program { self.new ≡ self.old }
    {
        let place = (addr / 4) as usize % SLOTS;
        if self.slots[place].addr != addr {
            self.slots[place] = Slot {
                addr,
                text: text_of(&self.image, addr),
            };
        }
        page.push(self.slots[place].text.bytes());
    }
}
