//! A guest program as it stands in memory before its first instruction.
ghost use Rattle.std.specs.Prelude.{◌≡◌, ◌+◌, ◌*◌, ◌-◌, ◌%◌, ◌^◌, ◌<◌, IfSome, IsTrue, length, slice_index, position};
ghost use Rattle.llsc_base.specs.Images.{IsProgram, Program, bar_of, first_barred, holds_word, program_of, serves, touches_read_only, word_at};

use crate::access::{Bar, BarredWord, Place, Size};
use crate::hulls::Hull;
use crate::memory::load_4;
use std::marker::Model;

/// A segment of memory, from its start up to its end, the end not included.
#[derive(Clone, Copy, Debug, PartialEq, Eq)]
pub struct Span {
    pub start: u32,
    pub end: u32,
    /// Whether instructions may be fetched from it.
    pub run: bool,
    /// Whether a guest may store into it.
    pub write: bool,
}

/// A guest program as it stands in memory before its first instruction.
///
/// ```
/// let words = [0x01, 0x70, 0xa0, 0xe3, 0x00, 0x00, 0x00, 0xef]; // mov r7, #1; svc #0
/// let image = Image::flat(alloc, &words, &size)?;
/// ```
#[derive(Drop)]
pub struct Image {
    bytes: Vec<u8>,
    spans: Vec<Span>,
    entry: u32,
    hull: Hull,
}

impl Model for Image {
    ghost use Rattle.std.specs.Prelude.{◌≡◌};
    ghost use Rattle.llsc_base.specs.Hulls.{hull_of};
    ghost use Rattle.llsc_base.specs.Images.{Program, IsProgram};

    ghost Value = { Program };

    ghost view = { λ i. record { bytes = i.bytes.items; spans = i.spans.items; entry = i.entry } };

    ghost invariant = { λ i. IsProgram (record { bytes = i.bytes.items; spans = i.spans.items; entry = i.entry })
        × (i.hull ≡ hull_of i.spans.items) };
}

impl Image {
    /// The image of exactly these parts: memory at the start, the segments that lie in it, and the address
    /// of the first instruction.
    ///
    /// The spans are disjoint and not empty, each lies within the bytes, none both runs and is written, and
    /// the entry is a multiple of 4.
    pub fn of(bytes: Vec<u8>, spans: Vec<Span>, entry: u32) -> Image
        requires { IsProgram (program_of bytes.items spans.items entry) }
        ensures { result ≡ program_of bytes.items spans.items entry }
    {
        let hull = Hull::of(&spans);
        Image {
            bytes,
            spans,
            entry,
            hull,
        }
    }

    /// The address of the first instruction, a multiple of 4.
    pub fn entry(&self) -> u32
        ensures number { result ≡ self.now.entry }
        ensures aligned { result % 4 ≡ 0 }
    {
        self.entry
    }

    /// All of memory as it stands at the start.
    #[inline]
    pub fn bytes(&self) -> &[u8]
        ensures items { result.now ≡ self.now.bytes }
        ensures sound { IsProgram self.now }
    {
        &self.bytes
    }

    /// The byte at an address of memory, which is below its length, as it stands at the start.
    #[inline]
    pub fn byte(&self, addr: u32) -> u8
        requires { addr < length self.now.bytes }
        ensures { result ≡ slice_index self.now.bytes addr }
    {
        self.bytes[addr as usize]
    }

    /// The instruction word at an address that is a multiple of 4, its least significant byte first.
    ///
    /// `None` exactly where no span that runs holds all four bytes.
    pub fn fetch(&self, addr: u32) -> Option<u32>
        requires { addr % 4 ≡ 0 }
        ensures { result ≡ word_at self.now addr }
    {
        let mut near = 0;
        self.fetch_near(addr, &mut near)
    }

    /// As [`Image::fetch`], and the same answer whatever `near` is.
    ///
    /// The span of that index is tried first, and the others only where it doesn't hold the word; `near`
    /// is then the index of the one that does. So a caller that keeps `near` walks the spans only when
    /// it comes to another one.
    #[inline]
    pub fn fetch_near(&self, addr: u32, near: &mut usize) -> Option<u32>
        requires { addr % 4 ≡ 0 }
        ensures word { result ≡ word_at self.now addr }
        ensures near { IfSome result (λ word. IsTrue (serves self.now.spans near.new addr)) }
    {
        if is_held_at(&self.spans, *near, addr) {
            return Some(load_4(&self.bytes, addr as usize));
        }
        let at = holder(&self.spans, addr)?;
        *near = at;
        Some(load_4(&self.bytes, addr as usize))
    }

    /// What stands against an access of a place, a store or a load: the first of [`Bar`]'s variants that
    /// does. `Alignment` where the address is no multiple of the size, `Outside` where the place ends past
    /// memory, `ReadOnly` where `store` is set and a byte of it lies in a span that isn't written. `None`
    /// where nothing stands against it.
    #[inline(always)]
    pub fn test(&self, place: Place, store: bool) -> Option<Bar>
        ensures { result ≡ bar_of self.now place store }
    {
        if !place.is_aligned() {
            return Some(Bar::Alignment);
        }
        let end = place.addr as usize + place.size.bytes() as usize;
        if end > self.bytes.len() {
            return Some(Bar::Outside);
        }
        if store && self.is_read_only(place.addr as usize, end) {
            return Some(Bar::ReadOnly);
        }
        None
    }

    /// Whether some byte from one address up to another lies in a span that isn't written. The spans are walked only
    /// where the hull of those is met.
    #[inline(always)]
    #[tactic(auto, using(crate::proofs::HullLaws::hull_apart))]
    fn is_read_only(&self, from: usize, to: usize) -> bool
        ensures { result ≡ touches_read_only self.now.spans from to }
    {
        self.hull.meets(from, to) && touches_read_only(&self.spans, from, to)
    }
}

impl Image {
    /// The first of `count` words, one after another from an address up, that may not be accessed, with
    /// what stands against it. Addresses count modulo 2 to the 32, and `count` is below 2 to the 30.
    #[inline]
    pub fn test_words(&self, addr: u32, count: u32, store: bool) -> Option<BarredWord>
        requires { 4 * count < 2 ^ 32 }
        ensures { result ≡ first_barred self.now store addr count }
    {
        if self.all_pass(addr, count, store) {
            return None;
        }
        self.first_barred(addr, count, store)
    }

    /// Whether it is plain at once that no word is barred: the block is aligned, ends within memory and
    /// below 2 to the 32, and, if it is stored, touches as one piece no span that isn't written.
    #[inline]
    #[tactic(auto, using(crate::proofs::Blocks::block_passes))]
    fn all_pass(&self, addr: u32, count: u32, store: bool) -> bool
        requires { 4 * count < 2 ^ 32 }
        ensures { IsTrue result → first_barred self.now store addr count ≡ None }
    {
        if addr % 4 != 0 {
            return false;
        }
        let Some(end) = addr.checked_add(4 * count) else {
            return false;
        };
        if end as usize > self.bytes.len() {
            return false;
        }
        !(store && self.is_read_only(addr as usize, end as usize))
    }

    /// The first word that is barred, by the words one after another.
    #[cold]
    #[tactic(auto, using(crate::proofs::Barred::barred_none, crate::proofs::Barred::barred_step))]
    fn first_barred(&self, addr: u32, count: u32, store: bool) -> Option<BarredWord>
        requires { 4 * count < 2 ^ 32 }
        ensures { result ≡ first_barred self.now store addr count }
    {
        for i in 0..count {
            let word = Place {
                addr: addr.wrapping_add(4 * i),
                size: Size::B4,
            };
            if let Some(bar) = self.test(word, store) {
                return Some(BarredWord {
                    addr: word.addr,
                    bar,
                });
            }
        }
        None
    }
}

/// Whether a span runs and holds the four bytes from an address on.
#[inline]
fn holds_word(span: &Span, addr: u32) -> bool
    ensures { result ≡ holds_word span.now addr }
{
    span.run && span.start <= addr && addr as usize + 4 <= span.end as usize
}

/// Whether the span of this index, if there is one, runs and holds the four bytes.
#[inline]
fn is_held_at(spans: &[Span], at: usize, addr: u32) -> bool
    ensures { result ≡ serves spans.now at addr }
{
    match spans.get(at) {
        Some(span) => holds_word(span, addr),
        None => false,
    }
}

/// The index of the first span that runs and holds the four bytes.
fn holder(spans: &[Span], addr: u32) -> Option<usize>
    ensures { result ≡ position (λ span. holds_word span addr) spans.now }
{
    spans.iter().position(|span| holds_word(span, addr))
}

/// Whether some byte from one address up to another lies in a span that isn't written, by all spans.
#[inline(never)]
fn touches_read_only(spans: &[Span], from: usize, to: usize) -> bool
    ensures { result ≡ touches_read_only spans.now from to }
{
    spans.iter().any(|span| !span.write
        && from.max(span.start as usize) < to.min(span.end as usize))
}
