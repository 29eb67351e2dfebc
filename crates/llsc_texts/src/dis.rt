//! `dis`: an image, word by word.
ghost use Rattle.std.specs.Prelude.{◌≡◌, ◌+◌, ◌%◌, ◌<◌, ◌≤◌, ◌++◌, [], length, codes, IfOk};
ghost use Rattle.number_text.specs.Hexadecimal.{word_text};
ghost use Rattle.llsc_host.specs.Writes.{Writes};
ghost use Rattle.llsc_texts.specs.Disassembly.{disassembly, head_text, line_at, word_line};
ghost use Rattle.llsc_texts.specs.Paging.{Pages};

use crate::pages::{Page, make_room};
use a32_asm::disassemble;
use llsc_base::{Image, Line};
use llsc_host::{Failed, Host, write};
use number_text::write_word;
use std::alloc::{AllocError, Global};
use std::marker::Model;

/// Adds a word as digits, and a space.
pub fn push_word(line: &mut Line, word: u32)
    requires { length line.old + 9 ≤ 96 }
    ensures text { line.new ≡ line.old ++ (word_text word ++ codes " ") }
    ensures longer { length line.new ≡ length line.old + 9 }
{
    write_word(line, word);
    line.push(b' ');
}

/// The address and the word, as digits.
fn head_of(addr: u32, word: u32) -> Line
    ensures { result ≡ head_text addr word }
{
    let mut head = Line::new();
    push_word(&mut head, addr);
    push_word(&mut head, word);
    head
}

/// Adds a line of two parts to the page.
fn add_line<H: Host>(host: &mut H, page: &mut Page, head: &[u8], text: &[u8]) -> Result<(), Failed>
    requires head { length head.now ≤ 96 }
    requires text { length text.now ≤ 96 }
    ensures { Pages H.Host host.old host.new page.old page.new (page.old ++ (head.now ++ (text.now ++ codes "\n"))) result }
{
    make_room(host, page, head.len() + text.len() + 1)?;
    page.push(head);
    page.push(text);
    page.push(b"\n");
    Ok(())
}

/// Adds the line of a word at an address to the page.
fn add_word<H: Host>(host: &mut H, page: &mut Page, addr: u32, word: u32) -> Result<(), Failed>
    requires { addr % 4 ≡ 0 }
    ensures { Pages H.Host host.old host.new page.old page.new (page.old ++ word_line addr word) result }
{
    let head = head_of(addr, word);
    let mut text = Line::new();
    disassemble(word, addr, &mut text);
    add_line(host, page, head.bytes(), text.bytes())
}

/// Adds the line at an address to the page, if there is one.
fn add_at<H: Host>(
    host: &mut H,
    page: &mut Page,
    image: &Image,
    addr: u32,
    near: &mut usize,
) -> Result<(), Failed>
    requires { addr % 4 ≡ 0 }
    ensures { Pages H.Host host.old host.new page.old page.new (page.old ++ line_at image.now addr) result }
{
    match image.fetch_near(addr, near) {
        Some(word) => add_word(host, page, addr, word),
        None => Ok(()),
    }
}

/// Writes the lines of all of an image, which has `mem` bytes, a page at a time.
fn write_lines<H: Host>(
    host: &mut H,
    page: &mut Page,
    image: &Image,
    mem: u32,
) -> Result<(), Failed>
    requires empty { page.old ≡ [] }
    requires whole { length image.now.bytes ≡ mem }
    ensures { Writes H.Host host.old host.new (disassembly image.now) result }
{
    let count = mem / 4;
    let mut near = 0;
    for i in 0..count {
        add_at(host, page, image, 4 * i, &mut near)?;
    }
    write(host, page.bytes())
}

/// An image that is to be shown, with the page on which its lines are made.
#[derive(Drop)]
pub struct Listing {
    image: Image,
    mem: u32,
    page: Page,
}

impl Model for Listing {
    ghost use Rattle.std.specs.Prelude.{◌≡◌, [], length};
    ghost use Rattle.llsc_base.specs.Images.{Program};

    ghost Value = { Program };

    ghost view = { λ l. l.image };

    ghost invariant = { λ l. (length l.image.bytes ≡ l.mem) × (l.page ≡ []) };
}

impl Listing {
    /// The listing of an image that has `mem` bytes.
    ///
    /// # Errors
    ///
    /// `AllocError` is want of memory.
    pub fn new(alloc: Global, image: Image, mem: u32) -> Result<Listing, AllocError>
        requires { length image.bytes ≡ mem }
        ensures { IfOk result (λ listing. listing ≡ image) }
    {
        let page = Page::new(alloc)?;
        Ok(Listing { image, mem, page })
    }
}

/// Writes a listing, a page at a time. No memory is taken.
///
/// # Errors
///
/// `Failed` where a write failed: a front of the listing is written.
pub fn write_listing<H: Host>(host: &mut H, listing: Listing) -> Result<(), Failed>
    ensures { Writes H.Host host.old host.new (disassembly listing) result }
{
    let Listing {
        image,
        mem,
        mut page,
    } = listing;
    write_lines(host, &mut page, &image, mem)
}
