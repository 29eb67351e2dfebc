//! Pages of output, each of which is made before it is written.
ghost use Rattle.std.specs.Prelude.{◌≡◌, ◌+◌, ◌≤◌, ◌++◌, [], length, nat_le, IfOk, OnOk};
ghost use Rattle.llsc_texts.specs.Paging.{Pages};

use llsc_host::{Failed, Host, write};
use std::alloc::{AllocError, Global};
use std::marker::Model;

/// The most bytes of a page.
const PAGE_BYTES: usize = 65_536;

/// A page: at most 65,536 bytes, whose space is taken when it is made.
#[derive(Drop)]
pub struct Page {
    text: Vec<u8>,
}

impl Model for Page {
    ghost use Rattle.std.specs.Prelude.{List, ℕ, ◌≤◌, length, vec_capacity};

    ghost Value = { List ℕ };

    ghost view = { λ p. p.text.items };

    ghost invariant = { λ p. (length p.text.items ≤ 65536) × (65536 ≤ vec_capacity p.text) };
}

impl Page {
    /// An empty page.
    pub fn new(alloc: Global) -> Result<Page, AllocError>
        ensures { IfOk result (λ page. page ≡ []) }
    {
        Ok(Page {
            text: Vec::with_capacity(alloc, PAGE_BYTES)?,
        })
    }

    /// The bytes of the page, at most 65,536.
    pub fn bytes(&self) -> &[u8]
        ensures text { result.now ≡ self.now }
        ensures most { length result.now ≤ 65536 }
    {
        self.text.as_slice()
    }

    /// Whether there is room for so many bytes more.
    pub fn has_room(&self, count: usize) -> bool
        ensures { result ≡ nat_le (length self.now + count) 65536 }
    {
        count <= PAGE_BYTES - self.text.len()
    }

    /// Adds bytes at the end.
    pub fn push(&mut self, bytes: &[u8])
        requires { length self.old + length bytes.now ≤ 65536 }
        ensures { self.new ≡ self.old ++ bytes.now }
    {
        self.text.extend_from_slice(bytes).unwrap();
    }

    /// Takes all bytes away.
    pub fn clear(&mut self)
        ensures { self.new ≡ [] }
    {
        self.text.clear();
    }
}

/// Writes the page, if it has no room for so many bytes more. Afterwards it has.
///
/// # Errors
///
/// `Failed` where the write failed.
pub fn make_room<H: Host>(host: &mut H, page: &mut Page, count: usize) -> Result<(), Failed>
    requires { count ≤ 65536 }
    ensures pages { Pages H.Host host.old host.new page.old page.new page.old result }
    ensures room { OnOk result (length page.new + count ≤ 65536) }
{
    if page.has_room(count) {
        return Ok(());
    }
    write(host, page.bytes())?;
    page.clear();
    Ok(())
}
