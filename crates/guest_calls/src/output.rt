//! What a thread wrote.
ghost use Rattle.std.specs.Prelude.{◌≡◌, ◌+◌, ◌<◌, ◌≤◌, [], ◌∷◌, ◌++◌, length, IfOk};
ghost use Rattle.guest_calls.specs.Calls.{most_output};

use std::alloc::{AllocError, Global};
use std::marker::Model;

/// The most bytes that a thread writes.
const MOST: u32 = 65_536;

/// The bytes that a thread wrote, in order, at most 65,536 of them. Room for all of them is reserved when it is made.
#[derive(Drop)]
pub struct Output {
    written: Vec<u8>,
}

impl Model for Output {
    ghost use Rattle.std.specs.Prelude.{List, ℕ};

    ghost Value = { List ℕ };

    ghost use Rattle.guest_calls.specs.OutputInside.{IsReserved};

    ghost view = { λ o. o.written.items };

    ghost invariant = { IsReserved };
}

impl Output {
    /// No bytes yet.
    ///
    /// # Errors
    ///
    /// `AllocError` is want of memory.
    pub fn new(alloc: Global) -> Result<Output, AllocError>
        ensures { IfOk result (λ output. output ≡ []) }
    {
        Ok(Output {
            written: Vec::with_capacity(alloc, MOST as usize)?,
        })
    }

    /// How many bytes more may be written: 65,536 less those that were.
    pub fn room_left(&self) -> u32
        ensures { length self.now + result ≡ most_output }
    {
        MOST - self.written.len() as u32
    }

    /// The bytes so far.
    pub fn bytes(&self) -> &[u8]
        ensures bytes { result.now ≡ self.now }
        ensures most { length result.now ≤ most_output }
    {
        self.written.as_slice()
    }

    /// One byte more, after fewer than 65,536.
    pub fn push(&mut self, b: u8)
        requires { length self.old < most_output }
        ensures { self.new ≡ self.old ++ b ∷ [] }
    {
        self.written.push(b).unwrap();
    }
}
