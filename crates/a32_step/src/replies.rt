//! The replies that an instruction has had.
ghost use Rattle.std.specs.Prelude.{◌≡◌, ◌<◌, ◌≤◌, [], ◌∷◌, ◌++◌, length, slice_get, slice_index};

use std::marker::Model;

/// The most accesses that one instruction asks for.
const MOST: usize = 16;

/// The replies that the instruction in hand has had, in order, at most 16 of them.
#[derive(Drop)]
pub struct Replies {
    items: [u64; MOST],
    count: usize,
}

impl Model for Replies {
    ghost use Rattle.std.specs.Prelude.{List, ℕ, ◌≤◌, take};

    ghost Value = { List ℕ };

    ghost view = { λ r. take r.count r.items };

    ghost invariant = { λ r. r.count ≤ 16 };
}

impl Replies {
    /// None so far.
    pub fn new() -> Replies
        ensures { result ≡ [] }
    {
        Replies {
            items: [0; MOST],
            count: 0,
        }
    }

    /// The first of them.
    pub fn first(&self) -> Option<u64>
        ensures { result ≡ slice_get self.now 0 }
    {
        if self.count == 0 {
            None
        } else {
            Some(self.items[0])
        }
    }

    /// How many there are.
    pub fn count(&self) -> usize
        ensures count { result ≡ length self.now }
        ensures most { result ≤ 16 }
    {
        self.count
    }

    /// The one of this number, counted from 0.
    pub fn at(&self, i: usize) -> u64
        requires { i < length self.now }
        ensures { result ≡ slice_index self.now i }
    {
        // The bound of the count is at hand for the index.
        let _ = &self.count;
        self.items[i]
    }

    /// One more.
    pub fn push(&mut self, reply: u64)
        requires { length self.old < 16 }
        ensures { self.new ≡ self.old ++ reply ∷ [] }
    {
        self.items[self.count] = reply;
        self.count += 1;
    }

    /// Forgets them all.
    pub fn clear(&mut self)
        ensures { self.new ≡ [] }
    {
        self.count = 0;
    }
}
