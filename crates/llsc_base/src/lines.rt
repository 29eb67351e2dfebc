//! A short text that is held in place.
ghost use Rattle.std.specs.Prelude.{◌≡◌, ◌<◌, ◌≤◌, ◌++◌, ◌∷◌, [], length};

use arrayvec::ArrayVec;
use std::marker::Model;

/// How many bytes a line holds at most.
pub const LINE_BYTES: usize = 96;

/// A text of at most 96 bytes, held in place.
#[derive(Drop)]
pub struct Line {
    text: ArrayVec<u8, LINE_BYTES>,
}

impl Model for Line {
    ghost use Rattle.std.specs.Prelude.{List, ℕ};

    ghost Value = { List ℕ };

    ghost view = { λ l. l.text.items };
}

impl Line {
    /// The empty line.
    pub fn new() -> Line
        ensures { result ≡ [] }
    {
        Line {
            text: ArrayVec::new(),
        }
    }

    /// The bytes of the text, at most 96.
    pub fn bytes(&self) -> &[u8]
        ensures text { result.now ≡ self.now }
        ensures most { length result.now ≤ 96 }
    {
        self.text.as_slice()
    }

    /// Adds a byte at the end of a text of fewer than 96.
    pub fn push(&mut self, byte: u8)
        requires { length self.old < 96 }
        ensures { self.new ≡ self.old ++ byte ∷ [] }
    {
        self.text.push(byte);
    }
}
