//! A program: its code, its data and the space behind them.
ghost use Rattle.std.specs.Prelude.{◌≡◌};

use std::marker::Model;

/// The code words of a program, in order.
#[derive(Drop)]
pub struct Words {
    items: Vec<u32>,
}

impl Model for Words {
    ghost use Rattle.std.specs.Prelude.{List, ℕ};

    ghost Value = { List ℕ };

    ghost view = { λ w. w.items.items };
}

impl Words {
    /// The words of a vector.
    pub fn new(items: Vec<u32>) -> Words
        ensures { result ≡ items.items }
    {
        Words { items }
    }

    /// The words.
    pub fn as_slice(&self) -> &[u32]
        ensures { result.now ≡ self.now }
    {
        self.items.as_slice()
    }

    /// The vector of the words.
    pub fn into_vec(self) -> Vec<u32>
        ensures { result.items ≡ self }
    {
        self.items
    }
}

/// The data bytes of a program, in order.
#[derive(Drop)]
pub struct Bytes {
    items: Vec<u8>,
}

impl Model for Bytes {
    ghost use Rattle.std.specs.Prelude.{List, ℕ};

    ghost Value = { List ℕ };

    ghost view = { λ b. b.items.items };
}

impl Bytes {
    /// The bytes of a vector.
    pub fn new(items: Vec<u8>) -> Bytes
        ensures { result ≡ items.items }
    {
        Bytes { items }
    }

    /// The bytes.
    pub fn as_slice(&self) -> &[u8]
        ensures { result.now ≡ self.now }
    {
        self.items.as_slice()
    }

    /// The vector of the bytes.
    pub fn into_vec(self) -> Vec<u8>
        ensures { result.items ≡ self }
    {
        self.items
    }
}

/// A program as an assembler makes it: its code from address 0x1000 on, its data from the first multiple of
/// 4096 behind the code on, and behind the data so many bytes of zeros.
#[derive(Drop)]
pub struct Unit {
    pub words: Words,
    pub bytes: Bytes,
    pub space: u32,
}
