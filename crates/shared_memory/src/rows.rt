//! Memory as it is left when it is closed.
ghost use Rattle.std.specs.Prelude.{◌≡◌, ◌+◌, ◌<◌, ◌≤◌, [], drop, length, slice_index, take};
ghost use Rattle.std.specs.Mem.Slots.{IsFull, slots_items, slots_len};

use atomic_table::Closed;
use std::alloc::Global;
use std::marker::Model;

/// The cells of a memory that was closed, from address 0 up.
///
/// A cell is eight aligned bytes as one number, the first the least significant, whatever the granule. The name says row for
/// it, and so does [`Rows::row`]; everywhere else a row is what a reservation is held on, of one cell or of more by the granule.
/// A contract sees the cells as a list.
pub struct Rows {
    closed: Closed<(), Global>,
    /// The word of the table that is the first cell.
    base: usize,
    /// How many cells there are.
    count: u32,
}

impl Model for Rows {
    ghost use Rattle.std.specs.Prelude.{ℕ, List, drop, take, ◌+◌, ◌≤◌, ◌≡◌};
    ghost use Rattle.std.specs.Mem.Slots.{IsFull, slots_items, slots_len};

    ghost Value = { List ℕ };

    ghost view = { λ r. take r.count (drop r.base (slots_items r.closed.words)) };

    ghost invariant = { λ r. IsFull r.closed.words
        × (r.base + r.count ≤ slots_len r.closed.words) × (slots_len r.closed.slots ≡ 0) };
}

impl Rows {
    /// So many words of a table that was closed, from one on, as cells.
    pub fn new(closed: Closed<(), Global>, base: usize, count: u32) -> Rows
        requires full { IsFull closed.words }
        requires within { base + count ≤ slots_len closed.words }
        requires none { slots_len closed.slots ≡ 0 }
        ensures { result ≡ take count (drop base (slots_items closed.words)) }
    {
        Rows {
            closed,
            base,
            count,
        }
    }

    /// How many cells there are.
    pub fn count(&self) -> u32
        ensures { result ≡ length self.now }
    {
        self.count
    }

    /// The cell of this index, from 0 up and below the count: the eight bytes from eight times the index up, the first the
    /// least significant, whatever the granule.
    pub fn row(&self, i: u32) -> u64
        requires { i < length self.now }
        ensures { result ≡ slice_index self.now i }
    {
        self.closed.word(self.base + i as usize)
    }
}

impl Drop for Rows {
    fn drop(self) {
        let Self {
            closed,
            base: _,
            count: _,
        } = self;
        closed.free();
    }
}
