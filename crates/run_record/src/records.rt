//! The record of a run.
ghost use Rattle.std.specs.Prelude.{◌≡◌};

use history::Access;
use std::marker::Model;

/// The accesses of a run, in order.
#[derive(Drop)]
pub struct Accesses {
    items: Vec<Access>,
}

impl Model for Accesses {
    ghost use Rattle.std.specs.Prelude.{List};
    ghost use Rattle.history.specs.declared.entry.Access.{Access};

    ghost Value = { List Access };

    ghost view = { λ a. a.items.items };
}

impl Accesses {
    /// The accesses of a vector.
    pub fn new(items: Vec<Access>) -> Accesses
        ensures { result ≡ items.items }
    {
        Accesses { items }
    }

    /// The accesses.
    pub fn as_slice(&self) -> &[Access]
        ensures { result.now ≡ self.now }
    {
        self.items.as_slice()
    }

    /// The vector of the accesses.
    pub fn into_vec(self) -> Vec<Access>
        ensures { result.items ≡ self }
    {
        self.items
    }
}

/// The record of a run: its threads, 1 to 16, the budget of instructions that each had, 1 to 1,000,000,000,000, the
/// granule number, 0 to 8, and at most 1,000,000 accesses in the order in which they were made.
///
/// A row, on which a monitor marks a thread, had `8 * 2^granule` bytes. The thread of each access is below `threads`, its
/// place is aligned, and its value fits its size; a `Clear` has the place of one byte at address 0 and the value 0.
#[derive(Drop)]
pub struct RunRecord {
    pub threads: u32,
    pub budget: u64,
    pub granule: u32,
    pub accesses: Accesses,
}
