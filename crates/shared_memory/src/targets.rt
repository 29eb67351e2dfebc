//! Where an access goes.
ghost use Rattle.std.specs.Prelude.{◌≡◌};
ghost use Rattle.llsc_base.specs.Memory.{cell_of, class_of, row_of};
ghost use Rattle.shared_memory.specs.Layout.{cell_word, tag_word};

use llsc_base::{MachineSize, Place};

/// A place, a value to store there, and the words of the table that serve it.
#[derive(Clone, Copy)]
pub struct Target {
    pub place: Place,
    pub value: u64,
    /// The word of the tag of its class.
    pub tag: usize,
    /// The word of its cell.
    pub word: usize,
}

impl Target {
    /// A place with its words, and a value.
    #[inline]
    pub fn of(size: &MachineSize, place: Place, value: u64) -> Target
        ensures place { result.place ≡ place }
        ensures value { result.value ≡ value }
        ensures tag { result.tag ≡ tag_word (class_of size.now.classes (row_of size.now.granule place)) }
        ensures word { result.word ≡ cell_word size.now (cell_of place) }
    {
        Target {
            place,
            value,
            tag: 1 + size.class_of(place.row(size.granule())) as usize,
            word: word_of_cell(size, place),
        }
    }
}

/// The word of the cell of a place.
#[inline]
pub fn word_of_cell(size: &MachineSize, place: Place) -> usize
    ensures { result ≡ cell_word size.now (cell_of place) }
{
    1 + size.classes() as usize + place.cell() as usize
}
