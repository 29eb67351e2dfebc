//! A box as its raw pointer, and back.
//!
//! A [`Loose`] owns what its box owned, and its pointer can be taken: for a struct that keeps the pointer alone, as one that C holds,
//! and says by itself what is owned behind it.
#![tactic(auto)]

ghost use Rattle.std.specs.Prelude.{◌≡◌};
ghost use Rattle.std.specs.Box.Ownership.{box_owns};

use std::alloc::Allocator;
use std::marker::Model;

/// A box that was taken apart into its pointer and its allocator. It can't be dropped: who has one makes the box again, or takes it
/// apart and owns by itself what is behind the pointer.
pub struct Loose<T, A: Allocator> {
    /// Where the value is.
    pub at: *mut T,
    /// The allocator that the box was made by.
    pub alloc: A,
    /// The value.
    pub ghost value: { T },
}

impl<T, A: Allocator> Model for Loose<T, A> {
    ghost also_owns = { λ l. box_owns (A.dealloc_token l.alloc) T.row l.at l.value };
}

impl<T: Drop, A: Allocator> Loose<T, A> {
    /// Takes a box apart.
    pub fn of(value: Box<T, A>) -> Loose<T, A>
        ensures { result.value ≡ value.value }
    {
        let (at, alloc) = Box::into_raw_with_allocator(value);
        Loose { at, alloc }
    }

    /// Makes the box again.
    pub fn into_box(self) -> Box<T, A>
        ensures { result.value ≡ self.value }
    {
        let Loose { at, alloc } = self;
        unsafe { Box::from_raw(alloc, at) }
    }
}
