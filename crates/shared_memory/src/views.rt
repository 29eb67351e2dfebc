//! What the seats of a memory's table know. No value of these types is made: proofs alone speak of them.
use history::Entry;
use std::collections::LinkedList;

/// What a pass held and had seen before it was joined to another.
pub struct Part {
    /// For each thread number whether it was held.
    pub numbers: [bool; 0],
    /// The front of the history that was seen.
    pub seen: LinkedList<Entry>,
}

/// What a seat knows; `D` is the memory's own: how far the call in flight has come, and the reservation.
pub struct View<D> {
    /// For each thread number whether it is held. (A clause reads an array as a list, of any length.)
    pub numbers: [bool; 0],
    /// One of the numbers.
    pub lead: u32,
    /// The front of the history that was seen.
    pub seen: LinkedList<Entry>,
    /// While two passes are joined: what the one was.
    pub left: Part,
    /// And what the other was.
    pub right: Part,
    /// The memory's own.
    pub doing: D,
}
