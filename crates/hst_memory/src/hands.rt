//! What a seat is doing, as its view knows it. No value of these types is made: proofs alone speak of them.
use llsc_base::Place;
use shared_memory::View;

/// How far the call in flight has come.
pub enum Doing {
    /// No call is in flight.
    Rest,
    /// A store is inside the shared section.
    Inside(Place),
    /// It has begun: the tag of its class has its name.
    Begun(Place),
    /// It is written, and still inside.
    Written(Place),
    /// Inside alone, and nothing has come of it yet.
    Alone,
    /// A load-exclusive has begun, alone.
    Watching(Place),
    /// A call is over, and still alone.
    Done,
    /// A store-exclusive has begun, alone.
    AloneBegun(Place),
    /// It is written, and still alone.
    AloneWritten(Place),
}

/// The reservation of the thread of a seat.
pub enum Reserve {
    /// It has none.
    Nothing,
    /// It has one, on this row.
    Row(u32),
    /// The seat holds the numbers of several threads, and it isn't known what they have.
    Several,
}

/// What a seat is doing, and the reservation.
pub struct Hand {
    pub doing: Doing,
    pub reserve: Reserve,
}

/// What a seat knows.
pub type HstView = View<Hand>;
