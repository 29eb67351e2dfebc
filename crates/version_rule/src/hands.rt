//! What a seat is doing, as its view knows it. No value of these types is made: proofs alone speak of them.
use llsc_base::Place;
use shared_memory::View;

/// How far the call in flight has come. A version is what the tag of a class was, an even number: twice the writes that the
/// class has had.
pub enum Doing {
    /// No call is in flight.
    Rest,
    /// A write has begun, which found this version and holds the class; whether it is exclusive.
    Claimed(Place, u64, bool),
    /// It has loaded the cell too.
    Holding(Place, u64, bool, u64),
    /// It is written, and still holds the class.
    Written(Place, u64),
    /// A load-exclusive has begun.
    Looking(Place),
    /// A stamped load has found this version.
    First(Place, u64),
    /// It has loaded the cell too.
    Second(Place, u64, u64),
}

/// The reservation of the thread of a seat.
pub enum Reserve {
    /// It has none.
    Nothing,
    /// It has one, on this row, whose class had this version then.
    Row(u32, u64),
    /// The seat holds the numbers of several threads, and it isn't known what they have.
    Several,
}

/// What a seat is doing, and the reservation.
pub struct Hand {
    pub doing: Doing,
    pub reserve: Reserve,
}

/// What a seat knows.
pub type VersionView = View<Hand>;
