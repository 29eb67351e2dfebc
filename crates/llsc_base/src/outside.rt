//! What a guest thread asks of what is outside, whatever its instruction set.
use crate::access::Place;

/// An access to memory that an instruction asks for. It says nothing of what comes of that: what an access did is a `Deed` of
/// `history`, which has two for `StoreEx`.
#[derive(Clone, Copy, Debug, PartialEq, Eq)]
pub enum Ask {
    /// The value of a place. The reply is that value.
    Load(Place),
    /// The value of a place, with a reservation of it. The reply is that value.
    LoadEx(Place),
    /// A store of a value, which fits the place. The reply is 0.
    Store(Place, u64),
    /// A store of a value, which fits the place, if the reservation stands. The reply is its status: 0 where the value was
    /// stored, and 1 where it was not.
    StoreEx(Place, u64),
    /// The end of a reservation. The reply is 0.
    Clear,
}

/// A guest call: its number and its first three arguments, each in the register that its instruction set has for it, and the
/// immediate of the instruction that calls, which is 0 where that has none.
#[derive(Clone, Copy, Debug, PartialEq, Eq)]
pub struct CallAsk {
    pub imm: u32,
    pub number: u32,
    pub a: u32,
    pub b: u32,
    pub c: u32,
}

/// Why a guest thread runs no further.
#[derive(Clone, Copy, Debug, PartialEq, Eq)]
pub enum Stop {
    /// The exit call, with its code modulo 256.
    Exit(u8),
    /// The word at this address is no instruction.
    Undefined(u32),
    /// The instruction at this address is unpredictable; or, in a set in which that counts as such, it writes a PC whose lowest two
    /// bits are 10.
    Unpredictable(u32),
    /// An access at this address, which is no multiple of its size.
    Alignment(u32),
    /// An access at this address reaches past memory, or no instruction may be run there.
    Outside(u32),
    /// A store at this address has a byte in a span that isn't written.
    ReadOnly(u32),
    /// The instruction at this address writes a PC with bit 0 set, which would go on with instructions of another length.
    Thumb(u32),
    /// The thread has used up its steps.
    Budget,
    /// The class of this address has no write left.
    TagLimit(u32),
}
