//! What a core wants, and how far an instruction came that was carried on.
use llsc_base::{Ask, CallAsk, Stop};

/// What a thread wants from outside.
#[derive(Clone, Copy, Debug, PartialEq, Eq)]
pub enum Wanted {
    /// The reply to an access.
    Access(Ask),
    /// The answer of a guest call.
    Call(CallAsk),
    /// Nothing: an instruction is complete.
    Done,
    /// Nothing any more.
    Stopped(Stop),
}

/// How far an instruction came that was carried on over a port.
#[derive(Clone, Copy, Debug, PartialEq, Eq)]
pub enum Passage {
    /// It is complete, and the one behind it comes next.
    Next,
    /// It is complete, and any may come next.
    Jumped,
    /// It is at its start, and has not done anything.
    AtStart,
    /// It is under way: it has had replies, and goes on.
    UnderWay,
    /// It wasn't met, and nothing was done.
    Unmet,
}
