//! How far a thread has come in its instruction, and what holds it.
use llsc_base::{Ask, CallAsk, Stop};

/// The point that a thread has reached in its instruction.
#[derive(Clone, Copy)]
pub enum Point {
    /// Between two instructions.
    Between,
    /// Inside an instruction that waits for nothing.
    Inside,
    /// Held: it waits, or has stopped.
    Held,
}

/// What holds a thread.
#[derive(Clone, Copy)]
pub enum Hold {
    /// An access, whose reply it waits for.
    Access(Ask),
    /// A guest call, whose answer it waits for.
    Call(CallAsk),
    /// It has stopped for good.
    Stopped(Stop),
}

/// How far an instruction has come.
#[derive(Clone, Copy, PartialEq, Eq)]
pub enum Progress {
    /// It is complete.
    Complete,
    /// It isn't: it waits, or the thread has stopped.
    Held,
}

/// How far an instruction has come that is kept ready.
#[derive(Clone, Copy, PartialEq, Eq)]
pub enum Came {
    /// It wasn't met, and has done nothing.
    Unmet,
    /// It is complete, and the one behind it comes next.
    Next,
    /// It is complete, and any may come next.
    Jumped,
    /// Its condition has passed, and it has done nothing else.
    Passed,
    /// It isn't complete: it waits, or the thread has stopped.
    Held,
}
