//! What an instruction comes to that makes no access.
use llsc_base::{CallAsk, Stop};

/// What an instruction comes to that makes no access.
#[derive(Clone, Copy)]
pub enum Outcome {
    /// It is complete, and the one behind it comes next.
    Next,
    /// It is complete, and any may come next.
    Jumps,
    /// It makes a guest call.
    Calls(CallAsk),
    /// It stops the thread.
    Stops(Stop),
}
