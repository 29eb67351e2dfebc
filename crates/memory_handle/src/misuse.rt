//! What was wrong with a call.
ghost use Rattle.std.specs.Prelude.{◌≡◌};
ghost use Rattle.memory_handle.specs.Faults.{misuse_name};

use thiserror::Error;

/// Why a call was refused.
#[derive(Clone, Copy, Debug, PartialEq, Eq, Error)]
pub enum Misuse {
    /// The width is not 1, 2, 4 or 8 bytes.
    #[error("the width is not 1, 2, 4 or 8")]
    Width,
    /// The address is no multiple of the width.
    #[error("the address is no multiple of the width")]
    Alignment,
    /// The place ends past memory.
    #[error("the place ends past memory")]
    Outside,
    /// The value has more bytes than the place.
    #[error("the value has more bytes than the place")]
    Value,
    /// The handle has several threads; by one of these alone an access is made.
    #[error("the handle has several threads")]
    Several,
    /// The handle has one thread, and can't be split.
    #[error("the handle has one thread")]
    One,
    /// The handle has taken in other threads by [`Handle::join`](crate::Handle::join), and can't be split any more.
    #[error("the handle has taken in other threads")]
    Used,
    /// A write of another thread in the class of the place is in flight, or came first. The same store may be done when it is
    /// tried again.
    #[error("another write is in flight")]
    Busy,
    /// The class of the place has had as many writes as the memory's limit allows. No store in this class is done any more.
    #[error("the class has had all of its writes")]
    Spent,
    /// No memory is left; at a split, that the memory can't have another owner.
    #[error("no memory is left")]
    NoMemory,
}

impl Misuse {
    /// The variant's name.
    pub fn name(&self) -> &str
        ensures { result.now ≡ misuse_name self.now }
    {
        match self {
            Misuse::Width => "Width",
            Misuse::Alignment => "Alignment",
            Misuse::Outside => "Outside",
            Misuse::Value => "Value",
            Misuse::Several => "Several",
            Misuse::One => "One",
            Misuse::Used => "Used",
            Misuse::Busy => "Busy",
            Misuse::Spent => "Spent",
            Misuse::NoMemory => "NoMemory",
        }
    }
}
