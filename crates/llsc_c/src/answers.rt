//! What calls answer.
ghost use Rattle.std.specs.Prelude.{◌≡◌};
ghost use Rattle.llsc_c.specs.Answers.{misuse_answer};

use memory_handle::Misuse;

/// The call has done what it is for.
pub const DONE: u32 = 0;
/// The struct holds no thread.
pub const NO_THREAD: u32 = 1;
/// The width is none of 1, 2, 4 and 8.
pub const WIDTH: u32 = 2;
/// The address is no multiple of the width.
pub const UNALIGNED: u32 = 3;
/// The place ends outside of memory.
pub const OUTSIDE: u32 = 4;
/// The value is too wide for the place.
pub const VALUE: u32 = 5;
/// The struct holds several threads, where one is wanted.
pub const SEVERAL: u32 = 6;
/// The struct holds one thread, where several are wanted.
pub const ONE: u32 = 7;
/// The threads may have made an access, so that they can't be split any more.
pub const USED: u32 = 8;
/// The threads are not those that come next.
pub const APART: u32 = 9;
/// The struct does not hold all threads of its memory.
pub const NOT_ALL: u32 = 10;
/// The length is not that of the memory.
pub const LENGTH: u32 = 11;
/// A write of the class of the place is in flight.
pub const BUSY: u32 = 12;
/// The class of the place has had all of the writes that it takes.
pub const SPENT: u32 = 13;
/// The heap gives no memory.
pub const NO_MEMORY: u32 = 14;
/// The struct holds a thread already, where it is to hold none.
pub const THREAD_HERE: u32 = 15;
/// The bytes, the threads, the classes or the limit are out of their range.
pub const SIZE: u32 = 16;
/// The granule is out of its range.
pub const GRANULE: u32 = 17;

/// The number of each answer, as C has it.
pub fn answers()
    ensures done { DONE ≡ 0 }
    ensures no_thread { NO_THREAD ≡ 1 }
    ensures width { WIDTH ≡ 2 }
    ensures unaligned { UNALIGNED ≡ 3 }
    ensures outside { OUTSIDE ≡ 4 }
    ensures value { VALUE ≡ 5 }
    ensures several { SEVERAL ≡ 6 }
    ensures one { ONE ≡ 7 }
    ensures used { USED ≡ 8 }
    ensures apart { APART ≡ 9 }
    ensures not_all { NOT_ALL ≡ 10 }
    ensures length { LENGTH ≡ 11 }
    ensures busy { BUSY ≡ 12 }
    ensures spent { SPENT ≡ 13 }
    ensures no_memory { NO_MEMORY ≡ 14 }
    ensures thread_here { THREAD_HERE ≡ 15 }
    ensures size { SIZE ≡ 16 }
    ensures granule { GRANULE ≡ 17 }
{}

/// The answer to a misuse.
#[inline]
pub fn answer_to(misuse: Misuse) -> u32
    ensures { result ≡ misuse_answer misuse }
{
    match misuse {
        Misuse::Width => WIDTH,
        Misuse::Alignment => UNALIGNED,
        Misuse::Outside => OUTSIDE,
        Misuse::Value => VALUE,
        Misuse::Several => SEVERAL,
        Misuse::One => ONE,
        Misuse::Used => USED,
        Misuse::Busy => BUSY,
        Misuse::Spent => SPENT,
        Misuse::NoMemory => NO_MEMORY,
    }
}
