//! How a call ended.
use version_memory::VersionStory;

/// How a call ended.
#[derive(Drop)]
pub struct Ended {
    /// 0: the answer is written whole, and each thread left with code 0 or the record is good; 1: a thread stopped
    /// otherwise; 2: the words are refused; 3: a file could not be read; 4: the size, a file or a number of rounds is
    /// refused, or the trace or the recorded run is too long; 5: a write failed; 6: want of memory; 7: the record is bad.
    pub status: u8,
    /// The history of the accesses of threads that ran beside each other, where any did. Nothing of it is read at run time.
    pub story: Option<VersionStory>,
}
