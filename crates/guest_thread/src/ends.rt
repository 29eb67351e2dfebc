//! How a guest thread ended.
use guest_calls::Output;
use llsc_base::Stop;

/// How a guest thread ended.
#[derive(Drop)]
pub struct GuestEnd {
    /// The number of the thread.
    pub thread: u32,
    /// Why it runs no further.
    pub stop: Stop,
    /// Its completed instructions, the exit call counted too.
    pub steps: u64,
    /// How many loads and load-exclusives it made.
    pub reads: u64,
    /// How many stores it made, and store-exclusives that stored.
    pub writes: u64,
    /// How many store-exclusives it made that failed.
    pub fails: u64,
    /// What it wrote.
    pub out: Output,
}
