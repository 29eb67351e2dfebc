//! Pauses of a thread whose store-exclusives fail, so that threads that store to one class come through one after another.
ghost use Rattle.std.specs.Prelude.{◌≤◌};

use crossbeam_utils::Backoff;

/// The most pauses before a load-exclusive.
const MOST_PAUSES: u32 = 8;

/// How often a thread pauses before its next load-exclusive, after a store-exclusive that is done or has failed: twice more where
/// it failed, and once less where it is done.
#[inline]
pub fn pauses_after(pauses: u32, done: bool) -> u32
    ensures { result ≤ 8 }
{
    let next = if done {
        pauses.saturating_sub(1)
    } else {
        pauses.saturating_add(2)
    };
    next.min(MOST_PAUSES)
}

/// Pauses so often, each time about twice as long.
#[inline]
pub fn pause(pauses: u32)
    requires { pauses ≤ 8 }
{
    let backoff = Backoff::new();
    for _ in 0..pauses {
        backoff.spin();
    }
}
