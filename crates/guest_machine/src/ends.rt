//! How the threads of a trace ended.
ghost use Rattle.std.specs.Prelude.{◌≤◌, IfOk, IsSome, length};
ghost use Rattle.guest_machine.specs.inner.Seats.{AreEndsOfSeats, HaveStopped, IsEndOfSeat};

use crate::seats::Seat;
use guest_core::Core;
use guest_thread::{GuestEnd, counts_of};
use history::Access;
use std::alloc::{AllocError, Global};

/// The ends of all threads, which have stopped and made these accesses, in order of number.
pub(crate) fn ends_of<C: Core>(
    alloc: Global,
    mut seats: Vec<Seat<C>>,
    accesses: &[Access],
) -> Result<Vec<GuestEnd>, AllocError>
    requires stopped { HaveStopped seats.items }
    requires few { length seats.items ≤ 16 }
    ensures { IfOk result (λ ends. AreEndsOfSeats accesses.now 0 seats.items ends.items) }
{
    let mut ends = Vec::with_capacity(alloc, seats.len())?;
    while let Some(seat) = seats.pop() {
        ends.insert(0, end_of(seat, seats.len() as u32, accesses))?;
    }
    Ok(ends)
}

/// The end of a thread that has stopped.
fn end_of<C: Core>(seat: Seat<C>, thread: u32, accesses: &[Access]) -> GuestEnd
    requires stopped { IsSome seat.stop }
    ensures { IsEndOfSeat accesses.now thread seat result }
{
    let counts = counts_of(accesses, thread);
    let stop = seat.stop.unwrap();
    GuestEnd {
        thread,
        stop,
        steps: seat.guest.steps(),
        reads: counts.reads,
        writes: counts.writes,
        fails: counts.fails,
        out: seat.guest.into_output(),
    }
}
