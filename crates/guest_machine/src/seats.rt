//! The threads of a trace.
ghost use Rattle.std.specs.Prelude.{◌≡◌, IfOk, map};
ghost use Rattle.std.specs.List.{range_with_len};
ghost use Rattle.guest_machine.specs.inner.Seats.{first_seat, seat_in};

use guest_core::Core;
use guest_thread::Guest;
use llsc_base::{Image, MachineSize, Stop};
use std::alloc::{AllocError, Global};

/// A thread, and its stop once it has stopped.
#[derive(Drop)]
pub(crate) struct Seat<C: Core> {
    pub(crate) guest: Guest<C>,
    pub(crate) stop: Option<Stop>,
}

/// All threads at their start, in order of number.
pub(crate) fn seats<C: Core>(
    alloc: Global,
    image: &Image,
    size: &MachineSize,
) -> Result<Vec<Seat<C>>, AllocError>
    ensures { IfOk result (λ seats. map (seat_in C.machine) seats.items ≡ map (first_seat C.set image.now size.now) (range_with_len 0 size.now.threads)) }
{
    let mut seats = Vec::with_capacity(alloc, size.threads() as usize)?;
    for t in 0..size.threads() {
        let guest = Guest::start(alloc, image, size, t)?;
        seats.push(Seat { guest, stop: None })?;
    }
    Ok(seats)
}

/// The numbers of all threads.
pub(crate) fn numbers(alloc: Global, threads: u32) -> Result<Vec<u32>, AllocError>
    ensures { IfOk result (λ numbers. numbers.items ≡ range_with_len 0 threads) }
{
    let mut numbers = Vec::with_capacity(alloc, threads as usize)?;
    for t in 0..threads {
        numbers.push(t)?;
    }
    Ok(numbers)
}
