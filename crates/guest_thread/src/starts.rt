//! Where a thread's core begins.
ghost use Rattle.std.specs.Prelude.{◌≡◌, ◌<◌};
ghost use Rattle.guest_thread.specs.Start.{thread_start};

use guest_core::Core;
use llsc_base::{Image, MachineSize};

/// The core of a thread of a program at its start: at the program's entry, with its number, how many threads begin by themselves, and
/// its stack pointer at the end of its own 4096 bytes at the top of memory, each in the register that its instruction set has for it.
/// `t` is below the machine's threads.
pub fn start_cpu<C: Core>(image: &Image, size: &MachineSize, first: u32, t: u32) -> C
    requires { t < size.now.threads }
    ensures { C.machine result ≡ thread_start C.set image.now size.now first t }
{
    let stack = size.room() + 4096 * (t + 1);
    C::start(image.entry(), t, first, stack)
}
